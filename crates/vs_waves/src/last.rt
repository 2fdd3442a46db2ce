//! The planes of all signals whose values are written, as they were at the end of a slot.

ghost use Rattle.std.specs.Prelude.{◌≡◌, ℕ, ◌<◌, ◌+◌, ◌||◌, All, [], length, map, slice_get, Some, IfOk, if◌then◌else◌};
ghost use Rattle.vs_design.specs.Expressions.{signal_length};
ghost use Rattle.vs_design.specs.Values.{count_from};
ghost use Rattle.vs_engine.specs.Lanes.{differ_below, state};
ghost use Rattle.vs_flat.specs.DesignOf.{design_of};
ghost use Rattle.vs_plane.specs.Lanes.{slot_lane};
ghost use Rattle.vs_program.specs.declared.compiled.Span.{Span};
ghost use Rattle.vs_vcd.specs.Scopes.{shown_signals};
ghost use Rattle.vs_vcd.specs.Shared.{at_places, code_at, leading_from, led_by};
ghost use Rattle.vs_vcd.specs.Texts.{changed_from, shown_numbers, value_lines};
ghost use Rattle.vs_waves.specs.Changes.{changes_text, AreOf};
ghost use Rattle.vs_waves.specs.Last.{last_values};
ghost use Rattle.vs_waves.specs.Rounds.{lane_values};

use crate::changes::Changes;
use std::alloc::{AllocError, Global};
use std::marker::Model;
use vs_engine::Engine;
use vs_flat::{Flat, length_of, trees_law};
use vs_four::Bit4;
use vs_plane::{Lanes, Pair, Word};
use vs_program::Span;
use vs_vcd::Codes;

/// The planes of the bits of all signals whose values are written, one signal behind the other, as they were at the end of a slot. A
/// memory (IEEE 1364-2005, 4.9) has a number among all signals, and no line; of signals that have one code the first one is written.
#[derive(Drop)]
pub(crate) struct Last<W: Word> {
    spans: Vec<Span>,
    /// The number of each of these signals in the design.
    numbers: Vec<u32>,
    /// The place of each of them among the signals that have lines, which the engine holds.
    places: Vec<u32>,
    /// How many signals the design has.
    signals: u32,
    planes: Vec<Pair<W>>,
}

// Clauses see the planes, and the bits of each signal.
impl<W: Word> Model for Last<W> {
    ghost use Rattle.std.specs.Prelude.{length};
    ghost use Rattle.vs_waves.specs.Last.{LastPlanes, AreLaid};

    ghost Value = { LastPlanes W };

    ghost view = { λ l. record { spans = l.spans.items; numbers = l.numbers.items; places = l.places.items; signals = l.signals; planes = l.planes.items } };

    ghost invariant = { λ l. AreLaid l.spans.items l.numbers.items l.places.items l.signals (length l.planes.items) };
}

impl<W: Lanes> Last<W> {
    /// The planes of the signals that are written with these codes. Each bit is x in every lane.
    pub(crate) fn new(alloc: Global, flat: &Flat, codes: &Codes) -> Result<Last<W>, AllocError>
        ensures lengths { IfOk result (λ last. map (λ (s : Span). s.length) last.spans ≡ map signal_length (shown_signals (led_by (code_at codes.now) (design_of flat.now)))) }
        ensures numbers { IfOk result (λ last. last.numbers ≡ shown_numbers (led_by (code_at codes.now) (design_of flat.now))) }
        ensures places { IfOk result (λ last. last.places ≡ leading_from (code_at codes.now) 0 (shown_signals (design_of flat.now))) }
        ensures signals { IfOk result (λ last. last.signals ≡ length (design_of flat.now).signals) }
    {
        trees_law();
        let signals = flat.signal_count();
        let mut spans = Vec::with_capacity(alloc, signals as usize)?;
        let mut numbers = Vec::with_capacity(alloc, signals as usize)?;
        let mut places = Vec::with_capacity(alloc, signals as usize)?;
        let mut first = 0;
        let mut place = 0;
        for n in 0..signals {
            let signal = flat.signal(n);
            if signal.words.is_none() {
                if codes.code(n) == n {
                    let length = length_of(signal.range);
                    spans.push_reserved(Span { first, length });
                    numbers.push_reserved(n);
                    places.push_reserved(place);
                    first += length;
                }
                place += 1;
            }
        }
        let planes = vec![in alloc; Pair::of_bit(Bit4::X); first as usize]?;
        Ok(Last {
            spans,
            numbers,
            places,
            signals,
            planes,
        })
    }

    /// Takes over the planes that the engine holds. The changes are then those of the signals, in the lanes in which their values
    /// weren't the same before, or all of them, if so told.
    pub(crate) fn take_over(&mut self, engine: &Engine<W>, all: bool, changes: &mut Changes<W>)
        requires within { All (λ k. k < length engine.now.program.signals) self.old.places }
        requires lengths { at_places 0 self.old.places (map (λ (s : Span). s.length) engine.now.program.signals) ≡ map (λ (s : Span). s.length) self.old.spans }
        requires room { AreOf W.LANES self.old.signals changes.old }
        ensures spans { self.new.spans ≡ self.old.spans }
        ensures numbers { self.new.numbers ≡ self.old.numbers }
        ensures places { self.new.places ≡ self.old.places }
        ensures signals { self.new.signals ≡ self.old.signals }
        ensures values { (i : ℕ) → i < W.LANES → last_values W.lane self.new i ≡ at_places [] self.old.places (lane_values W.lane engine.now i) }
        ensures text { (i : ℕ) → i < W.LANES → changes_text W.lane W.LANES changes.new i ≡ value_lines self.old.numbers (at_places [] self.old.places (lane_values W.lane engine.now i))
            (if all then count_from 0 (length self.old.spans) else changed_from 0 (last_values W.lane self.old i) (at_places [] self.old.places (lane_values W.lane engine.now i))) }
        ensures room { AreOf W.LANES self.old.signals changes.new }
    {
        changes.clear();
        for n in 0..self.spans.len() {
            let span = self.spans[n];
            let number = self.numbers[n];
            let place = self.places[n];
            let from = span.first as usize;
            let to = from + span.length as usize;
            let planes = &mut self.planes[from..to];
            let lanes = lanes_to_write(engine, place, planes, all);
            if lanes.any() {
                engine.copy(place, planes);
                changes.add(engine, place, number, lanes, planes);
            }
        }
    }
}

/// The lanes in which a signal is to be written: all, if so told, or those in which these planes aren't those that the engine holds.
fn lanes_to_write<W: Lanes>(engine: &Engine<W>, signal: u32, old: &[Pair<W>], all: bool) -> W
    requires signal { signal < length engine.now.program.signals }
    requires old { (s : Span) → slice_get engine.now.program.signals signal ≡ Some s → length old.now ≡ s.length }
    ensures { (s : Span) (i : ℕ) → slice_get engine.now.program.signals signal ≡ Some s → i < W.LANES → W.lane result i
        ≡ (all || differ_below (λ k. slot_lane W.lane old.now k i) (λ k. state W.lane engine.now i (s.first + k)) s.length) }
{
    if all {
        W::all()
    } else {
        engine.changed(signal, old)
    }
}

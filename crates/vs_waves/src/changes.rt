//! What a slot changed.

ghost use Rattle.std.specs.Prelude.{◌≡◌, ℕ, ◌<◌, ◌≤◌, ◌+◌, ◌*◌, ◌++◌, [], length, slice_get, slice_index_or, Some, true, IfOk, IfSome, if◌then◌else◌, vec_capacity};
ghost use Rattle.vs_design.specs.Values.{read};
ghost use Rattle.vs_engine.specs.Lanes.{state};
ghost use Rattle.vs_plane.specs.Lanes.{slot_lane};
ghost use Rattle.vs_program.specs.declared.compiled.Span.{Span};
ghost use Rattle.vs_program.specs.Compiled.{span_bits};
ghost use Rattle.vs_vcd.specs.Values.{value_line};
ghost use Rattle.vs_waves.specs.Changes.{change_value, changes_text, AreOf};

use std::alloc::{AllocError, Global};
use vs_engine::Engine;
use vs_four::{Bit4, Bits};
use vs_plane::{Lanes, Pair, Word};

/// A signal that changed, by its number in the design, the lanes in which it did, and its planes where it has one bit.
#[derive(Clone, Copy)]
pub(crate) struct Change<W: Word> {
    pub(crate) signal: u32,
    pub(crate) lanes: W,
    pub(crate) bit: Option<Pair<W>>,
}

/// The signals that changed in some lane in a slot, in the order of their numbers, and the values that each of more bits than one has in the lanes in which it
/// changed. Those of the signal that changed n-th stand in row n, where a row has a value for each lane.
#[derive(Drop)]
pub(crate) struct Changes<W: Word> {
    changed: Vec<Change<W>>,
    values: Vec<Bits>,
}

impl<W: Lanes> Changes<W> {
    /// No changes, with room for so many signals.
    pub(crate) fn new(alloc: Global, signals: usize) -> Result<Changes<W>, AllocError>
        ensures none { IfOk result (λ c. (i : ℕ) → changes_text W.lane W.LANES c i ≡ []) }
        ensures room { IfOk result (AreOf W.LANES signals) }
    {
        let values = signals.checked_mul(W::LANES as usize).ok_or(AllocError)?;
        Ok(Changes {
            changed: Vec::with_capacity(alloc, signals)?,
            values: vec![in alloc; Bits::of(&[Bit4::X]); values]?,
        })
    }

    /// No changes.
    pub(crate) fn clear(&mut self)
        ensures none { (i : ℕ) → changes_text W.lane W.LANES self.new i ≡ [] }
        ensures changed { self.new.changed.items ≡ [] }
        ensures room { (signals : ℕ) → AreOf W.LANES signals self.old → AreOf W.LANES signals self.new }
    {
        self.changed.clear();
    }

    /// Adds one of the engine's signals, by its number in the design, the lanes in which it changed, and the values that it has. These
    /// are its planes.
    pub(crate) fn add(
        &mut self,
        engine: &Engine<W>,
        signal: u32,
        number: u32,
        lanes: W,
        planes: &[Pair<W>],
    )
        requires signal { signal < length engine.now.program.signals }
        requires capacity { length self.old.changed.items < vec_capacity self.old.changed }
        requires values { (length self.old.changed.items + 1) * W.LANES ≤ length self.old.values.items }
        requires bits { (s : Span) → slice_get engine.now.program.signals signal ≡ Some s → length planes.now ≡ s.length }
        requires planes { (s : Span) (k i : ℕ) → slice_get engine.now.program.signals signal ≡ Some s → k < s.length → i < W.LANES
            → slot_lane W.lane planes.now k i ≡ state W.lane engine.now i (s.first + k) }
        ensures count { length self.new.changed.items ≡ length self.old.changed.items + 1 }
        ensures text { (s : Span) (i : ℕ) → slice_get engine.now.program.signals signal ≡ Some s → i < W.LANES
            → changes_text W.lane W.LANES self.new i ≡ changes_text W.lane W.LANES self.old i
            ++ (if W.lane lanes i then value_line number (read (state W.lane engine.now i) (span_bits s)) else []) }
        ensures room { (signals : ℕ) → AreOf W.LANES signals self.old → length self.old.changed.items < signals → number < signals
            → AreOf W.LANES signals self.new }
    {
        let bit = self.keep_values(engine, signal, lanes, planes);
        self.changed.push_reserved(Change {
            signal: number,
            lanes,
            bit,
        });
    }

    /// Keeps the values that a signal, whose planes these are, has in these lanes, for the next change: answers the planes of its only
    /// bit, or reads those of more into the change's row.
    fn keep_values(
        &mut self,
        engine: &Engine<W>,
        signal: u32,
        lanes: W,
        planes: &[Pair<W>],
    ) -> Option<Pair<W>>
        requires signal { signal < length engine.now.program.signals }
        requires values { (length self.old.changed.items + 1) * W.LANES ≤ length self.old.values.items }
        requires bits { (s : Span) → slice_get engine.now.program.signals signal ≡ Some s → length planes.now ≡ s.length }
        requires planes { (s : Span) (k i : ℕ) → slice_get engine.now.program.signals signal ≡ Some s → k < s.length → i < W.LANES
            → slot_lane W.lane planes.now k i ≡ state W.lane engine.now i (s.first + k) }
        ensures changed { self.new.changed ≡ self.old.changed }
        ensures long { length self.new.values.items ≡ length self.old.values.items }
        ensures before { (m : ℕ) → m < length self.old.changed.items * W.LANES
            → slice_get self.new.values.items m ≡ slice_get self.old.values.items m }
        ensures value { (s : Span) (i : ℕ) → slice_get engine.now.program.signals signal ≡ Some s → i < W.LANES → W.lane lanes i ≡ true
            → change_value W.lane i (slice_index_or self.new.values.items (length self.old.changed.items * W.LANES + i) []) result
            ≡ read (state W.lane engine.now i) (span_bits s) }
    {
        if planes.len() == 1 {
            return Some(planes[0]);
        }
        if let Some(lane) = only_lane(lanes) {
            self.keep_lane(engine, signal, lane);
            return None;
        }
        self.keep_row(engine, signal);
        None
    }

    /// Reads the value of a signal in a lane into the next change's row.
    fn keep_lane(&mut self, engine: &Engine<W>, signal: u32, lane: u32)
        requires signal { signal < length engine.now.program.signals }
        requires lane { lane < W.LANES }
        requires values { (length self.old.changed.items + 1) * W.LANES ≤ length self.old.values.items }
        ensures changed { self.new.changed ≡ self.old.changed }
        ensures long { length self.new.values.items ≡ length self.old.values.items }
        ensures before { (m : ℕ) → m < length self.old.changed.items * W.LANES
            → slice_get self.new.values.items m ≡ slice_get self.old.values.items m }
        ensures value { (s : Span) → slice_get engine.now.program.signals signal ≡ Some s
            → slice_index_or self.new.values.items (length self.old.changed.items * W.LANES + lane) []
            ≡ read (state W.lane engine.now lane) (span_bits s) }
    {
        let place = self.changed.len() * W::LANES as usize + lane as usize;
        self.values[place] = engine.value(lane, signal);
    }

    /// Reads the values of a signal in all lanes into the next change's row.
    fn keep_row(&mut self, engine: &Engine<W>, signal: u32)
        requires signal { signal < length engine.now.program.signals }
        requires values { (length self.old.changed.items + 1) * W.LANES ≤ length self.old.values.items }
        ensures changed { self.new.changed ≡ self.old.changed }
        ensures long { length self.new.values.items ≡ length self.old.values.items }
        ensures before { (m : ℕ) → m < length self.old.changed.items * W.LANES
            → slice_get self.new.values.items m ≡ slice_get self.old.values.items m }
        ensures value { (s : Span) (i : ℕ) → slice_get engine.now.program.signals signal ≡ Some s → i < W.LANES
            → slice_index_or self.new.values.items (length self.old.changed.items * W.LANES + i) []
            ≡ read (state W.lane engine.now i) (span_bits s) }
    {
        let from = self.changed.len() * W::LANES as usize;
        let to = from + W::LANES as usize;
        engine.values(signal, &mut self.values[from..to]);
    }

    /// How many signals changed in some lane.
    pub(crate) fn len(&self) -> usize
        ensures { result ≡ length self.now.changed.items }
    {
        self.changed.len()
    }

    /// The n-th change.
    #[inline]
    pub(crate) fn at(&self, n: usize) -> &Change<W>
        requires { n < length self.now.changed.items }
        ensures { slice_get self.now.changed.items n ≡ Some result.now }
    {
        &self.changed[n]
    }

    /// The value that the signal which changed n-th, of more bits than one, has in a lane.
    #[inline]
    pub(crate) fn value(&self, n: usize, lane: u32) -> Bits
        requires lane { lane < W.LANES }
        requires room { (n + 1) * W.LANES ≤ length self.now.values.items }
        ensures { slice_get self.now.values.items (n * W.LANES + lane) ≡ Some result }
    {
        self.values[n * W::LANES as usize + lane as usize]
    }
}

/// The only one of these lanes, if there is no other.
fn only_lane<W: Lanes>(lanes: W) -> Option<u32>
    ensures within { IfSome result (λ lane. lane < W.LANES) }
    ensures only { IfSome result (λ lane. (i : ℕ) → i < W.LANES → W.lane lanes i ≡ true → i ≡ lane) }
{
    let lane = first_lane(lanes);
    if lane < W::LANES && !lanes.with(lane, false).any() {
        Some(lane)
    } else {
        None
    }
}

/// The first one of these lanes, or 0 where there is none.
fn first_lane<W: Lanes>(lanes: W) -> u32 {
    for k in 0..W::LANES / 64 {
        let bits = lanes.sixty_four(k);
        if bits != 0 {
            return 64 * k + bits.trailing_zeros();
        }
    }
    0
}

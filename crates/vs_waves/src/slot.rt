//! A slot's text, lane by lane.

ghost use Rattle.std.specs.Prelude.{◌≡◌, ℕ, ◌<◌, ◌≤◌, ◌++◌, All, [], length, map, take, false, IsTrue, IfOk, OnOk, OnErr};
ghost use Rattle.vs_desk.specs.Desk.{Fails, IsWritable, PutsPart};
ghost use Rattle.vs_program.specs.declared.compiled.Span.{Span};
ghost use Rattle.vs_vcd.specs.Shared.{at_places};
ghost use Rattle.vs_vcd.specs.Texts.{first_text, slot_text};
ghost use Rattle.vs_waves.specs.Changes.{AreOf, changes_text, line_at};
ghost use Rattle.vs_waves.specs.Last.{last_values};
ghost use Rattle.vs_waves.specs.Puts.{Moves, PutsFront};
ghost use Rattle.vs_waves.specs.Rounds.{lane_values};
ghost use Rattle.vs_waves.specs.Slots.{AreTails, IsSlot, closing, slot_lines};

use crate::changes::Changes;
use crate::last::Last;
use crate::putting::{make_room, put_text};
use std::alloc::{AllocError, Global};
use vs_desk::{Desk, Failed, put_law};
use vs_engine::Engine;
use vs_plane::{Lanes, Word};
use vs_vcd::{LINE_ROOM, Tail, dump_line, end_line, put_bit, put_time, put_value};

/// The text of a slot for all lanes: the lines that open it, and what changed.
#[derive(Drop)]
pub(crate) struct Slot<W: Word> {
    opening: [u8; 32],
    opened: usize,
    is_first: bool,
    changes: Changes<W>,
}

impl<W: Lanes> Slot<W> {
    /// A slot without changes, with room for so many signals.
    pub(crate) fn new(alloc: Global, signals: usize) -> Result<Slot<W>, AllocError>
        ensures { IfOk result (IsSlot W.LANES signals) }
    {
        Ok(Slot {
            opening: [0; 32],
            opened: 0,
            is_first: false,
            changes: Changes::new(alloc, signals)?,
        })
    }

    /// Whether it is the first slot.
    pub(crate) fn is_first(&self) -> bool
        ensures { result ≡ self.now.is_first }
    {
        self.is_first
    }

    /// Makes it the first slot: all values that the engine holds, which are the last ones then.
    pub(crate) fn begin(&mut self, engine: &Engine<W>, last: &mut Last<W>)
        requires within { All (λ k. k < length engine.now.program.signals) last.old.places }
        requires lengths { at_places 0 last.old.places (map (λ (s : Span). s.length) engine.now.program.signals) ≡ map (λ (s : Span). s.length) last.old.spans }
        requires slot { IsSlot W.LANES last.old.signals self.old }
        ensures text { (i : ℕ) → i < W.LANES → slot_lines W.lane W.LANES self.new i ≡ first_text last.old.numbers (at_places [] last.old.places (lane_values W.lane engine.now i)) }
        ensures first { IsTrue self.new.is_first }
        ensures numbers { last.new.numbers ≡ last.old.numbers }
        ensures places { last.new.places ≡ last.old.places }
        ensures signals { last.new.signals ≡ last.old.signals }
        ensures values { (i : ℕ) → i < W.LANES → last_values W.lane last.new i ≡ at_places [] last.old.places (lane_values W.lane engine.now i) }
        ensures slot { IsSlot W.LANES last.old.signals self.new }
    {
        let time = put_time(&mut self.opening, 0, 0);
        let dump = dump_line();
        self.opened = time + dump.len();
        self.opening[time..self.opened].copy_from_slice(dump);
        self.is_first = true;
        last.take_over(engine, true, &mut self.changes);
    }

    /// Makes it a later slot, at this time: the values that the engine holds where they aren't the last ones, which they are then.
    pub(crate) fn go_on(&mut self, time: u64, engine: &Engine<W>, last: &mut Last<W>)
        requires within { All (λ k. k < length engine.now.program.signals) last.old.places }
        requires lengths { at_places 0 last.old.places (map (λ (s : Span). s.length) engine.now.program.signals) ≡ map (λ (s : Span). s.length) last.old.spans }
        requires slot { IsSlot W.LANES last.old.signals self.old }
        ensures text { (i : ℕ) → i < W.LANES → slot_lines W.lane W.LANES self.new i ≡ slot_text last.old.numbers time (last_values W.lane last.old i)
            (at_places [] last.old.places (lane_values W.lane engine.now i)) }
        ensures first { self.new.is_first ≡ false }
        ensures numbers { last.new.numbers ≡ last.old.numbers }
        ensures places { last.new.places ≡ last.old.places }
        ensures signals { last.new.signals ≡ last.old.signals }
        ensures values { (i : ℕ) → i < W.LANES → last_values W.lane last.new i ≡ at_places [] last.old.places (lane_values W.lane engine.now i) }
        ensures slot { IsSlot W.LANES last.old.signals self.new }
    {
        self.opened = put_time(&mut self.opening, 0, time);
        self.is_first = false;
        last.take_over(engine, false, &mut self.changes);
    }

    /// Moves the text of a lane behind the first bytes of the block, so many, and puts the block where it would get too full. Answers
    /// how many bytes stand in it then.
    pub(crate) fn put<D: Desk>(
        &self,
        lane: u32,
        tails: &[Tail],
        block: &mut [u8],
        filled: usize,
        desk: &mut D,
        place: u32,
    ) -> Result<usize, Failed>
        requires lane { lane < W.LANES }
        requires tails { AreTails tails.now }
        requires slot { IsSlot W.LANES (length tails.now) self.now }
        requires writable { IsWritable (D.told desk.old).register place }
        requires block { LINE_ROOM ≤ length block.old }
        requires filled { filled ≤ length block.old }
        ensures filled { IfOk result (λ n. n ≤ length block.new) }
        ensures long { length block.new ≡ length block.old }
        ensures moved { Moves (D.told desk.old) (D.told desk.new) place (take filled block.old ++ slot_lines W.lane W.LANES self.now lane)
            (λ n. take n block.new) result }
    {
        put_law();
        let opening = &self.opening;
        let opened = put_text(&opening[..self.opened], block, filled, desk, place)?;
        let changed = put_changes(&self.changes, lane, tails, block, opened, desk, place)?;
        let closed = put_text(closing(self.is_first), block, changed, desk, place)?;
        Ok(closed)
    }
}

/// What closes a slot.
fn closing(is_first: bool) -> &'static [u8]
    ensures { result.now ≡ closing is_first }
{
    if is_first { end_line() } else { b"" }
}

/// Moves the lines of the changes in a lane behind the first bytes of the block, so many, and puts the block each time that there
/// might be no room for the next line. Answers how many bytes stand in it then.
fn put_changes<W: Lanes, D: Desk>(
    changes: &Changes<W>,
    lane: u32,
    tails: &[Tail],
    block: &mut [u8],
    filled: usize,
    desk: &mut D,
    place: u32,
) -> Result<usize, Failed>
    requires lane { lane < W.LANES }
    requires tails { AreTails tails.now }
    requires changes { AreOf W.LANES (length tails.now) changes.now }
    requires writable { IsWritable (D.told desk.old).register place }
    requires block { LINE_ROOM ≤ length block.old }
    requires filled { filled ≤ length block.old }
    ensures filled { IfOk result (λ n. n ≤ length block.new) }
    ensures long { length block.new ≡ length block.old }
    ensures moved { Moves (D.told desk.old) (D.told desk.new) place (take filled block.old ++ changes_text W.lane W.LANES changes.now lane)
        (λ n. take n block.new) result }
{
    put_law();
    let mut filled = filled;
    for n in 0..changes.len() {
        filled = put_change(changes, n, lane, tails, block, filled, desk, place)?;
    }
    Ok(filled)
}

/// Moves the line of the n-th change, if it changed in the lane, behind the first bytes of the block, so many, and puts the block before
/// where there might be no room for the line. Answers how many bytes stand in it then.
#[inline]
fn put_change<W: Lanes, D: Desk>(
    changes: &Changes<W>,
    n: usize,
    lane: u32,
    tails: &[Tail],
    block: &mut [u8],
    filled: usize,
    desk: &mut D,
    place: u32,
) -> Result<usize, Failed>
    requires change { n < length changes.now.changed.items }
    requires lane { lane < W.LANES }
    requires tails { AreTails tails.now }
    requires changes { AreOf W.LANES (length tails.now) changes.now }
    requires writable { IsWritable (D.told desk.old).register place }
    requires block { LINE_ROOM ≤ length block.old }
    requires filled { filled ≤ length block.old }
    ensures filled { IfOk result (λ n. n ≤ length block.new) }
    ensures long { length block.new ≡ length block.old }
    ensures same { OnOk result ((D.told desk.new).register ≡ (D.told desk.old).register) }
    ensures bytes { IsTrue D.tells → IfOk result (λ end. PutsFront (D.told desk.old).register (D.told desk.old).contents (D.told desk.new).contents
        place (take filled block.old ++ line_at W.lane W.LANES changes.now lane n) (take end block.new)) }
    ensures failed { OnErr result
        (Fails (D.told desk.old).register (D.told desk.new).register place (D.told desk.old).register.asked) }
    ensures bytes_part { IsTrue D.tells → OnErr result (PutsPart (D.told desk.old).register
        (D.told desk.old).contents (D.told desk.new).contents place (take filled block.old)) }
{
    put_law();
    let change = changes.at(n);
    if !change.lanes.bit(lane) {
        return Ok(filled);
    }
    let at = make_room(block, filled, desk, place)?;
    let tail = &tails[change.signal as usize];
    match &change.bit {
        Some(pair) => Ok(put_bit(block, at, pair.lane(lane), tail)),
        None => Ok(put_value(block, at, changes.value(n, lane), tail)),
    }
}

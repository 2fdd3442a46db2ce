//! What was found in all lanes.

ghost use Rattle.std.specs.Prelude.{◌≡◌, ℕ, ◌<◌, ◌≤◌, ◌^◌, true, is_some, All, length, IfOk, Some, None, MatchOption, count_by};
ghost use Rattle.std.specs.List.{list_all};
ghost use Rattle.vs_desk.specs.Places.{most_lanes};
ghost use Rattle.vs_program.specs.Program.{spans};
ghost use Rattle.vs_engine.specs.Lanes.{state};
ghost use Rattle.vs_feed.specs.Lanes.{lane_at};
ghost use Rattle.vs_misses.specs.Missed.{found_now, found_behind};
ghost use Rattle.vs_misses.specs.Watch.{found_at, named, columns_at, AllFit, ArePlaces, HasColumns};
ghost use Rattle.vs_misses.specs.Rows.{spans_of, places_of, IsRow};

use crate::comparing::unmet_of_rows;
use crate::finding::Finding;
use crate::looking::look;
use crate::row::{Row, empty_rows, name_columns};
use std::alloc::{AllocError, Global};
use std::marker::Model;
use vs_engine::Engine;
use vs_feed::Drive;
use vs_four::Bit4;
use vs_plane::{Lanes, Pair, Word};
use vs_program::Span;

/// What each lane missed first of what its stimulus wants of outputs. Contracts see the outputs' bits, where each lane names them, and what was found.
#[derive(Drop)]
pub struct Misses<W: Lanes> {
    rows: Vec<Row>,
    found: Vec<Option<Finding>>,
    /// The lanes in which something was found.
    missed: W,
    /// What an output is wanted to be, bit by bit, while it is compared.
    wanted: Vec<Pair<W>>,
    /// 1 where a digit of it stands for any bit.
    free: Vec<Pair<W>>,
}

impl<W: Lanes> Model for Misses<W> {
    ghost use Rattle.vs_misses.specs.Watch.{Watch};
    ghost use Rattle.vs_misses.specs.Kept.{watch_of, IsMisses};

    ghost Value = { Watch };

    ghost view = { watch_of };

    ghost invariant = { IsMisses W.lane W.LANES };
}

impl<W: Lanes> Misses<W> {
    /// Nothing found in any of the drive's lanes, where the outputs have these bits, in the order in which columns number them. All memory is taken
    /// here, and the only error is that there is none.
    pub fn new(alloc: Global, drive: &Drive, outputs: Vec<Span>) -> Result<Misses<W>, AllocError>
        requires few { length outputs.items < 2 ^ 32 }
        requires fit { AllFit outputs.items drive.now }
        ensures outputs { IfOk result (λ m. m.outputs ≡ outputs.items) }
        ensures columns { IfOk result (λ m. HasColumns m (named drive.now)) }
        ensures none { IfOk result (λ m. (i : ℕ) → found_at m.found i ≡ None) }
    {
        let rows = rows_of(alloc, drive, outputs)?;
        let found = nothing_found(alloc, drive.lanes() as usize)?;
        Ok(Misses {
            rows,
            found,
            missed: W::none(),
            wanted: vec![in alloc; Pair::of_bit(Bit4::X); 64]?,
            free: vec![in alloc; Pair::of_bit(Bit4::X); 64]?,
        })
    }

    /// Compares what each lane's stimulus wants with the values that the engine holds: where nothing was found before, what the lane misses now is
    /// found. It takes no memory.
    pub fn note(&mut self, engine: &Engine<W>, drive: &Drive)
        requires width { W.LANES ≤ most_lanes }
        requires lanes { length drive.now ≤ W.LANES }
        requires inside { list_all (spans engine.now.program.bits) self.old.outputs ≡ true }
        requires columns { HasColumns self.old (named drive.now) }
        requires fit { AllFit self.old.outputs drive.now }
        ensures outputs { self.new.outputs ≡ self.old.outputs }
        ensures columns { HasColumns self.new (named drive.now) }
        ensures found { (i : ℕ) → i < length drive.now → found_at self.new.found i
            ≡ found_behind (found_at self.old.found i) (found_now self.old.outputs (lane_at drive.now i) (state W.lane engine.now i)) }
    {
        // A bit's number fits, since each has a slot.
        let _ = engine.compiled().initial();
        let unmet = unmet_of_rows(engine, drive, &self.rows, &mut self.wanted, &mut self.free);
        let lanes = unmet.and(self.missed.not());
        if lanes.any() {
            look(engine, drive, &self.rows, lanes, &mut self.found);
            self.missed = self.missed.or(lanes);
        }
    }

    /// What a lane missed first, if it missed something.
    pub fn found(&self, lane: u32) -> Option<&Finding>
        requires { lane < length self.now.found }
        ensures { MatchOption result (found_at self.now.found lane ≡ None) (λ f. found_at self.now.found lane ≡ Some f.now) }
    {
        self.found[lane as usize].as_ref()
    }

    /// What each lane missed first, if it missed something.
    pub fn into_found(self) -> Vec<Option<Finding>>
        ensures found { result.items ≡ self.found }
        ensures few { length result.items ≤ most_lanes }
    {
        self.found
    }

    /// In how many lanes something was found.
    pub fn count(&self) -> u32
        ensures { result ≡ count_by is_some self.now.found }
    {
        let mut count = 0;
        for found in &self.found {
            if found.is_some() {
                count += 1;
            }
        }
        count
    }
}

/// Nothing found in so many lanes.
fn nothing_found(alloc: Global, lanes: usize) -> Result<Vec<Option<Finding>>, AllocError>
    ensures lanes { IfOk result (λ found. length found.items ≡ lanes) }
    ensures none { IfOk result (λ found. (i : ℕ) → found_at found.items i ≡ None) }
{
    let mut found = Vec::with_capacity(alloc, lanes)?;
    'lanes: while found.len() < lanes {
        found.push(None)?;
    }
    Ok(found)
}

/// The rows of the outputs, where each lane's header has its columns.
fn rows_of(alloc: Global, drive: &Drive, outputs: Vec<Span>) -> Result<Vec<Row>, AllocError>
    requires few { length outputs.items < 2 ^ 32 }
    requires fit { AllFit outputs.items drive.now }
    ensures spans { IfOk result (λ rows. spans_of rows.items ≡ outputs.items) }
    ensures rows { IfOk result (λ rows. All (IsRow (length drive.now)) rows.items) }
    ensures places { IfOk result (λ rows. (i : ℕ) → ArePlaces (places_of rows.items) i (columns_at (named drive.now) i)) }
{
    let lanes = drive.lanes();
    let mut rows = empty_rows(alloc, outputs, lanes)?;
    for lane in 0..lanes {
        name_columns(&mut rows, lane, drive.stimulus(lane).expected());
    }
    Ok(rows)
}

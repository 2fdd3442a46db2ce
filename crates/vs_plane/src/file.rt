//! A file of slots, each with its two planes.
ghost use Rattle.std.specs.Prelude.{◌≡◌, ℕ, ◌+◌, ◌^◌, ◌<◌, ◌≢◌, length, slice_get, slice_set, IfOk};
ghost use Rattle.vs_plane.specs.Lanes.{pair_lane, slot_lane};

use crate::counting::Steps;
use crate::pairs::Pair;
use crate::traits::{Lanes, Word};
use std::alloc::{AllocError, Global};
use std::marker::Model;
use std::sync::ledger::Ledger;
use vs_four::Bit4;

/// The slots of a simulation, by number from 0. A slot has one bit of a signal, in every lane.
#[derive(Drop)]
pub struct PlaneFile<W: Word> {
    slots: Vec<Pair<W>>,
}

// Clauses see the pairs, by slot number.
impl<W: Word> Model for PlaneFile<W> {
    ghost use Rattle.std.specs.Prelude.{List, length, ◌<◌, ◌^◌};
    ghost use Rattle.vs_plane.specs.declared.pairs.Pair.{Pair};

    ghost Value = { List (Pair W) };

    ghost view = { λ f. f.slots.items };

    ghost invariant = { λ f. length f.slots.items < 2 ^ 32 };
}

impl<W: Word> PlaneFile<W> {
    /// A file with a slot for each of these bits, which the slot has in every lane. It is the only call that takes memory, and the only
    /// error is that there is none.
    pub fn new(alloc: Global, initial: &[Bit4]) -> Result<Self, AllocError>
        requires { length initial.now < 2 ^ 32 }
        ensures slots { IfOk result (λ f. length f ≡ length initial.now) }
        ensures bits { IfOk result (λ f. (slot i : ℕ) → slot < length initial.now → i < W.LANES
            → slice_get initial.now slot ≡ Some (slot_lane W.lane f slot i)) }
    {
        let mut slots = Vec::with_capacity(alloc, initial.len())?;
        for bit in initial {
            slots.push(Pair::of_bit(*bit))?;
        }
        Ok(PlaneFile { slots })
    }

    /// The number of slots.
    pub fn slots(&self) -> u32
        ensures { result ≡ length self.now }
    {
        self.slots.len() as u32
    }

    /// The planes of a slot.
    #[inline]
    pub fn load(&self, slot: u32) -> Pair<W>
        requires { slot < length self.now }
        ensures pair { slice_get self.now slot ≡ Some result }
        ensures lanes { (i : ℕ) → pair_lane W.lane result i ≡ slot_lane W.lane self.now slot i }
    {
        self.slots[slot as usize]
    }

    /// Gives a slot these planes, and counts one step. No other call changes a slot.
    #[inline]
    pub fn store<L: Ledger>(&mut self, slot: u32, pair: Pair<W>, steps: &mut Steps<L>)
        requires { slot < length self.old }
        ensures stored { self.new ≡ slice_set self.old slot pair }
        ensures slots { length self.new ≡ length self.old }
        ensures written { (i : ℕ) → slot_lane W.lane self.new slot i ≡ pair_lane W.lane pair i }
        ensures kept { (k i : ℕ) → k ≢ slot → slot_lane W.lane self.new k i ≡ slot_lane W.lane self.old k i }
        ensures ticked { steps.new ≡ steps.old + 1 }
    {
        self.slots[slot as usize] = pair;
        steps.tick();
    }
}

impl<W: Lanes> PlaneFile<W> {
    /// The bit in lane `i` of a slot.
    pub fn lane(&self, slot: u32, i: u32) -> Bit4
        requires slot { slot < length self.now }
        requires lane { i < W.LANES }
        ensures { result ≡ slot_lane W.lane self.now slot i }
    {
        self.load(slot).lane(i)
    }
}

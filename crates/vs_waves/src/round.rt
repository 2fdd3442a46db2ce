//! The text that a round gives, lane by lane.

ghost use Rattle.std.specs.Prelude.{◌≡◌, ◌<◌, ◌≤◌, [], if◌then◌else◌, length, take, IfOk};
ghost use Rattle.vs_desk.specs.Desk.{IsWritable, PutsAll};
ghost use Rattle.vs_flat.specs.DesignOf.{design_of};
ghost use Rattle.vs_vcd.specs.Scopes.{head_text};
ghost use Rattle.vs_vcd.specs.Shared.{code_at, coded_by};
ghost use Rattle.vs_waves.specs.Puts.{Moves};
ghost use Rattle.vs_waves.specs.Slots.{IsRound, lane_text, noted_text};

use crate::putting::put_text;
use crate::slot::Slot;
use std::alloc::{AllocError, Global};
use vs_desk::{Desk, Failed, put_all, put_law};
use vs_flat::{Flat, trees_law};
use vs_plane::{Lanes, Word};
use vs_vcd::{Codes, LINE_ROOM, Tail, head, put_time};

/// How a lane's wave stands: open until its last line is put, and whether the fall of a round was noted and isn't put yet.
#[derive(Clone, Copy)]
pub(crate) struct LaneWave {
    pub(crate) is_open: bool,
    pub(crate) is_noted: bool,
}

/// The text of a round for all lanes: its two slots, and what they need of the design.
#[derive(Drop)]
pub(crate) struct Round<W: Word> {
    head: Vec<u8>,
    tails: Vec<Tail>,
    pub(crate) fall: Slot<W>,
    pub(crate) rise: Slot<W>,
}

impl<W: Lanes> Round<W> {
    /// A round in which nothing changes, with a head that has these codes.
    pub(crate) fn new(alloc: Global, flat: &Flat, codes: &Codes) -> Result<Round<W>, AllocError>
        ensures head { IfOk result (λ r. r.head.items ≡ head_text (coded_by (code_at codes.now) (design_of flat.now))) }
        ensures tails { IfOk result (λ r. length r.tails.items ≡ length (design_of flat.now).signals) }
        ensures round { IfOk result (IsRound W.LANES) }
    {
        trees_law();
        let count = flat.signal_count();
        let mut tails = Vec::with_capacity(alloc, count as usize)?;
        for n in 0..count {
            tails.push_reserved(Tail::of(n));
        }
        Ok(Round {
            head: head(alloc, flat, codes)?,
            tails,
            fall: Slot::new(alloc, count as usize)?,
            rise: Slot::new(alloc, count as usize)?,
        })
    }

    /// Puts what the round gives of a lane, whose wave stands so and which is live or not; the fall is at this time.
    pub(crate) fn put<D: Desk>(
        &self,
        wave: LaneWave,
        live: bool,
        lane: u32,
        time: u64,
        block: &mut [u8],
        desk: &mut D,
        place: u32,
    ) -> Result<(), Failed>
        requires round { IsRound W.LANES self.now }
        requires lane { lane < W.LANES }
        requires writable { IsWritable (D.told desk.old).register place }
        requires block { LINE_ROOM ≤ length block.old }
        ensures long { length block.new ≡ length block.old }
        ensures puts { PutsAll (D.told desk.old) (D.told desk.new) place (lane_text W.lane W.LANES self.now live time wave lane) result }
    {
        put_law();
        if live {
            let noted = self.put_noted(wave, lane, block, desk, place)?;
            let end = self.rise.put(lane, &self.tails, block, noted, desk, place)?;
            put_all(desk, place, &block[..end])
        } else if wave.is_open {
            let end = put_time(block, 0, time);
            put_all(desk, place, &block[..end])
        } else {
            Ok(())
        }
    }

    /// Moves the text of the fall to the front of the block, where it was noted, and puts the block where it would get too full.
    /// Answers how many bytes stand in it then.
    fn put_noted<D: Desk>(
        &self,
        wave: LaneWave,
        lane: u32,
        block: &mut [u8],
        desk: &mut D,
        place: u32,
    ) -> Result<usize, Failed>
        requires round { IsRound W.LANES self.now }
        requires lane { lane < W.LANES }
        requires writable { IsWritable (D.told desk.old).register place }
        requires block { LINE_ROOM ≤ length block.old }
        ensures filled { IfOk result (λ n. n ≤ length block.new) }
        ensures long { length block.new ≡ length block.old }
        ensures moved { Moves (D.told desk.old) (D.told desk.new) place (noted_text W.lane W.LANES self.now wave lane)
            (λ n. take n block.new) result }
    {
        put_law();
        if !wave.is_noted {
            return Ok(0);
        }
        let opened = put_text(self.first_head(), block, 0, desk, place)?;
        let filled = self
            .fall
            .put(lane, &self.tails, block, opened, desk, place)?;
        Ok(filled)
    }

    /// The head of the dump, where the fall is the first slot.
    fn first_head(&self) -> &[u8]
        ensures { result.now ≡ (if self.now.fall.is_first then self.now.head.items else []) }
    {
        if self.fall.is_first() {
            &self.head
        } else {
            b""
        }
    }
}

//! The rounds of a run.

ghost use Rattle.std.specs.Prelude.{List, ◌≡◌, ℕ, ◌+◌, ◌*◌, ◌<◌, ◌≤◌, length, IsTrue, IfOk, IfErr, OnOk};
ghost use Rattle.vs_desk.specs.Places.{most_lanes};
ghost use Rattle.vs_design.specs.Designs.{Design};
ghost use Rattle.vs_design.specs.Sizes.{size};
ghost use Rattle.vs_program.specs.Compiled.{IsProgramOf};
ghost use Rattle.vs_feed.specs.Lanes.{AreAttached, OtherPlacesKept};
ghost use Rattle.vs_waves.specs.Puts.{AreWritable};
ghost use Rattle.vs_rounds.specs.Lanes.{Run, AreInRound, AreOpened, AreBegun};
ghost use Rattle.vs_rounds.specs.Ready.{IsReady};
ghost use Rattle.vs_rounds.specs.Stops.{AreUnrefused, ReadStops, StopsIn, IsLaneOf, HasCause, OthersStay};
ghost use Rattle.vs_rounds.specs.Counts.{AreDone, AreCounted, TicksRounds};

use crate::operations::SlotOperations;
use crate::{Machine, Stop};
use std::sync::ledger::Ledger;
use vs_desk::Desk;
use vs_plane::{Lanes, Steps};

/// A stimulus has at most 16,777,216 vectors, and its end is read in one more round.
pub(crate) const MOST_ROUNDS: u64 = 16_777_217;

/// What a whole run counts.
#[derive(Clone, Copy, PartialEq, Eq, Debug)]
pub struct Counts {
    /// The vectors of all lanes together.
    pub vectors: u64,
    /// The engine's slots: twice the greatest number of vectors of a lane.
    pub settlings: u64,
    /// The number of plane operations executed, for all lanes together.
    pub operations: u64,
}

impl<W: Lanes> Machine<W> {
    /// Reads the first vector of each lane, by lane.
    ///
    /// It is a step of its own: nothing is put, and the places of the waves need not be attached. It stops at the first lane whose text
    /// has no known first vector (`Stop::Refused`) or whose place can't be read (`Stop::ReadFault`).
    pub fn begin<D: Desk>(&mut self, desk: &mut D) -> Result<(), Stop>
        requires ready { IsReady 0 self.old }
        requires readable { AreAttached (D.told desk.old).register self.old.stimuli }
        ensures waves { self.new.waves ≡ self.old.waves }
        ensures engine { self.new.engine ≡ self.old.engine }
        ensures lanes { OnOk result (length self.new.stimuli ≡ length self.old.stimuli) }
        ensures ready { OnOk result (IsReady 0 self.new) }
        ensures readable { OnOk result (AreAttached (D.told desk.new).register self.new.stimuli) }
        ensures begun { IsTrue D.tells → (run : Run) → AreOpened W.lane run self.old (D.told desk.old).contents
            → OnOk result (AreBegun W.lane run self.new (D.told desk.new).contents) }
        ensures unrefused { IsTrue D.tells → (run : Run) → AreOpened W.lane run self.old (D.told desk.old).contents
            → OnOk result (AreUnrefused run 0 (length self.old.stimuli) 1) }

        // The first lane without a known first vector stops it.
        ensures stops { IsTrue D.tells → (run : Run) → AreOpened W.lane run self.old (D.told desk.old).contents
            → IfErr result (ReadStops run (length self.old.stimuli) 0 (D.told desk.new).contents) }
        ensures lane { IfErr result (IsLaneOf (length self.old.stimuli)) }
        ensures cause { IfErr result (HasCause (D.told desk.old).register (D.told desk.new).register) }
        ensures same { OnOk result ((D.told desk.new).register ≡ (D.told desk.old).register) }
        ensures others { IsTrue D.tells → OtherPlacesKept (length self.old.stimuli) (D.told desk.old).contents (D.told desk.new).contents }
    {
        self.read(desk)
    }

    /// Runs the rounds until every lane has ended. It takes no memory.
    ///
    /// In each round but the first the next vector of each lane that hasn't ended is read. If some lane has one, the clocks fall and
    /// rises once in all lanes. Then the round puts, by lane: of a lane that has a vector its two slots, in round 0 with the head
    /// before them; of a lane whose end was read in this round the last line; of a lane that ended earlier nothing.
    ///
    /// It stops at the first line that is no vector, or one too many (`Stop::Refused`), and at the first failed call on the desk
    /// (`Stop::ReadFault`, `Stop::WriteFault`); each names the lane. The lanes have then got what the rounds before gave, and after a
    /// `WriteFault` a part of what this round gives.
    pub fn rounds<D: Desk, L: Ledger>(
        &mut self,
        desk: &mut D,
        steps: &mut Steps<L>,
    ) -> Result<Counts, Stop>
        requires width { W.LANES ≤ most_lanes }
        requires lanes { length self.old.stimuli ≤ W.LANES }
        requires ready { IsReady 0 self.old }
        requires readable { AreAttached (D.told desk.old).register self.old.stimuli }
        requires writable { AreWritable (D.told desk.old).register (length self.old.waves) }

        // Each lane gets all of its waveform.
        ensures done { IsTrue D.tells → (run : Run) → AreInRound W.lane run 0 self.old (D.told desk.old).contents
            → OnOk result (AreDone run (length self.old.stimuli) (D.told desk.new).contents) }
        ensures counted { IsTrue D.tells → (run : Run) → AreInRound W.lane run 0 self.old (D.told desk.old).contents
            → IfOk result (λ counts. AreCounted run (length self.old.stimuli) counts.vectors counts.settlings) }
        ensures most { IfOk result (λ counts. counts.settlings ≤ 33554434) }
        ensures same { OnOk result ((D.told desk.new).register ≡ (D.told desk.old).register) }
        ensures operations { IfOk result (λ counts. steps.new ≡ steps.old + counts.operations) }

        // The engine's steps are those of a fall and a rise in each round, for all lanes together, within the design's size each.
        ensures ticked { IfOk result (λ counts. (n : ℕ) × (counts.settlings ≡ 2 * n)
            × TicksRounds self.old.engine.program self.old.engine.begun n steps.old steps.new) }
        ensures within { (d : Design) (clocks : List ℕ) → IsProgramOf d clocks self.old.engine.program
            → IfOk result (λ counts. steps.new ≤ steps.old + size d * counts.settlings) }
        ensures ticked_always { (n : ℕ) × TicksRounds self.old.engine.program self.old.engine.begun n steps.old steps.new }

        // A stimulus or a call on the desk stops it, in some round; a stimulus not in the first, whose vectors were read before.
        ensures stops { IsTrue D.tells → (run : Run) → AreInRound W.lane run 0 self.old (D.told desk.old).contents
            → IfErr result (λ stop. (k : ℕ) × StopsIn run (length self.old.stimuli) k (D.told desk.new).contents stop) }
        ensures lane { IfErr result (IsLaneOf (length self.old.stimuli)) }
        ensures cause { IfErr result (HasCause (D.told desk.old).register (D.told desk.new).register) }
        ensures others { IsTrue D.tells → OthersStay (length self.old.stimuli) (D.told desk.old).contents (D.told desk.new).contents }
    {
        let slots = SlotOperations::of(self.engine());
        let mut vectors = 0;
        for round in 0..MOST_ROUNDS {
            let live = self.round(round, desk, steps)?;
            if live == 0 {
                let settlings = 2 * round;
                return Ok(Counts {
                    vectors,
                    settlings,
                    operations: slots.in_rounds(round),
                });
            }
            vectors += live;
            self.read(desk)?;
        }
        let settlings = 2 * MOST_ROUNDS;
        Ok(Counts {
            vectors,
            settlings,
            operations: slots.in_rounds(MOST_ROUNDS),
        })
    }
}

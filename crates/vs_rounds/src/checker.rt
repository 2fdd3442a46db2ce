//! A check: rounds that put nothing, and compare the outputs with what the stimuli want of them.

ghost use Rattle.std.specs.Prelude.{List, ◌≡◌, ℕ, ◌+◌, ◌*◌, ◌<◌, ◌≤◌, ◌^◌, length, suc, true, None, IsTrue, IfOk, IfErr, OnOk};
ghost use Rattle.std.specs.List.{count_by};
ghost use Rattle.vs_desk.specs.Desk.{Contents};
ghost use Rattle.vs_desk.specs.Places.{most_lanes};
ghost use Rattle.vs_design.specs.Designs.{Design};
ghost use Rattle.vs_design.specs.Sizes.{size};
ghost use Rattle.vs_program.specs.Compiled.{IsProgramOf};
ghost use Rattle.vs_feed.specs.Lanes.{AreAttached, OtherPlacesKept};
ghost use Rattle.vs_misses.specs.Watch.{AllFit, found_at};
ghost use Rattle.vs_rounds.specs.Lanes.{Run, HaveNext, HaveVectors};
ghost use Rattle.vs_rounds.specs.Ready.{Ticks};
ghost use Rattle.vs_rounds.specs.Checked.{IsCheckable, AreCheckParts, AreWatched, AreFoundBefore, AreFoundIn};
ghost use Rattle.vs_rounds.specs.Stops.{AreUnrefused, ReadStops, IsLaneOf, IsOfStimulus, HasCause};
ghost use Rattle.vs_rounds.specs.Counts.{AreCounted, TicksRounds};
ghost use Rattle.vs_rounds.specs.Verdicts.{AreChecked, IsCheckStop};

use crate::driven::Driven;
use crate::operations::SlotOperations;
use crate::rounds::MOST_ROUNDS;
use crate::{Counts, Stop};
use std::alloc::{AllocError, Global};
use std::marker::Model;
use std::sync::ledger::Ledger;
use vs_desk::Desk;
use vs_engine::Engine;
use vs_feed::Drive;
use vs_misses::{Finding, Misses};
use vs_plane::{Lanes, Steps};
use vs_program::Span;
use vs_stim::laws::line_law;

/// What a check needs in its rounds: the stimuli, the engine of all lanes, and what they missed so far. Lanes have no part in each other.
#[derive(Drop)]
pub struct Checker<W: Lanes> {
    driven: Driven<W>,
    misses: Misses<W>,
}

// Clauses see the stimuli, the engine, and what was found.
impl<W: Lanes> Model for Checker<W> {
    ghost use Rattle.vs_rounds.specs.Checked.{Checking};

    ghost Value = { Checking W };

    ghost view = { λ c. record { stimuli = c.driven.stimuli; engine = c.driven.engine; misses = c.misses } };
}

impl<W: Lanes> Checker<W> {
    /// A check of these outputs, which has found nothing. They have as many bits as the stimuli want of each. No other call takes memory,
    /// and the only error is that there is none.
    pub fn new(
        alloc: Global,
        drive: Drive,
        engine: Engine<W>,
        outputs: Vec<Span>,
    ) -> Result<Checker<W>, AllocError>
        requires few { length outputs.items < 2 ^ 32 }
        requires fit { AllFit outputs.items drive }
        ensures stimuli { IfOk result (λ c. c.stimuli ≡ drive) }
        ensures engine { IfOk result (λ c. c.engine ≡ engine) }
        ensures outputs { IfOk result (λ c. c.misses.outputs ≡ outputs.items) }
        ensures none { IfOk result (λ c. (i : ℕ) → found_at c.misses.found i ≡ None) }
        ensures ready { (d : Design) (clocks : List ℕ) → AreCheckParts d clocks drive engine.program outputs.items → IfOk result IsCheckable }
    {
        let misses = Misses::new(alloc, &drive, outputs)?;
        let driven = Driven::new(alloc, drive, engine)?;
        Ok(Checker { driven, misses })
    }

    /// What was found so far.
    pub fn misses(&self) -> &Misses<W>
        ensures { result.now ≡ self.now.misses }
    {
        &self.misses
    }

    /// What was found in each lane so far.
    pub fn into_found(self) -> Vec<Option<Finding>>
        ensures found { result.items ≡ self.misses.found }
        ensures few { length result.items ≤ most_lanes }
    {
        self.misses.into_found()
    }

    /// Reads the first vector of each lane, by lane.
    ///
    /// It stops at the first lane whose text has no known first vector (`Stop::Refused`) or whose place can't be read
    /// (`Stop::ReadFault`). Nothing is put, and nothing is found.
    pub fn begin<D: Desk>(&mut self, desk: &mut D) -> Result<(), Stop>
        requires ready { IsCheckable self.old }
        requires readable { AreAttached (D.told desk.old).register self.old.stimuli }
        ensures misses { self.new.misses ≡ self.old.misses }
        ensures engine { self.new.engine ≡ self.old.engine }
        ensures lanes { OnOk result (length self.new.stimuli ≡ length self.old.stimuli) }
        ensures ready { OnOk result (IsCheckable self.new) }
        ensures readable { OnOk result (AreAttached (D.told desk.new).register self.new.stimuli) }
        ensures begun { IsTrue D.tells → (run : Run) → AreWatched W.lane run self.old (D.told desk.old).contents
            → OnOk result (AreFoundIn W.lane run 0 self.new (D.told desk.new).contents) }
        ensures unrefused { IsTrue D.tells → (run : Run) → AreWatched W.lane run self.old (D.told desk.old).contents
            → OnOk result (AreUnrefused run 0 (length self.old.stimuli) 1) }

        // The first lane without a known first vector stops it.
        ensures stops { IsTrue D.tells → (run : Run) → AreWatched W.lane run self.old (D.told desk.old).contents
            → IfErr result (ReadStops run (length self.old.stimuli) 0 (D.told desk.new).contents) }
        ensures stimulus { IfErr result IsOfStimulus }
        ensures lane { IfErr result (IsLaneOf (length self.old.stimuli)) }
        ensures cause { IfErr result (HasCause (D.told desk.old).register (D.told desk.new).register) }
        ensures same { OnOk result ((D.told desk.new).register ≡ (D.told desk.old).register) }
        ensures others { IsTrue D.tells → OtherPlacesKept (length self.old.stimuli) (D.told desk.old).contents (D.told desk.new).contents }
    {
        self.read(desk)
    }

    /// Runs the rounds until every lane has ended. It takes no memory, and puts nothing.
    ///
    /// In each round but the first the next vector of each lane that hasn't ended is read. If some lane has one, the clocks fall once in all
    /// lanes, what each stimulus wants is compared with the outputs' bits then, and the clocks rise. Of each lane the first miss is kept.
    ///
    /// It stops at the first line that is no vector, or one too many (`Stop::Refused`), and at the first lane whose place can't be read
    /// (`Stop::ReadFault`); each names the lane. What was found is then what the rounds before that gave.
    pub fn rounds<D: Desk, L: Ledger>(
        &mut self,
        desk: &mut D,
        steps: &mut Steps<L>,
    ) -> Result<Counts, Stop>
        requires width { W.LANES ≤ most_lanes }
        requires lanes { length self.old.stimuli ≤ W.LANES }
        requires ready { IsCheckable self.old }
        requires readable { AreAttached (D.told desk.old).register self.old.stimuli }

        // In each lane there was found what it misses first.
        ensures done { IsTrue D.tells → (run : Run) → AreFoundIn W.lane run 0 self.old (D.told desk.old).contents
            → OnOk result (AreChecked run (length self.old.stimuli) self.new.misses.found (D.told desk.new).contents) }
        ensures counted { IsTrue D.tells → (run : Run) → AreFoundIn W.lane run 0 self.old (D.told desk.old).contents
            → IfOk result (λ counts. AreCounted run (length self.old.stimuli) counts.vectors counts.settlings) }
        ensures most { IfOk result (λ counts. counts.settlings ≤ 33554434) }
        ensures outputs { self.new.misses.outputs ≡ self.old.misses.outputs }
        ensures lanes { length self.new.misses.found ≡ length self.old.stimuli }
        ensures same { OnOk result ((D.told desk.new).register ≡ (D.told desk.old).register) }
        ensures operations { IfOk result (λ counts. steps.new ≡ steps.old + counts.operations) }

        // The engine's steps are those of a fall and a rise in each round, for all lanes together, within the design's size each.
        ensures ticked { IfOk result (λ counts. (n : ℕ) × (counts.settlings ≡ 2 * n)
            × TicksRounds self.old.engine.program self.old.engine.begun n steps.old steps.new) }
        ensures within { (d : Design) (clocks : List ℕ) → IsProgramOf d clocks self.old.engine.program
            → IfOk result (λ counts. steps.new ≤ steps.old + size d * counts.settlings) }
        ensures ticked_always { (n : ℕ) × TicksRounds self.old.engine.program self.old.engine.begun n steps.old steps.new }

        // A stimulus stops it, behind its first vector.
        ensures stops { IsTrue D.tells → (run : Run) → AreFoundIn W.lane run 0 self.old (D.told desk.old).contents
            → IfErr result (λ stop. (k : ℕ) × IsCheckStop run (length self.old.stimuli) k self.new.misses.found (D.told desk.new).contents stop) }
        ensures stimulus { IfErr result IsOfStimulus }
        ensures lane { IfErr result (IsLaneOf (length self.old.stimuli)) }
        ensures cause { IfErr result (HasCause (D.told desk.old).register (D.told desk.new).register) }
        ensures others { IsTrue D.tells → OtherPlacesKept (length self.old.stimuli) (D.told desk.old).contents (D.told desk.new).contents }
    {
        let slots = SlotOperations::of(self.driven.engine());
        let mut vectors = 0;
        for round in 0..MOST_ROUNDS {
            let live = self.round(steps);
            if live == 0 {
                let settlings = 2 * round;
                return Ok(Counts {
                    vectors,
                    settlings,
                    operations: slots.in_rounds(round),
                });
            }
            vectors += live;
            self.read(desk)?;
        }
        let settlings = 2 * MOST_ROUNDS;
        Ok(Counts {
            vectors,
            settlings,
            operations: slots.in_rounds(MOST_ROUNDS),
        })
    }

    /// Reads the vectors of the next round, by lane.
    fn read<D: Desk>(&mut self, desk: &mut D) -> Result<(), Stop>
        requires attached { AreAttached (D.told desk.old).register self.old.stimuli }
        ensures misses { self.new.misses ≡ self.old.misses }
        ensures engine { self.new.engine ≡ self.old.engine }
        ensures lanes { OnOk result (length self.new.stimuli ≡ length self.old.stimuli) }
        ensures same { OnOk result ((D.told desk.new).register ≡ (D.told desk.old).register) }
        ensures ready { IsCheckable self.old → OnOk result (IsCheckable self.new) }
        ensures attached { OnOk result (AreAttached (D.told desk.new).register self.new.stimuli) }
        ensures read { IsTrue D.tells → (run : Run) (k : ℕ) → HaveNext run k self.old.stimuli (D.told desk.old).contents
            → OnOk result (HaveVectors run k self.new.stimuli (D.told desk.new).contents) }
        ensures stops { IsTrue D.tells → (run : Run) (k : ℕ) → HaveNext run k self.old.stimuli (D.told desk.old).contents
            → IfErr result (ReadStops run (length self.old.stimuli) k (D.told desk.new).contents) }
        ensures stimulus { IfErr result IsOfStimulus }
        ensures lane { IfErr result (IsLaneOf (length self.old.stimuli)) }
        ensures cause { IfErr result (HasCause (D.told desk.old).register (D.told desk.new).register) }
        ensures others { IsTrue D.tells → OtherPlacesKept (length self.old.stimuli) (D.told desk.old).contents (D.told desk.new).contents }
    {
        self.driven.read(desk)
    }

    /// Runs a round whose vectors were read: what is missed is noted when the clocks are low. Answers how many lanes had a vector.
    fn round<L: Ledger>(&mut self, steps: &mut Steps<L>) -> u64
        requires width { W.LANES ≤ most_lanes }
        requires lanes { length self.old.stimuli ≤ W.LANES }
        requires ready { IsCheckable self.old }
        ensures count { result ≡ count_by (λ k. k.live) self.old.stimuli }
        ensures stimuli { self.new.stimuli ≡ self.old.stimuli }
        ensures program { self.new.engine.program ≡ self.old.engine.program }
        ensures outputs { self.new.misses.outputs ≡ self.old.misses.outputs }
        ensures ready { IsCheckable self.new }
        ensures done { (run : Run) (k : ℕ) (c : Contents) → AreFoundIn W.lane run k self.old c → AreFoundBefore W.lane run (suc k) self.new c }
        ensures begun { 0 < count_by (λ k. k.live) self.old.stimuli → self.new.engine.begun ≡ true }
        ensures ticked { Ticks self.old.engine.program self.old.engine.begun (count_by (λ k. k.live) self.old.stimuli) steps.old steps.new }
    {
        line_law();
        let vectors = self.driven.fall(steps);
        if vectors == 0 {
            return 0;
        }
        self.misses.note(self.driven.engine(), self.driven.drive());
        self.driven.rise(steps);
        vectors
    }
}

//! What a run needs in its rounds, and the phases of a round.

ghost use Rattle.std.specs.Prelude.{List, ◌≡◌, ℕ, ◌<◌, ◌≤◌, Bool, length, suc, true, IsTrue, IfOk, IfErr, OnOk};
ghost use Rattle.std.specs.List.{count_by};
ghost use Rattle.vs_desk.specs.Places.{most_lanes};
ghost use Rattle.vs_design.specs.Designs.{Design};
ghost use Rattle.vs_program.specs.Compiled.{IsProgramOf};
ghost use Rattle.vs_feed.specs.Lanes.{AreAttached, OtherPlacesKept};
ghost use Rattle.vs_waves.specs.Puts.{AreWritable};
ghost use Rattle.vs_rounds.specs.Lanes.{Run, Simulation, HaveNext, HaveVectors, AreBeforeRound, AreInRound};
ghost use Rattle.vs_rounds.specs.Ready.{AreParts, IsReady, IsNoted, Settles, Ticks};
ghost use Rattle.vs_rounds.specs.Stops.{ReadStops, StopsIn, IsLaneOf, HasCause, OthersStay};

use crate::Stop;
use crate::driven::Driven;
use std::alloc::{AllocError, Global};
use std::marker::Model;
use std::sync::ledger::Ledger;
use vs_desk::Desk;
use vs_engine::Engine;
use vs_feed::Drive;
use vs_plane::{Lanes, Steps};
use vs_waves::Waves;

/// What a run needs in its rounds: the stimuli, the waves and the engine of all lanes. Lanes have no part in each other.
#[derive(Drop)]
pub struct Machine<W: Lanes> {
    driven: Driven<W>,
    waves: Waves<W>,
}

// Clauses see the stimuli, the waves and the engine.
impl<W: Lanes> Model for Machine<W> {
    ghost use Rattle.vs_rounds.specs.Lanes.{Simulation};

    ghost Value = { Simulation W };

    ghost view = { λ m. record { stimuli = m.driven.stimuli; waves = m.waves; engine = m.driven.engine } };
}

impl<W: Lanes> Machine<W> {
    /// A machine of these parts. No other call takes memory, and the only error is that there is none.
    pub fn new(
        alloc: Global,
        drive: Drive,
        waves: Waves<W>,
        engine: Engine<W>,
    ) -> Result<Machine<W>, AllocError>
        ensures parts { IfOk result (λ m. m ≡ record { stimuli = drive; waves = waves; engine = engine }) }
        ensures ready { (share : Bool) (d : Design) (clocks : List ℕ) (half : ℕ) → AreParts share d clocks half drive waves engine.program → IfOk result (IsReady 0) }
    {
        let driven = Driven::new(alloc, drive, engine)?;
        Ok(Machine { driven, waves })
    }

    /// The engine of all lanes.
    pub(crate) fn engine(&self) -> &Engine<W>
        ensures { result.now ≡ self.now.engine }
    {
        self.driven.engine()
    }

    /// Reads the vectors of the next round, by lane.
    pub(crate) fn read<D: Desk>(&mut self, desk: &mut D) -> Result<(), Stop>
        requires attached { AreAttached (D.told desk.old).register self.old.stimuli }
        ensures waves { self.new.waves ≡ self.old.waves }
        ensures engine { self.new.engine ≡ self.old.engine }
        ensures lanes { OnOk result (length self.new.stimuli ≡ length self.old.stimuli) }
        ensures same { OnOk result ((D.told desk.new).register ≡ (D.told desk.old).register) }
        ensures ready { (k : ℕ) → IsReady k self.old → OnOk result (IsReady k self.new) }
        ensures attached { OnOk result (AreAttached (D.told desk.new).register self.new.stimuli) }
        ensures read { IsTrue D.tells → (run : Run) (k : ℕ) → HaveNext run k self.old.stimuli (D.told desk.old).contents
            → OnOk result (HaveVectors run k self.new.stimuli (D.told desk.new).contents) }
        ensures stops { IsTrue D.tells → (run : Run) (k : ℕ) → HaveNext run k self.old.stimuli (D.told desk.old).contents
            → IfErr result (ReadStops run (length self.old.stimuli) k (D.told desk.new).contents) }
        ensures lane { IfErr result (IsLaneOf (length self.old.stimuli)) }
        ensures cause { IfErr result (HasCause (D.told desk.old).register (D.told desk.new).register) }
        ensures others { IsTrue D.tells → OtherPlacesKept (length self.old.stimuli) (D.told desk.old).contents (D.told desk.new).contents }
    {
        self.driven.read(desk)
    }

    /// Runs the engine's two slots of a round, where some lane has a vector, and notes the values after the first, or those that it
    /// holds. Answers how many lanes have one.
    pub(crate) fn settle<L: Ledger>(&mut self, round: u64, steps: &mut Steps<L>) -> u64
        requires width { W.LANES ≤ most_lanes }
        requires lanes { length self.old.stimuli ≤ W.LANES }
        requires round { round ≤ 16777216 }
        requires ready { IsReady round self.old }
        ensures count { result ≡ count_by (λ k. k.live) self.old.stimuli }
        ensures stimuli { self.new.stimuli ≡ self.old.stimuli }
        ensures program { self.new.engine.program ≡ self.old.engine.program }
        ensures noted { IsNoted self.new }
        ensures lanes { (d : Design) (clocks : List ℕ) (i : ℕ) → IsProgramOf d clocks self.old.engine.program → i < length self.old.stimuli
            → Settles W.lane d clocks round i self.old self.new }
        ensures begun { 0 < count_by (λ k. k.live) self.old.stimuli → self.new.engine.begun ≡ true }
        ensures ticked { Ticks self.old.engine.program self.old.engine.begun (count_by (λ k. k.live) self.old.stimuli) steps.old steps.new }
    {
        let vectors = self.driven.fall(steps);
        let live = self.driven.drive().live();
        self.waves.begin(self.driven.engine(), live, round);
        if vectors == 0 {
            return 0;
        }
        self.driven.rise(steps);
        vectors
    }

    /// Runs a round whose vectors were read, and puts by lane what it gives. Answers how many lanes had a vector.
    pub(crate) fn round<D: Desk, L: Ledger>(
        &mut self,
        round: u64,
        desk: &mut D,
        steps: &mut Steps<L>,
    ) -> Result<u64, Stop>
        requires width { W.LANES ≤ most_lanes }
        requires lanes { length self.old.stimuli ≤ W.LANES }
        requires round { round ≤ 16777216 }
        requires ready { IsReady round self.old }
        requires writable { AreWritable (D.told desk.old).register (length self.old.waves) }
        ensures count { IfOk result (λ n. n ≡ count_by (λ k. k.live) self.old.stimuli) }
        ensures stimuli { self.new.stimuli ≡ self.old.stimuli }
        ensures program { self.new.engine.program ≡ self.old.engine.program }
        ensures ready { OnOk result (IsReady (suc round) self.new) }
        ensures same { OnOk result ((D.told desk.new).register ≡ (D.told desk.old).register) }
        ensures done { IsTrue D.tells → (run : Run) → AreInRound W.lane run round self.old (D.told desk.old).contents
            → OnOk result (AreBeforeRound W.lane run (suc round) self.new (D.told desk.new).contents) }
        ensures stops { IsTrue D.tells → (run : Run) → AreInRound W.lane run round self.old (D.told desk.old).contents
            → IfErr result (StopsIn run (length self.old.stimuli) round (D.told desk.new).contents) }
        ensures lane { IfErr result (IsLaneOf (length self.old.stimuli)) }
        ensures cause { IfErr result (HasCause (D.told desk.old).register (D.told desk.new).register) }
        ensures others { IsTrue D.tells → OthersStay (length self.old.stimuli) (D.told desk.old).contents (D.told desk.new).contents }
        ensures begun { 0 < count_by (λ k. k.live) self.old.stimuli → self.new.engine.begun ≡ true }
        ensures ticked { Ticks self.old.engine.program self.old.engine.begun (count_by (λ k. k.live) self.old.stimuli) steps.old steps.new }
    {
        let vectors = self.settle(round, steps);
        let live = self.driven.drive().live();
        if let Err(fault) = self.waves.put(self.driven.engine(), live, round, desk) {
            return Err(Stop::WriteFault { lane: fault.lane });
        }
        Ok(vectors)
    }
}

//! The stimuli and the engine of all lanes: reading, and the two slots of a round.

ghost use Rattle.std.specs.Prelude.{◌≡◌, ℕ, ◌+◌, ◌<◌, ◌≤◌, List, length, true, IsTrue, IfOk, IfErr, OnOk};
ghost use Rattle.std.specs.List.{count_by};
ghost use Rattle.vs_desk.specs.Places.{most_lanes};
ghost use Rattle.vs_net.specs.Queue.{Fall, Rise};
ghost use Rattle.vs_net.specs.Solution.{IsSlotEnd};
ghost use Rattle.vs_design.specs.Designs.{Design};
ghost use Rattle.vs_design.specs.Networks.{network_of};
ghost use Rattle.vs_program.specs.Program.{rise_stores};
ghost use Rattle.vs_program.specs.Compiled.{IsProgramOf};
ghost use Rattle.vs_program.specs.declared.compiled.Span.{Span};
ghost use Rattle.vs_engine.specs.Lanes.{state};
ghost use Rattle.vs_feed.specs.Lanes.{lane_at, AreAttached, OtherPlacesKept};
ghost use Rattle.vs_misses.specs.Watch.{AllFit, named};
ghost use Rattle.vs_rounds.specs.Drives.{vector_state};
ghost use Rattle.vs_rounds.specs.Lanes.{Run, Driving, HaveNext, HaveVectors};
ghost use Rattle.vs_rounds.specs.Ready.{AreDriven, settling_stores};
ghost use Rattle.vs_rounds.specs.Stops.{ReadStops, IsLaneOf, IsOfStimulus, HasCause};

use crate::Stop;
use crate::stop::stop_of;
use std::alloc::{AllocError, Global};
use std::marker::Model;
use std::sync::ledger::Ledger;
use vs_desk::Desk;
use vs_engine::Engine;
use vs_feed::Drive;
use vs_four::Bit4;
use vs_plane::{Lanes, Pair, Steps};

/// The stimuli of all lanes, and the engine that they drive. Lanes have no part in each other.
#[derive(Drop)]
pub(crate) struct Driven<W: Lanes> {
    drive: Drive,
    engine: Engine<W>,
    pairs: Vec<Pair<W>>,
}

// Clauses see the stimuli and the engine.
impl<W: Lanes> Model for Driven<W> {
    ghost use Rattle.std.specs.Prelude.{◌≡◌, length};
    ghost use Rattle.vs_rounds.specs.Lanes.{Driving};

    ghost Value = { Driving W };

    ghost view = { λ d. record { stimuli = d.drive; engine = d.engine } };

    ghost invariant = { λ d. length d.pairs.items ≡ length d.engine.program.inputs };
}

impl<W: Lanes> Driven<W> {
    /// These stimuli and this engine. No other call takes memory, and the only error is that there is none.
    pub(crate) fn new(
        alloc: Global,
        drive: Drive,
        engine: Engine<W>,
    ) -> Result<Driven<W>, AllocError>
        ensures { IfOk result (λ d. d ≡ record { stimuli = drive; engine = engine }) }
    {
        let count = engine.compiled().inputs().len();
        Ok(Driven {
            drive,
            engine,
            pairs: vec![in alloc; Pair::of_bit(Bit4::X); count]?,
        })
    }

    /// The engine of all lanes.
    pub(crate) fn engine(&self) -> &Engine<W>
        ensures { result.now ≡ self.now.engine }
    {
        &self.engine
    }

    /// The stimuli of all lanes.
    pub(crate) fn drive(&self) -> &Drive
        ensures { result.now ≡ self.now.stimuli }
    {
        &self.drive
    }

    /// Reads the vectors of the next round, by lane.
    pub(crate) fn read<D: Desk>(&mut self, desk: &mut D) -> Result<(), Stop>
        requires attached { AreAttached (D.told desk.old).register self.old.stimuli }
        ensures engine { self.new.engine ≡ self.old.engine }
        ensures lanes { OnOk result (length self.new.stimuli ≡ length self.old.stimuli) }
        ensures same { OnOk result ((D.told desk.new).register ≡ (D.told desk.old).register) }
        ensures driven { AreDriven self.old → OnOk result (AreDriven self.new) }
        ensures columns { OnOk result (named self.new.stimuli ≡ named self.old.stimuli) }
        ensures fit { (outputs : List Span) → AllFit outputs self.old.stimuli → OnOk result (AllFit outputs self.new.stimuli) }
        ensures attached { OnOk result (AreAttached (D.told desk.new).register self.new.stimuli) }
        ensures read { IsTrue D.tells → (run : Run) (k : ℕ) → HaveNext run k self.old.stimuli (D.told desk.old).contents
            → OnOk result (HaveVectors run k self.new.stimuli (D.told desk.new).contents) }
        ensures stops { IsTrue D.tells → (run : Run) (k : ℕ) → HaveNext run k self.old.stimuli (D.told desk.old).contents
            → IfErr result (ReadStops run (length self.old.stimuli) k (D.told desk.new).contents) }
        ensures stimulus { IfErr result IsOfStimulus }
        ensures lane { IfErr result (IsLaneOf (length self.old.stimuli)) }
        ensures cause { IfErr result (HasCause (D.told desk.old).register (D.told desk.new).register) }
        ensures others { IsTrue D.tells → OtherPlacesKept (length self.old.stimuli) (D.told desk.old).contents (D.told desk.new).contents }
    {
        if let Err(stopped) = self.drive.read(desk) {
            return Err(stop_of(stopped));
        }
        Ok(())
    }

    /// Feeds the vectors of a round and lets the clocks fall, where some lane has one. Answers how many have.
    pub(crate) fn fall<L: Ledger>(&mut self, steps: &mut Steps<L>) -> u64
        requires width { W.LANES ≤ most_lanes }
        requires lanes { length self.old.stimuli ≤ W.LANES }
        requires driven { AreDriven self.old }
        ensures count { result ≡ count_by (λ k. k.live) self.old.stimuli }
        ensures stimuli { self.new.stimuli ≡ self.old.stimuli }
        ensures program { self.new.engine.program ≡ self.old.engine.program }
        ensures falls { (d : Design) (clocks : List ℕ) (i : ℕ) → IsProgramOf d clocks self.old.engine.program → i < length self.old.stimuli
            → (lane_at self.old.stimuli i).live ≡ true
            → IsSlotEnd (network_of d clocks) (state W.lane self.old.engine i) (Fall (vector_state d clocks (lane_at self.old.stimuli i).vector))
            (state W.lane self.new.engine i) }
        ensures idle { result ≡ 0 → (self.new ≡ self.old) × (steps.new ≡ steps.old) }
        ensures begun { 0 < result → self.new.engine.begun ≡ true }
        ensures ticked { 0 < result → steps.new ≡ steps.old + settling_stores self.old.engine.program self.old.engine.begun }
    {
        let vectors = count_live(self.drive.live());
        if vectors == 0 {
            return 0;
        }
        self.drive.feed(&mut self.pairs);
        self.engine.fall(&self.pairs, steps);
        vectors
    }

    /// Lets the clocks rise, behind a fall.
    pub(crate) fn rise<L: Ledger>(&mut self, steps: &mut Steps<L>)
        requires { self.old.engine.begun ≡ true }
        ensures stimuli { self.new.stimuli ≡ self.old.stimuli }
        ensures program { self.new.engine.program ≡ self.old.engine.program }
        ensures begun { self.new.engine.begun ≡ true }
        ensures rises { (d : Design) (clocks : List ℕ) (i : ℕ) → IsProgramOf d clocks self.old.engine.program → i < W.LANES
            → IsSlotEnd (network_of d clocks) (state W.lane self.old.engine i) Rise (state W.lane self.new.engine i) }
        ensures ticked { steps.new ≡ steps.old + rise_stores self.old.engine.program }
    {
        self.engine.rise(steps);
    }
}

/// How many of these are true.
fn count_live(live: &[bool]) -> u64
    ensures { result ≡ count_by (λ x. x) live.now }
{
    let mut count = 0;
    for is_live in live {
        if *is_live {
            count += 1;
        }
    }
    count
}

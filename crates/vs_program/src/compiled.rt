//! What a design is compiled to.

ghost use Rattle.std.specs.Prelude.{◌≡◌, ℕ, ◌+◌, ◌<◌, ◌≤◌, ◌^◌, length, slice_get, All, Contains};
ghost use Rattle.vs_plane.specs.Lanes.{slot_lane};
ghost use Rattle.vs_code.specs.Calls.{AreCalled, length_of, slots_of, targets_of};
ghost use Rattle.vs_program.specs.Parts.{program_of_parts};
ghost use Rattle.vs_program.specs.Phases.{ArePhasesWithin, IsRunWithin, calls_of_runs, runs_at};
ghost use Rattle.vs_program.specs.Program.{IsInRange, calls_at};

use std::marker::Model;
use std::sync::ledger::Ledger;
use vs_code::{Program, sequence_law};
use vs_four::Bit4;
use vs_plane::{PlaneFile, Steps, Word};

/// The bits of a signal: the number of its least significant bit, and how many there are, from 1 to 64.
#[derive(Clone, Copy, PartialEq, Eq, Debug)]
pub struct Span {
    pub first: u32,
    pub length: u32,
}

/// A run of calls of a program: those from number `from` on, up to but not with number `to`.
#[derive(Clone, Copy, PartialEq, Eq, Debug)]
pub struct Run {
    pub from: usize,
    pub to: usize,
}

/// What a time slot runs. One in which the clocks fall has one phase, and one in which they rise has two.
#[derive(Clone, Copy, PartialEq, Eq, Debug)]
pub enum Phase {
    /// In a first slot, in which the clocks fall: the resets, and then all that settles.
    First,
    /// In a later one in which they fall: the resets, and then what the data inputs and the resets lead to.
    Fall,
    /// Where they rise: what gives the registers their next values.
    Next,
    /// After that: what the registers lead to.
    Rise,
}

/// The runs of each phase, in the order in which they are made.
#[derive(Drop)]
pub struct Phases {
    pub first: Vec<Run>,
    pub fall: Vec<Run>,
    pub next: Vec<Run>,
    pub rise: Vec<Run>,
}

impl Phases {
    /// The runs of this phase.
    pub fn runs(&self, phase: Phase) -> &[Run]
        ensures { result.now ≡ runs_at self.now phase }
    {
        match phase {
            Phase::First => self.first.as_slice(),
            Phase::Fall => self.fall.as_slice(),
            Phase::Next => self.next.as_slice(),
            Phase::Rise => self.rise.as_slice(),
        }
    }
}

/// The parts of a compiled design.
#[derive(Drop)]
pub struct Parts {
    /// How many bits the design has.
    pub bits: u32,
    /// The clocks' bits; where there is no clock, the number of the design's bits alone.
    pub clocks: Vec<u32>,
    /// The bits of the data inputs, in bit order.
    pub inputs: Vec<u32>,
    /// The clocks' bits, and those of the nets that copy them. There is none without a clock.
    pub nets: Vec<u32>,
    /// What each slot begins with, in every lane.
    pub initial: Vec<Bit4>,
    /// The bits of each signal that a waveform shows, in their order: of all but memories.
    pub signals: Vec<Span>,
    /// The calls of all phases, each kept once.
    pub calls: Program,
    /// Which of them each phase makes.
    pub phases: Phases,
}

/// A compiled design. Slots 0 to 3 hold the constants 0, 1, x and z, and slot 4 + n bit n of the design; those behind the design's bits hold the next values of registers, the masks of sleeping blocks, and what the programs keep on the way.
#[derive(Drop)]
pub struct Compiled {
    bits: u32,
    clocks: Vec<u32>,
    inputs: Vec<u32>,
    nets: Vec<u32>,
    initial: Vec<Bit4>,
    signals: Vec<Span>,
    calls: Program,
    phases: Phases,
}

impl Model for Compiled {
    ghost use Rattle.vs_program.specs.Program.{Program};

    ghost Value = { Program };

    ghost use Rattle.vs_program.specs.Kept.{IsKept, program_of};

    ghost view = { program_of };

    ghost invariant = { IsKept };
}

impl Compiled {
    /// A compiled design of these parts. It takes no memory.
    pub fn of(parts: Parts) -> Compiled
        requires in_range { IsInRange (program_of_parts parts) }
        requires phases { ArePhasesWithin (length parts.calls) parts.phases }
        ensures { result ≡ program_of_parts parts }
    {
        let Parts {
            bits,
            clocks,
            inputs,
            nets,
            initial,
            signals,
            calls,
            phases,
        } = parts;
        Compiled {
            bits,
            clocks,
            inputs,
            nets,
            initial,
            signals,
            calls,
            phases,
        }
    }

    /// The bits of the data inputs, in bit order.
    pub fn inputs(&self) -> &[u32]
        ensures { result.now ≡ self.now.inputs }
    {
        self.inputs.as_slice()
    }

    /// The clocks' bits, and those of the nets that copy them. There is none without a clock.
    pub fn nets(&self) -> &[u32]
        ensures { result.now ≡ self.now.nets }
    {
        self.nets.as_slice()
    }

    /// What each slot begins with, in every lane. All numbers of the design are of slots that are there.
    pub fn initial(&self) -> &[Bit4]
        ensures initial { result.now ≡ self.now.initial }
        ensures in_range { IsInRange self.now }
    {
        self.initial.as_slice()
    }

    /// The bits of each signal that a waveform shows, in their order: of all but memories.
    pub fn signals(&self) -> &[Span]
        ensures { result.now ≡ self.now.signals }
    {
        self.signals.as_slice()
    }

    /// How many stores an execution of this phase makes.
    pub fn length(&self, phase: Phase) -> u64
        ensures exact { result ≡ length_of (calls_at self.now phase) }
        ensures most { result < 2 ^ 32 }
    {
        count_stores(&self.calls, self.phases.runs(phase))
    }

    /// Makes the calls of this phase in their order, in every lane, in a file that has a slot for each that the design begins with.
    ///
    /// In each lane it is as if the operators were applied one after the other to that lane's bits, whatever stands in the other lanes. It takes no memory and never fails.
    pub fn execute<W: Word, L: Ledger>(
        &self,
        phase: Phase,
        file: &mut PlaneFile<W>,
        steps: &mut Steps<L>,
    )
        requires { length self.now.initial ≤ length file.old }
        ensures applied { (i : ℕ) → i < W.LANES
            → AreCalled (calls_at self.now phase) (λ slot. slot_lane W.lane file.old slot i) (λ slot. slot_lane W.lane file.new slot i) }
        ensures slots { length file.new ≡ length file.old }
        ensures kept { (slot : ℕ) → ¬ Contains (targets_of (calls_at self.now phase)) slot → slice_get file.new slot ≡ slice_get file.old slot }
        ensures ticked { steps.new ≡ steps.old + length_of (calls_at self.now phase) }
    {
        execute_runs(&self.calls, self.phases.runs(phase), file, steps);
    }
}

/// How many stores these runs of a program make.
fn count_stores(calls: &Program, runs: &[Run]) -> u64
    requires within { All (IsRunWithin (length calls.now)) runs.now }
    requires few { length_of (calls_of_runs calls.now runs.now) < 2 ^ 32 }
    ensures { result ≡ length_of (calls_of_runs calls.now runs.now) }
{
    let mut count = 0;
    for run in runs {
        count += calls.length_of_part(run.from, run.to);
    }
    count
}

/// Makes these runs of a program, one after the other.
fn execute_runs<W: Word, L: Ledger>(
    calls: &Program,
    runs: &[Run],
    file: &mut PlaneFile<W>,
    steps: &mut Steps<L>,
)
    requires within { All (IsRunWithin (length calls.now)) runs.now }
    requires below { All (λ slot. slot < length file.old) (slots_of (calls_of_runs calls.now runs.now)) }
    ensures applied { (i : ℕ) → i < W.LANES
        → AreCalled (calls_of_runs calls.now runs.now) (λ slot. slot_lane W.lane file.old slot i) (λ slot. slot_lane W.lane file.new slot i) }
    ensures slots { length file.new ≡ length file.old }
    ensures kept { (slot : ℕ) → ¬ Contains (targets_of (calls_of_runs calls.now runs.now)) slot → slice_get file.new slot ≡ slice_get file.old slot }
    ensures ticked { steps.new ≡ steps.old + length_of (calls_of_runs calls.now runs.now) }
{
    sequence_law();
    for run in runs {
        calls.execute_part(run.from, run.to, file, steps);
    }
}

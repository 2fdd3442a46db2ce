//! The calls of asynchronous resets and of sleeping blocks (IEEE 1364-2005, 9.7.2 and 9.7.5): what a lowering may emit for them, and that it is what a program of the design asks of it.
//!
//! It is definitions, in specs/, and their laws: each law is a function with an empty body whose `ensures` is the law.
#![tactic(auto)]

ghost use Rattle.vs_reset.specs.Calls.{NoneAreNeeded, ResetCallsAre};
ghost use Rattle.vs_reset.specs.Example.{CallsComputed};
ghost use Rattle.vs_reset.specs.Sleepers.{FinishIsCall, SleeperCallsAre, SleepersWrite, WakeIsCalls};

use vs_code::sequence_law;
use vs_cone::{list_law, sources_law, write_law};
use vs_design::{footprint_law, lawful_law};
use vs_program::program_law;

/// A condition, a choice and a copy do what a reset does (`calls`), within what its block may store; a block without a reset needs none (`none`).
pub fn reset_law()
    ensures calls { ResetCallsAre }
    ensures none { NoneAreNeeded }
{
    sources_law();
    list_law();
    write_law();
}

/// A comparison, a copy, a block's statement lowered to slots that are no bits', and a choice do what a sleeping block does, within what it may store (`calls`). They are calls (`wake`, `finish`), since a sleeping block writes some bit (`some`).
pub fn sleeper_law()
    ensures calls { SleeperCallsAre }
    ensures wake { WakeIsCalls }
    ensures finish { FinishIsCall }
    ensures some { SleepersWrite }
{
    sequence_law();
    write_law();
    list_law();
    lawful_law();
    footprint_law();
    program_law();
}

/// Worked calls: those of a reset, and those of a sleeping block.
pub fn call_examples()
    ensures { CallsComputed }
{}

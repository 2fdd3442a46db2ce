//! The rule of time zero.

ghost use Rattle.std.specs.Prelude.{◌≡◌, ℕ, List, None, true, IfErr, OnOk};
ghost use Rattle.vs_clock.specs.Clocked.{AreResets, AreClocksOf};
ghost use Rattle.vs_design.specs.Levels.{is_level_order};
ghost use Rattle.vs_design.specs.Refusals.{block_refusal, driver_refusal, zero_refusal};
ghost use Rattle.vs_full.specs.Found.{AreAllNoted};
ghost use Rattle.vs_flat.specs.DesignOf.{design_of};
ghost use Rattle.vs_reads.specs.Footprint.{footprints_of};
ghost use Rattle.vs_zero.specs.Refused.{IsZeroError};

use crate::error::ZeroError;
use crate::families::Families;
use crate::process::first_uncertain;
use std::alloc::Global;
use vs_clock::Clocks;
use vs_design::{cycle_law, time_zero_law};
use vs_flat::trees_law;
use vs_full::Cases;
use vs_level::Order;
use vs_reads::Footprints;
use vs_typed::Typed;

/// The rule TimeZero on the combinational blocks of a design: each surely sleeps, or is quiet, or something that it waits on surely wakes it. TimeZero: it answers the first block that breaks the rule.
pub fn check(
    alloc: Global,
    typed: &Typed,
    footprints: &Footprints,
    cases: &Cases,
    clocks: &Clocks,
    order: &Order,
) -> Result<(), ZeroError>
    requires footprints { footprints.now ≡ footprints_of (design_of typed.now) }
    requires clocks { (names : List (List ℕ)) × AreClocksOf (design_of typed.now) names clocks.now }
    requires resets { AreResets typed.now clocks.now }
    requires order { is_level_order (design_of typed.now) order.now ≡ true }
    requires blocks { block_refusal (design_of typed.now) ≡ None }
    requires cases { AreAllNoted typed.now cases.now }
    requires drivers { driver_refusal (design_of typed.now) ≡ None }
    ensures lawful { (names : List (List ℕ)) → AreClocksOf (design_of typed.now) names clocks.now → OnOk result (zero_refusal (design_of typed.now) names ≡ None) }
    ensures refused { (names : List (List ℕ)) → AreClocksOf (design_of typed.now) names clocks.now → IfErr result (IsZeroError (design_of typed.now) names) }
{
    trees_law();
    cycle_law();
    time_zero_law();
    let flat = typed.flat();
    let mut families = Families::of(alloc, typed, footprints, cases, clocks, order)?;
    let first = first_uncertain(
        alloc,
        typed,
        footprints,
        cases,
        families.early.as_mut_slice(),
        families.late.as_slice(),
    )?;
    match first {
        Some(process) => {
            let at = flat.process(process).at;
            Err(ZeroError::TimeZero { process, at })
        }
        None => Ok(()),
    }
}

//! The rules on the clocks of a design, and on its resets.

ghost use Rattle.std.specs.Prelude.{◌≡◌, None, IfOk, IfErr, OnOk, map};
ghost use Rattle.vs_design.specs.Refusals.{clock_refusal};
ghost use Rattle.vs_flat.specs.DesignOf.{design_of};
ghost use Rattle.vs_reads.specs.Footprint.{footprints_of};
ghost use Rattle.vs_clock.specs.Clocked.{AreClocksOf, AreResets};
ghost use Rattle.vs_clock.specs.Refused.{IsClockError};

use crate::clocks::Clocks;
use crate::error::ClockError;
use crate::first::{first_other, first_reading};
use crate::inputs::{ClockInputs, clocks_of};
use crate::marks::inputs_of;
use crate::nets::Nets;
use crate::resets::{Forms, resets_of};
use std::alloc::Global;
use vs_flat::trees_law;
use vs_reads::Footprints;
use vs_typed::Typed;

/// The clocks of a design by the names of their inputs, or a design without a clock where none is named: then all inputs are data inputs, and each clocked block is
/// `NotTheClock`. The rules are tried in the order of `ClockError`, and each answers its first process.
pub fn check(
    alloc: Global,
    typed: &Typed,
    footprints: &Footprints,
    clocks: &[&[u8]],
) -> Result<Clocks, ClockError>
    requires { footprints.now ≡ footprints_of (design_of typed.now) }
    ensures clocks { IfOk result (AreClocksOf (design_of typed.now) (map (λ c. c.now) clocks.now)) }
    ensures resets { IfOk result (AreResets typed.now) }
    ensures lawful { OnOk result (clock_refusal (design_of typed.now) (map (λ c. c.now) clocks.now) ≡ None) }
    ensures refused { IfErr result (IsClockError (design_of typed.now) (map (λ c. c.now) clocks.now)) }
{
    trees_law();
    let flat = typed.flat();
    let found = clocks_of(alloc, flat, clocks)?;
    let ClockInputs { numbers, bits } = match found {
        Some(inputs) => inputs,
        None => return Err(ClockError::NoClock),
    };
    let nets = Nets::of(alloc, flat, bits.as_slice())?;
    match first_reading(flat, footprints, &nets) {
        Some(process) => {
            let at = flat.process(process).at;
            return Err(ClockError::ClockRead { process, at });
        }
        None => {}
    }
    match first_other(flat, &nets) {
        Some(process) => {
            let at = flat.process(process).at;
            return Err(ClockError::NotTheClock { process, at });
        }
        None => {}
    }
    let resets = match resets_of(alloc, typed, &nets)? {
        Forms::All(resets) => resets,
        Forms::Formless(process) => {
            let at = flat.process(process).at;
            return Err(ClockError::ResetForm { process, at });
        }
    };
    let inputs = inputs_of(alloc, flat, &nets, resets.as_slice())?;
    Ok(Clocks::of(numbers, bits, nets, resets, inputs))
}

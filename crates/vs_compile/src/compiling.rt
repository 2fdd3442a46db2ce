//! The program of an accepted design.

ghost use Rattle.std.specs.Prelude.{◌≡◌, IfOk, true};
ghost use Rattle.vs_design.specs.Levels.{is_level_order};
ghost use Rattle.vs_flat.specs.DesignOf.{design_of};
ghost use Rattle.vs_reads.specs.Footprint.{footprints_of};
ghost use Rattle.vs_clock.specs.Clocked.{AreResets};
ghost use Rattle.vs_program.specs.Compiled.{IsProgramOf};
ghost use Rattle.vs_compile.specs.Known.{IsAcceptedBy};

use crate::facts::Facts;
use crate::lowerer::Lowerer;
use crate::nets::nets_of;
use std::alloc::{AllocError, Global};
use vs_assemble::{assemble, frame};
use vs_clock::Clocks;
use vs_design::accepted_law;
use vs_level::Order;
use vs_program::Compiled;
use vs_reads::Footprints;
use vs_typed::Typed;
use vs_zero::start_values;

/// The program of an accepted design: straight programs over planes, one for each kind of time slot (IEEE 1364-2005, clause 11). The only error is that there is no memory.
///
/// The footprints, the clocks with their resets, and the level order are those of the design.
pub fn compile(
    alloc: Global,
    typed: &Typed,
    footprints: &Footprints,
    clocks: &Clocks,
    order: &Order,
) -> Result<Compiled, AllocError>
    requires accepted { IsAcceptedBy (design_of typed.now) clocks.now }
    requires footprints { footprints.now ≡ footprints_of (design_of typed.now) }
    requires resets { AreResets typed.now clocks.now }
    requires order { is_level_order (design_of typed.now) order.now ≡ true }
    ensures { IfOk result (IsProgramOf (design_of typed.now) clocks.now.bits) }
{
    accepted_law();
    let facts = Facts::of(alloc, typed, footprints, clocks)?;
    let lowerer = Lowerer::of(alloc, facts)?;
    let nets = nets_of(alloc, typed, clocks)?;
    let starts = start_values(alloc, typed)?;
    let frame = frame(alloc, typed.flat(), clocks.bits(), nets, starts.as_slice())?;
    assemble(alloc, &lowerer, clocks.bits(), order.list(), frame)
}

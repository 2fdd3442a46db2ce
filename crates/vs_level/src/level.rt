//! The level order of a design, or a cycle in it.

ghost use Rattle.std.specs.Prelude.{◌≡◌, true, IfOk, IfErr, OnOk};
ghost use Rattle.vs_design.specs.Levels.{is_level_order, has_no_cycle};
ghost use Rattle.vs_flat.specs.DesignOf.{design_of};
ghost use Rattle.vs_reads.specs.Footprint.{footprints_of};
ghost use Rattle.vs_level.specs.Level.{IsLevelError};
ghost use Rattle.vs_level.specs.SortError.{IsSortErrorOf};

use crate::feeders::graph_of;
use crate::search::{SortError, sort};
use crate::{LevelError, Order};
use std::alloc::Global;
use vs_design::cycle_law;
use vs_flat::{Flat, trees_law};
use vs_reads::Footprints;
use vs_typed::Typed;

/// The error of a circle in the graph of a design.
fn error_of(flat: &Flat, error: SortError) -> LevelError
    requires { IsSortErrorOf (design_of flat.now) error }
    ensures { IsLevelError (design_of flat.now) result }
{
    trees_law();
    cycle_law();
    match error {
        SortError::Circle(processes) => {
            let at = flat.process(processes[0]).at;
            LevelError::Cycle { processes, at }
        }
        SortError::Memory => LevelError::Memory,
    }
}

/// A level order of a design. Cycle: there is none, since assigns and combinational blocks feed one another in a circle; which of several circles is answered is left open. The time is linear in the lengths of the footprints, where no bit has two writers.
pub fn order(alloc: Global, typed: &Typed, footprints: &Footprints) -> Result<Order, LevelError>
    requires { footprints.now ≡ footprints_of (design_of typed.now) }
    ensures order { IfOk result (λ o. is_level_order (design_of typed.now) o ≡ true) }
    ensures acyclic { OnOk result (has_no_cycle (design_of typed.now) ≡ true) }
    ensures refused { IfErr result (IsLevelError (design_of typed.now)) }
{
    cycle_law();
    let flat = typed.flat();
    let graph = graph_of(alloc, flat, footprints)?;
    match sort(alloc, &graph) {
        Ok(processes) => Ok(Order::of(processes)),
        Err(error) => Err(error_of(flat, error)),
    }
}

//! The rule on races.

ghost use Rattle.std.specs.Prelude.{◌≡◌, ◌<◌, ℕ, List, None, Some, length, true, slice_get, IfErr, OnOk};
ghost use Rattle.vs_design.specs.Designs.{Process, bit_count};
ghost use Rattle.vs_design.specs.Levels.{is_level_order};
ghost use Rattle.vs_design.specs.Refusals.{race_refusal};
ghost use Rattle.vs_flat.specs.DesignOf.{design_of};
ghost use Rattle.vs_reads.specs.Footprint.{footprints_of};
ghost use Rattle.vs_race.specs.Stirrers.{AreTold, IsWithin, IsFirstStirred, stirs_bit};
ghost use Rattle.vs_race.specs.Refused.{IsFirstRaced, IsRaceError};

use crate::RaceError;
use crate::stirrer::Stirrer;
use crate::table::table_of;
use std::alloc::Global;
use vs_design::{cycle_law, race_law, refusal_law};
use vs_flat::{Kind, has_edge, trees_law};
use vs_level::Order;
use vs_reads::{Footprints, footprint_law};
use vs_typed::Typed;

/// The first of these bits that a block other than process p stirs.
fn first_stirred(table: &[Stirrer], bits: &[u32], p: u32) -> Option<u32>
    requires { IsWithin (length table.now) bits.now }
    ensures { IsFirstStirred table.now bits.now p result }
{
    for bit in bits {
        if table[*bit as usize].has_other(p) {
            return Some(*bit);
        }
    }
    None
}

/// The least bit that process p reads and another clocked block stirs, where it is a clocked block itself.
fn first_raced(typed: &Typed, footprints: &Footprints, table: &[Stirrer], p: u32) -> Option<u32>
    requires footprints { footprints.now ≡ footprints_of (design_of typed.now) }
    requires count { length table.now ≡ bit_count (design_of typed.now) }
    requires there { p < length typed.now.processes }
    ensures { (order : List ℕ) (process : Process) → AreTold table.now (stirs_bit (design_of typed.now) order) → slice_get (design_of typed.now).processes p ≡ Some process
        → IsFirstRaced (design_of typed.now) order p process result }
{
    trees_law();
    footprint_law();
    let Kind::Block { events, .. } = &typed.flat().process(p).kind else {
        return None;
    };
    if !has_edge(events.as_slice()) {
        return None;
    }
    first_stirred(table, footprints.reads(p), p)
}

/// Whether no clocked block of a design reads a bit that another one stirs: what a clocked block writes by blocking assignments, and what assigns and combinational blocks make of that. The order is any level order of the design. Race: the least clocked block that reads such a bit, and the least bit that it reads so. The time is linear in the lengths of the footprints.
pub fn races(
    alloc: Global,
    typed: &Typed,
    footprints: &Footprints,
    order: &Order,
) -> Result<(), RaceError>
    requires footprints { footprints.now ≡ footprints_of (design_of typed.now) }
    requires order { is_level_order (design_of typed.now) order.now ≡ true }
    ensures free { OnOk result (race_refusal (design_of typed.now) ≡ None) }
    ensures refused { IfErr result (IsRaceError (design_of typed.now)) }
{
    trees_law();
    cycle_law();
    race_law();
    refusal_law();
    let flat = typed.flat();
    let table = table_of(alloc, typed, footprints, order)?;
    for process in 0..flat.process_count() {
        if let Some(bit) = first_raced(typed, footprints, table.as_slice(), process) {
            let at = flat.process(process).at;
            return Err(RaceError::Race { process, bit, at });
        }
    }
    Ok(())
}

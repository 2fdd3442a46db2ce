//! The table of the drivers of all bits.

ghost use Rattle.std.specs.Prelude.{◌≡◌, ℕ, ◌+◌, ◌<◌, ◌++◌, List, true, length, replicate, IfOk, OnOk};
ghost use Rattle.vs_design.specs.Designs.{bit_count};
ghost use Rattle.vs_design.specs.Footprints.{contains, target_bits};
ghost use Rattle.vs_design.specs.Rules.{times};
ghost use Rattle.vs_flat.specs.DesignOf.{arena_trees, design_of};
ghost use Rattle.vs_flat.specs.Trees.{target_tree, tree_at};
ghost use Rattle.vs_reads.specs.Footprint.{footprints_of};
ghost use Rattle.vs_shape.specs.Walked.{IsTarget};
ghost use Rattle.vs_driver.specs.Drivers.{first_two, drivers_at, AreDrivers, IsTableOf};

use crate::drivers::Drivers;
use std::alloc::{AllocError, Global};
use vs_flat::{Kind, count_bits, lawful_law, names_law, trees_law};
use vs_reads::{Footprints, footprint_law};
use vs_typed::{Typed, fits_law};

/// Notes that process p drives these bits, a bit as often as it is there.
fn note(table: &mut [Drivers], bits: &[u32], p: u32)
    requires { (b : ℕ) → contains bits.now b ≡ true → b < length table.old }
    ensures { (b : ℕ) (ps : List ℕ) → b < length table.old → drivers_at table.old b ≡ first_two ps
        → drivers_at table.new b ≡ first_two (ps ++ replicate (times b bits.now) p) }
{
    for bit in bits {
        let drivers = table[*bit as usize];
        table[*bit as usize] = drivers.with(p);
    }
}

/// The bits that an assign writes, a bit as often as its target has it (IEEE 1364-2005, 6.1).
pub(crate) fn assigned_bits(
    alloc: Global,
    typed: &Typed,
    target: u32,
) -> Result<Vec<u32>, AllocError>
    requires there { target < length typed.now.nodes }
    requires target { IsTarget (tree_at (arena_trees typed.now) target) }
    ensures { IfOk result (λ v. v.items ≡ target_bits (target_tree (tree_at (arena_trees typed.now) target))) }
{
    let mut bits = Vec::new(alloc);
    typed.shapes().push_target(target, &mut bits)?;
    Ok(bits)
}

/// Notes the bits that process p drives.
fn note_process(
    alloc: Global,
    typed: &Typed,
    footprints: &Footprints,
    table: &mut [Drivers],
    p: u32,
) -> Result<(), AllocError>
    requires footprints { footprints.now ≡ footprints_of (design_of typed.now) }
    requires process { p < length typed.now.processes }
    requires bits { length table.old ≡ bit_count (design_of typed.now) }
    requires drivers { AreDrivers (design_of typed.now) p table.old }
    ensures { OnOk result (AreDrivers (design_of typed.now) (p + 1) table.new) }
{
    names_law();
    trees_law();
    lawful_law();
    fits_law();
    footprint_law();
    match &typed.flat().process(p).kind {
        Kind::Assign { target, .. } => {
            let bits = assigned_bits(alloc, typed, *target)?;
            note(table, bits.as_slice(), p);
        }
        Kind::Block { .. } => note(table, footprints.writes(p), p),
    }
    Ok(())
}

/// The drivers of a bit.
pub(crate) fn drivers_at(table: &[Drivers], bit: usize) -> Drivers
    ensures { result ≡ drivers_at table.now bit }
{
    match table.get(bit) {
        Some(drivers) => *drivers,
        None => Drivers::Nobody,
    }
}

/// The drivers of all bits of a design.
pub(crate) fn table_of(
    alloc: Global,
    typed: &Typed,
    footprints: &Footprints,
) -> Result<Vec<Drivers>, AllocError>
    requires { footprints.now ≡ footprints_of (design_of typed.now) }
    ensures { IfOk result (λ v. IsTableOf (design_of typed.now) v.items) }
{
    trees_law();
    let flat = typed.flat();
    let mut table = vec![in alloc; Drivers::Nobody; count_bits(flat) as usize]?;
    for p in 0..flat.process_count() {
        note_process(alloc, typed, footprints, table.as_mut_slice(), p)?;
    }
    Ok(table)
}

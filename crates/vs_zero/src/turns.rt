//! The sets of bits after the turns of blocks and assigns.

ghost use Rattle.std.specs.Prelude.{◌≡◌, length, IfOk, OnOk};
ghost use Rattle.vs_design.specs.Designs.{bit_count};
ghost use Rattle.vs_design.specs.Footprints.{contains, statement_bits};
ghost use Rattle.vs_design.specs.TimeZero.{block_sets, early_end, is_quiet, late_end};
ghost use Rattle.vs_flat.specs.DesignOf.{design_of};
ghost use Rattle.vs_sets.specs.Completing.{AreDefaults, done};
ghost use Rattle.vs_sets.specs.Tables.{family_of};
ghost use Rattle.vs_zero.specs.Blocks.{IsBlockOf};

use crate::bits::add_x;
use std::alloc::{AllocError, Global};
use vs_four::Bit4;
use vs_sets::{Defaults, Set4, are_only_x, at_once_law, fill, put_back, run, sets_of};
use vs_shape::Shapes;

/// Lets a combinational block run, whose own bits may have any value when it begins.
fn run_block(
    alloc: Global,
    shapes: &Shapes,
    defaults: &Defaults<'_>,
    s: u32,
    bits: &[u32],
    table: &mut [Set4],
) -> Result<(), AllocError>
    requires table { length table.old ≡ bit_count (design_of shapes.now) }
    requires block { IsBlockOf shapes.now s bits.now }
    requires defaults { AreDefaults shapes.now defaults.now.complete defaults.now.others.now s }
    ensures { OnOk result (family_of table.new ≡ block_sets (done defaults.now.complete shapes.now s) (family_of table.old)) }
{
    at_once_law();
    fill(table, bits, Set4::any_value());
    run(alloc, shapes, defaults, s, bits, table)
}

/// The turn of a combinational block in the early sets: x alone where it sleeps, any value where it is lenient, else what it leaves, and x too unless it is quiet.
pub(crate) fn turn_early(
    alloc: Global,
    shapes: &Shapes,
    defaults: &Defaults<'_>,
    s: u32,
    bits: &[u32],
    asleep: bool,
    lenient: bool,
    table: &mut [Set4],
) -> Result<(), AllocError>
    requires table { length table.old ≡ bit_count (design_of shapes.now) }
    requires block { IsBlockOf shapes.now s bits.now }
    requires defaults { AreDefaults shapes.now defaults.now.complete defaults.now.others.now s }
    ensures { OnOk result (family_of table.new ≡ (λ b. early_end (contains (statement_bits (done defaults.now.complete shapes.now s)) b) asleep lenient (is_quiet (done defaults.now.complete shapes.now s) (family_of table.old)) (block_sets (done defaults.now.complete shapes.now s) (family_of table.old) b) (family_of table.old b))) }
{
    at_once_law();
    if asleep {
        fill(table, bits, Set4::only(Bit4::X));
        return Ok(());
    }
    if lenient {
        fill(table, bits, Set4::any_value());
        return Ok(());
    }
    run_block(alloc, shapes, defaults, s, bits, table)?;
    if !are_only_x(table, bits) {
        add_x(table, bits);
    }
    Ok(())
}

/// Its turn in the late sets: what it leaves, and x too where it sleeps.
pub(crate) fn turn_late(
    alloc: Global,
    shapes: &Shapes,
    defaults: &Defaults<'_>,
    s: u32,
    bits: &[u32],
    asleep: bool,
    table: &mut [Set4],
) -> Result<(), AllocError>
    requires table { length table.old ≡ bit_count (design_of shapes.now) }
    requires block { IsBlockOf shapes.now s bits.now }
    requires defaults { AreDefaults shapes.now defaults.now.complete defaults.now.others.now s }
    ensures { OnOk result (family_of table.new ≡ (λ b. late_end (contains (statement_bits (done defaults.now.complete shapes.now s)) b) asleep (block_sets (done defaults.now.complete shapes.now s) (family_of table.old) b) (family_of table.old b))) }
{
    at_once_law();
    run_block(alloc, shapes, defaults, s, bits, table)?;
    if asleep {
        add_x(table, bits);
    }
    Ok(())
}

/// Whether a combinational block is quiet by these sets: whether it leaves x alone in all its bits. Afterwards they are as before; where memory is wanting they are left between.
pub(crate) fn is_quiet(
    alloc: Global,
    shapes: &Shapes,
    defaults: &Defaults<'_>,
    s: u32,
    bits: &[u32],
    table: &mut [Set4],
) -> Result<bool, AllocError>
    requires table { length table.old ≡ bit_count (design_of shapes.now) }
    requires block { IsBlockOf shapes.now s bits.now }
    requires defaults { AreDefaults shapes.now defaults.now.complete defaults.now.others.now s }
    ensures quiet { IfOk result (λ r. r ≡ is_quiet (done defaults.now.complete shapes.now s) (family_of table.old)) }
    ensures same { OnOk result (family_of table.new ≡ family_of table.old) }
{
    at_once_law();
    let before = sets_of(alloc, table, bits)?;
    run_block(alloc, shapes, defaults, s, bits, table)?;
    let quiet = are_only_x(table, bits);
    put_back(table, bits, before.as_slice());
    Ok(quiet)
}

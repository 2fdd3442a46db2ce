//! The turns of processes in a level order.

ghost use Rattle.std.specs.Prelude.{◌≡◌, ◌<◌, ◌&&◌, None, Some, false, true, length, slice_get, IfOk, OnOk, All};
ghost use Rattle.std.specs.List.{list_any};
ghost use Rattle.vs_design.specs.Designs as D;
ghost use Rattle.vs_design.specs.Designs.{bit_count, is_clocked};
ghost use Rattle.vs_design.specs.Levels.{is_level_order};
ghost use Rattle.vs_design.specs.Refusals.{block_refusal};
ghost use Rattle.vs_design.specs.Sets.{is_known_set, is_unknown_set};
ghost use Rattle.vs_design.specs.Selects.{is_lenient_block};
ghost use Rattle.vs_design.specs.Sleepers.{is_sleeping};
ghost use Rattle.vs_design.specs.TimeZero.{families_along, is_uncertain, meant_process, settle_early, settle_late};
ghost use Rattle.vs_full.specs.Found.{AreAllNoted};
ghost use Rattle.vs_flat.specs.DesignOf.{design_of};
ghost use Rattle.vs_reads.specs.Footprint.{footprints_of};
ghost use Rattle.vs_sets.specs.Tables.{family_of};
ghost use Rattle.vs_zero.specs.Blocks.{may_wake};
ghost use Rattle.vs_clock.specs.Tests.{IsFirst};

use crate::turns::{is_quiet, turn_early, turn_late};
use std::alloc::{AllocError, Global};
use vs_design::within_law;
use vs_flat::{Kind, has_edge, lawful_law, names_law, trees_law};
use vs_full::Cases;
use vs_reads::{Footprints, footprint_law};
use vs_sets::{Set4, assign};
use vs_typed::{Typed, fits_law};

/// The turn of an assign or a combinational block in both tables.
fn turn(
    alloc: Global,
    typed: &Typed,
    footprints: &Footprints,
    cases: &Cases,
    p: u32,
    early: &mut [Set4],
    late: &mut [Set4],
) -> Result<(), AllocError>
    requires early { length early.old ≡ bit_count (design_of typed.now) }
    requires late { length late.old ≡ bit_count (design_of typed.now) }
    requires footprints { footprints.now ≡ footprints_of (design_of typed.now) }
    requires blocks { block_refusal (design_of typed.now) ≡ None }
    requires cases { AreAllNoted typed.now cases.now }
    requires there { p < length typed.now.processes }
    requires settles { (x : D.Process) → slice_get (design_of typed.now).processes p ≡ Some x → is_clocked x ≡ false }
    ensures early { (x : D.Process) → slice_get (design_of typed.now).processes p ≡ Some x → OnOk result (family_of early.new ≡ settle_early (is_sleeping (design_of typed.now) x) (is_lenient_block x) (meant_process (design_of typed.now) x) (family_of early.old)) }
    ensures late { (x : D.Process) → slice_get (design_of typed.now).processes p ≡ Some x → OnOk result (family_of late.new ≡ settle_late (is_sleeping (design_of typed.now) x) (meant_process (design_of typed.now) x) (family_of late.old)) }
{
    trees_law();
    names_law();
    lawful_law();
    fits_law();
    footprint_law();
    within_law();
    let shapes = typed.shapes();
    match &typed.flat().process(p).kind {
        Kind::Assign { target, expr, .. } => {
            assign(alloc, shapes, *target, *expr, early)?;
            assign(alloc, shapes, *target, *expr, late)
        }
        Kind::Block { statement, .. } => {
            let asleep = typed.sleeps(p);
            let lenient = cases.is_lenient(p);
            let defaults = cases.defaults(lenient);
            let bits = footprints.writes(p);
            turn_early(
                alloc, shapes, &defaults, *statement, bits, asleep, lenient, early,
            )?;
            turn_late(alloc, shapes, &defaults, *statement, bits, asleep, late)
        }
    }
}

/// The turns of all processes of a level order, one after the other.
pub(crate) fn settle(
    alloc: Global,
    typed: &Typed,
    footprints: &Footprints,
    cases: &Cases,
    order: &[u32],
    early: &mut [Set4],
    late: &mut [Set4],
) -> Result<(), AllocError>
    requires early { length early.old ≡ bit_count (design_of typed.now) }
    requires late { length late.old ≡ bit_count (design_of typed.now) }
    requires footprints { footprints.now ≡ footprints_of (design_of typed.now) }
    requires blocks { block_refusal (design_of typed.now) ≡ None }
    requires cases { AreAllNoted typed.now cases.now }
    requires order { is_level_order (design_of typed.now) order.now ≡ true }
    ensures { OnOk result (record { early = family_of early.new; late = family_of late.new } ≡ families_along (design_of typed.now) order.now (record { early = family_of early.old; late = family_of late.old })) }
{
    trees_law();
    for p in order {
        turn(alloc, typed, footprints, cases, *p, early, late)?;
    }
    Ok(())
}

/// Whether a bit with these sets is surely x or z early, and surely 0 or 1 late.
fn may_wake(early: Set4, late: Set4) -> bool
    ensures { result ≡ (is_unknown_set early && is_known_set late) }
{
    early.is_unknown() && late.is_known()
}

/// Whether one of these bits that a block waits on is surely x or z early, and surely 0 or 1 late.
fn wakes(waits: &[u32], early: &[Set4], late: &[Set4]) -> bool
    requires early { All (λ b. b < length early.now) waits.now }
    requires late { All (λ b. b < length late.now) waits.now }
    ensures { result ≡ list_any (may_wake (family_of early.now) (family_of late.now)) waits.now }
{
    for bit in waits {
        if may_wake(early[*bit as usize], late[*bit as usize]) {
            return true;
        }
    }
    false
}

/// Whether a combinational block neither sleeps, nor is quiet, nor wakes. Afterwards the early sets are as before; where memory is wanting they are left between.
fn is_uncertain(
    alloc: Global,
    typed: &Typed,
    footprints: &Footprints,
    cases: &Cases,
    p: u32,
    early: &mut [Set4],
    late: &[Set4],
) -> Result<bool, AllocError>
    requires early { length early.old ≡ bit_count (design_of typed.now) }
    requires late { length late.now ≡ bit_count (design_of typed.now) }
    requires footprints { footprints.now ≡ footprints_of (design_of typed.now) }
    requires blocks { block_refusal (design_of typed.now) ≡ None }
    requires cases { AreAllNoted typed.now cases.now }
    requires there { p < length typed.now.processes }
    ensures uncertain { IfOk result (λ r. (x : D.Process) → slice_get (design_of typed.now).processes p ≡ Some x → r ≡ is_uncertain (design_of typed.now) (record { early = family_of early.old; late = family_of late.now }) x) }
    ensures same { OnOk result (family_of early.new ≡ family_of early.old) }
{
    trees_law();
    names_law();
    fits_law();
    footprint_law();
    within_law();
    let shapes = typed.shapes();
    match &typed.flat().process(p).kind {
        Kind::Assign { .. } => Ok(false),
        Kind::Block {
            events,
            statement,
            ..
        } => {
            if has_edge(events.as_slice()) {
                return Ok(false);
            }
            if typed.sleeps(p) {
                return Ok(false);
            }
            if wakes(footprints.waits(p), early, late) {
                return Ok(false);
            }
            if cases.is_lenient(p) {
                return Ok(true);
            }
            let written = cases.defaults(false);
            let bits = footprints.writes(p);
            let quiet = is_quiet(alloc, shapes, &written, *statement, bits, early)?;
            Ok(!quiet)
        }
    }
}

/// The first combinational block that neither sleeps, nor is quiet, nor wakes.
pub(crate) fn first_uncertain(
    alloc: Global,
    typed: &Typed,
    footprints: &Footprints,
    cases: &Cases,
    early: &mut [Set4],
    late: &[Set4],
) -> Result<Option<u32>, AllocError>
    requires early { length early.old ≡ bit_count (design_of typed.now) }
    requires late { length late.now ≡ bit_count (design_of typed.now) }
    requires footprints { footprints.now ≡ footprints_of (design_of typed.now) }
    requires blocks { block_refusal (design_of typed.now) ≡ None }
    requires cases { AreAllNoted typed.now cases.now }
    ensures { IfOk result (IsFirst (design_of typed.now) (is_uncertain (design_of typed.now) (record { early = family_of early.old; late = family_of late.now }))) }
{
    trees_law();
    for p in 0..typed.flat().process_count() {
        if is_uncertain(alloc, typed, footprints, cases, p, early, late)? {
            return Ok(Some(p));
        }
    }
    Ok(None)
}

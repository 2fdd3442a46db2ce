//! Which combinational blocks sleep.

ghost use Rattle.std.specs.Prelude.{◌≡◌, ◌<◌, ◌+◌, length, map, take, true, slice_get, Some, IfOk, OnOk};
ghost use Rattle.std.specs.List.{list_all};
ghost use Rattle.vs_four.specs.declared.Bit4.TheVariants.{X};
ghost use Rattle.vs_design.specs.Designs as D;
ghost use Rattle.vs_design.specs.Fits.{fits_process, fits_initial};
ghost use Rattle.vs_design.specs.Sets.{only};
ghost use Rattle.vs_design.specs.Sleepers.{is_still, is_sleeping};
ghost use Rattle.vs_flat.specs.DesignOf.{design_of};
ghost use Rattle.vs_reads.specs.Footprint.{footprints_of};
ghost use Rattle.vs_sets.specs.Flags.{AreFlags};
ghost use Rattle.vs_sets.specs.Tables.{family_of};

use crate::Set4;
use crate::flags::{are_set, still_flags};
use crate::quiet::leaves_x;
use std::alloc::{AllocError, Global};
use vs_design::within_law;
use vs_flat::{Kind, has_edge, trees_law};
use vs_four::Bit4;
use vs_reads::{Footprints, fit_process, footprint_law};
use vs_shape::Shapes;

/// Whether process p sleeps, by the flags of the bits on which it may wait and a table that has x alone, before and afterwards.
fn sleeps(
    alloc: Global,
    shapes: &Shapes,
    footprints: &Footprints,
    p: u32,
    still: &[bool],
    table: &mut [Set4],
) -> Result<bool, AllocError>
    requires fits { list_all fits_process (design_of shapes.now).processes ≡ true }
    requires footprints { footprints.now ≡ footprints_of (design_of shapes.now) }
    requires there { p < length shapes.now.processes }
    requires many { length still.now ≡ D.bit_count (design_of shapes.now) }
    requires still { AreFlags (is_still (design_of shapes.now)) still.now }
    requires table { length table.old ≡ D.bit_count (design_of shapes.now) }
    requires unknown { family_of table.old ≡ (λ c. only X) }
    ensures sleeps { IfOk result (λ r. (x : D.Process) → slice_get (design_of shapes.now).processes p ≡ Some x → r ≡ is_sleeping (design_of shapes.now) x) }
    ensures after { OnOk result (family_of table.new ≡ (λ c. only X)) }
{
    trees_law();
    footprint_law();
    within_law();
    let _ = shapes.flat();
    match &fit_process(shapes, p).kind {
        Kind::Assign { .. } => Ok(false),
        Kind::Block {
            star: _,
            events,
            statement,
        } => {
            if has_edge(events.as_slice()) {
                return Ok(false);
            }
            if !are_set(still, footprints.waits(p)) {
                return Ok(false);
            }
            let quiet = leaves_x(alloc, shapes, *statement, footprints.writes(p), table)?;
            Ok(!quiet)
        }
    }
}

/// Notes after the flags of the processes before p that of p, by a table that has x alone, before and afterwards.
fn note_process(
    alloc: Global,
    shapes: &Shapes,
    footprints: &Footprints,
    p: u32,
    still: &[bool],
    table: &mut [Set4],
    flags: &mut Vec<bool>,
) -> Result<(), AllocError>
    requires fits { list_all fits_process (design_of shapes.now).processes ≡ true }
    requires footprints { footprints.now ≡ footprints_of (design_of shapes.now) }
    requires there { p < length shapes.now.processes }
    requires many { length still.now ≡ D.bit_count (design_of shapes.now) }
    requires still { AreFlags (is_still (design_of shapes.now)) still.now }
    requires table { length table.old ≡ D.bit_count (design_of shapes.now) }
    requires unknown { family_of table.old ≡ (λ c. only X) }
    requires so_far { flags.old.items ≡ map (is_sleeping (design_of shapes.now)) (take p (design_of shapes.now).processes) }
    ensures one_more { OnOk result (flags.new.items ≡ map (is_sleeping (design_of shapes.now)) (take (p + 1) (design_of shapes.now).processes)) }
    ensures after { OnOk result (family_of table.new ≡ (λ c. only X)) }
{
    trees_law();
    let asleep = sleeps(alloc, shapes, footprints, p, still, table)?;
    flags.push(asleep)?;
    Ok(())
}

/// For each process of a design whether it sleeps: a combinational block that stays unexecuted through time zero, until a bit that it waits on first differs from x. Want of memory is the only error.
pub fn sleeping(
    alloc: Global,
    shapes: &Shapes,
    footprints: &Footprints,
) -> Result<Vec<bool>, AllocError>
    requires fits { list_all fits_process (design_of shapes.now).processes ≡ true }
    requires initial_fits { list_all fits_initial (design_of shapes.now).initials ≡ true }
    requires footprints { footprints.now ≡ footprints_of (design_of shapes.now) }
    ensures { IfOk result (λ v. v.items ≡ map (is_sleeping (design_of shapes.now)) (design_of shapes.now).processes) }
{
    trees_law();
    let still = still_flags(alloc, shapes, footprints)?;
    let mut table = vec![in alloc; Set4::only(Bit4::X); still.len()]?;
    let mut flags = Vec::new(alloc);
    for p in 0..shapes.flat().process_count() {
        note_process(
            alloc,
            shapes,
            footprints,
            p,
            still.as_slice(),
            table.as_mut_slice(),
            &mut flags,
        )?;
    }
    Ok(flags)
}

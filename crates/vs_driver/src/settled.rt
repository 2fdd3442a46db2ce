//! The bits that assigns and combinational blocks write, and those that clocked blocks write at once (IEEE 1364-2005, 9.2).

ghost use Rattle.std.specs.Prelude.{◌≡◌, ◌<◌, ◌+◌, length, IfOk, OnOk};
ghost use Rattle.vs_flat.specs.DesignOf.{design_of};
ghost use Rattle.vs_reads.specs.Footprint.{footprints_of};
ghost use Rattle.vs_driver.specs.Marks.{AreSettled};

use crate::marks::{mark, no_marks};
use std::alloc::{AllocError, Global};
use vs_flat::{Kind, has_edge, trees_law};
use vs_reads::{Footprints, fit_process, footprint_law};
use vs_shape::Walk;
use vs_typed::{Typed, fits_law};

/// For each bit whether an assign or a combinational block writes it, and whether a clocked block does by `=`.
#[derive(Drop)]
pub(crate) struct Settled {
    pub(crate) settled: Vec<bool>,
    pub(crate) stirring: Vec<bool>,
}

/// Notes what process p writes, of a clocked block what it writes by `=`.
fn note_process(
    alloc: Global,
    typed: &Typed,
    footprints: &Footprints,
    p: u32,
    marks: &mut Settled,
) -> Result<(), AllocError>
    requires footprints { footprints.now ≡ footprints_of (design_of typed.now) }
    requires there { p < length typed.now.processes }
    requires so_far { AreSettled (design_of typed.now) p marks.old }
    ensures { OnOk result (AreSettled (design_of typed.now) (p + 1) marks.new) }
{
    trees_law();
    fits_law();
    footprint_law();
    let _flat = typed.flat();
    let shapes = typed.shapes();
    match &fit_process(shapes, p).kind {
        Kind::Assign { .. } => mark(&mut marks.settled, footprints.writes(p)),
        Kind::Block {
            star: _,
            events,
            statement,
        } => {
            if has_edge(events.as_slice()) {
                let mut bits = Vec::new(alloc);
                shapes.push_statement(*statement, Walk::Blocking, &mut bits)?;
                mark(&mut marks.stirring, bits.as_slice());
            } else {
                mark(&mut marks.settled, footprints.writes(p));
            }
        }
    }
    Ok(())
}

/// What the processes of a design write that initial processes may not.
pub(crate) fn settled_of(
    alloc: Global,
    typed: &Typed,
    footprints: &Footprints,
) -> Result<Settled, AllocError>
    requires { footprints.now ≡ footprints_of (design_of typed.now) }
    ensures { IfOk result (λ s. AreSettled (design_of typed.now) (length (design_of typed.now).processes) s) }
{
    trees_law();
    let mut marks = Settled {
        settled: no_marks(alloc, typed)?,
        stirring: no_marks(alloc, typed)?,
    };
    for p in 0..typed.flat().process_count() {
        note_process(alloc, typed, footprints, p, &mut marks)?;
    }
    Ok(marks)
}

//! The footprints of all processes, and what processes and initial processes name.

ghost use Rattle.std.specs.Prelude.{◌≡◌, ◌<◌, length, true, IfOk, slice_get};
ghost use Rattle.std.specs.List.{list_all};
ghost use Rattle.vs_design.specs.Designs.{bit_count};
ghost use Rattle.vs_design.specs.Fits.{fits_process, fits_initial, fits_statement};
ghost use Rattle.vs_design.specs.Within.{statement_within};
ghost use Rattle.vs_flat.specs.DesignOf.{design_of};
ghost use Rattle.vs_reads.specs.Footprint.{footprints_of, footprint_at};
ghost use Rattle.vs_reads.specs.Kept.{footprint_of};
ghost use Rattle.vs_reads.specs.Named.{IsFitKind};
ghost use Rattle.vs_shape.specs.Bodies.{body_of};

use crate::Footprints;
use crate::gather::{assign_bits, clocked_bits, combinational_bits};
use crate::lists::ProcessBits;
use std::alloc::{AllocError, Global};
use vs_flat::{Initial, Kind, Process, has_edge, lawful_law, names_law, trees_law};
use vs_shape::Shapes;

/// Process p of a design in which all fits: what it names is there and has 1 to 64 bits.
pub fn fit_process(shapes: &Shapes, p: u32) -> &Process
    requires there { p < length shapes.now.processes }
    requires fits { list_all fits_process (design_of shapes.now).processes ≡ true }
    ensures is { slice_get shapes.now.processes p ≡ Some result.now }
    ensures fit { IsFitKind shapes.now result.now.kind }
{
    names_law();
    lawful_law();
    trees_law();
    shapes.flat().process(p)
}

/// Initial process k of a design in which all of them fit: its statement is there, has 1 to 64 bits in each expression and target, and names bits of the design alone.
pub fn fit_initial(shapes: &Shapes, k: u32) -> Initial
    requires there { k < length shapes.now.initials }
    requires fits { list_all fits_initial (design_of shapes.now).initials ≡ true }
    ensures is { slice_get shapes.now.initials k ≡ Some result }
    ensures there { result.statement < length shapes.now.statements }
    ensures fit { fits_statement (body_of shapes.now result.statement) ≡ true }
    ensures within { statement_within (bit_count (design_of shapes.now)) (body_of shapes.now result.statement) ≡ true }
{
    names_law();
    trees_law();
    vs_design::within_law();
    shapes.flat().initial(k)
}

/// What process p reads, writes and waits on.
fn process_bits(alloc: Global, shapes: &Shapes, p: u32) -> Result<ProcessBits, AllocError>
    requires there { p < length shapes.now.processes }
    requires fits { list_all fits_process (design_of shapes.now).processes ≡ true }
    ensures { IfOk result (λ b. footprint_of b ≡ footprint_at (footprints_of (design_of shapes.now)) p) }
{
    vs_design::footprint_law();
    trees_law();
    let _ = shapes.flat();
    match &fit_process(shapes, p).kind {
        Kind::Assign { target, expr, .. } => assign_bits(alloc, shapes, *target, *expr),
        Kind::Block {
            star,
            events,
            statement,
        } => {
            if has_edge(events.as_slice()) {
                clocked_bits(alloc, shapes, *statement)
            } else {
                combinational_bits(alloc, shapes, *star, events.as_slice(), *statement)
            }
        }
    }
}

/// For each process of a design in which every expression has 1 to 64 bits the bits that it reads, writes and waits on. Want of memory is the only error.
pub fn footprints(alloc: Global, shapes: &Shapes) -> Result<Footprints, AllocError>
    requires fits { list_all fits_process (design_of shapes.now).processes ≡ true }
    ensures { IfOk result (λ f. f ≡ footprints_of (design_of shapes.now)) }
{
    trees_law();
    let count = shapes.flat().process_count();
    let mut processes = Vec::new(alloc);
    for p in 0..count {
        processes.push(process_bits(alloc, shapes, p)?)?;
    }
    Ok(Footprints::of(processes))
}

//! What the processes of a design do, on the values of its bits.

ghost use Rattle.std.specs.Prelude.{List, ◌≡◌, ◌<◌, ◌≤◌, ℕ, length, true, false, slice_get, Some, IfOk, OnOk};
ghost use Rattle.std.specs.List.{list_all};
ghost use Rattle.vs_net.specs.Network as N;
ghost use Rattle.vs_design.specs.Designs as D;
ghost use Rattle.vs_design.specs.Bodies.{body};
ghost use Rattle.vs_design.specs.Fits.{fits_initial, fits_process};
ghost use Rattle.vs_design.specs.Networks.{process_of};
ghost use Rattle.vs_flat.specs.DesignOf.{design_of};
ghost use Rattle.vs_writes.specs.Held.{state_of};

use crate::public::{assignment_writes, run};
use std::alloc::{AllocError, Global};
use vs_design::within_law;
use vs_flat::{Kind, lawful_law, trees_law};
use vs_four::Bit4;
use vs_reads::{fit_initial, fit_process};
use vs_shape::Shapes;
use vs_writes::{Effect, Update};

/// The writes of process p, an assign, where each bit of the design has a value, the first ones of these (IEEE 1364-2005, 6.1): those that it makes in the design's network. Of a block there are none here. Want of memory is the only error.
pub fn assigned(
    alloc: Global,
    shapes: &Shapes,
    values: &[Bit4],
    p: u32,
) -> Result<Update, AllocError>
    requires there { p < length shapes.now.processes }
    requires fits { list_all fits_process (design_of shapes.now).processes ≡ true }
    requires values { D.bit_count (design_of shapes.now) ≤ length values.now }
    ensures { IfOk result (λ u. (clocks : List ℕ) (x : D.Process) → slice_get (design_of shapes.now).processes p ≡ Some x → D.is_assign x ≡ true → u ≡ N.made (process_of (design_of shapes.now) clocks x) (state_of values.now)) }
{
    lawful_law();
    trees_law();
    within_law();
    let _ = shapes.flat();
    match &fit_process(shapes, p).kind {
        Kind::Assign { target, expr, .. } => {
            assignment_writes(alloc, shapes, values, *target, *expr)
        }
        Kind::Block { .. } => Ok(Update::new(alloc)),
    }
}

/// Runs process p, a block, whole, from its event control to the next (IEEE 1364-2005, 9.9.2): the bits get its blocking writes, and what it did is answered, as in the design's network. An assign does nothing here. Want of memory is the only error; the values are then left between.
pub fn run_block(
    alloc: Global,
    shapes: &Shapes,
    values: &mut [Bit4],
    p: u32,
) -> Result<Effect, AllocError>
    requires there { p < length shapes.now.processes }
    requires fits { list_all fits_process (design_of shapes.now).processes ≡ true }
    requires values { D.bit_count (design_of shapes.now) ≤ length values.old }
    ensures effect { IfOk result (λ f. (clocks : List ℕ) (x : D.Process) → slice_get (design_of shapes.now).processes p ≡ Some x → D.is_assign x ≡ false
        → (f.writes ≡ N.made (process_of (design_of shapes.now) clocks x) (state_of values.old)) × (f.updates ≡ N.delayed (process_of (design_of shapes.now) clocks x) (state_of values.old))) }
    ensures state { (clocks : List ℕ) (x : D.Process) → slice_get (design_of shapes.now).processes p ≡ Some x → D.is_assign x ≡ false → OnOk result (state_of values.new ≡ N.write_all (state_of values.old) (N.made (process_of (design_of shapes.now) clocks x) (state_of values.old))) }
{
    lawful_law();
    trees_law();
    within_law();
    let _ = shapes.flat();
    match &fit_process(shapes, p).kind {
        Kind::Assign { .. } => Ok(Effect::new(alloc)),
        Kind::Block { statement, .. } => {
            let mut done = Effect::new(alloc);
            run(alloc, shapes, values, *statement, &mut done)?;
            Ok(done)
        }
    }
}

/// Runs initial process k whole (IEEE 1364-2005, 9.9.1): the bits get its blocking writes, and what it did is answered. Want of memory is the only error; the values are then left between.
pub fn run_initial(
    alloc: Global,
    shapes: &Shapes,
    values: &mut [Bit4],
    k: u32,
) -> Result<Effect, AllocError>
    requires there { k < length shapes.now.initials }
    requires fits { list_all fits_initial (design_of shapes.now).initials ≡ true }
    requires values { D.bit_count (design_of shapes.now) ≤ length values.old }
    ensures effect { IfOk result (λ f. (i : D.Initial) → slice_get (design_of shapes.now).initials k ≡ Some i
        → (f.writes ≡ (body i.statement (state_of values.old)).writes) × (f.updates ≡ (body i.statement (state_of values.old)).updates)) }
    ensures state { (i : D.Initial) → slice_get (design_of shapes.now).initials k ≡ Some i → OnOk result (state_of values.new ≡ N.write_all (state_of values.old) (body i.statement (state_of values.old)).writes) }
{
    trees_law();
    let mut done = Effect::new(alloc);
    run(
        alloc,
        shapes,
        values,
        fit_initial(shapes, k).statement,
        &mut done,
    )?;
    Ok(done)
}

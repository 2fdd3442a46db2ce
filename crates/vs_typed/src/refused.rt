//! The first process in the text, or initial process, of which a length or a division is refused.

ghost use Rattle.std.specs.Prelude.{◌≡◌, ◌<◌, ◌+◌, length, drop, true, slice_get, Some, None, IfErr, OnOk};
ghost use Rattle.std.specs.List.{list_all};
ghost use Rattle.vs_design.specs.Fits.{fits_process, fits_initial};
ghost use Rattle.vs_design.specs.Designs as D;
ghost use Rattle.vs_design.specs.Designs.{OfProcess, OfInitial};
ghost use Rattle.vs_design.specs.Refusals.{least, earlier, first_in};
ghost use Rattle.vs_flat.specs.DesignOf.{design_of};
ghost use Rattle.vs_flat.specs.TextOrder.{text_numbers};
ghost use Rattle.vs_typed.specs.Functions.{ArePlaces};
ghost use Rattle.vs_typed.specs.Places.{AreLeast, process_places, initial_places};
ghost use Rattle.vs_typed.specs.Refused.{IsFound, first_refused, refused_in};

use crate::functions::Places;
use crate::least::{least_assignment, least_statement};
use crate::nodes::{expression_place, initial, process};
use crate::places::Rule;
use crate::{WidthError, unrefused_law};
use std::alloc::Global;
use vs_flat::{AnyProcess, Kind, text_law, text_order, trees_law};
use vs_shape::Shapes;

/// The least place of process p.
fn least_process(shapes: &Shapes, rule: Rule, table: &[Option<u32>], p: u32) -> Option<u32>
    requires table { AreLeast shapes.now rule table.now }
    requires all { length table.now ≡ length shapes.now.bodies }
    requires there { p < length shapes.now.processes }
    ensures { (x : D.Process) → slice_get (design_of shapes.now).processes p ≡ Some x → result ≡ least (process_places rule x) }
{
    trees_law();
    match &process(shapes, p).kind {
        Kind::Assign {
            target,
            expr,
            port: _,
        } => {
            let _ = shapes.node(*target);
            let at = expression_place(shapes, *target);
            least_assignment(shapes, rule, table, *target, *expr, at, None)
        }
        Kind::Block {
            star: _,
            events: _,
            statement,
        } => least_statement(shapes, rule, table, *statement, None),
    }
}

/// The least place of initial process k.
fn least_initial(shapes: &Shapes, rule: Rule, table: &[Option<u32>], k: u32) -> Option<u32>
    requires table { AreLeast shapes.now rule table.now }
    requires all { length table.now ≡ length shapes.now.bodies }
    requires there { k < length shapes.now.initials }
    ensures { (i : D.Initial) → slice_get (design_of shapes.now).initials k ≡ Some i → result ≡ least (initial_places rule i) }
{
    trees_law();
    least_statement(shapes, rule, table, initial(shapes, k).statement, None)
}

/// The one with the lesser place; at one place it is TooWide.
fn earlier(wide: Option<u32>, division: Option<u32>) -> Result<(), WidthError>
    ensures passes { OnOk result (earlier wide division ≡ None) }
    ensures refused { IfErr result (IsFound (earlier wide division)) }
{
    match (wide, division) {
        (None, None) => Ok(()),
        (Some(at), None) => Err(WidthError::TooWide { at }),
        (None, Some(at)) => Err(WidthError::Division { at }),
        (Some(at), Some(other)) => {
            if at <= other {
                Err(WidthError::TooWide { at })
            } else {
                Err(WidthError::Division { at: other })
            }
        }
    }
}

/// Whether no length and no division of process p is refused.
fn check_process(shapes: &Shapes, places: &Places, p: u32) -> Result<(), WidthError>
    requires places { ArePlaces shapes.now places.now }
    requires there { p < length shapes.now.processes }
    ensures passes { OnOk result ((x : D.Process) → slice_get (design_of shapes.now).processes p ≡ Some x → refused_in (OfProcess p x) ≡ None) }
    ensures refused { IfErr result (λ e. (x : D.Process) → slice_get (design_of shapes.now).processes p ≡ Some x → IsFound (refused_in (OfProcess p x)) e) }
{
    earlier(
        least_process(shapes, Rule::Wide, places.wide.as_slice(), p),
        least_process(shapes, Rule::Division, places.division.as_slice(), p),
    )
}

/// Whether no length and no division of initial process k is refused.
fn check_initial(shapes: &Shapes, places: &Places, k: u32) -> Result<(), WidthError>
    requires places { ArePlaces shapes.now places.now }
    requires there { k < length shapes.now.initials }
    ensures passes { OnOk result ((i : D.Initial) → slice_get (design_of shapes.now).initials k ≡ Some i → refused_in (OfInitial k i) ≡ None) }
    ensures refused { IfErr result (λ e. (i : D.Initial) → slice_get (design_of shapes.now).initials k ≡ Some i → IsFound (refused_in (OfInitial k i)) e) }
{
    earlier(
        least_initial(shapes, Rule::Wide, places.wide.as_slice(), k),
        least_initial(shapes, Rule::Division, places.division.as_slice(), k),
    )
}

/// Whether the one of this place in the text, before which none is refused, isn't either.
fn check_next(
    shapes: &Shapes,
    places: &Places,
    order: &[AnyProcess],
    n: usize,
) -> Result<(), WidthError>
    requires places { ArePlaces shapes.now places.now }
    requires order { order.now ≡ text_numbers (design_of shapes.now) }
    requires there { n < length order.now }
    requires so_far { first_in refused_in (drop n (D.in_text_order (design_of shapes.now))) ≡ first_refused (design_of shapes.now) }
    ensures passes { OnOk result (first_in refused_in (drop (n + 1) (D.in_text_order (design_of shapes.now))) ≡ first_refused (design_of shapes.now)) }
    ensures refused { IfErr result (IsFound (first_refused (design_of shapes.now))) }
{
    trees_law();
    text_law();
    match order[n] {
        AnyProcess::Process(p) => check_process(shapes, places, p),
        AnyProcess::Initial(k) => check_initial(shapes, places, k),
    }
}

/// Whether no length and no division of a process or of an initial process is refused: then all fits.
pub(crate) fn check_processes(
    alloc: Global,
    shapes: &Shapes,
    places: &Places,
) -> Result<(), WidthError>
    requires { ArePlaces shapes.now places.now }
    ensures passes { OnOk result (first_refused (design_of shapes.now) ≡ None) }
    ensures fits { OnOk result (list_all fits_process (design_of shapes.now).processes ≡ true) }
    ensures initials { OnOk result (list_all fits_initial (design_of shapes.now).initials ≡ true) }
    ensures refused { IfErr result (IsFound (first_refused (design_of shapes.now))) }
{
    unrefused_law();
    let order = text_order(alloc, shapes.flat())?;
    for n in 0..order.len() {
        match check_next(shapes, places, order.as_slice(), n) {
            Ok(()) => {}
            Err(error) => return Err(error),
        }
    }
    Ok(())
}

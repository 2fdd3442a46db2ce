//! What is found of functions, in the order of their numbers, so that each statement is gone through once (IEEE 1364-2005, 10.4).

ghost use Rattle.std.specs.Prelude.{◌≡◌, ◌<◌, ℕ, Some, length, IfOk};
ghost use Rattle.vs_design.specs.Refusals.{least};
ghost use Rattle.vs_design.specs.Fits.{fits_statement};
ghost use Rattle.vs_flat.specs.Arena.{body_at};
ghost use Rattle.vs_flat.specs.declared.functions.Body.{Body};
ghost use Rattle.vs_shape.specs.Bodies.{body_of};
ghost use Rattle.vs_typed.specs.Functions.{ArePlaces, are_none};
ghost use Rattle.vs_typed.specs.Places.{AreLeast, statement_places};
ghost use Rattle.vs_typed.specs.Weights.{AreWeights, IsWeight};

use crate::least::least_statement;
use crate::places::Rule;
use crate::statements::add_statement;
use std::alloc::{AllocError, Global};
use vs_design::places_law;
use vs_flat::{calls_law, lawful_law};
use vs_shape::Shapes;

/// For each function the least places in its statement, those of the functions that it calls included.
#[derive(Drop)]
pub(crate) struct Places {
    pub(crate) wide: Vec<Option<u32>>,
    pub(crate) division: Vec<Option<u32>>,
}

/// The least place in the statement of function f, where those of all functions before it are found.
fn least_function(shapes: &Shapes, rule: Rule, table: &[Option<u32>], f: u32) -> Option<u32>
    requires table { AreLeast shapes.now rule table.now }
    requires next { f ≡ length table.now }
    requires there { f < length shapes.now.bodies }
    ensures { (b : Body) → body_at shapes.now f ≡ Some b → (at : ℕ) → result ≡ least (statement_places rule at (body_of shapes.now b.statement)) }
{
    calls_law();
    let body = shapes.flat().body(f);
    least_statement(shapes, rule, table, body.statement, None)
}

/// For each function the least place in its statement. Want of memory is the only error.
fn least_places(alloc: Global, shapes: &Shapes, rule: Rule) -> Result<Vec<Option<u32>>, AllocError>
    ensures each { IfOk result (λ v. AreLeast shapes.now rule v.items) }
    ensures all { IfOk result (λ v. length v.items ≡ length shapes.now.bodies) }
{
    let mut table = Vec::new(alloc);
    for f in 0..shapes.flat().function_count() {
        let least = least_function(shapes, rule, table.as_slice(), f);
        table.push(least)?;
    }
    Ok(table)
}

/// The least places by function. Want of memory is the only error.
pub(crate) fn function_places(alloc: Global, shapes: &Shapes) -> Result<Places, AllocError>
    ensures { IfOk result (ArePlaces shapes.now) }
{
    Ok(Places {
        wide: least_places(alloc, shapes, Rule::Wide)?,
        division: least_places(alloc, shapes, Rule::Division)?,
    })
}

/// Whether there is neither place.
fn is_clear(wide: Option<u32>, division: Option<u32>) -> bool
    ensures { result ≡ are_none wide division }
{
    match (wide, division) {
        (None, None) => true,
        _ => false,
    }
}

/// Whether the statement of function f fits: it has no place that is refused.
fn function_fits(shapes: &Shapes, places: &Places, f: u32) -> bool
    requires places { ArePlaces shapes.now places.now }
    requires there { f < length shapes.now.bodies }
    ensures { (b : Body) → body_at shapes.now f ≡ Some b → result ≡ fits_statement (body_of shapes.now b.statement) }
{
    places_law();
    calls_law();
    lawful_law();
    let _ = shapes.flat();
    is_clear(places.wide[f as usize], places.division[f as usize])
}

/// The weight of function f if its statement fits, where those of all functions before it are found. Want of memory is the only error.
fn function_weight(
    alloc: Global,
    shapes: &Shapes,
    places: &Places,
    table: &[Option<u64>],
    f: u32,
) -> Result<Option<u64>, AllocError>
    requires places { ArePlaces shapes.now places.now }
    requires table { AreWeights shapes.now table.now }
    requires next { f ≡ length table.now }
    requires there { f < length shapes.now.bodies }
    ensures { IfOk result (λ w. (b : Body) → body_at shapes.now f ≡ Some b → IsWeight (body_of shapes.now b.statement) w) }
{
    calls_law();
    if !function_fits(shapes, places, f) {
        return Ok(None);
    }
    let body = shapes.flat().body(f);
    Ok(Some(add_statement(alloc, shapes, table, body.statement, 0)?))
}

/// The weight of each function that fits. Want of memory is the only error.
pub(crate) fn function_weights(
    alloc: Global,
    shapes: &Shapes,
    places: &Places,
) -> Result<Vec<Option<u64>>, AllocError>
    requires { ArePlaces shapes.now places.now }
    ensures each { IfOk result (λ v. AreWeights shapes.now v.items) }
    ensures all { IfOk result (λ v. length v.items ≡ length shapes.now.bodies) }
{
    let mut table = Vec::new(alloc);
    for f in 0..shapes.flat().function_count() {
        let weight = function_weight(alloc, shapes, places, table.as_slice(), f)?;
        table.push(weight)?;
    }
    Ok(table)
}

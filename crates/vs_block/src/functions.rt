//! Functions that may keep a value from one call to the next (IEEE 1364-2005, 10.4).

ghost use Rattle.std.specs.Prelude.{◌≡◌, ◌<◌, ◌&&◌, ◌++◌, ℕ, List, Some, length, slice_get, true, IfOk};
ghost use Rattle.std.specs.List.Sorted.{IsStrictlyIncreasing};
ghost use Rattle.vs_design.specs.Fits.{fits_statement};
ghost use Rattle.vs_design.specs.Footprints.{contains, statement_bits};
ghost use Rattle.vs_design.specs.Refusals.{least};
ghost use Rattle.vs_design.specs.Rules.{function_latches, latching};
ghost use Rattle.vs_design.specs.Statements as T;
ghost use Rattle.vs_flat.specs.DesignOf.{design_of};
ghost use Rattle.vs_shape.specs.Bodies.{body_of};
ghost use Rattle.vs_design.specs.Latches.{latch_bits};
ghost use Rattle.vs_block.specs.Functions.{has_some};

use crate::latches::first_latch;
use crate::mixed::with_place;
use std::alloc::{AllocError, Global};
use vs_flat::{calls_law, lawful_law, trees_law};
use vs_sets::Defaults;
use vs_shape::{Shapes, Walk, ascend};
use vs_typed::Typed;

/// The bits that a statement writes, in ascending order.
fn written(alloc: Global, shapes: &Shapes, s: u32) -> Result<Vec<u32>, AllocError>
    requires there { s < length shapes.now.statements }
    requires fits { fits_statement (body_of shapes.now s) ≡ true }
    ensures rising { IfOk result (λ v. IsStrictlyIncreasing v.items) }
    ensures same { IfOk result (λ v. (b : ℕ) → contains v.items b ≡ contains (statement_bits (body_of shapes.now s)) b) }
{
    let mut bits = Vec::new(alloc);
    shapes.push_statement(s, Walk::Writes, &mut bits)?;
    ascend(&mut bits);
    Ok(bits)
}

/// Whether a statement may keep a bit that it writes.
fn keeps(alloc: Global, shapes: &Shapes, s: u32) -> Result<bool, AllocError>
    requires there { s < length shapes.now.statements }
    requires fits { fits_statement (body_of shapes.now s) ≡ true }
    ensures { IfOk result (λ r. r ≡ has_some (latch_bits (body_of shapes.now s))) }
{
    let own = written(alloc, shapes, s)?;
    let none: [Option<u32>; 0] = [];
    let written = Defaults {
        complete: false,
        others: &none,
    };
    let latch = first_latch(alloc, shapes, &written, s, own.as_slice())?;
    Ok(latch.is_some())
}

/// Whether function f breaks the rule.
fn latches(alloc: Global, typed: &Typed, f: u32) -> Result<bool, AllocError>
    requires { f < length typed.now.bodies }
    ensures { IfOk result (λ r. (x : T.Function) → slice_get (design_of typed.now).functions f ≡ Some x → r ≡ (fits_statement x.statement && has_some (latch_bits x.statement))) }
{
    calls_law();
    trees_law();
    if typed.fits_function(f) {
        let body = typed.flat().body(f);
        keeps(alloc, typed.shapes(), body.statement)
    } else {
        Ok(false)
    }
}

/// Where function f begins in the text.
fn place(typed: &Typed, f: u32) -> u32
    requires { f < length typed.now.bodies }
    ensures { (x : T.Function) → slice_get (design_of typed.now).functions f ≡ Some x → result ≡ x.header.place }
{
    trees_law();
    lawful_law();
    typed.flat().function(f).function.at
}

/// The least of the places so far, and that of function f if it breaks the rule.
fn with_function(
    alloc: Global,
    typed: &Typed,
    f: u32,
    first: Option<u32>,
) -> Result<Option<u32>, AllocError>
    requires { f < length typed.now.bodies }
    ensures { IfOk result (λ o. (x : T.Function) → slice_get (design_of typed.now).functions f ≡ Some x → (places : List ℕ) → first ≡ least places → o ≡ least (places ++ latching x)) }
{
    let broken = latches(alloc, typed, f)?;
    if broken {
        Ok(with_place(first, place(typed, f)))
    } else {
        Ok(first)
    }
}

/// The place of the first function in the text that breaks the rule. Want of memory is the only error.
pub(crate) fn first_latching(alloc: Global, typed: &Typed) -> Result<Option<u32>, AllocError>
    ensures { IfOk result (λ o. o ≡ least (function_latches (design_of typed.now).functions)) }
{
    trees_law();
    let mut first = None;
    for f in 0..typed.flat().function_count() {
        first = with_function(alloc, typed, f, first)?;
    }
    Ok(first)
}

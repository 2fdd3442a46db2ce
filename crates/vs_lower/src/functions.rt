//! Functions, lowered once each (IEEE 1364-2005, clause 10).

ghost use Rattle.std.specs.Prelude.{◌≡◌, ◌<◌, ◌≤◌, IfOk, true, length};
ghost use Rattle.vs_design.specs.Fits.{fits_statement};
ghost use Rattle.vs_design.specs.Sizes.{statement_weight};
ghost use Rattle.vs_values.specs.Templates.{HasNoRoom, IsEntry, IsTemplate, function_at};

use crate::environments::Environments;
use crate::statements::statement;
use std::alloc::{AllocError, Global};
use vs_base::List;
use vs_code::Program;
use vs_design::within_law;
use vs_flat::{calls_law, lawful_law, trees_law};
use vs_program::home;
use vs_typed::Typed;
use vs_values::{
    Code, Template, Templates, bounds_law, environment_at_call, input_bits, result_slots,
};

/// Whether the statement of function f fits, and weighs no more than a design may. So does that of each function that a process calls.
fn has_room(templates: &Templates, f: u32) -> bool
    requires { f < length templates.now.arena.bodies }
    ensures yes { result ≡ true → (fits_statement (function_at templates.now.arena f).statement ≡ true) × (statement_weight (function_at templates.now.arena f).statement ≤ 16777216) }
    ensures no { (result ≡ true → ⊥) → HasNoRoom (function_at templates.now.arena f) }
{
    trees_law();
    lawful_law();
    let typed = templates.typed();
    let _flat = templates.flat();
    typed.fits_function(f) && typed.function_weight(f) <= 16_777_216
}

/// The template of the next function, whose statement fits and isn't too large.
fn template(alloc: Global, templates: &Templates, f: u32) -> Result<Template, AllocError>
    requires next { f ≡ templates.now.functions }
    requires there { f < length templates.now.arena.bodies }
    requires fits { fits_statement (function_at templates.now.arena f).statement ≡ true }
    requires light { statement_weight (function_at templates.now.arena f).statement ≤ 16777216 }
    ensures { IfOk result (IsTemplate (function_at templates.now.arena f)) }
{
    trees_law();
    lawful_law();
    calls_law();
    within_law();
    bounds_law();
    let mut code = Code::from(Program::new(alloc), home(input_bits(templates, f)));
    let mut env = Environments {
        values: environment_at_call(alloc, templates, f),
        ahead: environment_at_call(alloc, templates, f),
    };
    let body = templates.flat().body(f);
    statement(alloc, templates, body.statement, &mut env, &mut code)?;
    let result = result_slots(alloc, templates, &env.values, f)?;
    let next = code.next();
    Ok(Template {
        calls: code.into_program(),
        result: List::of(result),
        next,
    })
}

/// What the table gets for the next function.
fn entry(alloc: Global, templates: &Templates, f: u32) -> Result<Option<Template>, AllocError>
    requires next { f ≡ templates.now.functions }
    requires there { f < length templates.now.arena.bodies }
    ensures { IfOk result (IsEntry (function_at templates.now.arena f)) }
{
    if !has_room(templates, f) {
        return Ok(None);
    }
    let made = template(alloc, templates, f)?;
    Ok(Some(made))
}

/// A design with a template of each function that a process may call: its statement is lowered once, and each call gets these calls of kernels with other slots. The only error is that there is no memory.
pub fn templates<'a>(alloc: Global, typed: &'a Typed) -> Result<Templates<'a>, AllocError>
    ensures same { IfOk result (λ t. t.arena ≡ typed.now) }
    ensures whole { IfOk result (λ t. t.functions ≡ length typed.now.bodies) }
{
    let mut all = Templates::new(alloc, typed);
    for f in 0..typed.flat().function_count() {
        let next = entry(alloc, &all, f)?;
        all.push(next)?;
    }
    Ok(all)
}

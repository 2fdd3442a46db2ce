//! The head of the text: its declarations (IEEE 1364-2005, 18.2.3).

ghost use Rattle.std.specs.Prelude.{◌≡◌, ℕ, ◌<◌, ◌≤◌, ◌+◌, ◌++◌, false, length, IfOk, OnOk, None, vec_len};
ghost use Rattle.vs_design.specs.Footprints.{is_memory};
ghost use Rattle.vs_flat.specs.DesignOf.{design_of, scope_of};
ghost use Rattle.vs_flat.specs.Trees.{signal_of};
ghost use Rattle.vs_vcd.specs.Groups.{AreLinked};
ghost use Rattle.vs_vcd.specs.Shared.{code_at, coded_by};
ghost use Rattle.vs_vcd.specs.Scopes.{variable_kind, declared_range, range_text, variable_start, variable_line, variables, scope_kind, scope_line, scopes_in, shown_signals, head_text};
ghost use Rattle.vs_vcd.specs.Steps.{scope_key, scope_keys, signal_key, signal_keys, step_text, steps_text, link_steps, IsStep, AreSteps};

use crate::codes::Codes;
use crate::groups::Groups;
use crate::line::Line;
use std::alloc::{AllocError, Global};
use vs_flat::{Flat, Scope, Signal, range_bits};
use vs_four::Range;

/// What is still to be written of the scopes.
#[derive(Clone, Copy)]
enum Step {
    /// A scope, and those after it that stand in the same one.
    Scopes(u32),
    /// The end of a scope.
    Close,
}

/// The head of a design's text: its declarations, with these identifier codes (IEEE 1364-2005, 18.2.3). The only error is that there is
/// no memory.
pub fn head(alloc: Global, flat: &Flat, codes: &Codes) -> Result<Vec<u8>, AllocError>
    ensures { IfOk result (λ text. text.items ≡ head_text (coded_by (code_at codes.now) (design_of flat.now))) }
{
    let mut text = Vec::from_slice(alloc, b"$version cyclesim $end\n$timescale 1ns $end\n")?;
    push_scopes(alloc, &mut text, flat, codes)?;
    text.extend_from_slice(b"$enddefinitions $end\n")?;
    Ok(text)
}

/// Adds all scopes, each with its variables and the scopes in it. A memory has no line.
fn push_scopes(
    alloc: Global,
    text: &mut Vec<u8>,
    flat: &Flat,
    codes: &Codes,
) -> Result<(), AllocError>
    ensures { OnOk result (text.new.items ≡ text.old.items ++ scopes_in (shown_signals (coded_by (code_at codes.now) (design_of flat.now))) None 0 (design_of flat.now).scopes) }
{
    let scopes = scope_groups(alloc, flat)?;
    let variables = variable_groups(alloc, flat)?;
    let mut steps = Vec::new(alloc);
    push_link(&mut steps, scopes.first(0))?;
    while let Some(step) = steps.pop() {
        take_step(text, &mut steps, flat, codes, &scopes, &variables, step)?;
    }
    Ok(())
}

/// The scopes in groups: those in no scope, and those in each scope.
fn scope_groups(alloc: Global, flat: &Flat) -> Result<Groups, AllocError>
    ensures { IfOk result (λ g. AreLinked (length flat.now.scopes + 1) (scope_keys 0 (design_of flat.now).scopes) g.first.items g.next.items) }
{
    let mut keys = Vec::new(alloc);
    for number in 0..flat.scope_count() {
        keys.push(scope_key(number, flat.scope(number).parent))?;
    }
    Groups::of(alloc, flat.scope_count() as usize + 1, &keys)
}

/// The group of a scope by the scope that it stands in.
fn scope_key(number: u32, parent: Option<u32>) -> Option<u32>
    ensures { result ≡ scope_key number parent }
{
    match parent {
        None => Some(0),
        Some(outer) if outer < number => Some(outer + 1),
        Some(_) => None,
    }
}

/// The variables in groups, those of each scope. A memory (IEEE 1364-2005, 4.9) is in none.
fn variable_groups(alloc: Global, flat: &Flat) -> Result<Groups, AllocError>
    ensures { IfOk result (λ g. AreLinked (length flat.now.scopes) (signal_keys (design_of flat.now).signals) g.first.items g.next.items) }
{
    let mut keys = Vec::new(alloc);
    for number in 0..flat.signal_count() {
        keys.push(signal_key(flat.signal(number)))?;
    }
    Groups::of(alloc, flat.scope_count() as usize, &keys)
}

/// The group of a signal by the scope that declares it.
fn signal_key(signal: &Signal) -> Option<u32>
    ensures { (number : ℕ) → result ≡ signal_key (signal_of number signal.now) }
{
    match signal.words {
        None => Some(signal.scope),
        Some(_) => None,
    }
}

/// Adds a step for a scope, if there is one.
fn push_link(steps: &mut Vec<Step>, link: Option<u32>) -> Result<(), AllocError>
    ensures { OnOk result (steps.new.items ≡ steps.old.items ++ link_steps link) }
{
    if let Some(scope) = link {
        steps.push(Step::Scopes(scope))?;
    }
    Ok(())
}

/// Writes the beginning of a scope, and leaves what is in it and what follows as steps; or writes its end.
fn take_step(
    text: &mut Vec<u8>,
    steps: &mut Vec<Step>,
    flat: &Flat,
    codes: &Codes,
    scopes: &Groups,
    variables: &Groups,
    step: Step,
) -> Result<(), AllocError>
    requires scopes { AreLinked (length flat.now.scopes + 1) (scope_keys 0 (design_of flat.now).scopes) scopes.now.first.items scopes.now.next.items }
    requires variables { AreLinked (length flat.now.scopes) (signal_keys (design_of flat.now).signals) variables.now.first.items variables.now.next.items }
    requires step { IsStep (coded_by (code_at codes.now) (design_of flat.now)) step }
    requires steps { AreSteps (coded_by (code_at codes.now) (design_of flat.now)) steps.old.items }
    ensures text { let d = coded_by (code_at codes.now) (design_of flat.now) in
        OnOk result (text.new.items ++ steps_text d steps.new.items ≡ text.old.items ++ (step_text d step ++ steps_text d steps.old.items)) }
    ensures steps { OnOk result (AreSteps (coded_by (code_at codes.now) (design_of flat.now)) steps.new.items) }
    ensures more { OnOk result (vec_len text.old < vec_len text.new) }
{
    match step {
        Step::Close => text.extend_from_slice(b"$upscope $end\n")?,
        Step::Scopes(scope) => {
            push_scope_line(text, flat.scope(scope))?;
            push_variables(text, flat, codes, variables, scope)?;
            push_link(steps, scopes.next(scope))?;
            steps.push(Step::Close)?;
            push_link(steps, scopes.first(scope as usize + 1))?;
        }
    }
    Ok(())
}

/// Adds `$scope`.
fn push_scope_line(text: &mut Vec<u8>, scope: &Scope) -> Result<(), AllocError>
    ensures text { OnOk result (text.new.items ≡ text.old.items ++ scope_line (scope_of scope.now)) }
    ensures more { OnOk result (vec_len text.old < vec_len text.new) }
{
    text.extend_from_slice(b"$scope ")?;
    text.extend_from_slice(scope_kind(scope.instance))?;
    text.extend_from_slice(scope.name.as_slice())?;
    text.extend_from_slice(b" $end\n")?;
    Ok(())
}

/// How an instance or a generate block is declared.
fn scope_kind(instance: bool) -> &'static [u8]
    ensures { result.now ≡ scope_kind instance }
{
    if instance {
        return b"module ";
    }
    b"begin "
}

/// Adds the variables of a scope, by number, without its memories.
fn push_variables(
    text: &mut Vec<u8>,
    flat: &Flat,
    codes: &Codes,
    groups: &Groups,
    scope: u32,
) -> Result<(), AllocError>
    requires scope { scope < length flat.now.scopes }
    requires linked { AreLinked (length flat.now.scopes) (signal_keys (design_of flat.now).signals) groups.now.first.items groups.now.next.items }
    ensures { OnOk result (text.new.items ≡ text.old.items ++ variables (shown_signals (coded_by (code_at codes.now) (design_of flat.now))) scope) }
{
    let mut link = groups.first(scope as usize);
    while let Some(number) = link {
        push_variable(text, codes.code(number), flat.signal(number))?;
        link = groups.next(number);
    }
    Ok(())
}

/// Adds `$var` with this code, of a signal that is no memory.
fn push_variable(text: &mut Vec<u8>, code: u32, signal: &Signal) -> Result<(), AllocError>
    requires { is_memory (signal_of code signal.now) ≡ false }
    ensures { OnOk result (text.new.items ≡ text.old.items ++ variable_line (signal_of code signal.now)) }
{
    text.extend_from_slice(variable_start(code, signal).as_slice())?;
    text.extend_from_slice(signal.name.as_slice())?;
    push_range(text, declared_range(signal.integer, signal.range))?;
    text.extend_from_slice(b" $end\n")?;
    Ok(())
}

/// What comes before the name of a variable: its kind, its length and its identifier code.
fn variable_start(code: u32, signal: &Signal) -> Line
    requires { is_memory (signal_of code signal.now) ≡ false }
    ensures { result ≡ variable_start (signal_of code signal.now) }
{
    let mut line = Line::new();
    line.push_text(b"$var ");
    line.push_text(variable_kind(signal.net, signal.integer));
    line.push(b' ');
    line.push_decimal(range_bits(signal.range));
    line.push(b' ');
    line.push_identifier(code);
    line.push(b' ');
    line
}

/// How a net or a variable is declared.
fn variable_kind(net: bool, integer: bool) -> &'static [u8]
    ensures kind { result.now ≡ variable_kind net integer }
    ensures short { length result.now ≤ 7 }
{
    match (net, integer) {
        (_, true) => b"integer",
        (true, false) => b"wire",
        (false, false) => b"reg",
    }
}

/// The range that a declaration has: an integer's has none.
fn declared_range(integer: bool, range: Option<Range>) -> Option<Range>
    ensures { result ≡ declared_range integer range }
{
    if integer {
        return None;
    }
    range
}

/// Adds a declared range.
fn push_range(text: &mut Vec<u8>, range: Option<Range>) -> Result<(), AllocError>
    ensures { OnOk result (text.new.items ≡ text.old.items ++ range_text range) }
{
    if let Some(r) = range {
        let mut line = Line::new();
        line.push_text(b" [");
        line.push_decimal(u64::from(r.left));
        line.push(b':');
        line.push_decimal(u64::from(r.right));
        line.push(b']');
        text.extend_from_slice(line.as_slice())?;
    }
    Ok(())
}

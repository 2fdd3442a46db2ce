//! The functions of a scope in the flat design (IEEE 1364-2005, 10.4).

ghost use Rattle.std.specs.Prelude.{◌≡◌, ◌≤◌, ◌++◌, [], ◌∷◌, IfOk, OnOk, drop, length, map, take, true};
ghost use Rattle.vs_ast.specs.declared.items.Function.{Function};
ghost use Rattle.std.specs.Borrow.{Bor};
ghost use Rattle.vs_design.specs.Elaborated.{are_numbered};
ghost use Rattle.vs_grammar.specs.Shapes.{Each, IsFunction};
ghost use Rattle.vs_ast.specs.Views as view;
ghost use Rattle.vs_flat.specs.Trees.{signal_of, signals_from};
ghost use Rattle.vs_elaborated.specs.Environments.{within};
ghost use Rattle.vs_scope.specs.Complete.{KeepsShapes, complete, completed, function_declaration};
ghost use Rattle.vs_scope.specs.Counts.{counted};
ghost use Rattle.vs_scope.specs.Frames.{around_env};
ghost use Rattle.vs_scope.specs.Locals.{local_meaning, passed_of};
ghost use Rattle.vs_scope.specs.Views.{entries};
ghost use Rattle.vs_build.specs.Growth.{draft};
ghost use Rattle.vs_elab.specs.Functions.{AreBuildable, CanBuild, IsHeader, IsIdle, all_signals, and_functions, function_in, inputs_of, signals_of};

use std::alloc::{AllocError, Global};
use vs_ast::Function;
use vs_base::{List, Text};
use vs_build::{Builder, function};
use vs_scope::{Around, LocalSignal, Locals, Names, PassedInput, within_function};

/// A local signal, or a variable of a named block, in the flat design. A bit whose number has more than 32 bits is one too many for memory.
pub(crate) fn local_signal(
    alloc: Global,
    s: &LocalSignal<'_>,
) -> Result<vs_flat::Signal, AllocError>
    ensures { IfOk result (λ x. signal_of s.now.number x ≡ (local_meaning s.now).signal) }
{
    let name = Text::of(s.name.to_vec(alloc)?);
    match u32::try_from(s.first) {
        Err(_) => Err(AllocError),
        Ok(first_bit) => Ok(vs_flat::Signal {
            name,
            scope: s.scope,
            net: false,
            input: s.input,
            range: s.range,
            signed: s.signed,
            first_bit,
            words: None,
            integer: s.integer,
        }),
    }
}

/// An input that passes a signal of the module, in the flat design: it has no name.
fn passed_input(alloc: Global, p: &PassedInput) -> Result<vs_flat::Signal, AllocError>
    ensures { IfOk result (λ x. signal_of p.now.number x ≡ (passed_of p.now).input.signal) }
{
    match u32::try_from(p.first) {
        Err(_) => Err(AllocError),
        Ok(first_bit) => Ok(vs_flat::Signal {
            name: Text::of(Vec::new(alloc)),
            scope: p.scope,
            net: true,
            input: true,
            range: p.range,
            signed: p.signed,
            first_bit,
            words: None,
            integer: false,
        }),
    }
}

/// Adds local signals in the flat design, which have the next numbers.
fn push_signals(
    list: &mut Vec<vs_flat::Signal>,
    alloc: Global,
    signals: &[LocalSignal<'_>],
) -> Result<(), AllocError>
    ensures { are_numbered (length list.old.items) 0 (signals_of signals.now) ≡ true → OnOk result (signals_from 0 list.new.items ≡ signals_from 0 list.old.items ++ signals_of signals.now) }
{
    for s in signals {
        let next = local_signal(alloc, s)?;
        list.push(next)?;
    }
    Ok(())
}

/// Adds inputs that pass signals of the module, which have the next numbers.
fn push_inputs(
    list: &mut Vec<vs_flat::Signal>,
    alloc: Global,
    passed: &[PassedInput],
) -> Result<(), AllocError>
    ensures { are_numbered (length list.old.items) 0 (inputs_of passed.now) ≡ true → OnOk result (signals_from 0 list.new.items ≡ signals_from 0 list.old.items ++ inputs_of passed.now) }
{
    for p in passed {
        let next = passed_input(alloc, p)?;
        list.push(next)?;
    }
    Ok(())
}

/// The inputs that a function declares.
fn declared_inputs<'l, 'a>(locals: &'l Locals<'a>) -> &'l [LocalSignal<'a>]
    requires { locals.now.inputs ≤ length locals.now.signals.items }
    ensures { result.now ≡ take locals.now.inputs locals.now.signals.items }
{
    &locals.signals[..locals.inputs]
}

/// What a function returns, and its own variables.
fn own_signals<'l, 'a>(locals: &'l Locals<'a>) -> &'l [LocalSignal<'a>]
    requires { locals.now.inputs ≤ length locals.now.signals.items }
    ensures { result.now ≡ drop locals.now.inputs locals.now.signals.items }
{
    &locals.signals[locals.inputs..]
}

/// The local signals of a function in the flat design, which are numbered from 0 on: behind the inputs that it declares are those that pass it signals of
/// its module (10.4.4).
fn local_signals(alloc: Global, locals: &Locals<'_>) -> Result<Vec<vs_flat::Signal>, AllocError>
    requires { locals.now.inputs ≤ length locals.now.signals.items }
    ensures { are_numbered 0 0 (all_signals locals.now) ≡ true → IfOk result (λ v. signals_from 0 v.items ≡ all_signals locals.now) }
{
    let mut list = Vec::new(alloc);
    push_signals(&mut list, alloc, declared_inputs(locals))?;
    push_inputs(&mut list, alloc, locals.passed.as_slice())?;
    push_signals(&mut list, alloc, own_signals(locals))?;
    Ok(list)
}

/// The header of a function with these local signals.
fn header(alloc: Global, f: &Function, locals: &Locals<'_>) -> Result<vs_flat::Function, AllocError>
    requires { locals.now.inputs ≤ length locals.now.signals.items }
    ensures { IfOk result (λ h. IsHeader h f.now.place locals.now) }
{
    let signals = local_signals(alloc, locals)?;
    let inputs = locals
        .inputs
        .checked_add(locals.passed.len())
        .ok_or(AllocError)?;
    match u32::try_from(inputs) {
        Err(_) => Err(AllocError),
        Ok(inputs) => Ok(vs_flat::Function {
            at: f.place,
            signals: List::of(signals),
            inputs,
        }),
    }
}

/// Builds a function of a scope, by the functions of the scope that are complete.
fn add_function<'a>(
    builder: &mut Builder,
    alloc: Global,
    around: Around<'_, 'a>,
    names: &Names<'a>,
    f: &'a Function,
) -> Result<(), AllocError>
    requires idle { IsIdle (draft builder.old) }
    requires shaped { IsFunction (view.function f.now) }
    requires kept { KeepsShapes (around_env around) names.now }
    requires fine { CanBuild (draft builder.old).design names.now.scope (within (around_env around) (complete (around_env around) names.now)) (view.function f.now) }
    ensures { OnOk result (draft builder.new ≡ and_functions (draft builder.old) (function_in names.now.scope (within (around_env around.entry) (complete (around_env around.entry) names.now)) (view.function f.now) ∷ [])) }
{
    let inside = within_function(alloc, around, names, f)?;
    let header = header(alloc, f, &inside.locals)?;
    function(builder, alloc, header, &f.statement, &inside)
}

/// Builds the functions of a scope that break no rule, in the order of the text, each by those before it. `whole` has the names of the scope. An error is
/// want of memory.
pub(crate) fn add_functions<'a>(
    builder: &mut Builder,
    alloc: Global,
    around: Around<'_, 'a>,
    whole: &Names<'a>,
) -> Result<(), AllocError>
    requires idle { IsIdle (draft builder.old) }
    requires shaped { Each (λ (f : Bor Function). IsFunction (view.function f.now)) whole.now.functions.items }
    requires kept { KeepsShapes (around_env around) whole.now }
    requires fine { AreBuildable (draft builder.old).design whole.now.scope (around_env around) (counted whole.now.counts) (take whole.now.plain (entries whole.now)) (map function_declaration whole.now.functions.items) }
    ensures { OnOk result (draft builder.new ≡ and_functions (draft builder.old) (completed (around_env around.entry) whole.now).functions) }
{
    let mut names = whole.without_functions(alloc)?;
    for f in &whole.functions {
        add_function(builder, alloc, around, &names, *f)?;
        names.with_function(alloc, whole, *f)?;
    }
    Ok(())
}

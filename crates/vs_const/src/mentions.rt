//! The signals that an expression comes to, by their names or through the functions that it calls (IEEE 1364-2005, 9.7.5 and 10.4).

ghost use Rattle.std.specs.Prelude.{◌≡◌, ◌++◌, OnOk, length};
ghost use Rattle.vs_ast.specs.Views as view;
ghost use Rattle.vs_const.specs.Meanings.{Meaning, Means};
ghost use Rattle.vs_const.specs.MentionViews.{all_told, all_told_of};
ghost use Rattle.vs_const.specs.Mentions as spec;

use crate::names::{Env, Named, SignalShape};
use std::alloc::AllocError;
use vs_ast::{Expr, Name, Select};

/// How a signal is come to: by its name outside of calls, by its name in an argument of a call, or since a function that is called reads it.
#[derive(Clone, Copy, PartialEq, Eq, Debug)]
pub enum Way {
    Outside,
    InArgument,
    ByCall,
}

/// A signal that is no memory, and how it is come to.
#[derive(Clone, Copy, Debug)]
pub struct Mention {
    pub signal: SignalShape,
    pub way: Way,
}

/// How a name comes to a signal.
fn named_way(in_call: bool) -> Way
    ensures { result ≡ spec.named_way in_call }
{
    if in_call {
        Way::InArgument
    } else {
        Way::Outside
    }
}

/// Adds what a name comes to, alone or with a select of it.
fn push_named(list: &mut Vec<Mention>, in_call: bool, named: Named) -> Result<(), AllocError>
    ensures { (m : Meaning) → Means named m → OnOk result (all_told list.new.items ≡ all_told list.old.items ++ all_told_of (spec.named_mentions in_call m)) }
{
    match named {
        Named::Signal(signal) => {
            list.push(Mention {
                signal,
                way: named_way(in_call),
            })?;
            Ok(())
        }
        _ => Ok(()),
    }
}

/// How many signals a call of what this means passes.
fn passed_count(named: Named) -> u32
    ensures { (m : Meaning) → Means named m → result ≡ length (spec.called_mentions m) }
{
    match named {
        Named::Function(f) => f.passed,
        _ => 0,
    }
}

/// Adds what a call of this name comes to: the signals that the function reads.
fn push_called<E: Env>(list: &mut Vec<Mention>, name: &Name, env: &E) -> Result<(), AllocError>
    ensures { OnOk result (all_told list.new.items ≡ all_told list.old.items ++ all_told_of (spec.called_mentions (E.names env.now name.now.text))) }
{
    let count = passed_count(env.find(name.text.as_slice()));
    for n in 0..count {
        if let Some(signal) = env.passed(name.text.as_slice(), n) {
            list.push(Mention {
                signal,
                way: Way::ByCall,
            })?;
        }
    }
    Ok(())
}

/// Adds the signals that an expression comes to, in the order of the text: those that it names, and those that the functions read which it calls.
/// `in_call` says that it stands in an argument of a call.
#[cycle(mentions)]
pub fn push_mentions<E: Env>(
    list: &mut Vec<Mention>,
    e: &Expr,
    env: &E,
    in_call: bool,
) -> Result<(), AllocError>
    ensures { OnOk result (all_told list.new.items ≡ all_told list.old.items ++ all_told_of (spec.mentions (view.expr e.now) (E.names env.now) in_call)) }
{
    match e {
        Expr::Number(_) => Ok(()),
        Expr::Named(name, select) => {
            push_named(list, in_call, env.find(name.text.as_slice()))?;
            push_select_mentions(list, select, env, in_call)
        }
        Expr::Apply { name, arguments } => {
            push_called(list, name, env)?;
            push_all_mentions(list, arguments, env, true)
        }
        Expr::Unary { operand, .. } => push_mentions(list, operand, env, in_call),
        Expr::Binary { left, right, .. } => {
            push_mentions(list, left, env, in_call)?;
            push_mentions(list, right, env, in_call)
        }
        Expr::Choice { condition, yes, no } => {
            push_mentions(list, condition, env, in_call)?;
            push_mentions(list, yes, env, in_call)?;
            push_mentions(list, no, env, in_call)
        }
        Expr::Concatenation { parts, .. } => push_all_mentions(list, parts, env, in_call),
        Expr::Replication { count, parts, .. } => {
            push_mentions(list, count, env, in_call)?;
            push_all_mentions(list, parts, env, in_call)
        }
        Expr::Call { operand, .. } => push_mentions(list, operand, env, in_call),
        Expr::Brackets { inner, .. } => push_mentions(list, inner, env, in_call),
    }
}

/// Adds those of what a name is selected with.
#[cycle(mentions)]
pub fn push_select_mentions<E: Env>(
    list: &mut Vec<Mention>,
    select: &Select,
    env: &E,
    in_call: bool,
) -> Result<(), AllocError>
    ensures { OnOk result (all_told list.new.items ≡ all_told list.old.items ++ all_told_of (spec.select_mentions (view.select select.now) (E.names env.now) in_call)) }
{
    match select {
        Select::Whole => Ok(()),
        Select::Bit { index, .. } => push_mentions(list, index, env, in_call),
        Select::Slice { left, right, .. } => {
            push_mentions(list, left, env, in_call)?;
            push_mentions(list, right, env, in_call)
        }
        Select::Word { address, part, .. } => {
            push_mentions(list, address, env, in_call)?;
            push_select_mentions(list, part, env, in_call)
        }
    }
}

/// Adds those of several expressions.
#[cycle(mentions)]
fn push_all_mentions<E: Env>(
    list: &mut Vec<Mention>,
    all: &[Expr],
    env: &E,
    in_call: bool,
) -> Result<(), AllocError>
    ensures { OnOk result (all_told list.new.items ≡ all_told list.old.items ++ all_told_of (spec.all_mentions (view.exprs all.now) (E.names env.now) in_call)) }
{
    for e in all {
        push_mentions(list, e, env, in_call)?;
    }
    Ok(())
}

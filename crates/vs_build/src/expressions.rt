//! Expressions of the text (IEEE 1364-2005, clause 5).

ghost use Rattle.std.specs.Prelude.{◌≡◌, ◌≤◌, ◌+◌, ◌++◌, ℕ, Bool, true, max, min, length, map, Some, IfOk, OnOk};
ghost use Rattle.vs_four.specs.declared.Range.{Range};
ghost use Rattle.vs_grammar.specs.Trees.{expr_place};
ghost use Rattle.vs_grammar.specs.Depths.{expr_depth, exprs_depth, select_depth};
ghost use Rattle.vs_ast.specs.Views as view;
ghost use Rattle.vs_const.specs.Meanings.{AFunction, FunctionMeaning};
ghost use Rattle.vs_const.specs.Typed.{begins_at};
ghost use Rattle.vs_const.specs.Expressions.{typed, taken_by};
ghost use Rattle.vs_build.specs.Drafts.{home, AddsExpression, AddsParts};
ghost use Rattle.vs_build.specs.Growth.{draft};
ghost use Rattle.vs_build.specs.Buildable.{IsBuildable, IsCallable, IsSelectable, IsTakable, AreArguments, AreBuildable, ArePassable, part_expressions, passed_expressions, selected_by};

use crate::builder::Builder;
use crate::names::{
    bounds_of, called, constant_bits, index_needed, lesser, memory, name_alone, number_within,
    passed, passed_count, range_length, source, words,
};
use crate::steady::Steady;
use std::alloc::{AllocError, Global};
use vs_ast::{Expr, Name, Select, SliceKind, SystemFunction};
use vs_base::UnaryOp;
use vs_const::{Env, place_of};
use vs_four::of_number;

/// Builds an expression that breaks no rule.
#[cycle(expressions)]
#[tactic(auto, using(crate::proofs::Arms::begins_itself))]
pub fn operand<E: Env>(
    builder: &mut Builder,
    alloc: Global,
    e: &Expr,
    env: &E,
    needed: bool,
) -> Result<(), AllocError>
    requires { IsBuildable (home (draft builder.old)) (E.names env.now) needed (view.expr e.now) }
    ensures { OnOk result (AddsExpression (draft builder.old) (draft builder.new) (typed (view.expr e.now) (E.names env.now) needed).expression (1 + expr_depth (view.expr e.now))) }
{
    expression(builder, alloc, e, place_of(e), env, needed)
}

/// Builds an expression that breaks no rule, as one that begins at `at`.
#[cycle(expressions)]
pub(crate) fn expression<E: Env>(
    builder: &mut Builder,
    alloc: Global,
    e: &Expr,
    at: u32,
    env: &E,
    needed: bool,
) -> Result<(), AllocError>
    requires { IsBuildable (home (draft builder.old)) (E.names env.now) needed (view.expr e.now) }
    ensures { OnOk result (AddsExpression (draft builder.old) (draft builder.new) (begins_at at (typed (view.expr e.now) (E.names env.now) needed).expression) (1 + expr_depth (view.expr e.now))) }
{
    match e {
        Expr::Number(n) => builder.literal(n.bits(), n.signed, n.sized, at),
        Expr::Named(name, select) => {
            selected(builder, alloc, select, name, at, env, needed, needed)
        }
        Expr::Apply {
            name,
            arguments: list,
        } => {
            let count = call_parts(builder, alloc, name, list, env, needed)?;
            builder.call(alloc, called(name, env), count, at)
        }
        Expr::Unary { op, operand: a, .. } => {
            operand(builder, alloc, a, env, needed)?;
            builder.unary(*op, at)
        }
        Expr::Binary { op, left, right } => {
            operand(builder, alloc, left, env, needed)?;
            operand(builder, alloc, right, env, needed)?;
            builder.binary(*op, at)
        }
        Expr::Choice { condition, yes, no } => {
            operand(builder, alloc, condition, env, needed)?;
            operand(builder, alloc, yes, env, needed)?;
            operand(builder, alloc, no, env, needed)?;
            builder.choice(at)
        }
        Expr::Concatenation { parts: list, .. } => {
            parts(builder, alloc, list, env, needed)?;
            builder.join(alloc, list.len(), 1, at)
        }
        Expr::Replication {
            count,
            parts: list,
            ..
        } => {
            let copies = number_within(alloc, 1, 64, count, &Steady { env: &*env })?;
            parts(builder, alloc, list, env, needed)?;
            builder.join(alloc, list.len(), copies, at)
        }
        Expr::Call {
            function,
            operand: a,
            ..
        } => match function {
            SystemFunction::AsSigned => {
                operand(builder, alloc, a, env, needed)?;
                builder.unary(UnaryOp::Signed, at)
            }
            SystemFunction::AsUnsigned => {
                operand(builder, alloc, a, env, needed)?;
                builder.unary(UnaryOp::Unsigned, at)
            }
            SystemFunction::Clog2 => {
                let bits = constant_bits(alloc, e, env)?;
                builder.literal(bits, true, true, at)
            }
        },
        Expr::Brackets { inner, .. } => expression(builder, alloc, inner, at, env, needed),
    }
}

/// Builds the parts of a concatenation, one after the other.
#[cycle(expressions)]
fn parts<E: Env>(
    builder: &mut Builder,
    alloc: Global,
    list: &[Expr],
    env: &E,
    needed: bool,
) -> Result<(), AllocError>
    requires { AreBuildable (home (draft builder.old)) (E.names env.now) needed (view.exprs list.now) }
    ensures { OnOk result (AddsParts (draft builder.old) (draft builder.new) (part_expressions (E.names env.now) needed list.now) (1 + exprs_depth (view.exprs list.now))) }
{
    for part in list {
        operand(builder, alloc, part, env, needed)?;
    }
    Ok(())
}

/// Builds the arguments of a call, one after the other (IEEE 1364-2005, 10.4.3).
#[cycle(expressions)]
fn arguments<E: Env>(
    builder: &mut Builder,
    alloc: Global,
    list: &[Expr],
    env: &E,
    needed: bool,
) -> Result<(), AllocError>
    requires { AreArguments (home (draft builder.old)) (E.names env.now) needed (view.exprs list.now) }
    ensures { OnOk result (AddsParts (draft builder.old) (draft builder.new) (part_expressions (E.names env.now) needed list.now) (1 + exprs_depth (view.exprs list.now))) }
{
    for argument in list {
        operand(builder, alloc, argument, env, needed)?;
    }
    Ok(())
}

/// Builds what a call of this name holds, its arguments and behind them the signals that the function reads (IEEE 1364-2005, 10.4.4), one after the other,
/// and answers how many these are.
#[cycle(expressions)]
fn call_parts<E: Env>(
    builder: &mut Builder,
    alloc: Global,
    name: &Name,
    list: &[Expr],
    env: &E,
    needed: bool,
) -> Result<usize, AllocError>
    requires arguments { AreArguments (home (draft builder.old)) (E.names env.now) needed (view.exprs list.now) }
    requires callable { IsCallable (E.names env.now name.now.text) }
    requires passable { ArePassable (home (draft builder.old)) (E.names env.now name.now.text) }
    ensures parts { (f : FunctionMeaning) → E.names env.now name.now.text ≡ AFunction f
        → OnOk result (AddsParts (draft builder.old) (draft builder.new) (part_expressions (E.names env.now) needed list.now ++ passed_expressions name.now.place f.passed) (1 + exprs_depth (view.exprs list.now))) }
    ensures count { (f : FunctionMeaning) → E.names env.now name.now.text ≡ AFunction f → IfOk result (λ n. n ≡ length list.now + length f.passed) }
{
    arguments(builder, alloc, list, env, needed)?;
    passed(builder, name, env)?;
    let reads = passed_count(name, env);
    let count = list.len().checked_add(reads as usize).ok_or(AllocError)?;
    Ok(count)
}

/// Builds a name, with what is selected of it: `name[i]` is a word of a memory (IEEE 1364-2005, 4.9.3), a bit of anything else, and a further select is one
/// of the word. `fixed` is where the name has to be a constant, `needed` where its index has to be one.
#[cycle(expressions)]
pub(crate) fn selected<E: Env>(
    builder: &mut Builder,
    alloc: Global,
    select: &Select,
    name: &Name,
    at: u32,
    env: &E,
    fixed: bool,
    needed: bool,
) -> Result<(), AllocError>
    requires { IsSelectable (home (draft builder.old)) (E.names env.now) fixed needed (view.name name.now) (view.select select.now) }
    ensures { OnOk result (AddsExpression (draft builder.old) (draft builder.new) (begins_at at (selected_by (view.select select.now) (view.name name.now) (E.names env.now) fixed needed).expression) (1 + select_depth (view.select select.now))) }
{
    match select {
        Select::Whole => name_alone(builder, fixed, name, at, env),
        Select::Bit { index, .. } => {
            operand(builder, alloc, index, env, index_needed(needed, name, env))?;
            let there = memory(alloc, name, index, env)?;
            match there {
                Some(signal) => builder.word(signal, at),
                None => {
                    let range = source(builder, fixed, name, env)?;
                    builder.bit(range, at)
                }
            }
        }
        Select::Slice {
            kind,
            left,
            right,
            ..
        } => match kind {
            SliceKind::Between => {
                let bounds = bounds_of(alloc, left, right, &Steady { env: &*env })?;
                builder.literal(
                    of_number(32, lesser(bounds) as u64),
                    true,
                    true,
                    place_of(left),
                )?;
                let range = source(builder, fixed, name, env)?;
                builder.part(range, true, range_length(bounds), at)
            }
            SliceKind::Upward => {
                let width = number_within(alloc, 1, 64, right, &Steady { env: &*env })?;
                operand(builder, alloc, left, env, needed)?;
                let range = source(builder, fixed, name, env)?;
                builder.part(range, true, width, at)
            }
            SliceKind::Downward => {
                let width = number_within(alloc, 1, 64, right, &Steady { env: &*env })?;
                operand(builder, alloc, left, env, needed)?;
                let range = source(builder, fixed, name, env)?;
                builder.part(range, false, width, at)
            }
        },
        Select::Word { address, part, .. } => {
            operand(
                builder,
                alloc,
                address,
                env,
                index_needed(needed, name, env),
            )?;
            let bits = bits_taken(builder, alloc, part, env, needed)?;
            let m = words(alloc, name, address, env)?;
            builder.word_part(m.0, m.1, bits.0, bits.1, at)
        }
    }
}

/// Builds the index of a select of one or several bits (IEEE 1364-2005, 5.2.1), and answers whether they go upwards from it, and how many they are.
#[cycle(expressions)]
fn bits_taken<E: Env>(
    builder: &mut Builder,
    alloc: Global,
    part: &Select,
    env: &E,
    needed: bool,
) -> Result<(bool, u32), AllocError>
    requires { (r : Range) × IsTakable (home (draft builder.old)) (E.names env.now) needed r (view.select part.now) }
    ensures adds { (r : Range) → IsTakable (home (draft builder.old)) (E.names env.now) needed r (view.select part.now)
        → OnOk result (AddsExpression (draft builder.old) (draft builder.new) (taken_by (Some r) (view.select part.now) (E.names env.now) needed).index (select_depth (view.select part.now))) }
    ensures part { (r : Range) → IsTakable (home (draft builder.old)) (E.names env.now) needed r (view.select part.now)
        → IfOk result (λ bits. (taken_by (Some r) (view.select part.now) (E.names env.now) needed).part ≡ record { range = r; up = bits.0; width = bits.1 }) }
{
    match part {
        Select::Bit { index, .. } => {
            operand(builder, alloc, index, env, needed)?;
            Ok((true, 1))
        }
        Select::Slice {
            kind,
            left,
            right,
            ..
        } => match kind {
            SliceKind::Between => {
                let bounds = bounds_of(alloc, left, right, &Steady { env: &*env })?;
                builder.literal(
                    of_number(32, lesser(bounds) as u64),
                    true,
                    true,
                    place_of(left),
                )?;
                Ok((true, range_length(bounds)))
            }
            SliceKind::Upward => {
                let width = number_within(alloc, 1, 64, right, &Steady { env: &*env })?;
                operand(builder, alloc, left, env, needed)?;
                Ok((true, width))
            }
            SliceKind::Downward => {
                let width = number_within(alloc, 1, 64, right, &Steady { env: &*env })?;
                operand(builder, alloc, left, env, needed)?;
                Ok((false, width))
            }
        },
        Select::Whole | Select::Word { .. } => unreachable!(),
    }
}

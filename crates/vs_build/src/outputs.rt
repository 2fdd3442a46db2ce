//! Assigns of output ports (IEEE 1364-2005, 12.3.9.2).

ghost use Rattle.std.specs.Prelude.{◌≡◌, ◌<◌, ◌^◌, ◌+◌, None, true, length, OnOk};
ghost use Rattle.vs_design.specs.Elaborated.{is_plain};
ghost use Rattle.vs_grammar.specs.Depths.{target_depth, targets_depth};
ghost use Rattle.vs_ast.specs.Views as view;
ghost use Rattle.vs_flat.specs.Trees.{signal_at};
ghost use Rattle.vs_build.specs.Drafts.{home, AddsExpression, AddsParts, and_process};
ghost use Rattle.vs_build.specs.Growth.{draft};
ghost use Rattle.vs_build.specs.Outputs.{output_of, outputs_of, output_expression, output_expressions, output_process, IsOutput, AreOutputs};

use crate::builder::Builder;
use crate::expressions::selected;
use std::alloc::{AllocError, Global};
use vs_ast::Expr;
use vs_const::Env;
use vs_flat::Port;

/// Builds an expression that is connected to an output and breaks no rule, as the target that it is; brackets round it are no matter.
#[cycle(outputs)]
fn output<E: Env>(builder: &mut Builder, alloc: Global, e: &Expr, env: &E) -> Result<(), AllocError>
    requires { IsOutput (home (draft builder.old)) (E.names env.now) (view.expr e.now) }
    ensures { OnOk result (AddsExpression (draft builder.old) (draft builder.new) (output_expression (view.expr e.now) (E.names env.now)) (1 + target_depth (output_of (view.expr e.now)))) }
{
    match e {
        Expr::Named(name, select) => {
            selected(builder, alloc, select, name, name.place, env, false, true)
        }
        Expr::Concatenation { place, parts } => {
            outputs(builder, alloc, parts, env)?;
            builder.join(alloc, parts.len(), 1, *place)
        }
        Expr::Brackets { inner, .. } => output(builder, alloc, inner, env),
        _ => unreachable!(),
    }
}

/// Builds the parts of one, one after the other.
#[cycle(outputs)]
fn outputs<E: Env>(
    builder: &mut Builder,
    alloc: Global,
    list: &[Expr],
    env: &E,
) -> Result<(), AllocError>
    requires { AreOutputs (home (draft builder.old)) (E.names env.now) (view.exprs list.now) }
    ensures { OnOk result (AddsParts (draft builder.old) (draft builder.new) (output_expressions (E.names env.now) list.now) (1 + targets_depth (outputs_of (view.exprs list.now)))) }
{
    for part in list {
        output(builder, alloc, part, env)?;
    }
    Ok(())
}

/// Builds the assign of an output port of an instance whose item begins at `place`: from the inner signal, which is given by its number and is no
/// memory, to an expression of the scope around it, which is a target and breaks no rule. An error is want of memory.
pub fn output_port<E: Env>(
    builder: &mut Builder,
    alloc: Global,
    place: u32,
    inner: u32,
    e: &Expr,
    env: &E,
) -> Result<(), AllocError>
    requires room { length (draft builder.old).design.processes < 2 ^ 16 }
    requires there { inner < length (draft builder.old).design.signals }
    requires signal { is_plain (draft builder.old).design (signal_at (draft builder.old).design.signals inner) ≡ true }
    requires outside { (draft builder.old).function ≡ None }
    requires fine { IsOutput (home (draft builder.old)) (E.names env.now) (view.expr e.now) }
    ensures { OnOk result (draft builder.new ≡ and_process (draft builder.old) (output_process place (signal_at (draft builder.old).design.signals inner) (output_of (view.expr e.now)) (E.names env.now))) }
{
    output(builder, alloc, e, env)?;
    builder.name(inner, place)?;
    builder.assign(Port::Output, place)
}

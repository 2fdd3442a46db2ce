//! The faults of what an output port is connected to (IEEE 1364-2005, 12.3.9.2).

ghost use Rattle.std.specs.Prelude.{◌≡◌, ℕ, List, IfOk, is_some};
ghost use Rattle.vs_grammar.specs.Shapes.{IsExpr, AreExprs};
ghost use Rattle.vs_ast.specs.Views as view;
ghost use Rattle.vs_const.specs.Faults.{least};
ghost use Rattle.vs_elaborated.specs.Environments.{named};
ghost use Rattle.vs_elaborated.specs.Targets.{as_target, as_targets};
ghost use Rattle.vs_elaborated.specs.Instances.{output_target};
ghost use Rattle.vs_scope.specs.Frames.{view_env};
ghost use Rattle.vs_items.specs.Outputs.{found_faults, found_parts};

use crate::values::expr_fault;
use std::alloc::{AllocError, Global};
use vs_ast::Expr;
use vs_bodies::check_selected;
use vs_const::{Fault, Rule, fault_at, first_of, place_of};
use vs_scope::{View, fair_law};

/// Whether an expression is a target; brackets round it are no matter.
#[cycle(shapes)]
pub(crate) fn is_target(e: &Expr) -> bool
    ensures { result ≡ is_some (as_target (view.expr e.now)) }
{
    match e {
        Expr::Named(..) => true,
        Expr::Concatenation { parts, .. } => are_targets(parts),
        Expr::Brackets { inner, .. } => is_target(inner),
        _ => false,
    }
}

/// Whether all of these are.
#[cycle(shapes)]
fn are_targets(parts: &[Expr]) -> bool
    ensures { result ≡ is_some (as_targets (view.exprs parts.now)) }
{
    let mut all = true;
    for part in parts {
        let one = is_target(part);
        all = all && one;
    }
    all
}

/// The first rule that an expression breaks that is a target.
#[cycle(outputs)]
fn part_fault(alloc: Global, e: &Expr, here: &View<'_, '_>) -> Result<Option<Fault>, AllocError>
    requires { IsExpr (view.expr e.now) }
    ensures { IfOk result (λ f. f ≡ least (found_faults (view.expr e.now) (named (view_env here.now)))) }
{
    fair_law();
    match e {
        Expr::Named(name, select) => check_selected(alloc, name, select, here, false),
        Expr::Concatenation { parts, .. } => parts_fault(alloc, parts, here),
        Expr::Brackets { inner, .. } => part_fault(alloc, inner, here),
        _ => Ok(None),
    }
}

/// The first rule that the parts of one break.
#[cycle(outputs)]
fn parts_fault(
    alloc: Global,
    list: &[Expr],
    here: &View<'_, '_>,
) -> Result<Option<Fault>, AllocError>
    requires { AreExprs (view.exprs list.now) }
    ensures { IfOk result (λ f. f ≡ least (found_parts (view.exprs list.now) (named (view_env here.now)))) }
{
    let mut fault = None;
    for part in list {
        let found = part_fault(alloc, part, here)?;
        fault = first_of(fault, found);
    }
    Ok(fault)
}

/// The first rule that an expression breaks that is connected to an output.
pub(crate) fn output_fault(
    alloc: Global,
    e: &Expr,
    here: &View<'_, '_>,
) -> Result<Option<Fault>, AllocError>
    requires { IsExpr (view.expr e.now) }
    ensures { (name : List ℕ) → IfOk result (λ f. f ≡ least (output_target name (view.expr e.now) (view_env here.now) (as_target (view.expr e.now))).faults) }
{
    if is_target(e) {
        part_fault(alloc, e, here)
    } else {
        let found = expr_fault(alloc, e, here, false)?;
        Ok(first_of(fault_at(Rule::WrongKind, place_of(e)), found))
    }
}

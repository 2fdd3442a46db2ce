//! The faults of values that are connected (IEEE 1364-2005, 12.2.2 and 12.3.5).

ghost use Rattle.std.specs.Prelude.{◌≡◌, IfOk, map, flat_map};
ghost use Rattle.vs_grammar.specs.Shapes.{IsExpr, Given, Each, IsConnection};
ghost use Rattle.vs_ast.specs.Views as view;
ghost use Rattle.vs_const.specs.Expressions.{typed};
ghost use Rattle.vs_const.specs.Faults.{least};
ghost use Rattle.vs_elaborated.specs.Environments.{named};
ghost use Rattle.vs_scope.specs.Frames.{view_env};
ghost use Rattle.vs_items.specs.Values.{value_faults, named_faults};

use std::alloc::{AllocError, Global};
use vs_ast::{Expr, NamedConnection};
use vs_const::{Fault, check, first_of};
use vs_scope::View;

/// The first rule that an expression breaks; `needed` says whether it has to be a constant.
pub(crate) fn expr_fault(
    alloc: Global,
    e: &Expr,
    here: &View<'_, '_>,
    needed: bool,
) -> Result<Option<Fault>, AllocError>
    requires { IsExpr (view.expr e.now) }
    ensures { IfOk result (λ f. f ≡ least (typed (view.expr e.now) (named (view_env here.now)) needed).faults) }
{
    let found = check(alloc, e, here, needed)?;
    Ok(found.said.flaws.first)
}

/// The same of a value that may be missing.
pub(crate) fn value_fault(
    alloc: Global,
    e: &Option<Expr>,
    here: &View<'_, '_>,
    needed: bool,
) -> Result<Option<Fault>, AllocError>
    requires { Given IsExpr (view.option view.expr e.now) }
    ensures { IfOk result (λ f. f ≡ least (value_faults (view_env here.now) needed (view.option view.expr e.now))) }
{
    match e {
        None => Ok(None),
        Some(e) => expr_fault(alloc, e, here, needed),
    }
}

/// The first rule that any of these breaks.
pub(crate) fn values_fault(
    alloc: Global,
    parts: &[Option<Expr>],
    here: &View<'_, '_>,
    needed: bool,
) -> Result<Option<Fault>, AllocError>
    requires { Each (Given IsExpr) (map (view.option view.expr) parts.now) }
    ensures { IfOk result (λ f. f ≡ least (flat_map (value_faults (view_env here.now) needed) (map (view.option view.expr) parts.now))) }
{
    let mut fault = None;
    for part in parts {
        let found = value_fault(alloc, part, here, needed)?;
        fault = first_of(fault, found);
    }
    Ok(fault)
}

/// The first rule that the value of any of these breaks.
pub(crate) fn named_fault(
    alloc: Global,
    parts: &[NamedConnection],
    here: &View<'_, '_>,
    needed: bool,
) -> Result<Option<Fault>, AllocError>
    requires { Each IsConnection (map view.named_connection parts.now) }
    ensures { IfOk result (λ f. f ≡ least (flat_map (named_faults (view_env here.now) needed) (map view.named_connection parts.now))) }
{
    let mut fault = None;
    for part in parts {
        let found = value_fault(alloc, &part.value, here, needed)?;
        fault = first_of(fault, found);
    }
    Ok(fault)
}

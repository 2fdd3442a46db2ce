//! The faults of overrides (IEEE 1364-2005, 12.2.2).

ghost use Rattle.std.specs.Prelude.{◌≡◌, IfOk, map, Option};
ghost use Rattle.vs_grammar.specs.Trees as tree;
ghost use Rattle.vs_grammar.specs.Shapes.{AreConnections, IsExpr, Given, Each, IsConnection};
ghost use Rattle.vs_ast.specs.Views as view;
ghost use Rattle.vs_const.specs.Faults.{least};
ghost use Rattle.vs_elaborated.specs.Instances.{said_overrides};
ghost use Rattle.vs_scope.specs.Frames.{view_env};
ghost use Rattle.vs_items.specs.Interfaces.{IsKnown};

use crate::connected::name_fault;
use crate::interfaces::{Interface, has_too_many, parameter_names};
use crate::values::{named_fault, values_fault};
use std::alloc::{AllocError, Global};
use vs_ast::{Connections, Expr, Name, NamedConnection};
use vs_const::{Fault, Rule, fault_if, first_of};
use vs_scope::View;

/// The first rule that overrides by order break.
fn by_order(
    alloc: Global,
    of: &Name,
    known: Option<&Interface<'_>>,
    parts: &[Option<Expr>],
    here: &View<'_, '_>,
) -> Result<Option<Fault>, AllocError>
    requires { Each (Given IsExpr) (map (view.option view.expr) parts.now) }
    ensures { (m : Option tree.Module) → IsKnown known.entry m
        → IfOk result (λ f. f ≡ least (said_overrides (view.name of.now) m (tree.ByOrder (map (view.option view.expr) parts.now)) (view_env here.now)).faults) }
{
    let many = fault_if(has_too_many(known, parts.len()), Rule::PortCount, of.place);
    let found = values_fault(alloc, parts, here, true)?;
    Ok(first_of(many, found))
}

/// The first rule that overrides by names break.
fn by_name(
    alloc: Global,
    of: &Name,
    known: Option<&Interface<'_>>,
    parts: &[NamedConnection],
    here: &View<'_, '_>,
) -> Result<Option<Fault>, AllocError>
    requires { Each IsConnection (map view.named_connection parts.now) }
    ensures { (m : Option tree.Module) → IsKnown known.entry m
        → IfOk result (λ f. f ≡ least (said_overrides (view.name of.now) m (tree.ByName (map view.named_connection parts.now)) (view_env here.now)).faults) }
{
    let names = name_fault(alloc, parameter_names(known), parts)?;
    let found = named_fault(alloc, parts, here, true)?;
    Ok(first_of(names, found))
}

/// The first rule that the overrides of an item's instances break, where `of` is the name of their module.
pub(crate) fn overrides_fault(
    alloc: Global,
    of: &Name,
    known: Option<&Interface<'_>>,
    overrides: &Connections,
    here: &View<'_, '_>,
) -> Result<Option<Fault>, AllocError>
    requires { AreConnections (view.connections overrides.now) }
    ensures { (m : Option tree.Module) → IsKnown known.entry m
        → IfOk result (λ f. f ≡ least (said_overrides (view.name of.now) m (view.connections overrides.now) (view_env here.now)).faults) }
{
    match overrides {
        Connections::Unconnected => Ok(None),
        Connections::ByOrder(parts) => by_order(alloc, of, known, parts, here),
        Connections::ByName(parts) => by_name(alloc, of, known, parts, here),
    }
}

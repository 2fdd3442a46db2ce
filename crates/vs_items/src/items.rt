//! The faults of assigns and of declared values (IEEE 1364-2005, 6.1 and 6.2.1).

ghost use Rattle.std.specs.Prelude.{◌≡◌, ℕ, IfOk, map, flat_map};
ghost use Rattle.vs_grammar.specs.Shapes.{IsAssign, IsDeclarator, Each};
ghost use Rattle.vs_ast.specs.Views as view;
ghost use Rattle.vs_const.specs.Faults.{least};
ghost use Rattle.vs_elaborated.specs.Surveys as spec;
ghost use Rattle.vs_elaborated.specs.Signals as signals;
ghost use Rattle.vs_elaborated.specs.Pieces.{all_said};
ghost use Rattle.vs_scope.specs.Contents.{contents_header};
ghost use Rattle.vs_scope.specs.Frames.{view_env};
ghost use Rattle.vs_items.specs.Items.{assign_faults, declarator_faults};
ghost use Rattle.vs_items.specs.Stated.{IsDeclared, IsStatedHeader};

use crate::values::expr_fault;
use std::alloc::{AllocError, Global};
use vs_ast::{Assign, Declarator, Header, Select, SignalKind, Signals};
use vs_bodies::{check_selected, check_target};
use vs_const::{Fault, first_of};
use vs_scope::{Contents, View, fair_law, is_reg};

/// The first rule that an assign breaks.
fn assign_fault(alloc: Global, a: &Assign, here: &View<'_, '_>) -> Result<Option<Fault>, AllocError>
    requires { IsAssign (view.assign a.now) }
    ensures { IfOk result (λ f. f ≡ least (assign_faults (view_env here.now) (view.assign a.now))) }
{
    fair_law();
    let target = check_target(alloc, &a.target, here, false)?;
    let value = expr_fault(alloc, &a.value, here, false)?;
    Ok(first_of(target, value))
}

/// The first rule that the assigns of an item break.
pub(crate) fn assigns_fault(
    alloc: Global,
    assigns: &[Assign],
    here: &View<'_, '_>,
) -> Result<Option<Fault>, AllocError>
    requires { Each IsAssign (map view.assign assigns.now) }
    ensures { (place : ℕ) → IfOk result (λ f. f ≡ least (all_said (spec.assign_said (view_env here.now) place) (map view.assign assigns.now)).faults) }
{
    let mut fault = None;
    for a in assigns {
        let found = assign_fault(alloc, a, here)?;
        fault = first_of(fault, found);
    }
    Ok(fault)
}

/// The first rule that a declared name of this kind breaks with its value, if it has one (6.1.1 and 6.2.1).
fn declarator_fault(
    alloc: Global,
    d: &Declarator,
    kind: SignalKind,
    here: &View<'_, '_>,
) -> Result<Option<Fault>, AllocError>
    requires { IsDeclarator (view.declarator d.now) }
    ensures { IfOk result (λ f. f ≡ least (declarator_faults (view_env here.now) (signals.is_reg (view.signal_kind kind)) (view.declarator d.now))) }
{
    fair_law();
    let variable = is_reg(kind);
    match &d.value {
        None => Ok(None),
        Some(e) => {
            let target = check_selected(alloc, &d.name, &Select::Whole, here, variable)?;
            let value = expr_fault(alloc, e, here, false)?;
            Ok(first_of(target, value))
        }
    }
}

/// The first rule that declared names of this kind break with their values.
fn declarators_fault(
    alloc: Global,
    kind: SignalKind,
    names: &[Declarator],
    here: &View<'_, '_>,
) -> Result<Option<Fault>, AllocError>
    requires { Each IsDeclarator (map view.declarator names.now) }
    ensures { (place : ℕ) → IfOk result (λ f. f ≡ least (all_said (spec.declarator_said (view_env here.now) place (view.signal_kind kind)) (map view.declarator names.now)).faults) }
{
    let mut fault = None;
    for d in names {
        let found = declarator_fault(alloc, d, kind, here)?;
        fault = first_of(fault, found);
    }
    Ok(fault)
}

/// The first rule that the names of a declaration break with their values.
pub(crate) fn signals_fault(
    alloc: Global,
    s: &Signals,
    here: &View<'_, '_>,
) -> Result<Option<Fault>, AllocError>
    requires { IsDeclared (view.signals s.now) }
    ensures { IfOk result (λ f. f ≡ least (spec.signals_said (view_env here.now) (view.signals s.now)).faults) }
{
    declarators_fault(alloc, s.kind, &s.names, here)
}

/// The first rule that declarations of ports break with their values.
fn ports_fault(
    alloc: Global,
    ports: &[Signals],
    here: &View<'_, '_>,
) -> Result<Option<Fault>, AllocError>
    requires { Each IsDeclared (map view.signals ports.now) }
    ensures { IfOk result (λ f. f ≡ least (all_said (spec.signals_said (view_env here.now)) (map view.signals ports.now)).faults) }
{
    let mut fault = None;
    for s in ports {
        let found = signals_fault(alloc, s, here)?;
        fault = first_of(fault, found);
    }
    Ok(fault)
}

/// The first rule that a header breaks with the values of its ports.
fn values_in(
    alloc: Global,
    header: &Header,
    here: &View<'_, '_>,
) -> Result<Option<Fault>, AllocError>
    requires { IsStatedHeader (view.header header.now) }
    ensures { IfOk result (λ f. f ≡ least (spec.ports_said (view_env here.now) (view.header header.now)).faults) }
{
    match header {
        Header::Declared(ports) => ports_fault(alloc, ports, here),
        _ => Ok(None),
    }
}

/// The same of a scope, whose header may have none.
pub(crate) fn header_fault(
    alloc: Global,
    contents: Contents<'_>,
    here: &View<'_, '_>,
) -> Result<Option<Fault>, AllocError>
    requires { IsStatedHeader (contents_header contents) }
    ensures { IfOk result (λ f. f ≡ least (spec.ports_said (view_env here.now) (contents_header contents.entry)).faults) }
{
    match contents {
        Contents::Module(m) => values_in(alloc, &m.header, here),
        Contents::Block(_) => Ok(None),
    }
}

//! The faults of what the ports of an instance are connected to (IEEE 1364-2005, 12.3.5, 12.3.6 and 12.3.9).

ghost use Rattle.std.specs.Prelude.{◌≡◌, ℕ, List, Option, IfOk, map, flat_map, option_map, slice_get};
ghost use Rattle.vs_grammar.specs.Trees as tree;
ghost use Rattle.vs_grammar.specs.Shapes.{AreConnections, AreInstances, IsExpr, IsInstance, Given, Each, IsConnection};
ghost use Rattle.vs_ast.specs.Views as view;
ghost use Rattle.vs_const.specs.Faults.{least};
ghost use Rattle.vs_elaborated.specs.Environments.{named};
ghost use Rattle.vs_elaborated.specs.Ports.{find_module, find_port};
ghost use Rattle.vs_elaborated.specs.Instances as spec;
ghost use Rattle.vs_scope.specs.Frames.{view_env};
ghost use Rattle.vs_items.specs.Connected.{is_known};
ghost use Rattle.vs_items.specs.Instances.{instance_faults};
ghost use Rattle.vs_items.specs.Interfaces.{IsKnown};
ghost use Rattle.vs_items.specs.Ports.{port_of, input_of};

use crate::connected::name_fault;
use crate::interfaces::Interface;
use crate::outputs::output_fault;
use crate::overrides::overrides_fault;
use crate::ports::Port;
use crate::values::expr_fault;
use std::alloc::{AllocError, Global};
use vs_ast::{Connections, Expr, Instance, Instances, Name, NamedConnection};
use vs_const::{Fault, Rule, fault_if, first_of};
use vs_maps::NameMap;
use vs_scope::View;

/// The first rule that an expression breaks that is connected to a port; `input` says whether it is one, if it has a direction.
fn directed_fault(
    alloc: Global,
    input: Option<bool>,
    e: &Expr,
    here: &View<'_, '_>,
) -> Result<Option<Fault>, AllocError>
    requires { IsExpr (view.expr e.now) }
    ensures { (name : List ℕ) → IfOk result (λ f. f ≡ least (spec.directed name input (view.expr e.now) (view_env here.now)).faults) }
{
    match input {
        Some(false) => output_fault(alloc, e, here),
        Some(true) => expr_fault(alloc, e, here, false),
        None => expr_fault(alloc, e, here, false),
    }
}

/// The direction of a port, if it has one.
fn direction(port: Option<Port<'_>>) -> Option<bool>
    ensures { result ≡ input_of (option_map port_of port.entry) }
{
    match port {
        None => None,
        Some(p) => p.input,
    }
}

/// The first rule that the connection of a port breaks.
fn port_fault(
    alloc: Global,
    port: Option<Port<'_>>,
    e: &Option<Expr>,
    here: &View<'_, '_>,
) -> Result<Option<Fault>, AllocError>
    requires { Given IsExpr (view.option view.expr e.now) }
    ensures { IfOk result (λ f. f ≡ least (spec.connected (option_map port_of port.entry) (view.option view.expr e.now) (view_env here.now)).faults) }
{
    match e {
        None => Ok(None),
        Some(e) => directed_fault(alloc, direction(port), e, here),
    }
}

/// The port at this place of the header, if there is one.
fn port_at<'a>(known: Option<&Interface<'a>>, n: usize) -> Option<Port<'a>>
    ensures { (m : Option tree.Module) → IsKnown known.entry m → option_map port_of result ≡ slice_get (spec.module_ports m) n }
{
    match known {
        None => None,
        Some(i) => i.ports.list.get(n).copied(),
    }
}

/// The port of this name, if there is one.
fn port_named<'a>(known: Option<&Interface<'a>>, name: &'a [u8]) -> Option<Port<'a>>
    ensures { (m : Option tree.Module) → IsKnown known.entry m → option_map port_of result ≡ find_port (spec.module_ports m) name.now }
{
    match known {
        None => None,
        Some(i) => i.ports.find(name),
    }
}

/// Whether there aren't as many connections by order as ports.
fn has_wrong_count(known: Option<&Interface<'_>>, count: usize) -> bool
    ensures { (m : Option tree.Module) → IsKnown known.entry m → result ≡ spec.has_wrong_count m count }
{
    match known {
        None => false,
        Some(i) => i.ports.list.len() != count,
    }
}

/// The names of the ports, if anything is known of the module.
fn port_names<'f, 'a>(known: Option<&'f Interface<'a>>) -> Option<&'f NameMap<'a, Option<bool>>>
    ensures { (m : Option tree.Module) → IsKnown known.entry m → (name : List ℕ) → is_known result name ≡ spec.is_port m name }
{
    match known {
        None => None,
        Some(i) => Some(&i.ports.inputs),
    }
}

/// The first rule that the values of connections by order break.
fn ordered_fault(
    alloc: Global,
    known: Option<&Interface<'_>>,
    parts: &[Option<Expr>],
    here: &View<'_, '_>,
) -> Result<Option<Fault>, AllocError>
    requires { Each (Given IsExpr) (map (view.option view.expr) parts.now) }
    ensures { (m : Option tree.Module) → IsKnown known.entry m
        → IfOk result (λ f. f ≡ least (spec.connected_by_order (spec.module_ports m) 0 (map (view.option view.expr) parts.now) (view_env here.now)).faults) }
{
    let mut fault = None;
    for n in 0..parts.len() {
        let found = port_fault(alloc, port_at(known, n), &parts[n], here)?;
        fault = first_of(fault, found);
    }
    Ok(fault)
}

/// The first rule that the values of connections by names break.
fn values_fault<'a>(
    alloc: Global,
    known: Option<&Interface<'a>>,
    parts: &'a [NamedConnection],
    here: &View<'_, '_>,
) -> Result<Option<Fault>, AllocError>
    requires { Each IsConnection (map view.named_connection parts.now) }
    ensures { (m : Option tree.Module) → IsKnown known.entry m
        → IfOk result (λ f. f ≡ least (spec.connected_by_name (spec.module_ports m) (map view.named_connection parts.now) (view_env here.now)).faults) }
{
    let mut fault = None;
    for part in parts {
        let port = port_named(known, part.name.text.as_slice());
        let found = port_fault(alloc, port, &part.value, here)?;
        fault = first_of(fault, found);
    }
    Ok(fault)
}

/// The first rule that connections by order break.
fn order_fault(
    alloc: Global,
    name: &Name,
    known: Option<&Interface<'_>>,
    parts: &[Option<Expr>],
    here: &View<'_, '_>,
) -> Result<Option<Fault>, AllocError>
    requires { Each (Given IsExpr) (map (view.option view.expr) parts.now) }
    ensures { (m : Option tree.Module) → IsKnown known.entry m
        → IfOk result (λ f. f ≡ least (spec.said_connections m (view.name name.now) (tree.ByOrder (map (view.option view.expr) parts.now)) (view_env here.now)).faults) }
{
    let wrong = fault_if(
        has_wrong_count(known, parts.len()),
        Rule::PortCount,
        name.place,
    );
    let found = ordered_fault(alloc, known, parts, here)?;
    Ok(first_of(wrong, found))
}

/// The first rule that connections by names break.
fn names_fault<'a>(
    alloc: Global,
    name: &Name,
    known: Option<&Interface<'a>>,
    parts: &'a [NamedConnection],
    here: &View<'_, '_>,
) -> Result<Option<Fault>, AllocError>
    requires { Each IsConnection (map view.named_connection parts.now) }
    ensures { (m : Option tree.Module) → IsKnown known.entry m
        → IfOk result (λ f. f ≡ least (spec.said_connections m (view.name name.now) (tree.ByName (map view.named_connection parts.now)) (view_env here.now)).faults) }
{
    let names = name_fault(alloc, port_names(known), parts)?;
    let found = values_fault(alloc, known, parts, here)?;
    Ok(first_of(names, found))
}

/// The first rule that the connections of an instance of this name break.
pub(crate) fn connections_fault<'a>(
    alloc: Global,
    name: &Name,
    known: Option<&Interface<'a>>,
    connections: &'a Connections,
    here: &View<'_, '_>,
) -> Result<Option<Fault>, AllocError>
    requires { AreConnections (view.connections connections.now) }
    ensures { (m : Option tree.Module) → IsKnown known.entry m
        → IfOk result (λ f. f ≡ least (spec.said_connections m (view.name name.now) (view.connections connections.now) (view_env here.now)).faults) }
{
    match connections {
        Connections::Unconnected => Ok(None),
        Connections::ByOrder(parts) => order_fault(alloc, name, known, parts, here),
        Connections::ByName(parts) => names_fault(alloc, name, known, parts, here),
    }
}

/// The first rule that the connections of any of these instances break.
fn all_fault<'a>(
    alloc: Global,
    known: Option<&Interface<'a>>,
    instances: &'a [Instance],
    here: &View<'_, '_>,
) -> Result<Option<Fault>, AllocError>
    requires { Each IsInstance (map view.instance instances.now) }
    ensures { (m : Option tree.Module) → IsKnown known.entry m
        → IfOk result (λ f. f ≡ least (flat_map (instance_faults m (view_env here.now)) (map view.instance instances.now))) }
{
    let mut fault = None;
    for i in instances {
        let found = connections_fault(alloc, &i.name, known, &i.connections, here)?;
        fault = first_of(fault, found);
    }
    Ok(fault)
}

/// The first rule that an item of instances breaks (12.1.2): `known` is what is known of the module that it names.
/// - `UnknownModule`: the text has no such module.
/// - `DuplicateName`, `PortCount`, `UnknownPort`: a name that is connected twice, a wrong number of connections by order, an unknown name.
/// - `WrongKind`: what is connected to an output isn't a net.
/// - and what the expressions break.
pub(crate) fn instances_fault<'a>(
    alloc: Global,
    known: Option<&Interface<'a>>,
    t: &'a Instances,
    here: &View<'_, '_>,
) -> Result<Option<Fault>, AllocError>
    requires { AreInstances (view.instances t.now) }
    ensures { (source : tree.Source) (around : spec.Around) → IsKnown known.entry (find_module source t.now.of.text) → named around.env ≡ named (view_env here.now)
        → IfOk result (λ f. f ≡ least (spec.instances_said source around (view.instances t.now)).faults) }
{
    let missing = fault_if(known.is_none(), Rule::UnknownModule, t.of.place);
    let overrides = overrides_fault(alloc, &t.of, known, &t.overrides, here)?;
    let connections = all_fault(alloc, known, &t.instances, here)?;
    Ok(first_of(first_of(missing, overrides), connections))
}

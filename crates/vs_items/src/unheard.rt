//! Processes that call functions which read signals that they don't name themselves: what a function reads wakes nobody (IEEE 1364-2005, 6.1, 9.7.5 and
//! 10.4.4).

ghost use Rattle.std.specs.Prelude.{◌≡◌, [], ◌∷◌, IfOk, flat_map, map};
ghost use Rattle.vs_ast.specs.Views as view;
ghost use Rattle.vs_const.specs.Faults.{least};
ghost use Rattle.vs_elaborated.specs.Environments.{named};
ghost use Rattle.vs_elaborated.specs.Unheard as spec;
ghost use Rattle.vs_grammar.specs.Trees as tree;
ghost use Rattle.vs_items.specs.Unheard.{scope_unheard};
ghost use Rattle.vs_scope.specs.Contents.{contents_header, contents_items};
ghost use Rattle.vs_scope.specs.Frames.{view_env};

use std::alloc::{AllocError, Global};
use vs_ast::{
    Assign, Connections, Declarator, Expr, Header, Instance, Instances, Item, NamedConnection,
    Signals,
};
use vs_bodies::{block_unheard, value_unheard};
use vs_const::{Fault, first_of};
use vs_scope::{BlockItems, Contents, View, is_reg};

/// The fault of an assign at this place of this value, if there is one.
fn given_unheard(
    alloc: Global,
    place: u32,
    e: &Option<Expr>,
    here: &View<'_, '_>,
) -> Result<Option<Fault>, AllocError>
    ensures { IfOk result (λ f. f ≡ least (spec.value_unheard place (named (view_env here.now)) (view.option view.expr e.now))) }
{
    match e {
        None => Ok(None),
        Some(e) => value_unheard(alloc, place, e, here),
    }
}

/// The first fault of the assigns of declared nets at this place.
fn declarators_unheard(
    alloc: Global,
    place: u32,
    names: &[Declarator],
    here: &View<'_, '_>,
) -> Result<Option<Fault>, AllocError>
    ensures { IfOk result (λ f. f ≡ least (flat_map (λ (d : tree.Declarator). spec.value_unheard place (named (view_env here.now)) d.value) (map view.declarator names.now))) }
{
    let mut fault = None;
    for d in names {
        let found = given_unheard(alloc, place, &d.value, here)?;
        fault = first_of(fault, found);
    }
    Ok(fault)
}

/// The same of a declaration; values of variables are those of initial processes.
fn signals_unheard(
    alloc: Global,
    s: &Signals,
    here: &View<'_, '_>,
) -> Result<Option<Fault>, AllocError>
    ensures { IfOk result (λ f. f ≡ least (spec.signals_unheard (named (view_env here.now)) (view.signals s.now))) }
{
    if is_reg(s.kind) {
        return Ok(None);
    }
    declarators_unheard(alloc, s.place, &s.names, here)
}

/// The first fault of the assigns of an item at this place.
fn assigns_unheard(
    alloc: Global,
    place: u32,
    assigns: &[Assign],
    here: &View<'_, '_>,
) -> Result<Option<Fault>, AllocError>
    ensures { IfOk result (λ f. f ≡ least (spec.item_unheard (named (view_env here.now)) (tree.AssignsItem place (map view.assign assigns.now)))) }
{
    let mut fault = None;
    for a in assigns {
        let found = value_unheard(alloc, place, &a.value, here)?;
        fault = first_of(fault, found);
    }
    Ok(fault)
}

/// The first fault of the assigns of ports that are connected by order.
fn ordered_unheard(
    alloc: Global,
    place: u32,
    parts: &[Option<Expr>],
    here: &View<'_, '_>,
) -> Result<Option<Fault>, AllocError>
    ensures { IfOk result (λ f. f ≡ least (spec.connections_unheard place (named (view_env here.now)) (tree.ByOrder (map (view.option view.expr) parts.now)))) }
{
    let mut fault = None;
    for part in parts {
        let found = given_unheard(alloc, place, part, here)?;
        fault = first_of(fault, found);
    }
    Ok(fault)
}

/// The first fault of the assigns of ports that are connected by name.
fn named_unheard(
    alloc: Global,
    place: u32,
    parts: &[NamedConnection],
    here: &View<'_, '_>,
) -> Result<Option<Fault>, AllocError>
    ensures { IfOk result (λ f. f ≡ least (spec.connections_unheard place (named (view_env here.now)) (tree.ByName (map view.named_connection parts.now)))) }
{
    let mut fault = None;
    for part in parts {
        let found = given_unheard(alloc, place, &part.value, here)?;
        fault = first_of(fault, found);
    }
    Ok(fault)
}

/// The first fault of the assigns of an instance's ports (12.3.9.2).
fn connections_unheard(
    alloc: Global,
    place: u32,
    c: &Connections,
    here: &View<'_, '_>,
) -> Result<Option<Fault>, AllocError>
    ensures { IfOk result (λ f. f ≡ least (spec.connections_unheard place (named (view_env here.now)) (view.connections c.now))) }
{
    match c {
        Connections::Unconnected => Ok(None),
        Connections::ByOrder(parts) => ordered_unheard(alloc, place, parts, here),
        Connections::ByName(parts) => named_unheard(alloc, place, parts, here),
    }
}

/// The same of instances at this place.
fn each_unheard(
    alloc: Global,
    place: u32,
    instances: &[Instance],
    here: &View<'_, '_>,
) -> Result<Option<Fault>, AllocError>
    ensures { IfOk result (λ f. f ≡ least (flat_map (λ (i : tree.Instance). spec.connections_unheard place (named (view_env here.now)) i.connections) (map view.instance instances.now))) }
{
    let mut fault = None;
    for i in instances {
        let found = connections_unheard(alloc, place, &i.connections, here)?;
        fault = first_of(fault, found);
    }
    Ok(fault)
}

/// The same of an item of instances.
fn instances_unheard(
    alloc: Global,
    t: &Instances,
    here: &View<'_, '_>,
) -> Result<Option<Fault>, AllocError>
    ensures { IfOk result (λ f. f ≡ least (spec.item_unheard (named (view_env here.now)) (tree.InstancesItem (view.instances t.now)))) }
{
    each_unheard(alloc, t.of.place, &t.instances, here)
}

/// The first fault of the processes of an item.
fn item_unheard(
    alloc: Global,
    item: &Item,
    here: &View<'_, '_>,
) -> Result<Option<Fault>, AllocError>
    ensures { IfOk result (λ f. f ≡ least (spec.item_unheard (named (view_env here.now)) (view.item item.now))) }
{
    match item {
        Item::Signals(s) => signals_unheard(alloc, s, here),
        Item::Assigns { place, assigns } => assigns_unheard(alloc, *place, assigns, here),
        Item::Always(b) => block_unheard(alloc, b, here),
        Item::Instances(t) => instances_unheard(alloc, t, here),
        _ => Ok(None),
    }
}

/// The first fault of the processes of these items.
fn items_unheard(
    alloc: Global,
    items: &[Item],
    here: &View<'_, '_>,
) -> Result<Option<Fault>, AllocError>
    ensures { IfOk result (λ f. f ≡ least (flat_map (spec.item_unheard (named (view_env here.now))) (map view.item items.now))) }
{
    let mut fault = None;
    for item in items {
        let found = item_unheard(alloc, item, here)?;
        fault = first_of(fault, found);
    }
    Ok(fault)
}

/// The first fault of the assigns of declared ports.
fn declared_unheard(
    alloc: Global,
    ports: &[Signals],
    here: &View<'_, '_>,
) -> Result<Option<Fault>, AllocError>
    ensures { IfOk result (λ f. f ≡ least (flat_map (spec.signals_unheard (named (view_env here.now))) (map view.signals ports.now))) }
{
    let mut fault = None;
    for s in ports {
        let found = signals_unheard(alloc, s, here)?;
        fault = first_of(fault, found);
    }
    Ok(fault)
}

/// The same of a header.
fn ports_unheard(
    alloc: Global,
    header: &Header,
    here: &View<'_, '_>,
) -> Result<Option<Fault>, AllocError>
    ensures { IfOk result (λ f. f ≡ least (spec.ports_unheard (named (view_env here.now)) (view.header header.now))) }
{
    match header {
        Header::Declared(ports) => declared_unheard(alloc, ports, here),
        _ => Ok(None),
    }
}

/// The same of a scope, whose header may have none.
fn header_unheard(
    alloc: Global,
    contents: Contents<'_>,
    here: &View<'_, '_>,
) -> Result<Option<Fault>, AllocError>
    ensures { IfOk result (λ f. f ≡ least (spec.ports_unheard (named (view_env here.now)) (contents_header contents.entry))) }
{
    match contents {
        Contents::Module(m) => ports_unheard(alloc, &m.header, here),
        Contents::Block(_) => Ok(None),
    }
}

/// The first fault of the processes of the one item of a block.
fn one_unheard(alloc: Global, item: &Item, here: &View<'_, '_>) -> Result<Option<Fault>, AllocError>
    ensures { IfOk result (λ f. f ≡ least (flat_map (spec.item_unheard (named (view_env here.now))) (view.item item.now ∷ []))) }
{
    item_unheard(alloc, item, here)
}

/// The first fault of the processes of the items of a scope.
fn body_unheard(
    alloc: Global,
    contents: Contents<'_>,
    here: &View<'_, '_>,
) -> Result<Option<Fault>, AllocError>
    ensures { IfOk result (λ f. f ≡ least (flat_map (spec.item_unheard (named (view_env here.now))) (contents_items contents.entry))) }
{
    match contents {
        Contents::Module(m) => items_unheard(alloc, &m.items, here),
        Contents::Block(BlockItems::One(item)) => one_unheard(alloc, item, here),
        Contents::Block(BlockItems::Many(items)) => items_unheard(alloc, items, here),
    }
}

/// The first assign or block with `@*` of a scope that calls a function which reads a signal that the process doesn't name outside of calls: `FunctionRule`,
/// where the process begins. An error is want of memory.
pub(crate) fn contents_unheard(
    alloc: Global,
    contents: Contents<'_>,
    here: &View<'_, '_>,
) -> Result<Option<Fault>, AllocError>
    ensures { IfOk result (λ f. f ≡ least (scope_unheard (named (view_env here.now)) contents.entry)) }
{
    let header = header_unheard(alloc, contents, here)?;
    let items = body_unheard(alloc, contents, here)?;
    Ok(first_of(header, items))
}

//! The rules of a module's header (IEEE 1364-2005, 12.3.3).

ghost use Rattle.std.specs.Prelude.{◌≡◌, ◌||◌, List, ℕ, false, [], not, IfOk, OnOk, map, flat_map};
ghost use Rattle.vs_ast.specs.Views as view;
ghost use Rattle.vs_grammar.specs.Shapes.{is_port_kind};
ghost use Rattle.vs_const.specs.Faults.{least, fault_if};
ghost use Rattle.vs_elaborated.specs.Ports as spec;
ghost use Rattle.vs_scope.specs.Headers.{opposed_faults, undirected_faults};
ghost use Rattle.vs_maps.specs.Sets.{has};

use std::alloc::{AllocError, Global};
use vs_ast::{Header, Item, Module, Name, SignalKind, Signals};
use vs_const::{Fault, Rule, fault_if, first_of};
use vs_maps::NameSet;

/// Whether a declaration is one of ports.
fn is_port_kind(kind: SignalKind) -> bool
    ensures { result ≡ is_port_kind (view.signal_kind kind) }
{
    match kind {
        SignalKind::Reg | SignalKind::Wire => false,
        _ => true,
    }
}

/// The names of a header's plain list, and the first that stands there a second time.
fn repeated_name<'a>(
    names: &'a [Name],
    known: &mut NameSet<'a>,
) -> Result<Option<Fault>, AllocError>
    requires { (name : List ℕ) → has known.old name ≡ false }
    ensures fault { IfOk result (λ f. f ≡ least (spec.repeated [] (map view.name names.now))) }
    ensures known { OnOk result ((name : List ℕ) → has known.new name ≡ spec.is_named name (map view.name names.now)) }
{
    let mut fault = None;
    for name in names {
        let text = name.text.as_slice();
        let again = known.contains(text);
        fault = first_of(fault, fault_if(again, Rule::DuplicateName, name.place));
        known.add(text)?;
    }
    Ok(fault)
}

/// The names that a declaration gives a direction, and the first of them that the header's list lacks.
fn direct<'a>(
    known: &NameSet<'_>,
    directed: &mut NameSet<'a>,
    signals: &'a Signals,
) -> Result<Option<Fault>, AllocError>
    ensures fault { IfOk result (λ f. f ≡ least (opposed_faults (has known.now) (spec.directions_in (view.signals signals.now)))) }
    ensures directed { OnOk result ((name : List ℕ) → has directed.new name ≡ (spec.has_direction (spec.directions_in (view.signals signals.now)) name || has directed.old name)) }
{
    let mut fault = None;
    for d in &signals.names {
        let text = d.name.text.as_slice();
        let unknown = !known.contains(text);
        fault = first_of(fault, fault_if(unknown, Rule::UnknownPort, d.name.place));
        directed.add(text)?;
    }
    Ok(fault)
}

/// The names that an item gives a direction, and the first of them that the header's list lacks.
fn direct_item<'a>(
    known: &NameSet<'_>,
    directed: &mut NameSet<'a>,
    item: &'a Item,
) -> Result<Option<Fault>, AllocError>
    ensures fault { IfOk result (λ f. f ≡ least (opposed_faults (has known.now) (spec.item_directions (view.item item.now)))) }
    ensures directed { OnOk result ((name : List ℕ) → has directed.new name ≡ (spec.has_direction (spec.item_directions (view.item item.now)) name || has directed.old name)) }
{
    match item {
        Item::Signals(s) if is_port_kind(s.kind) => direct(known, directed, s),
        _ => Ok(None),
    }
}

/// The names that a module's body gives a direction, and the first of them that the header's list lacks.
fn direct_items<'a>(
    known: &NameSet<'_>,
    directed: &mut NameSet<'a>,
    items: &'a [Item],
) -> Result<Option<Fault>, AllocError>
    requires { (name : List ℕ) → has directed.old name ≡ false }
    ensures fault { IfOk result (λ f. f ≡ least (opposed_faults (has known.now) (flat_map spec.item_directions (map view.item items.now)))) }
    ensures directed { OnOk result ((name : List ℕ) → has directed.new name ≡ spec.has_direction (flat_map spec.item_directions (map view.item items.now)) name) }
{
    let mut fault = None;
    for item in items {
        let found = direct_item(known, directed, item)?;
        fault = first_of(fault, found);
    }
    Ok(fault)
}

/// The first name of a header's plain list that the body gives no direction.
fn undirected_name(directed: &NameSet<'_>, names: &[Name]) -> Option<Fault>
    ensures { result ≡ least (undirected_faults (has directed.now) (map view.name names.now)) }
{
    let mut fault = None;
    for name in names {
        let missing = !directed.contains(name.text.as_slice());
        fault = first_of(fault, fault_if(missing, Rule::UnknownName, name.place));
    }
    fault
}

/// The names of a header's plain list.
fn plain_names<'a>(header: &'a Header) -> &'a [Name]
    ensures { map view.name result.now ≡ spec.plain_names (view.header header.now) }
{
    match header {
        Header::Plain(names) => names.as_slice(),
        _ => &[],
    }
}

/// The first rule that a module's header breaks: `UnknownName`, a name of its plain list has no direction in the body; `DuplicateName`, a name stands there a second time;
/// `UnknownPort`, the body gives a direction to a name that isn't there.
pub(crate) fn header_fault(alloc: Global, whole: &Module) -> Result<Option<Fault>, AllocError>
    ensures { IfOk result (λ f. f ≡ least (spec.header_faults (view.module_tree whole.now))) }
{
    let names = plain_names(&whole.header);
    let mut known = NameSet::new(alloc);
    let repeated = repeated_name(names, &mut known)?;
    let mut directed = NameSet::new(alloc);
    let opposed = direct_items(&known, &mut directed, whole.items.as_slice())?;
    let undirected = undirected_name(&directed, names);
    Ok(first_of(repeated, first_of(undirected, opposed)))
}

//! How many processes the pieces of a scope have, initial ones among them (IEEE 1364-2005, 6.1, 6.2.1, 9.9 and 12.3.9.2).

ghost use Rattle.std.specs.Prelude.{◌≡◌, ◌++◌, [], ◌∷◌, ℕ, List, Some, IfOk, OnOk, map, option_map, length, if◌then◌else◌};
ghost use Rattle.vs_grammar.specs.Trees as tree;
ghost use Rattle.vs_ast.specs.Views as view;
ghost use Rattle.vs_elaborated.specs.Limits.{Limits};
ghost use Rattle.vs_elaborated.specs.Environments.{Env};
ghost use Rattle.vs_elaborated.specs.Generate.{Made};
ghost use Rattle.vs_elaborated.specs.Parameters.{Override};
ghost use Rattle.vs_elaborated.specs.Pieces.{Piece, all_said};
ghost use Rattle.vs_elaborated.specs.Surveys as survey;
ghost use Rattle.vs_elaborated.specs.Surveys.{piece_place, piece_processes};
ghost use Rattle.vs_elaborated.specs.Signals as signals;
ghost use Rattle.vs_elaborated.specs.Instances as spec;
ghost use Rattle.vs_elaborated.specs.Ports as spec_ports;
ghost use Rattle.vs_scope.specs.Contents.{contents_header, contents_items};
ghost use Rattle.vs_maps.specs.MapViews.{pairs};
ghost use Rattle.vs_items.specs.Counts.{HasNames, IsCounted};
ghost use Rattle.vs_items.specs.Interfaces.{IsInterface};
ghost use Rattle.vs_items.specs.Modules.{AreOf};
ghost use Rattle.vs_items.specs.PortTables.{ArePorts};
ghost use Rattle.vs_items.specs.Ports.{port_of};

use crate::interfaces::Interface;
use crate::modules::{Known, seen_by};
use crate::noted::note;
use crate::outputs::is_target;
use crate::ports::{Port, Ports};
use std::alloc::{AllocError, Global};
use vs_ast::{
    Assign, Connections, Declarator, Expr, Header, Instance, Instances, Item, NamedConnection,
    SignalKind, Signals,
};
use vs_const::{Fault, Rule};
use vs_maps::NameMap;
use vs_scope::{BlockItems, Contents, is_reg};

/// A count of processes, which goes up to the most that there may be.
#[derive(Clone, Copy)]
pub(crate) struct Count {
    pub most: u32,
    pub total: u32,
    /// `TooManyProcesses`: the first piece with which there are too many.
    pub over: Option<Fault>,
}

impl Count {
    /// So many processes more, of a piece that begins at this place.
    pub(crate) fn add(&mut self, count: usize, place: u32)
        ensures most { self.new.most ≡ self.old.most }
        ensures counted { (before : ℕ) (ps : List Piece) (p : Piece) → IsCounted self.old before ps → piece_processes p ≡ count → piece_place p ≡ place → IsCounted self.new before (ps ++ p ∷ []) }
    {
        if self.over.is_some() {
            return;
        }
        let left = self.most.saturating_sub(self.total);
        if (left as usize) < count {
            self.over = Some(Fault {
                rule: Rule::TooManyProcesses,
                place,
            });
        } else {
            self.total += count as u32;
        }
    }
}

/// Where the process of a declared value begins: an assign where the declaration does, and an initial process at the name.
fn value_place(d: &Declarator, kind: SignalKind, place: u32) -> u32
    ensures { result ≡ (if signals.is_reg (view.signal_kind kind) then d.now.name.place else place) }
{
    if is_reg(kind) { d.name.place } else { place }
}

/// The process of a declared name of this kind, if it has a value.
fn count_declarator(d: &Declarator, kind: SignalKind, place: u32, count: &mut Count)
    ensures most { count.new.most ≡ count.old.most }
    ensures counted { (env : Env) (before : ℕ) (ps : List Piece) → IsCounted count.old before ps → IsCounted count.new before (ps ++ (survey.declarator_said env place (view.signal_kind kind) (view.declarator d.now)).pieces) }
{
    let at = value_place(d, kind, place);
    if d.value.is_some() {
        count.add(1, at);
    }
}

/// The processes of the names of a declaration of this kind that begins at this place: each that has a value has one.
fn count_declarators(names: &[Declarator], kind: SignalKind, place: u32, count: &mut Count)
    ensures most { count.new.most ≡ count.old.most }
    ensures counted { (env : Env) (before : ℕ) (ps : List Piece) → IsCounted count.old before ps → IsCounted count.new before (ps ++ (all_said (survey.declarator_said env place (view.signal_kind kind)) (map view.declarator names.now)).pieces) }
{
    for d in names {
        count_declarator(d, kind, place, count);
    }
}

/// The processes of a declaration.
fn count_signals(s: &Signals, count: &mut Count)
    ensures most { count.new.most ≡ count.old.most }
    ensures counted { (env : Env) (before : ℕ) (ps : List Piece) → IsCounted count.old before ps → IsCounted count.new before (ps ++ (survey.signals_said env (view.signals s.now)).pieces) }
{
    count_declarators(&s.names, s.kind, s.place, count);
}

/// The processes of declarations of ports.
fn count_ports(ports: &[Signals], count: &mut Count)
    ensures most { count.new.most ≡ count.old.most }
    ensures counted { (env : Env) (before : ℕ) (ps : List Piece) → IsCounted count.old before ps → IsCounted count.new before (ps ++ (all_said (survey.signals_said env) (map view.signals ports.now)).pieces) }
{
    for s in ports {
        count_signals(s, count);
    }
}

/// The processes of a header.
fn count_values(header: &Header, count: &mut Count)
    ensures most { count.new.most ≡ count.old.most }
    ensures counted { (env : Env) (before : ℕ) (ps : List Piece) → IsCounted count.old before ps → IsCounted count.new before (ps ++ (survey.ports_said env (view.header header.now)).pieces) }
{
    match header {
        Header::Declared(ports) => count_ports(ports, count),
        _ => {}
    }
}

/// The processes of a scope's header, if it has one.
pub(crate) fn count_header(contents: Contents<'_>, count: &mut Count)
    ensures most { count.new.most ≡ count.old.most }
    ensures counted { (env : Env) (before : ℕ) (ps : List Piece) → IsCounted count.old before ps → IsCounted count.new before (ps ++ (survey.ports_said env (contents_header contents.entry)).pieces) }
{
    match contents {
        Contents::Module(m) => count_values(&m.header, count),
        Contents::Block(_) => {}
    }
}

/// The processes of the assigns of an item that begins at this place.
pub(crate) fn count_assigns(assigns: &[Assign], place: u32, count: &mut Count)
    ensures most { count.new.most ≡ count.old.most }
    ensures counted { (env : Env) (before : ℕ) (ps : List Piece) → IsCounted count.old before ps → IsCounted count.new before (ps ++ (all_said (survey.assign_said env place) (map view.assign assigns.now)).pieces) }
{
    for _a in assigns {
        count.add(1, place);
    }
}

/// One, or none.
fn one_if(b: bool) -> usize
    ensures { result ≡ (if b then 1 else 0) }
{
    if b { 1 } else { 0 }
}

/// Whether an expression that is connected to a port has a process: any one at an input, and a target at an output.
fn has_direction(port: Port<'_>, e: &Expr) -> bool
    ensures { (env : Env) → length (spec.directed (port_of port.entry).name (port_of port.entry).input (view.expr e.now) env).connections ≡ (if result then 1 else 0) }
{
    match port.input {
        None => false,
        Some(true) => true,
        Some(false) => is_target(e),
    }
}

/// Whether what is connected to a port has a process.
fn has_process(port: Option<Port<'_>>, e: &Option<Expr>) -> bool
    ensures { (env : Env) → length (spec.connected (option_map port_of port.entry) (view.option view.expr e.now) env).connections ≡ (if result then 1 else 0) }
{
    match e {
        None => false,
        Some(e) => match port {
            None => false,
            Some(p) => has_direction(p, e),
        },
    }
}

/// The processes of connections by order.
fn ordered_count(ports: &Ports<'_>, parts: &[Option<Expr>]) -> usize
    ensures { (ps : List spec_ports.Port) (env : Env) → ArePorts ports.now ps → result ≡ length (spec.connected_by_order ps 0 (map (view.option view.expr) parts.now) env).connections }
{
    let mut count = 0;
    for n in 0..parts.len() {
        count += one_if(has_process(ports.list.get(n).copied(), &parts[n]));
    }
    count
}

/// Notes the name of a port whose connection has a process.
fn note_connected<'a>(
    names: &mut NameMap<'a, ()>,
    ports: &Ports<'a>,
    part: &'a NamedConnection,
) -> Result<(), AllocError>
    ensures { (ps : List spec_ports.Port) (env : Env) (cs : List tree.NamedConnection) → ArePorts ports.now ps → HasNames (pairs names.old) (spec.connected_by_name ps cs env).connections
        → OnOk result (HasNames (pairs names.new) (spec.connected_by_name ps (cs ++ view.named_connection part.now ∷ []) env).connections) }
{
    let name = part.name.text.as_slice();
    if has_process(ports.find(name), &part.value) {
        note(names, name, ())?;
    }
    Ok(())
}

/// The names of the ports whose connections have a process.
fn connected_names<'a>(
    alloc: Global,
    ports: &Ports<'a>,
    parts: &'a [NamedConnection],
) -> Result<NameMap<'a, ()>, AllocError>
    ensures { (ps : List spec_ports.Port) (env : Env) → ArePorts ports.now ps
        → IfOk result (λ m. HasNames (pairs m) (spec.connected_by_name ps (map view.named_connection parts.now) env).connections) }
{
    let mut names = NameMap::new(alloc);
    for part in parts {
        note_connected(&mut names, ports, part)?;
    }
    Ok(names)
}

/// The processes of connections by names; of several of one name the first is counted that has one.
fn named_count<'a>(
    alloc: Global,
    ports: &Ports<'a>,
    parts: &'a [NamedConnection],
) -> Result<usize, AllocError>
    ensures { (ps : List spec_ports.Port) (env : Env) → ArePorts ports.now ps
        → IfOk result (λ n. n ≡ length (spec.in_port_order ps (spec.connected_by_name ps (map view.named_connection parts.now) env).connections)) }
{
    let names = connected_names(alloc, ports, parts)?;
    let mut count = 0;
    for port in &ports.list {
        count += one_if(names.get(port.name).is_some());
    }
    Ok(count)
}

/// The processes of the connections of an instance, whose module is seen as this.
fn connection_count<'a>(
    alloc: Global,
    seen: &Interface<'a>,
    connections: &'a Connections,
) -> Result<usize, AllocError>
    ensures { (m : tree.Module) (name : tree.Name) (env : Env) → IsInterface seen.now m
        → IfOk result (λ n. n ≡ length (spec.said_connections (Some m) name (view.connections connections.now) env).connections) }
{
    match connections {
        Connections::Unconnected => Ok(0),
        Connections::ByOrder(parts) => Ok(ordered_count(&seen.ports, parts)),
        Connections::ByName(parts) => named_count(alloc, &seen.ports, parts),
    }
}

/// The processes of instances of a module that is seen as this; their item begins at this place.
fn count_all<'a>(
    alloc: Global,
    seen: &Interface<'a>,
    instances: &'a [Instance],
    place: u32,
    count: &mut Count,
) -> Result<(), AllocError>
    ensures most { OnOk result (count.new.most ≡ count.old.most) }
    ensures counted { (m : tree.Module) (around : spec.Around) (os : List Override) (before : ℕ) (ps : List Piece) → IsInterface seen.now m → IsCounted count.old before ps
        → OnOk result (IsCounted count.new before (ps ++ (all_said (spec.instance_said around place (Some m) os) (map view.instance instances.now)).pieces)) }
{
    for i in instances {
        let n = connection_count(alloc, seen, &i.connections)?;
        count.add(n, place);
    }
    Ok(())
}

/// The processes of the instances of an item: none where the text has no such module. An error is want of memory.
pub(crate) fn count_instances<'a>(
    alloc: Global,
    modules: &NameMap<'a, Known<'a>>,
    t: &'a Instances,
    count: &mut Count,
) -> Result<(), AllocError>
    ensures most { OnOk result (count.new.most ≡ count.old.most) }
    ensures counted { (source : tree.Source) (around : spec.Around) (before : ℕ) (ps : List Piece) → AreOf modules.now source → IsCounted count.old before ps
        → OnOk result (IsCounted count.new before (ps ++ (spec.instances_said source around (view.instances t.now)).pieces)) }
{
    match seen_by(modules, &t.of) {
        None => Ok(()),
        Some(seen) => count_all(alloc, seen, &t.instances, t.of.place, count),
    }
}

/// The processes of an item, but for those of its generate blocks. An error is want of memory.
fn count_item<'a>(
    alloc: Global,
    modules: &NameMap<'a, Known<'a>>,
    item: &'a Item,
    count: &mut Count,
) -> Result<(), AllocError>
    ensures most { OnOk result (count.new.most ≡ count.old.most) }
    ensures counted { (limits : Limits) (source : tree.Source) (around : spec.Around) (loops : survey.Loops) (made : Made) (before : ℕ) (ps : List Piece) → AreOf modules.now source → IsCounted count.old before ps
        → OnOk result (IsCounted count.new before (ps ++ (survey.item_said limits source around loops (view.item item.now) made).pieces)) }
{
    match item {
        Item::Signals(s) => {
            count_signals(s, count);
            Ok(())
        }
        Item::Assigns { place, assigns } => {
            count_assigns(assigns, *place, count);
            Ok(())
        }
        Item::Always(b) => {
            count.add(1, b.place);
            Ok(())
        }
        Item::Initial(b) => {
            count.add(1, b.place);
            Ok(())
        }
        Item::Instances(t) => count_instances(alloc, modules, t, count),
        _ => Ok(()),
    }
}

/// The processes of items.
fn count_items<'a>(
    alloc: Global,
    modules: &NameMap<'a, Known<'a>>,
    items: &'a [Item],
    count: &mut Count,
) -> Result<(), AllocError>
    ensures most { OnOk result (count.new.most ≡ count.old.most) }
    ensures counted { (limits : Limits) (source : tree.Source) (around : spec.Around) (loops : survey.Loops) (made : List Made) (before : ℕ) (ps : List Piece) → AreOf modules.now source → length made ≡ length items.now → IsCounted count.old before ps
        → OnOk result (IsCounted count.new before (ps ++ (survey.items_said limits source around loops (map view.item items.now) made).pieces)) }
{
    for item in items {
        count_item(alloc, modules, item, count)?;
    }
    Ok(())
}

/// The processes of all items of a scope, but for those of its generate blocks: what they make is no matter.
pub(crate) fn count_contents<'a>(
    alloc: Global,
    modules: &NameMap<'a, Known<'a>>,
    contents: Contents<'a>,
    count: &mut Count,
) -> Result<(), AllocError>
    ensures most { OnOk result (count.new.most ≡ count.old.most) }
    ensures counted { (limits : Limits) (source : tree.Source) (around : spec.Around) (loops : survey.Loops) (made : List Made) (before : ℕ) (ps : List Piece) → AreOf modules.now source → length made ≡ length (contents_items contents.entry) → IsCounted count.old before ps
        → OnOk result (IsCounted count.new before (ps ++ (survey.items_said limits source around loops (contents_items contents.entry) made).pieces)) }
{
    match contents {
        Contents::Module(m) => count_items(alloc, modules, &m.items, count),
        Contents::Block(BlockItems::One(item)) => count_one(alloc, modules, item, count),
        Contents::Block(BlockItems::Many(items)) => count_items(alloc, modules, items, count),
    }
}

/// The processes of the one item of a block.
fn count_one<'a>(
    alloc: Global,
    modules: &NameMap<'a, Known<'a>>,
    item: &'a Item,
    count: &mut Count,
) -> Result<(), AllocError>
    ensures most { OnOk result (count.new.most ≡ count.old.most) }
    ensures counted { (limits : Limits) (source : tree.Source) (around : spec.Around) (loops : survey.Loops) (made : List Made) (before : ℕ) (ps : List Piece) → AreOf modules.now source → length made ≡ 1 → IsCounted count.old before ps
        → OnOk result (IsCounted count.new before (ps ++ (survey.items_said limits source around loops (view.item item.now ∷ []) made).pieces)) }
{
    count_item(alloc, modules, item, count)?;
    Ok(())
}

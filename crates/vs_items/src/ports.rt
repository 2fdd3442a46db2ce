//! The ports of a module, and the parameters that an instance may override (IEEE 1364-2005, 12.2 and 12.3).

ghost use Rattle.std.specs.Prelude.{◌≡◌, ◌++◌, List, Bool, IfOk, OnOk, map, flat_map, option_map};
ghost use Rattle.vs_grammar.specs.Shapes.{is_port_kind};
ghost use Rattle.vs_grammar.specs.Trees as tree;
ghost use Rattle.vs_ast.specs.Views as view;
ghost use Rattle.vs_elaborated.specs.Ports as spec_ports;
ghost use Rattle.vs_elaborated.specs.Ports.{Direction, directions_in, item_directions, header_ports, item_parameters, parameter_names};
ghost use Rattle.vs_elaborated.specs.Signals as spec;
ghost use Rattle.vs_maps.specs.Maps.{Pair};
ghost use Rattle.vs_maps.specs.MapViews.{pairs};
ghost use Rattle.vs_items.specs.Noted.{AreFirst};
ghost use Rattle.vs_items.specs.Ports.{body_parameters, declared_port, name_bytes, named_direction, named_port, port_of, setting_bytes};
ghost use Rattle.vs_items.specs.PortTables.{ArePorts};

use crate::noted::note;
use std::alloc::{AllocError, Global};
use vs_ast::{Header, Item, Module, Name, Parameters, Setting, SignalKind, Signals};
use vs_maps::NameMap;

/// A port of a module: its name, and whether it is an input. A name of a plain header that the body gives no direction has none.
#[derive(Clone, Copy)]
pub(crate) struct Port<'a> {
    pub name: &'a [u8],
    pub input: Option<bool>,
}

/// Whether a declaration is one of ports.
fn is_port_kind(kind: SignalKind) -> bool
    ensures { result ≡ is_port_kind (view.signal_kind kind) }
{
    !matches!(kind, SignalKind::Reg | SignalKind::Wire)
}

/// Whether a declaration is one of inputs.
fn is_input(kind: SignalKind) -> bool
    ensures { result ≡ spec.is_input (view.signal_kind kind) }
{
    matches!(kind, SignalKind::Input | SignalKind::InputWire)
}

/// Gives all names of a declaration its direction, but those that have one.
fn note_signals<'a>(
    directions: &mut NameMap<'a, bool>,
    signals: &'a Signals,
) -> Result<(), AllocError>
    ensures { OnOk result ((all : List (Pair Bool)) → AreFirst (pairs directions.old) all
        → AreFirst (pairs directions.new) (all ++ map named_direction (directions_in (view.signals signals.now)))) }
{
    let input = is_input(signals.kind);
    for declarator in &signals.names {
        note(directions, declarator.name.text.as_slice(), input)?;
    }
    Ok(())
}

/// The same of an item, if it declares ports.
fn note_item<'a>(directions: &mut NameMap<'a, bool>, item: &'a Item) -> Result<(), AllocError>
    ensures { OnOk result ((all : List (Pair Bool)) → AreFirst (pairs directions.old) all
        → AreFirst (pairs directions.new) (all ++ map named_direction (item_directions (view.item item.now)))) }
{
    match item {
        Item::Signals(signals) if is_port_kind(signals.kind) => note_signals(directions, signals),
        _ => Ok(()),
    }
}

/// The directions that a module's body gives to names (IEEE 1364-2005, 12.3.3).
fn body_directions<'a>(alloc: Global, items: &'a [Item]) -> Result<NameMap<'a, bool>, AllocError>
    ensures { IfOk result (λ m. AreFirst (pairs m) (map named_direction (flat_map item_directions (map view.item items.now)))) }
{
    let mut directions = NameMap::new(alloc);
    for item in items {
        note_item(&mut directions, item)?;
    }
    Ok(directions)
}

/// The ports of a plain header, whose directions stand in the body.
fn plain_ports<'a>(
    alloc: Global,
    names: &'a [Name],
    directions: &NameMap<'a, bool>,
) -> Result<Vec<Port<'a>>, AllocError>
    ensures { (ds : List Direction) → AreFirst (pairs directions.now) (map named_direction ds)
        → IfOk result (λ v. map port_of v.items ≡ header_ports (tree.PlainPorts (map view.name names.now)) ds) }
{
    let mut ports = Vec::new(alloc);
    for name in names {
        let name = name.text.as_slice();
        let input = directions.get(name).copied();
        ports.push(Port { name, input })?;
    }
    Ok(ports)
}

/// The ports that one declaration of a header declares.
fn push_ports<'a>(ports: &mut Vec<Port<'a>>, signals: &'a Signals) -> Result<(), AllocError>
    ensures { OnOk result (map port_of ports.new.items ≡ map port_of ports.old.items ++ map declared_port (directions_in (view.signals signals.now))) }
{
    let input = Some(is_input(signals.kind));
    for declarator in &signals.names {
        let name = declarator.name.text.as_slice();
        ports.push(Port { name, input })?;
    }
    Ok(())
}

/// The ports of a header with declarations.
fn declared_ports<'a>(
    alloc: Global,
    declarations: &'a [Signals],
) -> Result<Vec<Port<'a>>, AllocError>
    ensures { IfOk result (λ v. map port_of v.items ≡ map declared_port (flat_map directions_in (map view.signals declarations.now))) }
{
    let mut ports = Vec::new(alloc);
    for signals in declarations {
        push_ports(&mut ports, signals)?;
    }
    Ok(ports)
}

/// The ports of a module, in the order of its header (IEEE 1364-2005, 12.3.1).
pub(crate) fn ports_of<'a>(alloc: Global, of: &'a Module) -> Result<Vec<Port<'a>>, AllocError>
    ensures { IfOk result (λ v. map port_of v.items ≡ spec_ports.ports_of (view.module_tree of.now)) }
{
    match &of.header {
        Header::NoPorts => Ok(Vec::new(alloc)),
        Header::Plain(names) => {
            let directions = body_directions(alloc, &of.items)?;
            plain_ports(alloc, names, &directions)
        }
        Header::Declared(declarations) => declared_ports(alloc, declarations),
    }
}

/// The names that a declaration of parameters declares, unless they are local.
fn push_parameters<'a>(
    names: &mut Vec<&'a [u8]>,
    parameters: &'a Parameters,
) -> Result<(), AllocError>
    ensures { OnOk result (map name_bytes names.new.items ≡ map name_bytes names.old.items ++ parameter_names (view.parameters parameters.now)) }
{
    if parameters.is_local {
        return Ok(());
    }
    push_settings(names, &parameters.settings)
}

/// The names of settings.
fn push_settings<'a>(names: &mut Vec<&'a [u8]>, settings: &'a [Setting]) -> Result<(), AllocError>
    ensures { OnOk result (map name_bytes names.new.items ≡ map name_bytes names.old.items ++ map setting_bytes settings.now) }
{
    for setting in settings {
        names.push(setting.name.text.as_slice())?;
    }
    Ok(())
}

/// The names of the parameters that an item declares, unless they are local.
fn push_item_parameters<'a>(names: &mut Vec<&'a [u8]>, item: &'a Item) -> Result<(), AllocError>
    ensures { OnOk result (map name_bytes names.new.items ≡ map name_bytes names.old.items ++ flat_map parameter_names (item_parameters (view.item item.now))) }
{
    match item {
        Item::Parameters(parameters) => push_parameters(names, parameters),
        _ => Ok(()),
    }
}

/// The names of a header's parameters.
fn push_header<'a>(names: &mut Vec<&'a [u8]>, header: &'a [Parameters]) -> Result<(), AllocError>
    ensures { OnOk result (map name_bytes names.new.items ≡ map name_bytes names.old.items ++ flat_map parameter_names (map view.parameters header.now)) }
{
    for parameters in header {
        push_parameters(names, parameters)?;
    }
    Ok(())
}

/// The names of the parameters that items declare.
fn push_body<'a>(names: &mut Vec<&'a [u8]>, items: &'a [Item]) -> Result<(), AllocError>
    ensures { OnOk result (map name_bytes names.new.items ≡ map name_bytes names.old.items ++ flat_map body_parameters (map view.item items.now)) }
{
    for item in items {
        push_item_parameters(names, item)?;
    }
    Ok(())
}

/// The names of the parameters of a module that may be overridden, in the order of the text (IEEE 1364-2005, 12.2.2).
pub(crate) fn overridable<'a>(alloc: Global, of: &'a Module) -> Result<Vec<&'a [u8]>, AllocError>
    ensures { IfOk result (λ v. map name_bytes v.items ≡ spec_ports.overridable (view.module_tree of.now)) }
{
    let mut names = Vec::new(alloc);
    push_header(&mut names, &of.parameters)?;
    push_body(&mut names, &of.items)?;
    Ok(names)
}

/// The ports of a module in the order of its header, and by name whether the first of each name is an input.
#[derive(Drop)]
pub(crate) struct Ports<'a> {
    pub list: Vec<Port<'a>>,
    pub inputs: NameMap<'a, Option<bool>>,
}

/// The ports of a module.
pub(crate) fn port_table<'a>(alloc: Global, of: &'a Module) -> Result<Ports<'a>, AllocError>
    ensures { IfOk result (λ p. ArePorts p (spec_ports.ports_of (view.module_tree of.now))) }
{
    let list = ports_of(alloc, of)?;
    let inputs = inputs(alloc, &list)?;
    Ok(Ports { list, inputs })
}

/// By name whether the first port of each name is an input.
fn inputs<'a>(alloc: Global, list: &[Port<'a>]) -> Result<NameMap<'a, Option<bool>>, AllocError>
    ensures { IfOk result (λ m. AreFirst (pairs m) (map named_port (map port_of list.now))) }
{
    let mut inputs = NameMap::new(alloc);
    for port in list {
        note(&mut inputs, port.name, port.input)?;
    }
    Ok(inputs)
}

impl<'a> Ports<'a> {
    /// The first port of this name, if there is one.
    pub(crate) fn find(&self, name: &'a [u8]) -> Option<Port<'a>>
        ensures { (ps : List spec_ports.Port) → ArePorts self.now ps → option_map port_of result ≡ spec_ports.find_port ps name.now }
    {
        match self.inputs.get(name) {
            None => None,
            Some(input) => Some(Port {
                name,
                input: *input,
            }),
        }
    }
}

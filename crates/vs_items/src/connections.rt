//! What the ports of an instance are connected to (IEEE 1364-2005, 12.3.5 and 12.3.6).

ghost use Rattle.std.specs.Prelude.{◌≡◌, ◌≤◌, ◌++◌, [], List, Some, IfOk, OnOk, map, option_map};
ghost use Rattle.vs_grammar.specs.Trees as tree;
ghost use Rattle.vs_grammar.specs.Shapes.{AreConnections, Each};
ghost use Rattle.vs_grammar.specs.Depths.{connections_depth};
ghost use Rattle.vs_grammar.specs.Spelled.{depth_limit};
ghost use Rattle.vs_ast.specs.Views as view;
ghost use Rattle.vs_elaborated.specs.Environments.{Env};
ghost use Rattle.vs_elaborated.specs.Instances.{connected, connected_by_name, connected_by_order, in_port_order, said_connections};
ghost use Rattle.vs_elaborated.specs.Ports as spec;
ghost use Rattle.vs_items.specs.Fine.{AreFineOrdered, IsFineConnected, IsFineNamed, IsFineValue};
ghost use Rattle.vs_items.specs.Connections.{AreApart, AreNamed, connected_at, said};
ghost use Rattle.vs_maps.specs.MapViews.{pairs};
ghost use Rattle.vs_items.specs.Interfaces.{IsInterface};
ghost use Rattle.vs_items.specs.PortTables.{ArePorts};
ghost use Rattle.vs_items.specs.Ports.{port_of};

use crate::interfaces::Interface;
use crate::noted::note;
use crate::ports::{Port, Ports};
use std::alloc::{AllocError, Global};
use vs_ast::{Connections, Expr, NamedConnection};
use vs_maps::NameMap;

/// A port of an instance that is connected: its name in the module, whether it is an input, and the expression, which is seen where the instance stands.
#[derive(Clone, Copy)]
pub struct Connection<'a> {
    pub name: &'a [u8],
    pub input: bool,
    pub e: &'a Expr,
}

/// Adds the connection of a port, if there is one. An open port has none, and neither has one without a direction.
fn push_connection<'a>(
    list: &mut Vec<Connection<'a>>,
    port: Option<Port<'a>>,
    value: &'a Option<Expr>,
) -> Result<(), AllocError>
    ensures said { (env : Env) → OnOk result (said env list.new.items ≡ said env list.old.items ++ (connected (option_map port_of port.entry) (view.option view.expr value.now) env).connections) }
    ensures fine { (env : Env) → IsFineValue env (option_map port_of port.entry) (view.option view.expr value.now)
        → Each (IsFineConnected env) list.old.items → OnOk result (Each (IsFineConnected env) list.new.items) }
{
    if let Some(
        Port {
            name,
            input: Some(input),
        },
    ) = port
    {
        if let Some(e) = value {
            list.push(Connection { name, input, e })?;
        }
    }
    Ok(())
}

/// The connections of ports by their order.
pub(crate) fn by_order<'a>(
    alloc: Global,
    ports: &Ports<'a>,
    parts: &'a [Option<Expr>],
) -> Result<Vec<Connection<'a>>, AllocError>
    ensures said { (ps : List spec.Port) (env : Env) → ArePorts ports.now ps
        → IfOk result (λ v. said env v.items ≡ (connected_by_order ps 0 (map (view.option view.expr) parts.now) env).connections) }
    ensures fine { (ps : List spec.Port) (env : Env) → ArePorts ports.now ps → AreFineOrdered ps 0 env (map (view.option view.expr) parts.now)
        → IfOk result (λ v. Each (IsFineConnected env) v.items) }
{
    let mut list = Vec::new(alloc);
    for n in 0..parts.len() {
        push_connection(&mut list, ports.list.get(n).copied(), &parts[n])?;
    }
    Ok(list)
}

/// The first connection of each name.
fn by_first_name<'a>(
    alloc: Global,
    parts: &'a [NamedConnection],
) -> Result<NameMap<'a, &'a Option<Expr>>, AllocError>
    ensures { IfOk result (λ m. AreNamed (pairs m) (map view.named_connection parts.now)) }
{
    let mut names = NameMap::new(alloc);
    for part in parts {
        note(&mut names, part.name.text.as_slice(), &part.value)?;
    }
    Ok(names)
}

/// Adds the connection of a port, if its name has one.
fn push_named<'a>(
    list: &mut Vec<Connection<'a>>,
    ports: &Ports<'a>,
    name: &'a [u8],
    names: &NameMap<'a, &'a Option<Expr>>,
) -> Result<(), AllocError>
    ensures said { (ps : List spec.Port) (cs : List tree.NamedConnection) (env : Env) → ArePorts ports.now ps → AreNamed (pairs names.now) cs
        → OnOk result (said env list.new.items ≡ said env list.old.items ++ connected_at ps cs env name.now) }
    ensures fine { (ps : List spec.Port) (cs : List tree.NamedConnection) (env : Env) → ArePorts ports.now ps → AreNamed (pairs names.now) cs
        → Each (IsFineNamed ps env) cs → Each (IsFineConnected env) list.old.items → OnOk result (Each (IsFineConnected env) list.new.items) }
{
    match names.get(name) {
        None => Ok(()),
        Some(value) => push_connection(list, ports.find(name), value),
    }
}

/// The connections of ports by their names, in the order of the ports.
pub(crate) fn by_name<'a>(
    alloc: Global,
    ports: &Ports<'a>,
    parts: &'a [NamedConnection],
) -> Result<Vec<Connection<'a>>, AllocError>
    ensures said { (ps : List spec.Port) (env : Env) → ArePorts ports.now ps → AreApart (map view.named_connection parts.now)
        → IfOk result (λ v. said env v.items ≡ in_port_order ps (connected_by_name ps (map view.named_connection parts.now) env).connections) }
    ensures fine { (ps : List spec.Port) (env : Env) → ArePorts ports.now ps → Each (IsFineNamed ps env) (map view.named_connection parts.now)
        → IfOk result (λ v. Each (IsFineConnected env) v.items) }
{
    let names = by_first_name(alloc, parts)?;
    let mut list = Vec::new(alloc);
    for port in &ports.list {
        push_named(&mut list, ports, port.name, &names)?;
    }
    Ok(list)
}

/// What the ports of an instance are connected to, in the order of the header of its module, which it sees as `seen`; ports that are left open are left
/// out. It is so where the connections break no rule (`said_items`). An error is want of memory.
pub fn connections_of<'a>(
    alloc: Global,
    seen: &Interface<'a>,
    connections: &'a Connections,
) -> Result<Vec<Connection<'a>>, AllocError>
    ensures said { (m : tree.Module) (name : tree.Name) (env : Env) → IsInterface seen.now m → (said_connections (Some m) name (view.connections connections.now) env).faults ≡ []
        → IfOk result (λ v. said env v.items ≡ (said_connections (Some m) name (view.connections connections.now) env).connections) }
    ensures fine { (m : tree.Module) (name : tree.Name) (env : Env) → IsInterface seen.now m → AreConnections (view.connections connections.now)
        → connections_depth (view.connections connections.now) ≤ depth_limit → (said_connections (Some m) name (view.connections connections.now) env).faults ≡ []
        → IfOk result (λ v. Each (IsFineConnected env) v.items) }
{
    match connections {
        Connections::Unconnected => Ok(Vec::new(alloc)),
        Connections::ByOrder(parts) => by_order(alloc, &seen.ports, parts),
        Connections::ByName(parts) => by_name(alloc, &seen.ports, parts),
    }
}

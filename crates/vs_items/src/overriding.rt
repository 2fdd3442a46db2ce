//! What overrides the parameters of an instance, by their names (IEEE 1364-2005, 12.2.2).

ghost use Rattle.std.specs.Prelude.{◌≡◌, ◌<◌, ◌++◌, [], ℕ, List, Option, IfOk, OnOk, Some, map, option_map, length};
ghost use Rattle.std.specs.Borrow.{Bor};
ghost use Rattle.vs_grammar.specs.Trees as tree;
ghost use Rattle.vs_grammar.specs.Shapes.{AreConnections, IsExpr, Given, Each, IsConnection};
ghost use Rattle.vs_ast.specs.Views as view;
ghost use Rattle.vs_elaborated.specs.Environments.{Env};
ghost use Rattle.vs_elaborated.specs.Instances as instances;
ghost use Rattle.vs_elaborated.specs.Parameters as spec;
ghost use Rattle.vs_scope.specs.Frames.{env_at, envs};
ghost use Rattle.vs_maps.specs.Maps.{AreDistinct};
ghost use Rattle.vs_maps.specs.MapViews.{pairs};
ghost use Rattle.vs_scope.specs.Overrides.{AreOverrides, overrides_of};
ghost use Rattle.vs_scope.specs.declared.frames.Frame.{Frame};
ghost use Rattle.vs_items.specs.Interfaces.{IsInterface};
ghost use Rattle.vs_items.specs.Overriding.{AreAlike, AreSaid, one_override};
ghost use Rattle.vs_items.specs.Ports.{name_bytes};

use crate::interfaces::Interface;
use crate::noted::note;
use std::alloc::{AllocError, Global};
use vs_ast::{Connections, Expr, NamedConnection};
use vs_maps::NameMap;
use vs_scope::Override;

/// Notes what a parameter is overridden with, if there is such a parameter and a value. `frame` is the scope in which the instance stands.
fn note_override<'a>(
    overrides: &mut NameMap<'a, Override<'a>>,
    name: Option<&'a [u8]>,
    value: &'a Option<Expr>,
    frame: usize,
) -> Result<(), AllocError>
    ensures said { (frames : List Frame) (os : List spec.Override) → AreSaid frames overrides.old os
        → OnOk result (AreSaid frames overrides.new (os ++ one_override (option_map name_bytes name.entry) (view.option view.expr value.now) (env_at (envs frames) (Some frame)))) }
    ensures fine { (frames : List Frame) → AreOverrides frames overrides.old → Given IsExpr (view.option view.expr value.now) → frame < length frames → OnOk result (AreOverrides frames overrides.new) }
    ensures distinct { AreDistinct (pairs overrides.old) → OnOk result (AreDistinct (pairs overrides.new)) }
{
    match name {
        None => Ok(()),
        Some(name) => match value {
            None => Ok(()),
            Some(value) => {
                note(overrides, name, Override { value, frame })?;
                Ok(())
            }
        },
    }
}

/// The overrides by order.
fn by_order<'a>(
    alloc: Global,
    parameters: &[&'a [u8]],
    parts: &'a [Option<Expr>],
    frame: usize,
) -> Result<NameMap<'a, Override<'a>>, AllocError>
    requires { Each (Given IsExpr) (map (view.option view.expr) parts.now) }
    ensures alike { (frames : List Frame) → IfOk result (λ m. AreAlike (overrides_of frames m) (instances.overrides_by_order (map name_bytes parameters.now) 0 (map (view.option view.expr) parts.now) (env_at (envs frames) (Some frame))).overrides) }
    ensures fine { (frames : List Frame) → frame < length frames → IfOk result (AreOverrides frames) }
    ensures distinct { IfOk result (λ o. AreDistinct (pairs o)) }
{
    let mut overrides = NameMap::new(alloc);
    for n in 0..parts.len() {
        note_override(&mut overrides, parameters.get(n).copied(), &parts[n], frame)?;
    }
    Ok(overrides)
}

/// The overrides by names.
fn by_name<'a>(
    alloc: Global,
    parts: &'a [NamedConnection],
    frame: usize,
) -> Result<NameMap<'a, Override<'a>>, AllocError>
    requires { Each IsConnection (map view.named_connection parts.now) }
    ensures alike { (frames : List Frame) → IfOk result (λ m. AreAlike (overrides_of frames m) (instances.overrides_by_name (map view.named_connection parts.now) (env_at (envs frames) (Some frame))).overrides) }
    ensures fine { (frames : List Frame) → frame < length frames → IfOk result (AreOverrides frames) }
    ensures distinct { IfOk result (λ o. AreDistinct (pairs o)) }
{
    let mut overrides = NameMap::new(alloc);
    for part in parts {
        let name = part.name.text.as_slice();
        note_override(&mut overrides, Some(name), &part.value, frame)?;
    }
    Ok(overrides)
}

/// What overrides the parameters of the instances of an item, by the parameters' names. `seen` is what they see of their module, and `frame` the number of
/// the scope in which they stand, where the values are evaluated. Of several values of one name the first stands; that there are several is a fault
/// (`said_items`). An error is want of memory.
pub fn overrides_of<'a>(
    alloc: Global,
    seen: &Interface<'a>,
    overrides: &'a Connections,
    frame: usize,
) -> Result<NameMap<'a, Override<'a>>, AllocError>
    requires { AreConnections (view.connections overrides.now) }
    ensures alike { (m : tree.Module) (of : tree.Name) (frames : List Frame) → IsInterface seen.now m
        → IfOk result (λ o. AreAlike (overrides_of frames o) (instances.said_overrides of (Some m) (view.connections overrides.now) (env_at (envs frames) (Some frame))).overrides) }
    ensures fine { (frames : List Frame) → frame < length frames → IfOk result (AreOverrides frames) }
    ensures distinct { IfOk result (λ o. AreDistinct (pairs o)) }
{
    match overrides {
        Connections::Unconnected => Ok(NameMap::new(alloc)),
        Connections::ByOrder(parts) => by_order(alloc, &seen.parameters, parts, frame),
        Connections::ByName(parts) => by_name(alloc, parts, frame),
    }
}

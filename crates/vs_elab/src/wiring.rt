//! The assigns that the ports of an instance imply (IEEE 1364-2005, 12.3.9.2).

ghost use Rattle.std.specs.Prelude.{◌≡◌, ◌<◌, ◌≤◌, ◌+◌, ◌^◌, ℕ, None, OnOk, length, map};
ghost use Rattle.vs_const.specs.Meanings.{SignalMeaning};
ghost use Rattle.vs_elaborated.specs.Elaborated.{port_assign};
ghost use Rattle.vs_elaborated.specs.Environments.{named};
ghost use Rattle.vs_build.specs.Growth.{draft};
ghost use Rattle.vs_scope.specs.Frames.{view_env};
ghost use Rattle.vs_items.specs.Connections.{said, said_one};
ghost use Rattle.vs_build.specs.Items.{and_processes};
ghost use Rattle.vs_elab.specs.Wiring.{AreWirable, IsSignalOf, IsWirable, own_names};

use std::alloc::{AllocError, Global};
use vs_build::{Builder, input_port, output_port};
use vs_items::Connection;
use vs_scope::{Declared, View};

/// The number of the signal that a name of a scope means, where it means one.
fn signal_number(inside: &View<'_, '_>, name: &[u8]) -> u32
    ensures { (m : SignalMeaning) → IsSignalOf (own_names (view_env inside.now)) name.now m → result ≡ m.signal.number }
{
    match inside.entry(name) {
        None => 0,
        Some(e) => match e.declared {
            Declared::Signal(s) => s.number,
            _ => 0,
        },
    }
}

/// Builds the assign of one port of an instance whose item begins at `place`; `inside` is its own scope, and `here` is where the instance stands.
fn wire_port(
    builder: &mut Builder,
    alloc: Global,
    place: u32,
    inside: &View<'_, '_>,
    c: &Connection<'_>,
    here: &View<'_, '_>,
) -> Result<(), AllocError>
    requires room { length (draft builder.old).design.processes < 2 ^ 16 }
    requires outside { (draft builder.old).function ≡ None }
    requires fine { IsWirable (draft builder.old).design (named (view_env here.now)) (own_names (view_env inside.now)) c.now }
    ensures { OnOk result (draft builder.new ≡ and_processes (draft builder.old) (map (port_assign place (own_names (view_env inside.now))) (said_one (view_env here.now) c.now))) }
{
    let inner = signal_number(inside, c.name);
    if c.input {
        input_port(builder, alloc, place, inner, c.e, here)
    } else {
        output_port(builder, alloc, place, inner, c.e, here)
    }
}

/// Builds the assigns of the ports of an instance whose item begins at `place`, in the order of its module's header. An error is want of memory.
pub(crate) fn wire_ports(
    builder: &mut Builder,
    alloc: Global,
    place: u32,
    inside: &View<'_, '_>,
    connections: &[Connection<'_>],
    here: &View<'_, '_>,
) -> Result<(), AllocError>
    requires room { length (draft builder.old).design.processes + length connections.now ≤ 2 ^ 16 }
    requires outside { (draft builder.old).function ≡ None }
    requires fine { AreWirable (draft builder.old).design (named (view_env here.now)) (own_names (view_env inside.now)) connections.now }
    ensures { OnOk result (draft builder.new ≡ and_processes (draft builder.old) (map (port_assign place (own_names (view_env inside.now))) (said (view_env here.now) connections.now))) }
{
    for c in connections {
        wire_port(builder, alloc, place, inside, c, here)?;
    }
    Ok(())
}

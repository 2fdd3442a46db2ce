//! A scope and its signals in the flat design (IEEE 1364-2005, 3.2, 4.9 and 12.1).

ghost use Rattle.std.specs.Prelude.{◌≡◌, ◌+◌, ◌≤◌, ◌<◌, ◌^◌, Some, OnOk, IsTrue, length, map, option_to_list};
ghost use Rattle.vs_design.specs.Designs.{bit_count};
ghost use Rattle.vs_design.specs.Expressions.{signal_length};
ghost use Rattle.vs_flat.specs.Named.{all_below};
ghost use Rattle.vs_build.specs.Drafts.{and_scope, and_signal};
ghost use Rattle.vs_build.specs.Growth.{draft};
ghost use Rattle.vs_elab.specs.Opening.{Follow, and_signals, signal};

use std::alloc::{AllocError, Global};
use vs_base::Text;
use vs_build::Builder;
use vs_flat::Scope;
use vs_scope::Signal;

/// Adds a scope of this name, where `parent` is the number of the scope around it, if there is one.
pub(crate) fn add_scope(
    builder: &mut Builder,
    alloc: Global,
    name: &[u8],
    parent: Option<u32>,
    instance: bool,
) -> Result<(), AllocError>
    requires { IsTrue (all_below (length (draft builder.old).design.scopes) (option_to_list parent)) }
    ensures { OnOk result (draft builder.new ≡ and_scope (draft builder.old) (record { name = name.now; parent = parent; instance = instance })) }
{
    let name = Text::of(name.to_vec(alloc)?);
    builder.add_scope(Scope {
        name,
        parent,
        instance,
    })?;
    Ok(())
}

/// Adds a signal, which has the first free number, and its bits from the first free one on.
fn add_signal(builder: &mut Builder, alloc: Global, s: &Signal<'_>) -> Result<(), AllocError>
    requires number { s.now.number ≡ length (draft builder.old).design.signals }
    requires first { s.now.first ≡ bit_count (draft builder.old).design }
    requires scope { s.now.scope < length (draft builder.old).design.scopes }
    requires bits { bit_count (draft builder.old).design + signal_length (signal s.now) ≤ 2 ^ 20 }
    ensures { OnOk result (draft builder.new ≡ and_signal (draft builder.old) (signal s.now)) }
{
    let name = Text::of(s.name.to_vec(alloc)?);
    builder.add_signal(vs_flat::Signal {
        name,
        scope: s.scope,
        net: s.net,
        input: s.input,
        range: s.range,
        signed: s.signed,
        first_bit: s.first as u32,
        words: s.words,
        integer: s.integer,
    })?;
    Ok(())
}

/// Adds the signals of a scope, which are numbered from the first free number on. An error is want of memory.
pub(crate) fn add_signals(
    builder: &mut Builder,
    alloc: Global,
    signals: &[Signal<'_>],
) -> Result<(), AllocError>
    requires { Follow (length (draft builder.old).design.scopes) (length (draft builder.old).design.signals) (bit_count (draft builder.old).design) (map signal signals.now) }
    ensures { OnOk result (draft builder.new ≡ and_signals (draft builder.old) (map signal signals.now)) }
{
    for s in signals {
        add_signal(builder, alloc, s)?;
    }
    Ok(())
}

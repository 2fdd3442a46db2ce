//! The items of a scope that are processes (IEEE 1364-2005, 6.1).

ghost use Rattle.std.specs.Prelude.{◌≡◌, ◌+◌, ◌≤◌, ◌^◌, None, length, map, OnOk};
ghost use Rattle.vs_grammar.specs.Shapes.{Each};
ghost use Rattle.vs_ast.specs.Views as view;
ghost use Rattle.vs_build.specs.Drafts.{home};
ghost use Rattle.vs_build.specs.Growth.{draft};
ghost use Rattle.vs_build.specs.Writable.{IsAssignable};
ghost use Rattle.vs_build.specs.Items.{and_processes, assign_processes, value_processes, wire_processes, IsDeclared};

use crate::assigns::{assign, wire};
use crate::builder::Builder;
use std::alloc::{AllocError, Global};
use vs_ast::{Assign, Declarator};
use vs_const::Env;

/// Builds the assigns of an item that begins at `place`, which break no rule, in order. An error is want of memory; the builder is of no use then.
pub fn assign_each<E: Env>(
    builder: &mut Builder,
    alloc: Global,
    place: u32,
    list: &[Assign],
    env: &E,
) -> Result<(), AllocError>
    requires room { length (draft builder.old).design.processes + length list.now ≤ 2 ^ 16 }
    requires outside { (draft builder.old).function ≡ None }
    requires fine { Each (IsAssignable (home (draft builder.old)) (E.names env.now)) (map view.assign list.now) }
    ensures { OnOk result (draft builder.new ≡ and_processes (draft builder.old) (assign_processes place (map view.assign list.now) (E.names env.now))) }
{
    for a in list {
        assign(builder, alloc, place, a, env)?;
    }
    Ok(())
}

/// Builds the assign of a declared name with its value, if it has one (IEEE 1364-2005, 6.1.1).
fn declared<E: Env>(
    builder: &mut Builder,
    alloc: Global,
    place: u32,
    d: &Declarator,
    env: &E,
) -> Result<(), AllocError>
    requires room { length (draft builder.old).design.processes + 1 ≤ 2 ^ 16 }
    requires outside { (draft builder.old).function ≡ None }
    requires fine { IsDeclared (home (draft builder.old)) (E.names env.now) (view.declarator d.now) }
    ensures { OnOk result (draft builder.new ≡ and_processes (draft builder.old) (value_processes place (view.declarator d.now).name (view.declarator d.now).value (E.names env.now))) }
{
    match &d.value {
        None => Ok(()),
        Some(e) => wire(builder, alloc, place, &d.name, e, env),
    }
}

/// Builds the assigns of a declaration at `place` whose values break no rule, in order (IEEE 1364-2005, 6.1.1). An error is want of memory; the
/// builder is of no use then.
pub fn wire_each<E: Env>(
    builder: &mut Builder,
    alloc: Global,
    place: u32,
    names: &[Declarator],
    env: &E,
) -> Result<(), AllocError>
    requires room { length (draft builder.old).design.processes + length names.now ≤ 2 ^ 16 }
    requires outside { (draft builder.old).function ≡ None }
    requires fine { Each (IsDeclared (home (draft builder.old)) (E.names env.now)) (map view.declarator names.now) }
    ensures { OnOk result (draft builder.new ≡ and_processes (draft builder.old) (wire_processes place (map view.declarator names.now) (E.names env.now))) }
{
    for d in names {
        declared(builder, alloc, place, d, env)?;
    }
    Ok(())
}

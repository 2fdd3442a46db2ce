//! Assigns, written and of input ports (IEEE 1364-2005, 6.1 and 12.3.9.2).

ghost use Rattle.std.specs.Prelude.{◌≡◌, ◌<◌, ◌^◌, None, true, false, length, OnOk};
ghost use Rattle.vs_design.specs.Elaborated.{is_plain};
ghost use Rattle.vs_ast.specs.Views as view;
ghost use Rattle.vs_flat.specs.Trees.{signal_at};
ghost use Rattle.vs_build.specs.Drafts.{and_process, home};
ghost use Rattle.vs_build.specs.Growth.{draft};
ghost use Rattle.vs_build.specs.Buildable.{IsBuildable};
ghost use Rattle.vs_build.specs.Writable.{IsAssignable, wire_assign, assign_process, input_process};

use crate::builder::Builder;
use crate::expressions::operand;
use crate::names::name_alone;
use crate::targets::target;
use std::alloc::{AllocError, Global};
use vs_ast::{Assign, Expr, Name};
use vs_const::Env;
use vs_flat::Port;

/// Builds one assign of an item that begins at `place`, which breaks no rule. An error is want of memory; the builder is of no use then.
pub fn assign<E: Env>(
    builder: &mut Builder,
    alloc: Global,
    place: u32,
    a: &Assign,
    env: &E,
) -> Result<(), AllocError>
    requires room { length (draft builder.old).design.processes < 2 ^ 16 }
    requires outside { (draft builder.old).function ≡ None }
    requires fine { IsAssignable (home (draft builder.old)) (E.names env.now) (view.assign a.now) }
    ensures { OnOk result (draft builder.new ≡ and_process (draft builder.old) (assign_process place (view.assign a.now) (E.names env.now))) }
{
    target(builder, alloc, &a.target, env, false)?;
    operand(builder, alloc, &a.value, env, false)?;
    builder.assign(Port::Written, place)
}

/// Builds `wire name = e` of an item that begins at `place`, which breaks no rule (IEEE 1364-2005, 6.1.1). An error is want of memory.
pub fn wire<E: Env>(
    builder: &mut Builder,
    alloc: Global,
    place: u32,
    name: &Name,
    e: &Expr,
    env: &E,
) -> Result<(), AllocError>
    requires room { length (draft builder.old).design.processes < 2 ^ 16 }
    requires outside { (draft builder.old).function ≡ None }
    requires fine { IsAssignable (home (draft builder.old)) (E.names env.now) (wire_assign (view.name name.now) (view.expr e.now)) }
    ensures { OnOk result (draft builder.new ≡ and_process (draft builder.old) (assign_process place (wire_assign (view.name name.now) (view.expr e.now)) (E.names env.now))) }
{
    name_alone(builder, false, name, name.place, env)?;
    operand(builder, alloc, e, env, false)?;
    builder.assign(Port::Written, place)
}

/// Builds the assign of an input port of an instance whose item begins at `place`: from an expression of the scope around it, which breaks no
/// rule, to the inner net, which is given by its number.
pub fn input_port<E: Env>(
    builder: &mut Builder,
    alloc: Global,
    place: u32,
    inner: u32,
    e: &Expr,
    env: &E,
) -> Result<(), AllocError>
    requires room { length (draft builder.old).design.processes < 2 ^ 16 }
    requires there { inner < length (draft builder.old).design.signals }
    requires signal { is_plain (draft builder.old).design (signal_at (draft builder.old).design.signals inner) ≡ true }
    requires outside { (draft builder.old).function ≡ None }
    requires fine { IsBuildable (home (draft builder.old)) (E.names env.now) false (view.expr e.now) }
    ensures { OnOk result (draft builder.new ≡ and_process (draft builder.old) (input_process place (signal_at (draft builder.old).design.signals inner) (view.expr e.now) (E.names env.now))) }
{
    builder.name(inner, place)?;
    operand(builder, alloc, e, env, false)?;
    builder.assign(Port::Input, place)
}

//! Always and initial blocks of the text (IEEE 1364-2005, 9.9).

ghost use Rattle.std.specs.Prelude.{◌≡◌, ◌<◌, ◌^◌, None, [], length, map, IfOk, OnOk};
ghost use Rattle.vs_ast.specs.Views as view;
ghost use Rattle.vs_elaborated.specs.Statements.{event_faults, typed_events};
ghost use Rattle.vs_elaborated.specs.Surveys.{initial_body};
ghost use Rattle.vs_build.specs.Drafts.{and_initial, and_process, home};
ghost use Rattle.vs_build.specs.Growth.{draft};
ghost use Rattle.vs_build.specs.Executable.{IsExecutable, IsRunnable, awaited_of, awaited, barred, begun, block_process};

use crate::builder::Builder;
use crate::statements::statement;
use std::alloc::{AllocError, Global};
use vs_ast as ast;
use vs_ast::{AlwaysBlock, EventControl, InitialBlock};
use vs_bodies::{Alone, BodyKind, Inner, Layers, Surroundings, is_clocked};
use vs_const::{Env, Named};
use vs_flat::Event;

/// An event that breaks no rule (IEEE 1364-2005, 9.7.2).
fn event<E: Env>(e: &ast::Event, env: &E) -> Event
    requires { event_faults e.now.name.place e.now.edge (E.names env.now e.now.name.text) ≡ [] }
    ensures { awaited_of result ≡ awaited (E.names env.now) (view.event e.now) }
{
    match env.find(e.name.text.as_slice()) {
        Named::Signal(s) => Event {
            signal: s.number,
            edge: e.edge,
        },
        _ => unreachable!(),
    }
}

/// The events of a list that breaks no rule, in order (IEEE 1364-2005, 9.7.4).
fn events<E: Env>(alloc: Global, list: &[ast::Event], env: &E) -> Result<Vec<Event>, AllocError>
    requires { (typed_events (map view.event list.now) (E.names env.now)).faults ≡ [] }
    ensures { IfOk result (λ v. map awaited_of v.items ≡ map (awaited (E.names env.now)) (map view.event list.now)) }
{
    let mut made = Vec::new(alloc);
    for e in list {
        let next = event(e, env);
        made.push(next)?;
    }
    Ok(made)
}

/// Builds an always block that breaks no rule, with its loops unrolled (IEEE 1364-2005, 9.6), where `around` says what the variables of its named blocks
/// mean. An error is want of memory; the builder is of no use then.
pub fn always_within<S: Surroundings>(
    builder: &mut Builder,
    alloc: Global,
    block: &AlwaysBlock,
    around: &S,
) -> Result<(), AllocError>
    requires room { length (draft builder.old).design.processes < 2 ^ 16 }
    requires outside { (draft builder.old).function ≡ None }
    requires fine { IsRunnable (home (draft builder.old)) (S.declared around.now) (S.names around.now) (view.always_block block.now) }
    ensures { OnOk result (draft builder.new ≡ and_process (draft builder.old) (block_process (S.declared around.now) (view.always_block block.now) (S.names around.now))) }
{
    let layers = Layers::End;
    let here = Inner {
        around: &*around,
        layers: &layers,
    };
    let kind = BodyKind {
        in_function: false,
        takes_variables: true,
        clocked: is_clocked(&block.control),
    };
    statement(builder, alloc, &block.statement, kind, &here)?;
    match &block.control {
        EventControl::Star => builder.always(true, Vec::new(alloc), block.place),
        EventControl::Listed(list) => {
            let waited = events(alloc, list, around)?;
            builder.always(false, waited, block.place)
        }
    }
}

/// Builds an always block that breaks no rule, with its loops unrolled (IEEE 1364-2005, 9.6), of whose named blocks none is a scope. An error is want of
/// memory; the builder is of no use then.
pub fn always<E: Env>(
    builder: &mut Builder,
    alloc: Global,
    block: &AlwaysBlock,
    env: &E,
) -> Result<(), AllocError>
    requires room { length (draft builder.old).design.processes < 2 ^ 16 }
    requires outside { (draft builder.old).function ≡ None }
    requires fine { IsRunnable (home (draft builder.old)) barred (E.names env.now) (view.always_block block.now) }
    ensures { OnOk result (draft builder.new ≡ and_process (draft builder.old) (block_process barred (view.always_block block.now) (E.names env.now))) }
{
    let around = Alone { env: &*env };
    always_within(builder, alloc, block, &around)
}

/// Builds an initial block that breaks no rule, with its loops unrolled, behind the processes so far (IEEE 1364-2005, 9.6 and 9.9.1). An error is want of
/// memory; the builder is of no use then.
pub fn initial<E: Env>(
    builder: &mut Builder,
    alloc: Global,
    block: &InitialBlock,
    env: &E,
) -> Result<(), AllocError>
    requires room { length (draft builder.old).design.initials < 2 ^ 16 }
    requires outside { (draft builder.old).function ≡ None }
    requires fine { IsExecutable (home (draft builder.old)) initial_body (E.names env.now) (view.initial_block block.now).statement }
    ensures { OnOk result (draft builder.new ≡ and_initial (draft builder.old) block.now.place (begun (view.initial_block block.now).statement (E.names env.now))) }
{
    let around = Alone { env: &*env };
    let layers = Layers::End;
    let here = Inner {
        around: &around,
        layers: &layers,
    };
    let kind = BodyKind {
        in_function: false,
        takes_variables: false,
        clocked: true,
    };
    statement(builder, alloc, &block.statement, kind, &here)?;
    builder.initial(block.place)
}

//! One part after the other, each before those within it (IEEE 1364-2005, 12.1).

ghost use Rattle.std.specs.Prelude.{◌≡◌, ◌<◌, ◌^◌, ◌++◌, ◌∷◌, [], suc, false, length, IfErr, IfOk, OnOk, Err, Some};
ghost use Rattle.vs_ast.specs.Views as view;
ghost use Rattle.vs_elaborated.specs.Ports.{find_module};
ghost use Rattle.vs_elaborated.specs.Numbers.{AreNumberedFrames};
ghost use Rattle.vs_elaborated.specs.Sound.{AreSoundFrames};
ghost use Rattle.vs_scope.specs.Frames.{KeepShapes, env_at, envs};
ghost use Rattle.vs_build.specs.Growth.{draft};
ghost use Rattle.vs_items.specs.Modules.{IsOf};
ghost use Rattle.vs_elab.specs.Functions.{IsIdle};
ghost use Rattle.vs_elab.specs.OwnParts.{IsFineOwn, with_own};
ghost use Rattle.vs_elab.specs.Reading.{IsReading, IsStep, IsText, Tells, design_so_far, outcome, pending_at, processes_in, source_of};
ghost use Rattle.vs_const.specs.declared.rules.Rule.TheVariants.{InstanceDepth};
ghost use Rattle.vs_elab.specs.declared.error.ElabError.TheVariants.{Broken};
ghost use Rattle.vs_elab.specs.declared.pending.Part.TheVariants as parts;

use crate::error::ElabError;
use crate::opened::open_scope;
use crate::pending::Part;
use crate::reading::{NewScope, Reading, Text};
use crate::scoped::read_scoped;
use crate::stack::{Pending, push_parts};
use crate::wiring::wire_ports;
use std::alloc::{AllocError, Global};
use vs_ast::{Instance, Instances, Item};
use vs_build::{always, assign, initial, value, wire};
use vs_const::{Fault, Rule};
use vs_elaborated::{instance_law, number_law, scope_law};
use vs_items::{Known, connections_of, overrides_of};
use vs_maps::NameMap;
use vs_scope::{BlockItems, Contents, Turn, View};

/// Where a part stands: the number of its scope, the instances around it, and how deep scopes may stand within one another in it.
#[derive(Clone, Copy)]
pub(crate) struct Standing {
    pub frame: usize,
    pub depth: u32,
    pub left: u32,
}

/// How deep scopes may stand within one another in a scope that stands here, or the fault of one that stands too deep.
fn one_deeper(left: u32, place: u32) -> Result<u32, ElabError>
    ensures deeper { IfOk result (λ n. left ≡ suc n) }
    ensures none { IfErr result (λ e. left ≡ 0) }
    ensures fault { IfErr result (λ e. e ≡ Broken (record { rule = InstanceDepth; place = place })) }
{
    if left == 0 {
        Err(ElabError::Broken(Fault {
            rule: Rule::InstanceDepth,
            place,
        }))
    } else {
        Ok(left - 1)
    }
}

/// Builds a process or an initial process of a scope's own.
fn read_own<'a>(
    alloc: Global,
    reading: &mut Reading<'a>,
    frame: usize,
    part: &Part<'a>,
) -> Result<(), AllocError>
    requires within { frame < length reading.old.frames.items }
    requires kept { KeepShapes reading.old.frames.items }
    requires idle { IsIdle (draft reading.old.builder) }
    requires seen { AreSoundFrames (design_so_far reading.old) false (env_at (envs reading.old.frames.items) (Some frame)).frames }
    requires numbered { AreNumberedFrames (design_so_far reading.old) (env_at (envs reading.old.frames.items) (Some frame)).frames }
    requires room { processes_in (design_so_far reading.old) < 2 ^ 16 }
    requires fine { IsFineOwn (env_at (envs reading.old.frames.items) (Some frame)) part.now }
    ensures built { OnOk result (draft reading.new.builder ≡ with_own (draft reading.old.builder) (env_at (envs reading.old.frames.items) (Some frame)) part.now) }
    ensures frames { reading.new.frames.items ≡ reading.old.frames.items }
    ensures counts { reading.new.counts ≡ reading.old.counts }
    ensures loops { reading.new.loops ≡ reading.old.loops }
{
    scope_law();
    number_law();
    let here = View::of(&reading.frames, frame);
    match part {
        Part::Wire { place, name, value } => {
            wire(&mut reading.builder, alloc, *place, name, value, &here)
        }
        Part::Value { name, value: e } => value(&mut reading.builder, alloc, name, e, &here),
        Part::Assigned { place, assign: a } => {
            assign(&mut reading.builder, alloc, *place, a, &here)
        }
        Part::Always(block) => always(&mut reading.builder, alloc, block, &here),
        Part::Initial(block) => initial(&mut reading.builder, alloc, block, &here),
        _ => unreachable!(),
    }
}

/// Opens a generate block (12.4).
fn read_block<'a>(
    alloc: Global,
    text: &Text<'a>,
    reading: &mut Reading<'a>,
    stack: &mut Vec<Pending<'a>>,
    at: Standing,
    name: Vec<u8>,
    items: &'a [Item],
    turn: Option<Turn>,
) -> Result<(), ElabError>
    requires text { IsText text.now }
    requires reading { IsReading text.now reading.old (stack.old.items ++ pending_at at (parts.Block name items turn) ∷ []) }
    ensures step { OnOk result (IsStep text.now reading.old (stack.old.items ++ pending_at at (parts.Block name items.entry turn) ∷ []) reading.new stack.new.items) }
    ensures broken { IfErr result (λ e. Tells e (λ f. outcome text.now reading.old (stack.old.items ++ pending_at at (parts.Block name items.entry turn) ∷ []) ≡ Err f)) }
{
    let left = one_deeper(at.left, 0)?;
    let none = NameMap::new(alloc);
    let number = reading.counts.start.scope as usize;
    let scope = NewScope {
        name: &name,
        within: Some(at.frame as u32),
        contents: Contents::Block(BlockItems::Many(items)),
        overrides: &none,
        parent: Some(at.frame),
        turn,
        depth: at.depth,
        place: 0,
    };
    let parts = open_scope(alloc, text, reading, scope)?;
    push_parts(stack, parts, number, at.depth, left)?;
    Ok(())
}

/// Opens an instance of a module (12.1.2), and builds the assigns of its ports (12.3.9.2).
fn read_instance<'a>(
    alloc: Global,
    text: &Text<'a>,
    reading: &mut Reading<'a>,
    stack: &mut Vec<Pending<'a>>,
    at: Standing,
    item: &'a Instances,
    instance: &'a Instance,
    known: &Known<'a>,
) -> Result<(), ElabError>
    requires text { IsText text.now }
    requires reading { IsReading text.now reading.old (stack.old.items ++ pending_at at (parts.Instance item instance) ∷ []) }
    requires known { IsOf (Some known.now) (find_module (source_of text.now) (view.instances item.now).of.bytes) }
    ensures step { OnOk result (IsStep text.now reading.old (stack.old.items ++ pending_at at (parts.Instance item.entry instance.entry) ∷ []) reading.new stack.new.items) }
    ensures broken { IfErr result (λ e. Tells e (λ f. outcome text.now reading.old (stack.old.items ++ pending_at at (parts.Instance item.entry instance.entry) ∷ []) ≡ Err f)) }
{
    scope_law();
    number_law();
    instance_law();
    let place = item.of.place;
    let left = one_deeper(at.left, place)?;
    let overrides = overrides_of(alloc, &known.seen, &item.overrides, at.frame)?;
    let connections = connections_of(alloc, &known.seen, &instance.connections)?;
    let depth = at.depth + 1;
    let number = reading.counts.start.scope as usize;
    let scope = NewScope {
        name: instance.name.text.as_slice(),
        within: Some(at.frame as u32),
        contents: Contents::Module(known.of),
        overrides: &overrides,
        parent: None,
        turn: None,
        depth,
        place,
    };
    let parts = open_scope(alloc, text, reading, scope)?;
    let here = View::of(&reading.frames, at.frame);
    let inside = View::of(&reading.frames, number);
    wire_ports(
        &mut reading.builder,
        alloc,
        place,
        &inside,
        &connections,
        &here,
    )?;
    push_parts(stack, parts, number, depth, left)?;
    Ok(())
}

/// Reads one part: builds its process, or opens its scope, whose parts are pending then. An error is the first rule that it breaks, or want of memory;
/// what has been read is of no use then.
pub(crate) fn read_part<'a>(
    alloc: Global,
    text: &Text<'a>,
    reading: &mut Reading<'a>,
    stack: &mut Vec<Pending<'a>>,
    next: Pending<'a>,
) -> Result<(), ElabError>
    requires text { IsText text.now }
    requires reading { IsReading text.now reading.old (stack.old.items ++ next ∷ []) }
    ensures step { OnOk result (IsStep text.now reading.old (stack.old.items ++ next.entry ∷ []) reading.new stack.new.items) }
    ensures broken { IfErr result (λ e. Tells e (λ f. outcome text.now reading.old (stack.old.items ++ next.entry ∷ []) ≡ Err f)) }
{
    let Pending {
        frame,
        depth,
        left,
        part,
    } = next;
    let at = Standing { frame, depth, left };
    match part {
        Part::Block { name, items, turn } => {
            read_block(alloc, text, reading, stack, at, name, items, turn)
        }
        Part::Instance { item, instance } => match text.modules.get(item.of.text.as_slice()) {
            None => unreachable!(),
            Some(known) => { read_instance(alloc, text, reading, stack, at, item, instance, known) }
        },
        Part::Scoped(block) => read_scoped(alloc, reading, frame, block),
        part => Ok(read_own(alloc, reading, frame, &part)?),
    }
}

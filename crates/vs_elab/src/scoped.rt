//! Always blocks whose named blocks are scopes (IEEE 1364-2005, 9.8.2 and 12.7).

ghost use Rattle.std.specs.Prelude.{◌≡◌, ◌+◌, ◌<◌, ◌≤◌, ◌^◌, IfErr, IfOk, None, OnOk, Some, length, map};
ghost use Rattle.vs_grammar.specs.Shapes.{IsStatement};
ghost use Rattle.vs_ast.specs.Views as view;
ghost use Rattle.vs_const.specs.Faults.{least};
ghost use Rattle.vs_design.specs.Designs.{bit_count};
ghost use Rattle.vs_design.specs.Expressions.{signal_length};
ghost use Rattle.vs_elaborated.specs.Elaborated.{scoped_faults, scoped_totals};
ghost use Rattle.vs_elaborated.specs.Environments.{named as names_of};
ghost use Rattle.vs_elaborated.specs.Limits.{the_limits};
ghost use Rattle.vs_elaborated.specs.NamedBlocks as spec;
ghost use Rattle.vs_elaborated.specs.NamedBlocks.{named_scopes};
ghost use Rattle.vs_elaborated.specs.Scoped.{AreBefore};
ghost use Rattle.vs_elaborated.specs.Surveys.{scoped_signals, scoped_statement};
ghost use Rattle.vs_build.specs.Drafts.{and_process, and_signal, home};
ghost use Rattle.vs_build.specs.Executable.{IsRunnable, block_process};
ghost use Rattle.vs_build.specs.Growth.{draft};
ghost use Rattle.vs_scope.specs.Frames.{KeepShapes, env_at, envs};
ghost use Rattle.vs_scope.specs.Locals.{inside_declared, inside_names, local_meaning};
ghost use Rattle.vs_scope.specs.NamedBlocks.{IsSaidBlocks, named};
ghost use Rattle.vs_elab.specs.Fine.{IsFineScoped};
ghost use Rattle.vs_elab.specs.Functions.{signals_of};
ghost use Rattle.vs_elab.specs.Opening.{Follow, and_signals};
ghost use Rattle.vs_elab.specs.Reading.{IsRead, Tells, design_so_far, processes_in, totals_of, totals_so_far};
ghost use Rattle.vs_elab.specs.Scoped.{AreMoreFrames, ScopedIsRead, and_scopes, block_at, loops_with, scoped_at, totals_at, with_scoped, with_variables};

use crate::error::ElabError;
use crate::functions::local_signal;
use crate::opening::add_scope;
use crate::reading::{Counts, Reading};
use std::alloc::{AllocError, Global};
use vs_ast::AlwaysBlock;
use vs_build::{Builder, always_within, fine_law};
use vs_const::first_of;
use vs_elaborated::{named_law, number_law, scope_law};
use vs_items::{Loops, scoped_fault};
use vs_scope::{
    Frame, Inside, LocalSignal, NamedBlock, Names, SaidBlocks, Start, View, named_blocks,
    variables_fault, within_blocks, within_fault,
};

/// The number of the scope that a named block stands in: that of the block around it, where the first has number `first`, or of its always block.
fn outer_scope(around: u32, first: u32, outer: Option<u32>) -> Result<u32, AllocError>
    ensures { IfOk result (λ n. n ≡ spec.outer_scope around first outer) }
{
    match outer {
        None => Ok(around),
        Some(n) => match first.checked_add(n) {
            None => Err(AllocError),
            Some(number) => Ok(number),
        },
    }
}

/// Adds the scopes of these named blocks, which stand in an always block of the scope `around`; the first has the number `first`.
fn add_blocks(
    builder: &mut Builder,
    alloc: Global,
    around: u32,
    first: u32,
    blocks: &[NamedBlock<'_>],
) -> Result<(), AllocError>
    requires first { first ≡ length (draft builder.old).design.scopes }
    requires around { around < first }
    requires before { AreBefore 0 (map named blocks.now) }
    ensures { OnOk result (draft builder.new ≡ and_scopes (draft builder.old) (named_scopes around first (map named blocks.now))) }
{
    for b in blocks {
        let parent = outer_scope(around, first, b.outer)?;
        add_scope(builder, alloc, b.name.text.as_slice(), Some(parent), false)?;
    }
    Ok(())
}

/// Adds a variable of a named block, which has the first free number, and its bits from the first free one on.
fn add_variable(builder: &mut Builder, alloc: Global, s: &LocalSignal<'_>) -> Result<(), AllocError>
    requires number { s.now.number ≡ length (draft builder.old).design.signals }
    requires scope { s.now.scope < length (draft builder.old).design.scopes }
    requires bits { bit_count (draft builder.old).design + signal_length (local_meaning s.now).signal ≤ 2 ^ 20 }
    ensures { OnOk result (draft builder.new ≡ and_signal (draft builder.old) (local_meaning s.now).signal) }
{
    let next = local_signal(alloc, s)?;
    builder.add_signal(next)?;
    Ok(())
}

/// Adds the variables of named blocks, which are numbered from the first free number on. An error is want of memory.
fn add_variables(
    builder: &mut Builder,
    alloc: Global,
    signals: &[LocalSignal<'_>],
) -> Result<(), AllocError>
    requires { Follow (length (draft builder.old).design.scopes) (length (draft builder.old).design.signals) (bit_count (draft builder.old).design) (signals_of signals.now) }
    ensures { OnOk result (draft builder.new ≡ and_signals (draft builder.old) (signals_of signals.now)) }
{
    for s in signals {
        add_variable(builder, alloc, s)?;
    }
    Ok(())
}

/// Adds the names of so many named blocks, which have none where an expression stands in a scope of their numbers.
fn push_frames<'a>(
    frames: &mut Vec<Frame<'a>>,
    alloc: Global,
    count: usize,
) -> Result<(), AllocError>
    ensures { OnOk result (AreMoreFrames frames.old.items frames.new.items count) }
{
    for _ in 0..count {
        frames.push(Frame {
            names: Names::none(alloc, 0),
            parent: None,
            turn: None,
        })?;
    }
    Ok(())
}

/// What is said of an always block of whose named blocks some are scopes, in the scope of this number: what names mean in it, and the first rule that it breaks.
fn check_blocks<'f, 'a>(
    alloc: Global,
    frames: &'f [Frame<'a>],
    loops: &mut Loops,
    start: Start,
    frame: usize,
    block: &AlwaysBlock,
    blocks: &[NamedBlock<'a>],
) -> Result<SaidBlocks<'f, 'a>, ElabError>
    requires number { frame < length frames.now }
    requires kept { KeepShapes frames.now }
    requires statement { IsStatement (view.always_block block.now).statement }
    requires blocks { map named blocks.now ≡ spec.named_blocks (view.always_block block.now).statement }
    ensures names { IfOk result (λ r. inside_names r.inside ≡ names_of (env_at (envs frames.now) (Some frame))) }
    ensures said { IfOk result (λ r. IsSaidBlocks r (env_at (envs frames.now) (Some frame)) start (map named blocks.now)) }
    ensures loops { OnOk result (loops.new ≡ loops_with loops.old (scoped_statement the_limits (block_at frame (env_at (envs frames.now) (Some frame)) (view.always_block block.now)) (totals_at start loops.old))) }
    ensures fair { OnOk result (least (scoped_faults the_limits (block_at frame (env_at (envs frames.now) (Some frame)) (view.always_block block.now)) (totals_at start loops.old)) ≡ None) }
    ensures broken { IfErr result (λ e. Tells e (λ f. least (scoped_faults the_limits (block_at frame (env_at (envs frames.now) (Some frame)) (view.always_block block.now)) (totals_at start loops.old)) ≡ Some f)) }
{
    named_law();
    let here = View::of(frames, frame);
    let names = within_fault(alloc, blocks)?;
    let said = within_blocks(alloc, here, start, blocks)?;
    let found = scoped_fault(alloc, block, &said.inside, loops)?;
    let over = variables_fault(start.bit, said.inside.locals.signals.as_slice());
    let last = first_of(found, over);
    let later = first_of(said.fault, last);
    let first = first_of(names, later);
    if let Some(fault) = first {
        return Err(ElabError::Broken(fault));
    }
    Ok(said)
}

/// Builds an always block that breaks no rule, of whose named blocks some are scopes: these, their variables, and its process.
fn build_blocks(
    builder: &mut Builder,
    alloc: Global,
    frame: u32,
    first: u32,
    block: &AlwaysBlock,
    blocks: &[NamedBlock<'_>],
    inside: &Inside<'_, '_>,
) -> Result<(), AllocError>
    requires first { first ≡ length (draft builder.old).design.scopes }
    requires around { frame < first }
    requires before { AreBefore 0 (map named blocks.now) }
    requires follow { Follow (first + length blocks.now) (length (draft builder.old).design.signals) (bit_count (draft builder.old).design) (signals_of inside.now.locals.signals.items) }
    requires room { length (draft builder.old).design.processes < 2 ^ 16 }
    requires outside { (draft builder.old).function ≡ None }
    requires fine { IsRunnable (home (with_variables (draft builder.old) (named_scopes frame first (map named blocks.now)) (signals_of inside.now.locals.signals.items))) (inside_declared inside.now) (inside_names inside.now) (view.always_block block.now) }
    ensures { OnOk result (draft builder.new ≡ and_process (with_variables (draft builder.old) (named_scopes frame first (map named blocks.now)) (signals_of inside.now.locals.signals.items)) (block_process (inside_declared inside.now) (view.always_block block.now) (inside_names inside.now))) }
{
    add_blocks(builder, alloc, frame, first, blocks)?;
    add_variables(builder, alloc, inside.locals.signals.as_slice())?;
    always_within(builder, alloc, block, inside)
}

/// Reads an always block of whose named blocks some are scopes: these, their variables, and its process; answers where what follows begins.
fn read_blocks<'a>(
    alloc: Global,
    reading: &mut Reading<'a>,
    frame: usize,
    block: &'a AlwaysBlock,
    blocks: &[NamedBlock<'a>],
) -> Result<Start, ElabError>
    requires within { frame < length reading.old.frames.items }
    requires read { IsRead reading.old }
    requires room { processes_in (design_so_far reading.old) < 2 ^ 16 }
    requires fine { IsFineScoped (env_at (envs reading.old.frames.items) (Some frame)) (view.always_block block.now) }
    requires blocks { map named blocks.now ≡ spec.named_blocks (view.always_block block.now).statement }
    ensures fair { OnOk result (least (scoped_faults the_limits (scoped_at reading.old.frames.items frame block.entry.now) (totals_so_far reading.old)) ≡ None) }
    ensures built { OnOk result (draft reading.new.builder ≡ with_scoped (draft reading.old.builder) (scoped_at reading.old.frames.items frame block.entry.now) (totals_so_far reading.old)) }
    ensures frames { reading.new.frames.items ≡ reading.old.frames.items }
    ensures counts { reading.new.counts ≡ reading.old.counts }
    ensures next { IfOk result (λ s. totals_of (record reading.new.counts { start = s }) reading.new.loops
        ≡ scoped_totals (scoped_at reading.old.frames.items frame block.entry.now) (totals_so_far reading.old) (scoped_signals (scoped_at reading.old.frames.items frame block.entry.now) (totals_so_far reading.old)) (scoped_statement the_limits (scoped_at reading.old.frames.items frame block.entry.now) (totals_so_far reading.old))) }
    ensures top { IfOk result (λ s. s.top ≡ reading.old.counts.start.top) }
    ensures broken { IfErr result (λ e. Tells e (λ f. least (scoped_faults the_limits (scoped_at reading.old.frames.items frame block.entry.now) (totals_so_far reading.old)) ≡ Some f)) }
{
    named_law();
    scope_law();
    number_law();
    fine_law();
    let start = reading.counts.start;
    let first = reading.counts.start.scope;
    let said = check_blocks(
        alloc,
        reading.frames.as_slice(),
        &mut reading.loops,
        start,
        frame,
        block,
        blocks,
    )?;
    build_blocks(
        &mut reading.builder,
        alloc,
        frame as u32,
        first,
        block,
        blocks,
        &said.inside,
    )?;
    Ok(said.next)
}

/// Reads an always block of whose named blocks some are scopes, in the scope of this number. An error is the first rule that it breaks, or want of memory;
/// what has been read is of no use then.
pub(crate) fn read_scoped<'a>(
    alloc: Global,
    reading: &mut Reading<'a>,
    frame: usize,
    block: &'a AlwaysBlock,
) -> Result<(), ElabError>
    requires within { frame < length reading.old.frames.items }
    requires read { IsRead reading.old }
    requires room { processes_in (design_so_far reading.old) < 2 ^ 16 }
    requires fine { IsFineScoped (env_at (envs reading.old.frames.items) (Some frame)) (view.always_block block.now) }
    ensures read { OnOk result (ScopedIsRead reading.old reading.new (scoped_at reading.old.frames.items frame block.entry.now)) }
    ensures broken { IfErr result (λ e. Tells e (λ f. least (scoped_faults the_limits (scoped_at reading.old.frames.items frame block.entry.now) (totals_so_far reading.old)) ≡ Some f)) }
{
    named_law();
    let blocks = named_blocks(alloc, &block.statement)?;
    let start = read_blocks(alloc, reading, frame, block, blocks.as_slice())?;
    push_frames(&mut reading.frames, alloc, blocks.len())?;
    reading.counts = Counts {
        start,
        instances: reading.counts.instances,
        turns: reading.counts.turns,
        functions: reading.counts.functions,
        processes: reading.counts.processes,
    };
    Ok(())
}

//! The faults of always and initial blocks (IEEE 1364-2005, 9.9).

ghost use Rattle.std.specs.Prelude.{◌≡◌, ◌+◌, IfOk, OnOk};
ghost use Rattle.vs_grammar.specs.Shapes.{IsStatement};
ghost use Rattle.vs_ast.specs.Views as view;
ghost use Rattle.vs_const.specs.Faults.{least};
ghost use Rattle.vs_elaborated.specs.Limits.{the_limits};
ghost use Rattle.vs_elaborated.specs.Surveys as survey;
ghost use Rattle.vs_elaborated.specs.NamedBlocks.{named_blocks as named_blocks_of};
ghost use Rattle.vs_scope.specs.Frames.{view_env};
ghost use Rattle.vs_scope.specs.Locals.{inside_declared, inside_names};
ghost use Rattle.vs_items.specs.Blocks.{block_faults, faults_by, statement_within};
ghost use Rattle.vs_grammar.specs.Trees.{AlwaysItem, InitialItem};

use crate::heads::heads_of;
use crate::loops::Loops;
use std::alloc::{AllocError, Global};
use vs_ast::{AlwaysBlock, InitialBlock};
use vs_bodies::{Alone, BodyKind, check_control, check_statement, is_clocked};
use vs_const::{Fault, first_of};
use vs_scope::{Inside, View, fair_law, named_blocks};

/// How many statements loops copy at most, those of all blocks and functions together.
const MOST_COPIES: u32 = 1_048_576;

/// What is found of the statement of an always block where it stands: the first rule that it breaks, and how many statements its loops copy.
#[derive(Clone, Copy)]
struct Found {
    fault: Option<Fault>,
    copies: u32,
}

/// What is found of the statement of an always block of whose named blocks none is a scope, behind the loops of those before it.
fn found_plain(
    alloc: Global,
    b: &AlwaysBlock,
    here: &View<'_, '_>,
    loops: &Loops,
) -> Result<Found, AllocError>
    requires { IsStatement (view.always_block b.now).statement }
    ensures fault { IfOk result (λ r. r.fault ≡ least (survey.block_statement the_limits (view_env here.now) loops.now (view.always_block b.now)).faults) }
    ensures copies { IfOk result (λ r. r.copies ≡ (survey.block_statement the_limits (view_env here.now) loops.now (view.always_block b.now)).copies) }
{
    let around = Alone { env: &*here };
    let kind = BodyKind {
        in_function: false,
        takes_variables: true,
        clocked: is_clocked(&b.control),
    };
    let left = MOST_COPIES.saturating_sub(loops.copies());
    fair_law();
    let said = check_statement(alloc, &b.statement, kind, &around, left)?;
    Ok(Found {
        fault: said.fault,
        copies: said.copies,
    })
}

/// What is found of the statement of an always block; where named blocks of it are scopes it is looked at when these are read.
fn found_here(
    alloc: Global,
    b: &AlwaysBlock,
    here: &View<'_, '_>,
    loops: &Loops,
) -> Result<Found, AllocError>
    requires { IsStatement (view.always_block b.now).statement }
    ensures fault { IfOk result (λ r. r.fault ≡ least (faults_by (named_blocks_of (view.always_block b.now).statement) the_limits (view_env here.now) loops.now (view.always_block b.now))) }
    ensures copies { IfOk result (λ r. r.copies ≡ survey.copies_by (named_blocks_of (view.always_block b.now).statement) the_limits (view_env here.now) loops.now (view.always_block b.now)) }
{
    let named = named_blocks(alloc, &b.statement)?;
    if named.is_empty() {
        found_plain(alloc, b, here, loops)
    } else {
        Ok(Found {
            fault: None,
            copies: 0,
        })
    }
}

/// The first rule that an always block breaks, behind the loops of those before it: in its event control, in its statement, with its loops unrolled (9.6),
/// unless named blocks of it are scopes, or by an integer that heads a loop of it and one of a block before.
pub(crate) fn block_fault(
    alloc: Global,
    b: &AlwaysBlock,
    here: &View<'_, '_>,
    loops: &mut Loops,
) -> Result<Option<Fault>, AllocError>
    requires { IsStatement (view.always_block b.now).statement }
    ensures fault { IfOk result (λ f. f ≡ least (block_faults the_limits (view_env here.now) loops.old (view.always_block b.now))) }
    ensures loops { OnOk result (loops.new ≡ survey.loops_after the_limits (view_env here.now) loops.old (AlwaysItem (view.always_block b.now))) }
{
    let waits = check_control(&b.control, here);
    let found = found_here(alloc, b, here, &*loops)?;
    let heads = heads_of(alloc, &b.statement, here)?;
    let shared = loops.shared_fault(heads.as_slice());
    loops.add(found.copies, heads.as_slice())?;
    Ok(first_of(waits, first_of(found.fault, shared)))
}

/// The first rule that the statement of an always block breaks whose named blocks are scopes with the variables that are known here, with its loops unrolled
/// behind those before it (9.6 and 9.8.2).
pub fn scoped_fault(
    alloc: Global,
    b: &AlwaysBlock,
    inside: &Inside<'_, '_>,
    loops: &mut Loops,
) -> Result<Option<Fault>, AllocError>
    requires { IsStatement (view.always_block b.now).statement }
    ensures fault { IfOk result (λ f. f ≡ least (statement_within loops.old (inside_declared inside.now) (inside_names inside.now) (view.always_block b.now)).faults) }
    ensures loops { OnOk result (loops.new ≡ record { copies = loops.old.copies + (statement_within loops.old (inside_declared inside.now) (inside_names inside.now) (view.always_block b.now)).copies; headed = loops.old.headed }) }
{
    let kind = BodyKind {
        in_function: false,
        takes_variables: true,
        clocked: is_clocked(&b.control),
    };
    let left = MOST_COPIES.saturating_sub(loops.copies());
    let said = check_statement(alloc, &b.statement, kind, inside, left)?;
    loops.add_copies(said.copies)?;
    Ok(said.fault)
}

/// The first rule that an initial block breaks, behind the loops of those before it: in its statement, with its loops unrolled (9.6), or by an integer that
/// heads a loop of it and one of a block before.
pub(crate) fn initial_fault(
    alloc: Global,
    b: &InitialBlock,
    here: &View<'_, '_>,
    loops: &mut Loops,
) -> Result<Option<Fault>, AllocError>
    requires { IsStatement (view.initial_block b.now).statement }
    ensures fault { IfOk result (λ f. f ≡ least (survey.initial_said the_limits (view_env here.now) loops.old (view.initial_block b.now)).faults) }
    ensures loops { OnOk result (loops.new ≡ survey.loops_after the_limits (view_env here.now) loops.old (InitialItem (view.initial_block b.now))) }
{
    let around = Alone { env: &*here };
    let kind = BodyKind {
        in_function: false,
        takes_variables: false,
        clocked: true,
    };
    let left = MOST_COPIES.saturating_sub(loops.copies());
    fair_law();
    let said = check_statement(alloc, &b.statement, kind, &around, left)?;
    let heads = heads_of(alloc, &b.statement, here)?;
    let shared = loops.shared_fault(heads.as_slice());
    loops.add(said.copies, heads.as_slice())?;
    Ok(first_of(said.fault, shared))
}

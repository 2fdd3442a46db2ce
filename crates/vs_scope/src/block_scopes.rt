//! Named blocks of always blocks that declare variables, each of which is a scope (IEEE 1364-2005, 9.8.2 and 12.7).

ghost use Rattle.std.specs.Prelude.{◌≡◌, ◌+◌, ◌++◌, ℕ, IfOk, List, OnOk, None, Some, false, if◌then◌else◌, flat_map, length, map, nat_lt};
ghost use Rattle.vs_ast.specs.Views as view;
ghost use Rattle.vs_elaborated.specs.Environments.{named as names_of};
ghost use Rattle.vs_const.specs.Faults.{least};
ghost use Rattle.vs_elaborated.specs.Limits.{the_limits};
ghost use Rattle.vs_elaborated.specs.NamedBlocks as spec;
ghost use Rattle.vs_scope.specs.Frames.{view_env};
ghost use Rattle.vs_scope.specs.Bits.{counted_bits, over};
ghost use Rattle.vs_scope.specs.Locals.{inside_names, local, placed_local};
ghost use Rattle.vs_scope.specs.Made.{block_name};
ghost use Rattle.vs_scope.specs.NamedBlocks.{AreKnown, AreShapedBlocks, IsSaidBlocks, IsSignedBlocks, named, local_texts, names_after};

use crate::counts::one_more;
use crate::inside::{Inside, Locals, numbered};
use crate::local_signals::{LocalStart, Signalling, local_length};
use crate::locals::{Local, block_declared, scope_variables};
use crate::made::BlockName;
use crate::names::LocalSignal;
use crate::places::View;
use crate::signals::Start;
use std::alloc::{AllocError, Global};
use vs_ast::{BlockScope, CaseArm, Name, Statement};
use vs_const::{Fault, Role, Rule, fault_at, fault_if, first_of};
use vs_maps::{NameMap, NameSet, PlaceMap};

/// How many bits a design has at most.
const MOST_BITS: u64 = 1_048_576;

/// A named block that is a scope, with what it declares, its variables and its statements: `outer` is the number of the one around it among those of its
/// always block, if there is one.
#[derive(Drop)]
pub struct NamedBlock<'a> {
    pub name: &'a Name,
    pub outer: Option<u32>,
    pub(crate) scope: &'a BlockScope,
    pub(crate) variables: Vec<Local<'a>>,
    pub(crate) parts: &'a [Statement],
}

/// The number of the next one.
fn next_number(list: &[NamedBlock<'_>]) -> Result<u32, AllocError>
    ensures { IfOk result (λ n. n ≡ length list.now) }
{
    match u32::try_from(list.len()) {
        Err(_) => Err(AllocError),
        Ok(n) => Ok(n),
    }
}

/// A named block with these statements and variables, which is a scope if there is one; answers what is around the blocks within it.
fn push_block<'a>(
    list: &mut Vec<NamedBlock<'a>>,
    scope: &'a BlockScope,
    parts: &'a [Statement],
    variables: Vec<Local<'a>>,
    outer: Option<u32>,
) -> Result<Option<u32>, AllocError>
    ensures pushed { OnOk result (map named list.new.items ≡ map named list.old.items ++ spec.block_with (view.block_scope scope.now) (view.statements parts.now) outer (map local variables.entry.items)) }
    ensures within { IfOk result (λ o. o ≡ spec.outer_within (spec.block_with (view.block_scope scope.now) (view.statements parts.now) outer (map local variables.entry.items)) outer (length list.old.items)) }
{
    if variables.is_empty() {
        return Ok(outer);
    }
    let number = next_number(list.as_slice())?;
    list.push(NamedBlock {
        name: &scope.name,
        outer,
        scope,
        variables,
        parts,
    })?;
    Ok(Some(number))
}

/// The named block of these statements, if they are one.
fn push_scope<'a>(
    list: &mut Vec<NamedBlock<'a>>,
    alloc: Global,
    scope: &'a Option<BlockScope>,
    parts: &'a [Statement],
    outer: Option<u32>,
) -> Result<Option<u32>, AllocError>
    ensures pushed { OnOk result (map named list.new.items ≡ map named list.old.items ++ spec.block_here (view.option view.block_scope scope.now) (view.statements parts.now) outer) }
    ensures within { IfOk result (λ o. o ≡ spec.outer_within (spec.block_here (view.option view.block_scope scope.now) (view.statements parts.now) outer) outer (length list.old.items)) }
{
    match scope {
        None => Ok(outer),
        Some(block) => {
            let variables = scope_variables(alloc, block, parts)?;
            push_block(list, block, parts, variables, outer)
        }
    }
}

/// Those of a statement, in the order of the text, each before those within it; `outer` is around.
#[cycle(named)]
fn push_named<'a>(
    list: &mut Vec<NamedBlock<'a>>,
    alloc: Global,
    s: &'a Statement,
    outer: Option<u32>,
) -> Result<(), AllocError>
    ensures { OnOk result (map named list.new.items ≡ map named list.old.items ++ spec.blocks_in (view.statement s.now) outer (length list.old.items)) }
{
    match s {
        Statement::Empty { .. } => Ok(()),
        Statement::Assignment { .. } => Ok(()),
        Statement::If { taken, other, .. } => {
            push_named(list, alloc, taken, outer)?;
            match other {
                None => Ok(()),
                Some(other) => push_named(list, alloc, other, outer),
            }
        }
        Statement::Case { arms, other, .. } => {
            push_arms(list, alloc, arms, outer)?;
            match other {
                None => Ok(()),
                Some(other) => push_named(list, alloc, other, outer),
            }
        }
        Statement::Sequence { scope, parts, .. } => {
            let within = push_scope(list, alloc, scope, parts, outer)?;
            push_sequence(list, alloc, parts, within)
        }
        Statement::For { body, .. } => push_named(list, alloc, body, outer),
    }
}

/// Those of these statements.
#[cycle(named)]
fn push_sequence<'a>(
    list: &mut Vec<NamedBlock<'a>>,
    alloc: Global,
    parts: &'a [Statement],
    outer: Option<u32>,
) -> Result<(), AllocError>
    ensures { OnOk result (map named list.new.items ≡ map named list.old.items ++ spec.blocks_in_sequence (view.statements parts.now) outer (length list.old.items)) }
{
    for s in parts {
        push_named(list, alloc, s, outer)?;
    }
    Ok(())
}

/// Those of the arms of a case.
#[cycle(named)]
fn push_arms<'a>(
    list: &mut Vec<NamedBlock<'a>>,
    alloc: Global,
    arms: &'a [CaseArm],
    outer: Option<u32>,
) -> Result<(), AllocError>
    ensures { OnOk result (map named list.new.items ≡ map named list.old.items ++ spec.blocks_in_arms (view.arms arms.now) outer (length list.old.items)) }
{
    for arm in arms {
        push_named(list, alloc, &arm.statement, outer)?;
    }
    Ok(())
}

/// The named blocks of a statement that are scopes. An error is want of memory; more than 32 bits count are too many, too.
pub fn named_blocks<'a>(alloc: Global, s: &'a Statement) -> Result<Vec<NamedBlock<'a>>, AllocError>
    ensures { IfOk result (λ list. map named list.items ≡ spec.named_blocks (view.statement s.now)) }
{
    let mut list = Vec::new(alloc);
    push_named(&mut list, alloc, s, None)?;
    Ok(list)
}

/// The name of one more that stands in no other.
fn push_outside<'a>(names: &mut Vec<BlockName<'a>>, b: &NamedBlock<'a>) -> Result<(), AllocError>
    ensures { OnOk result (map block_name names.new.items ≡ map block_name names.old.items ++ spec.name_outside (named b.now)) }
{
    match b.outer {
        None => {
            names.push(BlockName::Written(b.name))?;
            Ok(())
        }
        Some(_) => Ok(()),
    }
}

/// The names of those that stand in no other: names of the scope of their always block (12.7).
pub(crate) fn outside_names<'a>(
    alloc: Global,
    blocks: &[NamedBlock<'a>],
) -> Result<Vec<BlockName<'a>>, AllocError>
    ensures { IfOk result (λ names. map block_name names.items ≡ spec.names_outside (map named blocks.now)) }
{
    let mut names = Vec::new(alloc);
    for b in blocks {
        push_outside(&mut names, b)?;
    }
    Ok(names)
}

/// The named blocks of these statements that are scopes, as if nothing were around.
fn blocks_among<'a>(
    alloc: Global,
    parts: &'a [Statement],
) -> Result<Vec<NamedBlock<'a>>, AllocError>
    ensures { IfOk result (λ list. map named list.items ≡ spec.blocks_in_sequence (view.statements parts.now) None 0) }
{
    let mut list = Vec::new(alloc);
    push_sequence(&mut list, alloc, parts, None)?;
    Ok(list)
}

/// The names of what is declared.
fn known_names<'a>(alloc: Global, locals: &[Local<'a>]) -> Result<NameSet<'a>, AllocError>
    ensures { IfOk result (λ s. AreKnown s (local_texts (map local locals.now))) }
{
    let mut known = NameSet::new(alloc);
    for v in locals {
        known.add(v.name.text.as_slice())?;
    }
    Ok(known)
}

/// One block more, whose name is new unless it stands in another: its fault if the name is there already.
fn add_outside<'a>(known: &mut NameSet<'a>, b: &NamedBlock<'a>) -> Result<Option<Fault>, AllocError>
    ensures fault { (names : List (List ℕ)) → AreKnown known.old names → IfOk result (λ f. f ≡ least (spec.repeated_blocks names (spec.name_outside (named b.now)))) }
    ensures known { (names : List (List ℕ)) → AreKnown known.old names → OnOk result (AreKnown known.new (names_after names (spec.name_outside (named b.now)))) }
{
    match b.outer {
        None => {
            let name = b.name.text.as_slice();
            let again = fault_if(known.contains(name), Rule::DuplicateName, b.name.place);
            known.add(name)?;
            Ok(again)
        }
        Some(_) => Ok(None),
    }
}

/// The first of these blocks whose name is declared, or is that of a block before it; those that stand in others don't count.
fn repeated_fault<'a>(
    alloc: Global,
    locals: &[Local<'a>],
    blocks: &[NamedBlock<'a>],
) -> Result<Option<Fault>, AllocError>
    ensures { IfOk result (λ f. f ≡ least (spec.repeated_blocks (local_texts (map local locals.now)) (spec.names_outside (map named blocks.now)))) }
{
    let mut known = known_names(alloc, locals)?;
    let mut fault = None;
    for b in blocks {
        let again = add_outside(&mut known, b)?;
        fault = first_of(fault, again);
    }
    Ok(fault)
}

/// The first block right in this one whose name is one of a declaration of it, or of a block before it there.
fn clash_within(alloc: Global, b: &NamedBlock<'_>) -> Result<Option<Fault>, AllocError>
    ensures { IfOk result (λ f. f ≡ least (spec.clashes_within (named b.now))) }
{
    let locals = block_declared(alloc, b.scope)?;
    let within = blocks_among(alloc, b.parts)?;
    repeated_fault(alloc, locals.as_slice(), within.as_slice())
}

/// The first block in one of these whose name is one of a declaration of that one, or of a block before it there (12.7).
pub fn within_fault(alloc: Global, blocks: &[NamedBlock<'_>]) -> Result<Option<Fault>, AllocError>
    ensures { IfOk result (λ f. f ≡ least (flat_map spec.clashes_within (map named blocks.now))) }
{
    let mut fault = None;
    for b in blocks {
        let found = clash_within(alloc, b)?;
        fault = first_of(fault, found);
    }
    Ok(fault)
}

impl<'a> Signalling<'a> {
    /// The variables of these blocks more, the next scope being that of the first.
    fn signal_blocks(
        &mut self,
        alloc: Global,
        here: &View<'_, '_>,
        blocks: &[NamedBlock<'a>],
    ) -> Result<(), AllocError>
        requires { AreShapedBlocks (map named blocks.now) }
        ensures { OnOk result (IsSignedBlocks self.old self.new (view_env here.now) (map named blocks.now)) }
    {
        for b in blocks {
            self.signal_all(alloc, here, Role::InModule, false, b.variables.as_slice())?;
            self.next.scope = one_more(self.next.scope)?;
        }
        Ok(())
    }
}

/// How many bits a variable counts.
fn counted(s: &LocalSignal<'_>) -> u64
    ensures { result ≡ counted_bits (placed_local s.now) }
{
    if s.known { local_length(s) } else { 0 }
}

/// The count with one more variable, if it isn't over the most.
fn with_variable(total: u64, s: &LocalSignal<'_>) -> Option<u64>
    ensures { result ≡ (if nat_lt the_limits.bits (total + counted_bits (placed_local s.now)) then None else Some (total + counted_bits (placed_local s.now))) }
{
    let sum = total.checked_add(counted(s))?;
    if sum > MOST_BITS { None } else { Some(sum) }
}

/// The first variable with whose bits there are more than the most; `total` are those before.
pub fn variables_fault(total: u64, signals: &[LocalSignal<'_>]) -> Option<Fault>
    ensures { result ≡ least (over the_limits.bits total (map placed_local signals.now)) }
{
    let mut sum = total;
    for s in signals {
        match with_variable(sum, s) {
            None => return fault_at(Rule::TooManyBits, s.place),
            Some(next) => sum = next,
        }
    }
    None
}

/// An always block with named blocks that are scopes, as its statement sees it, with the variables of these; the first fault of their ranges, and where
/// what follows begins.
#[derive(Drop)]
pub struct SaidBlocks<'f, 'a> {
    pub inside: Inside<'f, 'a>,
    pub fault: Option<Fault>,
    pub next: Start,
}

/// An always block with these named blocks, which stands here; their scopes and signals begin at `start`.
///
/// An error is want of memory; more signals than 32 bits count, and more bits than 64, are too many, too.
pub fn within_blocks<'f, 'a>(
    alloc: Global,
    here: View<'f, 'a>,
    start: Start,
    blocks: &[NamedBlock<'a>],
) -> Result<SaidBlocks<'f, 'a>, AllocError>
    requires shaped { AreShapedBlocks (map named blocks.now) }
    requires outside { here.in_function ≡ false }
    ensures names { IfOk result (λ r. inside_names r.inside ≡ names_of (view_env here.entry)) }
    ensures said { IfOk result (λ r. IsSaidBlocks r (view_env here.entry) start (map named blocks.now)) }
{
    let mut all = Signalling {
        signals: Vec::new(alloc),
        next: LocalStart {
            scope: start.scope,
            signal: start.signal,
            bit: start.bit,
        },
        fault: None,
        known: true,
    };
    all.signal_blocks(alloc, &here, blocks)?;
    let Signalling {
        signals,
        next,
        fault,
        ..
    } = all;
    let places = numbered(alloc, signals.as_slice())?;
    Ok(SaidBlocks {
        inside: Inside {
            here,
            locals: Locals {
                signals,
                inputs: 0,
                passed: Vec::new(alloc),
                by_signal: PlaceMap::new(alloc),
                names: NameMap::new(alloc),
                places,
            },
        },
        fault,
        next: Start {
            scope: next.scope,
            top: start.top,
            signal: next.signal,
            bit: next.bit,
        },
    })
}

//! What a generate loop makes (IEEE 1364-2005, 12.4.1).

ghost use Rattle.std.specs.Prelude.{◌≡◌, None, ℕ, List, Option, IfOk, MatchOption, Some, map};
ghost use Rattle.vs_design.specs.Clocks.{same_name};
ghost use Rattle.vs_grammar.specs.Shapes.{IsHead};
ghost use Rattle.vs_ast.specs.Views as view;
ghost use Rattle.vs_ast.specs.Views.{option};
ghost use Rattle.vs_const.specs.Faults.{least};
ghost use Rattle.vs_elaborated.specs.Environments as environment;
ghost use Rattle.vs_elaborated.specs.Environments.{find_name};
ghost use Rattle.vs_elaborated.specs.Generate as generate;
ghost use Rattle.vs_elaborated.specs.Limits.{the_limits};
ghost use Rattle.vs_elaborated.specs.Loops as spec;
ghost use Rattle.vs_scope.specs.Blocks.{block, IsVariable};
ghost use Rattle.vs_scope.specs.Frames.{view_env};
ghost use Rattle.vs_scope.specs.Made as code;
ghost use Rattle.vs_scope.specs.Made.{made, kept, nested};
ghost use Rattle.vs_scope.specs.Seen.{Finds};
ghost use Rattle.vs_scope.specs.Turns.{AreTurns};

use crate::frames::Turn;
use crate::made::{Block, BlockName, Made, Nested, nothing_made};
use crate::names::{Declared, Entry};
use crate::places::View;
use crate::texts::{indexed, name_text};
use crate::turns::{Turns, genvar_value, turns_from};
use std::alloc::{AllocError, Global};
use vs_ast::{LoopHead, Name};
use vs_const::{Fault, Rule, fault_at, first_of};

/// Where a loop's variable is declared, if it is a genvar, and its fault.
#[derive(Clone, Copy)]
pub(crate) struct Variable {
    pub(crate) genvar: Option<u32>,
    pub(crate) fault: Option<Fault>,
}

/// A loop's variable, which is named at this place, by its declaration.
fn declared_variable(e: &Entry<'_>, place: u32) -> Variable
    ensures { (found : Option environment.Entry) (name : List ℕ) → Finds found name e.now → IsVariable result (spec.variable_of place found) }
{
    match e.declared {
        Declared::Genvar => Variable {
            genvar: Some(e.first.name.place),
            fault: None,
        },
        _ => Variable {
            genvar: None,
            fault: fault_at(Rule::WrongKind, place),
        },
    }
}

/// The variable of a loop: a genvar.
fn variable_of(name: &Name, here: &View<'_, '_>) -> Variable
    ensures { IsVariable result (spec.variable_of name.now.place (find_name (view_env here.now).frames (view.name name.now).bytes)) }
{
    match here.entry(name.text.as_slice()) {
        None => Variable {
            genvar: None,
            fault: fault_at(Rule::UnknownName, name.place),
        },
        Some(e) => declared_variable(e, name.place),
    }
}

/// The fault of a name that is none of a loop's variable.
fn declared_or(name: &Name, here: &View<'_, '_>) -> Option<Fault>
    ensures { result ≡ least (spec.declared_or name.now.place (find_name (view_env here.now).frames (view.name name.now).bytes)) }
{
    match here.entry(name.text.as_slice()) {
        None => fault_at(Rule::UnknownName, name.place),
        Some(_) => fault_at(Rule::WrongKind, name.place),
    }
}

/// Whether two names are the same.
fn is_same_name(a: &Name, b: &Name) -> bool
    ensures { result ≡ same_name (view.name a.now).bytes (view.name b.now).bytes }
{
    b.text.as_slice() == a.text.as_slice()
}

/// The fault of the second assignment: it is to the same variable.
fn again_fault(head: &LoopHead, is_same: bool, here: &View<'_, '_>) -> Option<Fault>
    requires { is_same ≡ same_name (view.name head.now.variable).bytes (view.name head.now.again).bytes }
    ensures { result ≡ least (spec.again_faults (view.name head.now.variable) (view.name head.now.again) (view_env here.now)) }
{
    if is_same {
        None
    } else {
        declared_or(&head.again, here)
    }
}

/// A block for each value.
fn turn_blocks<'a>(
    alloc: Global,
    body: Block<'a>,
    genvar: u32,
    values: &[u32],
) -> Result<Vec<Nested<'a>>, AllocError>
    ensures { IfOk result (λ bs. map nested bs.items ≡ spec.turn_blocks (block body.entry) genvar values.now) }
{
    let text = name_text(alloc, body.name)?;
    let mut blocks = Vec::new(alloc);
    for v in values {
        let name = indexed(alloc, text.as_slice(), *v)?;
        blocks.push(Nested {
            name,
            items: body.items,
            turn: Some(Turn { genvar, value: *v }),
        })?;
    }
    Ok(blocks)
}

/// The name of a loop's blocks; a loop without a turn declares none.
fn turn_names<'a>(
    alloc: Global,
    name: BlockName<'a>,
    values: &[u32],
) -> Result<Vec<BlockName<'a>>, AllocError>
    ensures { IfOk result (λ ns. map code.block_name ns.items ≡ spec.turn_names (code.block_name name.entry) values.now) }
{
    let mut names = Vec::new(alloc);
    if values.is_empty() {
        return Ok(names);
    }
    names.push(name)?;
    Ok(names)
}

/// The blocks of a loop's turns, behind this fault; a loop over `;` makes none.
fn loop_blocks<'a>(
    alloc: Global,
    body: Option<Block<'a>>,
    genvar: u32,
    turns: &Turns,
    fault: Option<Fault>,
) -> Result<Made<'a>, AllocError>
    ensures { (fs : List Fault) (t : spec.Turns) → fault ≡ least fs → AreTurns turns.now t
        → IfOk result (λ m. made m ≡ kept (generate.after_faults fs (spec.loop_blocks (option block body.entry) genvar t))) }
{
    let all = first_of(fault, turns.fault);
    match body {
        None => Ok(nothing_made(alloc, all, turns.count)),
        Some(b) => {
            let blocks = turn_blocks(alloc, b, genvar, turns.values.as_slice())?;
            let names = turn_names(alloc, b.name, turns.values.as_slice())?;
            Ok(Made {
                blocks,
                names,
                fault: all,
                turns: turns.count,
            })
        }
    }
}

/// What a loop makes by its variable and first value, behind this fault.
fn loop_at<'a>(
    alloc: Global,
    head: &LoopHead,
    is_same: bool,
    body: Option<Block<'a>>,
    here: &View<'_, 'a>,
    genvar: Option<u32>,
    first: Option<u32>,
    fault: Option<Fault>,
    total: u32,
) -> Result<Made<'a>, AllocError>
    requires shaped { IsHead (view.loop_head head.now) }
    requires inside { here.now.inside ≡ None }
    requires same { is_same ≡ same_name (view.name head.now.variable).bytes (view.name head.now.again).bytes }
    ensures { (fs : List Fault) → fault ≡ least fs → IfOk result (λ m. made m ≡ kept (spec.loop_from the_limits (view.loop_head head.now) genvar first fs (option block body.entry) (view_env here.now) total)) }
{
    match genvar {
        None => Ok(nothing_made(alloc, fault, total)),
        Some(genvar) => match first {
            None => Ok(nothing_made(alloc, fault, total)),
            Some(v) => {
                let all = turns_from(alloc, head, is_same, genvar, here, total, v)?;
                loop_blocks(alloc, body, genvar, &all, fault)
            }
        },
    }
}

/// What a loop makes. Its first fault is one of: `UnknownName` and `WrongKind`, its variable is no genvar, or the second assignment is to another name; `DuplicateName`, its
/// variable has a value again; `GenerateTurns`, it takes more than 4,096 turns, or all loops more than 1,048,576; and those of its expressions.
pub(crate) fn loop_made<'a>(
    alloc: Global,
    head: &LoopHead,
    body: Option<Block<'a>>,
    here: &View<'_, 'a>,
    total: u32,
) -> Result<Made<'a>, AllocError>
    requires shaped { IsHead (view.loop_head head.now) }
    requires inside { here.now.inside ≡ None }
    ensures { IfOk result (λ m. made m ≡ kept (spec.loop_made the_limits (view.loop_head head.now) (option block body.entry) (view_env here.now) total)) }
{
    let variable = variable_of(&head.variable, here);
    let is_same = is_same_name(&head.variable, &head.again);
    let again = again_fault(head, is_same, here);
    let first = genvar_value(alloc, &head.first, here)?;
    let fault = first_of(variable.fault, first_of(again, first.flaws.first));
    loop_at(
        alloc,
        head,
        is_same,
        body,
        here,
        variable.genvar,
        first.number,
        fault,
        total,
    )
}

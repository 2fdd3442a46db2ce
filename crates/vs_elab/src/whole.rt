//! From the tree of a text to its flat design (IEEE 1364-2005, clause 12).

ghost use Rattle.std.specs.Prelude.{◌≡◌, ◌≤◌, [], true, IfErr, IfOk, Ok, Err, None, Some};
ghost use Rattle.vs_design.specs.Designs.{Design};
ghost use Rattle.vs_grammar.specs.Depths.{module_depth};
ghost use Rattle.vs_grammar.specs.Shapes.{IsModule, IsShaped};
ghost use Rattle.vs_grammar.specs.Spelled.{depth_limit};
ghost use Rattle.vs_ast.specs.Views as view;
ghost use Rattle.vs_elaborated.specs.Limits.{the_limits};
ghost use Rattle.vs_elaborated.specs.Surveys.{no_totals};
ghost use Rattle.vs_elaborated.specs.Elaborated.{elaborated, elaborated_top, of_processes};
ghost use Rattle.vs_flat.specs.DesignOf.{design_of};
ghost use Rattle.vs_flat.specs.Lawful.{IsLawful};
ghost use Rattle.vs_build.specs.Growth.{draft};
ghost use Rattle.vs_elab.specs.Functions.{IsIdle};
ghost use Rattle.vs_elab.specs.Reading.{IsRead, IsReading, IsText, Tells, design_so_far, outcome, source_of, totals_so_far};

use crate::error::ElabError;
use crate::opened::open_scope;
use crate::reading::{Counts, NewScope, Reading, Text};
use crate::stack::{Pending, push_parts};
use crate::steps::read_part;
use std::alloc::Global;
use vs_ast::Source;
use vs_build::Builder;
use vs_const::{Fault, Rule};
use vs_elaborated::elaborated_law;
use vs_flat::Flat;
use vs_items::{Known, Loops, Modules, modules_of};
use vs_maps::NameMap;
use vs_scope::{Contents, Start};

/// How many scopes may stand within one another: the top, and at most 201 for each of 32 instances.
const SCOPE_DEPTH: u32 = 1 + 32 * 201;

/// Nothing has been read.
fn nothing_read<'a>(alloc: Global) -> Reading<'a>
    ensures design { design_so_far result ≡ of_processes [] }
    ensures frames { result.frames.items ≡ [] }
    ensures totals { totals_so_far result ≡ no_totals }
    ensures top { result.counts.start.top ≡ true }
    ensures read { IsRead result }
{
    Reading {
        builder: Builder::new(alloc),
        frames: Vec::new(alloc),
        counts: Counts {
            start: Start {
                scope: 0,
                top: true,
                signal: 0,
                bit: 0,
            },
            instances: 0,
            turns: 0,
            functions: 0,
            processes: 0,
        },
        loops: Loops::new(alloc),
    }
}

/// Reads all that is pending, one part after the other. An error is the first rule that is broken, or want of memory.
fn read_pending<'a>(
    alloc: Global,
    text: &Text<'a>,
    reading: Reading<'a>,
    stack: Vec<Pending<'a>>,
) -> Result<Reading<'a>, ElabError>
    requires text { IsText text.now }
    requires reading { IsReading text.now reading stack.items }
    ensures design { IfOk result (λ r. outcome text.now reading.entry stack.entry.items ≡ Ok (design_so_far r)) }
    ensures idle { IfOk result (λ r. IsIdle (draft r.builder)) }
    ensures broken { IfErr result (λ e. Tells e (λ f. outcome text.now reading.entry stack.entry.items ≡ Err f)) }
{
    let mut reading = reading;
    let mut stack = stack;
    while let Some(next) = stack.pop() {
        read_part(alloc, text, &mut reading, &mut stack, next)?;
    }
    Ok(reading)
}

/// Reads the top, and then all that is within it. An error is the first rule that is broken, or want of memory.
fn read_top<'a>(alloc: Global, text: &Text<'a>, top: &Known<'a>) -> Result<Reading<'a>, ElabError>
    requires text { IsText text.now }
    requires shaped { IsModule (view.module_tree top.now.of.now) }
    requires shallow { module_depth (view.module_tree top.now.of.now) ≤ depth_limit }
    ensures design { IfOk result (λ r. elaborated_top the_limits (source_of text.now) (Some (view.module_tree top.now.of.now)) ≡ Ok (design_so_far r)) }
    ensures idle { IfOk result (λ r. IsIdle (draft r.builder)) }
    ensures broken { IfErr result (λ e. Tells e (λ f. elaborated_top the_limits (source_of text.now) (Some (view.module_tree top.now.of.now)) ≡ Err f)) }
{
    let mut reading = nothing_read(alloc);
    let mut stack = Vec::new(alloc);
    let none = NameMap::new(alloc);
    let scope = NewScope {
        name: top.of.name.text.as_slice(),
        within: None,
        contents: Contents::Module(top.of),
        overrides: &none,
        parent: None,
        turn: None,
        depth: 1,
        place: 0,
    };
    let parts = open_scope(alloc, text, &mut reading, scope)?;
    push_parts(&mut stack, parts, 0, 1, SCOPE_DEPTH - 1)?;
    read_pending(alloc, text, reading, stack)
}

/// The design that the tree of a text has from the module `top` on, flat: every scope, signal, function, process and initial process of it in the order of the text, each scope
/// before those within it (IEEE 1364-2005, 12.1). Nothing of the text is borrowed by it.
///
/// An error is the first rule that is broken: `DuplicateModule` before all others, then `NoTop`, then those of one scope after the other, each scope before those within
/// it; of a scope that at the least token, and there the one with the least number.
/// - `NotConstant`, `UnknownConstant`: an expression that has to be constant isn't, or has unknown bits.
/// - `NoTop`: the text has no module `top`; the place is 0.
/// - `DuplicateModule`: the second module of a name.
/// - `UnknownModule`: an instance of a module that the text doesn't have.
/// - `UnknownName`, `DuplicateName`: a name that isn't declared, or is twice (12.7).
/// - `BadRange`: a range, the addresses of a memory, a select or a number of copies that has no meaning.
/// - `PortCount`, `UnknownPort`: too many connections or overrides, and one of a name that the module doesn't have (12.2, 12.3).
/// - `InstanceDepth`, `TooManyInstances`: over 32 instances within one another, and over 4,096 in all.
/// - `GenerateTurns`: over 4,096 turns of one generate loop, or 1,048,576 of all (12.4.1).
/// - `WrongKind`: a name of another kind than is needed there, and a memory of which a block writes a word that isn't clocked (4.9).
/// - `TooManyBits`, `TooManyProcesses`: over 1,048,576 bits, and over 65,536 processes.
/// - `LoopTurns`: over 4,096 turns of one loop of a block or of a function, or over 1,048,576 copies of statements of all (9.6).
/// - `LoopVariable`: an integer that is named outside of its loops or assigned within one, heads a loop within its own, or heads loops of two blocks (9.6).
/// - `FunctionRule`: a function without inputs, with a `<=`, with over 64 calls within one another or with over 1,048,576 local bits, what a function may not
///   name, a call with another number of arguments, and an assign or a block with `@*` that calls a function which reads a signal that the process doesn't
///   name outside of calls (10.4).
/// - `Recursion`: a function that is called by itself, or by one declared before it (10.4.1).
///
/// Or it is want of memory. It takes time linear in the text and in what the generate constructs, loops, instances and calls make of it.
pub fn flatten(alloc: Global, source: &Source, top: &[u8]) -> Result<Flat, ElabError>
    requires { IsShaped (view.source source.now) }
    ensures design { IfOk result (λ f. elaborated (view.source source.now) top.now ≡ Ok (design_of f)) }
    ensures lawful { IfOk result IsLawful }
    ensures broken { IfErr result (λ e. Tells e (λ f. elaborated (view.source source.now) top.now ≡ Err f)) }
{
    let Modules { by_name, repeated } = modules_of(alloc, source)?;
    if let Some(fault) = repeated {
        return Err(ElabError::Broken(fault));
    }
    let text = Text {
        source,
        modules: by_name,
    };
    match text.modules.get(top) {
        None => Err(ElabError::Broken(Fault {
            rule: Rule::NoTop,
            place: 0,
        })),
        Some(known) => {
            let reading = read_top(alloc, &text, known)?;
            elaborated_law();
            Ok(reading.builder.finish())
        }
    }
}

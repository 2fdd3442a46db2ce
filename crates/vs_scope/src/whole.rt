//! All that one scope says but for its items (IEEE 1364-2005, clause 12).

ghost use Rattle.std.specs.Prelude.{◌≡◌, None, IfOk, List, map};
ghost use Rattle.vs_grammar.specs.Shapes.{Each};
ghost use Rattle.vs_const.specs.Faults.{least};
ghost use Rattle.vs_elaborated.specs.Signals.{SaidSignal, all_nets};
ghost use Rattle.vs_elaborated.specs.Surveys.{header_of, declarations_of};
ghost use Rattle.vs_scope.specs.Again.{AreSeen};
ghost use Rattle.vs_scope.specs.Complete.{KeepsShapes, complete, function_declaration};
ghost use Rattle.vs_scope.specs.Counts.{counted};
ghost use Rattle.vs_scope.specs.Frames.{around_env};
ghost use Rattle.vs_scope.specs.Functions.{functions_in};
ghost use Rattle.vs_scope.specs.Wholes.{IsDeclared, scope_after};
ghost use Rattle.vs_scope.specs.declared.frames.Frame.{Frame};
ghost use Rattle.vs_maps.specs.declared.maps.NameMap.{NameMap};
ghost use Rattle.vs_scope.specs.declared.parameters.Override.{Override};
ghost use Rattle.vs_scope.specs.Made as code;
ghost use Rattle.vs_scope.specs.Overrides.{AreOverrides};
ghost use Rattle.vs_scope.specs.Signalled.{net, placed, placed_of, start_of};
ghost use Rattle.vs_scope.specs.Surveys.{IsShapedScope, MeanTheSame, contents_of, counts_behind, entries_in, faults_in, made_in, signals_in, start_behind, turns_behind};
ghost use Rattle.vs_scope.specs.Views.{signal_meaning};

use crate::bits::bits_fault;
use crate::constructs::{Making, constructs};
use crate::contents::Contents;
use crate::counts::{Counts, one_more};
use crate::header::header_fault;
use crate::made::Made;
use crate::names::{Names, Signal};
use crate::parameters::Override;
use crate::places::{Around, View};
use crate::scope::{SaidScope, declare_scope};
use crate::signals::{Start, all_nets};
use std::alloc::{AllocError, Global};
use vs_const::{Fault, first_of};
use vs_maps::NameMap;

/// What one scope says but for its items: its names with the values of its parameters, its signals, its functions and the names of its blocks; the
/// signals in order of declaration, and as `nets` those of the design, where an array of nets is each of its nets; what each of its items makes, in
/// order; the first fault of all of it; the count of all generate loops' turns behind it; the counts behind its functions; and where the next scope's
/// signals begin.
#[derive(Drop)]
pub struct Surveyed<'a> {
    pub names: Names<'a>,
    pub signals: Vec<Signal<'a>>,
    pub nets: Vec<Signal<'a>>,
    pub made: Vec<Made<'a>>,
    pub fault: Option<Fault>,
    pub turns: u32,
    pub counts: Counts,
    pub next: Start,
}

/// The first fault of a module's header; a block has none.
fn scope_header_fault(alloc: Global, contents: Contents<'_>) -> Result<Option<Fault>, AllocError>
    ensures { (frames : List Frame) (overrides : NameMap Override) → IfOk result (λ f. f ≡ least (header_of (contents_of frames overrides contents.entry))) }
{
    match contents {
        Contents::Module(whole) => header_fault(alloc, whole),
        Contents::Block(_) => Ok(None),
    }
}

/// What the declarations of a scope say; a block has no overrides.
fn declare_contents<'a>(
    alloc: Global,
    contents: Contents<'a>,
    overrides: &NameMap<'a, Override<'a>>,
    around: Around<'_, 'a>,
    start: Start,
    counts: Counts,
) -> Result<SaidScope<'a>, AllocError>
    requires overrides { AreOverrides around.frames.now overrides.now }
    requires shaped { IsShapedScope contents }
    ensures declared { IfOk result (λ r. IsDeclared r (around_env around.entry) (contents_of around.entry.frames.now overrides.now contents.entry) (start_of start) (counted counts)) }
{
    match contents {
        Contents::Module(_) => {
            let said = declare_scope(alloc, contents, overrides, around, start, counts)?;
            Ok(said)
        }
        Contents::Block(_) => {
            let none = NameMap::new(alloc);
            let said = declare_scope(alloc, contents, &none, around, start, counts)?;
            Ok(said)
        }
    }
}

/// Where the signals of the next scope begin, which isn't the top. More scopes than 32 bits count are too many for memory.
fn next_scope(start: Start) -> Result<Start, AllocError>
    ensures { IfOk result (λ r. start_of r ≡ scope_after (start_of start)) }
{
    let scope = one_more(start.scope)?;
    Ok(Start {
        scope,
        top: false,
        signal: start.signal,
        bit: start.bit,
    })
}

/// What a scope says but for its items: what it declares, and what its generate constructs make. `around` is what is around the scope, `overrides`
/// are those of an instance (a block has none), `start` says where its signals begin, `turns` counts the turns of all generate loops before it,
/// and `counts` are those before it.
///
/// `fault` is the first rule that any of it breaks, at a token of the text. Where several are, it is the one at the least token, and there the one
/// with the least number:
/// - `UnknownConstant`: a label of a generate `case` has unknown bits, or the value of a loop's variable has.
/// - `UnknownName`, `DuplicateName`, `UnknownPort`: a name of the header's plain list without a direction, one that stands there again, and a direction of another name (12.3.3).
/// - `DuplicateName`: a second declaration of a name (12.7), a block of a declared name, or a loop's variable that has a value again.
/// - `BadRange`: a range or addresses that have no meaning, unequal ranges of one signal, or a negative value of a loop's variable.
/// - `UnknownName`, `WrongKind`: a loop's variable that is no genvar, and a second assignment to another name (12.4.1).
/// - `GenerateTurns`: over 4,096 turns of one loop, or 1,048,576 of all.
/// - `TooManyBits`: over 1,048,576 bits of all signals.
/// - those of a function: of its statement (`vs_bodies::check_statement`), of the ranges of its local signals; `DuplicateName`, two of its declarations have
///   one name; and `FunctionRule`, it has no input, calls nest over 64 deep in it, or its local signals have over 1,048,576 bits, at its `function`.
/// - and what a constant breaks: `NotConstant`, `UnknownConstant`, `UnknownName`, `BadRange` and `WrongKind`.
///
/// An error is want of memory; more scopes, signals, functions, constructs, turns or copies than 32 bits count, and more bits than 64, are too many, too.
pub fn survey<'a>(
    alloc: Global,
    contents: Contents<'a>,
    overrides: &NameMap<'a, Override<'a>>,
    around: Around<'_, 'a>,
    start: Start,
    turns: u32,
    counts: Counts,
) -> Result<Surveyed<'a>, AllocError>
    requires overrides { AreOverrides around.frames.now overrides.now }
    requires shaped { IsShapedScope contents }
    ensures names { IfOk result (λ r. MeanTheSame (complete (around_env around.entry) r.names) (entries_in (around_env around.entry) (contents_of around.entry.frames.now overrides.now contents.entry) (start_of start) (counted counts) turns)) }
    ensures entries { IfOk result (λ r. r.fault ≡ None → complete (around_env around.entry) r.names ≡ entries_in (around_env around.entry) (contents_of around.entry.frames.now overrides.now contents.entry) (start_of start) (counted counts) turns) }
    ensures kept { IfOk result (λ r. KeepsShapes (around_env around.entry) r.names) }
    ensures seen { IfOk result (λ r. AreSeen r.names (around_env around.entry) (contents_of around.entry.frames.now overrides.now contents.entry) (start_of start) (counted counts)) }
    ensures functions { IfOk result (λ r. map function_declaration r.names.functions.items ≡ functions_in (declarations_of (contents_of around.entry.frames.now overrides.now contents.entry))) }
    ensures counts { IfOk result (λ r. counted r.counts ≡ counts_behind (around_env around.entry) (contents_of around.entry.frames.now overrides.now contents.entry) (start_of start) (counted counts)) }
    ensures placed { IfOk result (λ r. map placed r.signals.items ≡ map placed_of (signals_in (around_env around.entry) (contents_of around.entry.frames.now overrides.now contents.entry) (start_of start))) }
    ensures signals { IfOk result (λ r. map (λ (x : _). (signal_meaning x).signal) r.signals.items ≡ map (λ (x : SaidSignal). x.meaning.signal) (signals_in (around_env around.entry) (contents_of around.entry.frames.now overrides.now contents.entry) (start_of start))) }
    ensures nets { IfOk result (λ r. map net r.nets.items ≡ all_nets (signals_in (around_env around.entry) (contents_of around.entry.frames.now overrides.now contents.entry) (start_of start))) }
    ensures made { IfOk result (λ r. map code.made r.made.items ≡ map code.kept (made_in (around_env around.entry) (contents_of around.entry.frames.now overrides.now contents.entry) (start_of start) (counted counts) turns)) }
    ensures blocks { IfOk result (λ r. Each code.AreShapedBlocks r.made.items) }
    ensures fault { IfOk result (λ r. r.fault ≡ least (faults_in (around_env around.entry) (contents_of around.entry.frames.now overrides.now contents.entry) (start_of start) (counted counts) turns)) }
    ensures turns { IfOk result (λ r. r.turns ≡ turns_behind (around_env around.entry) (contents_of around.entry.frames.now overrides.now contents.entry) (start_of start) (counted counts) turns) }
    ensures next { IfOk result (λ r. start_of r.next ≡ start_behind (around_env around.entry) (contents_of around.entry.frames.now overrides.now contents.entry) (start_of start)) }
{
    let header = scope_header_fault(alloc, contents)?;
    let SaidScope {
        names,
        signals,
        fault: declared,
        next,
        counts,
    } = declare_contents(alloc, contents, overrides, around, start, counts)?;
    let mut names = names;
    let here = View {
        around,
        names: &names,
        inside: None,
        before: None,
        in_function: false,
    };
    let Making {
        made,
        fault: constructed,
        turns,
        ..
    } = constructs(alloc, contents, &here, turns)?;
    let clashes = names.add_blocks(alloc, made.as_slice())?;
    let bits = bits_fault(start.bit, signals.as_slice());
    let nets = all_nets(alloc, signals.as_slice())?;
    let next = next_scope(next)?;
    let fault = first_of(
        header,
        first_of(declared, first_of(constructed, first_of(clashes, bits))),
    );
    Ok(Surveyed {
        names,
        signals,
        nets,
        made,
        fault,
        turns,
        counts,
        next,
    })
}

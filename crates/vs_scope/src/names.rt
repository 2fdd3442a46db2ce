//! The names of a scope, and what each of them was declared as (IEEE 1364-2005, 12.7).

ghost use Rattle.std.specs.Prelude.{◌≡◌, ◌≤◌, [], None, Some, MatchOption};
ghost use Rattle.std.specs.Option.{ForSome, option_copied};
ghost use Rattle.vs_four.specs.Selects.{range_length};
ghost use Rattle.vs_const.specs.Meanings.{IsFairValue};
ghost use Rattle.vs_elaborated.specs.Environments.{find_entry};
ghost use Rattle.vs_maps.specs.Maps.{value_at};
ghost use Rattle.vs_maps.specs.MapViews.{pairs};

use crate::counts::Counts;
use std::alloc::Global;
use vs_ast::{Expr, Function, Name, Parameters, Signals};
use vs_const::{Constant, FunctionShape, Role, SignalShape};
use vs_four::Range;
use vs_maps::NameMap;

/// What a declaration declares.
#[derive(Clone, Copy)]
pub enum Sort<'a> {
    /// A signal, by all that its declaration says, with the addresses of a memory (4.9); `header` says whether it is one of a header's ports.
    Signal {
        signals: &'a Signals,
        addresses: &'a Option<vs_ast::Range>,
        header: bool,
    },
    /// A parameter, with its default.
    Parameter {
        parameters: &'a Parameters,
        value: &'a Expr,
    },
    /// A function (10.4.1).
    Function(&'a Function),
    Genvar,
    /// An integer that is a variable (4.8).
    Variable,
    /// Another integer, which heads loops (9.6).
    Integer,
    /// An instance, or a named generate block.
    Scope,
}

/// A name, and what it is declared as.
#[derive(Clone, Copy)]
pub struct Declaration<'a> {
    pub name: &'a Name,
    pub sort: Sort<'a>,
}

/// A signal of a scope (3.2, 3.3). `number` and `first` are the numbers of the signal and of its first bit in the design, `input` says whether
/// it is an input of the top and `is_input` whether it is one of its own module, and `known` that no fault leaves its range undefined. A memory
/// (4.9) and an array of nets have addresses in `words`, the greater bound on the left, at most 1,024; `range`, of at most 64 bits, is then that of
/// each word. An array's number and first bit are those of its net at the least address. `integer` says that it is declared as an integer (4.8), and
/// `place` is that of its first declaration.
#[derive(Clone, Copy)]
pub struct Signal<'a> {
    pub name: &'a [u8],
    pub place: u32,
    pub scope: u32,
    pub number: u32,
    pub net: bool,
    pub input: bool,
    pub range: Option<Range>,
    pub signed: bool,
    pub first: u64,
    pub words: Option<Range>,
    pub integer: bool,
    pub is_input: bool,
    pub known: bool,
    ghost short: { ForSome range (λ r. range_length r ≤ 64) },
    ghost few: { ForSome words (λ r. range_length r ≤ 1024) },
}

/// A local signal of a function (10.4.1): an input of it, its result or a variable of its own, as `role` and `input` say; or a variable of a named block of
/// an always block (9.8.2). `number` and `first` are its number and that of its first bit, among the function's local signals or in the design, `known` says
/// that no fault leaves its range undefined, `integer` that it is declared as an integer (4.8), and `place` is that of its declaration.
#[derive(Clone, Copy)]
pub struct LocalSignal<'a> {
    pub name: &'a [u8],
    pub place: u32,
    pub scope: u32,
    pub number: u32,
    pub input: bool,
    pub range: Option<Range>,
    pub signed: bool,
    pub integer: bool,
    pub first: u64,
    pub role: Role,
    pub known: bool,
    ghost short: { ForSome range (λ r. range_length r ≤ 64) },
}

/// The value of a parameter, with the range of its bits (4.10, 12.2): 1 to 64, and as many as the range has.
#[derive(Clone, Copy)]
pub struct Parameter {
    pub value: Constant,
    pub range: Range,
    ghost fair: { IsFairValue (record { bits = value.bits; signed = value.signed }) range },
}

/// What a parameter is found to be.
#[derive(Clone, Copy)]
pub enum Evaluated {
    Value(Parameter),
    /// A fault leaves the value undefined; the range may be known.
    Undefined(Option<Range>),
}

/// What is known of a declared name.
#[derive(Clone, Copy)]
pub enum Declared<'a> {
    /// A parameter that wasn't evaluated yet.
    Later,
    /// A signal whose range and number aren't known yet.
    Announced,
    Signal(Signal<'a>),
    Parameter(Evaluated),
    /// A function, with what a call needs to know of it once it is complete (10.4).
    Function(Option<FunctionShape>),
    Genvar,
    /// An integer that is no variable (4.8), and the number of the scope that declares it.
    Integer { scope: u32 },
    /// An instance or a named generate block.
    Scope,
}

/// A name of a scope: its first declaration, for a signal perhaps its second one (12.3.3), and what is known of it.
#[derive(Clone, Copy)]
pub struct Entry<'a> {
    pub first: Declaration<'a>,
    pub second: Option<Declaration<'a>>,
    pub declared: Declared<'a>,
}

/// An input that passes a signal of its module to a function (10.4.4). `signal` is the number of that signal, `number` and `first` are the number of the
/// input and that of its first bit, among the function's local signals; `known` says that no fault leaves its range undefined.
#[derive(Clone, Copy)]
pub struct PassedInput {
    pub signal: u32,
    pub scope: u32,
    pub number: u32,
    pub range: Option<Range>,
    pub signed: bool,
    pub first: u64,
    pub known: bool,
}

/// The names of a scope, in order of declaration. `scope` is its number, and `counts` are those before it. `functions` are those of its functions that
/// are complete so far, in the order of the text; they see the first `plain` names, which are all but those of blocks. `reads` are the signals of the module
/// that each of them reads, by its name.
#[derive(Drop)]
pub struct Names<'a> {
    pub map: NameMap<'a, Entry<'a>>,
    pub reads: NameMap<'a, Vec<SignalShape>>,
    pub scope: u32,
    pub counts: Counts,
    pub functions: Vec<&'a Function>,
    pub plain: usize,
}

impl<'a> Names<'a> {
    ghost use Rattle.std.specs.Prelude.{slice_get};
    ghost use Rattle.vs_const.specs.Meanings.{FunctionMeaning, IsShapeIn};
    ghost use Rattle.vs_elaborated.specs.Environments as environment;
    ghost use Rattle.vs_elaborated.specs.Environments.{Env};
    ghost use Rattle.vs_scope.specs.Complete.{IsIncomplete, KeepsShapes, complete};
    ghost use Rattle.vs_scope.specs.Views.{entries, entry_of};

    /// The names of a scope of this number in which no expression stands: that of a named block.
    pub fn none(alloc: Global, scope: u32) -> Names<'a>
        ensures entries { entries result ≡ [] }
        ensures incomplete { IsIncomplete result }
        ensures scope { result.scope ≡ scope }
    {
        Names {
            map: NameMap::new(alloc),
            reads: NameMap::new(alloc),
            scope,
            counts: Counts {
                copies: 0,
                functions: 0,
            },
            functions: Vec::new(alloc),
            plain: 0,
        }
    }

    /// The declaration of this name, if there is one.
    pub fn find(&self, name: &[u8]) -> Option<&Entry<'a>>
        ensures value { option_copied result ≡ value_at name.now (pairs self.now.map) }
        ensures entry { MatchOption result (find_entry (entries self.now) name.now ≡ None) (λ e. find_entry (entries self.now) name.now ≡ Some (entry_of name.now e.now)) }
    {
        self.map.get(name)
    }

    /// The signal of this number among those that a call of the function of this name passes (10.4.4).
    pub(crate) fn passed(&self, name: &[u8], number: u32) -> Option<SignalShape>
        ensures { (outer : Env) (e : environment.Entry) (f : FunctionMeaning) → KeepsShapes outer self.now → find_entry (complete outer self.now) name.now ≡ Some e → e.declared ≡ environment.OfFunction (Some f)
            → IsShapeIn result (slice_get f.passed number) }
    {
        match self.reads.get(name) {
            None => None,
            Some(list) => list.as_slice().get(number as usize).copied(),
        }
    }
}

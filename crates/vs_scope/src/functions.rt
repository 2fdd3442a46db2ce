//! The functions of a scope (IEEE 1364-2005, 10.4).

ghost use Rattle.std.specs.Prelude.{◌≡◌, ◌++◌, ◌∷◌, ◌==◌, ◌||◌, ◌&&◌, [], is_none, nat_le, nat_lt, ℕ, IfOk, OnOk, List, map};
ghost use Rattle.vs_grammar.specs.Shapes.{IsFunction};
ghost use Rattle.vs_ast.specs.Views as view;
ghost use Rattle.vs_const.specs.Faults.{least, fault_if};
ghost use Rattle.vs_const.specs.declared.rules.Rule.TheVariants.{FunctionRule};
ghost use Rattle.vs_const.specs.Meanings.{FunctionMeaning};
ghost use Rattle.vs_const.specs.MentionViews.{kept, kept_of};
ghost use Rattle.vs_elaborated.specs.Declarations as declarations;
ghost use Rattle.vs_elaborated.specs.Environments as environment;
ghost use Rattle.vs_elaborated.specs.Environments.{within};
ghost use Rattle.vs_elaborated.specs.Functions as spec;
ghost use Rattle.vs_elaborated.specs.Limits.{the_limits};
ghost use Rattle.vs_scope.specs.Complete.{IsIncomplete, KeepsShapes, complete, function_declaration, shapes_in, shapes_of};
ghost use Rattle.vs_scope.specs.Counts.{counted};
ghost use Rattle.vs_scope.specs.Frames.{around_env};
ghost use Rattle.vs_scope.specs.Functions.{AreCompleted, IsCalled, IsOfParts, IsSaidFunction, IsSameScope, IsSaying, functions_in, is_incomplete};
ghost use Rattle.vs_scope.specs.Seen.{HasShape};
ghost use Rattle.vs_scope.specs.Shaped.{AreShaped, IsShaped};
ghost use Rattle.vs_scope.specs.Views.{declaration, entries};

use crate::counts::{Counts, one_more, together};
use crate::inside::{Inside, SaidLocals, function_reads, said_locals};
use crate::names::{Declaration, Declared, Entry, Names, Sort};
use crate::places::{Around, View};
use std::alloc::{AllocError, Global};
use vs_ast::Function;
use vs_bodies::{BodyKind, StatementSaid, check_statement};
use vs_const::{Fault, FunctionShape, Rule, SignalShape, fault_if, first_of};

/// How many statements loops copy at most, those of all blocks and functions together.
const MOST_COPIES: u32 = 1_048_576;

/// How deep calls nest at most.
const MOST_CALLS: u32 = 64;

/// How many bits a function's local signals have at most.
const MOST_BITS: u64 = 1_048_576;

/// What a function says: what a call needs to know of it, the first rule that it breaks, and how many statements its loops copy.
#[derive(Clone, Copy)]
pub(crate) struct SaidFunction {
    pub(crate) shape: FunctionShape,
    pub(crate) fault: Option<Fault>,
    pub(crate) copies: u32,
}

/// What a function says, and the signals of its module that it reads (10.4.4).
#[derive(Drop)]
pub(crate) struct ReadFunction {
    pub(crate) said: SaidFunction,
    pub(crate) reads: Vec<SignalShape>,
}

/// What functions say so far: the first rule that they break, and the counts then.
#[derive(Clone, Copy)]
pub(crate) struct SaidFunctions {
    pub(crate) fault: Option<Fault>,
    pub(crate) counts: Counts,
}

/// What a function's local signals say: how many of them are inputs that it declares, and how many pass signals of its module, the range and the sign of its
/// result, the first fault of their names and ranges, whether all ranges are known, and how many bits they have.
#[derive(Clone, Copy)]
pub(crate) struct SaidHeader {
    pub(crate) inputs: usize,
    pub(crate) passed: usize,
    pub(crate) range: Option<vs_four::Range>,
    pub(crate) signed: bool,
    pub(crate) fault: Option<Fault>,
    pub(crate) known: bool,
    pub(crate) bits: u64,
}

/// The fault of a function without inputs, of one in which calls nest too deep, and of one of too many bits.
fn size_fault(place: u32, inputs: usize, depth: u32, bits: u64) -> Option<Fault>
    ensures { result ≡ least (fault_if ((inputs == 0) || (nat_le 64 depth || nat_lt spec.most_bits bits)) FunctionRule place) }
{
    let is_over = inputs == 0 || (depth >= MOST_CALLS || bits > MOST_BITS);
    fault_if(is_over, Rule::FunctionRule, place)
}

/// How many inputs; more than 32 bits count are too many for memory.
fn input_count(inputs: usize) -> Result<u32, AllocError>
    ensures { IfOk result (λ n. n ≡ inputs) }
{
    match u32::try_from(inputs) {
        Err(_) => Err(AllocError),
        Ok(n) => Ok(n),
    }
}

/// Whether no fault leaves a function undefined.
fn is_known(known: bool, fault: Option<Fault>) -> bool
    ensures { result ≡ (known && is_none fault) }
{
    known && fault.is_none()
}

/// How deep calls nest, which no function does more than 64 deep that is called.
fn call_depth(depth: u32) -> Result<u8, AllocError>
    ensures { IfOk result (λ n. n ≡ depth) }
{
    match u8::try_from(depth) {
        Err(_) => Err(AllocError),
        Ok(n) => Ok(n),
    }
}

/// A function at this place and of this number, by what its local signals and its statement say.
fn function_of(
    place: u32,
    number: u32,
    header: SaidHeader,
    said: StatementSaid,
) -> Result<SaidFunction, AllocError>
    ensures { IfOk result (λ r. IsOfParts r place number header said) }
{
    let size = size_fault(place, header.inputs, said.depth, header.bits);
    let fault = first_of(header.fault, first_of(said.fault, size));
    let inputs = input_count(header.inputs)?;
    let passed = input_count(header.passed)?;
    let depth = call_depth(said.depth)?;
    Ok(SaidFunction {
        shape: FunctionShape {
            number,
            inputs,
            passed,
            range: header.range,
            signed: header.signed,
            known: is_known(header.known, fault),
            depth,
        },
        fault,
        copies: said.copies,
    })
}

/// What a function of a scope says, by the functions of the scope that are complete. `number` is its number in the design, and `most` says how many
/// statements its loops may copy.
///
/// Its faults are those of its local signals (`said_locals`), those of its statement (`vs_bodies::check_statement`), and `FunctionRule`, at its `function`: it
/// declares no input, calls nest over 64 deep in it, or its local signals have over 1,048,576 bits, those among them that pass what it reads of its module.
pub(crate) fn said_function<'a>(
    alloc: Global,
    around: Around<'_, 'a>,
    names: &Names<'a>,
    f: &'a Function,
    number: u32,
    most: u32,
) -> Result<ReadFunction, AllocError>
    requires shaped { IsFunction (view.function f.now) }
    requires kept { KeepsShapes (around_env around) names.now }
    ensures said { IfOk result (λ r. IsSaidFunction r.said (spec.said_function number most names.now.scope (within (around_env around.entry) (complete (around_env around.entry) names.now)) (view.function f.now))) }
    ensures reads { IfOk result (λ r. map kept r.reads.items ≡ map kept_of (spec.function_reads (within (around_env around.entry) (complete (around_env around.entry) names.now)) (view.function f.now))) }
{
    let reads = function_reads(alloc, around, names, f)?;
    let here = View {
        around,
        names,
        inside: None,
        before: None,
        in_function: true,
    };
    let SaidLocals {
        locals,
        result_range,
        result_signed,
        fault,
        known,
        bits,
    } = said_locals(alloc, &here, names.scope, f, reads.as_slice())?;
    let header = SaidHeader {
        inputs: locals.inputs,
        passed: reads.len(),
        range: result_range,
        signed: result_signed,
        fault,
        known,
        bits,
    };
    let inside = Inside { here, locals };
    let kind = BodyKind {
        in_function: true,
        takes_variables: true,
        clocked: false,
    };
    let said = check_statement(alloc, &f.statement, kind, &inside, most)?;
    let whole = function_of(f.place, number, header, said)?;
    Ok(ReadFunction { said: whole, reads })
}

/// Whether it is a function that isn't complete yet.
pub(crate) fn is_incomplete(d: &Declared<'_>) -> bool
    ensures { result ≡ is_incomplete d.now }
{
    match d {
        Declared::Function(None) => true,
        _ => false,
    }
}

impl<'a> Names<'a> {
    /// What a call needs to know is kept of the function of this name, if its first declaration is a function that wasn't complete.
    fn put_shape(
        &mut self,
        name: &'a [u8],
        shape: FunctionShape,
        reads: Vec<SignalShape>,
    ) -> Result<(), AllocError>
        ensures entries { OnOk result (entries self.new ≡ entries self.old) }
        ensures rest { OnOk result (IsSameScope self.old self.new) }
        ensures shapes { OnOk result ((es : List environment.Entry) (g : FunctionMeaning) → AreCompleted (entries self.old) es → shapes_in self.old ≡ shapes_of es → HasShape shape g → map kept reads.items ≡ map kept_of g.passed
            → shapes_in self.new ≡ shapes_of (spec.put_function name.now g es)) }
    {
        match self.map.get(name).copied() {
            None => Ok(()),
            Some(
                Entry {
                    first,
                    second,
                    declared,
                },
            ) => {
                if is_incomplete(&declared) {
                    self.map.put(
                        name,
                        Entry {
                            first,
                            second,
                            declared: Declared::Function(Some(shape)),
                        },
                    )?;
                    self.reads.put(name, reads)?;
                }
                Ok(())
            }
        }
    }

    /// This function is complete now. The first declaration of a name that is a function is the function that is called by it.
    pub(crate) fn put_function(
        &mut self,
        f: &'a Function,
        shape: FunctionShape,
        reads: Vec<SignalShape>,
    ) -> Result<(), AllocError>
        ensures called { OnOk result (IsCalled self.old self.new f.entry) }
        ensures shapes { OnOk result ((es : List environment.Entry) (g : FunctionMeaning) → AreCompleted (entries self.old) es → shapes_in self.old ≡ shapes_of es → HasShape shape g → map kept reads.items ≡ map kept_of g.passed
            → shapes_in self.new ≡ shapes_of (spec.put_function (view.function f.now).name.bytes g es)) }
    {
        self.put_shape(f.name.text.as_slice(), shape, reads)?;
        self.functions.push(f)?;
        Ok(())
    }
}

/// One function more, by those before it.
fn say_function<'a>(
    alloc: Global,
    around: Around<'_, 'a>,
    f: &'a Function,
    said: SaidFunctions,
    names: &mut Names<'a>,
) -> Result<SaidFunctions, AllocError>
    requires shaped { IsFunction (view.function f.now) }
    requires kept { KeepsShapes (around_env around) names.old }
    ensures said { IfOk result (λ r. (rest : List declarations.Declaration) (all : spec.SaidFunctions) (called : List declarations.Declaration)
        → IsSaying (around_env around.entry) names.old said (function_declaration f.entry ∷ rest) all called → IsSaying (around_env around.entry) names.new r rest all called) }
    ensures entries { OnOk result (entries names.new ≡ entries names.old) }
    ensures scope { OnOk result (names.new.scope ≡ names.old.scope) }
    ensures counts { OnOk result (names.new.counts ≡ names.old.counts) }
{
    let left = MOST_COPIES.saturating_sub(said.counts.copies);
    let ReadFunction { said: one, reads } = said_function(
        alloc,
        around,
        &*names,
        f,
        said.counts.functions,
        left,
    )?;
    names.put_function(f, one.shape, reads)?;
    let copies = together(said.counts.copies, one.copies)?;
    let functions = one_more(said.counts.functions)?;
    let fault = first_of(said.fault, one.fault);
    Ok(SaidFunctions {
        fault,
        counts: Counts { copies, functions },
    })
}

/// One declaration more, if it is one of a function.
fn say_declaration<'a>(
    alloc: Global,
    around: Around<'_, 'a>,
    d: &Declaration<'a>,
    said: SaidFunctions,
    names: &mut Names<'a>,
) -> Result<SaidFunctions, AllocError>
    requires shaped { IsShaped (declaration d.now) }
    requires kept { KeepsShapes (around_env around) names.old }
    ensures said { IfOk result (λ r. (rest : List declarations.Declaration) (all : spec.SaidFunctions) (called : List declarations.Declaration)
        → IsSaying (around_env around.entry) names.old said (declaration d.now ∷ rest) all called → IsSaying (around_env around.entry) names.new r rest all called) }
    ensures entries { OnOk result (entries names.new ≡ entries names.old) }
    ensures scope { OnOk result (names.new.scope ≡ names.old.scope) }
    ensures counts { OnOk result (names.new.counts ≡ names.old.counts) }
{
    match d.sort {
        Sort::Function(f) => {
            let said = say_function(alloc, around, f, said, names)?;
            Ok(said)
        }
        _ => Ok(said),
    }
}

/// The functions of a scope in text order, each by those before it: they are complete then.
pub(crate) fn said_functions<'a>(
    alloc: Global,
    around: Around<'_, 'a>,
    declarations: &[Declaration<'a>],
    names: &mut Names<'a>,
) -> Result<SaidFunctions, AllocError>
    requires shaped { AreShaped (map declaration declarations.now) }
    requires incomplete { IsIncomplete names.old }
    ensures said { IfOk result (λ r. IsSaying (around_env around.entry) names.new r [] (spec.said_functions the_limits names.old.scope (around_env around.entry) (counted names.old.counts) (map declaration declarations.now) (entries names.old)) (functions_in (map declaration declarations.now))) }
    ensures entries { OnOk result (entries names.new ≡ entries names.old) }
    ensures scope { OnOk result (names.new.scope ≡ names.old.scope) }
    ensures counts { OnOk result (names.new.counts ≡ names.old.counts) }
{
    names.plain = names.map.len();
    let mut said = SaidFunctions {
        fault: None,
        counts: names.counts,
    };
    for d in declarations {
        said = say_declaration(alloc, around, d, said, names)?;
    }
    Ok(said)
}

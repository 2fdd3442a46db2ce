//! What names mean within a function, and which signals of its module it reads (IEEE 1364-2005, 10.4.2 and 10.4.4).

ghost use Rattle.std.specs.Prelude.{◌≡◌, [], ℕ, List, Some, IfOk, OnOk, length, map};
ghost use Rattle.vs_maps.specs.Places.{found_at, or_at};
ghost use Rattle.vs_maps.specs.PlaceViews.{placed};
ghost use Rattle.std.specs.Option.{option_copied};
ghost use Rattle.vs_grammar.specs.Shapes.{IsFunction};
ghost use Rattle.vs_ast.specs.Views as view;
ghost use Rattle.vs_bodies.specs.Layers.{IsNoFunction};
ghost use Rattle.vs_const.specs.Meanings.{IsShapeIn, IsShapeOf, Means, SignalMeaning};
ghost use Rattle.vs_const.specs.MentionViews.{kept, kept_of};
ghost use Rattle.vs_elaborated.specs.Functions as spec;
ghost use Rattle.vs_elaborated.specs.Functions.{passed_meaning};
ghost use Rattle.vs_elaborated.specs.Environments.{within};
ghost use Rattle.vs_scope.specs.Complete.{KeepsShapes, complete};
ghost use Rattle.vs_scope.specs.Frames.{around_env, view_env};
ghost use Rattle.vs_scope.specs.Inside.{AreNumbered, AreNumberedInputs, AreSignalled, IsSaidLocals};
ghost use Rattle.vs_scope.specs.Locals.{AreLocals, input_of, inside_names, local_at, own_meaning, passed_of};

use crate::local_signals::{LocalStart, Signalling};
use crate::locals::{OwnNames, names_of, own_places, result_local};
use crate::names::{LocalSignal, Names, PassedInput};
use crate::places::{Around, View};
use std::alloc::{AllocError, Global};
use vs_ast::Function;
use vs_bodies::{Surroundings, signals_read};
use vs_const::{Env, Fault, FunctionShape, Named, Role, Rule, SignalShape, first_of};
use vs_maps::{NameMap, PlaceMap};

/// The local signals of a function that it declares: its inputs, of which there are `inputs`, its result, and its own variables, also those of named blocks
/// in it; and `passed`, the inputs behind its own ones that pass it the signals of its module that it reads (10.4.4), with `by_signal` the place of each among
/// them by the signal's number. `names` says where each name of its own is declared, and `places` the number of the local signal that is declared at a place, if
/// it is no integer.
#[derive(Drop)]
pub struct Locals<'a> {
    pub signals: Vec<LocalSignal<'a>>,
    pub inputs: usize,
    pub passed: Vec<PassedInput>,
    pub by_signal: PlaceMap<usize>,
    pub names: NameMap<'a, u32>,
    pub places: PlaceMap<usize>,
}

/// A function, as its statement sees it: what stands around, where `in_function` says that the function does, and its local signals.
#[derive(Drop)]
pub struct Inside<'f, 'a> {
    pub here: View<'f, 'a>,
    pub locals: Locals<'a>,
}

/// What is said of a function's local signals: they themselves, the range and the sign of its result, the first fault of their names and ranges, whether
/// all ranges are known, and how many bits they have.
#[derive(Drop)]
pub struct SaidLocals<'a> {
    pub locals: Locals<'a>,
    pub result_range: Option<vs_four::Range>,
    pub result_signed: bool,
    pub fault: Option<Fault>,
    pub known: bool,
    pub bits: u64,
}

/// A local signal.
fn local_means(s: &LocalSignal<'_>) -> Named
    ensures { Means result (own_meaning (Some s.now)) }
{
    Named::Signal(SignalShape {
        number: s.number,
        range: s.range,
        signed: s.signed,
        role: s.role,
        known: s.known,
        net: false,
        input: s.input,
        words: None,
    })
}

/// An input that passes a signal.
fn passed_shape(p: &PassedInput) -> SignalShape
    ensures { IsShapeOf result (passed_of p.now).input }
{
    SignalShape {
        number: p.number,
        range: p.range,
        signed: p.signed,
        role: Role::InFunction,
        known: p.known,
        net: true,
        input: true,
        words: None,
    }
}

impl<'a> Locals<'a> {
    /// The input that passes the signal of this number, if the function reads it.
    fn input(&self, signal: u32) -> Option<SignalShape>
        ensures { IsShapeIn result (input_of self.now signal) }
    {
        match self.by_signal.get(signal) {
            None => None,
            Some(number) => match self.passed.as_slice().get(*number) {
                None => None,
                Some(p) => Some(passed_shape(p)),
            },
        }
    }

    /// The local signal that is declared at this place, if one is.
    pub fn at(&self, place: u32) -> Option<&LocalSignal<'a>>
        ensures { option_copied result ≡ local_at self.now place }
    {
        match self.places.get(place) {
            None => None,
            Some(number) => self.signals.as_slice().get(*number),
        }
    }

    /// What a name of the function's own or of a named block in it means that is declared at this place; if it is no local signal it is an integer of loops.
    fn own(&self, place: u32) -> Named
        ensures means { Means result (own_meaning (local_at self.now place)) }
        ensures plain { IsNoFunction (own_meaning (local_at self.now place)) }
    {
        match self.at(place) {
            None => Named::Barred(Rule::LoopVariable),
            Some(s) => local_means(s),
        }
    }
}

impl Inside<'_, '_> {
    ghost use Rattle.std.specs.Prelude.{slice_get};
    ghost use Rattle.vs_const.specs.Meanings.{FunctionMeaning, Meaning, AFunction};
    ghost use Rattle.vs_const.specs.declared.names.Named.TheVariants.{Signal as SignalNamed, Function as FunctionNamed};
    ghost use Rattle.vs_elaborated.specs.Functions.{passed_or};
    ghost use Rattle.vs_elaborated.specs.Environments.{named};
    ghost use Rattle.vs_scope.specs.Locals.{hands_on, outer_meaning};

    /// Whether the function reads each signal that a call of the function of this name passes, of which there are `count`.
    fn hands_on(&self, name: &[u8], count: u32) -> bool
        ensures { (f : FunctionMeaning) → named (view_env self.now.here) name.now ≡ AFunction f → count ≡ length f.passed → result ≡ hands_on self.now.locals f.passed }
    {
        for n in 0..count {
            match self.here.passed(name, n) {
                None => return false,
                Some(s) => {
                    if self.locals.input(s.number).is_none() {
                        return false;
                    }
                }
            }
        }
        true
    }

    /// What a signal of the module means in a function, by its number: the input that passes it.
    fn module_signal(&self, number: u32) -> Named
        ensures { Means result (passed_or (input_of self.now.locals number)) }
    {
        match self.locals.input(number) {
            None => Named::Barred(Rule::FunctionRule),
            Some(input) => Named::Signal(input),
        }
    }

    /// What a signal around a function means in it.
    fn passing_signal(&self, s: SignalShape) -> Named
        ensures { (m : Meaning) → Means (SignalNamed s) m → Means result (passed_meaning (input_of self.now.locals) m) }
    {
        match s.role {
            Role::InModule => self.module_signal(s.number),
            Role::InFunction => Named::Signal(s),
            Role::AsResult => Named::Signal(s),
        }
    }

    /// What a function around means in this one, which calls none that reads more than it does itself.
    fn passing_function(&self, name: &[u8], f: FunctionShape) -> Named
        ensures { Means (FunctionNamed f) (named (view_env self.now.here) name.now) → Means result (passed_meaning (input_of self.now.locals) (named (view_env self.now.here) name.now)) }
    {
        if self.hands_on(name, f.passed) {
            Named::Function(f)
        } else {
            Named::Barred(Rule::FunctionRule)
        }
    }

    /// What a name means in a function that means this around it.
    fn passing(&self, name: &[u8], found: Named) -> Named
        ensures { Means found (named (view_env self.now.here) name.now) → Means result (passed_meaning (input_of self.now.locals) (named (view_env self.now.here) name.now)) }
    {
        match found {
            Named::Signal(s) => self.passing_signal(s),
            Named::Memory(_) => Named::Barred(Rule::FunctionRule),
            Named::Function(f) => self.passing_function(name, f),
            _ => found,
        }
    }

    /// What a name means around.
    fn outer(&self, name: &[u8]) -> Named
        ensures { Means result (outer_meaning self.now (named (view_env self.now.here) name.now)) }
    {
        let found = self.here.find(name);
        if self.here.in_function {
            self.passing(name, found)
        } else {
            found
        }
    }

    /// The signal of this number among those that a call of the function of this name passes, which is one around.
    fn outer_passed(&self, name: &[u8], number: u32) -> Option<SignalShape>
        ensures { (f : FunctionMeaning) → outer_meaning self.now (named (view_env self.now.here) name.now) ≡ AFunction f → IsShapeIn result (slice_get f.passed number) }
    {
        match self.here.passed(name, number) {
            None => None,
            Some(s) => {
                if self.here.in_function {
                    self.locals.input(s.number)
                } else {
                    Some(s)
                }
            }
        }
    }

    /// The signal of this number among those that a call of the function of this name passes, which is one of the module around or an input of this function.
    fn signal_passed(&self, name: &[u8], number: u32) -> Option<SignalShape>
        ensures { (f : FunctionMeaning) → inside_names self.now name.now ≡ AFunction f → IsShapeIn result (slice_get f.passed number) }
    {
        match self.locals.names.get(name) {
            None => self.outer_passed(name, number),
            Some(_) => None,
        }
    }
}

impl Env for Inside<'_, '_> {
    ghost use Rattle.vs_scope.specs.Locals.{inside_names};

    ghost names = { λ i. inside_names i };

    fn find(&self, name: &[u8]) -> Named {
        match self.locals.names.get(name) {
            None => self.outer(name),
            Some(place) => self.locals.own(*place),
        }
    }

    fn passed(&self, name: &[u8], number: u32) -> Option<SignalShape> {
        self.signal_passed(name, number)
    }
}

impl Surroundings for Inside<'_, '_> {
    ghost use Rattle.vs_scope.specs.Locals.{inside_declared};

    ghost declared = { λ i. inside_declared i };

    fn declared(&self, place: u32) -> Named {
        self.locals.own(place)
    }
}

/// The numbers of local signals by the places of their declarations.
pub(crate) fn numbered(
    alloc: Global,
    signals: &[LocalSignal<'_>],
) -> Result<PlaceMap<usize>, AllocError>
    ensures { IfOk result (λ places. AreNumbered places signals.now) }
{
    let mut places = PlaceMap::new(alloc);
    for i in 0..signals.len() {
        places.add(signals[i].place, i)?;
    }
    Ok(places)
}

/// The number of an input more, by that of the signal that it passes.
fn add_input(numbers: &mut PlaceMap<usize>, p: &PassedInput, i: usize) -> Result<(), AllocError>
    ensures { OnOk result ((other : ℕ) → found_at other (placed numbers.new) ≡ or_at other (found_at other (placed numbers.old)) p.now.signal i) }
{
    numbers.add(p.signal, i)
}

/// The numbers of inputs that pass signals, by the numbers of these.
pub(crate) fn numbered_inputs(
    alloc: Global,
    passed: &[PassedInput],
) -> Result<PlaceMap<usize>, AllocError>
    ensures { IfOk result (λ m. AreNumberedInputs m passed.now) }
{
    let mut numbers = PlaceMap::new(alloc);
    for i in 0..passed.len() {
        add_input(&mut numbers, &passed[i], i)?;
    }
    Ok(numbers)
}

/// The local signals of a function with their ranges, of which the first `inputs` are its inputs, those inputs that pass signals, and its result.
#[derive(Drop)]
pub(crate) struct SignalledLocals<'a> {
    pub(crate) all: Signalling<'a>,
    pub(crate) inputs: usize,
    pub(crate) passed: Vec<PassedInput>,
    pub(crate) result: LocalSignal<'a>,
}

/// The local signals of a function that reads these signals of its module, with their ranges.
fn signalled_locals<'a>(
    alloc: Global,
    here: &View<'_, '_>,
    scope: u32,
    f: &'a Function,
    reads: &[SignalShape],
) -> Result<SignalledLocals<'a>, AllocError>
    requires { IsFunction (view.function f.now) }
    ensures { (ms : List SignalMeaning) → map kept reads.now ≡ map kept_of ms → IfOk result (λ r. AreSignalled r (spec.function_locals scope (view_env here.now) ms (view.function f.now))) }
{
    let mut all = Signalling {
        signals: Vec::new(alloc),
        next: LocalStart {
            scope,
            signal: 0,
            bit: 0,
        },
        fault: None,
        known: true,
    };
    let inputs = all.signal_inputs(alloc, here, f)?;
    let passed = all.pass_all(alloc, reads)?;
    let result = all.signal(alloc, here, Role::AsResult, false, result_local(f))?;
    all.signal_own(alloc, here, f)?;
    Ok(SignalledLocals {
        all,
        inputs,
        passed,
        result,
    })
}

/// The local signals of a function that reads these signals of its module, where it is seen from within. A fault is of a name that is declared twice, at
/// the second one (`DuplicateName`), and of a range: that of a constant, or `BadRange`.
///
/// An error is want of memory; more signals than 32 bits count, and more bits than 64, are too many, too.
pub fn said_locals<'a>(
    alloc: Global,
    here: &View<'_, '_>,
    scope: u32,
    f: &'a Function,
    reads: &[SignalShape],
) -> Result<SaidLocals<'a>, AllocError>
    requires { IsFunction (view.function f.now) }
    ensures { (ms : List SignalMeaning) → map kept reads.now ≡ map kept_of ms → IfOk result (λ r. IsSaidLocals r (spec.function_locals scope (view_env here.now) ms (view.function f.now)) (spec.declared_locals (view.function f.now))) }
{
    let SignalledLocals {
        all,
        inputs,
        passed,
        result,
    } = signalled_locals(alloc, here, scope, f, reads)?;
    let Signalling {
        signals,
        next,
        fault: ranges,
        known,
    } = all;
    let OwnNames {
        places: names,
        fault: repeated,
    } = names_of(alloc, f)?;
    let places = numbered(alloc, signals.as_slice())?;
    let by_signal = numbered_inputs(alloc, passed.as_slice())?;
    Ok(SaidLocals {
        locals: Locals {
            signals,
            inputs,
            passed,
            by_signal,
            names,
            places,
        },
        result_range: result.range,
        result_signed: result.signed,
        fault: first_of(repeated, ranges),
        known,
        bits: next.bit,
    })
}

/// The signals of its module that a function of a scope reads, in the order in which they come first in its statement (10.4.4), by the functions of the scope
/// that are complete. An error is want of memory.
pub(crate) fn function_reads<'a>(
    alloc: Global,
    around: Around<'_, 'a>,
    names: &Names<'a>,
    f: &'a Function,
) -> Result<Vec<SignalShape>, AllocError>
    requires { KeepsShapes (around_env around) names.now }
    ensures { IfOk result (λ r. map kept r.items ≡ map kept_of (spec.function_reads (within (around_env around.entry) (complete (around_env around.entry) names.now)) (view.function f.now))) }
{
    let here = View {
        around,
        names,
        inside: None,
        before: None,
        in_function: false,
    };
    let own = own_places(alloc, f)?;
    signals_read(alloc, &own, &f.statement, &here)
}

/// A function of a scope as its statement sees it, by the functions of the scope that are complete.
///
/// An error is want of memory; more signals than 32 bits count, and more bits than 64, are too many, too.
pub fn within_function<'f, 'a>(
    alloc: Global,
    around: Around<'f, 'a>,
    names: &'f Names<'a>,
    f: &'a Function,
) -> Result<Inside<'f, 'a>, AllocError>
    requires shaped { IsFunction (view.function f.now) }
    requires kept { KeepsShapes (around_env around) names.now }
    ensures names { IfOk result (λ i. inside_names i ≡ spec.function_names names.now.scope (within (around_env around.entry) (complete (around_env around.entry) names.now)) (view.function f.now)) }
    ensures locals { IfOk result (λ i. AreLocals i.locals (spec.locals_in names.now.scope (within (around_env around.entry) (complete (around_env around.entry) names.now)) (view.function f.now)) (spec.declared_locals (view.function f.now))) }
{
    let reads = function_reads(alloc, around, names, f)?;
    let here = View {
        around,
        names,
        inside: None,
        before: None,
        in_function: true,
    };
    let SaidLocals { locals, .. } = said_locals(alloc, &here, names.scope, f, reads.as_slice())?;
    Ok(Inside { here, locals })
}

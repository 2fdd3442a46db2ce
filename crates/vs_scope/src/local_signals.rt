//! The local signals of a function, with their ranges and numbers (IEEE 1364-2005, 10.4.1).

ghost use Rattle.std.specs.Prelude.{◌≡◌, ◌∷◌, [], IfOk, List, OnOk, false, flat_map, length, map, true};
ghost use Rattle.vs_design.specs.Expressions.{signal_length};
ghost use Rattle.vs_grammar.specs.Shapes.{IsFunction, IsValueType};
ghost use Rattle.vs_ast.specs.Views as view;
ghost use Rattle.vs_const.specs.declared.names.Role.TheVariants.{InFunction};
ghost use Rattle.vs_const.specs.Meanings.{SignalMeaning};
ghost use Rattle.vs_const.specs.MentionViews.{kept, kept_of};
ghost use Rattle.vs_elaborated.specs.Statements as statements;
ghost use Rattle.vs_elaborated.specs.Functions as spec;
ghost use Rattle.vs_scope.specs.Frames.{view_env};
ghost use Rattle.vs_scope.specs.Locals.{IsSaidLocal, local, local_meaning, local_start, passed_of};
ghost use Rattle.vs_scope.specs.LocalLists.{AreShapedLocals, IsSigned, IsSkipped};

use crate::counts::one_more;
use crate::locals::{Local, input_locals, own_locals};
use crate::names::{LocalSignal, PassedInput};
use crate::numbers::{is_integer, is_signed, said_type};
use crate::places::View;
use crate::signals::length_or_one;
use std::alloc::{AllocError, Global};
use vs_ast::Function;
use vs_const::{Fault, Role, SignalShape, first_of};

/// Where a function's local signals begin: the number of its scope, and the numbers of the next signal and of its first bit.
#[derive(Clone, Copy)]
pub(crate) struct LocalStart {
    pub(crate) scope: u32,
    pub(crate) signal: u32,
    pub(crate) bit: u64,
}

/// A local signal, and the first fault of its range.
#[derive(Clone, Copy)]
pub(crate) struct SaidLocal<'a> {
    pub(crate) signal: LocalSignal<'a>,
    pub(crate) fault: Option<Fault>,
}

/// How many bits a local signal has.
pub(crate) fn local_length(s: &LocalSignal<'_>) -> u64
    ensures { result ≡ signal_length (local_meaning s.now).signal }
{
    length_or_one(s.range)
}

/// One local signal.
pub(crate) fn said_local<'a>(
    alloc: Global,
    here: &View<'_, '_>,
    start: LocalStart,
    role: Role,
    input: bool,
    v: Local<'a>,
) -> Result<SaidLocal<'a>, AllocError>
    requires { IsValueType (local v).value_type }
    ensures { IfOk result (λ s. IsSaidLocal s (spec.local_signal (view_env here.now) (local_start start) role input (local v.entry))) }
{
    let range = said_type(alloc, v.value_type, here)?;
    let signal = LocalSignal {
        name: v.name.text.as_slice(),
        place: v.name.place,
        scope: start.scope,
        number: start.signal,
        input,
        range: range.range,
        signed: is_signed(v.value_type),
        integer: is_integer(v.value_type),
        first: start.bit,
        role,
        known: range.known,
    };
    Ok(SaidLocal {
        signal,
        fault: range.fault,
    })
}

/// Where the next local signal begins, behind this one. More signals than 32 bits count, and more bits than 64, are too many for memory.
fn behind(start: LocalStart, s: &LocalSignal<'_>) -> Result<LocalStart, AllocError>
    ensures { (x : spec.LocalSignal) → local_meaning s.now ≡ x.meaning → IfOk result (λ r. local_start r ≡ spec.behind (local_start start) x) }
{
    let signal = one_more(start.signal)?;
    let bit = start.bit.checked_add(local_length(s)).ok_or(AllocError)?;
    Ok(LocalStart {
        scope: start.scope,
        signal,
        bit,
    })
}

/// The input that begins here and passes this signal (10.4.4).
fn passed_input(start: LocalStart, s: SignalShape) -> PassedInput
    ensures { (m : SignalMeaning) → kept s ≡ kept_of m → passed_of result ≡ record { number = m.signal.number; input = spec.passed_signal (local_start start) m } }
{
    PassedInput {
        signal: s.number,
        scope: start.scope,
        number: start.signal,
        range: s.range,
        signed: s.signed,
        first: start.bit,
        known: s.known,
    }
}

/// How many bits such an input has.
fn passed_length(p: &PassedInput) -> u64
    ensures { result ≡ signal_length (passed_of p.now).input.signal }
{
    length_or_one(p.range)
}

/// Where the next local signal begins, behind such an input.
fn behind_input(start: LocalStart, p: &PassedInput) -> Result<LocalStart, AllocError>
    ensures { (m : SignalMeaning) → (passed_of p.now).input ≡ spec.passed_signal (local_start start) m → IfOk result (λ r. local_start r ≡ spec.behind_passed (local_start start) m) }
{
    let signal = one_more(start.signal)?;
    let bit = start.bit.checked_add(passed_length(p)).ok_or(AllocError)?;
    Ok(LocalStart {
        scope: start.scope,
        signal,
        bit,
    })
}

/// Local signals so far: where the next one begins, the first fault of their ranges, and whether all ranges are known.
#[derive(Drop)]
pub(crate) struct Signalling<'a> {
    pub(crate) signals: Vec<LocalSignal<'a>>,
    pub(crate) next: LocalStart,
    pub(crate) fault: Option<Fault>,
    pub(crate) known: bool,
}

impl<'a> Signalling<'a> {
    /// One local signal more.
    pub(crate) fn signal(
        &mut self,
        alloc: Global,
        here: &View<'_, '_>,
        role: Role,
        input: bool,
        v: Local<'a>,
    ) -> Result<LocalSignal<'a>, AllocError>
        requires { IsValueType (local v).value_type }
        ensures signed { OnOk result (IsSigned self.old self.new (spec.signals_of (view_env here.now) (local_start self.old.next) role input (local v.entry ∷ []))) }
        ensures is { IfOk result (λ s. local_meaning s ≡ (spec.local_signal (view_env here.now) (local_start self.old.next) role input (local v.entry)).meaning) }
    {
        let one = said_local(alloc, here, self.next, role, input, v)?;
        self.next = behind(self.next, &one.signal)?;
        self.fault = first_of(self.fault, one.fault);
        self.known = self.known && one.signal.known;
        self.signals.push(one.signal)?;
        Ok(one.signal)
    }

    /// Several local signals more.
    pub(crate) fn signal_all(
        &mut self,
        alloc: Global,
        here: &View<'_, '_>,
        role: Role,
        input: bool,
        all: &[Local<'a>],
    ) -> Result<(), AllocError>
        requires { AreShapedLocals (map local all.now) }
        ensures { OnOk result (IsSigned self.old self.new (spec.signals_of (view_env here.now) (local_start self.old.next) role input (map local all.now))) }
    {
        for v in all {
            self.signal(alloc, here, role, input, *v)?;
        }
        Ok(())
    }

    /// The inputs of a function more, of which there are so many.
    pub(crate) fn signal_inputs(
        &mut self,
        alloc: Global,
        here: &View<'_, '_>,
        f: &'a Function,
    ) -> Result<usize, AllocError>
        requires { IsFunction (view.function f.now) }
        ensures signed { OnOk result (IsSigned self.old self.new (spec.signals_of (view_env here.now) (local_start self.old.next) InFunction true (flat_map statements.locals_of (view.function f.now).inputs))) }
        ensures count { IfOk result (λ n. n ≡ length (flat_map statements.locals_of (view.function f.now).inputs)) }
    {
        let inputs = input_locals(alloc, f)?;
        self.signal_all(alloc, here, Role::InFunction, true, inputs.as_slice())?;
        Ok(inputs.len())
    }

    /// The input more that passes a signal of the module (10.4.4).
    fn pass(&mut self, s: &SignalShape) -> Result<PassedInput, AllocError>
        ensures skipped { (m : SignalMeaning) → kept s.now ≡ kept_of m → OnOk result (IsSkipped self.old self.new (spec.behind_passed (local_start self.old.next) m)) }
        ensures passed { (m : SignalMeaning) → kept s.now ≡ kept_of m → IfOk result (λ p. passed_of p ≡ record { number = m.signal.number; input = spec.passed_signal (local_start self.old.next) m }) }
    {
        let one = passed_input(self.next, *s);
        self.next = behind_input(self.next, &one)?;
        Ok(one)
    }

    /// The inputs more that pass these signals, one after the other.
    pub(crate) fn pass_all(
        &mut self,
        alloc: Global,
        reads: &[SignalShape],
    ) -> Result<Vec<PassedInput>, AllocError>
        ensures next { (ms : List SignalMeaning) → map kept reads.now ≡ map kept_of ms → OnOk result (IsSkipped self.old self.new (spec.behind_all_passed (local_start self.old.next) ms)) }
        ensures passed { (ms : List SignalMeaning) → map kept reads.now ≡ map kept_of ms → IfOk result (λ ps. map passed_of ps.items ≡ spec.passed_signals (local_start self.old.next) ms) }
    {
        let mut list = Vec::new(alloc);
        for s in reads {
            let one = self.pass(s)?;
            list.push(one)?;
        }
        Ok(list)
    }

    /// A function's own variables more.
    pub(crate) fn signal_own(
        &mut self,
        alloc: Global,
        here: &View<'_, '_>,
        f: &'a Function,
    ) -> Result<(), AllocError>
        requires { IsFunction (view.function f.now) }
        ensures { OnOk result (IsSigned self.old self.new (spec.signals_of (view_env here.now) (local_start self.old.next) InFunction false (spec.own_locals (view.function f.now)))) }
    {
        let own = own_locals(alloc, f)?;
        self.signal_all(alloc, here, Role::InFunction, false, own.as_slice())
    }
}

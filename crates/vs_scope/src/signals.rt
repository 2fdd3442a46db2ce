//! The signals of a scope, with their ranges and numbers (IEEE 1364-2005, 3.2, 3.3, 4.9 and 12.3.3).

ghost use Rattle.std.specs.Prelude.{◌≡◌, ◌≤◌, ◌<◌, ◌+◌, ◌&&◌, ◌||◌, ◌∷◌, ◌++◌, [], not, length, Bool, Option, None, IfOk, OnOk, IfSome, Some, map, flat_map};
ghost use Rattle.vs_design.specs.Expressions.{range_or_one, signal_length};
ghost use Rattle.vs_design.specs.Elaborated.{same_range};
ghost use Rattle.vs_four.specs.Selects.{range_length};
ghost use Rattle.vs_grammar.specs.Trees as tree;
ghost use Rattle.vs_grammar.specs.Shapes.{IsValueType, Given};
ghost use Rattle.vs_ast.specs.Views as view;
ghost use Rattle.vs_const.specs.Faults.{least};
ghost use Rattle.vs_const.specs.Selects.{array_net};
ghost use Rattle.vs_elaborated.specs.Environments.{Env};
ghost use Rattle.vs_elaborated.specs.Signals as spec;
ghost use Rattle.vs_elaborated.specs.Parameters as parameters;
ghost use Rattle.vs_scope.specs.Declares.{named_list};
ghost use Rattle.vs_scope.specs.Frames.{view_env};
ghost use Rattle.vs_scope.specs.Numbers.{IsSaidRange};
ghost use Rattle.vs_scope.specs.Shaped.{IsShaped, AreShapedNames};
ghost use Rattle.vs_scope.specs.Signalled.{start_of, form_kind, form_type, signal_sort, second_faults, placed, placed_of, faults_of, net, nets_in, start_after, IsSortOf, IsSaidSignal, IsSignalAt};
ghost use Rattle.vs_scope.specs.Views as scope;

use crate::names::{Declaration, Entry, Names, Signal, Sort};
use crate::numbers::{SaidRange, said_addresses, said_range};
use crate::places::View;
use std::alloc::{AllocError, Global};
use vs_ast::{SignalKind, Signals};
use vs_const::{Fault, Rule, fault_if, first_of};
use vs_four::Range;

/// Where the signals of a scope begin: the scope's number, whether it is the top, and the numbers of the next signal and of its first bit.
#[derive(Clone, Copy)]
pub struct Start {
    pub scope: u32,
    pub top: bool,
    pub signal: u32,
    pub bit: u64,
}

/// A signal, and the fault of its second declaration.
#[derive(Clone, Copy)]
pub(crate) struct SaidSignal<'a> {
    pub(crate) signal: Signal<'a>,
    pub(crate) fault: Option<Fault>,
}

/// Whether it declares a variable.
pub fn is_reg(kind: SignalKind) -> bool
    ensures { result ≡ spec.is_reg (view.signal_kind kind) }
{
    match kind {
        SignalKind::Reg | SignalKind::OutputReg => true,
        _ => false,
    }
}

/// Whether it declares an input.
pub(crate) fn is_input(kind: SignalKind) -> bool
    ensures { result ≡ spec.is_input (view.signal_kind kind) }
{
    match kind {
        SignalKind::Input | SignalKind::InputWire => true,
        _ => false,
    }
}

/// Whether two declarations of a signal declare a net.
fn is_net(a: SignalKind, b: SignalKind) -> bool
    ensures { result ≡ not (spec.is_reg (view.signal_kind a) || spec.is_reg (view.signal_kind b)) }
{
    !(is_reg(a) || is_reg(b))
}

/// Whether one of two declarations of a signal declares an input.
fn is_input_of(a: SignalKind, b: SignalKind) -> bool
    ensures { result ≡ (spec.is_input (view.signal_kind a) || spec.is_input (view.signal_kind b)) }
{
    is_input(a) || is_input(b)
}

/// Whether one of two declarations of a signal says so.
fn is_said(a: bool, b: bool) -> bool
    ensures { result ≡ (a || b) }
{
    a || b
}

/// Whether an input is one of the top.
fn is_input_of_top(is_input: bool, top: bool) -> bool
    ensures { result ≡ (is_input && top) }
{
    is_input && top
}

/// What a declaration says of a signal, but for its addresses: one of signals, or that of an integer, which is a variable (4.8).
#[derive(Clone, Copy)]
pub(crate) enum Form<'a> {
    Signals(&'a Signals),
    Integer,
}

/// Its kind.
fn kind_of(form: Form<'_>) -> SignalKind
    ensures { view.signal_kind result ≡ form_kind form.entry }
{
    match form {
        Form::Signals(signals) => signals.kind,
        Form::Integer => SignalKind::Reg,
    }
}

/// Whether it is signed, as an integer is.
fn is_signed_form(form: Form<'_>) -> bool
    ensures { result ≡ parameters.is_signed (form_type form.entry) }
{
    match form {
        Form::Signals(signals) => signals.signed,
        Form::Integer => true,
    }
}

/// Whether it is that of an integer.
fn is_integer(form: Form<'_>) -> bool
    ensures { result ≡ parameters.is_integer_type (form_type form.entry) }
{
    match form {
        Form::Signals(_) => false,
        Form::Integer => true,
    }
}

/// Its range: an integer has 32 bits.
fn range_of(alloc: Global, form: Form<'_>, here: &View<'_, '_>) -> Result<SaidRange, AllocError>
    requires { IsValueType (form_type form) }
    ensures short { IfOk result (λ r. IfSome r.range (λ g. range_length g ≤ 64)) }
    ensures is { IfOk result (λ r. IsSaidRange r (parameters.said_type (form_type form.entry) (view_env here.now))) }
{
    match form {
        Form::Signals(signals) => said_range(alloc, &signals.range, here),
        Form::Integer => Ok(SaidRange {
            range: Some(Range { left: 31, right: 0 }),
            known: true,
            fault: None,
        }),
    }
}

/// The addresses of what is no memory.
fn no_addresses() -> SaidRange
    ensures none { result.range ≡ None }
    ensures is { (env : Env) → IsSaidRange result (parameters.said_addresses None env) }
{
    SaidRange {
        range: None,
        known: true,
        fault: None,
    }
}

/// Whether two ranges are equal.
fn same_range(a: Option<Range>, b: Option<Range>) -> bool
    ensures { result ≡ same_range a b }
{
    match (a, b) {
        (None, None) => true,
        (Some(a), Some(b)) => a.left == b.left && a.right == b.right,
        _ => false,
    }
}

/// Whether two ranges are known and aren't equal.
fn are_unequal(a: SaidRange, b: SaidRange) -> bool
    ensures { (r q : parameters.SaidRange) → IsSaidRange a r → IsSaidRange b q → result ≡ spec.are_unequal r q }
{
    a.known && (b.known && !same_range(a.range, b.range))
}

/// Whether the range and the addresses of a signal are known.
fn are_known(range: SaidRange, words: SaidRange) -> bool
    ensures { result ≡ (range.known && words.known) }
{
    range.known && words.known
}

/// The second declaration of a signal, or else the first one.
fn second_of<'a>(form: Form<'a>, second: Option<Declaration<'a>>) -> Form<'a>
    ensures sort { (addresses : Option tree.RangeTree) (header : Bool) → IsSortOf result (spec.second_sort (signal_sort form.entry addresses header) (view.option scope.declaration second.entry)) }
    ensures shaped { IsValueType (form_type form.entry) → Given IsShaped (view.option scope.declaration second.entry) → IsValueType (form_type result) }
{
    match second {
        None => form,
        Some(d) => match d.sort {
            Sort::Signal { signals, .. } => Form::Signals(signals),
            Sort::Variable => Form::Integer,
            _ => form,
        },
    }
}

/// The fault of a second declaration.
fn second_fault(
    second: Option<Declaration<'_>>,
    range: SaidRange,
    second_range: SaidRange,
) -> Option<Fault>
    ensures { (r q : parameters.SaidRange) → IsSaidRange range r → IsSaidRange second_range q → result ≡ least (second_faults r q second.entry) }
{
    match second {
        None => None,
        Some(d) => fault_if(
            are_unequal(range, second_range),
            Rule::BadRange,
            d.name.place,
        ),
    }
}

/// How many bits a range has, or one bit.
pub(crate) fn length_or_one(range: Option<Range>) -> u64
    ensures { result ≡ range_or_one range }
{
    match range {
        None => 1,
        Some(r) => r.length(),
    }
}

/// How many bits a signal has, a memory those of all its words and an array those of all its nets.
pub(crate) fn signal_length(s: &Signal<'_>) -> u64
    ensures { result ≡ signal_length (scope.signal_meaning s.now).signal }
{
    let word = length_or_one(s.range);
    match s.words {
        None => word,
        Some(r) => r.length() * word,
    }
}

/// One signal, of its one or two declarations: a variable, an input, signed, an integer where one of them says so; a memory and an array of nets, with
/// the addresses `words`, have one alone.
fn said_signal<'a>(
    alloc: Global,
    here: &View<'_, 'a>,
    start: Start,
    first: Declaration<'a>,
    second: Option<Declaration<'a>>,
    form: Form<'a>,
    words: SaidRange,
) -> Result<SaidSignal<'a>, AllocError>
    requires form { IsValueType (form_type form) }
    requires words { IfSome words.range (λ r. range_length r ≤ 1024) }
    requires second { Given IsShaped (view.option scope.declaration second) }
    ensures { (addresses : Option tree.RangeTree) (header : Bool) → IsSaidRange words (parameters.said_addresses addresses (view_env here.now)) → IfOk result (λ r. IsSaidSignal r (spec.said_signal (view_env here.now) (start_of start)
        (record { first = scope.declaration first.entry; second = view.option scope.declaration second.entry }) (signal_sort form.entry addresses header))) }
{
    let other = second_of(form, second);
    let range = range_of(alloc, form, here)?;
    let second_range = range_of(alloc, other, here)?;
    let kind = kind_of(form);
    let other_kind = kind_of(other);
    let is_input = is_input_of(kind, other_kind);
    let signal = Signal {
        name: first.name.text.as_slice(),
        place: first.name.place,
        scope: start.scope,
        number: start.signal,
        net: is_net(kind, other_kind),
        input: is_input_of_top(is_input, start.top),
        range: range.range,
        signed: is_said(is_signed_form(form), is_signed_form(other)),
        first: start.bit,
        words: words.range,
        integer: is_said(is_integer(form), is_integer(other)),
        is_input,
        known: are_known(range, words),
    };
    Ok(SaidSignal {
        signal,
        fault: second_fault(second, range, second_range),
    })
}

/// The signals of a scope in order of declaration, the first fault of their second declarations, and where the next scope's signals begin.
#[derive(Drop)]
pub struct SaidSignals<'a> {
    pub signals: Vec<Signal<'a>>,
    pub fault: Option<Fault>,
    pub next: Start,
}

/// The signal of a name, if it is one.
fn signal_at<'a>(
    alloc: Global,
    here: &View<'_, 'a>,
    start: Start,
    first: Declaration<'a>,
    second: Option<Declaration<'a>>,
) -> Result<Option<SaidSignal<'a>>, AllocError>
    requires first { IsShaped (scope.declaration first) }
    requires second { Given IsShaped (view.option scope.declaration second) }
    ensures { IfOk result (λ o. IsSignalAt o (spec.said_signals (view_env here.now) (start_of start) (record { first = scope.declaration first.entry; second = view.option scope.declaration second.entry } ∷ []))) }
{
    match first.sort {
        Sort::Signal {
            signals,
            addresses,
            ..
        } => {
            let words = said_addresses(alloc, addresses, here)?;
            let one = said_signal(
                alloc,
                here,
                start,
                first,
                second,
                Form::Signals(signals),
                words,
            )?;
            Ok(Some(one))
        }
        Sort::Variable => {
            let none = no_addresses();
            let one = said_signal(alloc, here, start, first, second, Form::Integer, none)?;
            Ok(Some(one))
        }
        _ => Ok(None),
    }
}

/// How many signals of the design a name stands for: an array of nets for each of its nets.
fn net_count(s: &Signal<'_>) -> u32
    ensures { result ≡ length (spec.nets_of (scope.signal_meaning s.now).signal) }
{
    match s.words {
        Some(words) if s.net => words.length() as u32,
        _ => 1,
    }
}

/// The net of an array with these addresses that has k others below it.
fn array_net<'a>(s: &Signal<'a>, words: Range, k: u32) -> Result<Signal<'a>, AllocError>
    requires addresses { s.now.words ≡ Some words }
    requires there { k < range_length words }
    ensures { IfOk result (λ r. (scope.signal_meaning r).signal ≡ array_net (scope.signal_meaning s.now).signal (words.right + k)) }
{
    let n = words.right.checked_add(k).ok_or(AllocError)?;
    let number = s.number.checked_add(k).ok_or(AllocError)?;
    let first = s
        .first
        .checked_add(u64::from(k) * length_or_one(s.range))
        .ok_or(AllocError)?;
    Ok(Signal {
        name: s.name,
        place: s.place,
        scope: s.scope,
        number,
        net: s.net,
        input: s.input,
        range: s.range,
        signed: s.signed,
        first,
        words: Some(Range { left: n, right: n }),
        integer: s.integer,
        is_input: s.is_input,
        known: s.known,
    })
}

/// Adds the signals of the design that a name stands for.
fn push_nets<'a>(s: &Signal<'a>, nets: &mut Vec<Signal<'a>>) -> Result<(), AllocError>
    ensures { OnOk result (map net nets.new.items ≡ map net nets.old.items ++ spec.nets_of (scope.signal_meaning s.now).signal) }
{
    match s.words {
        Some(words) if s.net => {
            for k in 0..words.length() as u32 {
                let net = array_net(s, words, k)?;
                nets.push(net)?;
            }
            Ok(())
        }
        _ => {
            nets.push(*s)?;
            Ok(())
        }
    }
}

/// The signals of the design that the names of a scope stand for, by their numbers.
pub(crate) fn all_nets<'a>(
    alloc: Global,
    signals: &[Signal<'a>],
) -> Result<Vec<Signal<'a>>, AllocError>
    ensures { IfOk result (λ r. map net r.items ≡ flat_map nets_in signals.now) }
{
    let mut nets = Vec::new(alloc);
    for s in signals {
        push_nets(s, &mut nets)?;
    }
    Ok(nets)
}

/// Where the next signal begins, behind this one. More signals than 32 bits count, and more bits than 64, are too many for memory.
fn after(start: Start, s: &Signal<'_>) -> Result<Start, AllocError>
    ensures { IfOk result (λ r. start_of r ≡ spec.after (start_of start) (scope.signal_meaning s.now)) }
{
    let signal = start.signal.checked_add(net_count(s)).ok_or(AllocError)?;
    let bit = start.bit.checked_add(signal_length(s)).ok_or(AllocError)?;
    Ok(Start {
        scope: start.scope,
        top: start.top,
        signal,
        bit,
    })
}

/// The signals of a scope, by the names and values that its parameters have.
pub(crate) fn said_signals<'a>(
    alloc: Global,
    here: &View<'_, 'a>,
    start: Start,
    names: &Names<'a>,
) -> Result<SaidSignals<'a>, AllocError>
    requires { AreShapedNames (named_list names.now) }
    ensures signals { IfOk result (λ r. map placed r.signals.items ≡ map placed_of (spec.said_signals (view_env here.now) (start_of start) (named_list names.now))) }
    ensures fault { IfOk result (λ r. r.fault ≡ least (flat_map faults_of (spec.said_signals (view_env here.now) (start_of start) (named_list names.now)))) }
    ensures next { IfOk result (λ r. start_of r.next ≡ start_after (start_of start) (spec.said_signals (view_env here.now) (start_of start) (named_list names.now))) }
{
    let mut signals = Vec::new(alloc);
    let mut fault = None;
    let mut next = start;
    for i in 0..names.map.len() {
        let Entry { first, second, .. } = *names.map.at(i);
        match signal_at(alloc, here, next, first, second)? {
            None => {}
            Some(one) => {
                next = after(next, &one.signal)?;
                fault = first_of(fault, one.fault);
                signals.push(one.signal)?;
            }
        }
    }
    Ok(SaidSignals {
        signals,
        fault,
        next,
    })
}

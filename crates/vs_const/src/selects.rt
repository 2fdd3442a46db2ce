//! Names, selects of them (IEEE 1364-2005, 5.2.1) and words of memories (4.9.3).

ghost use Rattle.std.specs.Prelude.{◌≡◌, ◌≤◌, ℕ, Bool, true, false, List, Option, None, [], min};
ghost use Rattle.vs_four.specs.Selects as four;
ghost use Rattle.vs_design.specs.Expressions as E;
ghost use Rattle.vs_ast.specs.Views as view;
ghost use Rattle.vs_const.specs.Faults.{fault, flaws_of};
ghost use Rattle.vs_const.specs.Meanings.{Meaning, Means, SignalMeaning, IsFairMeaning};
ghost use Rattle.vs_const.specs.Typed as typed;
ghost use Rattle.vs_const.specs.Selects as spec;
ghost use Rattle.vs_const.specs.CallDepths.{call_depth};
ghost use Rattle.vs_const.specs.Checks.{capped, Checks, ChecksNumber, ChecksNatural, ChecksBounds, ChecksBase, ChecksTaken, ChecksAddress};

use crate::faults::{Fault, Flaws, both, flaw, flaw_if, flawless};
use crate::found::Checked;
use crate::names::{Named, SignalShape};
use crate::operators::{faulty, undefined};
use crate::ranges::{Bounds, Natural, Numbered, natural_of};
use crate::rules::Rule;
use vs_ast::SliceKind;
use vs_four::Range;

/// What a select takes bits of: its range, which is none where a select has no meaning.
#[derive(Clone, Copy, Debug)]
pub(crate) struct Base {
    pub(crate) range: Option<Range>,
    pub(crate) good: bool,
    pub(crate) flaws: Flaws,
}

/// Which bits are taken: how many, and how deep calls of functions nest in their index.
#[derive(Clone, Copy, Debug)]
pub struct Taken {
    pub length: Option<u32>,
    pub good: bool,
    pub flaws: Flaws,
    pub depth: u32,
}

/// The address of a word: how deep calls of functions nest in it.
#[derive(Clone, Copy, Debug)]
pub struct Addressed {
    pub good: bool,
    pub flaws: Flaws,
    pub depth: u32,
}

/// How many bits a range has, as far as 65.
fn short_length(range: Range) -> u32
    ensures { result ≡ min 65 (four.range_length range) }
{
    let length = range.length();
    if length < 65 { length as u32 } else { 65 }
}

/// How many bits a signal has, or each word of a memory, as far as 65.
pub(crate) fn signal_length(range: Option<Range>) -> u32
    ensures { result ≡ min 65 (E.range_or_one range) }
{
    match range {
        None => 1,
        Some(range) => short_length(range),
    }
}

/// A signal, which is no constant.
fn signal_name(needed: bool, place: u32, s: SignalShape) -> Checked
    ensures { (m : SignalMeaning) → s.range ≡ m.signal.range → s.signed ≡ m.signal.signed → s.known ≡ m.known → m.signal.words ≡ None
        → Checks result (spec.signal_typed needed place m) }
{
    if needed {
        return faulty(Rule::NotConstant, place);
    }
    if !s.known {
        return undefined();
    }
    Checked {
        flaws: flawless(),
        length: Some(signal_length(s.range)),
        good: true,
        signed: s.signed,
        depth: 0,
    }
}

/// The rule that something breaks which is no constant: where a constant is needed that, and elsewhere another.
pub(crate) fn rule_where(needed: bool, rule: Rule) -> Rule
    ensures { result ≡ spec.rule_where needed rule }
{
    if needed { Rule::NotConstant } else { rule }
}

/// The rule that a name breaks where something of another kind has to stand.
pub fn wrong_rule(needed: bool, named: &Named) -> Rule
    ensures { (m : Meaning) → Means named.now m → result ≡ spec.wrong_rule needed m }
{
    match named {
        Named::Signal(_) | Named::Memory(_) => rule_where(needed, Rule::WrongKind),
        Named::Barred(rule) => rule_where(needed, *rule),
        Named::Unknown => Rule::UnknownName,
        Named::Value { .. }
        | Named::Undefined { .. }
        | Named::Function(_)
        | Named::Incomplete
        | Named::Other => Rule::WrongKind,
    }
}

/// A name alone.
pub(crate) fn name_alone(needed: bool, place: u32, named: &Named) -> Checked
    ensures { (m : Meaning) → IsFairMeaning m → Means named.now m → Checks result (spec.name_typed needed place m) }
{
    match named {
        Named::Value { value, .. } => Checked {
            flaws: flawless(),
            length: Some(value.bits.len()),
            good: true,
            signed: value.signed,
            depth: 0,
        },
        Named::Undefined { range: _ } => undefined(),
        Named::Signal(s) => signal_name(needed, place, *s),
        Named::Memory(_) => faulty(rule_where(needed, Rule::WrongKind), place),
        Named::Function(_) | Named::Incomplete | Named::Other => faulty(Rule::WrongKind, place),
        Named::Barred(rule) => faulty(rule_where(needed, *rule), place),
        Named::Unknown => faulty(Rule::UnknownName, place),
    }
}

/// A name whose value another fault leaves undefined.
fn undefined_base(range: Option<Range>) -> Base
    ensures { ChecksBase result (spec.no_base range []) }
{
    Base {
        range,
        good: false,
        flaws: flawless(),
    }
}

/// A name that breaks a rule.
fn faulty_base(rule: Rule, place: u32) -> Base
    ensures { ChecksBase result (spec.no_base None (fault rule place)) }
{
    Base {
        range: None,
        good: false,
        flaws: flaw(rule, place),
    }
}

/// A signal, which is no constant, and has bits to select only where it has a range.
fn signal_base(needed: bool, place: u32, s: SignalShape) -> Base
    ensures { (m : SignalMeaning) → s.range ≡ m.signal.range → s.known ≡ m.known → ChecksBase result (spec.signal_base_of needed place m) }
{
    if needed {
        return faulty_base(Rule::NotConstant, place);
    }
    Base {
        range: s.range,
        good: s.known,
        flaws: flaw_if(s.known && s.range.is_none(), Rule::WrongKind, place),
    }
}

/// What a name gives to a select of it.
pub(crate) fn base_of(needed: bool, place: u32, named: &Named) -> Base
    ensures { (m : Meaning) → Means named.now m → ChecksBase result (spec.base_of needed place m) }
{
    match named {
        Named::Value { range, .. } => Base {
            range: Some(*range),
            good: true,
            flaws: flawless(),
        },
        Named::Undefined { range } => undefined_base(*range),
        Named::Signal(s) => signal_base(needed, place, *s),
        Named::Memory(_) => faulty_base(rule_where(needed, Rule::WrongKind), place),
        Named::Function(_) | Named::Incomplete | Named::Other => {
            faulty_base(Rule::WrongKind, place)
        }
        Named::Barred(rule) => faulty_base(rule_where(needed, *rule), place),
        Named::Unknown => faulty_base(Rule::UnknownName, place),
    }
}

/// This many bits from an index on.
pub(crate) fn bits_from(
    declared: Option<Range>,
    width: u32,
    index_good: bool,
    index_depth: u32,
    flaws: Flaws,
) -> Taken
    requires { width ≤ 65 }
    ensures { (up : Bool) (n : ℕ) (t : typed.Typed) (fs : List Fault) → width ≡ min 65 n → index_good ≡ t.good → index_depth ≡ call_depth t.expression → flaws ≡ flaws_of fs
        → ChecksTaken result (spec.taken declared up n t fs) }
{
    match declared {
        None => Taken {
            length: Some(width),
            good: false,
            flaws,
            depth: 0,
        },
        Some(_) => Taken {
            length: Some(width),
            good: index_good,
            flaws,
            depth: index_depth,
        },
    }
}

/// `[a +: w]` and `[a -: w]`.
#[tactic(auto, using(crate::proofs::Least::flaws_append))]
pub(crate) fn moving(declared: Option<Range>, a: Checked, place: u32, w: Numbered) -> Taken
    ensures { (up : Bool) (t u : typed.Typed) → Checks a t → ChecksNumber w (typed.number_of place u)
        → ChecksTaken result (spec.moving declared up t place u) }
{
    let n = natural_of(1, 64, place, w);
    let flaws = both(a.flaws, n.flaws);
    match n.number {
        None => Taken {
            length: None,
            good: false,
            flaws,
            depth: 0,
        },
        Some(width) => bits_from(declared, width, a.good, a.depth, flaws),
    }
}

/// Whether a range goes against the declared direction.
pub fn is_against(declared: Option<Range>, range: Range) -> bool
    ensures { result ≡ spec.is_against declared range }
{
    match declared {
        None => false,
        Some(declared) => range.left != range.right
            && declared.is_descending() != range.is_descending(),
    }
}

/// `[a:b]`.
#[tactic(auto, using(crate::proofs::Least::flaws_append))]
pub(crate) fn between(declared: Option<Range>, bracket: u32, r: Bounds) -> Taken
    ensures { (place : ℕ) (b : spec.Bounds) → ChecksBounds r b → ChecksTaken result (spec.between declared bracket place b.range b.faults) }
{
    match r.range {
        None => Taken {
            length: None,
            good: false,
            flaws: r.flaws,
            depth: 0,
        },
        Some(range) if is_against(declared, range) => Taken {
            length: Some(short_length(range)),
            good: false,
            flaws: both(r.flaws, flaw(Rule::BadRange, bracket)),
            depth: 0,
        },
        Some(range) => bits_from(declared, short_length(range), true, 0, r.flaws),
    }
}

/// A select.
#[tactic(auto, using(crate::proofs::Least::flaws_append))]
pub(crate) fn taken_of(b: Base, t: Taken) -> Checked
    ensures { (base : spec.Base) (bits : spec.Taken) → ChecksBase b base → ChecksTaken t bits
        → Checks result (spec.select_typed base bits) }
{
    let good = b.good && t.good;
    Checked {
        flaws: both(b.flaws, t.flaws),
        length: t.length,
        good,
        signed: false,
        depth: if good { t.depth } else { 0 },
    }
}

/// Bits of the word of a memory at this address (5.2.2), where no constant is needed.
#[tactic(auto, using(crate::proofs::Least::flaws_append))]
pub(crate) fn word_part(place: u32, shape: SignalShape, address: Addressed, t: Taken) -> Checked
    ensures { (m : SignalMeaning) (a : spec.Addressed) (bits : spec.Taken) → shape.range ≡ m.signal.range → shape.known ≡ m.known → ChecksAddress address a → ChecksTaken t bits
        → Checks result (spec.word_part_typed place m a bits) }
{
    let good = shape.known && address.good && t.good;
    let scalar = flaw_if(shape.known && shape.range.is_none(), Rule::WrongKind, place);
    Checked {
        flaws: both(scalar, both(address.flaws, t.flaws)),
        length: t.length,
        good,
        signed: false,
        depth: if good { address.depth.max(t.depth) } else { 0 },
    }
}

/// No bits: what the grammar has behind no word.
pub(crate) fn no_bits() -> Taken
    ensures { ChecksTaken result (spec.not_taken None []) }
{
    Taken {
        length: None,
        good: false,
        flaws: flawless(),
        depth: 0,
    }
}

/// The addresses of a memory.
fn addresses_of(shape: SignalShape) -> Range
    ensures { (s : E.Signal) → shape.words ≡ s.words → result ≡ E.addresses s }
{
    match shape.words {
        Some(words) => words,
        None => Range { left: 0, right: 0 },
    }
}

/// An address of a memory, whatever it is.
pub(crate) fn in_memory(index: Checked) -> Addressed
    ensures { (m : SignalMeaning) (at : ℕ) (i : typed.Typed) → Checks index i → ChecksAddress result (spec.addressed_in false m at i) }
{
    Addressed {
        good: index.good,
        flaws: index.flaws,
        depth: index.depth,
    }
}

/// An address of an array of nets, by its number: one that the array has.
pub(crate) fn in_array(shape: SignalShape, at: u32, index: Checked, number: Numbered) -> Addressed
    ensures { (m : SignalMeaning) (i : typed.Typed) → shape.words ≡ m.signal.words → Checks index i → ChecksNumber number (typed.number_of at i)
        → ChecksAddress result (spec.addressed_in true m at i) }
{
    let addresses = addresses_of(shape);
    let n = natural_of(addresses.right, addresses.left, at, number);
    Addressed {
        good: n.number.is_some() && index.good,
        flaws: n.flaws,
        depth: index.depth,
    }
}

/// The word of a memory at this address, which is no constant (4.9.3).
#[tactic(auto, using(crate::proofs::Least::flaws_append))]
pub(crate) fn word(needed: bool, place: u32, shape: SignalShape, index: Addressed) -> Checked
    ensures { (m : SignalMeaning) (at : ℕ) (i : typed.Typed) → shape.range ≡ m.signal.range → shape.signed ≡ m.signal.signed → shape.known ≡ m.known → ChecksAddress index (spec.addressed m at i)
        → Checks result (spec.word_typed needed place m (spec.addressed m at i)) }
{
    if needed {
        return Checked {
            flaws: both(flaw(Rule::NotConstant, place), index.flaws),
            length: None,
            good: false,
            signed: false,
            depth: 0,
        };
    }
    let good = shape.known && index.good;
    Checked {
        flaws: index.flaws,
        length: if shape.known {
            Some(signal_length(shape.range))
        } else {
            None
        },
        good,
        signed: good && shape.signed,
        depth: if good { index.depth } else { 0 },
    }
}

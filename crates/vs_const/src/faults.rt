//! Broken rules, and the first of them.

ghost use Rattle.std.specs.Prelude.{◌≡◌, []};
ghost use Rattle.vs_const.specs.Faults.{comes_before, better, fault, fault_if, flaws_of, least, merged};

use crate::rules::Rule;

/// A rule that is broken, and the token where it is broken.
#[derive(Clone, Copy, PartialEq, Eq, Debug)]
pub struct Fault {
    pub rule: Rule,
    pub place: u32,
}

/// What is wrong with an expression: its first fault, and whether a signal is named where a constant is needed.
#[derive(Clone, Copy, PartialEq, Eq, Debug)]
pub struct Flaws {
    pub first: Option<Fault>,
    pub signal: bool,
}

/// Whether a fault comes before another: at a lesser place, or there of a rule with a lesser number.
pub fn comes_before(a: Fault, b: Fault) -> bool
    ensures { result ≡ comes_before a b }
{
    let first = a.rule.number();
    let second = b.rule.number();
    a.place < b.place || (a.place == b.place && first < second)
}

/// The first of two faults: the one at the lesser place, and there the one whose rule has the lesser number.
pub fn first_of(a: Option<Fault>, b: Option<Fault>) -> Option<Fault>
    ensures { result ≡ better a b }
{
    match (a, b) {
        (None, other) => other,
        (one, None) => one,
        (Some(a), Some(b)) => Some(if comes_before(b, a) { b } else { a }),
    }
}

/// What is wrong with a whole, by what is wrong with its two parts.
pub fn both(a: Flaws, b: Flaws) -> Flaws
    ensures { result ≡ merged a b }
{
    Flaws {
        first: first_of(a.first, b.first),
        signal: a.signal || b.signal,
    }
}

/// Nothing is wrong.
pub fn flawless() -> Flaws
    ensures { result ≡ flaws_of [] }
{
    Flaws {
        first: None,
        signal: false,
    }
}

/// A rule is broken at a place.
pub fn fault_at(rule: Rule, place: u32) -> Option<Fault>
    ensures { result ≡ least (fault rule place) }
{
    Some(Fault { rule, place })
}

/// A rule is broken at a place, if it is.
pub fn fault_if(broken: bool, rule: Rule, place: u32) -> Option<Fault>
    ensures { result ≡ least (fault_if broken rule place) }
{
    if broken { fault_at(rule, place) } else { None }
}

/// A rule is broken.
pub fn flaw(rule: Rule, place: u32) -> Flaws
    ensures { result ≡ flaws_of (fault rule place) }
{
    Flaws {
        first: fault_at(rule, place),
        signal: rule.is_of_signal(),
    }
}

/// The rule is broken, or nothing is wrong.
pub fn flaw_if(broken: bool, rule: Rule, place: u32) -> Flaws
    ensures { result ≡ flaws_of (fault_if broken rule place) }
{
    if broken {
        flaw(rule, place)
    } else {
        flawless()
    }
}

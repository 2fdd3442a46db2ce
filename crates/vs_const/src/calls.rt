//! Calls of functions (IEEE 1364-2005, 10.4.3).

ghost use Rattle.std.specs.Prelude.{◌≡◌, ◌+◌, ◌<◌, ◌^◌, Bool, if◌then◌else◌, false, None};
ghost use Rattle.vs_const.specs.Checks.{Checks, ChecksArguments};
ghost use Rattle.vs_const.specs.Expressions as expr;
ghost use Rattle.vs_const.specs.Faults.{fault, Recursion, WrongKind};
ghost use Rattle.vs_const.specs.Found.{Finds};
ghost use Rattle.vs_const.specs.Meanings.{SignalMeaning, FunctionMeaning, Meaning, Means, AFunction, is_result};
ghost use Rattle.vs_const.specs.Typed as typed;

use crate::faults::{Flaws, both, flaw_if, flawless};
use crate::found::{Checked, Found};
use crate::names::{FunctionShape, Named, Role};
use crate::operators::faulty;
use crate::rules::Rule;
use crate::selects::{rule_where, signal_length, wrong_rule};

/// What the arguments of a call say: how many there are, how deep calls nest in them, and whether no fault leaves one undefined.
#[derive(Clone, Copy, Debug)]
pub(crate) struct Arguments {
    pub(crate) flaws: Flaws,
    pub(crate) good: bool,
    pub(crate) count: usize,
    pub(crate) depth: u32,
}

/// None.
pub(crate) fn no_argument() -> Arguments
    ensures { (t : expr.TypedItems) → t ≡ expr.no_arguments → ChecksArguments result t }
{
    Arguments {
        flaws: flawless(),
        good: true,
        count: 0,
        depth: 0,
    }
}

/// One before others.
#[tactic(auto, using(crate::proofs::Least::flaws_append))]
pub(crate) fn and_argument(c: Checked, others: Arguments) -> Arguments
    requires { others.count + 1 < 2 ^ 64 }
    ensures { (t : typed.Typed) (rest : expr.TypedItems) → Checks c t → ChecksArguments others rest → ChecksArguments result (expr.and_argument t rest) }
{
    Arguments {
        flaws: both(c.flaws, others.flaws),
        good: c.good && others.good,
        count: others.count + 1,
        depth: c.depth.max(others.depth),
    }
}

/// The rule that a call of a signal breaks: the result of the function around has the name of that function (10.4.2).
fn signal_rule(role: Role) -> Rule
    ensures { (s : SignalMeaning) → role ≡ s.role → result ≡ (if is_result s then Recursion else WrongKind) }
{
    match role {
        Role::AsResult => Rule::Recursion,
        Role::InModule => Rule::WrongKind,
        Role::InFunction => Rule::WrongKind,
    }
}

/// The rule that what is called breaks if it is no function that is complete here.
pub(crate) fn call_rule(needed: bool, named: &Named) -> Rule
    ensures { (m : Meaning) → Means named.now m → result ≡ expr.call_rule needed m }
{
    match named {
        Named::Signal(s) => rule_where(needed, signal_rule(s.role)),
        Named::Incomplete => rule_where(needed, Rule::Recursion),
        _ => wrong_rule(needed, named),
    }
}

/// A name that breaks a rule, whatever stands behind it.
pub(crate) fn find_misnamed(rule: Rule, place: u32) -> Found
    ensures { (needed : Bool) → Finds needed result (typed.broken None (fault rule place)) }
{
    Found {
        said: faulty(rule, place),
        form: None,
    }
}

/// What a call says of a function.
#[tactic(auto, using(crate::proofs::Least::flaws_append, crate::proofs::CalledFunctions::as_declared, crate::proofs::CalledFunctions::passed_depth))]
fn called(f: FunctionShape, place: u32, arguments: Arguments) -> Checked
    ensures { (m : FunctionMeaning) (t : expr.TypedItems) → Means (Named.Function f) (AFunction m) → ChecksArguments arguments t → Checks result (expr.called m place t) }
{
    let fits = arguments.count == f.inputs as usize;
    let good = f.known && fits && arguments.good;
    Checked {
        flaws: both(
            flaw_if(f.known && !fits, Rule::FunctionRule, place),
            arguments.flaws,
        ),
        length: if f.known {
            Some(signal_length(f.range))
        } else {
            None
        },
        good,
        signed: good && f.signed,
        depth: if good {
            arguments.depth.max(u32::from(f.depth) + 1)
        } else {
            0
        },
    }
}

/// A call, which is no constant and so is never kept.
pub(crate) fn find_called(f: FunctionShape, place: u32, arguments: Arguments) -> Found
    ensures { (m : FunctionMeaning) (t : expr.TypedItems) → Means (Named.Function f) (AFunction m) → ChecksArguments arguments t → Finds false result (expr.called m place t) }
{
    Found {
        said: called(f, place, arguments),
        form: None,
    }
}

//! The turns of a generate loop (IEEE 1364-2005, 12.4.1).

ghost use Rattle.std.specs.Prelude.{◌≡◌, ◌++◌, ◌∷◌, ◌||◌, [], ◌==◌, true, false, None, nat_lt, nat_le, suc, length, Bool, ℕ, List, IfOk, OnOk, if◌then◌else◌};
ghost use Rattle.std.specs.List.{list_any};
ghost use Rattle.vs_grammar.specs.Shapes.{IsExpr, IsHead};
ghost use Rattle.vs_ast.specs.Views as view;
ghost use Rattle.vs_const.specs.Checks.{ChecksNatural};
ghost use Rattle.vs_const.specs.Faults.{least};
ghost use Rattle.vs_const.specs.Found.{Says, AreValued};
ghost use Rattle.vs_const.specs.Typed as typed;
ghost use Rattle.vs_elaborated.specs.Environments.{with_turn};
ghost use Rattle.vs_elaborated.specs.Limits.{the_limits};
ghost use Rattle.vs_elaborated.specs.Loops as spec;
ghost use Rattle.vs_scope.specs.Frames.{turn, view_env};
ghost use Rattle.vs_scope.specs.Turns.{IsTurned, AreTurns, assigned_natural, taken_turn, turned};

use crate::counts::one_more;
use crate::frames::Turn;
use crate::numbers::{constant, number};
use crate::parameters::assigned;
use crate::places::View;
use indexmap::IndexSet;
use std::alloc::{AllocError, Global};
use vs_ast::{Expr, LoopHead};
use vs_const::{
    Fault, Found, Natural, Rule, both, fault_at, first_of, flaw, flawless, own, place_of, within,
};
use vs_four::{Bits, integer, is_known};

/// How many turns one loop takes at most, and all loops of a design.
const MOST_TURNS: usize = 4096;

const MOST_OF_ALL: u32 = 1_048_576;

/// The number of a value that is assigned to a genvar, by its own bits and those of the genvar.
fn assigned_number(place: u32, own: Bits, bits: Bits) -> Natural
    ensures { ChecksNatural result (assigned_natural place own bits) }
{
    if is_known(own) && is_known(bits) {
        within(0, 2147483647, place, Some(integer(bits, true)))
    } else {
        Natural {
            number: None,
            flaws: flaw(Rule::UnknownConstant, place),
        }
    }
}

/// A value assigned to a genvar: converted to 32 bits, signed, and not negative.
fn genvar_number(place: u32, c: &Found) -> Natural
    requires { AreValued c.now.form }
    ensures { (t : typed.Typed) → Says true c.now t → ChecksNatural result (spec.genvar_number place t) }
{
    match &c.form {
        None => Natural {
            number: None,
            flaws: c.said.flaws,
        },
        Some(f) => {
            let n = assigned_number(place, own(f), assigned(f, 32));
            Natural {
                number: n.number,
                flaws: both(c.said.flaws, n.flaws),
            }
        }
    }
}

/// The value of an expression that is assigned to a genvar.
pub(crate) fn genvar_value(
    alloc: Global,
    e: &Expr,
    here: &View<'_, '_>,
) -> Result<Natural, AllocError>
    requires { IsExpr (view.expr e.now) }
    ensures { IfOk result (λ n. ChecksNatural n (spec.genvar_value (view.expr e.now) (view_env here.now))) }
{
    let c = constant(alloc, e, here)?;
    Ok(genvar_number(place_of(e), &c))
}

/// Whether a condition holds: it is a number other than 0.
pub(crate) fn holds(number: Option<i128>) -> bool
    ensures { result ≡ spec.holds number }
{
    match number {
        None => false,
        Some(z) => z != 0,
    }
}

/// What is seen in a loop's head at one value of its variable.
fn inside_of<'f, 'a>(here: &View<'f, 'a>, one: Turn) -> View<'f, 'a>
    requires { here.now.inside ≡ None }
    ensures { view_env result ≡ with_turn (view_env here.now) (turn one) }
{
    View {
        around: here.around,
        names: here.names,
        inside: Some(one),
        before: here.before,
        in_function: here.in_function,
    }
}

/// What a loop does at one value of its variable: whether it takes a turn, with which value it goes on, its first fault, and the count of all
/// turns then.
#[derive(Clone, Copy)]
pub(crate) struct Turned {
    pub(crate) taken: bool,
    pub(crate) next: Option<u32>,
    pub(crate) fault: Option<Fault>,
    pub(crate) count: u32,
}

/// The loop ends.
fn ended(fault: Option<Fault>, count: u32) -> Turned
    ensures { result ≡ record { taken = false; next = None; fault = fault; count = count } }
{
    Turned {
        taken: false,
        next: None,
        fault,
        count,
    }
}

/// The value of the next turn; where the second assignment is to another variable, it has none.
fn step(
    alloc: Global,
    head: &LoopHead,
    is_same: bool,
    inside: &View<'_, '_>,
) -> Result<Natural, AllocError>
    requires { IsHead (view.loop_head head.now) }
    ensures { IfOk result (λ n. ChecksNatural n (spec.step is_same (view.loop_head head.now) (view_env inside.now))) }
{
    if is_same {
        genvar_value(alloc, &head.next, inside)
    } else {
        Ok(Natural {
            number: None,
            flaws: flawless(),
        })
    }
}

/// Whether there are too many turns, of this loop or of all.
fn is_over(is_last: bool, count: u32) -> bool
    ensures { result ≡ (is_last || nat_lt the_limits.all_turns count) }
{
    is_last || count > MOST_OF_ALL
}

/// A turn whose test holds; `is_last` says that this loop may take no more.
fn taken(
    alloc: Global,
    head: &LoopHead,
    is_same: bool,
    inside: &View<'_, '_>,
    is_last: bool,
    test: Option<Fault>,
    total: u32,
) -> Result<Turned, AllocError>
    requires { IsHead (view.loop_head head.now) }
    ensures { (fs : List Fault) → test ≡ least fs → IfOk result (λ t. IsTurned t (taken_turn is_last (view.loop_head head.now) is_same (view_env inside.now) fs total)) }
{
    let count = one_more(total)?;
    if is_over(is_last, count) {
        return Ok(ended(
            first_of(test, fault_at(Rule::GenerateTurns, head.place)),
            count,
        ));
    }
    let next = step(alloc, head, is_same, inside)?;
    Ok(Turned {
        taken: true,
        next: next.number,
        fault: first_of(test, next.flaws.first),
        count,
    })
}

/// What a loop does at one value of its variable. `again` says that it had the value before, and `total` counts the turns of all loops so far.
fn turn_at(
    alloc: Global,
    head: &LoopHead,
    is_same: bool,
    inside: &View<'_, '_>,
    again: bool,
    is_last: bool,
    total: u32,
) -> Result<Turned, AllocError>
    requires { IsHead (view.loop_head head.now) }
    ensures { IfOk result (λ t. IsTurned t (turned again is_last (view.loop_head head.now) is_same (view_env inside.now) total)) }
{
    if again {
        return Ok(ended(fault_at(Rule::DuplicateName, head.place), total));
    }
    let test = number(alloc, &head.test, inside)?;
    if holds(test.number) {
        taken(
            alloc,
            head,
            is_same,
            inside,
            is_last,
            test.flaws.first,
            total,
        )
    } else {
        Ok(ended(test.flaws.first, total))
    }
}

/// The values that a loop's variable takes, the first fault, and the count of all turns behind them.
#[derive(Drop)]
pub(crate) struct Turns {
    pub(crate) values: Vec<u32>,
    pub(crate) fault: Option<Fault>,
    pub(crate) count: u32,
}

/// One value more, if its turn is taken.
fn push_if(values: &mut Vec<u32>, taken: bool, v: u32) -> Result<(), AllocError>
    ensures { OnOk result (values.new.items ≡ (if taken then values.old.items ++ v ∷ [] else values.old.items)) }
{
    if taken {
        values.push(v)?;
    }
    Ok(())
}

/// The turn at one value of a loop's variable: the value is seen from now on, and kept if its turn is taken.
fn one_turn(
    alloc: Global,
    head: &LoopHead,
    is_same: bool,
    inside: &View<'_, '_>,
    total: u32,
    v: u32,
    seen: &mut IndexSet<u32>,
    values: &mut Vec<u32>,
) -> Result<Turned, AllocError>
    requires { IsHead (view.loop_head head.now) }
    ensures seen { OnOk result (seen.new.keys ≡ (if list_any (λ u. v == u) seen.old.keys then seen.old.keys else seen.old.keys ++ v ∷ [])) }
    ensures values { IfOk result (λ t. values.new.items ≡ (if t.taken then values.old.items ++ v ∷ [] else values.old.items)) }
    ensures turned { IfOk result (λ t. IsTurned t (turned (list_any (λ u. v == u) seen.old.keys) (nat_le the_limits.turns (length values.old.items)) (view.loop_head head.now) is_same (view_env inside.now) total)) }
{
    let is_new = seen.insert(v)?;
    let is_last = values.as_slice().len() >= MOST_TURNS;
    let t = turn_at(alloc, head, is_same, inside, !is_new, is_last, total)?;
    push_if(values, t.taken, v)?;
    Ok(t)
}

/// The turns of a loop from a first value on.
pub(crate) fn turns_from(
    alloc: Global,
    head: &LoopHead,
    is_same: bool,
    genvar: u32,
    here: &View<'_, '_>,
    total: u32,
    first: u32,
) -> Result<Turns, AllocError>
    requires shaped { IsHead (view.loop_head head.now) }
    requires inside { here.now.inside ≡ None }
    ensures { IfOk result (λ t. AreTurns t (spec.turns_from (suc the_limits.turns) the_limits (view.loop_head head.now) is_same genvar (view_env here.now) [] total first)) }
{
    let mut values = Vec::new(alloc);
    let mut seen = IndexSet::new(alloc);
    let mut fault = None;
    let mut count = total;
    let mut next = Some(first);
    while let Some(v) = next {
        let inside = inside_of(here, Turn { genvar, value: v });
        let t = one_turn(
            alloc,
            head,
            is_same,
            &inside,
            count,
            v,
            &mut seen,
            &mut values,
        )?;
        fault = first_of(fault, t.fault);
        count = t.count;
        next = t.next;
    }
    Ok(Turns {
        values,
        fault,
        count,
    })
}

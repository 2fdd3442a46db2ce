//! What the parts of an expression say of the whole (IEEE 1364-2005, 5.4.1 and 5.5.1).

ghost use Rattle.std.specs.Prelude.{◌≡◌, ◌≤◌, ◌<◌, ◌+◌, ◌*◌, ℕ, max, true, false, Option, None, Some, List, [], IfSome};
ghost use Rattle.vs_design.specs.Expressions as E;
ghost use Rattle.vs_grammar.specs.Trees as tree;
ghost use Rattle.vs_grammar.specs.Shapes.{IsLiteral};
ghost use Rattle.vs_ast.specs.Views as view;
ghost use Rattle.vs_const.specs.Faults.{fault, flaws_of};
ghost use Rattle.vs_const.specs.Typed as typed;
ghost use Rattle.vs_const.specs.Expressions as expr;
ghost use Rattle.vs_const.specs.Checks.{capped, Checks, ChecksNatural, IsUnsizedAt};

use crate::faults::{Fault, Flaws, both, flaw, flaw_if, flawless};
use crate::found::Checked;
use crate::ranges::Natural;
use crate::rules::Rule;
use vs_ast::Literal;
use vs_base::{BinaryOp, UnaryOp, Way};

/// An expression whose value another fault leaves undefined.
pub(crate) fn undefined() -> Checked
    ensures { Checks result (typed.broken None []) }
{
    Checked {
        flaws: flawless(),
        length: None,
        good: false,
        signed: false,
        depth: 0,
    }
}

/// An expression that breaks a rule at this place, and has no length.
pub(crate) fn faulty(rule: Rule, place: u32) -> Checked
    ensures { Checks result (typed.broken None (fault rule place)) }
{
    Checked {
        flaws: flaw(rule, place),
        length: None,
        good: false,
        signed: false,
        depth: 0,
    }
}

/// An expression that begins at this place; where a constant is needed it has at most 64 bits, or names a signal.
#[tactic(auto, using(crate::proofs::Least::flaws_append, crate::proofs::Depths::begins_depth))]
pub(crate) fn noted(needed: bool, place: u32, c: Checked) -> Checked
    ensures { (t : typed.Typed) → Checks c t → Checks result (typed.noted needed place t) }
{
    let long = needed && c.length.is_some_and(|n| n > 64);
    Checked {
        flaws: both(
            c.flaws,
            flaw_if(long && !c.flaws.signal, Rule::BadRange, place),
        ),
        length: c.length,
        good: c.good && !long,
        signed: c.signed,
        depth: c.depth,
    }
}

/// An operator of one operand, or a cast.
pub(crate) fn unary(op: UnaryOp, a: Checked) -> Checked
    ensures { (t : typed.Typed) → Checks a t → Checks result (typed.unary_typed op t) }
{
    match op {
        UnaryOp::Plus | UnaryOp::Minus | UnaryOp::BitNot => a,
        UnaryOp::Signed => Checked { signed: true, ..a },
        UnaryOp::Unsigned => Checked { signed: false, ..a },
        UnaryOp::LogicalNot
        | UnaryOp::ReduceAnd
        | UnaryOp::ReduceNand
        | UnaryOp::ReduceOr
        | UnaryOp::ReduceNor
        | UnaryOp::ReduceXor
        | UnaryOp::ReduceXnor => Checked {
            length: Some(1),
            signed: false,
            ..a
        },
    }
}

/// The greater of two lengths.
fn greater(a: Option<u32>, b: Option<u32>) -> Option<u32>
    ensures { (l m : Option ℕ) → a ≡ capped l → b ≡ capped m → result ≡ capped (typed.both_lengths max l m) }
{
    match (a, b) {
        (Some(a), Some(b)) => Some(if a < b { b } else { a }),
        _ => None,
    }
}

/// The sum of two lengths.
fn sum(a: Option<u32>, b: Option<u32>) -> Option<u32>
    ensures { (l m : Option ℕ) → a ≡ capped l → b ≡ capped m → result ≡ capped (typed.both_lengths ◌+◌ l m) }
{
    match (a, b) {
        (Some(a), Some(b)) => Some((a.min(65) + b.min(65)).min(65)),
        _ => None,
    }
}

/// An operator of two operands.
#[tactic(auto, using(crate::proofs::Least::flaws_append))]
pub(crate) fn binary(op: BinaryOp, a: Checked, b: Checked) -> Checked
    ensures { (t u : typed.Typed) → Checks a t → Checks b u
        → Checks result (typed.binary_typed op t u) }
{
    let flaws = both(a.flaws, b.flaws);
    let good = a.good && b.good;
    let depth = a.depth.max(b.depth);
    match op.way() {
        Way::InContext => Checked {
            flaws,
            length: greater(a.length, b.length),
            good,
            signed: a.signed && b.signed,
            depth,
        },
        Way::Shifted | Way::Raised => Checked {
            flaws,
            length: a.length,
            good,
            signed: a.signed,
            depth,
        },
        Way::Own | Way::Compared => Checked {
            flaws,
            length: Some(1),
            good,
            signed: false,
            depth,
        },
    }
}

/// `c ? p : q`.
#[tactic(auto, using(crate::proofs::Least::flaws_append))]
pub(crate) fn choice(c: Checked, p: Checked, q: Checked) -> Checked
    ensures { (t u v : typed.Typed) → Checks c t → Checks p u → Checks q v → Checks result (typed.choice_typed t u v) }
{
    Checked {
        flaws: both(c.flaws, both(p.flaws, q.flaws)),
        length: greater(p.length, q.length),
        good: c.good && (p.good && q.good),
        signed: p.signed && q.signed,
        depth: c.depth.max(p.depth.max(q.depth)),
    }
}

/// `{high, low}`.
#[tactic(auto, using(crate::proofs::Least::flaws_append))]
pub(crate) fn join(high: Checked, low: Checked) -> Checked
    ensures { (t u : typed.Typed) → Checks high t → Checks low u → Checks result (typed.join_typed t u) }
{
    Checked {
        flaws: both(high.flaws, low.flaws),
        length: sum(high.length, low.length),
        good: high.good && low.good,
        signed: false,
        depth: high.depth.max(low.depth),
    }
}

/// The length of so many copies.
fn times(count: u32, length: Option<u32>) -> Option<u32>
    requires some { 1 ≤ count }
    requires most { count ≤ 64 }
    ensures { (l : Option ℕ) → length ≡ capped l → result ≡ capped (typed.length_map (λ m. count * m) l) }
{
    match length {
        None => None,
        Some(n) => Some((count * n.min(65)).min(65)),
    }
}

/// `{count{..}}`.
pub(crate) fn copies(count: u32, c: Checked) -> Checked
    requires some { 1 ≤ count }
    requires most { count ≤ 64 }
    ensures { (t : typed.Typed) → Checks c t → Checks result (typed.copies_typed count t) }
{
    Checked {
        flaws: c.flaws,
        length: times(count, c.length),
        good: c.good,
        signed: false,
        depth: c.depth,
    }
}

/// A literal.
pub(crate) fn literal(n: &Literal) -> Checked
    requires { IsLiteral (view.literal n.now) }
    ensures { Checks result (typed.fine (E.Literal (view.literal n.now).bits n.now.signed n.now.sized) []) }
{
    Checked {
        flaws: flawless(),
        length: Some(n.size),
        good: true,
        signed: n.signed,
        depth: 0,
    }
}

/// So many copies, unless a fault leaves the count undefined.
#[tactic(auto, using(crate::proofs::Least::flaws_append))]
pub(crate) fn replicated(n: Natural, c: Checked) -> Checked
    requires { IfSome n.number (λ k. (1 ≤ k) × (k ≤ 64)) }
    ensures { (m : typed.Natural) (t : typed.Typed) → ChecksNatural n m → Checks c t → Checks result (expr.replicated m.number m.faults t) }
{
    let flaws = both(n.flaws, c.flaws);
    match n.number {
        None => Checked {
            flaws,
            length: None,
            good: false,
            signed: false,
            depth: 0,
        },
        Some(count) => Checked {
            flaws,
            ..copies(count, c)
        },
    }
}

/// A part of a concatenation; `unsized_at` is the place of a literal without a size.
#[tactic(auto, using(crate::proofs::Least::flaws_append))]
pub(crate) fn part(c: Checked, unsized_at: Option<u32>) -> Checked
    ensures { (e : tree.Expr) (t : typed.Typed) → IsUnsizedAt unsized_at (expr.unsized_faults e) → Checks c t
        → Checks result (expr.part_typed e t) }
{
    match unsized_at {
        None => c,
        Some(place) => Checked {
            flaws: both(c.flaws, flaw(Rule::WrongKind, place)),
            length: c.length,
            good: false,
            signed: c.signed,
            depth: c.depth,
        },
    }
}

/// `$clog2`, by what it gives for its argument's value.
#[tactic(auto, using(crate::proofs::Least::flaws_append))]
pub(crate) fn clog2_of(place: u32, flaws: Flaws, n: Option<u32>) -> Checked
    ensures { (fs : List Fault) → flaws ≡ flaws_of fs → Checks result (expr.clog2_of n place fs) }
{
    match n {
        Some(_) => Checked {
            flaws,
            length: Some(32),
            good: true,
            signed: true,
            depth: 0,
        },
        None => Checked {
            flaws: both(flaws, flaw(Rule::UnknownConstant, place)),
            length: Some(32),
            good: false,
            signed: false,
            depth: 0,
        },
    }
}

/// `$clog2` of an argument whose value a fault leaves undefined.
pub(crate) fn clog2_broken(flaws: Flaws) -> Checked
    ensures { (fs : List Fault) → flaws ≡ flaws_of fs → Checks result (typed.broken (Some 32) fs) }
{
    Checked {
        flaws,
        length: Some(32),
        good: false,
        signed: false,
        depth: 0,
    }
}

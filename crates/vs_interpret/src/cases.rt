//! Which branch of an `if` or arm of a `case` is taken (IEEE 1364-2005, 9.4 and 9.5).

ghost use Rattle.std.specs.Prelude.{◌≡◌, ◌≤◌, ◌<◌, ℕ, length, map, true, if◌then◌else◌, Some, IfOk};
ghost use Rattle.vs_four.specs.Logic.{truth};
ghost use Rattle.vs_four.specs.Tables.{is_one};
ghost use Rattle.vs_design.specs.Bodies as B;
ghost use Rattle.vs_design.specs.Expressions.{items_of};
ghost use Rattle.vs_design.specs.Fits.{fit_items, fits_arms, is_fit};
ghost use Rattle.vs_design.specs.Statements as T;
ghost use Rattle.vs_design.specs.Within.{items_within, arms_within, names_within};
ghost use Rattle.vs_flat.specs.Trees.{branch};
ghost use Rattle.vs_writes.specs.Held.{state_of};
ghost use Rattle.vs_sets.specs.Matches.{IsOneOf, are_within, items_at};
ghost use Rattle.vs_sets.specs.Nodes.{EachBelow, tree_of};
ghost use Rattle.vs_sets.specs.StatementParts.{ArmsBelow, arms_of, statement_of};

use crate::evaluator::Evaluator;
use std::alloc::AllocError;
use vs_base::{CaseKind, Context};
use vs_flat::Arm;
use vs_four::{Bit4, Bits, matches_x, matches_z, same, truth};
use vs_sets::case_context;

/// The branch of an `if` that is taken by a condition with this value (IEEE 1364-2005, 9.4).
pub(crate) fn if_branch(condition: Bits, yes: u32, no: Option<u32>) -> Option<u32>
    ensures { result ≡ (if is_one (truth condition) then Some yes else no) }
{
    if matches!(truth(condition), Bit4::One) {
        Some(yes)
    } else {
        no
    }
}

/// Whether an item matches (IEEE 1364-2005, 9.5.1).
fn is_match(kind: CaseKind, a: Bits, b: Bits) -> bool
    requires { length a ≡ length b }
    ensures { result ≡ is_one (T.case_match kind a b) }
{
    let bit = match kind {
        CaseKind::Exact => same(a, b),
        CaseKind::CaseZ => matches_z(a, b),
        CaseKind::CaseX => matches_x(a, b),
    };
    matches!(bit, Bit4::One)
}

/// Whether some of these items, which are below a number of expressions, match the value of the case's expression.
#[cycle(evaluating)]
fn is_taken(
    evaluator: &Evaluator,
    nodes: u32,
    kind: CaseKind,
    context: Context,
    subject: Bits,
    items: &[u32],
) -> Result<bool, AllocError>
    requires nodes { nodes ≤ length evaluator.now.shapes.now.nodes }
    requires there { EachBelow nodes items.now }
    requires names { items_within (length evaluator.now.values.now) (items_of (map (tree_of evaluator.now.shapes.now) items.now)) ≡ true }
    requires fit { fit_items (items_of (map (tree_of evaluator.now.shapes.now) items.now)) ≡ true }
    requires within { are_within context.width (map (tree_of evaluator.now.shapes.now) items.now) ≡ true }
    requires few { context.width ≤ 64 }
    requires many { length subject ≡ context.width }
    ensures { IfOk result (λ r. r ≡ B.is_taken kind context.width context.signed subject (items_of (map (tree_of evaluator.now.shapes.now) items.now)) (state_of evaluator.now.values.now)) }
{
    for item in items {
        let value = evaluator.value(*item, context)?;
        if is_match(kind, subject, value) {
            return Ok(true);
        }
    }
    Ok(false)
}

/// The statement of the first arm that matches, or else the default; one that isn't there does nothing.
#[cycle(evaluating)]
fn first_taken(
    evaluator: &Evaluator,
    nodes: u32,
    kind: CaseKind,
    context: Context,
    subject: Bits,
    arms: &[Arm],
    other: Option<u32>,
) -> Result<Option<u32>, AllocError>
    requires nodes { nodes ≤ length evaluator.now.shapes.now.nodes }
    requires there { ArmsBelow nodes (length evaluator.now.shapes.now.statements) arms.now }
    requires names { arms_within (length evaluator.now.values.now) (arms_of evaluator.now.shapes.now other arms.now) ≡ true }
    requires fit { fits_arms (arms_of evaluator.now.shapes.now other arms.now) ≡ true }
    requires within { (k : ℕ) → k < length arms.now → are_within context.width (map (tree_of evaluator.now.shapes.now) (items_at arms.now k)) ≡ true }
    requires few { context.width ≤ 64 }
    requires many { length subject ≡ context.width }
    ensures from { IfOk result (IsOneOf arms.now other) }
    ensures body { IfOk result (λ b. B.body (branch (statement_of evaluator.now.shapes.now) b) (state_of evaluator.now.values.now) ≡ B.arms_body (arms_of evaluator.now.shapes.now other arms.now) kind context.width context.signed subject (state_of evaluator.now.values.now)) }
{
    for arm in arms {
        let items = arm.items.as_slice();
        let found = is_taken(evaluator, nodes, kind, context, subject, items)?;
        if found {
            return Ok(Some(arm.statement));
        }
    }
    Ok(other)
}

/// The branch of a case (IEEE 1364-2005, 9.5) that is taken.
#[cycle(evaluating)]
pub(crate) fn case_branch(
    evaluator: &Evaluator,
    nodes: u32,
    kind: CaseKind,
    of: u32,
    arms: &[Arm],
    other: Option<u32>,
) -> Result<Option<u32>, AllocError>
    requires nodes { nodes ≤ length evaluator.now.shapes.now.nodes }
    requires of_there { of < nodes }
    requires there { ArmsBelow nodes (length evaluator.now.shapes.now.statements) arms.now }
    requires of_within { names_within (length evaluator.now.values.now) (tree_of evaluator.now.shapes.now of) ≡ true }
    requires names { arms_within (length evaluator.now.values.now) (arms_of evaluator.now.shapes.now other arms.now) ≡ true }
    requires of_fit { is_fit (tree_of evaluator.now.shapes.now of) ≡ true }
    requires fit { fits_arms (arms_of evaluator.now.shapes.now other arms.now) ≡ true }
    ensures from { IfOk result (IsOneOf arms.now other) }
    ensures body { IfOk result (λ b. B.body (branch (statement_of evaluator.now.shapes.now) b) (state_of evaluator.now.values.now) ≡ B.body (T.Case kind (tree_of evaluator.now.shapes.now of) (arms_of evaluator.now.shapes.now other arms.now)) (state_of evaluator.now.values.now)) }
{
    let own = evaluator.own_context(of);
    let context = case_context(evaluator.shapes, own, arms, other);
    let subject = evaluator.value(of, context)?;
    first_taken(evaluator, nodes, kind, context, subject, arms, other)
}

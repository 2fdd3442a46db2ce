//! Which arms of a case may be taken (IEEE 1364-2005, 9.5).

ghost use Rattle.std.specs.Prelude.{◌≡◌, ◌≤◌, ◌<◌, ◌+◌, ℕ, length, map, true, false, max, if◌then◌else◌, Some, IfOk, All};
ghost use Rattle.std.specs.List.{list_any};
ghost use Rattle.vs_design.specs.Expressions as E;
ghost use Rattle.vs_design.specs.Statements as T;
ghost use Rattle.vs_design.specs.Fits.{fit_items, fits_arms, is_fit};
ghost use Rattle.vs_design.specs.Lifted as L;
ghost use Rattle.vs_design.specs.Expressions.{items_of};
ghost use Rattle.vs_design.specs.LiftedBodies.{match_bit, item_sets, lifted_body};
ghost use Rattle.vs_design.specs.Sets.{Set4 as SetOf, is_only_one};
ghost use Rattle.vs_design.specs.Footprints.{contains, read_bits};
ghost use Rattle.vs_design.specs.Selects.{arms_constant};
ghost use Rattle.vs_design.specs.Sleepers.{arms_at_once};
ghost use Rattle.vs_design.specs.Within.{items_within, arms_within, names_within};
ghost use Rattle.vs_sets.specs.BitOperators.{operator_of};
ghost use Rattle.vs_sets.specs.Branches.{branch_sets, taken_arms};
ghost use Rattle.vs_flat.specs.Trees.{arms_tree};
ghost use Rattle.vs_sets.specs.Completing.{last_arm};
ghost use Rattle.vs_sets.specs.Matches.{IsOneOf, are_within, branches_of, items_at};
ghost use Rattle.vs_sets.specs.Nodes.{EachBelow, tree_of};
ghost use Rattle.vs_sets.specs.StatementParts.{ArmsBelow, arms_of};
ghost use Rattle.vs_sets.specs.Tables.{family_of, known_of};

use crate::SetList;
use crate::bits::BitOperator;
use crate::bitwise::set_match;
use crate::contexts::{case_context, own_context};
use crate::lifter::Lifter;
use crate::set4::Set4;
use std::alloc::{AllocError, Global};
use vs_base::{CaseKind, Context};
use vs_flat::{Arm, names_law};
use vs_four::Bit4;
use vs_shape::Shapes;

/// Whether an arm is surely taken where the case comes to it, and whether it may be.
#[derive(Clone, Copy, Debug)]
struct Match {
    sure: bool,
    may: bool,
}

/// How a bit of an item is compared.
fn match_operator(kind: CaseKind) -> BitOperator
    ensures { operator_of result ≡ match_bit kind }
{
    match kind {
        CaseKind::Exact => BitOperator::Same,
        CaseKind::CaseZ => BitOperator::CaseZ,
        CaseKind::CaseX => BitOperator::CaseX,
    }
}

/// Whether items match these sets of the case's expression. The items are below a number of expressions.
#[cycle(lifting)]
fn match_items(
    lifter: &Lifter,
    nodes: u32,
    kind: CaseKind,
    context: Context,
    subject: &SetList,
    items: &[u32],
) -> Result<Match, AllocError>
    requires nodes { nodes ≤ length lifter.now.shapes.now.nodes }
    requires there { EachBelow nodes items.now }
    requires names { items_within (length lifter.now.table.now) (items_of (map (tree_of lifter.now.shapes.now) items.now)) ≡ true }
    requires fit { fit_items (items_of (map (tree_of lifter.now.shapes.now) items.now)) ≡ true }
    requires within { are_within context.width (map (tree_of lifter.now.shapes.now) items.now) ≡ true }
    requires few { context.width ≤ 64 }
    requires many { length subject.now ≡ context.width }
    ensures sure { IfOk result (λ r. r.sure ≡ list_any is_only_one (item_sets kind context.width context.signed subject.now (items_of (map (tree_of lifter.now.shapes.now) items.now)) (family_of lifter.now.table.now))) }
    ensures may { IfOk result (λ r. r.may ≡ list_any (λ m. m.one?) (item_sets kind context.width context.signed subject.now (items_of (map (tree_of lifter.now.shapes.now) items.now)) (family_of lifter.now.table.now))) }
{
    let mut found = Match {
        sure: false,
        may: false,
    };
    for item in items {
        let sets = lifter.lifted(*item, context)?;
        let set = set_match(match_operator(kind), subject.as_slice(), sets.as_slice());
        found = Match {
            sure: found.sure || set.is_only_one(),
            may: found.may || set.has(Bit4::One),
        };
    }
    Ok(found)
}

/// The branches of a case that may be taken, up to the first that surely is; a default that isn't there does nothing.
#[cycle(lifting)]
fn taken_arms(
    lifter: &Lifter,
    nodes: u32,
    kind: CaseKind,
    context: Context,
    subject: &SetList,
    arms: &[Arm],
    other: Option<u32>,
) -> Result<Vec<Option<u32>>, AllocError>
    requires nodes { nodes ≤ length lifter.now.shapes.now.nodes }
    requires there { ArmsBelow nodes (length lifter.now.shapes.now.statements) arms.now }
    requires names { arms_within (length lifter.now.table.now) (arms_of lifter.now.shapes.now other arms.now) ≡ true }
    requires fit { fits_arms (arms_of lifter.now.shapes.now other arms.now) ≡ true }
    requires within { (k : ℕ) → k < length arms.now → are_within context.width (map (tree_of lifter.now.shapes.now) (items_at arms.now k)) ≡ true }
    requires few { context.width ≤ 64 }
    requires many { length subject.now ≡ context.width }
    ensures some { IfOk result (λ v. 1 ≤ length v.items) }
    ensures from { IfOk result (λ v. All (IsOneOf arms.now other) v.items) }
    ensures taken { (st : ℕ → T.Statement) → IfOk result (λ v. branches_of st v.items ≡ taken_arms (arms_at_once (arms_tree (tree_of lifter.now.shapes.now) st other arms.now)) kind context.width context.signed subject.now (family_of lifter.now.table.now)) }
{
    let mut taken = Vec::new(lifter.alloc);
    for arm in arms {
        let found = match_items(lifter, nodes, kind, context, subject, arm.items.as_slice())?;
        if found.sure {
            taken.push(Some(arm.statement))?;
            return Ok(taken);
        }
        if found.may {
            taken.push(Some(arm.statement))?;
        }
    }
    taken.push(other)?;
    Ok(taken)
}

/// The branches of a case (IEEE 1364-2005, 9.5) that its expression may take.
#[cycle(lifting)]
pub(crate) fn case_branches(
    lifter: &Lifter,
    nodes: u32,
    kind: CaseKind,
    of: u32,
    arms: &[Arm],
    other: Option<u32>,
) -> Result<Vec<Option<u32>>, AllocError>
    requires nodes { nodes ≤ length lifter.now.shapes.now.nodes }
    requires of_there { of < nodes }
    requires there { ArmsBelow nodes (length lifter.now.shapes.now.statements) arms.now }
    requires of_within { names_within (length lifter.now.table.now) (tree_of lifter.now.shapes.now of) ≡ true }
    requires names { arms_within (length lifter.now.table.now) (arms_of lifter.now.shapes.now other arms.now) ≡ true }
    requires of_fit { is_fit (tree_of lifter.now.shapes.now of) ≡ true }
    requires fit { fits_arms (arms_of lifter.now.shapes.now other arms.now) ≡ true }
    ensures some { IfOk result (λ v. 1 ≤ length v.items) }
    ensures from { IfOk result (λ v. All (IsOneOf arms.now other) v.items) }
    ensures taken { (st : ℕ → T.Statement) → IfOk result (λ v. branch_sets (branches_of st v.items) (family_of lifter.now.table.now) ≡ lifted_body (T.Case kind (tree_of lifter.now.shapes.now of) (arms_at_once (arms_tree (tree_of lifter.now.shapes.now) st other arms.now))) (family_of lifter.now.table.now)) }
{
    let context = case_context(lifter.shapes, own_context(lifter.shapes, of), arms, other);
    let subject = lifter.lifted(of, context)?;
    taken_arms(lifter, nodes, kind, context, &subject, arms, other)
}

/// This arm's statement where it may be taken, or else the last one before.
fn with_arm(last: Option<u32>, may: bool, statement: u32) -> Option<u32>
    ensures { result ≡ (if may then Some statement else last) }
{
    if may { Some(statement) } else { last }
}

/// The statement of the last arm of a case that its expression can take where the bits that it reads are 0 or 1, by a table of bits that are; none where there is no such arm. Its items are constant.
pub fn last_arm(
    alloc: Global,
    shapes: &Shapes,
    known: &[Set4],
    kind: CaseKind,
    of: u32,
    arms: &[Arm],
    other: Option<u32>,
) -> Result<Option<u32>, AllocError>
    requires known { known_of known.now }
    requires reads { (b : ℕ) → contains (read_bits (tree_of shapes.now of)) b ≡ true → b < length known.now }
    requires constant { arms_constant (arms_of shapes.now other arms.now) ≡ true }
    requires of_there { of < length shapes.now.nodes }
    requires there { ArmsBelow (length shapes.now.nodes) (length shapes.now.statements) arms.now }
    requires of_within { names_within (length known.now) (tree_of shapes.now of) ≡ true }
    requires names { arms_within (length known.now) (arms_of shapes.now other arms.now) ≡ true }
    requires of_fit { is_fit (tree_of shapes.now of) ≡ true }
    requires fit { fits_arms (arms_of shapes.now other arms.now) ≡ true }
    ensures { IfOk result (λ o. o ≡ last_arm shapes.now kind of arms.now other) }
{
    names_law();
    let nodes = shapes.flat().expr_count();
    let lifter = Lifter {
        alloc,
        shapes,
        table: known,
    };
    let context = case_context(shapes, own_context(shapes, of), arms, other);
    let subject = lifter.lifted(of, context)?;
    let mut last = None;
    for arm in arms {
        let found = match_items(
            &lifter,
            nodes,
            kind,
            context,
            &subject,
            arm.items.as_slice(),
        )?;
        last = with_arm(last, found.may, arm.statement);
    }
    Ok(last)
}

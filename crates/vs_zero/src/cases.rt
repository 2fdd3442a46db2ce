//! Which arm a case of constants takes (IEEE 1364-2005, 9.5).

ghost use Rattle.std.specs.Prelude.{◌≡◌, ◌≤◌, ◌<◌, ℕ, length, map, true};
ghost use Rattle.vs_four.specs.Tables.{is_one};
ghost use Rattle.vs_design.specs.Expressions.{items_of};
ghost use Rattle.vs_design.specs.Bodies.{is_taken};
ghost use Rattle.vs_design.specs.Fits.{fit_items, fits_arms};
ghost use Rattle.vs_design.specs.Statements.{case_match};
ghost use Rattle.vs_flat.specs.Trees.{branch};
ghost use Rattle.vs_sets.specs.Matches.{are_within, items_at};
ghost use Rattle.vs_sets.specs.Nodes.{EachBelow, tree_of};
ghost use Rattle.vs_sets.specs.StatementParts.{ArmsBelow, arms_of};
ghost use Rattle.vs_typed.specs.Still.{items_still};
ghost use Rattle.vs_zero.specs.Constants.{arms_are_constants, taken_arm};
ghost use Rattle.vs_zero.specs.States.{unknown};

use vs_base::{CaseKind, Context};
use vs_flat::Arm;
use vs_four::{Bit4, Bits, matches_x, matches_z, same};
use vs_shape::Shapes;

/// Whether an item matches the case's expression.
fn is_match(kind: CaseKind, a: Bits, b: Bits) -> bool
    requires { length a ≡ length b }
    ensures { result ≡ is_one (case_match kind a b) }
{
    let bit = match kind {
        CaseKind::Exact => same(a, b),
        CaseKind::CaseZ => matches_z(a, b),
        CaseKind::CaseX => matches_x(a, b),
    };
    bit == Bit4::One
}

/// Whether one of these items matches this value of the case's expression.
fn is_taken(shapes: &Shapes, kind: CaseKind, context: Context, subject: Bits, items: &[u32]) -> bool
    requires there { EachBelow (length shapes.now.nodes) items.now }
    requires fit { fit_items (items_of (map (tree_of shapes.now) items.now)) ≡ true }
    requires constant { items_still (items_of (map (tree_of shapes.now) items.now)) ≡ true }
    requires within { are_within context.width (map (tree_of shapes.now) items.now) ≡ true }
    requires few { context.width ≤ 64 }
    requires many { length subject ≡ context.width }
    ensures { result ≡ is_taken kind context.width context.signed subject (items_of (map (tree_of shapes.now) items.now)) unknown }
{
    for item in items {
        let value = shapes.value(*item, context.width, context.signed);
        if is_match(kind, subject, value) {
            return true;
        }
    }
    false
}

/// The branch that a case takes: the first arm that matches, or else the default.
pub(crate) fn taken_branch(
    shapes: &Shapes,
    kind: CaseKind,
    context: Context,
    subject: Bits,
    arms: &[Arm],
    other: Option<u32>,
) -> Option<u32>
    requires there { ArmsBelow (length shapes.now.nodes) (length shapes.now.statements) arms.now }
    requires fit { fits_arms (arms_of shapes.now other arms.now) ≡ true }
    requires constant { arms_are_constants (arms_of shapes.now other arms.now) ≡ true }
    requires within { (k : ℕ) → k < length arms.now → are_within context.width (map (tree_of shapes.now) (items_at arms.now k)) ≡ true }
    requires few { context.width ≤ 64 }
    requires many { length subject ≡ context.width }
    ensures { result ≡ taken_arm (tree_of shapes.now) kind context.width context.signed subject other arms.now }
{
    for arm in arms {
        if is_taken(shapes, kind, context, subject, arm.items.as_slice()) {
            return Some(arm.statement);
        }
    }
    other
}

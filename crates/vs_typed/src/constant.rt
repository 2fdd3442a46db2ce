//! Statements that name no signal but as a target, and call no function (IEEE 1364-2005, 10.4): all their expressions are constant.

ghost use Rattle.std.specs.Prelude.{◌≡◌, ◌&&◌, ◌≤◌, ◌<◌, length, map};
ghost use Rattle.vs_design.specs.Elaborated as L;
ghost use Rattle.vs_design.specs.Expressions.{items_of};
ghost use Rattle.vs_design.specs.Resets.{is_fixed};
ghost use Rattle.vs_flat.specs.Trees.{branch, sequence, arms_tree, target_tree};
ghost use Rattle.vs_shape.specs.Bodies.{EachArmNames, OtherBelow, body_of};
ghost use Rattle.vs_shape.specs.Nodes.{EachBelow, tree_of};
ghost use Rattle.vs_typed.specs.Places.{HasTargetTree};
ghost use Rattle.vs_typed.specs.Still.{arms_still, is_still, items_still};

use vs_flat::{Arm, Node, Statement};
use vs_shape::{Shapes, first_copy};

/// Whether both hold.
fn both(a: bool, b: bool) -> bool
    ensures { result ≡ (a && b) }
{
    a && b
}

/// Whether the selects of target e are constant.
fn has_constant_selects(shapes: &Shapes, e: u32) -> bool
    requires there { e < length shapes.now.nodes }
    requires target { HasTargetTree (tree_of shapes.now e) }
    ensures { result ≡ L.has_constant_selects (target_tree (tree_of shapes.now e)) }
{
    match shapes.node(e) {
        Node::Bit { index, .. } | Node::Part { base: index, .. } | Node::Word { index, .. } => {
            shapes.shape(*index).constant
        }
        Node::WordPart { address, base, .. } => {
            both(
                shapes.shape(*address).constant,
                shapes.shape(*base).constant,
            )
        }
        Node::Join { parts } => {
            let mut all = true;
            for part in first_copy(parts.as_slice()) {
                all = both(all, has_constant_selects(shapes, *part));
            }
            all
        }
        _ => true,
    }
}

/// Whether these expressions are constant.
fn are_constant(shapes: &Shapes, items: &[u32]) -> bool
    requires { EachBelow (length shapes.now.nodes) items.now }
    ensures { result ≡ items_still (items_of (map (tree_of shapes.now) items.now)) }
{
    let mut all = true;
    for item in items {
        all = both(all, shapes.shape(*item).constant);
    }
    all
}

/// Whether statement s names no signal but as a target, by constant selects, and calls no function.
pub fn is_fixed(shapes: &Shapes, s: u32) -> bool
    requires { s < length shapes.now.statements }
    ensures { result ≡ is_fixed (body_of shapes.now s) }
{
    is_still(shapes, s)
}

/// Whether all expressions of statement s are constant.
#[cycle(fixing)]
fn is_still(shapes: &Shapes, s: u32) -> bool
    requires { s < length shapes.now.statements }
    ensures { result ≡ is_still (body_of shapes.now s) }
{
    match shapes.statement(s) {
        Statement::Empty => true,
        Statement::Assign { target, expr, .. } => {
            let constant = shapes.shape(*expr).constant;
            both(has_constant_selects(shapes, *target), constant)
        }
        Statement::If { c, yes, no } => {
            let constant = shapes.shape(*c).constant;
            let taken = is_still(shapes, *yes);
            both(constant, both(taken, is_branch_still(shapes, s, *no)))
        }
        Statement::Case {
            of,
            arms,
            other,
            ..
        } => {
            let constant = shapes.shape(*of).constant;
            both(constant, are_arms_still(shapes, s, arms.as_slice(), *other))
        }
        Statement::Seq { parts } => are_still(shapes, s, parts.as_slice()),
    }
}

/// The same of a branch. One that isn't there has none.
#[cycle(fixing)]
fn is_branch_still(shapes: &Shapes, s: u32, part: Option<u32>) -> bool
    requires there { s ≤ length shapes.now.statements }
    requires below { OtherBelow s part }
    ensures { result ≡ is_still (branch (body_of shapes.now) part) }
{
    match part {
        Some(n) => is_still(shapes, n),
        None => true,
    }
}

/// The same of the arms of a case and of its default.
#[cycle(fixing)]
fn are_arms_still(shapes: &Shapes, s: u32, arms: &[Arm], other: Option<u32>) -> bool
    requires there { s ≤ length shapes.now.statements }
    requires each { EachArmNames (length shapes.now.nodes) s arms.now }
    requires below { OtherBelow s other }
    ensures { result ≡ arms_still (arms_tree (tree_of shapes.now) (body_of shapes.now) other arms.now) }
{
    let mut all = true;
    for arm in arms {
        all = both(all, are_constant(shapes, arm.items.as_slice()));
        all = both(all, is_still(shapes, arm.statement));
    }
    both(all, is_branch_still(shapes, s, other))
}

/// The same of statements one after the other.
#[cycle(fixing)]
fn are_still(shapes: &Shapes, s: u32, parts: &[u32]) -> bool
    requires there { s ≤ length shapes.now.statements }
    requires each { EachBelow s parts.now }
    ensures { result ≡ is_still (sequence (map (body_of shapes.now) parts.now)) }
{
    let mut all = true;
    for part in parts {
        all = both(all, is_still(shapes, *part));
    }
    all
}

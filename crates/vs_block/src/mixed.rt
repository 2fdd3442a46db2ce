//! Nonblocking assignments in combinational blocks (IEEE 1364-2005, 9.2).

ghost use Rattle.std.specs.Prelude.{◌≡◌, ◌<◌, ◌≤◌, ◌++◌, ◌∷◌, [], ℕ, List, length, map, true, false};
ghost use Rattle.vs_design.specs.Fits.{fits_statement};
ghost use Rattle.vs_design.specs.Refusals.{least};
ghost use Rattle.vs_design.specs.Rules.{mixed_in};
ghost use Rattle.vs_flat.specs.Trees.{branch};
ghost use Rattle.vs_flat.specs.declared.statements.Arm.{Arm as FlatArm};
ghost use Rattle.vs_shape.specs.Bodies.{body_of};
ghost use Rattle.vs_block.specs.Parts.{IsBranch, AreParts, AreArms};
ghost use Rattle.vs_block.specs.Mixed.{mixed_of};

use crate::nodes::statement_of;
use vs_flat::{Arm, Statement};
use vs_shape::Shapes;

/// The least of the places so far and this one.
pub(crate) fn with_place(first: Option<u32>, place: u32) -> Option<u32>
    ensures { (places : List ℕ) → first ≡ least places → result ≡ least (places ++ place ∷ []) }
{
    match first {
        None => Some(place),
        Some(before) => Some(before.min(place)),
    }
}

/// The least of the places so far and of those of the statement's nonblocking assignments.
#[cycle(mixing)]
pub(crate) fn least_mixed(shapes: &Shapes, s: u32, first: Option<u32>) -> Option<u32>
    requires there { s < length shapes.now.statements }
    requires fits { fits_statement (body_of shapes.now s) ≡ true }
    ensures { (places : List ℕ) → first ≡ least places → result ≡ least (places ++ mixed_in false (body_of shapes.now s)) }
{
    let (statement, place) = statement_of(shapes, s);
    match statement {
        Statement::Empty => first,
        Statement::Assign { blocking, .. } => {
            if *blocking {
                first
            } else {
                with_place(first, place)
            }
        }
        Statement::If { yes, no, .. } => {
            let taken = least_mixed(shapes, *yes, first);
            least_in_branch(shapes, s, *no, taken)
        }
        Statement::Case { arms, other, .. } => {
            let taken = least_in_arms(shapes, s, arms.as_slice(), first);
            least_in_branch(shapes, s, *other, taken)
        }
        Statement::Seq { parts } => least_in_parts(shapes, s, parts.as_slice(), first),
    }
}

/// The same of a branch. One that isn't there has none.
#[cycle(mixing)]
fn least_in_branch(shapes: &Shapes, s: u32, part: Option<u32>, first: Option<u32>) -> Option<u32>
    requires there { s ≤ length shapes.now.statements }
    requires part { IsBranch shapes.now s part }
    ensures { (places : List ℕ) → first ≡ least places → result ≡ least (places ++ mixed_in false (branch (body_of shapes.now) part)) }
{
    match part {
        None => first,
        Some(n) => least_mixed(shapes, n, first),
    }
}

/// The same of the arms of a case.
#[cycle(mixing)]
fn least_in_arms(shapes: &Shapes, s: u32, arms: &[Arm], first: Option<u32>) -> Option<u32>
    requires there { s ≤ length shapes.now.statements }
    requires parts { AreArms shapes.now s arms.now }
    ensures { (places : List ℕ) → first ≡ least places → result ≡ least (places ++ mixed_of (map (λ (arm : FlatArm). body_of shapes.now arm.statement) arms.now)) }
{
    let mut so_far = first;
    for arm in arms {
        so_far = least_mixed(shapes, arm.statement, so_far);
    }
    so_far
}

/// The same of statements one after the other.
#[cycle(mixing)]
fn least_in_parts(shapes: &Shapes, s: u32, parts: &[u32], first: Option<u32>) -> Option<u32>
    requires there { s ≤ length shapes.now.statements }
    requires parts { AreParts shapes.now s parts.now }
    ensures { (places : List ℕ) → first ≡ least places → result ≡ least (places ++ mixed_of (map (body_of shapes.now) parts.now)) }
{
    let mut so_far = first;
    for part in parts {
        so_far = least_mixed(shapes, *part, so_far);
    }
    so_far
}

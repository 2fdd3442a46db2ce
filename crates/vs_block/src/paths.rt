//! Walks over the paths of a statement (IEEE 1364-2005, 9.4 and 9.5): which bits each of them assigns, and which some path reads before it assigns them.
//!
//! `own` are the bits that the block writes, and `assigned` and `early` have a flag for each of them: whether it is assigned where the walk stands, and whether some path has read it before it was.

ghost use Rattle.std.specs.Prelude.{◌≡◌, ◌<◌, ◌≤◌, ◌++◌, ℕ, length, map, true, false, Some, slice_get, slice_index, if◌then◌else◌, IfOk, OnOk};
ghost use Rattle.std.specs.List.Sorted.{IsStrictlyIncreasing};
ghost use Rattle.vs_design.specs.Fits.{fits_statement};
ghost use Rattle.vs_design.specs.Expressions.{items_of};
ghost use Rattle.vs_design.specs.Footprints.{read_bits, target_reads, items_reads};
ghost use Rattle.vs_design.specs.Latches.{assigned_after, early_reads, assigned_in_arms, early_in_arms, assigns};
ghost use Rattle.vs_flat.specs.Trees.{branch, sequence, arms_tree, target_tree};
ghost use Rattle.vs_shape.specs.Bodies.{body_of};
ghost use Rattle.vs_shape.specs.Nodes.{tree_of};
ghost use Rattle.vs_shape.specs.Walked.{IsTarget};
ghost use Rattle.vs_block.specs.Flags.{AreNoted, AreFlagged, AreFresh};
ghost use Rattle.vs_block.specs.Parts.{IsValue, IsBranch, AreValues, AreParts, IsArm, AreArms};
ghost use Rattle.vs_block.specs.Walked.{IsWalked, IsArmWalked};
ghost use Rattle.vs_flat.specs.declared.statements.Arm as A;
ghost use Rattle.vs_flat.specs.Arena.{statement_at};
ghost use Rattle.vs_flat.specs.declared.statements.Statement.TheVariants.{Case};
ghost use Rattle.vs_sets.specs.Completing.{AreDefaults, HasDefaults, done, other_of};

use crate::flags::{flagged, note_reads, set_flags, shared_bits};
use crate::nodes::statement_of;
use crate::targets::push_assigned;
use std::alloc::{AllocError, Global};
use vs_base::CaseKind;
use vs_flat::{Arm, Statement};
use vs_sets::Defaults;
use vs_shape::Shapes;

/// Notes what these expressions read.
fn note_values(
    alloc: Global,
    shapes: &Shapes,
    items: &[u32],
    own: &[u32],
    assigned: &[bool],
    early: &mut [bool],
) -> Result<(), AllocError>
    requires rising { IsStrictlyIncreasing own.now }
    requires assigned { length assigned.now ≡ length own.now }
    requires early { length early.old ≡ length own.now }
    requires items { AreValues shapes.now items.now }
    ensures { OnOk result (AreNoted own.now (items_reads (items_of (map (tree_of shapes.now) items.now))) assigned.now early.old early.new) }
{
    let mut read = Vec::new(alloc);
    for item in items {
        shapes.push_reads(*item, false, &mut read)?;
    }
    note_reads(own, assigned, early, read.as_slice());
    Ok(())
}

/// Notes what an expression reads.
fn note_value(
    alloc: Global,
    shapes: &Shapes,
    e: u32,
    own: &[u32],
    assigned: &[bool],
    early: &mut [bool],
) -> Result<(), AllocError>
    requires rising { IsStrictlyIncreasing own.now }
    requires assigned { length assigned.now ≡ length own.now }
    requires early { length early.old ≡ length own.now }
    requires value { IsValue shapes.now e }
    ensures { OnOk result (AreNoted own.now (read_bits (tree_of shapes.now e)) assigned.now early.old early.new) }
{
    let mut read = Vec::new(alloc);
    shapes.push_reads(e, false, &mut read)?;
    note_reads(own, assigned, early, read.as_slice());
    Ok(())
}

/// Notes what an assignment reads, its target's indices too (IEEE 1364-2005, 9.2).
fn note_assignment(
    alloc: Global,
    shapes: &Shapes,
    target: u32,
    e: u32,
    own: &[u32],
    assigned: &[bool],
    early: &mut [bool],
) -> Result<(), AllocError>
    requires rising { IsStrictlyIncreasing own.now }
    requires assigned { length assigned.now ≡ length own.now }
    requires early { length early.old ≡ length own.now }
    requires there { target < length shapes.now.nodes }
    requires target { IsTarget (tree_of shapes.now target) }
    requires value { IsValue shapes.now e }
    ensures { OnOk result (AreNoted own.now (target_reads (target_tree (tree_of shapes.now target)) ++ read_bits (tree_of shapes.now e)) assigned.now early.old early.new) }
{
    let mut read = Vec::new(alloc);
    shapes.push_target_reads(target, false, &mut read)?;
    shapes.push_reads(e, false, &mut read)?;
    note_reads(own, assigned, early, read.as_slice());
    Ok(())
}

/// The bits that an assignment to this target surely assigns and that weren't assigned before.
fn newly_assigned(
    alloc: Global,
    shapes: &Shapes,
    target: u32,
    own: &[u32],
    assigned: &[bool],
) -> Result<Vec<u32>, AllocError>
    requires rising { IsStrictlyIncreasing own.now }
    requires assigned { length assigned.now ≡ length own.now }
    requires there { target < length shapes.now.nodes }
    requires target { IsTarget (tree_of shapes.now target) }
    ensures { IfOk result (λ v. AreFlagged own.now (assigns (target_tree (tree_of shapes.now target))) assigned.now false v.items) }
{
    let mut bits = Vec::new(alloc);
    push_assigned(shapes, target, &mut bits)?;
    flagged(alloc, own, assigned, bits.as_slice(), false)
}

/// The default of case s, which as it stands has this one.
fn default_of(
    shapes: &Shapes,
    defaults: &Defaults<'_>,
    s: u32,
    kind: CaseKind,
    of: u32,
    arms: &[Arm],
    other: Option<u32>,
) -> Option<u32>
    requires is { statement_at shapes.now s ≡ Some (Case kind of arms.now other) }
    requires defaults { AreDefaults shapes.now defaults.now.complete defaults.now.others.now s }
    ensures is { result ≡ (if defaults.now.complete then other_of shapes.now kind of arms.now other else other) }
    ensures branch { AreArms shapes.now s arms.now → IsBranch shapes.now s other → IsBranch shapes.now s result }
    ensures defaults { HasDefaults shapes.now defaults.now.complete defaults.now.others.now result }
{
    defaults.default_of(s, other)
}

/// The bits that a statement assigns on every path and that weren't assigned before. It notes those that some path reads before it assigns them. `assigned` is as before, but where memory is wanting.
#[cycle(walking)]
pub(crate) fn walk(
    alloc: Global,
    shapes: &Shapes,
    defaults: &Defaults<'_>,
    s: u32,
    own: &[u32],
    assigned: &mut [bool],
    early: &mut [bool],
) -> Result<Vec<u32>, AllocError>
    requires rising { IsStrictlyIncreasing own.now }
    requires assigned { length assigned.old ≡ length own.now }
    requires early { length early.old ≡ length own.now }
    requires there { s < length shapes.now.statements }
    requires fits { fits_statement (body_of shapes.now s) ≡ true }
    requires defaults { AreDefaults shapes.now defaults.now.complete defaults.now.others.now s }
    ensures same { OnOk result (assigned.new ≡ assigned.old) }
    ensures walked { IfOk result (λ v. IsWalked own.now (assigned_after (done defaults.now.complete shapes.now s)) (early_reads (done defaults.now.complete shapes.now s)) assigned.old early.old early.new v.items) }
{
    let (statement, _) = statement_of(shapes, s);
    match statement {
        Statement::Empty => Ok(Vec::new(alloc)),
        Statement::Assign { target, expr, .. } => {
            note_assignment(alloc, shapes, *target, *expr, own, assigned, early)?;
            newly_assigned(alloc, shapes, *target, own, assigned)
        }
        Statement::If { c, yes, no } => {
            note_value(alloc, shapes, *c, own, assigned, early)?;
            let taken = walk(alloc, shapes, defaults, *yes, own, assigned, early)?;
            let other = walk_branch(alloc, shapes, defaults, s, *no, own, assigned, early)?;
            shared_bits(alloc, own, assigned, taken.as_slice(), other.as_slice())
        }
        Statement::Case {
            kind,
            of,
            arms,
            other,
        } => {
            note_value(alloc, shapes, *of, own, assigned, early)?;
            let default = default_of(shapes, defaults, s, *kind, *of, arms.as_slice(), *other);
            walk_arms(
                alloc,
                shapes,
                defaults,
                s,
                arms.as_slice(),
                default,
                own,
                assigned,
                early,
            )
        }
        Statement::Seq { parts } => {
            walk_parts(
                alloc,
                shapes,
                defaults,
                s,
                parts.as_slice(),
                own,
                assigned,
                early,
            )
        }
    }
}

/// Walks a branch. One that isn't there does nothing.
#[cycle(walking)]
fn walk_branch(
    alloc: Global,
    shapes: &Shapes,
    defaults: &Defaults<'_>,
    s: u32,
    part: Option<u32>,
    own: &[u32],
    assigned: &mut [bool],
    early: &mut [bool],
) -> Result<Vec<u32>, AllocError>
    requires rising { IsStrictlyIncreasing own.now }
    requires assigned { length assigned.old ≡ length own.now }
    requires early { length early.old ≡ length own.now }
    requires there { s ≤ length shapes.now.statements }
    requires part { IsBranch shapes.now s part }
    requires defaults { HasDefaults shapes.now defaults.now.complete defaults.now.others.now part }
    ensures same { OnOk result (assigned.new ≡ assigned.old) }
    ensures walked { IfOk result (λ v. IsWalked own.now (assigned_after (branch (done defaults.now.complete shapes.now) part)) (early_reads (branch (done defaults.now.complete shapes.now) part)) assigned.old early.old early.new v.items) }
{
    match part {
        None => Ok(Vec::new(alloc)),
        Some(n) => walk(alloc, shapes, defaults, n, own, assigned, early),
    }
}

/// Walks an arm of a case: of the bits that other paths assign, those that it assigns too.
#[cycle(walking)]
fn walk_arm(
    alloc: Global,
    shapes: &Shapes,
    defaults: &Defaults<'_>,
    s: u32,
    arm: &Arm,
    paths: &[u32],
    own: &[u32],
    assigned: &mut [bool],
    early: &mut [bool],
) -> Result<Vec<u32>, AllocError>
    requires rising { IsStrictlyIncreasing own.now }
    requires assigned { length assigned.old ≡ length own.now }
    requires early { length early.old ≡ length own.now }
    requires there { s ≤ length shapes.now.statements }
    requires arm { IsArm shapes.now s arm.now }
    requires defaults { AreDefaults shapes.now defaults.now.complete defaults.now.others.now arm.now.statement }
    requires fresh { AreFresh own.now assigned.old paths.now }
    ensures same { OnOk result (assigned.new ≡ assigned.old) }
    ensures walked { IfOk result (λ v. IsArmWalked own.now (items_reads (items_of (map (tree_of shapes.now) arm.now.items))) (done defaults.now.complete shapes.now arm.now.statement) assigned.old early.old early.new paths.now v.items) }
{
    note_values(alloc, shapes, arm.items.as_slice(), own, assigned, early)?;
    let found = walk(alloc, shapes, defaults, arm.statement, own, assigned, early)?;
    shared_bits(alloc, own, assigned, paths, found.as_slice())
}

/// Walks the arms of a case, of which each one and the default is a path (IEEE 1364-2005, 9.5).
#[cycle(walking)]
fn walk_arms(
    alloc: Global,
    shapes: &Shapes,
    defaults: &Defaults<'_>,
    s: u32,
    arms: &[Arm],
    other: Option<u32>,
    own: &[u32],
    assigned: &mut [bool],
    early: &mut [bool],
) -> Result<Vec<u32>, AllocError>
    requires rising { IsStrictlyIncreasing own.now }
    requires assigned { length assigned.old ≡ length own.now }
    requires early { length early.old ≡ length own.now }
    requires there { s ≤ length shapes.now.statements }
    requires arms { AreArms shapes.now s arms.now }
    requires other { IsBranch shapes.now s other }
    requires defaults { (k : ℕ) (arm : A.Arm) → slice_get arms.now k ≡ Some arm → AreDefaults shapes.now defaults.now.complete defaults.now.others.now arm.statement }
    requires other_defaults { HasDefaults shapes.now defaults.now.complete defaults.now.others.now other }
    ensures same { OnOk result (assigned.new ≡ assigned.old) }
    ensures walked { let tree = arms_tree (tree_of shapes.now) (done defaults.now.complete shapes.now) other arms.now in
        IfOk result (λ v. IsWalked own.now (assigned_in_arms tree) (early_in_arms tree) assigned.old early.old early.new v.items) }
{
    let mut found = walk_branch(alloc, shapes, defaults, s, other, own, assigned, early)?;
    for arm in arms {
        found = walk_arm(
            alloc,
            shapes,
            defaults,
            s,
            arm,
            found.as_slice(),
            own,
            assigned,
            early,
        )?;
    }
    Ok(found)
}

/// Walks statements one after the other: what one assigns is assigned for the next (IEEE 1364-2005, 9.8.1).
#[cycle(walking)]
fn walk_parts(
    alloc: Global,
    shapes: &Shapes,
    defaults: &Defaults<'_>,
    s: u32,
    parts: &[u32],
    own: &[u32],
    assigned: &mut [bool],
    early: &mut [bool],
) -> Result<Vec<u32>, AllocError>
    requires rising { IsStrictlyIncreasing own.now }
    requires assigned { length assigned.old ≡ length own.now }
    requires early { length early.old ≡ length own.now }
    requires there { s ≤ length shapes.now.statements }
    requires parts { AreParts shapes.now s parts.now }
    requires defaults { (k : ℕ) → k < length parts.now → AreDefaults shapes.now defaults.now.complete defaults.now.others.now (slice_index parts.now k) }
    ensures same { OnOk result (assigned.new ≡ assigned.old) }
    ensures walked { let body = sequence (map (done defaults.now.complete shapes.now) parts.now) in
        IfOk result (λ v. IsWalked own.now (assigned_after body) (early_reads body) assigned.old early.old early.new v.items) }
{
    let mut found = Vec::new(alloc);
    for part in parts {
        let mut more = walk(alloc, shapes, defaults, *part, own, assigned, early)?;
        set_flags(own, assigned, more.as_slice(), true);
        found.append(&mut more)?;
    }
    set_flags(own, assigned, found.as_slice(), false);
    Ok(found)
}

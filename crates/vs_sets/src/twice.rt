//! Bits that more than one assignment on a path through a statement may write.

ghost use Rattle.std.specs.Prelude.{◌≡◌, ◌≤◌, ◌<◌, ◌++◌, ◌&&◌, ℕ, length, true, OnOk};
ghost use Rattle.std.specs.List.Sorted.{IsStrictlyIncreasing};
ghost use Rattle.vs_design.specs.Fits.{fits_statement};
ghost use Rattle.vs_design.specs.Footprints.{contains, statement_bits};
ghost use Rattle.vs_flat.specs.Trees.{branch};
ghost use Rattle.vs_sets.specs.StatementParts.{statement_of, arms_of};
ghost use Rattle.vs_sets.specs.Twice.{Adds, PartsFit, BranchFits, ArmsFit, is_twice, is_twice_in, in_order};

use crate::bodies::statement_node;
use std::alloc::{AllocError, Global};
use vs_flat::{Arm, Statement};
use vs_shape::{Shapes, Walk, ascend, is_among};

/// Adds the bits that both lists have, of which the first rises.
fn push_common(some: &[u32], others: &[u32], out: &mut Vec<u32>) -> Result<(), AllocError>
    requires { IsStrictlyIncreasing some.now }
    ensures { OnOk result (Adds (λ b. contains some.now b && contains others.now b) out.old.items out.new.items) }
{
    for bit in others {
        if is_among(some, *bit) {
            out.push(*bit)?;
        }
    }
    Ok(())
}

/// Adds the bits that these statements write.
fn push_writes(shapes: &Shapes, s: u32, parts: &[u32], out: &mut Vec<u32>) -> Result<(), AllocError>
    requires there { s ≤ length shapes.now.statements }
    requires each { PartsFit shapes.now s parts.now }
    ensures { OnOk result (out.new.items ≡ out.old.items ++ statement_bits (in_order shapes.now parts.now)) }
{
    for part in parts {
        shapes.push_statement(*part, Walk::Writes, out)?;
    }
    Ok(())
}

/// Adds the bits that statements on both sides write.
fn push_overlap(
    alloc: Global,
    shapes: &Shapes,
    s: u32,
    left: &[u32],
    right: &[u32],
    out: &mut Vec<u32>,
) -> Result<(), AllocError>
    requires there { s ≤ length shapes.now.statements }
    requires left { PartsFit shapes.now s left.now }
    requires right { PartsFit shapes.now s right.now }
    ensures { OnOk result (Adds (λ b. contains (statement_bits (in_order shapes.now left.now)) b && contains (statement_bits (in_order shapes.now right.now)) b) out.old.items out.new.items) }
{
    let mut first = Vec::new(alloc);
    push_writes(shapes, s, left, &mut first)?;
    ascend(&mut first);
    let mut second = Vec::new(alloc);
    push_writes(shapes, s, right, &mut second)?;
    push_common(first.as_slice(), second.as_slice(), out)
}

/// Adds the bits that more than one assignment on a path through statement s may write; one that an assignment has twice in its target counts once.
#[cycle(counting)]
pub(crate) fn push_twice(
    alloc: Global,
    shapes: &Shapes,
    s: u32,
    out: &mut Vec<u32>,
) -> Result<(), AllocError>
    requires there { s < length shapes.now.statements }
    requires fit { fits_statement (statement_of shapes.now s) ≡ true }
    ensures { OnOk result (Adds (is_twice (statement_of shapes.now s)) out.old.items out.new.items) }
{
    match statement_node(shapes, s) {
        Statement::Empty => Ok(()),
        Statement::Assign { .. } => Ok(()),
        Statement::If { c: _, yes, no } => {
            push_twice(alloc, shapes, *yes, out)?;
            push_branch(alloc, shapes, s, *no, out)
        }
        Statement::Case {
            kind: _,
            of: _,
            arms,
            other,
        } => push_arms(alloc, shapes, s, arms.as_slice(), *other, out),
        Statement::Seq { parts } => push_all(alloc, shapes, s, parts.as_slice(), out),
    }
}

/// Adds those of a branch. One that isn't there writes nothing.
#[cycle(counting)]
fn push_branch(
    alloc: Global,
    shapes: &Shapes,
    s: u32,
    part: Option<u32>,
    out: &mut Vec<u32>,
) -> Result<(), AllocError>
    requires there { s ≤ length shapes.now.statements }
    requires fits { BranchFits shapes.now s part }
    ensures { OnOk result (Adds (is_twice (branch (statement_of shapes.now) part)) out.old.items out.new.items) }
{
    match part {
        Some(n) => push_twice(alloc, shapes, n, out),
        None => Ok(()),
    }
}

/// Adds those of the arms of a case and of its default.
#[cycle(counting)]
fn push_arms(
    alloc: Global,
    shapes: &Shapes,
    s: u32,
    arms: &[Arm],
    other: Option<u32>,
    out: &mut Vec<u32>,
) -> Result<(), AllocError>
    requires there { s ≤ length shapes.now.statements }
    requires each { ArmsFit shapes.now s arms.now }
    requires fits { BranchFits shapes.now s other }
    ensures { OnOk result (Adds (is_twice_in (arms_of shapes.now other arms.now)) out.old.items out.new.items) }
{
    for arm in arms {
        push_twice(alloc, shapes, arm.statement, out)?;
    }
    push_branch(alloc, shapes, s, other, out)
}

/// Adds those of statements that run one after the other: a bit is written twice by one half, or by both halves.
#[cycle(counting)]
fn push_all(
    alloc: Global,
    shapes: &Shapes,
    s: u32,
    parts: &[u32],
    out: &mut Vec<u32>,
) -> Result<(), AllocError>
    requires there { s ≤ length shapes.now.statements }
    requires each { PartsFit shapes.now s parts.now }
    ensures { OnOk result (Adds (is_twice (in_order shapes.now parts.now)) out.old.items out.new.items) }
{
    if parts.is_empty() {
        return Ok(());
    }
    if parts.len() == 1 {
        return push_twice(alloc, shapes, parts[0], out);
    }
    let (left, right) = parts.split_at(parts.len() / 2);
    push_all(alloc, shapes, s, left, out)?;
    push_all(alloc, shapes, s, right, out)?;
    push_overlap(alloc, shapes, s, left, right, out)
}

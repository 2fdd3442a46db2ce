//! Whether a case is full: it has no default, and its items match every known value of its selector (IEEE 1364-2005, 9.5).

ghost use Rattle.std.specs.Prelude.{◌≡◌, ◌≤◌, ◌<◌, ◌+◌, ◌++◌, ◌&&◌, ◌==◌, ℕ, not, length, map, nat_le, nat_lt, true, IfOk, OnOk};
ghost use Rattle.vs_design.specs.Covers.{patterns_of};
ghost use Rattle.vs_design.specs.Elaborated.{is_formed};
ghost use Rattle.vs_design.specs.Expressions as E;
ghost use Rattle.vs_design.specs.Fits.{fit_items, fits_arms, is_fit};
ghost use Rattle.vs_design.specs.Selects.{arm_patterns, arms_constant, is_full, is_nothing, item_patterns, items_constant, items_in};
ghost use Rattle.vs_flat.specs.DesignOf.{design_of};
ghost use Rattle.vs_flat.specs.Trees.{branch};
ghost use Rattle.vs_sets.specs.Matches.{are_within, items_at};
ghost use Rattle.vs_sets.specs.Nodes.{EachBelow, tree_of};
ghost use Rattle.vs_sets.specs.StatementParts.{ArmsBelow, BranchBelow, arms_of, statement_of};
ghost use Rattle.vs_full.specs.Roots.{AreRoots};
ghost use Rattle.vs_full.specs.Selectors.{has_form};

use crate::patterns::pattern_of;
use crate::search::covers;
use crate::selector::{is_selector, reads_some};
use std::alloc::{AllocError, Global};
use vs_base::{CaseKind, Context};
use vs_design::value_law;
use vs_flat::{Arm, Statement};
use vs_four::Bits;
use vs_sets::{SetList, case_context, own_context};
use vs_shape::Shapes;

/// How many items of a case are tried.
const ITEMS: usize = 4096;

/// Whether there are no numbers.
fn are_none(numbers: &[u32]) -> bool
    ensures { result ≡ (length numbers.now == 0) }
{
    numbers.len() == 0
}

/// Whether statement s does nothing.
fn does_nothing(shapes: &Shapes, s: u32) -> bool
    requires { s < length shapes.now.statements }
    ensures { result ≡ is_nothing (statement_of shapes.now s) }
{
    match shapes.statement(s) {
        Statement::Empty => true,
        Statement::Seq { parts } => {
            if parts.len() == 1 {
                does_nothing(shapes, *parts.get(0))
            } else {
                are_none(parts.as_slice())
            }
        }
        _ => false,
    }
}

/// Whether a case with this default has one that does something.
fn has_default(shapes: &Shapes, other: Option<u32>) -> bool
    requires { BranchBelow (length shapes.now.statements) other }
    ensures { result ≡ not (is_nothing (branch (statement_of shapes.now) other)) }
{
    match other {
        Some(s) => !does_nothing(shapes, s),
        None => false,
    }
}

/// Whether an expression is constant.
fn is_constant(shapes: &Shapes, e: u32) -> bool
    requires { e < length shapes.now.nodes }
    ensures { result ≡ E.is_constant (tree_of shapes.now e) }
{
    shapes.shape(e).constant
}

/// Whether these items are constant.
fn are_constant(shapes: &Shapes, items: &[u32]) -> bool
    requires { EachBelow (length shapes.now.nodes) items.now }
    ensures { result ≡ items_constant (E.items_of (map (tree_of shapes.now) items.now)) }
{
    for item in items {
        if !is_constant(shapes, *item) {
            return false;
        }
    }
    true
}

/// Whether the items of all arms are constant.
fn arms_constant(shapes: &Shapes, arms: &[Arm], other: Option<u32>) -> bool
    requires { ArmsBelow (length shapes.now.nodes) (length shapes.now.statements) arms.now }
    ensures { result ≡ arms_constant (arms_of shapes.now other arms.now) }
{
    for arm in arms {
        if !are_constant(shapes, arm.items.as_slice()) {
            return false;
        }
    }
    true
}

/// Whether arms have at most 4,096 items together.
fn are_few(shapes: &Shapes, arms: &[Arm], other: Option<u32>) -> bool
    ensures { result ≡ nat_le (items_in (arms_of shapes.now other arms.now)) 4096 }
{
    let mut left = ITEMS;
    for arm in arms {
        let count = arm.items.len();
        if left < count {
            return false;
        }
        left -= count;
    }
    true
}

/// Adds the pattern of an item's value, if it has one.
fn push_pattern(
    kind: CaseKind,
    n: usize,
    value: Bits,
    patterns: &mut Vec<SetList>,
) -> Result<(), AllocError>
    requires { n ≤ length value }
    ensures { OnOk result (patterns.new.items ≡ patterns.old.items ++ patterns_of kind n value) }
{
    match pattern_of(kind, n, value) {
        Some(pattern) => {
            patterns.push(pattern)?;
            Ok(())
        }
        None => Ok(()),
    }
}

/// Adds the patterns of constant items, for a selector of n bits in a case of this context.
fn push_items(
    shapes: &Shapes,
    kind: CaseKind,
    n: usize,
    context: Context,
    items: &[u32],
    patterns: &mut Vec<SetList>,
) -> Result<(), AllocError>
    requires there { EachBelow (length shapes.now.nodes) items.now }
    requires fit { fit_items (E.items_of (map (tree_of shapes.now) items.now)) ≡ true }
    requires constant { items_constant (E.items_of (map (tree_of shapes.now) items.now)) ≡ true }
    requires within { are_within context.width (map (tree_of shapes.now) items.now) ≡ true }
    requires few { context.width ≤ 64 }
    requires short { n ≤ context.width }
    ensures { OnOk result (patterns.new.items ≡ patterns.old.items ++ item_patterns kind n context.width context.signed (E.items_of (map (tree_of shapes.now) items.now))) }
{
    for item in items {
        let value = shapes.value(*item, context.width, context.signed);
        push_pattern(kind, n, value, patterns)?;
    }
    Ok(())
}

/// The patterns of the items of all arms.
fn patterns_of(
    alloc: Global,
    shapes: &Shapes,
    kind: CaseKind,
    n: usize,
    context: Context,
    arms: &[Arm],
    other: Option<u32>,
) -> Result<Vec<SetList>, AllocError>
    requires there { ArmsBelow (length shapes.now.nodes) (length shapes.now.statements) arms.now }
    requires fit { fits_arms (arms_of shapes.now other arms.now) ≡ true }
    requires constant { arms_constant (arms_of shapes.now other arms.now) ≡ true }
    requires within { (k : ℕ) → k < length arms.now → are_within context.width (map (tree_of shapes.now) (items_at arms.now k)) ≡ true }
    requires few { context.width ≤ 64 }
    requires short { n ≤ context.width }
    ensures { IfOk result (λ v. v.items ≡ arm_patterns kind n context.width context.signed (arms_of shapes.now other arms.now)) }
{
    let mut patterns = Vec::new(alloc);
    for arm in arms {
        push_items(
            shapes,
            kind,
            n,
            context,
            arm.items.as_slice(),
            &mut patterns,
        )?;
    }
    Ok(patterns)
}

/// Whether a case may be full by its form: its selector is one, reads a bit, and there is no default and at most 4,096 items, all constant.
fn may_be_full(
    alloc: Global,
    shapes: &Shapes,
    roots: &[Option<u32>],
    of: u32,
    arms: &[Arm],
    other: Option<u32>,
) -> Result<bool, AllocError>
    requires roots { AreRoots (design_of shapes.now) roots.now }
    requires of_there { of < length shapes.now.nodes }
    requires there { ArmsBelow (length shapes.now.nodes) (length shapes.now.statements) arms.now }
    requires other_there { BranchBelow (length shapes.now.statements) other }
    requires of_fit { is_fit (tree_of shapes.now of) ≡ true }
    requires of_formed { is_formed (design_of shapes.now) (tree_of shapes.now of) ≡ true }
    ensures { IfOk result (λ r. r ≡ has_form (design_of shapes.now) (tree_of shapes.now of) (arms_of shapes.now other arms.now)) }
{
    if !is_selector(shapes, roots, of) {
        return Ok(false);
    }
    if has_default(shapes, other) {
        return Ok(false);
    }
    if !arms_constant(shapes, arms, other) {
        return Ok(false);
    }
    if !are_few(shapes, arms, other) {
        return Ok(false);
    }
    let some = reads_some(alloc, shapes, of)?;
    Ok(some)
}

/// Whether a case extends its selector by its sign.
fn is_extended(own: Context, context: Context) -> bool
    ensures { result ≡ (context.signed && nat_lt own.width context.width) }
{
    context.signed && own.width < context.width
}

/// Whether a case is full.
pub(crate) fn is_full(
    alloc: Global,
    shapes: &Shapes,
    roots: &[Option<u32>],
    kind: CaseKind,
    of: u32,
    arms: &[Arm],
    other: Option<u32>,
) -> Result<bool, AllocError>
    requires roots { AreRoots (design_of shapes.now) roots.now }
    requires of_there { of < length shapes.now.nodes }
    requires there { ArmsBelow (length shapes.now.nodes) (length shapes.now.statements) arms.now }
    requires other_there { BranchBelow (length shapes.now.statements) other }
    requires of_fit { is_fit (tree_of shapes.now of) ≡ true }
    requires fit { fits_arms (arms_of shapes.now other arms.now) ≡ true }
    requires of_formed { is_formed (design_of shapes.now) (tree_of shapes.now of) ≡ true }
    ensures { IfOk result (λ r. r ≡ is_full (design_of shapes.now) kind (tree_of shapes.now of) (arms_of shapes.now other arms.now)) }
{
    value_law();
    let may = may_be_full(alloc, shapes, roots, of, arms, other)?;
    if !may {
        return Ok(false);
    }
    let own = own_context(shapes, of);
    let context = case_context(shapes, own, arms, other);
    if is_extended(own, context) {
        return Ok(false);
    }
    let n = own.width as usize;
    let patterns = patterns_of(alloc, shapes, kind, n, context, arms, other)?;
    let full = covers(alloc, n, patterns.as_slice())?;
    Ok(full)
}

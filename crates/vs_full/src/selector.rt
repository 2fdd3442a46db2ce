//! The selectors of cases.

ghost use Rattle.std.specs.Prelude.{◌≡◌, ◌<◌, ◌≤◌, ◌&&◌, length, map, is_some, nat_lt, slice_index_or, true, None, IfOk};
ghost use Rattle.std.specs.List.{list_all};
ghost use Rattle.vs_four.specs.Selects as selects;
ghost use Rattle.vs_design.specs.Elaborated.{is_formed};
ghost use Rattle.vs_design.specs.Expressions as E;
ghost use Rattle.vs_design.specs.Fits.{is_fit};
ghost use Rattle.vs_design.specs.Footprints.{read_bits};
ghost use Rattle.vs_design.specs.Selects.{is_selector};
ghost use Rattle.vs_design.specs.Values.{constant_value};
ghost use Rattle.vs_flat.specs.DesignOf.{design_of};
ghost use Rattle.vs_flat.specs.Targets.{source_of};
ghost use Rattle.vs_flat.specs.Trees.{joined};
ghost use Rattle.vs_sets.specs.Nodes.{EachBelow, tree_of};
ghost use Rattle.vs_full.specs.Roots.{AreRoots};
ghost use Rattle.vs_full.specs.Selectors.{has_root, is_source};

use crate::roots::{named_number, number_at};
use std::alloc::{AllocError, Global};
use vs_flat::Node;
use vs_four::is_known;
use vs_shape::{Part, Shapes, copy_count, first_copy, places_of};

/// Whether signal s has a root.
fn has_root(roots: &[Option<u32>], s: u32) -> bool
    requires { s < length roots.now }
    ensures { result ≡ is_some (slice_index_or roots.now s None) }
{
    number_at(roots, s).is_some()
}

/// Whether expression e is the name of a select net.
fn names_select(shapes: &Shapes, roots: &[Option<u32>], e: u32) -> bool
    requires roots { AreRoots (design_of shapes.now) roots.now }
    requires there { e < length shapes.now.nodes }
    requires formed { is_source (design_of shapes.now) (source_of (tree_of shapes.now e)) ≡ true }
    ensures { result ≡ has_root (design_of shapes.now) (source_of (tree_of shapes.now e)) }
{
    match named_number(shapes.flat(), e) {
        Some(signal) => has_root(roots, signal),
        None => false,
    }
}

/// Whether a select by an index is constant and each of its bits is in range.
fn is_inside(shapes: &Shapes, part: Part, index: u32) -> bool
    requires there { index < length shapes.now.nodes }
    requires fit { is_fit (tree_of shapes.now index) ≡ true }
    requires some { 1 ≤ part.width }
    requires few { part.width ≤ 64 }
    ensures { result ≡ (E.is_constant (tree_of shapes.now index) && list_all is_some (selects.places part (E.sign (tree_of shapes.now index)) (constant_value (tree_of shapes.now index)))) }
{
    let shape = shapes.shape(index);
    if !shape.constant {
        return false;
    }
    places_of(part, shape.signed, shapes.constant_value(index)).are_inside()
}

/// Whether a select is one of a select net, and constant and in range.
fn selects_inside(shapes: &Shapes, roots: &[Option<u32>], of: u32, part: Part, index: u32) -> bool
    requires roots { AreRoots (design_of shapes.now) roots.now }
    requires of_there { of < length shapes.now.nodes }
    requires there { index < length shapes.now.nodes }
    requires fit { is_fit (E.Select (source_of (tree_of shapes.now of)) part (tree_of shapes.now index)) ≡ true }
    requires formed { is_formed (design_of shapes.now) (E.Select (source_of (tree_of shapes.now of)) part (tree_of shapes.now index)) ≡ true }
    ensures { result ≡ is_selector (design_of shapes.now) (E.Select (source_of (tree_of shapes.now of)) part (tree_of shapes.now index)) }
{
    if !names_select(shapes, roots, of) {
        return false;
    }
    is_inside(shapes, part, index)
}

/// Whether expression e is made of names of select nets, constant selects of them in range, literals of known bits, and concatenations.
#[cycle(selecting)]
pub(crate) fn is_selector(shapes: &Shapes, roots: &[Option<u32>], e: u32) -> bool
    requires roots { AreRoots (design_of shapes.now) roots.now }
    requires there { e < length shapes.now.nodes }
    requires fit { is_fit (tree_of shapes.now e) ≡ true }
    requires formed { is_formed (design_of shapes.now) (tree_of shapes.now e) ≡ true }
    ensures { result ≡ is_selector (design_of shapes.now) (tree_of shapes.now e) }
{
    match shapes.node(e) {
        Node::Literal { bits, .. } => is_known(*bits),
        Node::Name { .. } => names_select(shapes, roots, e),
        Node::Local { .. } => names_select(shapes, roots, e),
        Node::Bit { of, range, index } => {
            let part = Part {
                range: *range,
                up: true,
                width: 1,
            };
            selects_inside(shapes, roots, *of, part, *index)
        }
        Node::Part {
            of,
            range,
            base,
            up,
            width,
        } => {
            let part = Part {
                range: *range,
                up: *up,
                width: *width,
            };
            selects_inside(shapes, roots, *of, part, *base)
        }
        Node::Join { parts } => {
            if copy_count(parts.as_slice()) == 1 {
                are_selectors(shapes, roots, e, first_copy(parts.as_slice()))
            } else {
                false
            }
        }
        _ => false,
    }
}

/// Whether these parts of a concatenation are all such expressions. They are below e.
#[cycle(selecting)]
fn are_selectors(shapes: &Shapes, roots: &[Option<u32>], e: u32, parts: &[u32]) -> bool
    requires roots { AreRoots (design_of shapes.now) roots.now }
    requires there { e < length shapes.now.nodes }
    requires below { EachBelow e parts.now }
    requires fit { is_fit (joined (map (tree_of shapes.now) parts.now)) ≡ true }
    requires formed { is_formed (design_of shapes.now) (joined (map (tree_of shapes.now) parts.now)) ≡ true }
    ensures { result ≡ is_selector (design_of shapes.now) (joined (map (tree_of shapes.now) parts.now)) }
{
    for part in parts {
        if !is_selector(shapes, roots, *part) {
            return false;
        }
    }
    true
}

/// Whether there is a bit.
fn are_some(bits: &[u32]) -> bool
    ensures { result ≡ nat_lt 0 (length bits.now) }
{
    bits.len() > 0
}

/// Whether an expression reads a bit.
pub(crate) fn reads_some(alloc: Global, shapes: &Shapes, e: u32) -> Result<bool, AllocError>
    requires there { e < length shapes.now.nodes }
    requires fit { is_fit (tree_of shapes.now e) ≡ true }
    ensures { IfOk result (λ r. r ≡ nat_lt 0 (length (read_bits (tree_of shapes.now e)))) }
{
    let mut bits = Vec::new(alloc);
    shapes.push_reads(e, false, &mut bits)?;
    Ok(are_some(bits.as_slice()))
}

//! The signals that ports join (IEEE 1364-2005, 12.3.9.2).

ghost use Rattle.std.specs.Prelude.{◌≡◌, ◌<◌, ℕ, length, slice_get, Some, IfSome};
ghost use Rattle.vs_design.specs.Designs as D;
ghost use Rattle.vs_flat.specs.DesignOf.{arena_trees, design_of};
ghost use Rattle.vs_flat.specs.Lawful.{IsLawful};
ghost use Rattle.vs_flat.specs.Trees.{tree_at};
ghost use Rattle.vs_vcd.specs.Joins.{named_number, target_number, only_part, named_by};
ghost use Rattle.vs_vcd.specs.Shared.{join_of};

use vs_flat::{Flat, Kind, Node, Port, lawful_law, names_law, range_bits, trees_law};
use vs_shape::node_of;

/// The signals that process p joins: it is a port's assign, its expression is the name of the one alone, its target is the whole of the
/// other, and they have equal lengths.
pub(crate) fn joined_by(flat: &Flat, p: u32) -> Option<(u32, u32)>
    requires lawful { IsLawful flat.now }
    requires there { p < length flat.now.processes }
    ensures joined { (x : D.Process) → slice_get (design_of flat.now).processes p ≡ Some x → result ≡ join_of x }
    ensures within { IfSome result (λ pair. (pair.0 < length flat.now.signals) × (pair.1 < length flat.now.signals)) }
{
    names_law();
    trees_law();
    lawful_law();
    match &flat.process(p).kind {
        Kind::Assign { target, expr, port } => {
            let (one, other) = named_by(flat, *target, *expr, *port)?;
            if range_bits(flat.signal(one).range) == range_bits(flat.signal(other).range) {
                Some((one, other))
            } else {
                None
            }
        }
        Kind::Block { .. } => None,
    }
}

/// The signal that a port's assign reads alone, and the one that it writes whole.
fn named_by(flat: &Flat, target: u32, expr: u32, port: Port) -> Option<(u32, u32)>
    requires lawful { IsLawful flat.now }
    requires target { target < length flat.now.nodes }
    requires expr { expr < length flat.now.nodes }
    ensures { result ≡ named_by port (named_number (tree_at (arena_trees flat.now) expr)) (target_number (tree_at (arena_trees flat.now) target)) }
{
    match port {
        Port::Written => None,
        Port::Input | Port::Output => Some((named(flat, expr)?, whole(flat, target)?)),
    }
}

/// The number of the signal that an expression is the name of alone.
fn named(flat: &Flat, e: u32) -> Option<u32>
    requires lawful { IsLawful flat.now }
    requires there { e < length flat.now.nodes }
    ensures { result ≡ named_number (tree_at (arena_trees flat.now) e) }
{
    match node_of(flat, e) {
        Node::Name { signal } => Some(*signal),
        Node::Local { signal, .. } => Some(*signal),
        _ => None,
    }
}

/// The number of the signal that a target is the whole of. A concatenation of one part is the same target as that part.
fn whole(flat: &Flat, target: u32) -> Option<u32>
    requires lawful { IsLawful flat.now }
    requires there { target < length flat.now.nodes }
    ensures { result ≡ target_number (tree_at (arena_trees flat.now) target) }
{
    let mut e = target;
    while let Some(part) = only_part(node_of(flat, e)) {
        e = part;
    }
    named(flat, e)
}

/// The only part of a concatenation that has one.
fn only_part(node: &Node) -> Option<u32>
    ensures { result ≡ only_part node.now }
{
    match node {
        Node::Join { parts } => {
            if parts.len() == 1 {
                Some(parts.as_slice()[0])
            } else {
                None
            }
        }
        _ => None,
    }
}

//! What targets and assignments cost (IEEE 1364-2005, 6.1 and 9.2).

ghost use Rattle.std.specs.Prelude.{◌≡◌, ◌<◌, ◌+◌, ◌*◌, length, if◌then◌else◌, true};
ghost use Rattle.vs_design.specs.Fits.{is_fit};
ghost use Rattle.vs_design.specs.Sizes as S;
ghost use Rattle.vs_flat.specs.Trees.{target_tree};
ghost use Rattle.vs_shape.specs.Nodes.{tree_of};
ghost use Rattle.vs_sets.specs.TargetsOf.{IsTarget};
ghost use Rattle.vs_typed.specs.Reach.{node_reach};
ghost use Rattle.vs_typed.specs.Weights.{AreWeights, capped, index_weight};

use crate::nodes::node_in;
use crate::sums::{plus, times};
use crate::weights::{add_weight, add_word, as_operand};
use vs_flat::Node;
use vs_four::Range;
use vs_shape::{Shapes, first_copy};

/// The total with what writing so many bits by this index costs. By a constant index it costs nothing more.
fn add_index(
    shapes: &Shapes,
    table: &[Option<u64>],
    range: Range,
    width: u64,
    index: u32,
    total: u64,
) -> u64
    requires table { AreWeights shapes.now table.now }
    requires there { index < node_reach shapes.now (length table.now) }
    requires fit { is_fit (tree_of shapes.now index) ≡ true }
    ensures { result ≡ capped (total + index_weight width range (tree_of shapes.now index)) }
{
    let x = as_operand(shapes, table.len(), index);
    if x.constant {
        return total;
    }
    let own = times(width, times(range.length(), plus(x.width, 1)));
    add_weight(shapes, table, index, x.width, plus(total, own))
}

/// The total with what the variable indices of target e add.
pub(crate) fn add_target(shapes: &Shapes, table: &[Option<u64>], e: u32, total: u64) -> u64
    requires table { AreWeights shapes.now table.now }
    requires there { e < node_reach shapes.now (length table.now) }
    requires target { IsTarget (tree_of shapes.now e) }
    ensures { result ≡ capped (total + S.target_weight (target_tree (tree_of shapes.now e))) }
{
    let mut sum = total;
    match node_in(shapes, table.len(), e) {
        Node::Bit {
            of: _,
            range,
            index,
        } => add_index(shapes, table, *range, 1, *index, total),
        Node::Part {
            of: _,
            range,
            base,
            up: _,
            width,
        } => add_index(shapes, table, *range, u64::from(*width), *base, total),
        Node::Word { signal, index } => add_word(shapes, table, e, *signal, *index, total),
        Node::WordPart {
            signal,
            address,
            range,
            base,
            up: _,
            width,
        } => {
            let word = add_word(shapes, table, e, *signal, *address, total);
            add_index(shapes, table, *range, u64::from(*width), *base, word)
        }
        Node::Join { parts } => {
            for part in first_copy(parts.as_slice()) {
                sum = add_target(shapes, table, *part, sum);
            }
            sum
        }
        _ => total,
    }
}

/// The total with what an assignment costs: its target's bits, its indices, and its right side in the larger of both lengths (IEEE 1364-2005, 5.5.3).
pub(crate) fn add_assignment(
    shapes: &Shapes,
    table: &[Option<u64>],
    target: u32,
    e: u32,
    total: u64,
) -> u64
    requires table { AreWeights shapes.now table.now }
    requires target_there { target < node_reach shapes.now (length table.now) }
    requires there { e < node_reach shapes.now (length table.now) }
    requires target { IsTarget (tree_of shapes.now target) }
    requires fit { is_fit (tree_of shapes.now e) ≡ true }
    ensures { result ≡ capped (total + S.assignment_weight (target_tree (tree_of shapes.now target)) (tree_of shapes.now e)) }
{
    let _ = node_in(shapes, table.len(), target);
    let bits = u64::from(shapes.shape(target).width);
    let sum = add_target(shapes, table, target, plus(total, bits));
    add_weight(
        shapes,
        table,
        e,
        as_operand(shapes, table.len(), e).width.max(bits),
        sum,
    )
}

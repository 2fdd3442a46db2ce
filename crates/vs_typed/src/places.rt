//! The least place at which a length or a division is refused (IEEE 1364-2005, 5.1.5 and 5.4).

ghost use Rattle.std.specs.Prelude.{◌≡◌, ◌≤◌, ◌<◌, ◌∷◌, [], ℕ, None, length, map, true, is_some, slice_index_or};
ghost use Rattle.vs_design.specs.Expressions as E;
ghost use Rattle.vs_design.specs.Fits as F;
ghost use Rattle.vs_design.specs.Refusals.{over_64};
ghost use Rattle.vs_typed.specs.Reach.{node_reach};
ghost use Rattle.vs_shape.specs.Nodes.{tree_of, place_of};
ghost use Rattle.vs_typed.specs.Places.{AreLeast, divided_at, head_places, least_from, lesser_of, places_of};

use crate::nodes::{expression_place, node_in};
use vs_base::BinaryOp;
use vs_design::places_law;
use vs_flat::Node;
use vs_shape::{Shapes, first_copy};

/// What is looked for.
#[derive(Clone, Copy, PartialEq, Eq, Debug)]
pub(crate) enum Rule {
    /// Expressions and targets of over 64 bits.
    Wide,
    /// Divisions of which an operand names a signal.
    Division,
}

/// The lesser place, where there is one already.
pub(crate) fn lesser(best: Option<u32>, at: u32) -> Option<u32>
    ensures { result ≡ least_from best (at ∷ []) }
{
    match best {
        Some(n) => Some(n.min(at)),
        None => Some(at),
    }
}

/// Whether an operator divides.
fn is_division(op: BinaryOp) -> bool
    ensures { result ≡ F.is_division op }
{
    matches!(op, BinaryOp::Divide | BinaryOp::Remainder | BinaryOp::Power)
}

/// The least place so far, and that of expression e itself where it is over 64 bits.
fn least_wide(shapes: &Shapes, e: u32, best: Option<u32>) -> Option<u32>
    requires { e < length shapes.now.nodes }
    ensures { result ≡ least_from best (over_64 (place_of shapes.now e) (E.width (tree_of shapes.now e))) }
{
    if shapes.shape(e).width > 64 {
        lesser(best, expression_place(shapes, e))
    } else {
        best
    }
}

/// The least place so far, and that of a division of a and b if it is one at run time.
fn least_division(shapes: &Shapes, op: BinaryOp, a: u32, b: u32, best: Option<u32>) -> Option<u32>
    requires a_there { a < length shapes.now.nodes }
    requires b_there { b < length shapes.now.nodes }
    ensures { (place : ℕ) → result ≡ least_from best (divided_at place op (tree_of shapes.now a) (tree_of shapes.now b)) }
{
    let _ = shapes.node(a);
    if is_division(op) && !(shapes.shape(a).constant && shapes.shape(b).constant) {
        lesser(best, expression_place(shapes, a))
    } else {
        best
    }
}

/// The least place so far, and those that expression e adds by itself, without its operands.
fn least_head(shapes: &Shapes, rule: Rule, e: u32, best: Option<u32>) -> Option<u32>
    requires { e < length shapes.now.nodes }
    ensures { (x : E.Expression) → tree_of shapes.now e ≡ E.At (place_of shapes.now e) x → result ≡ least_from best (head_places rule (place_of shapes.now e) x) }
{
    match rule {
        Rule::Wide => least_wide(shapes, e, best),
        Rule::Division => match shapes.node(e) {
            Node::Binary { op, a, b } => least_division(shapes, *op, *a, *b, best),
            _ => best,
        },
    }
}

/// The least place so far, and those in the statement of function f.
fn least_callee(table: &[Option<u32>], f: u32, best: Option<u32>) -> Option<u32>
    requires { f < length table.now }
    ensures { result ≡ lesser_of best (slice_index_or table.now f None) }
{
    match table[f as usize] {
        Some(at) => lesser(best, at),
        None => best,
    }
}

/// The least place so far, and those of expression e. What it calls has its least place in the table.
pub(crate) fn least_in(
    shapes: &Shapes,
    rule: Rule,
    table: &[Option<u32>],
    e: u32,
    best: Option<u32>,
) -> Option<u32>
    requires table { AreLeast shapes.now rule table.now }
    requires there { e < node_reach shapes.now (length table.now) }
    ensures { (at : ℕ) → result ≡ least_from best (places_of rule at (tree_of shapes.now e)) }
{
    places_law();
    let node = node_in(shapes, table.len(), e);
    let mut least = least_head(shapes, rule, e, best);
    match node {
        Node::Literal { .. } => least,
        Node::Name { .. } => least,
        Node::Local { .. } => least,
        Node::Bit {
            of: _,
            range: _,
            index,
        } => least_in(shapes, rule, table, *index, least),
        Node::Part {
            of: _,
            range: _,
            base,
            up: _,
            width: _,
        } => least_in(shapes, rule, table, *base, least),
        Node::Word { signal: _, index } => least_in(shapes, rule, table, *index, least),
        Node::Unary { op: _, a } => least_in(shapes, rule, table, *a, least),
        Node::Binary { op: _, a, b } => {
            least = least_in(shapes, rule, table, *a, least);
            least_in(shapes, rule, table, *b, least)
        }
        Node::Choice { c, p, q } => {
            least = least_in(shapes, rule, table, *c, least);
            least = least_in(shapes, rule, table, *p, least);
            least_in(shapes, rule, table, *q, least)
        }
        Node::Join { parts } => {
            for part in first_copy(parts.as_slice()) {
                least = least_in(shapes, rule, table, *part, least);
            }
            least
        }
        Node::Call {
            function,
            arguments,
        } => {
            for argument in arguments.as_slice() {
                least = least_in(shapes, rule, table, *argument, least);
            }
            least_callee(table, *function, least)
        }
        Node::WordPart { address, base, .. } => {
            least = least_in(shapes, rule, table, *address, least);
            least_in(shapes, rule, table, *base, least)
        }
    }
}

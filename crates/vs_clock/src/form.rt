//! The form of a block with a reset (IEEE 1364-2005, 9.4 and 9.7.2).

ghost use Rattle.std.specs.Prelude.{◌≡◌, ◌<◌, ◌||◌, true, length, Option, option_map, IfSome};
ghost use Rattle.vs_design.specs.Expressions as E;
ghost use Rattle.vs_design.specs.Fits.{fits, fits_statement};
ghost use Rattle.vs_design.specs.Resets.{inverted, is_condition, is_fixed, is_signal, reset_branch};
ghost use Rattle.vs_flat.specs.DesignOf.{arena_statements, arena_trees};
ghost use Rattle.vs_flat.specs.Lawful.{IsLawful};
ghost use Rattle.vs_flat.specs.Trees.{statement_at, tree_at};
ghost use Rattle.vs_shape.specs.Bodies.{body_of};
ghost use Rattle.vs_shape.specs.Nodes.{tree_of};
ghost use Rattle.vs_clock.specs.Forms.{if_branch};
ghost use Rattle.vs_clock.specs.Ports.{bit_of};

use crate::compared::is_comparison;
use crate::ports::named_bit;
use vs_base::{Edge, UnaryOp};
use vs_flat::{Flat, Node, Statement};
use vs_four::Bit4;
use vs_shape::{Shapes, node_of};
use vs_typed::{Typed, is_fixed};

/// The bit whose name stands behind `!` or `~`.
fn inverted_bit(flat: &Flat, e: u32) -> Option<u32>
    requires lawful { IsLawful flat.now }
    requires there { e < length flat.now.nodes }
    ensures { result ≡ bit_of (inverted (tree_at (arena_trees flat.now) e)) }
{
    match node_of(flat, e) {
        Node::Unary { op, a } => match op {
            UnaryOp::BitNot => named_bit(flat, *a),
            UnaryOp::LogicalNot => named_bit(flat, *a),
            _ => None,
        },
        _ => None,
    }
}

/// Whether the name that was found is that of this bit, or the other condition holds.
fn is_bit_or(found: Option<u32>, bit: u32, other: bool) -> bool
    ensures { (o : Option E.Signal) → found ≡ bit_of o → result ≡ (is_signal bit o || other) }
{
    if found == Some(bit) { true } else { other }
}

/// Whether an expression is the condition of a reset by this edge of this bit.
fn is_reset_condition(shapes: &Shapes, edge: Edge, bit: u32, c: u32) -> bool
    requires there { c < length shapes.now.nodes }
    requires fits { fits (tree_of shapes.now c) ≡ true }
    ensures { result ≡ is_condition edge bit (tree_of shapes.now c) }
{
    let flat = shapes.flat();
    match edge {
        Edge::Posedge => {
            let rises = is_comparison(shapes, bit, Bit4::One, c);
            is_bit_or(named_bit(flat, c), bit, rises)
        }
        Edge::Negedge => {
            let falls = is_comparison(shapes, bit, Bit4::Zero, c);
            is_bit_or(inverted_bit(flat, c), bit, falls)
        }
        Edge::Any => false,
    }
}

/// Whether a branch names no signal but as a target, by constant selects, and calls no function.
fn is_fixed_branch(typed: &Typed, s: u32) -> bool
    requires { s < length typed.now.statements }
    ensures { result ≡ is_fixed (statement_at (arena_statements typed.now) s) }
{
    is_fixed(typed.shapes(), s)
}

/// The first branch of a block's `if`, where its condition is that of a reset by this edge of this bit. `begin` and `end` round one statement alone are no matter.
fn branch_of(shapes: &Shapes, edge: Edge, bit: u32, s: u32) -> Option<u32>
    requires there { s < length shapes.now.statements }
    requires fits { fits_statement (body_of shapes.now s) ≡ true }
    ensures branch { option_map (body_of shapes.now) result ≡ if_branch edge bit (body_of shapes.now s) }
    ensures there { IfSome result (λ b. b < length shapes.now.statements) }
{
    match shapes.statement(s) {
        Statement::If { c, yes, no: _ } => {
            if is_reset_condition(shapes, edge, bit, *c) {
                Some(*yes)
            } else {
                None
            }
        }
        Statement::Seq { parts } => {
            if parts.len() == 1 {
                branch_of(shapes, edge, bit, *parts.get(0))
            } else {
                None
            }
        }
        _ => None,
    }
}

/// The branch of a reset by this edge of this bit, where the statement has the form of a block with that reset.
pub(crate) fn reset_branch(typed: &Typed, edge: Edge, bit: u32, s: u32) -> Option<u32>
    requires there { s < length typed.now.statements }
    requires fits { fits_statement (statement_at (arena_statements typed.now) s) ≡ true }
    ensures branch { option_map (statement_at (arena_statements typed.now)) result ≡ reset_branch edge bit (statement_at (arena_statements typed.now) s) }
    ensures there { IfSome result (λ b. b < length typed.now.statements) }
{
    match branch_of(typed.shapes(), edge, bit, s) {
        Some(branch) => {
            if is_fixed_branch(typed, branch) {
                Some(branch)
            } else {
                None
            }
        }
        None => None,
    }
}

//! Comparisons of the name of a bit and a constant (IEEE 1364-2005, 5.1.8).

ghost use Rattle.std.specs.Prelude.{◌≡◌, ◌≤◌, ◌<◌, ◌&&◌, ℕ, true, length, max, is_some, Some};
ghost use Rattle.vs_design.specs.Expressions as E;
ghost use Rattle.vs_design.specs.Fits.{fits};
ghost use Rattle.vs_design.specs.Resets.{alone, beside_constant, holds_at, is_comparison, is_equality};
ghost use Rattle.vs_design.specs.Values as V;
ghost use Rattle.vs_shape.specs.Nodes.{tree_of};
ghost use Rattle.vs_clock.specs.Compared.{IsOperand};
ghost use Rattle.vs_clock.specs.Ports.{bit_of};

use crate::ports::named_bit;
use vs_base::{BinaryOp, Context, extended};
use vs_design::value_law;
use vs_flat::Node;
use vs_four::{Bit4, Bits, truth};
use vs_shape::Shapes;

/// Whether an operator is `==` or `===`.
fn is_equality(op: BinaryOp) -> bool
    ensures { result ≡ is_equality op }
{
    matches!(op, BinaryOp::Equal | BinaryOp::CaseEqual)
}

/// The bit whose name stands beside a constant, on either side.
fn bit_beside_constant(shapes: &Shapes, a: u32, b: u32) -> Option<u32>
    requires left { a < length shapes.now.nodes }
    requires right { b < length shapes.now.nodes }
    ensures { result ≡ bit_of (beside_constant (tree_of shapes.now a) (tree_of shapes.now b)) }
{
    if shapes.shape(b).constant {
        named_bit(shapes.flat(), a)
    } else if shapes.shape(a).constant {
        named_bit(shapes.flat(), b)
    } else {
        None
    }
}

/// The value of an operand in a context: its own where it is constant, and else that of a bit that has this value.
fn operand_value(shapes: &Shapes, e: u32, context: Context, value: Bit4) -> Bits
    requires there { e < length shapes.now.nodes }
    requires fits { fits (tree_of shapes.now e) ≡ true }
    requires within { E.width (tree_of shapes.now e) ≤ context.width }
    requires some { 1 ≤ context.width }
    requires most { context.width ≤ 64 }
    ensures value { (b : ℕ) → IsOperand b (tree_of shapes.now e) → result ≡ V.value (tree_of shapes.now e) context.width context.signed (alone b value) }
    ensures length { length result ≡ context.width }
{
    value_law();
    if shapes.shape(e).constant {
        shapes.value(e, context.width, context.signed)
    } else {
        extended(Bits::of(&[value]), context.width, context.signed)
    }
}

/// The context that the operands of a comparison share (IEEE 1364-2005, 5.4.1 and 5.5.1).
fn shared_context(shapes: &Shapes, a: u32, b: u32) -> Context
    requires left { a < length shapes.now.nodes }
    requires right { b < length shapes.now.nodes }
    requires left_fits { fits (tree_of shapes.now a) ≡ true }
    requires right_fits { fits (tree_of shapes.now b) ≡ true }
    ensures width { result.width ≡ max (E.width (tree_of shapes.now a)) (E.width (tree_of shapes.now b)) }
    ensures most { result.width ≤ 64 }
    ensures signed { result.signed ≡ (E.sign (tree_of shapes.now a) && E.sign (tree_of shapes.now b)) }
{
    let left = shapes.shape(a).context();
    let right = shapes.shape(b).context();
    left.shared(right)
}

/// Whether a comparison of a bit's name and a constant holds where the bit has this value.
fn holds(shapes: &Shapes, op: BinaryOp, a: u32, b: u32, value: Bit4) -> bool
    requires equality { is_equality op ≡ true }
    requires left { a < length shapes.now.nodes }
    requires right { b < length shapes.now.nodes }
    requires left_fits { fits (tree_of shapes.now a) ≡ true }
    requires right_fits { fits (tree_of shapes.now b) ≡ true }
    requires named { is_some (bit_of (beside_constant (tree_of shapes.now a) (tree_of shapes.now b))) ≡ true }
    ensures { (n : ℕ) → bit_of (beside_constant (tree_of shapes.now a) (tree_of shapes.now b)) ≡ Some n → result ≡ holds_at n value (E.Binary op (tree_of shapes.now a) (tree_of shapes.now b)) }
{
    let context = shared_context(shapes, a, b);
    let first = operand_value(shapes, a, context, value);
    let second = operand_value(shapes, b, context, value);
    truth(op.apply(context.signed, context.signed, first, second)) == Bit4::One
}

/// Whether an operator on these operands compares this bit with a constant, and holds where the bit has this value.
fn compares(shapes: &Shapes, op: BinaryOp, a: u32, b: u32, bit: u32, value: Bit4) -> bool
    requires left { a < length shapes.now.nodes }
    requires right { b < length shapes.now.nodes }
    requires left_fits { fits (tree_of shapes.now a) ≡ true }
    requires right_fits { fits (tree_of shapes.now b) ≡ true }
    ensures { result ≡ is_comparison bit value (E.Binary op (tree_of shapes.now a) (tree_of shapes.now b)) }
{
    if !is_equality(op) {
        return false;
    }
    if bit_beside_constant(shapes, a, b) != Some(bit) {
        return false;
    }
    holds(shapes, op, a, b, value)
}

/// Whether an expression is a comparison of this bit and a constant that holds where the bit has this value. Round brackets are no matter.
pub(crate) fn is_comparison(shapes: &Shapes, bit: u32, value: Bit4, c: u32) -> bool
    requires there { c < length shapes.now.nodes }
    requires fits { fits (tree_of shapes.now c) ≡ true }
    ensures { result ≡ is_comparison bit value (tree_of shapes.now c) }
{
    match shapes.node(c) {
        Node::Binary { op, a, b } => compares(shapes, *op, *a, *b, bit, value),
        _ => false,
    }
}

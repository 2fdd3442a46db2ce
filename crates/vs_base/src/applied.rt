//! Operators on values (IEEE 1364-2005, 5.1).

ghost use Rattle.std.specs.Prelude.{◌≡◌, ◌≤◌, [], ◌∷◌, length};
ghost use Rattle.vs_four.specs.Tables.{not_bit};
ghost use Rattle.vs_base.specs.Applied as spec;

use crate::operators::{BinaryOp, UnaryOp};
use vs_four::{
    Bit4, Bits, add, and, div, equal, less, mul, neg, not, or, pow, reduce_and, reduce_or,
    reduce_xor, rem, repeated, same, shift_arith, shift_left, shift_right, sub, truth, xnor, xor,
};

/// One bit.
fn one(bit: Bit4) -> Bits
    ensures { result ≡ bit ∷ [] }
{
    Bits::of(&[bit])
}

/// The opposite of one bit.
fn other(bit: Bit4) -> Bits
    ensures { result ≡ not_bit bit ∷ [] }
{
    not(one(bit))
}

/// A quotient, remainder or power that has no value is all x (IEEE 1364-2005, 5.1.5).
fn or_all_x(len: u32, value: Option<Bits>) -> Bits
    requires some { 1 ≤ len }
    requires most { len ≤ 64 }
    ensures { result ≡ spec.or_all_x len value }
{
    match value {
        Some(bits) => bits,
        None => repeated(Bit4::X, len),
    }
}

impl UnaryOp {
    /// The operator on an operand that has the length of its context.
    pub fn apply(self, a: Bits) -> Bits
        ensures { result ≡ spec.apply_unary self a }
    {
        match self {
            UnaryOp::Plus | UnaryOp::Signed | UnaryOp::Unsigned => a,
            UnaryOp::Minus => neg(a),
            UnaryOp::BitNot => not(a),
            UnaryOp::LogicalNot => other(truth(a)),
            UnaryOp::ReduceAnd => one(reduce_and(a)),
            UnaryOp::ReduceNand => other(reduce_and(a)),
            UnaryOp::ReduceOr => one(reduce_or(a)),
            UnaryOp::ReduceNor => other(reduce_or(a)),
            UnaryOp::ReduceXor => one(reduce_xor(a)),
            UnaryOp::ReduceXnor => other(reduce_xor(a)),
        }
    }
}

impl BinaryOp {
    /// The operator on operands that have the lengths of their contexts, of which the first is taken as signed where `signed` is true,
    /// and the second where `other_signed` is.
    pub fn apply(self, signed: bool, other_signed: bool, a: Bits, b: Bits) -> Bits
        requires { spec.HasLengths self a b }
        ensures { result ≡ spec.apply_binary self signed other_signed a b }
    {
        match self {
            BinaryOp::Add => add(a, b),
            BinaryOp::Subtract => sub(a, b),
            BinaryOp::Multiply => mul(a, b),
            BinaryOp::Divide => or_all_x(a.len(), div(a, b, signed)),
            BinaryOp::Remainder => or_all_x(a.len(), rem(a, b, signed)),
            BinaryOp::BitAnd => and(a, b),
            BinaryOp::BitOr => or(a, b),
            BinaryOp::BitXor => xor(a, b),
            BinaryOp::BitXnor => xnor(a, b),
            BinaryOp::Less => one(less(a, b, signed)),
            BinaryOp::LessEqual => other(less(b, a, signed)),
            BinaryOp::Greater => one(less(b, a, signed)),
            BinaryOp::GreaterEqual => other(less(a, b, signed)),
            BinaryOp::Equal => one(equal(a, b)),
            BinaryOp::NotEqual => other(equal(a, b)),
            BinaryOp::CaseEqual => one(same(a, b)),
            BinaryOp::CaseNotEqual => other(same(a, b)),
            BinaryOp::LogicalAnd => and(one(truth(a)), one(truth(b))),
            BinaryOp::LogicalOr => or(one(truth(a)), one(truth(b))),
            BinaryOp::ShiftLeft | BinaryOp::ShiftLeftArith => shift_left(a, b),
            BinaryOp::ShiftRight => shift_right(a, b),
            BinaryOp::ShiftRightArith if signed => shift_arith(a, b),
            BinaryOp::ShiftRightArith => shift_right(a, b),
            BinaryOp::Power => or_all_x(a.len(), pow(a, b, signed, other_signed)),
        }
    }
}

//! The contexts of operands (IEEE 1364-2005, 5.4.1, 5.5.1 and 5.5.2).

ghost use Rattle.std.specs.Prelude.{◌≡◌, ◌&&◌, max, false};
ghost use Rattle.vs_base.specs.Operators as spec;

use crate::operators::{UnaryOp, Way};

/// What an expression is evaluated in, or has by itself: a length in bits, and a sign.
#[derive(Clone, Copy, PartialEq, Eq, Debug)]
pub struct Context {
    pub width: u32,
    pub signed: bool,
}

impl Context {
    /// The context that two operands share: the larger length, and signed only if both are.
    pub fn shared(self, other: Context) -> Context
        ensures width { result.width ≡ max self.width other.width }
        ensures signed { result.signed ≡ (self.signed && other.signed) }
    {
        Context {
            width: self.width.max(other.width),
            signed: self.signed && other.signed,
        }
    }
}

impl UnaryOp {
    /// What the operator's result has by itself, by what its operand has.
    pub fn result(self, a: Context) -> Context
        ensures width { result.width ≡ spec.unary_length self a.width }
        ensures signed { result.signed ≡ spec.unary_sign self a.signed }
    {
        match self {
            UnaryOp::Plus | UnaryOp::Minus | UnaryOp::BitNot => a,
            UnaryOp::Signed => Context { signed: true, ..a },
            UnaryOp::Unsigned => Context { signed: false, ..a },
            UnaryOp::LogicalNot
            | UnaryOp::ReduceAnd
            | UnaryOp::ReduceNand
            | UnaryOp::ReduceOr
            | UnaryOp::ReduceNor
            | UnaryOp::ReduceXor
            | UnaryOp::ReduceXnor => Context {
                width: 1,
                signed: false,
            },
        }
    }

    /// The context of the operand, by that of the operator, where `a` is what the operand has by itself.
    pub fn operand(self, context: Context, a: Context) -> Context
        ensures width { result.width ≡ spec.left_width (spec.unary_way self) context.width a.width 0 }
        ensures signed { result.signed ≡ spec.left_sign (spec.unary_way self) context.signed a.signed false }
    {
        match self.way() {
            Way::Own => a,
            Way::InContext | Way::Compared | Way::Shifted | Way::Raised => context,
        }
    }
}

impl Way {
    /// What an operator's result has by itself, by what its operands have.
    pub fn result(self, a: Context, b: Context) -> Context
        ensures width { result.width ≡ spec.binary_length self a.width b.width }
        ensures signed { result.signed ≡ spec.binary_sign self a.signed b.signed }
    {
        match self {
            Way::InContext => a.shared(b),
            Way::Shifted | Way::Raised => a,
            Way::Own | Way::Compared => Context {
                width: 1,
                signed: false,
            },
        }
    }

    /// The context of the first operand, by that of the operator, where `a` and `b` are what the operands
    /// have by themselves.
    pub fn left(self, context: Context, a: Context, b: Context) -> Context
        ensures width { result.width ≡ spec.left_width self context.width a.width b.width }
        ensures signed { result.signed ≡ spec.left_sign self context.signed a.signed b.signed }
    {
        match self {
            Way::Own => a,
            Way::Compared => a.shared(b),
            Way::InContext | Way::Shifted | Way::Raised => context,
        }
    }

    /// And of the second one.
    pub fn right(self, context: Context, a: Context, b: Context) -> Context
        ensures width { result.width ≡ spec.right_width self context.width a.width b.width }
        ensures signed { result.signed ≡ spec.right_sign self context.signed a.signed b.signed }
    {
        match self {
            Way::InContext => context,
            Way::Compared => a.shared(b),
            Way::Own | Way::Shifted | Way::Raised => b,
        }
    }
}

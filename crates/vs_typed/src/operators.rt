//! What operators cost, and how they take their operands (IEEE 1364-2005, table 5-22).

ghost use Rattle.std.specs.Prelude.{◌≡◌, ◌+◌, ◌*◌};
ghost use Rattle.vs_design.specs.Expressions as E;
ghost use Rattle.vs_design.specs.Sizes as S;
ghost use Rattle.vs_design.specs.Values as V;
ghost use Rattle.vs_typed.specs.Weights.{capped};

use crate::sums::{plus, times};
use vs_base::{BinaryOp, UnaryOp, Way};

/// What an operator of one operand costs in a context of w bits, on an operand of n.
pub(crate) fn unary_weight(op: UnaryOp, w: u64, n: u64) -> u64
    ensures { result ≡ capped (S.unary_weight op w n) }
{
    match op {
        UnaryOp::Plus | UnaryOp::Signed | UnaryOp::Unsigned => 0,
        UnaryOp::Minus => times(4, w),
        UnaryOp::BitNot => w,
        UnaryOp::LogicalNot => n,
        UnaryOp::ReduceAnd
        | UnaryOp::ReduceNand
        | UnaryOp::ReduceOr
        | UnaryOp::ReduceNor
        | UnaryOp::ReduceXor
        | UnaryOp::ReduceXnor => times(2, n),
    }
}

/// A shift of w bits by an amount of n: a choice of w bits for each of these, and one for each where it is too far.
fn shift_weight(w: u64, n: u64) -> u64
    ensures { result ≡ capped (w * (n + 1) + n) }
{
    plus(times(w, plus(n, 1)), n)
}

/// What an operator of two operands costs in a context of w bits, on operands of m and n.
pub(crate) fn binary_weight(op: BinaryOp, w: u64, m: u64, n: u64) -> u64
    ensures { result ≡ capped (S.binary_weight op w m n) }
{
    match op {
        BinaryOp::Add | BinaryOp::Subtract => times(4, w),
        BinaryOp::Multiply => times(4, times(w, w)),
        BinaryOp::Less | BinaryOp::LessEqual | BinaryOp::Greater | BinaryOp::GreaterEqual => {
            times(3, m.max(n))
        }
        BinaryOp::Equal | BinaryOp::NotEqual | BinaryOp::CaseEqual | BinaryOp::CaseNotEqual => {
            times(2, m.max(n))
        }
        BinaryOp::LogicalAnd | BinaryOp::LogicalOr => plus(plus(m, n), 1),
        BinaryOp::ShiftLeft
        | BinaryOp::ShiftRight
        | BinaryOp::ShiftLeftArith
        | BinaryOp::ShiftRightArith => shift_weight(w, n),
        BinaryOp::Divide
        | BinaryOp::Remainder
        | BinaryOp::Power
        | BinaryOp::BitAnd
        | BinaryOp::BitOr
        | BinaryOp::BitXor
        | BinaryOp::BitXnor => w,
    }
}

/// Whether an operator is a shift.
pub(crate) fn is_shift(op: BinaryOp) -> bool
    ensures { result ≡ S.is_shift (E.way op) }
{
    matches!(op.way(), Way::Shifted)
}

/// The context of an operator's one operand of n bits.
pub(crate) fn operand_width(op: UnaryOp, w: u64, n: u64) -> u64
    ensures { result ≡ V.left_width (E.unary_way op) w n 0 }
{
    match op.way() {
        Way::Own => n,
        Way::InContext | Way::Compared | Way::Shifted | Way::Raised => w,
    }
}

/// The contexts of an operator's two operands of m and n bits.
pub(crate) fn operand_widths(op: BinaryOp, w: u64, m: u64, n: u64) -> (u64, u64)
    ensures left { result.0 ≡ V.left_width (E.way op) w m n }
    ensures right { result.1 ≡ V.right_width (E.way op) w m n }
{
    match op.way() {
        Way::InContext => (w, w),
        Way::Own => (m, n),
        Way::Compared => (m.max(n), m.max(n)),
        Way::Shifted | Way::Raised => (w, n),
    }
}

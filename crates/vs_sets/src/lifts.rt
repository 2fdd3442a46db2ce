//! How operators come by their sets.

ghost use Rattle.std.specs.Prelude.{◌≡◌};
ghost use Rattle.vs_design.specs.Lifted as L;
ghost use Rattle.vs_sets.specs.Lifts.{lift_of};

use vs_base::BinaryOp;

/// How a lifted operator comes by its sets.
#[derive(Clone, Copy, PartialEq, Eq, Debug)]
pub(crate) enum Lift {
    /// From those of its operands.
    FromSets,
    /// By moving those of the first.
    Moved,
    /// As the value itself.
    Divided,
}

/// How this operator comes by its sets.
pub(crate) fn set_lift(op: BinaryOp) -> Lift
    ensures { lift_of result ≡ L.lift_of op }
{
    match op {
        BinaryOp::Divide | BinaryOp::Remainder | BinaryOp::Power => Lift::Divided,
        BinaryOp::ShiftLeft
        | BinaryOp::ShiftRight
        | BinaryOp::ShiftLeftArith
        | BinaryOp::ShiftRightArith => Lift::Moved,
        BinaryOp::Add
        | BinaryOp::Subtract
        | BinaryOp::Multiply
        | BinaryOp::BitAnd
        | BinaryOp::BitOr
        | BinaryOp::BitXor
        | BinaryOp::BitXnor
        | BinaryOp::Less
        | BinaryOp::LessEqual
        | BinaryOp::Greater
        | BinaryOp::GreaterEqual
        | BinaryOp::Equal
        | BinaryOp::NotEqual
        | BinaryOp::CaseEqual
        | BinaryOp::CaseNotEqual
        | BinaryOp::LogicalAnd
        | BinaryOp::LogicalOr => Lift::FromSets,
    }
}

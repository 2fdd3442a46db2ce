//! Operators lifted to sets (IEEE 1364-2005, 5.1).

ghost use Rattle.std.specs.Prelude.{◌≡◌, ◌≤◌, ◌<◌, ◌+◌, [], ◌∷◌, length};
ghost use Rattle.vs_four.specs.Lengths.{last_or};
ghost use Rattle.vs_four.specs.declared.Bit4.TheVariants.{Zero};
ghost use Rattle.vs_design.specs.Sets.{only, image2, set_or};
ghost use Rattle.vs_design.specs.Lifted.{extend_sets, lift_unary, lift_binary};
ghost use Rattle.vs_sets.specs.BitOperators.{operator_of};
ghost use Rattle.vs_sets.specs.SameLength.{SameLength};

use crate::bits::BitOperator;
use crate::bitwise::{each, not_each, set_match};
use crate::folds::{arithmetic, arithmetic_on_both, set_and, set_or, set_xor};
use crate::{Set4, SetList};
use vs_base::{BinaryOp, UnaryOp};
use vs_four::Bit4;

/// A list of one set.
pub(crate) fn one(set: Set4) -> SetList
    ensures { result ≡ set ∷ [] }
{
    SetList::replicated(1, set)
}

/// A list of these sets.
pub(crate) fn list_of(sets: &[Set4]) -> SetList
    requires { length sets.now ≤ 64 }
    ensures { result ≡ sets.now }
{
    let mut list = SetList::new();
    list.append(sets);
    list
}

/// The set of the most significant bit, or of 0 where there is none.
pub(crate) fn top(sets: &[Set4]) -> Set4
    ensures { result ≡ last_or (only Zero) sets.now }
{
    if sets.is_empty() {
        return Set4::only(Bit4::Zero);
    }
    sets[sets.len() - 1]
}

/// The sets extended to a length (IEEE 1364-2005, 5.4.1): signed by that of the top bit, else by 0.
pub(crate) fn extend_sets(mut list: SetList, len: usize, signed: bool) -> SetList
    requires { len ≤ 64 }
    ensures { result ≡ extend_sets len signed list }
{
    let fill = if signed {
        top(list.as_slice())
    } else {
        Set4::only(Bit4::Zero)
    };
    list.extend_with(fill, len);
    list
}

/// The lifted operator on one operand.
pub(crate) fn lift_unary(op: UnaryOp, sets: &[Set4]) -> SetList
    requires { length sets.now ≤ 64 }
    ensures { result ≡ lift_unary op sets.now }
{
    match op {
        UnaryOp::Minus => SetList::replicated(sets.len(), arithmetic(sets)),
        UnaryOp::BitNot => not_each(sets),
        UnaryOp::LogicalNot | UnaryOp::ReduceNor => one(set_or(sets).not()),
        UnaryOp::ReduceAnd => one(set_and(sets)),
        UnaryOp::ReduceNand => one(set_and(sets).not()),
        UnaryOp::ReduceOr => one(set_or(sets)),
        UnaryOp::ReduceXor => one(set_xor(sets)),
        UnaryOp::ReduceXnor => one(set_xor(sets).not()),
        UnaryOp::Plus | UnaryOp::Signed | UnaryOp::Unsigned => list_of(sets),
    }
}

/// The lifted `&&` and `||` (IEEE 1364-2005, 5.1.9), by the truth sets of their operands.
fn logical(operator: BitOperator, a: &[Set4], b: &[Set4]) -> SetList
    ensures { result ≡ image2 (operator_of operator) (set_or a.now) (set_or b.now) ∷ [] }
{
    one(set_or(a).image2(operator, set_or(b)))
}

/// The lifted operator on two operands, which have the same length, or any with `&&` and `||`. Of a division, a power or a shift it is any result.
pub(crate) fn lift_binary(op: BinaryOp, a: &[Set4], b: &[Set4]) -> SetList
    requires same_length { SameLength op a.now b.now }
    requires most { length a.now ≤ 64 }
    ensures { result ≡ lift_binary op a.now b.now }
{
    match op {
        BinaryOp::Add | BinaryOp::Subtract | BinaryOp::Multiply => {
            SetList::replicated(a.len(), arithmetic_on_both(a, b))
        }
        BinaryOp::BitAnd => each(BitOperator::And, a, b),
        BinaryOp::BitOr => each(BitOperator::Or, a, b),
        BinaryOp::BitXor => each(BitOperator::Xor, a, b),
        BinaryOp::BitXnor => each(BitOperator::Xnor, a, b),
        BinaryOp::Less | BinaryOp::LessEqual | BinaryOp::Greater | BinaryOp::GreaterEqual => {
            one(arithmetic_on_both(a, b))
        }
        BinaryOp::Equal => one(set_match(BitOperator::Xnor, a, b)),
        BinaryOp::NotEqual => one(set_match(BitOperator::Xnor, a, b).not()),
        BinaryOp::CaseEqual => one(set_match(BitOperator::Same, a, b)),
        BinaryOp::CaseNotEqual => one(set_match(BitOperator::Same, a, b).not()),
        BinaryOp::LogicalAnd => logical(BitOperator::And, a, b),
        BinaryOp::LogicalOr => logical(BitOperator::Or, a, b),
        BinaryOp::Divide
        | BinaryOp::Remainder
        | BinaryOp::Power
        | BinaryOp::ShiftLeft
        | BinaryOp::ShiftRight
        | BinaryOp::ShiftLeftArith
        | BinaryOp::ShiftRightArith => SetList::replicated(a.len(), Set4::any_result()),
    }
}

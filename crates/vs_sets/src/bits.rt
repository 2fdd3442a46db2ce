//! The operators on bits (IEEE 1364-2005, tables 5-12 to 5-16 and 5-21).

ghost use Rattle.std.specs.Prelude.{◌≡◌};
ghost use Rattle.vs_four.specs.Tables.{of_bool, merge_bit, same, is_known, is_z, not_bit, and_bit, or_bit, xor_bit};
ghost use Rattle.vs_sets.specs.BitOperators.{operator_of};

use vs_four::Bit4;

/// An operator on two bits.
#[derive(Clone, Copy, PartialEq, Eq, Debug)]
pub(crate) enum BitOperator {
    /// `&`
    And,
    /// `|`
    Or,
    /// `^`
    Xor,
    /// `~^`
    Xnor,
    /// One bit of `?:` under an unknown condition (IEEE 1364-2005, 5.1.13).
    Merge,
    /// One bit of `===`, and of the match of `case` (IEEE 1364-2005, 5.1.8 and 9.5).
    Same,
    /// One bit of the match of `casez` (IEEE 1364-2005, 9.5.1).
    CaseZ,
    /// One bit of the match of `casex` (IEEE 1364-2005, 9.5.1).
    CaseX,
}

impl BitOperator {
    /// The result for these two bits.
    pub(crate) fn apply(self, a: Bit4, b: Bit4) -> Bit4
        ensures { result ≡ operator_of self a b }
    {
        match self {
            BitOperator::And => and(a, b),
            BitOperator::Or => or(a, b),
            BitOperator::Xor => xor(a, b),
            BitOperator::Xnor => not(xor(a, b)),
            BitOperator::Merge => merge(a, b),
            BitOperator::Same => of_bool(a == b),
            BitOperator::CaseZ => of_bool(is_z(a) || is_z(b) || a == b),
            BitOperator::CaseX => of_bool(!is_known(a) || !is_known(b) || a == b),
        }
    }
}

/// `~` of one bit (IEEE 1364-2005, table 5-16).
pub(crate) fn not(a: Bit4) -> Bit4
    ensures { result ≡ not_bit a }
{
    match a {
        Bit4::Zero => Bit4::One,
        Bit4::One => Bit4::Zero,
        Bit4::X | Bit4::Z => Bit4::X,
    }
}

/// `&` of two bits (IEEE 1364-2005, table 5-12).
fn and(a: Bit4, b: Bit4) -> Bit4
    ensures { result ≡ and_bit a b }
{
    match (a, b) {
        (Bit4::Zero, _) | (_, Bit4::Zero) => Bit4::Zero,
        (Bit4::One, Bit4::One) => Bit4::One,
        _ => Bit4::X,
    }
}

/// `|` of two bits (IEEE 1364-2005, table 5-13).
fn or(a: Bit4, b: Bit4) -> Bit4
    ensures { result ≡ or_bit a b }
{
    match (a, b) {
        (Bit4::One, _) | (_, Bit4::One) => Bit4::One,
        (Bit4::Zero, Bit4::Zero) => Bit4::Zero,
        _ => Bit4::X,
    }
}

/// `^` of two bits (IEEE 1364-2005, table 5-14).
fn xor(a: Bit4, b: Bit4) -> Bit4
    ensures { result ≡ xor_bit a b }
{
    match (a, b) {
        (Bit4::Zero, Bit4::Zero) | (Bit4::One, Bit4::One) => Bit4::Zero,
        (Bit4::Zero, Bit4::One) | (Bit4::One, Bit4::Zero) => Bit4::One,
        _ => Bit4::X,
    }
}

/// One bit of `?:` under an unknown condition (IEEE 1364-2005, table 5-21): equal known bits stay.
fn merge(a: Bit4, b: Bit4) -> Bit4
    ensures { result ≡ merge_bit a b }
{
    match (a, b) {
        (Bit4::Zero, Bit4::Zero) => Bit4::Zero,
        (Bit4::One, Bit4::One) => Bit4::One,
        _ => Bit4::X,
    }
}

/// Whether the bit is 0 or 1.
fn is_known(a: Bit4) -> bool
    ensures { result ≡ is_known a }
{
    match a {
        Bit4::Zero | Bit4::One => true,
        Bit4::X | Bit4::Z => false,
    }
}

/// Whether the bit is z.
fn is_z(a: Bit4) -> bool
    ensures { result ≡ is_z a }
{
    match a {
        Bit4::Z => true,
        Bit4::Zero | Bit4::One | Bit4::X => false,
    }
}

/// 1 for what holds, and 0 for what doesn't.
fn of_bool(holds: bool) -> Bit4
    ensures { result ≡ of_bool holds }
{
    if holds { Bit4::One } else { Bit4::Zero }
}

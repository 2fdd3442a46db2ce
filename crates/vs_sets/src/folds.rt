//! Single sets made of the sets of a value's bits.

ghost use Rattle.std.specs.Prelude.{◌≡◌, ◌++◌, ◌<◌, length, not};
ghost use Rattle.std.specs.List.{list_any, list_all};
ghost use Rattle.vs_design.specs.Sets.{is_unknown_set, is_known_set, is_only_one, is_only_x, all_of, arithmetic, fold_sets, set_and, set_or, set_xor, variable};
ghost use Rattle.vs_sets.specs.Arithmetic.{arithmetic_of};
ghost use Rattle.vs_sets.specs.BitOperators.{operator_of};

use crate::Set4;
use crate::bits::BitOperator;
use vs_four::Bit4;

/// Whether one of the bits is surely x or z.
pub(crate) fn has_unknown(sets: &[Set4]) -> bool
    ensures { result ≡ list_any is_unknown_set sets.now }
{
    sets.iter().any(|set| set.is_unknown())
}

/// Whether all bits are surely 0 or 1.
pub(crate) fn are_known(sets: &[Set4]) -> bool
    ensures { result ≡ list_all is_known_set sets.now }
{
    sets.iter().all(|set| set.is_known())
}

/// The values of all these sets.
pub(crate) fn all_of(sets: &[Set4]) -> Set4
    ensures { result ≡ all_of sets.now }
{
    let mut all = Set4::none();
    let mut n = sets.len();
    while n > 0 {
        n -= 1;
        all = sets[n].union(all);
    }
    all
}

/// What an arithmetic operator gives of bits of which one is surely unknown, or all are known.
fn arithmetic_of(unknown: bool, known: bool) -> Set4
    ensures { result ≡ arithmetic_of unknown known }
{
    if unknown {
        Set4::only(Bit4::X)
    } else if known {
        Set4::known()
    } else {
        Set4::any_result()
    }
}

/// Each bit of the lifted result of `-`.
pub(crate) fn arithmetic(sets: &[Set4]) -> Set4
    ensures { result ≡ arithmetic sets.now }
{
    arithmetic_of(has_unknown(sets), are_known(sets))
}

/// Each bit of a lifted sum, difference, product or comparison (IEEE 1364-2005, 5.1.5 and 5.1.7).
pub(crate) fn arithmetic_on_both(a: &[Set4], b: &[Set4]) -> Set4
    ensures { result ≡ arithmetic (a.now ++ b.now) }
{
    arithmetic_of(
        has_unknown(a) || has_unknown(b),
        are_known(a) && are_known(b),
    )
}

/// The operator over all bits, from a first value on.
fn fold(operator: BitOperator, first: Bit4, sets: &[Set4]) -> Set4
    ensures { result ≡ fold_sets (operator_of operator) first sets.now }
{
    let mut folded = Set4::only(first);
    for set in sets {
        folded = folded.image2(operator, *set);
    }
    folded
}

/// The lifted reduction `&` (IEEE 1364-2005, 5.1.11).
pub(crate) fn set_and(sets: &[Set4]) -> Set4
    ensures { result ≡ set_and sets.now }
{
    fold(BitOperator::And, Bit4::One, sets)
}

/// The lifted reduction `|`, and the lifted truth (IEEE 1364-2005, 5.1.9 and 5.1.11).
pub(crate) fn set_or(sets: &[Set4]) -> Set4
    ensures { result ≡ set_or sets.now }
{
    fold(BitOperator::Or, Bit4::Zero, sets)
}

/// The lifted reduction `^` (IEEE 1364-2005, 5.1.11).
pub(crate) fn set_xor(sets: &[Set4]) -> Set4
    ensures { result ≡ set_xor sets.now }
{
    fold(BitOperator::Xor, Bit4::Zero, sets)
}

/// By an index or an amount that isn't constant: x where one of its bits is surely unknown, else this set, with x unless it is sure.
pub(crate) fn variable(index: &[Set4], sure: bool, set: Set4) -> Set4
    ensures { result ≡ variable index.now sure set }
{
    if has_unknown(index) {
        Set4::only(Bit4::X)
    } else if sure {
        set
    } else {
        Set4::only(Bit4::X).union(set)
    }
}

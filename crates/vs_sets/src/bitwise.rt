//! Operators on sets that go bit by bit, and those that move them.

ghost use Rattle.std.specs.Prelude.{◌≡◌, ◌≤◌, ◌<◌, ◌+◌, length, map};
ghost use Rattle.vs_four.specs.Logic.{map2};
ghost use Rattle.vs_four.specs.Lengths.{join};
ghost use Rattle.vs_four.specs.Shifts.{move_up, move_down};
ghost use Rattle.vs_four.specs.Tables.{not_bit};
ghost use Rattle.vs_design.specs.Sets.{image, image2, set_choose, set_match};
ghost use Rattle.vs_sets.specs.Choosing.{chosen};
ghost use Rattle.vs_sets.specs.BitOperators.{operator_of};

use crate::bits::BitOperator;
use crate::folds::set_and;
use crate::{Set4, SetList};
use vs_four::Bit4;

/// The lifted `~` (IEEE 1364-2005, 5.1.10).
pub(crate) fn not_each(sets: &[Set4]) -> SetList
    requires { length sets.now ≤ 64 }
    ensures { result ≡ map (image not_bit) sets.now }
{
    let mut list = SetList::new();
    for set in sets {
        list.push(set.not());
    }
    list
}

/// A lifted operator that goes bit by bit.
pub(crate) fn each(operator: BitOperator, a: &[Set4], b: &[Set4]) -> SetList
    requires same_length { length a.now ≡ length b.now }
    requires most { length a.now ≤ 64 }
    ensures { result ≡ map2 (image2 (operator_of operator)) a.now b.now }
{
    let mut list = SetList::new();
    for i in 0..a.len() {
        list.push(a[i].image2(operator, b[i]));
    }
    list
}

/// A lifted equality, or the match of a case's item (IEEE 1364-2005, 5.1.8 and 9.5).
pub(crate) fn set_match(operator: BitOperator, a: &[Set4], b: &[Set4]) -> Set4
    requires same_length { length a.now ≡ length b.now }
    requires most { length a.now ≤ 64 }
    ensures { result ≡ set_match (operator_of operator) a.now b.now }
{
    set_and(each(operator, a, b).as_slice())
}

/// One bit of the lifted `?:`, by the truth set of its condition.
fn chosen(condition: Set4, p: Set4, q: Set4) -> Set4
    ensures { result ≡ chosen condition p q }
{
    let mut set = Set4::none();
    if condition.may_be_unknown() {
        set = p.image2(BitOperator::Merge, q);
    }
    if condition.has(Bit4::Zero) {
        set = q.union(set);
    }
    if condition.has(Bit4::One) {
        set = p.union(set);
    }
    set
}

/// The lifted `?:` (IEEE 1364-2005, 5.1.13), by the truth set of its condition.
pub(crate) fn set_choose(condition: Set4, p: &[Set4], q: &[Set4]) -> SetList
    requires same_length { length p.now ≡ length q.now }
    requires most { length p.now ≤ 64 }
    ensures { result ≡ set_choose condition p.now q.now }
{
    let mut list = SetList::new();
    for i in 0..p.len() {
        list.push(chosen(condition, p[i], q[i]));
    }
    list
}

/// So many places up, filled from below.
pub(crate) fn moved_up(sets: &[Set4], places: usize, fill: Set4) -> SetList
    requires within { places ≤ length sets.now }
    requires most { length sets.now ≤ 64 }
    ensures { result ≡ move_up fill places sets.now }
{
    let mut list = SetList::replicated(places, fill);
    list.append(&sets[..sets.len() - places]);
    list
}

/// So many places down, filled from above.
pub(crate) fn moved_down(sets: &[Set4], places: usize, fill: Set4) -> SetList
    requires within { places ≤ length sets.now }
    requires most { length sets.now ≤ 64 }
    ensures { result ≡ move_down fill places sets.now }
{
    let mut list = SetList::new();
    list.append(&sets[places..]);
    list.push_copies(places, fill);
    list
}

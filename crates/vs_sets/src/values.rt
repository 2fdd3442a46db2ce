//! Sets of constants, of selects and of shifts.

ghost use Rattle.std.specs.Prelude.{◌≡◌, ◌≤◌, ◌<◌, ◌++◌, ◌&&◌, [], ◌∷◌, length, map, replicate, if◌then◌else◌, true};
ghost use Rattle.vs_four.specs.declared.Bit4.TheVariants.{Zero, X};
ghost use Rattle.vs_four.specs.Logic.{all_known};
ghost use Rattle.vs_four.specs.Numbers.{number};
ghost use Rattle.vs_four.specs.Selects.{at_place, places};
ghost use Rattle.vs_four.specs.Shifts.{distance};
ghost use Rattle.vs_design.specs.Sets.{only, set_shift_by, set_shift};
ghost use Rattle.vs_design.specs.Lifted.{surely_inside, is_inside, is_left, fill_set};
ghost use Rattle.vs_sets.specs.Extremes.{counts_up, extreme_bit, extreme_bits};

use crate::bitwise::{moved_down, moved_up};
use crate::folds::{all_of, are_known, variable};
use crate::operators::top;
use crate::{Set4, SetList};
use vs_base::BinaryOp;
use vs_four::{Bit4, Bits, integer, is_known};
use vs_shape::{Part, Places, places_of};

/// The sets of a constant: each bit has its value alone.
pub(crate) fn only_each(bits: Bits) -> SetList
    ensures { result ≡ map only bits }
{
    let mut list = SetList::new();
    for n in 0..bits.len() {
        list.push(Set4::only(bits.get(n)));
    }
    list
}

/// The sets at these places, and x where there is none.
pub(crate) fn at_places(places: &Places, sets: &[Set4]) -> SetList
    ensures { result ≡ map (at_place (only X) sets.now) places.now }
{
    let mut list = SetList::new();
    for k in 0..places.len() {
        list.push(set_at(places.get(k), sets));
    }
    list
}

/// The set at a place, and x where there is none.
fn set_at(place: Option<usize>, sets: &[Set4]) -> Set4
    ensures { result ≡ at_place (only X) sets.now place }
{
    match place {
        Some(n) if n < sets.len() => sets[n],
        _ => Set4::only(Bit4::X),
    }
}

/// The greatest bit that may be, or else the least: 1 before 0, where it counts up.
fn extreme_bit(greatest: bool, set: Set4) -> Bit4
    ensures { result ≡ extreme_bit greatest set }
{
    if greatest {
        if set.has(Bit4::One) {
            Bit4::One
        } else {
            Bit4::Zero
        }
    } else if set.has(Bit4::Zero) {
        Bit4::Zero
    } else {
        Bit4::One
    }
}

/// Whether the greatest bit gives the wanted index: of the top bit of a signed index the least one gives the greatest.
fn counts_up(greatest: bool, signed: bool, is_top: bool) -> bool
    ensures { result ≡ counts_up greatest (signed && is_top) }
{
    if signed && is_top {
        !greatest
    } else {
        greatest
    }
}

/// The greatest index that members of these sets give, or else the least, where all are 0 or 1; the top bit of a signed index counts down.
fn extreme_bits(greatest: bool, signed: bool, sets: &[Set4]) -> Bits
    requires some { 1 ≤ length sets.now }
    requires most { length sets.now ≤ 64 }
    ensures { result ≡ extreme_bits greatest signed sets.now }
{
    let mut bits = [Bit4::Zero; 64];
    for n in 0..sets.len() {
        let greater = counts_up(greatest, signed, n + 1 == sets.len());
        bits[n] = extreme_bit(greater, sets[n]);
    }
    Bits::of(&bits[..sets.len()])
}

/// Whether every index that members of these sets give is in range (IEEE 1364-2005, 5.2.1).
pub(crate) fn surely_inside(part: Part, signed: bool, sets: &[Set4]) -> bool
    requires some { 1 ≤ length sets.now }
    requires most { length sets.now ≤ 64 }
    requires part_some { 1 ≤ part.width }
    requires part_most { part.width ≤ 64 }
    ensures { result ≡ surely_inside part signed sets.now }
{
    are_known(sets)
        && places_of(part, signed, extreme_bits(false, signed, sets)).are_inside()
        && places_of(part, signed, extreme_bits(true, signed, sets)).are_inside()
}

/// By how many places a known amount shifts a vector of this length: at most by its length.
fn distance(len: usize, amount: Bits) -> usize
    requires known { all_known amount ≡ true }
    requires most { len ≤ 64 }
    ensures value { result ≡ distance len amount }
    ensures at_most { result ≤ len }
{
    let places = integer(amount, false);
    if places > len as i128 {
        len
    } else {
        places as usize
    }
}

/// Whether the shift goes to the left.
fn is_left(op: BinaryOp) -> bool
    ensures { result ≡ is_left op }
{
    matches!(op, BinaryOp::ShiftLeft | BinaryOp::ShiftLeftArith)
}

/// What a shift brings in: 0, or with `>>>` of a signed value its top bit (IEEE 1364-2005, 5.1.12).
pub(crate) fn shift_fill(op: BinaryOp, signed: bool, sets: &[Set4]) -> Set4
    ensures { result ≡ fill_set op signed sets.now }
{
    if signed && op == BinaryOp::ShiftRightArith {
        top(sets)
    } else {
        Set4::only(Bit4::Zero)
    }
}

/// The lifted shift by a constant amount.
pub(crate) fn shift_by(op: BinaryOp, fill: Set4, amount: Bits, sets: &[Set4]) -> SetList
    requires { length sets.now ≤ 64 }
    ensures { result ≡ set_shift_by (all_known amount) (is_left op) fill (distance (length sets.now) amount) sets.now }
{
    if !is_known(amount) {
        return SetList::replicated(sets.len(), Set4::only(Bit4::X));
    }
    let places = distance(sets.len(), amount);
    if is_left(op) {
        moved_up(sets, places, fill)
    } else {
        moved_down(sets, places, fill)
    }
}

/// The lifted shift by an amount that isn't constant.
pub(crate) fn shift(fill: Set4, amount: &[Set4], sets: &[Set4]) -> SetList
    requires { length sets.now ≤ 64 }
    ensures { result ≡ set_shift fill amount.now sets.now }
{
    let any = fill.union(all_of(sets));
    SetList::replicated(sets.len(), variable(amount, are_known(amount), any))
}

//! Selects and writes by a variable index (IEEE 1364-2005, 5.2.1), one store a bit.
ghost use Rattle.std.specs.Prelude.{◌≡◌, ℕ, ◌+◌, ◌<◌, ◌^◌, length, All, None, slice_index_or, unsigned_abs, ◌&&◌, [], ◌∷◌};
ghost use Rattle.vs_four.specs.declared.Bit4.TheVariants.{X, Zero};
ghost use Rattle.vs_four.specs.Lengths.{last_or};
ghost use Rattle.vs_four.specs.Selects.{places, range_length};
ghost use Rattle.vs_plane.specs.Kernels.{AreTargets, Computes, IsArgument, binary, lane_bits, ternary};
ghost use Rattle.vs_plane.specs.Lanes.{pair_lane};
ghost use Rattle.vs_kern_select.specs.Matches.{base_by, has_digit, is_natural, is_number, is_place};
ghost use Rattle.vs_kern_select.specs.Operators.{part_of, select_of, write_of};

use crate::costs::Selection;
use std::sync::ledger::Ledger;
use vs_four::{Bit4, Range};
use vs_plane::{Pair, PlaneFile, Steps, Word, filling_law};

/// `a[base +: n]`, or `a[base -: n]` where it isn't `up`, n being the length of `to` (IEEE 1364-2005, 5.2.1): x for a bit out of the declared
/// range, and all x where a bit of the base is unknown. A bit select is one of 1 bit.
pub fn select<W: Word, L: Ledger>(
    file: &mut PlaneFile<W>,
    a: &[u32],
    base: &[u32],
    range: Range,
    signed: bool,
    up: bool,
    to: &[u32],
    scratch: &[u32],
    steps: &mut Steps<L>,
)
    requires targets { AreTargets (length file.old) to.now scratch.now }
    requires a { IsArgument (length file.old) a.now to.now scratch.now }
    requires base { IsArgument (length file.old) base.now to.now scratch.now }
    requires a_length { length a.now ≡ range_length range }
    ensures computes { Computes W.lane W.LANES (binary (select_of (record { range = range; signed = signed; up = up }) (length to.now))) (a.now ∷ base.now ∷ []) to.now scratch.now file.old file.new }
    ensures ticked { steps.new ≡ steps.old + length to.now }
{
    filling_law::<W>();
    let selection = Selection { range, signed, up };
    for (bit, slot) in to.iter().enumerate() {
        let pair = selected_bit(selection, file, a, base, to.len(), bit);
        file.store(*slot, pair, steps);
    }
}

/// The vector `a` with a value written to `a[base +: n]`, or to `a[base -: n]` where it isn't `up`, n being the value's length (IEEE 1364-2005,
/// 5.2.1): bits out of the declared range change nothing, nor does any where a bit of the base is unknown.
pub fn write<W: Word, L: Ledger>(
    file: &mut PlaneFile<W>,
    a: &[u32],
    base: &[u32],
    value: &[u32],
    range: Range,
    signed: bool,
    up: bool,
    to: &[u32],
    scratch: &[u32],
    steps: &mut Steps<L>,
)
    requires targets { AreTargets (length file.old) to.now scratch.now }
    requires a { IsArgument (length file.old) a.now to.now scratch.now }
    requires base { IsArgument (length file.old) base.now to.now scratch.now }
    requires value { IsArgument (length file.old) value.now to.now scratch.now }
    requires a_range { length a.now ≡ range_length range }
    requires a_length { length a.now ≡ length to.now }
    ensures computes { Computes W.lane W.LANES (ternary (write_of (record { range = range; signed = signed; up = up }))) (a.now ∷ base.now ∷ value.now ∷ []) to.now scratch.now file.old file.new }
    ensures ticked { steps.new ≡ steps.old + length to.now }
{
    filling_law::<W>();
    let selection = Selection { range, signed, up };
    for (place, slot) in to.iter().enumerate() {
        let pair = written_bit(selection, file, a, base, value, place);
        file.store(*slot, pair, steps);
    }
}

/// Bit `bit` of a select of `width` bits, in each lane. It stores nothing.
fn selected_bit<W: Word>(
    selection: Selection,
    file: &PlaneFile<W>,
    a: &[u32],
    base: &[u32],
    width: usize,
    bit: usize,
) -> Pair<W>
    requires a { All (λ slot. slot < length file.now) a.now }
    requires base { All (λ slot. slot < length file.now) base.now }
    requires a_length { length a.now ≡ range_length selection.range }
    requires bit { bit < width }
    ensures { (i : ℕ) → i < W.LANES → pair_lane W.lane result i
        ≡ slice_index_or (select_of selection width (lane_bits W.lane file.now a.now i) (lane_bits W.lane file.now base.now i)) bit X }
{
    filling_law::<W>();
    let mut pair = Pair::of_bit(Bit4::X);
    for (place, slot) in a.iter().enumerate() {
        let lanes = lanes_of_place(selection, file, base, width, bit, place);
        pair = file.load(*slot).in_lanes(lanes, pair);
    }
    pair
}

/// Bit `place` of a vector after a write to a select of it, in each lane. It stores nothing.
fn written_bit<W: Word>(
    selection: Selection,
    file: &PlaneFile<W>,
    a: &[u32],
    base: &[u32],
    value: &[u32],
    place: usize,
) -> Pair<W>
    requires a { All (λ slot. slot < length file.now) a.now }
    requires base { All (λ slot. slot < length file.now) base.now }
    requires value { All (λ slot. slot < length file.now) value.now }
    requires a_length { length a.now ≡ range_length selection.range }
    requires place { place < length a.now }
    ensures { (i : ℕ) → i < W.LANES → pair_lane W.lane result i
        ≡ slice_index_or (write_of selection (lane_bits W.lane file.now a.now i) (lane_bits W.lane file.now base.now i) (lane_bits W.lane file.now value.now i)) place X }
{
    filling_law::<W>();
    let mut pair = file.load(a[place]);
    for (bit, slot) in value.iter().enumerate() {
        let lanes = lanes_of_place(selection, file, base, value.len(), bit, place);
        pair = file.load(*slot).in_lanes(lanes, pair);
    }
    pair
}

/// The lanes by whose base the place of bit `bit`, of `width` bits, is `place`.
pub(crate) fn lanes_of_place<W: Word>(
    selection: Selection,
    file: &PlaneFile<W>,
    base: &[u32],
    width: usize,
    bit: usize,
    place: usize,
) -> W
    requires base { All (λ slot. slot < length file.now) base.now }
    requires bit { bit < width }
    requires place { place < range_length selection.range }
    ensures { (i : ℕ) → i < W.LANES → W.lane result i
        ≡ is_place place (slice_index_or (places (part_of selection width) selection.signed (lane_bits W.lane file.now base.now i)) bit None) }
{
    let number = base_of_place(selection, width, bit, place);
    lanes_of_number(file, base, selection.signed, number)
}

/// The base by which the place of bit `bit`, of `width` bits, is `place`.
fn base_of_place(selection: Selection, width: usize, bit: usize, place: usize) -> i128
    requires { bit < width }
    ensures value { result ≡ base_by (part_of selection width) place bit }
    ensures fits { unsigned_abs result < 2 ^ 66 }
{
    let range = selection.range;
    let right = range.right as i128;
    let distance = place as i128 - bit as i128;
    let spread = width as i128 - 1;
    match (range.right <= range.left, selection.up) {
        (true, true) => right + distance,
        (true, false) => right + distance + spread,
        (false, true) => right - distance - spread,
        (false, false) => right - distance,
    }
}

/// The lanes in which all bits of the base are known, and it is this number, in two's complement where it is signed.
fn lanes_of_number<W: Word>(file: &PlaneFile<W>, base: &[u32], signed: bool, number: i128) -> W
    requires { All (λ slot. slot < length file.now) base.now }
    ensures { (i : ℕ) → i < W.LANES → W.lane result i ≡ is_number signed (lane_bits W.lane file.now base.now i) number }
{
    let distance = number.unsigned_abs();
    match (number < 0, signed) {
        (false, false) => lanes_of_natural(false, file, base, distance),
        (false, true) => lanes_of_signed(false, file, base, distance),
        (true, false) => W::none(),
        (true, true) => lanes_of_signed(true, file, base, distance - 1),
    }
}

/// The lanes in which all bits of the base are known, and it is this number in two's complement, or where it is negative -1 less this number.
fn lanes_of_signed<W: Word>(negative: bool, file: &PlaneFile<W>, base: &[u32], number: u128) -> W
    requires { All (λ slot. slot < length file.now) base.now }
    ensures { (i : ℕ) → i < W.LANES → W.lane result i
        ≡ (is_natural negative (lane_bits W.lane file.now base.now i) number && has_digit negative (last_or Zero (lane_bits W.lane file.now base.now i))) }
{
    lanes_of_natural(negative, file, base, number).and(lanes_of_digit(
        negative,
        top_bit(file, base),
    ))
}

/// The lanes in which all bits of the base are known, and they, or where it is inverted their inverses, are those of this number.
fn lanes_of_natural<W: Word>(inverted: bool, file: &PlaneFile<W>, base: &[u32], number: u128) -> W
    requires { All (λ slot. slot < length file.now) base.now }
    ensures { (i : ℕ) → i < W.LANES → W.lane result i ≡ is_natural inverted (lane_bits W.lane file.now base.now i) number }
{
    let mut lanes = W::all();
    let mut left = number;
    for slot in base {
        let one = (left % 2 == 1) != inverted;
        lanes = lanes.and(lanes_of_digit(one, file.load(*slot)));
        left /= 2;
    }
    if left == 0 { lanes } else { W::none() }
}

/// The lanes that are 1, or those that are 0.
#[inline]
fn lanes_of_digit<W: Word>(one: bool, pair: Pair<W>) -> W
    ensures { (i : ℕ) → i < W.LANES → W.lane result i ≡ has_digit one (pair_lane W.lane pair i) }
{
    if one { pair.one() } else { pair.not().one() }
}

/// The most significant bit of a vector, and 0 where it has none.
fn top_bit<W: Word>(file: &PlaneFile<W>, a: &[u32]) -> Pair<W>
    requires { All (λ slot. slot < length file.now) a.now }
    ensures { (i : ℕ) → i < W.LANES → pair_lane W.lane result i ≡ last_or Zero (lane_bits W.lane file.now a.now i) }
{
    filling_law::<W>();
    let width = a.len();
    if 0 < width {
        file.load(a[width - 1])
    } else {
        Pair::of_bit(Bit4::Zero)
    }
}

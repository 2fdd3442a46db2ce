//! Selects and writes by an index of the declared range.

ghost use Rattle.std.specs.Prelude.{◌≡◌, ◌≤◌, ◌<◌, ◌+◌, ◌*◌, ◌/◌, ◌%◌, ◌^◌, ℕ, pos, negsuc, unsigned_abs, [], ◌∷◌, length, map};
ghost use Rattle.vs_four.specs.Selects.{Part, range_length, below, place_of, indices_up, indices, select, write_places, write_select, one_bit};

use crate::logic::without;
use crate::numbers::{integer, is_known, repeated};
use crate::planes::ones;
use crate::{Bit4, Bits, Range};

/// A word moved up by this many places, or down where they are negative.
fn moved(word: u64, places: i128) -> u64
    ensures up { (n : ℕ) → places ≡ pos n → result ≡ word * 2 ^ n % 2 ^ 64 }
    ensures down { (n : ℕ) → places ≡ negsuc n → result ≡ word / 2 ^ (n + 1) }
{
    let distance = places.unsigned_abs().min(64) as u32;
    if places < 0 {
        word.unbounded_shr(distance)
    } else {
        word.unbounded_shl(distance)
    }
}

/// `under` with the bits of `over` in place of its own, that of the least significant one at place
/// `start`. What falls outside of `under` is left out.
fn overlaid(under: Bits, over: Bits, start: i128) -> Bits
    ensures { result ≡ write_places under (map (below (length under)) (indices_up start (length over))) over }
{
    let kept = ones(under.len);
    let taken = moved(ones(over.len), start);
    Bits {
        value: (without(under.value, taken) | moved(over.value, start)) & kept,
        unknown: (without(under.unknown, taken) | moved(over.unknown, start)) & kept,
        len: under.len,
    }
}

/// The place from which a part's places go up.
fn start(range: Range, base: i128, up: bool, width: u32) -> i128
    requires some { 1 ≤ width }
    requires at_most_64 { width ≤ 64 }
    requires fits { unsigned_abs base < 2 ^ 64 }
    ensures places { let p : Part = record { range = range; up = up; width = width } in map (place_of range) (indices p base) ≡ map (below (range_length range)) (indices_up result width) }
    ensures fits { unsigned_abs result < 2 ^ 66 }
{
    range.place(range.lowest_index(base, up, width))
}

/// `a[base +: width]`, or `a[base -: width]` where not `up` (IEEE 1364-2005, 5.2.1): x for each index
/// out of the range, and all x where a bit of the base is unknown. The range is that of `a`, and the
/// base is a two's complement number where it is signed.
pub fn part(a: Bits, range: Range, base: Bits, signed: bool, up: bool, width: u32) -> Bits
    requires of_range { range_length range ≡ length a }
    requires some { 1 ≤ width }
    requires at_most_64 { width ≤ 64 }
    ensures { result ≡ select (record { range = range; up = up; width = width }) signed a base }
{
    let none = repeated(Bit4::X, width);
    if is_known(base) {
        overlaid(none, a, -start(range, integer(base, signed), up, width))
    } else {
        none
    }
}

/// `a[index]` (IEEE 1364-2005, 5.2.1): x where the index is out of the range, or a bit of it is
/// unknown. The range is that of `a`, and the index is a two's complement number where it is signed.
pub fn bit(a: Bits, range: Range, index: Bits, signed: bool) -> Bit4
    requires { range_length range ≡ length a }
    ensures { result ∷ [] ≡ select (one_bit range) signed a index }
{
    part(a, range, index, signed, true, 1).get(0)
}

/// `a` after `a[base +: n] = value`, or after `a[base -: n] = value` where not `up`, where the value
/// has n bits (IEEE 1364-2005, 5.2.1): what is out of the range is left out, and nothing is written
/// where a bit of the base is unknown. The range is that of `a`, and the base is a two's complement
/// number where it is signed.
pub fn write_part(a: Bits, range: Range, base: Bits, signed: bool, up: bool, value: Bits) -> Bits
    requires { range_length range ≡ length a }
    ensures { result ≡ write_select (record { range = range; up = up; width = length value }) signed a base value }
{
    if !is_known(base) {
        return a;
    }
    let place = start(range, integer(base, signed), up, value.len());
    overlaid(a, value, place)
}

/// `a` after `a[index] = value` (IEEE 1364-2005, 5.2.1): nothing is written where the index is out of
/// the range, or a bit of it is unknown. The range is that of `a`, and the index is a two's complement
/// number where it is signed.
pub fn write_bit(a: Bits, range: Range, index: Bits, signed: bool, value: Bit4) -> Bits
    requires { range_length range ≡ length a }
    ensures { result ≡ write_select (one_bit range) signed a index (value ∷ []) }
{
    write_part(a, range, index, signed, true, repeated(value, 1))
}

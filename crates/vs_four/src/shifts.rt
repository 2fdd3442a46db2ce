//! Shifts.

ghost use Rattle.std.specs.Prelude.{◌≡◌, ◌≤◌, length, IsTrue};
ghost use Rattle.vs_four.specs.Logic.{all_known};
ghost use Rattle.vs_four.specs.Shifts.{move_up, move_down, distance, shift_left, shift_right, shift_arith};
ghost use Rattle.vs_four.specs.declared.Bit4.TheVariants.{Zero};

use crate::lengths::top;
use crate::numbers::{is_known, number, repeated};
use crate::planes::{ones, unknown_digit, value_digit};
use crate::{Bit4, Bits};

/// By how many places a known amount shifts a vector of this length: at most by its length.
fn distance(len: u32, amount: Bits) -> u32
    requires { IsTrue (all_known amount) }
    ensures value { result ≡ distance len amount }
    ensures at_most { result ≤ len }
{
    if number(amount) < len as u64 {
        number(amount) as u32
    } else {
        len
    }
}

/// `a` moved this many places up, filled with 0 from below.
fn moved_up(a: Bits, places: u32) -> Bits
    requires { places ≤ length a }
    ensures { result ≡ move_up Zero places a }
{
    let kept = ones(a.len);
    Bits {
        value: a.value.unbounded_shl(places) & kept,
        unknown: a.unknown.unbounded_shl(places) & kept,
        len: a.len,
    }
}

/// `a` moved this many places down, filled with this bit from above.
fn moved_down(a: Bits, places: u32, fill: Bit4) -> Bits
    requires { places ≤ length a }
    ensures { result ≡ move_down fill places a }
{
    let above = ones(a.len) - ones(a.len).unbounded_shr(places);
    Bits {
        value: a.value.unbounded_shr(places) | (value_digit(fill) * above),
        unknown: a.unknown.unbounded_shr(places) | (unknown_digit(fill) * above),
        len: a.len,
    }
}

/// `a << amount` (IEEE 1364-2005, 5.1.12), also `a <<< amount`: all x where a bit of the amount is
/// unknown.
pub fn shift_left(a: Bits, amount: Bits) -> Bits
    ensures { result ≡ shift_left a amount }
{
    if is_known(amount) {
        moved_up(a, distance(a.len(), amount))
    } else {
        repeated(Bit4::X, a.len())
    }
}

/// `a >> amount` (IEEE 1364-2005, 5.1.12), also `a >>> amount` of an unsigned a: all x where a bit of
/// the amount is unknown.
pub fn shift_right(a: Bits, amount: Bits) -> Bits
    ensures { result ≡ shift_right a amount }
{
    if is_known(amount) {
        moved_down(a, distance(a.len(), amount), Bit4::Zero)
    } else {
        repeated(Bit4::X, a.len())
    }
}

/// `a >>> amount` of a signed a (IEEE 1364-2005, 5.1.12), filled with its top bit: all x where a bit
/// of the amount is unknown.
pub fn shift_arith(a: Bits, amount: Bits) -> Bits
    ensures { result ≡ shift_arith a amount }
{
    if is_known(amount) {
        moved_down(a, distance(a.len(), amount), top(a))
    } else {
        repeated(Bit4::X, a.len())
    }
}

//! Operators that go bit by bit, reductions, truth and equality.
//!
//! In planes 0 is (0, 0), 1 is (1, 0), x is (1, 1) and z is (0, 1), as (value, unknown).

ghost use Rattle.std.specs.Prelude.{◌≡◌, ◌≤◌, length, map, bit_and, bit_xor, ◌==◌};
ghost use Rattle.vs_four.specs.Tables.{of_bool, not_bit, and_bit, or_bit, xor_bit, xnor_bit, merge_bit};
ghost use Rattle.vs_four.specs.Logic.{map2, reduce_and, reduce_or, reduce_xor, truth, equal, identical, matches_z, matches_x};

use crate::planes::ones;
use crate::{Bit4, Bits};

/// The ones of a word that a mask hasn't.
pub(crate) fn without(word: u64, mask: u64) -> u64
    ensures value { result ≡ bit_xor word (bit_and word mask) }
    ensures at_most { result ≤ word }
{
    word & !mask
}

/// `~a` (IEEE 1364-2005, 5.1.10, table 5-16): of x and z it is x.
pub fn not(a: Bits) -> Bits
    ensures { result ≡ map not_bit a }
{
    Bits {
        value: (a.value ^ ones(a.len)) | a.unknown,
        unknown: a.unknown,
        len: a.len,
    }
}

/// `a & b` (IEEE 1364-2005, 5.1.10, table 5-12).
pub fn and(a: Bits, b: Bits) -> Bits
    requires { length a ≡ length b }
    ensures { result ≡ map2 and_bit a b }
{
    let not_zero = (a.value | a.unknown) & (b.value | b.unknown);
    Bits {
        value: not_zero,
        unknown: not_zero & (a.unknown | b.unknown),
        len: a.len,
    }
}

/// `a | b` (IEEE 1364-2005, 5.1.10, table 5-13).
pub fn or(a: Bits, b: Bits) -> Bits
    requires { length a ≡ length b }
    ensures { result ≡ map2 or_bit a b }
{
    let one = without(a.value, a.unknown) | without(b.value, b.unknown);
    let unknown = without(a.unknown | b.unknown, one);
    Bits {
        value: one | unknown,
        unknown,
        len: a.len,
    }
}

/// `a ^ b` (IEEE 1364-2005, 5.1.10, table 5-14).
pub fn xor(a: Bits, b: Bits) -> Bits
    requires { length a ≡ length b }
    ensures { result ≡ map2 xor_bit a b }
{
    let unknown = a.unknown | b.unknown;
    Bits {
        value: (a.value ^ b.value) | unknown,
        unknown,
        len: a.len,
    }
}

/// `a ~^ b` (IEEE 1364-2005, 5.1.10, table 5-15).
pub fn xnor(a: Bits, b: Bits) -> Bits
    requires { length a ≡ length b }
    ensures { result ≡ map2 xnor_bit a b }
{
    let unknown = a.unknown | b.unknown;
    Bits {
        value: (a.value ^ b.value ^ ones(a.len)) | unknown,
        unknown,
        len: a.len,
    }
}

/// `c ? a : b` where the truth of c is unknown (IEEE 1364-2005, 5.1.13, table 5-21): equal known
/// bits stay, any other place is x.
pub fn merge(a: Bits, b: Bits) -> Bits
    requires { length a ≡ length b }
    ensures { result ≡ map2 merge_bit a b }
{
    let unknown = a.unknown | b.unknown | (a.value ^ b.value);
    Bits {
        value: a.value | unknown,
        unknown,
        len: a.len,
    }
}

/// `&a` (IEEE 1364-2005, 5.1.11): 0 where some bit is 0, else x where some bit is unknown, else 1.
pub fn reduce_and(a: Bits) -> Bit4
    ensures { result ≡ reduce_and a }
{
    if a.value | a.unknown != ones(a.len) {
        Bit4::Zero
    } else if a.unknown != 0 {
        Bit4::X
    } else {
        Bit4::One
    }
}

/// `|a` (IEEE 1364-2005, 5.1.11): 1 where some bit is 1, else x where some bit is unknown, else 0.
pub fn reduce_or(a: Bits) -> Bit4
    ensures { result ≡ reduce_or a }
{
    if without(a.value, a.unknown) != 0 {
        Bit4::One
    } else if a.unknown != 0 {
        Bit4::X
    } else {
        Bit4::Zero
    }
}

/// `^a` (IEEE 1364-2005, 5.1.11): x where some bit is unknown, else whether the number of ones is odd.
pub fn reduce_xor(a: Bits) -> Bit4
    ensures { result ≡ reduce_xor a }
{
    if a.unknown != 0 {
        Bit4::X
    } else if a.value.count_ones() % 2 == 1 {
        Bit4::One
    } else {
        Bit4::Zero
    }
}

/// The truth of a vector (IEEE 1364-2005, 5.1.9): 1 where some bit is 1, 0 where all bits are 0, else x.
pub fn truth(a: Bits) -> Bit4
    ensures { result ≡ truth a }
{
    reduce_or(a)
}

/// `a == b` (IEEE 1364-2005, 5.1.8): 0 where two known bits differ, whatever stands elsewhere, else x
/// where a bit is unknown, else 1.
pub fn equal(a: Bits, b: Bits) -> Bit4
    requires { length a ≡ length b }
    ensures { result ≡ equal a b }
{
    reduce_and(xnor(a, b))
}

/// 1 where no place of a word tells two vectors apart, else 0.
fn without_difference(difference: u64) -> Bit4
    ensures { result ≡ of_bool (difference == 0) }
{
    if difference == 0 {
        Bit4::One
    } else {
        Bit4::Zero
    }
}

/// `a === b` (IEEE 1364-2005, 5.1.8), and the match of `case` (9.5): all bits as written, x and z too.
pub fn same(a: Bits, b: Bits) -> Bit4
    requires { length a ≡ length b }
    ensures { result ≡ identical a b }
{
    without_difference((a.value ^ b.value) | (a.unknown ^ b.unknown))
}

/// The match of `casez` (IEEE 1364-2005, 9.5.1): as `case`, but a z on either side matches any bit.
pub fn matches_z(a: Bits, b: Bits) -> Bit4
    requires { length a ≡ length b }
    ensures { result ≡ matches_z a b }
{
    let z = without(a.unknown, a.value) | without(b.unknown, b.value);
    without_difference(without((a.value ^ b.value) | (a.unknown ^ b.unknown), z))
}

/// The match of `casex` (IEEE 1364-2005, 9.5.1): as `case`, but an x or z on either side matches any
/// bit.
pub fn matches_x(a: Bits, b: Bits) -> Bit4
    requires { length a ≡ length b }
    ensures { result ≡ matches_x a b }
{
    without_difference(without(a.value ^ b.value, a.unknown | b.unknown))
}

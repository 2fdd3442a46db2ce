//! Arithmetic and comparison.

ghost use Rattle.std.specs.Prelude.{◌≡◌, ◌≤◌, ◌^◌, length, replicate, ◌<◌, ◌-◌, IsTrue, unsigned_abs, ◌==◌, ◌%◌, ◌*◌, Some, None, IfSome, if◌then◌else◌};
ghost use Rattle.vs_four.specs.Logic.{all_known};
ghost use Rattle.vs_four.specs.Numbers.{number, integer, bits_of, bits_of_integer, add, sub, mul, neg, less, has_quotient, div, rem, reciprocal, pow, log_up, clog2};

use crate::lengths::top;
use crate::logic::not;
use crate::planes::{ones, unknown_digit, value_digit};
use crate::{Bit4, Bits};

/// Whether no bit is x or z.
pub fn is_known(a: Bits) -> bool
    ensures { result ≡ all_known a }
{
    a.unknown == 0
}

/// This bit at each place.
pub fn repeated(bit: Bit4, len: u32) -> Bits
    requires some { 1 ≤ len }
    requires at_most_64 { len ≤ 64 }
    ensures { result ≡ replicate len bit }
{
    Bits {
        value: value_digit(bit) * ones(len),
        unknown: unknown_digit(bit) * ones(len),
        len,
    }
}

/// The low bits of a number.
pub fn of_number(len: u32, number: u64) -> Bits
    requires some { 1 ≤ len }
    requires at_most_64 { len ≤ 64 }
    ensures { result ≡ bits_of len number }
{
    Bits {
        value: number & ones(len),
        unknown: 0,
        len,
    }
}

/// The unsigned number of known bits.
pub(crate) fn number(a: Bits) -> u64
    requires { IsTrue (all_known a) }
    ensures { result ≡ number a }
{
    a.value
}

/// The number of known bits, in two's complement where it is signed.
pub fn integer(a: Bits, signed: bool) -> i128
    requires { IsTrue (all_known a) }
    ensures value { result ≡ integer signed a }
    ensures fits { unsigned_abs result < 2 ^ 64 }
{
    let unsigned = number(a) as i128;
    if signed && top(a) == Bit4::One {
        unsigned - (ones(a.len()) as i128 + 1)
    } else {
        unsigned
    }
}

/// `a + b` modulo 2 to the length (IEEE 1364-2005, 5.1.5): all x where a bit is unknown.
pub fn add(a: Bits, b: Bits) -> Bits
    requires { length a ≡ length b }
    ensures { result ≡ add a b }
{
    if is_known(a) && is_known(b) {
        of_number(a.len(), number(a).wrapping_add(number(b)))
    } else {
        repeated(Bit4::X, a.len())
    }
}

/// `a - b` modulo 2 to the length (IEEE 1364-2005, 5.1.5): all x where a bit is unknown.
pub fn sub(a: Bits, b: Bits) -> Bits
    requires { length a ≡ length b }
    ensures { result ≡ sub a b }
{
    if is_known(a) && is_known(b) {
        of_number(a.len(), number(a).wrapping_sub(number(b)))
    } else {
        repeated(Bit4::X, a.len())
    }
}

/// `a * b` modulo 2 to the length (IEEE 1364-2005, 5.1.5): all x where a bit is unknown.
pub fn mul(a: Bits, b: Bits) -> Bits
    requires { length a ≡ length b }
    ensures { result ≡ mul a b }
{
    if is_known(a) && is_known(b) {
        of_number(a.len(), number(a).wrapping_mul(number(b)))
    } else {
        repeated(Bit4::X, a.len())
    }
}

/// `-a` modulo 2 to the length (IEEE 1364-2005, 5.1.5): all x where a bit is unknown.
pub fn neg(a: Bits) -> Bits
    ensures { result ≡ neg a }
{
    if is_known(a) {
        of_number(a.len(), number(a).wrapping_neg())
    } else {
        repeated(Bit4::X, a.len())
    }
}

/// `a < b` (IEEE 1364-2005, 5.1.7), of two's complement numbers where it is signed: x where a bit is
/// unknown.
pub fn less(a: Bits, b: Bits, signed: bool) -> Bit4
    requires { length a ≡ length b }
    ensures { result ≡ less signed a b }
{
    if !(is_known(a) && is_known(b)) {
        Bit4::X
    } else if integer(a, signed) < integer(b, signed) {
        Bit4::One
    } else {
        Bit4::Zero
    }
}

/// The low bits of a number with a sign, in two's complement.
fn of_integer(len: u32, number: i128) -> Bits
    requires some { 1 ≤ len }
    requires at_most_64 { len ≤ 64 }
    requires fits { unsigned_abs number < 2 ^ 64 }
    ensures { result ≡ bits_of_integer len number }
{
    if number < 0 {
        not(of_number(len, !number as u64))
    } else {
        of_number(len, number as u64)
    }
}

/// Whether the bits of both operands are known and the second is not 0.
fn has_quotient(a: Bits, b: Bits) -> bool
    ensures { result ≡ has_quotient a b }
{
    is_known(a) && is_known(b) && number(b) != 0
}

/// `a / b` rounded towards zero (IEEE 1364-2005, 5.1.5), of two's complement numbers where it is
/// signed: None where a bit is unknown or the divisor is 0.
pub fn div(a: Bits, b: Bits, signed: bool) -> Option<Bits>
    requires { length a ≡ length b }
    ensures { result ≡ div signed a b }
{
    if has_quotient(a, b) {
        let quotient = integer(a, signed) / integer(b, signed);
        Some(of_integer(a.len(), quotient))
    } else {
        None
    }
}

/// `a % b` with the sign of the first operand (IEEE 1364-2005, 5.1.5), of two's complement numbers
/// where it is signed: None where a bit is unknown or the divisor is 0.
pub fn rem(a: Bits, b: Bits, signed: bool) -> Option<Bits>
    requires { length a ≡ length b }
    ensures { result ≡ rem signed a b }
{
    if has_quotient(a, b) {
        let remainder = integer(a, signed) % integer(b, signed);
        Some(of_integer(a.len(), remainder))
    } else {
        None
    }
}

/// A power times a number where the exponent is odd, modulo 2^64.
fn times_if_odd(power: u64, number: u64, exponent: u64) -> u64
    ensures { result ≡ (if exponent % 2 == 1 then power * number % 2 ^ 64 else power) }
{
    if exponent % 2 == 1 {
        power.wrapping_mul(number)
    } else {
        power
    }
}

/// A number to a power modulo 2^64, by squares of the number.
fn wrapping_power(base: u64, exponent: u64) -> u64
    ensures { result ≡ base ^ exponent % 2 ^ 64 }
{
    let mut power: u64 = 1;
    let mut square = base;
    let mut left = exponent;
    while left > 0 {
        power = times_if_odd(power, square, left);
        square = square.wrapping_mul(square);
        left /= 2;
    }
    power
}

/// A base to a negative power, whose exponent is even or odd (IEEE 1364-2005, table 5-6): None for 0.
fn reciprocal(base: i128, exponent: u64) -> Option<i128>
    ensures value { result ≡ reciprocal base exponent }
    ensures fits { IfSome result (λ z. unsigned_abs z ≤ 1) }
{
    match base {
        0 => None,
        1 => Some(1),
        -1 => Some(if exponent % 2 == 0 { 1 } else { -1 }),
        _ => Some(0),
    }
}

/// `a ** b` modulo 2 to the length of `a` (IEEE 1364-2005, 5.1.5, table 5-6), where each operand is signed or not by itself: None where a
/// bit is unknown, or where the base is 0 and the exponent negative.
pub fn pow(a: Bits, b: Bits, signed: bool, exponent_signed: bool) -> Option<Bits>
    ensures { result ≡ pow signed exponent_signed a b }
{
    if !(is_known(a) && is_known(b)) {
        return None;
    }
    let exponent = integer(b, exponent_signed);
    if exponent < 0 {
        let value = reciprocal(integer(a, signed), exponent.unsigned_abs() as u64)?;
        Some(of_integer(a.len(), value))
    } else {
        Some(of_number(a.len(), wrapping_power(number(a), exponent as u64)))
    }
}

/// `$clog2` (IEEE 1364-2005, 17.11.1): 0 for 0, else the least n for which 2 to the n reaches the
/// unsigned number. None where a bit is unknown.
pub fn clog2(a: Bits) -> Option<u32>
    ensures { result ≡ clog2 a }
{
    if !is_known(a) {
        None
    } else if number(a) < 2 {
        Some(0)
    } else {
        Some(64 - (number(a) - 1).leading_zeros())
    }
}

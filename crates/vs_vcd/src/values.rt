//! The line of a value, written into a block of bytes.

ghost use Rattle.std.specs.Prelude.{◌≡◌, ◌≤◌, ◌+◌, ℕ, [], ◌∷◌, ◌++◌, length, map, reverse, take};
ghost use Rattle.vs_vcd.specs.Values.{digit_code, shortest, tail_text, value_line};

use crate::eights::put_known;
use crate::fours::put_digits;
use crate::shortest::{known_count, shown_count};
use crate::tail::Tail;
use vs_four::{Bit4, Bits};

/// How many bytes a value's line takes at most, with those behind it that `put_value` may change.
pub const LINE_ROOM: usize = 80;

/// Writes the line of a signal's value behind the first bytes of a block, so many, and answers where it ends: the digit of one bit, or
/// `b` and the digits of more in their shortest form, and the signal's identifier code (IEEE 1364-2005, 18.2.2). Bytes behind the line
/// may change too.
#[inline]
pub fn put_value(block: &mut [u8], at: usize, value: Bits, tail: &Tail) -> usize
    requires room { at + LINE_ROOM ≤ length block.old }
    ensures text { (number : ℕ) → tail.now ≡ tail_text number → take result block.new ≡ take at block.old ++ value_line number value }
    ensures within { result ≤ at + LINE_ROOM }
    ensures long { length block.new ≡ length block.old }
{
    if value.len() == 1 {
        return put_bit(block, at, value.get(0), tail);
    }
    block[at] = b'b';
    let end = put_shortest(block, at + 1, value);
    put_tail(block, end, tail)
}

/// Writes the line of a signal of one bit behind the first bytes of a block, so many, and answers where it ends, as `put_value` does of
/// the bit alone.
#[inline]
pub fn put_bit(block: &mut [u8], at: usize, bit: Bit4, tail: &Tail) -> usize
    requires room { at + 8 ≤ length block.old }
    ensures text { (number : ℕ) → tail.now ≡ tail_text number → take result block.new ≡ take at block.old ++ value_line number (bit ∷ []) }
    ensures within { result ≤ at + 7 }
    ensures long { length block.new ≡ length block.old }
{
    // The digit takes the place of the tail's blank.
    let end = put_tail(block, at, tail);
    block[at] = digit(bit);
    end
}

/// Writes a tail at a place of the block, and answers where it ends. Bytes behind it may change too.
#[inline]
fn put_tail(block: &mut [u8], at: usize, tail: &Tail) -> usize
    requires room { at + 8 ≤ length block.old }
    ensures text { take result block.new ≡ take at block.old ++ tail.now }
    ensures within { result ≤ at + 7 }
    ensures long { length block.new ≡ length block.old }
{
    let bytes = tail.bytes;
    block[at..at + 8].copy_from_slice(&bytes);
    at + tail.len as usize
}

/// Writes the digits of a value in their shortest form at a place of the block, and answers where they end. Bytes behind them may change
/// too.
#[inline]
fn put_shortest(block: &mut [u8], at: usize, value: Bits) -> usize
    requires room { at + 71 ≤ length block.old }
    ensures text { take result block.new ≡ take at block.old ++ map digit_code (shortest (reverse value)) }
    ensures within { result ≤ at + 64 }
    ensures long { length block.new ≡ length block.old }
{
    let (number, unknown) = value.planes();
    if unknown == 0 {
        let count = known_count(number);
        put_known(block, at, number, count);
        at + count as usize
    } else {
        let count = shown_count(value);
        put_digits(block, at, number, unknown, count);
        at + count as usize
    }
}

/// The digit of a bit.
#[inline]
fn digit(bit: Bit4) -> u8
    ensures { result ≡ digit_code bit }
{
    match bit {
        Bit4::Zero => b'0',
        Bit4::One => b'1',
        Bit4::X => b'x',
        Bit4::Z => b'z',
    }
}

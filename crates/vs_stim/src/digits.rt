//! The digits of one field.

ghost use Rattle.std.specs.Prelude.{◌≡◌, ◌+◌, ◌<◌, ◌≤◌, ◌^◌, [], ◌∷◌, length, take, IfSome};
ghost use Rattle.vs_stim.specs.Fields.{is_blank};
ghost use Rattle.vs_four.specs.Planes.{value_digit, unknown_digit, bits_of_planes};
ghost use Rattle.vs_stim.specs.Vectors.{digit, bits_of};

use std::marker::Model;
use vs_four::{Bit4, Bits};

/// Up to 64 digits of a field, read most significant first, as the planes of `Bits`. Contracts see
/// the bits, least significant first.
#[derive(Drop)]
pub(crate) struct Digits {
    value: u64,
    unknown: u64,
    len: u32,
}

impl Model for Digits {
    ghost use Rattle.std.specs.Prelude.{List, ◌≤◌, ◌<◌, ◌^◌};
    ghost use Rattle.vs_four.specs.declared.Bit4.{Bit4};
    ghost use Rattle.vs_four.specs.Planes.{bits_of_planes};

    ghost Value = { List Bit4 };

    ghost view = { λ d. bits_of_planes d.len d.value d.unknown };

    ghost invariant = { λ d. (d.len ≤ 64) × (d.value < 2 ^ d.len) × (d.unknown < 2 ^ d.len) };
}

impl Digits {
    ghost use Rattle.vs_stim.specs.Row.{ReadsOn};

    /// No digits.
    pub(crate) fn new() -> Digits
        ensures { result ≡ [] }
    {
        Digits {
            value: 0,
            unknown: 0,
            len: 0,
        }
    }

    /// Drops the digits.
    pub(crate) fn clear(&mut self)
        ensures { self.new ≡ [] }
    {
        *self = Digits::new();
    }

    /// How many digits there are.
    pub(crate) fn len(&self) -> usize
        ensures count { result ≡ length self.now }
        ensures at_most_64 { result ≤ 64 }
    {
        self.len as usize
    }

    /// Reads one digit more, below those before it.
    pub(crate) fn push(&mut self, bit: Bit4)
        requires { length self.old < 64 }
        ensures { self.new ≡ bit ∷ self.old }
    {
        let (value, unknown) = planes_of(bit);
        self.value = 2 * self.value + value;
        self.unknown = 2 * self.unknown + unknown;
        self.len += 1;
    }

    /// Reads the digits `0` and `1` that these bytes begin with, below those before them, at most so
    /// many, and answers how many: eight at a time while there are eight, then one by one.
    pub(crate) fn read(&mut self, bytes: &[u8], most: usize) -> usize
        requires { length self.old + most ≤ 64 }
        ensures few { result ≤ most }
        ensures within { result ≤ length bytes.now }
        ensures count { length self.new ≡ length self.old + result }
        ensures reads { ReadsOn bytes.now result self.old self.new }
    {
        let count = self.read_eights(bytes, most);
        let more = self.read_singly(&bytes[count..], most - count);
        count + more
    }

    /// The same of as many whole eights of digits as the bytes begin with, at most so many digits.
    #[inline]
    fn read_eights(&mut self, bytes: &[u8], most: usize) -> usize
        requires { length self.old + most ≤ 64 }
        ensures few { result ≤ most }
        ensures within { result ≤ length bytes.now }
        ensures count { length self.new ≡ length self.old + result }
        ensures reads { ReadsOn bytes.now result self.old self.new }
    {
        let mut value = self.value;
        let mut unknown = self.unknown;
        let mut count = 0;
        while count + 8 <= most {
            let Some(eight) = eight_digits(&bytes[count..]) else {
                break;
            };
            value = 256 * value + eight;
            unknown *= 256;
            count += 8;
        }
        self.value = value;
        self.unknown = unknown;
        self.len += count as u32;
        count
    }

    /// And the same one by one. No branch depends on which of the two a digit is.
    #[inline]
    fn read_singly(&mut self, bytes: &[u8], most: usize) -> usize
        requires { length self.old + most ≤ 64 }
        ensures few { result ≤ most }
        ensures within { result ≤ length bytes.now }
        ensures count { length self.new ≡ length self.old + result }
        ensures reads { ReadsOn bytes.now result self.old self.new }
    {
        let mut value = self.value;
        let mut unknown = self.unknown;
        let mut count = 0;
        while count < most && count < bytes.len() {
            let digit = plain_digit(bytes[count]);
            if digit > 1 {
                break;
            }
            value = 2 * value + digit;
            unknown *= 2;
            count += 1;
        }
        self.value = value;
        self.unknown = unknown;
        self.len += count as u32;
        count
    }

    /// The value of the digits.
    pub(crate) fn bits(&self) -> Bits
        requires { 1 ≤ length self.now }
        ensures { result ≡ self.now }
    {
        Bits::of_planes(self.len, self.value, self.unknown)
    }
}

/// A bit's digit in each plane of `Bits`.
fn planes_of(bit: Bit4) -> (u64, u64)
    ensures value { result.0 ≡ value_digit bit }
    ensures unknown { result.1 ≡ unknown_digit bit }
{
    match bit {
        Bit4::Zero => (0, 0),
        Bit4::One => (1, 0),
        Bit4::X => (1, 1),
        Bit4::Z => (0, 1),
    }
}

/// The bit that a digit stands for, if the byte is a digit.
pub(crate) fn bit_of(byte: u8) -> Option<Bit4>
    ensures { result ≡ digit byte }
{
    match byte {
        b'0' | b'1' => Some(if byte == b'1' { Bit4::One } else { Bit4::Zero }),
        b'x' | b'X' => Some(Bit4::X),
        b'z' | b'Z' => Some(Bit4::Z),
        _ => None,
    }
}

/// The value of a digit `0` or `1`, and more than 1 for every other byte.
#[inline]
pub(crate) fn plain_digit(byte: u8) -> u64
    ensures zero { result ≡ 0 → byte ≡ 48 }
    ensures one { result ≡ 1 → byte ≡ 49 }
{
    byte.wrapping_sub(b'0') as u64
}

/// The upper seven bits of each byte of a word.
const UPPER_BITS: u64 = 0xFEFE_FEFE_FEFE_FEFE;

/// Eight bytes `0`.
const ZERO_DIGITS: u64 = 0x3030_3030_3030_3030;

/// The number by which the lowest bit of each byte of a word is moved into its highest byte, that of the lowest byte highest.
const GATHER: u64 = 0x8040_2010_0804_0201;

/// The value of the eight digits `0` and `1` that these bytes begin with, most significant first, where they do. They are read as one word.
#[inline]
fn eight_digits(bytes: &[u8]) -> Option<u64>
    ensures digits { IfSome result (λ value. bits_of (take 8 bytes.now) ≡ Some (bits_of_planes 8 value 0)) }
    ensures below { IfSome result (λ value. value < 2 ^ 8) }
{
    let word = u64::from_le_bytes(*bytes.first_chunk()?);
    if word & UPPER_BITS != ZERO_DIGITS {
        return None;
    }
    let digits = word - ZERO_DIGITS;
    Some(digits.wrapping_mul(GATHER) >> 56)
}

/// Whether the byte is a space or a tab.
pub(crate) fn is_blank(byte: u8) -> bool
    ensures { result ≡ is_blank byte }
{
    byte == b' ' || byte == b'\t'
}

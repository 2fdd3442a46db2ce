//! A vector of four-valued bits, kept as two words.

ghost use Rattle.std.specs.Prelude.{◌≡◌, ◌≤◌, ◌<◌, ◌^◌, ◌-◌, length, slice_get};
ghost use Rattle.vs_four.specs.Planes.{decode, value_digit, unknown_digit, bits_of_planes};

use crate::Bit4;
use std::marker::Model;

/// The value of a vector of 1 to 64 bits (IEEE 1364-2005, 4.3), least significant bit first.
#[derive(Clone, Copy, Debug)]
pub struct Bits {
    pub(crate) value: u64,
    pub(crate) unknown: u64,
    pub(crate) len: u32,
}

impl Model for Bits {
    ghost use Rattle.std.specs.Prelude.{◌≤◌, ◌<◌, ◌^◌, List, length};
    ghost use Rattle.vs_four.specs.declared.Bit4.{Bit4};
    ghost use Rattle.vs_four.specs.Planes.{bits_of_planes, value_plane, unknown_plane};
    ghost use Rattle.vs_four.specs.PlanesBack.{length-planes, value_plane-planes, unknown_plane-planes};

    ghost Value = { List Bit4 };

    ghost view = { λ b. bits_of_planes b.len b.value b.unknown };

    ghost invariant = { λ b. (1 ≤ b.len) × (b.len ≤ 64) × (b.value < 2 ^ b.len) × (b.unknown < 2 ^ b.len) };

    ghost inverse = { λ bs. record { value = value_plane bs; unknown = unknown_plane bs; len = length bs } };

    ghost inverse_ok = { λ b h i. record {
      value = value_plane-planes b.len b.value b.unknown h.2 i;
      unknown = unknown_plane-planes b.len b.value b.unknown h.3 i;
      len = length-planes b.len b.value b.unknown i;
    } };
}

impl Bits {
    /// The vector of these bits, least significant first.
    pub fn of(list: &[Bit4]) -> Bits
        requires some { 1 ≤ length list.now }
        requires at_most_64 { length list.now ≤ 64 }
        ensures { result ≡ list.now }
    {
        let mut value = 0;
        let mut unknown = 0;
        let mut place = list.len();
        while place > 0 {
            place -= 1;
            value = value_digit(list[place]) + 2 * value;
            unknown = unknown_digit(list[place]) + 2 * unknown;
        }
        Bits {
            value,
            unknown,
            len: list.len() as u32,
        }
    }

    /// The vector of the low bits of two planes, where 0 is (0, 0), 1 is (1, 0), z is (0, 1) and x is (1, 1), as value and unknown.
    #[inline]
    pub fn of_planes(len: u32, value: u64, unknown: u64) -> Bits
        requires some { 1 ≤ len }
        requires at_most_64 { len ≤ 64 }
        ensures { result ≡ bits_of_planes len value unknown }
    {
        let kept = ones(len);
        Bits {
            value: value & kept,
            unknown: unknown & kept,
            len,
        }
    }

    /// The two planes, value and unknown, as `of_planes` takes them. Past the last bit they are 0.
    #[inline]
    pub fn planes(&self) -> (u64, u64)
        ensures vector { bits_of_planes (length self.now) result.0 result.1 ≡ self.now }
        ensures value_below { result.0 < 2 ^ length self.now }
        ensures unknown_below { result.1 < 2 ^ length self.now }
    {
        (self.value, self.unknown)
    }

    /// How many bits there are, from 1 to 64.
    #[inline]
    pub fn len(&self) -> u32
        ensures length { result ≡ length self.now }
        ensures some { 1 ≤ result }
        ensures at_most_64 { result ≤ 64 }
    {
        self.len
    }

    /// Bit n, where bit 0 is the least significant one.
    #[inline]
    pub fn get(&self, n: u32) -> Bit4
        requires { n < length self.now }
        ensures { slice_get self.now n ≡ Some result }
    {
        bit_of((self.value >> n) & 1, (self.unknown >> n) & 1)
    }
}

/// A word with this many ones at its low end.
#[inline]
pub(crate) fn ones(len: u32) -> u64
    requires some { 1 ≤ len }
    requires at_most_64 { len ≤ 64 }
    ensures { result ≡ 2 ^ len - 1 }
{
    u64::MAX >> (64 - len)
}

/// The bit of these two digits.
pub(crate) fn bit_of(value: u64, unknown: u64) -> Bit4
    ensures { result ≡ decode value unknown }
{
    match (value, unknown) {
        (0, 0) => Bit4::Zero,
        (0, _) => Bit4::Z,
        (_, 0) => Bit4::One,
        (_, _) => Bit4::X,
    }
}

/// The bit's digit in the first plane.
pub(crate) fn value_digit(bit: Bit4) -> u64
    ensures { result ≡ value_digit bit }
{
    match bit {
        Bit4::Zero | Bit4::Z => 0,
        Bit4::One | Bit4::X => 1,
    }
}

/// The bit's digit in the second plane.
pub(crate) fn unknown_digit(bit: Bit4) -> u64
    ensures { result ≡ unknown_digit bit }
{
    match bit {
        Bit4::Zero | Bit4::One => 0,
        Bit4::X | Bit4::Z => 1,
    }
}

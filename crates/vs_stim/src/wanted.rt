//! The digits that an output is wanted to have.

ghost use Rattle.std.specs.Prelude.{◌≡◌, ◌+◌, ◌≤◌, ◌<◌, ◌*◌, ◌^◌, [], ◌∷◌, length};
ghost use Rattle.vs_four.specs.Planes.{bits_of_planes};
ghost use Rattle.vs_stim.specs.Wanted.{marked, exactly};
ghost use Rattle.vs_stim.specs.Vectors.{wanted_digit};

use crate::digits::{Digits, bit_of};
use std::marker::Model;
use vs_four::{Bit4, Bits};

/// A digit that an output is wanted to have: exactly this bit, or any.
#[derive(Clone, Copy, PartialEq, Eq, Debug)]
pub enum Digit {
    Exactly(Bit4),
    Any,
}

/// The 1 to 64 digits that an output is wanted to have, as planes. Contracts see them as a list, least significant first.
#[derive(Drop)]
pub struct Wanted {
    bits: Bits,
    any: u64,
}

impl Model for Wanted {
    ghost use Rattle.std.specs.Prelude.{List};
    ghost use Rattle.vs_stim.specs.declared.wanted.Digit.{Digit};
    ghost use Rattle.vs_stim.specs.Wanted.{marked};

    ghost Value = { List Digit };

    ghost view = { λ w. marked w.bits w.any };
}

impl Wanted {
    /// So many digits, which stand for any bit.
    pub(crate) fn any(len: u32) -> Wanted
        requires some { 1 ≤ len }
        requires at_most_64 { len ≤ 64 }
        ensures { length result ≡ len }
    {
        Wanted {
            bits: Bits::of_planes(len, 0, 0),
            any: u64::MAX,
        }
    }

    /// These bits.
    #[inline]
    pub(crate) fn exactly(bits: Bits) -> Wanted
        ensures { result ≡ exactly bits }
    {
        Wanted { bits, any: 0 }
    }

    /// The planes of the bits, as those of `Bits`, and a word with a 1 for each digit that stands for any bit. The bits of such digits say nothing.
    pub fn planes(&self) -> (u64, u64, u64)
        ensures { self.now ≡ marked (bits_of_planes (length self.now) result.0 result.1) result.2 }
    {
        let (value, unknown) = self.bits.planes();
        (value, unknown, self.any)
    }
}

/// Up to 64 digits of a field, read most significant first. Contracts see them as a list, least significant first.
#[derive(Drop)]
pub(crate) struct WantedDigits {
    bits: Digits,
    any: u64,
}

impl Model for WantedDigits {
    ghost use Rattle.std.specs.Prelude.{List, ◌<◌, ◌^◌, length};
    ghost use Rattle.vs_stim.specs.declared.wanted.Digit.{Digit};
    ghost use Rattle.vs_stim.specs.Wanted.{marked};

    ghost Value = { List Digit };

    ghost view = { λ w. marked w.bits w.any };

    ghost invariant = { λ w. w.any < 2 ^ length w.bits };
}

impl WantedDigits {
    ghost use Rattle.vs_stim.specs.Wanted.{ReadsWanted};

    /// No digits.
    pub(crate) fn new() -> WantedDigits
        ensures { result ≡ [] }
    {
        WantedDigits {
            bits: Digits::new(),
            any: 0,
        }
    }

    /// Drops the digits.
    pub(crate) fn clear(&mut self)
        ensures { self.new ≡ [] }
    {
        *self = WantedDigits::new();
    }

    /// How many digits there are.
    pub(crate) fn len(&self) -> usize
        ensures count { result ≡ length self.now }
        ensures at_most_64 { result ≤ 64 }
    {
        self.bits.len()
    }

    /// Reads one digit more, below those before it.
    pub(crate) fn push(&mut self, digit: Digit)
        requires { length self.old < 64 }
        ensures { self.new ≡ digit ∷ self.old }
    {
        match digit {
            Digit::Exactly(bit) => {
                self.bits.push(bit);
                self.any *= 2;
            }
            Digit::Any => {
                self.bits.push(Bit4::X);
                self.any = 2 * self.any + 1;
            }
        }
    }

    /// Reads the digits `0` and `1` that these bytes begin with, below those before them, at most so many, and answers how many.
    pub(crate) fn read(&mut self, bytes: &[u8], most: usize) -> usize
        requires { length self.old + most ≤ 64 }
        ensures few { result ≤ most }
        ensures within { result ≤ length bytes.now }
        ensures count { length self.new ≡ length self.old + result }
        ensures reads { ReadsWanted bytes.now result self.old self.new }
    {
        let count = self.bits.read(bytes, most);
        if self.any != 0 {
            self.any <<= count;
        }
        count
    }

    /// The digits.
    pub(crate) fn wanted(&self) -> Wanted
        requires { 1 ≤ length self.now }
        ensures { result ≡ self.now }
    {
        Wanted {
            bits: self.bits.bits(),
            any: self.any,
        }
    }
}

/// The digit that a byte stands for, if it is one.
pub(crate) fn wanted_of(byte: u8) -> Option<Digit>
    ensures { result ≡ wanted_digit byte }
{
    if byte == b'-' {
        return Some(Digit::Any);
    }
    match bit_of(byte) {
        Some(bit) => Some(Digit::Exactly(bit)),
        None => None,
    }
}

//! The digits that an output was wanted to have.

ghost use Rattle.std.specs.Prelude.{◌≡◌, ◌≤◌, ◌<◌, length, slice_get, Some};
ghost use Rattle.vs_misses.specs.Missed.{is_met, are_met};
ghost use Rattle.vs_misses.specs.Texts.{wanted_text};

use crate::text::{DigitText, digit_byte};
use std::marker::Model;
use vs_four::{Bit4, Bits};
use vs_stim::{Digit, Wanted};

/// 1 to 64 digits that an output was wanted to have, as planes. Contracts see them as a list, least significant first.
#[derive(Drop)]
pub(crate) struct Kept {
    bits: Bits,
    any: u64,
}

impl Model for Kept {
    ghost use Rattle.std.specs.Prelude.{List, length, ◌≤◌};
    ghost use Rattle.vs_stim.specs.declared.wanted.Digit.{Digit};
    ghost use Rattle.vs_stim.specs.Wanted.{marked};

    ghost Value = { List Digit };

    ghost view = { λ k. marked k.bits k.any };

    ghost invariant = { λ k. length k.bits ≤ 64 };
}

impl Kept {
    /// These digits, of which there are so many.
    pub(crate) fn of(wanted: &Wanted, count: u32) -> Kept
        requires count { length wanted.now ≡ count }
        requires some { 1 ≤ count }
        requires at_most_64 { count ≤ 64 }
        ensures { result ≡ wanted.now }
    {
        let (value, unknown, any) = wanted.planes();
        Kept {
            bits: Bits::of_planes(count, value, unknown),
            any,
        }
    }

    /// How many digits there are.
    pub(crate) fn len(&self) -> u32
        ensures count { result ≡ length self.now }
        ensures at_most_64 { result ≤ 64 }
    {
        self.bits.len()
    }

    /// Digit n, where digit 0 is the least significant one.
    pub(crate) fn digit(&self, n: u32) -> Digit
        requires { n < length self.now }
        ensures { slice_get self.now n ≡ Some result }
    {
        let bit = self.bits.get(n);
        if (self.any >> n) & 1 == 1 {
            Digit::Any
        } else {
            Digit::Exactly(bit)
        }
    }

    /// Whether each digit is met by its bit.
    pub(crate) fn are_met(&self, bits: &Bits) -> bool
        requires { length bits.now ≡ length self.now }
        ensures { result ≡ are_met self.now bits.now }
    {
        for n in 0..self.len() {
            if !is_met(self.digit(n), bits.get(n)) {
                return false;
            }
        }
        true
    }

    /// The digits as they are written.
    pub(crate) fn text(&self) -> DigitText
        ensures { result ≡ wanted_text self.now }
    {
        let mut bytes = [0; 64];
        let len = self.len();
        for n in 0..len {
            bytes[n as usize] = digit_byte(self.digit(len - 1 - n));
        }
        DigitText {
            bytes,
            len: len as usize,
        }
    }
}

/// Whether a digit is met by the bit.
fn is_met(digit: Digit, bit: Bit4) -> bool
    ensures { result ≡ is_met digit bit }
{
    match digit {
        Digit::Any => true,
        Digit::Exactly(wanted) => wanted == bit,
    }
}

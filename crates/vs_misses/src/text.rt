//! Digits as they are written.

ghost use Rattle.std.specs.Prelude.{◌≡◌};
ghost use Rattle.vs_misses.specs.Texts.{bit_byte, digit_byte};

use std::marker::Model;
use vs_four::Bit4;
use vs_stim::Digit;

/// At most 64 digits as they are written, most significant first. Contracts see the bytes.
#[derive(Drop)]
pub struct DigitText {
    pub(crate) bytes: [u8; 64],
    pub(crate) len: usize,
}

impl Model for DigitText {
    ghost use Rattle.std.specs.Prelude.{List, ℕ, ◌≤◌, take};

    ghost Value = { List ℕ };

    ghost view = { λ t. take t.len t.bytes };

    ghost invariant = { λ t. t.len ≤ 64 };
}

impl DigitText {
    /// The bytes: `0`, `1`, `x` and `z`, and `-` for a digit that stands for any bit.
    pub fn as_slice(&self) -> &[u8]
        ensures { result.now ≡ self.now }
    {
        &self.bytes[..self.len]
    }
}

/// The byte that a bit is written as.
pub(crate) fn bit_byte(bit: Bit4) -> u8
    ensures { result ≡ bit_byte bit }
{
    match bit {
        Bit4::Zero => b'0',
        Bit4::One => b'1',
        Bit4::X => b'x',
        Bit4::Z => b'z',
    }
}

/// The byte that a digit is written as.
pub(crate) fn digit_byte(digit: Digit) -> u8
    ensures { result ≡ digit_byte digit }
{
    match digit {
        Digit::Exactly(bit) => bit_byte(bit),
        Digit::Any => b'-',
    }
}

//! What was found in a lane.

ghost use Rattle.std.specs.Prelude.{◌≡◌};
ghost use Rattle.vs_misses.specs.Texts.{wanted_text, bits_text};

use crate::kept::Kept;
use crate::text::{DigitText, bit_byte};
use std::marker::Model;
use vs_four::Bits;

/// What a lane missed first: the line of the vector, the output, the digits that were wanted, and what they were.
#[derive(Drop)]
pub struct Finding {
    pub(crate) line: u64,
    pub(crate) output: u32,
    pub(crate) wanted: Kept,
    pub(crate) got: Bits,
}

impl Model for Finding {
    ghost use Rattle.vs_misses.specs.Missed.{Found};

    ghost Value = { Found };

    ghost view = { λ f. record { line = f.line; miss = record { output = f.output; wanted = f.wanted; got = f.got } } };
}

impl Finding {
    /// The number of the vector's line, from 1.
    pub fn line(&self) -> u64
        ensures { result ≡ self.now.line }
    {
        self.line
    }

    /// The place of the output's name behind `->` in the header, from 0.
    pub fn output(&self) -> u32
        ensures { result ≡ self.now.miss.output }
    {
        self.output
    }

    /// The digits that were wanted, as they are written.
    pub fn wanted(&self) -> DigitText
        ensures { result ≡ wanted_text self.now.miss.wanted }
    {
        self.wanted.text()
    }

    /// The bits that the output had, as they are written.
    pub fn got(&self) -> DigitText
        ensures { result ≡ bits_text self.now.miss.got }
    {
        bits_text(&self.got)
    }
}

/// Bits as they are written.
fn bits_text(bits: &Bits) -> DigitText
    ensures { result ≡ bits_text bits.now }
{
    let mut bytes = [0; 64];
    let len = bits.len();
    for n in 0..len {
        bytes[n as usize] = bit_byte(bits.get(len - 1 - n));
    }
    DigitText {
        bytes,
        len: len as usize,
    }
}

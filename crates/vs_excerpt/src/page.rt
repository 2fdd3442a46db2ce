//! A text that grows.

ghost use Rattle.std.specs.Prelude.{◌≡◌, ◌<◌, [], ◌++◌, OnOk, decimal};
ghost use Rattle.vs_excerpt.specs.Escapes as spec;

use itoa::Buffer;
use std::alloc::{AllocError, Global};
use std::marker::Model;

/// A text in memory, to which pieces are added at its end. Contracts see it as its bytes.
///
/// The only error of adding is that memory ran out. Some first bytes of the piece may have been added then.
#[derive(Drop)]
pub struct Page {
    bytes: Vec<u8>,
}

impl Model for Page {
    ghost use Rattle.std.specs.Prelude.{List, ℕ};

    ghost Value = { List ℕ };

    ghost view = { λ p. p.bytes.items };
}

/// A digit from 0 to 15.
fn hex_digit(n: u8) -> u8
    requires { n < 16 }
    ensures { result ≡ spec.hex_digit n }
{
    if n < 10 { b'0' + n } else { b'A' - 10 + n }
}

impl Page {
    /// A page without a byte. It takes no memory.
    pub fn new(alloc: Global) -> Page
        ensures { result ≡ [] }
    {
        Page {
            bytes: Vec::new(alloc),
        }
    }

    /// The bytes so far.
    pub fn as_slice(&self) -> &[u8]
        ensures { result.now ≡ self.now }
    {
        self.bytes.as_slice()
    }

    /// Adds a text.
    pub fn text(&mut self, text: &str) -> Result<(), AllocError>
        ensures { OnOk result (self.new ≡ self.old ++ text.now) }
    {
        self.bytes.extend_from_slice(text.as_bytes())
    }

    /// Adds a number in decimal digits.
    pub fn number(&mut self, number: u64) -> Result<(), AllocError>
        ensures { OnOk result (self.new ≡ self.old ++ decimal number) }
    {
        let mut buffer = Buffer::new();
        self.text(buffer.format(number))
    }

    /// Adds a byte, escaped where it isn't printable.
    fn escaped_byte(&mut self, byte: u8) -> Result<(), AllocError>
        ensures { OnOk result (self.new ≡ self.old ++ spec.escaped_byte byte) }
    {
        if byte >= b' ' && byte <= b'~' {
            self.bytes.push(byte)?;
        } else {
            let digits = [b'\\', b'x', hex_digit(byte / 16), hex_digit(byte % 16)];
            self.bytes.extend_from_slice(&digits)?;
        }
        Ok(())
    }

    /// Adds bytes, of which those that aren't printable are escaped.
    pub fn escaped(&mut self, bytes: &[u8]) -> Result<(), AllocError>
        ensures { OnOk result (self.new ≡ self.old ++ spec.escaped bytes.now) }
    {
        for byte in bytes {
            self.escaped_byte(*byte)?;
        }
        Ok(())
    }

    /// Adds a byte of a line: a tab as it is, and any other that isn't printable escaped.
    fn shown_byte(&mut self, byte: u8) -> Result<(), AllocError>
        ensures { OnOk result (self.new ≡ self.old ++ spec.shown_byte byte) }
    {
        if byte == b'\t' {
            self.text("\t")
        } else {
            self.escaped_byte(byte)
        }
    }

    /// Adds bytes of a line, of which those that aren't printable are escaped, but for tabs.
    pub fn shown(&mut self, bytes: &[u8]) -> Result<(), AllocError>
        ensures { OnOk result (self.new ≡ self.old ++ spec.shown bytes.now) }
    {
        for byte in bytes {
            self.shown_byte(*byte)?;
        }
        Ok(())
    }

    /// Adds what stands below a byte in the line of a caret.
    fn blank_byte(&mut self, byte: u8) -> Result<(), AllocError>
        ensures { OnOk result (self.new ≡ self.old ++ spec.blank_byte byte) }
    {
        self.text(match byte {
            b'\t' => "\t",
            b' '..=b'~' => " ",
            _ => "    ",
        })
    }

    /// Adds as many blanks as bytes of a line take when they are shown, and below a tab a tab.
    pub fn blanks(&mut self, bytes: &[u8]) -> Result<(), AllocError>
        ensures { OnOk result (self.new ≡ self.old ++ spec.blanks bytes.now) }
    {
        for byte in bytes {
            self.blank_byte(*byte)?;
        }
        Ok(())
    }
}

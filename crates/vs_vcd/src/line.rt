//! A short line of the text, or a part of one, in a buffer.

ghost use Rattle.std.specs.Prelude.{◌≡◌, ◌+◌, ◌≤◌, ◌<◌, [], ◌∷◌, ◌++◌, length};
ghost use Rattle.vs_vcd.specs.Numerals.{decimal, identifier};

use arrayvec::ArrayVec;
use std::marker::Model;

/// How many bytes there is room for: those of a declared range whose numbers have 20 digits each, the longest that is made here.
const ROOM: usize = 44;

/// The bytes of a line, or of its beginning.
#[derive(Drop)]
pub(crate) struct Line {
    bytes: ArrayVec<u8, ROOM>,
}

impl Model for Line {
    ghost use Rattle.std.specs.Prelude.{List, ℕ};

    ghost Value = { List ℕ };

    ghost view = { λ l. l.bytes.items };
}

impl Line {
    /// No bytes.
    pub(crate) fn new() -> Line
        ensures { result ≡ [] }
    {
        Line {
            bytes: ArrayVec::new(),
        }
    }

    /// The bytes.
    pub(crate) fn as_slice(&self) -> &[u8]
        ensures { result.now ≡ self.now }
    {
        self.bytes.as_slice()
    }

    /// Adds a byte.
    pub(crate) fn push(&mut self, byte: u8)
        requires { length self.old < ROOM }
        ensures { self.new ≡ self.old ++ byte ∷ [] }
    {
        self.bytes.push(byte);
    }

    /// Adds some bytes.
    pub(crate) fn push_text(&mut self, text: &[u8])
        requires { length self.old + length text.now ≤ ROOM }
        ensures { self.new ≡ self.old ++ text.now }
    {
        let _ = self.bytes.try_extend_from_slice(text);
    }

    /// Adds a number in decimal.
    pub(crate) fn push_decimal(&mut self, number: u64)
        requires { length self.old + 20 ≤ ROOM }
        ensures text { self.new ≡ self.old ++ decimal number }
        ensures short { length self.new ≤ length self.old + 20 }
    {
        let mut buffer = itoa::Buffer::new();
        self.push_text(buffer.format(number).as_bytes());
    }

    /// Adds the identifier code of a signal: its number in base 94, least significant digit first.
    pub(crate) fn push_identifier(&mut self, number: u32)
        requires { length self.old + 5 ≤ ROOM }
        ensures text { self.new ≡ self.old ++ identifier number }
        ensures short { length self.new ≤ length self.old + 5 }
    {
        let mut rest = number;
        while rest >= 94 {
            self.push(b'!' + (rest % 94) as u8);
            rest /= 94;
        }
        self.push(b'!' + rest as u8);
    }
}

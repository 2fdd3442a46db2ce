//! What ends the line of a value.

ghost use Rattle.std.specs.Prelude.{◌≡◌, take};
ghost use Rattle.vs_vcd.specs.Values.{tail_text};

use crate::line::Line;
use std::marker::Model;

/// What ends each line of a signal's values: a blank, the signal's identifier code and a line feed (IEEE 1364-2005, 18.2.1). It is at
/// most seven bytes long.
#[derive(Drop)]
pub struct Tail {
    pub(crate) bytes: [u8; 8],
    pub(crate) len: u32,
}

// Clauses see its text.
impl Model for Tail {
    ghost use Rattle.std.specs.Prelude.{◌<◌, ℕ, List, take};

    ghost Value = { List ℕ };

    ghost view = { λ t. take t.len t.bytes };

    ghost invariant = { λ t. t.len < 8 };
}

impl Tail {
    /// The end of the lines of the signal with this number.
    pub fn of(number: u32) -> Tail
        ensures { result ≡ tail_text number }
    {
        let mut line = Line::new();
        line.push(b' ');
        line.push_identifier(number);
        line.push(b'\n');
        let text = line.as_slice();
        let mut bytes = [0; 8];
        bytes[..text.len()].copy_from_slice(text);
        Tail {
            bytes,
            len: text.len() as u32,
        }
    }
}

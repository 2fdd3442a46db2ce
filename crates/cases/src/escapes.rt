//! The bytes that a line of a text of cases stands for.

use crate::reading::ReadError;
use std::alloc::Global;

/// How far an escape was read.
#[derive(Clone, Copy)]
enum Place {
    /// No escape has begun.
    Text,
    /// Behind the backslash.
    Escape,
    /// Behind `\x`.
    Hex,
    /// Behind `\x` and a digit, of this value.
    Digit(u8),
}

/// The value of a hexadecimal digit.
fn hex_digit(byte: u8) -> Result<u8, ReadError> {
    match byte {
        b'0'..=b'9' => Ok(byte - b'0'),
        b'a'..=b'f' => Ok(byte - b'a' + 10),
        _ => Err(ReadError::BadEscape),
    }
}

/// Reads a byte of a line: where the next one stands, and the byte that is whole with this one.
fn read_byte(place: Place, byte: u8) -> Result<(Place, Option<u8>), ReadError> {
    match (place, byte) {
        (Place::Text, b'\\') => Ok((Place::Escape, None)),
        (Place::Text, _) => Ok((Place::Text, Some(byte))),
        (Place::Escape, b'\\') => Ok((Place::Text, Some(b'\\'))),
        (Place::Escape, b'n') => Ok((Place::Text, Some(b'\n'))),
        (Place::Escape, b'r') => Ok((Place::Text, Some(b'\r'))),
        (Place::Escape, b's') => Ok((Place::Text, Some(b' '))),
        (Place::Escape, b't') => Ok((Place::Text, Some(b'\t'))),
        (Place::Escape, b'x') => Ok((Place::Hex, None)),
        (Place::Escape, _) => Err(ReadError::BadEscape),
        (Place::Hex, _) => Ok((Place::Digit(hex_digit(byte)?), None)),
        (Place::Digit(high), _) => Ok((Place::Text, Some((high << 4) | hex_digit(byte)?))),
    }
}

/// The bytes that a text stands for, and then those of the end, unless the text ends with a lone backslash.
pub fn unescape(alloc: Global, text: &str, end: &[u8]) -> Result<Vec<u8>, ReadError> {
    let mut bytes = Vec::new(alloc);
    let mut place = Place::Text;
    for byte in text.as_bytes() {
        let (next, whole) = read_byte(place, *byte)?;
        place = next;
        if let Some(byte) = whole {
            bytes.push(byte)?;
        }
    }
    match place {
        Place::Text => bytes.extend_from_slice(end)?,
        Place::Escape => {}
        Place::Hex | Place::Digit(_) => return Err(ReadError::BadEscape),
    }
    Ok(bytes)
}

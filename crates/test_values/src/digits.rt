//! Vectors as they are written.

ghost use Rattle.std.specs.Prelude.{◌≡◌, ◌≤◌, length};

use vs_four::{Bit4, Bits};

/// The bit of a digit.
fn bit(digit: u8) -> Bit4 {
    match digit {
        b'0' => Bit4::Zero,
        b'1' => Bit4::One,
        b'x' => Bit4::X,
        _ => Bit4::Z,
    }
}

/// The vector of these digits, most significant first.
pub fn bits(text: &[u8]) -> Bits
    requires some { 1 ≤ length text.now }
    requires at_most_64 { length text.now ≤ 64 }
    ensures { length result ≡ length text.now }
{
    let mut list = [Bit4::Zero; 64];
    let len = text.len();
    for n in 0..len {
        list[n] = bit(text[len - 1 - n]);
    }
    Bits::of(&list[..len])
}

/// Whether a vector is written so.
pub fn reads(a: Bits, text: &[u8]) -> bool {
    if a.len() as usize != text.len() {
        return false;
    }
    for n in 0..a.len() {
        if a.get(n) != bit(text[text.len() - 1 - n as usize]) {
            return false;
        }
    }
    true
}

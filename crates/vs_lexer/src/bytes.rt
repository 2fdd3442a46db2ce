//! Classes of bytes.

ghost use Rattle.std.specs.Prelude.{◌≡◌, ◌≢◌, ◌||◌, ◌<◌, ◌≤◌, ◌+◌, length, drop, slice_index};
ghost use Rattle.std.specs.List.{prefix_len};
ghost use Rattle.vs_lexer.specs.Classes as spec;

/// The base of a number (IEEE 1364-2005, 3.5.1).
#[derive(Clone, Copy, Debug)]
pub(crate) enum Base {
    Binary,
    Octal,
    Decimal,
    Hexadecimal,
}

/// Bytes that a run is made of.
#[derive(Clone, Copy, Debug)]
pub(crate) enum ByteClass {
    /// Space, tab, LF, CR or form feed (3.2).
    Blank,
    /// Anything but a blank.
    Visible,
    /// Anything but LF.
    Line,
    /// What goes on with a name: a letter, a digit, `_` or `$` (3.7).
    Name,
    /// A decimal digit or `_`.
    Decimal,
    /// A digit of the base, `x`, `z`, `?` or `_`.
    Digits(Base),
    /// `_` alone.
    Underscore,
}

/// The byte at a place, or 0 past the end.
pub(crate) fn byte_at(text: &[u8], at: usize) -> u8
    ensures value { result ≡ slice_index text.now at }
    ensures within { result ≢ 0 → at < length text.now }
{
    if at < text.len() { text[at] } else { 0 }
}

pub(crate) fn is_blank(byte: u8) -> bool
    ensures { result ≡ spec.is_blank byte }
{
    matches!(byte, b' ' | b'\t' | b'\n' | b'\r' | 12)
}

pub(crate) fn is_letter(byte: u8) -> bool
    ensures { result ≡ spec.is_letter byte }
{
    (b'A' <= byte && byte <= b'Z') || (b'a' <= byte && byte <= b'z') || byte == b'_'
}

pub(crate) fn is_digit(byte: u8) -> bool
    ensures { result ≡ spec.is_digit byte }
{
    b'0' <= byte && byte <= b'9'
}

pub(crate) fn is_x(byte: u8) -> bool
    ensures { result ≡ spec.is_x byte }
{
    byte == b'x' || byte == b'X'
}

pub(crate) fn is_z(byte: u8) -> bool
    ensures { result ≡ spec.is_z byte }
{
    byte == b'z' || byte == b'Z' || byte == b'?'
}

/// The base that a letter stands for.
pub(crate) fn base_of(byte: u8) -> Option<Base>
    ensures { result ≡ spec.base_of byte }
{
    match byte {
        b'b' | b'B' => Some(Base::Binary),
        b'o' | b'O' => Some(Base::Octal),
        b'd' | b'D' => Some(Base::Decimal),
        b'h' | b'H' => Some(Base::Hexadecimal),
        _ => None,
    }
}

pub(crate) fn radix(base: Base) -> u8
    ensures { result ≡ spec.radix base }
{
    match base {
        Base::Binary => 2,
        Base::Octal => 8,
        Base::Decimal => 10,
        Base::Hexadecimal => 16,
    }
}

/// What a digit counts; 16 at a byte that is none.
pub(crate) fn digit_value(byte: u8) -> u8
    ensures value { result ≡ spec.digit_value byte }
    ensures small { result ≤ 16 }
{
    match byte {
        b'0'..=b'9' => byte - b'0',
        b'a'..=b'f' => byte - 87,
        b'A'..=b'F' => byte - 55,
        _ => 16,
    }
}

/// Whether the digits of a number may begin with this byte.
pub(crate) fn begins_digits(base: Base, byte: u8) -> bool
    ensures { result ≡ spec.begins_digits base byte }
{
    digit_value(byte) < radix(base) || is_x(byte) || is_z(byte)
}

pub(crate) fn is_in(class: ByteClass, byte: u8) -> bool
    ensures { result ≡ spec.is_in class byte }
{
    match class {
        ByteClass::Blank => is_blank(byte),
        ByteClass::Visible => !is_blank(byte),
        ByteClass::Line => byte != b'\n',
        ByteClass::Name => is_letter(byte) || is_digit(byte) || byte == b'$',
        ByteClass::Decimal => is_digit(byte) || byte == b'_',
        ByteClass::Digits(base) => begins_digits(base, byte) || byte == b'_',
        ByteClass::Underscore => byte == b'_',
    }
}

/// How many bytes from place `at` on are of the class.
pub(crate) fn run_length(class: ByteClass, text: &[u8], at: usize) -> usize
    requires { at ≤ length text.now }
    ensures value { result ≡ prefix_len (spec.is_in class) (drop at text.now) }
    ensures within { at + result ≤ length text.now }
{
    let mut end = at;
    while end < text.len() && is_in(class, text[end]) {
        end += 1;
    }
    end - at
}

//! Numbers (IEEE 1364-2005, 3.5.1).

ghost use Rattle.std.specs.Prelude.{◌≡◌, ◌≢◌, ◌<◌, ◌≤◌, ◌+◌, ◌^◌, ℕ, Some, None, IfSome, IfNone, IsSome, length, drop, take, slice_index, nat_lt, ◌||◌, ◌&&◌, ◌==◌, not};
ghost use Rattle.vs_lexer.specs.Literals as spec;

use crate::bytes::{Base, ByteClass, base_of, begins_digits, byte_at, is_digit, run_length};
use crate::strings::{is_quoted, string_number};

/// What stands before the digits of a number with a base.
#[derive(Clone, Copy, Debug)]
pub(crate) struct LiteralHead {
    /// How many bytes the size has; 0 where there is none.
    pub(crate) size: usize,
    /// Whether there is an `s`.
    pub(crate) signed: bool,
    pub(crate) base: Base,
    /// Where the digits begin.
    pub(crate) digits: usize,
}

fn is_sign_mark(byte: u8) -> bool
    ensures { result ≡ spec.is_sign_mark byte }
{
    byte == b's' || byte == b'S'
}

/// How many bytes the size at the front has.
fn size_length(text: &[u8]) -> usize
    ensures value { result ≡ spec.size_length text.now }
    ensures within { result ≤ length text.now }
{
    if is_digit(byte_at(text, 0)) {
        run_length(ByteClass::Decimal, text, 0)
    } else {
        0
    }
}

/// Where the quote has to stand.
fn quote_place(text: &[u8]) -> usize
    ensures value { result ≡ spec.quote_place text.now }
    ensures within { result ≤ length text.now }
{
    if is_digit(byte_at(text, 0)) {
        let size = size_length(text);
        size + run_length(ByteClass::Blank, text, size)
    } else {
        0
    }
}

/// The head whose base stands at a place.
fn head_at(text: &[u8], signed: bool, place: usize) -> Option<LiteralHead>
    requires { place < 2 ^ 63 }
    ensures head { result ≡ spec.head_at text.now signed place }
    ensures within { IfSome result (λ h. h.digits ≤ length text.now) }
{
    let base = base_of(byte_at(text, place))?;
    let blanks = run_length(ByteClass::Blank, text, place + 1);
    Some(LiteralHead {
        size: size_length(text),
        signed,
        base,
        digits: place + 1 + blanks,
    })
}

/// The head that a text begins with, if it is that of a number with a base.
pub(crate) fn head_of(text: &[u8]) -> Option<LiteralHead>
    ensures head { result ≡ spec.head_of text.now }
    ensures within { IfSome result (λ h. h.digits ≤ length text.now) }
{
    let quote = quote_place(text);
    if byte_at(text, quote) != b'\'' {
        return None;
    }
    if is_sign_mark(byte_at(text, quote + 1)) {
        head_at(text, true, quote + 2)
    } else {
        head_at(text, false, quote + 1)
    }
}

/// What may follow the first digit.
fn digits_class(base: Base, first: u8) -> ByteClass
    ensures { result ≡ spec.digits_class base first }
{
    match base {
        Base::Decimal => {
            if is_digit(first) {
                ByteClass::Decimal
            } else {
                ByteClass::Underscore
            }
        }
        _ => ByteClass::Digits(base),
    }
}

/// How many bytes the digits at a place have; 0 where there is none.
pub(crate) fn digits_length(text: &[u8], base: Base, at: usize) -> usize
    requires { at ≤ length text.now }
    ensures value { result ≡ spec.digits_length base (drop at text.now) }
    ensures within { at + result ≤ length text.now }
{
    if at == text.len() || !begins_digits(base, text[at]) {
        return 0;
    }
    1 + run_length(digits_class(base, text[at]), text, at + 1)
}

/// A number with one more decimal digit behind it, where it is below 2^64.
fn with_digit(number: u64, byte: u8) -> Option<u64>
    ensures value { IfSome result (λ n. n ≡ spec.with_digit number byte) }
    ensures large { IfNone result (2 ^ 64 ≤ spec.with_digit number byte) }
{
    if byte == b'_' {
        return Some(number);
    }
    let digit = u64::from(byte.saturating_sub(b'0'));
    number.checked_mul(10)?.checked_add(digit)
}

/// The number of decimal digits, where it is below 2^64; `_` counts for nothing.
pub(crate) fn decimal_value(digits: &[u8]) -> Option<u64>
    ensures value { IfSome result (λ n. n ≡ spec.decimal_value digits.now) }
    ensures large { IfNone result (2 ^ 64 ≤ spec.decimal_value digits.now) }
{
    let mut number = 0;
    for byte in digits {
        number = with_digit(number, *byte)?;
    }
    Some(number)
}

fn is_good_size(size: &[u8]) -> bool
    ensures { result ≡ spec.is_good_size (spec.decimal_value size.now) }
{
    match decimal_value(size) {
        Some(n) => 1 <= n && n <= 64,
        None => false,
    }
}

/// Whether these are digits of base d, and no `x` or `z`.
pub(crate) fn is_decimal_number(base: Base, digits: &[u8]) -> bool
    ensures { result ≡ spec.is_decimal_number base digits.now }
{
    match base {
        Base::Decimal => is_digit(byte_at(digits, 0)),
        _ => false,
    }
}

/// Whether the size and the value of a number with this head are in range.
#[tactic(auto, unfolding(crate::specs::Literals::is_in_range))]
pub(crate) fn is_in_range(text: &[u8], head: &LiteralHead) -> bool
    requires head { spec.head_of text.now ≡ Some head.now }
    requires within { head.now.digits ≤ length text.now }
    ensures { result ≡ spec.is_in_range text.now }
{
    let digits = &text[head.digits..];
    let good_size = head.size == 0 || is_good_size(&text[..head.size]);
    good_size && (!is_decimal_number(head.base, digits) || decimal_value(digits).is_some())
}

/// Whether the number without a base, which may be a string, is in range.
#[tactic(auto, unfolding(crate::specs::Literals::is_in_range))]
pub(crate) fn is_in_range_unsized(text: &[u8]) -> bool
    requires { spec.head_of text.now ≡ None }
    ensures { result ≡ spec.is_in_range text.now }
{
    if is_quoted(text) {
        return string_number(text).is_some();
    }
    match decimal_value(text) {
        Some(n) => n < 0x8000_0000,
        None => false,
    }
}

/// Whether the size and the value of the number that these bytes are, are in range: a size is 1 to 64, an unsized decimal number is below 2^31, and
/// digits of base d are below 2^64, and a string has at most eight characters and no escape that stands for none.
pub fn is_literal_in_range(text: &[u8]) -> bool
    ensures { result ≡ spec.is_in_range text.now }
{
    match head_of(text) {
        Some(head) => is_in_range(text, &head),
        None => is_in_range_unsized(text),
    }
}

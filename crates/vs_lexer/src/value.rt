//! What a number stands for (IEEE 1364-2005, 3.5.1 and 3.6).

ghost use Rattle.std.specs.Prelude.{◌≡◌, ◌≢◌, ◌<◌, ◌≤◌, ◌+◌, ◌*◌, ◌%◌, ◌^◌, ◌++◌, Some, length, take, drop, replicate, slice_index, true, false};
ghost use Rattle.vs_four.specs.Planes.{bits_of_planes};
ghost use Rattle.vs_lexer.specs.Literals as spec;
ghost use Rattle.vs_lexer.specs.Strings.{is_short_string, string_size, string_value};
ghost use Rattle.vs_lexer.specs.declared.token.TokenKind.TheVariants as TokenKind;
ghost use Rattle.vs_lexer.specs.Tokens.{token_kind};
ghost use Rattle.vs_lexer.specs.Cuts.{own_bytes, spelling_of, is_number};
ghost use Rattle.vs_lexer.specs.Laws.{AreTokens, StandsIn};

use crate::bytes::{Base, byte_at, digit_value, is_x, is_z};
use crate::number::{LiteralHead, decimal_value, head_of, is_decimal_number};
use crate::strings::{is_quoted, string_number};
use crate::token::{Token, TokenKind};

/// A number of the text: its bits in two planes, where 0 is (0, 0), 1 is (1, 0), z is (0, 1) and x is (1, 1), as value and
/// unknown. Bit 0 is the least significant, and no bit from `size` on is set.
#[derive(Clone, Copy, Debug, PartialEq, Eq)]
pub struct Literal {
    pub value: u64,
    pub unknown: u64,
    /// The length in bits, 1 to 64.
    pub size: u32,
    pub signed: bool,
    /// Whether a size was written, or is that of a string. Without one the length is 32, and a leading x or z goes on in a wider context.
    pub sized: bool,
}

/// Two planes of up to 64 bits.
#[derive(Clone, Copy, Debug)]
pub(crate) struct Planes {
    pub(crate) value: u64,
    pub(crate) unknown: u64,
}

/// 64 bits of what fills a number whose first digit is this.
#[tactic(auto, unfolding(vs_four::specs::Planes::bits_of_planes))]
fn filling(first: u8) -> Planes
    ensures { bits_of_planes 64 result.value result.unknown ≡ replicate 64 (spec.fill_bit first) }
{
    if is_x(first) {
        Planes {
            value: u64::MAX,
            unknown: u64::MAX,
        }
    } else if is_z(first) {
        Planes {
            value: 0,
            unknown: u64::MAX,
        }
    } else {
        Planes {
            value: 0,
            unknown: 0,
        }
    }
}

/// How many values the bits of a digit have.
fn digit_step(base: Base) -> u64
    ensures value { result ≡ 2 ^ spec.digit_width base }
    ensures range { (2 ≤ result) × (result ≤ 16) }
{
    match base {
        Base::Binary | Base::Decimal => 2,
        Base::Octal => 8,
        Base::Hexadecimal => 16,
    }
}

/// The bits of a digit.
#[tactic(auto, unfolding(vs_four::specs::Planes::bits_of_planes))]
fn digit_planes(base: Base, byte: u8) -> Planes
    requires { byte ≢ 95 }
    ensures bits { bits_of_planes (spec.digit_width base) result.value result.unknown ≡ spec.digit_bits base byte }
    ensures value { result.value < 2 ^ spec.digit_width base }
    ensures unknown { result.unknown < 2 ^ spec.digit_width base }
{
    let step = digit_step(base);
    if is_x(byte) {
        Planes {
            value: step - 1,
            unknown: step - 1,
        }
    } else if is_z(byte) {
        Planes {
            value: 0,
            unknown: step - 1,
        }
    } else {
        Planes {
            value: u64::from(digit_value(byte)) % step,
            unknown: 0,
        }
    }
}

/// A plane with the bits of one more digit on the right; what goes past 64 bits is cut.
fn shifted_in(plane: u64, step: u64, digit: u64) -> u64
    ensures { result ≡ (plane * step + digit) % 2 ^ 64 }
{
    plane.wrapping_mul(step).wrapping_add(digit)
}

/// The bits of one more digit on the right.
fn with_digit(planes: Planes, base: Base, byte: u8) -> Planes
    ensures { bits_of_planes 64 result.value result.unknown ≡ take 64 (spec.digit_bits base byte ++ bits_of_planes 64 planes.value planes.unknown) }
{
    if byte == b'_' {
        return planes;
    }
    let step = digit_step(base);
    let digit = digit_planes(base, byte);
    Planes {
        value: shifted_in(planes.value, step, digit.value),
        unknown: shifted_in(planes.unknown, step, digit.unknown),
    }
}

/// The bits of digits, filled on the left to 64.
fn digits_planes(base: Base, digits: &[u8]) -> Planes
    ensures { bits_of_planes 64 result.value result.unknown ≡ take 64 (spec.all_digit_bits base digits.now ++ replicate 64 (spec.fill_bit (slice_index digits.now 0))) }
{
    let mut planes = filling(byte_at(digits, 0));
    for byte in digits {
        planes = with_digit(planes, base, *byte);
    }
    planes
}

/// The low bits of a plane.
fn low_bits(plane: u64, size: u32) -> u64
    requires { size ≤ 64 }
    ensures { result ≡ plane % 2 ^ size }
{
    if size < 64 {
        plane % (1 << size)
    } else {
        plane
    }
}

/// The bits of the digits of a number, filled on the left to 64.
fn literal_planes(base: Base, digits: &[u8]) -> Planes
    requires { spec.is_decimal_number base digits.now ≡ true → spec.decimal_value digits.now < 2 ^ 64 }
    ensures { bits_of_planes 64 result.value result.unknown ≡ take 64 (spec.digits_bits base digits.now ++ replicate 64 (spec.fill_bit (slice_index digits.now 0))) }
{
    if !is_decimal_number(base, digits) {
        return digits_planes(base, digits);
    }
    match decimal_value(digits) {
        Some(value) => Planes { value, unknown: 0 },
        None => unreachable!(),
    }
}

/// The length in bits of a number with a base.
fn literal_size(text: &[u8], head: &LiteralHead) -> u32
    requires head { spec.head_of text.now ≡ Some head.now }
    requires in_range { spec.is_in_range text.now ≡ true }
    ensures value { result ≡ spec.literal_size text.now }
    ensures range { (1 ≤ result) × (result ≤ 64) }
{
    if head.size == 0 {
        return 32;
    }
    match decimal_value(&text[..head.size]) {
        Some(size) => size as u32,
        None => unreachable!(),
    }
}

/// What a number with a base stands for.
fn based_literal(text: &[u8], head: &LiteralHead) -> Literal
    requires head { spec.head_of text.now ≡ Some head.now }
    requires in_range { spec.is_in_range text.now ≡ true }
    requires within { head.now.digits ≤ length text.now }
    ensures bits { bits_of_planes result.size result.value result.unknown ≡ spec.literal_bits text.now }
    ensures value { result.value < 2 ^ result.size }
    ensures unknown { result.unknown < 2 ^ result.size }
    ensures size { result.size ≡ spec.literal_size text.now }
    ensures range { (1 ≤ result.size) × (result.size ≤ 64) }
    ensures signed { result.signed ≡ spec.is_signed_literal text.now }
    ensures sized { result.sized ≡ spec.has_size text.now }
{
    let size = literal_size(text, head);
    let planes = literal_planes(head.base, &text[head.digits..]);
    Literal {
        value: low_bits(planes.value, size),
        unknown: low_bits(planes.unknown, size),
        size,
        signed: head.signed,
        sized: head.size != 0,
    }
}

/// What a string stands for that is a number: eight bits a character, the last one lowest, and eight bits where it has none.
fn string_literal(text: &[u8]) -> Literal
    requires { is_short_string text.now ≡ true }
    ensures bits { bits_of_planes result.size result.value result.unknown ≡ spec.number_bits (string_size text.now) (string_value text.now) }
    ensures value { result.value < 2 ^ result.size }
    ensures unknown { result.unknown < 2 ^ result.size }
    ensures size { result.size ≡ string_size text.now }
    ensures range { (1 ≤ result.size) × (result.size ≤ 64) }
    ensures signed { result.signed ≡ false }
    ensures sized { result.sized ≡ true }
{
    let Some(number) = string_number(text) else {
        unreachable!()
    };
    Literal {
        value: number.value,
        unknown: 0,
        size: 8 * number.characters.max(1),
        signed: false,
        sized: true,
    }
}

/// What the number that a text is stands for.
fn literal_of(text: &[u8]) -> Literal
    requires { spec.is_in_range text.now ≡ true }
    ensures bits { bits_of_planes result.size result.value result.unknown ≡ spec.literal_bits text.now }
    ensures value { result.value < 2 ^ result.size }
    ensures unknown { result.unknown < 2 ^ result.size }
    ensures size { result.size ≡ spec.literal_size text.now }
    ensures range { (1 ≤ result.size) × (result.size ≤ 64) }
    ensures signed { result.signed ≡ spec.is_signed_literal text.now }
    ensures sized { result.sized ≡ spec.has_size text.now }
{
    if let Some(head) = head_of(text) {
        return based_literal(text, &head);
    }
    if is_quoted(text) {
        return string_literal(text);
    }
    match decimal_value(text) {
        Some(value) => Literal {
            value,
            unknown: 0,
            size: 32,
            signed: true,
            sized: false,
        },
        None => unreachable!(),
    }
}

/// What the number stands for that a size and the bytes behind it are, where these begin with their quote.
fn sized_literal(size: &[u8], text: &[u8]) -> Literal
    requires size { token_kind size.now ≡ Some TokenKind.Decimal }
    requires based { token_kind text.now ≡ Some TokenKind.Based }
    requires quote { slice_index text.now 0 ≡ 39 }
    requires in_range { spec.is_in_range (size.now ++ text.now) ≡ true }
    ensures bits { bits_of_planes result.size result.value result.unknown ≡ spec.literal_bits (size.now ++ text.now) }
    ensures value { result.value < 2 ^ result.size }
    ensures unknown { result.unknown < 2 ^ result.size }
    ensures size { result.size ≡ spec.literal_size (size.now ++ text.now) }
    ensures range { (1 ≤ result.size) × (result.size ≤ 64) }
    ensures signed { result.signed ≡ spec.is_signed_literal (size.now ++ text.now) }
    ensures sized { result.sized ≡ spec.has_size (size.now ++ text.now) }
{
    let Some(head) = head_of(text) else {
        unreachable!()
    };
    let Some(count) = decimal_value(size) else {
        unreachable!()
    };
    let size = count as u32;
    let planes = literal_planes(head.base, &text[head.digits..]);
    Literal {
        value: low_bits(planes.value, size),
        unknown: low_bits(planes.unknown, size),
        size,
        signed: head.signed,
        sized: true,
    }
}

/// The bytes of a token but for a size that stands elsewhere.
fn own_bytes<'a>(text: &'a [u8], token: Token) -> &'a [u8]
    requires { StandsIn text.now token }
    ensures { result.now ≡ own_bytes text.now token }
{
    &text[token.start as usize..token.end as usize]
}

/// The bytes of token n, which is no number.
pub fn spelling<'a>(text: &'a [u8], tokens: &[Token], n: usize) -> &'a [u8]
    requires lexed { AreTokens text.now tokens.now }
    requires inside { n < length tokens.now }
    requires name { is_number tokens.now n ≡ false }
    ensures { result.now ≡ spelling_of text.now tokens.now n }
{
    own_bytes(text, tokens[n])
}

/// Whether token n is a number.
pub fn is_number(tokens: &[Token], n: usize) -> bool
    requires { n < length tokens.now }
    ensures { result ≡ is_number tokens.now n }
{
    matches!(tokens[n].kind, TokenKind::Decimal | TokenKind::Based)
}

/// What token n stands for, which is a number (IEEE 1364-2005, 3.5.1).
pub fn read_literal(text: &[u8], tokens: &[Token], n: usize) -> Literal
    requires lexed { AreTokens text.now tokens.now }
    requires inside { n < length tokens.now }
    requires number { is_number tokens.now n ≡ true }
    ensures bits { bits_of_planes result.size result.value result.unknown ≡ spec.literal_bits (spelling_of text.now tokens.now n) }
    ensures value { result.value < 2 ^ result.size }
    ensures unknown { result.unknown < 2 ^ result.size }
    ensures size { result.size ≡ spec.literal_size (spelling_of text.now tokens.now n) }
    ensures range { (1 ≤ result.size) × (result.size ≤ 64) }
    ensures signed { result.signed ≡ spec.is_signed_literal (spelling_of text.now tokens.now n) }
    ensures sized { result.sized ≡ spec.has_size (spelling_of text.now tokens.now n) }
{
    let token = tokens[n];
    let bytes = own_bytes(text, token);
    match token.size {
        None => literal_of(bytes),
        Some(size) => sized_literal(&text[size.start as usize..size.end as usize], bytes),
    }
}

//! Strings, and the numbers that short ones are (IEEE 1364-2005, 3.6).

ghost use Rattle.std.specs.Prelude.{◌≡◌, ◌≢◌, ◌<◌, ◌≤◌, ◌*◌, ◌^◌, ℕ, Some, None, IfSome, IfNone, length, take, true, false};
ghost use Rattle.vs_lexer.specs.Strings as spec;

use crate::bytes::byte_at;

/// The greatest number of characters of a string that is a number.
const MAX_CHARACTERS: u32 = 8;

/// One character of a string, and how many bytes spell it.
#[derive(Clone, Copy, Debug)]
pub(crate) struct Character {
    pub(crate) value: u8,
    pub(crate) length: usize,
}

/// A string as a number: its characters, eight bits each, the last one lowest.
#[derive(Clone, Copy, Debug)]
pub(crate) struct StringNumber {
    pub(crate) characters: u32,
    pub(crate) value: u64,
}

/// How many bytes of a string follow its first quote, if it is closed on its line.
pub(crate) fn closing_quote(text: &[u8]) -> Option<usize>
    ensures within { IfSome result (λ n. n ≤ length text.now) }
    ensures found { IfSome result (λ n. spec.ends_string (take n text.now) ≡ true) }
    ensures last { IfSome result (λ n. (m : ℕ) → n < m → m ≤ length text.now → spec.ends_string (take m text.now) ≡ false) }
    ensures missing { IfNone result ((m : ℕ) → spec.ends_string (take m text.now) ≡ false) }
{
    let mut at = 0;
    while at < text.len() {
        let byte = text[at];
        if byte == b'"' {
            return Some(at + 1);
        }
        if byte == b'\n' {
            return None;
        }
        if byte != b'\\' {
            at += 1;
        } else if at + 1 < text.len() && text[at + 1] != b'\n' {
            at += 2;
        } else {
            return None;
        }
    }
    None
}

/// Whether these bytes begin as a string does.
pub(crate) fn is_quoted(text: &[u8]) -> bool
    ensures { result ≡ spec.is_quoted text.now }
{
    byte_at(text, 0) == b'"'
}

/// What `\` and one byte stand for.
fn letter_escape(byte: u8) -> Option<u8>
    ensures value { result ≡ spec.letter_escape byte }
    ensures some { IfSome result (λ _. byte ≢ 0) }
{
    match byte {
        b'n' => Some(b'\n'),
        b't' => Some(b'\t'),
        b'\\' | b'"' => Some(byte),
        _ => None,
    }
}

fn is_octal(byte: u8) -> bool
    ensures { result ≡ spec.is_octal byte }
{
    b'0' <= byte && byte <= b'7'
}

/// What `\` and three octal digits stand for, where their number is below 256.
fn octal_escape(first: u8, second: u8, third: u8) -> Option<u8>
    ensures value { result ≡ spec.octal_escape first second third }
    ensures some { IfSome result (λ _. third ≢ 0) }
{
    if !(is_octal(first) && is_octal(second) && is_octal(third)) {
        return None;
    }
    let high = 64 * u32::from(first - b'0');
    let value = high + 8 * u32::from(second - b'0') + u32::from(third - b'0');
    if value < 256 { Some(value as u8) } else { None }
}

/// The character of the escape at the front: `\n`, `\t`, `\\`, `\"`, or `\` and three octal digits.
fn escape_here(text: &[u8]) -> Option<Character>
    ensures value { result ≡ spec.escape_here text.now }
    ensures some { IfSome result (λ c. 0 < c.length) }
    ensures within { IfSome result (λ c. c.length ≤ length text.now) }
{
    let first = byte_at(text, 1);
    if let Some(value) = letter_escape(first) {
        return Some(Character { value, length: 2 });
    }
    let value = octal_escape(first, byte_at(text, 2), byte_at(text, 3))?;
    Some(Character { value, length: 4 })
}

/// The character at the front of these bytes.
fn character_here(text: &[u8]) -> Option<Character>
    requires { 0 < length text.now }
    ensures value { result ≡ spec.character_here text.now }
    ensures some { IfSome result (λ c. 0 < c.length) }
    ensures within { IfSome result (λ c. c.length ≤ length text.now) }
{
    if text[0] == b'\\' {
        return escape_here(text);
    }
    Some(Character {
        value: text[0],
        length: 1,
    })
}

/// The number that the characters of these bytes are, where they are eight at most.
fn number_within(text: &[u8]) -> Option<StringNumber>
    ensures number { result ≡ spec.number_of_characters (spec.characters_within spec.character_limit text.now) }
    ensures few { IfSome result (λ n. n.characters ≤ 8) }
    ensures value { IfSome result (λ n. n.value < 2 ^ (8 * n.characters)) }
{
    let mut number = StringNumber {
        characters: 0,
        value: 0,
    };
    let mut at = 0;
    while at < text.len() {
        if number.characters == MAX_CHARACTERS {
            return None;
        }
        let character = character_here(&text[at..])?;
        number = StringNumber {
            characters: number.characters + 1,
            value: 256 * number.value + u64::from(character.value),
        };
        at += character.length;
    }
    Some(number)
}

/// The bytes between the quotes of a string.
fn between_quotes<'a>(text: &'a [u8]) -> &'a [u8]
    ensures { result.now ≡ spec.between_quotes text.now }
{
    if text.len() < 2 {
        &text[..0]
    } else {
        &text[1..text.len() - 1]
    }
}

/// The number that a string is, with its quotes: `None` where it has more than eight characters, or an escape that stands for none.
pub(crate) fn string_number(text: &[u8]) -> Option<StringNumber>
    ensures number { result ≡ spec.number_of_characters (spec.characters_of text.now) }
    ensures few { IfSome result (λ n. n.characters ≤ 8) }
    ensures value { IfSome result (λ n. n.value < 2 ^ (8 * n.characters)) }
{
    number_within(between_quotes(text))
}

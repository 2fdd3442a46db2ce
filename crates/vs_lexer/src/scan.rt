//! The token at the front of a text.

ghost use Rattle.std.specs.Prelude.{◌≡◌, ◌≢◌, ◌<◌, ◌≤◌, ◌+◌, ℕ, Ok, Some, None, IfSome, IfNone, OnErr, length, take, map, slice_index, true, false};
ghost use Rattle.vs_lexer.specs.Spellings.{find_spelling, is_among};
ghost use Rattle.vs_lexer.specs.Literals.{head_of};
ghost use Rattle.vs_lexer.specs.Tokens as spec;

use crate::bytes::{ByteClass, is_digit, is_letter, run_length};
use crate::number::{LiteralHead, digits_length, head_of, is_in_range, is_in_range_unsized};
use crate::strings::{closing_quote, string_number};
use crate::tables::{KEYWORDS, LEFT_OUT_WORDS, SIGNS, SYSTEM_NAMES};
use crate::token::TokenKind;

/// What a token is, and how many bytes it has.
#[derive(Clone, Copy, Debug)]
pub(crate) struct Lexeme {
    pub(crate) kind: TokenKind,
    pub(crate) length: usize,
}

/// Why no token stands at a place.
#[derive(Clone, Copy, Debug)]
pub(crate) enum Fault {
    NoToken,
    BadLiteral,
}

/// The class of token that a first byte decides.
#[derive(Clone, Copy, Debug)]
pub(crate) enum Start {
    /// An identifier or a keyword.
    Word,
    /// A number that begins with a digit.
    Number,
    /// A number that begins with a quote.
    Quote,
    /// A string.
    Text,
    /// An escaped identifier.
    Escaped,
    /// A system name.
    System,
    /// A compiler directive.
    Directive,
    /// An operator or punctuation mark.
    Sign,
}

/// The kind that a table gives a spelling.
fn find_spelling(mut table: &[(&[u8], TokenKind)], text: &[u8]) -> Option<TokenKind>
    ensures { result ≡ find_spelling (map (λ k. (k.0.now, k.1)) table.entry.now) text.now }
{
    while let [entry, rest @ ..] = table {
        if entry.0 == text {
            return Some(entry.1);
        }
        table = rest;
    }
    None
}

/// Whether a list of words has this one.
pub(crate) fn is_among(mut words: &[&[u8]], text: &[u8]) -> bool
    ensures { result ≡ is_among (map (λ w. w.now) words.entry.now) text.now }
{
    while let [word, rest @ ..] = words {
        if *word == text {
            return true;
        }
        words = rest;
    }
    false
}

fn word_kind(word: &[u8]) -> TokenKind
    ensures { result ≡ spec.word_kind word.now }
{
    match find_spelling(&KEYWORDS, word) {
        Some(kind) => kind,
        None => {
            if is_among(&LEFT_OUT_WORDS, word) {
                TokenKind::LeftOutWord
            } else {
                TokenKind::Identifier
            }
        }
    }
}

fn system_kind(name: &[u8]) -> TokenKind
    ensures { result ≡ spec.system_kind name.now }
{
    find_spelling(&SYSTEM_NAMES, name).unwrap_or(TokenKind::SystemName)
}

fn sign_kind(text: &[u8]) -> Option<TokenKind>
    ensures { result ≡ spec.sign_kind text.now }
{
    find_spelling(&SIGNS, text)
}

fn start_of(byte: u8) -> Start
    ensures { result ≡ spec.start_of byte }
{
    if is_letter(byte) {
        Start::Word
    } else if is_digit(byte) {
        Start::Number
    } else if byte == b'\'' {
        Start::Quote
    } else if byte == b'"' {
        Start::Text
    } else if byte == b'\\' {
        Start::Escaped
    } else if byte == b'$' {
        Start::System
    } else if byte == b'`' {
        Start::Directive
    } else {
        Start::Sign
    }
}

fn word(text: &[u8]) -> Lexeme
    requires some { 0 < length text.now }
    requires start { spec.start_of (slice_index text.now 0) ≡ Start.Word }
    ensures { spec.here text.now ≡ Ok result }
{
    let length = 1 + run_length(ByteClass::Name, text, 1);
    Lexeme {
        kind: word_kind(&text[..length]),
        length,
    }
}

fn system_name(text: &[u8]) -> Result<Lexeme, Fault>
    requires some { 0 < length text.now }
    requires start { spec.start_of (slice_index text.now 0) ≡ Start.System }
    ensures { result ≡ spec.here text.now }
{
    let run = run_length(ByteClass::Name, text, 1);
    if run == 0 {
        return Err(Fault::NoToken);
    }
    Ok(Lexeme {
        kind: system_kind(&text[..1 + run]),
        length: 1 + run,
    })
}

fn escaped_identifier(text: &[u8]) -> Result<Lexeme, Fault>
    requires some { 0 < length text.now }
    requires start { spec.start_of (slice_index text.now 0) ≡ Start.Escaped }
    ensures { result ≡ spec.here text.now }
{
    let run = run_length(ByteClass::Visible, text, 1);
    if run == 0 {
        return Err(Fault::NoToken);
    }
    Ok(Lexeme {
        kind: TokenKind::EscapedIdentifier,
        length: 1 + run,
    })
}

fn directive(text: &[u8]) -> Result<Lexeme, Fault>
    requires some { 0 < length text.now }
    requires start { spec.start_of (slice_index text.now 0) ≡ Start.Directive }
    ensures { result ≡ spec.here text.now }
{
    if text.len() < 2 || !is_letter(text[1]) {
        return Err(Fault::NoToken);
    }
    Ok(Lexeme {
        kind: TokenKind::Directive,
        length: 2 + run_length(ByteClass::Name, text, 2),
    })
}

/// What a string is: a number where it has at most eight characters and no other escape, or else left out.
fn string_kind(text: &[u8]) -> TokenKind
    ensures { result ≡ spec.string_kind text.now }
{
    match string_number(text) {
        Some(_) => TokenKind::Based,
        None => TokenKind::Text,
    }
}

fn string(text: &[u8]) -> Result<Lexeme, Fault>
    requires some { 0 < length text.now }
    requires start { spec.start_of (slice_index text.now 0) ≡ Start.Text }
    ensures { result ≡ spec.here text.now }
{
    match closing_quote(&text[1..]) {
        Some(n) => Ok(Lexeme {
            kind: string_kind(&text[..1 + n]),
            length: 1 + n,
        }),
        None => Err(Fault::NoToken),
    }
}

/// The longest of the prefixes of one to three bytes that is a sign.
fn sign(text: &[u8]) -> Result<Lexeme, Fault>
    requires some { 0 < length text.now }
    requires start { spec.start_of (slice_index text.now 0) ≡ Start.Sign }
    ensures { result ≡ spec.here text.now }
{
    let mut length = text.len().min(3);
    while length > 0 {
        if let Some(kind) = sign_kind(&text[..length]) {
            return Ok(Lexeme { kind, length });
        }
        length -= 1;
    }
    Err(Fault::NoToken)
}

/// A token whose value or size is out of range is a fault.
fn checked(in_range: bool, kind: TokenKind, length: usize) -> Result<Lexeme, Fault>
    ensures { result ≡ spec.checked in_range (record { kind = kind; length = length }) }
{
    if in_range {
        Ok(Lexeme { kind, length })
    } else {
        Err(Fault::BadLiteral)
    }
}

/// A number without a base, or a quote that begins no number.
fn decimal_number(text: &[u8]) -> Result<Lexeme, Fault>
    requires some { 0 < length text.now }
    requires start { spec.begins_number (spec.start_of (slice_index text.now 0)) ≡ true }
    requires head { head_of text.now ≡ None }
    ensures { result ≡ spec.here text.now }
{
    if !is_digit(text[0]) {
        return Err(Fault::BadLiteral);
    }
    let length = 1 + run_length(ByteClass::Decimal, text, 1);
    checked(
        is_in_range_unsized(&text[..length]),
        TokenKind::Decimal,
        length,
    )
}

/// A number with a base.
fn based_number(text: &[u8], head: &LiteralHead) -> Result<Lexeme, Fault>
    requires some { 0 < length text.now }
    requires start { spec.begins_number (spec.start_of (slice_index text.now 0)) ≡ true }
    requires head { head_of text.now ≡ Some head.now }
    requires within { head.now.digits ≤ length text.now }
    ensures { result ≡ spec.here text.now }
{
    let digits = digits_length(text, head.base, head.digits);
    if digits == 0 {
        return Err(Fault::BadLiteral);
    }
    let length = head.digits + digits;
    checked(is_in_range(&text[..length], head), TokenKind::Based, length)
}

fn number(text: &[u8]) -> Result<Lexeme, Fault>
    requires some { 0 < length text.now }
    requires start { spec.begins_number (spec.start_of (slice_index text.now 0)) ≡ true }
    ensures { result ≡ spec.here text.now }
{
    match head_of(text) {
        Some(head) => based_number(text, &head),
        None => decimal_number(text),
    }
}

/// The token at the front of a text, or the fault that is there.
pub(crate) fn here(text: &[u8]) -> Result<Lexeme, Fault>
    requires { 0 < length text.now }
    ensures { result ≡ spec.here text.now }
{
    match start_of(text[0]) {
        Start::Word => Ok(word(text)),
        Start::Number => number(text),
        Start::Quote => number(text),
        Start::Text => string(text),
        Start::Escaped => escaped_identifier(text),
        Start::System => system_name(text),
        Start::Directive => directive(text),
        Start::Sign => sign(text),
    }
}

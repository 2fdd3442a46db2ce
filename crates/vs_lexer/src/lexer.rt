//! The cut of a whole text.

ghost use Rattle.std.specs.Prelude.{◌≡◌, ◌<◌, ◌≤◌, ◌⊎◌, ◌^◌, Ok, Err, Some, None, IfSome, IfOk, IfErr, IsSome, length, slice_index};
ghost use Rattle.vs_lexer.specs.Cuts as spec;

use crate::bytes::{ByteClass, byte_at, is_blank, run_length};
use crate::scan::{Fault, here, is_among};
use crate::tables::SKIPPED_DIRECTIVES;
use crate::token::{LexError, Token};
use std::alloc::Global;

/// The greatest number of tokens of a text.
pub const MAX_TOKENS: usize = 1_048_576;

/// The greatest number of bytes of a text.
pub const MAX_BYTES: usize = 4_194_304;

/// How many bytes a comment `/* .. */` at the front has, if it is closed.
fn block_comment(text: &[u8]) -> Option<usize>
    ensures value { result ≡ spec.block_comment text.now }
    ensures within { IfSome result (λ n. n ≤ length text.now) }
{
    let mut at = 2;
    while at < text.len() {
        if text[at] == b'*' && byte_at(text, at + 1) == b'/' {
            return Some(at + 2);
        }
        at += 1;
    }
    None
}

/// Whether the name at place 1 is that of a directive that is skipped.
fn is_skipped_directive(text: &[u8]) -> bool
    requires { 0 < length text.now }
    ensures { result ≡ spec.begins_skipped_directive text.now }
{
    let end = 1 + run_length(ByteClass::Name, text, 1);
    is_among(&SKIPPED_DIRECTIVES, &text[1..end])
}

/// How many bytes at the front are a `\` at a line's end and that end; 0 where there is none.
fn continuation(text: &[u8]) -> usize
    ensures value { result ≡ spec.continuation text.now }
    ensures within { result ≤ length text.now }
{
    if byte_at(text, 0) != b'\\' {
        0
    } else if byte_at(text, 1) == b'\n' {
        2
    } else if byte_at(text, 1) == b'\r' && byte_at(text, 2) == b'\n' {
        3
    } else {
        0
    }
}

/// How many bytes at the front are skipped in one piece; `None` where a comment stays open.
fn skipped(text: &[u8]) -> Option<usize>
    ensures value { result ≡ spec.skipped text.now }
    ensures within { IfSome result (λ n. n ≤ length text.now) }
{
    let first = byte_at(text, 0);
    let second = byte_at(text, 1);
    if is_blank(first) {
        Some(1)
    } else if first == b'/' && second == b'/' {
        Some(run_length(ByteClass::Line, text, 0))
    } else if first == b'/' && second == b'*' {
        block_comment(text)
    } else if first == b'`' && is_skipped_directive(text) {
        Some(run_length(ByteClass::Line, text, 0))
    } else {
        Some(continuation(text))
    }
}

/// How many bytes a byte-order mark at the start of a text has; 0 where there is none.
fn byte_order_mark(text: &[u8]) -> usize
    ensures value { result ≡ spec.byte_order_mark text.now }
    ensures within { result ≤ length text.now }
{
    if byte_at(text, 0) == 0xEF && byte_at(text, 1) == 0xBB && byte_at(text, 2) == 0xBF {
        3
    } else {
        0
    }
}

/// A fault, at its place.
fn fault_at(fault: Fault, at: u32) -> LexError
    ensures { result ≡ spec.fault_at fault at }
{
    match fault {
        Fault::NoToken => LexError::NoToken(at),
        Fault::BadLiteral => LexError::BadLiteral(at),
    }
}

/// Cuts a text of at most `MAX_BYTES` bytes into tokens. At each place a blank, a comment or a skipped directive is passed
/// over, or else the longest token is taken (IEEE 1364-2005, clause 3); a byte-order mark at the start of the text is passed
/// over as a blank is. The first fault of the text is the error: a comment that
/// stays open, a place where no token begins, a number out of range or without digits, or a token after number `MAX_TOKENS`;
/// or there was not enough memory.
pub fn lex(alloc: Global, text: &[u8]) -> Result<Vec<Token>, LexError>
    requires { length text.now ≤ MAX_BYTES }
    ensures tokens { IfOk result (λ v. spec.cut_text text.now ≡ Ok v.items) }
    ensures fault { IfErr result (λ e. (spec.cut_text text.now ≡ Err e) ⊎ (e ≡ LexError.Memory)) }
{
    let mut tokens = Vec::new(alloc);
    let mut at = byte_order_mark(text);
    while at < text.len() {
        let place = at as u32;
        let rest = &text[at..];
        let Some(length) = skipped(rest) else {
            return Err(LexError::OpenComment(place));
        };
        if length > 0 {
            at += length;
            continue;
        }
        let lexeme = match here(rest) {
            Ok(lexeme) => lexeme,
            Err(fault) => return Err(fault_at(fault, place)),
        };
        if tokens.len() >= MAX_TOKENS {
            return Err(LexError::TooManyTokens(place));
        }
        at += lexeme.length;
        let token = Token {
            kind: lexeme.kind,
            start: place,
            end: at as u32,
            at: place,
            size: None,
        };
        if tokens.push(token).is_err() {
            return Err(LexError::Memory);
        }
    }
    Ok(tokens)
}

//! Attributes (IEEE 1364-2005, 3.8).

ghost use Rattle.std.specs.Prelude.{◌≡◌, ◌≤◌, true, length, IfOk, IfSome};
ghost use Rattle.vs_lexer.specs.LeftOut as out;
ghost use Rattle.vs_pre.specs.Attributes as spec;

use std::alloc::{AllocError, Global};
use vs_lexer::{Token, TokenKind};

/// The kind of token n, if there is one.
fn kind_at(tokens: &[Token], n: usize) -> Option<TokenKind>
    ensures { result ≡ out.kind_at tokens.now n }
{
    if n < tokens.len() {
        Some(tokens[n].kind)
    } else {
        None
    }
}

fn is_star(kind: Option<TokenKind>) -> bool
    ensures { result ≡ out.is_star kind }
{
    matches!(kind, Some(TokenKind::Star))
}

fn is_close(kind: Option<TokenKind>) -> bool
    ensures { result ≡ out.is_close kind }
{
    matches!(kind, Some(TokenKind::CloseParen))
}

fn is_open(kind: TokenKind) -> bool
    ensures { result ≡ out.is_open kind }
{
    matches!(kind, TokenKind::OpenParen)
}

/// Whether an attribute begins with the first of these tokens: `(`, `*`, and no `)`.
fn begins_attribute(tokens: &[Token]) -> bool
    ensures value { result ≡ spec.begins_attribute tokens.now }
    ensures some { result ≡ true → 2 ≤ length tokens.now }
{
    match tokens {
        [first, _, ..] => {
            is_open(first.kind) && is_star(kind_at(tokens, 1)) && !is_close(kind_at(tokens, 2))
        }
        _ => false,
    }
}

/// Whether an attribute ends with the first two of these tokens: `*` and `)`.
fn ends_attribute(tokens: &[Token]) -> bool
    ensures value { result ≡ spec.ends_attribute tokens.now }
    ensures some { result ≡ true → 2 ≤ length tokens.now }
{
    match tokens {
        [_, _, ..] => is_star(kind_at(tokens, 0)) && is_close(kind_at(tokens, 1)),
        _ => false,
    }
}

/// How many tokens there are up to the first end of an attribute and with it.
fn to_end(tokens: &[Token]) -> Option<usize>
    ensures value { result ≡ spec.to_end tokens.now }
    ensures within { IfSome result (λ n. n ≤ length tokens.now) }
{
    let mut at = 0;
    while at < tokens.len() {
        if ends_attribute(&tokens[at..]) {
            return Some(at + 2);
        }
        at += 1;
    }
    None
}

/// The tokens without those of attributes.
pub(crate) fn without_attributes(alloc: Global, tokens: &[Token]) -> Result<Vec<Token>, AllocError>
    ensures { IfOk result (λ v. v.items ≡ spec.without_attributes tokens.now) }
{
    let mut kept = Vec::new(alloc);
    let mut next = 0;
    while next < tokens.len() {
        let rest = &tokens[next..];
        if !begins_attribute(rest) {
            kept.push(tokens[next])?;
            next += 1;
            continue;
        }
        match to_end(&rest[2..]) {
            Some(length) => next += 2 + length,
            None => {
                kept.extend_from_slice(rest)?;
                return Ok(kept);
            }
        }
    }
    Ok(kept)
}

//! Sizes that stand in front of their numbers as tokens of their own (IEEE 1364-2005, 3.5.1).

ghost use Rattle.std.specs.Prelude.{◌≡◌, ◌⊎◌, ◌++◌, ◌∷◌, [], true, false, Ok, OnOk, IfErr, IfOk, MatchResult};
ghost use Rattle.vs_pre.specs.declared.error.PreError.TheVariants as error;
ghost use Rattle.vs_pre.specs.Sizes as spec;
ghost use Rattle.vs_pre.specs.Preprocessing as spec_of;
ghost use Rattle.vs_pre.specs.Reading.{IsFault};

use crate::error::PreError;
use crate::words::{bytes, is_based, is_decimal};
use std::alloc::{AllocError, Global};
use vs_lexer::{Span, Token, is_literal_in_range};

/// Whether a number begins with the quote of its base, and so has no size of its own.
fn lacks_size(text: &[u8], token: &Token) -> bool
    ensures { result ≡ spec.lacks_size text.now token.now }
{
    is_based(token.kind) && matches!(bytes(text, token), [b'\'', ..])
}

/// Whether the first token is the size of the second.
fn is_size_of(text: &[u8], size: &Token, number: &Token) -> bool
    ensures { result ≡ spec.is_size_of text.now size.now number.now }
{
    is_decimal(size.kind) && lacks_size(text, number)
}

/// Whether they are a number in range, put together.
fn is_fitting(alloc: Global, text: &[u8], size: &Token, number: &Token) -> Result<bool, AllocError>
    ensures { IfOk result (λ b. b ≡ spec.is_fitting text.now size.now number.now) }
{
    let mut whole = bytes(text, size).to_vec(alloc)?;
    whole.extend_from_slice(bytes(text, number))?;
    Ok(is_literal_in_range(whole.as_slice()))
}

/// Both as one token.
fn with_size(size: &Token, number: &Token) -> Token
    ensures { result ≡ spec.with_size size.now number.now }
{
    Token {
        kind: number.kind,
        start: number.start,
        end: number.end,
        at: size.at,
        size: Some(Span {
            start: size.start,
            end: size.end,
        }),
    }
}

/// Puts a size and its number, which have to be in range together, out as one token.
fn put_sized(
    alloc: Global,
    text: &[u8],
    size: &Token,
    number: &Token,
    out: &mut Vec<Token>,
) -> Result<(), PreError>
    ensures fits { OnOk result (spec.is_fitting text.now size.now number.now ≡ true) }
    ensures put { OnOk result (out.new.items ≡ out.old.items ++ spec.with_size size.now number.now ∷ []) }
    ensures fault { IfErr result (λ e. ((spec.is_fitting text.now size.now number.now ≡ false) × (e ≡ error.BadLiteral size.now.at)) ⊎ (e ≡ error.Memory)) }
{
    match is_fitting(alloc, text, size, number) {
        Err(_) => Err(PreError::Memory),
        Ok(false) => Err(PreError::BadLiteral(size.at)),
        Ok(true) => match out.push(with_size(size, number)) {
            Ok(()) => Ok(()),
            Err(_) => Err(PreError::Memory),
        },
    }
}

/// The tokens with sizes put to their numbers.
pub(crate) fn sized(alloc: Global, text: &[u8], tokens: &[Token]) -> Result<Vec<Token>, PreError>
    ensures { MatchResult result (λ v. spec_of.sized text.now tokens.now ≡ Ok v.items) (IsFault (spec_of.sized text.now tokens.now)) }
{
    let mut out = Vec::new(alloc);
    let mut next = 0;
    while next < tokens.len() {
        let token = &tokens[next];
        let behind = next + 1;
        if behind < tokens.len() && is_size_of(text, token, &tokens[behind]) {
            match put_sized(alloc, text, token, &tokens[behind], &mut out) {
                Ok(()) => next += 2,
                Err(error) => return Err(error),
            }
        } else {
            if out.push(*token).is_err() {
                return Err(PreError::Memory);
            }
            next += 1;
        }
    }
    Ok(out)
}

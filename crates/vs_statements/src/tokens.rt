//! Single tokens.

ghost use Rattle.std.specs.Prelude.{◌≡◌, ◌+◌, ◌<◌, ◌≤◌, nat_eq, max, Ok, MatchOption, false, MatchResult};
ghost use Rattle.vs_grammar.specs.Grammars.{opt};
ghost use Rattle.vs_grammar.specs.Grammars.Phrase.{tok};
ghost use Rattle.vs_grammar.specs.Meaning.{is_there};
ghost use Rattle.vs_grammar.specs.Kinds.{number_of, numbers_of};
ghost use Rattle.vs_grammar.specs.Predictive.{is_member};
ghost use Rattle.vs_statements.specs.Reading.{kind_at, Parsed, Picked, kinds_in, Takes};

use crate::depth::Depth;
use crate::error::ParseError;
use crate::input::{Found, Input};
use vs_lexer::TokenKind;

/// Its number in the grammar.
pub fn number(kind: TokenKind) -> u8
    ensures { result ≡ number_of kind }
{
    kind as u8
}

/// Whether this kind of token stands at this place.
pub fn stands(input: &Input<'_>, at: u32, kind: TokenKind) -> bool
    ensures { result ≡ nat_eq (kind_at input.now.tokens.now at) (number_of kind) }
{
    if (at as usize) < input.tokens.len() {
        number(input.tokens[at as usize].kind) == number(kind)
    } else {
        false
    }
}

/// The place behind a token of this kind.
pub fn take(input: &Input<'_>, at: u32, kind: TokenKind) -> Result<u32, ParseError>
    ensures { Takes input.now.tokens.now (number_of kind) at result }
{
    if stands(input, at, kind) {
        Ok(at + 1)
    } else {
        Err(ParseError::Syntax(at))
    }
}

/// The greater of two numbers of levels.
pub fn larger(left: u32, right: u32) -> u32
    ensures { result ≡ max left right }
{
    if left < right { right } else { left }
}

/// Whether one of these kinds of tokens stands at this place.
pub fn stands_any(input: &Input<'_>, at: u32, kinds: &[TokenKind]) -> bool
    ensures { result ≡ is_member (kind_at input.now.tokens.now at) (numbers_of kinds.now) }
{
    for kind in kinds {
        if stands(input, at, *kind) {
            return true;
        }
    }
    false
}

/// What the table has beside the kind of the token at this place, and the place behind that token.
pub fn choose<T: Copy + Drop>(
    input: &Input<'_>,
    at: u32,
    table: &[(TokenKind, T)],
) -> Option<Found<T>>
    ensures { MatchOption result (is_member (kind_at input.now.tokens.now at) (kinds_in table.now) ≡ false) (λ f. Picked input.now.tokens.now table.now at f.value f.to) }
{
    for (kind, value) in table {
        if stands(input, at, *kind) {
            return Some(Found {
                value: *value,
                to: at + 1,
            });
        }
    }
    None
}

/// Whether a token of this kind stands at this place, and the place behind it if it does.
pub fn optional(input: &Input<'_>, at: u32, depth: Depth, kind: TokenKind) -> Found<bool>
    ensures { Parsed input.now (opt (tok (number_of kind))) (λ b d. is_there d) depth.value at result.value result.to }
{
    if stands(input, at, kind) {
        Found {
            value: true,
            to: at + 1,
        }
    } else {
        Found {
            value: false,
            to: at,
        }
    }
}

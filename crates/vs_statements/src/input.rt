//! The tokens that are read, and what is found in them.

ghost use Rattle.std.specs.Prelude.{◌≡◌, ◌++◌, [], ◌∷◌, Ok, Err, MatchResult};
ghost use Rattle.vs_lexer.specs.Laws.{AreTokens};
ghost use Rattle.std.proofs.Props.{props};

use crate::error::ParseError;
use std::alloc::Global;
use vs_lexer::Token;

/// A text, tokens of it, and where memory comes from.
#[derive(Clone, Copy)]
pub struct Input<'a> {
    pub alloc: Global,
    pub text: &'a [u8],
    pub tokens: &'a [Token],
    pub ghost lexed: { AreTokens text.now tokens.now } by { Prim.hlevel props },
}

/// What was read, and the place behind it.
#[derive(Drop)]
pub struct Found<T: Drop> {
    pub value: T,
    pub to: u32,
}

/// What was read, the place behind it, and how many levels it has.
#[derive(Drop)]
pub struct Nested<T: Drop> {
    pub value: T,
    pub to: u32,
    pub height: u32,
}

/// The first of two, and the second if it isn't an error: where it is one, the first is let go here.
pub fn both<A: Drop, B>(first: A, second: Result<B, ParseError>) -> Result<(A, B), ParseError>
    ensures { MatchResult result (λ pair. (pair.0 ≡ first) × (second ≡ Ok pair.1)) (λ e. second ≡ Err e) }
{
    let second = second?;
    Ok((first, second))
}

/// The list with a value behind it.
pub fn longer<T: Drop>(list: Vec<T>, value: T) -> Result<Vec<T>, ParseError>
    ensures { MatchResult result (λ v. v.items ≡ list.items ++ (value ∷ [])) (λ e. e ≡ ParseError.Memory) }
{
    let mut list = list;
    list.push(value)?;
    Ok(list)
}

/// The list of one value.
pub fn one<T: Drop>(alloc: Global, value: T) -> Result<Vec<T>, ParseError>
    ensures { MatchResult result (λ v. v.items ≡ value ∷ []) (λ e. e ≡ ParseError.Memory) }
{
    longer(Vec::new(alloc), value)
}

//! Lists with commas between their parts.

ghost use Rattle.std.specs.Prelude.{◌≤◌, ◌<◌, ◌^◌, ℕ, List, Result, Ok, map};
ghost use Rattle.vs_grammar.specs.Grammars.{Phrase};
ghost use Rattle.vs_grammar.specs.Verilog.{t, separated, ◌⨾◌};
ghost use Rattle.vs_grammar.specs.Meaning.{D, behind_sign, list_of};
ghost use Rattle.vs_lexer.specs.declared.token.TokenKind.TheVariants as kind;
ghost use Rattle.vs_statements.specs.Reading.{Answers};

use crate::depth::Depth;
use crate::error::ParseError;
use crate::input::{Found, Input, both, longer, one};
use crate::tokens::{stands, take};
use vs_lexer::TokenKind;

/// What the parts of a list are: the phrase of one, the tree that a derivation of it stands for, and how a value is seen as such a tree.
pub trait Part {
    type Value: Drop;

    ghost Tree: { Type 0 };

    ghost phrase: { Phrase };

    ghost meaning: { (ℕ → List ℕ) → D phrase → Tree };

    ghost view: { Self.Value → Tree };
}

/// A part, and the comma before it.
fn behind_comma<P: Part, F: Fn(u32, Depth) -> Result<Found<P::Value>, ParseError>>(
    input: &Input<'_>,
    at: u32,
    depth: Depth,
    read: &F,
) -> Result<Found<P::Value>, ParseError>
    requires callable { (i : ℕ) → i < 2 ^ 32 → F.pre read.now i depth }
    requires reads { (i : ℕ) (r : _) → i < 2 ^ 32 → F.post read.now i depth r → Answers input.now P.phrase P.meaning P.view depth i r }
    ensures { Answers input.now (t kind.Comma ⨾ P.phrase) (λ b d. behind_sign (P.meaning b) d) P.view depth at result }
{
    let comma = take(input, at, TokenKind::Comma)?;
    read(comma, depth)
}

/// A list with commas between its parts, each of which is read by a call with its place and its depth.
pub fn comma_list<P: Part, F: Fn(u32, Depth) -> Result<Found<P::Value>, ParseError>>(
    input: &Input<'_>,
    at: u32,
    depth: Depth,
    read: F,
) -> Result<Found<Vec<P::Value>>, ParseError>
    requires callable { (i : ℕ) → i < 2 ^ 32 → F.pre read i depth }
    requires reads { (i : ℕ) (r : _) → i < 2 ^ 32 → F.post read i depth r → Answers input.now P.phrase P.meaning P.view depth i r }
    ensures { Answers input.now (separated P.phrase) (λ b d. list_of (P.meaning b) d) (λ v. map P.view v.items) depth at result }
{
    let first = read(at, depth)?;
    let mut list = one(input.alloc, first.value)?;
    let mut to = first.to;
    while stands(input, to, TokenKind::Comma) {
        let next = behind_comma::<P, F>(input, to, depth, &read);
        let (before, next) = both(list, next)?;
        list = longer(before, next.value)?;
        to = next.to;
    }
    Ok(Found { value: list, to })
}

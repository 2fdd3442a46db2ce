//! Names and numbers.

ghost use Rattle.std.specs.Prelude.{◌≡◌, ◌≤◌, Ok, true};
ghost use Rattle.vs_grammar.specs.Predictive.{is_member};
ghost use Rattle.vs_grammar.specs.Verilog.{t, block_name};
ghost use Rattle.vs_grammar.specs.Verilog as grammar;
ghost use Rattle.vs_grammar.specs.Meaning as meaning;
ghost use Rattle.vs_lexer.specs.declared.token.TokenKind.TheVariants as kind;
ghost use Rattle.vs_ast.specs.Views as view;
ghost use Rattle.vs_statements.specs.Parts as part;
ghost use Rattle.vs_statements.specs.Reading.{Chosen, bytes_in, kind_at, Answers, Names};

use crate::depth::Depth;
use crate::error::ParseError;
use crate::input::{Found, Input};
use crate::tokens::{stands, take};
use vs_ast::{Literal, Name};
use vs_base::Text;
use vs_lexer::{TokenKind, read_literal, spelling};

/// An identifier.
pub fn identifier(input: &Input<'_>, at: u32) -> Result<Found<Name>, ParseError>
    ensures { Names input.now at result }
{
    let to = take(input, at, TokenKind::Identifier)?;
    let bytes = spelling(input.text, input.tokens, at as usize).to_vec(input.alloc)?;
    Ok(Found {
        value: Name {
            text: Text::of(bytes),
            place: at,
        },
        to,
    })
}

/// The number that stands here.
pub fn literal(input: &Input<'_>, at: u32) -> Found<Literal>
    requires number { is_member (kind_at input.now.tokens.now at) part.number_kinds ≡ true }
    ensures { Chosen input.now.tokens.now grammar.number (meaning.literal_of (bytes_in input.now)) at (view.literal result.value) result.to }
{
    let number = read_literal(input.text, input.tokens, at as usize);
    let value = Literal {
        place: at,
        value: number.value,
        unknown: number.unknown,
        size: number.size,
        signed: number.signed,
        sized: number.sized,
    };
    Found { value, to: at + 1 }
}

/// The name behind the colon after a `begin`, if there is one.
pub fn label(input: &Input<'_>, at: u32, depth: Depth) -> Result<Found<Option<Name>>, ParseError>
    ensures { Answers input.now block_name meaning.block_name_of (view.option view.name) depth at result }
{
    if !stands(input, at, TokenKind::Colon) {
        return Ok(Found {
            value: None,
            to: at,
        });
    }
    let colon = take(input, at, TokenKind::Colon)?;
    let name = identifier(input, colon)?;
    Ok(Found {
        value: Some(name.value),
        to: name.to,
    })
}

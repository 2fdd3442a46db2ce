//! The design that a text elaborates to.

ghost use Rattle.std.specs.Prelude.{◌≡◌, ◌≤◌, ℕ, List, Ok, IfOk, IfSome, MatchOption, length, option_map};
ghost use Rattle.vs_lexer.specs.declared.token.Token.{Token};
ghost use Rattle.vs_pre.specs.Reads.{ReadsAs};
ghost use Rattle.vs_grammar.specs.Trees as tree;
ghost use Rattle.vs_grammar.specs.Spelled.{SpelledBy};
ghost use Rattle.vs_grammar.specs.Shapes.{IsShaped};
ghost use Rattle.vs_ast.specs.Views as view;
ghost use Rattle.vs_tops.specs.Designs.{elaborated_by};
ghost use Rattle.vs_design.specs.Designs.{Design};
ghost use Rattle.vs_flat.specs.DesignOf.{design_of};
ghost use Rattle.vs_flat.specs.Lawful.{IsLawful};
ghost use Rattle.vs_reread.specs.Drawings.{IsDrawing};

use std::alloc::{AllocError, Global};
use vs_ast::Source;
use vs_elab::ElabError;
use vs_flat::Flat;
use vs_grammar::laws::shaped_law;
use vs_lexer::{LexError, MAX_BYTES, Token, lex, tokens_law};
use vs_names::Drawing;
use vs_parser::{ParseError, parse};
use vs_pre::{PreError, kept_law, preprocess};
use vs_tops::{flatten_by, top_name};

/// The tokens as which a text is read, if it is.
fn tokens_of(alloc: Global, text: &[u8]) -> Result<Option<Vec<Token>>, AllocError>
    requires { length text.now ≤ MAX_BYTES }
    ensures { IfOk result (λ o. MatchOption o ((tokens : List Token) → ReadsAs text.now tokens → ⊥) (λ v. ReadsAs text.now v.items)) }
{
    tokens_law();
    let written = match lex(alloc, text) {
        Ok(written) => written,
        Err(LexError::Memory) => return Err(AllocError),
        Err(_) => return Ok(None),
    };
    match preprocess(alloc, text, written) {
        Ok(tokens) => Ok(Some(tokens)),
        Err(PreError::Memory) => Err(AllocError),
        Err(_) => Ok(None),
    }
}

/// The tree that the tokens of a text spell, if they spell one.
fn tree_of(alloc: Global, text: &[u8], tokens: &[Token]) -> Result<Option<Source>, AllocError>
    requires { ReadsAs text.now tokens.now }
    ensures { IfOk result (λ o. MatchOption o ((s : tree.Source) → SpelledBy text.now tokens.now s → ⊥)
        (λ v. SpelledBy text.now tokens.now (view.source v) × ((s : tree.Source) → SpelledBy text.now tokens.now s → view.source v ≡ s))) }
{
    tokens_law();
    kept_law();
    match parse(alloc, text, tokens) {
        Ok(source) => Ok(Some(source)),
        Err(error) => match error {
            ParseError::Memory => Err(AllocError),
            _ => Ok(None),
        },
    }
}

/// The flat design that a tree elaborates to from the module of this name, if it does.
fn flat_of(alloc: Global, source: &Source, name: Option<&[u8]>) -> Result<Option<Flat>, AllocError>
    requires { IsShaped (view.source source.now) }
    ensures design { IfOk result (λ o. MatchOption o ((d : Design) → elaborated_by (view.source source.now) (option_map (λ n. n.now) name.entry) ≡ Ok d → ⊥)
        (λ f. elaborated_by (view.source source.now) (option_map (λ n. n.now) name.entry) ≡ Ok (design_of f))) }
    ensures lawful { IfOk result (λ o. IfSome o IsLawful) }
{
    match flatten_by(alloc, source, name) {
        Ok(flat) => Ok(Some(flat)),
        Err(ElabError::Memory) => Err(AllocError),
        Err(ElabError::Broken(_)) => Ok(None),
    }
}

/// The design that a text of at most 4,194,304 bytes elaborates to from the module of this name, or where none is given from the one that no instance names, with the tokens of
/// the text, whether or not it keeps the rules of an accepted design; None where it elaborates to none. The design is lawful. The only error is that memory ran out.
pub fn draw(alloc: Global, text: &[u8], top: Option<&[u8]>) -> Result<Option<Drawing>, AllocError>
    requires { length text.now ≤ MAX_BYTES }
    ensures drawing { IfOk result (λ o. IsDrawing text.now (option_map (λ t. t.now) top.entry) o) }
    ensures lawful { IfOk result (λ o. IfSome o (λ d. IsLawful d.flat)) }
{
    tokens_law();
    kept_law();
    shaped_law();
    let Some(tokens) = tokens_of(alloc, text)? else {
        return Ok(None);
    };
    let Some(source) = tree_of(alloc, text, tokens.as_slice())? else {
        return Ok(None);
    };
    let name = top_name(alloc, &source, top)?;
    let Some(flat) = flat_of(alloc, &source, name)? else {
        return Ok(None);
    };
    Ok(Some(Drawing::of(tokens, flat)))
}

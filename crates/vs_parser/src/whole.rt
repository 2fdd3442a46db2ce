//! Whole texts.

ghost use Rattle.std.specs.Prelude.{◌≡◌, ◌≤◌, ℕ, length, IfOk, IfErr, MatchOption, MatchResult, IsErrOf, IsErrAnd};
ghost use Rattle.vs_lexer.specs.Laws.{AreTokens};
ghost use Rattle.vs_grammar.specs.Spelled.{HasSyntaxFault, IsTooDeep, LeftOutAt, NoneLeftOut, SpelledBy};
ghost use Rattle.vs_grammar.specs.Trees as tree;
ghost use Rattle.vs_ast.specs.Views as view;
ghost use Rattle.vs_parser.specs.Faults.{Fault, IsDepthAnswer, IsSyntaxAnswer};

use crate::modules::source;
use std::alloc::Global;
use vs_ast::Source;
use vs_grammar::laws::spelled_law;
use vs_lexer::{Token, is_left_out};
use vs_statements::ParseError;
use vs_statements::depth::Depth;
use vs_statements::input::Input;

/// The first token that is left out, if there is one.
fn first_left_out(tokens: &[Token]) -> Option<u32>
    requires { length tokens.now ≤ 1048576 }
    ensures { MatchOption result (NoneLeftOut tokens.now) (λ k. LeftOutAt tokens.now k) }
{
    for n in 0..tokens.len() {
        if is_left_out(tokens, n) {
            return Some(n as u32);
        }
    }
    None
}

/// The syntax tree of tokens of which none is left out.
fn read_all(input: &Input<'_>) -> Result<Source, ParseError>
    requires kept { NoneLeftOut input.now.tokens.now }
    ensures { MatchResult result (λ s. SpelledBy input.now.text.now input.now.tokens.now (view.source s)) (λ e. Fault input.now.tokens.now e) }
{
    let found = source(input, 0, Depth { value: 0 })?;
    if (found.to as usize) < input.tokens.len() {
        return Err(ParseError::Syntax(found.to));
    }
    Ok(found.value)
}

/// The syntax tree that tokens of a text spell, in time linear in their number (IEEE 1364-2005, annex A). `LeftOut` names the first token that is left out of the language. Where none is, `Syntax` names the first token
/// with which no list of tokens that the grammar derives goes on, whatever its length, and `TooDeep` one with which such a list goes on,
/// but none of at most 200 levels. The end of the text counts as a token. Tokens that spell a tree are refused only where there is not
/// enough memory.
pub fn parse(alloc: Global, text: &[u8], tokens: &[Token]) -> Result<Source, ParseError>
    requires { AreTokens text.now tokens.now }
    ensures found { IfOk result (λ s. SpelledBy text.now tokens.now (view.source s)) }
    // what the tokens spell is read, where there is memory
    ensures complete { (s : tree.Source) → SpelledBy text.now tokens.now s → MatchResult result (λ v. view.source v ≡ s) (λ e. e ≡ ParseError.Memory) }
    ensures fault { IfErr result (λ e. Fault tokens.now e) }
    // a token that is left out is told, whatever else is wrong, and without memory
    ensures left_out { (k : ℕ) → LeftOutAt tokens.now k → IsErrOf result (ParseError.LeftOut k) }
    ensures syntax { (k : ℕ) → HasSyntaxFault tokens.now k → IsErrAnd result (λ e. IsSyntaxAnswer k e) }
    ensures deep { (k : ℕ) → IsTooDeep tokens.now k → IsErrAnd result (λ e. IsDepthAnswer e) }
{
    spelled_law();
    if let Some(at) = first_left_out(tokens) {
        return Err(ParseError::LeftOut(at));
    }
    let input = Input {
        alloc,
        text,
        tokens,
    };
    read_all(&input)
}

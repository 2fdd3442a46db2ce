//! Types, variables of functions and of named blocks, and the heads of loops (IEEE 1364-2005, A.2 and A.6.8).

ghost use Rattle.std.specs.Prelude.{◌≡◌, ◌≤◌, Ok, [], map};
ghost use Rattle.vs_lexer.specs.declared.token.TokenKind.TheVariants as kind;
ghost use Rattle.vs_grammar.specs.Grammars.{opt, star};
ghost use Rattle.vs_grammar.specs.Predictive.{is_member};
ghost use Rattle.vs_grammar.specs.Verilog.{Rule as rule, r, t, separated};
ghost use Rattle.vs_grammar.specs.Verilog as grammar;
ghost use Rattle.vs_grammar.specs.Meaning as meaning;
ghost use Rattle.vs_grammar.specs.Trees as tree;
ghost use Rattle.vs_ast.specs.Views as view;
ghost use Rattle.vs_statements.specs.Parts as part;
ghost use Rattle.vs_statements.specs.Reading.{Answers, kind_at};

use crate::commas::{Part, comma_list};
use crate::depth::Depth;
use crate::error::ParseError;
use crate::expressions::expression;
use crate::input::{Found, Input, both, longer};
use crate::tokens::{optional, stands, stands_any, take};
use crate::words::identifier;
use vs_ast::{BlockScope, LoopHead, Name, Range, Setting, ValueType, Variables};
use vs_lexer::TokenKind;

/// The bounds of a vector, or the addresses of a memory or an array of nets.
pub fn range(input: &Input<'_>, at: u32, depth: Depth) -> Result<Found<Range>, ParseError>
    ensures { Answers input.now (r rule.Range) meaning.range_of view.range depth at result }
{
    let open = take(input, at, TokenKind::OpenBracket)?;
    let left = expression(input, open, depth)?;
    let colon = take(input, left.to, TokenKind::Colon);
    let (left, colon) = both(left, colon)?;
    let right = expression(input, colon, depth);
    let (left, right) = both(left, right)?;
    let close = take(input, right.to, TokenKind::CloseBracket);
    let (ends, close) = both((left.value, right.value), close)?;
    let (left, right) = ends;
    let value = Range {
        bracket: at,
        left,
        right,
    };
    Ok(Found { value, to: close })
}

/// A range, if there is one.
pub fn optional_range(
    input: &Input<'_>,
    at: u32,
    depth: Depth,
) -> Result<Found<Option<Range>>, ParseError>
    ensures { Answers input.now (opt (r rule.Range)) (λ b d. meaning.option_of (meaning.range_of b) d) (view.option view.range) depth at result }
{
    if !stands(input, at, TokenKind::OpenBracket) {
        return Ok(Found {
            value: None,
            to: at,
        });
    }
    let inner = range(input, at, depth)?;
    Ok(Found {
        value: Some(inner.value),
        to: inner.to,
    })
}

/// A sign and a range, which both may be missing.
fn range_type(input: &Input<'_>, at: u32, depth: Depth) -> Result<Found<ValueType>, ParseError>
    ensures { Answers input.now grammar.sign_and_range meaning.range_type_of view.value_type depth at result }
{
    let signed = optional(input, at, depth, TokenKind::KeywordSigned);
    let range = optional_range(input, signed.to, depth)?;
    Ok(Found {
        value: ValueType::Ranged {
            signed: signed.value,
            range: range.value,
        },
        to: range.to,
    })
}

/// `integer`, or else a sign and a range.
pub fn value_type(input: &Input<'_>, at: u32, depth: Depth) -> Result<Found<ValueType>, ParseError>
    ensures { Answers input.now (r rule.ValueType) meaning.value_type_of view.value_type depth at result }
{
    if stands(input, at, TokenKind::KeywordInteger) {
        let to = take(input, at, TokenKind::KeywordInteger)?;
        Ok(Found {
            value: ValueType::Integer,
            to,
        })
    } else {
        range_type(input, at, depth)
    }
}

/// `reg`, with a sign and a range.
pub fn reg_type(input: &Input<'_>, at: u32, depth: Depth) -> Result<Found<ValueType>, ParseError>
    ensures { Answers input.now grammar.reg_type meaning.reg_type_of view.value_type depth at result }
{
    let word = take(input, at, TokenKind::KeywordReg)?;
    let found = range_type(input, word, depth)?;
    Ok(found)
}

/// What variables are declared as: `reg`, with a sign and a range, or `integer`.
fn variable_type(input: &Input<'_>, at: u32, depth: Depth) -> Result<Found<ValueType>, ParseError>
    ensures { Answers input.now (r rule.VariableType) meaning.variable_type_of view.value_type depth at result }
{
    if stands(input, at, TokenKind::KeywordReg) {
        reg_type(input, at, depth)
    } else {
        let to = take(input, at, TokenKind::KeywordInteger)?;
        Ok(Found {
            value: ValueType::Integer,
            to,
        })
    }
}

/// A name.
fn name(input: &Input<'_>, at: u32, depth: Depth) -> Result<Found<Name>, ParseError>
    ensures { Answers input.now (t kind.Identifier) meaning.name_of view.name depth at result }
{
    identifier(input, at)
}

/// A name, as a part of a list.
struct NamePart;

impl Part for NamePart {
    type Value = Name;

    ghost Tree = { tree.Name };

    ghost phrase = { t kind.Identifier };

    ghost meaning = { meaning.name_of };

    ghost view = { view.name };
}

/// Names, with commas between them.
pub fn identifiers(input: &Input<'_>, at: u32, depth: Depth) -> Result<Found<Vec<Name>>, ParseError>
    ensures { Answers input.now (separated (t kind.Identifier)) (λ b d. meaning.list_of (meaning.name_of b) d) (λ v. map view.name v.items) depth at result }
{
    comma_list::<NamePart, _>(input, at, depth, |place, inner| {
        name(input, place, inner)
    })
}

/// A declaration of variables of a function or of a block.
pub fn variables(input: &Input<'_>, at: u32, depth: Depth) -> Result<Found<Variables>, ParseError>
    ensures { Answers input.now (r rule.Variables) meaning.variables_of view.variables depth at result }
{
    let value_type = variable_type(input, at, depth)?;
    let names = identifiers(input, value_type.to, depth);
    let (value_type, names) = both(value_type, names)?;
    let end = take(input, names.to, TokenKind::Semicolon);
    let (declared, end) = both((value_type.value, names.value), end)?;
    let (value_type, names) = declared;
    let value = Variables {
        place: at,
        value_type,
        names,
    };
    Ok(Found { value, to: end })
}

/// Whether a declaration of variables begins here.
pub fn are_variables_at(input: &Input<'_>, at: u32) -> bool
    ensures { result ≡ is_member (kind_at input.now.tokens.now at) part.variable_kinds }
{
    stands_any(
        input,
        at,
        &[TokenKind::KeywordReg, TokenKind::KeywordInteger],
    )
}

/// Declarations of variables.
pub fn variable_list(
    input: &Input<'_>,
    at: u32,
    depth: Depth,
) -> Result<Found<Vec<Variables>>, ParseError>
    ensures { Answers input.now (star (r rule.Variables)) (λ b d. meaning.each_onto (meaning.variables_of b) d []) (λ v. map view.variables v.items) depth at result }
{
    let mut list = Vec::new(input.alloc);
    let mut to = at;
    while are_variables_at(input, to) {
        let next = variables(input, to, depth);
        let (before, next) = both(list, next)?;
        list = longer(before, next.value)?;
        to = next.to;
    }
    Ok(Found { value: list, to })
}

/// The name of a block, and the variables that are declared there.
fn block_scope(input: &Input<'_>, at: u32, depth: Depth) -> Result<Found<BlockScope>, ParseError>
    ensures { Answers input.now (r rule.BlockScope) meaning.scope_of view.block_scope depth at result }
{
    let colon = take(input, at, TokenKind::Colon)?;
    let name = identifier(input, colon)?;
    let list = variable_list(input, name.to, depth);
    let (name, list) = both(name, list)?;
    Ok(Found {
        value: BlockScope {
            name: name.value,
            variables: list.value,
        },
        to: list.to,
    })
}

/// The name of a block, with its variables, if there is one.
pub fn optional_scope(
    input: &Input<'_>,
    at: u32,
    depth: Depth,
) -> Result<Found<Option<BlockScope>>, ParseError>
    ensures { Answers input.now (opt (r rule.BlockScope)) (λ b d. meaning.option_of (meaning.scope_of b) d) (view.option view.block_scope) depth at result }
{
    if !stands(input, at, TokenKind::Colon) {
        return Ok(Found {
            value: None,
            to: at,
        });
    }
    let inner = block_scope(input, at, depth)?;
    Ok(Found {
        value: Some(inner.value),
        to: inner.to,
    })
}

/// A name and the value that it is given: of a parameter, or in the head of a loop.
pub fn setting(input: &Input<'_>, at: u32, depth: Depth) -> Result<Found<Setting>, ParseError>
    ensures { Answers input.now (r rule.Setting) meaning.setting_of view.setting depth at result }
{
    let name = identifier(input, at)?;
    let sign = take(input, name.to, TokenKind::Assign);
    let (name, sign) = both(name, sign)?;
    let value = expression(input, sign, depth);
    let (name, value) = both(name, value)?;
    Ok(Found {
        value: Setting {
            name: name.value,
            value: value.value,
        },
        to: value.to,
    })
}

/// The head of a loop, with its brackets.
pub fn loop_head(input: &Input<'_>, at: u32, depth: Depth) -> Result<Found<LoopHead>, ParseError>
    ensures { Answers input.now (r rule.LoopHead) meaning.head_of view.loop_head depth at result }
{
    let word = take(input, at, TokenKind::KeywordFor)?;
    let open = take(input, word, TokenKind::OpenParen)?;
    let start = setting(input, open, depth)?;
    let start_end = take(input, start.to, TokenKind::Semicolon);
    let (start, start_end) = both(start, start_end)?;
    let test = expression(input, start_end, depth);
    let (start, test) = both(start, test)?;
    let test_end = take(input, test.to, TokenKind::Semicolon);
    let (tested, test_end) = both((start.value, test.value), test_end)?;
    let step = setting(input, test_end, depth);
    let (tested, step) = both(tested, step)?;
    let close = take(input, step.to, TokenKind::CloseParen);
    let (head, close) = both((tested, step.value), close)?;
    let (tested, step) = head;
    let (start, test) = tested;
    let value = LoopHead {
        place: at,
        variable: start.name,
        first: start.value,
        test,
        again: step.name,
        next: step.value,
    };
    Ok(Found { value, to: close })
}

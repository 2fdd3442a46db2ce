//! The items of modules and of generate blocks (IEEE 1364-2005, A.1.4 and A.4.2).

ghost use Rattle.std.specs.Prelude.{◌≡◌, ◌≤◌, Ok, [], ◌++◌, map, MatchResult};
ghost use Rattle.vs_grammar.specs.Grammars.{star};
ghost use Rattle.vs_grammar.specs.Verilog.{Rule as rule, r};
ghost use Rattle.vs_grammar.specs.Verilog as grammar;
ghost use Rattle.vs_grammar.specs.Meaning as meaning;
ghost use Rattle.vs_grammar.specs.Trees as tree;
ghost use Rattle.vs_grammar.specs.Predictive.{is_member};
ghost use Rattle.vs_ast.specs.Views as view;
ghost use Rattle.vs_parser.specs.Parts as part;
ghost use Rattle.vs_parser.specs.ItemLists.{ItemRead};
ghost use Rattle.vs_statements.specs.Reading.{Refused, kind_at, Answers};

use crate::declarations::{local_parameters, parameters, ports_item, regs, wires};
use crate::functions::function;
use crate::instances::instances;
use crate::processes::{always, assigns, initial};
use vs_ast::{GenerateArm, GenerateBlock, Item};
use vs_lexer::TokenKind;
use vs_statements::ParseError;
use vs_statements::depth::Depth;
use vs_statements::expressions::{expression, expressions, is_expression_at};
use vs_statements::input::{Found, Input, both, longer, one};
use vs_statements::tokens::{optional, stands, stands_any, take};
use vs_statements::types::{identifiers, loop_head};
use vs_statements::words::label;

/// What an item begins with that may stand in a generate block.
const GENERATE_ITEM_KINDS: [TokenKind; 12] = [
    TokenKind::Identifier,
    TokenKind::KeywordReg,
    TokenKind::KeywordWire,
    TokenKind::KeywordLocalParam,
    TokenKind::KeywordAssign,
    TokenKind::KeywordAlways,
    TokenKind::KeywordInitial,
    TokenKind::KeywordGenvar,
    TokenKind::KeywordInteger,
    TokenKind::KeywordFor,
    TokenKind::KeywordIf,
    TokenKind::KeywordCase,
];

/// What an item of a module begins with.
const ITEM_KINDS: [TokenKind; 17] = [
    TokenKind::KeywordInput,
    TokenKind::KeywordOutput,
    TokenKind::KeywordParameter,
    TokenKind::KeywordGenerate,
    TokenKind::KeywordFunction,
    TokenKind::Identifier,
    TokenKind::KeywordReg,
    TokenKind::KeywordWire,
    TokenKind::KeywordLocalParam,
    TokenKind::KeywordAssign,
    TokenKind::KeywordAlways,
    TokenKind::KeywordInitial,
    TokenKind::KeywordGenvar,
    TokenKind::KeywordInteger,
    TokenKind::KeywordFor,
    TokenKind::KeywordIf,
    TokenKind::KeywordCase,
];

/// What a generate block begins with.
const BLOCK_KINDS: [TokenKind; 14] = [
    TokenKind::KeywordBegin,
    TokenKind::Semicolon,
    TokenKind::Identifier,
    TokenKind::KeywordReg,
    TokenKind::KeywordWire,
    TokenKind::KeywordLocalParam,
    TokenKind::KeywordAssign,
    TokenKind::KeywordAlways,
    TokenKind::KeywordInitial,
    TokenKind::KeywordGenvar,
    TokenKind::KeywordInteger,
    TokenKind::KeywordFor,
    TokenKind::KeywordIf,
    TokenKind::KeywordCase,
];

/// Whether an item begins here that may stand in a generate block.
fn is_generate_item_at(input: &Input<'_>, at: u32) -> bool
    ensures { result ≡ is_member (kind_at input.now.tokens.now at) part.generate_item_kinds }
{
    stands_any(input, at, &GENERATE_ITEM_KINDS)
}

/// Whether an item of a module begins here.
fn is_item_at(input: &Input<'_>, at: u32) -> bool
    ensures { result ≡ is_member (kind_at input.now.tokens.now at) part.item_kinds }
{
    stands_any(input, at, &ITEM_KINDS)
}

/// An item that may stand in a generate block.
#[cycle(items)]
fn generate_item(input: &Input<'_>, at: u32, depth: Depth) -> Result<Found<Item>, ParseError>
    ensures { Answers input.now (r rule.GenerateItem) meaning.item_of view.item depth at result }
{
    if stands(input, at, TokenKind::KeywordReg) {
        regs(input, at, depth)
    } else if stands(input, at, TokenKind::KeywordWire) {
        wires(input, at, depth)
    } else if stands(input, at, TokenKind::KeywordLocalParam) {
        local_parameters(input, at, depth)
    } else if stands(input, at, TokenKind::KeywordAssign) {
        assigns(input, at, depth)
    } else if stands(input, at, TokenKind::KeywordAlways) {
        always(input, at, depth)
    } else if stands(input, at, TokenKind::KeywordInitial) {
        initial(input, at, depth)
    } else if stands(input, at, TokenKind::KeywordGenvar) {
        genvars(input, at, depth)
    } else if stands(input, at, TokenKind::KeywordInteger) {
        integers(input, at, depth)
    } else if stands(input, at, TokenKind::Identifier) {
        instances(input, at, depth)
    } else if stands(input, at, TokenKind::KeywordFor) {
        generate_for(input, at, depth)
    } else if stands(input, at, TokenKind::KeywordIf) {
        generate_if(input, at, depth)
    } else {
        generate_case(input, at, depth)
    }
}

/// A declaration of genvars.
fn genvars(input: &Input<'_>, at: u32, depth: Depth) -> Result<Found<Item>, ParseError>
    ensures { Answers input.now grammar.genvar_item meaning.genvar_item_of view.item depth at result }
{
    let word = take(input, at, TokenKind::KeywordGenvar)?;
    let names = identifiers(input, word, depth)?;
    let end = take(input, names.to, TokenKind::Semicolon);
    let (names, end) = both(names, end)?;
    let value = Item::Genvars {
        place: at,
        names: names.value,
    };
    Ok(Found { value, to: end })
}

/// A declaration of integers.
fn integers(input: &Input<'_>, at: u32, depth: Depth) -> Result<Found<Item>, ParseError>
    ensures { Answers input.now grammar.integer_item meaning.integer_item_of view.item depth at result }
{
    let word = take(input, at, TokenKind::KeywordInteger)?;
    let names = identifiers(input, word, depth)?;
    let end = take(input, names.to, TokenKind::Semicolon);
    let (names, end) = both(names, end)?;
    let value = Item::Integers {
        place: at,
        names: names.value,
    };
    Ok(Found { value, to: end })
}

/// A generate `for`.
#[cycle(items)]
fn generate_for(input: &Input<'_>, at: u32, depth: Depth) -> Result<Found<Item>, ParseError>
    ensures { Answers input.now grammar.for_item meaning.for_item_of view.item depth at result }
{
    let head = loop_head(input, at, depth)?;
    let block = block(input, head.to, depth);
    let (head, block) = both(head, block)?;
    let value = Item::new_for(input.alloc, head.value, block.value)?;
    Ok(Found {
        value,
        to: block.to,
    })
}

/// A generate `if`.
#[cycle(items)]
fn generate_if(input: &Input<'_>, at: u32, depth: Depth) -> Result<Found<Item>, ParseError>
    ensures { Answers input.now grammar.if_item meaning.if_item_of view.item depth at result }
{
    let word = take(input, at, TokenKind::KeywordIf)?;
    let open = take(input, word, TokenKind::OpenParen)?;
    let condition = expression(input, open, depth)?;
    let close = take(input, condition.to, TokenKind::CloseParen);
    let (condition, close) = both(condition, close)?;
    let taken = block(input, close, depth);
    let (condition, taken) = both(condition, taken)?;
    let other = other_block(input, taken.to, depth);
    let (branch, other) = both((condition.value, taken.value), other)?;
    let (condition, taken) = branch;
    let value = Item::new_if(input.alloc, at, condition, taken, other.value)?;
    Ok(Found {
        value,
        to: other.to,
    })
}

/// The block of an `else`, which belongs to the nearest `if`.
#[cycle(items)]
fn other_block(
    input: &Input<'_>,
    at: u32,
    depth: Depth,
) -> Result<Found<Option<GenerateBlock>>, ParseError>
    ensures { Answers input.now (part.other_block) meaning.else_block view.block_fallback depth at result }
{
    if !stands(input, at, TokenKind::KeywordElse) {
        return Ok(Found {
            value: None,
            to: at,
        });
    }
    let word = take(input, at, TokenKind::KeywordElse)?;
    let other = block(input, word, depth)?;
    Ok(Found {
        value: Some(other.value),
        to: other.to,
    })
}

/// A generate `case`.
#[cycle(items)]
fn generate_case(input: &Input<'_>, at: u32, depth: Depth) -> Result<Found<Item>, ParseError>
    ensures { Answers input.now grammar.generate_case meaning.generate_case_of view.item depth at result }
{
    let word = take(input, at, TokenKind::KeywordCase)?;
    let open = take(input, word, TokenKind::OpenParen)?;
    let subject = expression(input, open, depth)?;
    let close = take(input, subject.to, TokenKind::CloseParen);
    let (subject, close) = both(subject, close)?;
    let cases = generate_cases(input, close, depth);
    let (subject, cases) = both(subject, cases)?;
    let end = take(input, cases.to, TokenKind::KeywordEndCase);
    let (parts, end) = both((subject.value, cases.value), end)?;
    let (subject, cases) = parts;
    let value = Item::new_case(input.alloc, at, subject, cases.arms, cases.other)?;
    Ok(Found { value, to: end })
}

/// The arms of a generate `case`, and the block of its default.
#[derive(Drop)]
pub(crate) struct GenerateParts {
    pub(crate) arms: Vec<GenerateArm>,
    pub(crate) other: Option<GenerateBlock>,
}

/// The arms of a generate `case`, with at most one default among them.
#[cycle(items)]
fn generate_cases(
    input: &Input<'_>,
    at: u32,
    depth: Depth,
) -> Result<Found<GenerateParts>, ParseError>
    ensures { Answers input.now (r rule.GenerateCases) part.generate_cases_of part.generate_cases_view depth at result }
{
    if stands(input, at, TokenKind::KeywordDefault) {
        let other = generate_default(input, at, depth)?;
        let list = generate_arms(input, other.to, depth, Vec::new(input.alloc));
        let (other, list) = both(other, list)?;
        return Ok(Found {
            value: GenerateParts {
                arms: list.value,
                other: Some(other.value),
            },
            to: list.to,
        });
    }
    let first = generate_arm(input, at, depth)?;
    let start = one(input.alloc, first.value)?;
    let before = generate_arms(input, first.to, depth, start)?;
    if !stands(input, before.to, TokenKind::KeywordDefault) {
        return Ok(Found {
            value: GenerateParts {
                arms: before.value,
                other: None,
            },
            to: before.to,
        });
    }
    let default = generate_default(input, before.to, depth);
    let (before, default) = both(before, default)?;
    let arms = generate_arms(input, default.to, depth, before.value);
    let (default, arms) = both(default, arms)?;
    Ok(Found {
        value: GenerateParts {
            arms: arms.value,
            other: Some(default.value),
        },
        to: arms.to,
    })
}

/// Arms behind these ones.
#[cycle(items)]
fn generate_arms(
    input: &Input<'_>,
    at: u32,
    depth: Depth,
    before: Vec<GenerateArm>,
) -> Result<Found<Vec<GenerateArm>>, ParseError>
    ensures { Answers input.now (star (r rule.GenerateCaseItem)) (λ b d. map part.generate_arm_view before.items ++ meaning.each_onto (part.generate_arm_of b) d []) (λ v. map part.generate_arm_view v.items) depth at result }
{
    let mut list = before;
    let mut to = at;
    while is_expression_at(input, to) {
        let next = generate_arm(input, to, depth);
        let (before, next) = both(list, next)?;
        list = longer(before, next.value)?;
        to = next.to;
    }
    Ok(Found { value: list, to })
}

/// The labels of an arm, and its block.
#[cycle(items)]
fn generate_arm(input: &Input<'_>, at: u32, depth: Depth) -> Result<Found<GenerateArm>, ParseError>
    ensures { Answers input.now (r rule.GenerateCaseItem) part.generate_arm_of part.generate_arm_view depth at result }
{
    let labels = expressions(input, at, depth)?;
    let colon = take(input, labels.to, TokenKind::Colon);
    let (labels, colon) = both(labels, colon)?;
    let block = block(input, colon, depth);
    let (labels, block) = both(labels, block)?;
    Ok(Found {
        value: GenerateArm {
            labels: labels.value,
            block: block.value,
        },
        to: block.to,
    })
}

/// The default of a generate `case`.
#[cycle(items)]
fn generate_default(
    input: &Input<'_>,
    at: u32,
    depth: Depth,
) -> Result<Found<GenerateBlock>, ParseError>
    ensures { Answers input.now (r rule.GenerateCaseDefault) meaning.default_block_of (λ v. tree.OtherwiseBlock (view.block v)) depth at result }
{
    let word = take(input, at, TokenKind::KeywordDefault)?;
    let colon = optional(input, word, depth, TokenKind::Colon);
    let block = block(input, colon.to, depth)?;
    Ok(block)
}

/// A generate block.
#[cycle(items)]
fn block(input: &Input<'_>, at: u32, depth: Depth) -> Result<Found<GenerateBlock>, ParseError>
    ensures { Answers input.now (r rule.GenerateBlock) meaning.block_of view.block depth at result }
{
    if !stands_any(input, at, &BLOCK_KINDS) {
        return Err(ParseError::Syntax(at));
    }
    let inner = depth.deeper(at)?;
    if stands(input, at, TokenKind::KeywordBegin) {
        enclosed(input, at, inner)
    } else if is_generate_item_at(input, at) {
        let item = generate_item(input, at, inner)?;
        let value = GenerateBlock::new_alone(input.alloc, item.value)?;
        Ok(Found { value, to: item.to })
    } else {
        let to = take(input, at, TokenKind::Semicolon)?;
        Ok(Found {
            value: GenerateBlock::Empty { place: at },
            to,
        })
    }
}

/// The items between `begin` and `end`.
#[cycle(items)]
fn enclosed(input: &Input<'_>, at: u32, depth: Depth) -> Result<Found<GenerateBlock>, ParseError>
    ensures { Answers input.now grammar.block part.enclosed_tree view.block depth at result }
{
    let begin = take(input, at, TokenKind::KeywordBegin)?;
    let label = label(input, begin, depth)?;
    let list = generate_items(input, label.to, depth, Vec::new(input.alloc));
    let (label, list) = both(label, list)?;
    let end = take(input, list.to, TokenKind::KeywordEnd);
    let (parts, end) = both((label.value, list.value), end)?;
    let (label, list) = parts;
    let value = GenerateBlock::new_enclosed(at, label, list);
    Ok(Found { value, to: end })
}

/// Items behind these ones.
#[cycle(items)]
fn generate_items(
    input: &Input<'_>,
    at: u32,
    depth: Depth,
    before: Vec<Item>,
) -> Result<Found<Vec<Item>>, ParseError>
    ensures { Answers input.now (star (r rule.GenerateItem)) (λ b d. map view.item before.items ++ meaning.each_onto (meaning.item_of b) d []) (λ v. map view.item v.items) depth at result }
{
    let mut list = before;
    let mut to = at;
    while is_generate_item_at(input, to) {
        let next = generate_item(input, to, depth);
        let (before, next) = both(list, next)?;
        list = longer(before, next.value)?;
        to = next.to;
    }
    Ok(Found { value: list, to })
}

/// An item of a module behind these ones; `generate` and `endgenerate` leave nothing.
fn item(
    input: &Input<'_>,
    at: u32,
    depth: Depth,
    before: Vec<Item>,
) -> Result<Found<Vec<Item>>, ParseError>
    ensures { MatchResult result (λ f. ItemRead input.now before.items depth.value at f.value.items f.to) (λ e. Refused input.now.tokens.now depth.value (r rule.Item) at e) }
{
    if stands_any(
        input,
        at,
        &[TokenKind::KeywordInput, TokenKind::KeywordOutput],
    ) {
        let ports = ports_item(input, at, depth);
        let (before, ports) = both(before, ports)?;
        let list = longer(before, ports.value)?;
        Ok(Found {
            value: list,
            to: ports.to,
        })
    } else if stands(input, at, TokenKind::KeywordParameter) {
        let constants = parameters(input, at, depth);
        let (before, constants) = both(before, constants)?;
        let list = longer(before, constants.value)?;
        Ok(Found {
            value: list,
            to: constants.to,
        })
    } else if stands(input, at, TokenKind::KeywordGenerate) {
        let word = take(input, at, TokenKind::KeywordGenerate);
        let (before, word) = both(before, word)?;
        let items = generate_items(input, word, depth, before)?;
        let end = take(input, items.to, TokenKind::KeywordEndGenerate);
        let (items, end) = both(items, end)?;
        Ok(Found {
            value: items.value,
            to: end,
        })
    } else if stands(input, at, TokenKind::KeywordFunction) {
        let declared = function(input, at, depth);
        let (before, declared) = both(before, declared)?;
        let list = longer(before, Item::Function(declared.value))?;
        Ok(Found {
            value: list,
            to: declared.to,
        })
    } else {
        let other = generate_item(input, at, depth);
        let (before, other) = both(before, other)?;
        let list = longer(before, other.value)?;
        Ok(Found {
            value: list,
            to: other.to,
        })
    }
}

/// The items of a module.
pub(crate) fn items(
    input: &Input<'_>,
    at: u32,
    depth: Depth,
) -> Result<Found<Vec<Item>>, ParseError>
    ensures { Answers input.now (star (r rule.Item)) (λ b d. meaning.items_onto b d tree.NoItem) (λ v. view.items v.items) depth at result }
{
    let mut list = Vec::new(input.alloc);
    let mut to = at;
    while is_item_at(input, to) {
        let next = item(input, to, depth, list)?;
        list = next.value;
        to = next.to;
    }
    Ok(Found { value: list, to })
}

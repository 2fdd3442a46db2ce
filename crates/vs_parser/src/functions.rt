//! Functions (IEEE 1364-2005, A.2.6).

ghost use Rattle.std.specs.Prelude.{◌≡◌, ◌≤◌, Ok, false, [], ◌∷◌, ◌++◌, map, MatchResult};
ghost use Rattle.vs_grammar.specs.Grammars.{star};
ghost use Rattle.vs_grammar.specs.Predictive.{is_member};
ghost use Rattle.vs_grammar.specs.Verilog.{Rule as rule, r};
ghost use Rattle.vs_grammar.specs.Verilog as grammar;
ghost use Rattle.vs_grammar.specs.Meaning as meaning;
ghost use Rattle.vs_ast.specs.Views as view;
ghost use Rattle.vs_parser.specs.Functions as part;
ghost use Rattle.vs_parser.specs.Functions.{DeclarationStep, InputRead, InputsRead, InputsStep};
ghost use Rattle.vs_statements.specs.Reading.{Answers, Refused, kind_at};

use vs_ast::{Function, Name, ValueType, Variables};
use vs_lexer::TokenKind;
use vs_statements::ParseError;
use vs_statements::depth::Depth;
use vs_statements::input::{Found, Input, both, longer, one};
use vs_statements::statements::statement;
use vs_statements::tokens::{stands, stands_any, take};
use vs_statements::types::{identifiers, reg_type, value_type, variable_list, variables};
use vs_statements::words::identifier;

/// What an input is declared as: `integer`, or a sign and a range, perhaps behind `reg`.
fn input_type(input: &Input<'_>, at: u32, depth: Depth) -> Result<Found<ValueType>, ParseError>
    ensures { Answers input.now (r rule.InputType) meaning.input_type_of view.value_type depth at result }
{
    if stands(input, at, TokenKind::KeywordReg) {
        reg_type(input, at, depth)
    } else {
        value_type(input, at, depth)
    }
}

/// A declaration of inputs in brackets, with its first name.
fn function_input(input: &Input<'_>, at: u32, depth: Depth) -> Result<Found<Variables>, ParseError>
    ensures { MatchResult result (λ f. InputRead input.now depth.value at (view.variables f.value) f.to) (λ e. Refused input.now.tokens.now depth.value (r rule.FunctionInput) at e) }
{
    let word = take(input, at, TokenKind::KeywordInput)?;
    let value_type = input_type(input, word, depth)?;
    let name = identifier(input, value_type.to);
    let (value_type, name) = both(value_type, name)?;
    let names = one(input.alloc, name.value);
    let (value_type, names) = both(value_type.value, names)?;
    let value = Variables {
        place: at,
        value_type,
        names,
    };
    Ok(Found { value, to: name.to })
}

/// The declaration with one name more.
fn with_name(declared: Variables, name: Name) -> Result<Variables, ParseError>
    ensures { MatchResult result (λ v. view.variables v ≡ part.with_names (view.variables declared) (view.name name ∷ [])) (λ e. e ≡ ParseError.Memory) }
{
    let Variables {
        place,
        value_type,
        names,
    } = declared;
    let names = longer(names, name);
    let (value_type, names) = both(value_type, names)?;
    Ok(Variables {
        place,
        value_type,
        names,
    })
}

/// The declarations of inputs in brackets, of which the last may go on.
#[derive(Drop)]
struct InputsSoFar {
    list: Vec<Variables>,
    last: Variables,
    to: u32,
}

/// A further declaration, or a further name of the last one.
fn input_or_name(
    input: &Input<'_>,
    at: u32,
    depth: Depth,
    state: InputsSoFar,
) -> Result<InputsSoFar, ParseError>
    ensures { MatchResult result (λ s. InputsStep input.now (map view.variables state.list.items) (view.variables state.last) depth.value at (map view.variables s.list.items) (view.variables s.last) s.to) (λ e. Refused input.now.tokens.now depth.value part.input_step at e) }
{
    let InputsSoFar { list, last, .. } = state;
    if stands(input, at, TokenKind::KeywordInput) {
        let next = function_input(input, at, depth);
        let (before, next) = both((list, last), next)?;
        let (list, last) = before;
        let list = longer(list, last);
        let (next, list) = both(next, list)?;
        Ok(InputsSoFar {
            list,
            last: next.value,
            to: next.to,
        })
    } else {
        let more = identifier(input, at);
        let (before, more) = both((list, last), more)?;
        let (list, last) = before;
        let last = with_name(last, more.value);
        let (list, last) = both(list, last)?;
        Ok(InputsSoFar {
            list,
            last,
            to: more.to,
        })
    }
}

/// The declarations of inputs in brackets from this one on, which goes on with each lone name.
fn more_inputs(
    input: &Input<'_>,
    at: u32,
    depth: Depth,
    first: Variables,
) -> Result<Found<Vec<Variables>>, ParseError>
    ensures { MatchResult result (λ f. InputsRead input.now (view.variables first) depth.value at (map view.variables f.value.items) f.to) (λ e. Refused input.now.tokens.now depth.value part.more_inputs at e) }
{
    let mut state = InputsSoFar {
        list: Vec::new(input.alloc),
        last: first,
        to: at,
    };
    while stands(input, state.to, TokenKind::Comma) {
        let comma = take(input, state.to, TokenKind::Comma);
        let (before, comma) = both(state, comma)?;
        state = input_or_name(input, comma, depth, before)?;
    }
    let InputsSoFar { list, last, to } = state;
    let list = longer(list, last)?;
    Ok(Found { value: list, to })
}

/// The inputs in brackets.
fn inputs(input: &Input<'_>, at: u32, depth: Depth) -> Result<Found<Vec<Variables>>, ParseError>
    ensures { Answers input.now (r rule.FunctionInputs) meaning.inputs_of (λ v. map view.variables v.items) depth at result }
{
    let first = function_input(input, at, depth)?;
    let list = more_inputs(input, first.to, depth, first.value)?;
    Ok(Found {
        value: list.value,
        to: list.to,
    })
}

/// The inputs of a function, and its own variables.
#[derive(Drop)]
pub(crate) struct FunctionParts {
    pub(crate) inputs: Vec<Variables>,
    pub(crate) variables: Vec<Variables>,
}

/// Inputs in brackets, and the variables behind them.
fn inputs_in_brackets(
    input: &Input<'_>,
    at: u32,
    depth: Depth,
) -> Result<Found<FunctionParts>, ParseError>
    ensures { Answers input.now grammar.inputs_in_brackets part.in_brackets_of part.parts_view depth at result }
{
    let open = take(input, at, TokenKind::OpenParen)?;
    let list = inputs(input, open, depth)?;
    let close = take(input, list.to, TokenKind::CloseParen);
    let (list, close) = both(list, close)?;
    let end = take(input, close, TokenKind::Semicolon);
    let (list, end) = both(list, end)?;
    let own = variable_list(input, end, depth);
    let (list, own) = both(list, own)?;
    Ok(Found {
        value: FunctionParts {
            inputs: list.value,
            variables: own.value,
        },
        to: own.to,
    })
}

/// A declaration of inputs among the variables.
fn input_declaration(
    input: &Input<'_>,
    at: u32,
    depth: Depth,
) -> Result<Found<Variables>, ParseError>
    ensures { Answers input.now grammar.input_declaration meaning.input_declaration_of view.variables depth at result }
{
    let word = take(input, at, TokenKind::KeywordInput)?;
    let value_type = input_type(input, word, depth)?;
    let names = identifiers(input, value_type.to, depth);
    let (value_type, names) = both(value_type, names)?;
    let end = take(input, names.to, TokenKind::Semicolon);
    let (declared, end) = both((value_type.value, names.value), end)?;
    let (value_type, names) = declared;
    let value = Variables {
        place: at,
        value_type,
        names,
    };
    Ok(Found { value, to: end })
}

/// A declaration of inputs or of variables behind these ones.
fn declaration(
    input: &Input<'_>,
    at: u32,
    depth: Depth,
    before: FunctionParts,
) -> Result<Found<FunctionParts>, ParseError>
    ensures { MatchResult result (λ f. DeclarationStep input.now (part.parts_view before) depth.value at (part.parts_view f.value) f.to) (λ e. Refused input.now.tokens.now depth.value (r rule.FunctionDeclaration) at e) }
{
    if stands(input, at, TokenKind::KeywordInput) {
        let next = input_declaration(input, at, depth);
        let (before, next) = both(before, next)?;
        let FunctionParts { inputs, variables } = before;
        let inputs = longer(inputs, next.value);
        let (variables, inputs) = both(variables, inputs)?;
        Ok(Found {
            value: FunctionParts { inputs, variables },
            to: next.to,
        })
    } else {
        let next = variables(input, at, depth);
        let (before, next) = both(before, next)?;
        let FunctionParts { inputs, variables } = before;
        let variables = longer(variables, next.value);
        let (inputs, variables) = both(inputs, variables)?;
        Ok(Found {
            value: FunctionParts { inputs, variables },
            to: next.to,
        })
    }
}

/// Whether a declaration of inputs or of variables begins here.
fn is_declaration_at(input: &Input<'_>, at: u32) -> bool
    ensures { result ≡ is_member (kind_at input.now.tokens.now at) part.declaration_kinds }
{
    stands_any(
        input,
        at,
        &[
            TokenKind::KeywordInput,
            TokenKind::KeywordReg,
            TokenKind::KeywordInteger,
        ],
    )
}

/// Declarations of inputs and of variables, in any order.
fn declarations(
    input: &Input<'_>,
    at: u32,
    depth: Depth,
) -> Result<Found<FunctionParts>, ParseError>
    ensures { Answers input.now (star (r rule.FunctionDeclaration)) part.declared_of part.parts_view depth at result }
{
    let inputs = Vec::new(input.alloc);
    let variables = Vec::new(input.alloc);
    let mut parts = FunctionParts { inputs, variables };
    let mut to = at;
    while is_declaration_at(input, to) {
        let next = declaration(input, to, depth, parts)?;
        parts = next.value;
        to = next.to;
    }
    Ok(Found { value: parts, to })
}

/// Inputs among the variables, behind the semicolon after the name of a function.
fn inputs_behind(
    input: &Input<'_>,
    at: u32,
    depth: Depth,
) -> Result<Found<FunctionParts>, ParseError>
    ensures { Answers input.now grammar.inputs_behind part.behind_of part.parts_view depth at result }
{
    let semicolon = take(input, at, TokenKind::Semicolon)?;
    let found = declarations(input, semicolon, depth)?;
    Ok(found)
}

/// The inputs of a function, and its own variables, behind its name.
fn function_head(
    input: &Input<'_>,
    at: u32,
    depth: Depth,
) -> Result<Found<FunctionParts>, ParseError>
    ensures { Answers input.now (r rule.FunctionHead) part.head_of part.parts_view depth at result }
{
    if stands(input, at, TokenKind::OpenParen) {
        inputs_in_brackets(input, at, depth)
    } else {
        inputs_behind(input, at, depth)
    }
}

/// A function, from its `function` on.
pub(crate) fn function(
    input: &Input<'_>,
    at: u32,
    depth: Depth,
) -> Result<Found<Function>, ParseError>
    ensures { Answers input.now (r rule.Function) meaning.function_of view.function depth at result }
{
    let word = take(input, at, TokenKind::KeywordFunction)?;
    let value_type = value_type(input, word, depth)?;
    let name = identifier(input, value_type.to);
    let (value_type, name) = both(value_type, name)?;
    let parts = function_head(input, name.to, depth);
    let (named, parts) = both((value_type.value, name.value), parts)?;
    let body = statement(input, parts.to, depth);
    let (head, body) = both((named, parts.value), body)?;
    let end = take(input, body.to, TokenKind::KeywordEndFunction);
    let (all, end) = both((head, body.value), end)?;
    let (head, statement) = all;
    let (named, parts) = head;
    let (value_type, name) = named;
    let value = Function {
        place: at,
        name,
        value_type,
        inputs: parts.inputs,
        variables: parts.variables,
        statement,
    };
    Ok(Found { value, to: end })
}

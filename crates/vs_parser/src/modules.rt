//! Modules (IEEE 1364-2005, A.1.2).

ghost use Rattle.std.specs.Prelude.{◌≡◌, ◌≤◌, Ok, false, [], ◌∷◌, ◌++◌, map, MatchResult};
ghost use Rattle.vs_lexer.specs.declared.token.TokenKind.TheVariants as kind;
ghost use Rattle.vs_grammar.specs.Grammars.{opt, star};
ghost use Rattle.vs_grammar.specs.Verilog.{Rule as rule, r};
ghost use Rattle.vs_grammar.specs.Meaning as meaning;
ghost use Rattle.vs_ast.specs.Views as view;
ghost use Rattle.vs_parser.specs.Headings as part;
ghost use Rattle.vs_parser.specs.Parts.{is_variable};
ghost use Rattle.vs_parser.specs.Headings.{ParametersRead, ParametersStep, PortRead, PortsRead, PortsStep};
ghost use Rattle.vs_statements.specs.Reading.{Refused, Answers};

use crate::declarations::{direction, port_name};
use crate::items::items;
use std::alloc::Global;
use vs_ast::{Declarator, Header, Module, Parameters, Setting, Signals, Source, ValueType};
use vs_lexer::TokenKind;
use vs_statements::ParseError;
use vs_statements::depth::Depth;
use vs_statements::input::{Found, Input, both, longer, one};
use vs_statements::tokens::{optional, stands, stands_any, take};
use vs_statements::types::{identifiers, optional_range, setting, value_type};
use vs_statements::words::identifier;

/// The parameters in a header.
fn header_parameters(
    input: &Input<'_>,
    at: u32,
    depth: Depth,
) -> Result<Found<Vec<Parameters>>, ParseError>
    ensures { Answers input.now (r rule.HeaderParameters) meaning.header_parameters (λ v. map view.parameters v.items) depth at result }
{
    let first = next_declaration(input, at, depth)?;
    let list = more_parameters(input, first.to, depth, first.value)?;
    Ok(Found {
        value: list.value,
        to: list.to,
    })
}

/// A declaration in a header, with one parameter.
fn declaration(
    alloc: Global,
    place: u32,
    declared: ValueType,
    first: Setting,
) -> Result<Parameters, ParseError>
    ensures { MatchResult result (λ p. view.parameters p ≡ part.declaration place (view.value_type declared) (view.setting first)) (λ e. e ≡ ParseError.Memory) }
{
    let settings = one(alloc, first);
    let (value_type, settings) = both(declared, settings)?;
    Ok(Parameters {
        place,
        is_local: false,
        value_type,
        settings,
    })
}

/// The parameter with one setting more.
fn with_setting(declared: Parameters, setting: Setting) -> Result<Parameters, ParseError>
    ensures { MatchResult result (λ p. view.parameters p ≡ part.with_settings (view.parameters declared) (view.setting setting ∷ [])) (λ e. e ≡ ParseError.Memory) }
{
    let Parameters {
        place,
        is_local,
        value_type,
        settings,
    } = declared;
    let settings = longer(settings, setting);
    let (value_type, settings) = both(value_type, settings)?;
    Ok(Parameters {
        place,
        is_local,
        value_type,
        settings,
    })
}

/// A declaration that begins with its own `parameter`, in a header, with its first parameter.
fn next_declaration(
    input: &Input<'_>,
    at: u32,
    depth: Depth,
) -> Result<Found<Parameters>, ParseError>
    ensures { Answers input.now part.next_declaration part.next_declaration_of view.parameters depth at result }
{
    let word = take(input, at, TokenKind::KeywordParameter)?;
    let value_type = value_type(input, word, depth)?;
    let first = setting(input, value_type.to, depth);
    let (value_type, first) = both(value_type, first)?;
    let value = declaration(input.alloc, at, value_type.value, first.value)?;
    Ok(Found {
        value,
        to: first.to,
    })
}

/// The declarations of a header, of which the last may go on.
#[derive(Drop)]
struct ParametersSoFar {
    list: Vec<Parameters>,
    last: Parameters,
    to: u32,
}

/// A further declaration, or a further setting of the last one.
fn parameter_or_setting(
    input: &Input<'_>,
    at: u32,
    depth: Depth,
    state: ParametersSoFar,
) -> Result<ParametersSoFar, ParseError>
    ensures { MatchResult result (λ s. ParametersStep input.now (map view.parameters state.list.items) (view.parameters state.last) depth.value at (map view.parameters s.list.items) (view.parameters s.last) s.to) (λ e. Refused input.now.tokens.now depth.value part.parameter_step at e) }
{
    let ParametersSoFar { list, last, .. } = state;
    if stands(input, at, TokenKind::KeywordParameter) {
        let next = next_declaration(input, at, depth);
        let (before, next) = both((list, last), next)?;
        let (list, last) = before;
        let list = longer(list, last);
        let (next, list) = both(next, list)?;
        Ok(ParametersSoFar {
            list,
            last: next.value,
            to: next.to,
        })
    } else {
        let more = setting(input, at, depth);
        let (before, more) = both((list, last), more)?;
        let (list, last) = before;
        let last = with_setting(last, more.value);
        let (list, last) = both(list, last)?;
        Ok(ParametersSoFar {
            list,
            last,
            to: more.to,
        })
    }
}

/// The declarations of a header from this one on, which goes on with each setting that no `parameter` stands before.
fn more_parameters(
    input: &Input<'_>,
    at: u32,
    depth: Depth,
    first: Parameters,
) -> Result<Found<Vec<Parameters>>, ParseError>
    ensures { MatchResult result (λ f. ParametersRead input.now (view.parameters first) depth.value at (map view.parameters f.value.items) f.to) (λ e. Refused input.now.tokens.now depth.value part.more_parameters at e) }
{
    let mut state = ParametersSoFar {
        list: Vec::new(input.alloc),
        last: first,
        to: at,
    };
    while stands(input, state.to, TokenKind::Comma) {
        let comma = take(input, state.to, TokenKind::Comma);
        let (before, comma) = both(state, comma)?;
        state = parameter_or_setting(input, comma, depth, before)?;
    }
    let ParametersSoFar { list, last, to } = state;
    let list = longer(list, last)?;
    Ok(Found { value: list, to })
}

/// The parameters of a module, if it declares any in its header.
fn module_parameters(
    input: &Input<'_>,
    at: u32,
    depth: Depth,
) -> Result<Found<Vec<Parameters>>, ParseError>
    ensures { Answers input.now (part.module_parameters) meaning.module_parameters (λ v. map view.parameters v.items) depth at result }
{
    if !stands(input, at, TokenKind::Hash) {
        return Ok(Found {
            value: Vec::new(input.alloc),
            to: at,
        });
    }
    let hash = take(input, at, TokenKind::Hash)?;
    let open = take(input, hash, TokenKind::OpenParen)?;
    let list = header_parameters(input, open, depth)?;
    let close = take(input, list.to, TokenKind::CloseParen);
    let (list, close) = both(list, close)?;
    Ok(Found {
        value: list.value,
        to: close,
    })
}

/// A declaration in a list of ports, with its first name.
fn port(input: &Input<'_>, at: u32, depth: Depth) -> Result<Found<Signals>, ParseError>
    ensures { MatchResult result (λ f. PortRead input.now depth.value at (view.signals f.value) f.to) (λ e. Refused input.now.tokens.now depth.value (r rule.Port) at e) }
{
    let kind = direction(input, at, depth)?;
    let signed = optional(input, kind.to, depth, TokenKind::KeywordSigned);
    let range = optional_range(input, signed.to, depth)?;
    let name = port_name(input, range.to, depth, kind.value);
    let (range, name) = both(range, name)?;
    let names = one(input.alloc, name.value);
    let (range, names) = both(range.value, names)?;
    let value = Signals {
        place: at,
        kind: kind.value,
        signed: signed.value,
        range,
        names,
    };
    Ok(Found { value, to: name.to })
}

/// The declaration with one name more.
fn with_name(declared: Signals, name: Declarator) -> Result<Signals, ParseError>
    ensures { MatchResult result (λ s. view.signals s ≡ part.with_names (view.signals declared) (view.declarator name ∷ [])) (λ e. e ≡ ParseError.Memory) }
{
    let Signals {
        place,
        kind,
        signed,
        range,
        names,
    } = declared;
    let names = longer(names, name);
    let (range, names) = both(range, names)?;
    Ok(Signals {
        place,
        kind,
        signed,
        range,
        names,
    })
}

/// The declarations of a list of ports, of which the last may go on.
#[derive(Drop)]
struct PortsSoFar {
    list: Vec<Signals>,
    last: Signals,
    to: u32,
}

/// A further declaration, or a further name of the last one.
fn port_or_name(
    input: &Input<'_>,
    at: u32,
    depth: Depth,
    state: PortsSoFar,
) -> Result<PortsSoFar, ParseError>
    ensures { MatchResult result (λ s. PortsStep input.now (map view.signals state.list.items) (view.signals state.last) depth.value at (map view.signals s.list.items) (view.signals s.last) s.to) (λ e. Refused input.now.tokens.now depth.value (part.port_step (is_variable (view.signals state.last).kind)) at e) }
{
    let PortsSoFar { list, last, .. } = state;
    if stands_any(
        input,
        at,
        &[TokenKind::KeywordInput, TokenKind::KeywordOutput],
    ) {
        let next = port(input, at, depth);
        let (before, next) = both((list, last), next)?;
        let (list, last) = before;
        let list = longer(list, last);
        let (next, list) = both(next, list)?;
        Ok(PortsSoFar {
            list,
            last: next.value,
            to: next.to,
        })
    } else {
        let more = port_name(input, at, depth, last.kind);
        let (before, more) = both((list, last), more)?;
        let (list, last) = before;
        let last = with_name(last, more.value);
        let (list, last) = both(list, last)?;
        Ok(PortsSoFar {
            list,
            last,
            to: more.to,
        })
    }
}

/// The declarations of a list of ports from this one on, which goes on with each lone name.
fn more_ports(
    input: &Input<'_>,
    at: u32,
    depth: Depth,
    first: Signals,
) -> Result<Found<Vec<Signals>>, ParseError>
    ensures { MatchResult result (λ f. PortsRead input.now (view.signals first) depth.value at (map view.signals f.value.items) f.to) (λ e. Refused input.now.tokens.now depth.value (part.tail (is_variable (view.signals first).kind)) at e) }
{
    let mut state = PortsSoFar {
        list: Vec::new(input.alloc),
        last: first,
        to: at,
    };
    while stands(input, state.to, TokenKind::Comma) {
        let comma = take(input, state.to, TokenKind::Comma);
        let (before, comma) = both(state, comma)?;
        state = port_or_name(input, comma, depth, before)?;
    }
    let PortsSoFar { list, last, to } = state;
    let list = longer(list, last)?;
    Ok(Found { value: list, to })
}

/// A list of ports.
fn ports(input: &Input<'_>, at: u32, depth: Depth) -> Result<Found<Header>, ParseError>
    ensures { Answers input.now (r rule.Ports) meaning.ports_of view.header depth at result }
{
    if stands(input, at, TokenKind::Identifier) {
        let names = identifiers(input, at, depth)?;
        Ok(Found {
            value: Header::Plain(names.value),
            to: names.to,
        })
    } else {
        let first = port(input, at, depth)?;
        let list = more_ports(input, first.to, depth, first.value)?;
        Ok(Found {
            value: Header::Declared(list.value),
            to: list.to,
        })
    }
}

/// A list of ports, if there is one.
fn optional_ports(input: &Input<'_>, at: u32, depth: Depth) -> Result<Found<Header>, ParseError>
    ensures { Answers input.now (opt (r rule.Ports)) part.optional_ports_of view.header depth at result }
{
    if !stands_any(
        input,
        at,
        &[
            TokenKind::Identifier,
            TokenKind::KeywordInput,
            TokenKind::KeywordOutput,
        ],
    ) {
        return Ok(Found {
            value: Header::NoPorts,
            to: at,
        });
    }
    let inner = ports(input, at, depth)?;
    Ok(Found {
        value: inner.value,
        to: inner.to,
    })
}

/// The ports of a module, if it has a list of them.
fn header(input: &Input<'_>, at: u32, depth: Depth) -> Result<Found<Header>, ParseError>
    ensures { Answers input.now (part.header) meaning.header_of view.header depth at result }
{
    if !stands(input, at, TokenKind::OpenParen) {
        return Ok(Found {
            value: Header::NoPorts,
            to: at,
        });
    }
    let open = take(input, at, TokenKind::OpenParen)?;
    let list = optional_ports(input, open, depth)?;
    let close = take(input, list.to, TokenKind::CloseParen);
    let (list, close) = both(list, close)?;
    Ok(Found {
        value: list.value,
        to: close,
    })
}

/// A module.
fn module(input: &Input<'_>, at: u32, depth: Depth) -> Result<Found<Module>, ParseError>
    ensures { Answers input.now (r rule.Module) meaning.module_of view.module_tree depth at result }
{
    let word = take(input, at, TokenKind::KeywordModule)?;
    let name = identifier(input, word)?;
    let parameters = module_parameters(input, name.to, depth);
    let (name, parameters) = both(name, parameters)?;
    let header = header(input, parameters.to, depth);
    let (named, header) = both((name.value, parameters.value), header)?;
    let semicolon = take(input, header.to, TokenKind::Semicolon);
    let (head, semicolon) = both((named, header.value), semicolon)?;
    let items = items(input, semicolon, depth);
    let (head, items) = both(head, items)?;
    let end = take(input, items.to, TokenKind::KeywordEndModule);
    let (parts, end) = both((head, items.value), end)?;
    let (head, items) = parts;
    let (named, header) = head;
    let (name, parameters) = named;
    let value = Module {
        place: at,
        name,
        parameters,
        header,
        items,
    };
    Ok(Found { value, to: end })
}

/// Modules behind these ones.
fn more_modules(
    input: &Input<'_>,
    at: u32,
    depth: Depth,
    before: Vec<Module>,
) -> Result<Found<Vec<Module>>, ParseError>
    ensures { Answers input.now (star (r rule.Module)) (λ b d. map view.module_tree before.items ++ meaning.each_onto (meaning.module_of b) d []) (λ v. map view.module_tree v.items) depth at result }
{
    let mut list = before;
    let mut to = at;
    while stands(input, to, TokenKind::KeywordModule) {
        let next = module(input, to, depth);
        let (before, next) = both(list, next)?;
        list = longer(before, next.value)?;
        to = next.to;
    }
    Ok(Found { value: list, to })
}

/// The modules of a text.
pub(crate) fn source(input: &Input<'_>, at: u32, depth: Depth) -> Result<Found<Source>, ParseError>
    ensures { Answers input.now (r rule.Source) meaning.source_of view.source depth at result }
{
    let first = module(input, at, depth)?;
    let begun = one(input.alloc, first.value)?;
    let modules = more_modules(input, first.to, depth, begun)?;
    Ok(Found {
        value: Source {
            modules: modules.value,
        },
        to: modules.to,
    })
}

//! Declarations (IEEE 1364-2005, A.2).

ghost use Rattle.std.specs.Prelude.{◌≡◌, ◌≤◌, Ok, false, map, MatchResult};
ghost use Rattle.vs_lexer.specs.declared.token.TokenKind.TheVariants as kind;
ghost use Rattle.vs_grammar.specs.Grammars.{opt};
ghost use Rattle.vs_grammar.specs.Verilog.{Rule as rule, r, t, separated, ◌⨾◌};
ghost use Rattle.vs_grammar.specs.Verilog as grammar;
ghost use Rattle.vs_grammar.specs.Meaning as meaning;
ghost use Rattle.vs_ast.specs.Views as view;
ghost use Rattle.vs_parser.specs.Parts as part;
ghost use Rattle.vs_parser.specs.Directions.{Directed, HasNoDirection};
ghost use Rattle.vs_grammar.specs.Trees as tree;
ghost use Rattle.vs_statements.specs.Reading.{Answers};

use vs_ast::{Declarator, Expr, Item, Parameters, Setting, SignalKind, Signals};
use vs_lexer::TokenKind;
use vs_statements::ParseError;
use vs_statements::commas::{Part, comma_list};
use vs_statements::depth::Depth;
use vs_statements::expressions::expression;
use vs_statements::input::{Found, Input, both};
use vs_statements::tokens::{optional, stands, take};
use vs_statements::types::{optional_range, range, setting, value_type};
use vs_statements::words::identifier;

/// The value behind a `=`.
fn value_behind(input: &Input<'_>, at: u32, depth: Depth) -> Result<Found<Expr>, ParseError>
    ensures { Answers input.now (t kind.Assign ⨾ r rule.Expression) (λ b d. meaning.behind_sign (meaning.expr_of b) d) view.expr depth at result }
{
    let sign = take(input, at, TokenKind::Assign)?;
    let value = expression(input, sign, depth)?;
    Ok(Found {
        value: value.value,
        to: value.to,
    })
}

/// The value behind a `=`, if there is one.
fn optional_value(
    input: &Input<'_>,
    at: u32,
    depth: Depth,
) -> Result<Found<Option<Expr>>, ParseError>
    ensures { Answers input.now (opt (t kind.Assign ⨾ r rule.Expression)) (λ b d. meaning.option_of (meaning.behind_sign (meaning.expr_of b)) d) (view.option view.expr) depth at result }
{
    if !stands(input, at, TokenKind::Assign) {
        return Ok(Found {
            value: None,
            to: at,
        });
    }
    let inner = value_behind(input, at, depth)?;
    Ok(Found {
        value: Some(inner.value),
        to: inner.to,
    })
}

/// A declared name.
fn plain_declarator(
    input: &Input<'_>,
    at: u32,
    depth: Depth,
) -> Result<Found<Declarator>, ParseError>
    ensures { Answers input.now (t kind.Identifier) meaning.plain_name view.declarator depth at result }
{
    let name = identifier(input, at)?;
    Ok(Found {
        value: Declarator {
            name: name.value,
            addresses: None,
            value: None,
        },
        to: name.to,
    })
}

/// A declared name, as a part of a list.
struct PlainPart;

impl Part for PlainPart {
    type Value = Declarator;

    ghost Tree = { tree.Declarator };

    ghost phrase = { t kind.Identifier };

    ghost meaning = { meaning.plain_name };

    ghost view = { view.declarator };
}

/// Declared names, with commas between them.
fn plain_declarators(
    input: &Input<'_>,
    at: u32,
    depth: Depth,
) -> Result<Found<Vec<Declarator>>, ParseError>
    ensures { Answers input.now (separated (t kind.Identifier)) (λ b d. meaning.list_of (meaning.plain_name b) d) (λ v. map view.declarator v.items) depth at result }
{
    comma_list::<PlainPart, _>(input, at, depth, |place, inner| {
        plain_declarator(input, place, inner)
    })
}

/// A declared name, which may have an initial value behind it (6.2.1).
fn valued_declarator(
    input: &Input<'_>,
    at: u32,
    depth: Depth,
) -> Result<Found<Declarator>, ParseError>
    ensures { Answers input.now grammar.valued_name meaning.valued_of view.declarator depth at result }
{
    let name = identifier(input, at)?;
    let value = optional_value(input, name.to, depth);
    let (name, value) = both(name, value)?;
    Ok(Found {
        value: Declarator {
            name: name.value,
            addresses: None,
            value: value.value,
        },
        to: value.to,
    })
}

/// A declared name with its initial value, as a part of a list.
struct ValuedPart;

impl Part for ValuedPart {
    type Value = Declarator;

    ghost Tree = { tree.Declarator };

    ghost phrase = { grammar.valued_name };

    ghost meaning = { meaning.valued_of };

    ghost view = { view.declarator };
}

/// Declared names with their initial values, with commas between them.
fn valued_declarators(
    input: &Input<'_>,
    at: u32,
    depth: Depth,
) -> Result<Found<Vec<Declarator>>, ParseError>
    ensures { Answers input.now (separated grammar.valued_name) (λ b d. meaning.list_of (meaning.valued_of b) d) (λ v. map view.declarator v.items) depth at result }
{
    comma_list::<ValuedPart, _>(input, at, depth, |place, inner| {
        valued_declarator(input, place, inner)
    })
}

/// A declared variable or net, with the addresses of a memory or of an array of nets (4.9), or with its initial value or what it is
/// assigned.
fn declarator(input: &Input<'_>, at: u32, depth: Depth) -> Result<Found<Declarator>, ParseError>
    ensures { Answers input.now grammar.declared_name meaning.declarator_of view.declarator depth at result }
{
    let name = identifier(input, at)?;
    if stands(input, name.to, TokenKind::OpenBracket) {
        let addresses = range(input, name.to, depth);
        let (name, addresses) = both(name, addresses)?;
        Ok(Found {
            value: Declarator {
                name: name.value,
                addresses: Some(addresses.value),
                value: None,
            },
            to: addresses.to,
        })
    } else {
        let value = optional_value(input, name.to, depth);
        let (name, value) = both(name, value)?;
        Ok(Found {
            value: Declarator {
                name: name.value,
                addresses: None,
                value: value.value,
            },
            to: value.to,
        })
    }
}

/// A declared variable or net, as a part of a list.
struct DeclaredPart;

impl Part for DeclaredPart {
    type Value = Declarator;

    ghost Tree = { tree.Declarator };

    ghost phrase = { grammar.declared_name };

    ghost meaning = { meaning.declarator_of };

    ghost view = { view.declarator };
}

/// Declared variables or nets, with commas between them.
fn declarators(
    input: &Input<'_>,
    at: u32,
    depth: Depth,
) -> Result<Found<Vec<Declarator>>, ParseError>
    ensures { Answers input.now (separated grammar.declared_name) (λ b d. meaning.list_of (meaning.declarator_of b) d) (λ v. map view.declarator v.items) depth at result }
{
    comma_list::<DeclaredPart, _>(input, at, depth, |place, inner| {
        declarator(input, place, inner)
    })
}

/// A declaration of registers.
pub(crate) fn regs(input: &Input<'_>, at: u32, depth: Depth) -> Result<Found<Item>, ParseError>
    ensures { Answers input.now grammar.reg_item meaning.reg_item_of view.item depth at result }
{
    let word = take(input, at, TokenKind::KeywordReg)?;
    let signed = optional(input, word, depth, TokenKind::KeywordSigned);
    let range = optional_range(input, signed.to, depth)?;
    let names = declarators(input, range.to, depth);
    let (range, names) = both(range, names)?;
    let end = take(input, names.to, TokenKind::Semicolon);
    let (declared, end) = both((range.value, names.value), end)?;
    let (range, names) = declared;
    let value = Item::Signals(Signals {
        place: at,
        kind: SignalKind::Reg,
        signed: signed.value,
        range,
        names,
    });
    Ok(Found { value, to: end })
}

/// A declaration of nets.
pub(crate) fn wires(input: &Input<'_>, at: u32, depth: Depth) -> Result<Found<Item>, ParseError>
    ensures { Answers input.now grammar.wire_item meaning.wire_item_of view.item depth at result }
{
    let word = take(input, at, TokenKind::KeywordWire)?;
    let signed = optional(input, word, depth, TokenKind::KeywordSigned);
    let range = optional_range(input, signed.to, depth)?;
    let names = declarators(input, range.to, depth);
    let (range, names) = both(range, names)?;
    let end = take(input, names.to, TokenKind::Semicolon);
    let (declared, end) = both((range.value, names.value), end)?;
    let (range, names) = declared;
    let value = Item::Signals(Signals {
        place: at,
        kind: SignalKind::Wire,
        signed: signed.value,
        range,
        names,
    });
    Ok(Found { value, to: end })
}

/// Whether a port is a variable, whose names may have values.
fn is_variable(kind: SignalKind) -> bool
    ensures { result ≡ part.is_variable (view.signal_kind kind) }
{
    matches!(kind, SignalKind::OutputReg)
}

/// What an input is, with or without the word `wire`.
fn input_kind(wire: bool) -> SignalKind
    ensures { view.signal_kind result ≡ part.input_kind wire }
{
    if wire {
        SignalKind::InputWire
    } else {
        SignalKind::Input
    }
}

/// What an output that is no variable is, with or without the word `wire`.
fn output_kind(wire: bool) -> SignalKind
    ensures { view.signal_kind result ≡ part.output_kind wire }
{
    if wire {
        SignalKind::OutputWire
    } else {
        SignalKind::Output
    }
}

/// The words that a declaration of ports begins with: which kind of ports they declare.
pub(crate) fn direction(
    input: &Input<'_>,
    at: u32,
    depth: Depth,
) -> Result<Found<SignalKind>, ParseError>
    ensures { MatchResult result (λ f. Directed input.now.tokens.now depth.value at (view.signal_kind f.value) f.to) (λ e. HasNoDirection input.now.tokens.now depth.value at e) }
{
    if stands(input, at, TokenKind::KeywordInput) {
        let word = take(input, at, TokenKind::KeywordInput)?;
        let wire = optional(input, word, depth, TokenKind::KeywordWire);
        return Ok(Found {
            value: input_kind(wire.value),
            to: wire.to,
        });
    }
    let word = take(input, at, TokenKind::KeywordOutput)?;
    if stands(input, word, TokenKind::KeywordReg) {
        let reg = take(input, word, TokenKind::KeywordReg)?;
        return Ok(Found {
            value: SignalKind::OutputReg,
            to: reg,
        });
    }
    let wire = optional(input, word, depth, TokenKind::KeywordWire);
    Ok(Found {
        value: output_kind(wire.value),
        to: wire.to,
    })
}

/// A name of a port of this kind, which has a value only where it may.
pub(crate) fn port_name(
    input: &Input<'_>,
    at: u32,
    depth: Depth,
    kind: SignalKind,
) -> Result<Found<Declarator>, ParseError>
    ensures { Answers input.now (part.port_name (part.is_variable (view.signal_kind kind))) (part.port_name_of (part.is_variable (view.signal_kind kind))) view.declarator depth at result }
{
    if is_variable(kind) {
        valued_declarator(input, at, depth)
    } else {
        plain_declarator(input, at, depth)
    }
}

/// Names of ports of this kind, with commas between them.
fn port_names(
    input: &Input<'_>,
    at: u32,
    depth: Depth,
    kind: SignalKind,
) -> Result<Found<Vec<Declarator>>, ParseError>
    ensures { Answers input.now (part.port_names (part.is_variable (view.signal_kind kind))) (part.port_names_of (part.is_variable (view.signal_kind kind))) (λ v. map view.declarator v.items) depth at result }
{
    if is_variable(kind) {
        valued_declarators(input, at, depth)
    } else {
        plain_declarators(input, at, depth)
    }
}

/// A declaration of ports.
pub(crate) fn ports_item(
    input: &Input<'_>,
    at: u32,
    depth: Depth,
) -> Result<Found<Item>, ParseError>
    ensures { Answers input.now grammar.port_item meaning.port_item_of view.item depth at result }
{
    let kind = direction(input, at, depth)?;
    let signed = optional(input, kind.to, depth, TokenKind::KeywordSigned);
    let range = optional_range(input, signed.to, depth)?;
    let names = port_names(input, range.to, depth, kind.value);
    let (range, names) = both(range, names)?;
    let end = take(input, names.to, TokenKind::Semicolon);
    let (declared, end) = both((range.value, names.value), end)?;
    let (range, names) = declared;
    let value = Item::Signals(Signals {
        place: at,
        kind: kind.value,
        signed: signed.value,
        range,
        names,
    });
    Ok(Found { value, to: end })
}

/// A setting, as a part of a list.
struct SettingPart;

impl Part for SettingPart {
    type Value = Setting;

    ghost Tree = { tree.Setting };

    ghost phrase = { r rule.Setting };

    ghost meaning = { meaning.setting_of };

    ghost view = { view.setting };
}

/// Settings, with commas between them.
fn settings(input: &Input<'_>, at: u32, depth: Depth) -> Result<Found<Vec<Setting>>, ParseError>
    ensures { Answers input.now (separated (r rule.Setting)) (λ b d. meaning.list_of (meaning.setting_of b) d) (λ v. map view.setting v.items) depth at result }
{
    comma_list::<SettingPart, _>(input, at, depth, |place, inner| {
        setting(input, place, inner)
    })
}

/// A declaration of parameters.
pub(crate) fn parameters(
    input: &Input<'_>,
    at: u32,
    depth: Depth,
) -> Result<Found<Item>, ParseError>
    ensures { Answers input.now (part.parameters_item) part.parameters_item_tree view.item depth at result }
{
    let word = take(input, at, TokenKind::KeywordParameter)?;
    let value_type = value_type(input, word, depth)?;
    let settings = settings(input, value_type.to, depth);
    let (value_type, settings) = both(value_type, settings)?;
    let end = take(input, settings.to, TokenKind::Semicolon);
    let (declared, end) = both((value_type.value, settings.value), end)?;
    let (value_type, settings) = declared;
    let value = Item::Parameters(Parameters {
        place: at,
        is_local: false,
        value_type,
        settings,
    });
    Ok(Found { value, to: end })
}

/// A declaration of local parameters.
pub(crate) fn local_parameters(
    input: &Input<'_>,
    at: u32,
    depth: Depth,
) -> Result<Found<Item>, ParseError>
    ensures { Answers input.now grammar.local_item meaning.local_item_of view.item depth at result }
{
    let word = take(input, at, TokenKind::KeywordLocalParam)?;
    let value_type = value_type(input, word, depth)?;
    let settings = settings(input, value_type.to, depth);
    let (value_type, settings) = both(value_type, settings)?;
    let end = take(input, settings.to, TokenKind::Semicolon);
    let (declared, end) = both((value_type.value, settings.value), end)?;
    let (value_type, settings) = declared;
    let value = Item::Parameters(Parameters {
        place: at,
        is_local: true,
        value_type,
        settings,
    });
    Ok(Found { value, to: end })
}

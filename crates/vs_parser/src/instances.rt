//! Instances of modules, and what their ports and parameters are connected to (IEEE 1364-2005, A.4).

ghost use Rattle.std.specs.Prelude.{◌≡◌, ◌≤◌, Ok, Option, map};
ghost use Rattle.vs_grammar.specs.Grammars.{opt};
ghost use Rattle.vs_grammar.specs.Verilog.{Rule as rule, r, separated};
ghost use Rattle.vs_grammar.specs.Verilog as grammar;
ghost use Rattle.vs_grammar.specs.Meaning as meaning;
ghost use Rattle.vs_ast.specs.Views as view;
ghost use Rattle.vs_parser.specs.Parts as part;
ghost use Rattle.vs_grammar.specs.Trees as tree;
ghost use Rattle.vs_statements.specs.Reading.{Answers};

use vs_ast::{Connections, Expr, Instance, Instances, Item, NamedConnection};
use vs_lexer::TokenKind;
use vs_statements::ParseError;
use vs_statements::commas::{Part, comma_list};
use vs_statements::depth::Depth;
use vs_statements::expressions::{expression, is_expression_at};
use vs_statements::input::{Found, Input, both};
use vs_statements::tokens::{stands, take};
use vs_statements::words::identifier;

/// An expression, if there is one.
fn optional_expression(
    input: &Input<'_>,
    at: u32,
    depth: Depth,
) -> Result<Found<Option<Expr>>, ParseError>
    ensures { Answers input.now (opt (r rule.Expression)) (λ b d. meaning.option_of (meaning.expr_of b) d) (view.option view.expr) depth at result }
{
    if !is_expression_at(input, at) {
        return Ok(Found {
            value: None,
            to: at,
        });
    }
    let inner = expression(input, at, depth)?;
    Ok(Found {
        value: Some(inner.value),
        to: inner.to,
    })
}

/// An expression or nothing, as a part of a list.
struct OptionalPart;

impl Part for OptionalPart {
    type Value = Option<Expr>;

    ghost Tree = { Option tree.Expr };

    ghost phrase = { opt (r rule.Expression) };

    ghost meaning = { λ b d. meaning.option_of (meaning.expr_of b) d };

    ghost view = { view.option view.expr };
}

/// Expressions or nothing, with commas between them.
fn expressions_by_order(
    input: &Input<'_>,
    at: u32,
    depth: Depth,
) -> Result<Found<Vec<Option<Expr>>>, ParseError>
    ensures { Answers input.now (separated (opt (r rule.Expression))) (λ b d. meaning.list_of (meaning.option_of (meaning.expr_of b)) d) (λ v. map (view.option view.expr) v.items) depth at result }
{
    comma_list::<OptionalPart, _>(input, at, depth, |place, inner| {
        optional_expression(input, place, inner)
    })
}

/// A connection by name.
fn named_connection(
    input: &Input<'_>,
    at: u32,
    depth: Depth,
) -> Result<Found<NamedConnection>, ParseError>
    ensures { Answers input.now grammar.named_connection meaning.connection_of view.named_connection depth at result }
{
    let dot = take(input, at, TokenKind::Dot)?;
    let name = identifier(input, dot)?;
    let open = take(input, name.to, TokenKind::OpenParen);
    let (name, open) = both(name, open)?;
    let value = optional_expression(input, open, depth);
    let (name, value) = both(name, value)?;
    let close = take(input, value.to, TokenKind::CloseParen);
    let (parts, close) = both((name.value, value.value), close)?;
    let (name, value) = parts;
    Ok(Found {
        value: NamedConnection { name, value },
        to: close,
    })
}

/// A connection by name, as a part of a list.
struct ConnectionPart;

impl Part for ConnectionPart {
    type Value = NamedConnection;

    ghost Tree = { tree.NamedConnection };

    ghost phrase = { grammar.named_connection };

    ghost meaning = { meaning.connection_of };

    ghost view = { view.named_connection };
}

/// Connections by name, with commas between them.
fn named_connections(
    input: &Input<'_>,
    at: u32,
    depth: Depth,
) -> Result<Found<Vec<NamedConnection>>, ParseError>
    ensures { Answers input.now (separated grammar.named_connection) (λ b d. meaning.list_of (meaning.connection_of b) d) (λ v. map view.named_connection v.items) depth at result }
{
    comma_list::<ConnectionPart, _>(input, at, depth, |place, inner| {
        named_connection(input, place, inner)
    })
}

/// Whether a list by order connects nothing: nothing stands in it alone.
fn is_nothing(list: &[Option<Expr>]) -> bool
    ensures { result ≡ part.is_nothing (map (view.option view.expr) list.now) }
{
    list.len() == 1 && list[0].is_none()
}

/// The connections of a list by order.
fn by_order(list: Vec<Option<Expr>>) -> Connections
    ensures { view.connections result ≡ part.by_order (map (view.option view.expr) list.items) }
{
    if is_nothing(list.as_slice()) {
        return Connections::Unconnected;
    }
    Connections::ByOrder(list)
}

/// What ports or parameters are connected to.
fn connections(input: &Input<'_>, at: u32, depth: Depth) -> Result<Found<Connections>, ParseError>
    ensures { Answers input.now (r rule.Connections) meaning.connections_of view.connections depth at result }
{
    if stands(input, at, TokenKind::Dot) {
        let named = named_connections(input, at, depth)?;
        Ok(Found {
            value: Connections::ByName(named.value),
            to: named.to,
        })
    } else {
        let list = expressions_by_order(input, at, depth)?;
        Ok(Found {
            value: by_order(list.value),
            to: list.to,
        })
    }
}

/// The parameters that instances are given.
fn overrides(input: &Input<'_>, at: u32, depth: Depth) -> Result<Found<Connections>, ParseError>
    ensures { Answers input.now grammar.overrides meaning.overrides_of view.connections depth at result }
{
    if !stands(input, at, TokenKind::Hash) {
        return Ok(Found {
            value: Connections::Unconnected,
            to: at,
        });
    }
    let hash = take(input, at, TokenKind::Hash)?;
    let open = take(input, hash, TokenKind::OpenParen)?;
    let list = connections(input, open, depth)?;
    let close = take(input, list.to, TokenKind::CloseParen);
    let (list, close) = both(list, close)?;
    Ok(Found {
        value: list.value,
        to: close,
    })
}

/// An instance.
fn instance(input: &Input<'_>, at: u32, depth: Depth) -> Result<Found<Instance>, ParseError>
    ensures { Answers input.now (r rule.Instance) meaning.instance_of view.instance depth at result }
{
    let name = identifier(input, at)?;
    let open = take(input, name.to, TokenKind::OpenParen);
    let (name, open) = both(name, open)?;
    let list = connections(input, open, depth);
    let (name, list) = both(name, list)?;
    let close = take(input, list.to, TokenKind::CloseParen);
    let (parts, close) = both((name.value, list.value), close)?;
    let (name, connections) = parts;
    Ok(Found {
        value: Instance { name, connections },
        to: close,
    })
}

/// An instance, as a part of a list.
struct InstancePart;

impl Part for InstancePart {
    type Value = Instance;

    ghost Tree = { tree.Instance };

    ghost phrase = { r rule.Instance };

    ghost meaning = { meaning.instance_of };

    ghost view = { view.instance };
}

/// Instances, with commas between them.
fn instance_list(
    input: &Input<'_>,
    at: u32,
    depth: Depth,
) -> Result<Found<Vec<Instance>>, ParseError>
    ensures { Answers input.now (separated (r rule.Instance)) (λ b d. meaning.list_of (meaning.instance_of b) d) (λ v. map view.instance v.items) depth at result }
{
    comma_list::<InstancePart, _>(input, at, depth, |place, inner| {
        instance(input, place, inner)
    })
}

/// Instances of one module.
pub(crate) fn instances(input: &Input<'_>, at: u32, depth: Depth) -> Result<Found<Item>, ParseError>
    ensures { Answers input.now grammar.instance_item meaning.instance_item_of view.item depth at result }
{
    let module = identifier(input, at)?;
    let overrides = overrides(input, module.to, depth);
    let (module, overrides) = both(module, overrides)?;
    let list = instance_list(input, overrides.to, depth);
    let (head, list) = both((module.value, overrides.value), list)?;
    let end = take(input, list.to, TokenKind::Semicolon);
    let (parts, end) = both((head, list.value), end)?;
    let (head, instances) = parts;
    let (of, overrides) = head;
    let value = Item::Instances(Instances {
        of,
        overrides,
        instances,
    });
    Ok(Found { value, to: end })
}

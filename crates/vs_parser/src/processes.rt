//! Continuous assignments, and `always` and `initial` blocks (IEEE 1364-2005, A.6).

ghost use Rattle.std.specs.Prelude.{◌≡◌, ◌≤◌, MatchOption, Ok, false, [], ◌++◌, map};
ghost use Rattle.vs_lexer.specs.declared.token.TokenKind.TheVariants as kind;
ghost use Rattle.vs_grammar.specs.Grammars.{star};
ghost use Rattle.vs_grammar.specs.Verilog.{Rule as rule, r, t, separated};
ghost use Rattle.vs_grammar.specs.Verilog as grammar;
ghost use Rattle.vs_grammar.specs.Meaning as meaning;
ghost use Rattle.vs_grammar.specs.Predictive.{is_member};
ghost use Rattle.vs_ast.specs.Views as view;
ghost use Rattle.vs_parser.specs.Parts as part;
ghost use Rattle.vs_grammar.specs.Trees as tree;
ghost use Rattle.vs_statements.specs.Reading.{Answers, Chosen, kind_at};

use vs_ast::{AlwaysBlock, Assign, Event, EventControl, InitialBlock, Item};
use vs_base::Edge;
use vs_lexer::TokenKind;
use vs_statements::ParseError;
use vs_statements::commas::{Part, comma_list};
use vs_statements::depth::Depth;
use vs_statements::expressions::expression;
use vs_statements::input::{Found, Input, both, longer, one};
use vs_statements::statements::{statement, target};
use vs_statements::tokens::{choose, stands, take};
use vs_statements::words::identifier;

/// What stands between two events.
const EVENT_SIGNS: [(TokenKind, ()); 2] = [(TokenKind::KeywordOr, ()), (TokenKind::Comma, ())];

/// A target and what it is assigned.
fn assign(input: &Input<'_>, at: u32, depth: Depth) -> Result<Found<Assign>, ParseError>
    ensures { Answers input.now grammar.assignment meaning.assign_of view.assign depth at result }
{
    let target = target(input, at, depth)?;
    let sign = take(input, target.to, TokenKind::Assign);
    let (target, sign) = both(target, sign)?;
    let value = expression(input, sign, depth);
    let (target, value) = both(target, value)?;
    Ok(Found {
        value: Assign {
            target: target.value,
            value: value.value,
        },
        to: value.to,
    })
}

/// A target and what it is assigned, as a part of a list.
struct AssignPart;

impl Part for AssignPart {
    type Value = Assign;

    ghost Tree = { tree.Assign };

    ghost phrase = { grammar.assignment };

    ghost meaning = { meaning.assign_of };

    ghost view = { view.assign };
}

/// Assignments, with commas between them.
fn assign_list(input: &Input<'_>, at: u32, depth: Depth) -> Result<Found<Vec<Assign>>, ParseError>
    ensures { Answers input.now (separated grammar.assignment) (λ b d. meaning.list_of (meaning.assign_of b) d) (λ v. map view.assign v.items) depth at result }
{
    comma_list::<AssignPart, _>(input, at, depth, |place, inner| {
        assign(input, place, inner)
    })
}

/// Continuous assignments.
pub(crate) fn assigns(input: &Input<'_>, at: u32, depth: Depth) -> Result<Found<Item>, ParseError>
    ensures { Answers input.now grammar.assign_item meaning.assign_item_of view.item depth at result }
{
    let word = take(input, at, TokenKind::KeywordAssign)?;
    let list = assign_list(input, word, depth)?;
    let end = take(input, list.to, TokenKind::Semicolon);
    let (list, end) = both(list, end)?;
    let value = Item::Assigns {
        place: at,
        assigns: list.value,
    };
    Ok(Found { value, to: end })
}

/// Which edge is named.
fn edge(input: &Input<'_>, at: u32, depth: Depth) -> Result<Found<Edge>, ParseError>
    ensures { Answers input.now (part.edge_words) (λ b d. meaning.edge_of d) (λ e. e) depth at result }
{
    if stands(input, at, TokenKind::KeywordPosedge) {
        let posedge = take(input, at, TokenKind::KeywordPosedge)?;
        Ok(Found {
            value: Edge::Posedge,
            to: posedge,
        })
    } else if stands(input, at, TokenKind::KeywordNegedge) {
        let negedge = take(input, at, TokenKind::KeywordNegedge)?;
        Ok(Found {
            value: Edge::Negedge,
            to: negedge,
        })
    } else {
        Ok(Found {
            value: Edge::Any,
            to: at,
        })
    }
}

/// An event.
fn event(input: &Input<'_>, at: u32, depth: Depth) -> Result<Found<Event>, ParseError>
    ensures { Answers input.now (r rule.Event) meaning.event_of view.event depth at result }
{
    let edge = edge(input, at, depth)?;
    let name = identifier(input, edge.to)?;
    Ok(Found {
        value: Event {
            edge: edge.value,
            name: name.value,
        },
        to: name.to,
    })
}

/// What stands between two events, if it stands here.
fn event_sign(input: &Input<'_>, at: u32) -> Option<Found<()>>
    ensures { MatchOption result (is_member (kind_at input.now.tokens.now at) part.event_kinds ≡ false) (λ f. Chosen input.now.tokens.now part.event_sign part.nothing_of at f.value f.to) }
{
    choose(input, at, &EVENT_SIGNS)
}

/// Events behind these ones, each after `or` or a comma.
fn more_events(
    input: &Input<'_>,
    at: u32,
    depth: Depth,
    before: Vec<Event>,
) -> Result<Found<Vec<Event>>, ParseError>
    ensures { Answers input.now (part.events_behind) (λ b d. map view.event before.items ++ meaning.each_onto (meaning.behind_sign (meaning.event_of b)) d []) (λ v. map view.event v.items) depth at result }
{
    let mut list = before;
    let mut to = at;
    while let Some(sign) = event_sign(input, to) {
        let next = event(input, sign.to, depth);
        let (before, next) = both(list, next)?;
        list = longer(before, next.value)?;
        to = next.to;
    }
    Ok(Found { value: list, to })
}

/// Events, with `or` or commas between them.
fn events(input: &Input<'_>, at: u32, depth: Depth) -> Result<Found<Vec<Event>>, ParseError>
    ensures { Answers input.now (part.events) part.events_of (λ v. map view.event v.items) depth at result }
{
    let first = event(input, at, depth)?;
    let begun = one(input.alloc, first.value)?;
    let list = more_events(input, first.to, depth, begun)?;
    Ok(Found {
        value: list.value,
        to: list.to,
    })
}

/// The event of a name.
fn single_event(input: &Input<'_>, at: u32, depth: Depth) -> Result<Found<EventControl>, ParseError>
    ensures { Answers input.now (t kind.Identifier) part.single_event view.event_control depth at result }
{
    let name = identifier(input, at)?;
    let event = Event {
        edge: Edge::Any,
        name: name.value,
    };
    let list = one(input.alloc, event)?;
    Ok(Found {
        value: EventControl::Listed(list),
        to: name.to,
    })
}

/// What stands in the brackets of an event control.
fn inner_control(
    input: &Input<'_>,
    at: u32,
    depth: Depth,
) -> Result<Found<EventControl>, ParseError>
    ensures { Answers input.now (part.inner_control) part.inner_control_of view.event_control depth at result }
{
    if stands(input, at, TokenKind::Star) {
        let star = take(input, at, TokenKind::Star)?;
        Ok(Found {
            value: EventControl::Star,
            to: star,
        })
    } else {
        let list = events(input, at, depth)?;
        Ok(Found {
            value: EventControl::Listed(list.value),
            to: list.to,
        })
    }
}

/// An event control in brackets.
fn bracketed_control(
    input: &Input<'_>,
    at: u32,
    depth: Depth,
) -> Result<Found<EventControl>, ParseError>
    ensures { Answers input.now grammar.event_list part.bracketed_control_of view.event_control depth at result }
{
    let open = take(input, at, TokenKind::OpenParen)?;
    let control = inner_control(input, open, depth)?;
    let close = take(input, control.to, TokenKind::CloseParen);
    let (control, close) = both(control, close)?;
    Ok(Found {
        value: control.value,
        to: close,
    })
}

/// What stands behind the `@` of an event control.
fn control(input: &Input<'_>, at: u32, depth: Depth) -> Result<Found<EventControl>, ParseError>
    ensures { Answers input.now (part.control) part.control_of view.event_control depth at result }
{
    if stands(input, at, TokenKind::Identifier) {
        single_event(input, at, depth)
    } else if stands(input, at, TokenKind::Star) {
        let star = take(input, at, TokenKind::Star)?;
        Ok(Found {
            value: EventControl::Star,
            to: star,
        })
    } else {
        bracketed_control(input, at, depth)
    }
}

/// What a block waits for.
fn event_control(
    input: &Input<'_>,
    at: u32,
    depth: Depth,
) -> Result<Found<EventControl>, ParseError>
    ensures { Answers input.now (r rule.EventControl) meaning.control_of view.event_control depth at result }
{
    let sign = take(input, at, TokenKind::At)?;
    let control = control(input, sign, depth)?;
    Ok(Found {
        value: control.value,
        to: control.to,
    })
}

/// An `always` block.
pub(crate) fn always(input: &Input<'_>, at: u32, depth: Depth) -> Result<Found<Item>, ParseError>
    ensures { Answers input.now grammar.always_item meaning.always_item_of view.item depth at result }
{
    let word = take(input, at, TokenKind::KeywordAlways)?;
    let control = event_control(input, word, depth)?;
    let statement = statement(input, control.to, depth);
    let (control, statement) = both(control, statement)?;
    let value = Item::Always(AlwaysBlock {
        place: at,
        control: control.value,
        statement: statement.value,
    });
    Ok(Found {
        value,
        to: statement.to,
    })
}

/// An `initial` block.
pub(crate) fn initial(input: &Input<'_>, at: u32, depth: Depth) -> Result<Found<Item>, ParseError>
    ensures { Answers input.now grammar.initial_item meaning.initial_item_of view.item depth at result }
{
    let word = take(input, at, TokenKind::KeywordInitial)?;
    let statement = statement(input, word, depth)?;
    let value = Item::Initial(InitialBlock {
        place: at,
        statement: statement.value,
    });
    Ok(Found {
        value,
        to: statement.to,
    })
}

//! Event controls (IEEE 1364-2005, 9.7).

ghost use Rattle.vs_ast.specs.declared.items.Event.{Event};
ghost use Rattle.std.specs.Prelude.{◌≡◌, map};
ghost use Rattle.std.specs.List.{list_any};
ghost use Rattle.vs_design.specs.Designs.{is_edge};
ghost use Rattle.vs_grammar.specs.Trees as tree;
ghost use Rattle.vs_ast.specs.Views as view;
ghost use Rattle.vs_const.specs.Faults.{least};
ghost use Rattle.vs_elaborated.specs.Statements.{event_faults, is_clocked_by, typed_events, typed_control};

use vs_ast::{Event, EventControl};
use vs_const::{Env, Fault, Named, Rule, fault_at, fault_if, first_of};

/// The fault of an event (IEEE 1364-2005, 9.7.2): it is a signal, and one with an edge a scalar.
fn event_fault<E: Env>(e: &Event, env: &E) -> Option<Fault>
    ensures { result ≡ least (event_faults e.now.name.place e.now.edge (E.names env.now e.now.name.text)) }
{
    let place = e.name.place;
    match env.find(e.name.text.as_slice()) {
        Named::Signal(s) => {
            let is_edge = e.edge.is_edge();
            fault_if(is_edge && s.range.is_some(), Rule::WrongKind, place)
        }
        Named::Unknown => fault_at(Rule::UnknownName, place),
        _ => fault_at(Rule::WrongKind, place),
    }
}

/// The first fault of a list of events (IEEE 1364-2005, 9.7.4).
fn check_events<E: Env>(events: &[Event], env: &E) -> Option<Fault>
    ensures { result ≡ least (typed_events (map view.event events.now) (E.names env.now)).faults }
{
    let mut first = None;
    for e in events {
        first = first_of(first, event_fault(e, env));
    }
    first
}

/// The first fault of an event control (IEEE 1364-2005, 9.7).
pub fn check_control<E: Env>(c: &EventControl, env: &E) -> Option<Fault>
    ensures { result ≡ least (typed_control (view.event_control c.now) (E.names env.now)).faults }
{
    match c {
        EventControl::Star => None,
        EventControl::Listed(events) => check_events(events, env),
    }
}

/// Whether an edge is among these events.
fn has_edge(events: &[Event]) -> bool
    ensures { result ≡ list_any (λ (e : Event). is_edge e.edge) events.now }
{
    events.iter().any(|e| e.edge.is_edge())
}

/// Whether an edge is among the events of a block, so that it is clocked (IEEE 1364-2005, 9.7.2).
pub fn is_clocked(c: &EventControl) -> bool
    ensures { result ≡ is_clocked_by (view.event_control c.now) }
{
    match c {
        EventControl::Star => false,
        EventControl::Listed(events) => has_edge(events),
    }
}

//! The events of clocked blocks (IEEE 1364-2005, 9.7.2).

ghost use Rattle.std.specs.Prelude.{◌≡◌, ℕ, ◌<◌, ◌&&◌, length, map, slice_get, Some, List};
ghost use Rattle.vs_flat.specs.declared.processes.Event.{Event};
ghost use Rattle.vs_design.specs.Clocks.{is_clock_event, is_reset_event, both_events, events_of, clock_nets, root_of};
ghost use Rattle.vs_flat.specs.DesignOf.{arena_signals, design_of, event_of};
ghost use Rattle.vs_flat.specs.Trees.{signal_at};
ghost use Rattle.vs_clock.specs.Nets.{AreNets};
ghost use Rattle.vs_clock.specs.Tests.{AreEvents, HasSignal};

use crate::nets::Nets;
use crate::ports::only_bit;
use vs_base::Edge;
use vs_flat::{Event, Flat};

/// What a clocked block waits for.
#[derive(Clone, Copy, PartialEq, Eq, Debug)]
pub(crate) enum BlockEvents {
    /// A posedge of a clock net alone.
    Clock,
    /// That, and this edge of a reset net.
    Reset(Event),
    /// Anything else.
    Other,
}

/// Whether an event is a posedge of a clock net.
fn is_clock(flat: &Flat, nets: &Nets, event: Event) -> bool
    requires { event.signal < length flat.now.signals }
    ensures { (clock : List ℕ) → AreNets (design_of flat.now) clock nets.now → result ≡ is_clock_event (clock_nets (design_of flat.now) clock) (event_of (signal_at (arena_signals flat.now)) event) }
{
    match event.edge {
        Edge::Posedge => match only_bit(flat, event.signal) {
            Some(bit) => nets.is_clock(bit),
            None => false,
        },
        Edge::Any | Edge::Negedge => false,
    }
}

/// Whether an event is an edge of a reset net.
fn is_reset(flat: &Flat, nets: &Nets, event: Event) -> bool
    requires { event.signal < length flat.now.signals }
    ensures { (clock : List ℕ) → AreNets (design_of flat.now) clock nets.now → result ≡ is_reset_event (root_of (design_of flat.now) clock) (event_of (signal_at (arena_signals flat.now)) event) }
{
    match event.edge {
        Edge::Posedge | Edge::Negedge => match only_bit(flat, event.signal) {
            Some(bit) => nets.root(bit).is_some(),
            None => false,
        },
        Edge::Any => false,
    }
}

/// Whether these events are a posedge of a clock net and an edge of a reset net.
fn are_both(flat: &Flat, nets: &Nets, clock: Event, reset: Event) -> bool
    requires clock { clock.signal < length flat.now.signals }
    requires reset { reset.signal < length flat.now.signals }
    ensures { (c : List ℕ) → AreNets (design_of flat.now) c nets.now → result ≡ (is_clock_event (clock_nets (design_of flat.now) c) (event_of (signal_at (arena_signals flat.now)) clock)
        && is_reset_event (root_of (design_of flat.now) c) (event_of (signal_at (arena_signals flat.now)) reset)) }
{
    if is_clock(flat, nets, clock) {
        is_reset(flat, nets, reset)
    } else {
        false
    }
}

/// The two events of a block, in either order.
fn both_events(flat: &Flat, nets: &Nets, e: Event, f: Event) -> BlockEvents
    requires first { e.signal < length flat.now.signals }
    requires second { f.signal < length flat.now.signals }
    ensures there { HasSignal (length flat.now.signals) result }
    ensures events { (c : List ℕ) → AreNets (design_of flat.now) c nets.now → AreEvents (signal_at (arena_signals flat.now)) result
        (both_events (clock_nets (design_of flat.now) c) (root_of (design_of flat.now) c) (event_of (signal_at (arena_signals flat.now)) e) (event_of (signal_at (arena_signals flat.now)) f)) }
{
    if are_both(flat, nets, e, f) {
        return BlockEvents::Reset(f);
    }
    if are_both(flat, nets, f, e) {
        return BlockEvents::Reset(e);
    }
    BlockEvents::Other
}

/// What a block with these events waits for.
pub(crate) fn events_of(flat: &Flat, nets: &Nets, events: &[Event]) -> BlockEvents
    requires { (k : ℕ) (e : Event) → slice_get events.now k ≡ Some e → e.signal < length flat.now.signals }
    ensures there { HasSignal (length flat.now.signals) result }
    ensures events { (c : List ℕ) → AreNets (design_of flat.now) c nets.now → AreEvents (signal_at (arena_signals flat.now)) result
        (events_of (clock_nets (design_of flat.now) c) (root_of (design_of flat.now) c) (map (event_of (signal_at (arena_signals flat.now))) events.now)) }
{
    if events.len() == 1 {
        if is_clock(flat, nets, events[0]) {
            return BlockEvents::Clock;
        }
        return BlockEvents::Other;
    }
    if events.len() == 2 {
        return both_events(flat, nets, events[0], events[1]);
    }
    BlockEvents::Other
}

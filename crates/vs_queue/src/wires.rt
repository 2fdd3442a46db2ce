//! Who listens to the bits of a design (IEEE 1364-2005, 9.7.2, 9.7.5 and 11.6.1).

ghost use Rattle.std.specs.Prelude.{◌≤◌, ◌≡◌, ◌<◌, ℕ, [], length, map, replicate, slice_get, Some, IfOk, OnOk};
ghost use Rattle.vs_design.specs.Clocks.{first_clock};
ghost use Rattle.vs_design.specs.Designs as D;
ghost use Rattle.vs_events.specs.Wired.{after_listen, after_listens};
ghost use Rattle.vs_flat.specs.DesignOf.{arena_signals, design_of, event_of};
ghost use Rattle.vs_flat.specs.Lawful.{IsLawful};
ghost use Rattle.vs_flat.specs.Trees.{signal_at};
ghost use Rattle.vs_reads.specs.Footprint.{footprints_of};
ghost use Rattle.vs_queue.specs.Listens.{listeners_of, listens_from, process_listens, to_bit, to_event};
ghost use Rattle.vs_queue.specs.Machines.{IsAcceptedBy};
ghost use Rattle.vs_queue.specs.Spare.{has_keeper, spare_count, value_count};
ghost use Rattle.vs_queue.specs.There.{AllThere};

use crate::first::{keeper_at, spare_count};
use std::alloc::{AllocError, Global};
use vs_base::Edge;
use vs_clock::Clocks;
use vs_events::{Change, Listener, Wiring};
use vs_flat::{Event, Flat, Kind, count_bits, has_edge, lawful_law, trees_law};
use vs_reads::{Footprints, footprint_law};
use vs_typed::Typed;

/// Process p listens to each of these bits.
fn listen_to_bits(wiring: &mut Wiring, p: u32, bits: &[u32]) -> Result<(), AllocError>
    requires { (count : ℕ) × AllThere (length wiring.old) count (map (to_bit p) bits.now) }
    ensures { OnOk result (wiring.new ≡ after_listens wiring.old (map (to_bit p) bits.now)) }
{
    for bit in bits {
        let change = Change::Any;
        wiring.listen(*bit, Listener { process: p, change })?;
    }
    Ok(())
}

/// The changes for which an event waits.
fn change_of(edge: Edge) -> Change
    ensures { result ≡ Rattle.vs_queue.specs.Listens.change_of edge }
{
    match edge {
        Edge::Any => Change::Any,
        Edge::Posedge => Change::Pos,
        Edge::Negedge => Change::Neg,
    }
}

/// Process p listens to this event.
fn listen_to_event(flat: &Flat, wiring: &mut Wiring, p: u32, event: Event) -> Result<(), AllocError>
    requires signal { event.signal < length flat.now.signals }
    requires there { (signal_at (arena_signals flat.now) event.signal).first < length wiring.old }
    ensures { OnOk result (wiring.new ≡ after_listen wiring.old (to_event p (event_of (signal_at (arena_signals flat.now)) event))) }
{
    trees_law();
    let bit = flat.signal(event.signal).first_bit;
    let change = change_of(event.edge);
    wiring.listen(bit, Listener { process: p, change })
}

/// Process p listens to each of these events.
fn listen_to_events(
    flat: &Flat,
    wiring: &mut Wiring,
    p: u32,
    events: &[Event],
) -> Result<(), AllocError>
    requires signals { (k : ℕ) (e : Event) → slice_get events.now k ≡ Some e → e.signal < length flat.now.signals }
    requires there { (count : ℕ) × AllThere (length wiring.old) count (map (to_event p) (map (event_of (signal_at (arena_signals flat.now))) events.now)) }
    ensures { OnOk result (wiring.new ≡ after_listens wiring.old (map (to_event p) (map (event_of (signal_at (arena_signals flat.now))) events.now))) }
{
    for event in events {
        listen_to_event(flat, wiring, p, *event)?;
    }
    Ok(())
}

/// Process p listens to what wakes it: an assign to the bits that it reads, a combinational block to those that it waits on, and a clocked block to its events.
fn listen(
    typed: &Typed,
    footprints: &Footprints,
    wiring: &mut Wiring,
    p: u32,
) -> Result<(), AllocError>
    requires there { p < length typed.now.processes }
    requires footprints { footprints.now ≡ footprints_of (design_of typed.now) }
    requires bits { (x : D.Process) → slice_get (design_of typed.now).processes p ≡ Some x → (count : ℕ) × AllThere (length wiring.old) count (process_listens (D.bit_count (design_of typed.now)) p x) }
    ensures { (x : D.Process) → slice_get (design_of typed.now).processes p ≡ Some x → OnOk result (wiring.new ≡ after_listens wiring.old (process_listens (D.bit_count (design_of typed.now)) p x)) }
{
    trees_law();
    vs_flat::names_law();
    footprint_law();
    let flat = typed.flat();
    match &flat.process(p).kind {
        Kind::Assign { .. } => listen_to_bits(wiring, p, footprints.reads(p)),
        Kind::Block { events, .. } => {
            if has_edge(events.as_slice()) {
                listen_to_events(flat, wiring, p, events.as_slice())
            } else {
                listen_to_bits(wiring, p, footprints.waits(p))
            }
        }
    }
}

/// How many values there are: one for each bit of the design, and one for a clock that is none of them.
fn value_count(flat: &Flat, clocks: &[u32]) -> u32
    requires lawful { IsLawful flat.now }
    requires one { spare_count (design_of flat.now) clocks.now ≤ 1 }
    ensures { result ≡ value_count (design_of flat.now) clocks.now }
{
    trees_law();
    lawful_law();
    count_bits(flat) + spare_count(flat, clocks)
}

/// The first of the clocks.
fn first_clock(clocks: &[u32]) -> u32
    ensures { result ≡ first_clock clocks.now }
{
    match clocks.first() {
        Some(clock) => *clock,
        None => 0,
    }
}

/// By bit the listeners among the processes of a design.
fn process_wiring(
    alloc: Global,
    typed: &Typed,
    footprints: &Footprints,
    clocks: &Clocks,
) -> Result<Wiring, AllocError>
    requires accepted { IsAcceptedBy (design_of typed.now) clocks.now }
    requires footprints { footprints.now ≡ footprints_of (design_of typed.now) }
    ensures { IfOk result (λ w. w ≡ after_listens (replicate (value_count (design_of typed.now) clocks.now.bits) []) (listens_from (D.bit_count (design_of typed.now)) 0 (design_of typed.now).processes)) }
{
    trees_law();
    vs_design::footprint_law();
    vs_design::within_law();
    let flat = typed.flat();
    let mut wiring = Wiring::new(alloc, value_count(flat, clocks.bits()))?;
    for p in 0..flat.process_count() {
        listen(typed, footprints, &mut wiring, p)?;
    }
    Ok(wiring)
}

/// The listeners of a design by bit, where it is told whether there is a block that keeps what initial processes alone write. The only error is that there is no memory.
pub(crate) fn wiring_of(
    alloc: Global,
    typed: &Typed,
    footprints: &Footprints,
    clocks: &Clocks,
    keeper: bool,
) -> Result<Wiring, AllocError>
    requires accepted { IsAcceptedBy (design_of typed.now) clocks.now }
    requires footprints { footprints.now ≡ footprints_of (design_of typed.now) }
    requires keeper { keeper ≡ has_keeper (design_of typed.now) }
    ensures { IfOk result (λ w. w ≡ listeners_of (design_of typed.now) clocks.now.bits) }
{
    vs_design::footprint_law();
    vs_design::within_law();
    let mut wiring = process_wiring(alloc, typed, footprints, clocks)?;
    if keeper {
        let bit = first_clock(clocks.bits());
        let process = keeper_at(typed.flat(), clocks.bits());
        let change = Change::Pos;
        wiring.listen(bit, Listener { process, change })?;
        return Ok(wiring);
    }
    Ok(wiring)
}

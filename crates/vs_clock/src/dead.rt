//! Dead nets, and the clocked blocks that wait for their edges alone (IEEE 1364-2005, 4.2 and 9.7.2).

ghost use Rattle.std.specs.Prelude.{◌≡◌, ◌<◌, ◌||◌, ℕ, false, true, length, map, slice_get, slice_index_or, slice_set, IfOk, Some};
ghost use Rattle.std.specs.List.{filter_map, list_all};
ghost use Rattle.vs_design.specs.Dead.{dead_nets, is_dead};
ghost use Rattle.vs_design.specs.Designs as D;
ghost use Rattle.vs_design.specs.Footprints.{contains};
ghost use Rattle.vs_design.specs.Rules.{written_bits};
ghost use Rattle.vs_flat.specs.DesignOf.{arena_signals, design_of, event_of};
ghost use Rattle.vs_flat.specs.Lawful.{IsLawful};
ghost use Rattle.vs_flat.specs.Trees.{signal_at};
ghost use Rattle.vs_reads.specs.Footprint.{footprints_of};
ghost use Rattle.vs_clock.specs.Dead.{IsLabelledBy, IsMarkedBy, is_labelled_block, is_labelled_edge, net_bit, unmarked_bit};
ghost use Rattle.vs_clock.specs.Spread.{has_label};

use crate::marks::is_marked;
use crate::ports::{only_bit, port_targets_of};
use crate::roots::roots_of;
use std::alloc::{AllocError, Global};
use vs_design::clocks_law;
use vs_flat::{Event, Flat, Kind, count_bits, has_edge, names_law, trees_law};
use vs_reads::{Footprints, footprint_law};

/// Marks this bit.
fn set_mark(marks: &mut Vec<bool>, bit: usize)
    requires { bit < length marks.old.items }
    ensures { marks.new.items ≡ slice_set marks.old.items bit true }
{
    marks[bit] = true;
}

/// Marks these bits.
fn mark_all(marks: &mut Vec<bool>, bits: &[u32])
    requires { (b : ℕ) → contains bits.now b ≡ true → b < length marks.old.items }
    ensures count { length marks.new.items ≡ length marks.old.items }
    ensures marks { (b : ℕ) → slice_index_or marks.new.items b false ≡ (slice_index_or marks.old.items b false || contains bits.now b) }
{
    for bit in bits {
        set_mark(marks, *bit as usize);
    }
}

/// For each bit of the design whether a process writes it.
fn written(alloc: Global, flat: &Flat, footprints: &Footprints) -> Result<Vec<bool>, AllocError>
    requires lawful { IsLawful flat.now }
    requires footprints { footprints.now ≡ footprints_of (design_of flat.now) }
    ensures { IfOk result (λ v. IsMarkedBy v.items (written_bits (design_of flat.now).processes)) }
{
    trees_law();
    footprint_law();
    let mut marks = vec![in alloc; false; count_bits(flat) as usize]?;
    for p in 0..flat.process_count() {
        mark_all(&mut marks, footprints.writes(p));
    }
    Ok(marks)
}

/// The bit of a net that has one, and that is no input of the top.
fn net_bit(flat: &Flat, signal: u32) -> Option<u32>
    requires { signal < length flat.now.signals }
    ensures { result ≡ net_bit (signal_at (arena_signals flat.now) signal) }
{
    trees_law();
    let s = flat.signal(signal);
    if s.input {
        return None;
    }
    if !s.net {
        return None;
    }
    only_bit(flat, signal)
}

/// The bit of such a net, where it isn't marked.
fn unmarked_bit(flat: &Flat, signal: u32, marks: &[bool]) -> Option<u32>
    requires { signal < length flat.now.signals }
    ensures { result ≡ unmarked_bit marks.now (signal_at (arena_signals flat.now) signal) }
{
    match net_bit(flat, signal) {
        Some(bit) => {
            if is_marked(marks, bit) {
                None
            } else {
                Some(bit)
            }
        }
        None => None,
    }
}

/// The bits of such nets that aren't marked, in order of declaration.
fn unmarked_bits(alloc: Global, flat: &Flat, marks: &[bool]) -> Result<Vec<u32>, AllocError>
    ensures { IfOk result (λ v. v.items ≡ filter_map (unmarked_bit marks.now) (design_of flat.now).signals) }
{
    trees_law();
    let mut bits = Vec::new(alloc);
    for signal in 0..flat.signal_count() {
        match unmarked_bit(flat, signal, marks) {
            Some(bit) => bits.push(bit)?,
            None => {}
        }
    }
    Ok(bits)
}

/// For each bit a label where it is a dead net's.
fn dead_labels(
    alloc: Global,
    flat: &Flat,
    footprints: &Footprints,
) -> Result<Vec<Option<u32>>, AllocError>
    requires lawful { IsLawful flat.now }
    requires footprints { footprints.now ≡ footprints_of (design_of flat.now) }
    ensures { IfOk result (λ v. IsLabelledBy v.items (dead_nets (design_of flat.now))) }
{
    clocks_law();
    let marks = written(alloc, flat, footprints)?;
    let undriven = unmarked_bits(alloc, flat, marks.as_slice())?;
    let targets = port_targets_of(alloc, flat)?;
    roots_of(alloc, &targets, undriven.as_slice())
}

/// Whether a bit has a label.
fn has_label(labels: &[Option<u32>], bit: u32) -> bool
    ensures { result ≡ has_label labels.now bit }
{
    match labels.get(bit as usize) {
        Some(label) => label.is_some(),
        None => false,
    }
}

/// Whether an event is an edge of a labelled bit.
fn is_labelled_edge(flat: &Flat, labels: &[Option<u32>], event: Event) -> bool
    requires { event.signal < length flat.now.signals }
    ensures { result ≡ is_labelled_edge labels.now (event_of (signal_at (arena_signals flat.now)) event) }
{
    trees_law();
    if !event.edge.is_edge() {
        return false;
    }
    has_label(labels, flat.signal(event.signal).first_bit)
}

/// Whether all events are edges of labelled bits.
fn are_labelled_edges(flat: &Flat, labels: &[Option<u32>], events: &[Event]) -> bool
    requires { (k : ℕ) (e : Event) → slice_get events.now k ≡ Some e → e.signal < length flat.now.signals }
    ensures { result ≡ list_all (is_labelled_edge labels.now) (map (event_of (signal_at (arena_signals flat.now))) events.now) }
{
    for event in events {
        if !is_labelled_edge(flat, labels, *event) {
            return false;
        }
    }
    true
}

/// Whether process p is a clocked block all of whose events are edges of labelled bits.
fn is_labelled_block(flat: &Flat, labels: &[Option<u32>], p: u32) -> bool
    requires lawful { IsLawful flat.now }
    requires there { p < length flat.now.processes }
    ensures { (x : D.Process) → slice_get (design_of flat.now).processes p ≡ Some x → result ≡ is_labelled_block labels.now x }
{
    trees_law();
    names_law();
    match &flat.process(p).kind {
        Kind::Assign { .. } => false,
        Kind::Block { events, .. } => {
            if !has_edge(events.as_slice()) {
                return false;
            }
            are_labelled_edges(flat, labels, events.as_slice())
        }
    }
}

/// For each process whether it is a clocked block that never runs, since all its events are edges of dead nets: nets of one bit that no process writes, and what ports copy from such
/// nets. The only error is that memory ran out.
pub fn dead_blocks(
    alloc: Global,
    flat: &Flat,
    footprints: &Footprints,
) -> Result<Vec<bool>, AllocError>
    requires lawful { IsLawful flat.now }
    requires footprints { footprints.now ≡ footprints_of (design_of flat.now) }
    ensures { IfOk result (λ v. v.items ≡ map (is_dead (dead_nets (design_of flat.now))) (design_of flat.now).processes) }
{
    trees_law();
    let labels = dead_labels(alloc, flat, footprints)?;
    let mut dead = Vec::new(alloc);
    for p in 0..flat.process_count() {
        let is_dead = is_labelled_block(flat, labels.as_slice(), p);
        dead.push(is_dead)?;
    }
    Ok(dead)
}

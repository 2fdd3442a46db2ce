//! The graph of a design: its assigns and combinational blocks, and what feeds each.

ghost use Rattle.std.specs.Prelude.{◌≡◌, ℕ, ◌<◌, ◌&&◌, ◌||◌, ◌==◌, true, length, IfOk, OnOk};
ghost use Rattle.std.specs.List.{list_any};
ghost use Rattle.vs_design.specs.Designs.{bit_count};
ghost use Rattle.vs_design.specs.Footprints.{contains};
ghost use Rattle.vs_flat.specs.DesignOf.{design_of};
ghost use Rattle.vs_flat.specs.Lawful.{IsLawful};
ghost use Rattle.vs_reads.specs.Footprint.{footprints_of};
ghost use Rattle.vs_level.specs.Feeders.{settles, is_feeder, writers_at, AreWriters, IsGraphOf};

use crate::graph::Graph;
use crate::writers::Writers;
use std::alloc::{AllocError, Global};
use vs_base::List;
use vs_flat::{Flat, Kind, count_bits, has_edge, trees_law};
use vs_reads::{Footprints, footprint_law};

/// Whether a process is an assign or a combinational block.
fn is_settling(flat: &Flat, p: u32) -> bool
    requires { p < length flat.now.processes }
    ensures { result ≡ settles (design_of flat.now) p }
{
    trees_law();
    match &flat.process(p).kind {
        Kind::Assign { .. } => true,
        Kind::Block { events, .. } => !has_edge(events.as_slice()),
    }
}

/// Notes that process p writes these bits.
fn add_writer(writers: &mut Writers, bits: &[u32], p: u32) -> Result<(), AllocError>
    requires { (b : ℕ) → contains bits.now b ≡ true → b < length writers.old }
    ensures count { OnOk result (length writers.new ≡ length writers.old) }
    ensures added { OnOk result ((b q : ℕ) → b < length writers.old
        → contains (writers_at writers.new b) q ≡ (contains (writers_at writers.old b) q || (contains bits.now b && (q == p)))) }
{
    for bit in bits {
        writers.add(*bit, p)?;
    }
    Ok(())
}

/// The assigns and combinational blocks that write each bit.
fn writers_of(alloc: Global, flat: &Flat, footprints: &Footprints) -> Result<Writers, AllocError>
    requires lawful { IsLawful flat.now }
    requires footprints { footprints.now ≡ footprints_of (design_of flat.now) }
    ensures count { IfOk result (λ w. length w ≡ bit_count (design_of flat.now)) }
    ensures writers { IfOk result (λ w. AreWriters (design_of flat.now) (length (design_of flat.now).processes) w) }
{
    trees_law();
    footprint_law();
    let mut writers = Writers::none(alloc, count_bits(flat))?;
    for p in 0..flat.process_count() {
        if is_settling(flat, p) {
            add_writer(&mut writers, footprints.writes(p), p)?;
        }
    }
    Ok(writers)
}

/// Adds what writes one of these bits to a list.
fn add_feeders(feeders: &mut Vec<u32>, writers: &Writers, bits: &[u32]) -> Result<(), AllocError>
    requires { (b : ℕ) → contains bits.now b ≡ true → b < length writers.now }
    ensures { OnOk result ((q : ℕ) → contains feeders.new.items q
        ≡ (contains feeders.old.items q || list_any (λ b. contains (writers_at writers.now b) q) bits.now)) }
{
    for bit in bits {
        feeders.extend_from_slice(writers.of(*bit))?;
    }
    Ok(())
}

/// What feeds an assign or a combinational block.
fn feeders_of(
    alloc: Global,
    flat: &Flat,
    footprints: &Footprints,
    writers: &Writers,
    p: u32,
) -> Result<List<u32>, AllocError>
    requires lawful { IsLawful flat.now }
    requires footprints { footprints.now ≡ footprints_of (design_of flat.now) }
    requires count { length writers.now ≡ bit_count (design_of flat.now) }
    requires writers { AreWriters (design_of flat.now) (length (design_of flat.now).processes) writers.now }
    requires process { p < length flat.now.processes }
    requires settles { settles (design_of flat.now) p ≡ true }
    ensures { IfOk result (λ fs. (q : ℕ) → contains fs q ≡ is_feeder (design_of flat.now) p q) }
{
    trees_law();
    footprint_law();
    let mut feeders = Vec::new(alloc);
    add_feeders(&mut feeders, writers, footprints.reads(p))?;
    add_feeders(&mut feeders, writers, footprints.waits(p))?;
    Ok(List::of(feeders))
}

/// The assigns and combinational blocks of a design, and what feeds each. The time is linear in the lengths of the footprints and the number of pairs of a process and one that feeds it by a bit.
pub(crate) fn graph_of(
    alloc: Global,
    flat: &Flat,
    footprints: &Footprints,
) -> Result<Graph, AllocError>
    requires lawful { IsLawful flat.now }
    requires footprints { footprints.now ≡ footprints_of (design_of flat.now) }
    ensures { IfOk result (λ g. IsGraphOf (design_of flat.now) g) }
{
    trees_law();
    let writers = writers_of(alloc, flat, footprints)?;
    let mut graph = Graph::new(alloc);
    for p in 0..flat.process_count() {
        if is_settling(flat, p) {
            graph.add_node(p, feeders_of(alloc, flat, footprints, &writers, p)?)?;
        } else {
            graph.add_other(alloc)?;
        }
    }
    Ok(graph)
}

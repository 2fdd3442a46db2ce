//! What one process reads, writes and waits on.

ghost use Rattle.std.specs.Prelude.{◌≡◌, ◌<◌, ◌++◌, ℕ, Bool, List, true, false, map, length, IfOk, slice_get};
ghost use Rattle.std.specs.List.{list_any};
ghost use Rattle.std.specs.List.Sorted.{IsStrictlyIncreasing};
ghost use Rattle.vs_design.specs.Designs as D;
ghost use Rattle.vs_design.specs.Fits.{fits_statement};
ghost use Rattle.vs_design.specs.Footprints.{contains, without, ascending, signals_bits, wait_signals};
ghost use Rattle.vs_flat.specs.DesignOf.{event_of, arena_signals};
ghost use Rattle.vs_flat.specs.Trees.{signal_at, target_tree};
ghost use Rattle.vs_shape.specs.Nodes.{tree_of};
ghost use Rattle.vs_shape.specs.Bodies.{body_of};
ghost use Rattle.vs_reads.specs.Footprint.{footprint_in};
ghost use Rattle.vs_reads.specs.Kept.{footprint_of};
ghost use Rattle.vs_reads.specs.Named.{AssignIsFit, BlockIsFit, EachSignalBelow};
ghost use Rattle.vs_reads.specs.Within.{IsWithin};

use crate::lists::ProcessBits;
use smallvec::SmallVec;
use std::alloc::{AllocError, Global};
use vs_flat::Event;
use vs_shape::{Shapes, Walk, ascend, is_among};

/// Those of the bits that are not among the others, which rise.
fn without(alloc: Global, bits: &[u32], others: &[u32]) -> Result<Vec<u32>, AllocError>
    requires { IsStrictlyIncreasing others.now }
    ensures { IfOk result (λ v. v.items ≡ without bits.now others.now) }
{
    let mut kept = Vec::new(alloc);
    for bit in bits {
        if !is_among(others, *bit) {
            kept.push(*bit)?;
        }
    }
    Ok(kept)
}

/// These bits in ascending order, each once.
fn ascending(alloc: Global, bits: &mut Vec<u32>) -> Result<SmallVec<u32, 8>, AllocError>
    ensures is { (count : ℕ) → ((b : ℕ) → contains bits.old.items b ≡ true → b < count) → IfOk result (λ v. v.items ≡ ascending count bits.old.items) }
    ensures rising { IfOk result (λ v. IsStrictlyIncreasing v.items) }
    ensures same { IfOk result (λ v. (b : ℕ) → contains v.items b ≡ contains bits.old.items b) }
{
    ascend(bits);
    SmallVec::from_slice(alloc, bits.as_slice())
}

/// What an assign reads and writes.
pub(crate) fn assign_bits(
    alloc: Global,
    shapes: &Shapes,
    target: u32,
    e: u32,
) -> Result<ProcessBits, AllocError>
    requires { AssignIsFit shapes.now target e }
    ensures { (count place target_place : ℕ) (port : D.Port) → let x = D.Continuous place port target_place (target_tree (tree_of shapes.now target)) (tree_of shapes.now e) in
        IsWithin count x → IfOk result (λ b. footprint_of b ≡ footprint_in count x) }
{
    let mut writes = Vec::new(alloc);
    shapes.push_target(target, &mut writes)?;
    let mut reads = Vec::new(alloc);
    shapes.push_target_reads(target, false, &mut reads)?;
    shapes.push_reads(e, false, &mut reads)?;
    Ok(ProcessBits {
        reads: ascending(alloc, &mut reads)?,
        writes: ascending(alloc, &mut writes)?,
        waits: SmallVec::new(alloc),
    })
}

/// What a clocked block reads and writes. It waits on no bit.
pub(crate) fn clocked_bits(
    alloc: Global,
    shapes: &Shapes,
    statement: u32,
) -> Result<ProcessBits, AllocError>
    requires there { statement < length shapes.now.statements }
    requires fits { fits_statement (body_of shapes.now statement) ≡ true }
    ensures { (count place : ℕ) (star : Bool) (events : List D.Event) → let x = D.Always place star events (body_of shapes.now statement) in
        list_any D.has_edge events ≡ true → IsWithin count x → IfOk result (λ b. footprint_of b ≡ footprint_in count x) }
{
    let mut writes = Vec::new(alloc);
    shapes.push_statement(statement, Walk::Writes, &mut writes)?;
    let mut reads = Vec::new(alloc);
    shapes.push_statement(statement, Walk::Reads, &mut reads)?;
    Ok(ProcessBits {
        reads: ascending(alloc, &mut reads)?,
        writes: ascending(alloc, &mut writes)?,
        waits: SmallVec::new(alloc),
    })
}

/// All bits of the signals that a block waits on: with `@*` those that it names in reading, else those of its events (IEEE 1364-2005, 9.7.5).
fn waited_bits(
    alloc: Global,
    shapes: &Shapes,
    star: bool,
    events: &[Event],
    statement: u32,
) -> Result<Vec<u32>, AllocError>
    requires { BlockIsFit shapes.now events.now statement }
    ensures { (place : ℕ) → IfOk result (λ v. v.items ≡ signals_bits (wait_signals (D.Always place star (map (event_of (signal_at (arena_signals shapes.now))) events.now) (body_of shapes.now statement)))) }
{
    let mut waits = Vec::new(alloc);
    if star {
        shapes.push_statement(statement, Walk::Signals, &mut waits)?;
    } else {
        for e in events {
            shapes.push_signal(e.signal, &mut waits)?;
        }
    }
    Ok(waits)
}

/// What a combinational block reads, writes and waits on.
pub(crate) fn combinational_bits(
    alloc: Global,
    shapes: &Shapes,
    star: bool,
    events: &[Event],
    statement: u32,
) -> Result<ProcessBits, AllocError>
    requires { BlockIsFit shapes.now events.now statement }
    ensures { (count place : ℕ) → let x = D.Always place star (map (event_of (signal_at (arena_signals shapes.now))) events.now) (body_of shapes.now statement) in
        D.is_clocked x ≡ false → IsWithin count x → IfOk result (λ b. footprint_of b ≡ footprint_in count x) }
{
    let mut writes = Vec::new(alloc);
    shapes.push_statement(statement, Walk::Writes, &mut writes)?;
    ascend(&mut writes);
    let written = writes.as_slice();
    let mut all = Vec::new(alloc);
    shapes.push_statement(statement, Walk::Reads, &mut all)?;
    let read = all.as_slice();
    let mut reads = without(alloc, read, written)?;
    let waited = waited_bits(alloc, shapes, star, events, statement)?;
    let named = waited.as_slice();
    let mut waits = without(alloc, named, written)?;
    Ok(ProcessBits {
        reads: ascending(alloc, &mut reads)?,
        writes: SmallVec::from_slice(alloc, written)?,
        waits: ascending(alloc, &mut waits)?,
    })
}

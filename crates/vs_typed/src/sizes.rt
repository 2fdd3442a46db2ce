//! The size of a design.

ghost use Rattle.std.specs.Prelude.{◌≡◌, ◌<◌, ◌+◌, ◌*◌, ◌^◌, ◌++◌, Bool, length, map, false, slice_index_or, sum_by, take, true, slice_get, Some, IfOk, if◌then◌else◌, OnOk};
ghost use Rattle.std.specs.List.{list_all};
ghost use Rattle.vs_design.specs.Designs as D;
ghost use Rattle.vs_design.specs.Expressions as E;
ghost use Rattle.vs_design.specs.Fits.{fits_process};
ghost use Rattle.vs_design.specs.Footprints.{memory_bits};
ghost use Rattle.vs_design.specs.Races.{doubled_bits};
ghost use Rattle.vs_design.specs.Sizes as S;
ghost use Rattle.vs_design.specs.Sleepers.{is_sleeping};
ghost use Rattle.vs_flat.specs.Arena.{signal_length};
ghost use Rattle.vs_flat.specs.DesignOf.{design_of};
ghost use Rattle.vs_reads.specs.Footprint.{footprints_of, waits_at, writes_at};
ghost use Rattle.vs_typed.specs.Weights.{AreWeights, capped, told_weight};

use crate::statements::add_statement;
use crate::sums::{plus, times};
use crate::targets::add_assignment;
use crate::words::push_memories;
use crate::written::{distinct, push_both_ways, written_count};
use std::alloc::{AllocError, Global};
use vs_flat::{Kind, Signal, bits_of, has_edge, trees_law};
use vs_reads::{Footprints, fit_process, footprint_law};
use vs_shape::{Shapes, Walk};

/// The total with what process p costs.
fn add_process(
    alloc: Global,
    shapes: &Shapes,
    table: &[Option<u64>],
    p: u32,
    total: u64,
) -> Result<u64, AllocError>
    requires table { AreWeights shapes.now table.now }
    requires all { length table.now ≡ length shapes.now.bodies }
    requires there { p < length shapes.now.processes }
    requires fits { list_all fits_process (design_of shapes.now).processes ≡ true }
    ensures { IfOk result (λ t. (x : D.Process) → slice_get (design_of shapes.now).processes p ≡ Some x → t ≡ capped (total + S.process_weight x)) }
{
    trees_law();
    match &fit_process(shapes, p).kind {
        Kind::Assign {
            target,
            expr,
            port: _,
        } => Ok(add_assignment(shapes, table, *target, *expr, total)),
        Kind::Block {
            star: _,
            events,
            statement,
        } => {
            if has_edge(events.as_slice()) {
                return add_statement(alloc, shapes, table, *statement, total);
            }
            let written = written_count(alloc, shapes, *statement)?;
            add_statement(alloc, shapes, table, *statement, plus(total, written))
        }
    }
}

/// What all processes cost.
fn add_processes(alloc: Global, shapes: &Shapes, table: &[Option<u64>]) -> Result<u64, AllocError>
    requires table { AreWeights shapes.now table.now }
    requires all { length table.now ≡ length shapes.now.bodies }
    requires fits { list_all fits_process (design_of shapes.now).processes ≡ true }
    ensures { IfOk result (λ t. t ≡ capped (sum_by S.process_weight (design_of shapes.now).processes)) }
{
    trees_law();
    let mut sum = 0;
    for p in 0..shapes.flat().process_count() {
        sum = add_process(alloc, shapes, table, p, sum)?;
    }
    Ok(sum)
}

/// What each process costs, as far as 2^64 - 1. Want of memory is the only error.
pub(crate) fn each_weight(
    alloc: Global,
    shapes: &Shapes,
    table: &[Option<u64>],
) -> Result<Vec<u64>, AllocError>
    requires table { AreWeights shapes.now table.now }
    requires all { length table.now ≡ length shapes.now.bodies }
    requires fits { list_all fits_process (design_of shapes.now).processes ≡ true }
    ensures { IfOk result (λ v. v.items ≡ map told_weight (design_of shapes.now).processes) }
{
    trees_law();
    let mut weights = Vec::new(alloc);
    for p in 0..shapes.flat().process_count() {
        let weight = add_process(alloc, shapes, table, p, 0)?;
        weights.push(weight)?;
    }
    Ok(weights)
}

/// Adds the bits that process p writes if it is a clocked block.
fn push_registers(shapes: &Shapes, p: u32, bits: &mut Vec<u32>) -> Result<(), AllocError>
    requires there { p < length shapes.now.processes }
    requires fits { list_all fits_process (design_of shapes.now).processes ≡ true }
    requires so_far { bits.old.items ≡ S.register_bits (take p (design_of shapes.now).processes) }
    ensures { OnOk result (bits.new.items ≡ S.register_bits (take (p + 1) (design_of shapes.now).processes)) }
{
    trees_law();
    match &fit_process(shapes, p).kind {
        Kind::Assign { .. } => Ok(()),
        Kind::Block {
            star: _,
            events,
            statement,
        } => {
            if has_edge(events.as_slice()) {
                shapes.push_statement(*statement, Walk::Writes, bits)
            } else {
                Ok(())
            }
        }
    }
}

/// How many bits there are that clocked blocks write or that memories have.
fn register_count(alloc: Global, shapes: &Shapes) -> Result<u64, AllocError>
    requires fits { list_all fits_process (design_of shapes.now).processes ≡ true }
    ensures { IfOk result (λ n. n ≡ S.distinct (S.register_bits (design_of shapes.now).processes ++ memory_bits (design_of shapes.now))) }
{
    trees_law();
    let mut bits = Vec::new(alloc);
    for p in 0..shapes.flat().process_count() {
        push_registers(shapes, p, &mut bits)?;
    }
    push_memories(shapes, &mut bits)?;
    Ok(distinct(bits))
}

/// Adds the bits that process p writes both by `=` and by `<=` if it is a clocked block.
fn push_doubled(
    alloc: Global,
    shapes: &Shapes,
    p: u32,
    bits: &mut Vec<u32>,
) -> Result<(), AllocError>
    requires there { p < length shapes.now.processes }
    requires fits { list_all fits_process (design_of shapes.now).processes ≡ true }
    requires so_far { bits.old.items ≡ doubled_bits (take p (design_of shapes.now).processes) }
    ensures { OnOk result (bits.new.items ≡ doubled_bits (take (p + 1) (design_of shapes.now).processes)) }
{
    trees_law();
    match &fit_process(shapes, p).kind {
        Kind::Assign { .. } => Ok(()),
        Kind::Block {
            star: _,
            events,
            statement,
        } => {
            if has_edge(events.as_slice()) {
                push_both_ways(alloc, shapes, *statement, bits)
            } else {
                Ok(())
            }
        }
    }
}

/// How many bits there are that a clocked block writes both by `=` and by `<=`.
fn doubled_count(alloc: Global, shapes: &Shapes) -> Result<u64, AllocError>
    requires fits { list_all fits_process (design_of shapes.now).processes ≡ true }
    ensures { IfOk result (λ n. n ≡ S.distinct (doubled_bits (design_of shapes.now).processes)) }
{
    trees_law();
    let mut bits = Vec::new(alloc);
    for p in 0..shapes.flat().process_count() {
        push_doubled(alloc, shapes, p, &mut bits)?;
    }
    Ok(distinct(bits))
}

/// How many bits a signal has if it is an input of the top.
fn input_bits(signal: &Signal) -> u64
    requires { signal_length signal.now < 2 ^ 32 }
    ensures { result ≡ (if signal.now.input then signal_length signal.now else 0) }
{
    if signal.input {
        u64::from(bits_of(signal))
    } else {
        0
    }
}

/// The total with the bits of the top's inputs.
fn add_inputs(shapes: &Shapes, total: u64) -> u64
    ensures { result ≡ capped (total + sum_by E.signal_length (D.top_inputs (design_of shapes.now))) }
{
    trees_law();
    let flat = shapes.flat();
    let mut sum = total;
    for n in 0..flat.signal_count() {
        sum = plus(sum, input_bits(flat.signal(n)));
    }
    sum
}

/// The total with what process p costs if it sleeps: the bits that it waits on, 1, and the bits that it writes.
fn add_sleeper(footprints: &Footprints, p: u32, sleeping: &[bool], total: u64) -> u64
    requires there { p < length footprints.now }
    requires flags { p < length sleeping.now }
    ensures { result ≡ capped (total + (if slice_index_or sleeping.now p false then (length (waits_at footprints.now p) + 1 + length (writes_at footprints.now p)) else 0)) }
{
    if !sleeping[p as usize] {
        return total;
    }
    let waits = footprints.waits(p);
    let writes = footprints.writes(p);
    let own = plus(plus(waits.len() as u64, 1), writes.len() as u64);
    plus(total, own)
}

/// The total with what sleeping blocks cost.
pub(crate) fn add_sleepers(
    shapes: &Shapes,
    footprints: &Footprints,
    sleeping: &[bool],
    total: u64,
) -> u64
    requires footprints { footprints.now ≡ footprints_of (design_of shapes.now) }
    requires sleeping { sleeping.now ≡ map (is_sleeping (design_of shapes.now)) (design_of shapes.now).processes }
    ensures { result ≡ capped (total + sum_by (S.sleeper_weight (design_of shapes.now)) (design_of shapes.now).processes) }
{
    trees_law();
    footprint_law();
    let _ = shapes.flat();
    let mut sum = total;
    for p in 0..footprints.count() {
        sum = add_sleeper(footprints, p, sleeping, sum);
    }
    sum
}

/// The size of the design but for what sleeping blocks add, as far as 2^64 - 1. Want of memory is the only error.
pub(crate) fn awake_size(
    alloc: Global,
    shapes: &Shapes,
    table: &[Option<u64>],
) -> Result<u64, AllocError>
    requires table { AreWeights shapes.now table.now }
    requires all { length table.now ≡ length shapes.now.bodies }
    requires fits { list_all fits_process (design_of shapes.now).processes ≡ true }
    ensures { IfOk result (λ n. n ≡ capped (S.awake_size (design_of shapes.now))) }
{
    let processes = add_processes(alloc, shapes, table)?;
    let registers = times(2, register_count(alloc, shapes)?);
    let doubled = doubled_count(alloc, shapes)?;
    Ok(add_inputs(shapes, plus(plus(processes, registers), doubled)))
}

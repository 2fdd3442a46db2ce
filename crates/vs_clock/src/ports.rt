//! Assigns that copy a bit, those of ports and written ones (IEEE 1364-2005, 6.1 and 12.3.9).

ghost use Rattle.std.specs.Prelude.{◌≡◌, ◌<◌, ℕ, length, slice_get, IfOk, Some};
ghost use Rattle.vs_design.specs.Clocks.{name_of};
ghost use Rattle.vs_design.specs.Dead.{ports_alone};
ghost use Rattle.vs_design.specs.Designs as D;
ghost use Rattle.vs_flat.specs.DesignOf.{arena_signals, arena_trees, design_of};
ghost use Rattle.vs_flat.specs.Lawful.{IsLawful};
ghost use Rattle.vs_flat.specs.Trees.{signal_at, signal_of, tree_at};
ghost use Rattle.vs_clock.specs.Roots.{AreAllTargets, AreWithin};
ghost use Rattle.vs_clock.specs.Ports.{bit_of, both_bits, is_port_kind, one_bit, only_part, port_bits, ported_bits, target_bit};

use crate::targets::Targets;
use std::alloc::{AllocError, Global};
use vs_design::footprint_law;
use vs_flat::{
    Flat, Kind, Node, Port, Signal, count_bits, lawful_law, names_law, range_bits, trees_law,
};
use vs_shape::{local_of, node_of};

/// The bit of this signal, if it has one.
fn bit_in(signal: &Signal) -> Option<u32>
    ensures { (n : ℕ) → result ≡ one_bit (signal_of n signal.now) }
{
    if range_bits(signal.words) == 1 && range_bits(signal.range) == 1 {
        Some(signal.first_bit)
    } else {
        None
    }
}

/// The bit of a signal that has one.
pub(crate) fn only_bit(flat: &Flat, signal: u32) -> Option<u32>
    requires { signal < length flat.now.signals }
    ensures { result ≡ one_bit (signal_at (arena_signals flat.now) signal) }
{
    trees_law();
    bit_in(flat.signal(signal))
}

/// The bit that an expression is the name of, where it is the name of a signal with one.
pub(crate) fn named_bit(flat: &Flat, e: u32) -> Option<u32>
    requires lawful { IsLawful flat.now }
    requires there { e < length flat.now.nodes }
    ensures { result ≡ bit_of (name_of (tree_at (arena_trees flat.now) e)) }
{
    match node_of(flat, e) {
        Node::Name { signal } => only_bit(flat, *signal),
        Node::Local { function, signal } => bit_in(local_of(flat, *function, *signal)),
        _ => None,
    }
}

/// The only part of a concatenation that has one.
fn only_part(node: &Node) -> Option<u32>
    ensures { result ≡ only_part node.now }
{
    match node {
        Node::Join { parts } => {
            if parts.len() == 1 {
                Some(parts.as_slice()[0])
            } else {
                None
            }
        }
        _ => None,
    }
}

/// The bit that a target is, where it is the whole of a signal with one. A concatenation of one part is the same target as that part.
fn whole_bit(flat: &Flat, target: u32) -> Option<u32>
    requires lawful { IsLawful flat.now }
    requires there { target < length flat.now.nodes }
    ensures { result ≡ target_bit (tree_at (arena_trees flat.now) target) }
{
    let mut e = target;
    while let Some(part) = only_part(node_of(flat, e)) {
        e = part;
    }
    named_bit(flat, e)
}

/// The bit that an assign copies, and the bit that it copies it to, where its expression is the name of a signal of one bit and its target the whole of one.
fn bits_of_assign(flat: &Flat, target: u32, expr: u32) -> Option<(u32, u32)>
    requires lawful { IsLawful flat.now }
    requires target { target < length flat.now.nodes }
    requires expr { expr < length flat.now.nodes }
    ensures { result ≡ both_bits (bit_of (name_of (tree_at (arena_trees flat.now) expr))) (target_bit (tree_at (arena_trees flat.now) target)) }
{
    Some((named_bit(flat, expr)?, whole_bit(flat, target)?))
}

/// The bit that process p copies, and the bit that it copies it to, where it is an assign between nets of one bit.
pub(crate) fn copied_bits(flat: &Flat, p: u32) -> Option<(u32, u32)>
    requires lawful { IsLawful flat.now }
    requires there { p < length flat.now.processes }
    ensures { (x : D.Process) → slice_get (design_of flat.now).processes p ≡ Some x → result ≡ port_bits x }
{
    trees_law();
    names_law();
    lawful_law();
    match &flat.process(p).kind {
        Kind::Assign { target, expr, .. } => bits_of_assign(flat, *target, *expr),
        Kind::Block { .. } => None,
    }
}

/// Whether a process is an assign that stands for a port of an instance.
fn is_port(kind: &Kind) -> bool
    ensures { result ≡ is_port_kind kind.now }
{
    match kind {
        Kind::Assign { port, .. } => !matches!(port, Port::Written),
        Kind::Block { .. } => false,
    }
}

/// The bit that process p copies, and the bit that it copies it to, where it stands for a port between nets of one bit.
fn ported_bits(flat: &Flat, p: u32) -> Option<(u32, u32)>
    requires lawful { IsLawful flat.now }
    requires there { p < length flat.now.processes }
    ensures { (x : D.Process) → slice_get (design_of flat.now).processes p ≡ Some x → result ≡ ported_bits x }
{
    trees_law();
    if is_port(&flat.process(p).kind) {
        return copied_bits(flat, p);
    }
    None
}

/// The bits that assigns copy each bit to.
pub(crate) fn targets_of(alloc: Global, flat: &Flat) -> Result<Targets, AllocError>
    requires { IsLawful flat.now }
    ensures count { IfOk result (λ t. length t ≡ D.bit_count (design_of flat.now)) }
    ensures within { IfOk result (λ t. AreWithin t) }
    ensures targets { IfOk result (λ t. AreAllTargets (design_of flat.now) t) }
{
    trees_law();
    footprint_law();
    let mut targets = Targets::none(alloc, count_bits(flat))?;
    for p in 0..flat.process_count() {
        match copied_bits(flat, p) {
            Some((from, to)) => targets.add(from, to)?,
            None => {}
        }
    }
    Ok(targets)
}

/// The bits that ports copy each bit to.
pub(crate) fn port_targets_of(alloc: Global, flat: &Flat) -> Result<Targets, AllocError>
    requires { IsLawful flat.now }
    ensures count { IfOk result (λ t. length t ≡ D.bit_count (design_of flat.now)) }
    ensures within { IfOk result (λ t. AreWithin t) }
    ensures targets { IfOk result (λ t. AreAllTargets (ports_alone (design_of flat.now)) t) }
{
    trees_law();
    footprint_law();
    let mut targets = Targets::none(alloc, count_bits(flat))?;
    for p in 0..flat.process_count() {
        match ported_bits(flat, p) {
            Some((from, to)) => targets.add(from, to)?,
            None => {}
        }
    }
    Ok(targets)
}

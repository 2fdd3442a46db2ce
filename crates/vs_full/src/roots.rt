//! The inputs that signals copy (IEEE 1364-2005, 12.3.9.2).

ghost use Rattle.std.specs.Prelude.{◌≡◌, ◌<◌, ◌+◌, ◌==◌, ℕ, length, slice_get, slice_index_or, option_map, None, Some, IfOk};
ghost use Rattle.vs_design.specs.Clocks.{name_of};
ghost use Rattle.vs_design.specs.Designs as D;
ghost use Rattle.vs_design.specs.Expressions.{signal_length};
ghost use Rattle.vs_flat.specs.DesignOf.{arena_signals, design_of};
ghost use Rattle.vs_flat.specs.Lawful.{IsLawful};
ghost use Rattle.vs_flat.specs.Ports.{port_of};
ghost use Rattle.vs_flat.specs.Trees.{signal_at};
ghost use Rattle.vs_shape.specs.Nodes.{tree_of};
ghost use Rattle.vs_full.specs.Roots.{AreCopies, AreCopiesBefore, AreRoots, IsCopyWithin, IsNamed, copied_number, copied_number_by, is_input_port, noted, number_of, root_number, with_copy};

use std::alloc::{AllocError, Global};
use vs_flat::{Flat, Kind, Node, Port, bits_of, lawful_law, names_law, trees_law};
use vs_shape::node_of;

/// The number of the signal that an expression is the name of.
pub(crate) fn named_number(flat: &Flat, e: u32) -> Option<u32>
    requires lawful { IsLawful flat.now }
    requires there { e < length flat.now.nodes }
    ensures { result ≡ option_map number_of (name_of (tree_of flat.now e)) }
{
    match node_of(flat, e) {
        Node::Name { signal } => Some(*signal),
        Node::Local { signal, .. } => Some(*signal),
        _ => None,
    }
}

/// Whether two signals are as long as each other.
fn are_as_long(flat: &Flat, a: u32, b: u32) -> bool
    requires lawful { IsLawful flat.now }
    requires first { a < length flat.now.signals }
    requires second { b < length flat.now.signals }
    ensures { result ≡ (signal_length (signal_at (arena_signals flat.now) a) == signal_length (signal_at (arena_signals flat.now) b)) }
{
    trees_law();
    bits_of(flat.signal(a)) == bits_of(flat.signal(b))
}

/// The signal that an expression is the name of, and this one, where both are as long as each other.
fn copied_to(flat: &Flat, to: u32, expr: u32) -> Option<(u32, u32)>
    requires lawful { IsLawful flat.now }
    requires to { to < length flat.now.signals }
    requires expr { expr < length flat.now.nodes }
    requires from { IsNamed (design_of flat.now) (tree_of flat.now expr) }
    ensures within { IsCopyWithin (length flat.now.signals) result }
    ensures copied { result ≡ copied_number (Some (signal_at (arena_signals flat.now) to)) (name_of (tree_of flat.now expr)) }
{
    match named_number(flat, expr) {
        Some(from) => {
            if are_as_long(flat, to, from) {
                Some((from, to))
            } else {
                None
            }
        }
        None => None,
    }
}

/// The signal that a port copies, and the one that it copies it to, where both are as long as each other.
fn copied_by(flat: &Flat, target: u32, expr: u32) -> Option<(u32, u32)>
    requires lawful { IsLawful flat.now }
    requires target { target < length flat.now.nodes }
    requires expr { expr < length flat.now.nodes }
    requires to { IsNamed (design_of flat.now) (tree_of flat.now target) }
    requires from { IsNamed (design_of flat.now) (tree_of flat.now expr) }
    ensures within { IsCopyWithin (length flat.now.signals) result }
    ensures copied { result ≡ copied_number (name_of (tree_of flat.now target)) (name_of (tree_of flat.now expr)) }
{
    match named_number(flat, target) {
        Some(to) => copied_to(flat, to, expr),
        None => None,
    }
}

/// Whether it is an input port's.
fn is_input(port: Port) -> bool
    ensures { result ≡ is_input_port (port_of port) }
{
    matches!(port, Port::Input)
}

/// What process p copies, and to which signal, where it is an input port's assign.
fn copied_in(flat: &Flat, p: u32) -> Option<(u32, u32)>
    requires lawful { IsLawful flat.now }
    requires there { p < length flat.now.processes }
    ensures within { IsCopyWithin (length flat.now.signals) result }
    ensures copied { (x : D.Process) → slice_get (design_of flat.now).processes p ≡ Some x → (n : ℕ) → n < length flat.now.signals → noted n result ≡ copied_number_by (signal_at (arena_signals flat.now) n) x }
{
    trees_law();
    names_law();
    lawful_law();
    match &flat.process(p).kind {
        Kind::Assign { target, expr, port } => {
            if is_input(*port) {
                copied_by(flat, *target, *expr)
            } else {
                None
            }
        }
        Kind::Block { .. } => None,
    }
}

/// Notes a copy, where none to the same signal is noted.
fn note_copy(copies: &mut [Option<u32>], copy: Option<(u32, u32)>)
    requires { IsCopyWithin (length copies.old) copy }
    ensures { copies.new ≡ with_copy copies.old copy }
{
    match copy {
        Some((from, to)) => {
            if copies[to as usize].is_none() {
                copies[to as usize] = Some(from);
            }
        }
        None => {}
    }
}

/// Notes what process p copies, behind what those before it do.
fn note_process(flat: &Flat, p: u32, copies: &mut [Option<u32>])
    requires lawful { IsLawful flat.now }
    requires there { p < length flat.now.processes }
    requires so_far { AreCopiesBefore (design_of flat.now) p copies.old }
    ensures { AreCopiesBefore (design_of flat.now) (p + 1) copies.new }
{
    trees_law();
    note_copy(copies, copied_in(flat, p));
}

/// For each signal the one that the first input port copies to it, if one does.
fn copies_of(alloc: Global, flat: &Flat) -> Result<Vec<Option<u32>>, AllocError>
    requires { IsLawful flat.now }
    ensures { IfOk result (λ v. AreCopies (design_of flat.now) v.items) }
{
    trees_law();
    let mut copies = vec![in alloc; None; flat.signal_count() as usize]?;
    for p in 0..flat.process_count() {
        note_process(flat, p, copies.as_mut_slice());
    }
    Ok(copies)
}

/// What a table of signals has for signal s.
pub(crate) fn number_at(numbers: &[Option<u32>], s: u32) -> Option<u32>
    requires { s < length numbers.now }
    ensures { result ≡ slice_index_or numbers.now s None }
{
    numbers[s as usize]
}

/// The input that signal s is, or that it copies through at most so many ports.
fn root_within(flat: &Flat, copies: &[Option<u32>], steps: u32, s: u32) -> Option<u32>
    requires lawful { IsLawful flat.now }
    requires copies { AreCopies (design_of flat.now) copies.now }
    requires there { s < length flat.now.signals }
    ensures { result ≡ root_number steps (design_of flat.now) (signal_at (arena_signals flat.now) s) }
{
    trees_law();
    let signal = flat.signal(s);
    if signal.input {
        return Some(s);
    }
    if !signal.net {
        return None;
    }
    if steps == 0 {
        return None;
    }
    match number_at(copies, s) {
        Some(from) => root_within(flat, copies, steps - 1, from),
        None => None,
    }
}

/// For each signal the input that it is or copies, where it is a select net.
pub(crate) fn roots_of(alloc: Global, flat: &Flat) -> Result<Vec<Option<u32>>, AllocError>
    requires { IsLawful flat.now }
    ensures { IfOk result (λ v. AreRoots (design_of flat.now) v.items) }
{
    trees_law();
    let copies = copies_of(alloc, flat)?;
    let mut roots = Vec::new(alloc);
    for s in 0..flat.signal_count() {
        let root = root_within(flat, copies.as_slice(), flat.process_count(), s);
        roots.push(root)?;
    }
    Ok(roots)
}

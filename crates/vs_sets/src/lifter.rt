//! The sets of an expression's bits (IEEE 1364-2005, clause 5).

ghost use Rattle.std.specs.Prelude.{◌≡◌, ◌≤◌, ◌<◌, ◌+◌, ◌*◌, ℕ, List, length, map, true, false};
ghost use Rattle.vs_four.specs.declared.Bit4.TheVariants.{X};
ghost use Rattle.vs_four.specs.Selects.{range_length};
ghost use Rattle.vs_design.specs.Designs.{bit_count};
ghost use Rattle.vs_design.specs.Expressions as E;
ghost use Rattle.vs_design.specs.Footprints.{is_memory};
ghost use Rattle.vs_design.specs.Fits.{is_fit, source_length};
ghost use Rattle.vs_design.specs.Lifted as L;
ghost use Rattle.vs_design.specs.Sets.{only};
ghost use Rattle.vs_design.specs.Values.{value, bits_of_signal};
ghost use Rattle.vs_design.specs.Within.{names_within, signal_within, source_within};
ghost use Rattle.vs_flat.specs.DesignOf.{design_of};
ghost use Rattle.vs_flat.specs.Targets.{source_of};
ghost use Rattle.vs_flat.specs.declared.expressions.Node.TheVariants.{Call};
ghost use Rattle.vs_sets.specs.Calls.{IsCall};
ghost use Rattle.vs_sets.specs.FitParts.{FitParts, Is64};
ghost use Rattle.vs_sets.specs.WithinParts.{WithinParts};
ghost use Rattle.vs_sets.specs.Nodes.{HasNames, tree_of, place_of, tree_of_node, signal_of};
ghost use Rattle.vs_sets.specs.Tables.{family_of};
ghost use Rattle.vs_sets.specs.TargetsOf.{IsSignal};

use crate::operators::list_of;
use crate::values::only_each;
use crate::{Set4, SetList};
use std::alloc::Global;
use vs_base::Context;
use vs_flat::{Node, bits_of, calls_law, lawful_law, trees_law};
use vs_shape::{Shapes, local_of, node_of};

/// A signal's bits: the number of the least significant one, and how many there are.
#[derive(Clone, Copy, Debug)]
pub struct Span {
    pub first: usize,
    pub len: usize,
}

/// A design and the shapes of its expressions, with a set for each bit that is there where an expression stands, from which those of the expression follow, and memory for the sets of a function's own bits.
#[derive(Drop)]
pub(crate) struct Lifter<'a> {
    pub(crate) alloc: Global,
    pub(crate) shapes: &'a Shapes,
    pub(crate) table: &'a [Set4],
}

/// The bits of signal n.
pub fn span_of(shapes: &Shapes, n: u32) -> Span
    requires { n < length shapes.now.signals }
    ensures first { result.first ≡ (signal_of shapes.now n).first }
    ensures len { result.len ≡ E.signal_length (signal_of shapes.now n) }
    ensures within { result.first + result.len ≤ bit_count (design_of shapes.now) }
    ensures few { is_memory (signal_of shapes.now n) ≡ false → Is64 result.len }
{
    trees_law();
    let signal = shapes.flat().signal(n);
    Span {
        first: signal.first_bit as usize,
        len: bits_of(signal) as usize,
    }
}

/// The bits of the signal that expression e is the name of, of the design or of a function.
pub fn named_span(shapes: &Shapes, e: u32) -> Span
    requires there { e < length shapes.now.nodes }
    requires is_name { IsSignal (source_of (tree_of shapes.now e)) }
    ensures first { (s : E.Signal) → source_of (tree_of shapes.now e) ≡ E.OfSignal s → result.first ≡ s.first }
    ensures len { (s : E.Signal) → source_of (tree_of shapes.now e) ≡ E.OfSignal s → result.len ≡ E.signal_length s }
{
    match shapes.node(e) {
        Node::Name { signal } => span_of(shapes, *signal),
        Node::Local { function, signal } => {
            let local = local_of(shapes.flat(), *function, *signal);
            Span {
                first: local.first_bit as usize,
                len: bits_of(local) as usize,
            }
        }
        _ => unreachable!(),
    }
}

impl Lifter<'_> {
    /// Expression e, with what holds of its parts.
    pub(crate) fn node(&self, e: u32) -> &Node
        requires there { e < length self.now.shapes.now.nodes }
        requires fit { is_fit (tree_of self.now.shapes.now e) ≡ true }
        requires within { names_within (length self.now.table.now) (tree_of self.now.shapes.now e) ≡ true }
        ensures names { HasNames (length self.now.shapes.now.signals) e result.now }
        ensures tree { tree_of self.now.shapes.now e ≡ E.At (place_of self.now.shapes.now e) (tree_of_node self.now.shapes.now result.now) }
        ensures parts { FitParts (tree_of_node self.now.shapes.now result.now) }
        ensures within { WithinParts (length self.now.table.now) (tree_of_node self.now.shapes.now result.now) }
        ensures call { (function : ℕ) (arguments : List ℕ) → result.now ≡ Call function arguments → IsCall self.now.shapes.now (length self.now.table.now) e function arguments }
    {
        calls_law();
        lawful_law();
        let _ = self.shapes.flat();
        self.shapes.node(e)
    }

    /// The sets of the bits of the signal that expression e is the name of, of which there are at most 64.
    pub(crate) fn named_sets(&self, e: u32) -> SetList
        requires there { e < length self.now.shapes.now.nodes }
        requires is_name { IsSignal (source_of (tree_of self.now.shapes.now e)) }
        requires few { source_length (source_of (tree_of self.now.shapes.now e)) ≤ 64 }
        requires within { source_within (length self.now.table.now) (source_of (tree_of self.now.shapes.now e)) ≡ true }
        ensures { result ≡ L.source_sets (family_of self.now.table.now) (source_of (tree_of self.now.shapes.now e)) }
    {
        let span = named_span(self.shapes, e);
        list_of(&self.table[span.first..span.first + span.len])
    }

    /// The sets of all bits of a memory.
    pub(crate) fn memory_sets(&self, n: u32) -> &[Set4]
        requires there { n < length self.now.shapes.now.signals }
        requires within { signal_within (length self.now.table.now) (signal_of self.now.shapes.now n) ≡ true }
        ensures is { result.now ≡ map (family_of self.now.table.now) (bits_of_signal (signal_of self.now.shapes.now n)) }
        ensures long { length result.now ≡ range_length (E.addresses (signal_of self.now.shapes.now n)) * E.word_length (signal_of self.now.shapes.now n) }
    {
        let span = span_of(self.shapes, n);
        &self.table[span.first..span.first + span.len]
    }

    /// The sets of the bits that a select is taken of: a signal's, or the values of a parameter's.
    pub(crate) fn source_sets(&self, of: u32) -> SetList
        requires there { of < length self.now.shapes.now.nodes }
        requires within { source_within (length self.now.table.now) (source_of (tree_of self.now.shapes.now of)) ≡ true }
        ensures { result ≡ L.source_sets (family_of self.now.table.now) (source_of (tree_of self.now.shapes.now of)) }
    {
        lawful_law();
        trees_law();
        match node_of(self.shapes.flat(), of) {
            Node::Name { .. } | Node::Local { .. } => self.named_sets(of),
            Node::Literal { bits, .. } => only_each(*bits),
            _ => SetList::new(),
        }
    }

    /// The sets of a constant in a context.
    pub(crate) fn constant(&self, e: u32, context: Context) -> SetList
        requires there { e < length self.now.shapes.now.nodes }
        requires fit { is_fit (tree_of self.now.shapes.now e) ≡ true }
        requires constant { E.is_constant (tree_of self.now.shapes.now e) ≡ true }
        requires wide { E.width (tree_of self.now.shapes.now e) ≤ context.width }
        requires few { context.width ≤ 64 }
        ensures { result ≡ map only (value (tree_of self.now.shapes.now e) context.width context.signed (λ b. X)) }
    {
        only_each(self.shapes.value(e, context.width, context.signed))
    }
}

//! What expressions are evaluated with, and the values of what they name.

ghost use Rattle.std.specs.Prelude.{◌≡◌, ◌≤◌, ◌<◌, ◌^◌, ℕ, List, length, true};
ghost use Rattle.vs_design.specs.Expressions as E;
ghost use Rattle.vs_design.specs.Fits.{fits, source_length};
ghost use Rattle.vs_design.specs.Values as V;
ghost use Rattle.vs_design.specs.Within.{names_within, signal_within, source_within};
ghost use Rattle.vs_flat.specs.Targets.{source_of};
ghost use Rattle.vs_flat.specs.declared.expressions.Node.TheVariants.{Call};
ghost use Rattle.vs_interpret.specs.Fitting.{HasFitting};
ghost use Rattle.vs_writes.specs.Held.{state_of};
ghost use Rattle.vs_sets.specs.Calls.{IsCall};
ghost use Rattle.vs_sets.specs.FitParts.{Is64};
ghost use Rattle.vs_sets.specs.Nodes.{HasNames, tree_of, place_of, tree_of_node, signal_of};
ghost use Rattle.vs_sets.specs.TargetsOf.{IsSignal, IsTarget};
ghost use Rattle.vs_sets.specs.WithinParts.{WithinParts};

use crate::words::{bits_at, word_at};
use std::alloc::Global;
use vs_base::Context;
use vs_flat::{Node, calls_law, lawful_law, trees_law};
use vs_four::{Bit4, Bits};
use vs_sets::{Span, memory_of, named_span};
use vs_shape::{Shapes, node_of, word_place};

/// What an expression is evaluated with: memory for the values of a function's own bits, a design with the shapes of its expressions, and a value for each bit that is there where the expression stands.
#[derive(Drop)]
pub(crate) struct Evaluator<'a> {
    pub(crate) alloc: Global,
    pub(crate) shapes: &'a Shapes,
    pub(crate) values: &'a [Bit4],
    ghost small: { length values.now < 2 ^ 64 },
}

impl Evaluator<'_> {
    /// Expression e, with what holds of its parts.
    pub(crate) fn node(&self, e: u32) -> &Node
        requires there { e < length self.now.shapes.now.nodes }
        requires fit { fits (tree_of self.now.shapes.now e) ≡ true }
        requires within { names_within (length self.now.values.now) (tree_of self.now.shapes.now e) ≡ true }
        ensures names { HasNames (length self.now.shapes.now.signals) e result.now }
        ensures tree { tree_of self.now.shapes.now e ≡ E.At (place_of self.now.shapes.now e) (tree_of_node self.now.shapes.now result.now) }
        ensures parts { HasFitting (tree_of_node self.now.shapes.now result.now) }
        ensures within { WithinParts (length self.now.values.now) (tree_of_node self.now.shapes.now result.now) }
        ensures call { (function : ℕ) (arguments : List ℕ) → result.now ≡ Call function arguments → IsCall self.now.shapes.now (length self.now.values.now) e function arguments }
    {
        calls_law();
        lawful_law();
        let _ = self.shapes.flat();
        self.shapes.node(e)
    }

    /// The length and the sign of an expression by itself.
    #[tactic(auto, using(crate::proofs::Fitting::width_least))]
    pub(crate) fn own_context(&self, e: u32) -> Context
        requires there { e < length self.now.shapes.now.nodes }
        requires fit { fits (tree_of self.now.shapes.now e) ≡ true }
        ensures width { result.width ≡ E.width (tree_of self.now.shapes.now e) }
        ensures signed { result.signed ≡ E.sign (tree_of self.now.shapes.now e) }
        ensures few { result.width ≤ 64 }
    {
        self.shapes.shape(e).context()
    }

    /// The length of a target.
    pub(crate) fn target_len(&self, e: u32) -> u32
        requires there { e < length self.now.shapes.now.nodes }
        requires target { IsTarget (tree_of self.now.shapes.now e) }
        ensures value { result ≡ E.width (tree_of self.now.shapes.now e) }
        ensures few { Is64 result }
    {
        u32::from(self.shapes.shape(e).width)
    }

    /// The value of the signal that expression e is the name of, which has at most 64 bits.
    pub(crate) fn named_value(&self, e: u32) -> Bits
        requires there { e < length self.now.shapes.now.nodes }
        requires is_name { IsSignal (source_of (tree_of self.now.shapes.now e)) }
        requires few { Is64 (source_length (source_of (tree_of self.now.shapes.now e))) }
        requires within { source_within (length self.now.values.now) (source_of (tree_of self.now.shapes.now e)) ≡ true }
        ensures value { result ≡ V.source_value (state_of self.now.values.now) (source_of (tree_of self.now.shapes.now e)) }
        ensures length { length result ≡ source_length (source_of (tree_of self.now.shapes.now e)) }
    {
        bits_at(self.values, named_span(self.shapes, e))
    }

    /// The value of what a select takes bits of: a signal, or a parameter (IEEE 1364-2005, 5.2.1).
    pub(crate) fn source_value(&self, of: u32) -> Bits
        requires there { of < length self.now.shapes.now.nodes }
        requires some { 1 ≤ source_length (source_of (tree_of self.now.shapes.now of)) }
        requires within { source_within (length self.now.values.now) (source_of (tree_of self.now.shapes.now of)) ≡ true }
        ensures value { result ≡ V.source_value (state_of self.now.values.now) (source_of (tree_of self.now.shapes.now of)) }
        ensures length { length result ≡ source_length (source_of (tree_of self.now.shapes.now of)) }
    {
        lawful_law();
        trees_law();
        match node_of(self.shapes.flat(), of) {
            Node::Literal { bits, .. } => *bits,
            Node::Name { .. } | Node::Local { .. } => self.named_value(of),
            _ => Bits::of(&[Bit4::X]),
        }
    }

    /// The value of the word of a memory at this address, a two's complement number where it is signed (IEEE 1364-2005, 4.9.3).
    pub(crate) fn word_value(&self, signal: u32, signed: bool, address: Bits) -> Bits
        requires there { signal < length self.now.shapes.now.signals }
        requires within { signal_within (length self.now.values.now) (signal_of self.now.shapes.now signal) ≡ true }
        ensures value { result ≡ V.select_word (signal_of self.now.shapes.now signal) signed (V.read (state_of self.now.values.now) (V.bits_of_signal (signal_of self.now.shapes.now signal))) address }
        ensures length { length result ≡ E.word_length (signal_of self.now.shapes.now signal) }
    {
        let memory = memory_of(self.shapes, signal);
        let word = Span {
            first: memory.first,
            len: memory.len,
        };
        let place = word_place(memory.addresses, signed, address);
        word_at(self.values, word, memory.addresses.length() as usize, place)
    }
}

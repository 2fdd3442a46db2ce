//! Operators that go bit by bit (IEEE 1364-2005, 5.1.10), one store a bit.
ghost use Rattle.std.specs.Prelude.{◌≡◌, ◌+◌, length, map, [], ◌∷◌};
ghost use Rattle.vs_four.specs.Logic.{map2};
ghost use Rattle.vs_four.specs.Tables.{and_bit, not_bit, or_bit, xnor_bit, xor_bit};
ghost use Rattle.vs_plane.specs.Kernels.{AreTargets, Computes, IsArgument, binary, unary};
ghost use Rattle.vs_kern_logic.specs.Costs.{cost_of};
ghost use Rattle.vs_kern_logic.specs.Gates.{gate_bit, output_bit};

use crate::gates::{Gate, output};
use std::sync::ledger::Ledger;
use vs_plane::{PlaneFile, Steps, Word, filling_law};

/// The argument as it is, x and z too: the store of an assignment (IEEE 1364-2005, 6.1 and 9.2).
pub fn copy<W: Word, L: Ledger>(
    file: &mut PlaneFile<W>,
    a: &[u32],
    to: &[u32],
    scratch: &[u32],
    steps: &mut Steps<L>,
)
    requires targets { AreTargets (length file.old) to.now scratch.now }
    requires a { IsArgument (length file.old) a.now to.now scratch.now }
    requires a_length { length a.now ≡ length to.now }
    ensures computes { Computes W.lane W.LANES (unary (λ v. v)) (a.now ∷ []) to.now scratch.now file.old file.new }
    ensures ticked { steps.new ≡ steps.old + cost_of (length a.now ∷ length to.now ∷ []) }
{
    output_bits(false, file, a, to, scratch, steps);
}

/// `~a` (IEEE 1364-2005, 5.1.10, table 5-16).
pub fn not<W: Word, L: Ledger>(
    file: &mut PlaneFile<W>,
    a: &[u32],
    to: &[u32],
    scratch: &[u32],
    steps: &mut Steps<L>,
)
    requires targets { AreTargets (length file.old) to.now scratch.now }
    requires a { IsArgument (length file.old) a.now to.now scratch.now }
    requires a_length { length a.now ≡ length to.now }
    ensures computes { Computes W.lane W.LANES (unary (map not_bit)) (a.now ∷ []) to.now scratch.now file.old file.new }
    ensures ticked { steps.new ≡ steps.old + cost_of (length a.now ∷ length to.now ∷ []) }
{
    output_bits(true, file, a, to, scratch, steps);
}

/// `a & b` (IEEE 1364-2005, 5.1.10, table 5-12).
pub fn and<W: Word, L: Ledger>(
    file: &mut PlaneFile<W>,
    a: &[u32],
    b: &[u32],
    to: &[u32],
    scratch: &[u32],
    steps: &mut Steps<L>,
)
    requires targets { AreTargets (length file.old) to.now scratch.now }
    requires a { IsArgument (length file.old) a.now to.now scratch.now }
    requires b { IsArgument (length file.old) b.now to.now scratch.now }
    requires a_length { length a.now ≡ length to.now }
    requires b_length { length b.now ≡ length to.now }
    ensures computes { Computes W.lane W.LANES (binary (map2 and_bit)) (a.now ∷ b.now ∷ []) to.now scratch.now file.old file.new }
    ensures ticked { steps.new ≡ steps.old + cost_of (length a.now ∷ length b.now ∷ length to.now ∷ []) }
{
    gate_bits(Gate::And, file, a, b, to, scratch, steps);
}

/// `a | b` (IEEE 1364-2005, 5.1.10, table 5-13).
pub fn or<W: Word, L: Ledger>(
    file: &mut PlaneFile<W>,
    a: &[u32],
    b: &[u32],
    to: &[u32],
    scratch: &[u32],
    steps: &mut Steps<L>,
)
    requires targets { AreTargets (length file.old) to.now scratch.now }
    requires a { IsArgument (length file.old) a.now to.now scratch.now }
    requires b { IsArgument (length file.old) b.now to.now scratch.now }
    requires a_length { length a.now ≡ length to.now }
    requires b_length { length b.now ≡ length to.now }
    ensures computes { Computes W.lane W.LANES (binary (map2 or_bit)) (a.now ∷ b.now ∷ []) to.now scratch.now file.old file.new }
    ensures ticked { steps.new ≡ steps.old + cost_of (length a.now ∷ length b.now ∷ length to.now ∷ []) }
{
    gate_bits(Gate::Or, file, a, b, to, scratch, steps);
}

/// `a ^ b` (IEEE 1364-2005, 5.1.10, table 5-14).
pub fn xor<W: Word, L: Ledger>(
    file: &mut PlaneFile<W>,
    a: &[u32],
    b: &[u32],
    to: &[u32],
    scratch: &[u32],
    steps: &mut Steps<L>,
)
    requires targets { AreTargets (length file.old) to.now scratch.now }
    requires a { IsArgument (length file.old) a.now to.now scratch.now }
    requires b { IsArgument (length file.old) b.now to.now scratch.now }
    requires a_length { length a.now ≡ length to.now }
    requires b_length { length b.now ≡ length to.now }
    ensures computes { Computes W.lane W.LANES (binary (map2 xor_bit)) (a.now ∷ b.now ∷ []) to.now scratch.now file.old file.new }
    ensures ticked { steps.new ≡ steps.old + cost_of (length a.now ∷ length b.now ∷ length to.now ∷ []) }
{
    gate_bits(Gate::Xor, file, a, b, to, scratch, steps);
}

/// `a ~^ b` (IEEE 1364-2005, 5.1.10, table 5-15).
pub fn xnor<W: Word, L: Ledger>(
    file: &mut PlaneFile<W>,
    a: &[u32],
    b: &[u32],
    to: &[u32],
    scratch: &[u32],
    steps: &mut Steps<L>,
)
    requires targets { AreTargets (length file.old) to.now scratch.now }
    requires a { IsArgument (length file.old) a.now to.now scratch.now }
    requires b { IsArgument (length file.old) b.now to.now scratch.now }
    requires a_length { length a.now ≡ length to.now }
    requires b_length { length b.now ≡ length to.now }
    ensures computes { Computes W.lane W.LANES (binary (map2 xnor_bit)) (a.now ∷ b.now ∷ []) to.now scratch.now file.old file.new }
    ensures ticked { steps.new ≡ steps.old + cost_of (length a.now ∷ length b.now ∷ length to.now ∷ []) }
{
    gate_bits(Gate::Xnor, file, a, b, to, scratch, steps);
}

/// The bits of an argument, inverted where this says so.
fn output_bits<W: Word, L: Ledger>(
    inverted: bool,
    file: &mut PlaneFile<W>,
    a: &[u32],
    to: &[u32],
    scratch: &[u32],
    steps: &mut Steps<L>,
)
    requires targets { AreTargets (length file.old) to.now scratch.now }
    requires a { IsArgument (length file.old) a.now to.now scratch.now }
    requires a_length { length a.now ≡ length to.now }
    ensures computes { Computes W.lane W.LANES (unary (map (output_bit inverted))) (a.now ∷ []) to.now scratch.now file.old file.new }
    ensures ticked { steps.new ≡ steps.old + length to.now }
{
    filling_law::<W>();
    for (k, slot) in to.iter().enumerate() {
        let pair = output(inverted, file.load(a[k]));
        file.store(*slot, pair, steps);
    }
}

/// A gate of the bits of two arguments.
fn gate_bits<W: Word, L: Ledger>(
    gate: Gate,
    file: &mut PlaneFile<W>,
    a: &[u32],
    b: &[u32],
    to: &[u32],
    scratch: &[u32],
    steps: &mut Steps<L>,
)
    requires targets { AreTargets (length file.old) to.now scratch.now }
    requires a { IsArgument (length file.old) a.now to.now scratch.now }
    requires b { IsArgument (length file.old) b.now to.now scratch.now }
    requires a_length { length a.now ≡ length to.now }
    requires b_length { length b.now ≡ length to.now }
    ensures computes { Computes W.lane W.LANES (binary (map2 (gate_bit gate))) (a.now ∷ b.now ∷ []) to.now scratch.now file.old file.new }
    ensures ticked { steps.new ≡ steps.old + length to.now }
{
    filling_law::<W>();
    for (k, slot) in to.iter().enumerate() {
        let pair = gate.apply(file.load(a[k]), file.load(b[k]));
        file.store(*slot, pair, steps);
    }
}

//! Reductions and truths (IEEE 1364-2005, 5.1.9 and 5.1.11), with one store each: the fold stays in registers.
ghost use Rattle.std.specs.Prelude.{◌≡◌, ℕ, ◌+◌, ◌<◌, length, All, [], ◌∷◌};
ghost use Rattle.vs_four.specs.Logic.{fold_with, reduce_and, reduce_or, reduce_xor, truth};
ghost use Rattle.vs_plane.specs.Kernels.{AreTargets, Computes, IsArgument, binary, bit_of_one, bit_of_two, lane_bits, unary};
ghost use Rattle.vs_plane.specs.Lanes.{pair_lane};
ghost use Rattle.vs_kern_logic.specs.Costs.{cost_of};
ghost use Rattle.vs_kern_logic.specs.Gates.{first_bit, fold_bit, gate_bit, output_bit};
ghost use Rattle.vs_kern_logic.specs.Operators.{logical_and, logical_not, logical_or, reduce_nand, reduce_nor, reduce_xnor};

use crate::gates::{Fold, Gate, output, store_bit};
use std::sync::ledger::Ledger;
use vs_plane::{Pair, PlaneFile, Steps, Word};

/// `&a` (IEEE 1364-2005, 5.1.11): 0 where some bit is 0, else x where some bit is unknown, else 1.
pub fn reduce_and<W: Word, L: Ledger>(
    file: &mut PlaneFile<W>,
    a: &[u32],
    to: &[u32],
    scratch: &[u32],
    steps: &mut Steps<L>,
)
    requires targets { AreTargets (length file.old) to.now scratch.now }
    requires a { IsArgument (length file.old) a.now to.now scratch.now }
    requires to_length { length to.now ≡ 1 }
    ensures computes { Computes W.lane W.LANES (unary (bit_of_one reduce_and)) (a.now ∷ []) to.now scratch.now file.old file.new }
    ensures ticked { steps.new ≡ steps.old + cost_of (length a.now ∷ length to.now ∷ []) }
{
    reduce(Fold::All, false, file, a, to, scratch, steps);
}

/// `~&a` (IEEE 1364-2005, 5.1.11): `~` of `&a`.
pub fn reduce_nand<W: Word, L: Ledger>(
    file: &mut PlaneFile<W>,
    a: &[u32],
    to: &[u32],
    scratch: &[u32],
    steps: &mut Steps<L>,
)
    requires targets { AreTargets (length file.old) to.now scratch.now }
    requires a { IsArgument (length file.old) a.now to.now scratch.now }
    requires to_length { length to.now ≡ 1 }
    ensures computes { Computes W.lane W.LANES (unary (bit_of_one reduce_nand)) (a.now ∷ []) to.now scratch.now file.old file.new }
    ensures ticked { steps.new ≡ steps.old + cost_of (length a.now ∷ length to.now ∷ []) }
{
    reduce(Fold::All, true, file, a, to, scratch, steps);
}

/// `|a` (IEEE 1364-2005, 5.1.11): 1 where some bit is 1, else x where some bit is unknown, else 0.
pub fn reduce_or<W: Word, L: Ledger>(
    file: &mut PlaneFile<W>,
    a: &[u32],
    to: &[u32],
    scratch: &[u32],
    steps: &mut Steps<L>,
)
    requires targets { AreTargets (length file.old) to.now scratch.now }
    requires a { IsArgument (length file.old) a.now to.now scratch.now }
    requires to_length { length to.now ≡ 1 }
    ensures computes { Computes W.lane W.LANES (unary (bit_of_one reduce_or)) (a.now ∷ []) to.now scratch.now file.old file.new }
    ensures ticked { steps.new ≡ steps.old + cost_of (length a.now ∷ length to.now ∷ []) }
{
    reduce(Fold::Any, false, file, a, to, scratch, steps);
}

/// `~|a` (IEEE 1364-2005, 5.1.11): `~` of `|a`.
pub fn reduce_nor<W: Word, L: Ledger>(
    file: &mut PlaneFile<W>,
    a: &[u32],
    to: &[u32],
    scratch: &[u32],
    steps: &mut Steps<L>,
)
    requires targets { AreTargets (length file.old) to.now scratch.now }
    requires a { IsArgument (length file.old) a.now to.now scratch.now }
    requires to_length { length to.now ≡ 1 }
    ensures computes { Computes W.lane W.LANES (unary (bit_of_one reduce_nor)) (a.now ∷ []) to.now scratch.now file.old file.new }
    ensures ticked { steps.new ≡ steps.old + cost_of (length a.now ∷ length to.now ∷ []) }
{
    reduce(Fold::Any, true, file, a, to, scratch, steps);
}

/// `^a` (IEEE 1364-2005, 5.1.11): x where some bit is unknown, else whether the number of ones is odd.
pub fn reduce_xor<W: Word, L: Ledger>(
    file: &mut PlaneFile<W>,
    a: &[u32],
    to: &[u32],
    scratch: &[u32],
    steps: &mut Steps<L>,
)
    requires targets { AreTargets (length file.old) to.now scratch.now }
    requires a { IsArgument (length file.old) a.now to.now scratch.now }
    requires to_length { length to.now ≡ 1 }
    ensures computes { Computes W.lane W.LANES (unary (bit_of_one reduce_xor)) (a.now ∷ []) to.now scratch.now file.old file.new }
    ensures ticked { steps.new ≡ steps.old + cost_of (length a.now ∷ length to.now ∷ []) }
{
    reduce(Fold::Parity, false, file, a, to, scratch, steps);
}

/// `~^a` (IEEE 1364-2005, 5.1.11): `~` of `^a`.
pub fn reduce_xnor<W: Word, L: Ledger>(
    file: &mut PlaneFile<W>,
    a: &[u32],
    to: &[u32],
    scratch: &[u32],
    steps: &mut Steps<L>,
)
    requires targets { AreTargets (length file.old) to.now scratch.now }
    requires a { IsArgument (length file.old) a.now to.now scratch.now }
    requires to_length { length to.now ≡ 1 }
    ensures computes { Computes W.lane W.LANES (unary (bit_of_one reduce_xnor)) (a.now ∷ []) to.now scratch.now file.old file.new }
    ensures ticked { steps.new ≡ steps.old + cost_of (length a.now ∷ length to.now ∷ []) }
{
    reduce(Fold::Parity, true, file, a, to, scratch, steps);
}

/// `!a` (IEEE 1364-2005, 5.1.9): `~` of the truth of the argument.
pub fn logical_not<W: Word, L: Ledger>(
    file: &mut PlaneFile<W>,
    a: &[u32],
    to: &[u32],
    scratch: &[u32],
    steps: &mut Steps<L>,
)
    requires targets { AreTargets (length file.old) to.now scratch.now }
    requires a { IsArgument (length file.old) a.now to.now scratch.now }
    requires to_length { length to.now ≡ 1 }
    ensures computes { Computes W.lane W.LANES (unary (bit_of_one logical_not)) (a.now ∷ []) to.now scratch.now file.old file.new }
    ensures ticked { steps.new ≡ steps.old + cost_of (length a.now ∷ length to.now ∷ []) }
{
    reduce(Fold::Any, true, file, a, to, scratch, steps);
}

/// `a && b` (IEEE 1364-2005, 5.1.9): `&` of the truths of the arguments, which may have any lengths.
pub fn logical_and<W: Word, L: Ledger>(
    file: &mut PlaneFile<W>,
    a: &[u32],
    b: &[u32],
    to: &[u32],
    scratch: &[u32],
    steps: &mut Steps<L>,
)
    requires targets { AreTargets (length file.old) to.now scratch.now }
    requires a { IsArgument (length file.old) a.now to.now scratch.now }
    requires b { IsArgument (length file.old) b.now to.now scratch.now }
    requires to_length { length to.now ≡ 1 }
    ensures computes { Computes W.lane W.LANES (binary (bit_of_two logical_and)) (a.now ∷ b.now ∷ []) to.now scratch.now file.old file.new }
    ensures ticked { steps.new ≡ steps.old + cost_of (length a.now ∷ length b.now ∷ length to.now ∷ []) }
{
    logical(Gate::And, file, a, b, to, scratch, steps);
}

/// `a || b` (IEEE 1364-2005, 5.1.9): `|` of the truths of the arguments, which may have any lengths.
pub fn logical_or<W: Word, L: Ledger>(
    file: &mut PlaneFile<W>,
    a: &[u32],
    b: &[u32],
    to: &[u32],
    scratch: &[u32],
    steps: &mut Steps<L>,
)
    requires targets { AreTargets (length file.old) to.now scratch.now }
    requires a { IsArgument (length file.old) a.now to.now scratch.now }
    requires b { IsArgument (length file.old) b.now to.now scratch.now }
    requires to_length { length to.now ≡ 1 }
    ensures computes { Computes W.lane W.LANES (binary (bit_of_two logical_or)) (a.now ∷ b.now ∷ []) to.now scratch.now file.old file.new }
    ensures ticked { steps.new ≡ steps.old + cost_of (length a.now ∷ length b.now ∷ length to.now ∷ []) }
{
    logical(Gate::Or, file, a, b, to, scratch, steps);
}

/// A fold of the argument, inverted where this says so.
fn reduce<W: Word, L: Ledger>(
    fold: Fold,
    inverted: bool,
    file: &mut PlaneFile<W>,
    a: &[u32],
    to: &[u32],
    scratch: &[u32],
    steps: &mut Steps<L>,
)
    requires targets { AreTargets (length file.old) to.now scratch.now }
    requires a { IsArgument (length file.old) a.now to.now scratch.now }
    requires to_length { length to.now ≡ 1 }
    ensures computes { Computes W.lane W.LANES (unary (bit_of_one (λ v. output_bit inverted (fold_with (fold_bit fold) (first_bit fold) v)))) (a.now ∷ []) to.now scratch.now file.old file.new }
    ensures ticked { steps.new ≡ steps.old + cost_of (length a.now ∷ length to.now ∷ []) }
{
    let pair = output(inverted, fold_bits(fold, file, a));
    store_bit(file, to, scratch, pair, steps);
}

/// A gate of the truths of two arguments.
fn logical<W: Word, L: Ledger>(
    gate: Gate,
    file: &mut PlaneFile<W>,
    a: &[u32],
    b: &[u32],
    to: &[u32],
    scratch: &[u32],
    steps: &mut Steps<L>,
)
    requires targets { AreTargets (length file.old) to.now scratch.now }
    requires a { IsArgument (length file.old) a.now to.now scratch.now }
    requires b { IsArgument (length file.old) b.now to.now scratch.now }
    requires to_length { length to.now ≡ 1 }
    ensures computes { Computes W.lane W.LANES (binary (bit_of_two (λ v w. gate_bit gate (truth v) (truth w)))) (a.now ∷ b.now ∷ []) to.now scratch.now file.old file.new }
    ensures ticked { steps.new ≡ steps.old + cost_of (length a.now ∷ length b.now ∷ length to.now ∷ []) }
{
    let pair = gate.apply(truth(file, a), truth(file, b));
    store_bit(file, to, scratch, pair, steps);
}

/// The truth of a vector in each lane (IEEE 1364-2005, 5.1.9): 1 where some bit is 1, 0 where all bits are 0, else x. It stores nothing.
pub fn truth<W: Word>(file: &PlaneFile<W>, a: &[u32]) -> Pair<W>
    requires { All (λ slot. slot < length file.now) a.now }
    ensures { (i : ℕ) → i < W.LANES → pair_lane W.lane result i ≡ truth (lane_bits W.lane file.now a.now i) }
{
    fold_bits(Fold::Any, file, a)
}

/// The bits of the argument folded, in each lane.
fn fold_bits<W: Word>(fold: Fold, file: &PlaneFile<W>, a: &[u32]) -> Pair<W>
    requires { All (λ slot. slot < length file.now) a.now }
    ensures { (i : ℕ) → i < W.LANES → pair_lane W.lane result i
        ≡ fold_with (fold_bit fold) (first_bit fold) (lane_bits W.lane file.now a.now i) }
{
    let mut pair = Pair::of_bit(fold.first());
    for slot in a {
        pair = fold.apply(pair, file.load(*slot));
    }
    pair
}

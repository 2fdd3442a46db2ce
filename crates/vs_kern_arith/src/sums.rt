//! Sums and differences modulo 2^w (IEEE 1364-2005, 5.1.5), one store a bit: the carry stays in a register.
ghost use Rattle.std.specs.Prelude.{◌≡◌, ◌+◌, length, [], ◌∷◌};
ghost use Rattle.vs_four.specs.Numbers.{add, neg, sub};
ghost use Rattle.vs_plane.specs.Kernels.{AreTargets, Computes, IsArgument, binary, unary};
ghost use Rattle.vs_kern_arith.specs.declared.costs.Kernel.TheVariants.{Add, Neg, Sub};
ghost use Rattle.vs_kern_arith.specs.Costs.{cost_of};
ghost use Rattle.vs_kern_arith.specs.Digits.{summed};

use crate::words::{digit_at, digit_sum, flipped, known_bits, next_carry, unknown_lanes};
use std::sync::ledger::Ledger;
use vs_plane::{PlaneFile, Steps, Word, filling_law};

/// `a + b` (IEEE 1364-2005, 5.1.5): the sum modulo 2^w, or all x where a bit of the operands is unknown.
pub fn add<W: Word, L: Ledger>(
    file: &mut PlaneFile<W>,
    a: &[u32],
    b: &[u32],
    to: &[u32],
    scratch: &[u32],
    steps: &mut Steps<L>,
)
    requires targets { AreTargets (length file.old) to.now scratch.now }
    requires a { IsArgument (length file.old) a.now to.now scratch.now }
    requires b { IsArgument (length file.old) b.now to.now scratch.now }
    requires a_length { length a.now ≡ length to.now }
    requires b_length { length b.now ≡ length to.now }
    ensures computes { Computes W.lane W.LANES (binary add) (a.now ∷ b.now ∷ []) to.now scratch.now file.old file.new }
    ensures ticked { steps.new ≡ steps.old + cost_of Add (length a.now ∷ length b.now ∷ length to.now ∷ []) }
{
    filling_law::<W>();
    sum_bits(false, file, a, b, to, scratch, steps);
}

/// `a - b` (IEEE 1364-2005, 5.1.5): the difference modulo 2^w, or all x where a bit of the operands is unknown.
pub fn sub<W: Word, L: Ledger>(
    file: &mut PlaneFile<W>,
    a: &[u32],
    b: &[u32],
    to: &[u32],
    scratch: &[u32],
    steps: &mut Steps<L>,
)
    requires targets { AreTargets (length file.old) to.now scratch.now }
    requires a { IsArgument (length file.old) a.now to.now scratch.now }
    requires b { IsArgument (length file.old) b.now to.now scratch.now }
    requires a_length { length a.now ≡ length to.now }
    requires b_length { length b.now ≡ length to.now }
    ensures computes { Computes W.lane W.LANES (binary sub) (a.now ∷ b.now ∷ []) to.now scratch.now file.old file.new }
    ensures ticked { steps.new ≡ steps.old + cost_of Sub (length a.now ∷ length b.now ∷ length to.now ∷ []) }
{
    filling_law::<W>();
    sum_bits(true, file, a, b, to, scratch, steps);
}

/// `-a` (IEEE 1364-2005, 5.1.5): 0 less the argument, modulo 2^w, or all x where a bit of it is unknown.
pub fn neg<W: Word, L: Ledger>(
    file: &mut PlaneFile<W>,
    a: &[u32],
    to: &[u32],
    scratch: &[u32],
    steps: &mut Steps<L>,
)
    requires targets { AreTargets (length file.old) to.now scratch.now }
    requires a { IsArgument (length file.old) a.now to.now scratch.now }
    requires a_length { length a.now ≡ length to.now }
    ensures computes { Computes W.lane W.LANES (unary neg) (a.now ∷ []) to.now scratch.now file.old file.new }
    ensures ticked { steps.new ≡ steps.old + cost_of Neg (length a.now ∷ length to.now ∷ []) }
{
    filling_law::<W>();
    sum_bits(true, file, &[], a, to, scratch, steps);
}

/// `a + b`, or `a - b` where `b` is to be inverted, place by place. A vector `a` that is too short is extended by 0.
fn sum_bits<W: Word, L: Ledger>(
    inverted: bool,
    file: &mut PlaneFile<W>,
    a: &[u32],
    b: &[u32],
    to: &[u32],
    scratch: &[u32],
    steps: &mut Steps<L>,
)
    requires targets { AreTargets (length file.old) to.now scratch.now }
    requires a { IsArgument (length file.old) a.now to.now scratch.now }
    requires b { IsArgument (length file.old) b.now to.now scratch.now }
    requires b_length { length b.now ≡ length to.now }
    ensures computes { Computes W.lane W.LANES (binary (summed inverted (length to.now))) (a.now ∷ b.now ∷ []) to.now scratch.now file.old file.new }
    ensures ticked { steps.new ≡ steps.old + length to.now }
{
    filling_law::<W>();
    let unknown = unknown_lanes(unknown_lanes(W::none(), file, a), file, b);
    let mut carry = flipped(inverted, W::none());
    for (k, slot) in to.iter().enumerate() {
        let first = digit_at(file, a, k);
        let second = flipped(inverted, digit_at(file, b, k));
        let pair = known_bits(unknown, digit_sum(first, second, carry));
        file.store(*slot, pair, steps);
        carry = next_carry(first, second, carry);
    }
}

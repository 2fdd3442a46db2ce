//! Products modulo 2^w (IEEE 1364-2005, 5.1.5): from the least significant place up, a row is added in place.
ghost use Rattle.std.specs.Prelude.{◌≡◌, ◌+◌, ◌≤◌, length, replicate, if◌then◌else◌, [], ◌∷◌};
ghost use Rattle.vs_four.specs.declared.Bit4.TheVariants.{X, Zero};
ghost use Rattle.vs_four.specs.Numbers.{mul};
ghost use Rattle.vs_plane.specs.Kernels.{AreTargets, Computes, Fills, IsArgument, binary, lane_bits};
ghost use Rattle.vs_kern_arith.specs.declared.costs.Kernel.TheVariants.{Mul};
ghost use Rattle.vs_kern_arith.specs.Costs.{cost_of};
ghost use Rattle.vs_kern_arith.specs.Rows.{row_added};

use crate::words::{digit_sum, known_bits, next_carry, unknown_lanes};
use std::sync::ledger::Ledger;
use vs_plane::{PlaneFile, Steps, Word, filling_law};

/// `a * b` (IEEE 1364-2005, 5.1.5): the product modulo 2^w, or all x where a bit of the operands is unknown.
pub fn mul<W: Word, L: Ledger>(
    file: &mut PlaneFile<W>,
    a: &[u32],
    b: &[u32],
    to: &[u32],
    scratch: &[u32],
    steps: &mut Steps<L>,
)
    requires targets { AreTargets (length file.old) to.now scratch.now }
    requires a { IsArgument (length file.old) a.now to.now scratch.now }
    requires b { IsArgument (length file.old) b.now to.now scratch.now }
    requires a_length { length a.now ≡ length to.now }
    requires b_length { length b.now ≡ length to.now }
    ensures computes { Computes W.lane W.LANES (binary mul) (a.now ∷ b.now ∷ []) to.now scratch.now file.old file.new }
    ensures ticked { steps.new ≡ steps.old + cost_of Mul (length a.now ∷ length b.now ∷ length to.now ∷ []) }
{
    filling_law::<W>();
    let unknown = unknown_lanes(unknown_lanes(W::none(), file, a), file, b);
    clear(unknown, file, to, steps);
    for n in 0..to.len() {
        let digit = file.load(b[n]).value;
        add_row(unknown, digit, file, a, &to[n..], steps);
    }
}

/// Gives each slot 0, and x in the unknown lanes.
fn clear<W: Word, L: Ledger>(unknown: W, file: &mut PlaneFile<W>, to: &[u32], steps: &mut Steps<L>)
    requires targets { AreTargets (length file.old) to.now [] }
    ensures fills { Fills W.lane W.LANES (λ i. replicate (length to.now) (if W.lane unknown i then X else Zero)) to.now (length to.now) file.old file.new }
    ensures ticked { steps.new ≡ steps.old + length to.now }
{
    filling_law::<W>();
    let pair = known_bits(unknown, W::none());
    for slot in to {
        file.store(*slot, pair, steps);
    }
}

/// Adds a row, modulo 2^w, to what stands in the slots: the vector in the lanes where the digit is 1, and 0 in the others. In the
/// unknown lanes it stores x.
fn add_row<W: Word, L: Ledger>(
    unknown: W,
    digit: W,
    file: &mut PlaneFile<W>,
    a: &[u32],
    to: &[u32],
    steps: &mut Steps<L>,
)
    requires targets { AreTargets (length file.old) to.now [] }
    requires a { IsArgument (length file.old) a.now to.now [] }
    requires a_length { length to.now ≤ length a.now }
    ensures fills { Fills W.lane W.LANES (λ i. row_added (W.lane unknown i) (W.lane digit i) (lane_bits W.lane file.old a.now i) (lane_bits W.lane file.old to.now i)) to.now (length to.now) file.old file.new }
    ensures ticked { steps.new ≡ steps.old + length to.now }
{
    filling_law::<W>();
    let mut carry = W::none();
    for (j, slot) in to.iter().enumerate() {
        let first = file.load(a[j]).value.and(digit);
        let second = file.load(*slot).value;
        let pair = known_bits(unknown, digit_sum(first, second, carry));
        file.store(*slot, pair, steps);
        carry = next_carry(first, second, carry);
    }
}

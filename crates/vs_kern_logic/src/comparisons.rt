//! Equality, and the matches of `case` (IEEE 1364-2005, 5.1.8 and 9.5), with one store each: the fold stays in registers.
ghost use Rattle.std.specs.Prelude.{◌≡◌, ℕ, ◌+◌, ◌<◌, length, All, [], ◌∷◌};
ghost use Rattle.vs_four.specs.Logic.{equal, identical, map2, matches_x, matches_z, reduce_and};
ghost use Rattle.vs_plane.specs.Kernels.{AreTargets, Computes, IsArgument, binary, bit_of_two, lane_bits};
ghost use Rattle.vs_plane.specs.Lanes.{pair_lane};
ghost use Rattle.vs_kern_logic.specs.Costs.{cost_of};
ghost use Rattle.vs_kern_logic.specs.Gates.{gate_bit, output_bit};
ghost use Rattle.vs_kern_logic.specs.Operators.{not_equal, not_identical};

use crate::gates::{Gate, output, store_bit};
use std::sync::ledger::Ledger;
use vs_four::Bit4;
use vs_plane::{Pair, PlaneFile, Steps, Word};

/// `a == b` (IEEE 1364-2005, 5.1.8): 0 where two known bits differ, whatever stands elsewhere, else x where a bit is unknown, else 1.
pub fn equal<W: Word, L: Ledger>(
    file: &mut PlaneFile<W>,
    a: &[u32],
    b: &[u32],
    to: &[u32],
    scratch: &[u32],
    steps: &mut Steps<L>,
)
    requires targets { AreTargets (length file.old) to.now scratch.now }
    requires a { IsArgument (length file.old) a.now to.now scratch.now }
    requires b { IsArgument (length file.old) b.now to.now scratch.now }
    requires b_length { length b.now ≡ length a.now }
    requires to_length { length to.now ≡ 1 }
    ensures computes { Computes W.lane W.LANES (binary (bit_of_two equal)) (a.now ∷ b.now ∷ []) to.now scratch.now file.old file.new }
    ensures ticked { steps.new ≡ steps.old + cost_of (length a.now ∷ length b.now ∷ length to.now ∷ []) }
{
    compare(Gate::Xnor, false, file, a, b, to, scratch, steps);
}

/// `a != b` (IEEE 1364-2005, 5.1.8): `~` of `a == b`.
pub fn not_equal<W: Word, L: Ledger>(
    file: &mut PlaneFile<W>,
    a: &[u32],
    b: &[u32],
    to: &[u32],
    scratch: &[u32],
    steps: &mut Steps<L>,
)
    requires targets { AreTargets (length file.old) to.now scratch.now }
    requires a { IsArgument (length file.old) a.now to.now scratch.now }
    requires b { IsArgument (length file.old) b.now to.now scratch.now }
    requires b_length { length b.now ≡ length a.now }
    requires to_length { length to.now ≡ 1 }
    ensures computes { Computes W.lane W.LANES (binary (bit_of_two not_equal)) (a.now ∷ b.now ∷ []) to.now scratch.now file.old file.new }
    ensures ticked { steps.new ≡ steps.old + cost_of (length a.now ∷ length b.now ∷ length to.now ∷ []) }
{
    compare(Gate::Xnor, true, file, a, b, to, scratch, steps);
}

/// `a === b` (IEEE 1364-2005, 5.1.8), and the match of `case` (9.5): all bits as written, x and z too.
pub fn case_equal<W: Word, L: Ledger>(
    file: &mut PlaneFile<W>,
    a: &[u32],
    b: &[u32],
    to: &[u32],
    scratch: &[u32],
    steps: &mut Steps<L>,
)
    requires targets { AreTargets (length file.old) to.now scratch.now }
    requires a { IsArgument (length file.old) a.now to.now scratch.now }
    requires b { IsArgument (length file.old) b.now to.now scratch.now }
    requires b_length { length b.now ≡ length a.now }
    requires to_length { length to.now ≡ 1 }
    ensures computes { Computes W.lane W.LANES (binary (bit_of_two identical)) (a.now ∷ b.now ∷ []) to.now scratch.now file.old file.new }
    ensures ticked { steps.new ≡ steps.old + cost_of (length a.now ∷ length b.now ∷ length to.now ∷ []) }
{
    compare(Gate::Same, false, file, a, b, to, scratch, steps);
}

/// `a !== b` (IEEE 1364-2005, 5.1.8): `~` of `a === b`.
pub fn case_not_equal<W: Word, L: Ledger>(
    file: &mut PlaneFile<W>,
    a: &[u32],
    b: &[u32],
    to: &[u32],
    scratch: &[u32],
    steps: &mut Steps<L>,
)
    requires targets { AreTargets (length file.old) to.now scratch.now }
    requires a { IsArgument (length file.old) a.now to.now scratch.now }
    requires b { IsArgument (length file.old) b.now to.now scratch.now }
    requires b_length { length b.now ≡ length a.now }
    requires to_length { length to.now ≡ 1 }
    ensures computes { Computes W.lane W.LANES (binary (bit_of_two not_identical)) (a.now ∷ b.now ∷ []) to.now scratch.now file.old file.new }
    ensures ticked { steps.new ≡ steps.old + cost_of (length a.now ∷ length b.now ∷ length to.now ∷ []) }
{
    compare(Gate::Same, true, file, a, b, to, scratch, steps);
}

/// The match of `casez` (IEEE 1364-2005, 9.5.1): as `case`, but a z on either side matches any bit.
pub fn matches_z<W: Word, L: Ledger>(
    file: &mut PlaneFile<W>,
    a: &[u32],
    b: &[u32],
    to: &[u32],
    scratch: &[u32],
    steps: &mut Steps<L>,
)
    requires targets { AreTargets (length file.old) to.now scratch.now }
    requires a { IsArgument (length file.old) a.now to.now scratch.now }
    requires b { IsArgument (length file.old) b.now to.now scratch.now }
    requires b_length { length b.now ≡ length a.now }
    requires to_length { length to.now ≡ 1 }
    ensures computes { Computes W.lane W.LANES (binary (bit_of_two matches_z)) (a.now ∷ b.now ∷ []) to.now scratch.now file.old file.new }
    ensures ticked { steps.new ≡ steps.old + cost_of (length a.now ∷ length b.now ∷ length to.now ∷ []) }
{
    compare(Gate::MatchesZ, false, file, a, b, to, scratch, steps);
}

/// The match of `casex` (IEEE 1364-2005, 9.5.1): as `case`, but an x or z on either side matches any bit.
pub fn matches_x<W: Word, L: Ledger>(
    file: &mut PlaneFile<W>,
    a: &[u32],
    b: &[u32],
    to: &[u32],
    scratch: &[u32],
    steps: &mut Steps<L>,
)
    requires targets { AreTargets (length file.old) to.now scratch.now }
    requires a { IsArgument (length file.old) a.now to.now scratch.now }
    requires b { IsArgument (length file.old) b.now to.now scratch.now }
    requires b_length { length b.now ≡ length a.now }
    requires to_length { length to.now ≡ 1 }
    ensures computes { Computes W.lane W.LANES (binary (bit_of_two matches_x)) (a.now ∷ b.now ∷ []) to.now scratch.now file.old file.new }
    ensures ticked { steps.new ≡ steps.old + cost_of (length a.now ∷ length b.now ∷ length to.now ∷ []) }
{
    compare(Gate::MatchesX, false, file, a, b, to, scratch, steps);
}

/// Whether a gate gives 1 at each place of two arguments, inverted where this says so.
fn compare<W: Word, L: Ledger>(
    gate: Gate,
    inverted: bool,
    file: &mut PlaneFile<W>,
    a: &[u32],
    b: &[u32],
    to: &[u32],
    scratch: &[u32],
    steps: &mut Steps<L>,
)
    requires targets { AreTargets (length file.old) to.now scratch.now }
    requires a { IsArgument (length file.old) a.now to.now scratch.now }
    requires b { IsArgument (length file.old) b.now to.now scratch.now }
    requires b_length { length b.now ≡ length a.now }
    requires to_length { length to.now ≡ 1 }
    ensures computes { Computes W.lane W.LANES (binary (bit_of_two (λ v w. output_bit inverted (reduce_and (map2 (gate_bit gate) v w))))) (a.now ∷ b.now ∷ []) to.now scratch.now file.old file.new }
    ensures ticked { steps.new ≡ steps.old + cost_of (length a.now ∷ length b.now ∷ length to.now ∷ []) }
{
    let pair = output(inverted, match_bits(gate, file, a, b));
    store_bit(file, to, scratch, pair, steps);
}

/// The `&` of what a gate gives at each place of two arguments, in each lane.
fn match_bits<W: Word>(gate: Gate, file: &PlaneFile<W>, a: &[u32], b: &[u32]) -> Pair<W>
    requires a { All (λ slot. slot < length file.now) a.now }
    requires b { All (λ slot. slot < length file.now) b.now }
    requires lengths { length b.now ≡ length a.now }
    ensures { (i : ℕ) → i < W.LANES → pair_lane W.lane result i
        ≡ reduce_and (map2 (gate_bit gate) (lane_bits W.lane file.now a.now i) (lane_bits W.lane file.now b.now i)) }
{
    let mut pair = Pair::of_bit(Bit4::One);
    for (k, slot) in a.iter().enumerate() {
        let matched = gate.apply(file.load(*slot), file.load(b[k]));
        pair = pair.and(matched);
    }
    pair
}

//! Order (IEEE 1364-2005, 5.1.7), with one store each.
ghost use Rattle.std.specs.Prelude.{◌≡◌, ℕ, ◌+◌, ◌<◌, length, All, nat_lt, true, [], ◌∷◌};
ghost use Rattle.vs_four.specs.Logic.{all_known};
ghost use Rattle.vs_four.specs.Numbers.{less, number};
ghost use Rattle.vs_plane.specs.Kernels.{AreTargets, Computes, IsArgument, KeepsOthers, binary, bit_of_two, lane_bits};
ghost use Rattle.vs_plane.specs.Lanes.{pair_lane};
ghost use Rattle.vs_kern_arith.specs.declared.costs.Kernel.TheVariants.{Greater, GreaterEqual, Less, LessEqual};
ghost use Rattle.vs_kern_arith.specs.Costs.{cost_of};
ghost use Rattle.vs_kern_arith.specs.Operators.{greater, greater_equal, less_equal};

use crate::words::{digit_at, known_bits, next_less, top_digit, unknown_lanes};
use std::sync::ledger::Ledger;
use vs_plane::{Pair, PlaneFile, Steps, Word, filling_law};

/// `a < b` (IEEE 1364-2005, 5.1.7), of two's complement where it is signed: x where a bit of the operands is unknown.
pub fn less<W: Word, L: Ledger>(
    signed: bool,
    file: &mut PlaneFile<W>,
    a: &[u32],
    b: &[u32],
    to: &[u32],
    scratch: &[u32],
    steps: &mut Steps<L>,
)
    requires targets { AreTargets (length file.old) to.now scratch.now }
    requires a { IsArgument (length file.old) a.now to.now scratch.now }
    requires b { IsArgument (length file.old) b.now to.now scratch.now }
    requires b_length { length b.now ≡ length a.now }
    requires to_length { length to.now ≡ 1 }
    ensures computes { Computes W.lane W.LANES (binary (bit_of_two (less signed))) (a.now ∷ b.now ∷ []) to.now scratch.now file.old file.new }
    ensures ticked { steps.new ≡ steps.old + cost_of (Less signed) (length a.now ∷ length b.now ∷ length to.now ∷ []) }
{
    let pair = less_bit(signed, file, a, b);
    store_bit(file, to, scratch, pair, steps);
}

/// `a <= b` (IEEE 1364-2005, 5.1.7), of two's complement where it is signed: x where a bit of the operands is unknown.
pub fn less_equal<W: Word, L: Ledger>(
    signed: bool,
    file: &mut PlaneFile<W>,
    a: &[u32],
    b: &[u32],
    to: &[u32],
    scratch: &[u32],
    steps: &mut Steps<L>,
)
    requires targets { AreTargets (length file.old) to.now scratch.now }
    requires a { IsArgument (length file.old) a.now to.now scratch.now }
    requires b { IsArgument (length file.old) b.now to.now scratch.now }
    requires b_length { length b.now ≡ length a.now }
    requires to_length { length to.now ≡ 1 }
    ensures computes { Computes W.lane W.LANES (binary (bit_of_two (less_equal signed))) (a.now ∷ b.now ∷ []) to.now scratch.now file.old file.new }
    ensures ticked { steps.new ≡ steps.old + cost_of (LessEqual signed) (length a.now ∷ length b.now ∷ length to.now ∷ []) }
{
    let pair = less_bit(signed, file, b, a).not();
    store_bit(file, to, scratch, pair, steps);
}

/// `a > b` (IEEE 1364-2005, 5.1.7), of two's complement where it is signed: x where a bit of the operands is unknown.
pub fn greater<W: Word, L: Ledger>(
    signed: bool,
    file: &mut PlaneFile<W>,
    a: &[u32],
    b: &[u32],
    to: &[u32],
    scratch: &[u32],
    steps: &mut Steps<L>,
)
    requires targets { AreTargets (length file.old) to.now scratch.now }
    requires a { IsArgument (length file.old) a.now to.now scratch.now }
    requires b { IsArgument (length file.old) b.now to.now scratch.now }
    requires b_length { length b.now ≡ length a.now }
    requires to_length { length to.now ≡ 1 }
    ensures computes { Computes W.lane W.LANES (binary (bit_of_two (greater signed))) (a.now ∷ b.now ∷ []) to.now scratch.now file.old file.new }
    ensures ticked { steps.new ≡ steps.old + cost_of (Greater signed) (length a.now ∷ length b.now ∷ length to.now ∷ []) }
{
    let pair = less_bit(signed, file, b, a);
    store_bit(file, to, scratch, pair, steps);
}

/// `a >= b` (IEEE 1364-2005, 5.1.7), of two's complement where it is signed: x where a bit of the operands is unknown.
pub fn greater_equal<W: Word, L: Ledger>(
    signed: bool,
    file: &mut PlaneFile<W>,
    a: &[u32],
    b: &[u32],
    to: &[u32],
    scratch: &[u32],
    steps: &mut Steps<L>,
)
    requires targets { AreTargets (length file.old) to.now scratch.now }
    requires a { IsArgument (length file.old) a.now to.now scratch.now }
    requires b { IsArgument (length file.old) b.now to.now scratch.now }
    requires b_length { length b.now ≡ length a.now }
    requires to_length { length to.now ≡ 1 }
    ensures computes { Computes W.lane W.LANES (binary (bit_of_two (greater_equal signed))) (a.now ∷ b.now ∷ []) to.now scratch.now file.old file.new }
    ensures ticked { steps.new ≡ steps.old + cost_of (GreaterEqual signed) (length a.now ∷ length b.now ∷ length to.now ∷ []) }
{
    let pair = less_bit(signed, file, a, b).not();
    store_bit(file, to, scratch, pair, steps);
}

/// `a < b` in each lane. It stores nothing.
fn less_bit<W: Word>(signed: bool, file: &PlaneFile<W>, a: &[u32], b: &[u32]) -> Pair<W>
    requires a { All (λ slot. slot < length file.now) a.now }
    requires b { All (λ slot. slot < length file.now) b.now }
    requires lengths { length b.now ≡ length a.now }
    ensures { (i : ℕ) → i < W.LANES → pair_lane W.lane result i
        ≡ less signed (lane_bits W.lane file.now a.now i) (lane_bits W.lane file.now b.now i) }
{
    filling_law::<W>();
    let unknown = unknown_lanes(unknown_lanes(W::none(), file, a), file, b);
    let word = less_word(file, a, b);
    if signed {
        known_bits(
            unknown,
            word.xor(top_digit(file, a).xor(top_digit(file, b))),
        )
    } else {
        known_bits(unknown, word)
    }
}

/// Whether the number of the first vector is less, in each lane without an unknown bit.
fn less_word<W: Word>(file: &PlaneFile<W>, a: &[u32], b: &[u32]) -> W
    requires a { All (λ slot. slot < length file.now) a.now }
    requires b { All (λ slot. slot < length file.now) b.now }
    requires lengths { length b.now ≡ length a.now }
    ensures { (i : ℕ) → i < W.LANES
        → all_known (lane_bits W.lane file.now a.now i) ≡ true → all_known (lane_bits W.lane file.now b.now i) ≡ true
        → W.lane result i ≡ nat_lt (number (lane_bits W.lane file.now a.now i)) (number (lane_bits W.lane file.now b.now i)) }
{
    filling_law::<W>();
    let mut word = W::none();
    for k in 0..a.len() {
        word = next_less(digit_at(file, a, k), digit_at(file, b, k), word);
    }
    word
}

/// Gives the one slot of a value its bit.
fn store_bit<W: Word, L: Ledger>(
    file: &mut PlaneFile<W>,
    to: &[u32],
    scratch: &[u32],
    pair: Pair<W>,
    steps: &mut Steps<L>,
)
    requires targets { AreTargets (length file.old) to.now scratch.now }
    requires to_length { length to.now ≡ 1 }
    ensures value { (i : ℕ) → i < W.LANES → lane_bits W.lane file.new to.now i ≡ pair_lane W.lane pair i ∷ [] }
    ensures others { KeepsOthers to.now scratch.now file.old file.new }
    ensures ticked { steps.new ≡ steps.old + 1 }
{
    filling_law::<W>();
    file.store(to[0], pair, steps);
}

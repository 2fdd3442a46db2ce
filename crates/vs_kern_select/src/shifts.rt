//! Shifts by a variable amount (IEEE 1364-2005, 5.1.12): the vector is moved by 1, 2, 4 places and so on, in the lanes whose amount has that
//! bit.
ghost use Rattle.std.specs.Prelude.{◌≡◌, ℕ, ◌+◌, ◌*◌, ◌<◌, ◌≤◌, not, length, slice_index, slice_index_or, [], ◌∷◌, All};
ghost use Rattle.std.specs.List.{list_any};
ghost use Rattle.vs_four.specs.declared.Bit4.TheVariants.{Zero};
ghost use Rattle.vs_four.specs.Lengths.{last_or};
ghost use Rattle.vs_four.specs.Logic.{all_known};
ghost use Rattle.vs_four.specs.Shifts.{shift_arith, shift_left, shift_right};
ghost use Rattle.vs_four.specs.Tables.{is_one};
ghost use Rattle.vs_plane.specs.Kernels.{AreApart, AreDifferent, AreTargets, Computes, Fills, IsArgument, KeepsOthers, binary, lane_bits};
ghost use Rattle.vs_plane.specs.Lanes.{pair_lane};
ghost use Rattle.vs_kern_select.specs.declared.costs.Kernel.TheVariants.{ShiftArith, ShiftLeft, ShiftRight};
ghost use Rattle.vs_kern_select.specs.Costs.{cost_of, moving_bits};
ghost use Rattle.vs_kern_select.specs.Moves.{first, first_bit, moved, shifted, turns};

use crate::costs::moving_bits;
use std::sync::ledger::Ledger;
use vs_four::Bit4;
use vs_plane::{Pair, PlaneFile, Steps, Word, filling_law};

/// `a << amount`, and `a <<< amount` (IEEE 1364-2005, 5.1.12): filled with 0 from below, and all x where a bit of the amount is unknown.
pub fn shift_left<W: Word, L: Ledger>(
    file: &mut PlaneFile<W>,
    a: &[u32],
    amount: &[u32],
    to: &[u32],
    scratch: &[u32],
    steps: &mut Steps<L>,
)
    requires targets { AreTargets (length file.old) to.now scratch.now }
    requires a { IsArgument (length file.old) a.now to.now scratch.now }
    requires amount { IsArgument (length file.old) amount.now to.now scratch.now }
    requires a_length { length a.now ≡ length to.now }
    ensures computes { Computes W.lane W.LANES (binary shift_left) (a.now ∷ amount.now ∷ []) to.now scratch.now file.old file.new }
    ensures ticked { steps.new ≡ steps.old + cost_of ShiftLeft (length a.now ∷ length amount.now ∷ length to.now ∷ []) }
{
    let zero = Pair::of_bit(Bit4::Zero);
    shift_bits(true, zero, file, a, amount, to, scratch, steps);
}

/// `a >> amount`, and `a >>> amount` of an unsigned vector (IEEE 1364-2005, 5.1.12): filled with 0 from above, and all x where a bit of the
/// amount is unknown.
pub fn shift_right<W: Word, L: Ledger>(
    file: &mut PlaneFile<W>,
    a: &[u32],
    amount: &[u32],
    to: &[u32],
    scratch: &[u32],
    steps: &mut Steps<L>,
)
    requires targets { AreTargets (length file.old) to.now scratch.now }
    requires a { IsArgument (length file.old) a.now to.now scratch.now }
    requires amount { IsArgument (length file.old) amount.now to.now scratch.now }
    requires a_length { length a.now ≡ length to.now }
    ensures computes { Computes W.lane W.LANES (binary shift_right) (a.now ∷ amount.now ∷ []) to.now scratch.now file.old file.new }
    ensures ticked { steps.new ≡ steps.old + cost_of ShiftRight (length a.now ∷ length amount.now ∷ length to.now ∷ []) }
{
    let zero = Pair::of_bit(Bit4::Zero);
    shift_bits(false, zero, file, a, amount, to, scratch, steps);
}

/// `a >>> amount` of a signed vector (IEEE 1364-2005, 5.1.12): filled with the top bit, x and z too, and all x where a bit of the amount is
/// unknown.
pub fn shift_arith<W: Word, L: Ledger>(
    file: &mut PlaneFile<W>,
    a: &[u32],
    amount: &[u32],
    to: &[u32],
    scratch: &[u32],
    steps: &mut Steps<L>,
)
    requires targets { AreTargets (length file.old) to.now scratch.now }
    requires a { IsArgument (length file.old) a.now to.now scratch.now }
    requires amount { IsArgument (length file.old) amount.now to.now scratch.now }
    requires a_length { length a.now ≡ length to.now }
    ensures computes { Computes W.lane W.LANES (binary shift_arith) (a.now ∷ amount.now ∷ []) to.now scratch.now file.old file.new }
    ensures ticked { steps.new ≡ steps.old + cost_of ShiftArith (length a.now ∷ length amount.now ∷ length to.now ∷ []) }
{
    shift_bits(false, top_bit(file, a), file, a, amount, to, scratch, steps);
}

/// A shift either way, filled with this bit in each lane.
fn shift_bits<W: Word, L: Ledger>(
    left: bool,
    fill: Pair<W>,
    file: &mut PlaneFile<W>,
    a: &[u32],
    amount: &[u32],
    to: &[u32],
    scratch: &[u32],
    steps: &mut Steps<L>,
)
    requires targets { AreTargets (length file.old) to.now scratch.now }
    requires a { IsArgument (length file.old) a.now to.now scratch.now }
    requires amount { IsArgument (length file.old) amount.now to.now scratch.now }
    requires a_length { length a.now ≡ length to.now }
    ensures value { (i : ℕ) → i < W.LANES → lane_bits W.lane file.new to.now i
        ≡ shifted left (pair_lane W.lane fill i) (lane_bits W.lane file.old a.now i) (lane_bits W.lane file.old amount.now i) }
    ensures others { KeepsOthers to.now scratch.now file.old file.new }
    ensures ticked { steps.new ≡ steps.old + (length to.now + length to.now * moving_bits (length to.now) (length amount.now)) }
{
    filling_law::<W>();
    let moving = moving_bits(to.len(), amount.len());
    let unknown = unknown_lanes(file, amount);
    let out = one_lanes(file, &amount[moving..]);
    first_bits(unknown, out, fill, file, a, to, steps);
    for bit in 0..moving {
        let moves = file.load(amount[bit]).one().and(unknown.not());
        move_bits(left, moves, fill, 1 << bit, file, to, steps);
    }
}

/// The vector before the moves: x in the lanes whose amount is unknown, and the fill in those whose amount moves each bit out.
fn first_bits<W: Word, L: Ledger>(
    unknown: W,
    out: W,
    fill: Pair<W>,
    file: &mut PlaneFile<W>,
    a: &[u32],
    to: &[u32],
    steps: &mut Steps<L>,
)
    requires to { All (λ slot. slot < length file.old) to.now }
    requires different { AreDifferent to.now }
    requires a { All (λ slot. slot < length file.old) a.now }
    requires apart { AreApart a.now to.now }
    requires a_length { length a.now ≡ length to.now }
    ensures fills { Fills W.lane W.LANES (λ i. first (W.lane unknown i) (W.lane out i) (pair_lane W.lane fill i) (lane_bits W.lane file.old a.now i)) to.now (length to.now) file.old file.new }
    ensures ticked { steps.new ≡ steps.old + length to.now }
{
    filling_law::<W>();
    for (k, slot) in to.iter().enumerate() {
        let pair = first_pair(unknown, out, fill, file.load(a[k]));
        file.store(*slot, pair, steps);
    }
}

/// A bit before the moves.
#[inline]
fn first_pair<W: Word>(unknown: W, out: W, fill: Pair<W>, pair: Pair<W>) -> Pair<W>
    ensures { (i : ℕ) → i < W.LANES → pair_lane W.lane result i
        ≡ first_bit (W.lane unknown i) (W.lane out i) (pair_lane W.lane fill i) (pair_lane W.lane pair i) }
{
    Pair::of_bit(Bit4::X).in_lanes(unknown, fill.in_lanes(out, pair))
}

/// Moves the vector by this many places, in these lanes. A turn stores the bit of its place, and takes it from a place that comes later.
fn move_bits<W: Word, L: Ledger>(
    left: bool,
    moves: W,
    fill: Pair<W>,
    distance: usize,
    file: &mut PlaneFile<W>,
    to: &[u32],
    steps: &mut Steps<L>,
)
    requires to { All (λ slot. slot < length file.old) to.now }
    requires different { AreDifferent to.now }
    requires distance { distance ≤ length to.now }
    ensures fills { Fills W.lane W.LANES (λ i. moved (W.lane moves i) (pair_lane W.lane fill i) distance (lane_bits W.lane file.old (turns left to.now) i)) (turns left to.now) (length to.now) file.old file.new }
    ensures ticked { steps.new ≡ steps.old + length to.now }
{
    filling_law::<W>();
    for turn in 0..to.len() {
        let stays = bit_at(left, file, to, turn, fill);
        let comes = bit_at(left, file, to, turn + distance, fill);
        let slot = slot_at(left, to, turn);
        file.store(slot, comes.in_lanes(moves, stays), steps);
    }
}

/// The slot of a turn: from the most significant place down for a shift left, and from the least significant one up for a shift right.
#[inline]
fn slot_at(left: bool, to: &[u32], turn: usize) -> u32
    requires { turn < length to.now }
    ensures { result ≡ slice_index (turns left to.now) turn }
{
    if left {
        to[to.len() - 1 - turn]
    } else {
        to[turn]
    }
}

/// The bit of a turn's place, and the fill after the last turn.
#[inline]
fn bit_at<W: Word>(
    left: bool,
    file: &PlaneFile<W>,
    to: &[u32],
    turn: usize,
    fill: Pair<W>,
) -> Pair<W>
    requires { All (λ slot. slot < length file.now) to.now }
    ensures { (i : ℕ) → i < W.LANES → pair_lane W.lane result i
        ≡ slice_index_or (lane_bits W.lane file.now (turns left to.now) i) turn (pair_lane W.lane fill i) }
{
    if turn < to.len() {
        file.load(slot_at(left, to, turn))
    } else {
        fill
    }
}

/// The bit of a vector's most significant place, and 0 where it has none.
fn top_bit<W: Word>(file: &PlaneFile<W>, a: &[u32]) -> Pair<W>
    requires { All (λ slot. slot < length file.now) a.now }
    ensures { (i : ℕ) → i < W.LANES → pair_lane W.lane result i ≡ last_or Zero (lane_bits W.lane file.now a.now i) }
{
    match a.last() {
        Some(slot) => file.load(*slot),
        None => Pair::of_bit(Bit4::Zero),
    }
}

/// The lanes in which a vector has an unknown bit.
fn unknown_lanes<W: Word>(file: &PlaneFile<W>, a: &[u32]) -> W
    requires { All (λ slot. slot < length file.now) a.now }
    ensures { (i : ℕ) → i < W.LANES → W.lane result i ≡ not (all_known (lane_bits W.lane file.now a.now i)) }
{
    let mut unknown = W::none();
    for slot in a {
        unknown = unknown.or(file.load(*slot).known().not());
    }
    unknown
}

/// The lanes in which a vector has a 1.
fn one_lanes<W: Word>(file: &PlaneFile<W>, a: &[u32]) -> W
    requires { All (λ slot. slot < length file.now) a.now }
    ensures { (i : ℕ) → i < W.LANES → W.lane result i ≡ list_any is_one (lane_bits W.lane file.now a.now i) }
{
    let mut ones = W::none();
    for slot in a {
        ones = ones.or(file.load(*slot).one());
    }
    ones
}

//! Digits, carries and the unknown lanes, as words with a bit for each lane.
ghost use Rattle.std.specs.Prelude.{◌≡◌, ℕ, ◌<◌, not, ◌||◌, length, slice_index_or, All, if◌then◌else◌};
ghost use Rattle.vs_four.specs.declared.Bit4.TheVariants.{X, Zero};
ghost use Rattle.vs_four.specs.Lengths.{last_or};
ghost use Rattle.vs_four.specs.Logic.{all_known};
ghost use Rattle.vs_four.specs.Tables.{of_bool};
ghost use Rattle.vs_plane.specs.Bits.{differ};
ghost use Rattle.vs_plane.specs.Kernels.{lane_bits};
ghost use Rattle.vs_plane.specs.Lanes.{pair_lane, value_bit};
ghost use Rattle.vs_kern_arith.specs.Digits.{carry_of, less_of, sum_of};

use vs_plane::{Pair, PlaneFile, Word};

/// The lanes in which a vector has an unknown bit, and those of `first`.
pub(crate) fn unknown_lanes<W: Word>(first: W, file: &PlaneFile<W>, a: &[u32]) -> W
    requires { All (λ slot. slot < length file.now) a.now }
    ensures { (i : ℕ) → i < W.LANES
        → W.lane result i ≡ (W.lane first i || not (all_known (lane_bits W.lane file.now a.now i))) }
{
    let mut unknown = first;
    for slot in a {
        unknown = unknown.or(file.load(*slot).unknown);
    }
    unknown
}

/// The value bits at place `k` of a vector, and 0 past its end.
#[inline]
pub(crate) fn digit_at<W: Word>(file: &PlaneFile<W>, a: &[u32], k: usize) -> W
    requires { All (λ slot. slot < length file.now) a.now }
    ensures { (i : ℕ) → i < W.LANES
        → W.lane result i ≡ value_bit (slice_index_or (lane_bits W.lane file.now a.now i) k Zero) }
{
    if k < a.len() {
        file.load(a[k]).value
    } else {
        W::none()
    }
}

/// The value bits of a vector's most significant place, and 0 where it has none.
#[inline]
pub(crate) fn top_digit<W: Word>(file: &PlaneFile<W>, a: &[u32]) -> W
    requires { All (λ slot. slot < length file.now) a.now }
    ensures { (i : ℕ) → i < W.LANES
        → W.lane result i ≡ value_bit (last_or Zero (lane_bits W.lane file.now a.now i)) }
{
    let width = a.len();
    if 0 < width {
        digit_at(file, a, width - 1)
    } else {
        W::none()
    }
}

/// The word, inverted where this says so.
#[inline]
pub(crate) fn flipped<W: Word>(inverted: bool, word: W) -> W
    ensures { (i : ℕ) → i < W.LANES → W.lane result i ≡ differ inverted (W.lane word i) }
{
    if inverted { word.not() } else { word }
}

/// The digit of the sum of two digits and a carry.
#[inline]
pub(crate) fn digit_sum<W: Word>(a: W, b: W, carry: W) -> W
    ensures { (i : ℕ) → i < W.LANES → W.lane result i ≡ sum_of (W.lane a i) (W.lane b i) (W.lane carry i) }
{
    a.xor(b).xor(carry)
}

/// The carry of the sum of two digits and a carry.
#[inline]
pub(crate) fn next_carry<W: Word>(a: W, b: W, carry: W) -> W
    ensures { (i : ℕ) → i < W.LANES → W.lane result i ≡ carry_of (W.lane a i) (W.lane b i) (W.lane carry i) }
{
    a.and(b).or(a.or(b).and(carry))
}

/// Whether a number is less by its digit and by what holds of the digits below.
#[inline]
pub(crate) fn next_less<W: Word>(a: W, b: W, below: W) -> W
    ensures { (i : ℕ) → i < W.LANES → W.lane result i ≡ less_of (W.lane a i) (W.lane b i) (W.lane below i) }
{
    let rest = a.xor(b).not().and(below);
    a.not().and(b).or(rest)
}

/// The bits of a word, and x in the unknown lanes.
#[inline]
pub(crate) fn known_bits<W: Word>(unknown: W, word: W) -> Pair<W>
    ensures { (i : ℕ) → i < W.LANES
        → pair_lane W.lane result i ≡ (if W.lane unknown i then X else of_bool (W.lane word i)) }
{
    Pair {
        value: word.or(unknown),
        unknown,
    }
}

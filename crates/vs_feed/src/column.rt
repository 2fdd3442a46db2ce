//! The bits of all lanes, packed into pairs of planes.

ghost use Rattle.std.specs.Prelude.{◌≡◌, ◌≢◌, ℕ, ◌+◌, ◌*◌, ◌/◌, ◌%◌, ◌<◌, ◌≤◌, [], ◌∷◌, length, map, slice_index, slice_index_or, ◌==◌};
ghost use Rattle.std.specs.Int.{bit_at};
ghost use Rattle.vs_desk.specs.Places.{most_lanes};
ghost use Rattle.vs_four.specs.declared.Bit4.TheVariants.{X};
ghost use Rattle.vs_four.specs.Planes.{bits_of_planes};
ghost use Rattle.vs_plane.specs.Lanes.{decode, pair_lane};
ghost use Rattle.vs_feed.specs.Lanes.{lane_at, AreLanes};
ghost use Rattle.vs_feed.specs.Fed.{driven, driven_value, HaveBits, IsWide, AreFed};

use vs_four::Bit4;
use vs_plane::{Columns, Lanes, Pair};
use vs_stim::Stimulus;

/// Whether there is a stimulus of this lane that hasn't ended.
#[inline]
fn is_live(stimuli: &[Stimulus], lane: usize) -> bool
    ensures { result ≡ (lane_at stimuli.now lane).live }
{
    lane < stimuli.len() && stimuli[lane].live()
}

/// The planes of an input in a lane; x where its stimulus has ended, or isn't there.
#[inline]
fn planes_of(stimuli: &[Stimulus], input: usize, lane: usize) -> (u64, u64)
    requires { lane < length stimuli.now → input < length (lane_at stimuli.now lane).vector }
    ensures { (count : ℕ) → IsWide input count stimuli.now → count ≤ 64
        → bits_of_planes count result.0 result.1 ≡ driven_value count (lane_at stimuli.now lane) input }
{
    if is_live(stimuli, lane) {
        stimuli[lane].vector()[input].planes()
    } else {
        (u64::MAX, u64::MAX)
    }
}

/// The planes of an input in the 64 lanes from `64 * k` on.
fn columns_of(stimuli: &[Stimulus], input: usize, k: u32) -> Columns
    requires { (i : ℕ) → i < length stimuli.now → input < length (lane_at stimuli.now i).vector }
    ensures { (count i : ℕ) → IsWide input count stimuli.now → count ≤ 64 → i < 64
        → bits_of_planes count (slice_index result.value i) (slice_index result.unknown i) ≡ driven_value count (lane_at stimuli.now (64 * k + i)) input }
{
    let mut value = [0; 64];
    let mut unknown = [0; 64];
    for i in 0..64 {
        (value[i], unknown[i]) = planes_of(stimuli, input, 64 * k as usize + i);
    }
    Columns { value, unknown }
}

/// `bits` with the lowest bit of `word` at place `i`, counted from the least significant one. `bits` has 0 there.
#[inline]
pub fn with_lowest(bits: u64, word: u64, i: u32) -> u64
    requires place { i < 64 }
    requires clear { bit_at bits i ≡ 0 }
    ensures changed { bit_at result i ≡ word % 2 }
    ensures others { (n : ℕ) → n ≢ i → bit_at result n ≡ bit_at bits n }
{
    if word & 1 == 1 { bits | (1 << i) } else { bits }
}

/// The planes of an input of one bit in the 64 lanes from `64 * k` on: bit i of each is that of the i-th lane.
fn bits_of(stimuli: &[Stimulus], input: usize, k: u32) -> (u64, u64)
    requires { (i : ℕ) → i < length stimuli.now → input < length (lane_at stimuli.now i).vector }
    ensures { (i : ℕ) → IsWide input 1 stimuli.now → i < 64
        → decode (bit_at result.0 i == 1) (bit_at result.1 i == 1) ∷ [] ≡ driven_value 1 (lane_at stimuli.now (64 * k + i)) input }
{
    let mut value = 0;
    let mut unknown = 0;
    for i in 0..64 {
        let planes = planes_of(stimuli, input, 64 * k as usize + i as usize);
        value = with_lowest(value, planes.0, i);
        unknown = with_lowest(unknown, planes.1, i);
    }
    (value, unknown)
}

/// Packs an input into its pairs in the 64 lanes from `64 * k` on. The other lanes stay as they are.
fn feed_group<W: Lanes>(stimuli: &[Stimulus], input: usize, k: u32, pairs: &mut [Pair<W>])
    requires input { IsWide input (length pairs.old) stimuli.now }
    requires most { length pairs.old ≤ 64 }
    requires lanes { 64 * k + 64 ≤ W.LANES }
    ensures count { length pairs.new ≡ length pairs.old }
    ensures packed { (i : ℕ) → i < 64 → map (λ p. pair_lane W.lane p (64 * k + i)) pairs.new
        ≡ driven_value (length pairs.old) (lane_at stimuli.now (64 * k + i)) input }
    ensures others { (n : ℕ) → n < W.LANES → n / 64 ≢ k → map (λ p. pair_lane W.lane p n) pairs.new ≡ map (λ p. pair_lane W.lane p n) pairs.old }
{
    if pairs.len() == 1 {
        let (value, unknown) = bits_of(stimuli, input, k);
        let pair = pairs[0];
        pairs[0] = Pair {
            value: pair.value.with_sixty_four(k, value),
            unknown: pair.unknown.with_sixty_four(k, unknown),
        };
    } else {
        Pair::pack(pairs, k, &columns_of(stimuli, input, k));
    }
}

/// The pair with this bit, by its two planes, in lane 0, and x in the others.
#[inline]
fn lone_pair<W: Lanes>(value: bool, unknown: bool) -> Pair<W>
    requires { 0 < W.LANES }
    ensures first { pair_lane W.lane result 0 ≡ decode value unknown }
    ensures others { (i : ℕ) → 0 < i → i < W.LANES → pair_lane W.lane result i ≡ X }
{
    Pair {
        value: W::all().with(0, value),
        unknown: W::all().with(0, unknown),
    }
}

/// Packs an input of the only stimulus into its pairs, one for each bit.
fn feed_lone<W: Lanes>(stimuli: &[Stimulus], input: usize, pairs: &mut [Pair<W>])
    requires lone { length stimuli.now ≡ 1 }
    requires some { 0 < W.LANES }
    requires input { IsWide input (length pairs.old) stimuli.now }
    requires most { length pairs.old ≤ 64 }
    ensures count { length pairs.new ≡ length pairs.old }
    ensures packed { (i : ℕ) → i < W.LANES → map (λ p. pair_lane W.lane p i) pairs.new ≡ driven_value (length pairs.old) (lane_at stimuli.now i) input }
{
    let (value, unknown) = planes_of(stimuli, input, 0);
    for n in 0..pairs.len() {
        pairs[n] = lone_pair((value >> n) & 1 == 1, (unknown >> n) & 1 == 1);
    }
}

/// Packs an input into its pairs, one for each bit: of the only stimulus bit by bit, of more 64 lanes at a time.
fn feed_input<W: Lanes>(stimuli: &[Stimulus], input: usize, pairs: &mut [Pair<W>])
    requires some { 0 < W.LANES }
    requires input { IsWide input (length pairs.old) stimuli.now }
    requires most { length pairs.old ≤ 64 }
    ensures count { length pairs.new ≡ length pairs.old }
    ensures packed { (i : ℕ) → i < W.LANES → map (λ p. pair_lane W.lane p i) pairs.new ≡ driven_value (length pairs.old) (lane_at stimuli.now i) input }
{
    if stimuli.len() == 1 {
        feed_lone(stimuli, input, pairs);
        return;
    }
    for k in 0..W::LANES / 64 {
        feed_group(stimuli, input, k, pairs);
    }
}

/// Packs all inputs of the stimuli, of which there is one at least.
fn feed_inputs<W: Lanes>(stimuli: &[Stimulus], pairs: &mut [Pair<W>])
    requires width { W.LANES ≤ most_lanes }
    requires few { length stimuli.now ≤ W.LANES }
    requires some { 0 < length stimuli.now }
    requires lanes { AreLanes stimuli.now }
    requires bits { HaveBits (length pairs.old) stimuli.now }
    ensures { AreFed W.lane W.LANES (length pairs.old) stimuli.now pairs.new }
{
    let mut first = 0;
    for (input, value) in stimuli[0].vector().iter().enumerate() {
        let count = value.len() as usize;
        feed_input(stimuli, input, &mut pairs[first..first + count]);
        first += count;
    }
}

/// Packs the vectors of the stimuli that haven't ended.
pub(crate) fn feed_all<W: Lanes>(stimuli: &[Stimulus], pairs: &mut [Pair<W>])
    requires width { W.LANES ≤ most_lanes }
    requires few { length stimuli.now ≤ W.LANES }
    requires lanes { AreLanes stimuli.now }
    requires bits { HaveBits (length pairs.old) stimuli.now }
    ensures { (i : ℕ) → i < W.LANES → map (λ p. pair_lane W.lane p i) pairs.new ≡ driven (length pairs.old) (lane_at stimuli.now i) }
{
    if stimuli.is_empty() {
        for pair in pairs.iter_mut() {
            *pair = Pair::of_bit(Bit4::X);
        }
    } else {
        feed_inputs(stimuli, pairs);
    }
}

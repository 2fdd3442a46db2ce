//! What an output is wanted to be in all lanes, packed into planes.

ghost use Rattle.std.specs.Prelude.{◌≡◌, ◌≢◌, ℕ, ◌+◌, ◌*◌, ◌/◌, ◌<◌, ◌≤◌, ◌%◌, length, map, replicate, slice_index, Some, true, ◌==◌};
ghost use Rattle.std.specs.Int.{bit_at};
ghost use Rattle.vs_desk.specs.Places.{most_lanes};
ghost use Rattle.vs_four.specs.Planes.{bits_of_planes};
ghost use Rattle.vs_plane.specs.Lanes.{decode, pair_lane};
ghost use Rattle.vs_stim.specs.Wanted.{marked};
ghost use Rattle.vs_feed.specs.Lanes.{lane_at};
ghost use Rattle.vs_misses.specs.Watch.{place_in};
ghost use Rattle.vs_misses.specs.Rows.{wanted_in, digits_in, HaveDigits, IsUniform};

use vs_feed::{Drive, with_lowest};
use vs_plane::{Columns, Lanes, Pair};

/// What an output of at most 64 bits is wanted to be in each of 64 lanes, least significant bit first.
#[derive(Clone, Copy)]
struct Group {
    digits: Columns,
    /// 1 where a digit stands for any bit.
    any: [u64; 64],
}

/// The planes of the digits that an output is wanted to have in a lane, and a word with a 1 for each that stands for any bit: so do all where the lane has
/// no vector, or its header doesn't name the output.
#[inline]
fn planes_in(drive: &Drive, places: &[Option<u32>], lane: u32) -> (u64, u64, u64)
    requires long { length places.now ≡ length drive.now }
    requires within { (c : ℕ) → lane < length drive.now → place_in places.now lane ≡ Some c → c < length (lane_at drive.now lane).wanted }
    ensures { (count : ℕ) → count ≤ 64 → HaveDigits count places.now drive.now
        → marked (bits_of_planes count result.0 result.1) result.2 ≡ wanted_in count places.now (lane_at drive.now lane) lane }
{
    if lane >= drive.lanes() {
        return (0, 0, u64::MAX);
    }
    let stimulus = drive.stimulus(lane);
    if !stimulus.live() {
        return (0, 0, u64::MAX);
    }
    match places[lane as usize] {
        None => (0, 0, u64::MAX),
        Some(place) => stimulus.wanted()[place as usize].planes(),
    }
}

/// What an output is wanted to be in the 64 lanes from `64 * k` on.
fn group_of(drive: &Drive, places: &[Option<u32>], k: u32) -> Group
    requires long { length places.now ≡ length drive.now }
    requires within { (i c : ℕ) → i < length drive.now → place_in places.now i ≡ Some c → c < length (lane_at drive.now i).wanted }
    requires few { k < most_lanes }
    ensures { (count i : ℕ) → count ≤ 64 → HaveDigits count places.now drive.now → i < 64
        → marked (bits_of_planes count (slice_index result.digits.value i) (slice_index result.digits.unknown i)) (slice_index result.any i)
        ≡ wanted_in count places.now (lane_at drive.now (64 * k + i)) (64 * k + i) }
{
    let mut value = [0; 64];
    let mut unknown = [0; 64];
    let mut any = [0; 64];
    for i in 0..64 {
        (value[i], unknown[i], any[i]) = planes_in(drive, places, 64 * k + i as u32);
    }
    Group {
        digits: Columns { value, unknown },
        any,
    }
}

/// What an output of one bit is wanted to be in the 64 lanes from `64 * k` on: bit i of each word is that of the i-th lane, and of the third word it is 1
/// where the digit stands for any bit.
fn bits_of(drive: &Drive, places: &[Option<u32>], k: u32) -> (u64, u64, u64)
    requires long { length places.now ≡ length drive.now }
    requires within { (i c : ℕ) → i < length drive.now → place_in places.now i ≡ Some c → c < length (lane_at drive.now i).wanted }
    requires few { k < most_lanes }
    ensures { (i : ℕ) → HaveDigits 1 places.now drive.now → i < 64
        → marked (bits_of_planes 1 (bit_at result.0 i) (bit_at result.1 i)) (bit_at result.2 i) ≡ wanted_in 1 places.now (lane_at drive.now (64 * k + i)) (64 * k + i) }
{
    let mut value = 0;
    let mut unknown = 0;
    let mut any = 0;
    for i in 0..64 {
        let planes = planes_in(drive, places, 64 * k + i);
        value = with_lowest(value, planes.0, i);
        unknown = with_lowest(unknown, planes.1, i);
        any = with_lowest(any, planes.2, i);
    }
    (value, unknown, any)
}

/// The word of the lowest bits: bit i is that of word i.
fn lowest(words: &[u64; 64]) -> u64
    ensures { (i : ℕ) → i < 64 → bit_at result i ≡ slice_index words.now i % 2 }
{
    let mut bits = 0;
    for i in 0..64 {
        bits = with_lowest(bits, words[i], i as u32);
    }
    bits
}

/// Whether the word has the same bit everywhere.
#[inline]
fn is_uniform(word: u64) -> bool
    ensures { result ≡ true → IsUniform word }
{
    word == 0 || word == u64::MAX
}

/// Whether each word has the same bit everywhere.
fn are_uniform(words: &[u64; 64]) -> bool
    ensures { result ≡ true → (i : ℕ) → i < 64 → IsUniform (slice_index words.now i) }
{
    for i in 0..64 {
        if !is_uniform(words[i]) {
            return false;
        }
    }
    true
}

/// Gives each pair these planes in the 64 lanes from `64 * k` on. The other lanes stay as they are.
fn fill<W: Lanes>(pairs: &mut [Pair<W>], k: u32, value: u64, unknown: u64)
    requires { 64 * k + 64 ≤ W.LANES }
    ensures count { length pairs.new ≡ length pairs.old }
    ensures filled { (i : ℕ) → i < 64 → map (λ p. pair_lane W.lane p (64 * k + i)) pairs.new
        ≡ replicate (length pairs.old) (decode (bit_at value i == 1) (bit_at unknown i == 1)) }
    ensures others { (n : ℕ) → n < W.LANES → n / 64 ≢ k → map (λ p. pair_lane W.lane p n) pairs.new ≡ map (λ p. pair_lane W.lane p n) pairs.old }
{
    for n in 0..pairs.len() {
        let pair = pairs[n];
        pairs[n] = Pair {
            value: pair.value.with_sixty_four(k, value),
            unknown: pair.unknown.with_sixty_four(k, unknown),
        };
    }
}

/// Gives the pairs of `free` a 1 for each bit of these words, in the 64 lanes from `64 * k` on, and else 0. The other lanes stay as they are.
fn pack_any<W: Lanes>(free: &mut [Pair<W>], k: u32, any: &[u64; 64])
    requires most { length free.old ≤ 64 }
    requires lanes { 64 * k + 64 ≤ W.LANES }
    ensures count { length free.new ≡ length free.old }
    ensures packed { (i : ℕ) → i < 64 → map (λ p. pair_lane W.lane p (64 * k + i)) free.new ≡ bits_of_planes (length free.old) (slice_index any.now i) 0 }
    ensures others { (n : ℕ) → n < W.LANES → n / 64 ≢ k → map (λ p. pair_lane W.lane p n) free.new ≡ map (λ p. pair_lane W.lane p n) free.old }
{
    if are_uniform(any) {
        fill(free, k, lowest(any), 0);
    } else {
        let vectors = Columns {
            value: *any,
            unknown: [0; 64],
        };
        Pair::pack(free, k, &vectors);
    }
}

/// Packs what an output is wanted to be in the 64 lanes from `64 * k` on: a pair for each bit, and one with 1 where its digit stands for any. The other
/// lanes stay as they are.
fn pack_group<W: Lanes>(
    drive: &Drive,
    places: &[Option<u32>],
    k: u32,
    wanted: &mut [Pair<W>],
    free: &mut [Pair<W>],
)
    requires few { k < most_lanes }
    requires lanes { 64 * k + 64 ≤ W.LANES }
    requires long { length places.now ≡ length drive.now }
    requires digits { HaveDigits (length wanted.old) places.now drive.now }
    requires both { length free.old ≡ length wanted.old }
    requires most { length wanted.old ≤ 64 }
    ensures wanted { length wanted.new ≡ length wanted.old }
    ensures free { length free.new ≡ length free.old }
    ensures packed { (i : ℕ) → i < 64 → digits_in W.lane wanted.new free.new (64 * k + i)
        ≡ wanted_in (length wanted.old) places.now (lane_at drive.now (64 * k + i)) (64 * k + i) }
    ensures others { (n : ℕ) → n < W.LANES → n / 64 ≢ k → digits_in W.lane wanted.new free.new n ≡ digits_in W.lane wanted.old free.old n }
{
    if wanted.len() == 1 {
        let (value, unknown, any) = bits_of(drive, places, k);
        fill(wanted, k, value, unknown);
        fill(free, k, any, 0);
    } else {
        let group = group_of(drive, places, k);
        Pair::pack(wanted, k, &group.digits);
        pack_any(free, k, &group.any);
    }
}

/// Packs what an output is wanted to be in all lanes: a pair for each bit, and one with 1 where its digit stands for any.
pub(crate) fn pack_wanted<W: Lanes>(
    drive: &Drive,
    places: &[Option<u32>],
    wanted: &mut [Pair<W>],
    free: &mut [Pair<W>],
)
    requires width { W.LANES ≤ most_lanes }
    requires long { length places.now ≡ length drive.now }
    requires digits { HaveDigits (length wanted.old) places.now drive.now }
    requires both { length free.old ≡ length wanted.old }
    requires most { length wanted.old ≤ 64 }
    ensures wanted { length wanted.new ≡ length wanted.old }
    ensures free { length free.new ≡ length free.old }
    ensures packed { (i : ℕ) → i < W.LANES → digits_in W.lane wanted.new free.new i ≡ wanted_in (length wanted.old) places.now (lane_at drive.now i) i }
{
    for k in 0..W::LANES / 64 {
        pack_group(drive, places, k, wanted, free);
    }
}

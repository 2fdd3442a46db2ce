//! The vectors of 64 lanes at once.
ghost use Rattle.std.specs.Prelude.{◌≡◌, ◌≢◌, ℕ, ◌+◌, ◌*◌, ◌/◌, ◌<◌, ◌≤◌, ◌^◌, length, map, slice_index, All};
ghost use Rattle.vs_four.specs.Planes.{bits_of_planes};
ghost use Rattle.vs_plane.specs.Kernels.{lane_bits};
ghost use Rattle.vs_plane.specs.Lanes.{pair_lane};

use crate::file::PlaneFile;
use crate::filling_law;
use crate::pairs::Pair;
use crate::squares::columns;
use crate::traits::{Lanes, Word};

/// The two planes of a vector of at most 64 bits in each of 64 lanes: word i of each is that of the i-th lane, least significant bit first.
#[derive(Clone, Copy)]
pub struct Columns {
    /// 1 where the bit is 1 or x.
    pub value: [u64; 64],
    /// 1 where the bit is x or z.
    pub unknown: [u64; 64],
}

impl<W: Lanes> PlaneFile<W> {
    /// The vectors that the 64 lanes from `64 * k` on have in these slots. Past the last slot their planes are 0.
    pub fn columns(&self, slots: &[u32], k: u32) -> Columns
        requires below { All (λ slot. slot < length self.now) slots.now }
        requires most { length slots.now ≤ 64 }
        requires lanes { 64 * k + 64 ≤ W.LANES }
        ensures vectors { (i : ℕ) → i < 64 → bits_of_planes (length slots.now) (slice_index result.value i) (slice_index result.unknown i)
            ≡ lane_bits W.lane self.now slots.now (64 * k + i) }
        ensures value_below { (i : ℕ) → i < 64 → slice_index result.value i < 2 ^ length slots.now }
        ensures unknown_below { (i : ℕ) → i < 64 → slice_index result.unknown i < 2 ^ length slots.now }
    {
        filling_law::<W>();
        let mut value = [0; 64];
        let mut unknown = [0; 64];
        for (n, slot) in slots.iter().enumerate() {
            let pair = self.load(*slot);
            value[n] = pair.value.sixty_four(k);
            unknown[n] = pair.unknown.sixty_four(k);
        }
        let value = columns(&value);
        let unknown = columns(&unknown);
        Columns { value, unknown }
    }
}

impl<W: Lanes> Pair<W> {
    /// Gives the pairs the bits of these vectors, in the 64 lanes from `64 * k` on: pair n has bit n of each vector then. The other
    /// lanes stay as they are.
    pub fn pack(pairs: &mut [Pair<W>], k: u32, vectors: &Columns)
        requires most { length pairs.old ≤ 64 }
        requires lanes { 64 * k + 64 ≤ W.LANES }
        ensures count { length pairs.new ≡ length pairs.old }
        ensures packed { (i : ℕ) → i < 64 → map (λ p. pair_lane W.lane p (64 * k + i)) pairs.new
            ≡ bits_of_planes (length pairs.old) (slice_index vectors.now.value i) (slice_index vectors.now.unknown i) }
        ensures others { (n : ℕ) → n < W.LANES → n / 64 ≢ k
            → map (λ p. pair_lane W.lane p n) pairs.new ≡ map (λ p. pair_lane W.lane p n) pairs.old }
    {
        let value = columns(&vectors.value);
        let unknown = columns(&vectors.unknown);
        for n in 0..pairs.len() {
            let pair = pairs[n];
            pairs[n] = Pair {
                value: pair.value.with_sixty_four(k, value[n]),
                unknown: pair.unknown.with_sixty_four(k, unknown[n]),
            };
        }
    }
}

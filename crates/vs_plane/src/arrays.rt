//! Words of lanes as arrays of 64-bit words.
ghost use Rattle.std.specs.Prelude.{◌≡◌, ℕ, ◌<◌, ◌*◌, ◌-◌, ◌^◌, min, refl, length, slice_index, bit_and, bit_or, bit_xor, ◌==◌, ◌≢◌};
ghost use Rattle.std.specs.Int.{bit_at};
ghost use Rattle.vs_plane.specs.Bits.{bit_of_words};

use crate::traits::{Lanes, Word};

/// `K` words of 64 bits, with `64 * K` lanes, as far as a `u32` counts them. Lane i is bit i % 64 of word i / 64.
#[derive(Clone, Copy)]
pub struct Words<const K: usize> {
    pub(crate) words: [u64; K],
}

// The number of bits of this many words, as far as a `u32` counts them.
const fn lanes_of(words: usize) -> u32
    ensures { result ≡ 64 * min words (2 ^ 26 - 1) }
{
    if words < 67_108_864 {
        64 * words as u32
    } else {
        4_294_967_232
    }
}

impl<const K: usize> Word for Words<K> {
    ghost lane = { λ w. bit_of_words w.words };

    ghost LANES = { 64 * min K (2 ^ 26 - 1) };

    const LANES: u32 = lanes_of(K);

    #[inline]
    fn none() -> Self {
        Words { words: [0; K] }
    }

    #[inline]
    fn all() -> Self {
        Words {
            words: [u64::MAX; K],
        }
    }

    #[inline]
    fn not(self) -> Self {
        let mut words = [0; K];
        for k in 0..K {
            words[k] = !self.words[k];
        }
        Words { words }
    }

    #[inline]
    fn and(self, other: Self) -> Self {
        let mut words = [0; K];
        for k in 0..K {
            words[k] = self.words[k] & other.words[k];
        }
        Words { words }
    }

    #[inline]
    fn or(self, other: Self) -> Self {
        let mut words = [0; K];
        for k in 0..K {
            words[k] = self.words[k] | other.words[k];
        }
        Words { words }
    }

    #[inline]
    fn xor(self, other: Self) -> Self {
        let mut words = [0; K];
        for k in 0..K {
            words[k] = self.words[k] ^ other.words[k];
        }
        Words { words }
    }
}

impl<const K: usize> Lanes for Words<K> {
    #[inline]
    fn bit(self, i: u32) -> bool {
        (self.words[i as usize / 64] >> (i % 64)) & 1 == 1
    }

    #[inline]
    fn with(self, i: u32, bit: bool) -> Self {
        let mut words = self.words;
        let place = i as usize / 64;
        words[place] = with_bit(words[place], i % 64, bit);
        Words { words }
    }

    #[inline]
    fn sixty_four(self, k: u32) -> u64 {
        self.words[k as usize]
    }

    #[inline]
    fn with_sixty_four(self, k: u32, bits: u64) -> Self {
        let mut words = self.words;
        words[k as usize] = bits;
        Words { words }
    }

    #[inline]
    fn any(self) -> bool {
        let mut bits = 0;
        for k in 0..Self::LANES / 64 {
            bits |= self.words[k as usize];
        }
        bits != 0
    }

    ghost whole = { (min K (2 ^ 26 - 1), refl) };
}

// The word with this bit at place `i`.
fn with_bit(word: u64, i: u32, bit: bool) -> u64
    requires { i < 64 }
    ensures changed { (bit_at result i == 1) ≡ bit }
    ensures others { (k : ℕ) → k < 64 → k ≢ i → bit_at result k ≡ bit_at word k }
{
    if bit {
        word | (1 << i)
    } else {
        word & !(1 << i)
    }
}

//! A slot's two planes.
ghost use Rattle.std.specs.Prelude.{◌≡◌, ℕ, ◌<◌, ◌≢◌, not, ◌&&◌, ◌||◌, length, slice_get, if◌then◌else◌};
ghost use Rattle.vs_four.specs.Tables.{and_bit, casex_bit, casez_bit, is_known, is_one, is_z, merge_bit, not_bit, of_bool, or_bit, same, same_bit, xnor_bit, xor_bit};
ghost use Rattle.vs_plane.specs.Lanes.{decode, pair_lane, unknown_bit, value_bit};

use crate::traits::{Lanes, Word};
use vs_four::Bit4;

/// The two planes of a slot. Each lane is a four-valued bit, encoded by its bits of the value plane and of the unknown plane:
/// 0 is (0, 0), 1 is (1, 0), z is (0, 1) and x is (1, 1).
#[derive(Clone, Copy)]
pub struct Pair<W: Word> {
    /// 1 where the bit is 1 or x.
    pub value: W,
    /// 1 where the bit is x or z.
    pub unknown: W,
}

impl<W: Word> Pair<W> {
    /// The pair with this bit in every lane.
    pub fn of_bit(bit: Bit4) -> Self
        ensures { (i : ℕ) → i < W.LANES → pair_lane W.lane result i ≡ bit }
    {
        Pair {
            value: filled(value_of(bit)),
            unknown: filled(unknown_of(bit)),
        }
    }

    /// `~` in each lane (IEEE 1364-2005, table 5-16).
    #[inline]
    pub fn not(self) -> Self
        ensures { (i : ℕ) → i < W.LANES → pair_lane W.lane result i ≡ not_bit (pair_lane W.lane self i) }
    {
        Pair {
            value: self.value.not().or(self.unknown),
            unknown: self.unknown,
        }
    }

    // The lanes that aren't 0.
    #[inline]
    fn not_zero(self) -> W
        ensures { (i : ℕ) → i < W.LANES → W.lane result i ≡ (W.lane self.value i || W.lane self.unknown i) }
    {
        self.value.or(self.unknown)
    }

    /// The lanes that are 1.
    #[inline]
    pub fn one(self) -> W
        ensures planes { (i : ℕ) → i < W.LANES → W.lane result i ≡ (W.lane self.value i && not (W.lane self.unknown i)) }
        ensures lanes { (i : ℕ) → i < W.LANES → W.lane result i ≡ is_one (pair_lane W.lane self i) }
    {
        self.value.and(self.unknown.not())
    }

    /// The lanes that are 0 or 1.
    #[inline]
    pub fn known(self) -> W
        ensures { (i : ℕ) → i < W.LANES → W.lane result i ≡ is_known (pair_lane W.lane self i) }
    {
        self.unknown.not()
    }

    /// The pair with 1 in these lanes, and 0 in the others.
    #[inline]
    pub fn of_word(word: W) -> Self
        ensures { (i : ℕ) → i < W.LANES → pair_lane W.lane result i ≡ of_bool (W.lane word i) }
    {
        Pair {
            value: word,
            unknown: W::none(),
        }
    }

    /// The bits of `self` in these lanes, and those of `other` in the others.
    #[inline]
    pub fn in_lanes(self, lanes: W, other: Self) -> Self
        ensures { (i : ℕ) → i < W.LANES → pair_lane W.lane result i
            ≡ (if W.lane lanes i then pair_lane W.lane self i else pair_lane W.lane other i) }
    {
        let rest = lanes.not();
        Pair {
            value: self.value.and(lanes).or(other.value.and(rest)),
            unknown: self.unknown.and(lanes).or(other.unknown.and(rest)),
        }
    }

    /// `&` in each lane (IEEE 1364-2005, table 5-12).
    #[inline]
    pub fn and(self, other: Self) -> Self
        ensures { (i : ℕ) → i < W.LANES
            → pair_lane W.lane result i ≡ and_bit (pair_lane W.lane self i) (pair_lane W.lane other i) }
    {
        let value = self.not_zero().and(other.not_zero());
        Pair {
            value,
            unknown: value.and(self.unknown.or(other.unknown)),
        }
    }

    /// `|` in each lane (IEEE 1364-2005, table 5-13).
    #[inline]
    pub fn or(self, other: Self) -> Self
        ensures { (i : ℕ) → i < W.LANES
            → pair_lane W.lane result i ≡ or_bit (pair_lane W.lane self i) (pair_lane W.lane other i) }
    {
        let one = self.one().or(other.one());
        Pair {
            value: self.not_zero().or(other.not_zero()),
            unknown: self.unknown.or(other.unknown).and(one.not()),
        }
    }

    /// `^` in each lane (IEEE 1364-2005, table 5-14).
    #[inline]
    pub fn xor(self, other: Self) -> Self
        ensures { (i : ℕ) → i < W.LANES
            → pair_lane W.lane result i ≡ xor_bit (pair_lane W.lane self i) (pair_lane W.lane other i) }
    {
        let unknown = self.unknown.or(other.unknown);
        Pair {
            value: self.value.xor(other.value).or(unknown),
            unknown,
        }
    }

    /// `~^` in each lane (IEEE 1364-2005, table 5-15).
    #[inline]
    pub fn xnor(self, other: Self) -> Self
        ensures { (i : ℕ) → i < W.LANES
            → pair_lane W.lane result i ≡ xnor_bit (pair_lane W.lane self i) (pair_lane W.lane other i) }
    {
        self.xor(other).not()
    }

    /// One bit of `?:` under an unknown condition, in each lane (IEEE 1364-2005, table 5-21): equal known bits stay, all others are x.
    #[inline]
    pub fn merge(self, other: Self) -> Self
        ensures { (i : ℕ) → i < W.LANES
            → pair_lane W.lane result i ≡ merge_bit (pair_lane W.lane self i) (pair_lane W.lane other i) }
    {
        let differ = self.value.xor(other.value);
        let unknown = self.unknown.or(other.unknown).or(differ);
        Pair {
            value: self.value.or(unknown),
            unknown,
        }
    }

    // The lanes in which the two bits are not one.
    #[inline]
    fn differ(self, other: Self) -> W
        ensures { (i : ℕ) → i < W.LANES → W.lane result i ≡ not (same (pair_lane W.lane self i) (pair_lane W.lane other i)) }
    {
        self.value
            .xor(other.value)
            .or(self.unknown.xor(other.unknown))
    }

    // The lanes that are z.
    #[inline]
    fn high(self) -> W
        ensures { (i : ℕ) → i < W.LANES → W.lane result i ≡ is_z (pair_lane W.lane self i) }
    {
        self.unknown.and(self.value.not())
    }

    /// One bit of `===`, and of the match of `case`, in each lane (IEEE 1364-2005, 5.1.8, 9.5): 1 where the bits are as written.
    #[inline]
    pub fn same(self, other: Self) -> Self
        ensures { (i : ℕ) → i < W.LANES
            → pair_lane W.lane result i ≡ same_bit (pair_lane W.lane self i) (pair_lane W.lane other i) }
    {
        Pair::of_word(self.differ(other).not())
    }

    /// One bit of the match of `casez`, in each lane (IEEE 1364-2005, 9.5.1): as `same`, but a z on either side matches any bit.
    #[inline]
    pub fn matches_z(self, other: Self) -> Self
        ensures { (i : ℕ) → i < W.LANES
            → pair_lane W.lane result i ≡ casez_bit (pair_lane W.lane self i) (pair_lane W.lane other i) }
    {
        let free = self.high().or(other.high());
        Pair::of_word(free.or(self.differ(other).not()))
    }

    /// One bit of the match of `casex`, in each lane (IEEE 1364-2005, 9.5.1): as `same`, but an x or z on either side matches any bit.
    #[inline]
    pub fn matches_x(self, other: Self) -> Self
        ensures { (i : ℕ) → i < W.LANES
            → pair_lane W.lane result i ≡ casex_bit (pair_lane W.lane self i) (pair_lane W.lane other i) }
    {
        let free = self.unknown.or(other.unknown);
        Pair::of_word(free.or(self.differ(other).not()))
    }
}

impl<W: Lanes> Pair<W> {
    /// The pair with these bits in its lanes, that of lane 0 first.
    pub fn of_lanes(lanes: &[Bit4]) -> Self
        requires { length lanes.now ≡ W.LANES }
        ensures { (i : ℕ) → i < W.LANES → slice_get lanes.now i ≡ Some (pair_lane W.lane result i) }
    {
        let mut pair = Pair::of_bit(Bit4::Zero);
        for i in 0..W::LANES {
            pair = pair.with_lane(i, lanes[i as usize]);
        }
        pair
    }

    /// The bit in lane `i`.
    pub fn lane(self, i: u32) -> Bit4
        requires { i < W.LANES }
        ensures { result ≡ pair_lane W.lane self i }
    {
        match (self.value.bit(i), self.unknown.bit(i)) {
            (false, false) => Bit4::Zero,
            (true, false) => Bit4::One,
            (false, true) => Bit4::Z,
            (true, true) => Bit4::X,
        }
    }

    /// The pair with this bit in lane `i`, and the other lanes as they are.
    pub fn with_lane(self, i: u32, bit: Bit4) -> Self
        requires { i < W.LANES }
        ensures changed { pair_lane W.lane result i ≡ bit }
        ensures others { (k : ℕ) → k < W.LANES → k ≢ i
            → pair_lane W.lane result k ≡ pair_lane W.lane self k }
    {
        Pair {
            value: self.value.with(i, value_of(bit)),
            unknown: self.unknown.with(i, unknown_of(bit)),
        }
    }
}

// The word with this bit in every lane.
fn filled<W: Word>(bit: bool) -> W
    ensures { (i : ℕ) → i < W.LANES → W.lane result i ≡ bit }
{
    if bit { W::all() } else { W::none() }
}

// The bit of the value plane.
fn value_of(bit: Bit4) -> bool
    ensures { result ≡ value_bit bit }
{
    match bit {
        Bit4::Zero | Bit4::Z => false,
        Bit4::One | Bit4::X => true,
    }
}

// The bit of the unknown plane.
fn unknown_of(bit: Bit4) -> bool
    ensures { result ≡ unknown_bit bit }
{
    match bit {
        Bit4::Zero | Bit4::One => false,
        Bit4::Z | Bit4::X => true,
    }
}

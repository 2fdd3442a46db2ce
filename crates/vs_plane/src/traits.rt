//! Words of lanes, and their operations.
ghost use Rattle.std.specs.Prelude.{◌≡◌, ℕ, ◌+◌, ◌*◌, ◌/◌, ◌<◌, Bool, true, false, not, ◌&&◌, ◌||◌, ◌≢◌, ◌≤◌, ◌==◌};
ghost use Rattle.std.specs.Int.{bit_at};
ghost use Rattle.vs_plane.specs.Bits.{differ};

/// A word of `LANES` bits, one a lane. Its operations go bit by bit, and none of them shows a bit.
pub trait Word: Copy {
    // The bit of each lane below `LANES`.
    ghost lane: { Self → ℕ → Bool };

    // How many lanes there are.
    ghost LANES: { ℕ };

    /// How many lanes the word has.
    const LANES: u32;

    /// The word with 0 in every lane.
    fn none() -> Self
        ensures { (i : ℕ) → i < LANES → lane result i ≡ false };

    /// The word with 1 in every lane.
    fn all() -> Self
        ensures { (i : ℕ) → i < LANES → lane result i ≡ true };

    /// Not, in each lane.
    fn not(self) -> Self
        ensures { (i : ℕ) → i < LANES → lane result i ≡ not (lane self i) };

    /// And, in each lane.
    fn and(self, other: Self) -> Self
        ensures { (i : ℕ) → i < LANES → lane result i ≡ (lane self i && lane other i) };

    /// Or, in each lane.
    fn or(self, other: Self) -> Self
        ensures { (i : ℕ) → i < LANES → lane result i ≡ (lane self i || lane other i) };

    /// Exclusive or, in each lane.
    fn xor(self, other: Self) -> Self
        ensures { (i : ℕ) → i < LANES → lane result i ≡ differ (lane self i) (lane other i) };
}

/// A word whose lanes can be read and changed one by one, and 64 at a time.
pub trait Lanes: Word {
    /// The bit of lane `i`.
    fn bit(self, i: u32) -> bool
        requires { i < Self.LANES }
        ensures { result ≡ Self.lane self i };

    /// The word with this bit in lane `i`, and the other lanes as they are.
    fn with(self, i: u32, bit: bool) -> Self
        requires { i < Self.LANES }
        ensures changed { Self.lane result i ≡ bit }
        ensures others { (k : ℕ) → k < Self.LANES → k ≢ i → Self.lane result k ≡ Self.lane self k };

    /// The bits of the 64 lanes from `64 * k` on: bit i is that of lane `64 * k + i`.
    fn sixty_four(self, k: u32) -> u64
        requires { 64 * k + 64 ≤ Self.LANES }
        ensures { (i : ℕ) → i < 64 → (bit_at result i == 1) ≡ Self.lane self (64 * k + i) };

    /// The word with these bits in the 64 lanes from `64 * k` on, and the other lanes as they are.
    fn with_sixty_four(self, k: u32, bits: u64) -> Self
        requires { 64 * k + 64 ≤ Self.LANES }
        ensures changed { (i : ℕ) → i < 64 → Self.lane result (64 * k + i) ≡ (bit_at bits i == 1) }
        ensures others { (n : ℕ) → n < Self.LANES → n / 64 ≢ k → Self.lane result n ≡ Self.lane self n };

    /// Whether the bit of some lane is 1.
    fn any(self) -> bool
        ensures none { result ≡ false → (i : ℕ) → i < Self.LANES → Self.lane self i ≡ false }
        ensures some { result ≡ true → (i : ℕ) × (i < Self.LANES) × (Self.lane self i ≡ true) };

    // There are 64 lanes, or so many times 64.
    ghost whole: { (groups : ℕ) × (Self.LANES ≡ 64 * groups) };
}

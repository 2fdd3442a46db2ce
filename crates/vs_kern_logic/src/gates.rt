//! Operators on one bit and on two, and the store of a value of one bit.
ghost use Rattle.std.specs.Prelude.{◌≡◌, ℕ, ◌+◌, ◌<◌, length, [], ◌∷◌};
ghost use Rattle.vs_plane.specs.Kernels.{AreTargets, KeepsOthers, lane_bits};
ghost use Rattle.vs_plane.specs.Lanes.{pair_lane};
ghost use Rattle.vs_kern_logic.specs.Gates.{first_bit, fold_bit, gate_bit, output_bit};

use std::sync::ledger::Ledger;
use vs_four::Bit4;
use vs_plane::{Pair, PlaneFile, Steps, Word, filling_law};

/// An operator on two bits.
#[derive(Clone, Copy)]
pub(crate) enum Gate {
    /// `&` (IEEE 1364-2005, table 5-12)
    And,
    /// `|` (table 5-13)
    Or,
    /// `^` (table 5-14)
    Xor,
    /// `~^` (table 5-15)
    Xnor,
    /// One bit of `===` (5.1.8)
    Same,
    /// One bit of the match of `casez` (9.5.1)
    MatchesZ,
    /// One bit of the match of `casex` (9.5.1)
    MatchesX,
}

impl Gate {
    /// The gate in each lane.
    #[inline]
    pub(crate) fn apply<W: Word>(self, a: Pair<W>, b: Pair<W>) -> Pair<W>
        ensures { (i : ℕ) → i < W.LANES → pair_lane W.lane result i ≡ gate_bit self (pair_lane W.lane a i) (pair_lane W.lane b i) }
    {
        match self {
            Gate::And => a.and(b),
            Gate::Or => a.or(b),
            Gate::Xor => a.xor(b),
            Gate::Xnor => a.xnor(b),
            Gate::Same => a.same(b),
            Gate::MatchesZ => a.matches_z(b),
            Gate::MatchesX => a.matches_x(b),
        }
    }
}

/// An operator that all bits of a vector are folded with (IEEE 1364-2005, 5.1.11).
#[derive(Clone, Copy)]
pub(crate) enum Fold {
    /// `&`
    All,
    /// `|`
    Any,
    /// `^`
    Parity,
}

impl Fold {
    /// The bit that the fold begins with.
    #[inline]
    pub(crate) fn first(self) -> Bit4
        ensures { result ≡ first_bit self }
    {
        match self {
            Fold::All => Bit4::One,
            Fold::Any | Fold::Parity => Bit4::Zero,
        }
    }

    /// The operator in each lane.
    #[inline]
    pub(crate) fn apply<W: Word>(self, a: Pair<W>, b: Pair<W>) -> Pair<W>
        ensures { (i : ℕ) → i < W.LANES → pair_lane W.lane result i ≡ fold_bit self (pair_lane W.lane a i) (pair_lane W.lane b i) }
    {
        match self {
            Fold::All => a.and(b),
            Fold::Any => a.or(b),
            Fold::Parity => a.xor(b),
        }
    }
}

/// The bits, inverted where this says so, in each lane.
#[inline]
pub(crate) fn output<W: Word>(inverted: bool, pair: Pair<W>) -> Pair<W>
    ensures { (i : ℕ) → i < W.LANES → pair_lane W.lane result i ≡ output_bit inverted (pair_lane W.lane pair i) }
{
    if inverted { pair.not() } else { pair }
}

/// Gives the one slot of a value its bit.
pub(crate) fn store_bit<W: Word, L: Ledger>(
    file: &mut PlaneFile<W>,
    to: &[u32],
    scratch: &[u32],
    pair: Pair<W>,
    steps: &mut Steps<L>,
)
    requires targets { AreTargets (length file.old) to.now scratch.now }
    requires to_length { length to.now ≡ 1 }
    ensures value { (i : ℕ) → i < W.LANES → lane_bits W.lane file.new to.now i ≡ pair_lane W.lane pair i ∷ [] }
    ensures others { KeepsOthers to.now scratch.now file.old file.new }
    ensures ticked { steps.new ≡ steps.old + 1 }
{
    filling_law::<W>();
    file.store(to[0], pair, steps);
}

//! `?:` and the join of `if` (IEEE 1364-2005, 5.1.13 and 9.4), one store a bit.
ghost use Rattle.std.specs.Prelude.{◌≡◌, ℕ, ◌+◌, ◌<◌, length, [], ◌∷◌};
ghost use Rattle.vs_four.specs.Logic.{map2};
ghost use Rattle.vs_plane.specs.Kernels.{AreTargets, Computes, Fills, IsArgument, lane_bits, ternary};
ghost use Rattle.vs_plane.specs.Lanes.{pair_lane};
ghost use Rattle.vs_kern_select.specs.declared.costs.Kernel.TheVariants.{Branch, Choose};
ghost use Rattle.vs_kern_select.specs.Costs.{cost_of};
ghost use Rattle.vs_kern_select.specs.Matches.{chosen_bit};
ghost use Rattle.vs_kern_select.specs.Operators.{branch, choose};

use std::sync::ledger::Ledger;
use vs_kern_logic::truth;
use vs_plane::{Pair, PlaneFile, Steps, Word, filling_law};

/// `c ? p : q` (IEEE 1364-2005, 5.1.13): p where the truth of the condition is 1, q where it is 0, and where it is unknown the known bits in
/// which both are equal, and else x.
pub fn choose<W: Word, L: Ledger>(
    file: &mut PlaneFile<W>,
    c: &[u32],
    p: &[u32],
    q: &[u32],
    to: &[u32],
    scratch: &[u32],
    steps: &mut Steps<L>,
)
    requires targets { AreTargets (length file.old) to.now scratch.now }
    requires c { IsArgument (length file.old) c.now to.now scratch.now }
    requires p { IsArgument (length file.old) p.now to.now scratch.now }
    requires q { IsArgument (length file.old) q.now to.now scratch.now }
    requires p_length { length p.now ≡ length to.now }
    requires q_length { length q.now ≡ length to.now }
    ensures computes { Computes W.lane W.LANES (ternary choose) (c.now ∷ p.now ∷ q.now ∷ []) to.now scratch.now file.old file.new }
    ensures ticked { steps.new ≡ steps.old + cost_of Choose (length c.now ∷ length p.now ∷ length q.now ∷ length to.now ∷ []) }
{
    filling_law::<W>();
    let condition = truth(file, c);
    choose_bits(
        condition.one(),
        condition.not().one(),
        file,
        p,
        q,
        to,
        scratch,
        steps,
    );
}

/// What stands after `if (c)` where its branches leave `p` and `q` (IEEE 1364-2005, 9.4): p where the truth of the condition is 1, and q where
/// it is 0 or unknown.
pub fn branch<W: Word, L: Ledger>(
    file: &mut PlaneFile<W>,
    c: &[u32],
    p: &[u32],
    q: &[u32],
    to: &[u32],
    scratch: &[u32],
    steps: &mut Steps<L>,
)
    requires targets { AreTargets (length file.old) to.now scratch.now }
    requires c { IsArgument (length file.old) c.now to.now scratch.now }
    requires p { IsArgument (length file.old) p.now to.now scratch.now }
    requires q { IsArgument (length file.old) q.now to.now scratch.now }
    requires p_length { length p.now ≡ length to.now }
    requires q_length { length q.now ≡ length to.now }
    ensures computes { Computes W.lane W.LANES (ternary branch) (c.now ∷ p.now ∷ q.now ∷ []) to.now scratch.now file.old file.new }
    ensures ticked { steps.new ≡ steps.old + cost_of Branch (length c.now ∷ length p.now ∷ length q.now ∷ length to.now ∷ []) }
{
    filling_law::<W>();
    let taken = truth(file, c).one();
    choose_bits(taken, taken.not(), file, p, q, to, scratch, steps);
}

/// The bits of `p` in the lanes of `first`, those of `q` in the other lanes of `second`, and in the rest the known bits in which both are
/// equal, and else x.
fn choose_bits<W: Word, L: Ledger>(
    first: W,
    second: W,
    file: &mut PlaneFile<W>,
    p: &[u32],
    q: &[u32],
    to: &[u32],
    scratch: &[u32],
    steps: &mut Steps<L>,
)
    requires targets { AreTargets (length file.old) to.now scratch.now }
    requires p { IsArgument (length file.old) p.now to.now scratch.now }
    requires q { IsArgument (length file.old) q.now to.now scratch.now }
    requires p_length { length p.now ≡ length to.now }
    requires q_length { length q.now ≡ length to.now }
    ensures fills { Fills W.lane W.LANES (λ i. map2 (chosen_bit (W.lane first i) (W.lane second i)) (lane_bits W.lane file.old p.now i) (lane_bits W.lane file.old q.now i)) to.now (length to.now) file.old file.new }
    ensures ticked { steps.new ≡ steps.old + length to.now }
{
    filling_law::<W>();
    for (k, slot) in to.iter().enumerate() {
        let pair = chosen(first, second, file.load(p[k]), file.load(q[k]));
        file.store(*slot, pair, steps);
    }
}

/// The bits of `p` in the lanes of `first`, those of `q` in the other lanes of `second`, and in the rest the two merged.
#[inline]
fn chosen<W: Word>(first: W, second: W, p: Pair<W>, q: Pair<W>) -> Pair<W>
    ensures { (i : ℕ) → i < W.LANES → pair_lane W.lane result i
        ≡ chosen_bit (W.lane first i) (W.lane second i) (pair_lane W.lane p i) (pair_lane W.lane q i) }
{
    p.in_lanes(first, q.in_lanes(second, p.merge(q)))
}

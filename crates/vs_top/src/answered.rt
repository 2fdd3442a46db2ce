//! What is kept of the lanes of a check beside an outcome.

ghost use Rattle.std.specs.Prelude.{◌≡◌, ◌≤◌, [], length};
ghost use Rattle.vs_desk.specs.Places.{most_lanes};
ghost use Rattle.vs_top.specs.declared.outcome.Summary.{Summary};
ghost use Rattle.vs_top.specs.declared.outcome.Outcome.TheVariants.{Done};
ghost use Rattle.vs_top.specs.Reported.{OnStopped};

use crate::outcome::{Answered, Outcome};
use std::alloc::Global;
use vs_plane::Lanes;
use vs_rounds::Checker;

/// An outcome of which no lane is kept.
pub(crate) fn nothing_kept(alloc: Global, outcome: Outcome) -> Answered
    ensures outcome { result.outcome ≡ outcome }
    ensures none { result.found.items ≡ [] }
{
    Answered {
        outcome,
        found: Vec::new(alloc),
    }
}

/// The outcome of a check, and what was found in its lanes where it is done.
pub(crate) fn found_kept<W: Lanes>(alloc: Global, outcome: Outcome, checker: Checker<W>) -> Answered
    ensures outcome { result.outcome ≡ outcome }
    ensures done { (s : Summary) → outcome ≡ Done s → result.found.items ≡ checker.misses.found }
    ensures stopped { OnStopped outcome (result.found.items ≡ []) }
    ensures few { length result.found.items ≤ most_lanes }
{
    match outcome {
        Outcome::Done(summary) => Answered {
            outcome: Outcome::Done(summary),
            found: checker.into_found(),
        },
        other => nothing_kept(alloc, other),
    }
}

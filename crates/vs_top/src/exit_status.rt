//! The status that the program ends with.

ghost use Rattle.std.specs.Prelude.{◌≡◌};
ghost use Rattle.vs_top.specs.Outcomes as spec;

use crate::outcome::Outcome;

/// The status for an outcome: 0 where it is done, but 1 for a check in which a lane missed something, 2
/// for the refusals 1 and 2, 3 for those from 3 to 69, 4 for those from 70 to 79, 5 for a fault while
/// reading, 6 for one while writing, and 7 where there was no memory.
pub fn status(outcome: &Outcome) -> u8
    ensures { result ≡ spec.status outcome.now }
{
    match outcome {
        Outcome::Done(summary) => match summary.missed {
            None | Some(0) => 0,
            Some(_) => 1,
        },
        Outcome::Ordered(_) => 0,
        Outcome::Refused(refusal) => match refusal.number() {
            0..=2 => 2,
            3..=69 => 3,
            _ => 4,
        },
        Outcome::ReadFault { .. } => 5,
        Outcome::WriteFault { .. } => 6,
        Outcome::Memory => 7,
    }
}

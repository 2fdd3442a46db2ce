//! The outcomes of errors.

ghost use Rattle.std.specs.Prelude.{◌≡◌, ◌<◌};
ghost use Rattle.vs_desk.specs.Places.{most_lanes};
ghost use Rattle.vs_rounds.specs.Stops.{IsLaneOf};
ghost use Rattle.vs_top.specs.Answers as spec;
ghost use Rattle.vs_top.specs.Ended.{IsStopped};

use crate::outcome::Outcome;
use vs_desk::{FIRST_STIMULUS, FIRST_WAVEFORM};
use vs_refusal::{BareName, LaneName, LineName, Refusal};
use vs_rounds::Stop;
use vs_setup::SetupError;
use vs_stim::StimError;

/// The stimulus of a lane can't be read on.
pub(crate) fn stimulus_outcome(lane: u32, error: StimError) -> Outcome
    requires { lane < most_lanes }
    ensures outcome { result ≡ spec.stimulus_outcome lane error }
    ensures stopped { IsStopped result }
{
    let name = match error {
        StimError::BadHeader => LaneName::BadHeader,
        StimError::NoExpectation => LaneName::NoExpectation,
        StimError::FirstUnknown => LaneName::FirstUnknown,
        StimError::NoVector => LaneName::NoVector,
        StimError::TooManyVectors => LaneName::TooManyVectors,
        StimError::StimulusTooLong => LaneName::StimulusTooLong,
        StimError::BadVector { line } => {
            return Outcome::Refused(Refusal::Line(LineName::BadVector, lane, line));
        }
        StimError::UnknownReset { line } => {
            return Outcome::Refused(Refusal::Line(LineName::UnknownReset, lane, line));
        }
        StimError::UnknownSelect { line } => {
            return Outcome::Refused(Refusal::Line(LineName::UnknownSelect, lane, line));
        }
        StimError::LineTooLong { line } => {
            return Outcome::Refused(Refusal::Line(LineName::LineTooLong, lane, line));
        }
        StimError::ReadFault => return Outcome::ReadFault {
            place: FIRST_STIMULUS + lane,
        },
        StimError::Memory => return Outcome::Memory,
    };
    Outcome::Refused(Refusal::Lane(name, lane))
}

/// A run can't begin.
pub(crate) fn setup_outcome(error: SetupError) -> Outcome
    requires { spec.IsSmallError error }
    ensures outcome { result ≡ spec.setup_outcome error }
    ensures stopped { IsStopped result }
{
    match error {
        SetupError::TooLong => Outcome::Refused(Refusal::Bare(BareName::TooLong)),
        SetupError::Refused(refusal) => Outcome::Refused(refusal),
        SetupError::Stimulus { lane, error } => stimulus_outcome(lane, error),
        SetupError::ReadFault { place } => Outcome::ReadFault { place },
        SetupError::Memory => Outcome::Memory,
    }
}

/// A run stops in a round.
pub(crate) fn stop_outcome(stop: Stop) -> Outcome
    requires { IsLaneOf most_lanes stop }
    ensures outcome { result ≡ spec.stop_outcome stop }
    ensures stopped { IsStopped result }
{
    match stop {
        Stop::Refused { lane, error } => stimulus_outcome(lane, error),
        Stop::ReadFault { lane } => Outcome::ReadFault {
            place: FIRST_STIMULUS + lane,
        },
        Stop::WriteFault { lane } => Outcome::WriteFault {
            place: FIRST_WAVEFORM + lane,
        },
    }
}

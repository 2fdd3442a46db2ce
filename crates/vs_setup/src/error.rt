//! Why a run or a check can't begin.

ghost use Rattle.std.specs.Prelude.{◌≡◌};
ghost use Rattle.vs_setup.specs.declared.error.SetupError.TheVariants.{Memory};
ghost use Rattle.vs_setup.specs.Unprepared.{accept_error, design_error};

use crate::design_text::DesignError;
use std::alloc::AllocError;
use thiserror::Error;
use vs_accept::AcceptError;
use vs_refusal::Refusal;
use vs_stim::StimError;

/// Why a run or a check can't begin.
#[derive(Debug, Drop, Error)]
pub enum SetupError {
    /// 3: the design has more than 4,194,304 bytes, with the lines of the macros before it.
    #[error("the design is too long")]
    TooLong,
    /// 10 to 66: the text is no design, or its design breaks a rule. Places are told behind the lines of the macros.
    #[error("the design is refused")]
    Refused(Refusal),
    /// 70, 75 or 76: a lane's stimulus is refused at a line up to its header. 79: its header names no output, though in a check it has to.
    #[error("lane {lane}: {error}")]
    Stimulus { lane: u32, error: StimError },
    /// A call on the desk failed at this place.
    #[error("place {place} can't be read")]
    ReadFault { place: u32 },
    /// Memory ran out.
    #[error("out of memory")]
    Memory,
}

impl From<AllocError> for SetupError {
    ghost from_gives = { λ _ e. e ≡ Memory };

    fn from(_error: AllocError) -> SetupError {
        SetupError::Memory
    }
}

impl From<DesignError> for SetupError {
    ghost from_gives = { λ d e. e ≡ design_error d };

    fn from(error: DesignError) -> SetupError {
        match error {
            DesignError::TooLong => SetupError::TooLong,
            DesignError::ReadFault { place } => SetupError::ReadFault { place },
            DesignError::Memory => SetupError::Memory,
        }
    }
}

impl SetupError {
    /// The error of a text that isn't accepted, whose places are told behind so many bytes.
    pub(crate) fn unaccepted(error: AcceptError, bytes: u32) -> SetupError
        ensures { result ≡ accept_error bytes error }
    {
        match error {
            AcceptError::Refused(refusal) => SetupError::Refused(refusal.behind(bytes)),
            AcceptError::Memory => SetupError::Memory,
        }
    }
}

//! Why a stimulus is refused.

ghost use Rattle.std.specs.Prelude.{◌≡◌};
ghost use Rattle.vs_stim.specs.declared.error.StimError.TheVariants.{ReadFault, Memory};

use std::alloc::AllocError;
use thiserror::Error;
use vs_desk::Failed;

/// Why a stimulus gives no further vector. Lines count from 1, skipped ones too.
#[derive(Clone, Copy, PartialEq, Eq, Debug, Error)]
pub enum StimError {
    /// 70: no line but skipped ones, or the first of the others is no header.
    #[error("the first line that counts isn't a header")]
    BadHeader,
    /// 79: the header names no output, though it has to.
    #[error("the header names no output")]
    NoExpectation,
    /// 71: a line behind the header is no vector.
    #[error("line {line} isn't a vector")]
    BadVector { line: u64 },
    /// 72: the first vector has an x or z digit.
    #[error("the first vector has an unknown digit")]
    FirstUnknown,
    /// 73: no line behind the header counts.
    #[error("the header has no vector behind it")]
    NoVector,
    /// 74: there are more than 16,777,216 vectors.
    #[error("there are too many vectors")]
    TooManyVectors,
    /// 77: a vector behind the first has an x or z digit of a reset input.
    #[error("line {line} has an unknown digit of a reset")]
    UnknownReset { line: u64 },
    /// 78: a vector behind the first has an x or z digit of a select input.
    #[error("line {line} has an unknown digit of a select input")]
    UnknownSelect { line: u64 },
    /// 75: a byte behind the first 4,294,967,296 belongs to the line being read.
    #[error("the text has too many bytes")]
    StimulusTooLong,
    /// 76: the line has more than 65,536 bytes before its LF.
    #[error("line {line} has too many bytes")]
    LineTooLong { line: u64 },
    /// A call on the desk failed.
    #[error("the text can't be read")]
    ReadFault,
    /// Memory ran out.
    #[error("out of memory")]
    Memory,
}

impl From<Failed> for StimError {
    ghost from_gives = { λ _ e. e ≡ ReadFault };

    fn from(_failed: Failed) -> StimError {
        StimError::ReadFault
    }
}

impl From<AllocError> for StimError {
    ghost from_gives = { λ _ e. e ≡ Memory };

    fn from(_error: AllocError) -> StimError {
        StimError::Memory
    }
}

//! Why a design is refused at time zero.

use std::alloc::AllocError;
use thiserror::Error;

/// Why the blocks of a design are refused at time zero.
#[derive(Clone, Copy, PartialEq, Eq, Debug, Error)]
pub enum ZeroError {
    /// This combinational block, the first such, might not be started before its nets settle: it doesn't surely sleep, it isn't quiet, and nothing that it waits on surely wakes it. It begins at token `at`.
    #[error("process {process} might not be started at time zero")]
    TimeZero { process: u32, at: u32 },
    /// There was not enough memory.
    #[error("out of memory")]
    Memory,
}

impl From<AllocError> for ZeroError {
    ghost use Rattle.std.specs.Prelude.{◌≡◌};
    ghost use Rattle.vs_zero.specs.declared.error.ZeroError.TheVariants.{Memory};

    ghost from_gives = { λ _ e. e ≡ Memory };

    fn from(_error: AllocError) -> ZeroError {
        ZeroError::Memory
    }
}

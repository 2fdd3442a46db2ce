//! Why a design has a race of clocked blocks.

use std::alloc::AllocError;
use thiserror::Error;

/// Why a clocked block of a design may see a bit as it was or as it becomes at the edge.
#[derive(Clone, Copy, PartialEq, Eq, Debug, Error)]
pub enum RaceError {
    /// The clocked block `process`, which begins at token `at`, reads the bit, and that depends on what another clocked block writes by a blocking assignment. It is the least such process, and of its bits the least one.
    #[error("process {process} reads bit {bit}, which another clocked block stirs")]
    Race { process: u32, bit: u32, at: u32 },
    /// There was not enough memory.
    #[error("out of memory")]
    Memory,
}

impl From<AllocError> for RaceError {
    ghost use Rattle.std.specs.Prelude.{◌≡◌};
    ghost use Rattle.vs_race.specs.declared.error.RaceError.TheVariants.{Memory};

    ghost from_gives = { λ _ e. e ≡ Memory };

    fn from(_error: AllocError) -> RaceError {
        RaceError::Memory
    }
}

//! Why a design has no level order.

use std::alloc::AllocError;
use thiserror::Error;

/// Why a design has no level order.
#[derive(Debug, Drop, Error)]
pub enum LevelError {
    /// Assigns and combinational blocks feed one another in a circle: each of `processes` writes a bit that the next one reads or waits on, the last one for the first, which has the least number. The first one begins at token `at`.
    #[error("processes feed one another in a circle")]
    Cycle { processes: Vec<u32>, at: u32 },
    /// There was not enough memory.
    #[error("out of memory")]
    Memory,
}

impl From<AllocError> for LevelError {
    ghost use Rattle.std.specs.Prelude.{◌≡◌};
    ghost use Rattle.vs_level.specs.declared.error.LevelError.TheVariants.{Memory};

    ghost from_gives = { λ _ e. e ≡ Memory };

    fn from(_error: AllocError) -> LevelError {
        LevelError::Memory
    }
}

//! Why a design has no lawful clocks.

use std::alloc::AllocError;
use thiserror::Error;

/// Why the clocks of a design, or a reset, are refused. Of several rules that are broken it is the first in this order, and of several processes the first one; it begins at token `at`.
#[derive(Clone, Copy, PartialEq, Eq, Debug, Error)]
pub enum ClockError {
    /// The top has no one-bit input of one of these names, or a name is there twice.
    #[error("the top has no such clock")]
    NoClock,
    /// The process reads or waits on a clock net, and isn't an assign that hands it on.
    #[error("process {process} reads the clock")]
    ClockRead { process: u32, at: u32 },
    /// The events of this clocked block are others than one posedge of a clock net, or that and one edge of a reset net (IEEE 1364-2005, 9.7.2).
    #[error("process {process} has another clock")]
    NotTheClock { process: u32, at: u32 },
    /// This block has a reset among its events, and not the form of a block with a reset.
    #[error("process {process} has not the form of a reset")]
    ResetForm { process: u32, at: u32 },
    /// There was not enough memory.
    #[error("out of memory")]
    Memory,
}

impl From<AllocError> for ClockError {
    ghost use Rattle.std.specs.Prelude.{◌≡◌};
    ghost use Rattle.vs_clock.specs.declared.error.ClockError.TheVariants.{Memory};

    ghost from_gives = { λ _ e. e ≡ Memory };

    fn from(_error: AllocError) -> ClockError {
        ClockError::Memory
    }
}

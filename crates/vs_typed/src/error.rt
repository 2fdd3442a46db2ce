//! Why a length of a design, or its size, is refused.

use std::alloc::AllocError;
use thiserror::Error;

/// Why a design has a length, a division or a size that can't be run. Of several processes, initial ones among them, it is the first in the text that has such a place, and in it the least place; TooLarge comes only where none has one.
#[derive(Clone, Copy, PartialEq, Eq, Debug, Error)]
pub enum WidthError {
    /// An expression or a target is over 64 bits (IEEE 1364-2005, 5.4). It begins at token `at`.
    #[error("over 64 bits")]
    TooWide { at: u32 },
    /// A `/` or `%` has an operand that names a signal (IEEE 1364-2005, 5.1.5). Its first operand begins at token `at`.
    #[error("a division at run time")]
    Division { at: u32 },
    /// The size of the design is over 16,777,216. It is the size without what sleeping blocks add, where that is over the limit already; one of 2^64 or more is told as 2^64 - 1.
    #[error("a size of {size}")]
    TooLarge { size: u64 },
    /// There was not enough memory.
    #[error("out of memory")]
    Memory,
}

impl From<AllocError> for WidthError {
    ghost use Rattle.std.specs.Prelude.{◌≡◌};
    ghost use Rattle.vs_typed.specs.declared.error.WidthError.TheVariants.{Memory};

    ghost from_gives = { λ _ e. e ≡ Memory };

    fn from(_error: AllocError) -> WidthError {
        WidthError::Memory
    }
}

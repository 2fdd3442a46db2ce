//! Why a constant has no value.

use crate::faults::Fault;
use std::alloc::AllocError;
use thiserror::Error;

/// Why a constant has no value.
#[derive(Clone, Copy, Debug, PartialEq, Eq, Error)]
pub enum ConstError {
    /// The first rule that is broken: of several the one at the least token, and there the one with the least number.
    #[error("rule {} is broken at token {}", .0.rule.number(), .0.place)]
    Broken(Fault),
    /// There was not enough memory.
    #[error("out of memory")]
    Memory,
}

impl From<AllocError> for ConstError {
    ghost use Rattle.std.specs.Prelude.{◌≡◌};
    ghost use Rattle.vs_const.specs.declared.error.ConstError.TheVariants as fault;

    ghost from_gives = { λ _ e. e ≡ fault.Memory };

    fn from(_error: AllocError) -> ConstError {
        ConstError::Memory
    }
}

//! Why a text is not elaborated.

use std::alloc::AllocError;
use thiserror::Error;
use vs_const::Fault;

/// Why a text has no design.
#[derive(Clone, Copy, PartialEq, Eq, Debug, Error)]
pub enum ElabError {
    /// A rule is broken (IEEE 1364-2005, clauses 4, 5, 6, 9, 10 and 12): the first one of the first scope that breaks any, in the order in which scopes
    /// are read. Its place is the number of a token.
    #[error("rule {} is broken", .0.rule.number())]
    Broken(Fault),
    /// There was not enough memory.
    #[error("out of memory")]
    Memory,
}

impl From<AllocError> for ElabError {
    ghost use Rattle.std.specs.Prelude.{◌≡◌};
    ghost use Rattle.vs_elab.specs.declared.error.ElabError.TheVariants.{Memory};

    ghost from_gives = { λ _ e. e ≡ Memory };

    fn from(_error: AllocError) -> ElabError {
        ElabError::Memory
    }
}

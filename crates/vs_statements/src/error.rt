//! What may be wrong with the tokens of a text.

use std::alloc::{AllocError, AllocFailed};
use thiserror::Error;

/// Why the tokens of a text are not read as a tree. Each number is that of a token; behind the last one stands the end of the text,
/// which counts as one more.
#[derive(Clone, Copy, Debug, PartialEq, Eq, Error)]
pub enum ParseError {
    /// This token is the first that is left out of the language.
    #[error("token {0} is left out")]
    LeftOut(u32),
    /// This token is the first with which no list of tokens that the grammar derives goes on.
    #[error("syntax error at token {0}")]
    Syntax(u32),
    /// A list that the grammar derives goes on with this token, but none that has at most 200 levels.
    #[error("too deep at token {0}")]
    TooDeep(u32),
    /// There was not enough memory.
    #[error("out of memory")]
    Memory,
}

impl From<AllocError> for ParseError {
    ghost use Rattle.std.specs.Prelude.{◌≡◌};
    ghost use Rattle.vs_statements.specs.declared.error.ParseError.TheVariants as fault;

    ghost from_gives = { λ _ e. e ≡ fault.Memory };

    fn from(_error: AllocError) -> ParseError {
        ParseError::Memory
    }
}

impl<T: Drop> From<AllocFailed<T>> for ParseError {
    ghost use Rattle.std.specs.Prelude.{◌≡◌};
    ghost use Rattle.vs_statements.specs.declared.error.ParseError.TheVariants as fault;

    ghost from_gives = { λ _ e. e ≡ fault.Memory };

    fn from(_error: AllocFailed<T>) -> ParseError {
        ParseError::Memory
    }
}

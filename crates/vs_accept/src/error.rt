//! Why a text is not accepted.

ghost use Rattle.std.specs.Prelude.{◌≡◌};
ghost use Rattle.vs_accept.specs.declared.error.AcceptError.TheVariants.{Memory};
ghost use Rattle.vs_accept.specs.Refused.{macro_refusal, token_refusal};
ghost use Rattle.vs_accept.specs.Answers.{refusal_in};

use std::alloc::AllocError;
use thiserror::Error;
use vs_lexer::LexError;
use vs_pre::PreError;
use vs_refusal::{AtName, Refusal};

/// Why a text is not accepted.
#[derive(Debug, Drop, Error)]
pub enum AcceptError {
    /// The text is no design, or its design breaks a rule.
    #[error("the text is refused")]
    Refused(Refusal),
    /// There was not enough memory.
    #[error("out of memory")]
    Memory,
}

impl From<AllocError> for AcceptError {
    ghost from_gives = { λ _ e. e ≡ Memory };

    fn from(_error: AllocError) -> AcceptError {
        AcceptError::Memory
    }
}

impl From<LexError> for AcceptError {
    ghost from_gives = { λ l e. refusal_in e ≡ token_refusal l };

    fn from(error: LexError) -> AcceptError {
        match error {
            LexError::NoToken(at) => AcceptError::Refused(Refusal::At(AtName::NoToken, at)),
            LexError::OpenComment(at) => AcceptError::Refused(Refusal::At(AtName::OpenComment, at)),
            LexError::BadLiteral(at) => AcceptError::Refused(Refusal::At(AtName::BadLiteral, at)),
            LexError::TooManyTokens(at) => {
                AcceptError::Refused(Refusal::At(AtName::TooManyTokens, at))
            }
            LexError::Memory => AcceptError::Memory,
        }
    }
}

impl From<PreError> for AcceptError {
    ghost from_gives = { λ p e. refusal_in e ≡ macro_refusal p };

    fn from(error: PreError) -> AcceptError {
        match error {
            PreError::BadDirective(at) => {
                AcceptError::Refused(Refusal::At(AtName::BadDirective, at))
            }
            PreError::UnknownMacro(at) => {
                AcceptError::Refused(Refusal::At(AtName::UnknownMacro, at))
            }
            PreError::MacroLoop(at) => AcceptError::Refused(Refusal::At(AtName::MacroLoop, at)),
            PreError::MacroArguments(at) => {
                AcceptError::Refused(Refusal::At(AtName::MacroArguments, at))
            }
            PreError::MacroLimit(at) => AcceptError::Refused(Refusal::At(AtName::MacroLimit, at)),
            PreError::BadLiteral(at) => AcceptError::Refused(Refusal::At(AtName::BadLiteral, at)),
            PreError::Memory => AcceptError::Memory,
        }
    }
}

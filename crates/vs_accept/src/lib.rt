//! What a text is: an accepted design, or refused by the first rule that it breaks.
#![tactic(auto)]

mod acceptance;
mod accepted;
mod error;
mod judge;
mod laws;
mod leaving;
mod numbers;
mod outputs;
mod places;
mod verdicts;

pub use acceptance::accept;
pub use accepted::Accepted;
pub use error::AcceptError;
pub use laws::answer_law;
pub use vs_lexer::MAX_BYTES;

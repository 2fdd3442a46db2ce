//! Puts on a desk what an answer of a run says to a person.
#![tactic(auto)]

mod endings;
mod heavy;
mod joined;
mod looks;
mod missed;
mod ports;
mod refusals;

pub use endings::{explain_ending, explain_usage};
pub use missed::explain_done;
pub use refusals::explain_refusal;

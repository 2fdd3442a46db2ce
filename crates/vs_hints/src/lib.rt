//! What refusals say to a person.
#![tactic(auto)]

mod hints;

pub use hints::{closing, opening, remedy};

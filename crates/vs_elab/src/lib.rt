//! Elaboration (IEEE 1364-2005, clause 12): from the tree of a text and the name of its top to a flat design, or to the first rule that is broken.
#![tactic(auto)]

mod error;
mod functions;
mod limits;
mod opened;
mod opening;
mod parts;
mod pending;
mod reading;
mod scoped;
mod stack;
mod steps;
mod surveyed;
mod whole;
mod wiring;

pub use error::ElabError;
pub use whole::flatten;

//! The rule on races of clocked blocks: none reads at an edge what another one stirs there (IEEE 1364-2005, 9.2 and 11.5).
#![tactic(auto)]

mod error;
mod rule;
mod stirrer;
mod table;

pub use error::RaceError;
pub use rule::races;

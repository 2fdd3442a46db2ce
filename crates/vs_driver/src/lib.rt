//! Single drivers: no bit of a design is written by two processes, or twice by one assign, and initial processes write beside clocked blocks alone.
#![tactic(auto)]

mod clashes;
mod drivers;
mod error;
mod marks;
mod settled;
mod single;
mod starts;
mod table;
mod writers;

pub use error::DriverError;
pub use single::check;

//! Stimulus texts: a header, and one vector of four-valued digits for each clock period.
#![tactic(auto)]

mod block;
mod digits;
mod error;
mod header;
mod heading;
mod input;
pub mod laws;
mod plain;
mod row;
mod source;
mod stimulus;
mod vectors;
mod wanted;
mod wants;

pub use error::StimError;
pub use input::{Column, Expected, Input, Name, Output, Ports};
pub use stimulus::Stimulus;
pub use wanted::{Digit, Wanted};

//! One stimulus, run on the standard's event queue (IEEE 1364-2005, clause 11): its vectors, read whole, and the waveform of the run that a number chooses.
#![tactic(auto)]

mod reading;
mod traced;

pub use reading::{Unread, read_vectors};
pub use traced::{Traced, run_vectors};

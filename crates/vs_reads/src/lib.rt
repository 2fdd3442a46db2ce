//! The bits that each process of a design reads, writes and waits on (IEEE 1364-2005, 9.7.5 and 11.6.1).
#![tactic(auto)]

mod gather;
mod laws;
mod lists;
mod processes;

pub use laws::footprint_law;
pub use lists::Footprints;
pub use processes::{fit_initial, fit_process, footprints};

//! The program of a design, put together from the calls of its processes (IEEE 1364-2005, clause 11).
#![tactic(auto)]

mod assembling;
mod cones;
mod frames;
mod laws;
mod lowering;
mod planning;
mod processes;
mod runs;

pub use assembling::{Frame, assemble};
pub use frames::frame;
pub use laws::copy_law;
pub use lowering::Lowering;
pub use planning::registers;
pub use processes::Processes;

//! Straight programs: lists of kernel calls, and their execution in every lane at once.
#![tactic(auto)]

mod bits;
mod kernels;
mod laws;
mod ops;
mod placed;
mod program;

pub use kernels::AnyKernel;
pub use laws::{sequence_law, weight_law};
pub use ops::Op;
pub use program::Program;

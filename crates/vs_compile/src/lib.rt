//! Compiles an accepted design to straight programs over planes (IEEE 1364-2005, clause 11).
#![tactic(auto)]

mod awake;
mod compiling;
mod facts;
mod lowerer;
mod nets;
mod processes;
mod resets;
mod resetting;
mod sleeper;
mod tables;

pub use compiling::compile;

//! The bench: a design and stimuli of any number, made to measure a run.
#![tactic(auto)]

mod files;
mod laws;
mod texts;

pub use files::{bench_desk, bench_job};
pub use laws::{bench_law, length_law};

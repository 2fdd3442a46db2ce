//! The top call: a job from its words to its waveforms, or to what its lanes missed, and to its report line.
#![tactic(auto)]

mod answered;
mod bench_call;
mod checking;
mod errors;
mod exit_status;
mod outcome;
mod queueing;
mod report_line;
mod run_call;
mod simulation;
mod verdicts;

pub use bench_call::bench;
pub use exit_status::status;
pub use outcome::{Answered, Course, Outcome, Summary};
pub use report_line::report;
pub use run_call::{answer, run, simulate};

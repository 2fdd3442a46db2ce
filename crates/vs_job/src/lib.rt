//! The words of the command line: the job or the bench that they call for, and the paths of a job.
#![tactic(auto)]

mod bench;
mod defines;
mod job;
mod laws;
mod paths;
mod places;
mod text;
mod words;

pub use bench::{Bench, read_bench};
pub use job::{Job, JobError, Mode, read_job};
pub use laws::{apart_law, bench_law, job_law, places_law, rows_law, same_paths_law};
pub use paths::{queue_paths, stimulus_paths, vcd_paths};
pub use places::same_paths;
pub use text::{Text, Texts};

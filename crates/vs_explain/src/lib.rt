//! A run that explains its answer.
#![tactic(auto)]

mod explain;

pub use explain::explain_run;

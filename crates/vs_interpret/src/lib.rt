//! Expressions, targets and statements of a flat design, evaluated on plain values of its bits (IEEE 1364-2005, clauses 5, 9 and 10).
#![tactic(auto)]

mod calls;
mod cases;
mod evaluator;
mod processes;
mod public;
mod statements;
mod targets;
mod values;
mod words;

pub use processes::{assigned, run_block, run_initial};
pub use public::{assigned_value, assignment_writes, own_value, run, value};

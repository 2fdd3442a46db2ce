//! Trees of the text as nodes of the flat design (IEEE 1364-2005, clauses 5, 6 and 9).
#![tactic(auto)]

mod assigns;
mod blocks;
mod builder;
mod expressions;
mod functions;
mod items;
mod laws;
mod loops;
mod names;
mod outputs;
mod statements;
mod steady;
mod targets;
mod values;

pub use assigns::{assign, input_port, wire};
pub use blocks::{always, always_within, initial};
pub use builder::Builder;
pub use functions::function;
pub use items::{assign_each, wire_each};
pub use laws::fine_law;
pub use outputs::output_port;
pub use values::value;

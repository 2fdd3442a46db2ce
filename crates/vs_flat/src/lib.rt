//! An elaborated design as an arena (IEEE 1364-2005, clause 12): scopes, signals, processes, initial processes, functions, expressions and statements, each kind numbered from 0 in the order in which they were added.
#![tactic(auto)]

mod bits;
mod expressions;
mod flat;
mod functions;
mod laws;
mod order;
mod placed;
mod processes;
mod statements;

pub use bits::{bits_of, count_bits, length_of, range_bits};
pub use expressions::Node;
pub use flat::Flat;
pub use functions::{Body, Declared, Function};
pub use laws::{
    adding_law, calls_law, different_law, example_law, lawful_law, leaving_law, names_law,
    rows_law, text_law, trees_law,
};
pub use order::text_order;
pub use placed::Placed;
pub use processes::{AnyProcess, Event, Initial, Kind, Port, Process, Scope, Signal, has_edge};
pub use statements::{Arm, Statement};

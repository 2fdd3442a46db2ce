//! The event queue of a design, executed (IEEE 1364-2005, clause 11).
#![tactic(auto)]

mod drive;
mod first;
mod laws;
mod machine;
mod opening;
mod ordered;
mod parts;
mod plain;
mod run;
mod seeds;
mod starts;
mod turns;
mod vector;
mod wires;

pub use laws::{
    chosen_law, first_law, keeping_law, listeners_law, longest_law, once_law, possible_law,
    running_law,
};
pub use ordered::ordered_run;
pub use plain::plain_run;
pub use vector::Vector;
pub use vs_writes::Ends;

//! The whole text of a value change dump (IEEE 1364-2005, clause 18), from the values of all bits at the end of each slot.
#![tactic(auto)]

mod lines;
mod slots;
mod text;

pub use text::dump;

//! The top of a text (IEEE 1364-2005, 12.1.1), and the flat design from it.
#![tactic(auto)]

mod designs;
mod laws;
mod named;
mod tops;

pub use designs::flatten_by;
pub use laws::top_law;
pub use tops::top_name;

//! The level order of a design: each assign and combinational block after all that feed it, or a cycle of them (IEEE 1364-2005, 11.3).
#![tactic(auto)]

mod error;
mod feeders;
mod graph;
mod level;
mod ordering;
mod search;
mod turn;
mod writers;

pub use error::LevelError;
pub use level::order;
pub use ordering::Order;

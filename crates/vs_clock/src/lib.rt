//! The clock nets and the reset nets of a design, and the rules on them (IEEE 1364-2005, 9.7.2).
#![tactic(auto)]

mod clocked;
mod clocks;
mod compared;
mod dead;
mod error;
mod events;
mod first;
mod form;
mod inputs;
mod marks;
mod nets;
mod ports;
mod resets;
mod roots;
mod rules;
mod spread;
mod targets;

pub use clocked::check;
pub use clocks::Clocks;
pub use dead::dead_blocks;
pub use error::ClockError;
pub use inputs::are_same;
pub use resets::Reset;

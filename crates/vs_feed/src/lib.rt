//! The stimuli of all lanes: read by lane, and packed into planes.
#![tactic(auto)]

mod column;
mod drive;
mod opening;
mod reading;

pub use column::with_lowest;
pub use drive::{Drive, open};
pub use reading::Stopped;

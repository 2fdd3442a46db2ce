//! The rules on functions and blocks: a function keeps no value, a combinational block has no nonblocking assignment, waits on all that it reads, and keeps no bit; an initial process reads nothing.
#![tactic(auto)]

mod block;
mod error;
mod flags;
mod functions;
mod latches;
mod missing;
mod mixed;
mod nodes;
mod paths;
mod targets;

pub use block::block_forms;
pub use error::BlockError;

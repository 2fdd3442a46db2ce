//! What stands before the first vector of a run or a check: the design is read and accepted, the stimuli are opened, the engine is made, and all memory is taken.
#![tactic(auto)]

mod checking;
mod design_text;
mod error;
mod inputs;
mod loading;
mod setup;

pub use checking::{PreparedCheck, prepare_check};
pub use error::SetupError;
pub use loading::{Loaded, engine_of, load, read_ports};
pub use setup::{Opened, Prepared, open_job, prepare};

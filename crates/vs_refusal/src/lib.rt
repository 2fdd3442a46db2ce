//! Why a run was refused, and the line that says so.
#![tactic(auto)]

mod ending;
mod miss;
mod names;
mod processes;
mod refusal;
mod report;

pub use ending::Ending;
pub use miss::Miss;
pub use names::{AtName, BareName, LaneName, LineName, ProcessName};
pub use processes::Processes;
pub use refusal::{Field, Label, Refusal};

//! A design of which no length is refused, and its size (IEEE 1364-2005, 5.4 and 5.5).
#![tactic(auto)]

mod constant;
mod design;
mod error;
mod functions;
mod laws;
mod least;
mod nodes;
mod operators;
mod places;
mod refused;
mod sizes;
mod statements;
mod sums;
mod targets;
mod typed;
mod weights;
mod words;
mod written;

pub use constant::is_fixed;
pub use design::{process_weights, type_design};
pub use error::WidthError;
pub use laws::fits_law;
use laws::unrefused_law;
pub use typed::Typed;

//! What lanes miss of what their stimuli want of outputs, compared in planes.
#![tactic(auto)]

mod comparing;
mod finding;
mod kept;
pub mod laws;
mod looking;
mod misses;
mod packing;
mod row;
mod text;

pub use finding::Finding;
pub use misses::Misses;
pub use text::DigitText;

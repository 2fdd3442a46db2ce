//! Names for the numbers of an elaborated design, and places for its processes.
#![tactic(auto)]

mod bits;
mod drawing;
mod indices;
mod laws;
mod scopes;

pub use drawing::Drawing;
pub use laws::place_law;

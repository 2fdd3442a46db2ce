//! Values by names and by places, and sets of names.
#![tactic(auto)]

mod maps;
mod places;
mod sets;

pub use maps::NameMap;
pub use places::PlaceMap;
pub use sets::NameSet;

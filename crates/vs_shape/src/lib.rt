//! Lengths and signs of a design's expressions (IEEE 1364-2005, 5.4 and 5.5).
#![tactic(auto)]

mod ascending;
mod bits;
mod bodies;
mod nodes;
mod places;
mod shape;
mod shapes;
mod values;
mod walks;
mod words;

pub use ascending::{ascend, is_among};
pub use bodies::Walk;
pub use nodes::{copy_count, first_copy, local_of, node_of, statement_of};
pub use places::{Part, Places, places_of};
pub use shape::Shape;
pub use shapes::Shapes;
pub use words::{addresses_of, word_place, word_start};

//! What trees, arenas and definitions of a design share: operators, edges, kinds of `case`, and lists.
#![tactic(auto)]

mod applied;
mod contexts;
mod events;
mod lists;
mod operators;
mod values;

pub use contexts::Context;
pub use events::{CaseKind, Edge};
pub use lists::{List, Text};
pub use operators::{BinaryOp, UnaryOp, Way};
pub use values::{choose, copies, extended, extended_literal, selected};

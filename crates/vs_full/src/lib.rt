//! Which cases of a design are full: whether the items of a case match every known value of its selector (IEEE 1364-2005, 9.5).
#![tactic(auto)]

mod cases;
mod full;
mod patterns;
mod roots;
mod search;
mod selector;
mod selects;

pub use cases::Cases;
pub use search::covers;

//! A file that is read again, and the design that its text elaborates to.
#![tactic(auto)]

mod again;
mod drawing;

pub use again::{
    AgainError, DESIGN_AGAIN, STIMULUS_AGAIN, read_again, read_lane, read_lines, read_other,
};
pub use drawing::draw;

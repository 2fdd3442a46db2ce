//! Places of a text as a reader counts them, and lines of it with a caret, written on a page.
#![tactic(auto)]

mod excerpt;
mod page;
mod positions;

pub use excerpt::push_excerpt;
pub use page::Page;
pub use positions::{column, line_before, line_behind, line_number};

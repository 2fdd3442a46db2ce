//! Sets of values that the bits of a design may have: of expressions, and after statements.
#![tactic(auto)]

mod bits;
mod bitwise;
mod bodies;
mod branches;
mod calls;
mod cases;
mod contexts;
mod defaults;
mod flags;
mod folds;
mod laws;
mod lift;
mod lifter;
mod lifts;
mod list;
mod operators;
mod quiet;
mod set4;
mod sleepers;
mod table;
mod targets;
mod twice;
mod values;
mod words;

pub use bodies::{run, statement_node};
pub use branches::{put_back, sets_of};
pub use cases::last_arm;
pub use contexts::{case_context, own_context};
pub use defaults::Defaults;
pub use laws::at_once_law;
pub use lifter::{Span, named_span, span_of};
pub use list::SetList;
pub use quiet::leaves_x;
pub use set4::Set4;
pub use sleepers::sleeping;
pub use table::{are_only_x, fill};
pub use targets::assign;
pub use words::{Memory, memory_of, word_start};

//! Statements, and what is assigned to: the rules that they break, with each turn of a loop by itself, and how many statements loops copy (IEEE
//! 1364-2005, clause 9 and 10.4).
#![tactic(auto)]

mod blocks;
mod controls;
mod integers;
mod layers;
mod reads;
mod said;
mod statements;
mod targets;
mod told;
mod turns;
mod values;
mod walk;
mod words;

pub use blocks::{Block, block_of};
pub use controls::{check_control, is_clocked};
pub use integers::{is_variable_among, is_variable_in, uses};
pub use layers::{Alone, Inner, Layers, Local, Surroundings, in_block, in_turn};
pub use reads::{block_unheard, signals_read, value_unheard};
pub use said::{StatementSaid, check_statement};
pub use statements::BodyKind;
pub use targets::{check_selected, check_target};
pub use turns::{Given, Tested, given_by, tested_by};
pub use values::assigned;

//! Resolves macros and conditional parts of a text, between its tokens and its syntax tree (IEEE 1364-2005, clause 19).
#![tactic(auto)]

mod arguments;
mod attributes;
mod branch;
mod budget;
mod define;
mod error;
mod expansion;
mod laws;
mod lines;
mod names;
mod reader;
mod roles;
mod sizes;
mod table;
mod words;

pub use error::PreError;
pub use laws::{attributes_law, kept_law, pre_law};
pub use reader::preprocess;

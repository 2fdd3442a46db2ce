//! Reads the tokens of a design text as a syntax tree (IEEE 1364-2005, annex A).
#![tactic(auto)]

mod declarations;
mod functions;
mod instances;
mod items;
mod modules;
mod processes;
mod whole;

pub use vs_statements::ParseError;
pub use whole::parse;

//! The grammar of design texts (IEEE 1364-2005, annex A).
#![tactic(auto)]

pub mod laws;

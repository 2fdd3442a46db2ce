//! Tests of values: vectors and their operators.
#![tactic(auto)]

#[cfg(test)]
mod digits;
#[cfg(test)]
mod vectors;

//! Tests of whole runs over a desk in memory on which calls fail, and of the lines of outcomes.
#![tactic(auto)]

#[cfg(test)]
mod checks;
#[cfg(test)]
mod faults;
#[cfg(test)]
mod reports;
#[cfg(test)]
mod runs;

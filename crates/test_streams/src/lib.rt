//! Tests of streams: desks in memory and over the host's files, and the lines of refusals.
#![tactic(auto)]

#[cfg(test)]
mod desks;
#[cfg(test)]
mod refusals;

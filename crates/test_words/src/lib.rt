//! The words of the command line, declared for `clap`, beside the reading of `vs_job`.
#![tactic(auto)]

#[cfg(test)]
mod command;
#[cfg(test)]
mod help;
#[cfg(test)]
mod lines;

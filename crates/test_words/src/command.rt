//! The words of the command line, declared for `clap`.

use clap::{Arg, ArgAction, Command, value_parser};
use std::alloc::{AllocError, Global};

/// A value behind a word of its own.
fn named<'a>(alloc: Global, name: &'a str, value: &'a str, help: &'a str) -> Arg<'a> {
    Arg::new(alloc, name)
        .long(name)
        .value_name(value)
        .help(help)
}

/// A value by its place.
fn placed<'a>(alloc: Global, name: &'a str, value: &'a str, help: &'a str) -> Arg<'a> {
    Arg::new(alloc, name).value_name(value).help(help)
}

/// The words behind `run`, `check` or `queue` but for the stimuli, and what it is about.
fn job<'a>(alloc: Global, name: &'a str, about: &'a str) -> Result<Command<'a>, AllocError> {
    Command::new(alloc, name)
        .disable_help_flag(true)
        .about(about)
        .arg(named(
            alloc,
            "top",
            "T",
            "The name of the top module, by default the one that no instance names",
        ))?
        .arg(named(
            alloc,
            "clock",
            "C[,C]..",
            "The names of the top's clock inputs, if it has any",
        ))?
        .arg(
            named(alloc, "half", "H", "Half a clock period, from 1 to 1000000")
                .value_parser(value_parser!(u32).range(1..=1_000_000))
                .default_value("5"),
        )?
        .arg(named(
            alloc,
            "define",
            "NAME[=TEXT]",
            "A macro that is defined before the design's text, up to 64 of them",
        )
        .action(ArgAction::Append))?
        .arg(named(
            alloc,
            "with",
            "PATH",
            "A further file of the design, read behind it, up to 64 of them",
        )
        .action(ArgAction::Append))?
        .arg(placed(alloc, "design", "DESIGN", "The path of the design").required(true))
}

/// The paths of 1 to 256 stimuli.
fn stimuli<'a>(alloc: Global) -> Arg<'a> {
    placed(alloc, "stimuli", "STIM", "The paths of 1 to 256 stimuli")
        .required(true)
        .num_args(1..=256)
        .action(ArgAction::Append)
}

/// `--share`.
fn share<'a>(alloc: Global) -> Arg<'a> {
    Arg::new(alloc, "share")
        .long("share")
        .help("One identifier code in a waveform for all signals that ports join")
        .action(ArgAction::SetTrue)
}

/// The words behind `run`.
pub fn run<'a>(alloc: Global, name: &'a str) -> Result<Command<'a>, AllocError> {
    let command = job(
        alloc,
        name,
        "Runs a design under stimuli, and writes a waveform beside each",
    )?;
    command.arg(stimuli(alloc))?.arg(share(alloc))
}

/// The words behind `check`.
pub fn check<'a>(alloc: Global, name: &'a str) -> Result<Command<'a>, AllocError> {
    let command = job(
        alloc,
        name,
        "Compares a design's outputs with what stimuli want of them, and writes no file",
    )?;
    command.arg(stimuli(alloc))
}

/// The words behind `queue`.
pub fn queue<'a>(alloc: Global, name: &'a str) -> Result<Command<'a>, AllocError> {
    let command = job(
        alloc,
        name,
        "Runs a design under one stimulus by the event queue, and writes a waveform beside it",
    )?;
    command
        .arg(placed(alloc, "stimuli", "STIM", "The path of the stimulus").required(true))?
        .arg(
            named(
                alloc,
                "order",
                "N",
                "The order of the queue's steps, from 0 to 18446744073709551615",
            )
            .required(true)
            .value_parser(value_parser!(u64)),
        )
}

/// The words behind `bench`.
pub fn bench<'a>(alloc: Global, name: &'a str) -> Result<Command<'a>, AllocError> {
    Command::new(alloc, name)
        .disable_help_flag(true)
        .about("Runs a design and stimuli of its own, in memory")
        .arg(
            placed(
                alloc,
                "vectors",
                "N",
                "The vectors of each lane, from 1 to 1000",
            )
            .required(true)
            .value_parser(value_parser!(u32).range(1..=1_000)),
        )?
        .arg(
            placed(alloc, "lanes", "L", "The lanes, from 1 to 256")
                .value_parser(value_parser!(u32).range(1..=256))
                .default_value("64"),
        )
}

/// All words behind the program's own name.
pub fn cyclesim<'a>(alloc: Global) -> Result<Command<'a>, AllocError> {
    let run = run(alloc, "run")?;
    let words = Command::new(alloc, "cyclesim")
        .about("A Verilog simulator whose waveforms are proved")
        .disable_help_flag(true)
        .disable_help_subcommand(true)
        .subcommand_required(true)
        .subcommand(run)?;
    words
        .subcommand(check(alloc, "check")?)?
        .subcommand(queue(alloc, "queue")?)?
        .subcommand(bench(alloc, "bench")?)
}

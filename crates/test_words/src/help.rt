//! The help that `clap` has for the declared words, which README shows.

use crate::command::{bench, check, queue, run};
use std::alloc::{AllocError, Global};
use std::test::Fail;

/// The help of the words behind `run`.
const RUN: &str = "\
Runs a design under stimuli, and writes a waveform beside each

Usage: cyclesim run [OPTIONS] <DESIGN> <STIM>...

Arguments:
  <DESIGN>   The path of the design
  <STIM>...  The paths of 1 to 256 stimuli

Options:
      --top <T>               The name of the top module, by default the one that no instance names
      --clock <C[,C]..>       The names of the top's clock inputs, if it has any
      --half <H>              Half a clock period, from 1 to 1000000 [default: 5]
      --define <NAME[=TEXT]>  A macro that is defined before the design's text, up to 64 of them
      --with <PATH>           A further file of the design, read behind it, up to 64 of them
      --share                 One identifier code in a waveform for all signals that ports join
";

/// The help of the words behind `check`.
const CHECK: &str = "\
Compares a design's outputs with what stimuli want of them, and writes no file

Usage: cyclesim check [OPTIONS] <DESIGN> <STIM>...

Arguments:
  <DESIGN>   The path of the design
  <STIM>...  The paths of 1 to 256 stimuli

Options:
      --top <T>               The name of the top module, by default the one that no instance names
      --clock <C[,C]..>       The names of the top's clock inputs, if it has any
      --half <H>              Half a clock period, from 1 to 1000000 [default: 5]
      --define <NAME[=TEXT]>  A macro that is defined before the design's text, up to 64 of them
      --with <PATH>           A further file of the design, read behind it, up to 64 of them
";

/// The help of the words behind `queue`.
const QUEUE: &str = "\
Runs a design under one stimulus by the event queue, and writes a waveform beside it

Usage: cyclesim queue [OPTIONS] --order <N> <DESIGN> <STIM>

Arguments:
  <DESIGN>  The path of the design
  <STIM>    The path of the stimulus

Options:
      --top <T>               The name of the top module, by default the one that no instance names
      --clock <C[,C]..>       The names of the top's clock inputs, if it has any
      --half <H>              Half a clock period, from 1 to 1000000 [default: 5]
      --define <NAME[=TEXT]>  A macro that is defined before the design's text, up to 64 of them
      --with <PATH>           A further file of the design, read behind it, up to 64 of them
      --order <N>             The order of the queue's steps, from 0 to 18446744073709551615
";

/// The help of the words behind `bench`.
const BENCH: &str = "\
Runs a design and stimuli of its own, in memory

Usage: cyclesim bench <N> [L]

Arguments:
  <N>  The vectors of each lane, from 1 to 1000
  [L]  The lanes, from 1 to 256 [default: 64]
";

/// The help text of `run`, of `check`, of `queue` or of `bench`.
fn help(alloc: Global, word: &str) -> Result<String, AllocError> {
    let command = match word {
        "run" => run(alloc, "cyclesim run"),
        "check" => check(alloc, "cyclesim check"),
        "queue" => queue(alloc, "cyclesim queue"),
        _ => bench(alloc, "cyclesim bench"),
    };
    command?.render_help()
}

#[test]
fn help_of_run(rt: HostRuntime) -> Result<(), Fail> {
    assert_eq!(&rt; help(rt.alloc(), "run")?.as_str(), RUN);
    Ok(())
}

#[test]
fn help_of_check(rt: HostRuntime) -> Result<(), Fail> {
    assert_eq!(&rt; help(rt.alloc(), "check")?.as_str(), CHECK);
    Ok(())
}

#[test]
fn help_of_queue(rt: HostRuntime) -> Result<(), Fail> {
    assert_eq!(&rt; help(rt.alloc(), "queue")?.as_str(), QUEUE);
    Ok(())
}

#[test]
fn help_of_bench(rt: HostRuntime) -> Result<(), Fail> {
    assert_eq!(&rt; help(rt.alloc(), "bench")?.as_str(), BENCH);
    Ok(())
}

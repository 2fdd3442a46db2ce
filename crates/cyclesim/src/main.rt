//! The program: `cyclesim run [--top T] [--clock C[,C]..] [--half H] [--define NAME[=TEXT]].. [--with PATH].. [--share] DESIGN STIM..` over the system's files, and
//! `cyclesim bench N [L]` in memory; with `--explain` as the first word it says behind the report line what that means.
//!
//! It puts one line on standard output, and what explains it, and ends with the status of the outcome. Where its own words or
//! desk find no memory it puts no line and ends with 7.
#![tactic(auto)]

ghost use Rattle.std.specs.Prelude.{◌≡◌, ◌<◌};

use std::alloc::{AllocError, Global};
use std::env;
use std::io::ErrorKind;
use std::marker::Brand;
use std::process::ExitCode;
use std::rt::{Env, Files};
use std::sync::ledger::{Blank, Ledger};
use vs_desk::HostDesk;
use vs_explain::explain_run;
use vs_plane::Steps;
use vs_top::status;

/// The status where the words or the desk find no memory.
const NO_MEMORY: u8 = 7;

/// The words of the command line. Where one isn't text there are none: no job has such a word.
fn read_words(rt: &(impl Env + Alloc<A = Global>)) -> Result<Vec<String>, AllocError> {
    match env::args(rt) {
        Ok(words) => words.collect(rt.alloc()),
        Err(error) if error.kind() == ErrorKind::OutOfMemory => Err(AllocError),
        Err(_) => Ok(Vec::new(rt.alloc())),
    }
}

/// Runs what the words call for, over the system's files, and answers the status to end with.
fn run_words<L: Ledger>(
    rt: impl Files + Print + Drop,
    alloc: Global,
    words: &[String],
    blank: Blank,
) -> u8
    requires name { blank.name ≡ L.name }
    requires parts { blank.parts ≡ L.parts }
    requires some { 0 < blank.parts }
{
    let mut steps: Steps<L> = Steps::new(blank);
    match HostDesk::new(rt, alloc) {
        Ok(mut desk) => status(&explain_run(alloc, words, &mut desk, &mut steps)),
        Err(AllocError) => NO_MEMORY,
    }
}

fn main(rt: HostRuntime) -> ExitCode {
    let alloc = rt.alloc();
    let status = match read_words(&rt) {
        Ok(words) => run_words::<Brand>(rt, alloc, &words, Blank::new(1)),
        Err(AllocError) => NO_MEMORY,
    };
    ExitCode::from(status)
}

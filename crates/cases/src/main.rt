//! Runs cases: command lines with their files, each beside the answer and the waveforms that it has to have.
//!
//! The words of the command line are paths of texts of cases. Each case is run over a desk in memory. The program prints a line for each
//! case that differs from what it says, and at the end how many are as expected. It ends with status 0 where all are, else with 1.
#![tactic(auto)]

ghost use Rattle.std.specs.Prelude.{◌<◌};

mod escapes;
mod reading;
mod trial;

use crate::reading::{Case, read_cases};
use crate::trial::{first_difference, run_case};
use std::alloc::Global;
use std::process::ExitCode;
use std::rt::{Env, Files};
use std::{env, fs, io};

/// How many bytes a take of a desk moves at most, by cases in turn.
const PIECES: [usize; 3] = [4096, 1, 7];

/// How many cases were run, and how many of them differed.
#[derive(Clone, Copy)]
struct Counts {
    cases: u64,
    different: u64,
}

/// Runs a case, and prints how it differs from what it says, or that it doesn't though it has to. Answers whether it is as expected.
fn is_as_expected(rt: &impl Print, alloc: Global, case: &Case, piece: usize) -> io::Result<bool>
    requires { 0 < piece }
{
    let left = run_case(alloc, case, piece)?;
    let name = case.name.as_str();
    match first_difference(case, &left) {
        Some(difference) if !case.is_wrong => println!(rt; "{name}: {difference}")?,
        None if case.is_wrong => println!(rt; "{name}: no difference")?,
        _ => return Ok(true),
    }
    Ok(false)
}

/// Runs cases, and counts them beside those before.
fn run_cases(rt: &impl Print, alloc: Global, cases: &[Case], counts: Counts) -> io::Result<Counts> {
    let mut counts = counts;
    for case in cases {
        let piece = PIECES[(counts.cases % 3) as usize];
        counts.cases = counts.cases.saturating_add(1);
        if !is_as_expected(rt, alloc, case, piece)? {
            counts.different = counts.different.saturating_add(1);
        }
    }
    Ok(counts)
}

/// Runs the cases of the text at a path. One that isn't a text of cases counts as a case that differs.
fn run_text(
    rt: &(impl Files + Print + AllocGlobal),
    path: &str,
    counts: Counts,
) -> io::Result<Counts> {
    let text = fs::read_to_string(rt, path)?;
    match read_cases(rt.alloc(), text.as_str()) {
        Ok(cases) => run_cases(rt, rt.alloc(), &cases, counts),
        Err(error) => {
            println!(rt; "{path}: {error}")?;
            Ok(Counts {
                cases: counts.cases,
                different: counts.different.saturating_add(1),
            })
        }
    }
}

/// Runs the cases of all texts that the words name, behind the program's own name.
fn run_texts(rt: &(impl Env + Files + Print + AllocGlobal)) -> io::Result<Counts> {
    let mut counts = Counts {
        cases: 0,
        different: 0,
    };
    let words: Vec<String> = env::args(rt)?.collect(rt.alloc())?;
    for path in words.iter().skip(1) {
        counts = run_text(rt, path.as_str(), counts)?;
    }
    Ok(counts)
}

fn main(rt: HostRuntime) -> io::Result<ExitCode> {
    let Counts { cases, different } = run_texts(&rt)?;
    if different == 0 {
        println!(rt; "{cases} cases as expected")?;
        return Ok(ExitCode::from(0));
    }
    println!(rt; "{different} of {cases} cases differ")?;
    Ok(ExitCode::from(1))
}

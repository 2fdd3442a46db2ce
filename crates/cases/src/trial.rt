//! A case run over a desk in memory, and what the run has left beside what the case says.

ghost use Rattle.std.specs.Prelude.{◌≡◌, ◌<◌, IfOk};
ghost use Rattle.vs_desk.specs.Desk.{no_register};
ghost use Rattle.vs_desk.specs.MemoryDesk as memory;

use crate::reading::{Case, Kind, Part};
use std::alloc::{AllocError, Global};
use std::marker::Brand;
use std::sync::ledger::{Blank, Ledger};
use std::{fmt, str};
use vs_desk::{FIRST_WAVEFORM, MOST_LANES, MemoryDesk};
use vs_explain::explain_run;
use vs_plane::Steps;
use vs_top::{Outcome, status};

/// What a run has left.
#[derive(Drop)]
pub struct Left {
    /// The status that the program ends with.
    pub status: u8,
    /// The number of plane operations of a run that is done.
    pub steps: Option<u64>,
    /// The desk, with the report and the waveforms.
    pub desk: MemoryDesk,
}

/// Where a run differs from its case.
#[derive(Clone, Copy)]
pub enum Difference<'a> {
    /// The status, the report or the number of plane operations is none of the answers.
    Answer {
        status: u8,
        steps: Option<u64>,
        report: &'a str,
    },
    /// The waveform at this path isn't one of the case, or has other bytes, first in this line.
    Waveform {
        path: &'a str,
        line: u64,
    },
    /// Another number of waveforms is written.
    Count {
        written: usize,
        wanted: usize,
    },
}

impl fmt::Display for Difference<'_> {
    fn fmt<W: fmt::Write>(&self, f: &mut fmt::Formatter<W>) -> fmt::Result {
        match self {
            Difference::Answer {
                status,
                steps,
                report,
            } => write!(f, "status {status}, steps {steps:?}, {report}"),
            Difference::Waveform { path, line } => write!(f, "{path} differs in line {line}"),
            Difference::Count { written, wanted } => {
                write!(f, "{written} waveforms are written, not {wanted}")
            }
        }
    }
}

/// A desk with the files of a case.
fn desk_of(alloc: Global, case: &Case, piece: usize) -> Result<MemoryDesk, AllocError>
    requires { 0 < piece }
    ensures { IfOk result (λ desk. memory.register desk ≡ no_register) }
{
    let mut desk = MemoryDesk::new(alloc, piece);
    for part in case.parts.iter() {
        if let Kind::File(path) = &part.kind {
            desk.add_file(path.clone()?, part.bytes.clone()?)?;
        }
    }
    Ok(desk)
}

/// Runs the words over a new desk, counting in a ledger.
fn run_counted<L: Ledger>(
    alloc: Global,
    blank: Blank,
    words: &[String],
    mut desk: MemoryDesk,
) -> Left
    requires name { blank.name ≡ L.name }
    requires parts { blank.parts ≡ L.parts }
    requires some { 0 < blank.parts }
    requires unused { memory.register desk ≡ no_register }
{
    let mut counter: Steps<L> = Steps::new(blank);
    let outcome = explain_run(alloc, words, &mut desk, &mut counter);
    let steps = match &outcome {
        Outcome::Done(summary) => Some(summary.operations),
        _ => None,
    };
    Left {
        status: status(&outcome),
        steps,
        desk,
    }
}

/// Runs a case over a desk of which a take moves at most so many bytes.
pub fn run_case(alloc: Global, case: &Case, piece: usize) -> Result<Left, AllocError>
    requires { 0 < piece }
{
    let desk = desk_of(alloc, case, piece)?;
    Ok(run_counted::<Brand>(alloc, Blank::new(1), &case.words, desk))
}

/// Whether a part is an answer, and the run has it.
fn is_answer(part: &Part, left: &Left) -> bool {
    match &part.kind {
        Kind::Answer { status, steps } => {
            *status == left.status
                && (steps.is_none() || *steps == left.steps)
                && part.bytes.as_slice() == left.desk.written(0)
        }
        _ => false,
    }
}

/// The path of the waveform that a part says, and whether its bytes are told.
fn waveform_path(part: &Part) -> Option<(&str, bool)> {
    match &part.kind {
        Kind::Waveform(path) => Some((path.as_str(), true)),
        Kind::AnyWaveform(path) => Some((path.as_str(), false)),
        Kind::File(_) | Kind::Answer { .. } => None,
    }
}

/// The line, from 1, in which two texts that aren't equal differ first.
fn differing_line(wanted: &[u8], written: &[u8]) -> u64 {
    let mut line = 1u64;
    for (one, other) in wanted.iter().zip(written) {
        if one != other {
            return line;
        }
        if *one == b'\n' {
            line = line.saturating_add(1);
        }
    }
    line
}

/// The difference of what was written at a path, if there is one.
fn waveform_difference<'a>(case: &Case, path: &'a str, written: &[u8]) -> Option<Difference<'a>> {
    for part in case.parts.iter() {
        match waveform_path(part) {
            Some((wanted, is_told)) if wanted == path => {
                if is_told && part.bytes.as_slice() != written {
                    let line = differing_line(&part.bytes, written);
                    return Some(Difference::Waveform { path, line });
                }
                return None;
            }
            _ => {}
        }
    }
    Some(Difference::Waveform { path, line: 0 })
}

/// The first difference of the waveforms, if there is one.
fn waveforms_difference<'a>(case: &Case, left: &'a Left) -> Option<Difference<'a>> {
    let mut written = 0usize;
    for lane in 0..MOST_LANES as u32 {
        let place = FIRST_WAVEFORM + lane;
        if let Some(path) = left.desk.attached(place) {
            written = written.saturating_add(1);
            let difference = waveform_difference(case, path, left.desk.written(place));
            if difference.is_some() {
                return difference;
            }
        }
    }
    let wanted = case
        .parts
        .iter()
        .filter(|part| waveform_path(part).is_some())
        .count();
    if written == wanted {
        None
    } else {
        Some(Difference::Count { written, wanted })
    }
}

/// Where what a run has left isn't what its case says, None where it is.
pub fn first_difference<'a>(case: &Case, left: &'a Left) -> Option<Difference<'a>> {
    if !case.parts.iter().any(|part| is_answer(part, left)) {
        return Some(Difference::Answer {
            status: left.status,
            steps: left.steps,
            report: str::from_utf8(left.desk.written(0)).unwrap_or("a report that isn't text"),
        });
    }
    waveforms_difference(case, left)
}

//! What is said of a lane of a check that missed something. Putting it takes no memory.

ghost use Rattle.std.specs.Prelude.{◌≡◌, ◌++◌, IfOk, option_map};
ghost use Rattle.vs_desk.specs.Desk.{PutsAll};
ghost use Rattle.vs_explanation.specs.Missed as spec;
ghost use Rattle.vs_explanation.specs.Subjects.{stimulus_path};

use crate::puts::{put_escaped, put_numbered, put_stimulus, put_text};
use crate::stimuli::from_line;
use std::alloc::{AllocError, Global};
use vs_desk::{Desk, Failed, put_all, put_law};
use vs_job::Job;
use vs_refusal::Miss;
use vs_rows::{expected_at, expected_name, row_bytes};

/// What a reader finds in a stimulus of an output that isn't as it was wanted.
#[derive(Drop)]
pub struct Spot<'a> {
    /// The output's name, as the header has it.
    pub name: Option<&'a [u8]>,
    /// The column of the digits that were wanted in the vector's line: a byte, counted from 1.
    pub column: Option<usize>,
}

impl Spot<'_> {
    /// Nothing, where the stimulus can't be read again.
    pub fn none() -> Self
        ensures { spec.lent result ≡ spec.no_spot }
    {
        Spot {
            name: None,
            column: None,
        }
    }
}

/// The column of the n-th field behind `->` in the line with which a text begins.
fn column_in(alloc: Global, line: &[u8], n: usize) -> Result<Option<usize>, AllocError>
    ensures { IfOk result (λ column. column ≡ spec.column_in n line.now) }
{
    match expected_at(alloc, row_bytes(line, 0), n)? {
        Some(at) => Ok(Some(at + 1)),
        None => Ok(None),
    }
}

/// The same in a line of a text by its number, counted from 1.
fn column_of(alloc: Global, text: &[u8], row: u64, n: usize) -> Result<Option<usize>, AllocError>
    ensures { IfOk result (λ column. column ≡ spec.column_of text.now row n) }
{
    match from_line(Some(text), row) {
        Some(line) => column_in(alloc, line, n),
        None => Ok(None),
    }
}

/// Finds what a lane missed in the text of its stimulus: the name of this output, by its place behind `->` in the header, and the column of its digits in the vector
/// on this line. The only error is that memory ran out.
pub fn find_spot(alloc: Global, text: &[u8], row: u64, output: u32) -> Result<Spot<'_>, AllocError>
    ensures { IfOk result (λ spot. spec.lent spot ≡ spec.spot_of text.now row output) }
{
    let n = output as usize;
    let name = expected_name(alloc, text, n)?;
    let column = column_of(alloc, text, row, n)?;
    Ok(Spot { name, column })
}

/// Puts the column behind a line, where it was found.
fn put_column<D: Desk>(desk: &mut D, column: Option<usize>) -> Result<(), Failed>
    ensures { PutsAll (D.told desk.old) (D.told desk.new) 0 (spec.column_text column) result }
{
    match column {
        Some(n) => put_numbered(desk, ":", n as u64, ""),
        None => put_text(desk, ""),
    }
}

/// Puts where a lane missed something.
fn put_spot<D: Desk>(
    desk: &mut D,
    job: &Job,
    lane: u32,
    row: u64,
    column: Option<usize>,
) -> Result<(), Failed>
    ensures { PutsAll (D.told desk.old) (D.told desk.new) 0 (spec.spot_text (stimulus_path job.now lane) row column) result }
{
    put_law();
    put_stimulus(desk, job, lane as usize)?;
    put_numbered(desk, ":", row, "")?;
    put_column(desk, column)
}

/// Puts an output's name, or its place behind `->` where that wasn't found.
fn put_name<D: Desk>(desk: &mut D, name: Option<&[u8]>, output: u32) -> Result<(), Failed>
    ensures { PutsAll (D.told desk.old) (D.told desk.new) 0 (spec.name_text (option_map (λ t. t.now) name.entry) output) result }
{
    match name {
        Some(name) => put_escaped(desk, name),
        None => put_numbered(desk, "output ", output as u64, ""),
    }
}

/// Puts digits behind what they are.
fn put_labelled<D: Desk>(desk: &mut D, label: &str, digits: &[u8]) -> Result<(), Failed>
    ensures { PutsAll (D.told desk.old) (D.told desk.new) 0 (spec.labelled label.now digits.now) result }
{
    put_law();
    put_text(desk, label)?;
    put_all(desk, 0, digits)
}

/// Puts the digits that an output has, and those that were wanted.
fn put_digits<D: Desk>(desk: &mut D, wanted: &[u8], got: &[u8]) -> Result<(), Failed>
    ensures { PutsAll (D.told desk.old) (D.told desk.new) 0 (spec.digits_text wanted.now got.now) result }
{
    put_law();
    put_labelled(desk, " is ", got)?;
    put_labelled(desk, ", wanted ", wanted)?;
    put_text(desk, "\n")
}

/// Puts that the digits that were wanted weren't found again, where that is so.
fn put_unfound<D: Desk>(desk: &mut D, column: Option<usize>) -> Result<(), Failed>
    ensures { PutsAll (D.told desk.old) (D.told desk.new) 0 (spec.unfound_text column) result }
{
    match column {
        Some(_) => put_text(desk, ""),
        None => put_text(desk, "note: the field can't be found again\n"),
    }
}

/// Puts what a lane missed.
fn put_sentence<D: Desk>(desk: &mut D, spot: &Spot<'_>, miss: &Miss<'_>) -> Result<(), Failed>
    ensures { PutsAll (D.told desk.old) (D.told desk.new) 0 (spec.sentence (spec.lent spot.now) miss.now.output miss.now.wanted.now miss.now.got.now) result }
{
    put_law();
    put_name(desk, spot.name, miss.output)?;
    put_digits(desk, miss.wanted, miss.got)?;
    put_unfound(desk, spot.column)
}

/// Puts what a lane of a check missed first: its stimulus's path, the line of the vector, and the column of the field where it was found; the output's name, or its place
/// behind `->` where that wasn't found; and the digits that it has and those that were wanted.
pub fn put_miss<D: Desk>(
    desk: &mut D,
    job: &Job,
    spot: &Spot<'_>,
    miss: &Miss<'_>,
) -> Result<(), Failed>
    ensures { PutsAll (D.told desk.old) (D.told desk.new) 0
        (spec.miss_text (stimulus_path job.now miss.now.lane) (spec.lent spot.now) miss.now.line miss.now.output miss.now.wanted.now miss.now.got.now) result }
{
    put_law();
    put_spot(desk, job, miss.lane, miss.line, spot.column)?;
    put_text(desk, ": error: ")?;
    put_sentence(desk, spot, miss)
}

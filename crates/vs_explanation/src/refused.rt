//! What is said of a refusal.

ghost use Rattle.std.specs.Prelude.{◌≡◌, ◌++◌, OnOk, option_map};
ghost use Rattle.vs_explanation.specs.Refused as spec;
ghost use Rattle.vs_explanation.specs.Seen.{seen_of};
ghost use Rattle.vs_rows.specs.Lent.{bad_of as lent_name, wrong_of as lent};

use crate::Seen;
use crate::headers::{bad_of, push_names};
use crate::heavy::push_heavy;
use crate::located::{push_error, push_located};
use crate::notes::push_remedy;
use crate::placed::push_line_column;
use crate::roles::push_path;
use crate::stimuli::{
    from_line, push_fields, push_row, push_row_caret, push_row_position, row_at, row_of, wrong_of,
};
use std::alloc::{AllocError, Global};
use vs_desk::{DESIGN_PLACE, FIRST_STIMULUS};
use vs_excerpt::Page;
use vs_job::Job;
use vs_refusal::Refusal;
use vs_rows::{BadName, Wrong};

/// The byte of the design's text at which a refusal is told. None where it is told of the whole design, of the words, or of a stimulus.
pub fn at_of(refusal: &Refusal) -> Option<u32>
    ensures { result ≡ spec.at_of refusal.now }
{
    match refusal {
        Refusal::At(_, at)
        | Refusal::Latch { at, .. }
        | Refusal::Sensitivity { at, .. }
        | Refusal::TwoDrivers { at, .. }
        | Refusal::Process(_, _, at)
        | Refusal::Cycle { at, .. }
        | Refusal::Race { at, .. } => Some(*at),
        _ => None,
    }
}

/// The place of a job that a refusal without a byte is about.
fn about(refusal: &Refusal) -> u64
    ensures { result ≡ spec.about refusal.now }
{
    match refusal {
        Refusal::SamePath { second, .. } => u64::from(*second),
        Refusal::Lane(_, lane) | Refusal::Line(_, lane, _) => {
            u64::from(FIRST_STIMULUS) + u64::from(*lane)
        }
        _ => u64::from(DESIGN_PLACE),
    }
}

/// Adds all lines of a refusal of a line of a stimulus.
fn push_line(
    page: &mut Page,
    job: &Job,
    seen: &Seen<'_>,
    refusal: &Refusal,
    row: u64,
    line: Option<&[u8]>,
    wrong: &Option<Wrong<'_>>,
) -> Result<(), AllocError>
    ensures { OnOk result (page.new ≡ page.old ++ spec.lined job.now (seen_of seen.now) refusal.now row (option_map (λ t. t.now) line.entry) (option_map lent wrong.now)) }
{
    let at = row_at(line, wrong);
    push_path(page, job, about(refusal))?;
    push_line_column(page, row, at as u64 + 1)?;
    page.text(": ")?;
    push_error(page, job, seen, refusal)?;
    push_row(page, line, at)?;
    push_fields(page, refusal, seen, line, wrong)?;
    push_remedy(page, refusal)
}

/// Adds all lines of a refusal that has no number of a line, and is told at this byte of a stimulus, if it is told at one, where this is wrong in the header.
fn push_unlined_at(
    page: &mut Page,
    job: &Job,
    seen: &Seen<'_>,
    refusal: &Refusal,
    at: Option<usize>,
    bad: &Option<BadName<'_>>,
) -> Result<(), AllocError>
    ensures { OnOk result (page.new ≡ page.old ++ spec.unlined_at job.now (seen_of seen.now) refusal.now at (option_map lent_name bad.now)) }
{
    push_path(page, job, about(refusal))?;
    push_row_position(page, seen.file, at)?;
    page.text(": ")?;
    push_error(page, job, seen, refusal)?;
    push_row_caret(page, refusal, seen.file, at)?;
    push_names(page, refusal, seen, at, bad)?;
    push_remedy(page, refusal)
}

/// Adds all lines of a refusal that has no number of a line.
fn push_unlined(
    alloc: Global,
    page: &mut Page,
    job: &Job,
    seen: &Seen<'_>,
    refusal: &Refusal,
) -> Result<(), AllocError>
    ensures { OnOk result (page.new ≡ page.old ++ spec.unlined job.now (seen_of seen.now) refusal.now) }
{
    let bad = bad_of(alloc, refusal, seen)?;
    let at = row_of(refusal, seen.file, &bad);
    push_unlined_at(page, job, seen, refusal, at, &bad)
}

/// Adds all lines of a design that is too large.
fn push_oversized(
    page: &mut Page,
    job: &Job,
    seen: &Seen<'_>,
    refusal: &Refusal,
) -> Result<(), AllocError>
    ensures { OnOk result (page.new ≡ page.old ++ spec.oversized job.now (seen_of seen.now) refusal.now) }
{
    push_path(page, job, about(refusal))?;
    page.text(": ")?;
    push_error(page, job, seen, refusal)?;
    push_heavy(page, job, seen)?;
    push_remedy(page, refusal)
}

/// Adds all lines of a refusal of a job: where it is told, by which name and sentence, the line of the text with a caret, further places, the field of a header or
/// of a vector that is wrong, the heaviest processes of a design that is too large, what has changed in the file, and a remedy. The only error is that memory ran out.
pub fn push_refusal(
    alloc: Global,
    page: &mut Page,
    job: &Job,
    seen: &Seen<'_>,
    refusal: &Refusal,
) -> Result<(), AllocError>
    ensures { OnOk result (page.new ≡ page.old ++ spec.refusal_text job.now (seen_of seen.now) refusal.now) }
{
    if let Some(at) = at_of(refusal) {
        return push_located(page, job, seen, refusal, at);
    }
    if let Refusal::Line(_, _, row) = refusal {
        let line = from_line(seen.file, *row);
        let wrong = wrong_of(alloc, refusal, seen, line)?;
        return push_line(page, job, seen, refusal, *row, line, &wrong);
    }
    if let Refusal::TooLarge { .. } = refusal {
        return push_oversized(page, job, seen, refusal);
    }
    push_unlined(alloc, page, job, seen, refusal)
}

//! Places of a file.

ghost use Rattle.std.specs.Prelude.{◌≡◌, ◌++◌, OnOk, option_map};
ghost use Rattle.vs_explanation.specs.Files.{file_place, place_of};
ghost use Rattle.vs_explanation.specs.Placed as spec;
ghost use Rattle.vs_explanation.specs.Seen.{seen_of};

use crate::Seen;
use crate::files::{FilePlace, file_place};
use std::alloc::AllocError;
use vs_excerpt::{Page, column, line_number, push_excerpt};
use vs_job::Job;

/// Adds a line and a column.
pub(crate) fn push_line_column(page: &mut Page, line: u64, column: u64) -> Result<(), AllocError>
    ensures { OnOk result (page.new ≡ page.old ++ spec.line_column line column) }
{
    page.text(":")?;
    page.number(line)?;
    page.text(":")?;
    page.number(column)
}

/// Adds the line and the column of byte `at` of a file, or nothing where that isn't there.
pub(crate) fn push_position(
    page: &mut Page,
    file: Option<&[u8]>,
    at: usize,
) -> Result<(), AllocError>
    ensures { OnOk result (page.new ≡ page.old ++ spec.position_text (option_map (λ t. t.now) file.entry) at) }
{
    match file {
        Some(text) if at <= text.len() => {
            push_line_column(page, line_number(text, at) as u64, column(text, at) as u64)
        }
        _ => Ok(()),
    }
}

/// Adds the place of a byte of a file, or the path alone where that isn't there.
pub(crate) fn push_place(page: &mut Page, place: FilePlace<'_>) -> Result<(), AllocError>
    ensures { OnOk result (page.new ≡ page.old ++ spec.found_in (place_of place.entry)) }
{
    page.escaped(place.path)?;
    push_position(page, place.file, place.at)
}

/// Adds the place of a byte of the design's text in its file, or the file's path alone where that isn't there.
pub(crate) fn push_found(
    page: &mut Page,
    job: &Job,
    seen: &Seen<'_>,
    at: usize,
) -> Result<(), AllocError>
    ensures { OnOk result (page.new ≡ page.old ++ spec.found_in (file_place job.now (seen_of seen.now) at)) }
{
    push_place(page, file_place(job, seen, at))
}

/// Adds the line of byte `at` of a file and a caret below it, where that is there.
pub(crate) fn push_caret(page: &mut Page, file: Option<&[u8]>, at: usize) -> Result<(), AllocError>
    ensures { OnOk result (page.new ≡ page.old ++ spec.caret_text (option_map (λ t. t.now) file.entry) at) }
{
    match file {
        Some(text) if at <= text.len() => push_excerpt(page, text, at),
        _ => Ok(()),
    }
}

/// Adds a note where byte `at` isn't there.
pub(crate) fn push_change(page: &mut Page, file: Option<&[u8]>, at: usize) -> Result<(), AllocError>
    ensures { OnOk result (page.new ≡ page.old ++ spec.change_text (option_map (λ t. t.now) file.entry) at) }
{
    match file {
        None => page.text("note: the file can't be read again\n"),
        Some(text) if at <= text.len() => Ok(()),
        Some(_) => page.text("note: the file has changed: it ends before this place\n"),
    }
}

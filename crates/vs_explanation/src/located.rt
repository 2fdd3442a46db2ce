//! The lines of a refusal that has a place in the design's text.

ghost use Rattle.std.specs.Prelude.{◌≡◌, ◌++◌, OnOk, option_map, codes};
ghost use Rattle.vs_explanation.specs.Files.{place_of};
ghost use Rattle.vs_explanation.specs.Located as spec;
ghost use Rattle.vs_explanation.specs.Subjects.{subject};
ghost use Rattle.vs_explanation.specs.Seen.{seen_of};

use crate::Seen;
use crate::files::{FilePlace, file_place};
use crate::notes::{push_clockless, push_further, push_head, push_remedy, push_unnamed};
use crate::placed::{push_caret, push_change, push_place};
use crate::subjects::push_subject;
use std::alloc::AllocError;
use vs_excerpt::Page;
use vs_hints::{closing, opening};
use vs_job::Job;
use vs_refusal::Refusal;

/// Adds the name of a refusal and its sentence.
pub(crate) fn push_error(
    page: &mut Page,
    job: &Job,
    seen: &Seen<'_>,
    refusal: &Refusal,
) -> Result<(), AllocError>
    ensures { OnOk result (page.new ≡ page.old ++ spec.error_text refusal.now (subject job.now (seen_of seen.now).drawn refusal.now)) }
{
    page.text("error: ")?;
    page.text(refusal.name())?;
    page.text(": ")?;
    page.text(opening(refusal))?;
    push_subject(page, job, seen.drawing, refusal)?;
    page.text(closing(refusal))?;
    page.text("\n")
}

/// Adds the notes of a refusal at byte `at` of the design's text, which lies there.
fn push_notes(
    page: &mut Page,
    job: &Job,
    seen: &Seen<'_>,
    refusal: &Refusal,
    at: u32,
    place: FilePlace<'_>,
) -> Result<(), AllocError>
    ensures { OnOk result (page.new ≡ page.old ++ spec.notes_text job.now (seen_of seen.now) refusal.now at (place_of place.entry)) }
{
    push_head(page, seen.head, at)?;
    push_further(page, job, seen, refusal)?;
    push_change(page, place.file, place.at)?;
    push_unnamed(page, seen, refusal)?;
    push_clockless(page, job, refusal)?;
    push_remedy(page, refusal)
}

/// Adds all lines of a refusal at byte `at` of the design's text, which lies there.
fn push_located_in(
    page: &mut Page,
    job: &Job,
    seen: &Seen<'_>,
    refusal: &Refusal,
    at: u32,
    place: FilePlace<'_>,
) -> Result<(), AllocError>
    ensures { OnOk result (page.new ≡ page.old ++ spec.located_in job.now (seen_of seen.now) refusal.now (subject job.now (seen_of seen.now).drawn refusal.now) at (place_of place.entry)) }
{
    push_place(page, place)?;
    page.text(": ")?;
    push_error(page, job, seen, refusal)?;
    push_caret(page, place.file, place.at)?;
    push_notes(page, job, seen, refusal, at, place)
}

/// Adds all lines of a refusal at byte `at` of the design's text.
pub(crate) fn push_located(
    page: &mut Page,
    job: &Job,
    seen: &Seen<'_>,
    refusal: &Refusal,
    at: u32,
) -> Result<(), AllocError>
    ensures { OnOk result (page.new ≡ page.old ++ spec.located job.now (seen_of seen.now) refusal.now (subject job.now (seen_of seen.now).drawn refusal.now) at) }
{
    push_located_in(
        page,
        job,
        seen,
        refusal,
        at,
        file_place(job, seen, at as usize),
    )
}

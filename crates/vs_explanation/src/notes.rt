//! The notes behind the line of a refusal.

ghost use Rattle.std.specs.Prelude.{◌≡◌, ◌++◌, OnOk, option_map};
ghost use Rattle.vs_explanation.specs.Located as spec;
ghost use Rattle.vs_explanation.specs.Seen.{seen_of};

use crate::Seen;
use crate::placed::push_found;
use std::alloc::AllocError;
use vs_excerpt::Page;
use vs_hints::remedy;
use vs_job::Job;
use vs_refusal::{ProcessName, Refusal};

/// Adds the remedy of a refusal.
pub(crate) fn push_remedy(page: &mut Page, refusal: &Refusal) -> Result<(), AllocError>
    ensures { OnOk result (page.new ≡ page.old ++ spec.remedy_text refusal.now) }
{
    page.text("note: ")?;
    page.text(remedy(refusal))?;
    page.text(" (docs/refusals.md)\n")
}

/// Adds that what is told at byte 0 may stand in a line of a macro before the file.
pub(crate) fn push_head(page: &mut Page, head: u32, at: u32) -> Result<(), AllocError>
    ensures { OnOk result (page.new ≡ page.old ++ spec.head_text head at) }
{
    if at == 0 && head != 0 {
        page.text("note: or in a line that --define gives\n")?;
    }
    Ok(())
}

/// The byte of the text at which a reader finds a process.
fn process_byte(seen: &Seen<'_>, process: u32) -> Option<u32>
    ensures { result ≡ spec.process_at (seen_of seen.now) process }
{
    seen.drawing?.process_byte(process)
}

/// Adds the place of a further process, where it is in its file.
fn push_further_line(
    page: &mut Page,
    job: &Job,
    seen: &Seen<'_>,
    process: u32,
) -> Result<(), AllocError>
    ensures { OnOk result (page.new ≡ page.old ++ spec.further_line job.now (seen_of seen.now) process) }
{
    match process_byte(seen, process) {
        None => Ok(()),
        Some(byte) => {
            push_found(page, job, seen, byte.saturating_sub(seen.head) as usize)?;
            page.text(": note: and here\n")
        }
    }
}

/// Adds the places of processes.
fn push_all(
    page: &mut Page,
    job: &Job,
    seen: &Seen<'_>,
    processes: &[u32],
) -> Result<(), AllocError>
    ensures { OnOk result (page.new ≡ page.old ++ spec.further_text job.now (seen_of seen.now) processes.now) }
{
    for process in processes {
        push_further_line(page, job, seen, *process)?;
    }
    Ok(())
}

/// Adds the places of the further processes of a refusal.
pub(crate) fn push_further(
    page: &mut Page,
    job: &Job,
    seen: &Seen<'_>,
    refusal: &Refusal,
) -> Result<(), AllocError>
    ensures { OnOk result (page.new ≡ page.old ++ spec.further_text job.now (seen_of seen.now) (spec.further refusal.now)) }
{
    match refusal {
        Refusal::TwoDrivers { first, .. } => push_all(page, job, seen, &[*first]),
        Refusal::Cycle { processes, .. } => match processes.numbers() {
            [_, others @ ..] => push_all(page, job, seen, others),
            [] => Ok(()),
        },
        _ => Ok(()),
    }
}

/// Whether a refusal has numbers of signals, bits or further processes of the elaborated design.
pub fn has_numbers(refusal: &Refusal) -> bool
    ensures { result ≡ spec.has_numbers refusal.now }
{
    matches!(
        refusal,
        Refusal::Latch { .. }
            | Refusal::Sensitivity { .. }
            | Refusal::TwoDrivers { .. }
            | Refusal::Cycle { .. }
            | Refusal::Race { .. }
    )
}

/// Adds that a file no longer elaborates, where names are missing for that.
pub(crate) fn push_unnamed(
    page: &mut Page,
    seen: &Seen<'_>,
    refusal: &Refusal,
) -> Result<(), AllocError>
    ensures { OnOk result (page.new ≡ page.old ++ spec.unnamed_text (seen_of seen.now) refusal.now) }
{
    if has_numbers(refusal) && seen.file.is_some() && seen.drawing.is_none() {
        page.text(
            "note: the file has changed: it elaborates to no design, so there are no names\n",
        )?;
    }
    Ok(())
}

/// Adds that no clock is named, to the refusal of a clocked block by its clock.
pub(crate) fn push_clockless(
    page: &mut Page,
    job: &Job,
    refusal: &Refusal,
) -> Result<(), AllocError>
    ensures { OnOk result (page.new ≡ page.old ++ spec.clockless_text job.now.clocks refusal.now) }
{
    match job.clocks.as_slice().split_first() {
        Some(_) => Ok(()),
        None => match refusal {
            Refusal::Process(ProcessName::NotTheClock, _, _) => {
                page.text("note: no clock is named: --clock <C> says which input it is\n")
            }
            _ => Ok(()),
        },
    }
}

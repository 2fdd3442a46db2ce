//! The name or the number in the sentence of a refusal.

ghost use Rattle.std.specs.Prelude.{◌≡◌, ◌++◌, OnOk, option_map};
ghost use Rattle.vs_explanation.specs.Subjects as spec;

use crate::roles::push_role;
use std::alloc::AllocError;
use vs_excerpt::Page;
use vs_job::{Job, Text};
use vs_names::Drawing;
use vs_refusal::{BareName, Refusal};

/// Adds a bit, by its name where there is a design.
fn push_bit(page: &mut Page, drawing: Option<&Drawing>, bit: u32) -> Result<(), AllocError>
    ensures { OnOk result (page.new ≡ page.old ++ spec.bit_subject (option_map (λ d. d.now) drawing.entry) bit) }
{
    match drawing {
        Some(drawing) => drawing.push_bit(page, bit),
        None => {
            page.text("bit ")?;
            page.number(u64::from(bit))
        }
    }
}

/// Adds a signal, by its name where there is a design.
fn push_signal(page: &mut Page, drawing: Option<&Drawing>, signal: u32) -> Result<(), AllocError>
    ensures { OnOk result (page.new ≡ page.old ++ spec.signal_subject (option_map (λ d. d.now) drawing.entry) signal) }
{
    match drawing {
        Some(drawing) => drawing.push_signal(page, signal),
        None => {
            page.text("signal ")?;
            page.number(u64::from(signal))
        }
    }
}

/// Adds two places of a run in words.
fn push_roles(page: &mut Page, first: u32, second: u32) -> Result<(), AllocError>
    ensures { OnOk result (page.new ≡ page.old ++ spec.roles_text first second) }
{
    push_role(page, first)?;
    page.text(" and to ")?;
    push_role(page, second)
}

/// Adds the size of a design.
pub(crate) fn push_size(page: &mut Page, size: u64) -> Result<(), AllocError>
    ensures { OnOk result (page.new ≡ page.old ++ spec.size_text size) }
{
    page.number(size)?;
    page.text(" plane operations a half-period")
}

/// Adds the name of the top, or what it would be where none is given.
fn push_top(page: &mut Page, job: &Job) -> Result<(), AllocError>
    ensures { OnOk result (page.new ≡ page.old ++ spec.top_text job.now.top) }
{
    match job.top_bytes() {
        Some(top) => page.escaped(top),
        None => page.text("that is the only one without an instance"),
    }
}

/// Adds a name behind a comma.
fn push_behind(page: &mut Page, name: &Text) -> Result<(), AllocError>
    ensures { OnOk result (page.new ≡ page.old ++ spec.behind_text name.now) }
{
    page.text(",")?;
    page.escaped(name.as_bytes())
}

/// Adds names, each behind a comma.
fn push_more(page: &mut Page, names: &[Text]) -> Result<(), AllocError>
    ensures { OnOk result (page.new ≡ page.old ++ spec.more_text names.now) }
{
    for name in names {
        push_behind(page, name)?;
    }
    Ok(())
}

/// Adds several names, parted by commas: one of them is none of an input's, or is given twice.
fn push_several(page: &mut Page, name: &Text, more: &[Text]) -> Result<(), AllocError>
    ensures { OnOk result (page.new ≡ page.old ++ spec.several_text name.now more.now) }
{
    page.text("for one of ")?;
    page.escaped(name.as_bytes())?;
    push_more(page, more)?;
    page.text(", or a name is there twice")
}

/// Adds the names of the clocks, if any is given.
fn push_names(page: &mut Page, names: &[Text]) -> Result<(), AllocError>
    ensures { OnOk result (page.new ≡ page.old ++ spec.names_text names.now) }
{
    let Some((name, more)) = names.split_first() else {
        return Ok(());
    };
    if more.is_empty() {
        page.escaped(name.as_bytes())
    } else {
        push_several(page, name, more)
    }
}

/// Adds the name or the number in the sentence of a refusal, if it has one.
pub(crate) fn push_subject(
    page: &mut Page,
    job: &Job,
    drawing: Option<&Drawing>,
    refusal: &Refusal,
) -> Result<(), AllocError>
    ensures { OnOk result (page.new ≡ page.old ++ spec.subject job.now (option_map (λ d. d.now) drawing.entry) refusal.now) }
{
    match refusal {
        Refusal::Bare(BareName::NoTop) => push_top(page, job),
        Refusal::Bare(BareName::NoClock) => push_names(page, job.clocks.as_slice()),
        Refusal::SamePath { first, second } => push_roles(page, *first, *second),
        Refusal::TooLarge { size } => push_size(page, *size),
        Refusal::Latch { bit, .. } => push_bit(page, drawing, *bit),
        Refusal::Sensitivity { signal, .. } => push_signal(page, drawing, *signal),
        Refusal::TwoDrivers { bit, .. } => push_bit(page, drawing, *bit),
        Refusal::Race { bit, .. } => push_bit(page, drawing, *bit),
        _ => Ok(()),
    }
}

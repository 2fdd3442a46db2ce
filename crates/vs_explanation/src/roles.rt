//! The places of a run in words, and their paths.

ghost use Rattle.std.specs.Prelude.{◌≡◌, ◌++◌, OnOk, decimal};
ghost use Rattle.vs_explanation.specs.Subjects as spec;

use std::alloc::AllocError;
use vs_desk::{FIRST_OTHER, FIRST_STIMULUS, FIRST_WAVEFORM};
use vs_excerpt::Page;
use vs_job::{Job, Mode};

/// Adds one of several files in words, by its number.
fn push_numbered(page: &mut Page, what: &str, number: u32) -> Result<(), AllocError>
    ensures { OnOk result (page.new ≡ page.old ++ (what.now ++ decimal number)) }
{
    page.text(what)?;
    page.number(u64::from(number))
}

/// Adds a place of a run in words.
pub(crate) fn push_role(page: &mut Page, place: u32) -> Result<(), AllocError>
    ensures { OnOk result (page.new ≡ page.old ++ spec.role_text place) }
{
    if place < FIRST_STIMULUS {
        page.text("the design")
    } else if place < FIRST_WAVEFORM {
        push_numbered(page, "the stimulus of lane ", place - FIRST_STIMULUS)
    } else if place < FIRST_OTHER {
        push_numbered(page, "the waveform of lane ", place - FIRST_WAVEFORM)
    } else {
        push_numbered(page, "the design's further file ", place - FIRST_OTHER)
    }
}

/// Adds the path of a lane's stimulus, or nothing where the job has no such lane.
fn push_stimulus(page: &mut Page, job: &Job, lane: usize) -> Result<(), AllocError>
    ensures { OnOk result (page.new ≡ page.old ++ spec.stimulus_path job.now lane) }
{
    if lane >= job.stimuli.len() {
        return Ok(());
    }
    page.escaped(job.stimuli.get(lane).as_bytes())
}

/// What the path of a stimulus has added in that of its waveform.
pub(crate) fn wave_suffix(mode: Mode) -> &'static str
    ensures { result.now ≡ spec.wave_suffix mode }
{
    match mode {
        Mode::Run | Mode::Check => ".vcd",
        Mode::Queue { .. } => ".queue.vcd",
    }
}

/// Adds the path of a lane's waveform, or nothing where the job has no such lane.
fn push_waveform(page: &mut Page, job: &Job, lane: usize) -> Result<(), AllocError>
    ensures { OnOk result (page.new ≡ page.old ++ spec.waveform_path job.now lane) }
{
    if lane >= job.stimuli.len() {
        return Ok(());
    }
    page.escaped(job.stimuli.get(lane).as_bytes())?;
    page.text(wave_suffix(job.mode))
}

/// Adds the path of a further file of the design, or nothing where the job has no such file.
fn push_other(page: &mut Page, job: &Job, n: usize) -> Result<(), AllocError>
    ensures { OnOk result (page.new ≡ page.old ++ spec.other_path job.now n) }
{
    if n >= job.others.len() {
        return Ok(());
    }
    page.escaped(job.others.get(n).as_bytes())
}

/// Adds the path of a place.
pub(crate) fn push_path(page: &mut Page, job: &Job, place: u64) -> Result<(), AllocError>
    ensures { OnOk result (page.new ≡ page.old ++ spec.path_text job.now place) }
{
    let first_stimulus = u64::from(FIRST_STIMULUS);
    let first_waveform = u64::from(FIRST_WAVEFORM);
    let first_other = u64::from(FIRST_OTHER);
    if place < first_stimulus {
        return page.escaped(job.design.as_bytes());
    }
    if place < first_waveform {
        return push_stimulus(page, job, (place - first_stimulus) as usize);
    }
    if place < first_other {
        return push_waveform(page, job, (place - first_waveform) as usize);
    }
    push_other(page, job, (place - first_other) as usize)
}

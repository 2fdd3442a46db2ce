//! The heaviest processes of a design that is too large.

ghost use Rattle.std.specs.Prelude.{◌≡◌, ◌≤◌, ◌++◌, IfOk, OnOk, length, option_map, take};
ghost use Rattle.std.specs.List.{insert};
ghost use Rattle.vs_explanation.specs.Heavy as spec;
ghost use Rattle.vs_explanation.specs.Seen.{seen_of};

use crate::Seen;
use crate::placed::push_found;
use crate::subjects::push_size;
use std::alloc::{AllocError, Global};
use vs_excerpt::Page;
use vs_job::Job;

/// A process of a design.
#[derive(Clone, Copy)]
pub struct Heavy {
    /// The byte of the text at which a reader finds it, the lines of macros before the file included. None where the text has no such token.
    pub at: Option<u32>,
    /// What it weighs in the size of the design, in plane operations a half-period of the clock; one of 2^64 or more as 2^64 - 1.
    pub weight: u64,
}

/// How many processes are told.
const MOST: usize = 10;

/// Where a process goes among others in the order of their weights: before the first that is no heavier.
fn place_of(others: &[Heavy], heavy: Heavy) -> usize
    ensures within { result ≤ length others.now }
    ensures placed { insert others.now result heavy ≡ spec.placed heavy others.now }
{
    for at in 0..others.len() {
        if others[at].weight <= heavy.weight {
            return at;
        }
    }
    others.len()
}

/// Puts a process among the ten heaviest of those behind it, of which ten are kept. The only error is that memory ran out.
fn keep(kept: &mut Vec<Heavy>, heavy: Heavy) -> Result<(), AllocError>
    ensures { OnOk result (kept.new.items ≡ take 10 (spec.placed heavy kept.old.items)) }
{
    let at = place_of(kept.as_slice(), heavy);
    kept.insert(at, heavy)?;
    kept.truncate(MOST);
    Ok(())
}

/// The ten heaviest of the processes that have these bytes and these weights, by number: by weight, the heaviest first, and of equal ones that of the lowest number.
/// The only error is that memory ran out.
pub fn heaviest(
    alloc: Global,
    bytes: &[Option<u32>],
    weights: &[u64],
) -> Result<Vec<Heavy>, AllocError>
    requires { length bytes.now ≡ length weights.now }
    ensures { IfOk result (λ v. v.items ≡ spec.heaviest (spec.paired bytes.now weights.now)) }
{
    let mut kept = Vec::new(alloc);
    let mut left = weights.len();
    while left > 0 {
        left -= 1;
        let heavy = Heavy {
            at: bytes[left],
            weight: weights[left],
        };
        keep(&mut kept, heavy)?;
    }
    Ok(kept)
}

/// The byte of the file at which a reader finds a process.
fn byte_in(seen: &Seen<'_>, heavy: &Heavy) -> Option<usize>
    ensures { result ≡ spec.byte_in (seen_of seen.now) heavy.now }
{
    let at = heavy.at?;
    Some(at.saturating_sub(seen.head) as usize)
}

/// Adds where a process stands, or the path of the design alone where it stands nowhere.
fn push_heavy_place(
    page: &mut Page,
    job: &Job,
    seen: &Seen<'_>,
    at: Option<usize>,
) -> Result<(), AllocError>
    ensures { OnOk result (page.new ≡ page.old ++ spec.heavy_place job.now (seen_of seen.now) at) }
{
    match at {
        Some(at) => push_found(page, job, seen, at),
        None => page.escaped(job.design.as_bytes()),
    }
}

/// Adds where a process stands and what it weighs, if it weighs something.
fn push_line(page: &mut Page, job: &Job, seen: &Seen<'_>, heavy: &Heavy) -> Result<(), AllocError>
    ensures { OnOk result (page.new ≡ page.old ++ spec.heavy_line job.now (seen_of seen.now) heavy.now) }
{
    if heavy.weight == 0 {
        return Ok(());
    }
    push_heavy_place(page, job, seen, byte_in(seen, heavy))?;
    page.text(": note: ")?;
    push_size(page, heavy.weight)?;
    page.text("\n")
}

/// Adds the lines of processes.
fn push_lines(
    page: &mut Page,
    job: &Job,
    seen: &Seen<'_>,
    processes: &[Heavy],
) -> Result<(), AllocError>
    ensures { OnOk result (page.new ≡ page.old ++ spec.heavy_lines job.now (seen_of seen.now) processes.now) }
{
    for heavy in processes {
        push_line(page, job, seen, heavy)?;
    }
    Ok(())
}

/// Adds that no process was weighed.
fn push_unweighed(page: &mut Page, file: Option<&[u8]>) -> Result<(), AllocError>
    ensures { OnOk result (page.new ≡ page.old ++ spec.unweighed_text (option_map (λ t. t.now) file.entry)) }
{
    match file {
        None => page.text("note: the file can't be read again\n"),
        Some(_) => page.text(
            "note: the file has changed: it elaborates to no design, or a length or a division of it is refused, so no process is weighed\n",
        ),
    }
}

/// Adds the lines of the heaviest processes of a design that is too large, or that none was weighed.
pub(crate) fn push_heavy(page: &mut Page, job: &Job, seen: &Seen<'_>) -> Result<(), AllocError>
    ensures { OnOk result (page.new ≡ page.old ++ spec.heavy_text job.now (seen_of seen.now) (seen_of seen.now).heavy) }
{
    match seen.heavy {
        Some(processes) => push_lines(page, job, seen, processes),
        None => push_unweighed(page, seen.file),
    }
}

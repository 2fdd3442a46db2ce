//! What is said of an answer that isn't a refusal, put at place 0 of a desk. It takes no memory.

ghost use Rattle.std.specs.Prelude.{◌≡◌, ◌++◌};
ghost use Rattle.vs_desk.specs.Desk.{PutsAll};
ghost use Rattle.vs_explanation.specs.Ended as spec;

use crate::puts::{put_numbered, put_path, put_path_and, put_text};
use crate::roles::wave_suffix;
use vs_desk::{Desk, Failed, put_law};
use vs_job::{Job, Mode};

/// Puts a line of a number behind what it counts.
fn put_counted<D: Desk>(desk: &mut D, what: &str, number: u64) -> Result<(), Failed>
    ensures { PutsAll (D.told desk.old) (D.told desk.new) 0 (spec.counted what.now number) result }
{
    put_numbered(desk, what, number, "\n")
}

/// Puts what a run has done.
///
/// On `Failed`, here as in all functions of this crate that put something, some first bytes were put, not all, and a call at place 0 failed.
pub fn put_done<D: Desk>(
    desk: &mut D,
    lanes: u32,
    vectors: u64,
    settlings: u64,
    size: u64,
) -> Result<(), Failed>
    ensures { PutsAll (D.told desk.old) (D.told desk.new) 0 (spec.done_text lanes vectors settlings size) result }
{
    put_law();
    put_counted(desk, "note: lanes: ", lanes as u64)?;
    put_counted(desk, "note: vectors of all lanes together: ", vectors)?;
    put_counted(desk, "note: half-periods of the clock: ", settlings)?;
    put_counted(
        desk,
        "note: plane operations in each half-period, at most: ",
        size,
    )
}

/// Puts how many lanes of a check missed something.
fn put_missed<D: Desk>(desk: &mut D, missed: u32) -> Result<(), Failed>
    ensures { PutsAll (D.told desk.old) (D.told desk.new) 0 (spec.missed_text missed) result }
{
    if missed == 0 {
        return put_text(desk, "note: no lane missed what its stimulus wants\n");
    }
    put_counted(
        desk,
        "error: lanes that missed what their stimuli want: ",
        missed as u64,
    )
}

/// Puts what a check has done: how many lanes missed something of what their stimuli want, and the numbers of `put_done`.
pub fn put_checked<D: Desk>(
    desk: &mut D,
    lanes: u32,
    vectors: u64,
    settlings: u64,
    size: u64,
    missed: u32,
) -> Result<(), Failed>
    ensures { PutsAll (D.told desk.old) (D.told desk.new) 0 (spec.checked_text lanes vectors settlings size missed) result }
{
    put_law();
    put_missed(desk, missed)?;
    put_done(desk, lanes, vectors, settlings, size)
}

/// Puts what a run of the event queue has done.
pub fn put_ordered<D: Desk>(
    desk: &mut D,
    vectors: u64,
    slots: u64,
    order: u64,
) -> Result<(), Failed>
    ensures { PutsAll (D.told desk.old) (D.told desk.new) 0 (spec.ordered_text vectors slots order) result }
{
    put_law();
    put_counted(desk, "note: the order of the event queue's steps: ", order)?;
    put_counted(desk, "note: vectors: ", vectors)?;
    put_counted(desk, "note: time slots: ", slots)
}

/// Puts the path of a lane's waveform.
fn put_wave<D: Desk>(desk: &mut D, mode: Mode, lane: usize, stimulus: &[u8]) -> Result<(), Failed>
    ensures { PutsAll (D.told desk.old) (D.told desk.new) 0 (spec.wave_line mode lane stimulus.now) result }
{
    put_law();
    put_numbered(desk, "note: waveform of lane ", lane as u64, ": ")?;
    put_path_and(desk, stimulus, wave_suffix(mode))?;
    put_text(desk, "\n")
}

/// Puts the paths of a job's waveforms, by lane.
pub fn put_waves<D: Desk>(desk: &mut D, job: &Job) -> Result<(), Failed>
    ensures { PutsAll (D.told desk.old) (D.told desk.new) 0 (spec.waves_from job.now.mode 0 job.now.stimuli) result }
{
    put_law();
    for lane in 0..job.stimuli.len() {
        put_wave(desk, job.mode, lane, job.stimuli.get(lane).as_bytes())?;
    }
    Ok(())
}

/// Puts that the file of this place can't be read.
pub fn put_read_fault<D: Desk>(desk: &mut D, job: &Job, place: u32) -> Result<(), Failed>
    ensures { PutsAll (D.told desk.old) (D.told desk.new) 0 (spec.read_fault_text job.now place) result }
{
    put_law();
    put_path(desk, job, place)?;
    put_text(
        desk,
        ": error: ReadFault: the file can't be read\nnote: check that it is there, and who may read it (docs/refusals.md)\n",
    )
}

/// Puts that standard output can't be written.
pub fn put_output_fault<D: Desk>(desk: &mut D) -> Result<(), Failed>
    ensures { PutsAll (D.told desk.old) (D.told desk.new) 0 spec.output_fault_text result }
{
    put_text(
        desk,
        "error: WriteFault: standard output can't be written\n",
    )
}

/// Puts that the file of a place other than 0 can't be written.
fn put_file_fault<D: Desk>(desk: &mut D, job: &Job, place: u32) -> Result<(), Failed>
    ensures { PutsAll (D.told desk.old) (D.told desk.new) 0 (spec.file_fault_text job.now place) result }
{
    put_law();
    put_path(desk, job, place)?;
    put_text(
        desk,
        ": error: WriteFault: the file can't be written\nnote: check who may write it, and the room on its disk (docs/refusals.md)\n",
    )
}

/// Puts that the file of this place, or at place 0 standard output, can't be written.
pub fn put_write_fault<D: Desk>(desk: &mut D, job: &Job, place: u32) -> Result<(), Failed>
    ensures { PutsAll (D.told desk.old) (D.told desk.new) 0 (spec.write_fault_text job.now place) result }
{
    if place == 0 {
        return put_output_fault(desk);
    }
    put_file_fault(desk, job, place)
}

/// Puts that there was not enough memory.
pub fn put_memory<D: Desk>(desk: &mut D) -> Result<(), Failed>
    ensures { PutsAll (D.told desk.old) (D.told desk.new) 0 spec.memory_text result }
{
    put_text(
        desk,
        "error: Memory: there was not enough memory\nnote: docs/trust.md says what a run takes (docs/refusals.md)\n",
    )
}

//! The explanation of an answer that isn't a refusal of a job. It takes no memory.

ghost use Rattle.std.specs.Prelude.{◌++◌, option_map};
ghost use Rattle.vs_desk.specs.Desk.{PutsAll};
ghost use Rattle.vs_explanation.specs.Ended.{done_text, ordered_text};
ghost use Rattle.vs_explainer.specs.Told.{IsPut, waves_text, read_text, write_text, ending_text, usage_text};

use vs_desk::{Desk, Failed, put_all, put_law};
use vs_explanation::{
    put_checked, put_done, put_memory, put_ordered, put_output_fault, put_read_fault, put_waves,
    put_write_fault,
};
use vs_job::Job;
use vs_refusal::Ending;

/// Puts the paths of the waveforms of a job; a bench has none.
fn put_paths<D: Desk>(desk: &mut D, job: Option<&Job>) -> Result<(), Failed>
    ensures { PutsAll (D.told desk.old) (D.told desk.new) 0 (waves_text (option_map (λ j. j.now) job.entry)) result }
{
    put_law();
    match job {
        Some(job) => put_waves(desk, job),
        None => Ok(()),
    }
}

/// Puts what a run has done, and the paths of its waveforms.
fn put_run<D: Desk>(
    desk: &mut D,
    job: Option<&Job>,
    lanes: u32,
    vectors: u64,
    settlings: u64,
    size: u64,
) -> Result<(), Failed>
    ensures { PutsAll (D.told desk.old) (D.told desk.new) 0 (done_text lanes vectors settlings size ++ waves_text (option_map (λ j. j.now) job.entry)) result }
{
    put_law();
    put_done(desk, lanes, vectors, settlings, size)?;
    put_paths(desk, job)
}

/// Puts what a run of the event queue has done, and the path of its waveform.
fn put_course<D: Desk>(
    desk: &mut D,
    job: Option<&Job>,
    vectors: u64,
    slots: u64,
    order: u64,
) -> Result<(), Failed>
    ensures { PutsAll (D.told desk.old) (D.told desk.new) 0 (ordered_text vectors slots order ++ waves_text (option_map (λ j. j.now) job.entry)) result }
{
    put_law();
    put_ordered(desk, vectors, slots, order)?;
    put_paths(desk, job)
}

/// Puts that a file can't be read.
fn put_read<D: Desk>(desk: &mut D, job: Option<&Job>, place: u32) -> Result<(), Failed>
    ensures { PutsAll (D.told desk.old) (D.told desk.new) 0 (read_text (option_map (λ j. j.now) job.entry) place) result }
{
    match job {
        Some(job) => put_read_fault(desk, job, place),
        None => put_output_fault(desk),
    }
}

/// Puts that a file can't be written.
fn put_write<D: Desk>(desk: &mut D, job: Option<&Job>, place: u32) -> Result<(), Failed>
    ensures { PutsAll (D.told desk.old) (D.told desk.new) 0 (write_text (option_map (λ j. j.now) job.entry) place) result }
{
    match job {
        Some(job) => put_write_fault(desk, job, place),
        None => put_output_fault(desk),
    }
}

/// Puts what is said of an ending.
fn put_ending<D: Desk>(desk: &mut D, job: Option<&Job>, ending: &Ending) -> Result<(), Failed>
    ensures { PutsAll (D.told desk.old) (D.told desk.new) 0 (ending_text (option_map (λ j. j.now) job.entry) ending.now) result }
{
    match ending {
        Ending::Done {
            lanes,
            vectors,
            settlings,
            size,
        } => put_run(desk, job, *lanes, *vectors, *settlings, *size),
        Ending::Checked {
            lanes,
            vectors,
            settlings,
            size,
            missed,
        } => put_checked(desk, *lanes, *vectors, *settlings, *size, *missed),
        Ending::Ordered {
            vectors,
            slots,
            order,
        } => put_course(desk, job, *vectors, *slots, *order),
        Ending::ReadFault { place } => put_read(desk, job, *place),
        Ending::WriteFault { place } => put_write(desk, job, *place),
        Ending::Memory => put_memory(desk),
    }
}

/// Puts at place 0 of a desk what is said of an answer that isn't a refusal: of a run that is done its numbers and the paths of its waveforms, of a check that
/// is done how many lanes missed something and its numbers, of a run of the queue its order, its numbers and the path of its waveform, of a file that failed its path. Without a job it is the answer to a bench.
///
/// It takes no memory. Where a call at place 0 fails some first bytes are put.
pub fn explain_ending<D: Desk>(job: Option<&Job>, ending: &Ending, desk: &mut D)
    ensures { IsPut (D.told desk.old) (D.told desk.new) (ending_text (option_map (λ j. j.now) job.entry) ending.now) }
{
    let _ = put_ending(desk, job, ending);
}

/// The forms of all words.
const FORMS: &str =
    "error: Usage: the words aren't those of the program, or a value of --define is no macro\nnote: cyclesim run [OPTIONS] <DESIGN> <STIM>...\nnote: cyclesim check [OPTIONS] <DESIGN> <STIM>...\nnote: cyclesim queue --order <N> [OPTIONS] <DESIGN> <STIM>\nnote: cyclesim bench <N> [L]\nnote: cyclesim --explain <WORDS>...\nnote: --top <T>: the name of the top module, by default the one that no instance names\nnote: --clock <C[,C]..>: the names of the top's clock inputs, if it has any\nnote: --half <H>: half a clock period, from 1 to 1000000 [default: 5]\nnote: --define <NAME[=TEXT]>: a macro that is defined before the design's text, up to 64 of them\nnote: --with <PATH>: a further file of the design, read behind it, up to 64 of them\nnote: --share: one identifier code in the waveform for all signals that ports join, with run alone\nnote: --order <N>: what the order of the event queue's steps is drawn from, from 0 to 18446744073709551615, with queue alone\nnote: docs/running.md says what each word is (docs/refusals.md)\n";

/// Puts the forms of all words at place 0 of a desk. It takes no memory. Where a call fails some first bytes are put.
pub fn explain_usage<D: Desk>(desk: &mut D)
    ensures { IsPut (D.told desk.old) (D.told desk.new) usage_text }
{
    let _ = put_all(desk, 0, FORMS.as_bytes());
}

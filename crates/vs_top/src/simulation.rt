//! A run from its paths to its waveforms.

ghost use Rattle.std.specs.Prelude.{◌≡◌, ◌+◌, ◌*◌, ◌≤◌, [], None, IfOk, IfErr, OnOk, length};
ghost use Rattle.vs_desk.specs.Places.{most_lanes};
ghost use Rattle.vs_job.specs.Job.{IsJob};
ghost use Rattle.vs_job.specs.declared.job.Mode.TheVariants as modes;
ghost use Rattle.vs_job.specs.Places.{same_paths};
ghost use Rattle.vs_waves.specs.Puts.{AreWritable};
ghost use Rattle.vs_top.specs.declared.outcome.Outcome.TheVariants.{Done};
ghost use Rattle.vs_top.specs.Ended.{IsEnd, IsRoundEnd, IsWholeEnd, IsStopped, IsUnused};

use crate::errors::{setup_outcome, stop_outcome};
use crate::outcome::{Outcome, Summary};
use std::alloc::Global;
use std::sync::ledger::Ledger;
use vs_desk::{Desk, FIRST_WAVEFORM, attach_law};
use vs_job::{Job, same_paths};
use vs_plane::{Lanes, Steps, Words};
use vs_refusal::Refusal;
use vs_rounds::headline_law;
use vs_setup::{Prepared, prepare};
use vs_stim::laws::known_law;
use vs_waves::{attach, flush};

/// Runs a job to the end of its rounds, and then writes out what was kept back of its waveforms.
///
/// The order is: two equal paths; the design; the stimuli's headers, by lane; all memory; the first
/// vectors, by lane; the waveforms' places, by lane; the rounds; and however these ended, what was put
/// at the waveforms' places is written out.
pub(crate) fn run_job<D: Desk, L: Ledger>(
    alloc: Global,
    job: &Job,
    desk: &mut D,
    steps: &mut Steps<L>,
) -> Result<Summary, Outcome>
    requires mode { job.now.mode ≡ modes.Run }
    requires job { IsJob job.now }
    requires unused { IsUnused (D.told desk.old).register (length job.now.stimuli) (length job.now.others) }
    ensures done { IfOk result (λ s. IsEnd job.now (D.told desk.old) (D.told desk.new) [] (Done s)) }
    ensures stopped { IfErr result (IsEnd job.now (D.told desk.old) (D.told desk.new) []) }
    ensures not_done { IfErr result IsStopped }
    ensures counted { IfOk result (λ s. steps.new ≡ steps.old + s.operations) }
    ensures within { IfOk result (λ s. s.operations ≤ s.size * s.settlings) }
{
    let ended = run_rounds(alloc, job, desk, steps)?;
    match flush(desk, job.stimuli.len() as u32) {
        Ok(()) => ended,
        Err(fault) => Err(Outcome::WriteFault {
            place: FIRST_WAVEFORM + fault.lane,
        }),
    }
}

/// Runs a job to the end of its rounds, in words of as many lanes as it needs: 64, 128 or 256. It
/// answers Err where no round began, and else how the rounds ended.
fn run_rounds<D: Desk, L: Ledger>(
    alloc: Global,
    job: &Job,
    desk: &mut D,
    steps: &mut Steps<L>,
) -> Result<Result<Summary, Outcome>, Outcome>
    requires mode { job.now.mode ≡ modes.Run }
    requires job { IsJob job.now }
    requires unused { IsUnused (D.told desk.old).register (length job.now.stimuli) (length job.now.others) }
    ensures unbegun { IfErr result (IsEnd job.now (D.told desk.old) (D.told desk.new) []) }
    ensures not_done { IfErr result IsStopped }
    ensures different { OnOk result (same_paths job.now ≡ None) }
    ensures done { IfOk result (λ ended. IfOk ended (λ s. IsWholeEnd job.now (D.told desk.old) (D.told desk.new) (Done s))) }
    ensures stopped { IfOk result (λ ended. IfErr ended (IsRoundEnd job.now (D.told desk.old) (D.told desk.new))) }
    ensures writable { OnOk result (AreWritable (D.told desk.new).register (length job.now.stimuli)) }
    ensures ended_undone { IfOk result (λ ended. IfErr ended IsStopped) }
    ensures counted { IfOk result (λ ended. IfOk ended (λ s. steps.new ≡ steps.old + s.operations)) }
    ensures within { IfOk result (λ ended. IfOk ended (λ s. s.operations ≤ s.size * s.settlings)) }
{
    let lanes = job.stimuli.len();
    if lanes <= 64 {
        run_lanes::<Words<1>, D, L>(alloc, job, desk, steps)
    } else if lanes <= 128 {
        run_lanes::<Words<2>, D, L>(alloc, job, desk, steps)
    } else {
        run_lanes::<Words<4>, D, L>(alloc, job, desk, steps)
    }
}

/// Runs a job to the end of its rounds, in words of so many lanes. It answers Err where no round began,
/// and else how the rounds ended.
fn run_lanes<W: Lanes, D: Desk, L: Ledger>(
    alloc: Global,
    job: &Job,
    desk: &mut D,
    steps: &mut Steps<L>,
) -> Result<Result<Summary, Outcome>, Outcome>
    requires mode { job.now.mode ≡ modes.Run }
    requires job { IsJob job.now }
    requires unused { IsUnused (D.told desk.old).register (length job.now.stimuli) (length job.now.others) }
    requires width { W.LANES ≤ most_lanes }
    requires lanes { length job.now.stimuli ≤ W.LANES }
    ensures unbegun { IfErr result (IsEnd job.now (D.told desk.old) (D.told desk.new) []) }
    ensures not_done { IfErr result IsStopped }
    ensures different { OnOk result (same_paths job.now ≡ None) }
    ensures done { IfOk result (λ ended. IfOk ended (λ s. IsWholeEnd job.now (D.told desk.old) (D.told desk.new) (Done s))) }
    ensures stopped { IfOk result (λ ended. IfErr ended (IsRoundEnd job.now (D.told desk.old) (D.told desk.new))) }
    ensures writable { OnOk result (AreWritable (D.told desk.new).register (length job.now.stimuli)) }
    ensures ended_undone { IfOk result (λ ended. IfErr ended IsStopped) }
    ensures counted { IfOk result (λ ended. IfOk ended (λ s. steps.new ≡ steps.old + s.operations)) }
    ensures within { IfOk result (λ ended. IfOk ended (λ s. s.operations ≤ s.size * s.settlings)) }
{
    attach_law();
    headline_law();
    known_law();
    if let Some((first, second)) = same_paths(job) {
        return Err(Outcome::Refused(Refusal::SamePath { first, second }));
    }
    let prepared = match prepare::<W, D>(alloc, job, desk) {
        Ok(prepared) => prepared,
        Err(error) => return Err(setup_outcome(error)),
    };
    let Prepared {
        mut machine,
        size,
        wave_paths,
    } = prepared;
    if let Err(stop) = machine.begin(desk) {
        return Err(stop_outcome(stop));
    }
    if let Err(fault) = attach(desk, wave_paths) {
        let place = FIRST_WAVEFORM + fault.lane;
        return Err(Outcome::WriteFault { place });
    }
    match machine.rounds(desk, steps) {
        Ok(counts) => Ok(Ok(Summary {
            lanes: job.stimuli.len() as u32,
            vectors: counts.vectors,
            settlings: counts.settlings,
            size,
            operations: counts.operations,
            missed: None,
        })),
        Err(stop) => Ok(Err(stop_outcome(stop))),
    }
}

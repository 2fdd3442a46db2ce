//! A check from its paths to its report.

ghost use Rattle.std.specs.Prelude.{◌≡◌, ◌+◌, ◌*◌, ◌≤◌, [], IfOk, IfErr, IsTrue, Some, length};
ghost use Rattle.vs_desk.specs.Desk.{Told};
ghost use Rattle.vs_desk.specs.Places.{most_lanes};
ghost use Rattle.vs_feed.specs.Lanes.{AreAttached};
ghost use Rattle.vs_job.specs.Job.{IsJob};
ghost use Rattle.vs_job.specs.declared.job.Mode.TheVariants as modes;
ghost use Rattle.vs_rounds.specs.Checked.{IsCheckable};
ghost use Rattle.vs_top.specs.declared.outcome.Summary.{Summary};
ghost use Rattle.vs_top.specs.declared.outcome.Outcome.TheVariants.{Done};
ghost use Rattle.vs_top.specs.Answered.{IsAnswered};
ghost use Rattle.vs_top.specs.Begun.{IsCheckBegun};
ghost use Rattle.vs_top.specs.Checked.{IsChecked};
ghost use Rattle.vs_top.specs.Ended.{IsEnd, IsStopped, IsUnused};
ghost use Rattle.vs_top.specs.Verdicts.{misses_text, missed_lanes};

use crate::answered::{found_kept, nothing_kept};
use crate::errors::{setup_outcome, stop_outcome};
use crate::outcome::{Answered, Outcome, Summary};
use crate::report_line::report;
use crate::verdicts::report_verdicts;
use std::alloc::Global;
use std::sync::ledger::Ledger;
use vs_desk::Desk;
use vs_job::{Job, same_paths};
use vs_plane::{Lanes, Steps, Words};
use vs_refusal::Refusal;
use vs_rounds::verdict_law;
use vs_setup::{PreparedCheck, prepare_check};
use vs_stim::laws::known_law;

/// Checks the lanes of a job, and puts at place 0 of the desk what they missed and then the report line, in words of as many lanes as it
/// needs: 64, 128 or 256. What was found is kept where it is done.
pub(crate) fn check_job<D: Desk, L: Ledger>(
    alloc: Global,
    job: &Job,
    desk: &mut D,
    steps: &mut Steps<L>,
) -> Answered
    requires mode { job.now.mode ≡ modes.Check }
    requires job { IsJob job.now }
    requires unused { IsUnused (D.told desk.old).register (length job.now.stimuli) (length job.now.others) }
    ensures operations { (s : Summary) → result.outcome ≡ Done s → (steps.new ≡ steps.old + s.operations) × (s.operations ≤ s.size * s.settlings) }
    ensures answered { IsAnswered D.told job.now desk.old desk.new result.outcome result.found.items }
    ensures few { length result.found.items ≤ most_lanes }
{
    let lanes = job.stimuli.len();
    if lanes <= 64 {
        check_lanes::<Words<1>, D, L>(alloc, job, desk, steps)
    } else if lanes <= 128 {
        check_lanes::<Words<2>, D, L>(alloc, job, desk, steps)
    } else {
        check_lanes::<Words<4>, D, L>(alloc, job, desk, steps)
    }
}

/// Checks the lanes of a job, in words of so many lanes.
///
/// The order is: two equal paths; the design; the stimuli's headers, by lane; all memory; the first vectors, by lane; the rounds; and
/// however these ended, what was missed in those that were whole.
fn check_lanes<W: Lanes, D: Desk, L: Ledger>(
    alloc: Global,
    job: &Job,
    desk: &mut D,
    steps: &mut Steps<L>,
) -> Answered
    requires mode { job.now.mode ≡ modes.Check }
    requires job { IsJob job.now }
    requires unused { IsUnused (D.told desk.old).register (length job.now.stimuli) (length job.now.others) }
    requires width { W.LANES ≤ most_lanes }
    requires lanes { length job.now.stimuli ≤ W.LANES }
    ensures operations { (s : Summary) → result.outcome ≡ Done s → (steps.new ≡ steps.old + s.operations) × (s.operations ≤ s.size * s.settlings) }
    ensures answered { IsAnswered D.told job.now desk.old desk.new result.outcome result.found.items }
    ensures few { length result.found.items ≤ most_lanes }
{
    match begin_check::<W, D>(alloc, job, desk) {
        Ok(mut check) => {
            let lanes = job.stimuli.len() as u32;
            let outcome = check_rounds(job, &mut check, desk, steps);
            let reported = report_verdicts(desk, check.checker.misses(), lanes, outcome);
            found_kept(alloc, reported, check.checker)
        }
        Err(outcome) => nothing_kept(alloc, report(desk, outcome)),
    }
}

/// Prepares a check, and reads the first vectors.
fn begin_check<W: Lanes, D: Desk>(
    alloc: Global,
    job: &Job,
    desk: &mut D,
) -> Result<PreparedCheck<W>, Outcome>
    requires job { IsJob job.now }
    requires unused { IsUnused (D.told desk.old).register (length job.now.stimuli) (length job.now.others) }
    requires lanes { length job.now.stimuli ≤ W.LANES }
    ensures unbegun { IfErr result (IsEnd job.now (D.told desk.old) (D.told desk.new) []) }
    ensures not_done { IfErr result IsStopped }
    ensures begun { IfOk result (λ c. IsCheckBegun W.lane job.now (D.told desk.old) (D.told desk.new) c.checker c.size) }
    ensures lanes { IfOk result (λ c. length c.checker.stimuli ≡ length job.now.stimuli) }
    ensures ready { IfOk result (λ c. IsCheckable c.checker) }
    ensures readable { IfOk result (λ c. AreAttached (D.told desk.new).register c.checker.stimuli) }
{
    if let Some((first, second)) = same_paths(job) {
        return Err(Outcome::Refused(Refusal::SamePath { first, second }));
    }
    let mut check = match prepare_check::<W, D>(alloc, job, desk) {
        Ok(check) => check,
        Err(error) => return Err(setup_outcome(error)),
    };
    match check.checker.begin(desk) {
        Ok(()) => Ok(check),
        Err(stop) => Err(stop_outcome(stop)),
    }
}

/// Runs the rounds of a check.
fn check_rounds<W: Lanes, D: Desk, L: Ledger>(
    job: &Job,
    check: &mut PreparedCheck<W>,
    desk: &mut D,
    steps: &mut Steps<L>,
) -> Outcome
    requires mode { job.now.mode ≡ modes.Check }
    requires job { IsJob job.now }
    requires width { W.LANES ≤ most_lanes }
    requires few { length check.old.checker.stimuli ≤ W.LANES }
    requires lanes { length check.old.checker.stimuli ≡ length job.now.stimuli }
    requires ready { IsCheckable check.old.checker }
    requires readable { AreAttached (D.told desk.old).register check.old.checker.stimuli }
    ensures ended { (old : Told D.tells) → IsCheckBegun W.lane job.now old (D.told desk.old) check.old.checker check.old.size
        → IsEnd job.now old (D.told desk.new) (misses_text check.new.checker.misses.found) result }
    ensures lanes { length check.new.checker.misses.found ≡ length job.now.stimuli }
    ensures missed { (s : Summary) → result ≡ Done s → s.missed ≡ Some (missed_lanes check.new.checker.misses.found) }
    ensures checked { (old : Told D.tells) → IsCheckBegun W.lane job.now old (D.told desk.old) check.old.checker check.old.size
        → IsTrue D.tells → (s : Summary) → result ≡ Done s → IsChecked job.now old.contents (D.told desk.new).contents check.new.checker.misses.found s }
    ensures operations { (s : Summary) → result ≡ Done s → steps.new ≡ steps.old + s.operations }
    ensures within { (old : Told D.tells) → IsCheckBegun W.lane job.now old (D.told desk.old) check.old.checker check.old.size
        → (s : Summary) → result ≡ Done s → s.operations ≤ s.size * s.settlings }
{
    verdict_law();
    known_law();
    match check.checker.rounds(desk, steps) {
        Ok(counts) => Outcome::Done(Summary {
            lanes: job.stimuli.len() as u32,
            vectors: counts.vectors,
            settlings: counts.settlings,
            size: check.size,
            operations: counts.operations,
            missed: Some(check.checker.misses().count()),
        }),
        Err(stop) => stop_outcome(stop),
    }
}

//! The explanation of a check that is done: of each lane what it missed.

ghost use Rattle.std.specs.Prelude.{◌≡◌, ◌≢◌, ◌⊎◌, ◌≤◌, ◌<◌, ℕ, IsTrue, IsNone, Some, length, take, option_map, slice_get, MatchOption, string_bytes};
ghost use Rattle.vs_desk.specs.Places.{most_lanes};
ghost use Rattle.vs_explanation.specs.Missed.{lent, no_spot, spot_in};
ghost use Rattle.vs_reread.specs.Again.{AreUnread, lane_again, most_stimulus, first_lines, OnlyReadAt};
ghost use Rattle.vs_explainer.specs.Missed as spec;

use crate::endings::explain_ending;
use std::alloc::{AllocError, Global};
use vs_desk::{Desk, Failed};
use vs_explanation::{Spot, find_spot, put_miss};
use vs_job::Job;
use vs_misses::Finding;
use vs_refusal::{Ending, Miss};
use vs_reread::read_lane;

/// Reads the stimulus of a lane again as far as a line. None where a call failed or memory ran out.
fn read_path<D: Desk>(
    alloc: Global,
    desk: &mut D,
    lane: u32,
    path: &str,
    row: u64,
) -> Option<Vec<u8>>
    requires lane { lane < most_lanes }
    requires free { IsNone ((D.told desk.old).register.attached (lane_again lane)) }
    ensures only { OnlyReadAt (lane_again lane) (D.told desk.old) (D.told desk.new) }
    ensures text { IsTrue D.tells → MatchOption result (Unit {0}) (λ text. text.items ≡ first_lines row (take most_stimulus ((D.told desk.old).contents.files path.now))) }
{
    let Ok(path) = String::from_str(alloc, path) else {
        return None;
    };
    match read_lane(alloc, desk, lane, path, row) {
        Ok(text) => Some(text),
        Err(_) => None,
    }
}

/// What is read of a lane's stimulus as far as a line; nothing of a lane that the job hasn't.
fn read_row<D: Desk>(alloc: Global, desk: &mut D, job: &Job, lane: u32, row: u64) -> Option<Vec<u8>>
    requires lane { lane < most_lanes }
    requires free { IsNone ((D.told desk.old).register.attached (lane_again lane)) }
    ensures { spec.SeesLane job.now lane row (D.told desk.old) (D.told desk.new) (option_map (λ t. t.items) result) }
{
    if lane as usize >= job.stimuli.len() {
        return None;
    }
    read_path(
        alloc,
        desk,
        lane,
        job.stimuli.get(lane as usize).as_str(),
        row,
    )
}

/// What is found of a miss in what was read of its stimulus; nothing where that isn't there, or where memory runs out.
fn spot_seen<'a>(alloc: Global, text: &'a Option<Vec<u8>>, row: u64, output: u32) -> Spot<'a>
    ensures { (lent result ≡ spot_in (option_map (λ t. t.items) text.now) row output) ⊎ (lent result ≡ no_spot) }
{
    match text {
        None => Spot::none(),
        Some(text) => match find_spot(alloc, text.as_slice(), row, output) {
            Ok(spot) => spot,
            Err(AllocError) => Spot::none(),
        },
    }
}

/// Puts the line of what was found in a lane.
fn explain_finding<D: Desk>(
    alloc: Global,
    desk: &mut D,
    job: &Job,
    lane: u32,
    finding: &Finding,
) -> Result<(), Failed>
    requires lane { lane < most_lanes }
    requires free { IsNone ((D.told desk.old).register.attached (lane_again lane)) }
    ensures { spec.TellsFound job.now lane finding.now (D.told desk.old) (D.told desk.new) result }
{
    let text = read_row(alloc, desk, job, lane, finding.line());
    let wanted = finding.wanted();
    let got = finding.got();
    let miss = Miss {
        lane,
        line: finding.line(),
        output: finding.output(),
        wanted: wanted.as_slice(),
        got: got.as_slice(),
    };
    let spot = spot_seen(alloc, &text, miss.line, miss.output);
    put_miss(desk, job, &spot, &miss)
}

/// Puts the line of a lane, if something was found in it.
fn explain_lane<D: Desk>(
    alloc: Global,
    desk: &mut D,
    job: &Job,
    lane: u32,
    found: Option<&Finding>,
) -> Result<(), Failed>
    requires lane { lane < most_lanes }
    requires free { IsNone ((D.told desk.old).register.attached (lane_again lane)) }
    ensures told { spec.TellsLane job.now lane (option_map (λ f. f.now) found.entry) (D.told desk.old) (D.told desk.new) result }
    ensures places { (p : ℕ) → p ≢ lane_again lane → (D.told desk.new).register.attached p ≡ (D.told desk.old).register.attached p }
{
    match found {
        Some(finding) => explain_finding(alloc, desk, job, lane, finding),
        None => Ok(()),
    }
}

/// Puts the lines of all lanes in which something was found, by lane.
fn explain_found<D: Desk>(
    alloc: Global,
    desk: &mut D,
    job: &Job,
    found: &[Option<Finding>],
) -> Result<(), Failed>
    requires few { length found.now ≤ most_lanes }
    requires unread { AreUnread (D.told desk.old).register }
    ensures { spec.TellsFrom job.now 0 found.now (D.told desk.old) (D.told desk.new) result }
{
    for lane in 0..found.len() {
        explain_lane(alloc, desk, job, lane as u32, found[lane].as_ref())?;
    }
    Ok(())
}

/// Puts these lines of a job, and what is said of its answer behind them.
fn explain_job<D: Desk>(
    alloc: Global,
    desk: &mut D,
    job: &Job,
    found: &[Option<Finding>],
    ending: &Ending,
)
    requires few { length found.now ≤ most_lanes }
    requires unread { AreUnread (D.told desk.old).register }
    ensures { spec.ExplainsDone (Some job.now) found.now ending.now (D.told desk.old) (D.told desk.new) }
{
    if let Ok(()) = explain_found(alloc, desk, job, found) {
        explain_ending(Some(job), ending, desk);
    }
}

/// Puts at place 0 of a desk what is said of an answer that is done: of a job a line for each lane in which something was found, with the place in the lane's
/// stimulus, and then what `explain_ending` says.
///
/// The stimulus of such a lane is read again as far as the vector's line, at place 4 + lane. Where it can't be read, or memory runs out, the line is put without what
/// would be found there. Where a call at place 0 fails some first bytes are put.
pub fn explain_done<D: Desk>(
    alloc: Global,
    job: Option<&Job>,
    found: &[Option<Finding>],
    ending: &Ending,
    desk: &mut D,
)
    requires few { length found.now ≤ most_lanes }
    requires unread { AreUnread (D.told desk.old).register }
    ensures { spec.ExplainsDone (option_map (λ j. j.now) job.entry) found.now ending.now (D.told desk.old) (D.told desk.new) }
{
    match job {
        Some(job) => explain_job(alloc, desk, job, found, ending),
        None => explain_ending(None, ending, desk),
    }
}

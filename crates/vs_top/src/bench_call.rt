//! The run of a bench.

ghost use Rattle.std.specs.Prelude.{◌≡◌, ◌≢◌, ◌+◌, ◌*◌, ◌≤◌, ◌⊎◌, IfOk, IfErr};
ghost use Rattle.vs_job.specs.Bench.{IsBench};
ghost use Rattle.vs_refusal.specs.declared.names.BareName.TheVariants.{Usage};
ghost use Rattle.vs_refusal.specs.declared.refusal.Refusal.TheVariants.{Bare};
ghost use Rattle.vs_top.specs.declared.outcome.Summary.{Summary};
ghost use Rattle.vs_top.specs.declared.outcome.Outcome.TheVariants.{Done, Memory, Refused};
ghost use Rattle.vs_top.specs.Benched.{IsBenchEnd, IsBenched};
ghost use Rattle.vs_top.specs.Causes.{ShowsCause};
ghost use Rattle.vs_top.specs.Ended.{IsStopped, OthersAttached};

use crate::outcome::{Outcome, Summary};
use crate::report_line::report;
use crate::simulation::run_job;
use std::alloc::Global;
use std::sync::ledger::Ledger;
use vs_bench::{bench_desk, bench_job};
use vs_desk::Desk;
use vs_job::Bench;
use vs_plane::Steps;

/// Runs a bench, and puts its report line on place 0 of the desk.
///
/// The bench has a design and stimuli of its own, so many vectors in each of so many lanes, on a desk in memory. The answer and the line
/// are those of `simulate` on these files, but that a failed call on the desk in memory is `Memory`: none of them is to fail.
pub fn bench<D: Desk, L: Ledger>(
    alloc: Global,
    sizes: Bench,
    desk: &mut D,
    steps: &mut Steps<L>,
) -> Outcome
    requires { IsBench sizes }
    ensures operations { (s : Summary) → result ≡ Done s → (steps.new ≡ steps.old + s.operations) × (s.operations ≤ s.size * s.settlings) }
    ensures ended { IsBenched sizes (D.told desk.old) (D.told desk.new) result }
    ensures causes { ShowsCause (D.told desk.old) (D.told desk.new) result }
    ensures not_usage { result ≢ Refused (Bare Usage) }
    ensures others { OthersAttached (D.told desk.old).register (D.told desk.new).register }
{
    match run_bench(alloc, sizes, steps) {
        Ok(summary) => report(desk, Outcome::Done(summary)),
        Err(outcome) => report(desk, outcome),
    }
}

/// Runs the job of a bench over a desk of its own.
#[tactic(auto, using(crate::proofs::Benches::bench_ended))]
fn run_bench<L: Ledger>(
    alloc: Global,
    sizes: Bench,
    steps: &mut Steps<L>,
) -> Result<Summary, Outcome>
    requires { IsBench sizes }
    ensures done { IfOk result (λ s. IsBenchEnd sizes (Done s)) }
    ensures stopped { IfErr result (λ o. (o ≡ Memory) ⊎ IsBenchEnd sizes o) }
    ensures not_done { IfErr result IsStopped }
    ensures counted { IfOk result (λ s. steps.new ≡ steps.old + s.operations) }
    ensures within { IfOk result (λ s. s.operations ≤ s.size * s.settlings) }
{
    let Ok(job) = bench_job(alloc, sizes.lanes) else {
        return Err(Outcome::Memory);
    };
    let Ok(mut desk) = bench_desk(alloc, sizes.vectors, sizes.lanes) else {
        return Err(Outcome::Memory);
    };
    match run_job(alloc, &job, &mut desk, steps) {
        Err(Outcome::ReadFault { .. } | Outcome::WriteFault { .. }) => Err(Outcome::Memory),
        answer => answer,
    }
}

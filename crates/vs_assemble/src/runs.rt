//! Runs of calls, one after the other.

ghost use Rattle.std.specs.Prelude.{◌≡◌, List, [], ◌∷◌, OnOk, IfOk};
ghost use Rattle.vs_assemble.specs.Runs.{AreJoinedRuns};

use std::alloc::{AllocError, Global};
use vs_program::Run;

/// Runs with the calls of the first ones and then of the others. Where one goes on where another ends, the two are one.
pub(crate) fn joined(alloc: Global, first: &[Run], others: &[Run]) -> Result<Vec<Run>, AllocError>
    ensures { IfOk result (λ runs. AreJoinedRuns first.now others.now runs.items) }
{
    let mut runs = Vec::new(alloc);
    append(&mut runs, first)?;
    append(&mut runs, others)?;
    Ok(runs)
}

/// Adds the calls of these runs.
fn append(runs: &mut Vec<Run>, others: &[Run]) -> Result<(), AllocError>
    ensures { OnOk result (AreJoinedRuns runs.old.items others.now runs.new.items) }
{
    for run in others {
        push(runs, *run)?;
    }
    Ok(())
}

/// Adds the calls of a run. Where it goes on where the last one ends, it is a part of that one.
fn push(runs: &mut Vec<Run>, run: Run) -> Result<(), AllocError>
    ensures { OnOk result (AreJoinedRuns runs.old.items (run ∷ []) runs.new.items) }
{
    match runs.pop() {
        Some(last) => {
            if last.to == run.from {
                runs.push(Run {
                    from: last.from,
                    to: run.to,
                })?;
            } else {
                runs.push(last)?;
                runs.push(run)?;
            }
        }
        None => runs.push(run)?,
    }
    Ok(())
}

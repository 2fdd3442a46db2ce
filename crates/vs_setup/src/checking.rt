//! The set-up of a check.

ghost use Rattle.std.specs.Prelude.{◌≡◌, ◌≤◌, ℕ, None, IsTrue, IfOk, IfErr, length, List};
ghost use Rattle.vs_design.specs.Designs.{Design};
ghost use Rattle.vs_misses.specs.Watch.{AllFit, found_at};
ghost use Rattle.vs_rounds.specs.Checked.{AreCheckParts, IsCheckable};
ghost use Rattle.vs_job.specs.Job.{IsJob};
ghost use Rattle.vs_setup.specs.Loaded.{watched};
ghost use Rattle.vs_setup.specs.Places.{IsFresh};
ghost use Rattle.vs_setup.specs.DesignText.{AreTextsKept};
ghost use Rattle.vs_setup.specs.Prepared.{IsCheckPrepared};
ghost use Rattle.vs_setup.specs.Unprepared.{IsUnprepared};

use crate::SetupError;
use crate::inputs::output_spans;
use crate::loading::engine_of;
use crate::setup::{Opened, open_job};
use std::alloc::{AllocError, Global};
use vs_desk::Desk;
use vs_engine::Engine;
use vs_job::Job;
use vs_plane::Lanes;
use vs_rounds::{Checker, outputs_law};

/// A check that can begin.
#[derive(Drop)]
pub struct PreparedCheck<W: Lanes> {
    /// The stimuli, the engine, and what is found of the outputs.
    pub checker: Checker<W>,
    /// The size that is told of the design.
    pub size: u64,
}

/// Prepares a check: reads the design at place 1, its further file i at place 3000 + i, and accepts them behind the lines of the job's macros, opens the stimulus of lane i at place
/// 1000 + i by lane, and takes all the memory that the check needs. Whether the header of a stimulus has to name an output says the job's mode.
pub fn prepare_check<W: Lanes, D: Desk>(
    alloc: Global,
    job: &Job,
    desk: &mut D,
) -> Result<PreparedCheck<W>, SetupError>
    requires lanes { length job.now.stimuli ≤ W.LANES }
    requires job { IsJob job.now }
    requires fresh { IsFresh (D.told desk.old).register (length job.now.stimuli) (length job.now.others) }
    ensures prepared { IfOk result (λ p. IsCheckPrepared W.lane job.now (D.told desk.old) (D.told desk.new) p.checker p.size) }
    ensures unprepared { IfErr result (IsUnprepared job.now (D.told desk.old) (D.told desk.new)) }
    ensures kept { IsTrue D.tells → AreTextsKept (D.told desk.old).contents (D.told desk.new).contents }
{
    outputs_law();
    let opened = open_job(alloc, job, desk)?;
    let engine = engine_of::<W>(alloc, &opened.accepted)?;
    let prepared = assemble_check(alloc, opened, engine)?;
    Ok(prepared)
}

/// Puts the parts of a check together.
fn assemble_check<W: Lanes>(
    alloc: Global,
    opened: Opened,
    engine: Engine<W>,
) -> Result<PreparedCheck<W>, AllocError>
    requires fit { AllFit (watched opened.accepted) opened.drive }
    ensures stimuli { IfOk result (λ p. p.checker.stimuli ≡ opened.drive) }
    ensures engine { IfOk result (λ p. p.checker.engine ≡ engine) }
    ensures outputs { IfOk result (λ p. p.checker.misses.outputs ≡ watched opened.accepted) }
    ensures none { IfOk result (λ p. (i : ℕ) → found_at p.checker.misses.found i ≡ None) }
    ensures ready { (d : Design) (clocks : List ℕ) → AreCheckParts d clocks opened.drive engine.program (watched opened.accepted)
        → IfOk result (λ p. IsCheckable p.checker) }
    ensures size { IfOk result (λ p. p.size ≡ opened.accepted.size) }
{
    let accepted = &opened.accepted;
    let typed = accepted.typed();
    let size = accepted.size();
    let outputs = output_spans(alloc, typed.flat(), accepted.outputs())?;
    let Opened { drive, .. } = opened;
    let checker = Checker::new(alloc, drive, engine, outputs)?;
    Ok(PreparedCheck { checker, size })
}

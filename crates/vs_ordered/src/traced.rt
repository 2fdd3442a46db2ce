//! The waveform of one run of the queue.

ghost use Rattle.std.specs.Prelude.{◌≡◌, ◌≤◌, List, length, IfOk};
ghost use Rattle.vs_flat.specs.DesignOf.{design_of};
ghost use Rattle.vs_ordered.specs.Traced.{AreSized, AreValid, HasSteps, IsEveryDump};
ghost use Rattle.vs_queue.specs.Machines.{IsAcceptedBy};
ghost use Rattle.vs_reads.specs.Footprint.{footprints_of};
ghost use Rattle.vs_rounds.specs.Drives.{Vector as Values};

use std::alloc::{AllocError, Global};
use vs_clock::Clocks;
use vs_design::{order_law, unique_law};
use vs_queue::{Vector, ordered_run};
use vs_reads::Footprints;
use vs_trace::dump;
use vs_typed::Typed;

/// What a run of the queue gives.
#[derive(Drop)]
pub struct Traced {
    /// The text of its waveform, a value change dump (IEEE 1364-2005, clause 18).
    pub text: Vec<u8>,
    /// How many steps it took, 2^64 - 1 if there are more.
    pub steps: u64,
}

/// Executes the event queue of an accepted design (IEEE 1364-2005, clause 11) on these vectors, in the order that a number chooses, and
/// writes the waveform of that run. The only error is that there is no memory.
///
/// Half a period of the clocks has this many nanoseconds. There is one identifier code for all signals that ports join, if so told, or
/// else one for each signal.
pub fn run_vectors(
    alloc: Global,
    typed: &Typed,
    footprints: &Footprints,
    clocks: &Clocks,
    vectors: &[Vector],
    order: u64,
    half: u64,
    share: bool,
) -> Result<Traced, AllocError>
    requires accepted { IsAcceptedBy (design_of typed.now) clocks.now }
    requires footprints { footprints.now ≡ footprints_of (design_of typed.now) }
    requires sized { AreSized (design_of typed.now) clocks.now.bits vectors.now }
    requires few { length vectors.now ≤ 16777217 }
    requires half { half ≤ 1000000 }
    ensures text { IfOk result (λ traced. (first : Values) (later : List Values) → AreValid (design_of typed.now) clocks.now.bits vectors.now first later
        → IsEveryDump share (design_of typed.now) clocks.now.bits half first later traced.text.items) }
    ensures steps { IfOk result (λ traced. (first : Values) (later : List Values) → AreValid (design_of typed.now) clocks.now.bits vectors.now first later
        → HasSteps (design_of typed.now) clocks.now.bits order first later traced.steps) }
{
    order_law();
    unique_law();
    let (ends, steps) = ordered_run(alloc, typed, footprints, clocks, vectors, order)?;
    let text = dump(alloc, typed.flat(), half, share, &ends)?;
    Ok(Traced { text, steps })
}

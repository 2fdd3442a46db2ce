//! The vectors of a stimulus, read whole.

ghost use Rattle.std.specs.Prelude.{◌≡◌, ◌≤◌, ◌++◌, ℕ, All, List, [], ◌∷◌, length, IsTrue, IfOk, IfErr, OnOk};
ghost use Rattle.vs_desk.specs.Places.{stimulus_place};
ghost use Rattle.vs_four.specs.declared.Bit4.{Bit4};
ghost use Rattle.vs_feed.specs.Lanes.{lane_at, AreAttached, OtherPlacesKept};
ghost use Rattle.vs_ordered.specs.declared.reading.Unread.TheVariants.{Memory, Stopped};
ghost use Rattle.vs_ordered.specs.Whole.{IsWhole, OnStop, IsMemory};
ghost use Rattle.vs_rounds.specs.Lanes.{Run, HaveNext, HaveVectors, reading_of};
ghost use Rattle.vs_rounds.specs.Stops.{HasCause, IsLaneOf, IsOfStimulus, ReadStops};
ghost use Rattle.vs_stim.specs.Row.{sizes};

use std::alloc::{AllocError, Global};
use thiserror::Error;
use vs_desk::Desk;
use vs_feed::Drive;
use vs_queue::Vector;
use vs_rounds::{Stop, stop_of};
use vs_stim::Stimulus;

/// A stimulus has at most 16,777,216 vectors, and its end is read behind them.
const MOST_READS: usize = 16_777_217;

/// Why the vectors of a stimulus weren't read.
#[derive(Clone, Copy, PartialEq, Eq, Debug, Error)]
pub enum Unread {
    /// The stimulus stops the reading.
    #[error("{0}")]
    Stopped(Stop),
    /// There is no memory.
    #[error("no memory")]
    Memory,
}

impl From<Stop> for Unread {
    ghost from_gives = { λ stop e. e ≡ Stopped stop };

    fn from(stop: Stop) -> Unread {
        Unread::Stopped(stop)
    }
}

impl From<AllocError> for Unread {
    ghost from_gives = { λ _ e. e ≡ Memory };

    fn from(_error: AllocError) -> Unread {
        Unread::Memory
    }
}

/// Reads the next vector of a stimulus. Answers whether there is one.
fn read_next<D: Desk>(drive: &mut Drive, desk: &mut D) -> Result<bool, Stop>
    requires lone { length drive.old ≡ 1 }
    requires attached { AreAttached (D.told desk.old).register drive.old }
    ensures lone { OnOk result (length drive.new ≡ 1) }
    ensures live { IfOk result (λ some. some ≡ (lane_at drive.new 0).live) }
    ensures lane { OnOk result ((lane_at drive.new 0).lane ≡ 0) }
    ensures sizes { OnOk result (sizes (lane_at drive.new 0).vector ≡ sizes (lane_at drive.old 0).vector) }
    ensures attached { OnOk result (AreAttached (D.told desk.new).register drive.new) }
    ensures same { OnOk result ((D.told desk.new).register ≡ (D.told desk.old).register) }
    ensures read { IsTrue D.tells → (run : Run) (k : ℕ) → HaveNext run k drive.old (D.told desk.old).contents
        → OnOk result (HaveVectors run k drive.new (D.told desk.new).contents) }
    ensures stops { IsTrue D.tells → (run : Run) (k : ℕ) → HaveNext run k drive.old (D.told desk.old).contents
        → IfErr result (ReadStops run 1 k (D.told desk.new).contents) }
    ensures stimulus { IfErr result IsOfStimulus }
    ensures stop_lane { IfErr result (IsLaneOf 1) }
    ensures cause { IfErr result (HasCause (D.told desk.old).register (D.told desk.new).register) }
    ensures others { IsTrue D.tells → OtherPlacesKept 1 (D.told desk.old).contents (D.told desk.new).contents }
{
    match drive.read(desk) {
        Ok(some) => Ok(some),
        Err(stopped) => Err(stop_of(stopped)),
    }
}

/// Adds the vector that was read last. The only error is that there is no memory.
fn push_vector(
    alloc: Global,
    vectors: &mut Vec<Vector>,
    stimulus: &Stimulus,
) -> Result<(), AllocError>
    ensures { OnOk result (vectors.new.items ≡ vectors.old.items ++ stimulus.now.vector ∷ []) }
{
    let values = Vec::from_slice(alloc, stimulus.vector())?;
    vectors.push(Vector::of(values))?;
    Ok(())
}

/// Reads all vectors of the one stimulus of a drive, up to the end of its text.
///
/// It stops at the first line that is no vector, or one too many, and at a failed call at the stimulus's place (`Unread::Stopped`, which
/// names lane 0); or where there is no memory (`Unread::Memory`).
pub fn read_vectors<D: Desk>(
    alloc: Global,
    drive: &mut Drive,
    desk: &mut D,
) -> Result<Vec<Vector>, Unread>
    requires lone { length drive.old ≡ 1 }
    requires attached { AreAttached (D.told desk.old).register drive.old }

    // All vectors of the text are read, and nothing is left of it.
    ensures vectors { IsTrue D.tells → (run : Run) → HaveNext run 0 drive.old (D.told desk.old).contents
        → IfOk result (λ vectors. IsWhole (reading_of run 0) vectors.items ((D.told desk.new).contents.left (stimulus_place 0))) }
    ensures sized { IfOk result (λ vectors. All (λ (vector : List (List Bit4)). sizes vector ≡ sizes (lane_at drive.old 0).vector) vectors.items) }
    ensures few { IfOk result (λ vectors. length vectors.items ≤ 16777217) }
    ensures same { OnOk result ((D.told desk.new).register ≡ (D.told desk.old).register) }
    ensures memory { IfErr result (λ unread. IsMemory unread → (D.told desk.new).register ≡ (D.told desk.old).register) }

    // The stimulus stops it.
    ensures stops { IsTrue D.tells → (run : Run) → HaveNext run 0 drive.old (D.told desk.old).contents
        → IfErr result (OnStop (λ stop. (k : ℕ) × ReadStops run 1 k (D.told desk.new).contents stop)) }
    ensures stimulus { IfErr result (OnStop IsOfStimulus) }
    ensures lane { IfErr result (OnStop (IsLaneOf 1)) }
    ensures cause { IfErr result (OnStop (HasCause (D.told desk.old).register (D.told desk.new).register)) }
    ensures others { IsTrue D.tells → OtherPlacesKept 1 (D.told desk.old).contents (D.told desk.new).contents }
{
    let mut vectors = Vec::new(alloc);
    'reads: while vectors.len() < MOST_READS {
        let more = read_next(drive, desk)?;
        if !more {
            return Ok(vectors);
        }
        push_vector(alloc, &mut vectors, drive.stimulus(0))?;
    }
    Ok(vectors)
}

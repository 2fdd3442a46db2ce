//! How a run ends.

use vs_misses::Finding;
use vs_refusal::Refusal;

/// What a run or a check that is done has done.
#[derive(Clone, Copy, PartialEq, Eq, Debug)]
pub struct Summary {
    /// The number of lanes.
    pub lanes: u32,
    /// The number of vectors, of all lanes together.
    pub vectors: u64,
    /// The number of half-periods settled: twice the greatest number of vectors of a lane.
    pub settlings: u64,
    /// The size of the design: at most how many plane operations a half-period takes.
    pub size: u64,
    /// How many plane operations were executed.
    pub operations: u64,
    /// How many lanes of a check missed something of what their stimuli want; `None` of a run or a
    /// bench.
    pub missed: Option<u32>,
}

/// What a run of the event queue that is done has done.
#[derive(Clone, Copy, PartialEq, Eq, Debug)]
pub struct Course {
    /// The number of vectors.
    pub vectors: u64,
    /// The number of slots: two for each vector.
    pub slots: u64,
    /// The number that chose the order of its steps.
    pub order: u64,
    /// How many steps it took: 2^64 - 1 if there were more.
    pub steps: u64,
}

/// How a run ended.
#[derive(Drop)]
pub enum Outcome {
    /// Each lane's waveform was written whole, or each lane was checked, and the report was put whole.
    Done(Summary),
    /// The event queue was run to its end, its waveform was written whole, and the report was put whole.
    Ordered(Course),
    /// The words, the design or a stimulus was refused.
    Refused(Refusal),
    /// A call that reads failed at this place.
    ReadFault { place: u32 },
    /// A call that writes failed at this place.
    WriteFault { place: u32 },
    /// There was no memory.
    Memory,
}

/// How a run ended, and what was found in the lanes of a check.
#[derive(Drop)]
pub struct Answered {
    /// How it ended.
    pub outcome: Outcome,
    /// What each lane of a check that is done missed first, if it missed something; of every other
    /// outcome nothing.
    pub found: Vec<Option<Finding>>,
}

// The places of a run.

/// The greatest number of lanes.
pub const MOST_LANES: usize = 256;

/// The place of the design.
pub const DESIGN_PLACE: u32 = 1;

/// The place of lane 0's stimulus. Those of the lanes behind it follow.
pub const FIRST_STIMULUS: u32 = 1000;

/// The place of lane 0's waveform. Those of the lanes behind it follow.
pub const FIRST_WAVEFORM: u32 = 2000;

/// The greatest number of further files of the design.
pub const MOST_OTHERS: usize = 64;

/// The place of the design's first further file. Those of the files behind it follow.
pub const FIRST_OTHER: u32 = 3000;

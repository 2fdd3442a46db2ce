//! Planes of lanes: words of bits, one a lane, pairs of them that hold four-valued bits, and files of such pairs.
#![tactic(auto)]

ghost use Rattle.vs_plane.specs.Kernels.{FillingComputes};
ghost use Rattle.vs_plane.specs.Lanes.{EncodingIsExact};

mod arrays;
mod counting;
mod file;
mod pairs;
mod squares;
mod traits;
mod vectors;

pub use arrays::Words;
pub use counting::Steps;
pub use file::PlaneFile;
pub use pairs::Pair;
pub use traits::{Lanes, Word};
pub use vectors::Columns;

/// Each four-valued bit has one encoding in two planes, and each encoding is of one bit.
pub fn encoding_law()
    ensures { EncodingIsExact }
{}

/// A value stored bit by bit, from the first slot to the last, stands there in the end, in every lane.
pub fn filling_law<W: Word>()
    ensures { FillingComputes W.lane W.LANES }
{}

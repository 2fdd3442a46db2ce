//! The bench that the words of the command line call for.

ghost use Rattle.std.specs.Prelude.{◌≡◌, map, IfSome, string_bytes};
ghost use Rattle.vs_job.specs.Bench as spec;
ghost use Rattle.vs_job.specs.Bench.{bench, IsBench};

use crate::words::count_value;
use vs_desk::MOST_LANES;

/// The number of lanes where none is given.
const DEFAULT_LANES: u32 = 64;

/// The greatest number of vectors.
const MOST_VECTORS: u32 = 1_000;

/// A bench to run: so many vectors in each of so many lanes.
#[derive(Clone, Copy, PartialEq, Eq, Debug)]
pub struct Bench {
    /// How many vectors each lane has, from 1 to 1,000.
    pub vectors: u32,
    /// How many lanes there are, from 1 to 256.
    pub lanes: u32,
}

/// The bench of the words behind `bench`.
fn sized(words: &[String]) -> Option<Bench>
    ensures { result ≡ spec.sized (map string_bytes words.now) }
{
    match words {
        [vectors] => Some(Bench {
            vectors: count_value(vectors.as_str(), MOST_VECTORS)?,
            lanes: DEFAULT_LANES,
        }),
        [vectors, lanes] => Some(Bench {
            vectors: count_value(vectors.as_str(), MOST_VECTORS)?,
            lanes: count_value(lanes.as_str(), MOST_LANES as u32)?,
        }),
        _ => None,
    }
}

/// Reads the words of the command line, the program's own name first: `cyclesim bench N [L]`, with N
/// from 1 to 1,000 vectors in each of L lanes, from 1 to 256, and 64 where L isn't given.
///
/// Both are decimal numbers without a sign or a leading zero. None comes exactly where the words are
/// no such list. It takes no memory.
pub fn read_bench(words: &[String]) -> Option<Bench>
    ensures answer { result ≡ bench (map string_bytes words.now) }
    ensures in_range { IfSome result IsBench }
{
    match words {
        [_, command, words @ ..] if command.as_str() == "bench" => sized(words),
        _ => None,
    }
}

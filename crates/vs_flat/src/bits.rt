//! The number of a design's bits.

ghost use Rattle.std.specs.Prelude.{◌≡◌, ◌<◌, ◌^◌};
ghost use Rattle.vs_design.specs.Expressions.{range_or_one};
ghost use Rattle.vs_flat.specs.Arena.{signal_length, bit_count};

use crate::{Flat, Signal};
use vs_four::Range;

/// How many bits a value of this range has, where they are fewer than 2^32, as in a lawful design.
pub fn length_of(range: Option<Range>) -> u32
    requires { range_or_one range < 2 ^ 32 }
    ensures { result ≡ range_or_one range }
{
    match range {
        None => 1,
        Some(range) => range.left.abs_diff(range.right) + 1,
    }
}

/// How many bits a value of any range has (IEEE 1364-2005, 3.3): one, where it has none.
pub fn range_bits(range: Option<Range>) -> u64
    ensures { result ≡ range_or_one range }
{
    match range {
        None => 1,
        Some(range) => range.length(),
    }
}

/// How many bits a signal has (IEEE 1364-2005, 3.3 and 4.9): those of its range, in each word of a memory.
pub fn bits_of(signal: &Signal) -> u32
    requires { signal_length signal.now < 2 ^ 32 }
    ensures { result ≡ signal_length signal.now }
{
    let words = length_of(signal.words);
    words * length_of(signal.range)
}

/// How many bits the signals of a design have.
pub fn count_bits(flat: &Flat) -> u32
    ensures { result ≡ bit_count flat.now.signals }
{
    let mut count = 0;
    for n in 0..flat.signal_count() {
        count += bits_of(flat.signal(n));
    }
    count
}

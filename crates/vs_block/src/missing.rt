//! What a combinational block reads and doesn't wait on (IEEE 1364-2005, 9.7).

ghost use Rattle.std.specs.Prelude.{◌≡◌, ◌≤◌, ◌^◌};
ghost use Rattle.std.specs.List.Sorted.{IsStrictlyIncreasing};
ghost use Rattle.vs_design.specs.Footprints.{contains, without};
ghost use Rattle.vs_design.specs.Refusals.{least, signal_of};
ghost use Rattle.vs_design.specs.Values.{count_from};
ghost use Rattle.vs_flat.specs.Arena.{signal_length};
ghost use Rattle.vs_flat.specs.DesignOf.{arena_signals};

use vs_flat::{Flat, Signal, bits_of, trees_law};
use vs_shape::is_among;

/// The least of the bits that isn't among the others. Both rise.
pub(crate) fn first_missing(reads: &[u32], waits: &[u32]) -> Option<u32>
    requires reads { IsStrictlyIncreasing reads.now }
    requires waits { IsStrictlyIncreasing waits.now }
    ensures { result ≡ least (without reads.now waits.now) }
{
    for bit in reads {
        if !is_among(waits, *bit) {
            return Some(*bit);
        }
    }
    None
}

/// Whether a bit is one of the signal's.
fn has_bit(signal: &Signal, bit: u32) -> bool
    requires { signal_length signal.now ≤ 2 ^ 20 }
    ensures { result ≡ contains (count_from signal.now.first_bit (signal_length signal.now)) bit }
{
    signal.first_bit <= bit && bit - signal.first_bit < bits_of(signal)
}

/// The number of the signal that has the bit.
pub(crate) fn signal_with(flat: &Flat, bit: u32) -> u32
    ensures { result ≡ signal_of (arena_signals flat.now) bit }
{
    trees_law();
    for n in 0..flat.signal_count() {
        if has_bit(flat.signal(n), bit) {
            return n;
        }
    }
    0
}

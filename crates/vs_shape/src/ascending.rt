//! Bits in ascending order.

ghost use Rattle.std.specs.Prelude.{◌≡◌, ◌<◌, ℕ, true};
ghost use Rattle.std.specs.List.Sorted.{IsStrictlyIncreasing};
ghost use Rattle.vs_design.specs.Footprints.{contains, ascending};

use vs_design::footprint_law;

/// Puts bits in ascending order, each once.
pub fn ascend(bits: &mut Vec<u32>)
    ensures rising { IsStrictlyIncreasing bits.new.items }
    ensures same { (b : ℕ) → contains bits.new.items b ≡ contains bits.old.items b }
    ensures is { (count : ℕ) → ((b : ℕ) → contains bits.old.items b ≡ true → b < count) → bits.new.items ≡ ascending count bits.old.items }
{
    footprint_law();
    bits.sort_unstable();
    bits.dedup();
}

/// Whether a bit is among these, which rise.
pub fn is_among(bits: &[u32], bit: u32) -> bool
    requires { IsStrictlyIncreasing bits.now }
    ensures { result ≡ contains bits.now bit }
{
    bits.binary_search(&bit).is_ok()
}

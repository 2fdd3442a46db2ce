//! Memories (IEEE 1364-2005, 4.9): what an address costs, and their bits.

ghost use Rattle.std.specs.Prelude.{◌≡◌, ◌<◌, ◌++◌, [], ℕ, length, if◌then◌else◌, OnOk};
ghost use Rattle.vs_design.specs.Footprints.{is_stored, memory_bits};
ghost use Rattle.vs_design.specs.Sizes as S;
ghost use Rattle.vs_design.specs.Values.{bits_of_signal};
ghost use Rattle.vs_flat.specs.DesignOf.{arena_signals, design_of};
ghost use Rattle.vs_flat.specs.Trees.{signal_at, signal_of};
ghost use Rattle.vs_typed.specs.Weights.{capped};

use crate::sums::{plus, times};
use std::alloc::AllocError;
use vs_flat::{Signal, range_bits, trees_law};
use vs_shape::Shapes;

/// What an address of m bits costs in a memory: twice the address and the word for each of its words.
pub(crate) fn address_weight(shapes: &Shapes, memory: u32, m: u64) -> u64
    requires { memory < length shapes.now.signals }
    ensures { result ≡ capped (S.address_weight (signal_at (arena_signals shapes.now) memory) m) }
{
    trees_law();
    let signal = shapes.flat().signal(memory);
    let each = plus(m, range_bits(signal.range));
    times(2, times(range_bits(signal.words), each))
}

/// Whether a signal is a memory whose words are kept: a variable, and no net of an array of nets.
fn is_stored(signal: &Signal) -> bool
    ensures { (n : ℕ) → result ≡ is_stored (signal_of n signal.now) }
{
    signal.words.is_some() && (!signal.net && !signal.input)
}

/// Adds the bits of signal n if it is a memory whose words are kept.
fn push_memory(shapes: &Shapes, n: u32, bits: &mut Vec<u32>) -> Result<(), AllocError>
    requires { n < length shapes.now.signals }
    ensures { OnOk result (bits.new.items ≡ bits.old.items ++ (if is_stored (signal_at (arena_signals shapes.now) n) then bits_of_signal (signal_at (arena_signals shapes.now) n) else [])) }
{
    trees_law();
    if is_stored(shapes.flat().signal(n)) {
        shapes.push_signal(n, bits)
    } else {
        Ok(())
    }
}

/// Adds the bits of all memories whose words are kept, written or not.
pub(crate) fn push_memories(shapes: &Shapes, bits: &mut Vec<u32>) -> Result<(), AllocError>
    ensures { OnOk result (bits.new.items ≡ bits.old.items ++ memory_bits (design_of shapes.now)) }
{
    trees_law();
    for n in 0..shapes.flat().signal_count() {
        push_memory(shapes, n, bits)?;
    }
    Ok(())
}

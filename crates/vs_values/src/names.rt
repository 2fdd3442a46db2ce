//! The slots of signals, and of literals.

ghost use Rattle.std.specs.Prelude.{◌≡◌, ◌+◌, ◌<◌, ◌≤◌, ◌^◌, ◌||◌, ◌&&◌, not, map, length, slice_index, IfOk, true};
ghost use Rattle.vs_design.specs.Values.{bits_of_signal, count_from};
ghost use Rattle.vs_design.specs.Within.{signal_within};
ghost use Rattle.vs_four.specs.Lengths.{last_or};
ghost use Rattle.vs_four.specs.Tables.{is_known};
ghost use Rattle.vs_four.specs.declared.Bit4.TheVariants.{Zero};
ghost use Rattle.vs_flat.specs.DesignOf.{arena_signals};
ghost use Rattle.vs_flat.specs.Trees.{signal_at};
ghost use Rattle.vs_values.specs.Constants.{constant_slots, extended_slots};

use crate::environment::Environment;
use crate::slots::{constant_slots, extended};
use crate::templates::Templates;
use std::alloc::{AllocError, Global};
use vs_base::Context;
use vs_flat::{bits_of, lawful_law, trees_law};
use vs_four::{Bit4, Bits, top};

/// The slots of bits one after the other.
pub(crate) fn run(
    alloc: Global,
    env: &Environment,
    first: u32,
    count: u32,
) -> Result<Vec<u32>, AllocError>
    requires inside { first + count ≤ length env.now }
    requires few { first + count < 2 ^ 32 }
    ensures { IfOk result (λ to. to.items ≡ map (slice_index env.now) (count_from first count)) }
{
    let mut to = Vec::with_capacity(alloc, count as usize)?;
    for k in 0..count {
        to.push(env.slot(first + k))?;
    }
    Ok(to)
}

/// The slots of a signal's bits.
pub fn signal_slots(
    alloc: Global,
    templates: &Templates,
    env: &Environment,
    signal: u32,
) -> Result<Vec<u32>, AllocError>
    requires signal { signal < length templates.now.arena.signals }
    requires within { signal_within (length env.now) (signal_at (arena_signals templates.now.arena) signal) ≡ true }
    ensures { IfOk result (λ to. to.items ≡ map (slice_index env.now) (bits_of_signal (signal_at (arena_signals templates.now.arena) signal))) }
{
    trees_law();
    lawful_law();
    let flat = templates.flat();
    let signal = flat.signal(signal);
    run(alloc, env, signal.first_bit, bits_of(signal))
}

/// A signal's bits, by their numbers, the least significant one first.
pub fn signal_bits(
    alloc: Global,
    templates: &Templates,
    signal: u32,
) -> Result<Vec<u32>, AllocError>
    requires signal { signal < length templates.now.arena.signals }
    ensures { IfOk result (λ bits. bits.items ≡ bits_of_signal (signal_at (arena_signals templates.now.arena) signal)) }
{
    trees_law();
    lawful_law();
    let flat = templates.flat();
    let signal = flat.signal(signal);
    numbers(alloc, signal.first_bit, bits_of(signal))
}

/// Numbers one after the other.
pub fn numbers(alloc: Global, first: u32, count: u32) -> Result<Vec<u32>, AllocError>
    requires { first + count < 2 ^ 32 }
    ensures { IfOk result (λ to. to.items ≡ count_from first count) }
{
    let mut to = Vec::with_capacity(alloc, count as usize)?;
    for k in 0..count {
        to.push(first + k)?;
    }
    Ok(to)
}

/// The slots of a signal's value, extended.
pub(crate) fn name(
    alloc: Global,
    templates: &Templates,
    env: &Environment,
    signal: u32,
    context: Context,
) -> Result<Vec<u32>, AllocError>
    requires signal { signal < length templates.now.arena.signals }
    requires within { signal_within (length env.now) (signal_at (arena_signals templates.now.arena) signal) ≡ true }
    ensures { IfOk result (λ to. to.items ≡ extended_slots context.width context.signed (map (slice_index env.now) (bits_of_signal (signal_at (arena_signals templates.now.arena) signal)))) }
{
    let from = signal_slots(alloc, templates, env, signal)?;
    extended(from, context.width, context.signed)
}

/// The slots of a literal's value, extended (IEEE 1364-2005, 3.5.1).
pub(crate) fn literal(
    alloc: Global,
    bits: Bits,
    sized: bool,
    context: Context,
) -> Result<Vec<u32>, AllocError>
    ensures { IfOk result (λ to. to.items ≡ extended_slots context.width (context.signed || (not sized && not (is_known (last_or Zero bits)))) (constant_slots bits)) }
{
    let signed = context.signed || !sized && !is_known(top(bits));
    extended(constant_slots(alloc, bits)?, context.width, signed)
}

/// Whether it is 0 or 1.
fn is_known(bit: Bit4) -> bool
    ensures { result ≡ is_known bit }
{
    match bit {
        Bit4::Zero | Bit4::One => true,
        Bit4::X | Bit4::Z => false,
    }
}

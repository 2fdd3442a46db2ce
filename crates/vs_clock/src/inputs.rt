//! The inputs of the top by which a design is driven.

ghost use Rattle.std.specs.Prelude.{◌≡◌, ◌<◌, None, length, map, option_map, IfOk, IfSome, MatchOption};
ghost use Rattle.std.specs.List.{list_any};
ghost use Rattle.vs_design.specs.Clocks.{clock_inputs, named_input, named_inputs, one_bit_inputs, same_name};
ghost use Rattle.vs_design.specs.Footprints.{contains};
ghost use Rattle.vs_flat.specs.DesignOf.{arena_signals, design_of};
ghost use Rattle.vs_flat.specs.Trees.{signal_at};
ghost use Rattle.vs_clock.specs.Clocked.{AreClockInputs};
ghost use Rattle.vs_clock.specs.Inputs.{AreNamed, is_named_input, reset_bit};

use crate::ports::only_bit;
use std::alloc::{AllocError, Global};
use vs_flat::{Flat, count_bits, trees_law};

/// Whether two names are the same, byte by byte (IEEE 1364-2005, 3.7).
pub fn are_same(a: &[u8], b: &[u8]) -> bool
    ensures { result ≡ same_name a.now b.now }
{
    a == b
}

/// Whether a signal is a one-bit input of the top with this name.
fn is_named(flat: &Flat, signal: u32, name: &[u8]) -> bool
    requires { signal < length flat.now.signals }
    ensures { result ≡ is_named_input name.now (signal_at (arena_signals flat.now) signal) }
{
    trees_law();
    let s = flat.signal(signal);
    if !s.input {
        return false;
    }
    if !are_same(s.name.as_slice(), name) {
        return false;
    }
    only_bit(flat, signal).is_some()
}

/// The one-bit input of the top that has this name, by its number.
fn find_clock(flat: &Flat, name: &[u8]) -> Option<u32>
    ensures clock { option_map (signal_at (arena_signals flat.now)) result ≡ named_input (design_of flat.now) name.now }
    ensures there { IfSome result (λ n. n < length flat.now.signals) }
{
    trees_law();
    for n in 0..flat.signal_count() {
        if is_named(flat, n, name) {
            return Some(n);
        }
    }
    None
}

/// Clock inputs, by their numbers and their bits.
#[derive(Drop)]
pub(crate) struct ClockInputs {
    pub(crate) numbers: Vec<u32>,
    pub(crate) bits: Vec<u32>,
}

/// Whether this name is among these.
fn is_among(name: &[u8], names: &[&[u8]]) -> bool
    ensures { result ≡ list_any (λ c. same_name name.now c.now) names.now }
{
    names.iter().any(|other| are_same(name, other))
}

/// The clock inputs of these names, where each has one and none is there twice.
fn named_clocks(
    alloc: Global,
    flat: &Flat,
    names: &[&[u8]],
) -> Result<Option<ClockInputs>, AllocError>
    ensures { IfOk result (λ o. MatchOption o (named_inputs (design_of flat.now) (map (λ c. c.now) names.now) ≡ None)
        (λ found. AreNamed (design_of flat.now) (map (λ c. c.now) names.now) found.numbers.items found.bits.items)) }
{
    trees_law();
    let mut numbers = Vec::new(alloc);
    let mut bits = Vec::new(alloc);
    for (k, name) in names.iter().enumerate() {
        if is_among(*name, &names[k + 1..]) {
            return Ok(None);
        }
        match find_clock(flat, *name) {
            Some(number) => {
                numbers.push(number)?;
                bits.push(flat.signal(number).first_bit)?;
            }
            None => return Ok(None),
        }
    }
    Ok(Some(ClockInputs { numbers, bits }))
}

/// The clocks of these names; where no clock is named, the number of the design's bits is the one bit.
pub(crate) fn clocks_of(
    alloc: Global,
    flat: &Flat,
    clocks: &[&[u8]],
) -> Result<Option<ClockInputs>, AllocError>
    ensures { IfOk result (λ o. MatchOption o (clock_inputs (design_of flat.now) (map (λ c. c.now) clocks.now) ≡ None)
        (λ found. AreClockInputs (design_of flat.now) (map (λ c. c.now) clocks.now) found.numbers.items found.bits.items)) }
{
    trees_law();
    if clocks.is_empty() {
        let bits = vec![in alloc; count_bits(flat)]?;
        return Ok(Some(ClockInputs {
            numbers: Vec::new(alloc),
            bits,
        }));
    }
    named_clocks(alloc, flat, clocks)
}

/// Whether this bit is among these.
pub(crate) fn is_one_of(bits: &[u32], bit: u32) -> bool
    ensures { result ≡ contains bits.now bit }
{
    bits.iter().any(|other| bit == *other)
}

/// The bit of a signal that has one, where it isn't a clock's.
fn bit_for_reset(flat: &Flat, signal: u32, clocks: &[u32]) -> Option<u32>
    requires { signal < length flat.now.signals }
    ensures { result ≡ reset_bit clocks.now (signal_at (arena_signals flat.now) signal) }
{
    match only_bit(flat, signal) {
        Some(bit) => {
            if is_one_of(clocks, bit) {
                None
            } else {
                Some(bit)
            }
        }
        None => None,
    }
}

/// The bits of the one-bit inputs of the top but the clocks, in order of declaration.
pub(crate) fn reset_bits(alloc: Global, flat: &Flat, clocks: &[u32]) -> Result<Vec<u32>, AllocError>
    ensures { IfOk result (λ v. v.items ≡ one_bit_inputs (design_of flat.now) clocks.now) }
{
    trees_law();
    let mut bits = Vec::new(alloc);
    for signal in flat.top_inputs() {
        match bit_for_reset(flat, *signal, clocks) {
            Some(bit) => bits.push(bit)?,
            None => {}
        }
    }
    Ok(bits)
}

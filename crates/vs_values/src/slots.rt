//! Lists of slots that need no call: constants, and slots that are extended.

ghost use Rattle.std.specs.Prelude.{◌≡◌, ◌↔◌, ◌<◌, ◌≤◌, length, All, IfOk, IsTrue, if◌then◌else◌};
ghost use Rattle.vs_four.specs.Lengths.{last_or};
ghost use Rattle.vs_values.specs.Constants.{AreConstant, constant_bit, constant_bits, constant_slot, constant_slots, extended_slots};

use std::alloc::{AllocError, Global};
use vs_four::{Bit4, Bits};

/// The slot that holds this bit always.
pub(crate) fn constant_slot(bit: Bit4) -> u32
    ensures { result ≡ constant_slot bit }
{
    match bit {
        Bit4::Zero => 0,
        Bit4::One => 1,
        Bit4::X => 2,
        Bit4::Z => 3,
    }
}

/// The bit that a constant's slot holds.
pub(crate) fn constant_bit(slot: u32) -> Bit4
    ensures { result ≡ constant_bit slot }
{
    match slot {
        0 => Bit4::Zero,
        1 => Bit4::One,
        2 => Bit4::X,
        _ => Bit4::Z,
    }
}

/// The slots of a constant.
pub(crate) fn constant_slots(alloc: Global, bits: Bits) -> Result<Vec<u32>, AllocError>
    ensures { IfOk result (λ to. to.items ≡ constant_slots bits) }
{
    let mut to = Vec::with_capacity(alloc, bits.len() as usize)?;
    for n in 0..bits.len() {
        to.push(constant_slot(bits.get(n)))?;
    }
    Ok(to)
}

/// Whether all of these are constants' slots.
pub fn are_constant(slots: &[u32]) -> bool
    ensures { IsTrue result ↔ AreConstant slots.now }
{
    slots.iter().all(|slot| *slot < 4)
}

/// The constant in these slots.
pub fn constant_bits(alloc: Global, slots: &[u32]) -> Result<Bits, AllocError>
    requires some { 1 ≤ length slots.now }
    requires at_most_64 { length slots.now ≤ 64 }
    ensures { IfOk result (λ bits. bits ≡ constant_bits slots.now) }
{
    let mut bits = Vec::with_capacity(alloc, slots.len())?;
    for slot in slots {
        bits.push(constant_bit(*slot))?;
    }
    Ok(Bits::of(bits.as_slice()))
}

/// What a value is extended with: its top bit where `signed`, else 0.
pub(crate) fn fill(slots: &[u32], signed: bool) -> u32
    ensures { result ≡ (if signed then last_or 0 slots.now else 0) }
{
    let length = slots.len();
    if signed && length > 0 {
        slots[length - 1]
    } else {
        0
    }
}

/// The slots of a value that is extended (IEEE 1364-2005, 5.4.1).
pub(crate) fn extended(mut to: Vec<u32>, width: u32, signed: bool) -> Result<Vec<u32>, AllocError>
    ensures { IfOk result (λ v. v.items ≡ extended_slots width signed to.items) }
{
    let fill = fill(to.as_slice(), signed);
    let length = to.len();
    if length < width as usize {
        for _ in 0..width as usize - length {
            to.push(fill)?;
        }
    }
    Ok(to)
}

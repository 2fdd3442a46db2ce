//! Shifts by constant amounts: slots that are moved, with no call.

ghost use Rattle.std.specs.Prelude.{◌≡◌, ◌+◌, ◌*◌, ◌≤◌, Bool, length, nat_lt, if◌then◌else◌, replicate, IfOk, true, false};
ghost use Rattle.vs_design.specs.Expressions.{way};
ghost use Rattle.vs_design.specs.Sizes.{is_shift};
ghost use Rattle.vs_four.specs.Logic.{all_known};
ghost use Rattle.vs_four.specs.Numbers.{digit};
ghost use Rattle.vs_four.specs.Shifts.{distance, move_down, move_up};
ghost use Rattle.vs_values.specs.Constants.{constant_bit, constant_bits, shifted_slots};

use crate::slots::fill;
use std::alloc::{AllocError, Global};
use vs_base::BinaryOp;

/// Whether these constants' slots have no x and no z.
pub(crate) fn known(amount: &[u32]) -> bool
    ensures { result ≡ all_known (constant_bits amount.now) }
{
    for slot in amount {
        if *slot >= 2 {
            return false;
        }
    }
    true
}

/// By how many places they move a vector of this length (IEEE 1364-2005, 5.1.12).
pub(crate) fn distance(amount: &[u32], length: u32) -> u32
    requires { length ≤ 64 }
    ensures exact { result ≡ distance length (constant_bits amount.now) }
    ensures most { result ≤ length }
{
    let mut moved = 0;
    let mut place = amount.len();
    while place > 0 {
        place -= 1;
        moved = doubled(moved, amount[place], length);
    }
    moved
}

/// With one more bit of the amount below.
fn doubled(moved: u32, slot: u32, length: u32) -> u32
    requires length { length ≤ 64 }
    requires moved { moved ≤ length }
    ensures exact { result ≡ (if nat_lt length (digit (constant_bit slot) + 2 * moved) then length else (digit (constant_bit slot) + 2 * moved)) }
    ensures most { result ≤ length }
{
    let bit = if slot == 1 { 1 } else { 0 };
    let sum = bit + 2 * moved;
    if length < sum { length } else { sum }
}

/// The slots moved up, with this slot from below.
pub(crate) fn raised(
    alloc: Global,
    to: &[u32],
    places: u32,
    fill: u32,
) -> Result<Vec<u32>, AllocError>
    requires { places ≤ length to.now }
    ensures { IfOk result (λ v. v.items ≡ move_up fill places to.now) }
{
    let mut moved = Vec::with_capacity(alloc, to.len())?;
    for _ in 0..places {
        moved.push(fill)?;
    }
    for k in 0..to.len() - places as usize {
        moved.push(to[k])?;
    }
    Ok(moved)
}

/// The slots moved down, with this slot from above.
pub(crate) fn lowered(
    alloc: Global,
    to: &[u32],
    places: u32,
    fill: u32,
) -> Result<Vec<u32>, AllocError>
    requires { places ≤ length to.now }
    ensures { IfOk result (λ v. v.items ≡ move_down fill places to.now) }
{
    let mut moved = Vec::with_capacity(alloc, to.len())?;
    for k in places as usize..to.len() {
        moved.push(to[k])?;
    }
    for _ in 0..places {
        moved.push(fill)?;
    }
    Ok(moved)
}

/// This slot, so many times.
pub(crate) fn repeated(alloc: Global, slot: u32, count: usize) -> Result<Vec<u32>, AllocError>
    ensures { IfOk result (λ v. v.items ≡ replicate count slot) }
{
    let mut to = Vec::with_capacity(alloc, count)?;
    for _ in 0..count {
        to.push(slot)?;
    }
    Ok(to)
}

/// The slots of a shift by a constant amount.
pub(crate) fn moved(
    alloc: Global,
    op: BinaryOp,
    signed: bool,
    to: &[u32],
    amount: &[u32],
) -> Result<Vec<u32>, AllocError>
    requires shift { is_shift (way op) ≡ true }
    requires most { length to.now ≤ 64 }
    ensures { IfOk result (λ v. v.items ≡ shifted_slots op signed to.now (constant_bits amount.now)) }
{
    if !known(amount) {
        return repeated(alloc, 2, to.len());
    }
    let places = distance(amount, to.len() as u32);
    match op {
        BinaryOp::ShiftLeft => raised(alloc, to, places, 0),
        BinaryOp::ShiftLeftArith => raised(alloc, to, places, 0),
        BinaryOp::ShiftRight => lowered(alloc, to, places, 0),
        BinaryOp::ShiftRightArith => lowered(alloc, to, places, fill(to, signed)),
        _ => unreachable!(),
    }
}

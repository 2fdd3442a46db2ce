//! The copies at the end of a process.

ghost use Rattle.std.specs.Prelude.{◌≡◌, ◌+◌, ◌<◌, ◌≤◌, ◌^◌, ◌++◌, length, map, slice_index, All, IfOk, OnOk};
ghost use Rattle.vs_code.specs.Calls.{IsCall, length_of};
ghost use Rattle.vs_lower.specs.Copies.{copies, home_copies};

use crate::branches::differing;
use std::alloc::{AllocError, Global};
use vs_values::{Code, Environment, picked};

/// Copies the values of those of these bits that have left their homes to their homes: by one call, and of none by none.
pub(crate) fn copy_home(
    alloc: Global,
    env: &Environment,
    count: u32,
    bits: &[u32],
    code: &mut Code,
) -> Result<(), AllocError>
    requires count { 4 + count ≤ 2 ^ 32 }
    requires long { length env.now ≡ count }
    requires inside { All (λ b. b < count) bits.now }
    requires calls { All IsCall (home_copies count bits.now env.now) }
    requires few { length_of code.old.calls + length_of (home_copies count bits.now env.now) ≤ 2 ^ 32 }
    ensures calls { OnOk result (code.new.calls ≡ code.old.calls ++ home_copies count bits.now env.now) }
    ensures next { OnOk result (code.new.next ≡ code.old.next) }
{
    let start = Environment::at_home(alloc, count);
    let home = picked(alloc, &start, bits)?;
    let those = differing(alloc, bits, home.as_slice(), env)?;
    if those.is_empty() {
        return Ok(());
    }
    let from = picked(alloc, env, those.as_slice())?;
    let to = picked(alloc, &start, those.as_slice())?;
    code.copy(alloc, from, to)?;
    Ok(())
}

/// The elements of a list at these places.
fn at_places(alloc: Global, list: &[u32], places: &[u32]) -> Result<Vec<u32>, AllocError>
    requires { All (λ p. p < length list.now) places.now }
    ensures { IfOk result (λ v. v.items ≡ map (slice_index list.now) places.now) }
{
    let mut found = Vec::with_capacity(alloc, places.len())?;
    for n in 0..places.len() {
        found.push(list[places[n] as usize])?;
    }
    Ok(found)
}

/// Copies the values of these bits to their slots in `to`: by one call, and of none by none.
pub(crate) fn copy_all(
    alloc: Global,
    env: &Environment,
    bits: &[u32],
    to: &[u32],
    code: &mut Code,
) -> Result<(), AllocError>
    requires inside { All (λ b. b < length env.now) bits.now }
    requires places { All (λ b. b < length to.now) bits.now }
    requires calls { All IsCall (copies (map (slice_index env.now) bits.now) (map (slice_index to.now) bits.now)) }
    requires few { length_of code.old.calls + length_of (copies (map (slice_index env.now) bits.now) (map (slice_index to.now) bits.now)) ≤ 2 ^ 32 }
    ensures calls { OnOk result (code.new.calls ≡ code.old.calls ++ copies (map (slice_index env.now) bits.now) (map (slice_index to.now) bits.now)) }
    ensures next { OnOk result (code.new.next ≡ code.old.next) }
{
    if bits.is_empty() {
        return Ok(());
    }
    let from = picked(alloc, env, bits)?;
    let slots = at_places(alloc, to, bits)?;
    code.copy(alloc, from, slots)?;
    Ok(())
}

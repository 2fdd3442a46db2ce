//! The join of the branches of an `if`.

ghost use Rattle.std.specs.Prelude.{◌≡◌, ◌<◌, ◌^◌, [], ◌∷◌, map, length, slice_index, All, IfOk, OnOk, Some};
ghost use Rattle.std.specs.List.{range_with_len};
ghost use Rattle.vs_kern_select.specs.declared.costs.Kernel.TheVariants as S;
ghost use Rattle.vs_code.specs.declared.kernels.AnyKernel.TheVariants as K;
ghost use Rattle.vs_values.specs.Coded.{with_call};
ghost use Rattle.vs_values.specs.Environments.{placed};
ghost use Rattle.vs_values.specs.Made.{IsCallable};
ghost use Rattle.vs_lower.specs.Joined.{AreJoinable, AreJoined, IsJoinable, IsJoined, differing_bits, differing_slots};
ghost use Rattle.vs_lower.specs.Stated.{AddsJoin};

use crate::environments::{Environments, Slots};
use std::alloc::{AllocError, Global};
use vs_code::AnyKernel;
use vs_values::{Code, Environment, picked, place, triple};

/// Those of these bits whose slots differ in both.
pub(crate) fn differing(
    alloc: Global,
    bits: &[u32],
    first: &[u32],
    env: &Environment,
) -> Result<Vec<u32>, AllocError>
    requires inside { All (λ b. b < length env.now) bits.now }
    requires alike { length bits.now ≡ length first.now }
    ensures { IfOk result (λ those. those.items ≡ differing_bits bits.now first.now env.now) }
{
    let mut those = Vec::new(alloc);
    for n in 0..bits.len() {
        if first[n] != env.slot(bits[n]) {
            those.push(bits[n])?;
        }
    }
    Ok(those)
}

/// And their slots in the first.
fn differing_first(
    alloc: Global,
    bits: &[u32],
    first: &[u32],
    env: &Environment,
) -> Result<Vec<u32>, AllocError>
    requires inside { All (λ b. b < length env.now) bits.now }
    requires alike { length bits.now ≡ length first.now }
    ensures { IfOk result (λ those. those.items ≡ differing_slots bits.now first.now env.now) }
{
    let mut those = Vec::new(alloc);
    for n in 0..bits.len() {
        if first[n] != env.slot(bits[n]) {
            those.push(first[n])?;
        }
    }
    Ok(those)
}

/// Calls the join of these bits, which are some.
fn joined(
    alloc: Global,
    condition: Vec<u32>,
    taken: Vec<u32>,
    bits: &[u32],
    env: &mut Environment,
    code: &mut Code,
) -> Result<(), AllocError>
    requires inside { All (λ b. b < length env.old) bits.now }
    requires few { length bits.now < 2 ^ 32 }
    requires call { IsCallable code.old (K.Select S.Branch) (condition.items ∷ taken.items ∷ map (slice_index env.old) bits.now ∷ []) (length bits.now) }
    ensures code { OnOk result (code.new ≡ with_call code.old (K.Select S.Branch) (condition.items ∷ taken.items ∷ map (slice_index env.old) bits.now ∷ []) (length bits.now)) }
    ensures env { OnOk result (env.new ≡ placed env.old (map Some bits.now) (range_with_len code.old.next (length bits.now))) }
{
    let other = picked(alloc, env, bits)?;
    let args = triple(alloc, condition, taken, other)?;
    let to = code.call(
        alloc,
        AnyKernel::Select(vs_kern_select::Kernel::Branch),
        args,
        bits.len() as u32,
    )?;
    place(env, bits, to.as_slice())
}

/// After both branches of an `if`: these bits have the slots `first` after its first branch, and those of the environment after its other
/// one. Those that differ get new slots.
pub(crate) fn join(
    alloc: Global,
    condition: Vec<u32>,
    bits: &[u32],
    first: &[u32],
    env: &mut Environment,
    code: &mut Code,
) -> Result<(), AllocError>
    requires inside { All (λ b. b < length env.old) bits.now }
    requires alike { length bits.now ≡ length first.now }
    requires few { length bits.now < 2 ^ 32 }
    requires call { IsJoinable condition.items bits.now first.now env.old code.old }
    ensures { OnOk result (IsJoined condition.items bits.now first.now env.old env.new code.old code.new) }
{
    let those = differing(alloc, bits, first, env)?;
    if those.is_empty() {
        return Ok(());
    }
    let taken = differing_first(alloc, bits, first, env)?;
    joined(alloc, condition, taken, those.as_slice(), env, code)
}

/// The join of these bits in both environments: after its first branch they have the slots `first`.
pub(crate) fn join_both(
    alloc: Global,
    condition: Vec<u32>,
    bits: &[u32],
    first: &Slots,
    env: &mut Environments,
    code: &mut Code,
) -> Result<(), AllocError>
    requires values { All (λ b. b < length env.old.values) bits.now }
    requires ahead { All (λ b. b < length env.old.ahead) bits.now }
    requires values_alike { length bits.now ≡ length first.now.values.items }
    requires ahead_alike { length bits.now ≡ length first.now.ahead.items }
    requires few { length bits.now < 2 ^ 32 }
    requires calls { AreJoinable condition.items bits.now first.now.values.items first.now.ahead.items env.old.values env.old.ahead code.old }
    ensures { OnOk result (AreJoined condition.items bits.now first.now.values.items first.now.ahead.items env.old.values env.old.ahead env.new.values env.new.ahead code.old code.new) }
{
    let again = Vec::from_slice(alloc, condition.as_slice())?;
    join(
        alloc,
        condition,
        bits,
        first.values.as_slice(),
        &mut env.values,
        code,
    )?;
    join(
        alloc,
        again,
        bits,
        first.ahead.as_slice(),
        &mut env.ahead,
        code,
    )?;
    Ok(())
}

/// The join where the bits have the slots `behind` after the other branch: it answers the slots that they have after it, and leaves the environments as they were.
pub(crate) fn join_apart(
    alloc: Global,
    condition: Vec<u32>,
    bits: &[u32],
    first: &Slots,
    behind: &Slots,
    env: &mut Environments,
    code: &mut Code,
) -> Result<Slots, AllocError>
    requires values { All (λ b. b < length env.old.values) bits.now }
    requires ahead { All (λ b. b < length env.old.ahead) bits.now }
    requires values_alike { length bits.now ≡ length first.now.values.items }
    requires ahead_alike { length bits.now ≡ length first.now.ahead.items }
    requires behind_values { length bits.now ≡ length behind.now.values.items }
    requires behind_ahead { length bits.now ≡ length behind.now.ahead.items }
    requires few { length bits.now < 2 ^ 32 }
    requires calls { AreJoinable condition.items bits.now first.now.values.items first.now.ahead.items (placed env.old.values (map Some bits.now) behind.now.values.items) (placed env.old.ahead (map Some bits.now) behind.now.ahead.items) code.old }
    ensures adds { IfOk result (λ slots. AddsJoin condition.items bits.now first.now.values.items first.now.ahead.items (placed env.old.values (map Some bits.now) behind.now.values.items) (placed env.old.ahead (map Some bits.now) behind.now.ahead.items) code.old code.new slots.values.items slots.ahead.items) }
    ensures values { OnOk result (env.new.values ≡ env.old.values) }
    ensures ahead { OnOk result (env.new.ahead ≡ env.old.ahead) }
{
    let before = env.exchange(alloc, bits, behind)?;
    join_both(alloc, condition, bits, first, env, code)?;
    let slots = env.exchange(alloc, bits, &before)?;
    Ok(slots)
}

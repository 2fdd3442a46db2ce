//! Flags of the bits that a block writes.

ghost use Rattle.std.specs.Prelude.{◌≡◌, ◌<◌, ◌==◌, ◌∷◌, [], ℕ, length, IfOk, OnOk, true};
ghost use Rattle.std.specs.List.Sorted.{IsStrictlyIncreasing};
ghost use Rattle.vs_block.specs.Flags.{bit_at, is_set, IsThere, IsIndexOf, AreSet, AreNoted, AreFlagged, AreShared, AreFresh};

use std::alloc::{AllocError, Global};

/// Where a bit stands among the block's own, which rise.
fn index_of(own: &[u32], bit: u32) -> Option<usize>
    requires { IsStrictlyIncreasing own.now }
    ensures there { IsThere (length own.now) result }
    ensures is { IsIndexOf own.now bit result }
{
    own.binary_search(&bit).ok()
}

/// The flag of a bit. One that isn't the block's own has none.
fn has_flag(own: &[u32], flags: &[bool], bit: u32) -> bool
    requires rising { IsStrictlyIncreasing own.now }
    requires many { length flags.now ≡ length own.now }
    ensures { (k : ℕ) → k < length own.now → (bit_at own.now k == bit) ≡ true → result ≡ is_set flags.now k }
{
    match index_of(own, bit) {
        Some(k) => flags[k],
        None => false,
    }
}

/// Sets the flag of a bit, if it is one of the block's own.
fn set_flag(own: &[u32], flags: &mut [bool], bit: u32, to: bool)
    requires rising { IsStrictlyIncreasing own.now }
    requires many { length flags.old ≡ length own.now }
    ensures { AreSet own.now (bit ∷ []) to flags.old flags.new }
{
    if let Some(k) = index_of(own, bit) {
        flags[k] = to;
    }
}

/// Sets the flags of these bits.
pub(crate) fn set_flags(own: &[u32], flags: &mut [bool], bits: &[u32], to: bool)
    requires rising { IsStrictlyIncreasing own.now }
    requires many { length flags.old ≡ length own.now }
    ensures { AreSet own.now bits.now to flags.old flags.new }
{
    for bit in bits {
        set_flag(own, flags, *bit, to);
    }
}

/// Notes that a bit is read, if it is one of the block's own and isn't assigned.
fn note_read(own: &[u32], assigned: &[bool], early: &mut [bool], bit: u32)
    requires rising { IsStrictlyIncreasing own.now }
    requires many { length assigned.now ≡ length own.now }
    requires as_many { length early.old ≡ length own.now }
    ensures { AreNoted own.now (bit ∷ []) assigned.now early.old early.new }
{
    if !has_flag(own, assigned, bit) {
        set_flag(own, early, bit, true);
    }
}

/// Notes that these bits are read, as far as they are the block's own and aren't assigned.
pub(crate) fn note_reads(own: &[u32], assigned: &[bool], early: &mut [bool], bits: &[u32])
    requires rising { IsStrictlyIncreasing own.now }
    requires many { length assigned.now ≡ length own.now }
    requires as_many { length early.old ≡ length own.now }
    ensures { AreNoted own.now bits.now assigned.now early.old early.new }
{
    for bit in bits {
        note_read(own, assigned, early, *bit);
    }
}

/// Those of the bits that have this flag. A bit that isn't the block's own has none.
pub(crate) fn flagged(
    alloc: Global,
    own: &[u32],
    flags: &[bool],
    bits: &[u32],
    flag: bool,
) -> Result<Vec<u32>, AllocError>
    requires rising { IsStrictlyIncreasing own.now }
    requires many { length flags.now ≡ length own.now }
    ensures { IfOk result (λ v. AreFlagged own.now bits.now flags.now flag v.items) }
{
    let mut found = Vec::new(alloc);
    for bit in bits {
        if has_flag(own, flags, *bit) == flag {
            found.push(*bit)?;
        }
    }
    Ok(found)
}

/// The bits that are in both lists. The flags are as before, but where memory is wanting.
pub(crate) fn shared_bits(
    alloc: Global,
    own: &[u32],
    assigned: &mut [bool],
    first: &[u32],
    second: &[u32],
) -> Result<Vec<u32>, AllocError>
    requires rising { IsStrictlyIncreasing own.now }
    requires many { length assigned.old ≡ length own.now }
    requires fresh { AreFresh own.now assigned.old first.now }
    ensures same { OnOk result (assigned.new ≡ assigned.old) }
    ensures shared { IfOk result (λ v. AreShared own.now first.now second.now assigned.old v.items) }
{
    set_flags(own, assigned, first, true);
    let found = flagged(alloc, own, assigned, second, true)?;
    set_flags(own, assigned, first, false);
    Ok(found)
}

//! Tables after branches that start from the same one.

ghost use Rattle.std.specs.Prelude.{◌≡◌, ◌≤◌, ◌<◌, ◌+◌, length, map, IfOk, All};
ghost use Rattle.vs_design.specs.Lifted.{Family};
ghost use Rattle.vs_design.specs.LiftedBodies.{either};
ghost use Rattle.vs_sets.specs.Tables.{family_of};
ghost use Rattle.vs_sets.specs.Branches.{replaced};

use crate::Set4;
use std::alloc::{AllocError, Global};

/// The sets of these bits.
pub fn sets_of(alloc: Global, table: &[Set4], bits: &[u32]) -> Result<Vec<Set4>, AllocError>
    requires { All (λ b. b < length table.now) bits.now }
    ensures { IfOk result (λ v. v.items ≡ map (family_of table.now) bits.now) }
{
    let mut sets = Vec::with_capacity(alloc, bits.len())?;
    for bit in bits {
        sets.push(table[*bit as usize])?;
    }
    Ok(sets)
}

/// Gives these bits their sets of before.
pub fn put_back(table: &mut [Set4], bits: &[u32], sets: &[Set4])
    requires within { All (λ b. b < length table.old) bits.now }
    requires many { length sets.now ≡ length bits.now }
    ensures { (before : Family) → sets.now ≡ map before bits.now → family_of table.new ≡ replaced bits.now before (family_of table.old) }
{
    for i in 0..bits.len() {
        table[bits[i] as usize] = sets[i];
    }
}

/// Lets these bits have what they had after another branch too.
pub(crate) fn unite(table: &mut [Set4], bits: &[u32], sets: &[Set4])
    requires within { All (λ b. b < length table.old) bits.now }
    requires many { length sets.now ≡ length bits.now }
    ensures { (other : Family) → sets.now ≡ map other bits.now → family_of table.new ≡ replaced bits.now (either other (family_of table.old)) (family_of table.old) }
{
    for i in 0..bits.len() {
        let bit = bits[i] as usize;
        table[bit] = sets[i].union(table[bit]);
    }
}

//! Tables of sets, one for each bit of the design.

ghost use Rattle.std.specs.Prelude.{◌≡◌, ◌≤◌, ◌<◌, ◌+◌, ℕ, length, map, Some, None, slice_index_or, All};
ghost use Rattle.std.specs.List.{list_all};
ghost use Rattle.vs_design.specs.LiftedBodies.{put_each, widen};
ghost use Rattle.vs_design.specs.Sets.{is_only_x};
ghost use Rattle.vs_design.specs.Values.{count_from};
ghost use Rattle.vs_sets.specs.Branches.{replaced};
ghost use Rattle.vs_sets.specs.Tables.{family_of, bits_from};

use crate::Set4;
use vs_shape::Places;

/// Writes sets one after the other, from this bit on.
pub(crate) fn put_run(table: &mut [Set4], first: usize, sets: &[Set4])
    requires { first + length sets.now ≤ length table.old }
    ensures { family_of table.new ≡ put_each (map Some (count_from first (length sets.now))) sets.now (family_of table.old) }
{
    for k in 0..sets.len() {
        table[first + k] = sets[k];
    }
}

/// Writes sets to these places of the signal that begins with this bit. What has no place isn't written.
pub(crate) fn put_places(table: &mut [Set4], first: usize, places: &Places, sets: &[Set4])
    requires inside { (k n : ℕ) → slice_index_or places.now k None ≡ Some n → first + n < length table.old }
    requires same_length { length sets.now ≡ length places.now }
    ensures { family_of table.new ≡ put_each (bits_from first places.now) sets.now (family_of table.old) }
{
    for k in 0..places.len() {
        if let Some(n) = places.get(k) {
            table[first + n] = sets[k as usize];
        }
    }
}

/// Lets each bit of a run have the values of this set too.
pub(crate) fn widen_run(table: &mut [Set4], first: usize, len: usize, set: Set4)
    requires { first + len ≤ length table.old }
    ensures { family_of table.new ≡ widen (count_from first len) set (family_of table.old) }
{
    for bit in first..first + len {
        table[bit] = table[bit].union(set);
    }
}

/// Whether each of these bits is surely x.
pub fn are_only_x(table: &[Set4], bits: &[u32]) -> bool
    requires { All (λ b. b < length table.now) bits.now }
    ensures { result ≡ list_all (λ b. is_only_x (family_of table.now b)) bits.now }
{
    for bit in bits {
        if !table[*bit as usize].is_only_x() {
            return false;
        }
    }
    true
}

/// Gives each of these bits this set.
pub fn fill(table: &mut [Set4], bits: &[u32], set: Set4)
    requires { All (λ b. b < length table.old) bits.now }
    ensures { family_of table.new ≡ replaced bits.now (λ b. set) (family_of table.old) }
{
    for i in 0..bits.len() {
        table[bits[i] as usize] = set;
    }
}

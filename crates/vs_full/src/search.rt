//! The search that tells whether patterns match every list of known bits.

ghost use Rattle.std.specs.Prelude.{◌≡◌, ◌≤◌, ◌<◌, ◌+◌, ◌-◌, ◌*◌, ◌^◌, ℕ, true, length, map, filter, take, sum_by, nat_lt, Some, IfOk, All};
ghost use Rattle.std.specs.List.{list_all, list_any};
ghost use Rattle.vs_design.specs.Sets.{has};
ghost use Rattle.vs_design.specs.Covers.{is_free, values_of, at_bit, free_in, least_free, half, splits, is_within, covers};
ghost use Rattle.vs_full.specs.Searched.{AreLong, IsLeft};

use crate::patterns::{at_bit, is_all_free, is_free, values_of, without_bit};
use std::alloc::{AllocError, Global};
use vs_four::Bit4;
use vs_sets::SetList;

/// How many splits may be made, and one more.
const SPLITS: u32 = 65_536;

/// Whether a pattern matches all lists of known bits.
fn has_free(patterns: &[SetList]) -> bool
    ensures { result ≡ list_any (list_all is_free) patterns.now }
{
    patterns
        .iter()
        .any(|pattern| is_all_free(pattern.as_slice()))
}

/// Two to this power.
fn power(n: usize) -> u128
    requires { n ≤ 64 }
    ensures { result ≡ 2 ^ n }
{
    let mut value: u128 = 1;
    for _k in 0..n {
        value += value;
    }
    value
}

/// Whether the patterns together have fewer values than there are of n bits.
fn are_few(n: usize, patterns: &[SetList]) -> bool
    requires bits { n ≤ 64 }
    requires many { length patterns.now ≤ 4096 }
    ensures { result ≡ nat_lt (sum_by values_of patterns.now) (2 ^ n) }
{
    let mut sum: u128 = 0;
    for pattern in patterns {
        sum += values_of(pattern.as_slice());
    }
    sum < power(n)
}

/// How many patterns leave bit i free.
fn free_in(i: usize, patterns: &[SetList]) -> usize
    requires { All (λ p. i < length p) patterns.now }
    ensures { result ≡ free_in i patterns.now }
{
    let mut count = 0;
    for pattern in patterns {
        if is_free(at_bit(pattern, i)) {
            count += 1;
        }
    }
    count
}

/// Of the bits 0 to n the one that the fewest patterns leave free, and the least of these.
fn least_free(n: usize, patterns: &[SetList]) -> usize
    requires bits { n < 64 }
    requires inside { All (λ p. n < length p) patterns.now }
    ensures is { result ≡ least_free n patterns.now }
    ensures within { result ≤ n }
{
    let mut least = 0;
    for k in 0..n {
        if free_in(k + 1, patterns) < free_in(least, patterns) {
            least = k + 1;
        }
    }
    least
}

/// The patterns that match where bit i has this value, without the bit.
fn half(
    alloc: Global,
    value: Bit4,
    i: usize,
    patterns: &[SetList],
) -> Result<Vec<SetList>, AllocError>
    requires { All (λ p. i < length p) patterns.now }
    ensures { IfOk result (λ v. v.items ≡ half value i patterns.now) }
{
    let mut kept = Vec::new(alloc);
    for pattern in patterns {
        if at_bit(pattern, i).has(value) {
            kept.push(without_bit(pattern.as_slice(), i))?;
        }
    }
    Ok(kept)
}

/// Whether it is found, in no more splits than are left, that each list of n known bits matches a pattern. Those that were made are taken off.
fn search(alloc: Global, n: usize, patterns: &[SetList], left: &mut u32) -> Result<bool, AllocError>
    requires bits { n ≤ 64 }
    requires many { length patterns.now ≤ 4096 }
    requires long { AreLong n patterns.now }
    ensures found { IfOk result (λ r. r ≡ is_within (left.old + 1) (splits n patterns.now)) }
    ensures left { IfOk result (λ r. r ≡ true → IsLeft left.old left.new (splits n patterns.now)) }
{
    if has_free(patterns) {
        return Ok(true);
    }
    if n == 0 || are_few(n, patterns) || *left == 0 {
        return Ok(false);
    }
    let i = least_free(n - 1, patterns);
    *left -= 1;
    let zero = half(alloc, Bit4::Zero, i, patterns)?;
    if !search(alloc, n - 1, zero.as_slice(), left)? {
        return Ok(false);
    }
    let one = half(alloc, Bit4::One, i, patterns)?;
    search(alloc, n - 1, one.as_slice(), left)
}

/// Whether it is found in fewer than 65,536 splits that each list of n known bits matches one of these patterns, at most 4,096.
pub fn covers(alloc: Global, n: usize, patterns: &[SetList]) -> Result<bool, AllocError>
    requires bits { n ≤ 64 }
    requires many { length patterns.now ≤ 4096 }
    requires long { AreLong n patterns.now }
    ensures { IfOk result (λ r. r ≡ covers n patterns.now) }
{
    let mut left = SPLITS - 1;
    search(alloc, n, patterns, &mut left)
}

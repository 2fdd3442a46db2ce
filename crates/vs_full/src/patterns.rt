//! Patterns: for each bit of a selector those of 0 and 1 that match an item there.

ghost use Rattle.std.specs.Prelude.{◌≡◌, ◌≤◌, ◌<◌, ◌+◌, ◌-◌, ◌^◌, suc, length, map, drop, take, option_to_list};
ghost use Rattle.std.specs.List.{list_all};
ghost use Rattle.vs_design.specs.Sets.{has};
ghost use Rattle.vs_design.specs.Covers.{is_free, is_open, matched, patterns_of, values_of, at_bit, without_bit};

use vs_base::CaseKind;
use vs_four::{Bit4, Bits};
use vs_sets::{Set4, SetList};

/// Which of 0 and 1 match a bit of an item (IEEE 1364-2005, 9.5 and 9.5.1).
fn matched(kind: CaseKind, value: Bit4) -> Set4
    ensures { result ≡ matched kind value }
{
    match value {
        Bit4::Zero => Set4::only(Bit4::Zero),
        Bit4::One => Set4::only(Bit4::One),
        Bit4::X => match kind {
            CaseKind::Exact | CaseKind::CaseZ => Set4::none(),
            CaseKind::CaseX => Set4::known(),
        },
        Bit4::Z => match kind {
            CaseKind::Exact => Set4::none(),
            CaseKind::CaseZ | CaseKind::CaseX => Set4::known(),
        },
    }
}

/// Whether 0 or 1 matches.
fn is_open(set: Set4) -> bool
    ensures { result ≡ is_open set }
{
    set.has(Bit4::Zero) || set.has(Bit4::One)
}

/// Which of 0 and 1 match in each bit of an item.
fn matched_each(kind: CaseKind, value: Bits) -> SetList
    ensures { result ≡ map (matched kind) value }
{
    let mut list = SetList::new();
    for k in 0..value.len() {
        list.push(matched(kind, value.get(k)));
    }
    list
}

/// Whether 0 or 1 matches in each bit.
fn are_open(pattern: &SetList) -> bool
    ensures { result ≡ list_all is_open pattern.now }
{
    pattern.as_slice().iter().all(|set| is_open(*set))
}

/// Whether 0 matches.
fn has_zero(set: Set4) -> bool
    ensures { result ≡ set.zero? }
{
    set.has(Bit4::Zero)
}

/// Whether 0 matches in each bit.
fn have_zeros(sets: &[Set4]) -> bool
    ensures { result ≡ list_all (λ s. s.zero?) sets.now }
{
    sets.iter().all(|set| has_zero(*set))
}

/// Whether 0 matches in each bit behind the first n.
fn ends(pattern: &SetList, n: usize) -> bool
    requires { n ≤ length pattern.now }
    ensures { result ≡ list_all (λ s. s.zero?) (drop n pattern.now) }
{
    have_zeros(&pattern.as_slice()[n..])
}

/// The pattern of an item's value, for a selector of n bits; there is none where no known bits match.
pub(crate) fn pattern_of(kind: CaseKind, n: usize, value: Bits) -> Option<SetList>
    requires { n ≤ length value }
    ensures { option_to_list result ≡ patterns_of kind n value }
{
    let mut pattern = matched_each(kind, value);
    if !ends(&pattern, n) {
        return None;
    }
    pattern.cut(n);
    if !are_open(&pattern) {
        return None;
    }
    Some(pattern)
}

/// Whether both 0 and 1 match.
pub(crate) fn is_free(set: Set4) -> bool
    ensures { result ≡ is_free set }
{
    set.has(Bit4::Zero) && set.has(Bit4::One)
}

/// Whether both match in each bit.
pub(crate) fn is_all_free(pattern: &[Set4]) -> bool
    ensures { result ≡ list_all is_free pattern.now }
{
    pattern.iter().all(|set| is_free(*set))
}

/// How many lists of known bits match a pattern.
pub(crate) fn values_of(pattern: &[Set4]) -> u128
    requires { length pattern.now ≤ 64 }
    ensures value { result ≡ values_of pattern.now }
    ensures most { result ≤ 2 ^ 64 }
{
    let mut n = pattern.len();
    let mut count: u128 = 1;
    while n > 0 {
        n -= 1;
        if is_free(pattern[n]) {
            count += count;
        }
    }
    count
}

/// What matches in bit i.
pub(crate) fn at_bit(pattern: &SetList, i: usize) -> Set4
    requires { i < length pattern.now }
    ensures { result ≡ at_bit i pattern.now }
{
    pattern.get(i)
}

/// The pattern without bit i.
pub(crate) fn without_bit(pattern: &[Set4], i: usize) -> SetList
    requires inside { i < length pattern.now }
    requires few { length pattern.now ≤ 64 }
    ensures { result ≡ without_bit i pattern.now }
{
    let mut rest = SetList::new();
    rest.append(&pattern[..i]);
    rest.append(&pattern[i + 1..]);
    rest
}

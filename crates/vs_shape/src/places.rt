//! The places of a select's bits (IEEE 1364-2005, 5.2.1).

ghost use Rattle.std.specs.Prelude.{◌≡◌, ◌≤◌, ◌<◌, ◌^◌, ℕ, pos, unsigned_abs, ◌+ℤ◌, length, map, slice_index_or, is_some, Some, None};
ghost use Rattle.std.specs.List.{list_all};
ghost use Rattle.vs_four.specs.Selects.{range_length, below, place_of, indices_up, indices, places};

use std::marker::Model;
use vs_four::{Bits, Range, integer, is_known};

/// Which bits of a vector a select takes: `[base +: width]` where it goes up, else `[base -: width]`. A bit select is a part of one bit.
#[derive(Clone, Copy, Debug)]
pub struct Part {
    pub range: Range,
    pub up: bool,
    pub width: u32,
}

impl Model for Part {
    ghost use Rattle.vs_four.specs.Selects as selects;

    ghost Value = { selects.Part };

    ghost view = { λ p. record { range = p.range; up = p.up; width = p.width } };

    ghost inverse = { λ v. record { range = v.range; up = v.up; width = v.width } };
}

/// The places of a select's bits, that of the least significant one first, counted from the vector's least significant bit. What is out of range has none.
#[derive(Drop)]
pub struct Places {
    range_len: u64,
    start: i128,
    width: u32,
}

impl Model for Places {
    ghost use Rattle.std.specs.Prelude.{List, ℕ, Option};

    ghost Value = { List (Option ℕ) };

    ghost use Rattle.vs_shape.specs.KeptPlaces.{kept_places, IsKeptPlaces};

    ghost view = { kept_places };

    ghost invariant = { IsKeptPlaces };
}

impl Places {
    /// How many bits the select has.
    pub fn len(&self) -> u32
        ensures value { result ≡ length self.now }
        ensures most { result ≤ 64 }
    {
        self.width
    }

    /// The place of bit k of the select, from 0.
    pub fn get(&self, k: u32) -> Option<usize>
        requires { k < length self.now }
        ensures { result ≡ slice_index_or self.now k None }
    {
        below(self.range_len, after(self.start, k))
    }

    /// Whether all bits are in range.
    pub fn are_inside(&self) -> bool
        ensures { result ≡ list_all is_some self.now }
    {
        for k in 0..self.len() {
            if self.get(k).is_none() {
                return false;
            }
        }
        true
    }
}

/// The place k places on.
fn after(start: i128, k: u32) -> i128
    requires { unsigned_abs start < 2 ^ 66 }
    ensures value { result ≡ start +ℤ pos k }
    ensures small { unsigned_abs result < 2 ^ 67 }
{
    start + k as i128
}

/// The number, where it is below the length.
fn below(length: u64, n: i128) -> Option<usize>
    ensures { result ≡ below length n }
{
    if n < 0 || n >= length as i128 {
        return None;
    }
    Some(n as usize)
}

/// The place from which a part's places go up.
fn start(part: Part, base: i128) -> i128
    requires some { 1 ≤ part.width }
    requires most { part.width ≤ 64 }
    requires small { unsigned_abs base < 2 ^ 64 }
    ensures places { map (place_of part.range) (indices part base) ≡ map (below (range_length part.range)) (indices_up result part.width) }
    ensures small { unsigned_abs result < 2 ^ 66 }
{
    let lowest = part.range.lowest_index(base, part.up, part.width);
    part.range.place(lowest)
}

/// The places of the part at this index, a two's complement number where it is signed. By an index with an x or z bit there are none.
pub fn places_of(part: Part, signed: bool, index: Bits) -> Places
    requires some { 1 ≤ part.width }
    requires most { part.width ≤ 64 }
    ensures value { result ≡ places part signed index }
    ensures length { length result ≡ part.width }
    ensures inside { (k n : ℕ) → slice_index_or result k None ≡ Some n → n < range_length part.range }
{
    if is_known(index) {
        Places {
            range_len: part.range.length(),
            start: start(part, integer(index, signed)),
            width: part.width,
        }
    } else {
        Places {
            range_len: 0,
            start: 0,
            width: part.width,
        }
    }
}

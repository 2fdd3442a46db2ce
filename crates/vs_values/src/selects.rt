//! Selects by constant indices: slots of what is selected, with no call.

ghost use Rattle.std.specs.Prelude.{◌≡◌, ℕ, ◌≤◌, ◌<◌, length, IfOk};
ghost use Rattle.vs_four.specs.Selects.{at_place, range_length};
ghost use Rattle.vs_values.specs.Constants.{constant_bits, selected_slots};

use crate::slots::constant_bits;
use std::alloc::{AllocError, Global};
use vs_four::Range;
use vs_shape::{Part, places_of};

/// The slot at a place, and that of x where there is no such place.
fn at(from: &[u32], place: Option<usize>) -> u32
    requires { (n : ℕ) → place ≡ Some n → n < length from.now }
    ensures { result ≡ at_place 2 from.now place }
{
    match place {
        Some(n) => from[n],
        None => 2,
    }
}

/// The slots of a select by a constant index.
pub(crate) fn selected(
    alloc: Global,
    from: &[u32],
    index: &[u32],
    signed: bool,
    range: Range,
    up: bool,
    width: u32,
) -> Result<Vec<u32>, AllocError>
    requires of_range { range_length range ≡ length from.now }
    requires some { 1 ≤ width }
    requires at_most_64 { width ≤ 64 }
    requires some_index { 1 ≤ length index.now }
    requires index { length index.now ≤ 64 }
    ensures { IfOk result (λ to. to.items ≡ selected_slots (record { range = range; up = up; width = width }) signed from.now (constant_bits index.now)) }
{
    let bits = constant_bits(alloc, index)?;
    let places = places_of(Part { range, up, width }, signed, bits);
    let mut to = Vec::with_capacity(alloc, width as usize)?;
    for k in 0..places.len() {
        to.push(at(from, places.get(k)))?;
    }
    Ok(to)
}

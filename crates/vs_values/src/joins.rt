//! Slots of concatenations.

ghost use Rattle.std.specs.Prelude.{◌≡◌, ◌≤◌, ◌++◌, ◌*◌, length, IfOk};
ghost use Rattle.vs_flat.specs.Trees.{copy_count};
ghost use Rattle.vs_four.specs.Lengths.{repeat};
ghost use Rattle.vs_values.specs.Constants.{extended_slots};

use crate::slots::extended;
use std::alloc::{AllocError, Global};
use vs_base::Context;
use vs_shape::copy_count;

/// These slots and then those.
pub fn appended(mut low: Vec<u32>, high: Vec<u32>) -> Result<Vec<u32>, AllocError>
    ensures { IfOk result (λ to. to.items ≡ low.items ++ high.items) }
{
    for slot in high.as_slice() {
        low.push(*slot)?;
    }
    Ok(low)
}

/// So many copies of them.
fn repeated(alloc: Global, one: Vec<u32>, count: u64) -> Result<Vec<u32>, AllocError>
    ensures { IfOk result (λ to. to.items ≡ repeat count one.items) }
{
    let mut to = Vec::new(alloc);
    for _ in 0..count {
        for k in 0..one.len() {
            to.push(one[k])?;
        }
    }
    Ok(to)
}

/// The slots of a replication of these slots, extended.
pub(crate) fn copied(
    alloc: Global,
    parts: &[u32],
    one: Vec<u32>,
    context: Context,
) -> Result<Vec<u32>, AllocError>
    requires some { 1 ≤ length parts.now }
    ensures { IfOk result (λ to. to.items ≡ extended_slots context.width context.signed (repeat (copy_count parts.now) one.items)) }
{
    let all = repeated(alloc, one, copy_count(parts))?;
    extended(all, context.width, context.signed)
}

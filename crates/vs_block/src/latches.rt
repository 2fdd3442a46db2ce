//! The bits that a combinational block may keep.

ghost use Rattle.std.specs.Prelude.{◌≡◌, ◌<◌, ◌||◌, not, ℕ, Bool, filter, length, true, IfOk};
ghost use Rattle.std.specs.List.Sorted.{IsStrictlyIncreasing};
ghost use Rattle.vs_design.specs.Fits.{fits_statement};
ghost use Rattle.vs_design.specs.Footprints.{contains, statement_bits};
ghost use Rattle.vs_design.specs.Latches.{latch_bits};
ghost use Rattle.vs_design.specs.Refusals.{least};
ghost use Rattle.vs_shape.specs.Bodies.{body_of};
ghost use Rattle.vs_sets.specs.Completing.{AreDefaults, done};
ghost use Rattle.vs_block.specs.Flags.{bit_at, is_set, AreUnset};

use crate::flags::set_flags;
use crate::paths::walk;
use std::alloc::{AllocError, Global};
use vs_sets::Defaults;
use vs_shape::Shapes;

/// The least of the bits that is read before it is assigned, or that isn't assigned.
fn first_kept(own: &[u32], assigned: &[bool], early: &[bool]) -> Option<u32>
    requires rising { IsStrictlyIncreasing own.now }
    requires assigned { length assigned.now ≡ length own.now }
    requires early { length early.now ≡ length own.now }
    ensures { (keeps : ℕ → Bool) → ((k : ℕ) → k < length own.now → keeps (bit_at own.now k) ≡ (is_set early.now k || not (is_set assigned.now k))) → result ≡ least (filter keeps own.now) }
{
    for k in 0..own.len() {
        if early[k] || !assigned[k] {
            return Some(own[k]);
        }
    }
    None
}

/// The same of a statement, found in flags of which none is set.
fn first_latch_in(
    alloc: Global,
    shapes: &Shapes,
    defaults: &Defaults<'_>,
    statement: u32,
    own: &[u32],
    assigned: &mut [bool],
    early: &mut [bool],
) -> Result<Option<u32>, AllocError>
    requires there { statement < length shapes.now.statements }
    requires fits { fits_statement (body_of shapes.now statement) ≡ true }
    requires defaults { AreDefaults shapes.now defaults.now.complete defaults.now.others.now statement }
    requires rising { IsStrictlyIncreasing own.now }
    requires own { (b : ℕ) → contains own.now b ≡ contains (statement_bits (body_of shapes.now statement)) b }
    requires assigned { length assigned.old ≡ length own.now }
    requires early { length early.old ≡ length own.now }
    requires unset { AreUnset own.now assigned.old }
    requires unread { AreUnset own.now early.old }
    ensures { IfOk result (λ first. first ≡ least (latch_bits (done defaults.now.complete shapes.now statement))) }
{
    let found = walk(alloc, shapes, defaults, statement, own, assigned, early)?;
    set_flags(own, assigned, found.as_slice(), true);
    Ok(first_kept(own, assigned, early))
}

/// The least bit that the statement writes somewhere and that on some path reaches a read of it, or the end, unassigned; `own` are the bits that it writes. It is asked as it stands, or as completed, with these defaults of its cases.
pub(crate) fn first_latch(
    alloc: Global,
    shapes: &Shapes,
    defaults: &Defaults<'_>,
    statement: u32,
    own: &[u32],
) -> Result<Option<u32>, AllocError>
    requires there { statement < length shapes.now.statements }
    requires fits { fits_statement (body_of shapes.now statement) ≡ true }
    requires defaults { AreDefaults shapes.now defaults.now.complete defaults.now.others.now statement }
    requires rising { IsStrictlyIncreasing own.now }
    requires own { (b : ℕ) → contains own.now b ≡ contains (statement_bits (body_of shapes.now statement)) b }
    ensures { IfOk result (λ first. first ≡ least (latch_bits (done defaults.now.complete shapes.now statement))) }
{
    let mut assigned = vec![in alloc; false; own.len()]?;
    let mut early = vec![in alloc; false; own.len()]?;
    first_latch_in(
        alloc,
        shapes,
        defaults,
        statement,
        own,
        assigned.as_mut_slice(),
        early.as_mut_slice(),
    )
}

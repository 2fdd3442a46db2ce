//! The design without its dead blocks.

ghost use Rattle.std.specs.Prelude.{◌≡◌, ◌<◌, ◌-◌, ◌^◌, false, true, length, map, slice_index_or, IfOk, OnOk};
ghost use Rattle.std.specs.List.{list_any};
ghost use Rattle.vs_design.specs.Dead.{dead_nets, is_dead, without_dead};
ghost use Rattle.vs_flat.specs.DesignOf.{design_of};
ghost use Rattle.vs_flat.specs.Lawful.{IsLawful};
ghost use Rattle.vs_accept.specs.Leaving.{left_if};

use std::alloc::{AllocError, Global};
use vs_flat::{Flat, leaving_law, trees_law};

/// Whether anything is marked.
pub(crate) fn has_mark(marks: &[bool]) -> bool
    ensures { result ≡ list_any (λ m. m) marks.now }
{
    marks.iter().any(|mark| *mark)
}

/// Whether process p is marked.
fn is_marked(marks: &[bool], p: u32) -> bool
    ensures { result ≡ slice_index_or marks.now p false }
{
    match marks.get(p as usize) {
        Some(mark) => *mark,
        None => false,
    }
}

/// Leaves out process p, if it is dead.
fn leave_if(alloc: Global, flat: &mut Flat, dead: bool, p: u32) -> Result<(), AllocError>
    requires { p < length flat.old.processes }
    ensures ok { OnOk result (flat.new ≡ left_if flat.old dead p) }
    ensures room { OnOk result (dead ≡ true → length flat.old.statements < 2 ^ 32 - 1) }
{
    if !dead {
        return Ok(());
    }
    flat.leave_out(alloc, p)
}

/// The design without its dead blocks, which are marked.
pub(crate) fn left_out(alloc: Global, flat: Flat, dead: &[bool]) -> Result<Flat, AllocError>
    requires lawful { IsLawful flat }
    requires dead { dead.now ≡ map (is_dead (dead_nets (design_of flat))) (design_of flat).processes }
    ensures lawful { IfOk result IsLawful }
    ensures design { IfOk result (λ f. design_of f ≡ without_dead (design_of flat)) }
{
    leaving_law();
    trees_law();
    let mut left = flat;
    for p in 0..left.process_count() {
        leave_if(alloc, &mut left, is_marked(dead, p), p)?;
    }
    Ok(left)
}

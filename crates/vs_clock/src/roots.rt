//! Which input of the top a bit copies through assigns.

ghost use Rattle.std.specs.Prelude.{◌≡◌, ℕ, ◌<◌, true, length, IfOk};
ghost use Rattle.vs_design.specs.Designs.{Design};
ghost use Rattle.vs_design.specs.Footprints.{contains};
ghost use Rattle.vs_clock.specs.Roots.{AreAllTargets, AreRoots, AreWithin};

use crate::spread::spread;
use crate::targets::Targets;
use std::alloc::{AllocError, Global};
use vs_design::clock_law;

/// For each bit the first of these bits that it copies, or that it is, where these are the copies.
pub(crate) fn roots_of(
    alloc: Global,
    targets: &Targets,
    roots: &[u32],
) -> Result<Vec<Option<u32>>, AllocError>
    requires within { AreWithin targets.now }
    requires roots { (b : ℕ) → contains roots.now b ≡ true → b < length targets.now }
    ensures count { IfOk result (λ v. length v.items ≡ length targets.now) }
    ensures roots { IfOk result (λ v. (d : Design) → AreAllTargets d targets.now → AreRoots d roots.now v.items) }
{
    clock_law();
    let mut labels = vec![in alloc; None; targets.len()]?;
    for root in roots {
        spread(alloc, targets, *root, labels.as_mut_slice())?;
    }
    Ok(labels)
}

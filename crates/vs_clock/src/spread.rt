//! How labels spread from a bit along assigns that copy it.

ghost use Rattle.std.specs.Prelude.{◌≡◌, ℕ, ◌<◌, [], true, length, OnOk};
ghost use Rattle.vs_design.specs.Footprints.{contains};
ghost use Rattle.vs_clock.specs.Spread.{has_label, targets_at, Labels, Spreads};

use crate::targets::Targets;
use std::alloc::{AllocError, Global};

/// Labels those of these bits that have no label, and notes them as pending.
fn label_all(
    bits: &[u32],
    root: u32,
    labels: &mut [Option<u32>],
    pending: &mut Vec<u32>,
) -> Result<(), AllocError>
    requires { (b : ℕ) → contains bits.now b ≡ true → b < length labels.old }
    ensures { OnOk result (Labels bits.now root labels.old labels.new pending.old.items pending.new.items) }
{
    for bit in bits {
        if labels[*bit as usize].is_none() {
            labels[*bit as usize] = Some(root);
            pending.push(*bit)?;
        }
    }
    Ok(())
}

/// Labels by the root itself and every bit that is reached from it, and that has no label.
pub(crate) fn spread(
    alloc: Global,
    targets: &Targets,
    root: u32,
    labels: &mut [Option<u32>],
) -> Result<(), AllocError>
    requires count { length labels.old ≡ length targets.now }
    requires root { root < length labels.old }
    requires within { (b t : ℕ) → contains (targets_at targets.now b) t ≡ true → t < length targets.now }
    requires closed { (b t : ℕ) → has_label labels.old b ≡ true → contains (targets_at targets.now b) t ≡ true → has_label labels.old t ≡ true }
    ensures { OnOk result (Spreads targets.now root labels.old labels.new []) }
{
    let mut pending = Vec::new(alloc);
    label_all(&[root], root, labels, &mut pending)?;
    while let Some(bit) = pending.pop() {
        label_all(targets.of(bit), root, labels, &mut pending)?;
    }
    Ok(())
}

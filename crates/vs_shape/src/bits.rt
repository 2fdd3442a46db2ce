//! Bits of a signal, added by their places.

ghost use Rattle.std.specs.Prelude.{◌≡◌, ◌<◌, ◌+◌, ◌++◌, ◌^◌, ℕ, OnOk, Some, None, slice_index_or};
ghost use Rattle.vs_design.specs.Values.{count_from};
ghost use Rattle.vs_design.specs.Footprints.{somes};
ghost use Rattle.vs_shape.specs.Gathered.{bits_from};

use crate::places::Places;
use std::alloc::AllocError;

/// Adds `count` numbers from `first` on.
pub(crate) fn push_run(out: &mut Vec<u32>, first: u32, count: u32) -> Result<(), AllocError>
    requires { first + count < 2 ^ 32 }
    ensures { OnOk result (out.new.items ≡ out.old.items ++ count_from first count) }
{
    for bit in first..first + count {
        out.push(bit)?;
    }
    Ok(())
}

/// Adds the bits at these places of the signal that begins with bit `first`. What has no place adds none.
pub(crate) fn push_places(out: &mut Vec<u32>, first: u32, places: &Places) -> Result<(), AllocError>
    requires { (k n : ℕ) → slice_index_or places.now k None ≡ Some n → first + n < 2 ^ 32 }
    ensures { OnOk result (out.new.items ≡ out.old.items ++ somes (bits_from first places.now)) }
{
    for k in 0..places.len() {
        if let Some(place) = places.get(k) {
            out.push(first + place as u32)?;
        }
    }
    Ok(())
}

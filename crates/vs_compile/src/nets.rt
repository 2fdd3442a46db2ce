//! The clock nets of a design.

ghost use Rattle.std.specs.Prelude.{◌≡◌, ℕ, List, IfOk};
ghost use Rattle.vs_design.specs.Designs.{Design};
ghost use Rattle.vs_design.specs.Footprints.{ascending};
ghost use Rattle.vs_design.specs.Clocks.{clock_nets};
ghost use Rattle.vs_flat.specs.DesignOf.{design_of};
ghost use Rattle.vs_clock.specs.Nets.{AreNets};
ghost use Rattle.vs_program.specs.Compiled.{IsAcceptedAt};
ghost use Rattle.vs_program.specs.Made.{AreClockNets};

use std::alloc::{AllocError, Global};
use vs_clock::Clocks;
use vs_cone::{list_law, sources_law};
use vs_flat::{count_bits, trees_law};
use vs_typed::Typed;

/// The bits of the clock nets, ascending; without a clock there are none. The only error is that there is no memory.
pub(crate) fn nets_of(alloc: Global, typed: &Typed, clocks: &Clocks) -> Result<Vec<u32>, AllocError>
    requires accepted { IsAcceptedAt (design_of typed.now) clocks.now.bits }
    requires nets { AreNets (design_of typed.now) clocks.now.bits clocks.now.nets }
    ensures { IfOk result (λ v. AreClockNets (design_of typed.now) clocks.now.bits v.items) }
{
    trees_law();
    sources_law();
    list_law();
    net_bits(alloc, clocks, count_bits(typed.flat()))
}

/// Of so many bits those that are clock nets', ascending.
fn net_bits(alloc: Global, clocks: &Clocks, count: u32) -> Result<Vec<u32>, AllocError>
    ensures { (d : Design) (bits : List ℕ) → AreNets d bits clocks.now.nets → IfOk result (λ v. v.items ≡ ascending count (clock_nets d bits)) }
{
    let mut bits = Vec::new(alloc);
    for bit in 0..count {
        if clocks.is_clock(bit) {
            bits.push(bit)?;
        }
    }
    Ok(bits)
}

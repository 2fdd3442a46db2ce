//! How the slots of a design are laid out.

ghost use Rattle.std.specs.Prelude.{◌≡◌, ◌+◌, ◌<◌, ◌≤◌, ◌^◌, All, IfOk, length};
ghost use Rattle.vs_design.specs.Cycles.{AreApart};
ghost use Rattle.vs_flat.specs.DesignOf.{design_of};
ghost use Rattle.vs_program.specs.Layouts.{sleepers};
ghost use Rattle.vs_compile.specs.Laid.{HasPlaces};

use std::alloc::{AllocError, Global};
use vs_flat::trees_law;
use vs_program::home;
use vs_typed::Typed;

/// For each bit of a design with so many the slot of its next value, where it is one of these registers: their slots stand behind those of the bits, in the order of the list.
pub(crate) fn shadows_of(
    alloc: Global,
    count: u32,
    registers: &[u32],
) -> Result<Vec<u32>, AllocError>
    requires below { All (λ b. b < count) registers.now }
    requires apart { AreApart registers.now }
    requires few { 4 + count + length registers.now < 2 ^ 32 }
    ensures long { IfOk result (λ v. length v.items ≡ count) }
    ensures places { IfOk result (λ v. HasPlaces count registers.now v.items) }
{
    let mut shadows = vec![in alloc; 0; count as usize]?;
    for (place, bit) in registers.iter().enumerate() {
        shadows[*bit as usize] = home(count) + place as u32;
    }
    Ok(shadows)
}

/// How many blocks of a design sleep.
pub(crate) fn sleeper_count(typed: &Typed) -> u32
    ensures is { result ≡ length (sleepers (design_of typed.now)) }
    ensures few { result ≤ 2 ^ 16 }
{
    trees_law();
    let mut count = 0;
    for p in 0..typed.flat().process_count() {
        if typed.sleeps(p) {
            count += 1;
        }
    }
    count
}

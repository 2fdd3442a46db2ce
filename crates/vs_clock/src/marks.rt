//! The inputs of a design that its resets copy.

ghost use Rattle.std.specs.Prelude.{◌≡◌, ℕ, false, slice_index_or, filter, IfOk, List};
ghost use Rattle.vs_design.specs.Designs.{bit_count};
ghost use Rattle.vs_design.specs.Resets.{reset_inputs};
ghost use Rattle.vs_flat.specs.DesignOf.{design_of};
ghost use Rattle.vs_clock.specs.Nets.{AreNets};
ghost use Rattle.vs_clock.specs.Resets.{AreAllResets, has_input, HasInputs};

use crate::nets::Nets;
use crate::resets::Reset;
use std::alloc::{AllocError, Global};
use vs_flat::{Flat, count_bits, trees_law};

/// For each of so many bits whether one of these resets copies it.
fn marks_of(alloc: Global, bits: u32, resets: &[Option<Reset>]) -> Result<Vec<bool>, AllocError>
    requires { HasInputs bits resets.now }
    ensures { IfOk result (λ v. (b : ℕ) → slice_index_or v.items b false ≡ has_input resets.now b) }
{
    let mut marks = vec![in alloc; false; bits as usize]?;
    for reset in resets {
        match reset {
            Some(reset) => marks[reset.input as usize] = true,
            None => {}
        }
    }
    Ok(marks)
}

/// Whether a bit is marked.
pub(crate) fn is_marked(marks: &[bool], bit: u32) -> bool
    ensures { result ≡ slice_index_or marks.now bit false }
{
    match marks.get(bit as usize) {
        Some(mark) => *mark,
        None => false,
    }
}

/// Those of the inputs that are marked.
fn marked(alloc: Global, inputs: &[u32], marks: &[bool]) -> Result<Vec<u32>, AllocError>
    ensures { IfOk result (λ v. v.items ≡ filter (λ b. slice_index_or marks.now b false) inputs.now) }
{
    let mut kept = Vec::new(alloc);
    for input in inputs {
        if is_marked(marks, *input) {
            kept.push(*input)?;
        }
    }
    Ok(kept)
}

/// The inputs at the root of these resets, in order of declaration.
pub(crate) fn inputs_of(
    alloc: Global,
    flat: &Flat,
    nets: &Nets,
    resets: &[Option<Reset>],
) -> Result<Vec<u32>, AllocError>
    requires { HasInputs (bit_count (design_of flat.now)) resets.now }
    ensures { (c : List ℕ) → AreNets (design_of flat.now) c nets.now → AreAllResets flat.now c resets.now → IfOk result (λ v. v.items ≡ reset_inputs (design_of flat.now) c) }
{
    trees_law();
    let marks = marks_of(alloc, count_bits(flat), resets)?;
    marked(alloc, nets.inputs(), marks.as_slice())
}

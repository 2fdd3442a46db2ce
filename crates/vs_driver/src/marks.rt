//! Marks of bits, one for each bit of a design.

ghost use Rattle.std.specs.Prelude.{◌≡◌, ℕ, ◌<◌, ◌&&◌, ◌||◌, true, false, length, slice_set, if◌then◌else◌, IfOk};
ghost use Rattle.vs_design.specs.Designs.{bit_count};
ghost use Rattle.vs_design.specs.Footprints.{contains};
ghost use Rattle.vs_flat.specs.DesignOf.{design_of};
ghost use Rattle.vs_driver.specs.Marks.{is_marked};

use std::alloc::{AllocError, Global};
use vs_flat::{count_bits, trees_law};
use vs_typed::Typed;

/// No bit of a design is marked.
pub(crate) fn no_marks(alloc: Global, typed: &Typed) -> Result<Vec<bool>, AllocError>
    ensures all { IfOk result (λ v. length v.items ≡ bit_count (design_of typed.now)) }
    ensures none { IfOk result (λ v. (b : ℕ) → is_marked v.items b ≡ false) }
{
    trees_law();
    let marks = vec![in alloc; false; count_bits(typed.flat()) as usize]?;
    Ok(marks)
}

/// Whether a bit is marked.
pub(crate) fn is_marked(marks: &[bool], bit: usize) -> bool
    ensures { result ≡ is_marked marks.now bit }
{
    match marks.get(bit) {
        Some(mark) => *mark,
        None => false,
    }
}

/// Marks this bit if the condition holds.
fn mark_if(marks: &mut Vec<bool>, bit: usize, condition: bool)
    requires { bit < length marks.old.items }
    ensures { marks.new.items ≡ (if condition then slice_set marks.old.items bit true else marks.old.items) }
{
    if condition {
        marks[bit] = true;
    }
}

/// Marks these bits.
pub(crate) fn mark(marks: &mut Vec<bool>, bits: &[u32])
    requires { (b : ℕ) → contains bits.now b ≡ true → b < length marks.old.items }
    ensures all { length marks.new.items ≡ length marks.old.items }
    ensures marked { (b : ℕ) → is_marked marks.new.items b ≡ (is_marked marks.old.items b || contains bits.now b) }
{
    for bit in bits {
        mark_if(marks, *bit as usize, true);
    }
}

/// Marks those of these bits that have a mark of another kind.
pub(crate) fn mark_again(again: &mut Vec<bool>, marks: &[bool], bits: &[u32])
    requires both { length marks.now ≡ length again.old.items }
    requires below { (b : ℕ) → contains bits.now b ≡ true → b < length again.old.items }
    ensures all { length again.new.items ≡ length again.old.items }
    ensures marked { (b : ℕ) → is_marked again.new.items b ≡ (is_marked again.old.items b || (is_marked marks.now b && contains bits.now b)) }
{
    for bit in bits {
        let marked = marks[*bit as usize];
        mark_if(again, *bit as usize, marked);
    }
}

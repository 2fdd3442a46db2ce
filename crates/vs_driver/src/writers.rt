//! The writers of one bit, in the order of the text.

ghost use Rattle.std.specs.Prelude.{◌≡◌, ℕ, ◌<◌, List, [], ◌∷◌, ◌++◌, length, map, replicate, if◌then◌else◌, slice_get, Some, IfOk};
ghost use Rattle.vs_design.specs.Designs as D;
ghost use Rattle.vs_design.specs.Designs.{OfProcess, OfInitial};
ghost use Rattle.vs_design.specs.Footprints.{contains};
ghost use Rattle.vs_design.specs.Refusals.{writers, writes_at};
ghost use Rattle.vs_design.specs.Rules.{times};
ghost use Rattle.vs_flat.specs.declared.processes.AnyProcess as A;
ghost use Rattle.vs_flat.specs.DesignOf.{design_of};
ghost use Rattle.vs_flat.specs.TextOrder.{any_of, text_numbers};
ghost use Rattle.vs_reads.specs.Footprint.{footprints_of};
ghost use Rattle.vs_driver.specs.Writers.{AddsWriters, first_writers};

use crate::starts::started_bits;
use crate::table::assigned_bits;
use std::alloc::{AllocError, Global};
use vs_flat::{AnyProcess, Kind, lawful_law, names_law, text_law, text_order, trees_law};
use vs_reads::{Footprints, footprint_law};
use vs_shape::Walk;
use vs_typed::{Typed, fits_law};

/// The first two writers of a bit.
#[derive(Clone, Copy, PartialEq, Eq, Debug)]
pub(crate) enum Writers {
    Nobody,
    One(AnyProcess),
    Two(AnyProcess, AnyProcess),
}

impl Writers {
    /// The writers with one more.
    fn with(self, x: AnyProcess) -> Writers
        ensures { (xs : List A.AnyProcess) → self ≡ first_writers xs → result ≡ first_writers (xs ++ x ∷ []) }
    {
        match self {
            Writers::Nobody => Writers::One(x),
            Writers::One(first) => Writers::Two(first, x),
            Writers::Two(first, second) => Writers::Two(first, second),
        }
    }
}

/// Adds a writer if it writes the bit.
fn with_one(so_far: Writers, x: AnyProcess, writes: bool) -> Writers
    ensures { (xs : List A.AnyProcess) → so_far ≡ first_writers xs → result ≡ first_writers (xs ++ (if writes then (x ∷ []) else [])) }
{
    if writes { so_far.with(x) } else { so_far }
}

/// Adds a writer as often as the bit is among these.
fn with_each(so_far: Writers, x: AnyProcess, bit: u32, bits: &[u32]) -> Writers
    ensures { (xs : List A.AnyProcess) → so_far ≡ first_writers xs → result ≡ first_writers (xs ++ replicate (times bit bits.now) x) }
{
    let mut writers = so_far;
    for other in bits {
        writers = with_one(writers, x, bit == *other);
    }
    writers
}

/// Whether the bit is among these.
fn has_bit(bits: &[u32], bit: u32) -> bool
    ensures { result ≡ contains bits.now bit }
{
    for other in bits {
        if bit == *other {
            return true;
        }
    }
    false
}

/// Adds a writer if the bit is among these.
fn with_any(so_far: Writers, x: AnyProcess, bit: u32, bits: &[u32]) -> Writers
    ensures { (xs : List A.AnyProcess) → so_far ≡ first_writers xs → result ≡ first_writers (xs ++ (if contains bits.now bit then (x ∷ []) else [])) }
{
    with_one(so_far, x, has_bit(bits, bit))
}

/// Adds process p, as often as it writes the bit.
fn with_process(
    alloc: Global,
    typed: &Typed,
    footprints: &Footprints,
    bit: u32,
    p: u32,
    so_far: Writers,
) -> Result<Writers, AllocError>
    requires footprints { footprints.now ≡ footprints_of (design_of typed.now) }
    requires there { p < length typed.now.processes }
    ensures { IfOk result (λ w. (x : D.Process) → slice_get (design_of typed.now).processes p ≡ Some x → AddsWriters so_far w (writes_at bit (OfProcess p x))) }
{
    names_law();
    trees_law();
    lawful_law();
    fits_law();
    footprint_law();
    match &typed.flat().process(p).kind {
        Kind::Assign { target, .. } => {
            let bits = assigned_bits(alloc, typed, *target)?;
            Ok(with_each(so_far, AnyProcess::Process(p), bit, bits.as_slice()))
        }
        Kind::Block { .. } => Ok(with_any(
            so_far,
            AnyProcess::Process(p),
            bit,
            footprints.writes(p),
        )),
    }
}

/// Adds initial process k if it writes the bit.
fn with_initial(
    alloc: Global,
    typed: &Typed,
    bit: u32,
    k: u32,
    so_far: Writers,
) -> Result<Writers, AllocError>
    requires { k < length typed.now.initials }
    ensures { IfOk result (λ w. (i : D.Initial) → slice_get (design_of typed.now).initials k ≡ Some i → AddsWriters so_far w (writes_at bit (OfInitial k i))) }
{
    let bits = started_bits(alloc, typed, k, Walk::Writes)?;
    Ok(with_any(so_far, AnyProcess::Initial(k), bit, bits.as_slice()))
}

/// Adds the one of this place in the text, as often as it writes the bit.
fn with_next(
    alloc: Global,
    typed: &Typed,
    footprints: &Footprints,
    bit: u32,
    order: &[AnyProcess],
    n: usize,
    so_far: Writers,
) -> Result<Writers, AllocError>
    requires footprints { footprints.now ≡ footprints_of (design_of typed.now) }
    requires order { order.now ≡ text_numbers (design_of typed.now) }
    requires there { n < length order.now }
    ensures { IfOk result (λ w. (x : D.AnyProcess) → slice_get (D.in_text_order (design_of typed.now)) n ≡ Some x → AddsWriters so_far w (writes_at bit x)) }
{
    trees_law();
    text_law();
    let _flat = typed.flat();
    match order[n] {
        AnyProcess::Process(p) => with_process(alloc, typed, footprints, bit, p, so_far),
        AnyProcess::Initial(k) => with_initial(alloc, typed, bit, k, so_far),
    }
}

/// The first two writers of a bit in the order of the text.
pub(crate) fn writers_of(
    alloc: Global,
    typed: &Typed,
    footprints: &Footprints,
    bit: u32,
) -> Result<Writers, AllocError>
    requires { footprints.now ≡ footprints_of (design_of typed.now) }
    ensures { IfOk result (λ w. w ≡ first_writers (map any_of (writers (design_of typed.now) bit))) }
{
    let order = text_order(alloc, typed.flat())?;
    let mut writers = Writers::Nobody;
    for n in 0..order.len() {
        writers = with_next(alloc, typed, footprints, bit, order.as_slice(), n, writers)?;
    }
    Ok(writers)
}

//! Flags of bits: those on which sleeping blocks may wait.

ghost use Rattle.std.specs.Prelude.{◌≡◌, ◌≤◌, ◌<◌, ◌+◌, ◌&&◌, not, ℕ, length, true, false, if◌then◌else◌, slice_get, Some, IfOk, OnOk, All};
ghost use Rattle.std.specs.List.{list_all, list_any};
ghost use Rattle.vs_design.specs.Designs as D;
ghost use Rattle.vs_design.specs.Fits.{fits_process, fits_initial};
ghost use Rattle.vs_design.specs.Footprints.{contains, variable_bits};
ghost use Rattle.vs_design.specs.Sleepers.{is_still};
ghost use Rattle.vs_flat.specs.DesignOf.{design_of};
ghost use Rattle.vs_reads.specs.Footprint.{footprints_of};
ghost use Rattle.vs_sets.specs.Flags.{AreFlags, flag_at, variables_before, still_before, still_behind};

use crate::twice::push_twice;
use std::alloc::{AllocError, Global};
use vs_flat::{Kind, Signal, count_bits, has_edge, trees_law};
use vs_reads::{Footprints, fit_initial, fit_process, footprint_law};
use vs_shape::{Shapes, Walk};

/// Gives the flags of these bits this value.
fn mark(flags: &mut [bool], bits: &[u32], value: bool)
    requires { All (λ b. b < length flags.old) bits.now }
    ensures { (b : ℕ) → flag_at flags.new b ≡ (if contains bits.now b then value else flag_at flags.old b) }
{
    for i in 0..bits.len() {
        flags[bits[i] as usize] = value;
    }
}

/// Whether all of these bits have a flag.
pub(crate) fn are_set(flags: &[bool], bits: &[u32]) -> bool
    requires { All (λ b. b < length flags.now) bits.now }
    ensures { result ≡ list_all (flag_at flags.now) bits.now }
{
    for bit in bits {
        if !flags[*bit as usize] {
            return false;
        }
    }
    true
}

/// Whether a signal is a variable (IEEE 1364-2005, 3.2.2).
fn is_variable(signal: &Signal) -> bool
    ensures { result ≡ (not signal.now.net && not signal.now.input) }
{
    !signal.net && !signal.input
}

/// Notes the bits of signal n if it is a variable.
fn note_signal(alloc: Global, shapes: &Shapes, n: u32, flags: &mut [bool]) -> Result<(), AllocError>
    requires there { n < length shapes.now.signals }
    requires many { length flags.old ≡ D.bit_count (design_of shapes.now) }
    requires so_far { AreFlags (contains (variables_before (design_of shapes.now).signals n)) flags.old }
    ensures { OnOk result (AreFlags (contains (variables_before (design_of shapes.now).signals (n + 1))) flags.new) }
{
    trees_law();
    let signal = shapes.flat().signal(n);
    if is_variable(signal) {
        let mut bits = Vec::new(alloc);
        shapes.push_signal(n, &mut bits)?;
        mark(flags, bits.as_slice(), true);
    }
    Ok(())
}

/// For each bit of the design whether it is a variable's.
fn variable_flags(alloc: Global, shapes: &Shapes) -> Result<Vec<bool>, AllocError>
    ensures many { IfOk result (λ v. length v.items ≡ D.bit_count (design_of shapes.now)) }
    ensures is { IfOk result (λ v. AreFlags (contains (variable_bits (design_of shapes.now))) v.items) }
{
    trees_law();
    let flat = shapes.flat();
    let mut flags = vec![in alloc; false; count_bits(flat) as usize]?;
    for n in 0..flat.signal_count() {
        note_signal(alloc, shapes, n, flags.as_mut_slice())?;
    }
    Ok(flags)
}

/// Takes the flags of the bits that process p writes if it is a combinational block, and of those that it may write twice on a path if it is a clocked one.
fn note_process(
    alloc: Global,
    shapes: &Shapes,
    footprints: &Footprints,
    p: u32,
    flags: &mut [bool],
) -> Result<(), AllocError>
    requires fits { list_all fits_process (design_of shapes.now).processes ≡ true }
    requires footprints { footprints.now ≡ footprints_of (design_of shapes.now) }
    requires there { p < length shapes.now.processes }
    requires many { length flags.old ≡ D.bit_count (design_of shapes.now) }
    requires so_far { AreFlags (still_before (design_of shapes.now) p) flags.old }
    ensures { OnOk result (AreFlags (still_before (design_of shapes.now) (p + 1)) flags.new) }
{
    trees_law();
    footprint_law();
    let _ = shapes.flat();
    match &fit_process(shapes, p).kind {
        Kind::Assign { .. } => Ok(()),
        Kind::Block {
            star: _,
            events,
            statement,
        } => {
            if has_edge(events.as_slice()) {
                let mut twice = Vec::new(alloc);
                push_twice(alloc, shapes, *statement, &mut twice)?;
                mark(flags, twice.as_slice(), false);
            } else {
                mark(flags, footprints.writes(p), false);
            }
            Ok(())
        }
    }
}

/// For each bit of the design whether it is a variable's that no combinational block writes, and no clocked block more than once on a path.
fn process_flags(
    alloc: Global,
    shapes: &Shapes,
    footprints: &Footprints,
) -> Result<Vec<bool>, AllocError>
    requires fits { list_all fits_process (design_of shapes.now).processes ≡ true }
    requires footprints { footprints.now ≡ footprints_of (design_of shapes.now) }
    ensures many { IfOk result (λ v. length v.items ≡ D.bit_count (design_of shapes.now)) }
    ensures is { IfOk result (λ v. AreFlags (still_behind (design_of shapes.now) 0) v.items) }
{
    trees_law();
    let mut flags = variable_flags(alloc, shapes)?;
    for p in 0..shapes.flat().process_count() {
        note_process(alloc, shapes, footprints, p, flags.as_mut_slice())?;
    }
    Ok(flags)
}

/// Takes the flags of the bits that initial process k writes.
fn note_initial(
    alloc: Global,
    shapes: &Shapes,
    k: u32,
    flags: &mut [bool],
) -> Result<(), AllocError>
    requires fits { list_all fits_initial (design_of shapes.now).initials ≡ true }
    requires there { k < length shapes.now.initials }
    requires many { length flags.old ≡ D.bit_count (design_of shapes.now) }
    requires so_far { AreFlags (still_behind (design_of shapes.now) k) flags.old }
    ensures { OnOk result (AreFlags (still_behind (design_of shapes.now) (k + 1)) flags.new) }
{
    trees_law();
    let mut bits = Vec::new(alloc);
    shapes.push_statement(fit_initial(shapes, k).statement, Walk::Writes, &mut bits)?;
    mark(flags, bits.as_slice(), false);
    Ok(())
}

/// For each bit of the design whether it is a variable's that no combinational block and no initial process writes, and no clocked block more than once on a path.
pub(crate) fn still_flags(
    alloc: Global,
    shapes: &Shapes,
    footprints: &Footprints,
) -> Result<Vec<bool>, AllocError>
    requires fits { list_all fits_process (design_of shapes.now).processes ≡ true }
    requires initial_fits { list_all fits_initial (design_of shapes.now).initials ≡ true }
    requires footprints { footprints.now ≡ footprints_of (design_of shapes.now) }
    ensures many { IfOk result (λ v. length v.items ≡ D.bit_count (design_of shapes.now)) }
    ensures is { IfOk result (λ v. AreFlags (is_still (design_of shapes.now)) v.items) }
{
    trees_law();
    let mut flags = process_flags(alloc, shapes, footprints)?;
    for k in 0..shapes.flat().initial_count() {
        note_initial(alloc, shapes, k, flags.as_mut_slice())?;
    }
    Ok(flags)
}

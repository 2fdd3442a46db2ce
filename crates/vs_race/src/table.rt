//! The table of the clocked blocks that stir each bit.

ghost use Rattle.std.specs.Prelude.{◌≡◌, ℕ, ◌<◌, ◌||◌, Bool, Some, true, length, slice_get, IfOk};
ghost use Rattle.std.specs.List.{list_any};
ghost use Rattle.vs_design.specs.Designs.{Process};
ghost use Rattle.vs_design.specs.Levels.{is_level_order};
ghost use Rattle.vs_design.specs.Races.{at_once_bits};
ghost use Rattle.vs_flat.specs.DesignOf.{design_of};
ghost use Rattle.vs_reads.specs.Footprint.{footprints_of, reads_at, writes_at, waits_at};
ghost use Rattle.vs_race.specs.Stirrers.{Tells, AreTold, IsWithin, IsSeeded, IsTableOf, passed_on, with_noted};

use crate::stirrer::Stirrer;
use std::alloc::{AllocError, Global};
use vs_design::cycle_law;
use vs_flat::{Kind, count_bits, has_edge, trees_law};
use vs_level::Order;
use vs_reads::{Footprints, fit_process, footprint_law};
use vs_shape::Walk;
use vs_typed::{Typed, fits_law};

/// Notes of each of these bits that these blocks too stir it.
fn note(table: &mut [Stirrer], bits: &[u32], stirrer: Stirrer)
    requires { IsWithin (length table.old) bits.now }
    ensures { (f : ℕ → ℕ → Bool) (g : ℕ → Bool) → AreTold table.old f → Tells stirrer g → AreTold table.new (with_noted f bits.now g) }
{
    for bit in bits {
        let before = table[*bit as usize];
        table[*bit as usize] = before.joined(stirrer);
    }
}

/// The blocks that stir one of these bits, and those before.
fn gather(table: &[Stirrer], bits: &[u32], before: Stirrer) -> Stirrer
    requires { IsWithin (length table.now) bits.now }
    ensures { (f : ℕ → ℕ → Bool) (g : ℕ → Bool) → AreTold table.now f → Tells before g → Tells result (λ q. g q || list_any (λ b. f b q) bits.now) }
{
    let mut all = before;
    for bit in bits {
        all = all.joined(table[*bit as usize]);
    }
    all
}

/// Notes that what stirs a bit which process p reads or waits on stirs each bit that it writes.
fn pass_on(table: &mut [Stirrer], footprints: &Footprints, p: u32)
    requires there { p < length footprints.now }
    requires reads { IsWithin (length table.old) (reads_at footprints.now p) }
    requires waits { IsWithin (length table.old) (waits_at footprints.now p) }
    requires writes { IsWithin (length table.old) (writes_at footprints.now p) }
    ensures { (f : ℕ → ℕ → Bool) → AreTold table.old f → AreTold table.new (passed_on f footprints.now p) }
{
    let read = gather(table, footprints.reads(p), Stirrer::Nobody);
    let needed = gather(table, footprints.waits(p), read);
    note(table, footprints.writes(p), needed);
}

/// The bits that a clocked block may write by a blocking assignment. Any other process has none.
fn at_once_bits(alloc: Global, typed: &Typed, p: u32) -> Result<Vec<u32>, AllocError>
    requires { p < length typed.now.processes }
    ensures { IfOk result (λ v. (process : Process) → slice_get (design_of typed.now).processes p ≡ Some process → v.items ≡ at_once_bits process) }
{
    trees_law();
    fits_law();
    let _flat = typed.flat();
    let shapes = typed.shapes();
    let mut bits = Vec::new(alloc);
    let Kind::Block {
        events,
        statement,
        ..
    } = &fit_process(shapes, p).kind
    else {
        return Ok(bits);
    };
    if !has_edge(events.as_slice()) {
        return Ok(bits);
    }
    shapes.push_statement(*statement, Walk::Blocking, &mut bits)?;
    Ok(bits)
}

/// Each clocked block for the bits that it writes by blocking assignments.
fn seeds(alloc: Global, typed: &Typed) -> Result<Vec<Stirrer>, AllocError>
    ensures { IfOk result (λ v. IsSeeded (design_of typed.now) (length (design_of typed.now).processes) v.items) }
{
    trees_law();
    footprint_law();
    let flat = typed.flat();
    let mut table = vec![in alloc; Stirrer::Nobody; count_bits(flat) as usize]?;
    for p in 0..flat.process_count() {
        let bits = at_once_bits(alloc, typed, p)?;
        note(table.as_mut_slice(), bits.as_slice(), Stirrer::One(p));
    }
    Ok(table)
}

/// Which clocked blocks stir each bit of a design.
pub(crate) fn table_of(
    alloc: Global,
    typed: &Typed,
    footprints: &Footprints,
    order: &Order,
) -> Result<Vec<Stirrer>, AllocError>
    requires footprints { footprints.now ≡ footprints_of (design_of typed.now) }
    requires order { is_level_order (design_of typed.now) order.now ≡ true }
    ensures { IfOk result (λ v. IsTableOf (design_of typed.now) order.now v.items) }
{
    cycle_law();
    footprint_law();
    let _flat = typed.flat();
    let mut table = seeds(alloc, typed)?;
    for p in order.list() {
        pass_on(table.as_mut_slice(), footprints, *p);
    }
    Ok(table)
}

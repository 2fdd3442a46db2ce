//! The first process that breaks a rule.

ghost use Rattle.std.specs.Prelude.{◌≡◌, ℕ, List};
ghost use Rattle.vs_design.specs.Clocks.{reads_clock, has_other_clock, clock_nets, root_of};
ghost use Rattle.vs_flat.specs.DesignOf.{design_of};
ghost use Rattle.vs_flat.specs.Lawful.{IsLawful};
ghost use Rattle.vs_reads.specs.Footprint.{footprints_of};
ghost use Rattle.vs_clock.specs.Nets.{AreNets};
ghost use Rattle.vs_clock.specs.Tests.{IsFirst};

use crate::nets::Nets;
use crate::rules::{is_other, is_reading};
use vs_flat::{Flat, trees_law};
use vs_reads::Footprints;

/// The first process that reads or waits on a clock net and isn't an assign that hands it on.
pub(crate) fn first_reading(flat: &Flat, footprints: &Footprints, nets: &Nets) -> Option<u32>
    requires lawful { IsLawful flat.now }
    requires footprints { footprints.now ≡ footprints_of (design_of flat.now) }
    ensures { (c : List ℕ) → AreNets (design_of flat.now) c nets.now → IsFirst (design_of flat.now) (reads_clock (clock_nets (design_of flat.now) c)) result }
{
    trees_law();
    for p in 0..flat.process_count() {
        if is_reading(flat, footprints, nets, p) {
            return Some(p);
        }
    }
    None
}

/// The first clocked block whose events are others than a posedge of a clock net, or that and an edge of a reset net.
pub(crate) fn first_other(flat: &Flat, nets: &Nets) -> Option<u32>
    requires { IsLawful flat.now }
    ensures { (c : List ℕ) → AreNets (design_of flat.now) c nets.now → IsFirst (design_of flat.now) (has_other_clock (clock_nets (design_of flat.now) c) (root_of (design_of flat.now) c)) result }
{
    trees_law();
    for p in 0..flat.process_count() {
        if is_other(flat, nets, p) {
            return Some(p);
        }
    }
    None
}

//! The tests of single processes.

ghost use Rattle.std.specs.Prelude.{◌≡◌, ℕ, ◌<◌, length, slice_get, Some, List};
ghost use Rattle.vs_design.specs.Designs as D;
ghost use Rattle.vs_design.specs.Clocks.{is_clock_port, reads_clock, has_other_clock, clock_nets, root_of};
ghost use Rattle.vs_flat.specs.DesignOf.{design_of};
ghost use Rattle.vs_flat.specs.Lawful.{IsLawful};
ghost use Rattle.vs_reads.specs.Footprint.{footprints_of};
ghost use Rattle.vs_clock.specs.Nets.{AreNets};

use crate::events::{BlockEvents, events_of};
use crate::nets::Nets;
use crate::ports::copied_bits;
use vs_flat::{Flat, Kind, has_edge, names_law, trees_law};
use vs_reads::{Footprints, footprint_law};

/// Whether a process is an assign that hands a clock net on.
fn is_port(flat: &Flat, nets: &Nets, p: u32) -> bool
    requires lawful { IsLawful flat.now }
    requires process { p < length flat.now.processes }
    ensures { (c : List ℕ) → AreNets (design_of flat.now) c nets.now → (x : D.Process) → slice_get (design_of flat.now).processes p ≡ Some x → result ≡ is_clock_port (clock_nets (design_of flat.now) c) x }
{
    match copied_bits(flat, p) {
        Some((from, _)) => nets.is_clock(from),
        None => false,
    }
}

/// Whether a process reads or waits on a clock net, and isn't such an assign.
pub(crate) fn is_reading(flat: &Flat, footprints: &Footprints, nets: &Nets, p: u32) -> bool
    requires lawful { IsLawful flat.now }
    requires footprints { footprints.now ≡ footprints_of (design_of flat.now) }
    requires process { p < length flat.now.processes }
    ensures { (c : List ℕ) → AreNets (design_of flat.now) c nets.now → (x : D.Process) → slice_get (design_of flat.now).processes p ≡ Some x → result ≡ reads_clock (clock_nets (design_of flat.now) c) x }
{
    trees_law();
    footprint_law();
    if is_port(flat, nets, p) {
        return false;
    }
    if nets.has_clock(footprints.reads(p)) {
        return true;
    }
    nets.has_clock(footprints.waits(p))
}

/// Whether a process is a clocked block whose events are others than a posedge of a clock net, or that and an edge of a reset net.
pub(crate) fn is_other(flat: &Flat, nets: &Nets, p: u32) -> bool
    requires lawful { IsLawful flat.now }
    requires process { p < length flat.now.processes }
    ensures { (c : List ℕ) → AreNets (design_of flat.now) c nets.now → (x : D.Process) → slice_get (design_of flat.now).processes p ≡ Some x → result ≡ has_other_clock (clock_nets (design_of flat.now) c) (root_of (design_of flat.now) c) x }
{
    trees_law();
    names_law();
    match &flat.process(p).kind {
        Kind::Assign { .. } => false,
        Kind::Block { events, .. } => {
            if !has_edge(events.as_slice()) {
                return false;
            }
            match events_of(flat, nets, events.as_slice()) {
                BlockEvents::Other => true,
                BlockEvents::Clock => false,
                BlockEvents::Reset(_) => false,
            }
        }
    }
}

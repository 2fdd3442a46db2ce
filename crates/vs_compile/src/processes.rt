//! What single processes are, and the bits that they need.

ghost use Rattle.std.specs.Prelude.{◌≡◌, ◌<◌, ◌++◌, [], length, slice_get, Some};
ghost use Rattle.std.specs.List.{list_any};
ghost use Rattle.vs_design.specs.Designs as D;
ghost use Rattle.vs_design.specs.Designs.{bit_count};
ghost use Rattle.vs_design.specs.Elaborated.{IsLawfulDesign};
ghost use Rattle.vs_design.specs.Levels.{needs};
ghost use Rattle.vs_design.specs.Rules.{missing_bits};
ghost use Rattle.vs_flat.specs.DesignOf.{design_of};
ghost use Rattle.vs_reads.specs.Footprint.{footprints_of};
ghost use Rattle.vs_clock.specs.Nets.{is_clock_bit};
ghost use Rattle.vs_assemble.specs.Flags.{HasBitsOf};
ghost use Rattle.vs_assemble.specs.Plans.{is_clocked_or};

use vs_clock::Clocks;
use vs_flat::{Kind, has_edge, trees_law};
use vs_reads::{Footprints, footprint_law};
use vs_typed::Typed;

/// Whether a process is a clocked block: one of its events is an edge (IEEE 1364-2005, 9.7.2).
pub(crate) fn is_clocked(typed: &Typed, process: u32) -> bool
    requires { process < length typed.now.processes }
    ensures { result ≡ is_clocked_or (slice_get (design_of typed.now).processes process) }
{
    trees_law();
    match &typed.flat().process(process).kind {
        Kind::Assign { .. } => false,
        Kind::Block { events, .. } => has_edge(events.as_slice()),
    }
}

/// The bits that a process reads or waits on. Those that a combinational block waits on have all that it reads (IEEE 1364-2005, 9.7.5), and an assign and a clocked block wait on none.
pub(crate) fn needs<'a>(footprints: &'a Footprints, process: u32) -> &'a [u32]
    requires { process < length footprints.now }
    ensures { (d : D.Design) (x : D.Process) → footprints.now ≡ footprints_of d → IsLawfulDesign d → slice_get d.processes process ≡ Some x → missing_bits x ≡ []
        → HasBitsOf (bit_count d) result.now (needs x) }
{
    footprint_law();
    let waits = footprints.waits(process);
    if waits.is_empty() {
        footprints.reads(process)
    } else {
        waits
    }
}

/// Whether a clock net is among these bits.
pub(crate) fn has_clock(clocks: &Clocks, bits: &[u32]) -> bool
    ensures { result ≡ list_any (is_clock_bit clocks.now.nets) bits.now }
{
    bits.iter().any(|bit| clocks.is_clock(*bit))
}

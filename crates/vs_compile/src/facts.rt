//! What is known of the processes of a design.

ghost use Rattle.std.specs.Prelude.{◌≡◌, ◌<◌, ◌≤◌, ◌^◌, IfOk, Some, length, slice_get};
ghost use Rattle.vs_flat.specs.DesignOf.{design_of};

use crate::processes::{has_clock, is_clocked, needs};
use crate::resets::ResetBits;
use std::alloc::{AllocError, Global};
use std::marker::Model;
use vs_assemble::{Processes, registers};
use vs_clock::{Clocks, Reset};
use vs_cone::{list_law, sources_law};
use vs_flat::{count_bits, trees_law};
use vs_lower::templates;
use vs_reads::{Footprints, footprint_law};
use vs_typed::Typed;
use vs_values::Templates;

/// What is known of the processes of an accepted design, whose functions have been lowered, and of its clocks.
#[derive(Drop)]
pub(crate) struct Facts<'a> {
    templates: Templates<'a>,
    footprints: &'a Footprints,
    clocks: &'a Clocks,
    reset_bits: ResetBits,
}

// Clauses see the flat design and the bits of its clocks.
impl<'a> Model for Facts<'a> {
    ghost use Rattle.vs_compile.specs.Known.{Known};
    ghost use Rattle.vs_compile.specs.Resets.{HasFacts};

    ghost Value = { Known };

    ghost view = { λ f. record { arena = f.templates.arena; clocks = f.clocks.now.bits } };

    ghost invariant = { λ f. HasFacts f.templates f.footprints.now f.clocks.now f.reset_bits };
}

impl<'a> Facts<'a> {
    ghost use Rattle.vs_design.specs.Designs.{Process, bit_count};
    ghost use Rattle.vs_design.specs.Footprints.{ascending, waits_of};
    ghost use Rattle.vs_clock.specs.Resets.{IsReset};
    ghost use Rattle.vs_program.specs.Compiled.{IsAcceptedAt};
    ghost use Rattle.vs_compile.specs.Known.{AreFacts};
    ghost use Rattle.vs_compile.specs.Laid.{AreFewRegisters};

    /// A design, its footprints and its clocks. The only error is that there is no memory.
    pub(crate) fn of(
        alloc: Global,
        typed: &'a Typed,
        footprints: &'a Footprints,
        clocks: &'a Clocks,
    ) -> Result<Facts<'a>, AllocError>
        requires { AreFacts typed.now footprints.now clocks.now }
        ensures { IfOk result (λ f. f ≡ record { arena = typed.now; clocks = clocks.now.bits }) }
    {
        let reset_bits = ResetBits::of_design(alloc, typed, footprints, clocks)?;
        let templates = templates(alloc, typed)?;
        Ok(Facts {
            templates,
            footprints,
            clocks,
            reset_bits,
        })
    }

    /// The design. It is accepted.
    pub(crate) fn typed(&self) -> &'a Typed
        ensures same { result.now ≡ self.now.arena }
        ensures accepted { IsAcceptedAt (design_of self.now.arena) self.now.clocks }
    {
        let _clocks = self.clocks;
        self.templates.typed()
    }

    /// The design with the templates of its functions.
    pub(crate) fn templates(&self) -> &Templates<'a>
        ensures same { result.now.arena ≡ self.now.arena }
        ensures whole { result.now.functions ≡ length result.now.arena.bodies }
        ensures accepted { IsAcceptedAt (design_of self.now.arena) self.now.clocks }
    {
        let _clocks = self.clocks;
        &self.templates
    }

    /// The reset of a process, where it has one.
    pub(crate) fn reset(&self, process: u32) -> Option<Reset>
        ensures { (x : Process) → slice_get (design_of self.now.arena).processes process ≡ Some x → IsReset self.now.arena self.now.clocks x result }
    {
        self.clocks.reset(process)
    }

    /// How many bits the design has.
    pub(crate) fn bit_count(&self) -> u32
        ensures is { result ≡ bit_count (design_of self.now.arena) }
        ensures few { result ≤ 2 ^ 20 }
    {
        trees_law();
        let flat = self.typed().flat();
        let _few = flat.signal_count();
        count_bits(flat)
    }

    /// The bits of the registers, ascending, in a design with so many bits. The only error is that there is no memory.
    pub(crate) fn registers(&self, alloc: Global, count: u32) -> Result<Vec<u32>, AllocError>
        requires { count ≡ bit_count (design_of self.now.arena) }
        ensures { IfOk result (λ v. AreFewRegisters (design_of self.now.arena) count v.items) }
    {
        list_law();
        sources_law();
        let _typed = self.typed();
        registers(alloc, self, count)
    }

    /// The bits that a process waits on, in ascending order and each once.
    pub(crate) fn waits(&self, process: u32) -> &'a [u32]
        requires { process < length (design_of self.now.arena).processes }
        ensures { (x : Process) → slice_get (design_of self.now.arena).processes process ≡ Some x → result.now ≡ ascending (bit_count (design_of self.now.arena)) (waits_of x) }
    {
        footprint_law();
        self.footprints.waits(process)
    }
}

impl<'a> Processes for Facts<'a> {
    ghost use Rattle.vs_compile.specs.Known.{Known};

    ghost design = { λ (k : Known). design_of k.arena };

    ghost clock_list = { λ (k : Known). k.clocks };

    fn process_count(&self) -> u32 {
        trees_law();
        self.templates.flat().process_count()
    }

    fn is_clocked(&self, process: u32) -> bool {
        trees_law();
        is_clocked(self.templates.typed(), process)
    }

    fn copies_clock(&self, _clocks: &[u32], process: u32) -> bool {
        footprint_law();
        has_clock(self.clocks, needs(self.footprints, process))
    }

    fn add_reset_bits(
        &self,
        _clocks: &[u32],
        process: u32,
        bits: &mut Vec<u32>,
    ) -> Result<(), AllocError> {
        bits.extend_from_slice(self.reset_bits.of(process))?;
        Ok(())
    }

    fn needs(&self, process: u32) -> &[u32] {
        footprint_law();
        needs(self.footprints, process)
    }

    fn writes(&self, process: u32) -> &[u32] {
        footprint_law();
        self.footprints.writes(process)
    }
}

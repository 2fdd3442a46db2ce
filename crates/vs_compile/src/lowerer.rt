//! A design with a layout of its slots, whose processes are lowered.

ghost use Rattle.std.specs.Prelude.{◌≡◌, IfOk};

use crate::awake::lower_awake;
use crate::facts::Facts;
use crate::resetting::lower_branch;
use crate::sleeper::lower_sleeper;
use crate::tables::{shadows_of, sleeper_count};
use std::alloc::{AllocError, Global};
use std::marker::Model;
use vs_assemble::{Lowering, Processes};
use vs_code::Program;
use vs_cone::{list_law, sources_law};
use vs_design::{reads_law, within_law};
use vs_flat::trees_law;
use vs_program::{home, program_law};
use vs_reset::reset_law;

/// An accepted design with a layout of its slots: those of the constants and of the bits, one for each register bit's next value, one for the mask of each sleeping block, and then the temporaries.
#[derive(Drop)]
pub(crate) struct Lowerer<'a> {
    facts: Facts<'a>,
    /// How many bits the design has.
    count: u32,
    /// By bit the slot of its next value, where it is a register's.
    shadows: Vec<u32>,
    /// The first temporary.
    first_temp: u32,
}

// Clauses see the flat design, the bits of its clocks, and the layout.
impl<'a> Model for Lowerer<'a> {
    ghost use Rattle.vs_flat.specs.DesignOf.{design_of};
    ghost use Rattle.vs_compile.specs.Laid.{Laid, IsTable};

    ghost Value = { Laid };

    ghost view = { λ l. record { known = l.facts; count = l.count; shadows = l.shadows.items; first = l.first_temp } };

    ghost invariant = { λ l. IsTable (design_of l.facts.arena) l.count l.shadows.items l.first_temp };
}

impl<'a> Lowerer<'a> {
    ghost use Rattle.vs_flat.specs.DesignOf.{design_of};
    ghost use Rattle.vs_assemble.specs.Plans.{IsTightLayout};
    ghost use Rattle.vs_compile.specs.Laid.{laid_layout};

    /// A layout of a design. The only error is that there is no memory.
    pub(crate) fn of(alloc: Global, facts: Facts<'a>) -> Result<Lowerer<'a>, AllocError>
        ensures same { IfOk result (λ l. l.known ≡ facts.entry) }
        ensures layout { IfOk result (λ l. IsTightLayout (design_of l.known.arena) (laid_layout l)) }
    {
        list_law();
        program_law();
        let count = facts.bit_count();
        let registers = facts.registers(alloc, count)?;
        let shadows = shadows_of(alloc, count, registers.as_slice())?;
        let first_temp = home(count) + registers.len() as u32 + sleeper_count(facts.typed());
        Ok(Lowerer {
            facts,
            count,
            shadows,
            first_temp,
        })
    }
}

impl<'a> Processes for Lowerer<'a> {
    ghost use Rattle.vs_flat.specs.DesignOf.{design_of};
    ghost use Rattle.vs_compile.specs.Laid.{Laid};

    ghost design = { λ (l : Laid). design_of l.known.arena };

    ghost clock_list = { λ (l : Laid). l.known.clocks };

    fn process_count(&self) -> u32 {
        self.facts.process_count()
    }

    fn is_clocked(&self, process: u32) -> bool {
        self.facts.is_clocked(process)
    }

    fn copies_clock(&self, clocks: &[u32], process: u32) -> bool {
        self.facts.copies_clock(clocks, process)
    }

    fn add_reset_bits(
        &self,
        clocks: &[u32],
        process: u32,
        bits: &mut Vec<u32>,
    ) -> Result<(), AllocError> {
        self.facts.add_reset_bits(clocks, process, bits)
    }

    fn needs(&self, process: u32) -> &[u32] {
        self.facts.needs(process)
    }

    fn writes(&self, process: u32) -> &[u32] {
        self.facts.writes(process)
    }
}

impl<'a> Lowering for Lowerer<'a> {
    ghost use Rattle.vs_compile.specs.Laid.{laid_layout};

    ghost layout = { laid_layout };

    fn lower(&self, alloc: Global, process: u32, program: &mut Program) -> Result<(), AllocError> {
        trees_law();
        program_law();
        list_law();
        let templates = self.facts.templates();
        let typed = templates.typed();
        if typed.sleeps(process) {
            let waits = self.facts.waits(process);
            return lower_sleeper(
                alloc,
                templates,
                process,
                self.count,
                waits,
                self.first_temp,
                program,
            );
        }
        lower_awake(
            alloc,
            templates,
            process,
            self.count,
            self.shadows.as_slice(),
            self.first_temp,
            program,
        )
    }

    fn lower_reset(
        &self,
        alloc: Global,
        _clocks: &[u32],
        process: u32,
        program: &mut Program,
    ) -> Result<(), AllocError> {
        trees_law();
        program_law();
        list_law();
        sources_law();
        reads_law();
        reset_law();
        within_law();
        let templates = self.facts.templates();
        match self.facts.reset(process) {
            Some(reset) => lower_branch(
                alloc,
                templates,
                reset,
                self.count,
                self.first_temp,
                program,
            ),
            None => Ok(()),
        }
    }

    fn shadow(&self, bit: u32) -> u32 {
        sources_law();
        let _typed = self.facts.typed();
        self.shadows[bit as usize]
    }

    fn first_temp(&self) -> u32 {
        self.first_temp
    }
}

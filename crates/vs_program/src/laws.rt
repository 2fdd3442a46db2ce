//! What holds of programs that are made of lowered processes.

ghost use Rattle.vs_program.specs.Compiled.{EndsAreReached};
ghost use Rattle.vs_program.specs.Example.{LayoutsComputed};
ghost use Rattle.vs_program.specs.Layouts.{LayoutsFit, MasksFit};
ghost use Rattle.vs_program.specs.Made.{CallsGrow, ProgramsAreInRange, ProgramsAreMade, RegistersInOrder, ResetsGrow, StoresAreFew};
ghost use Rattle.vs_program.specs.Runs.{RoundsSolve};
ghost use Rattle.vs_program.specs.Weights.{KernelsWeighAsOperators};

use vs_code::{sequence_law, weight_law};
use vs_cone::{fall_law, list_law, rise_law, sources_law, stores_law, write_law};
use vs_design::{clock_law, cycle_law, footprint_law, lawful_law, reads_law};

/// Where each process is lowered, the calls of all of them, put together slot by slot, are a program of the design, within its size (`made`), and all of its slots are there (`in_range`). The rest is what is needed to put them together: a layout, the registers in order, and lists that grow call by call.
pub fn program_law()
    ensures made { ProgramsAreMade }
    ensures in_range { ProgramsAreInRange }
    ensures layout { LayoutsFit }
    ensures masks { MasksFit }
    ensures registers { RegistersInOrder }
    ensures calls { CallsGrow }
    ensures resets { ResetsGrow }
    ensures stores { StoresAreFew }
{
    sequence_law();
    weight_law();
    fall_law();
    rise_law();
    list_law();
    sources_law();
    stores_law();
    write_law();
    clock_law();
    cycle_law();
    footprint_law();
    lawful_law();
    reads_law();
}

/// A program of a design, run from its beginning on whatever vectors, gives the one solution in each lane (`solves`): what ends a slot is what a later one may begin with (`reached`).
pub fn run_law()
    ensures reached { EndsAreReached }
    ensures solves { RoundsSolve }
{}

/// Worked layouts: the slots of designs with registers and a sleeping block.
pub fn layout_examples()
    ensures { LayoutsComputed }
{}

/// Each kernel weighs what its operator weighs in the size of a design, so a call of it makes at most as many stores.
pub fn weights_law()
    ensures { KernelsWeighAsOperators }
{}

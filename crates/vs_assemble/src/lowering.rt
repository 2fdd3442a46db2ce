//! What the programs of a design need to know of its processes.

ghost use Rattle.std.specs.Prelude.{◌≡◌, ◌+◌, ◌<◌, ◌≤◌, ◌^◌, ◌++◌, List, length, OnOk, true};
ghost use Rattle.vs_design.specs.Footprints.{contains};
ghost use Rattle.vs_design.specs.Sizes.{register_bits};
ghost use Rattle.vs_code.specs.Calls.{Call, length_of};
ghost use Rattle.vs_program.specs.Lowered.{Layout};
ghost use Rattle.vs_program.specs.Made.{IsLoweredAt, IsResetAt};
ghost use Rattle.vs_assemble.specs.Plans.{may_store};

use crate::Processes;
use std::alloc::{AllocError, Global};
use vs_code::Program;

/// Lowers the processes of a design, in one layout of its slots.
pub trait Lowering: Processes {
    // The layout.
    ghost layout: { Self → Layout };

    /// Adds the calls of a process to a program. The only error is that there is no memory; the program then has some of them.
    fn lower(&self, alloc: Global, process: u32, program: &mut Program) -> Result<(), AllocError>
        requires process { process < length (Self.design self.now).processes }
        requires few { length_of program.old + may_store (Self.design self.now) process ≤ 2 ^ 32 }
        ensures { OnOk result ((calls : List Call) × (program.new ≡ program.old ++ calls) × IsLoweredAt (Self.design self.now) (layout self.now) process calls) };

    /// Adds the calls of a clocked block's reset, where the design's clocks are these bits; a block without one needs none. The only error is that there is no memory; the program then has some of them.
    fn lower_reset(
        &self,
        alloc: Global,
        clocks: &[u32],
        process: u32,
        program: &mut Program,
    ) -> Result<(), AllocError>
        requires clocks { clocks.now ≡ Self.clock_list self.now }
        requires process { process < length (Self.design self.now).processes }
        requires few { length_of program.old + may_store (Self.design self.now) process ≤ 2 ^ 32 }
        ensures { OnOk result ((calls : List Call) × (program.new ≡ program.old ++ calls) × IsResetAt (Self.design self.now) clocks.now (layout self.now) process calls) };

    /// The slot of a register bit's next value.
    fn shadow(&self, bit: u32) -> u32
        requires { contains (register_bits (Self.design self.now).processes) bit ≡ true }
        ensures { result ≡ (layout self.now).shadow bit };

    /// The first slot behind the masks, from which on the temporaries stand.
    fn first_temp(&self) -> u32
        ensures { result ≡ (layout self.now).first_temp };
}

//! The calls of a process that doesn't sleep.

ghost use Rattle.std.specs.Prelude.{◌≡◌, ◌+◌, ◌<◌, ◌≤◌, ◌^◌, ◌++◌, List, length, slice_get, Some, OnOk, true};
ghost use Rattle.std.specs.List.{list_all};
ghost use Rattle.vs_design.specs.Accepted.{is_empty};
ghost use Rattle.vs_design.specs.Designs as D;
ghost use Rattle.vs_design.specs.Levels.{has_no_cycle};
ghost use Rattle.vs_design.specs.Rules.{mixed_assigns};
ghost use Rattle.vs_design.specs.Sizes.{register_bits};
ghost use Rattle.vs_flat.specs.Arena.{bit_count};
ghost use Rattle.vs_flat.specs.DesignOf.{design_of};
ghost use Rattle.vs_code.specs.Calls.{Call, length_of};
ghost use Rattle.vs_program.specs.Lowered.{IsLayout, IsLoweredProcess, process_stores};
ghost use Rattle.vs_compile.specs.Laid.{table_layout};

use std::alloc::{AllocError, Global};
use vs_code::Program;
use vs_flat::trees_law;
use vs_lower::{Code, process};
use vs_values::Templates;

/// Adds the calls of process p as one that doesn't sleep, in a design of `count` bits whose combinational blocks have no `<=` and which has no combinational cycle. `shadows` has the slot of each register bit's next value; the temporaries begin at `first_temp`. The only error is that there is no memory; the program then has some of the calls.
pub(crate) fn lower_awake(
    alloc: Global,
    templates: &Templates,
    p: u32,
    count: u32,
    shadows: &[u32],
    first_temp: u32,
    program: &mut Program,
) -> Result<(), AllocError>
    requires whole { templates.now.functions ≡ length templates.now.arena.bodies }
    requires there { p < length templates.now.arena.processes }
    requires count { count ≡ bit_count templates.now.arena.signals }
    requires long { length shadows.now ≡ count }
    requires unmixed { list_all (λ x. is_empty (mixed_assigns x)) (design_of templates.now.arena).processes ≡ true }
    requires no_cycle { has_no_cycle (design_of templates.now.arena) ≡ true }
    requires layout { IsLayout (table_layout count shadows.now first_temp) (register_bits (design_of templates.now.arena).processes) }
    requires slots { (x : D.Process) → slice_get (design_of templates.now.arena).processes p ≡ Some x → first_temp + process_stores x < 2 ^ 32 }
    requires few { (x : D.Process) → slice_get (design_of templates.now.arena).processes p ≡ Some x → length_of program.old + process_stores x ≤ 2 ^ 32 }
    ensures { OnOk result ((x : D.Process) → slice_get (design_of templates.now.arena).processes p ≡ Some x
        → (calls : List Call) × (program.new ≡ program.old ++ calls) × IsLoweredProcess (table_layout count shadows.now first_temp) x calls) }
{
    let calls = std::mem::replace(program, Program::new(alloc));
    let mut code = Code::from(calls, first_temp);
    let done = process(alloc, templates, p, count, shadows, &mut code);
    *program = code.into_program();
    done
}

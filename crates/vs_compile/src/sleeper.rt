//! The calls of a block that sleeps.

ghost use Rattle.std.specs.Prelude.{◌≡◌, ◌+◌, ◌<◌, ◌≤◌, ◌^◌, ◌++◌, List, length, slice_get, Some, OnOk, true};
ghost use Rattle.vs_design.specs.Designs as D;
ghost use Rattle.vs_design.specs.Footprints.{ascending, waits_of};
ghost use Rattle.vs_design.specs.Sizes.{size};
ghost use Rattle.vs_design.specs.Sleepers.{is_sleeping};
ghost use Rattle.vs_flat.specs.Arena.{bit_count};
ghost use Rattle.vs_flat.specs.DesignOf.{design_of};
ghost use Rattle.vs_code.specs.Calls.{Call, length_of};
ghost use Rattle.vs_program.specs.Layouts.{IsLayoutOf, first_mask, mask_of, sleepers};
ghost use Rattle.vs_program.specs.Lowered.{Layout, process_stores};
ghost use Rattle.vs_program.specs.Made.{IsLoweredAt};
ghost use Rattle.vs_assemble.specs.Plans.{may_store};
ghost use Rattle.vs_compile.specs.Known.{IsAccepted};

use std::alloc::{AllocError, Global};
use vs_code::Program;
use vs_cone::list_law;
use vs_design::footprint_law;
use vs_flat::trees_law;
use vs_lower::{Code, sleeper};
use vs_program::program_law;
use vs_reset::sleeper_law;
use vs_typed::Typed;
use vs_values::Templates;

/// The slot of the mask of process p, which sleeps. The temporaries begin right behind the masks.
fn mask_slot(typed: &Typed, p: u32, first_temp: u32) -> u32
    requires there { p < length typed.now.processes }
    requires sleeps { (x : D.Process) → slice_get (design_of typed.now).processes p ≡ Some x → is_sleeping (design_of typed.now) x ≡ true }
    requires behind { first_temp ≡ first_mask (design_of typed.now) + length (sleepers (design_of typed.now)) }
    ensures { result ≡ mask_of (design_of typed.now) p }
{
    trees_law();
    let mut from_here = 0;
    for q in p..typed.flat().process_count() {
        if typed.sleeps(q) {
            from_here += 1;
        }
    }
    first_temp - from_here
}

/// Adds the calls of process p as one that sleeps, in an accepted design of `count` bits. It waits on the bits `waits`, and the temporaries begin at `first_temp`, right behind the masks. The only error is that there is no memory; the program then has some of the calls.
pub(crate) fn lower_sleeper(
    alloc: Global,
    templates: &Templates,
    p: u32,
    count: u32,
    waits: &[u32],
    first_temp: u32,
    program: &mut Program,
) -> Result<(), AllocError>
    requires whole { templates.now.functions ≡ length templates.now.arena.bodies }
    requires there { p < length templates.now.arena.processes }
    requires accepted { IsAccepted (design_of templates.now.arena) }
    requires sleeps { (x : D.Process) → slice_get (design_of templates.now.arena).processes p ≡ Some x → is_sleeping (design_of templates.now.arena) x ≡ true }
    requires count { count ≡ bit_count templates.now.arena.signals }
    requires waits { (x : D.Process) → slice_get (design_of templates.now.arena).processes p ≡ Some x → waits.now ≡ ascending (D.bit_count (design_of templates.now.arena)) (waits_of x) }
    requires behind { first_temp ≡ first_mask (design_of templates.now.arena) + length (sleepers (design_of templates.now.arena)) }
    requires room { first_temp + size (design_of templates.now.arena) ≤ 2 ^ 32 }
    requires few { length_of program.old + may_store (design_of templates.now.arena) p ≤ 2 ^ 32 }
    ensures { OnOk result ((l : Layout) → IsLayoutOf (design_of templates.now.arena) l → l.first_temp ≡ first_temp
        → (calls : List Call) × (program.new ≡ program.old ++ calls) × IsLoweredAt (design_of templates.now.arena) l p calls) }
{
    list_law();
    program_law();
    footprint_law();
    sleeper_law();
    trees_law();
    let mask = mask_slot(templates.typed(), p, first_temp);
    let calls = std::mem::replace(program, Program::new(alloc));
    let mut code = Code::from(calls, first_temp);
    let done = sleeper(alloc, templates, p, count, waits, mask, &mut code);
    *program = code.into_program();
    done
}

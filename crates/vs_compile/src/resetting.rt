//! The calls of asynchronous resets (IEEE 1364-2005, 9.7.2 and 9.9.2).

ghost use Rattle.std.specs.Prelude.{◌≡◌, ◌<◌, length, OnOk, Some};
ghost use Rattle.vs_design.specs.Designs as D;
ghost use Rattle.vs_flat.specs.Arena.{bit_count};
ghost use Rattle.vs_clock.specs.Resets.{plain_branch, plain_reset};
ghost use Rattle.vs_program.specs.Lowered.{Layout};
ghost use Rattle.vs_lower.specs.Resetting.{AddsReset, HasResetRoom, IsResetOf, IsResetReady};
ghost use Rattle.vs_compile.specs.Resets.{falls};

use std::alloc::{AllocError, Global};
use vs_base::Edge;
use vs_clock::Reset;
use vs_code::Program;
use vs_lower::Code;
use vs_values::{Templates, bounds_law};

/// Whether a reset by this edge is active at 0.
fn falls(edge: Edge) -> bool
    ensures { result ≡ falls edge }
{
    match edge {
        Edge::Negedge => true,
        Edge::Posedge | Edge::Any => false,
    }
}

/// Adds the calls of a reset, in a design of `count` bits; the temporaries begin at `first_temp`. The only error is that there is no memory; the program then has some of the calls.
pub(crate) fn lower_branch(
    alloc: Global,
    templates: &Templates,
    reset: Reset,
    count: u32,
    first_temp: u32,
    program: &mut Program,
) -> Result<(), AllocError>
    requires whole { templates.now.functions ≡ length templates.now.arena.bodies }
    requires count { count ≡ bit_count templates.now.arena.signals }
    requires there { reset.branch < length templates.now.arena.statements }
    requires ready { IsResetReady (bit_count templates.now.arena.signals) (record { calls = program.old; next = first_temp }) (falls reset.edge) reset.input (plain_branch templates.now.arena reset) }
    ensures { OnOk result ((l : Layout) (x : D.Process) → l.bits ≡ bit_count templates.now.arena.signals → l.first_temp ≡ first_temp
        → IsResetOf (plain_reset templates.now.arena reset) (falls reset.edge) reset.input (plain_branch templates.now.arena reset)
        → HasResetRoom x (falls reset.edge) reset.input (plain_branch templates.now.arena reset) → AddsReset l (Some (plain_reset templates.now.arena reset)) x program.old program.new) }
{
    bounds_law();
    let calls = std::mem::replace(program, Program::new(alloc));
    let mut code = Code::from(calls, first_temp);
    let done = vs_lower::reset(
        alloc,
        templates,
        reset.branch,
        reset.input,
        falls(reset.edge),
        count,
        &mut code,
    );
    *program = code.into_program();
    done
}

//! Asynchronous resets (IEEE 1364-2005, 9.9.2).

ghost use Rattle.std.specs.Prelude.{◌≡◌, ◌+◌, ◌<◌, ◌≤◌, ◌^◌, IfOk, OnOk, Some, false};
ghost use Rattle.vs_net.specs.Network as N;
ghost use Rattle.vs_design.specs.Designs as D;
ghost use Rattle.vs_flat.specs.Arena.{bit_count};
ghost use Rattle.vs_shape.specs.Bodies.{body_of};
ghost use Rattle.vs_program.specs.Lowered.{Layout};
ghost use Rattle.vs_values.specs.Environments.{homes};
ghost use Rattle.vs_values.specs.Ready.{IsReady};
ghost use Rattle.vs_values.specs.Templates.{statement_bound};
ghost use Rattle.vs_lower.specs.Resetting.{AddsReset, HasResetRoom, IsResetOf, IsResetReady, reset_condition};
ghost use Rattle.vs_values.specs.Valued.{AddsValue};

use crate::blocks::next_values;
use crate::branches::join;
use crate::copies::copy_home;
use crate::reach::reach;
use crate::statements::written_bits;
use std::alloc::{AllocError, Global};
use vs_base::{Context, UnaryOp};
use vs_design::{value_law, write_law};
use vs_program::home;
use vs_values::{Code, Environment, Templates, applied, picked};

/// The slot of a reset's condition: that of its input, or of its `!` where the reset is active at 0.
fn active(
    alloc: Global,
    input: u32,
    falls: bool,
    count: u32,
    code: &mut Code,
) -> Result<Vec<u32>, AllocError>
    requires there { input < count }
    requires ready { IsReady (homes count) code.old (reset_condition falls input) 1 }
    requires home { 4 + count ≤ code.old.next }
    requires slots { code.old.next < 2 ^ 32 }
    ensures { IfOk result (λ tc. AddsValue (homes count) code.old.calls code.old.next code.new.calls code.new.next (reset_condition falls input) 1 false tc.items) }
{
    value_law();
    let mut slot = Vec::new(alloc);
    slot.push(home(input))?;
    if falls {
        let context = Context {
            width: 1,
            signed: false,
        };
        let to = applied(alloc, UnaryOp::LogicalNot, slot, context, code)?;
        return Ok(to);
    }
    Ok(slot)
}

/// Adds the calls of a reset by this input, active at 1 or, where `falls`, at 0, whose branch is statement s, in a design of `count` bits. The branch reads nothing, as that of every accepted design. The only error is that there is no memory; the program then has some of the calls.
pub fn reset(
    alloc: Global,
    templates: &Templates,
    s: u32,
    input: u32,
    falls: bool,
    count: u32,
    code: &mut Code,
) -> Result<(), AllocError>
    requires count { count ≡ bit_count templates.now.arena.signals }
    requires there { s < statement_bound templates.now }
    requires ready { IsResetReady (bit_count templates.now.arena.signals) code.old falls input (body_of templates.now.arena s) }
    ensures { OnOk result ((l : Layout) (r : N.Reset) (p : D.Process) → l.bits ≡ bit_count templates.now.arena.signals → l.first_temp ≡ code.old.next → IsResetOf r falls input (body_of templates.now.arena s) → HasResetRoom p falls input (body_of templates.now.arena s) → AddsReset l (Some r) p code.old.calls code.new.calls) }
{
    write_law();
    let condition = active(alloc, input, falls, count, code)?;
    reach(templates);
    let next = next_values(alloc, templates, s, count, code)?;
    let bits = written_bits(alloc, templates, s)?;
    let first = picked(alloc, &next, bits.as_slice())?;
    let mut after = Environment::at_home(alloc, count);
    join(
        alloc,
        condition,
        bits.as_slice(),
        first.as_slice(),
        &mut after,
        code,
    )?;
    copy_home(alloc, &after, count, bits.as_slice(), code)?;
    Ok(())
}

//! Sleeping blocks: combinational blocks that may stay unexecuted through time zero (IEEE 1364-2005, 9.7.5).

ghost use Rattle.std.specs.Prelude.{◌≡◌, ◌+◌, ◌*◌, ◌<◌, ◌≤◌, ◌^◌, ◌++◌, [], ◌∷◌, length, map, slice_get, All, IfOk, OnOk, Some, true, false, Bool, List, ℕ};
ghost use Rattle.std.specs.List.{list_all};
ghost use Rattle.vs_design.specs.Accepted.{is_empty};
ghost use Rattle.vs_design.specs.Designs as D;
ghost use Rattle.vs_design.specs.Footprints.{statement_bits, writes_of};
ghost use Rattle.vs_design.specs.Rules.{mixed_assigns};
ghost use Rattle.vs_design.specs.Sizes.{distinct};
ghost use Rattle.vs_design.specs.Sleepers.{is_sleeping};
ghost use Rattle.vs_flat.specs.Arena.{bit_count};
ghost use Rattle.vs_flat.specs.DesignOf.{design_of};
ghost use Rattle.vs_shape.specs.Bodies.{body_of};
ghost use Rattle.vs_code.specs.Calls.{IsCall, call_cost, length_of};
ghost use Rattle.vs_program.specs.Lowered.{Layout, home, process_stores};
ghost use Rattle.vs_reset.specs.Sleepers.{AreBits, IsMask, compare_call, finish_call, wake_calls, x_slots};
ghost use Rattle.vs_values.specs.Templates.{statement_bound};
ghost use Rattle.vs_lower.specs.Asleep.{AddsBody, AddsSleeper, IsSleeperReady};
ghost use Rattle.vs_lower.specs.Processed.{IsBlockReady};

use crate::assigns::owned;
use crate::environments::Environments;
use crate::lowered::kind_at;
use crate::reach::reach;
use crate::statements::{statement, written_bits};
use std::alloc::{AllocError, Global};
use vs_code::AnyKernel;
use vs_design::{footprint_law, within_law};
use vs_flat::{Kind, lawful_law, trees_law};
use vs_program::home;
use vs_reset::sleeper_law;
use vs_typed::fits_law;
use vs_values::{Code, Environment, Templates, appended, bounds_law, pair, picked, triple};

/// The list of one slot.
fn one(alloc: Global, slot: u32) -> Result<Vec<u32>, AllocError>
    ensures { IfOk result (λ to. to.items ≡ slot ∷ []) }
{
    let mut to = Vec::with_capacity(alloc, 1)?;
    to.push(slot)?;
    Ok(to)
}

/// The slots of these bits.
fn homes_of(alloc: Global, bits: &[u32]) -> Result<Vec<u32>, AllocError>
    requires { All (λ b. home b < 2 ^ 32) bits.now }
    ensures { IfOk result (λ to. to.items ≡ map home bits.now) }
{
    let mut to = Vec::with_capacity(alloc, bits.len())?;
    for n in 0..bits.len() {
        to.push(home(bits[n]))?;
    }
    Ok(to)
}

/// The slot of x, as often as there are bits.
fn unknowns(alloc: Global, bits: &[u32]) -> Result<Vec<u32>, AllocError>
    ensures { IfOk result (λ to. to.items ≡ x_slots bits.now) }
{
    let to = vec![in alloc; 2; bits.len()]?;
    Ok(to)
}

/// Adds the call that tells in the slot `spare` whether the mask differs from 0 or one of these bits from x.
fn compare(
    alloc: Global,
    waits: &[u32],
    mask: u32,
    spare: u32,
    code: &mut Code,
) -> Result<(), AllocError>
    requires inside { All (λ b. home b < 2 ^ 32) waits.now }
    requires call { IsCall (compare_call mask spare waits.now) }
    requires few { length_of code.old.calls + call_cost (compare_call mask spare waits.now) ≤ 2 ^ 32 }
    ensures calls { OnOk result (code.new.calls ≡ code.old.calls ++ compare_call mask spare waits.now ∷ []) }
    ensures next { OnOk result (code.new.next ≡ code.old.next) }
{
    let first = one(alloc, mask)?;
    let homes = homes_of(alloc, waits)?;
    let these = appended(first, homes)?;
    let zero = one(alloc, 0)?;
    let unknown = unknowns(alloc, waits)?;
    let those = appended(zero, unknown)?;
    let args = pair(alloc, these, those)?;
    let to = one(alloc, spare)?;
    code.store(
        alloc,
        AnyKernel::Logic(vs_kern_logic::Kernel::CaseNotEqual),
        args,
        to,
    )
}

/// Adds the calls after which the mask tells whether it was 1 before, or one of these bits isn't x. The least new slot is written, and stays new.
fn wake(alloc: Global, waits: &[u32], mask: u32, code: &mut Code) -> Result<(), AllocError>
    requires inside { All (λ b. home b < 2 ^ 32) waits.now }
    requires calls { All IsCall (wake_calls mask code.old.next waits.now) }
    requires few { length_of code.old.calls + length_of (wake_calls mask code.old.next waits.now) ≤ 2 ^ 32 }
    ensures calls { OnOk result (code.new.calls ≡ code.old.calls ++ wake_calls mask code.old.next waits.now) }
    ensures next { OnOk result (code.new.next ≡ code.old.next) }
{
    if waits.is_empty() {
        return Ok(());
    }
    let spare = code.next();
    compare(alloc, waits, mask, spare, code)?;
    let from = one(alloc, spare)?;
    let to = one(alloc, mask)?;
    code.copy(alloc, from, to)
}

/// Adds the calls of a block's statement, in a design of `count` bits, and answers slots that have what these bits have after it. None of them is a bit's: where the statement leaves one of them at home, all are copied.
fn settled(
    alloc: Global,
    templates: &Templates,
    s: u32,
    count: u32,
    bits: &[u32],
    code: &mut Code,
) -> Result<Vec<u32>, AllocError>
    requires count { count ≡ bit_count templates.now.arena.signals }
    requires there { s < statement_bound templates.now }
    requires ready { IsBlockReady (bit_count templates.now.arena.signals) code.old (body_of templates.now.arena s) }
    requires inside { All (λ b. b < bit_count templates.now.arena.signals) bits.now }
    requires some { 1 ≤ length bits.now }
    requires few { length bits.now ≤ distinct (statement_bits (body_of templates.now.arena s)) }
    ensures { IfOk result (λ now. AddsBody (bit_count templates.now.arena.signals) code.old code.new (body_of templates.now.arena s) bits.now now.items) }
{
    let first = code.next();
    reach(templates);
    let mut env = Environments {
        values: Environment::at_home(alloc, count),
        ahead: Environment::at_home(alloc, count),
    };
    statement(alloc, templates, s, &mut env, code)?;
    let slots = picked(alloc, &env.values, bits)?;
    owned(alloc, slots, bits.len() as u32, first, code)
}

/// Adds the call that gives these bits the values in the slots `now` where the mask is 1, and else x.
fn finish(
    alloc: Global,
    mask: u32,
    bits: &[u32],
    now: Vec<u32>,
    code: &mut Code,
) -> Result<(), AllocError>
    requires inside { All (λ b. home b < 2 ^ 32) bits.now }
    requires call { IsCall (finish_call mask bits.now now.items) }
    requires few { length_of code.old.calls + call_cost (finish_call mask bits.now now.items) ≤ 2 ^ 32 }
    ensures { OnOk result (code.new.calls ≡ code.old.calls ++ finish_call mask bits.now now.items ∷ []) }
{
    let condition = one(alloc, mask)?;
    let other = unknowns(alloc, bits)?;
    let args = triple(alloc, condition, now, other)?;
    let to = homes_of(alloc, bits)?;
    code.store(
        alloc,
        AnyKernel::Select(vs_kern_select::Kernel::Branch),
        args,
        to,
    )
}

/// Adds the calls of a sleeping block with this statement, in a design of `count` bits: the mask, the statement, and then its values or x to its bits.
fn asleep(
    alloc: Global,
    templates: &Templates,
    s: u32,
    count: u32,
    waits: &[u32],
    mask: u32,
    code: &mut Code,
) -> Result<(), AllocError>
    requires count { count ≡ bit_count templates.now.arena.signals }
    requires there { s < statement_bound templates.now }
    requires ready { IsSleeperReady (bit_count templates.now.arena.signals) code.old waits.now mask (body_of templates.now.arena s) }
    ensures { OnOk result ((l : Layout) (place : ℕ) (star : Bool) (events : List D.Event) → l.bits ≡ bit_count templates.now.arena.signals → l.first_temp ≡ code.old.next → D.is_clocked (D.Always place star events (body_of templates.now.arena s)) ≡ false → AddsSleeper l (D.Always place star events (body_of templates.now.arena s)) waits.now mask code.old.calls code.new.calls) }
{
    sleeper_law();
    reach(templates);
    wake(alloc, waits, mask, code)?;
    let bits = written_bits(alloc, templates, s)?;
    let now = settled(alloc, templates, s, count, bits.as_slice(), code)?;
    finish(alloc, mask, bits.as_slice(), now, code)
}

/// Adds the calls of process p as a block that sleeps, in a design of `count` bits whose combinational blocks have no `<=`: as long as its mask is 0, and the bits `waits` that it waits on are x, so are its bits. The slot `mask` holds the mask, and the temporaries begin at the least slot that is new. The only error is that there is no memory; the program then has some of the calls.
pub fn sleeper(
    alloc: Global,
    templates: &Templates,
    p: u32,
    count: u32,
    waits: &[u32],
    mask: u32,
    code: &mut Code,
) -> Result<(), AllocError>
    requires whole { templates.now.functions ≡ length templates.now.arena.bodies }
    requires there { p < length templates.now.arena.processes }
    requires count { count ≡ bit_count templates.now.arena.signals }
    requires sleeps { (x : D.Process) → slice_get (design_of templates.now.arena).processes p ≡ Some x → is_sleeping (design_of templates.now.arena) x ≡ true }
    requires unmixed { list_all (λ x. is_empty (mixed_assigns x)) (design_of templates.now.arena).processes ≡ true }
    requires mask { IsMask (bit_count templates.now.arena.signals) code.old.next mask }
    requires waits { AreBits (bit_count templates.now.arena.signals) waits.now }
    requires slots { (x : D.Process) → slice_get (design_of templates.now.arena).processes p ≡ Some x → code.old.next + process_stores x < 2 ^ 32 }
    requires few { (x : D.Process) → slice_get (design_of templates.now.arena).processes p ≡ Some x → length_of code.old.calls + (process_stores x + (length waits.now + 1 + distinct (writes_of x))) ≤ 2 ^ 32 }
    ensures { OnOk result ((l : Layout) (x : D.Process) → slice_get (design_of templates.now.arena).processes p ≡ Some x → l.bits ≡ bit_count templates.now.arena.signals → l.first_temp ≡ code.old.next → AddsSleeper l x waits.now mask code.old.calls code.new.calls) }
{
    footprint_law();
    within_law();
    bounds_law();
    fits_law();
    trees_law();
    lawful_law();
    sleeper_law();
    let _flat = templates.flat();
    match kind_at(templates, p) {
        Kind::Assign { .. } => Ok(()),
        Kind::Block { statement, .. } => asleep(
            alloc, templates, *statement, count, waits, mask, code,
        ),
    }
}

//! The processes of a design (IEEE 1364-2005, clause 11).

ghost use Rattle.std.specs.Prelude.{◌≡◌, ◌+◌, ◌<◌, ◌≤◌, ◌^◌, length, slice_get, slice_index, OnOk, Some, true, ℕ};
ghost use Rattle.std.specs.List.{list_all};
ghost use Rattle.vs_design.specs.Accepted.{is_empty};
ghost use Rattle.vs_design.specs.Designs as D;
ghost use Rattle.vs_design.specs.Levels.{has_no_cycle};
ghost use Rattle.vs_design.specs.Rules.{mixed_assigns};
ghost use Rattle.vs_design.specs.Sizes.{register_bits};
ghost use Rattle.vs_flat.specs.Arena.{bit_count};
ghost use Rattle.vs_flat.specs.DesignOf.{design_of, kind_of, arena_signals, arena_trees};
ghost use Rattle.vs_flat.specs.Trees.{signal_at, tree_at};
ghost use Rattle.vs_shape.specs.Bodies.{body_of};
ghost use Rattle.vs_program.specs.Lowered.{IsLayout, Layout, home, process_stores};
ghost use Rattle.vs_code.specs.Calls.{length_of};
ghost use Rattle.vs_lower.specs.Processed.{AddsProcess, HasKindNames, HasShadows};

use crate::blocks::{clocked, combinational};
use crate::continuous::continuous;
use std::alloc::{AllocError, Global};
use vs_design::{footprint_law, within_law};
use vs_flat::{Kind, has_edge, lawful_law, names_law, trees_law};
use vs_typed::fits_law;
use vs_values::{Code, Templates, bounds_law};

/// What process p is: it names expressions and statements of the design.
pub(crate) fn kind_at<'a>(templates: &'a Templates, p: u32) -> &'a Kind
    requires there { p < length templates.now.arena.processes }
    ensures names { HasKindNames templates.now.arena result.now }
    ensures is { (place : ℕ) × (slice_get (design_of templates.now.arena).processes p ≡ Some (kind_of (signal_at (arena_signals templates.now.arena)) (tree_at (arena_trees templates.now.arena)) (body_of templates.now.arena) place result.now)) }
{
    names_law();
    trees_law();
    lawful_law();
    &templates.flat().process(p).kind
}

/// Adds the calls of process p, in a design of `count` bits whose combinational blocks have no `<=` and which has no combinational cycle. `shadows` has a slot for each bit, which is asked for where the bit is one of a register; the temporaries begin at the least slot that is new. The only error is that there is no memory; the program then has some of the calls.
pub fn process(
    alloc: Global,
    templates: &Templates,
    p: u32,
    count: u32,
    shadows: &[u32],
    code: &mut Code,
) -> Result<(), AllocError>
    requires whole { templates.now.functions ≡ length templates.now.arena.bodies }
    requires there { p < length templates.now.arena.processes }
    requires count { count ≡ bit_count templates.now.arena.signals }
    requires unmixed { list_all (λ x. is_empty (mixed_assigns x)) (design_of templates.now.arena).processes ≡ true }
    requires no_cycle { has_no_cycle (design_of templates.now.arena) ≡ true }
    requires temps { home (bit_count templates.now.arena.signals) ≤ code.old.next }
    requires slots { (x : D.Process) → slice_get (design_of templates.now.arena).processes p ≡ Some x → code.old.next + process_stores x < 2 ^ 32 }
    requires few { (x : D.Process) → slice_get (design_of templates.now.arena).processes p ≡ Some x → length_of code.old.calls + process_stores x ≤ 2 ^ 32 }
    requires long { length shadows.now ≡ count }
    requires layout { IsLayout (record { bits = bit_count templates.now.arena.signals; shadow = slice_index shadows.now; first_temp = code.old.next }) (register_bits (design_of templates.now.arena).processes) }
    ensures { OnOk result ((l : Layout) (x : D.Process) → slice_get (design_of templates.now.arena).processes p ≡ Some x → HasShadows (bit_count templates.now.arena.signals) code.old.next shadows.now (register_bits (design_of templates.now.arena).processes) l → AddsProcess l x code.old.calls code.new.calls) }
{
    footprint_law();
    within_law();
    bounds_law();
    fits_law();
    trees_law();
    lawful_law();
    let _flat = templates.flat();
    match kind_at(templates, p) {
        Kind::Assign { target, expr, .. } => continuous(
            alloc, templates, *target, *expr, count, code,
        ),
        Kind::Block {
            events,
            statement,
            ..
        } => {
            if has_edge(events.as_slice()) {
                clocked(alloc, templates, *statement, count, shadows, code)
            } else {
                combinational(alloc, templates, *statement, count, code)
            }
        }
    }
}

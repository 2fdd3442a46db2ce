//! Assigns (IEEE 1364-2005, 6.1).

ghost use Rattle.std.specs.Prelude.{◌≡◌, ◌<◌, length, IfOk, OnOk, IsSome, ℕ};
ghost use Rattle.std.specs.List.Sorted.{IsStrictlyIncreasing};
ghost use Rattle.vs_design.specs.Designs.{Continuous, Port};
ghost use Rattle.vs_design.specs.Footprints.{contains, target_bits};
ghost use Rattle.vs_flat.specs.Arena.{bit_count};
ghost use Rattle.vs_flat.specs.DesignOf.{arena_trees};
ghost use Rattle.vs_flat.specs.Targets.{target_of};
ghost use Rattle.vs_flat.specs.Trees.{target_tree, tree_at};
ghost use Rattle.vs_program.specs.Lowered.{Layout};
ghost use Rattle.vs_shape.specs.Walked.{IsTarget};
ghost use Rattle.vs_values.specs.Templates.{node_bound};
ghost use Rattle.vs_lower.specs.Processed.{AddsProcess, IsContinuousReady};

use crate::assigns::assign;
use crate::copies::copy_home;
use crate::environments::Environments;
use crate::reach::reach;
use std::alloc::{AllocError, Global};
use vs_shape::ascend;
use vs_values::{Code, Environment, Templates};

/// The bits that a target writes, in ascending order and each once.
pub(crate) fn target_written(
    alloc: Global,
    templates: &Templates,
    target: u32,
) -> Result<Vec<u32>, AllocError>
    requires there { target < length templates.now.arena.nodes }
    requires target { IsTarget (tree_at (arena_trees templates.now.arena) target) }
    ensures rising { IfOk result (λ v. IsStrictlyIncreasing v.items) }
    ensures same { IfOk result (λ v. (b : ℕ) → contains v.items b ≡ contains (target_bits (target_tree (tree_at (arena_trees templates.now.arena) target))) b) }
{
    let mut bits = Vec::new(alloc);
    templates.shapes().push_target(target, &mut bits)?;
    ascend(&mut bits);
    Ok(bits)
}

/// Adds the calls of an assign (IEEE 1364-2005, 6.1), in a design of `count` bits.
pub(crate) fn continuous(
    alloc: Global,
    templates: &Templates,
    target: u32,
    e: u32,
    count: u32,
    code: &mut Code,
) -> Result<(), AllocError>
    requires count { count ≡ bit_count templates.now.arena.signals }
    requires target { target < node_bound templates.now }
    requires e { e < node_bound templates.now }
    requires is_target { IsSome (target_of (tree_at (arena_trees templates.now.arena) target)) }
    requires ready { IsContinuousReady (bit_count templates.now.arena.signals) code.old (target_tree (tree_at (arena_trees templates.now.arena) target)) (tree_at (arena_trees templates.now.arena) e) }
    ensures { OnOk result ((l : Layout) (place target_place : ℕ) (port : Port) → l.bits ≡ bit_count templates.now.arena.signals → l.first_temp ≡ code.old.next → AddsProcess l (Continuous place port target_place (target_tree (tree_at (arena_trees templates.now.arena) target)) (tree_at (arena_trees templates.now.arena) e)) code.old.calls code.new.calls) }
{
    reach(templates);
    let mut env = Environments {
        values: Environment::at_home(alloc, count),
        ahead: Environment::at_home(alloc, count),
    };
    assign(alloc, templates, target, e, true, &mut env, code)?;
    let bits = target_written(alloc, templates, target)?;
    copy_home(alloc, &env.ahead, count, bits.as_slice(), code)?;
    Ok(())
}

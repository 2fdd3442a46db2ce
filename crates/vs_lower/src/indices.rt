//! The indices of a target's parts.

ghost use Rattle.std.specs.Prelude.{◌≡◌, ◌<◌, map, length, sum_by, All, IfOk, true};
ghost use Rattle.vs_design.specs.Fits.{fits_target};
ghost use Rattle.vs_design.specs.Within.{target_within};
ghost use Rattle.vs_flat.specs.DesignOf.{arena_trees};
ghost use Rattle.vs_flat.specs.Trees.{tree_at};
ghost use Rattle.vs_values.specs.Templates.{node_bound};
ghost use Rattle.vs_lower.specs.Leaves.{IsInside, leaf_target};
ghost use Rattle.vs_lower.specs.Written.{AddsBoth, AddsIndex, AddsIndices, AreReady, HasRoom, index_weight};

use crate::leaves::Leaf;
use crate::reach::reach;
use std::alloc::{AllocError, Global};
use vs_base::List;
use vs_design::value_law;
use vs_values::{Code, Environment, Templates, appended, lower, own};

/// Adds the calls of the address of a part of a word and of its index, and answers the slots of both, those of the address first.
fn part_index(
    alloc: Global,
    templates: &Templates,
    env: &Environment,
    address: u32,
    index: u32,
    code: &mut Code,
) -> Result<Vec<u32>, AllocError>
    requires address { address < node_bound templates.now }
    requires index { index < node_bound templates.now }
    requires ready { AreReady env.now code.old (tree_at (arena_trees templates.now.arena) address) (tree_at (arena_trees templates.now.arena) index) }
    ensures { IfOk result (λ ti. AddsBoth env.now code.old code.new (tree_at (arena_trees templates.now.arena) address) (tree_at (arena_trees templates.now.arena) index) ti.items) }
{
    reach(templates);
    let first = own(templates, address);
    let at = lower(alloc, templates, env, address, first, code)?;
    let second = own(templates, index);
    let by = lower(alloc, templates, env, index, second, code)?;
    appended(at, by)
}

/// Adds the calls of the index of a part of a target, and answers the slots of its value. A whole signal has none; of a part of a word those of the address come first.
fn index(
    alloc: Global,
    templates: &Templates,
    env: &Environment,
    leaf: Leaf,
    code: &mut Code,
) -> Result<Vec<u32>, AllocError>
    requires inside { IsInside templates.now leaf }
    requires fit { fits_target (leaf_target templates.now.arena leaf) ≡ true }
    requires names { target_within (length env.now) (leaf_target templates.now.arena leaf) ≡ true }
    requires room { HasRoom env.now code.old (index_weight (leaf_target templates.now.arena leaf)) }
    ensures { IfOk result (λ ti. AddsIndex env.now code.old code.new (leaf_target templates.now.arena leaf) ti.items) }
{
    value_law();
    reach(templates);
    match leaf {
        Leaf::Whole { .. } => Ok(Vec::new(alloc)),
        Leaf::Select { index, .. } => {
            let own = own(templates, index);
            let to = lower(alloc, templates, env, index, own, code)?;
            Ok(to)
        }
        Leaf::Word { index, .. } => {
            let own = own(templates, index);
            let to = lower(alloc, templates, env, index, own, code)?;
            Ok(to)
        }
        Leaf::WordPart { address, index, .. } => {
            part_index(alloc, templates, env, address, index, code)
        }
    }
}

/// Adds the calls of the indices of a target's parts, and answers the slots of their values in the order of the parts.
pub(crate) fn indices(
    alloc: Global,
    templates: &Templates,
    env: &Environment,
    leaves: &[Leaf],
    code: &mut Code,
) -> Result<Vec<List<u32>>, AllocError>
    requires inside { All (IsInside templates.now) leaves.now }
    requires fit { All (λ leaf. fits_target (leaf_target templates.now.arena leaf) ≡ true) leaves.now }
    requires names { All (λ leaf. target_within (length env.now) (leaf_target templates.now.arena leaf) ≡ true) leaves.now }
    requires room { HasRoom env.now code.old (sum_by index_weight (map (leaf_target templates.now.arena) leaves.now)) }
    ensures { IfOk result (λ tis. AddsIndices env.now code.old code.new (map (leaf_target templates.now.arena) leaves.now) tis.items) }
{
    let mut tis = Vec::with_capacity(alloc, leaves.len())?;
    for n in 0..leaves.len() {
        let ti = index(alloc, templates, env, leaves[n], code)?;
        tis.push(List::of(ti))?;
    }
    Ok(tis)
}

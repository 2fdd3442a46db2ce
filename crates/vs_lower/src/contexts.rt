//! The context that a case's expression and items share.

ghost use Rattle.std.specs.Prelude.{◌≡◌, ◌<◌, length, map, All, true};
ghost use Rattle.vs_design.specs.Expressions as E;
ghost use Rattle.vs_design.specs.Fits.{is_fit};
ghost use Rattle.vs_design.specs.Statements.{all_signed, widest};
ghost use Rattle.vs_flat.specs.DesignOf.{arena_trees};
ghost use Rattle.vs_flat.specs.Trees.{tree_at};
ghost use Rattle.vs_lower.specs.Cases.{arms_signed, arms_widest};

use vs_base::Context;
use vs_flat::Arm;
use vs_values::{Templates, own};

/// The context of an expression and these items (IEEE 1364-2005, 9.5).
pub(crate) fn with_items(templates: &Templates, context: Context, items: &[u32]) -> Context
    requires items { All (λ e. e < length templates.now.arena.nodes) items.now }
    requires fit { All (λ e. is_fit (tree_at (arena_trees templates.now.arena) e) ≡ true) items.now }
    ensures width { result.width ≡ widest context.width (E.items_of (map (tree_at (arena_trees templates.now.arena)) items.now)) }
    ensures signed { result.signed ≡ all_signed context.signed (E.items_of (map (tree_at (arena_trees templates.now.arena)) items.now)) }
{
    let mut all = context;
    for n in 0..items.len() {
        all = all.shared(own(templates, items[n]));
    }
    all
}

/// The context that a case's expression and all its items share.
pub(crate) fn case_context(templates: &Templates, of: u32, arms: &[Arm]) -> Context
    requires of { of < length templates.now.arena.nodes }
    requires fit { is_fit (tree_at (arena_trees templates.now.arena) of) ≡ true }
    requires items { All (λ arm. All (λ e. e < length templates.now.arena.nodes) arm.items) arms.now }
    requires items_fit { All (λ arm. All (λ e. is_fit (tree_at (arena_trees templates.now.arena) e) ≡ true) arm.items) arms.now }
    ensures width { result.width ≡ arms_widest (tree_at (arena_trees templates.now.arena)) arms.now (E.width (tree_at (arena_trees templates.now.arena) of)) }
    ensures signed { result.signed ≡ arms_signed (tree_at (arena_trees templates.now.arena)) arms.now (E.sign (tree_at (arena_trees templates.now.arena) of)) }
{
    let mut all = own(templates, of);
    for n in 0..arms.len() {
        all = with_items(templates, all, arms[n].items.as_slice());
    }
    all
}

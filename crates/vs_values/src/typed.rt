//! The length and the sign of an expression that fits.

ghost use Rattle.std.specs.Prelude.{◌≡◌, ◌<◌, length, true};
ghost use Rattle.vs_design.specs.Expressions as E;
ghost use Rattle.vs_design.specs.Fits.{is_fit};
ghost use Rattle.vs_flat.specs.DesignOf.{arena_trees};
ghost use Rattle.vs_flat.specs.Trees.{tree_at};
ghost use Rattle.vs_values.specs.Templates.{node_bound};

use crate::templates::Templates;
use vs_base::Context;

/// The length of expression e by itself.
fn width(templates: &Templates, e: u32) -> u32
    requires node { e < length templates.now.arena.nodes }
    requires fit { is_fit (tree_at (arena_trees templates.now.arena) e) ≡ true }
    ensures { result ≡ E.width (tree_at (arena_trees templates.now.arena) e) }
{
    templates.width(e)
}

/// The length and the sign of expression e by itself.
pub fn own(templates: &Templates, e: u32) -> Context
    requires node { e < length templates.now.arena.nodes }
    requires fit { is_fit (tree_at (arena_trees templates.now.arena) e) ≡ true }
    ensures width { result.width ≡ E.width (tree_at (arena_trees templates.now.arena) e) }
    ensures signed { result.signed ≡ E.sign (tree_at (arena_trees templates.now.arena) e) }
{
    Context {
        width: width(templates, e),
        signed: templates.signed(e),
    }
}

/// The same of an expression that calls functions that have been looked at alone.
pub(crate) fn own_of(templates: &Templates, e: u32) -> Context
    requires node { e < node_bound templates.now }
    requires fit { is_fit (tree_at (arena_trees templates.now.arena) e) ≡ true }
    ensures width { result.width ≡ E.width (tree_at (arena_trees templates.now.arena) e) }
    ensures signed { result.signed ≡ E.sign (tree_at (arena_trees templates.now.arena) e) }
{
    templates.expr(e);
    own(templates, e)
}

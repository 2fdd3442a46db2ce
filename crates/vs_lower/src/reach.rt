//! Which expressions and statements may be lowered: those that call functions that have been looked at alone.

ghost use Rattle.std.specs.Prelude.{◌≤◌, length};
ghost use Rattle.vs_flat.specs.Lawful.{IsLawful};
ghost use Rattle.vs_values.specs.Templates.{node_bound, statement_bound};

use vs_values::{Templates, bounds_law};

/// They are of the design, which is lawful.
pub(crate) fn reach(templates: &Templates)
    ensures lawful { IsLawful templates.now.arena }
    ensures nodes { node_bound templates.now ≤ length templates.now.arena.nodes }
    ensures statements { statement_bound templates.now ≤ length templates.now.arena.statements }
{
    bounds_law();
    templates.flat();
}

//! The names of scopes.

ghost use Rattle.std.specs.Prelude.{◌≡◌, ◌++◌, OnOk, map};
ghost use Rattle.vs_flat.specs.DesignOf.{scope_of};
ghost use Rattle.vs_names.specs.Names as spec;

use std::alloc::AllocError;
use vs_excerpt::Page;
use vs_flat::Flat;

/// Adds the names of the scopes around a scope and its own, from the top on, with a dot behind each. It looks at so many at most.
pub(crate) fn push_scope(
    page: &mut Page,
    flat: &Flat,
    scope: u32,
    left: u32,
) -> Result<(), AllocError>
    ensures { OnOk result (page.new ≡ page.old ++ spec.scope_text left (map scope_of flat.now.scopes) scope) }
{
    if left == 0 || scope >= flat.scope_count() {
        return Ok(());
    }
    let scope = flat.scope(scope);
    if let Some(parent) = scope.parent {
        push_scope(page, flat, parent, left - 1)?;
    }
    page.escaped(scope.name.as_slice())?;
    page.text(".")
}

//! What the text assigns to (IEEE 1364-2005, table 6-1).

ghost use Rattle.std.specs.Prelude.{◌≡◌, ◌+◌, OnOk};
ghost use Rattle.vs_grammar.specs.Depths.{target_depth, targets_depth};
ghost use Rattle.vs_ast.specs.Views as view;
ghost use Rattle.vs_build.specs.Drafts.{home, AddsExpression, AddsParts};
ghost use Rattle.vs_build.specs.Growth.{draft};
ghost use Rattle.vs_build.specs.Writable.{IsWritable, AreWritable, target_expression, target_expressions};

use crate::builder::Builder;
use crate::expressions::selected;
use std::alloc::{AllocError, Global};
use vs_ast::Target;
use vs_const::Env;

/// Builds a target that breaks no rule: of an assign, or of an assignment in a block (`procedural`).
#[cycle(targets)]
pub(crate) fn target<E: Env>(
    builder: &mut Builder,
    alloc: Global,
    t: &Target,
    env: &E,
    procedural: bool,
) -> Result<(), AllocError>
    requires { IsWritable (home (draft builder.old)) (E.names env.now) procedural (view.target t.now) }
    ensures { OnOk result (AddsExpression (draft builder.old) (draft builder.new) (target_expression (view.target t.now) (E.names env.now) procedural) (1 + target_depth (view.target t.now))) }
{
    match t {
        Target::Named(name, select) => selected(
            builder,
            alloc,
            select,
            name,
            name.place,
            env,
            false,
            !procedural,
        ),
        Target::Concatenation { place, parts } => {
            targets(builder, alloc, parts, env, procedural)?;
            builder.join(alloc, parts.len(), 1, *place)
        }
    }
}

/// Builds the parts of a target, one after the other.
#[cycle(targets)]
fn targets<E: Env>(
    builder: &mut Builder,
    alloc: Global,
    list: &[Target],
    env: &E,
    procedural: bool,
) -> Result<(), AllocError>
    requires { AreWritable (home (draft builder.old)) (E.names env.now) procedural (view.targets list.now) }
    ensures { OnOk result (AddsParts (draft builder.old) (draft builder.new) (target_expressions (E.names env.now) procedural list.now) (1 + targets_depth (view.targets list.now))) }
{
    for part in list {
        target(builder, alloc, part, env, procedural)?;
    }
    Ok(())
}

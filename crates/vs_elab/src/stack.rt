//! The stack of what is still to be read, in place of a recursion over scopes within one another (IEEE 1364-2005, 12.1).

ghost use Rattle.std.specs.Prelude.{◌≡◌, ◌<◌, ◌≤◌, ◌++◌, List, OnOk, Some, length, map};
ghost use Rattle.vs_grammar.specs.Trees as tree;
ghost use Rattle.vs_scope.specs.declared.frames.Frame.{Frame};
ghost use Rattle.vs_scope.specs.Frames.{env_at, envs};
ghost use Rattle.vs_elab.specs.Stacks as stacks;
ghost use Rattle.vs_elab.specs.Fine.{AreFineParts};
ghost use Rattle.vs_elab.specs.Pending.{parts_pieces, scope_around, stack_pieces};
ghost use Rattle.vs_elab.specs.Reading.{ArePending};

use crate::pending::Part;
use std::alloc::AllocError;

/// A part that is still to be read. `frame` is the number of its scope, `depth` counts the instances around it, and `left` bounds how deep scopes
/// stand within one another in it.
#[derive(Drop)]
pub(crate) struct Pending<'a> {
    pub frame: usize,
    pub depth: u32,
    pub left: u32,
    pub part: Part<'a>,
}

/// Puts the parts of a scope before all that is pending. An error is want of memory.
pub(crate) fn push_parts<'a>(
    stack: &mut Vec<Pending<'a>>,
    parts: Vec<Part<'a>>,
    frame: usize,
    depth: u32,
    left: u32,
) -> Result<(), AllocError>
    ensures pieces { (source : tree.Source) (frames : List Frame)
        → OnOk result (stack_pieces source frames stack.new.items ≡ map (stacks.pending left) (parts_pieces source (scope_around frames frame depth) parts.entry.items) ++ stack_pieces source frames stack.old.items) }
    ensures parts { (source : tree.Source) (frames : List Frame) → ArePending source frames stack.old.items → frame < length frames → depth ≤ 32
        → AreFineParts source (env_at (envs frames) (Some frame)) parts.entry.items → OnOk result (ArePending source frames stack.new.items) }
{
    let mut parts = parts;
    while let Some(part) = parts.pop() {
        stack.push(Pending {
            frame,
            depth,
            left,
            part,
        })?;
    }
    Ok(())
}

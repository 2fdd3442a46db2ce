//! The parts of targets.

ghost use Rattle.std.specs.Prelude.{◌≡◌, ◌<◌, length, map, All, IsSome, IfOk, OnOk};
ghost use Rattle.vs_design.specs.Expressions as E;
ghost use Rattle.vs_flat.specs.DesignOf.{arena_trees};
ghost use Rattle.vs_flat.specs.Targets.{source_of, target_of};
ghost use Rattle.vs_flat.specs.Trees.{target_tree, tree_at};
ghost use Rattle.vs_values.specs.Templates.{node_bound};
ghost use Rattle.vs_lower.specs.Leaves.{AddsLeaves, IsInside, leaf_target, leaves_of};

use crate::named::Named;
use crate::reach::reach;
use std::alloc::{AllocError, Global};
use vs_flat::Node;
use vs_four::Range;
use vs_shape::first_copy;
use vs_values::Templates;

/// A part of a target that is no concatenation (IEEE 1364-2005, table 6-1): a whole signal, a bit or part select of one, a word of a memory, or bits of one. Indices are named by their numbers.
#[derive(Clone, Copy)]
pub(crate) enum Leaf {
    Whole {
        signal: Named,
    },
    Select {
        signal: Named,
        range: Range,
        up: bool,
        width: u32,
        index: u32,
    },
    Word {
        signal: u32,
        index: u32,
    },
    WordPart {
        signal: u32,
        address: u32,
        range: Range,
        up: bool,
        width: u32,
        index: u32,
    },
}

/// The parts of a target, in the order of the text.
pub(crate) fn target_leaves(
    alloc: Global,
    templates: &Templates,
    target: u32,
) -> Result<Vec<Leaf>, AllocError>
    requires node { target < node_bound templates.now }
    requires is_target { IsSome (target_of (tree_at (arena_trees templates.now.arena) target)) }
    ensures are { IfOk result (λ v. map (leaf_target templates.now.arena) v.items ≡ leaves_of (target_tree (tree_at (arena_trees templates.now.arena) target))) }
    ensures inside { IfOk result (λ v. All (IsInside templates.now) v.items) }
{
    let mut leaves = Vec::new(alloc);
    add_leaves(templates, target, &mut leaves)?;
    Ok(leaves)
}

/// Adds the parts of a target.
fn add_leaves(templates: &Templates, target: u32, leaves: &mut Vec<Leaf>) -> Result<(), AllocError>
    requires node { target < node_bound templates.now }
    requires is_target { IsSome (target_of (tree_at (arena_trees templates.now.arena) target)) }
    ensures { OnOk result (AddsLeaves templates.now leaves.old.items leaves.new.items (leaves_of (target_tree (tree_at (arena_trees templates.now.arena) target)))) }
{
    reach(templates);
    match templates.shapes().node(target) {
        Node::Name { signal } => {
            leaves.push(Leaf::Whole {
                signal: Named::Global { signal: *signal },
            })?;
            Ok(())
        }
        Node::Local { function, signal } => {
            leaves.push(Leaf::Whole {
                signal: Named::Local {
                    function: *function,
                    signal: *signal,
                },
            })?;
            Ok(())
        }
        Node::Bit { of, range, index } => {
            add_select(templates, *of, *range, true, 1, *index, leaves)
        }
        Node::Part {
            of,
            range,
            base,
            up,
            width,
        } => add_select(templates, *of, *range, *up, *width, *base, leaves),
        Node::Word { signal, index } => {
            leaves.push(Leaf::Word {
                signal: *signal,
                index: *index,
            })?;
            Ok(())
        }
        Node::WordPart {
            signal,
            address,
            range,
            base,
            up,
            width,
        } => {
            leaves.push(Leaf::WordPart {
                signal: *signal,
                address: *address,
                range: *range,
                up: *up,
                width: *width,
                index: *base,
            })?;
            Ok(())
        }
        Node::Join { parts } => {
            let parts = first_copy(parts.as_slice());
            for part in parts {
                add_leaves(templates, *part, leaves)?;
            }
            Ok(())
        }
        _ => Ok(()),
    }
}

/// Adds a select of the signal that node `of` names.
fn add_select(
    templates: &Templates,
    of: u32,
    range: Range,
    up: bool,
    width: u32,
    index: u32,
    leaves: &mut Vec<Leaf>,
) -> Result<(), AllocError>
    requires of { of < length templates.now.arena.nodes }
    requires index { index < node_bound templates.now }
    requires is_target { IsSome (target_of (E.Select (source_of (tree_at (arena_trees templates.now.arena) of)) (record { range = range; up = up; width = width }) (tree_at (arena_trees templates.now.arena) index))) }
    ensures { OnOk result (AddsLeaves templates.now leaves.old.items leaves.new.items (leaves_of (target_tree (E.Select (source_of (tree_at (arena_trees templates.now.arena) of)) (record { range = range; up = up; width = width }) (tree_at (arena_trees templates.now.arena) index))))) }
{
    let signal = match templates.shapes().node(of) {
        Node::Name { signal } => Named::Global { signal: *signal },
        Node::Local { function, signal } => Named::Local {
            function: *function,
            signal: *signal,
        },
        _ => return Ok(()),
    };
    leaves.push(Leaf::Select {
        signal,
        range,
        up,
        width,
        index,
    })?;
    Ok(())
}

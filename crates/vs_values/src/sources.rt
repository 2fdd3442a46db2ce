//! Selects, by those of what their bits are taken of and of their index.

ghost use Rattle.std.specs.Prelude.{◌≡◌, ◌≤◌, ◌<◌, [], ◌∷◌, length, IfOk, OnOk, true};
ghost use Rattle.std.specs.List.{range_with_len};
ghost use Rattle.vs_four.specs.Selects.{range_length};
ghost use Rattle.vs_design.specs.Within.{source_within};
ghost use Rattle.vs_flat.specs.DesignOf.{arena_trees};
ghost use Rattle.vs_flat.specs.Targets.{source_of};
ghost use Rattle.vs_flat.specs.Trees.{tree_at};
ghost use Rattle.vs_values.specs.Coded.{with_call};
ghost use Rattle.vs_values.specs.Constants.{AreConstant, constant_bits, extended_slots, selected_slots};
ghost use Rattle.vs_values.specs.Templates.{node_bound};
ghost use Rattle.vs_values.specs.Made.{IsCallable, IsSelect, select_kernel, source_slots};

use crate::arguments::pair;
use crate::code::Code;
use crate::environment::Environment;
use crate::locals::local_slots;
use crate::names::signal_slots;
use crate::selects::selected;
use crate::slots::{are_constant, constant_slots, extended};
use crate::templates::Templates;
use std::alloc::{AllocError, Global};
use vs_base::Context;
use vs_code::AnyKernel;
use vs_flat::Node;
use vs_four::Range;
use vs_kern_select::Selection;

/// The slots of what a select takes its bits of: of a signal, or of a constant.
pub(crate) fn source(
    alloc: Global,
    templates: &Templates,
    env: &Environment,
    of: u32,
) -> Result<Vec<u32>, AllocError>
    requires of { of < node_bound templates.now }
    requires within { source_within (length env.now) (source_of (tree_at (arena_trees templates.now.arena) of)) ≡ true }
    ensures { IfOk result (λ to. to.items ≡ source_slots env.now (source_of (tree_at (arena_trees templates.now.arena) of))) }
{
    match templates.expr(of) {
        Node::Name { signal } => signal_slots(alloc, templates, env, *signal),
        Node::Local { function, signal } => {
            local_slots(alloc, templates, env, *function, *signal)
        }
        Node::Literal { bits, .. } => constant_slots(alloc, *bits),
        _ => Ok(Vec::new(alloc)),
    }
}

/// Calls the kernel of a select by a variable index.
fn called_select(
    alloc: Global,
    from: Vec<u32>,
    index: Vec<u32>,
    of_index: bool,
    range: Range,
    up: bool,
    width: u32,
    context: Context,
    code: &mut Code,
) -> Result<Vec<u32>, AllocError>
    requires call { IsCallable code.old (select_kernel (record { range = range; up = up; width = width }) of_index) (from.items ∷ index.items ∷ []) width }
    ensures to { IfOk result (λ to. to.items ≡ extended_slots context.width context.signed (range_with_len code.old.next width)) }
    ensures ok { OnOk result (code.new ≡ with_call code.old (select_kernel (record { range = range; up = up; width = width }) of_index) (from.items ∷ index.items ∷ []) width) }
{
    let args = pair(alloc, from, index)?;
    let selection = Selection {
        range,
        signed: of_index,
        up,
    };
    let to = code.call(
        alloc,
        AnyKernel::Select(vs_kern_select::Kernel::Select(selection)),
        args,
        width,
    )?;
    extended(to, context.width, context.signed)
}

/// The slots of a select by a constant index, extended.
fn fixed_select(
    alloc: Global,
    from: &[u32],
    index: &[u32],
    of_index: bool,
    range: Range,
    up: bool,
    width: u32,
    context: Context,
) -> Result<Vec<u32>, AllocError>
    requires of_range { range_length range ≡ length from.now }
    requires some { 1 ≤ width }
    requires at_most_64 { width ≤ 64 }
    requires some_index { 1 ≤ length index.now }
    requires index { length index.now ≤ 64 }
    ensures { IfOk result (λ to. to.items ≡ extended_slots context.width context.signed (selected_slots (record { range = range; up = up; width = width }) of_index from.now (constant_bits index.now))) }
{
    let to = selected(alloc, from, index, of_index, range, up, width)?;
    extended(to, context.width, context.signed)
}

/// The slots of a select.
pub(crate) fn chosen_bits(
    alloc: Global,
    from: Vec<u32>,
    index: Vec<u32>,
    of_index: bool,
    range: Range,
    up: bool,
    width: u32,
    context: Context,
    code: &mut Code,
) -> Result<Vec<u32>, AllocError>
    requires of_range { range_length range ≡ length from.items }
    requires some { 1 ≤ width }
    requires at_most_64 { width ≤ 64 }
    requires some_index { 1 ≤ length index.items }
    requires index { length index.items ≤ 64 }
    requires call { (AreConstant index.items → ⊥) → IsCallable code.old (select_kernel (record { range = range; up = up; width = width }) of_index) (from.items ∷ index.items ∷ []) width }
    ensures { IfOk result (λ to. IsSelect (record { range = range; up = up; width = width }) of_index context.width context.signed from.items index.items code.old code.new to.items) }
{
    if are_constant(index.as_slice()) {
        return fixed_select(
            alloc,
            from.as_slice(),
            index.as_slice(),
            of_index,
            range,
            up,
            width,
            context,
        );
    }
    called_select(
        alloc, from, index, of_index, range, up, width, context, code,
    )
}

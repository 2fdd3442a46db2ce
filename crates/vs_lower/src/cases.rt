//! The tests of a case's arms.

ghost use Rattle.std.specs.Prelude.{◌≡◌, ◌<◌, [], ◌∷◌, map, length, All, IfOk, OnOk};
ghost use Rattle.std.specs.List.{range_with_len};
ghost use Rattle.vs_flat.specs.DesignOf.{arena_trees};
ghost use Rattle.vs_flat.specs.Trees.{tree_at};
ghost use Rattle.vs_lower.specs.Cases.{match_kernel};
ghost use Rattle.vs_values.specs.Coded.{with_call};
ghost use Rattle.vs_values.specs.Made.{IsCallable};
ghost use Rattle.vs_values.specs.Templates.{node_bound};
ghost use Rattle.vs_lower.specs.Tested.{AddsTests, AreTestsReady};

use std::alloc::{AllocError, Global};
use vs_base::{CaseKind, Context};
use vs_code::AnyKernel;
use vs_values::{Code, Environment, Templates, appended, lower, pair};

/// The kernel by which a case compares (IEEE 1364-2005, 9.5).
fn match_kernel(kind: CaseKind) -> AnyKernel
    ensures { result ≡ match_kernel kind }
{
    match kind {
        CaseKind::Exact => AnyKernel::Logic(vs_kern_logic::Kernel::CaseEqual),
        CaseKind::CaseZ => AnyKernel::Logic(vs_kern_logic::Kernel::MatchesZ),
        CaseKind::CaseX => AnyKernel::Logic(vs_kern_logic::Kernel::MatchesX),
    }
}

/// Calls the match of a case's expression and an item, and answers the new slot.
fn matched(
    alloc: Global,
    kind: CaseKind,
    subject: Vec<u32>,
    item: Vec<u32>,
    code: &mut Code,
) -> Result<Vec<u32>, AllocError>
    requires call { IsCallable code.old (match_kernel kind) (subject.items ∷ item.items ∷ []) 1 }
    ensures to { IfOk result (λ to. to.items ≡ range_with_len code.old.next 1) }
    ensures ok { OnOk result (code.new ≡ with_call code.old (match_kernel kind) (subject.items ∷ item.items ∷ []) 1) }
{
    let args = pair(alloc, subject, item)?;
    let kernel = match_kernel(kind);
    code.call(alloc, kernel, args, 1)
}

/// Adds the calls of the tests of an arm's items, and answers the slots of the matches, a bit for each item. The expression is in the slots `subject`, in the context that it shares with all items.
pub(crate) fn tests(
    alloc: Global,
    templates: &Templates,
    kind: CaseKind,
    subject: &[u32],
    items: &[u32],
    context: Context,
    env: &Environment,
    code: &mut Code,
) -> Result<Vec<u32>, AllocError>
    requires items { All (λ e. e < node_bound templates.now) items.now }
    requires ready { AreTestsReady env.now subject.now code.old (map (tree_at (arena_trees templates.now.arena)) items.now) context.width }
    ensures alike { IfOk result (λ ms. length ms.items ≡ length items.now) }
    ensures adds { IfOk result (λ ms. AddsTests env.now subject.now code.old code.new kind context.width context.signed (map (tree_at (arena_trees templates.now.arena)) items.now) ms.items) }
{
    let mut matches = Vec::new(alloc);
    for n in 0..items.len() {
        let item = lower(alloc, templates, env, items[n], context, code)?;
        let copy = Vec::from_slice(alloc, subject)?;
        let to = matched(alloc, kind, copy, item, code)?;
        matches = appended(matches, to)?;
    }
    Ok(matches)
}

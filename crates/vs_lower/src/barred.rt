//! Writes under bars: to the parts of a target, unless a slot holds 1 (IEEE 1364-2005, 9.2).

ghost use Rattle.std.specs.Prelude.{◌≡◌, ◌==◌, ◌<◌, ◌≤◌, ◌++◌, [], ◌∷◌, drop, map, length, slice_index, All, IfOk, OnOk, IsSome};
ghost use Rattle.vs_design.specs.Expressions as E;
ghost use Rattle.vs_design.specs.Values.{bits_of_signal};
ghost use Rattle.vs_flat.specs.DesignOf.{arena_trees};
ghost use Rattle.vs_flat.specs.Targets.{target_of};
ghost use Rattle.vs_flat.specs.Trees.{target_tree, tree_at};
ghost use Rattle.vs_kern_select.specs.declared.costs.Kernel.TheVariants as S;
ghost use Rattle.vs_code.specs.declared.kernels.AnyKernel.TheVariants as K;
ghost use Rattle.vs_values.specs.Made.{IsCallable};
ghost use Rattle.vs_values.specs.Templates.{node_bound};
ghost use Rattle.vs_lower.specs.Leaves.{IsInside, joined_target, leaf_name, leaf_target, named_signal};
ghost use Rattle.vs_lower.specs.Parts.{part_target};
ghost use Rattle.vs_lower.specs.Unless.{AddsUnlessWrite, AreUnlessWritesReady, IsUnlessWriteReady, IsVariedReady, bar_args, barred_address, with_bar};
ghost use Rattle.vs_lower.specs.Written.{IsVariedPart};

use crate::branches::join;
use crate::leaves::{Leaf, target_leaves};
use crate::named::{Named, declared, named_bits};
use crate::parts::{WordPart, changed_word};
use crate::reach::reach;
use crate::writes::{call_write, leaf_width, write_leaf};
use std::alloc::{AllocError, Global};
use vs_base::List;
use vs_code::AnyKernel;
use vs_design::{value_law, word_part_law};
use vs_kern_select::{Addresses, Kernel, Selection};
use vs_values::{
    Code, Environment, Templates, appended, are_constant, memory_addresses, own, picked, triple,
};

/// A slot, as a vector of one bit.
fn one_slot(alloc: Global, slot: u32) -> Result<Vec<u32>, AllocError>
    ensures { IfOk result (λ to. to.items ≡ slot ∷ []) }
{
    let mut to = Vec::new(alloc);
    to.push(slot)?;
    Ok(to)
}

/// Calls the copy of slot `taken` where the truth of a condition is 1, and else of slot `other`, and answers the slot of the copy.
pub(crate) fn bar_of(
    alloc: Global,
    condition: &[u32],
    taken: u32,
    other: u32,
    code: &mut Code,
) -> Result<u32, AllocError>
    requires call { IsCallable code.old (K.Select S.Branch) (bar_args condition.now taken other) 1 }
    ensures slot { IfOk result (λ slot. slot ≡ code.old.next) }
    ensures ok { OnOk result (code.new ≡ with_bar code.old condition.now taken other) }
{
    let slot = code.next();
    let tested = Vec::from_slice(alloc, condition)?;
    let first = one_slot(alloc, taken)?;
    let second = one_slot(alloc, other)?;
    let args = triple(alloc, tested, first, second)?;
    code.call(
        alloc,
        AnyKernel::Select(vs_kern_select::Kernel::Branch),
        args,
        1,
    )?;
    Ok(slot)
}

/// Whether this is the bar of what is always reached.
fn is_free(bar: u32) -> bool
    ensures { result ≡ (bar == 0) }
{
    bar == 0
}

/// What a part of a target is a part of.
fn leaf_name(leaf: Leaf) -> Named
    ensures { result ≡ leaf_name leaf }
{
    match leaf {
        Leaf::Whole { signal } => signal,
        Leaf::Select { signal, .. } => signal,
        Leaf::Word { signal, .. } => Named::Global { signal },
        Leaf::WordPart { signal, .. } => Named::Global { signal },
    }
}

/// The bits of the signal that it is a part of.
fn leaf_bits(alloc: Global, templates: &Templates, leaf: Leaf) -> Result<Vec<u32>, AllocError>
    requires { IsInside templates.now leaf }
    ensures are { IfOk result (λ bits. bits.items ≡ bits_of_signal (named_signal templates.now.arena (leaf_name leaf))) }
    ensures few { IfOk result (λ bits. length bits.items ≤ 67108864) }
{
    let named = leaf_name(leaf);
    declared(templates, named);
    named_bits(alloc, templates, named)
}

/// Adds the calls of a write to a part of a target, whose index is in these slots, and joins what its bits have then with what they had: that they keep where the bar holds 1.
fn write_joined(
    alloc: Global,
    templates: &Templates,
    env: &mut Environment,
    leaf: Leaf,
    index: &[u32],
    value: &[u32],
    bar: u32,
    code: &mut Code,
) -> Result<(), AllocError>
    requires inside { IsInside templates.now leaf }
    requires ready { IsUnlessWriteReady env.old code.old (leaf_target templates.now.arena leaf) (index.now ∷ []) value.now bar }
    requires few { IsVariedPart (leaf_target templates.now.arena leaf) (index.now ∷ []) → ⊥ }
    ensures { OnOk result (AddsUnlessWrite env.old env.new code.old code.new (leaf_target templates.now.arena leaf) (index.now ∷ []) value.now bar) }
{
    let bits = leaf_bits(alloc, templates, leaf)?;
    let before = picked(alloc, env, bits.as_slice())?;
    write_leaf(alloc, templates, env, leaf, index, value, code)?;
    let condition = one_slot(alloc, bar)?;
    join(
        alloc,
        condition,
        bits.as_slice(),
        before.as_slice(),
        env,
        code,
    )?;
    Ok(())
}

/// The slots of this address, of which the first is a copy of x where the bar holds 1: no word has such an address.
fn barred(alloc: Global, address: &[u32], bar: u32, code: &mut Code) -> Result<Vec<u32>, AllocError>
    requires some { 1 ≤ length address.now }
    requires call { IsCallable code.old (K.Select S.Branch) (bar_args (bar ∷ []) 2 (slice_index address.now 0)) 1 }
    ensures slots { IfOk result (λ to. to.items ≡ barred_address address.now code.old.next) }
    ensures ok { OnOk result (code.new ≡ with_bar code.old (bar ∷ []) 2 (slice_index address.now 0)) }
{
    let condition = one_slot(alloc, bar)?;
    let first = bar_of(alloc, condition.as_slice(), 2, address[0], code)?;
    let high = one_slot(alloc, first)?;
    let rest = Vec::from_slice(alloc, &address[1..])?;
    appended(high, rest)
}

/// Writes a part of a word by a variable address and a variable index, unless the bar holds 1: the word is read, changed and written again, by an address that no word has where the bar holds 1.
fn write_varied(
    alloc: Global,
    templates: &Templates,
    env: &mut Environment,
    part: WordPart,
    address: &[u32],
    index: &[u32],
    value: &[u32],
    bar: u32,
    code: &mut Code,
) -> Result<(), AllocError>
    requires { IsVariedReady templates.now env.old code.old part address.now index.now value.now bar }
    ensures { OnOk result (AddsUnlessWrite env.old env.new code.old code.new (part_target templates.now.arena part (length value.now)) ((address.now ++ index.now) ∷ []) value.now bar) }
{
    value_law();
    word_part_law();
    reach(templates);
    let word = changed_word(alloc, templates, env, part, address, index, value, code)?;
    let at = barred(alloc, address, bar, code)?;
    let range = memory_addresses(templates, part.signal);
    let signed = templates.signed(part.address);
    let kernel = AnyKernel::Select(Kernel::WriteWord(Addresses { range, signed }));
    let memory = Named::Global {
        signal: part.signal,
    };
    call_write(
        alloc,
        templates,
        env,
        memory,
        kernel,
        at.as_slice(),
        word.as_slice(),
        code,
    )
}

/// Adds the calls of a write to a part of a word, which this leaf is, unless the bar holds 1. Of these slots the first are those of the address, and the others those of the index.
fn write_part_unless(
    alloc: Global,
    templates: &Templates,
    env: &mut Environment,
    leaf: Leaf,
    part: WordPart,
    index: &[u32],
    value: &[u32],
    bar: u32,
    code: &mut Code,
) -> Result<(), AllocError>
    requires inside { IsInside templates.now leaf }
    requires signal { part.signal < length templates.now.arena.signals }
    requires at { part.address < node_bound templates.now }
    requires leaf { leaf_target templates.now.arena leaf ≡ part_target templates.now.arena part (length value.now) }
    requires sign { part.selection.signed ≡ E.sign (tree_at (arena_trees templates.now.arena) part.index) }
    requires ready { IsUnlessWriteReady env.old code.old (leaf_target templates.now.arena leaf) (index.now ∷ []) value.now bar }
    ensures { OnOk result (AddsUnlessWrite env.old env.new code.old code.new (leaf_target templates.now.arena leaf) (index.now ∷ []) value.now bar) }
{
    reach(templates);
    let split = own(templates, part.address).width;
    let (address, by) = index.split_at(split as usize);
    if are_constant(address) {
        return write_joined(alloc, templates, env, leaf, index, value, bar, code);
    }
    if are_constant(by) {
        return write_joined(alloc, templates, env, leaf, index, value, bar, code);
    }
    write_varied(alloc, templates, env, part, address, by, value, bar, code)
}

/// Adds the calls of a write to a part of a target, whose index is in these slots, under a bar of what isn't always reached.
fn write_barred(
    alloc: Global,
    templates: &Templates,
    env: &mut Environment,
    leaf: Leaf,
    index: &[u32],
    value: &[u32],
    bar: u32,
    code: &mut Code,
) -> Result<(), AllocError>
    requires inside { IsInside templates.now leaf }
    requires ready { IsUnlessWriteReady env.old code.old (leaf_target templates.now.arena leaf) (index.now ∷ []) value.now bar }
    ensures { OnOk result (AddsUnlessWrite env.old env.new code.old code.new (leaf_target templates.now.arena leaf) (index.now ∷ []) value.now bar) }
{
    reach(templates);
    match leaf {
        Leaf::WordPart {
            signal,
            address,
            range,
            up,
            index: at,
            ..
        } => {
            let part = WordPart {
                signal,
                address,
                index: at,
                selection: Selection {
                    range,
                    signed: templates.signed(at),
                    up,
                },
            };
            write_part_unless(alloc, templates, env, leaf, part, index, value, bar, code)
        }
        _ => write_joined(alloc, templates, env, leaf, index, value, bar, code),
    }
}

/// Adds the calls of a write to a part of a target, whose index is in these slots, unless the bar holds 1.
fn write_one_unless(
    alloc: Global,
    templates: &Templates,
    env: &mut Environment,
    leaf: Leaf,
    index: &[u32],
    value: &[u32],
    bar: u32,
    code: &mut Code,
) -> Result<(), AllocError>
    requires inside { IsInside templates.now leaf }
    requires ready { IsUnlessWriteReady env.old code.old (leaf_target templates.now.arena leaf) (index.now ∷ []) value.now bar }
    ensures { OnOk result (AddsUnlessWrite env.old env.new code.old code.new (leaf_target templates.now.arena leaf) (index.now ∷ []) value.now bar) }
{
    if is_free(bar) {
        write_leaf(alloc, templates, env, leaf, index, value, code)?;
        return Ok(());
    }
    write_barred(alloc, templates, env, leaf, index, value, bar, code)
}

/// Adds the calls of a write to the parts of a target, whose indices are in these slots, unless the bar holds 1.
fn write_all_unless(
    alloc: Global,
    templates: &Templates,
    env: &mut Environment,
    leaves: &[Leaf],
    at: &[List<u32>],
    value: &[u32],
    bar: u32,
    code: &mut Code,
) -> Result<(), AllocError>
    requires { AreUnlessWritesReady templates.now env.old code.old leaves.now at.now value.now bar }
    ensures { OnOk result (AddsUnlessWrite env.old env.new code.old code.new (joined_target (map (leaf_target templates.now.arena) leaves.now)) at.now value.now bar) }
{
    let low = value.len() - leaf_width(templates, leaves[0]) as usize;
    write_one_unless(
        alloc,
        templates,
        env,
        leaves[0],
        at[0].as_slice(),
        &value[low..],
        bar,
        code,
    )?;
    if leaves.len() > 1 {
        write_all_unless(
            alloc,
            templates,
            env,
            &leaves[1..],
            &at[1..],
            &value[..low],
            bar,
            code,
        )?;
    }
    Ok(())
}

/// Adds the calls of a write of this value to a target, whose indices are in these slots, unless its bar holds 1.
pub(crate) fn write_unless(
    alloc: Global,
    templates: &Templates,
    env: &mut Environment,
    target: u32,
    at: &[List<u32>],
    value: &[u32],
    bar: u32,
    code: &mut Code,
) -> Result<(), AllocError>
    requires target { target < node_bound templates.now }
    requires is_target { IsSome (target_of (tree_at (arena_trees templates.now.arena) target)) }
    requires ready { IsUnlessWriteReady env.old code.old (target_tree (tree_at (arena_trees templates.now.arena) target)) at.now value.now bar }
    ensures { OnOk result (AddsUnlessWrite env.old env.new code.old code.new (target_tree (tree_at (arena_trees templates.now.arena) target)) at.now value.now bar) }
{
    reach(templates);
    let leaves = target_leaves(alloc, templates, target)?;
    write_all_unless(
        alloc,
        templates,
        env,
        leaves.as_slice(),
        at,
        value,
        bar,
        code,
    )?;
    Ok(())
}

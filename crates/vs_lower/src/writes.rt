//! Writes to targets: which slots hold the bits' values afterwards.

ghost use Rattle.std.specs.Prelude.{◌≡◌, ℕ, ◌+◌, ◌<◌, ◌≤◌, ◌^◌, [], ◌∷◌, map, length, slice_index, slice_index_or, sum_by, All, IfOk, OnOk, Some, None, true, option_map};
ghost use Rattle.std.specs.List.{range_with_len};
ghost use Rattle.vs_four.specs.Selects as selects;
ghost use Rattle.vs_design.specs.Expressions.{signal_length, word_length};
ghost use Rattle.vs_design.specs.Bodies.{bits_at};
ghost use Rattle.vs_design.specs.Fits.{fits_target};
ghost use Rattle.vs_design.specs.Statements.{WordOf, target_width};
ghost use Rattle.vs_design.specs.Values.{bits_of_signal, word_places};
ghost use Rattle.vs_design.specs.Within.{signal_within, target_within};
ghost use Rattle.vs_flat.specs.DesignOf.{arena_signals, arena_trees};
ghost use Rattle.vs_flat.specs.Trees.{signal_at, tree_at};
ghost use Rattle.vs_values.specs.Coded.{with_call};
ghost use Rattle.vs_values.specs.Constants.{constant_bits};
ghost use Rattle.vs_values.specs.Environments.{placed, put_at};
ghost use Rattle.vs_values.specs.Templates.{node_bound};
ghost use Rattle.vs_lower.specs.Leaves.{IsInside, IsNamed, joined_target, leaf_target, named_signal};
ghost use Rattle.vs_values.specs.Made.{IsCallable};
ghost use Rattle.vs_lower.specs.Written.{AddsWrites, AreIndexed, HasRoom, IsIndex, IsIndexed, write_weight};

use crate::leaves::Leaf;
use crate::named::{Named, declared, named_bits};
use crate::parts::{WordPart, write_part};
use crate::reach::reach;
use std::alloc::{AllocError, Global};
use vs_base::List;
use vs_code::AnyKernel;
use vs_flat::bits_of;
use vs_kern_select::{Addresses, Selection};
use vs_shape::{Part, Places, places_of};
use vs_values::{
    Code, Environment, Templates, are_constant, constant_bits, first_of_word, memory_addresses,
    numbers, picked, place, triple, word_width,
};

/// Gives the bit at a place of the signal that begins with bit `first` another slot, where there is that place.
fn set_at(
    env: &mut Environment,
    first: u32,
    place: Option<usize>,
    slot: u32,
) -> Result<(), AllocError>
    requires inside { (n : ℕ) → place ≡ Some n → first + n < length env.old }
    requires few { (n : ℕ) → place ≡ Some n → first + n < 2 ^ 32 }
    ensures { OnOk result (env.new ≡ put_at env.old (option_map (λ n. first + n) place) slot) }
{
    match place {
        Some(n) => env.set(first + n as u32, slot),
        None => Ok(()),
    }
}

/// Gives the bits at these places of the signal that begins with bit `first` these slots, one after the other.
pub(crate) fn place_at(
    env: &mut Environment,
    first: u32,
    places: &Places,
    value: &[u32],
) -> Result<(), AllocError>
    requires alike { length places.now ≡ length value.now }
    requires inside { (k n : ℕ) → slice_index_or places.now k None ≡ Some n → first + n < length env.old }
    requires few { (k n : ℕ) → slice_index_or places.now k None ≡ Some n → first + n < 2 ^ 32 }
    ensures { OnOk result (env.new ≡ placed env.old (map (λ p. option_map (λ n. first + n) p) places.now) value.now) }
{
    for k in 0..places.len() {
        set_at(env, first, places.get(k), value[k as usize])?;
    }
    Ok(())
}

/// Gives the bits of a select by a constant index these slots.
fn place_select(
    alloc: Global,
    templates: &Templates,
    env: &mut Environment,
    signal: Named,
    selection: Selection,
    index: &[u32],
    value: &[u32],
) -> Result<(), AllocError>
    requires signal { IsNamed templates.now.arena signal }
    requires within { signal_within (length env.old) (named_signal templates.now.arena signal) ≡ true }
    requires of_range { selects.range_length selection.range ≡ signal_length (named_signal templates.now.arena signal) }
    requires some { 1 ≤ length value.now }
    requires most { length value.now ≤ 64 }
    requires some_index { 1 ≤ length index.now }
    requires index { length index.now ≤ 64 }
    ensures { OnOk result (env.new ≡ placed env.old (bits_at (named_signal templates.now.arena signal) (selects.places (record { range = selection.range; up = selection.up; width = length value.now }) selection.signed (constant_bits index.now))) value.now) }
{
    let bits = constant_bits(alloc, index)?;
    let part = Part {
        range: selection.range,
        up: selection.up,
        width: value.len() as u32,
    };
    let places = places_of(part, selection.signed, bits);
    let first = declared(templates, signal).first_bit;
    place_at(env, first, &places, value)
}

/// Gives a whole signal these slots.
fn place_signal(
    alloc: Global,
    templates: &Templates,
    env: &mut Environment,
    signal: Named,
    value: &[u32],
) -> Result<(), AllocError>
    requires signal { IsNamed templates.now.arena signal }
    requires within { signal_within (length env.old) (named_signal templates.now.arena signal) ≡ true }
    requires alike { length value.now ≡ signal_length (named_signal templates.now.arena signal) }
    ensures { OnOk result (env.new ≡ placed env.old (map Some (bits_of_signal (named_signal templates.now.arena signal))) value.now) }
{
    let bits = named_bits(alloc, templates, signal)?;
    place(env, bits.as_slice(), value)
}

/// Gives the bits of a word by a constant address these slots; none where no word has it.
fn place_word(
    alloc: Global,
    templates: &Templates,
    env: &mut Environment,
    signal: u32,
    signed: bool,
    address: &[u32],
    value: &[u32],
) -> Result<(), AllocError>
    requires signal { signal < length templates.now.arena.signals }
    requires within { signal_within (length env.old) (signal_at (arena_signals templates.now.arena) signal) ≡ true }
    requires alike { length value.now ≡ word_length (signal_at (arena_signals templates.now.arena) signal) }
    requires some_address { 1 ≤ length address.now }
    requires address { length address.now ≤ 64 }
    ensures { OnOk result (env.new ≡ placed env.old (bits_at (signal_at (arena_signals templates.now.arena) signal) (word_places (signal_at (arena_signals templates.now.arena) signal) signed (constant_bits address.now))) value.now) }
{
    declared(templates, Named::Global { signal });
    let first = first_of_word(alloc, templates, signal, signed, address)?;
    match first {
        Some(bit) => {
            let bits = numbers(alloc, bit, value.len() as u32)?;
            place(env, bits.as_slice(), value)
        }
        None => Ok(()),
    }
}

/// Calls the kernel of a write by a variable index, and answers the new slots of the signal.
pub(crate) fn written_slots(
    alloc: Global,
    kernel: AnyKernel,
    under: Vec<u32>,
    index: Vec<u32>,
    value: Vec<u32>,
    width: u32,
    code: &mut Code,
) -> Result<Vec<u32>, AllocError>
    requires call { IsCallable code.old kernel (under.items ∷ index.items ∷ value.items ∷ []) width }
    ensures to { IfOk result (λ to. to.items ≡ range_with_len code.old.next width) }
    ensures ok { OnOk result (code.new ≡ with_call code.old kernel (under.items ∷ index.items ∷ value.items ∷ []) width) }
{
    let args = triple(alloc, under, index, value)?;
    code.call(alloc, kernel, args, width)
}

/// Writes by a variable index: each bit of the signal gets a new slot.
pub(crate) fn call_write(
    alloc: Global,
    templates: &Templates,
    env: &mut Environment,
    signal: Named,
    kernel: AnyKernel,
    index: &[u32],
    value: &[u32],
    code: &mut Code,
) -> Result<(), AllocError>
    requires signal { IsNamed templates.now.arena signal }
    requires within { signal_within (length env.old) (named_signal templates.now.arena signal) ≡ true }
    requires call { IsCallable code.old kernel (map (slice_index env.old) (bits_of_signal (named_signal templates.now.arena signal)) ∷ index.now ∷ value.now ∷ []) (signal_length (named_signal templates.now.arena signal)) }
    ensures code { OnOk result (code.new ≡ with_call code.old kernel (map (slice_index env.old) (bits_of_signal (named_signal templates.now.arena signal)) ∷ index.now ∷ value.now ∷ []) (signal_length (named_signal templates.now.arena signal))) }
    ensures env { OnOk result (env.new ≡ placed env.old (map Some (bits_of_signal (named_signal templates.now.arena signal))) (range_with_len code.old.next (signal_length (named_signal templates.now.arena signal)))) }
{
    let bits = named_bits(alloc, templates, signal)?;
    let under = picked(alloc, env, bits.as_slice())?;
    let width = bits_of(declared(templates, signal));
    let at = Vec::from_slice(alloc, index)?;
    let with = Vec::from_slice(alloc, value)?;
    let to = written_slots(alloc, kernel, under, at, with, width, code)?;
    place(env, bits.as_slice(), to.as_slice())
}

/// Adds the calls of a write to a word of a memory, whose address is in these slots.
fn write_word(
    alloc: Global,
    templates: &Templates,
    env: &mut Environment,
    signal: u32,
    at: u32,
    address: &[u32],
    value: &[u32],
    code: &mut Code,
) -> Result<(), AllocError>
    requires signal { signal < length templates.now.arena.signals }
    requires at { at < node_bound templates.now }
    requires within { signal_within (length env.old) (signal_at (arena_signals templates.now.arena) signal) ≡ true }
    requires room { HasRoom env.old code.old (write_weight (WordOf (signal_at (arena_signals templates.now.arena) signal) (tree_at (arena_trees templates.now.arena) at))) }
    requires fit { fits_target (WordOf (signal_at (arena_signals templates.now.arena) signal) (tree_at (arena_trees templates.now.arena) at)) ≡ true }
    requires long { length value.now ≡ word_length (signal_at (arena_signals templates.now.arena) signal) }
    requires value { All (λ slot. slot < code.old.next) value.now }
    requires address { All (λ slot. slot < code.old.next) address.now }
    requires indexed { IsIndex (tree_at (arena_trees templates.now.arena) at) address.now }
    ensures { OnOk result (AddsWrites env.old env.new code.old code.new (WordOf (signal_at (arena_signals templates.now.arena) signal) (tree_at (arena_trees templates.now.arena) at)) (address.now ∷ []) value.now (write_weight (WordOf (signal_at (arena_signals templates.now.arena) signal) (tree_at (arena_trees templates.now.arena) at)))) }
{
    reach(templates);
    let signed = templates.signed(at);
    if are_constant(address) {
        place_word(alloc, templates, env, signal, signed, address, value)?;
        return Ok(());
    }
    let range = memory_addresses(templates, signal);
    let kernel = AnyKernel::Select(vs_kern_select::Kernel::WriteWord(Addresses { range, signed }));
    let signal = Named::Global { signal };
    call_write(alloc, templates, env, signal, kernel, address, value, code)?;
    Ok(())
}

/// How many bits a part of a target has.
pub(crate) fn leaf_width(templates: &Templates, leaf: Leaf) -> u32
    requires { IsInside templates.now leaf }
    ensures { result ≡ target_width (leaf_target templates.now.arena leaf) }
{
    match leaf {
        Leaf::Whole { signal } => bits_of(declared(templates, signal)),
        Leaf::Select { width, .. } => width,
        Leaf::Word { signal, .. } => word_width(templates, signal),
        Leaf::WordPart { width, .. } => width,
    }
}

/// Adds the calls of a write to a part of a target, whose index is in these slots.
pub(crate) fn write_leaf(
    alloc: Global,
    templates: &Templates,
    env: &mut Environment,
    leaf: Leaf,
    index: &[u32],
    value: &[u32],
    code: &mut Code,
) -> Result<(), AllocError>
    requires inside { IsInside templates.now leaf }
    requires names { target_within (length env.old) (leaf_target templates.now.arena leaf) ≡ true }
    requires room { HasRoom env.old code.old (write_weight (leaf_target templates.now.arena leaf)) }
    requires fit { fits_target (leaf_target templates.now.arena leaf) ≡ true }
    requires long { length value.now ≡ target_width (leaf_target templates.now.arena leaf) }
    requires value { All (λ slot. slot < code.old.next) value.now }
    requires index { All (λ slot. slot < code.old.next) index.now }
    requires indexed { IsIndexed (leaf_target templates.now.arena leaf) index.now }
    ensures { OnOk result (AddsWrites env.old env.new code.old code.new (leaf_target templates.now.arena leaf) (index.now ∷ []) value.now (write_weight (leaf_target templates.now.arena leaf))) }
{
    reach(templates);
    match leaf {
        Leaf::Whole { signal } => {
            place_signal(alloc, templates, env, signal, value)?;
            Ok(())
        }
        Leaf::Select {
            signal,
            range,
            up,
            index: at,
            ..
        } => {
            let selection = Selection {
                range,
                signed: templates.signed(at),
                up,
            };
            if are_constant(index) {
                place_select(alloc, templates, env, signal, selection, index, value)?;
                return Ok(());
            }
            let kernel = AnyKernel::Select(vs_kern_select::Kernel::Write(selection));
            call_write(alloc, templates, env, signal, kernel, index, value, code)?;
            Ok(())
        }
        Leaf::Word { signal, index: at } => {
            write_word(alloc, templates, env, signal, at, index, value, code)
        }
        Leaf::WordPart {
            signal,
            address,
            range,
            up,
            index: at,
            ..
        } => {
            let part = WordPart {
                signal,
                address,
                index: at,
                selection: Selection {
                    range,
                    signed: templates.signed(at),
                    up,
                },
            };
            write_part(alloc, templates, env, part, index, value, code)
        }
    }
}

/// Adds the calls of a write to the parts of a target, whose indices are in these slots. All of them were lowered before, so an index has its value from before the write.
pub(crate) fn write_leaves(
    alloc: Global,
    templates: &Templates,
    env: &mut Environment,
    leaves: &[Leaf],
    indices: &[List<u32>],
    value: &[u32],
    code: &mut Code,
) -> Result<(), AllocError>
    requires some { 1 ≤ length leaves.now }
    requires inside { All (IsInside templates.now) leaves.now }
    requires names { All (λ leaf. target_within (length env.old) (leaf_target templates.now.arena leaf) ≡ true) leaves.now }
    requires fit { All (λ leaf. fits_target (leaf_target templates.now.arena leaf) ≡ true) leaves.now }
    requires room { HasRoom env.old code.old (sum_by write_weight (map (leaf_target templates.now.arena) leaves.now)) }
    requires long { length value.now ≡ sum_by target_width (map (leaf_target templates.now.arena) leaves.now) }
    requires value { All (λ slot. slot < code.old.next) value.now }
    requires indices { All (λ ti. All (λ slot. slot < code.old.next) ti) indices.now }
    requires indexed { AreIndexed (map (leaf_target templates.now.arena) leaves.now) indices.now }
    ensures { OnOk result (AddsWrites env.old env.new code.old code.new (joined_target (map (leaf_target templates.now.arena) leaves.now)) indices.now value.now (sum_by write_weight (map (leaf_target templates.now.arena) leaves.now))) }
{
    let low = value.len() - leaf_width(templates, leaves[0]) as usize;
    write_leaf(
        alloc,
        templates,
        env,
        leaves[0],
        indices[0].as_slice(),
        &value[low..],
        code,
    )?;
    if leaves.len() > 1 {
        write_leaves(
            alloc,
            templates,
            env,
            &leaves[1..],
            &indices[1..],
            &value[..low],
            code,
        )?;
    }
    Ok(())
}

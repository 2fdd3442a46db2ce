//! Writes to parts of words of memories (IEEE 1364-2005, 5.2.2): which slots hold the bits' values afterwards.

ghost use Rattle.std.specs.Prelude.{◌≡◌, ℕ, ◌+◌, ◌<◌, ◌≤◌, ◌^◌, [], ◌∷◌, ◌++◌, map, length, slice_index, slice_index_or, All, IfOk, OnOk, Some, None, true};
ghost use Rattle.std.specs.List.{range_with_len};
ghost use Rattle.vs_four.specs.Selects as selects;
ghost use Rattle.vs_design.specs.Expressions as E;
ghost use Rattle.vs_design.specs.Expressions.{word_length};
ghost use Rattle.vs_design.specs.Fits.{fits_target};
ghost use Rattle.vs_design.specs.Within.{signal_within};
ghost use Rattle.vs_flat.specs.DesignOf.{arena_signals, arena_trees};
ghost use Rattle.vs_flat.specs.Trees.{signal_at, tree_at};
ghost use Rattle.vs_values.specs.Coded.{with_call};
ghost use Rattle.vs_values.specs.Constants.{AreConstant, constant_bits};
ghost use Rattle.vs_values.specs.Environments.{placed};
ghost use Rattle.vs_values.specs.Made.{IsCallable};
ghost use Rattle.vs_values.specs.Templates.{node_bound};
ghost use Rattle.vs_lower.specs.Parts.{AddsPart, IsPartReady, bits_there, changed_code, changed_slots, column_bits, part_target, those_there};
ghost use Rattle.vs_lower.specs.Written.{AddsWrites, HasRoom, IsIndexed, write_weight};

use crate::named::{Named, declared};
use crate::reach::reach;
use crate::writes::{call_write, place_at, written_slots};
use std::alloc::{AllocError, Global};
use vs_code::AnyKernel;
use vs_design::{value_law, word_part_law};
use vs_kern_select::{Addresses, Kernel, Selection};
use vs_shape::{Part, Places, places_of, word_start};
use vs_values::{
    Code, Environment, Templates, are_constant, constant_bits, first_of_word, memory_addresses,
    numbers, own, pair, picked, place, signal_slots, word_width,
};

/// A part of a word: its memory by its number, the expressions of the word's address and of the index, and which bits it is, with whether the index is
/// signed.
#[derive(Clone, Copy)]
pub(crate) struct WordPart {
    pub(crate) signal: u32,
    pub(crate) address: u32,
    pub(crate) index: u32,
    pub(crate) selection: Selection,
}

/// The places that a constant index takes of a word, for so many bits.
fn part_places(
    alloc: Global,
    selection: Selection,
    index: &[u32],
    width: usize,
) -> Result<Places, AllocError>
    requires some { 1 ≤ width }
    requires most { width ≤ 64 }
    requires some_index { 1 ≤ length index.now }
    requires index { length index.now ≤ 64 }
    ensures value { IfOk result (λ ps. ps ≡ selects.places (record { range = selection.range; up = selection.up; width = width }) selection.signed (constant_bits index.now)) }
    ensures length { IfOk result (λ ps. length ps ≡ width) }
    ensures inside { IfOk result (λ ps. (k n : ℕ) → slice_index_or ps k None ≡ Some n → n < selects.range_length selection.range) }
{
    let bits = constant_bits(alloc, index)?;
    let part = Part {
        range: selection.range,
        up: selection.up,
        width: width as u32,
    };
    Ok(places_of(part, selection.signed, bits))
}

/// Calls the kernel of a write by a variable index over these bits: each of them gets a new slot.
fn call_on(
    alloc: Global,
    env: &mut Environment,
    bits: &[u32],
    kernel: AnyKernel,
    index: &[u32],
    value: &[u32],
    code: &mut Code,
) -> Result<(), AllocError>
    requires inside { All (λ b. b < length env.old) bits.now }
    requires few { length bits.now < 2 ^ 32 }
    requires call { IsCallable code.old kernel (map (slice_index env.old) bits.now ∷ index.now ∷ value.now ∷ []) (length bits.now) }
    ensures code { OnOk result (code.new ≡ with_call code.old kernel (map (slice_index env.old) bits.now ∷ index.now ∷ value.now ∷ []) (length bits.now)) }
    ensures env { OnOk result (env.new ≡ placed env.old (map Some bits.now) (range_with_len code.old.next (length bits.now))) }
{
    let under = picked(alloc, env, bits)?;
    let at = Vec::from_slice(alloc, index)?;
    let with = Vec::from_slice(alloc, value)?;
    let width = bits.len() as u32;
    let to = written_slots(alloc, kernel, under, at, with, width, code)?;
    place(env, bits, to.as_slice())
}

/// Adds the bit at this place of what begins with bit `first`, where there is that place.
fn push_one(first: u32, place: Option<usize>, out: &mut Vec<u32>) -> Result<(), AllocError>
    requires { (n : ℕ) → place ≡ Some n → first + n < 2 ^ 32 }
    ensures { OnOk result (out.new.items ≡ out.old.items ++ bits_there first (place ∷ [])) }
{
    match place {
        Some(n) => {
            out.push(first + n as u32)?;
            Ok(())
        }
        None => Ok(()),
    }
}

/// Adds the bits at these places of what begins with bit `first`.
fn push_there(first: u32, places: &Places, out: &mut Vec<u32>) -> Result<(), AllocError>
    requires { (k n : ℕ) → slice_index_or places.now k None ≡ Some n → first + n < 2 ^ 32 }
    ensures { OnOk result (out.new.items ≡ out.old.items ++ bits_there first places.now) }
{
    for k in 0..places.len() {
        push_one(first, places.get(k), out)?;
    }
    Ok(())
}

/// The bits at these places in every word of a memory, by ascending address.
fn columns(
    alloc: Global,
    templates: &Templates,
    signal: u32,
    places: &Places,
) -> Result<Vec<u32>, AllocError>
    requires signal { signal < length templates.now.arena.signals }
    requires inside { (k n : ℕ) → slice_index_or places.now k None ≡ Some n → n < word_length (signal_at (arena_signals templates.now.arena) signal) }
    ensures { IfOk result (λ bits. bits.items ≡ column_bits (signal_at (arena_signals templates.now.arena) signal) places.now) }
{
    let first = declared(templates, Named::Global { signal }).first_bit;
    let width = word_width(templates, signal);
    let count = memory_addresses(templates, signal).length() as usize;
    let mut bits = Vec::new(alloc);
    for n in 0..count {
        push_there(word_start(first, width, n), places, &mut bits)?;
    }
    Ok(bits)
}

/// Adds this slot where there is a place.
fn push_value(place: Option<usize>, slot: u32, out: &mut Vec<u32>) -> Result<(), AllocError>
    ensures { OnOk result (out.new.items ≡ out.old.items ++ those_there (place ∷ []) (slot ∷ [])) }
{
    match place {
        Some(_) => {
            out.push(slot)?;
            Ok(())
        }
        None => Ok(()),
    }
}

/// The slots of a value for whose bits there are places.
fn values_there(alloc: Global, places: &Places, value: &[u32]) -> Result<Vec<u32>, AllocError>
    requires { length places.now ≡ length value.now }
    ensures { IfOk result (λ to. to.items ≡ those_there places.now value.now) }
{
    let mut to = Vec::with_capacity(alloc, value.len())?;
    for k in 0..places.len() {
        push_value(places.get(k), value[k as usize], &mut to)?;
    }
    Ok(to)
}

/// Writes a part of a word by an address in constants' slots: of that word alone, and nothing where no word has it.
fn write_in_word(
    alloc: Global,
    templates: &Templates,
    env: &mut Environment,
    part: WordPart,
    address: &[u32],
    index: &[u32],
    value: &[u32],
    code: &mut Code,
) -> Result<(), AllocError>
    requires ready { IsPartReady templates.now env.old code.old part address.now index.now value.now }
    requires fixed { AreConstant address.now }
    ensures { OnOk result (AddsPart templates.now env.old env.new code.old code.new part address.now index.now value.now) }
{
    value_law();
    word_part_law();
    reach(templates);
    declared(
        templates,
        Named::Global {
            signal: part.signal,
        },
    );
    let width = word_width(templates, part.signal);
    let signed = templates.signed(part.address);
    let word = first_of_word(alloc, templates, part.signal, signed, address)?;
    match word {
        Some(first) => {
            if are_constant(index) {
                let places = part_places(alloc, part.selection, index, value.len())?;
                return place_at(env, first, &places, value);
            }
            let bits = numbers(alloc, first, width)?;
            let kernel = AnyKernel::Select(Kernel::Write(part.selection));
            call_on(alloc, env, bits.as_slice(), kernel, index, value, code)
        }
        None => Ok(()),
    }
}

/// Writes a part of a word by a variable address and a constant index: in every word each bit of the part gets a new slot, as in a memory of the same addresses whose words are the part.
fn write_columns(
    alloc: Global,
    templates: &Templates,
    env: &mut Environment,
    part: WordPart,
    address: &[u32],
    index: &[u32],
    value: &[u32],
    code: &mut Code,
) -> Result<(), AllocError>
    requires ready { IsPartReady templates.now env.old code.old part address.now index.now value.now }
    requires variable { AreConstant address.now → ⊥ }
    requires fixed { AreConstant index.now }
    ensures { OnOk result (AddsPart templates.now env.old env.new code.old code.new part address.now index.now value.now) }
{
    value_law();
    word_part_law();
    reach(templates);
    declared(
        templates,
        Named::Global {
            signal: part.signal,
        },
    );
    let places = part_places(alloc, part.selection, index, value.len())?;
    let with = values_there(alloc, &places, value)?;
    if with.is_empty() {
        return Ok(());
    }
    let bits = columns(alloc, templates, part.signal, &places)?;
    let range = memory_addresses(templates, part.signal);
    let signed = templates.signed(part.address);
    let kernel = AnyKernel::Select(Kernel::WriteWord(Addresses { range, signed }));
    call_on(
        alloc,
        env,
        bits.as_slice(),
        kernel,
        address,
        with.as_slice(),
        code,
    )
}

/// The word at a variable address with a value written to bits of it by a variable index: two calls.
pub(crate) fn changed_word(
    alloc: Global,
    templates: &Templates,
    env: &Environment,
    part: WordPart,
    address: &[u32],
    index: &[u32],
    value: &[u32],
    code: &mut Code,
) -> Result<Vec<u32>, AllocError>
    requires ready { IsPartReady templates.now env.now code.old part address.now index.now value.now }
    requires variable { AreConstant address.now → ⊥ }
    requires index_variable { AreConstant index.now → ⊥ }
    ensures code { OnOk result (code.new ≡ changed_code templates.now env.now code.old part address.now index.now value.now) }
    ensures to { IfOk result (λ to. to.items ≡ changed_slots templates.now code.old part) }
{
    reach(templates);
    let from = signal_slots(alloc, templates, env, part.signal)?;
    let at = Vec::from_slice(alloc, address)?;
    let args = pair(alloc, from, at)?;
    let range = memory_addresses(templates, part.signal);
    let signed = templates.signed(part.address);
    let width = word_width(templates, part.signal);
    let read = AnyKernel::Select(Kernel::ReadWord(Addresses { range, signed }));
    let word = code.call(alloc, read, args, width)?;
    let by = Vec::from_slice(alloc, index)?;
    let with = Vec::from_slice(alloc, value)?;
    let write = AnyKernel::Select(Kernel::Write(part.selection));
    written_slots(alloc, write, word, by, with, width, code)
}

/// Writes a part of a word by a variable address and a variable index: the word is read, changed and written again.
fn write_changed(
    alloc: Global,
    templates: &Templates,
    env: &mut Environment,
    part: WordPart,
    address: &[u32],
    index: &[u32],
    value: &[u32],
    code: &mut Code,
) -> Result<(), AllocError>
    requires ready { IsPartReady templates.now env.old code.old part address.now index.now value.now }
    requires variable { AreConstant address.now → ⊥ }
    requires index_variable { AreConstant index.now → ⊥ }
    ensures { OnOk result (AddsPart templates.now env.old env.new code.old code.new part address.now index.now value.now) }
{
    value_law();
    word_part_law();
    reach(templates);
    let word = changed_word(alloc, templates, env, part, address, index, value, code)?;
    let range = memory_addresses(templates, part.signal);
    let signed = templates.signed(part.address);
    let kernel = AnyKernel::Select(Kernel::WriteWord(Addresses { range, signed }));
    let memory = Named::Global {
        signal: part.signal,
    };
    call_write(
        alloc,
        templates,
        env,
        memory,
        kernel,
        address,
        word.as_slice(),
        code,
    )
}

/// Adds the calls of a write to a part of a word of a memory, whose address and index are in these slots.
fn write_word_part(
    alloc: Global,
    templates: &Templates,
    env: &mut Environment,
    part: WordPart,
    address: &[u32],
    index: &[u32],
    value: &[u32],
    code: &mut Code,
) -> Result<(), AllocError>
    requires { IsPartReady templates.now env.old code.old part address.now index.now value.now }
    ensures { OnOk result (AddsPart templates.now env.old env.new code.old code.new part address.now index.now value.now) }
{
    if are_constant(address) {
        return write_in_word(alloc, templates, env, part, address, index, value, code);
    }
    if are_constant(index) {
        return write_columns(alloc, templates, env, part, address, index, value, code);
    }
    write_changed(alloc, templates, env, part, address, index, value, code)
}

/// Adds the calls of a write to a part of a word of a memory. Of these slots the first are those of the address, and the others those of the index.
pub(crate) fn write_part(
    alloc: Global,
    templates: &Templates,
    env: &mut Environment,
    part: WordPart,
    index: &[u32],
    value: &[u32],
    code: &mut Code,
) -> Result<(), AllocError>
    requires signal { part.signal < length templates.now.arena.signals }
    requires at { part.address < node_bound templates.now }
    requires within { signal_within (length env.old) (signal_at (arena_signals templates.now.arena) part.signal) ≡ true }
    requires room { HasRoom env.old code.old (write_weight (part_target templates.now.arena part (length value.now))) }
    requires fit { fits_target (part_target templates.now.arena part (length value.now)) ≡ true }
    requires sign { part.selection.signed ≡ E.sign (tree_at (arena_trees templates.now.arena) part.index) }
    requires value { All (λ slot. slot < code.old.next) value.now }
    requires index { All (λ slot. slot < code.old.next) index.now }
    requires indexed { IsIndexed (part_target templates.now.arena part (length value.now)) index.now }
    ensures { OnOk result (AddsWrites env.old env.new code.old code.new (part_target templates.now.arena part (length value.now)) (index.now ∷ []) value.now (write_weight (part_target templates.now.arena part (length value.now)))) }
{
    reach(templates);
    let split = own(templates, part.address).width;
    let (address, by) = index.split_at(split as usize);
    write_word_part(alloc, templates, env, part, address, by, value, code)
}

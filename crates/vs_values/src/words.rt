//! Words of memories, by the slots of their address (IEEE 1364-2005, 4.9.3).

ghost use Rattle.std.specs.Prelude.{◌≡◌, ℕ, ◌+◌, ◌*◌, ◌<◌, ◌≤◌, ◌^◌, [], ◌∷◌, length, option_map, IfOk, OnOk, Some, true};
ghost use Rattle.std.specs.List.{range_with_len};
ghost use Rattle.vs_design.specs.Expressions.{OfSignal, addresses, signal_length, word_length};
ghost use Rattle.vs_design.specs.Values as D;
ghost use Rattle.vs_design.specs.Within.{signal_within};
ghost use Rattle.vs_flat.specs.DesignOf.{arena_signals};
ghost use Rattle.vs_flat.specs.Trees.{signal_at};
ghost use Rattle.vs_values.specs.Coded.{with_call};
ghost use Rattle.vs_values.specs.Constants.{AreConstant, constant_bits, word_slots};
ghost use Rattle.vs_values.specs.Made.{IsCallable, IsWord, source_slots, word_kernel};

use crate::arguments::pair;
use crate::code::Code;
use crate::environment::Environment;
use crate::names::{run, signal_slots};
use crate::shifts::repeated;
use crate::slots::{are_constant, constant_bits, extended};
use crate::templates::Templates;
use std::alloc::{AllocError, Global};
use vs_base::Context;
use vs_code::AnyKernel;
use vs_flat::{lawful_law, length_of, trees_law};
use vs_four::Range;
use vs_kern_select::Addresses;
use vs_shape::{addresses_of, word_place};

/// A memory's addresses; those of no memory are taken as 0 alone.
pub fn memory_addresses(templates: &Templates, signal: u32) -> Range
    requires signal { signal < length templates.now.arena.signals }
    ensures { result ≡ addresses (signal_at (arena_signals templates.now.arena) signal) }
{
    trees_law();
    addresses_of(templates.flat().signal(signal))
}

/// How many bits a memory's word has.
pub fn word_width(templates: &Templates, signal: u32) -> u32
    requires signal { signal < length templates.now.arena.signals }
    ensures { result ≡ word_length (signal_at (arena_signals templates.now.arena) signal) }
{
    trees_law();
    lawful_law();
    length_of(templates.flat().signal(signal).range)
}

/// The number of the first bit of the word at this place, where the memory's first bit has this number.
fn first_at(first: u32, width: u32, place: Option<usize>) -> Option<u32>
    requires { (n : ℕ) → place ≡ Some n → first + (n * width + width) < 2 ^ 32 }
    ensures { result ≡ option_map (λ n. first + n * width) place }
{
    match place {
        Some(n) => Some((first as usize + n * width as usize) as u32),
        None => None,
    }
}

/// The number of the first bit of the word with the address in these constants' slots. There is none where no word has it.
pub fn first_of_word(
    alloc: Global,
    templates: &Templates,
    signal: u32,
    signed: bool,
    address: &[u32],
) -> Result<Option<u32>, AllocError>
    requires signal { signal < length templates.now.arena.signals }
    requires some { 1 ≤ length address.now }
    requires most { length address.now ≤ 64 }
    ensures value { IfOk result (λ first. first ≡ option_map (λ n. (signal_at (arena_signals templates.now.arena) signal).first + n * word_length (signal_at (arena_signals templates.now.arena) signal)) (D.address_place (signal_at (arena_signals templates.now.arena) signal) signed (constant_bits address.now))) }
    ensures inside { IfOk result (λ first. (b : ℕ) → first ≡ Some b → b + word_length (signal_at (arena_signals templates.now.arena) signal) ≤ (signal_at (arena_signals templates.now.arena) signal).first + signal_length (signal_at (arena_signals templates.now.arena) signal)) }
{
    trees_law();
    lawful_law();
    let bits = constant_bits(alloc, address)?;
    let place = word_place(memory_addresses(templates, signal), signed, bits);
    let width = word_width(templates, signal);
    let first = templates.flat().signal(signal).first_bit;
    Ok(first_at(first, width, place))
}

/// The slots of a word by a constant address: those of x where no word has it.
fn fixed_word(
    alloc: Global,
    templates: &Templates,
    env: &Environment,
    signal: u32,
    address: &[u32],
    signed: bool,
) -> Result<Vec<u32>, AllocError>
    requires signal { signal < length templates.now.arena.signals }
    requires within { signal_within (length env.now) (signal_at (arena_signals templates.now.arena) signal) ≡ true }
    requires some { 1 ≤ length address.now }
    requires most { length address.now ≤ 64 }
    ensures { IfOk result (λ to. to.items ≡ word_slots (signal_at (arena_signals templates.now.arena) signal) signed (source_slots env.now (OfSignal (signal_at (arena_signals templates.now.arena) signal))) (constant_bits address.now)) }
{
    trees_law();
    lawful_law();
    templates.flat();
    let width = word_width(templates, signal);
    let first = first_of_word(alloc, templates, signal, signed, address)?;
    match first {
        Some(bit) => run(alloc, env, bit, width),
        None => repeated(alloc, 2, width as usize),
    }
}

/// Calls the kernel of a word by a variable address.
fn called_word(
    alloc: Global,
    templates: &Templates,
    env: &Environment,
    signal: u32,
    address: Vec<u32>,
    signed: bool,
    code: &mut Code,
) -> Result<Vec<u32>, AllocError>
    requires signal { signal < length templates.now.arena.signals }
    requires within { signal_within (length env.now) (signal_at (arena_signals templates.now.arena) signal) ≡ true }
    requires call { IsCallable code.old (word_kernel (signal_at (arena_signals templates.now.arena) signal) signed) (source_slots env.now (OfSignal (signal_at (arena_signals templates.now.arena) signal)) ∷ address.items ∷ []) (word_length (signal_at (arena_signals templates.now.arena) signal)) }
    ensures to { IfOk result (λ to. to.items ≡ range_with_len code.old.next (word_length (signal_at (arena_signals templates.now.arena) signal))) }
    ensures ok { OnOk result (code.new ≡ with_call code.old (word_kernel (signal_at (arena_signals templates.now.arena) signal) signed) (source_slots env.now (OfSignal (signal_at (arena_signals templates.now.arena) signal)) ∷ address.items ∷ []) (word_length (signal_at (arena_signals templates.now.arena) signal))) }
{
    let from = signal_slots(alloc, templates, env, signal)?;
    let args = pair(alloc, from, address)?;
    let range = memory_addresses(templates, signal);
    let width = word_width(templates, signal);
    code.call(
        alloc,
        AnyKernel::Select(vs_kern_select::Kernel::ReadWord(Addresses { range, signed })),
        args,
        width,
    )
}

/// The slots of a word.
pub(crate) fn chosen_word(
    alloc: Global,
    templates: &Templates,
    env: &Environment,
    signal: u32,
    address: Vec<u32>,
    signed: bool,
    context: Context,
    code: &mut Code,
) -> Result<Vec<u32>, AllocError>
    requires signal { signal < length templates.now.arena.signals }
    requires within { signal_within (length env.now) (signal_at (arena_signals templates.now.arena) signal) ≡ true }
    requires some { 1 ≤ length address.items }
    requires most { length address.items ≤ 64 }
    requires call { (AreConstant address.items → ⊥) → IsCallable code.old (word_kernel (signal_at (arena_signals templates.now.arena) signal) signed) (source_slots env.now (OfSignal (signal_at (arena_signals templates.now.arena) signal)) ∷ address.items ∷ []) (word_length (signal_at (arena_signals templates.now.arena) signal)) }
    ensures { IfOk result (λ to. IsWord (signal_at (arena_signals templates.now.arena) signal) signed context.width context.signed (source_slots env.now (OfSignal (signal_at (arena_signals templates.now.arena) signal))) address.items code.old code.new to.items) }
{
    if are_constant(address.as_slice()) {
        let fixed = fixed_word(alloc, templates, env, signal, address.as_slice(), signed)?;
        return extended(fixed, context.width, context.signed);
    }
    let read = called_word(alloc, templates, env, signal, address, signed, code)?;
    extended(read, context.width, context.signed)
}

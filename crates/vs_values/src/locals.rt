//! The local signals of functions, and the bits of their inputs (IEEE 1364-2005, 10.4.1).

ghost use Rattle.std.specs.Prelude.{◌≡◌, ◌<◌, ◌≤◌, map, length, slice_get, slice_index, Some, IfOk, true};
ghost use Rattle.vs_design.specs.Expressions as E;
ghost use Rattle.vs_design.specs.Values.{bits_of_signal};
ghost use Rattle.vs_design.specs.Within.{signal_within};
ghost use Rattle.vs_flat.specs.Arena.{declared_at};
ghost use Rattle.vs_flat.specs.DesignOf.{local_of};
ghost use Rattle.vs_flat.specs.Named.{locals_in};
ghost use Rattle.vs_values.specs.Constants.{extended_slots};
ghost use Rattle.vs_values.specs.Templates.{function_at, input_bits, slots_at_call};

use crate::environment::Environment;
use crate::names::{numbers, run};
use crate::slots::extended;
use crate::templates::Templates;
use std::alloc::{AllocError, Global};
use vs_base::Context;
use vs_flat::{bits_of, lawful_law, trees_law};
use vs_shape::local_of;

/// The slots of the bits of a function's local signal.
pub fn local_slots(
    alloc: Global,
    templates: &Templates,
    env: &Environment,
    function: u32,
    local: u32,
) -> Result<Vec<u32>, AllocError>
    requires function { function < length templates.now.arena.functions }
    requires there { local < length (locals_in (declared_at templates.now.arena function)) }
    requires within { signal_within (length env.now) (local_of templates.now.arena function local) ≡ true }
    ensures { IfOk result (λ to. to.items ≡ map (slice_index env.now) (bits_of_signal (local_of templates.now.arena function local))) }
{
    let signal = local_of(templates.flat(), function, local);
    run(alloc, env, signal.first_bit, bits_of(signal))
}

/// A local signal's bits, by their numbers in its function, the least significant one first.
pub fn local_bits(
    alloc: Global,
    templates: &Templates,
    function: u32,
    local: u32,
) -> Result<Vec<u32>, AllocError>
    requires function { function < length templates.now.arena.functions }
    requires there { local < length (locals_in (declared_at templates.now.arena function)) }
    ensures { IfOk result (λ bits. bits.items ≡ bits_of_signal (local_of templates.now.arena function local)) }
{
    let signal = local_of(templates.flat(), function, local);
    numbers(alloc, signal.first_bit, bits_of(signal))
}

/// The slots of a local signal's value, extended.
pub(crate) fn local(
    alloc: Global,
    templates: &Templates,
    env: &Environment,
    function: u32,
    local: u32,
    context: Context,
) -> Result<Vec<u32>, AllocError>
    requires function { function < length templates.now.arena.functions }
    requires there { local < length (locals_in (declared_at templates.now.arena function)) }
    requires within { signal_within (length env.now) (local_of templates.now.arena function local) ≡ true }
    ensures { IfOk result (λ to. to.items ≡ extended_slots context.width context.signed (map (slice_index env.now) (bits_of_signal (local_of templates.now.arena function local)))) }
{
    let from = local_slots(alloc, templates, env, function, local)?;
    extended(from, context.width, context.signed)
}

/// How many bits an input has, by its number among the inputs.
pub(crate) fn input_width(templates: &Templates, function: u32, input: usize) -> u32
    requires function { function < templates.now.functions }
    requires input { input < length (function_at templates.now.arena function).header.inputs }
    ensures { (s : E.Signal) → slice_get (function_at templates.now.arena function).header.inputs input ≡ Some s → result ≡ E.signal_length s }
{
    trees_law();
    lawful_law();
    let _count = templates.count();
    let flat = templates.flat();
    let declared = flat.function(function);
    bits_of(declared.function.signals.get(input))
}

/// How many bits a function's inputs have.
pub fn input_bits(templates: &Templates, function: u32) -> u32
    requires { function < length templates.now.arena.bodies }
    ensures is { result ≡ input_bits (function_at templates.now.arena function).header }
    ensures few { result ≤ 67108864 }
{
    trees_law();
    lawful_law();
    let flat = templates.flat();
    let declared = flat.function(function);
    let result = declared
        .function
        .signals
        .get(declared.function.inputs as usize);
    result.first_bit
}

/// How many bits all local signals of a function have.
fn all_bits(templates: &Templates, function: u32) -> u32
    requires { function < length templates.now.arena.bodies }
    ensures is { result ≡ length (slots_at_call (function_at templates.now.arena function).header) }
    ensures few { result ≤ 67108864 }
{
    trees_law();
    lawful_law();
    let flat = templates.flat();
    let declared = flat.function(function);
    let last = declared
        .function
        .signals
        .get(declared.function.signals.len() - 1);
    last.first_bit + bits_of(last)
}

/// The environment of a function's statement before it (IEEE 1364-2005, 10.4): the bits of its inputs at home, and all other local bits in the slot of x. It takes no memory.
pub fn environment_at_call(alloc: Global, templates: &Templates, function: u32) -> Environment
    requires { function < length templates.now.arena.bodies }
    ensures { result ≡ slots_at_call (function_at templates.now.arena function).header }
{
    let inputs = input_bits(templates, function);
    let all = all_bits(templates, function);
    Environment::at_call(alloc, inputs, all - inputs)
}

/// The slots of a function's result.
pub fn result_slots(
    alloc: Global,
    templates: &Templates,
    env: &Environment,
    function: u32,
) -> Result<Vec<u32>, AllocError>
    requires function { function < length templates.now.arena.bodies }
    requires bits { length env.now ≡ length (slots_at_call (function_at templates.now.arena function).header) }
    ensures { IfOk result (λ to. to.items ≡ map (slice_index env.now) (bits_of_signal (function_at templates.now.arena function).header.result)) }
{
    trees_law();
    lawful_law();
    let flat = templates.flat();
    let declared = flat.function(function);
    local_slots(alloc, templates, env, function, declared.function.inputs)
}

//! The data inputs and the outputs of a design.

ghost use Rattle.std.specs.Prelude.{◌≡◌, ◌<◌, ◌≤◌, ◌^◌, ℕ, IfOk, length, map};
ghost use Rattle.std.specs.List.{filter, list_any};
ghost use Rattle.vs_design.specs.Clocks.{same_name};
ghost use Rattle.vs_design.specs.Footprints.{contains};
ghost use Rattle.vs_flat.specs.Arena.{signal_length};
ghost use Rattle.vs_flat.specs.DesignOf.{design_of};
ghost use Rattle.vs_flat.specs.Lawful.{IsLawful};
ghost use Rattle.vs_flat.specs.Trees.{signal_of};
ghost use Rattle.vs_program.specs.Compiled.{span_of};
ghost use Rattle.vs_rounds.specs.Inputs.{input_of, inputs_among, is_data_input, is_output, output_of, outputs_among};

use std::alloc::{AllocError, Global};
use vs_base::Text;
use vs_clock::are_same;
use vs_flat::{Flat, Signal, bits_of};
use vs_program::Span;
use vs_stim::{Input, Name, Output};

/// The data inputs of a design whose clocks and whose reset inputs are these bits, and whose select inputs begin with these, in order of declaration.
pub(crate) fn data_inputs(
    alloc: Global,
    flat: &Flat,
    clocks: &[u32],
    resets: &[u32],
    selects: &[u32],
) -> Result<Vec<Input>, AllocError>
    requires { IsLawful flat.now }
    ensures { IfOk result (λ inputs. inputs.items ≡ inputs_among resets.now selects.now clocks.now (design_of flat.now).signals) }
{
    let mut inputs = Vec::new(alloc);
    for n in 0..flat.signal_count() {
        let signal = flat.signal(n);
        if is_data_input(signal, clocks) {
            inputs.push(input_of(alloc, signal, resets, selects)?)?;
        }
    }
    Ok(inputs)
}

/// Whether a signal is an input of the top whose bit isn't a clock's.
fn is_data_input(signal: &Signal, clocks: &[u32]) -> bool
    ensures { (n : ℕ) → result ≡ is_data_input clocks.now (signal_of n signal.now) }
{
    signal.input && !contains(clocks, signal.first_bit)
}

/// A signal's name and length, and whether it is a reset input and whether it is a select input.
fn input_of(
    alloc: Global,
    signal: &Signal,
    resets: &[u32],
    selects: &[u32],
) -> Result<Input, AllocError>
    requires { signal_length signal.now ≤ 64 }
    ensures { IfOk result (λ input. (n : ℕ) → input ≡ input_of resets.now selects.now (signal_of n signal.now)) }
{
    let name = signal.name.as_slice().to_vec(alloc)?;
    Ok(Input {
        name: Name::of(name),
        length: bits_of(signal),
        reset: contains(resets, signal.first_bit),
        select: contains(selects, signal.first_bit),
    })
}

/// Whether the bit is one of these.
fn contains(bits: &[u32], bit: u32) -> bool
    ensures { result ≡ contains bits.now bit }
{
    bits.iter().any(|b| bit == *b)
}

/// The outputs of a design, which have these names, in order of declaration.
pub(crate) fn outputs_of(
    alloc: Global,
    flat: &Flat,
    names: &[Text],
) -> Result<Vec<Output>, AllocError>
    requires { IsLawful flat.now }
    ensures { IfOk result (λ outputs. outputs.items ≡ outputs_among names.now (design_of flat.now).signals) }
{
    let mut outputs = Vec::new(alloc);
    for n in 0..flat.signal_count() {
        let signal = flat.signal(n);
        if is_output(signal, names) {
            outputs.push(output_of(alloc, signal)?)?;
        }
    }
    Ok(outputs)
}

/// Whether a signal is one of the top's that has one of these names.
fn is_output(signal: &Signal, names: &[Text]) -> bool
    ensures { (n : ℕ) → result ≡ is_output names.now (signal_of n signal.now) }
{
    signal.scope == 0 && signal.words.is_none() && is_among(names, signal.name.as_slice())
}

/// A signal's name and length.
fn output_of(alloc: Global, signal: &Signal) -> Result<Output, AllocError>
    requires { signal_length signal.now ≤ 64 }
    ensures { IfOk result (λ output. (n : ℕ) → output ≡ output_of (signal_of n signal.now)) }
{
    let name = signal.name.as_slice().to_vec(alloc)?;
    Ok(Output {
        name: Name::of(name),
        length: bits_of(signal),
    })
}

/// The bits of the outputs of a design, which have these names, in order of declaration.
pub(crate) fn output_spans(
    alloc: Global,
    flat: &Flat,
    names: &[Text],
) -> Result<Vec<Span>, AllocError>
    requires { IsLawful flat.now }
    ensures spans { IfOk result (λ spans. spans.items ≡ map span_of (filter (is_output names.now) (design_of flat.now).signals)) }
    ensures few { IfOk result (λ spans. length spans.items < 2 ^ 32) }
{
    let mut spans = Vec::new(alloc);
    for n in 0..flat.signal_count() {
        let signal = flat.signal(n);
        if is_output(signal, names) {
            spans.push(span_of(signal))?;
        }
    }
    Ok(spans)
}

/// The bits that a signal has.
fn span_of(signal: &Signal) -> Span
    requires { signal_length signal.now ≤ 64 }
    ensures { (n : ℕ) → result ≡ span_of (signal_of n signal.now) }
{
    Span {
        first: signal.first_bit,
        length: bits_of(signal),
    }
}

/// Whether the name is one of these.
fn is_among(names: &[Text], name: &[u8]) -> bool
    ensures { result ≡ list_any (same_name name.now) names.now }
{
    names.iter().any(|other| are_same(name, other.as_slice()))
}

//! What a program has besides its calls, read off a flat design.

ghost use Rattle.std.specs.Prelude.{◌≡◌, ℕ, ◌+◌, ◌<◌, ◌≤◌, ◌^◌, ◌++◌, not, length, map, IfOk, OnOk};
ghost use Rattle.vs_design.specs.Footprints.{contains, without};
ghost use Rattle.vs_design.specs.Values.{count_from};
ghost use Rattle.vs_cone.specs.Given.{data_bits};
ghost use Rattle.vs_flat.specs.DesignOf.{arena_signals, design_of};
ghost use Rattle.vs_flat.specs.Lawful.{IsLawful};
ghost use Rattle.vs_program.specs.Compiled.{shown_signals, span_of};
ghost use Rattle.vs_program.specs.Made.{AreClockNets};
ghost use Rattle.vs_assemble.specs.Plans.{AreStarts, IsFrameOf, begin_bits};

use crate::Frame;
use std::alloc::{AllocError, Global};
use vs_flat::{Flat, bits_of, lawful_law};
use vs_four::Bit4;
use vs_program::Span;

/// What a program of a flat design has besides its calls, where these are its clocks' bits and the clock nets, and `starts` has what each bit begins with. The only error is that there is no memory.
pub fn frame(
    alloc: Global,
    flat: &Flat,
    clocks: &[u32],
    nets: Vec<u32>,
    starts: &[Bit4],
) -> Result<Frame, AllocError>
    requires lawful { IsLawful flat.now }
    requires nets { AreClockNets (design_of flat.now) clocks.now nets.items }
    requires starts { AreStarts (design_of flat.now) starts.now }
    ensures { IfOk result (λ f. IsFrameOf (design_of flat.now) clocks.now f.bits f.clocks.items f.inputs.items f.nets.items f.initial.items f.signals.items) }
{
    lawful_law();
    let spans = spans(alloc, flat)?;
    let signals = shown(alloc, flat, spans.as_slice())?;
    let inputs = data_inputs(alloc, flat, clocks, spans.as_slice())?;
    let initial = initial(alloc, starts)?;
    let bits = starts.len() as u32;
    let clocks = Vec::from_slice(alloc, clocks)?;
    Ok(Frame {
        bits,
        clocks,
        inputs,
        nets,
        initial,
        signals,
    })
}

/// The bits of each signal, by its number.
fn spans(alloc: Global, flat: &Flat) -> Result<Vec<Span>, AllocError>
    ensures { IfOk result (λ v. v.items ≡ map span_of (design_of flat.now).signals) }
{
    let mut spans = Vec::new(alloc);
    for n in 0..flat.signal_count() {
        let signal = flat.signal(n);
        let length = bits_of(signal);
        spans.push(Span {
            first: signal.first_bit,
            length,
        })?;
    }
    Ok(spans)
}

/// The bits of each signal but the memories (IEEE 1364-2005, 4.9), where these are the bits of all signals.
fn shown(alloc: Global, flat: &Flat, spans: &[Span]) -> Result<Vec<Span>, AllocError>
    requires { spans.now ≡ map span_of (design_of flat.now).signals }
    ensures { IfOk result (λ v. v.items ≡ map span_of (shown_signals (design_of flat.now))) }
{
    let mut shown = Vec::new(alloc);
    for n in 0..flat.signal_count() {
        if flat.signal(n).words.is_none() {
            shown.push(spans[n as usize])?;
        }
    }
    Ok(shown)
}

/// The bits of the inputs of the top but the clocks', where these are the bits of all signals.
fn data_inputs(
    alloc: Global,
    flat: &Flat,
    clocks: &[u32],
    spans: &[Span],
) -> Result<Vec<u32>, AllocError>
    requires lawful { IsLawful flat.now }
    requires spans { spans.now ≡ map span_of (design_of flat.now).signals }
    ensures { IfOk result (λ v. v.items ≡ data_bits (design_of flat.now) clocks.now) }
{
    let mut bits = Vec::new(alloc);
    for n in 0..flat.signal_count() {
        if flat.signal(n).input {
            push_bits(&mut bits, spans[n as usize], clocks)?;
        }
    }
    Ok(bits)
}

/// Whether this bit is among these.
fn is_among(bits: &[u32], bit: u32) -> bool
    ensures { result ≡ contains bits.now bit }
{
    bits.iter().any(|other| bit == *other)
}

/// Adds the bits of a signal, but the clocks'.
fn push_bits(bits: &mut Vec<u32>, span: Span, clocks: &[u32]) -> Result<(), AllocError>
    requires { span.first + span.length < 2 ^ 32 }
    ensures { OnOk result (bits.new.items ≡ bits.old.items ++ without (count_from span.first span.length) clocks.now) }
{
    for k in 0..span.length {
        let bit = span.first + k;
        if !is_among(clocks, bit) {
            bits.push(bit)?;
        }
    }
    Ok(())
}

/// What the slots of the constants and of the bits begin with.
fn initial(alloc: Global, starts: &[Bit4]) -> Result<Vec<Bit4>, AllocError>
    ensures { IfOk result (λ v. v.items ≡ begin_bits starts.now) }
{
    let mut bits = vec![in alloc; Bit4::Zero, Bit4::One, Bit4::X, Bit4::Z]?;
    bits.extend_from_slice(starts)?;
    Ok(bits)
}

//! The names of signals and bits.

ghost use Rattle.std.specs.Prelude.{◌≡◌, ◌++◌, ◌<◌, ◌≤◌, ◌^◌, ℕ, None, Some, OnOk, MatchOption, find, length, option_map};
ghost use Rattle.vs_design.specs.Expressions as E;
ghost use Rattle.vs_flat.specs.Arena.{signal_length};
ghost use Rattle.vs_flat.specs.DesignOf.{arena_signals, design_of};
ghost use Rattle.vs_flat.specs.Trees.{signal_at, signal_of};
ghost use Rattle.vs_names.specs.Names as spec;
ghost use Rattle.vs_names.specs.Drawn as D;

use crate::indices::{push_bracketed, push_place};
use crate::scopes::push_scope;
use std::alloc::AllocError;
use vs_excerpt::Page;
use vs_flat::{Flat, Signal, bits_of, trees_law};

/// Whether a bit is one of the signal's.
fn has_bit(signal: &Signal, bit: u32) -> bool
    requires { signal_length signal.now ≤ 2 ^ 20 }
    ensures { (n : ℕ) → result ≡ spec.has_bit bit (signal_of n signal.now) }
{
    signal.first_bit <= bit && bit - signal.first_bit < bits_of(signal)
}

/// The number of the signal that has the bit.
fn signal_with(flat: &Flat, bit: u32) -> Option<u32>
    ensures { MatchOption result (find (spec.has_bit bit) (arena_signals flat.now) ≡ None) (λ n. (n < length flat.now.signals) ×
        (find (spec.has_bit bit) (arena_signals flat.now) ≡ Some (signal_at (arena_signals flat.now) n))) }
{
    trees_law();
    for n in 0..flat.signal_count() {
        if has_bit(flat.signal(n), bit) {
            return Some(n);
        }
    }
    None
}

/// Whether the top declares the signal, by this name.
fn is_port(signal: &Signal, name: &[u8]) -> bool
    ensures { (n : ℕ) → result ≡ D.is_port name.now (signal_of n signal.now) }
{
    signal.scope == 0 && name == signal.name.as_slice()
}

/// How many bits a signal has.
fn signal_bits(signal: &Signal) -> u32
    requires { signal_length signal.now ≤ 2 ^ 20 }
    ensures { (n : ℕ) → result ≡ E.signal_length (signal_of n signal.now) }
{
    bits_of(signal)
}

/// How many bits the signal has that the top declares by this name.
pub(crate) fn port_bits(flat: &Flat, name: &[u8]) -> Option<u32>
    ensures { result ≡ option_map E.signal_length (find (D.is_port name.now) (arena_signals flat.now)) }
{
    trees_law();
    for n in 0..flat.signal_count() {
        let signal = flat.signal(n);
        if is_port(signal, name) {
            return Some(signal_bits(signal));
        }
    }
    None
}

/// Adds what a signal is.
fn push_kind(page: &mut Page, signal: &Signal) -> Result<(), AllocError>
    ensures { (n : ℕ) → OnOk result (page.new ≡ page.old ++ spec.kind_text (signal_of n signal.now)) }
{
    page.text(match (signal.words, signal.net) {
        (_, true) => "net ",
        (Some(_), false) => "memory ",
        (None, false) => "variable ",
    })
}

/// Adds a signal's name, with those of the scopes around it.
fn push_name(page: &mut Page, flat: &Flat, signal: &Signal) -> Result<(), AllocError>
    ensures { (n : ℕ) → OnOk result (page.new ≡ page.old ++ spec.signal_text (design_of flat.now) (signal_of n signal.now)) }
{
    push_scope(page, flat, signal.scope, flat.scope_count())?;
    page.escaped(signal.name.as_slice())
}

/// Adds the address of a net of an array of nets.
fn push_address(page: &mut Page, signal: &Signal) -> Result<(), AllocError>
    ensures { (n : ℕ) → OnOk result (page.new ≡ page.old ++ spec.address_text (signal_of n signal.now)) }
{
    match signal.words {
        Some(words) if signal.net => push_bracketed(page, u64::from(words.right)),
        _ => Ok(()),
    }
}

/// Adds the name of a signal's bit.
fn push_bit_of(page: &mut Page, flat: &Flat, signal: &Signal, bit: u32) -> Result<(), AllocError>
    ensures { (n : ℕ) → OnOk result (page.new ≡ page.old ++ spec.bit_of_signal (design_of flat.now) bit (signal_of n signal.now)) }
{
    push_kind(page, signal)?;
    push_name(page, flat, signal)?;
    push_place(
        page,
        signal.words,
        signal.range,
        bit.saturating_sub(signal.first_bit),
    )
}

/// Adds the name of a bit, or its number where no signal has it.
pub(crate) fn push_bit(page: &mut Page, flat: &Flat, bit: u32) -> Result<(), AllocError>
    ensures { OnOk result (page.new ≡ page.old ++ spec.bit_text (design_of flat.now) bit) }
{
    trees_law();
    match signal_with(flat, bit) {
        Some(n) => push_bit_of(page, flat, flat.signal(n), bit),
        None => {
            page.text("bit ")?;
            page.number(u64::from(bit))
        }
    }
}

/// Adds the name of a signal, or its number where there is no such signal.
pub(crate) fn push_signal(page: &mut Page, flat: &Flat, signal: u32) -> Result<(), AllocError>
    ensures { OnOk result (page.new ≡ page.old ++ spec.signal_of_number (design_of flat.now) signal) }
{
    trees_law();
    if signal >= flat.signal_count() {
        page.text("signal ")?;
        return page.number(u64::from(signal));
    }
    let known = flat.signal(signal);
    push_kind(page, known)?;
    push_name(page, flat, known)?;
    push_address(page, known)
}

//! The slots of the text.

ghost use Rattle.std.specs.Prelude.{◌≡◌, ◌≤◌, ◌++◌, ◌&&◌, ◌==◌, not, IfSome, length, option_map, OnOk};
ghost use Rattle.vs_design.specs.Designs.{bit_count};
ghost use Rattle.vs_design.specs.Footprints.{is_memory};
ghost use Rattle.vs_design.specs.Values as V;
ghost use Rattle.vs_flat.specs.DesignOf.{design_of};
ghost use Rattle.vs_flat.specs.Lawful.{IsLawful};
ghost use Rattle.vs_flat.specs.Trees.{signal_of};
ghost use Rattle.vs_trace.specs.Lines.{IsShown, signal_line, slot_lines};
ghost use Rattle.vs_vcd.specs.Shared.{code_at, led_by};
ghost use Rattle.vs_vcd.specs.Texts.{first_text, shown_numbers, slot_text, values_of};
ghost use Rattle.vs_writes.specs.Held.{state_of};

use crate::lines::{push_time, push_value};
use std::alloc::AllocError;
use vs_flat::{Flat, Signal, length_of, trees_law};
use vs_four::{Bit4, Bits, same};
use vs_vcd::{Codes, dump_line, end_line};

/// The value of a signal among those of all bits.
fn value_of(signal: &Signal, values: &[Bit4]) -> Bits
    requires { IsShown (length values.now) (signal_of 0 signal.now) }
    ensures { result ≡ V.read (state_of values.now) (V.bits_of_signal (signal_of 0 signal.now)) }
{
    let first = signal.first_bit as usize;
    let len = length_of(signal.range) as usize;
    Bits::of(&values[first..first + len])
}

/// Adds the line of the signal with this number, where these are the values of all bits at the end of the slot: in the first slot, and in a later one where its value isn't that at the end of the slot before (IEEE 1364-2005, 18.2.3.9).
fn push_signal(
    text: &mut Vec<u8>,
    number: u32,
    signal: &Signal,
    before: Option<&[Bit4]>,
    now: &[Bit4],
) -> Result<(), AllocError>
    requires before { IfSome before (λ values. IsShown (length values.now) (signal_of 0 signal.now)) }
    requires now { IsShown (length now.now) (signal_of 0 signal.now) }
    ensures { OnOk result (text.new.items ≡ text.old.items ++ signal_line (option_map (λ values. state_of values.now) before.entry) (state_of now.now) (signal_of number signal.now)) }
{
    let value = value_of(signal, now);
    if let Some(before) = before {
        let last = value_of(signal, before);
        if same(last, value) == Bit4::One {
            return Ok(());
        }
    }
    push_value(text, number, value)
}

/// Whether the values of the signal with this number and this code are written: it is no memory (IEEE 1364-2005, 4.9), and the code is its own and not that of an earlier one.
fn has_lines(number: u32, code: u32, signal: &Signal) -> bool
    ensures { result ≡ (not (is_memory (signal_of number signal.now)) && (code == number)) }
{
    signal.words.is_none() && code == number
}

/// Adds the lines of a slot, signal by signal.
fn push_signals(
    text: &mut Vec<u8>,
    flat: &Flat,
    codes: &Codes,
    before: Option<&[Bit4]>,
    now: &[Bit4],
) -> Result<(), AllocError>
    requires lawful { IsLawful flat.now }
    requires before { IfSome before (λ values. bit_count (design_of flat.now) ≤ length values.now) }
    requires now { bit_count (design_of flat.now) ≤ length now.now }
    ensures { OnOk result (text.new.items ≡ text.old.items ++ slot_lines (code_at codes.now) (option_map (λ values. state_of values.now) before.entry) (state_of now.now) (design_of flat.now).signals) }
{
    trees_law();
    for number in 0..flat.signal_count() {
        let signal = flat.signal(number);
        if has_lines(number, codes.code(number), signal) {
            push_signal(text, number, signal, before, now)?;
        }
    }
    Ok(())
}

/// Adds the first slot, at time 0: all values (IEEE 1364-2005, 18.2.3.9).
pub(crate) fn push_first(
    text: &mut Vec<u8>,
    flat: &Flat,
    codes: &Codes,
    now: &[Bit4],
) -> Result<(), AllocError>
    requires lawful { IsLawful flat.now }
    requires now { bit_count (design_of flat.now) ≤ length now.now }
    ensures { let d = led_by (code_at codes.now) (design_of flat.now) in
        OnOk result (text.new.items ≡ text.old.items ++ first_text (shown_numbers d) (values_of d (state_of now.now))) }
{
    push_time(text, 0)?;
    text.extend_from_slice(dump_line())?;
    push_signals(text, flat, codes, None, now)?;
    text.extend_from_slice(end_line())
}

/// Adds a later slot, at this time: the values that aren't those at the end of the slot before.
pub(crate) fn push_next(
    text: &mut Vec<u8>,
    flat: &Flat,
    codes: &Codes,
    time: u64,
    before: &[Bit4],
    now: &[Bit4],
) -> Result<(), AllocError>
    requires lawful { IsLawful flat.now }
    requires before { bit_count (design_of flat.now) ≤ length before.now }
    requires now { bit_count (design_of flat.now) ≤ length now.now }
    ensures { let d = led_by (code_at codes.now) (design_of flat.now) in
        OnOk result (text.new.items ≡ text.old.items ++ slot_text (shown_numbers d) time (values_of d (state_of before.now)) (values_of d (state_of now.now))) }
{
    push_time(text, time)?;
    push_signals(text, flat, codes, Some(before), now)
}

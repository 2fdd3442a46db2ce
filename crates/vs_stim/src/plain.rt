//! Lines of plain digits, read whole: each field has as many digits as its input or output has bits, `0` and `1` alone, one space stands between two
//! fields, and an LF behind the last.

ghost use Rattle.std.specs.Prelude.{All, ◌≡◌, ◌+◌, ◌<◌, ◌≤◌, length, IsTrue, IfSome};
ghost use Rattle.vs_stim.specs.Wanted.{wanted_sizes};
ghost use Rattle.vs_stim.specs.Wants.{IsExpected, expected_lengths};
ghost use Rattle.vs_stim.specs.Row.{sizes, IsColumn};
ghost use Rattle.vs_stim.specs.Plain.{IsField, IsArrow, ReadsInputs, ReadsExpected, EndsInputs, EndsExpected, IsLine};

use crate::digits::{Digits, plain_digit};
use crate::wanted::Wanted;
use crate::{Column, Expected};
use vs_four::Bits;

/// The bit of a field of one digit `0` or `1`, where the bytes begin with it and this byte stands behind it.
#[inline]
#[tactic(auto, using(crate::proofs::LineRead::one_field))]
fn bit_field(bytes: &[u8], end: u8) -> Option<Bits>
    ensures field { IfSome result (λ bits. IsField bytes.now 1 end bits) }
    ensures size { IfSome result (λ bits. length bits ≡ 1) }
    ensures within { IfSome result (λ bits. 1 < length bytes.now) }
{
    if bytes.len() < 2 || bytes[1] != end {
        return None;
    }
    let digit = plain_digit(bytes[0]);
    if digit > 1 {
        return None;
    }
    Some(Bits::of_planes(1, digit, 0))
}

/// The bits of a field of this many digits `0` and `1`, where the bytes begin with it and this byte stands behind it.
#[inline]
fn field(bytes: &[u8], size: u32, end: u8) -> Option<Bits>
    requires some { 1 ≤ size }
    requires at_most_64 { size ≤ 64 }
    ensures field { IfSome result (λ bits. IsField bytes.now size end bits) }
    ensures size { IfSome result (λ bits. length bits ≡ size) }
    ensures within { IfSome result (λ bits. size < length bytes.now) }
{
    if size == 1 {
        bit_field(bytes, end)
    } else {
        run_field(bytes, size, end)
    }
}

/// And the same of a field of any number of digits.
fn run_field(bytes: &[u8], size: u32, end: u8) -> Option<Bits>
    requires some { 1 ≤ size }
    requires at_most_64 { size ≤ 64 }
    ensures field { IfSome result (λ bits. IsField bytes.now size end bits) }
    ensures size { IfSome result (λ bits. length bits ≡ size) }
    ensures within { IfSome result (λ bits. size < length bytes.now) }
{
    let mut digits = Digits::new();
    let count = digits.read(bytes, size as usize);
    if count == size as usize && count < bytes.len() && bytes[count] == end {
        Some(digits.bits())
    } else {
        None
    }
}

/// Reads the fields of the first columns, this many, each with a space behind it, and answers how many bytes they are.
fn read_inputs(columns: &[Column], count: usize, values: &mut [Bits], bytes: &[u8]) -> Option<usize>
    requires each { All (IsColumn (sizes values.old)) columns.now }
    requires count { count ≤ length columns.now }
    ensures sizes { sizes values.new ≡ sizes values.old }
    ensures reads { IfSome result (λ at. ReadsInputs columns.now count at bytes.now values.old values.new) }
    ensures within { IfSome result (λ at. at ≤ length bytes.now) }
{
    let mut at = 0;
    for n in 0..count {
        let column = columns[n];
        values[column.input] = field(&bytes[at..], column.length, b' ')?;
        at += column.length as usize + 1;
    }
    Some(at)
}

/// Reads the fields of all columns, where an LF stands behind the last, and answers how many bytes they are with it.
fn read_inputs_line(columns: &[Column], values: &mut [Bits], bytes: &[u8]) -> Option<usize>
    requires each { All (IsColumn (sizes values.old)) columns.now }
    requires some { 0 < length columns.now }
    ensures sizes { sizes values.new ≡ sizes values.old }
    ensures ends { IfSome result (λ at. EndsInputs columns.now at bytes.now values.old values.new) }
    ensures some { IfSome result (λ at. 0 < at) }
    ensures within { IfSome result (λ at. at ≤ length bytes.now) }
{
    let last = columns.len() - 1;
    let at = read_inputs(columns, last, values, bytes)?;
    let column = columns[last];
    values[column.input] = field(&bytes[at..], column.length, b'\n')?;
    Some(at + column.length as usize + 1)
}

/// Reads the fields of the first expected outputs, this many, each with a space behind it, and answers how many bytes they are.
fn read_expected(
    columns: &[Expected],
    count: usize,
    values: &mut [Wanted],
    bytes: &[u8],
) -> Option<usize>
    requires each { All IsExpected columns.now }
    requires sizes { wanted_sizes values.old ≡ expected_lengths columns.now }
    requires count { count ≤ length columns.now }
    ensures sizes { wanted_sizes values.new ≡ wanted_sizes values.old }
    ensures reads { IfSome result (λ at. ReadsExpected columns.now count at bytes.now values.old values.new) }
    ensures within { IfSome result (λ at. at ≤ length bytes.now) }
{
    let mut at = 0;
    for n in 0..count {
        let size = columns[n].length;
        values[n] = Wanted::exactly(field(&bytes[at..], size, b' ')?);
        at += size as usize + 1;
    }
    Some(at)
}

/// Reads the fields of all expected outputs, where an LF stands behind the last, and answers how many bytes they are with it.
fn read_expected_line(columns: &[Expected], values: &mut [Wanted], bytes: &[u8]) -> Option<usize>
    requires each { All IsExpected columns.now }
    requires sizes { wanted_sizes values.old ≡ expected_lengths columns.now }
    requires some { 0 < length columns.now }
    ensures sizes { wanted_sizes values.new ≡ wanted_sizes values.old }
    ensures ends { IfSome result (λ at. EndsExpected columns.now at bytes.now values.old values.new) }
    ensures within { IfSome result (λ at. at ≤ length bytes.now) }
{
    let last = columns.len() - 1;
    let at = read_expected(columns, last, values, bytes)?;
    let size = columns[last].length;
    values[last] = Wanted::exactly(field(&bytes[at..], size, b'\n')?);
    Some(at + size as usize + 1)
}

/// Whether the bytes begin with the field `->` and a space behind it.
#[inline]
fn is_arrow(bytes: &[u8]) -> bool
    ensures { IsTrue result → IsArrow bytes.now }
{
    bytes.len() >= 3 && bytes[0] == b'-' && bytes[1] == b'>' && bytes[2] == b' '
}

/// Reads a line of plain digits with which the bytes begin, and answers how many bytes it has with its LF. Where there is none, the values
/// are written over in part.
#[tactic(auto, using(crate::proofs::LineRead::inputs_line))]
pub(crate) fn read_line(
    columns: &[Column],
    values: &mut [Bits],
    expected: &[Expected],
    wanted: &mut [Wanted],
    bytes: &[u8],
) -> Option<usize>
    requires each { All (IsColumn (sizes values.old)) columns.now }
    requires some { 0 < length columns.now }
    requires expected { All IsExpected expected.now }
    requires lengths { wanted_sizes wanted.old ≡ expected_lengths expected.now }
    ensures sizes { sizes values.new ≡ sizes values.old }
    ensures wanted { wanted_sizes wanted.new ≡ wanted_sizes wanted.old }
    ensures line { IfSome result (λ count. IsLine columns.now expected.now count bytes.now (record { values = values.old; wanted = wanted.old }) (record { values = values.new; wanted = wanted.new })) }
    ensures some { IfSome result (λ count. 0 < count) }
    ensures within { IfSome result (λ count. count ≤ length bytes.now) }
{
    if expected.is_empty() {
        return read_inputs_line(columns, values, bytes);
    }
    let at = read_inputs(columns, columns.len(), values, bytes)?;
    if !is_arrow(&bytes[at..]) {
        return None;
    }
    let count = read_expected_line(expected, wanted, &bytes[at + 3..])?;
    Some(at + 3 + count)
}

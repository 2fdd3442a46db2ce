//! What a stimulus says of outputs.

ghost use Rattle.std.specs.Prelude.{◌≡◌, ◌<◌, IfOk, IfSome, length, option_map, slice_get};
ghost use Rattle.std.specs.List.{after_first};
ghost use Rattle.vs_rows.specs.Expected as spec;

use crate::fields::{field_at, is_arrow, starts};
use crate::rows::{header_row, row_bytes};
use std::alloc::{AllocError, Global};

/// Whether the field that begins at a byte of a line is `->`.
pub(crate) fn arrow_at(line: &[u8], at: usize) -> bool
    ensures { result ≡ spec.arrow_at line.now at }
{
    is_arrow(field_at(line, at))
}

/// The fields of a line behind the first `->` of these.
pub(crate) fn behind_arrow<'a>(line: &[u8], fields: &'a [usize]) -> &'a [usize]
    ensures { result.now ≡ after_first (spec.arrow_at line.now) fields.now }
{
    let mut end = 0;
    while end < fields.len() && !arrow_at(line, fields[end]) {
        end += 1;
    }
    if end < fields.len() {
        &fields[end + 1..]
    } else {
        &[]
    }
}

/// The n-th of these fields, if there is one.
fn nth(fields: &[usize], n: usize) -> Option<usize>
    ensures { result ≡ slice_get fields.now n }
{
    fields.get(n).copied()
}

/// The byte of a line of a stimulus at which the n-th field behind the first `->` begins, counted from 0: in the header the name of an output, in a vector its
/// digits. None where there are fewer. The only error is that memory ran out.
pub fn expected_at(alloc: Global, line: &[u8], n: usize) -> Result<Option<usize>, AllocError>
    ensures at { IfOk result (λ at. at ≡ spec.expected_at line.now n) }
    ensures within { IfOk result (λ at. IfSome at (λ k. k < length line.now)) }
{
    let fields = starts(alloc, line)?;
    Ok(nth(behind_arrow(line, &fields), n))
}

/// The n-th field of a line behind the first `->`, counted from 0.
fn expected_field(alloc: Global, line: &[u8], n: usize) -> Result<Option<&[u8]>, AllocError>
    ensures { IfOk result (λ field. option_map (λ f. f.now) field ≡ spec.expected_field line.now n) }
{
    match expected_at(alloc, line, n)? {
        Some(at) => Ok(Some(field_at(line, at))),
        None => Ok(None),
    }
}

/// The n-th name behind `->`, counted from 0, as the header of a stimulus has it. None where there are fewer. The only error is that memory ran out.
pub fn expected_name(alloc: Global, text: &[u8], n: usize) -> Result<Option<&[u8]>, AllocError>
    ensures { IfOk result (λ name. option_map (λ f. f.now) name ≡ spec.expected_name text.now n) }
{
    match header_row(text) {
        Some(at) => expected_field(alloc, row_bytes(text, at), n),
        None => Ok(None),
    }
}

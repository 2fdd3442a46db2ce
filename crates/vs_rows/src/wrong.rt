//! The first field of a vector that isn't as the header wants it.

ghost use Rattle.std.specs.Prelude.{◌≡◌, ◌≤◌, false, IfOk, option_map};
ghost use Rattle.std.specs.List.{list_all};
ghost use Rattle.vs_rows.specs.Fields as spec;
ghost use Rattle.vs_rows.specs.Lent.{wrong_of};

use crate::fields::{field_at, is_arrow, is_dash, starts};
use std::alloc::{AllocError, Global};
use vs_names::Drawing;

/// A field of a vector that isn't as it is to be.
#[derive(Drop)]
pub struct Wrong<'a> {
    /// The how manieth of the line's it is, from 1.
    pub place: usize,
    /// The byte of the line at which it begins; the line's length where there is no such field.
    pub at: usize,
    /// What the header has in its place: a name, `->`, or `-` where there are no inputs. Nothing where the header has no more.
    pub name: &'a [u8],
    /// How many bytes it has; 0 where there is no such field.
    pub size: usize,
}

/// The field at a byte, where the header has this in its place.
pub(crate) fn wrong_at<'a>(line: &[u8], place: usize, name: &'a [u8], at: usize) -> Wrong<'a>
    ensures { wrong_of result ≡ spec.wrong_at line.now place name.now at }
{
    Wrong {
        place,
        at,
        name,
        size: field_at(line, at).len(),
    }
}

/// A field behind the last one of a line.
fn missing<'a>(line: &[u8], place: usize, name: &'a [u8]) -> Wrong<'a>
    ensures { wrong_of result ≡ spec.missing line.now place name.now }
{
    Wrong {
        place,
        at: line.len(),
        name,
        size: 0,
    }
}

/// A digit of an input, or of an output that is expected.
fn is_digit(expected: bool, b: u8) -> bool
    ensures { result ≡ spec.is_digit expected b }
{
    matches!(b, b'0' | b'1' | b'x' | b'X' | b'z' | b'Z') || (expected && b == b'-')
}

/// Whether all of these are digits.
fn are_digits(expected: bool, field: &[u8]) -> bool
    ensures { result ≡ list_all (spec.is_digit expected) field.now }
{
    field.iter().all(|b| is_digit(expected, *b))
}

/// Whether a field has as many bytes as the port of this name has bits. Of a name that is no port's nothing is known.
fn fits_port(drawing: Option<&Drawing>, name: &[u8], field: &[u8]) -> bool
    ensures { result ≡ spec.fits_port (option_map (λ d. d.now) drawing.entry) name.now field.now }
{
    match drawing {
        None => true,
        Some(drawing) => match drawing.port_bits(name) {
            None => true,
            Some(bits) => field.len() == bits as usize,
        },
    }
}

/// Whether a field is as this name of the header wants it.
fn fits(drawing: Option<&Drawing>, expected: bool, name: &[u8], field: &[u8]) -> bool
    ensures { result ≡ spec.fits (option_map (λ d. d.now) drawing.entry) expected name.now field.now }
{
    if is_arrow(name) {
        return is_arrow(field);
    }
    fits_port(drawing, name, field) && are_digits(expected, field)
}

/// The first wrong one of these fields, by the names at the same places. The first of them has this place in its line.
fn first_wrong<'a>(
    drawing: Option<&Drawing>,
    header: &'a [u8],
    line: &[u8],
    place: usize,
    names: &[usize],
    fields: &[usize],
) -> Option<Wrong<'a>>
    requires { place ≤ 2 }
    ensures { option_map wrong_of result ≡ spec.first_wrong (option_map (λ d. d.now) drawing.entry) header.now line.now place false names.now fields.now }
{
    let mut expected = false;
    let mut k = 0;
    while k < names.len() && k < fields.len() {
        let name = field_at(header, names[k]);
        let at = fields[k];
        if !fits(drawing, expected, name, field_at(line, at)) {
            return Some(wrong_at(line, place + k, name, at));
        }
        expected = expected || is_arrow(name);
        k += 1;
    }
    if k < names.len() {
        return Some(missing(line, place + k, field_at(header, names[k])));
    }
    if k < fields.len() {
        return Some(wrong_at(line, place + k, &[], fields[k]));
    }
    None
}

/// The same behind the field `-`.
fn wrong_dashed<'a>(
    drawing: Option<&Drawing>,
    header: &'a [u8],
    line: &[u8],
    names: &[usize],
    fields: &[usize],
) -> Option<Wrong<'a>>
    ensures { option_map wrong_of result ≡ spec.wrong_dashed (option_map (λ d. d.now) drawing.entry) header.now line.now names.now fields.now }
{
    match fields {
        [] => Some(missing(line, 1, "-".as_bytes())),
        [at, fields @ ..] => {
            if is_dash(field_at(line, *at)) {
                first_wrong(drawing, header, line, 2, names, fields)
            } else {
                Some(wrong_at(line, 1, "-".as_bytes(), *at))
            }
        }
    }
}

/// Whether there is the name of an input.
fn names_input(header: &[u8], names: &[usize]) -> bool
    ensures { result ≡ spec.names_input header.now names.now }
{
    match names {
        [] => false,
        [name, ..] => !is_arrow(field_at(header, *name)),
    }
}

/// The first field of a line of a stimulus that isn't as its header wants it: it has another number of digits than the port of its name has bits, or a byte that is
/// no digit, or isn't there, or has no name. None where each is as it is to be. The only error is that memory ran out.
pub fn wrong_field<'a>(
    alloc: Global,
    drawing: Option<&Drawing>,
    header: &'a [u8],
    line: &[u8],
) -> Result<Option<Wrong<'a>>, AllocError>
    ensures { IfOk result (λ wrong. option_map wrong_of wrong ≡ spec.wrong_field (option_map (λ d. d.now) drawing.entry) header.now line.now) }
{
    let title = starts(alloc, header)?;
    let fields = starts(alloc, line)?;
    let names = &title[1.min(title.len())..];
    if names_input(header, names) {
        Ok(first_wrong(drawing, header, line, 1, names, &fields))
    } else {
        Ok(wrong_dashed(drawing, header, line, names, &fields))
    }
}

//! The field of a header that is wrong, or what a header lacks.

ghost use Rattle.std.specs.Prelude.{◌≡◌, ◌≤◌, ◌^◌, [], IfOk, get_or, length, option_map};
ghost use Rattle.vs_rows.specs.Lent.{bad_of};
ghost use Rattle.vs_rows.specs.Naming as spec;

use crate::controls::before_arrow;
use crate::expected::behind_arrow;
use crate::fields::{field_at, starts};
use std::alloc::{AllocError, Global};
use vs_stim::{Input, Output, Ports};

/// Why a field of a header is wrong.
#[derive(Clone, Copy, PartialEq, Eq, Debug)]
pub enum NameFault {
    /// The first field isn't `inputs`.
    NoTitle,
    /// A field before `->` is no data input's name.
    NoInput,
    /// A field behind `->` is no output's name.
    NoOutput,
    /// The name stands there before.
    Repeated,
    /// Each field is right, and none names this data input.
    LacksInput,
    /// Each field is right, each data input is named, and behind `->` there is no field.
    LacksOutput,
}

/// What is wrong in a header.
#[derive(Drop)]
pub struct BadName<'a> {
    /// The how manieth of the header's fields it is, from 1.
    pub place: usize,
    /// The byte of the line at which it begins. Where a name lacks it is that of `->`, and the line's length where that is no more or isn't there.
    pub at: usize,
    /// The field; of an input that lacks its name, and nothing of an output that does.
    pub name: &'a [u8],
    /// Why.
    pub fault: NameFault,
}

/// The field `inputs`, with which a header begins.
fn is_title(field: &[u8]) -> bool
    ensures { result ≡ spec.is_title field.now }
{
    field == "inputs".as_bytes()
}

/// Whether one of these data inputs has this name.
fn is_input(inputs: &[Input], name: &[u8]) -> bool
    ensures { result ≡ spec.is_input inputs.now name.now }
{
    inputs.iter().any(|input| name == input.name.as_slice())
}

/// Whether one of these outputs has this name.
fn is_output(outputs: &[Output], name: &[u8]) -> bool
    ensures { result ≡ spec.is_output outputs.now name.now }
{
    outputs.iter().any(|output| name == output.name.as_slice())
}

/// Whether a data input has this name, or where outputs are expected an output.
fn is_port(ports: &Ports, expected: bool, name: &[u8]) -> bool
    ensures { result ≡ spec.is_port ports.now expected name.now }
{
    if expected {
        is_output(ports.outputs(), name)
    } else {
        is_input(ports.inputs(), name)
    }
}

/// Whether one of the fields of a header that begin at these bytes is this name.
fn is_named(header: &[u8], starts: &[usize], name: &[u8]) -> bool
    ensures { result ≡ spec.is_named header.now starts.now name.now }
{
    starts.iter().any(|at| name == field_at(header, *at))
}

/// No port has the name.
fn no_port(expected: bool) -> NameFault
    ensures { result ≡ spec.no_port expected }
{
    if expected {
        NameFault::NoOutput
    } else {
        NameFault::NoInput
    }
}

/// What is wrong with a name that stands behind these.
fn fault_of(
    ports: &Ports,
    expected: bool,
    header: &[u8],
    before: &[usize],
    name: &[u8],
) -> Option<NameFault>
    ensures { result ≡ spec.fault_of ports.now expected header.now before.now name.now }
{
    if !is_port(ports, expected, name) {
        return Some(no_port(expected));
    }
    if is_named(header, before, name) {
        Some(NameFault::Repeated)
    } else {
        None
    }
}

/// The field of a header at a byte.
fn bad_at(header: &[u8], place: usize, at: usize, fault: NameFault) -> BadName<'_>
    ensures { bad_of result ≡ spec.bad_at header.now place at fault }
{
    BadName {
        place,
        at,
        name: field_at(header, at),
        fault,
    }
}

/// The first of these names of a header that is wrong. The first of them has this place in the header.
fn first_bad<'a>(
    ports: &Ports,
    expected: bool,
    header: &'a [u8],
    place: usize,
    names: &[usize],
) -> Option<BadName<'a>>
    requires { place ≤ 2 ^ 62 }
    ensures { option_map bad_of result ≡ spec.first_bad ports.now expected header.now place [] names.now }
{
    for k in 0..names.len() {
        let at = names[k];
        if let Some(fault) = fault_of(ports, expected, header, &names[..k], field_at(header, at)) {
            return Some(bad_at(header, place + k, at, fault));
        }
    }
    None
}

/// The first of these data inputs that no field names.
fn unnamed<'a>(header: &[u8], starts: &[usize], inputs: &'a [Input]) -> Option<&'a [u8]>
    ensures { option_map (λ name. name.now) result ≡ spec.unnamed header.now starts.now inputs.now }
{
    for input in inputs {
        let name = input.name.as_slice();
        if !is_named(header, starts, name) {
            return Some(name);
        }
    }
    None
}

/// What lacks at a byte, if a name does.
fn lacks_at(place: usize, at: usize, fault: NameFault, name: Option<&[u8]>) -> Option<BadName<'_>>
    ensures { option_map bad_of result ≡ spec.lacks_at place at fault (option_map (λ name. name.now) name.entry) }
{
    match name {
        None => None,
        Some(name) => Some(BadName {
            place,
            at,
            name,
            fault,
        }),
    }
}

/// Where the field behind so many of these begins, or else the end of the line.
fn end_of(header: &[u8], names: &[usize], count: usize) -> usize
    ensures { result ≡ get_or names.now count (length header.now) }
{
    if count < names.len() {
        names[count]
    } else {
        header.len()
    }
}

/// A data input that isn't named, of which the fields are these up to `->` or to the line's end.
fn lacking_input<'a>(
    ports: &'a Ports,
    header: &[u8],
    names: &[usize],
    inputs: &[usize],
) -> Option<BadName<'a>>
    ensures { option_map bad_of result ≡ spec.lacking_input ports.now header.now names.now (length inputs.now) inputs.now }
{
    let at = end_of(header, names, inputs.len());
    lacks_at(
        inputs.len() + 2,
        at,
        NameFault::LacksInput,
        unnamed(header, inputs, ports.inputs()),
    )
}

/// An output behind the last field, where that is `->`.
fn lacking_output<'a>(header: &'a [u8], names: &[usize], count: usize) -> Option<BadName<'a>>
    requires { count ≤ 2 ^ 62 }
    ensures { option_map bad_of result ≡ spec.lacking_output header.now names.now count }
{
    if count + 1 != names.len() {
        return None;
    }
    lacks_at(count + 3, header.len(), NameFault::LacksOutput, Some(&[]))
}

/// What lacks in a header of which each field is right.
fn lacking<'a>(
    ports: &'a Ports,
    header: &'a [u8],
    names: &[usize],
    inputs: &[usize],
) -> Option<BadName<'a>>
    ensures { option_map bad_of result ≡ spec.lacking ports.now header.now names.now inputs.now }
{
    match lacking_input(ports, header, names, inputs) {
        Some(bad) => Some(bad),
        None => lacking_output(header, names, inputs.len()),
    }
}

/// The first name of a header that is wrong, where these begin before `->`.
fn bad_names<'a>(
    ports: &Ports,
    header: &'a [u8],
    names: &[usize],
    inputs: &[usize],
) -> Option<BadName<'a>>
    ensures { option_map bad_of result ≡ spec.bad_names ports.now header.now names.now inputs.now }
{
    match first_bad(ports, false, header, 2, inputs) {
        Some(bad) => Some(bad),
        None => first_bad(
            ports,
            true,
            header,
            inputs.len() + 3,
            behind_arrow(header, names),
        ),
    }
}

/// What is wrong with the fields behind `inputs`, of which these are before `->`.
fn bad_among<'a>(
    ports: &'a Ports,
    header: &'a [u8],
    names: &[usize],
    inputs: &[usize],
) -> Option<BadName<'a>>
    ensures { option_map bad_of result ≡ spec.bad_among ports.now header.now names.now inputs.now }
{
    match bad_names(ports, header, names, inputs) {
        Some(bad) => Some(bad),
        None => lacking(ports, header, names, inputs),
    }
}

/// What is wrong with the fields of a header, which begin at these bytes.
fn bad_fields<'a>(ports: &'a Ports, header: &'a [u8], starts: &[usize]) -> Option<BadName<'a>>
    ensures { option_map bad_of result ≡ spec.bad_fields ports.now header.now starts.now }
{
    match starts {
        [] => Some(bad_at(header, 1, header.len(), NameFault::NoTitle)),
        [first, names @ ..] => {
            if is_title(field_at(header, *first)) {
                bad_among(ports, header, names, before_arrow(header, names))
            } else {
                Some(bad_at(header, 1, *first, NameFault::NoTitle))
            }
        }
    }
}

/// The first field of a line of a stimulus that keeps it from being a header for these ports: `inputs` isn't its first field, or a field before `->` is no data
/// input's name, or one behind `->` no output's, or stands there before. Where each is right, the first data input that none names, and else the output that lacks
/// behind `->`. None where the line is a header. The only error is that memory ran out.
pub fn bad_name<'a>(
    alloc: Global,
    ports: &'a Ports,
    header: &'a [u8],
) -> Result<Option<BadName<'a>>, AllocError>
    ensures { IfOk result (λ bad. option_map bad_of bad ≡ spec.bad_name ports.now header.now) }
{
    let starts = starts(alloc, header)?;
    Ok(bad_fields(ports, header, &starts))
}

//! The field of a vector that leaves a reset input or a select input unknown.

ghost use Rattle.std.specs.Prelude.{◌≡◌, IfOk, option_map};
ghost use Rattle.std.specs.List.{before_first};
ghost use Rattle.vs_rows.specs.Expected.{arrow_at as arrow};
ghost use Rattle.vs_rows.specs.Lent.{wrong_of};
ghost use Rattle.vs_rows.specs.Controls as spec;

use crate::Wrong;
use crate::expected::arrow_at;
use crate::fields::{field_at, starts};
use crate::rows::is_unknown;
use crate::wrong::wrong_at;
use std::alloc::{AllocError, Global};
use vs_stim::Input;

/// What an input is whose digits have to be known in every vector.
#[derive(Clone, Copy, PartialEq, Eq, Debug)]
pub enum Control {
    /// A reset input: a vector behind the first with an unknown digit of it is refused as UnknownReset.
    Reset,
    /// A select input: such a vector is refused as UnknownSelect.
    Select,
}

impl Control {
    /// Whether an input is one.
    fn is(self, input: &Input) -> bool
        ensures { result ≡ spec.is_one self input.now }
    {
        match self {
            Control::Reset => input.reset,
            Control::Select => input.select,
        }
    }
}

/// The fields of a line before the first `->` of these.
pub(crate) fn before_arrow<'a>(line: &[u8], fields: &'a [usize]) -> &'a [usize]
    ensures { result.now ≡ before_first (arrow line.now) fields.now }
{
    let mut end = 0;
    while end < fields.len() && !arrow_at(line, fields[end]) {
        end += 1;
    }
    &fields[..end]
}

/// Whether this is the name of such an input.
fn is_control(control: Control, inputs: &[Input], name: &[u8]) -> bool
    ensures { result ≡ spec.is_control control inputs.now name.now }
{
    inputs
        .iter()
        .any(|input| control.is(input) && name == input.name.as_slice())
}

/// Whether a field has a digit x or z.
fn has_unknown(field: &[u8]) -> bool
    ensures { result ≡ spec.has_unknown field.now }
{
    field.iter().any(|b| is_unknown(*b))
}

/// The first of these fields of a line that has a digit x or z where the name at the same place of the header is that of such an input.
fn first_control<'a>(
    control: Control,
    inputs: &[Input],
    header: &'a [u8],
    line: &[u8],
    names: &[usize],
    fields: &[usize],
) -> Option<Wrong<'a>>
    ensures { option_map wrong_of result ≡ spec.first_control control inputs.now header.now line.now 1 names.now fields.now }
{
    let mut k = 0;
    while k < names.len() && k < fields.len() {
        let name = field_at(header, names[k]);
        let at = fields[k];
        if is_control(control, inputs, name) && has_unknown(field_at(line, at)) {
            return Some(wrong_at(line, 1 + k, name, at));
        }
        k += 1;
    }
    None
}

/// The first field of a line of a stimulus whose name in the header is that of one of these inputs that is a reset input, or a select input, as asked, and that has a
/// digit x or z. None where there is none. The only error is that memory ran out.
pub fn wrong_control<'a>(
    alloc: Global,
    control: Control,
    inputs: &[Input],
    header: &'a [u8],
    line: &[u8],
) -> Result<Option<Wrong<'a>>, AllocError>
    ensures { IfOk result (λ wrong. option_map wrong_of wrong ≡ spec.wrong_control control inputs.now header.now line.now) }
{
    let title = starts(alloc, header)?;
    let fields = starts(alloc, line)?;
    let names = before_arrow(header, &title[1.min(title.len())..]);
    Ok(first_control(control, inputs, header, line, names, &fields))
}

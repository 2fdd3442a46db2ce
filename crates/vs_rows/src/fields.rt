//! The fields of a line of a stimulus.

ghost use Rattle.std.specs.Prelude.{◌≡◌, ◌<◌, IfOk, length};
ghost use Rattle.std.specs.List.{before_first};
ghost use Rattle.vs_rows.specs.Rows.{is_blank as blank};
ghost use Rattle.vs_rows.specs.Fields as spec;

use crate::rows::is_blank;
use std::alloc::{AllocError, Global};

/// Whether a field begins at a byte of a line.
fn field_begins(line: &[u8], at: usize) -> bool
    requires { at < length line.now }
    ensures { result ≡ spec.field_begins line.now at }
{
    !is_blank(line[at]) && (at == 0 || is_blank(line[at - 1]))
}

/// The bytes at which the fields of a line begin.
pub(crate) fn starts(alloc: Global, line: &[u8]) -> Result<Vec<usize>, AllocError>
    ensures { IfOk result (λ starts. starts.items ≡ spec.starts line.now) }
{
    let mut starts = Vec::new(alloc);
    for at in 0..line.len() {
        if field_begins(line, at) {
            starts.push(at)?;
        }
    }
    Ok(starts)
}

/// What stands before the first blank.
fn first_word(text: &[u8]) -> &[u8]
    ensures { result.now ≡ before_first blank text.now }
{
    let mut end = 0;
    while end < text.len() && !is_blank(text[end]) {
        end += 1;
    }
    &text[..end]
}

/// The field that begins at a byte of a line.
pub(crate) fn field_at(line: &[u8], at: usize) -> &[u8]
    ensures { result.now ≡ spec.field_at line.now at }
{
    first_word(&line[at.min(line.len())..])
}

/// The field `->`.
pub(crate) fn is_arrow(field: &[u8]) -> bool
    ensures { result ≡ spec.is_arrow field.now }
{
    field == "->".as_bytes()
}

/// Whether this is a mark of the header's, `->` or `-`, and no name.
pub fn is_mark(field: &[u8]) -> bool
    ensures { result ≡ spec.is_mark field.now }
{
    is_arrow(field) || is_dash(field)
}

/// The field `-`.
pub(crate) fn is_dash(field: &[u8]) -> bool
    ensures { result ≡ spec.is_dash field.now }
{
    field == "-".as_bytes()
}

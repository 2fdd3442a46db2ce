//! Where a byte of a text stands for a reader.

ghost use Rattle.std.specs.Prelude.{◌≡◌, ◌≤◌, length};
ghost use Rattle.std.specs.List.{before_first, after_last};
ghost use Rattle.vs_excerpt.specs.Positions as spec;

/// LF or CR.
fn is_line_end(b: u8) -> bool
    ensures { result ≡ spec.is_line_end b }
{
    b == b'\n' || b == b'\r'
}

/// What stands behind the last newline.
fn last_line(text: &[u8]) -> &[u8]
    ensures { result.now ≡ after_last spec.is_newline text.now }
{
    let mut start = text.len();
    while start > 0 && text[start - 1] != b'\n' {
        start -= 1;
    }
    &text[start..]
}

/// What stands before the first LF or CR.
fn first_line(text: &[u8]) -> &[u8]
    ensures { result.now ≡ before_first spec.is_line_end text.now }
{
    let mut end = 0;
    while end < text.len() && !is_line_end(text[end]) {
        end += 1;
    }
    &text[..end]
}

/// The number of the line of a byte, from 1: one more than the newlines before it.
pub fn line_number(text: &[u8], at: usize) -> usize
    requires { at ≤ length text.now }
    ensures { result ≡ spec.line_number text.now at }
{
    text[..at].iter().filter(|b| **b == b'\n').count() + 1
}

/// What stands before a byte on its line.
pub fn line_before(text: &[u8], at: usize) -> &[u8]
    requires { at ≤ length text.now }
    ensures { result.now ≡ spec.line_before text.now at }
{
    last_line(&text[..at])
}

/// A byte and what stands behind it on its line, up to a CR or the line's end.
pub fn line_behind(text: &[u8], at: usize) -> &[u8]
    requires { at ≤ length text.now }
    ensures { result.now ≡ spec.line_behind text.now at }
{
    first_line(&text[at..])
}

/// The column of a byte, from 1: one more than the bytes before it on its line.
pub fn column(text: &[u8], at: usize) -> usize
    requires { at ≤ length text.now }
    ensures { result ≡ spec.column text.now at }
{
    line_before(text, at).len() + 1
}

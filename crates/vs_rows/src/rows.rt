//! Lines of a stimulus that count.

ghost use Rattle.std.specs.Prelude.{◌≡◌, ◌<◌, ◌≤◌, IfSome, length};
ghost use Rattle.std.specs.List.{before_first};
ghost use Rattle.vs_excerpt.specs.Positions.{is_newline};
ghost use Rattle.vs_rows.specs.Rows as spec;

/// Space or tab.
pub(crate) fn is_blank(b: u8) -> bool
    ensures { result ≡ spec.is_blank b }
{
    b == b' ' || b == b'\t'
}

/// A text behind the blanks at its front.
fn behind_blanks(text: &[u8]) -> &[u8]
    ensures { result.now ≡ spec.behind_blanks text.now }
{
    let mut start = 0;
    while start < text.len() && is_blank(text[start]) {
        start += 1;
    }
    &text[start..]
}

/// Whether an LF stands at the front.
fn is_ended(text: &[u8]) -> bool
    ensures { result ≡ spec.is_ended text.now }
{
    match text {
        [] => false,
        [b, ..] => *b == b'\n',
    }
}

/// Whether the end of a text or of a line stands at the front, or the `#` of a comment.
fn is_silent(text: &[u8]) -> bool
    ensures { result ≡ spec.is_silent text.now }
{
    match text {
        [] => true,
        [b, rest @ ..] => *b == b'\n' || *b == b'#' || (*b == b'\r' && is_ended(rest)),
    }
}

/// Whether a line begins at a byte.
fn line_begins(text: &[u8], at: usize) -> bool
    requires { at < length text.now }
    ensures { result ≡ spec.line_begins text.now at }
{
    at == 0 || text[at - 1] == b'\n'
}

/// Whether a line that counts begins at a byte.
fn row_begins(text: &[u8], at: usize) -> bool
    requires { at < length text.now }
    ensures { result ≡ spec.row_begins text.now at }
{
    line_begins(text, at) && !is_silent(behind_blanks(&text[at..]))
}

/// The first byte from this one on at which a line begins that counts.
fn row_from(text: &[u8], from: usize) -> Option<usize>
    ensures row { result ≡ spec.row_from text.now from }
    ensures within { IfSome result (λ at. at < length text.now) }
{
    for at in from..text.len() {
        if row_begins(text, at) {
            return Some(at);
        }
    }
    None
}

/// The byte at which the header of a stimulus begins: the first line that is neither blank nor a comment. None where there is none.
pub fn header_row(text: &[u8]) -> Option<usize>
    ensures row { result ≡ spec.header_row text.now }
    ensures within { IfSome result (λ at. at < length text.now) }
{
    row_from(text, 0)
}

/// The byte at which the first vector of a stimulus begins: the second line that is neither blank nor a comment. None where there is none.
fn first_vector_row(text: &[u8]) -> Option<usize>
    ensures row { result ≡ spec.first_vector_row text.now }
    ensures within { IfSome result (λ at. at < length text.now) }
{
    row_from(text, header_row(text)? + 1)
}

/// LF, which ends a line.
fn is_lf(b: u8) -> bool
    ensures { result ≡ is_newline b }
{
    b == b'\n'
}

/// What stands before the first LF.
fn first_line(text: &[u8]) -> &[u8]
    ensures { result.now ≡ before_first is_newline text.now }
{
    let mut end = 0;
    while end < text.len() && !is_lf(text[end]) {
        end += 1;
    }
    &text[..end]
}

/// A line without one CR at its end.
fn without_cr(line: &[u8]) -> &[u8]
    ensures { result.now ≡ spec.without_cr line.now }
{
    if !line.is_empty() && line[line.len() - 1] == b'\r' {
        &line[..line.len() - 1]
    } else {
        line
    }
}

/// What the line of a stimulus says that begins at a byte: its bytes before the LF, without one CR before that. A CR that stands elsewhere is one of them.
pub fn row_bytes(text: &[u8], at: usize) -> &[u8]
    requires { at ≤ length text.now }
    ensures { result.now ≡ spec.row_bytes text.now at }
{
    let rest = &text[at..];
    let line = first_line(rest);
    if line.len() < rest.len() {
        without_cr(line)
    } else {
        line
    }
}

/// A digit of no known bit: x or z.
pub(crate) fn is_unknown(b: u8) -> bool
    ensures { result ≡ spec.is_unknown b }
{
    matches!(b, b'x' | b'X' | b'z' | b'Z')
}

/// Where the first x or z digit of a line stands.
fn unknown_in(line: &[u8]) -> Option<usize>
    ensures unknown { result ≡ spec.unknown_in line.now }
    ensures within { IfSome result (λ at. at < length line.now) }
{
    for at in 0..line.len() {
        if is_unknown(line[at]) {
            return Some(at);
        }
    }
    None
}

/// The byte at which the first x or z digit stands in the first vector of a stimulus. None where there is none, or no vector.
pub fn first_unknown(text: &[u8]) -> Option<usize>
    ensures { result ≡ spec.first_unknown text.now }
{
    let at = first_vector_row(text)?;
    Some(at + unknown_in(row_bytes(text, at))?)
}

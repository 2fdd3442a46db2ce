//! The macros that words define, and the lines for them.

ghost use Rattle.std.specs.Prelude.{◌≡◌, ◌++◌, map, option_map, nat_le, length, IfOk, string_bytes};
ghost use Rattle.std.specs.List.{list_all};
ghost use Rattle.vs_job.specs.Job as spec;

use crate::text::Text;
use crate::words::name_and_value;
use std::alloc::{AllocError, Global};

/// How many macros are defined at most.
pub(crate) const MOST_DEFINES: usize = 64;

/// How many bytes their lines have at most.
const MOST_HEAD: usize = 65_536;

/// How many bytes a line has beside its value.
const FRAME: usize = 9;

/// Whether the byte is a letter or `_`.
fn is_letter(byte: u8) -> bool
    ensures { result ≡ spec.is_letter byte }
{
    (b'A' <= byte && byte <= b'Z') || (b'a' <= byte && byte <= b'z') || byte == b'_'
}

/// Whether the byte is a letter, a digit, `_` or `$`.
fn is_name_byte(byte: u8) -> bool
    ensures { result ≡ spec.is_name_byte byte }
{
    is_letter(byte) || (b'0' <= byte && byte <= b'9') || byte == b'$'
}

/// Whether all of these may go on with a name.
fn are_name_bytes(bytes: &[u8]) -> bool
    ensures { result ≡ list_all spec.is_name_byte bytes.now }
{
    bytes.iter().all(|byte| is_name_byte(*byte))
}

/// Whether the text is a simple identifier.
fn is_identifier(text: &[u8]) -> bool
    ensures { result ≡ spec.is_identifier text.now }
{
    match text.split_first() {
        None => false,
        Some((first, rest)) => is_letter(*first) && are_name_bytes(rest),
    }
}

/// Whether the byte may stand in a macro's text: it is printable, and no `\`.
fn is_body_byte(byte: u8) -> bool
    ensures { result ≡ spec.is_body_byte byte }
{
    32 <= byte && byte <= 126 && byte != b'\\'
}

/// Whether all of these may stand in a macro's text.
fn are_body_bytes(bytes: &[u8]) -> bool
    ensures { result ≡ list_all spec.is_body_byte bytes.now }
{
    bytes.iter().all(|byte| is_body_byte(*byte))
}

/// Whether the text begins with `*`.
fn begins_with_star(text: &[u8]) -> bool
    ensures { result ≡ spec.begins_with_star text.now }
{
    match text.split_first() {
        None => false,
        Some((first, _)) => *first == b'*',
    }
}

/// Whether the text has `/*`.
fn has_comment(text: &[u8]) -> bool
    ensures { result ≡ spec.has_comment text.now }
{
    let mut left = text;
    while let Some((first, rest)) = left.split_first() {
        if *first == b'/' && begins_with_star(rest) {
            return true;
        }
        left = rest;
    }
    false
}

/// Whether a macro's text is missing, or ends with its line.
fn is_body_given(body: Option<&str>) -> bool
    ensures { result ≡ spec.is_body_given (option_map (λ s. s.now) body.entry) }
{
    match body {
        None => true,
        Some(body) => are_body_bytes(body.as_bytes()) && !has_comment(body.as_bytes()),
    }
}

/// Whether the value defines a macro.
fn is_define(value: &str) -> bool
    ensures { result ≡ spec.is_define value.now }
{
    let (name, body) = name_and_value(value);
    is_identifier(name.as_bytes()) && is_body_given(body)
}

/// Whether each of the values defines a macro.
fn define_all(values: &[&str]) -> bool
    ensures { result ≡ list_all (λ s. spec.is_define s.now) values.now }
{
    values.iter().all(|value| is_define(*value))
}

/// Whether the lines of the values have 65,536 bytes at most.
fn are_short(values: &[&str]) -> bool
    ensures { result ≡ nat_le (length (spec.head_of (map (λ s. s.now) values.now))) spec.most_head }
{
    let mut room = MOST_HEAD;
    for value in values {
        if room < FRAME || room - FRAME < value.len() {
            return false;
        }
        room = room - FRAME - value.len();
    }
    true
}

/// Whether each of the values defines a macro, and their lines have 65,536 bytes at most.
pub(crate) fn are_defines(values: &[&str]) -> bool
    ensures { result ≡ spec.are_defines (map (λ s. s.now) values.now) }
{
    define_all(values) && are_short(values)
}

/// Appends what stands behind a macro's name.
fn push_body(line: &mut String, body: Option<&str>) -> Result<(), AllocError>
    ensures { IfOk result (λ _. string_bytes line.new ≡ string_bytes line.old ++ spec.body_text (option_map (λ s. s.now) body.entry)) }
{
    match body {
        None => Ok(()),
        Some(body) => {
            line.push_str(" ")?;
            line.push_str(body)
        }
    }
}

/// Appends the line that defines a macro.
fn push_define(head: &mut String, value: &str) -> Result<(), AllocError>
    ensures { IfOk result (λ _. string_bytes head.new ≡ string_bytes head.old ++ spec.define_line value.now) }
{
    let (name, body) = name_and_value(value);
    head.push_str("`define ")?;
    head.push_str(name)?;
    push_body(head, body)?;
    head.push_str("\n")
}

/// A line for each of the values.
pub(crate) fn head_of(alloc: Global, values: &[&str]) -> Result<Text, AllocError>
    ensures { IfOk result (λ head. head ≡ spec.head_of (map (λ s. s.now) values.now)) }
{
    let mut head = String::new(alloc);
    for value in values {
        push_define(&mut head, *value)?;
    }
    Ok(Text::of(head))
}

//! Lines of a stimulus.

ghost use Rattle.std.specs.Prelude.{◌≡◌, ◌++◌, ◌<◌, ◌^◌, OnOk, IfOk, option_map};
ghost use Rattle.vs_explanation.specs.Rows as spec;
ghost use Rattle.vs_explanation.specs.Seen.{seen_of};
ghost use Rattle.vs_rows.specs.Lent.{bad_of as lent_name, wrong_of as lent};
ghost use Rattle.vs_names.specs.Drawn.{port_bits as bits};

use crate::Seen;
use crate::headers::{header_at, refuses_header};
use crate::naming::{push_control, push_right};
use crate::placed::{push_caret, push_position};
use std::alloc::{AllocError, Global};
use vs_excerpt::{Page, push_excerpt};
use vs_names::Drawing;
use vs_refusal::{LaneName, LineName, Refusal};
use vs_rows::{
    BadName, Control, Wrong, first_unknown, header_row, is_mark, row_bytes, wrong_control,
    wrong_field,
};
use vs_stim::Ports;

/// What stands behind the first newline, where there is one.
fn behind_newline(text: &[u8]) -> Option<&[u8]>
    ensures { option_map (λ t. t.now) result ≡ spec.behind_newline text.now }
{
    let mut end = 0;
    while end < text.len() {
        if text[end] == b'\n' {
            return Some(&text[end + 1..]);
        }
        end += 1;
    }
    None
}

/// What stands behind the first n newlines, where there are as many.
fn behind_newlines(text: &[u8], n: u64) -> Option<&[u8]>
    ensures { option_map (λ t. t.now) result ≡ spec.behind_newlines n text.now }
{
    let mut rest = text;
    let mut left = n;
    while left > 0 {
        rest = behind_newline(rest)?;
        left -= 1;
    }
    Some(rest)
}

/// The text of a file from its line n on, counted from 1.
pub(crate) fn from_line(file: Option<&[u8]>, n: u64) -> Option<&[u8]>
    ensures { option_map (λ t. t.now) result ≡ spec.from_line (option_map (λ t. t.now) file.entry) n }
{
    behind_newlines(file?, n.saturating_sub(1))
}

/// What is said of a line that can't be shown.
const UNSHOWN: &str = "note: the line can't be shown again\n";

/// Adds a line of a stimulus with a caret below a byte of it.
pub(crate) fn push_row(page: &mut Page, line: Option<&[u8]>, at: usize) -> Result<(), AllocError>
    ensures { OnOk result (page.new ≡ page.old ++ spec.row_text (option_map (λ t. t.now) line.entry) at) }
{
    match line {
        Some(text) => push_excerpt(page, text, at.min(text.len())),
        None => page.text(UNSHOWN),
    }
}

/// Whether the fields of a line are refused, so that one of them is wrong.
pub fn refuses_fields(refusal: &Refusal) -> bool
    ensures { result ≡ spec.refuses_fields refusal.now }
{
    matches!(refusal, Refusal::Line(LineName::BadVector, _, _))
}

/// Of a line that is refused for an unknown digit of a reset input or a select input, which of the two.
fn refused_control(refusal: &Refusal) -> Option<Control>
    ensures { result ≡ spec.refused_control refusal.now }
{
    match refusal {
        Refusal::Line(LineName::UnknownReset, _, _) => Some(Control::Reset),
        Refusal::Line(LineName::UnknownSelect, _, _) => Some(Control::Select),
        _ => None,
    }
}

/// Whether names of a stimulus are held against the ports of the accepted design, for what is wrong in its header or leaves a reset input or a select input unknown.
pub fn asks_ports(refusal: &Refusal) -> bool
    ensures { result ≡ spec.asks_ports refusal.now }
{
    refuses_header(refusal) || refused_control(refusal).is_some()
}

/// The first field that isn't as the stimulus's header wants it, of the line with which a text begins.
fn wrong_under<'a>(
    alloc: Global,
    drawing: Option<&Drawing>,
    file: &'a [u8],
    line: &[u8],
) -> Result<Option<Wrong<'a>>, AllocError>
    ensures { IfOk result (λ wrong. option_map lent wrong ≡ spec.wrong_under (option_map (λ d. d.now) drawing.entry) file.now line.now) }
{
    match header_row(file) {
        None => Ok(None),
        Some(at) => wrong_field(alloc, drawing, row_bytes(file, at), row_bytes(line, 0)),
    }
}

/// The same of a line and a file that may have been seen.
fn wrong_seen<'a>(
    alloc: Global,
    drawing: Option<&Drawing>,
    file: Option<&'a [u8]>,
    line: Option<&[u8]>,
) -> Result<Option<Wrong<'a>>, AllocError>
    ensures { IfOk result (λ wrong. option_map lent wrong ≡ spec.wrong_seen (option_map (λ d. d.now) drawing.entry) (option_map (λ t. t.now) file.entry) (option_map (λ t. t.now) line.entry)) }
{
    match (file, line) {
        (Some(file), Some(line)) => wrong_under(alloc, drawing, file, line),
        _ => Ok(None),
    }
}

/// The first field that leaves such an input unknown, of the line with which a text begins.
fn control_under<'a>(
    alloc: Global,
    control: Control,
    ports: &Ports,
    file: &'a [u8],
    line: &[u8],
) -> Result<Option<Wrong<'a>>, AllocError>
    ensures { IfOk result (λ wrong. option_map lent wrong ≡ spec.control_under control ports.now file.now line.now) }
{
    match header_row(file) {
        None => Ok(None),
        Some(at) => wrong_control(
            alloc,
            control,
            ports.inputs(),
            row_bytes(file, at),
            row_bytes(line, 0),
        ),
    }
}

/// The same of ports, a line and a file that may have been seen.
fn control_seen<'a>(
    alloc: Global,
    control: Control,
    ports: Option<&Ports>,
    file: Option<&'a [u8]>,
    line: Option<&[u8]>,
) -> Result<Option<Wrong<'a>>, AllocError>
    ensures { IfOk result (λ wrong. option_map lent wrong ≡ spec.control_seen control (option_map (λ p. p.now) ports.entry) (option_map (λ t. t.now) file.entry) (option_map (λ t. t.now) line.entry)) }
{
    match (ports, file, line) {
        (Some(ports), Some(file), Some(line)) => control_under(alloc, control, ports, file, line),
        _ => Ok(None),
    }
}

/// Of a line with a field that is refused, that one.
pub(crate) fn wrong_of<'a>(
    alloc: Global,
    refusal: &Refusal,
    seen: &Seen<'a>,
    line: Option<&[u8]>,
) -> Result<Option<Wrong<'a>>, AllocError>
    ensures { IfOk result (λ wrong. option_map lent wrong ≡ spec.wrong_of refusal.now (seen_of seen.now) (option_map (λ t. t.now) line.entry)) }
{
    if refuses_fields(refusal) {
        return wrong_seen(alloc, seen.drawing, seen.file, line);
    }
    match refused_control(refusal) {
        Some(control) => control_seen(alloc, control, seen.ports, seen.file, line),
        None => Ok(None),
    }
}

/// The byte of the line at which a wrong field begins; the first where there is none.
fn wrong_byte(wrong: &Option<Wrong<'_>>) -> usize
    ensures { result ≡ spec.wrong_byte (option_map lent wrong.now) }
{
    match wrong {
        Some(wrong) => wrong.at,
        None => 0,
    }
}

/// The byte of the line at which a refusal is told, where this is seen from that line on.
pub(crate) fn row_at(line: Option<&[u8]>, wrong: &Option<Wrong<'_>>) -> usize
    ensures at { result ≡ spec.row_at (option_map (λ t. t.now) line.entry) (option_map lent wrong.now) }
    ensures small { result < 2 ^ 63 }
{
    match line {
        None => 0,
        Some(text) => wrong_byte(wrong).min(text.len()),
    }
}

/// What a field has that has as many bytes as its port has bits, or of whose port nothing is known.
const NO_DIGIT: &str = "a byte that is no digit\n";

/// Adds how many digits a field has, and how many are wanted.
fn push_sizes(page: &mut Page, size: u64, bits: u64) -> Result<(), AllocError>
    ensures { OnOk result (page.new ≡ page.old ++ spec.sizes_text size bits) }
{
    page.number(size)?;
    page.text(" digits, and ")?;
    page.number(bits)?;
    page.text(" are wanted\n")
}

/// Adds what a field has, where a port has so many bits.
fn push_digits(page: &mut Page, bits: Option<u32>, size: usize) -> Result<(), AllocError>
    ensures { OnOk result (page.new ≡ page.old ++ spec.digits_text bits size) }
{
    match bits {
        None => {
            if size == 0 {
                page.text("no digits\n")
            } else {
                page.text(NO_DIGIT)
            }
        }
        Some(bits) => {
            if size == bits as usize {
                page.text(NO_DIGIT)
            } else {
                push_sizes(page, size as u64, u64::from(bits))
            }
        }
    }
}

/// The bits of the port of this name, where there is a design.
fn port_bits(drawing: Option<&Drawing>, name: &[u8]) -> Option<u32>
    ensures { result ≡ bits (option_map (λ d. d.now) drawing.entry) name.now }
{
    drawing?.port_bits(name)
}

/// Adds that a field has to be a mark.
fn push_mark(page: &mut Page, mark: &[u8]) -> Result<(), AllocError>
    ensures { OnOk result (page.new ≡ page.old ++ spec.mark_text mark.now) }
{
    page.text(" has to be ")?;
    page.escaped(mark)?;
    page.text("\n")
}

/// Adds what is wrong with a field in whose place the header has this.
fn push_named(
    page: &mut Page,
    drawing: Option<&Drawing>,
    name: &[u8],
    size: usize,
) -> Result<(), AllocError>
    ensures { OnOk result (page.new ≡ page.old ++ spec.named_text (option_map (λ d. d.now) drawing.entry) name.now size) }
{
    if is_mark(name) {
        return push_mark(page, name);
    }
    page.text(", ")?;
    page.escaped(name)?;
    page.text(", has ")?;
    push_digits(page, port_bits(drawing, name), size)
}

/// Adds what is wrong with a field.
fn push_problem(
    page: &mut Page,
    drawing: Option<&Drawing>,
    name: &[u8],
    size: usize,
) -> Result<(), AllocError>
    ensures { OnOk result (page.new ≡ page.old ++ spec.problem_text (option_map (λ d. d.now) drawing.entry) name.now size) }
{
    match name {
        [] => page.text(" has no name in the header\n"),
        [_, ..] => push_named(page, drawing, name, size),
    }
}

/// Adds which field of a line is wrong, and why.
fn push_wrong(
    page: &mut Page,
    drawing: Option<&Drawing>,
    wrong: &Wrong<'_>,
) -> Result<(), AllocError>
    ensures { OnOk result (page.new ≡ page.old ++ spec.wrong_text (option_map (λ d. d.now) drawing.entry) (lent wrong.now)) }
{
    page.text("note: field ")?;
    page.number(wrong.place as u64)?;
    push_problem(page, drawing, wrong.name, wrong.size)
}

/// Adds that no field is wrong any more.
fn push_matched(page: &mut Page, drawing: Option<&Drawing>) -> Result<(), AllocError>
    ensures { OnOk result (page.new ≡ page.old ++ spec.matched_text (option_map (λ d. d.now) drawing.entry)) }
{
    match drawing {
        None => {
            page.text("note: the design can't be elaborated again, so digits aren't counted\n")
        }
        Some(_) => page.text("note: the files have changed: no field of the line is wrong\n"),
    }
}

/// Adds what is said of a line in which no field is wrong.
fn push_no_field(page: &mut Page, refusal: &Refusal, seen: &Seen<'_>) -> Result<(), AllocError>
    ensures { OnOk result (page.new ≡ page.old ++ spec.right_text refusal.now (seen_of seen.now)) }
{
    if refuses_fields(refusal) {
        return push_matched(page, seen.drawing);
    }
    if refused_control(refusal).is_some() {
        return push_right(page, seen.ports);
    }
    Ok(())
}

/// Adds what is said of a field that is wrong.
fn push_field_note(
    page: &mut Page,
    refusal: &Refusal,
    seen: &Seen<'_>,
    wrong: &Wrong<'_>,
) -> Result<(), AllocError>
    ensures { OnOk result (page.new ≡ page.old ++ spec.field_text refusal.now (seen_of seen.now) (lent wrong.now)) }
{
    match refused_control(refusal) {
        Some(control) => push_control(page, control, wrong),
        None => push_wrong(page, seen.drawing, wrong),
    }
}

/// Adds what is said of the fields of a line.
pub(crate) fn push_fields(
    page: &mut Page,
    refusal: &Refusal,
    seen: &Seen<'_>,
    line: Option<&[u8]>,
    wrong: &Option<Wrong<'_>>,
) -> Result<(), AllocError>
    ensures { OnOk result (page.new ≡ page.old ++ spec.fields_text refusal.now (seen_of seen.now) (option_map (λ t. t.now) line.entry) (option_map lent wrong.now)) }
{
    match wrong {
        Some(wrong) => push_field_note(page, refusal, seen, wrong),
        None => {
            if line.is_some() {
                push_no_field(page, refusal, seen)
            } else {
                Ok(())
            }
        }
    }
}

/// The byte of a stimulus at which a refusal is told that has no number of a line, where this is wrong in the header.
pub(crate) fn row_of(
    refusal: &Refusal,
    file: Option<&[u8]>,
    bad: &Option<BadName<'_>>,
) -> Option<usize>
    ensures { result ≡ spec.row_of refusal.now (option_map (λ t. t.now) file.entry) (option_map lent_name bad.now) }
{
    match refusal {
        Refusal::Lane(LaneName::BadHeader, _) => header_at(file, bad),
        Refusal::Lane(LaneName::NoExpectation, _) => header_row(file?),
        Refusal::Lane(LaneName::FirstUnknown, _) => first_unknown(file?),
        _ => None,
    }
}

/// Adds the line and the column of such a byte.
pub(crate) fn push_row_position(
    page: &mut Page,
    file: Option<&[u8]>,
    at: Option<usize>,
) -> Result<(), AllocError>
    ensures { OnOk result (page.new ≡ page.old ++ spec.row_position (option_map (λ t. t.now) file.entry) at) }
{
    match at {
        Some(at) => push_position(page, file, at),
        None => Ok(()),
    }
}

/// Whether a line of a stimulus is to be shown for a refusal that has no number of one.
fn has_row(refusal: &Refusal, file: Option<&[u8]>) -> bool
    ensures { result ≡ spec.has_row refusal.now (option_map (λ t. t.now) file.entry) }
{
    match refusal {
        Refusal::Lane(LaneName::BadHeader, _) => file.is_none(),
        Refusal::Lane(LaneName::NoExpectation | LaneName::FirstUnknown, _) => true,
        _ => false,
    }
}

/// Adds its line with a caret below it, or that this can't be shown.
pub(crate) fn push_row_caret(
    page: &mut Page,
    refusal: &Refusal,
    file: Option<&[u8]>,
    at: Option<usize>,
) -> Result<(), AllocError>
    ensures { OnOk result (page.new ≡ page.old ++ spec.row_caret refusal.now (option_map (λ t. t.now) file.entry) at) }
{
    match at {
        Some(at) => push_caret(page, file, at),
        None => {
            if has_row(refusal, file) {
                page.text(UNSHOWN)
            } else {
                Ok(())
            }
        }
    }
}

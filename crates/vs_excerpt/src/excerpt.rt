//! A line of a text with a caret.

ghost use Rattle.std.specs.Prelude.{◌≡◌, ◌≤◌, ◌+◌, ◌^◌, ◌<◌, ◌++◌, OnOk, length};
ghost use Rattle.vs_excerpt.specs.Excerpts as spec;

use crate::{Page, line_before, line_behind};
use std::alloc::AllocError;

/// A line that has more bytes is cut.
const MOST_WHOLE: usize = 200;

/// How many bytes of a line that is cut are shown at most on each side of the caret.
const MOST_SIDE: usize = 100;

/// Whether a line of these two parts is cut.
fn is_cut(before: &[u8], behind: &[u8]) -> bool
    ensures { result ≡ spec.is_cut before.now behind.now }
{
    before.len() > MOST_WHOLE || behind.len() > MOST_WHOLE - before.len()
}

/// What is shown before the caret's byte.
fn shown_before<'a>(before: &'a [u8], behind: &[u8]) -> &'a [u8]
    ensures { result.now ≡ spec.shown_before before.now behind.now }
{
    if is_cut(before, behind) {
        &before[before.len().saturating_sub(MOST_SIDE)..]
    } else {
        before
    }
}

/// What is shown from the caret's byte on.
fn shown_behind<'a>(before: &[u8], behind: &'a [u8]) -> &'a [u8]
    ensures { result.now ≡ spec.shown_behind before.now behind.now }
{
    if is_cut(before, behind) {
        &behind[..MOST_SIDE.min(behind.len())]
    } else {
        behind
    }
}

/// Adds the two lines: these parts of a text, and a caret below the byte between them.
fn push_caret_lines(page: &mut Page, before: &[u8], behind: &[u8]) -> Result<(), AllocError>
    ensures { OnOk result (page.new ≡ page.old ++ spec.caret_lines before.now behind.now) }
{
    page.shown(before)?;
    page.shown(behind)?;
    page.text("\n")?;
    page.blanks(before)?;
    page.text("^\n")
}

/// Adds the line of a byte, without its end, and below it a line with a caret under that byte.
///
/// What isn't printable is escaped, but for tabs, below which there is a tab. Of a line of more than 200 bytes at most 100 before the caret's byte are shown, and at most
/// 100 from it on. The only error is that memory ran out.
pub fn push_excerpt(page: &mut Page, text: &[u8], at: usize) -> Result<(), AllocError>
    requires { at ≤ length text.now }
    ensures { OnOk result (page.new ≡ page.old ++ spec.excerpt text.now at) }
{
    let before = line_before(text, at);
    let behind = line_behind(text, at);
    push_caret_lines(
        page,
        shown_before(before, behind),
        shown_behind(before, behind),
    )
}

//! Where a bit stands in its signal.

ghost use Rattle.std.specs.Prelude.{◌≡◌, ◌++◌, ◌<◌, ◌^◌, OnOk};
ghost use Rattle.vs_names.specs.Names as spec;

use std::alloc::AllocError;
use vs_excerpt::Page;
use vs_flat::range_bits;
use vs_four::Range;

/// The index of bit k of a vector, counted from its least significant one (IEEE 1364-2005, 3.3).
fn index_at(range: Range, k: u32) -> u64
    ensures { result ≡ spec.index_at range k }
{
    let right = u64::from(range.right);
    let k = u64::from(k);
    if range.left >= range.right {
        right + k
    } else {
        right.saturating_sub(k)
    }
}

/// Adds a number in brackets.
pub(crate) fn push_bracketed(page: &mut Page, number: u64) -> Result<(), AllocError>
    ensures { OnOk result (page.new ≡ page.old ++ spec.bracketed number) }
{
    page.text("[")?;
    page.number(number)?;
    page.text("]")
}

/// Adds the index of bit k of a signal that isn't a memory, or of a word.
fn push_index(page: &mut Page, range: Option<Range>, k: u32) -> Result<(), AllocError>
    ensures { OnOk result (page.new ≡ page.old ++ spec.index_text range k) }
{
    match range {
        None => Ok(()),
        Some(range) => push_bracketed(page, index_at(range, k)),
    }
}

/// Adds where bit k of a signal stands in it.
pub(crate) fn push_place(
    page: &mut Page,
    words: Option<Range>,
    range: Option<Range>,
    k: u32,
) -> Result<(), AllocError>
    ensures { OnOk result (page.new ≡ page.old ++ spec.place_text words range k) }
{
    let Some(words) = words else {
        return push_index(page, range, k);
    };
    let width = range_bits(range);
    let k = u64::from(k);
    push_bracketed(page, u64::from(words.right) + k / width)?;
    push_index(page, range, (k % width) as u32)
}

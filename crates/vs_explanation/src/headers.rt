//! The field of a header that is wrong.

ghost use Rattle.std.specs.Prelude.{◌≡◌, ◌++◌, OnOk, IfOk, option_map};
ghost use Rattle.vs_explanation.specs.Headers as spec;
ghost use Rattle.vs_explanation.specs.Seen.{seen_of};
ghost use Rattle.vs_rows.specs.Lent.{bad_of as lent};

use crate::Seen;
use crate::naming::{push_bad_name, push_right};
use std::alloc::{AllocError, Global};
use vs_excerpt::Page;
use vs_refusal::{LaneName, Refusal};
use vs_rows::{BadName, bad_name, header_row, row_bytes};
use vs_stim::Ports;

/// Whether a header is refused.
pub(crate) fn refuses_header(refusal: &Refusal) -> bool
    ensures { result ≡ spec.refuses_header refusal.now }
{
    matches!(refusal, Refusal::Lane(LaneName::BadHeader, _))
}

/// What keeps the first line of a stimulus that counts from being a header for these ports.
fn bad_under<'a>(
    alloc: Global,
    ports: &'a Ports,
    file: &'a [u8],
) -> Result<Option<BadName<'a>>, AllocError>
    ensures { IfOk result (λ bad. option_map lent bad ≡ spec.bad_under ports.now file.now) }
{
    match header_row(file) {
        None => Ok(None),
        Some(at) => bad_name(alloc, ports, row_bytes(file, at)),
    }
}

/// The same of ports and a file that may have been seen.
fn bad_seen<'a>(
    alloc: Global,
    ports: Option<&'a Ports>,
    file: Option<&'a [u8]>,
) -> Result<Option<BadName<'a>>, AllocError>
    ensures { IfOk result (λ bad. option_map lent bad ≡ spec.bad_seen (option_map (λ p. p.now) ports.entry) (option_map (λ t. t.now) file.entry)) }
{
    match (ports, file) {
        (Some(ports), Some(file)) => bad_under(alloc, ports, file),
        _ => Ok(None),
    }
}

/// Of a header that is refused, what is wrong in it.
pub(crate) fn bad_of<'a>(
    alloc: Global,
    refusal: &Refusal,
    seen: &Seen<'a>,
) -> Result<Option<BadName<'a>>, AllocError>
    ensures { IfOk result (λ bad. option_map lent bad ≡ spec.bad_of refusal.now (seen_of seen.now)) }
{
    if refuses_header(refusal) {
        bad_seen(alloc, seen.ports, seen.file)
    } else {
        Ok(None)
    }
}

/// The byte of the header at which what is wrong begins; the first where there is nothing.
fn bad_byte(bad: &Option<BadName<'_>>) -> usize
    ensures { result ≡ spec.bad_byte (option_map lent bad.now) }
{
    match bad {
        Some(bad) => bad.at,
        None => 0,
    }
}

/// The byte of a stimulus at which a refused header is told.
fn header_in(file: &[u8], bad: &Option<BadName<'_>>) -> Option<usize>
    ensures { result ≡ spec.header_in file.now (option_map lent bad.now) }
{
    let row = header_row(file)?;
    Some(row + bad_byte(bad).min(file.len() - row))
}

/// The same of a file that may have been seen.
pub(crate) fn header_at(file: Option<&[u8]>, bad: &Option<BadName<'_>>) -> Option<usize>
    ensures { result ≡ spec.header_at (option_map (λ t. t.now) file.entry) (option_map lent bad.now) }
{
    header_in(file?, bad)
}

/// Adds what is said of the names of a header, where it is told at this byte.
pub(crate) fn push_names(
    page: &mut Page,
    refusal: &Refusal,
    seen: &Seen<'_>,
    at: Option<usize>,
    bad: &Option<BadName<'_>>,
) -> Result<(), AllocError>
    ensures { OnOk result (page.new ≡ page.old ++ spec.names_text refusal.now (seen_of seen.now) at (option_map lent bad.now)) }
{
    match bad {
        Some(bad) => push_bad_name(page, bad),
        None => {
            if refuses_header(refusal) && at.is_some() {
                push_right(page, seen.ports)
            } else {
                Ok(())
            }
        }
    }
}

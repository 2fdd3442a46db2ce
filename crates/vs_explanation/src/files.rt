//! The file of a design in which a byte of its text lies.

ghost use Rattle.std.specs.Prelude.{◌≡◌, ◌-◌, drop, option_map};
ghost use Rattle.vs_explanation.specs.Files as spec;
ghost use Rattle.vs_explanation.specs.Seen.{seen_of};

use crate::Seen;
use vs_job::Job;

/// A file of the design, and a byte of it.
#[derive(Clone, Copy)]
pub(crate) struct FilePlace<'a> {
    /// The path of the file.
    pub(crate) path: &'a [u8],
    /// Its bytes, or None where it couldn't be read.
    pub(crate) file: Option<&'a [u8]>,
    /// The byte, which the file may lack where it has changed.
    pub(crate) at: usize,
}

/// The bytes of a text from one on.
fn behind(text: Option<&[u8]>, from: usize) -> Option<&[u8]>
    ensures { option_map (λ t. t.now) result ≡ option_map (drop from) (option_map (λ t. t.now) text.entry) }
{
    match text {
        Some(text) => Some(&text[from.min(text.len())..]),
        None => None,
    }
}

/// The bytes of a text from one on and before another.
fn between(text: Option<&[u8]>, from: usize, to: usize) -> Option<&[u8]>
    ensures { option_map (λ t. t.now) result ≡ option_map (spec.between from to) (option_map (λ t. t.now) text.entry) }
{
    match text {
        Some(text) => behind(Some(&text[..to.min(text.len())]), from),
        None => None,
    }
}

/// The file of the design in which byte `at` of its text lies, the lines of macros before it not counted, and the byte there.
pub(crate) fn file_place<'a>(job: &'a Job, seen: &Seen<'a>, at: usize) -> FilePlace<'a>
    ensures { spec.place_of result ≡ spec.file_place job.now (seen_of seen.now) at }
{
    let mut path = job.design.as_bytes();
    let mut from = 0;
    for n in 0..seen.starts.len().min(job.others.len()) {
        let next = seen.starts[n];
        if at < next {
            return FilePlace {
                path,
                file: between(seen.file, from, next.saturating_sub(1)),
                at: at.saturating_sub(from),
            };
        }
        path = job.others.get(n).as_bytes();
        from = next;
    }
    FilePlace {
        path,
        file: behind(seen.file, from),
        at: at.saturating_sub(from),
    }
}

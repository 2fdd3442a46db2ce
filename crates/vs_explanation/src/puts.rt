//! Texts, numbers and paths put at place 0 of a desk. It takes no memory.

ghost use Rattle.std.specs.Prelude.{◌≡◌, ◌<◌, ◌++◌, decimal};
ghost use Rattle.std.specs.List.{list_all};
ghost use Rattle.vs_desk.specs.Desk.{PutsAll};
ghost use Rattle.vs_excerpt.specs.Escapes.{is_printable, hex_digit, escaped_byte, escaped};
ghost use Rattle.vs_explanation.specs.Ended.{numbered};
ghost use Rattle.vs_explanation.specs.Subjects as spec;

use crate::roles::wave_suffix;
use itoa::Buffer;
use vs_desk::{Desk, FIRST_OTHER, FIRST_STIMULUS, FIRST_WAVEFORM, Failed, put_all, put_law};
use vs_job::Job;

/// Puts a text.
pub(crate) fn put_text<D: Desk>(desk: &mut D, text: &str) -> Result<(), Failed>
    ensures { PutsAll (D.told desk.old) (D.told desk.new) 0 text.now result }
{
    put_all(desk, 0, text.as_bytes())
}

/// Puts a number in decimal digits.
fn put_number<D: Desk>(desk: &mut D, number: u64) -> Result<(), Failed>
    ensures { PutsAll (D.told desk.old) (D.told desk.new) 0 (decimal number) result }
{
    let mut buffer = Buffer::new();
    put_text(desk, buffer.format(number))
}

/// Puts a number between two texts.
pub(crate) fn put_numbered<D: Desk>(
    desk: &mut D,
    before: &str,
    number: u64,
    behind: &str,
) -> Result<(), Failed>
    ensures { PutsAll (D.told desk.old) (D.told desk.new) 0 (numbered before.now number behind.now) result }
{
    put_law();
    put_text(desk, before)?;
    put_number(desk, number)?;
    put_text(desk, behind)
}

/// A digit from 0 to 15.
fn hex_digit(n: u8) -> u8
    requires { n < 16 }
    ensures { result ≡ hex_digit n }
{
    if n < 10 { b'0' + n } else { b'A' - 10 + n }
}

/// Whether the byte is a printable character of ASCII.
fn is_printable(byte: u8) -> bool
    ensures { result ≡ is_printable byte }
{
    byte >= b' ' && byte <= b'~'
}

/// Whether each of these is.
fn are_printable(bytes: &[u8]) -> bool
    ensures { result ≡ list_all is_printable bytes.now }
{
    bytes.iter().all(|byte| is_printable(*byte))
}

/// Puts a byte, escaped where it isn't printable.
fn put_escaped_byte<D: Desk>(desk: &mut D, byte: u8) -> Result<(), Failed>
    ensures { PutsAll (D.told desk.old) (D.told desk.new) 0 (escaped_byte byte) result }
{
    if is_printable(byte) {
        return put_all(desk, 0, &[byte]);
    }
    let digits = [b'\\', b'x', hex_digit(byte / 16), hex_digit(byte % 16)];
    put_all(desk, 0, &digits)
}

/// Puts bytes one by one, of which those that aren't printable are escaped.
fn put_each_escaped<D: Desk>(desk: &mut D, bytes: &[u8]) -> Result<(), Failed>
    ensures { PutsAll (D.told desk.old) (D.told desk.new) 0 (escaped bytes.now) result }
{
    put_law();
    for byte in bytes {
        put_escaped_byte(desk, *byte)?;
    }
    Ok(())
}

/// Puts bytes, of which those that aren't printable are escaped.
pub(crate) fn put_escaped<D: Desk>(desk: &mut D, bytes: &[u8]) -> Result<(), Failed>
    ensures { PutsAll (D.told desk.old) (D.told desk.new) 0 (escaped bytes.now) result }
{
    if are_printable(bytes) {
        return put_all(desk, 0, bytes);
    }
    put_each_escaped(desk, bytes)
}

/// Puts a path, and a text behind it.
pub(crate) fn put_path_and<D: Desk>(desk: &mut D, path: &[u8], behind: &str) -> Result<(), Failed>
    ensures { PutsAll (D.told desk.old) (D.told desk.new) 0 (escaped path.now ++ behind.now) result }
{
    put_law();
    put_escaped(desk, path)?;
    put_text(desk, behind)
}

/// Puts the path of a lane's stimulus, or nothing where the job has no such lane.
pub(crate) fn put_stimulus<D: Desk>(desk: &mut D, job: &Job, lane: usize) -> Result<(), Failed>
    ensures { PutsAll (D.told desk.old) (D.told desk.new) 0 (spec.stimulus_path job.now lane) result }
{
    if lane >= job.stimuli.len() {
        return put_text(desk, "");
    }
    put_escaped(desk, job.stimuli.get(lane).as_bytes())
}

/// Puts the path of a lane's waveform, or nothing where the job has no such lane.
fn put_waveform<D: Desk>(desk: &mut D, job: &Job, lane: usize) -> Result<(), Failed>
    ensures { PutsAll (D.told desk.old) (D.told desk.new) 0 (spec.waveform_path job.now lane) result }
{
    if lane >= job.stimuli.len() {
        return put_text(desk, "");
    }
    put_path_and(
        desk,
        job.stimuli.get(lane).as_bytes(),
        wave_suffix(job.mode),
    )
}

/// Puts the path of a further file of the design, or nothing where the job has no such file.
fn put_other<D: Desk>(desk: &mut D, job: &Job, n: usize) -> Result<(), Failed>
    ensures { PutsAll (D.told desk.old) (D.told desk.new) 0 (spec.other_path job.now n) result }
{
    if n >= job.others.len() {
        return put_text(desk, "");
    }
    put_escaped(desk, job.others.get(n).as_bytes())
}

/// Puts the path of a place.
pub(crate) fn put_path<D: Desk>(desk: &mut D, job: &Job, place: u32) -> Result<(), Failed>
    ensures { PutsAll (D.told desk.old) (D.told desk.new) 0 (spec.path_text job.now place) result }
{
    if place < FIRST_STIMULUS {
        return put_escaped(desk, job.design.as_bytes());
    }
    if place < FIRST_WAVEFORM {
        return put_stimulus(desk, job, (place - FIRST_STIMULUS) as usize);
    }
    if place < FIRST_OTHER {
        return put_waveform(desk, job, (place - FIRST_WAVEFORM) as usize);
    }
    put_other(desk, job, (place - FIRST_OTHER) as usize)
}

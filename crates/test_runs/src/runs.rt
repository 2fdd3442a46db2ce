//! Runs of words over a desk in memory.

ghost use Rattle.std.specs.Prelude.{◌≡◌, ◌<◌, IfOk};
ghost use Rattle.vs_desk.specs.Desk.{no_register};
ghost use Rattle.vs_desk.specs.MemoryDesk as memory;

use std::alloc::{AllocError, Global};
use std::marker::Brand;
use std::sync::ledger::{Blank, Ledger};
use vs_desk::MemoryDesk;
use vs_plane::Steps;
use vs_top::{run, status};

/// The design of all runs: one gate.
pub(crate) const AND: &str =
    "module top(input clk, input a, input b, output y); assign y = a & b; endmodule\n";

/// A desk with these files, by name, of which a take moves at most so many bytes.
pub(crate) fn desk_with(
    alloc: Global,
    piece: usize,
    files: &[(&str, &str)],
) -> Result<MemoryDesk, AllocError>
    requires { 0 < piece }
    ensures { IfOk result (λ desk. memory.register desk ≡ no_register) }
{
    let mut desk = MemoryDesk::new(alloc, piece);
    for (path, text) in files {
        desk.add_file(
            String::from_str(alloc, path)?,
            text.as_bytes().to_vec(alloc)?,
        )?;
    }
    Ok(desk)
}

/// The words of a line.
pub(crate) fn words(alloc: Global, line: &str) -> Result<Vec<String>, AllocError> {
    let mut words = Vec::new(alloc);
    for word in line.split(' ') {
        words.push(String::from_str(alloc, word)?)?;
    }
    Ok(words)
}

/// Runs the words over a new desk, counting in a ledger, and answers the status.
fn run_counted<L: Ledger>(
    alloc: Global,
    blank: Blank,
    desk: &mut MemoryDesk,
    words: &[String],
) -> u8
    requires name { blank.name ≡ L.name }
    requires parts { blank.parts ≡ L.parts }
    requires some { 0 < blank.parts }
    requires unused { memory.register desk.old ≡ no_register }
{
    let mut steps: Steps<L> = Steps::new(blank);
    status(&run(alloc, words, desk, &mut steps))
}

/// Runs the words over a new desk, and answers the status.
pub(crate) fn run_words(alloc: Global, desk: &mut MemoryDesk, words: &[String]) -> u8
    requires { memory.register desk.old ≡ no_register }
{
    run_counted::<Brand>(alloc, Blank::new(1), desk, words)
}

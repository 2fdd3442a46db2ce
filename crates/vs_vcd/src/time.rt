//! The line of a time, written into a block of bytes.

ghost use Rattle.std.specs.Prelude.{◌≡◌, ◌≤◌, ◌+◌, ◌++◌, take, length};
ghost use Rattle.vs_vcd.specs.Texts.{time_line};

use crate::line::Line;

/// Writes the line of a time behind the first bytes of a block, so many, and answers where it ends (IEEE 1364-2005, 18.2.1).
pub fn put_time(block: &mut [u8], at: usize, time: u64) -> usize
    requires room { at + 22 ≤ length block.old }
    ensures text { take result block.new ≡ take at block.old ++ time_line time }
    ensures within { result ≤ at + 22 }
    ensures long { length block.new ≡ length block.old }
{
    let mut line = Line::new();
    line.push(b'#');
    line.push_decimal(time);
    line.push(b'\n');
    let text = line.as_slice();
    let end = at + text.len();
    block[at..end].copy_from_slice(text);
    end
}

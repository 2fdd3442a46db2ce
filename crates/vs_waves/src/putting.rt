//! Text that is put block by block.

ghost use Rattle.std.specs.Prelude.{◌≡◌, ◌+◌, ◌<◌, ◌≤◌, ◌++◌, length, take, IsTrue, IfOk, OnOk, OnErr};
ghost use Rattle.vs_desk.specs.Desk.{Fails, IsWritable, PutsPart};
ghost use Rattle.vs_waves.specs.Puts.{Moves, PutsFront};

use vs_desk::{Desk, Failed, put_all, put_law};
use vs_vcd::LINE_ROOM;

/// Puts the first bytes of the block, so many, where there would be no room for a line behind them. Answers how many bytes stand in it
/// then.
#[inline]
pub(crate) fn make_room<D: Desk>(
    block: &[u8],
    filled: usize,
    desk: &mut D,
    place: u32,
) -> Result<usize, Failed>
    requires writable { IsWritable (D.told desk.old).register place }
    requires block { LINE_ROOM ≤ length block.now }
    requires filled { filled ≤ length block.now }
    ensures room { IfOk result (λ n. n + LINE_ROOM ≤ length block.now) }
    ensures same { OnOk result ((D.told desk.new).register ≡ (D.told desk.old).register) }
    ensures bytes { IsTrue D.tells → IfOk result (λ n. PutsFront (D.told desk.old).register (D.told desk.old).contents (D.told desk.new).contents
        place (take filled block.now) (take n block.now)) }
    ensures failed { OnErr result
        (Fails (D.told desk.old).register (D.told desk.new).register place (D.told desk.old).register.asked) }
    ensures bytes_part { IsTrue D.tells → OnErr result (PutsPart (D.told desk.old).register
        (D.told desk.old).contents (D.told desk.new).contents place (take filled block.now)) }
{
    put_law();
    if block.len() - filled < LINE_ROOM {
        put_all(desk, place, &block[..filled])?;
        Ok(0)
    } else {
        Ok(filled)
    }
}

/// Moves a text behind the first bytes of the block, so many, and puts the block each time it is full. Answers how many bytes stand in
/// it then.
pub(crate) fn put_text<D: Desk>(
    text: &[u8],
    block: &mut [u8],
    filled: usize,
    desk: &mut D,
    place: u32,
) -> Result<usize, Failed>
    requires writable { IsWritable (D.told desk.old).register place }
    requires block { 0 < length block.old }
    requires filled { filled ≤ length block.old }
    ensures filled { IfOk result (λ n. n ≤ length block.new) }
    ensures long { length block.new ≡ length block.old }
    ensures moved { Moves (D.told desk.old) (D.told desk.new) place (take filled block.old ++ text.now)
        (λ n. take n block.new) result }
{
    put_law();
    if text.is_empty() {
        return Ok(filled);
    }
    let mut filled = filled;
    let mut from = 0;
    while text.len() - from > block.len() - filled {
        let to = from + (block.len() - filled);
        block[filled..].copy_from_slice(&text[from..to]);
        put_all(desk, place, block)?;
        filled = 0;
        from = to;
    }
    let end = filled + (text.len() - from);
    block[filled..end].copy_from_slice(&text[from..]);
    Ok(end)
}

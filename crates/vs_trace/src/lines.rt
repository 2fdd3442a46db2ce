//! Lines, added at the end of the text.

ghost use Rattle.std.specs.Prelude.{◌≡◌, ◌++◌, OnOk};
ghost use Rattle.vs_vcd.specs.Texts.{time_line};
ghost use Rattle.vs_vcd.specs.Values.{value_line};

use std::alloc::AllocError;
use vs_four::Bits;
use vs_vcd::{LINE_ROOM, Tail, put_time, put_value};

/// Adds the line of a time (IEEE 1364-2005, 18.2.1). Want of memory is the only error, here as in all that follows.
pub(crate) fn push_time(text: &mut Vec<u8>, time: u64) -> Result<(), AllocError>
    ensures { OnOk result (text.new.items ≡ text.old.items ++ time_line time) }
{
    let mut line = [0; LINE_ROOM];
    let end = put_time(&mut line, 0, time);
    text.extend_from_slice(&line[..end])
}

/// Adds the line of a value of the signal with this number (IEEE 1364-2005, 18.2.2).
pub(crate) fn push_value(text: &mut Vec<u8>, number: u32, value: Bits) -> Result<(), AllocError>
    ensures { OnOk result (text.new.items ≡ text.old.items ++ value_line number value) }
{
    let mut line = [0; LINE_ROOM];
    let tail = Tail::of(number);
    let end = put_value(&mut line, 0, value, &tail);
    text.extend_from_slice(&line[..end])
}

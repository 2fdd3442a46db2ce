//! The lines round the values of the first slot.

ghost use Rattle.std.specs.Prelude.{◌≡◌, codes};
ghost use Rattle.vs_vcd.specs.Values.{line};

/// What opens the first slot, behind the line of its time (IEEE 1364-2005, 18.2.3.9).
pub fn dump_line() -> &'static [u8]
    ensures { result.now ≡ line (codes "$dumpvars") }
{
    b"$dumpvars\n"
}

/// What closes the first slot.
pub fn end_line() -> &'static [u8]
    ensures { result.now ≡ line (codes "$end") }
{
    b"$end\n"
}

//! The slots of a design's bits.

ghost use Rattle.std.specs.Prelude.{◌≡◌, ◌<◌, ◌^◌};
ghost use Rattle.vs_program.specs.Lowered as lowered;

/// The slot of this bit of a design.
#[inline]
pub fn home(bit: u32) -> u32
    requires { lowered.home bit < 2 ^ 32 }
    ensures { result ≡ lowered.home bit }
{
    4 + bit
}

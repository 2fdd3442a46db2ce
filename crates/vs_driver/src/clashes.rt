//! Bits that writers may not share.

ghost use Rattle.std.specs.Prelude.{◌≡◌, ◌||◌, ◌&&◌};
ghost use Rattle.vs_driver.specs.Drivers.{are_two};
ghost use Rattle.vs_driver.specs.Marks.{clash, is_marked};

use crate::drivers::Drivers;
use crate::marks::is_marked;
use crate::settled::Settled;
use crate::starts::Starts;

/// Whether another initial process writes the bit too, or an assign or a combinational block.
fn is_taken(starts: &Starts, settled: &Settled, bit: usize) -> bool
    ensures { result ≡ (is_marked starts.now.twice.items bit || is_marked settled.now.settled.items bit) }
{
    let twice = is_marked(starts.twice.as_slice(), bit);
    let taken = is_marked(settled.settled.as_slice(), bit);
    twice || taken
}

/// Whether an initial process writes the bit by `<=`, and a clocked block by `=`.
fn is_late(starts: &Starts, settled: &Settled, bit: usize) -> bool
    ensures { result ≡ (is_marked starts.now.late.items bit && is_marked settled.now.stirring.items bit) }
{
    let late = is_marked(starts.late.as_slice(), bit);
    let stirring = is_marked(settled.stirring.as_slice(), bit);
    late && stirring
}

/// Whether an initial process writes the bit, and another one too, or an assign or a combinational block, or by `<=` what a clocked block writes by `=` (IEEE 1364-2005, 9.9.1).
fn clashes(starts: &Starts, settled: &Settled, bit: usize) -> bool
    ensures { result ≡ clash starts.now settled.now bit }
{
    let started = is_marked(starts.once.as_slice(), bit);
    let taken = is_taken(starts, settled, bit);
    let late = is_late(starts, settled, bit);
    started && (taken || late)
}

/// Whether two drivers write the bit, or an initial process clashes with another writer of it.
pub(crate) fn is_refused(drivers: Drivers, starts: &Starts, settled: &Settled, bit: usize) -> bool
    ensures { result ≡ (are_two drivers || clash starts.now settled.now bit) }
{
    let two = drivers.are_two();
    let clash = clashes(starts, settled, bit);
    two || clash
}

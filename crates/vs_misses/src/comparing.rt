//! The lanes in which outputs aren't as they are wanted.

ghost use Rattle.std.specs.Prelude.{◌≡◌, ℕ, ◌+◌, ◌<◌, ◌≤◌, ◌^◌, not, All, length};
ghost use Rattle.std.specs.List.{list_any};
ghost use Rattle.vs_desk.specs.Places.{most_lanes};
ghost use Rattle.vs_four.specs.Tables.{same};
ghost use Rattle.vs_design.specs.Values.{read};
ghost use Rattle.vs_plane.specs.Lanes.{pair_lane};
ghost use Rattle.vs_program.specs.Compiled.{span_bits};
ghost use Rattle.vs_engine.specs.Lanes.{state};
ghost use Rattle.vs_feed.specs.Lanes.{lane_at};
ghost use Rattle.vs_misses.specs.Missed.{are_met};
ghost use Rattle.vs_misses.specs.Rows.{is_unmet, row_unmet, digits_in, IsRow, IsComparable};

use crate::packing::pack_wanted;
use crate::row::Row;
use vs_engine::Engine;
use vs_feed::Drive;
use vs_plane::{Lanes, Pair, Word};
use vs_program::Span;

/// The lanes in which two pairs aren't one.
#[inline]
fn differ<W: Word>(a: Pair<W>, b: Pair<W>) -> W
    ensures { (i : ℕ) → i < W.LANES → W.lane result i ≡ not (same (pair_lane W.lane a i) (pair_lane W.lane b i)) }
{
    a.value.xor(b.value).or(a.unknown.xor(b.unknown))
}

/// The lanes in which the bits of an output aren't these digits.
fn unmet<W: Lanes>(engine: &Engine<W>, span: Span, wanted: &[Pair<W>], free: &[Pair<W>]) -> W
    requires inside { span.first + span.length ≤ engine.now.program.bits }
    requires few { engine.now.program.bits < 2 ^ 32 }
    requires wanted { length wanted.now ≡ span.length }
    requires free { length free.now ≡ span.length }
    ensures { (i : ℕ) → i < W.LANES → W.lane result i ≡ not (are_met (digits_in W.lane wanted.now free.now i) (read (state W.lane engine.now i) (span_bits span))) }
{
    let mut lanes = W::none();
    for n in 0..span.length {
        let other = differ(wanted[n as usize], engine.pair(span.first + n));
        let cared = free[n as usize].one().not();
        lanes = lanes.or(other.and(cared));
    }
    lanes
}

/// The lanes in which an output isn't as it is wanted. The pairs are for what is packed on the way.
fn unmet_of_row<W: Lanes>(
    engine: &Engine<W>,
    drive: &Drive,
    row: &Row,
    wanted: &mut [Pair<W>],
    free: &mut [Pair<W>],
) -> W
    requires width { W.LANES ≤ most_lanes }
    requires few { engine.now.program.bits < 2 ^ 32 }
    requires row { IsRow (length drive.now) row.now }
    requires comparable { IsComparable engine.now.program.bits drive.now row.now }
    requires wanted { length wanted.old ≡ 64 }
    requires free { length free.old ≡ 64 }
    ensures lanes { (i : ℕ) → i < W.LANES → W.lane result i ≡ row_unmet (lane_at drive.now i) (state W.lane engine.now i) i row.now }
{
    if !row.is_named {
        return W::none();
    }
    let count = row.span.length as usize;
    let wanted = &mut wanted[..count];
    let free = &mut free[..count];
    pack_wanted(drive, &row.places, wanted, free);
    unmet(engine, row.span, wanted, free)
}

/// The lanes in which some output isn't as it is wanted. The pairs are for what is packed on the way.
pub(crate) fn unmet_of_rows<W: Lanes>(
    engine: &Engine<W>,
    drive: &Drive,
    rows: &[Row],
    wanted: &mut [Pair<W>],
    free: &mut [Pair<W>],
) -> W
    requires width { W.LANES ≤ most_lanes }
    requires few { engine.now.program.bits < 2 ^ 32 }
    requires rows { All (IsRow (length drive.now)) rows.now }
    requires comparable { All (IsComparable engine.now.program.bits drive.now) rows.now }
    requires wanted { length wanted.old ≡ 64 }
    requires free { length free.old ≡ 64 }
    ensures lanes { (i : ℕ) → i < W.LANES → W.lane result i ≡ list_any (row_unmet (lane_at drive.now i) (state W.lane engine.now i) i) rows.now }
{
    let mut lanes = W::none();
    for row in rows {
        lanes = lanes.or(unmet_of_row(engine, drive, row, wanted, free));
    }
    lanes
}

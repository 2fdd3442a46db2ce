//! What a lane misses first.

ghost use Rattle.std.specs.Prelude.{◌≡◌, ℕ, ◌<◌, ◌≤◌, ◌^◌, true, false, length};
ghost use Rattle.std.specs.List.{list_all};
ghost use Rattle.vs_program.specs.Program.{spans};
ghost use Rattle.vs_engine.specs.Lanes.{state};
ghost use Rattle.vs_feed.specs.Lanes.{lane_at};
ghost use Rattle.vs_misses.specs.Missed.{line_of, first_miss, on_line};
ghost use Rattle.vs_misses.specs.Watch.{found_at, Fits, AllFit};
ghost use Rattle.vs_misses.specs.Rows.{spans_of};

use crate::finding::Finding;
use crate::kept::Kept;
use crate::row::Row;
use vs_engine::Engine;
use vs_feed::Drive;
use vs_plane::Lanes;
use vs_stim::Stimulus;

/// The first column of which a lane's outputs don't meet a digit.
fn first_miss<W: Lanes>(
    engine: &Engine<W>,
    rows: &[Row],
    stimulus: &Stimulus,
    lane: u32,
) -> Option<Finding>
    requires few { length rows.now < 2 ^ 32 }
    requires inside { list_all (spans engine.now.program.bits) (spans_of rows.now) ≡ true }
    requires fits { Fits (spans_of rows.now) stimulus.now }
    requires lane { lane < W.LANES }
    ensures { result ≡ on_line (line_of stimulus.now) (first_miss (spans_of rows.now) (state W.lane engine.now lane) 0 stimulus.now.columns.expected stimulus.now.wanted) }
{
    for (place, column) in stimulus.expected().iter().enumerate() {
        let wanted = Kept::of(&stimulus.wanted()[place], column.length);
        let got = engine.word(lane, rows[column.output].span);
        if !wanted.are_met(&got) {
            return Some(Finding {
                line: stimulus.line(),
                output: place as u32,
                wanted,
                got,
            });
        }
    }
    None
}

/// Looks at these lanes, each of which has a vector.
pub(crate) fn look<W: Lanes>(
    engine: &Engine<W>,
    drive: &Drive,
    rows: &[Row],
    lanes: W,
    found: &mut [Option<Finding>],
)
    requires few { length rows.now < 2 ^ 32 }
    requires inside { list_all (spans engine.now.program.bits) (spans_of rows.now) ≡ true }
    requires fit { AllFit (spans_of rows.now) drive.now }
    requires long { length found.old ≡ length drive.now }
    requires width { length found.old ≤ W.LANES }
    ensures looked { (i : ℕ) → i < length drive.now → W.lane lanes i ≡ true → found_at found.new i
        ≡ on_line (line_of (lane_at drive.now i)) (first_miss (spans_of rows.now) (state W.lane engine.now i) 0 (lane_at drive.now i).columns.expected (lane_at drive.now i).wanted) }
    ensures others { (i : ℕ) → i < length drive.now → W.lane lanes i ≡ false → found_at found.new i ≡ found_at found.old i }
{
    for lane in 0..drive.lanes() {
        if !lanes.bit(lane) {
            continue;
        }
        found[lane as usize] = first_miss(engine, rows, drive.stimulus(lane), lane);
    }
}

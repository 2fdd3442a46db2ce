//! The files of a bench, and the job over them.

ghost use Rattle.std.specs.Prelude.{◌≡◌, ◌≤◌, IfOk, string_bytes};
ghost use Rattle.vs_desk.specs.Desk.{no_register};
ghost use Rattle.vs_desk.specs.MemoryDesk as memory;
ghost use Rattle.vs_desk.specs.Places.{most_lanes};
ghost use Rattle.vs_bench.specs.Bench.{files, job, lane_path, lane_paths};

use crate::texts::{design_text, stimulus_text};
use itoa::Buffer;
use std::alloc::{AllocError, Global};
use vs_desk::MemoryDesk;
use vs_job::{Job, Mode, Text, Texts};

/// The path of the design.
const DESIGN_PATH: &str = "bench.v";

/// The name of the top module.
const TOP: &str = "top";

/// The name of the top's clock input.
const CLOCK: &str = "clk";

/// Half a clock period, in units of time.
const HALF: u32 = 5;

/// How many bytes of a file a `take` moves at most.
const PIECE: usize = 65_536;

/// The job of a bench, which is run: the top `top` with the clock `clk`, half a clock period of 5 units of time, no macros, a code for each signal, the design at `bench.v`,
/// and one stimulus for each of so many lanes, from 0 to 256, at the lane's number in decimal.
///
/// The only error is that memory ran out.
pub fn bench_job(alloc: Global, lanes: u32) -> Result<Job, AllocError>
    requires lanes { lanes ≤ most_lanes }
    ensures { IfOk result (λ j. j ≡ job lanes) }
{
    Ok(Job {
        mode: Mode::Run,
        top: Some(text(alloc, TOP)?),
        clocks: Texts::of(vec![in alloc; text(alloc, CLOCK)?]?),
        half: HALF,
        share: false,
        head: text(alloc, "")?,
        design: text(alloc, DESIGN_PATH)?,
        others: Texts::of(Vec::new(alloc)),
        stimuli: lane_paths(alloc, lanes)?,
    })
}

/// A desk with the files of a bench: the design, and for each of so many lanes, from 0 to 256, a stimulus of so many vectors, which
/// has 13 bytes and 35 more for each vector. No call of the desk is to fail, and a `take` moves at most 65,536 bytes.
///
/// The only error is that memory ran out.
pub fn bench_desk(alloc: Global, vectors: u32, lanes: u32) -> Result<MemoryDesk, AllocError>
    requires lanes { lanes ≤ most_lanes }
    ensures register { IfOk result (λ d. memory.register d ≡ no_register) }
    ensures contents { IfOk result (λ d. memory.contents d ≡ files vectors lanes) }
    ensures plan { IfOk result (λ d. memory.plan d ≡ memory.first_plan 65536) }
{
    let mut desk = MemoryDesk::new(alloc, PIECE);
    desk.add_file(String::from_str(alloc, DESIGN_PATH)?, design_text(alloc)?)?;
    for lane in 0..lanes {
        desk.add_file(
            lane_path(alloc, lane)?,
            stimulus_text(alloc, lane, vectors)?,
        )?;
    }
    Ok(desk)
}

/// A text with these bytes.
fn text(alloc: Global, bytes: &str) -> Result<Text, AllocError>
    ensures { IfOk result (λ t. t ≡ bytes.now) }
{
    Ok(Text::of(String::from_str(alloc, bytes)?))
}

/// The paths of the stimuli, by lane.
fn lane_paths(alloc: Global, lanes: u32) -> Result<Texts, AllocError>
    ensures { IfOk result (λ paths. paths ≡ lane_paths lanes) }
{
    let mut paths = Vec::new(alloc);
    for lane in 0..lanes {
        paths.push(Text::of(lane_path(alloc, lane)?))?;
    }
    Ok(Texts::of(paths))
}

/// The path of a lane's stimulus: the lane's number in decimal.
fn lane_path(alloc: Global, lane: u32) -> Result<String, AllocError>
    ensures { IfOk result (λ path. string_bytes path ≡ lane_path lane) }
{
    let mut buffer = Buffer::new();
    String::from_str(alloc, buffer.format(lane))
}

//! The places of a job, and two of them that have one path.

ghost use Rattle.std.specs.Prelude.{◌≡◌, ◌<◌, ◌≤◌, ◌++◌, take, length, slice_index_or, bytes_eq};
ghost use Rattle.vs_desk.specs.Places.{most_lanes, most_others};
ghost use Rattle.vs_job.specs.Places as spec;
ghost use Rattle.vs_job.specs.Paths as paths;
ghost use Rattle.vs_job.specs.Paths.{path_of, place_of};

use crate::job::{Job, Mode};
use vs_desk::{DESIGN_PLACE, FIRST_OTHER, FIRST_STIMULUS, FIRST_WAVEFORM};

/// What is added to a stimulus's path in a run.
const VCD: &[u8] = b".vcd";

/// What is added to a stimulus's path where the event queue runs it.
const QUEUE_VCD: &[u8] = b".queue.vcd";

/// A path of a job.
#[derive(Clone, Copy)]
enum Path<'a> {
    /// This word.
    Word(&'a str),
    /// This word with that added which the job's waveforms have.
    Waveform(&'a str),
}

/// A place, and its path.
#[derive(Clone, Copy)]
struct Place<'a> {
    number: u32,
    path: Path<'a>,
}

/// What is added to a stimulus's path for that of its waveform.
fn ending(mode: Mode) -> &'static [u8]
    ensures { result.now ≡ paths.ending mode }
{
    match mode {
        Mode::Queue { .. } => QUEUE_VCD,
        Mode::Run | Mode::Check => VCD,
    }
}

/// Whether the text is the word with this added.
fn is_longer(text: &str, word: &str, added: &[u8]) -> bool
    ensures { result ≡ bytes_eq text.now (word.now ++ added.now) }
{
    match text.as_bytes().strip_suffix(added) {
        None => false,
        Some(front) => front == word.as_bytes(),
    }
}

/// Whether two paths are equal texts, where this is added for waveforms.
fn is_same(a: Path<'_>, b: Path<'_>, added: &[u8]) -> bool
    ensures { result ≡ bytes_eq (path_of added.now a.entry) (path_of added.now b.entry) }
{
    match (a, b) {
        (Path::Word(a), Path::Word(b)) => a == b,
        (Path::Word(a), Path::Waveform(b)) => is_longer(a, b, added),
        (Path::Waveform(a), Path::Word(b)) => is_longer(b, a, added),
        (Path::Waveform(a), Path::Waveform(b)) => a == b,
    }
}

/// How many waveforms there are.
fn waveform_count(job: &Job) -> usize
    ensures { result ≡ length (spec.waveforms job.now.mode job.now.stimuli) }
{
    match job.mode {
        Mode::Run | Mode::Queue { .. } => job.stimuli.len(),
        Mode::Check => 0,
    }
}

/// How many places there are.
#[tactic(auto, using(crate::proofs::Listed::length_places, crate::proofs::Listed::few_waveforms))]
fn place_count(job: &Job) -> usize
    requires few { length job.now.stimuli ≤ most_lanes }
    requires together { length job.now.others ≤ most_others }
    ensures { result ≡ length (spec.places job.now) }
{
    1 + job.stimuli.len() + waveform_count(job) + job.others.len()
}

/// Place n, from 0: the design, the stimuli by lane, the waveforms by lane, and the further files of the design.
#[tactic(auto, using(crate::proofs::Listed::length_places, crate::proofs::Listed::few_waveforms))]
fn place_at(job: &Job, n: usize) -> Place<'_>
    requires few { length job.now.stimuli ≤ most_lanes }
    requires together { length job.now.others ≤ most_others }
    requires place { n < length (spec.places job.now) }
    ensures { (d : spec.Place) → slice_index_or (spec.places job.now) n d ≡ place_of (paths.ending job.now.mode) result }
{
    if n == 0 {
        return Place {
            number: DESIGN_PLACE,
            path: Path::Word(job.design.as_str()),
        };
    }
    let lanes = job.stimuli.len();
    if n <= lanes {
        let lane = n - 1;
        return Place {
            number: FIRST_STIMULUS + lane as u32,
            path: Path::Word(job.stimuli.get(lane).as_str()),
        };
    }
    let behind = lanes + waveform_count(job);
    if n <= behind {
        let lane = n - 1 - lanes;
        return Place {
            number: FIRST_WAVEFORM + lane as u32,
            path: Path::Waveform(job.stimuli.get(lane).as_str()),
        };
    }
    let file = n - 1 - behind;
    Place {
        number: FIRST_OTHER + file as u32,
        path: Path::Word(job.others.get(file).as_str()),
    }
}

/// The first of the first n places that has the path.
fn place_with(job: &Job, n: usize, path: Path<'_>) -> Option<u32>
    requires few { length job.now.stimuli ≤ most_lanes }
    requires together { length job.now.others ≤ most_others }
    requires places { n ≤ length (spec.places job.now) }
    ensures { result ≡ spec.place_with (path_of (paths.ending job.now.mode) path.entry) (take n (spec.places job.now)) }
{
    let added = ending(job.mode);
    for i in 0..n {
        let place = place_at(job, i);
        if is_same(place.path, path, added) {
            return Some(place.number);
        }
    }
    None
}

/// Two places of the job whose paths are equal texts, if there are any: the design's place is 1, lane
/// i's stimulus has 1000 + i and its waveform, which a check has not, 2000 + i, and further file i of the design, from 0, has 3000 + i.
///
/// In the order of the design, the stimuli by lane, the waveforms by lane and the further files of the design it is the pair whose
/// later member comes first, and with it the earliest equal one. It takes no memory.
pub fn same_paths(job: &Job) -> Option<(u32, u32)>
    requires few { length job.now.stimuli ≤ most_lanes }
    requires together { length job.now.others ≤ most_others }
    ensures { result ≡ spec.same_paths job.now }
{
    for n in 0..place_count(job) {
        let place = place_at(job, n);
        if let Some(first) = place_with(job, n, place.path) {
            return Some((first, place.number));
        }
    }
    None
}

//! The paths that a desk is handed.

ghost use Rattle.std.specs.Prelude.{◌≡◌, map, IfOk, string_bytes};
ghost use Rattle.vs_job.specs.Places as spec;

use crate::job::Job;
use std::alloc::{AllocError, Global};

/// The path of the waveform of a stimulus in a run.
fn vcd_path(alloc: Global, stimulus: &str) -> Result<String, AllocError>
    ensures { IfOk result (λ path. string_bytes path ≡ spec.vcd_path stimulus.now) }
{
    let mut path = String::from_str(alloc, stimulus)?;
    path.push_str(".vcd")?;
    Ok(path)
}

/// The path of the waveform of a stimulus that the event queue runs.
fn queue_path(alloc: Global, stimulus: &str) -> Result<String, AllocError>
    ensures { IfOk result (λ path. string_bytes path ≡ spec.queue_path stimulus.now) }
{
    let mut path = String::from_str(alloc, stimulus)?;
    path.push_str(".queue.vcd")?;
    Ok(path)
}

/// Copies of the stimuli's paths, by lane.
pub fn stimulus_paths(alloc: Global, job: &Job) -> Result<Vec<String>, AllocError>
    ensures { IfOk result (λ paths. map string_bytes paths.items ≡ job.now.stimuli) }
{
    let mut paths = Vec::new(alloc);
    for stimulus in job.stimuli.as_slice() {
        paths.push(String::from_str(alloc, stimulus.as_str())?)?;
    }
    Ok(paths)
}

/// The waveforms' paths in a run, by lane: the stimulus's path with `.vcd` added. The only error is that memory ran out.
pub fn vcd_paths(alloc: Global, job: &Job) -> Result<Vec<String>, AllocError>
    ensures { IfOk result (λ paths. map string_bytes paths.items ≡ map spec.vcd_path job.now.stimuli) }
{
    let mut paths = Vec::new(alloc);
    for stimulus in job.stimuli.as_slice() {
        paths.push(vcd_path(alloc, stimulus.as_str())?)?;
    }
    Ok(paths)
}

/// The waveforms' paths where the event queue runs the lanes, by lane: the stimulus's path with `.queue.vcd` added. The only error
/// is that memory ran out.
pub fn queue_paths(alloc: Global, job: &Job) -> Result<Vec<String>, AllocError>
    ensures { IfOk result (λ paths. map string_bytes paths.items ≡ map spec.queue_path job.now.stimuli) }
{
    let mut paths = Vec::new(alloc);
    for stimulus in job.stimuli.as_slice() {
        paths.push(queue_path(alloc, stimulus.as_str())?)?;
    }
    Ok(paths)
}

//! The job that the words of the command line call for.

ghost use Rattle.std.specs.Prelude.{◌≡◌, ◌↔◌, map, option_map, IfOk, string_bytes};
ghost use Rattle.vs_job.specs.Job.{job, IsJob};
ghost use Rattle.vs_job.specs.declared.job.JobError.TheVariants.{Memory};

use crate::text::{Text, Texts};
use crate::words::read_line;
use std::alloc::{AllocError, Global};
use thiserror::Error;

/// What is done with the lanes of a job.
#[derive(Clone, Copy, PartialEq, Eq, Debug)]
pub enum Mode {
    /// `run`: a waveform is written for each lane.
    Run,
    /// `check`: each lane is compared with what its stimulus wants of the outputs, and no file is
    /// written.
    Check,
    /// `queue`: one lane is run by the event queue itself (IEEE 1364-2005, clause 11), its steps in the
    /// order that this number chooses, and its waveform is written.
    Queue {
        /// Any number of 64 bits.
        order: u64,
    },
}

/// What to run or to check: one design with one stimulus for each lane.
#[derive(Debug, Drop)]
pub struct Job {
    /// Whether waveforms are written, or outputs compared, or the event queue runs the lane.
    pub mode: Mode,
    /// The name of the top module. None: the top is the one module of the text that no instance of any module names.
    pub top: Option<Text>,
    /// The names of the top's clock inputs, which rise and fall together. No name: every input of the top is a data input.
    pub clocks: Texts,
    /// Half a clock period in units of time, from 1 to 1,000,000.
    pub half: u32,
    /// Whether all signals that ports join have one identifier code in a waveform, or each signal one
    /// of its own.
    pub share: bool,
    /// What stands before the design's text: a line for each macro that the words define, 65,536 bytes
    /// at most.
    pub head: Text,
    /// The path of the design.
    pub design: Text,
    /// The paths of the design's further files, 64 at most, whose texts stand behind it in this order.
    pub others: Texts,
    /// The path of each lane's stimulus, for 1 to 256 lanes, and for one alone where the event queue
    /// runs it.
    pub stimuli: Texts,
}

impl Job {
    /// The name of the top module, if one is given, as bytes.
    pub fn top_bytes(&self) -> Option<&[u8]>
        ensures { option_map (λ t. t.now) result ≡ self.now.top }
    {
        match &self.top {
            Some(top) => Some(top.as_bytes()),
            None => None,
        }
    }

    /// The names of the top's clock inputs, as bytes, in the order of the words.
    pub fn clock_names(&self, alloc: Global) -> Result<Vec<&[u8]>, AllocError>
        ensures { IfOk result (λ names. map (λ c. c.now) names.items ≡ self.now.clocks) }
    {
        self.clocks.bytes(alloc)
    }
}

/// Why words give no job.
#[derive(Clone, Copy, PartialEq, Eq, Debug, Error)]
pub enum JobError {
    /// 1: the words call for no job.
    #[error("the words call for no job")]
    Usage,
    /// Memory ran out.
    #[error("out of memory")]
    Memory,
}

impl From<AllocError> for JobError {
    ghost from_gives = { λ _ e. e ≡ Memory };

    fn from(_error: AllocError) -> JobError {
        JobError::Memory
    }
}

/// Reads the words of the command line, the program's own name first:
/// `cyclesim run [--top T] [--clock C[,C]..] [--half H] [--define NAME[=TEXT]].. [--with PATH].. [--share] DESIGN STIM..`, the
/// same with `check` in the place of `run` and without `--share`, or
/// `cyclesim queue --order N [--top T] [--clock C[,C]..] [--half H] [--define NAME[=TEXT]].. [--with PATH].. DESIGN STIM`.
///
/// The options stand anywhere behind the command, each once but for `--define` and `--with`, all but `--share` with
/// the value in the next word or, as in `--top=T`, behind the first `=`. `--` ends them: each word behind it is a path.
/// Before it no value and no path begins with `-`. H is a decimal number from 1 to 1,000,000 without a
/// sign or a leading zero, and 5 where it isn't given. N is a decimal number from 0 to
/// 18,446,744,073,709,551,615 without a sign or a leading zero. Without `--top` the text has one module that no instance of any
/// module names, and that is the top. The value of `--clock` is one name or more, parted by commas; without it the design has no clock.
/// The first path is the design, and 1 to 256 stimuli follow, with `queue` one alone. A value of `--with` is the path of a
/// further file of the design, of which there are 64 at most.
///
/// A value of `--define` is a simple identifier (IEEE 1364-2005, 3.7), or one with `=` and a text of
/// printable characters of ASCII, which has neither `\` nor `/*`. There are 64 at most, and their
/// lines have 65,536 bytes at most.
///
/// `Usage` comes exactly where the words are no such list, before any memory is taken.
pub fn read_job(alloc: Global, words: &[String]) -> Result<Job, JobError>
    ensures ok { IfOk result (λ j. job (map string_bytes words.now) ≡ Some j) }
    ensures in_range { IfOk result IsJob }
    ensures usage { (result ≡ Err JobError.Usage) ↔ (job (map string_bytes words.now) ≡ None) }
{
    let Some(line) = read_line(words) else {
        return Err(JobError::Usage);
    };
    let Some(command) = line.called() else {
        return Err(JobError::Usage);
    };
    let job = command.to_job(alloc)?;
    Ok(job)
}

//! The footprints of a design's processes.

ghost use Rattle.std.specs.Prelude.{◌≡◌, ◌<◌, ◌≤◌, ◌^◌, map, length};
ghost use Rattle.vs_reads.specs.Footprint.{reads_at, writes_at, waits_at};

use smallvec::SmallVec;
use std::marker::Model;

/// The bits that one process reads, writes and waits on, each list ascending.
#[derive(Drop)]
pub(crate) struct ProcessBits {
    pub(crate) reads: SmallVec<u32, 8>,
    pub(crate) writes: SmallVec<u32, 8>,
    pub(crate) waits: SmallVec<u32, 8>,
}

/// For each process of a design the bits that it reads, writes and waits on.
#[derive(Drop)]
pub struct Footprints {
    processes: Vec<ProcessBits>,
}

impl Model for Footprints {
    ghost use Rattle.std.specs.Prelude.{List};
    ghost use Rattle.vs_reads.specs.Footprint.{Footprint};

    ghost Value = { List Footprint };

    ghost use Rattle.vs_reads.specs.Kept.{kept_footprints, IsWithinLimits};

    ghost view = { kept_footprints };

    ghost invariant = { IsWithinLimits };
}

impl Footprints {
    ghost use Rattle.vs_reads.specs.Kept.{footprint_of};

    /// These footprints, at most 2^16.
    pub(crate) fn of(processes: Vec<ProcessBits>) -> Footprints
        requires { length processes.items ≤ 2 ^ 16 }
        ensures { result ≡ map footprint_of processes.items }
    {
        Footprints { processes }
    }

    /// How many processes there are.
    pub fn count(&self) -> u32
        ensures { result ≡ length self.now }
    {
        self.processes.len() as u32
    }

    /// The bits that process p reads, in ascending order; a combinational block's are without those that it writes.
    pub fn reads(&self, p: u32) -> &[u32]
        requires { p < length self.now }
        ensures { result.now ≡ reads_at self.now p }
    {
        self.processes[p as usize].reads.as_slice()
    }

    /// The bits that process p writes, in ascending order.
    pub fn writes(&self, p: u32) -> &[u32]
        requires { p < length self.now }
        ensures { result.now ≡ writes_at self.now p }
    {
        self.processes[p as usize].writes.as_slice()
    }

    /// The bits that process p waits on, in ascending order. An assign and a clocked block have none.
    pub fn waits(&self, p: u32) -> &[u32]
        requires { p < length self.now }
        ensures { result.now ≡ waits_at self.now p }
    {
        self.processes[p as usize].waits.as_slice()
    }
}

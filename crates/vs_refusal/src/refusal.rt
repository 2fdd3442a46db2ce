//! Refusals and their fields.
ghost use Rattle.std.specs.Prelude.{◌≡◌, ◌≤◌, ◌-◌, List, length, slice_get};
ghost use Rattle.vs_refusal.specs.declared.refusal.Field.{Field};
ghost use Rattle.vs_refusal.specs.Refusals.{number, name, fields, few_fields, label_text};
ghost use Rattle.vs_refusal.specs.Behind.{behind};

use crate::names::{AtName, BareName, LaneName, LineName, ProcessName};
use crate::processes::Processes;

/// Why a run was refused. Places are in bytes of the design; processes count in the order of the
/// text, initial ones among them; signals and bits are the numbers of the elaborated design; lanes
/// count from 0 and lines from 1.
#[derive(Debug, Drop)]
pub enum Refusal {
    /// A refusal that carries nothing.
    Bare(BareName),
    /// Two paths are equal: the places that they belong to.
    SamePath {
        first: u32,
        second: u32,
    },
    /// A refusal with the place where it stands.
    At(AtName, u32),
    /// The design's size is over 16,777,216 plane operations a half-period.
    TooLarge {
        size: u64,
    },
    /// A combinational block may leave the bit unassigned.
    Latch {
        process: u32,
        bit: u32,
        at: u32,
    },
    /// A combinational block reads the signal and its event list doesn't name it (9.7.4).
    Sensitivity {
        process: u32,
        signal: u32,
        at: u32,
    },
    /// Two processes write the bit, initial ones among them, or an assign's target has it twice.
    TwoDrivers {
        bit: u32,
        first: u32,
        second: u32,
        at: u32,
    },
    /// A refusal with a process and the place where that stands.
    Process(ProcessName, u32, u32),
    /// Each of the processes writes a bit that the next one reads or waits on, the last one for the first.
    Cycle {
        processes: Processes,
        at: u32,
    },
    /// A clocked block reads the bit, and it depends on what another one writes by a blocking assignment at the same edge (11.5).
    Race {
        process: u32,
        bit: u32,
        at: u32,
    },
    /// A refusal of a lane's stimulus.
    Lane(LaneName, u32),
    /// A refusal of a line of a lane's stimulus.
    Line(LineName, u32, u64),
}

/// What a field tells.
#[derive(Clone, Copy, PartialEq, Eq, Debug)]
pub enum Label {
    At,
    Size,
    Process,
    Bit,
    Signal,
    First,
    Second,
    Lane,
    Line,
    Lanes,
    Vectors,
    Settlings,
    Place,
    Missed,
    Output,
    Slots,
    Order,
}

/// A field with one number.
#[derive(Clone, Copy, PartialEq, Eq, Debug)]
pub struct Field {
    pub label: Label,
    pub value: u64,
}

impl Label {
    /// The label as it is written, with the blank before it.
    pub fn text(self) -> &'static str
        ensures { result.now ≡ label_text self }
    {
        match self {
            Label::At => " at=",
            Label::Size => " size=",
            Label::Process => " process=",
            Label::Bit => " bit=",
            Label::Signal => " signal=",
            Label::First => " first=",
            Label::Second => " second=",
            Label::Lane => " lane=",
            Label::Line => " line=",
            Label::Lanes => " lanes=",
            Label::Vectors => " vectors=",
            Label::Settlings => " settlings=",
            Label::Place => " place=",
            Label::Missed => " missed=",
            Label::Output => " output=",
            Label::Slots => " slots=",
            Label::Order => " order=",
        }
    }
}

impl Refusal {
    /// The refusal's number.
    pub fn number(&self) -> u32
        ensures { result ≡ number self.now }
    {
        match self {
            Refusal::Bare(name) => name.number(),
            Refusal::SamePath { .. } => 2,
            Refusal::At(name, _) => name.number(),
            Refusal::TooLarge { .. } => 52,
            Refusal::Latch { .. } => 53,
            Refusal::Sensitivity { .. } => 55,
            Refusal::TwoDrivers { .. } => 60,
            Refusal::Process(name, _, _) => name.number(),
            Refusal::Cycle { .. } => 64,
            Refusal::Race { .. } => 67,
            Refusal::Lane(name, _) => name.number(),
            Refusal::Line(name, _, _) => name.number(),
        }
    }

    /// The refusal's name.
    pub fn name(&self) -> &'static str
        ensures { result.now ≡ name self.now }
    {
        match self {
            Refusal::Bare(name) => name.text(),
            Refusal::SamePath { .. } => "SamePath",
            Refusal::At(name, _) => name.text(),
            Refusal::TooLarge { .. } => "TooLarge",
            Refusal::Latch { .. } => "Latch",
            Refusal::Sensitivity { .. } => "Sensitivity",
            Refusal::TwoDrivers { .. } => "TwoDrivers",
            Refusal::Process(name, _, _) => name.text(),
            Refusal::Cycle { .. } => "Cycle",
            Refusal::Race { .. } => "Race",
            Refusal::Lane(name, _) => name.text(),
            Refusal::Line(name, _, _) => name.text(),
        }
    }
}

/// A place of the text, counted from byte n of it, or 0 where it stands before that byte.
fn place_behind(n: u32, at: u32) -> u32
    ensures { result ≡ at - n }
{
    at.saturating_sub(n)
}

impl Refusal {
    /// The refusal with its place counted from byte n of the text, or 0 where it stands before that
    /// byte. All else is kept. It takes no memory.
    pub fn behind(self, n: u32) -> Refusal
        ensures { result ≡ behind n self }
    {
        match self {
            Refusal::Bare(name) => Refusal::Bare(name),
            Refusal::SamePath { first, second } => Refusal::SamePath { first, second },
            Refusal::At(name, at) => Refusal::At(name, place_behind(n, at)),
            Refusal::TooLarge { size } => Refusal::TooLarge { size },
            Refusal::Latch { process, bit, at } => Refusal::Latch {
                process,
                bit,
                at: place_behind(n, at),
            },
            Refusal::Sensitivity {
                process,
                signal,
                at,
            } => Refusal::Sensitivity {
                process,
                signal,
                at: place_behind(n, at),
            },
            Refusal::TwoDrivers {
                bit,
                first,
                second,
                at,
            } => Refusal::TwoDrivers {
                bit,
                first,
                second,
                at: place_behind(n, at),
            },
            Refusal::Process(name, process, at) => {
                Refusal::Process(name, process, place_behind(n, at))
            }
            Refusal::Cycle { processes, at } => Refusal::Cycle {
                processes,
                at: place_behind(n, at),
            },
            Refusal::Race { process, bit, at } => Refusal::Race {
                process,
                bit,
                at: place_behind(n, at),
            },
            Refusal::Lane(name, lane) => Refusal::Lane(name, lane),
            Refusal::Line(name, lane, line) => Refusal::Line(name, lane, line),
        }
    }
}

/// What has fields with one number each.
pub(crate) trait Fields {
    ghost fields_of: { Self → List Field };

    /// Field n, from 0.
    fn field(&self, n: usize) -> Option<Field>
        ensures { result ≡ slice_get (fields_of self.now) n };

    ghost few: { (f : Self) → length (fields_of f) ≤ 5 };
}

impl Fields for Refusal {
    ghost fields_of = { fields };

    ghost few = { few_fields };

    fn field(&self, n: usize) -> Option<Field> {
        let (label, value) = match (self, n) {
            (Refusal::SamePath { first, .. }, 0) => (Label::First, *first as u64),
            (Refusal::SamePath { second, .. }, 1) => (Label::Second, *second as u64),
            (Refusal::At(_, at), 0) => (Label::At, *at as u64),
            (Refusal::TooLarge { size }, 0) => (Label::Size, *size),
            (Refusal::Latch { process, .. }, 0) => (Label::Process, *process as u64),
            (Refusal::Latch { bit, .. }, 1) => (Label::Bit, *bit as u64),
            (Refusal::Latch { at, .. }, 2) => (Label::At, *at as u64),
            (Refusal::Sensitivity { process, .. }, 0) => (Label::Process, *process as u64),
            (Refusal::Sensitivity { signal, .. }, 1) => (Label::Signal, *signal as u64),
            (Refusal::Sensitivity { at, .. }, 2) => (Label::At, *at as u64),
            (Refusal::TwoDrivers { bit, .. }, 0) => (Label::Bit, *bit as u64),
            (Refusal::TwoDrivers { first, .. }, 1) => (Label::First, *first as u64),
            (Refusal::TwoDrivers { second, .. }, 2) => (Label::Second, *second as u64),
            (Refusal::TwoDrivers { at, .. }, 3) => (Label::At, *at as u64),
            (Refusal::Process(_, process, _), 0) => (Label::Process, *process as u64),
            (Refusal::Process(_, _, at), 1) => (Label::At, *at as u64),
            (Refusal::Cycle { at, .. }, 0) => (Label::At, *at as u64),
            (Refusal::Race { process, .. }, 0) => (Label::Process, *process as u64),
            (Refusal::Race { bit, .. }, 1) => (Label::Bit, *bit as u64),
            (Refusal::Race { at, .. }, 2) => (Label::At, *at as u64),
            (Refusal::Lane(_, lane), 0) => (Label::Lane, *lane as u64),
            (Refusal::Line(_, lane, _), 0) => (Label::Lane, *lane as u64),
            (Refusal::Line(_, _, line), 1) => (Label::Line, *line),
            _ => return None,
        };
        Some(Field { label, value })
    }
}

//! How a run ended otherwise than by a refusal.
ghost use Rattle.std.specs.Prelude.{◌≡◌};
ghost use Rattle.vs_refusal.specs.Endings.{ending_text, ending_fields, few_ending_fields};

use crate::refusal::{Field, Fields, Label};

/// How a run ended, if it wasn't refused.
#[derive(Clone, Copy, PartialEq, Eq, Debug)]
pub enum Ending {
    /// It is done: the number of lanes, of vectors of all lanes, of half-periods settled, and the
    /// size of the design in plane operations a half-period.
    Done {
        lanes: u32,
        vectors: u64,
        settlings: u64,
        size: u64,
    },
    /// A check is done: the same numbers, and how many lanes missed what their stimuli want.
    Checked {
        lanes: u32,
        vectors: u64,
        settlings: u64,
        size: u64,
        missed: u32,
    },
    /// A run of the queue is done: the number of vectors, of slots, and the order that its steps were
    /// taken in.
    Ordered {
        vectors: u64,
        slots: u64,
        order: u64,
    },
    /// A call that reads failed at this place.
    ReadFault {
        place: u32,
    },
    /// A call that writes failed at this place.
    WriteFault {
        place: u32,
    },
    /// There was no memory.
    Memory,
}

impl Ending {
    /// The beginning of the line.
    pub fn text(&self) -> &'static str
        ensures { result.now ≡ ending_text self.now }
    {
        match self {
            Ending::Done { .. } => "ok",
            Ending::Checked { .. } => "ok",
            Ending::Ordered { .. } => "ok",
            Ending::ReadFault { .. } => "refused 4 ReadFault",
            Ending::WriteFault { .. } => "refused 5 WriteFault",
            Ending::Memory => "refused 6 Memory",
        }
    }
}

impl Fields for Ending {
    ghost fields_of = { ending_fields };

    ghost few = { few_ending_fields };

    fn field(&self, n: usize) -> Option<Field> {
        let (label, value) = match (self, n) {
            (Ending::Done { lanes, .. }, 0) => (Label::Lanes, *lanes as u64),
            (Ending::Done { vectors, .. }, 1) => (Label::Vectors, *vectors),
            (Ending::Done { settlings, .. }, 2) => (Label::Settlings, *settlings),
            (Ending::Done { size, .. }, 3) => (Label::Size, *size),
            (Ending::Checked { lanes, .. }, 0) => (Label::Lanes, *lanes as u64),
            (Ending::Checked { vectors, .. }, 1) => (Label::Vectors, *vectors),
            (Ending::Checked { settlings, .. }, 2) => (Label::Settlings, *settlings),
            (Ending::Checked { size, .. }, 3) => (Label::Size, *size),
            (Ending::Checked { missed, .. }, 4) => (Label::Missed, *missed as u64),
            (Ending::Ordered { vectors, .. }, 0) => (Label::Vectors, *vectors),
            (Ending::Ordered { slots, .. }, 1) => (Label::Slots, *slots),
            (Ending::Ordered { order, .. }, 2) => (Label::Order, *order),
            (Ending::ReadFault { place }, 0) => (Label::Place, *place as u64),
            (Ending::WriteFault { place }, 0) => (Label::Place, *place as u64),
            _ => return None,
        };
        Some(Field { label, value })
    }
}

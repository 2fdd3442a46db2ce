//! What is kept of an accepted text.

ghost use Rattle.std.specs.Prelude.{◌≡◌};

use std::marker::Model;
use vs_base::Text;
use vs_clock::Clocks;
use vs_level::Order;
use vs_reads::Footprints;
use vs_typed::Typed;

/// The design of an accepted text, and what was found out of it.
#[derive(Drop)]
pub struct Accepted {
    typed: Typed,
    size: u64,
    footprints: Footprints,
    clocks: Clocks,
    order: Order,
    outputs: Vec<Text>,
    selects: Vec<u32>,
}

impl Model for Accepted {
    ghost use Rattle.vs_accept.specs.Lent.{Acceptance};

    ghost Value = { Acceptance };

    ghost view = { λ a. record { flat = a.typed; size = a.size; footprints = a.footprints; clocks = a.clocks; order = a.order; outputs = a.outputs.items; selects = a.selects.items } };
}

impl Accepted {
    /// A design with the size that is told of it, its footprints, its clocks, an order of its processes, the names of its top's outputs, and the first bits of its select inputs.
    pub(crate) fn of(
        typed: Typed,
        size: u64,
        footprints: Footprints,
        clocks: Clocks,
        order: Order,
        outputs: Vec<Text>,
        selects: Vec<u32>,
    ) -> Accepted
        ensures { result ≡ record { flat = typed; size = size; footprints = footprints; clocks = clocks; order = order; outputs = outputs.items; selects = selects.items } }
    {
        Accepted {
            typed,
            size,
            footprints,
            clocks,
            order,
            outputs,
            selects,
        }
    }

    /// The flat design, with the lengths of its expressions. None of its blocks is dead.
    pub fn typed(&self) -> &Typed
        ensures { result.now ≡ self.now.flat }
    {
        &self.typed
    }

    /// The size that is told of the design: that of the elaborated one, or of what is left of it without its dead blocks, if that is greater.
    pub fn size(&self) -> u64
        ensures { result ≡ self.now.size }
    {
        self.size
    }

    /// The bits that each process reads, writes and waits on.
    pub fn footprints(&self) -> &Footprints
        ensures { result.now ≡ self.now.footprints }
    {
        &self.footprints
    }

    /// The clocks, their nets and the resets.
    pub fn clocks(&self) -> &Clocks
        ensures { result.now ≡ self.now.clocks }
    {
        &self.clocks
    }

    /// A level order of the assigns and combinational blocks.
    pub fn order(&self) -> &Order
        ensures { result.now ≡ self.now.order }
    {
        &self.order
    }

    /// The names of the outputs of the text's top, in the order of their declarations.
    pub fn outputs(&self) -> &[Text]
        ensures { result.now ≡ self.now.outputs }
    {
        self.outputs.as_slice()
    }

    /// The first bits of the select inputs, of which each vector has to be known, in the order of their declarations.
    pub fn selects(&self) -> &[u32]
        ensures { result.now ≡ self.now.selects }
    {
        self.selects.as_slice()
    }
}

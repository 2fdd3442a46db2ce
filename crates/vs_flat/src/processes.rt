//! Scopes, signals and processes (IEEE 1364-2005, clauses 3, 6, 9 and 12).

ghost use Rattle.std.specs.Prelude.{◌≡◌};
ghost use Rattle.std.specs.List.{list_any};
ghost use Rattle.vs_flat.specs.Events.{is_edge_event};

use vs_base::{Edge, List, Text};
use vs_four::Range;

/// A module instance or a generate block (IEEE 1364-2005, 12.1 and 12.4). Scope 0 is the top.
#[derive(Drop)]
pub struct Scope {
    pub name: Text,
    /// The scope that it stands in; the top has none.
    pub parent: Option<u32>,
    /// Whether it is an instance.
    pub instance: bool,
}

/// A net or a variable (IEEE 1364-2005, 3.2).
#[derive(Drop)]
pub struct Signal {
    pub name: Text,
    /// The scope that declares it.
    pub scope: u32,
    /// Whether it is a net.
    pub net: bool,
    /// Whether it is an input of the top.
    pub input: bool,
    /// The declared bounds of a vector; a scalar has none.
    pub range: Option<Range>,
    pub signed: bool,
    /// The number of its least significant bit. The others follow; of a memory, word by word in order of address.
    pub first_bit: u32,
    /// Of a memory (IEEE 1364-2005, 4.9) its addresses, from `right`, the least, to `left`; `range` is then that of each word.
    pub words: Option<Range>,
    /// Whether it is declared as an integer (IEEE 1364-2005, 4.8), which waveforms tell.
    pub integer: bool,
}

/// An assign or a block.
#[derive(Drop)]
pub struct Process {
    /// The number of its item's first token in the text.
    pub at: u32,
    pub kind: Kind,
}

/// An initial process (IEEE 1364-2005, 9.9.1), or the initial value in a variable's declaration (IEEE 1364-2005, 6.2.1).
#[derive(Clone, Copy, PartialEq, Eq, Debug)]
pub struct Initial {
    /// The number of its item's first token in the text.
    pub at: u32,
    /// How many of the processes stand before it in the text.
    pub behind: u32,
    pub statement: u32,
}

/// A process or an initial process, by its number among those of its kind.
#[derive(Clone, Copy, PartialEq, Eq, Debug)]
pub enum AnyProcess {
    Process(u32),
    Initial(u32),
}

/// What a process is.
#[derive(Drop)]
pub enum Kind {
    /// A continuous assignment (IEEE 1364-2005, 6.1).
    Assign {
        target: u32,
        expr: u32,
        port: Port,
    },
    /// An `always` (IEEE 1364-2005, 9.9.2); `star` is `@*`, else the events are listed.
    Block {
        star: bool,
        events: List<Event>,
        statement: u32,
    },
}

/// Whether an assign is written, or implied by an input or output port (IEEE 1364-2005, 12.3.9).
#[derive(Clone, Copy, PartialEq, Eq, Debug)]
pub enum Port {
    Written,
    Input,
    Output,
}

/// What a block waits for (IEEE 1364-2005, 9.7.2).
#[derive(Clone, Copy, PartialEq, Eq, Debug)]
pub struct Event {
    pub signal: u32,
    pub edge: Edge,
}

/// Whether an edge is among the events of a block, so that the block is clocked (IEEE 1364-2005, 9.7.2).
pub fn has_edge(events: &[Event]) -> bool
    ensures { result ≡ list_any is_edge_event events.now }
{
    events.iter().any(|e| e.edge.is_edge())
}

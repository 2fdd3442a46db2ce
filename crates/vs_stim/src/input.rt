//! The data inputs that a stimulus drives, and the outputs of which it may say what they have to be.

ghost use Rattle.std.specs.Prelude.{◌≡◌, bytes_eq};

use std::marker::Model;

/// The name of an input, seen as the list of its bytes.
#[derive(Debug, Drop)]
pub struct Name {
    bytes: Vec<u8>,
}

impl Model for Name {
    ghost use Rattle.std.specs.Prelude.{List, ℕ};

    ghost Value = { List ℕ };

    ghost view = { λ name. name.bytes.items };
}

impl Name {
    /// The name of these bytes.
    pub fn of(bytes: Vec<u8>) -> Name
        ensures { result ≡ bytes.items }
    {
        Name { bytes }
    }

    /// The bytes, in order.
    pub fn as_slice(&self) -> &[u8]
        ensures { result.now ≡ self.now }
    {
        self.bytes.as_slice()
    }

    /// Whether these are the name's bytes.
    pub(crate) fn is(&self, bytes: &[u8]) -> bool
        ensures { result ≡ bytes_eq bytes.now self.now }
    {
        bytes == self.bytes.as_slice()
    }

    /// The bytes as a `Vec`.
    pub fn into_vec(self) -> Vec<u8>
        ensures { result.items ≡ self }
    {
        let Name { bytes } = self;
        bytes
    }
}

/// A data input of the design: its name, its length in bits, from 1 to 64, whether it is a reset input, one at the root of the
/// second edge of a clocked block (IEEE 1364-2005, 9.7.2), and whether it is a select input, one at the root of the selector of a
/// case that has an arm for each value (9.5).
#[derive(Debug, Drop)]
pub struct Input {
    pub name: Name,
    pub length: u32,
    pub reset: bool,
    pub select: bool,
}

/// An output of the design's top: its name, and its length in bits, from 1 to 64.
#[derive(Debug, Drop)]
pub struct Output {
    pub name: Name,
    pub length: u32,
}

/// The data inputs and the outputs of a design, which a header may name, and whether it has to name outputs. Contracts see the lists.
#[derive(Debug, Drop)]
pub struct Ports {
    inputs: Vec<Input>,
    outputs: Vec<Output>,
    demanded: bool,
}

impl Model for Ports {
    ghost use Rattle.vs_stim.specs.Header.{PortLists};

    ghost Value = { PortLists };

    ghost view = { λ ports. record { inputs = ports.inputs.items; outputs = ports.outputs.items; demanded = ports.demanded } };
}

impl Ports {
    /// These data inputs and outputs, each in the design's order. Where outputs are demanded, a header names one at least.
    pub fn of(inputs: Vec<Input>, outputs: Vec<Output>, demanded: bool) -> Ports
        ensures { result ≡ record { inputs = inputs.items; outputs = outputs.items; demanded = demanded } }
    {
        Ports {
            inputs,
            outputs,
            demanded,
        }
    }

    /// The data inputs, in the design's order.
    pub fn inputs(&self) -> &[Input]
        ensures { result.now ≡ self.now.inputs }
    {
        self.inputs.as_slice()
    }

    /// The outputs, in the design's order.
    pub fn outputs(&self) -> &[Output]
        ensures { result.now ≡ self.now.outputs }
    {
        self.outputs.as_slice()
    }

    /// Whether a header has to name outputs.
    pub fn demanded(&self) -> bool
        ensures { result ≡ self.now.demanded }
    {
        self.demanded
    }
}

/// What a field of each vector holds: the value of this input, which has this length in bits and may be a reset input or a select input.
///
/// Inputs are numbered from 0 in the design's order.
#[derive(Clone, Copy, PartialEq, Eq, Debug)]
pub struct Column {
    pub input: usize,
    pub length: u32,
    pub reset: bool,
    pub select: bool,
}

/// What a field of each vector behind `->` holds: what this output, which has this length in bits, is wanted to be.
///
/// Outputs are numbered from 0 in the design's order.
#[derive(Clone, Copy, PartialEq, Eq, Debug)]
pub struct Expected {
    pub output: usize,
    pub length: u32,
}

/// What the fields of each vector hold: the columns of inputs, and behind `->` those of expected outputs, each in the header's order. Contracts see
/// their lists.
#[derive(Drop)]
pub(crate) struct Columns {
    pub(crate) inputs: Vec<Column>,
    pub(crate) expected: Vec<Expected>,
}

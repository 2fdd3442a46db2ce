//! The clocks and the resets of a design.

ghost use Rattle.std.specs.Prelude.{◌≡◌};

use crate::nets::Nets;
use crate::resets::Reset;
use std::marker::Model;

/// The clocks of a design: their inputs, where it has any, the nets that copy them and that copy other inputs, and the resets of its blocks.
#[derive(Drop)]
pub struct Clocks {
    inputs: Vec<u32>,
    bits: Vec<u32>,
    nets: Nets,
    resets: Vec<Option<Reset>>,
    reset_inputs: Vec<u32>,
}

impl Model for Clocks {
    ghost use Rattle.vs_clock.specs.Clocked.{Clocked, clocked_of};

    ghost Value = { Clocked };

    ghost view = { clocked_of };
}

impl Clocks {
    ghost use Rattle.vs_clock.specs.Nets.{is_clock_bit, root_at};
    ghost use Rattle.vs_clock.specs.Resets.{reset_at};

    /// The clocks with these inputs, their bits, these nets and resets.
    pub(crate) fn of(
        inputs: Vec<u32>,
        bits: Vec<u32>,
        nets: Nets,
        resets: Vec<Option<Reset>>,
        reset_inputs: Vec<u32>,
    ) -> Clocks
        ensures { result ≡ record { inputs = inputs.items; bits = bits.items; nets = nets; resets = resets.items; reset_inputs = reset_inputs.items } }
    {
        Clocks {
            inputs,
            bits,
            nets,
            resets,
            reset_inputs,
        }
    }

    /// The numbers of the clock inputs, in the order in which they are named. None: no clock is named, and each input is a data input.
    pub fn inputs(&self) -> &[u32]
        ensures { result.now ≡ self.now.inputs }
    {
        self.inputs.as_slice()
    }

    /// The bits of the clock inputs. Where no clock is named it is one, the number of the design's bits, which is none of them.
    pub fn bits(&self) -> &[u32]
        ensures { result.now ≡ self.now.bits }
    {
        self.bits.as_slice()
    }

    /// Whether this bit is a clock net's. Without a clock input no bit of the design is.
    pub fn is_clock(&self, bit: u32) -> bool
        ensures { result ≡ is_clock_bit self.now.nets bit }
    {
        self.nets.is_clock(bit)
    }

    /// The bit of the data input of the top that this bit copies through assigns, where it is one that may be a reset.
    pub fn root(&self, bit: u32) -> Option<u32>
        ensures { result ≡ root_at self.now.nets bit }
    {
        self.nets.root(bit)
    }

    /// The reset of the block of this number. None: the process is none, or has no reset.
    pub fn reset(&self, p: u32) -> Option<Reset>
        ensures { result ≡ reset_at self.now.resets p }
    {
        match self.resets.get(p as usize) {
            Some(reset) => *reset,
            None => None,
        }
    }

    /// The bits of the data inputs at the root of the resets, in order of declaration.
    pub fn reset_inputs(&self) -> &[u32]
        ensures { result.now ≡ self.now.reset_inputs }
    {
        self.reset_inputs.as_slice()
    }
}

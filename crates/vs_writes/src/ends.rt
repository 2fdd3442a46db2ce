//! The values of all bits at the ends of slots.

ghost use Rattle.std.specs.Prelude.{◌≡◌, ◌<◌, ◌++◌, [], ◌∷◌, length, slice_get, Some, OnOk};

use std::alloc::{AllocError, Global};
use std::marker::Model;
use vs_four::Bit4;

/// The values of all bits at the end of a slot.
#[derive(Drop)]
struct End {
    bits: Vec<Bit4>,
}

impl Model for End {
    ghost use Rattle.std.specs.Prelude.{List};
    ghost use Rattle.vs_four.specs.declared.Bit4.{Bit4};

    ghost Value = { List Bit4 };

    ghost view = { λ e. e.bits.items };
}

/// The values of all bits of a design at the end of each slot: two slots a vector, the fall of the clock and its rise. Behind them is the value of a clock that is none of the design's bits.
#[derive(Drop)]
pub struct Ends {
    slots: Vec<End>,
}

impl Model for Ends {
    ghost use Rattle.std.specs.Prelude.{List};
    ghost use Rattle.vs_four.specs.declared.Bit4.{Bit4};

    ghost Value = { List (List Bit4) };

    ghost view = { λ e. e.slots.items };
}

impl Ends {
    /// Of no slot.
    pub fn new(alloc: Global) -> Ends
        ensures { result ≡ [] }
    {
        Ends {
            slots: Vec::new(alloc),
        }
    }

    /// With the values at the end of one slot more.
    pub fn push(&mut self, alloc: Global, values: &[Bit4]) -> Result<(), AllocError>
        ensures { OnOk result (self.new ≡ self.old ++ values.now ∷ []) }
    {
        let bits = Vec::from_slice(alloc, values)?;
        self.slots.push(End { bits })?;
        Ok(())
    }

    /// How many slots there are.
    pub fn len(&self) -> usize
        ensures { result ≡ length self.now }
    {
        self.slots.len()
    }

    /// The values of all bits at the end of this slot, each bit by its number.
    pub fn slot(&self, slot: usize) -> &[Bit4]
        requires { slot < length self.now }
        ensures { slice_get self.now slot ≡ Some result.now }
    {
        self.slots[slot].bits.as_slice()
    }
}

//! Which slots hold the values of the bits within a block.

ghost use Rattle.std.specs.Prelude.{◌≡◌, ◌<◌, map, length, slice_index, All, IfOk, OnOk, Some};
ghost use Rattle.vs_values.specs.Environments.{placed};

use std::alloc::{AllocError, Global};
use vs_values::{Environment, picked, place};

/// The slots that hold the bits' values now, and those that hold the values that they have once the updates so far are made (IEEE 1364-2005, 9.2.2). A blocking assignment changes the first, and a nonblocking one the second.
#[derive(Drop)]
pub(crate) struct Environments {
    pub values: Environment,
    pub ahead: Environment,
}

/// The slots of some bits in both.
#[derive(Drop)]
pub(crate) struct Slots {
    pub values: Vec<u32>,
    pub ahead: Vec<u32>,
}

impl Environments {
    /// The slots of these bits.
    pub fn picked(&self, alloc: Global, bits: &[u32]) -> Result<Slots, AllocError>
        requires values { All (λ b. b < length self.now.values) bits.now }
        requires ahead { All (λ b. b < length self.now.ahead) bits.now }
        ensures values { IfOk result (λ slots. slots.values.items ≡ map (slice_index self.now.values) bits.now) }
        ensures ahead { IfOk result (λ slots. slots.ahead.items ≡ map (slice_index self.now.ahead) bits.now) }
    {
        let values = picked(alloc, &self.values, bits)?;
        let ahead = picked(alloc, &self.ahead, bits)?;
        Ok(Slots { values, ahead })
    }

    /// Gives these bits these slots, one after the other. On an error some may have theirs.
    pub fn place(&mut self, bits: &[u32], to: &Slots) -> Result<(), AllocError>
        requires values { All (λ b. b < length self.old.values) bits.now }
        requires ahead { All (λ b. b < length self.old.ahead) bits.now }
        requires values_alike { length bits.now ≡ length to.now.values.items }
        requires ahead_alike { length bits.now ≡ length to.now.ahead.items }
        ensures values { OnOk result (self.new.values ≡ placed self.old.values (map Some bits.now) to.now.values.items) }
        ensures ahead { OnOk result (self.new.ahead ≡ placed self.old.ahead (map Some bits.now) to.now.ahead.items) }
    {
        place(&mut self.values, bits, to.values.as_slice())?;
        place(&mut self.ahead, bits, to.ahead.as_slice())
    }

    /// Gives these bits these slots, and answers those that they had. On an error some may have theirs.
    pub fn exchange(&mut self, alloc: Global, bits: &[u32], to: &Slots) -> Result<Slots, AllocError>
        requires values { All (λ b. b < length self.old.values) bits.now }
        requires ahead { All (λ b. b < length self.old.ahead) bits.now }
        requires values_alike { length bits.now ≡ length to.now.values.items }
        requires ahead_alike { length bits.now ≡ length to.now.ahead.items }
        ensures had_values { IfOk result (λ slots. slots.values.items ≡ map (slice_index self.old.values) bits.now) }
        ensures had_ahead { IfOk result (λ slots. slots.ahead.items ≡ map (slice_index self.old.ahead) bits.now) }
        ensures values { OnOk result (self.new.values ≡ placed self.old.values (map Some bits.now) to.now.values.items) }
        ensures ahead { OnOk result (self.new.ahead ≡ placed self.old.ahead (map Some bits.now) to.now.ahead.items) }
    {
        let had = self.picked(alloc, bits)?;
        self.place(bits, to)?;
        Ok(had)
    }
}

//! What the environment drives in a slot: the clocks, and the data inputs.

ghost use Rattle.std.specs.Prelude.{◌≡◌, ◌==◌, ◌+◌, ◌<◌, ◌≤◌, ◌^◌, [], ◌∷◌, drop, length, option_map, slice_get, Some, IfOk, OnOk};
ghost use Rattle.vs_net.specs.Queue.{Slot};
ghost use Rattle.vs_design.specs.Designs as D;
ghost use Rattle.vs_design.specs.Footprints.{contains};
ghost use Rattle.vs_design.specs.Networks.{network_of};
ghost use Rattle.vs_events.specs.Beginning.{after_drives};
ghost use Rattle.vs_events.specs.Held as H;
ghost use Rattle.vs_flat.specs.DesignOf.{design_of};
ghost use Rattle.vs_queue.specs.Driven.{IsSlotOf, drives_from, slot_drives, spare_drives};
ghost use Rattle.vs_queue.specs.Given.{given};
ghost use Rattle.vs_queue.specs.Left.{AreSoFar, IsLeft, level_of};
ghost use Rattle.vs_queue.specs.Machines.{IsMachine};
ghost use Rattle.vs_queue.specs.Running.{IsRunning};

use crate::first::spare_clock;
use crate::machine::Machine;
use crate::vector::Vector;
use std::alloc::{AllocError, Global};
use vs_events::Events;
use vs_flat::{lawful_law, trees_law};
use vs_four::{Bit4, Bits};
use vs_writes::{Update, Write};

/// These bits from this one on get the bits of a value.
fn update_of(alloc: Global, first: u32, value: Bits) -> Result<Update, AllocError>
    requires { first + length value ≤ 2 ^ 32 }
    ensures { IfOk result (λ u. u ≡ given first value) }
{
    let mut update = Update::new(alloc);
    for n in 0..value.len() {
        update.push(Write::new((first + n) as usize, value.get(n)))?;
    }
    Ok(update)
}

/// The one bit gets this value.
fn level(alloc: Global, bit: u32, value: Bit4) -> Result<Update, AllocError>
    ensures { IfOk result (λ u. u ≡ given bit (value ∷ [])) }
{
    let mut update = Update::new(alloc);
    update.push(Write::new(bit as usize, value))?;
    Ok(update)
}

/// The value of this number.
fn value_at(values: &[Bits], n: usize) -> Bits
    requires { n < length values.now }
    ensures value { slice_get values.now n ≡ Some result }
    ensures next { n + 1 < 2 ^ 64 }
{
    values[n]
}

/// What the clocks are driven to: they fall with a vector, and rise without one.
fn level_of(vector: Option<&Vector>) -> Bit4
    ensures { result ≡ level_of (option_map (λ v. v.now) vector.entry) }
{
    match vector {
        Some(_) => Bit4::Zero,
        None => Bit4::One,
    }
}

impl Machine<'_> {
    /// Whether this bit is a clock's.
    fn is_clock(&self, bit: u32) -> bool
        ensures { result ≡ contains self.now.clocks.now.bits bit }
    {
        self.clocks.bits().iter().any(|clock| bit == *clock)
    }

    /// The environment writes the input of this number, and where that is a data input and the clocks fall it takes a value of the vector. How many are taken then is answered.
    fn drive_input(
        &self,
        events: &mut Events,
        vector: Option<&Vector>,
        i: u32,
        taken: usize,
    ) -> Result<usize, AllocError>
        requires there { i < length (D.top_inputs (design_of self.now.typed.now)) }
        requires held { length (design_of self.now.typed.now).processes + length (D.top_inputs (design_of self.now.typed.now)) ≤ length events.old.assigns }
        requires left { (slot : Slot) × IsLeft self.now.clocks.now.bits (drop i (D.top_inputs (design_of self.now.typed.now))) taken (option_map (λ v. v.now) vector) slot }
        ensures driven { (first : H.Events) (slot : Slot) → AreSoFar self.now.clocks.now.bits (option_map (λ v. v.now) vector.entry) (D.top_inputs (design_of self.now.typed.now)) (length (design_of self.now.typed.now).processes) first events.old i taken slot
            → IfOk result (λ t. AreSoFar self.now.clocks.now.bits (option_map (λ v. v.now) vector.entry) (D.top_inputs (design_of self.now.typed.now)) (length (design_of self.now.typed.now).processes) first events.new (i + 1) t slot) }
        ensures held { OnOk result (length events.new.assigns ≡ length events.old.assigns) }
    {
        trees_law();
        lawful_law();
        let flat = self.typed.flat();
        let writer = flat.process_count() + i;
        let bit = flat.signal(flat.top_inputs()[i as usize]).first_bit;
        if self.is_clock(bit) {
            let update = level(self.alloc, bit, level_of(vector))?;
            events.drive(writer, update)?;
            return Ok(taken);
        }
        match vector {
            None => Ok(taken),
            Some(vector) => {
                let given = update_of(self.alloc, bit, value_at(vector.values(), taken))?;
                events.drive(writer, given)?;
                Ok(taken + 1)
            }
        }
    }

    /// The environment writes the inputs of the top: the clocks, where they are some, and where they fall the data inputs, each by one update.
    fn drive_inputs(&self, events: &mut Events, vector: Option<&Vector>) -> Result<(), AllocError>
        requires machine { IsMachine self.now.typed.now self.now.clocks.now self.now.wiring.now self.now.keeper }
        requires running { IsRunning (design_of self.now.typed.now) self.now.clocks.now.bits events.old }
        requires slot { (slot : Slot) × IsSlotOf (design_of self.now.typed.now) self.now.clocks.now.bits (option_map (λ v. v.now) vector) slot }
        ensures driven { (slot : Slot) → IsSlotOf (design_of self.now.typed.now) self.now.clocks.now.bits (option_map (λ v. v.now) vector.entry) slot
            → OnOk result (events.new ≡ after_drives events.old (drives_from self.now.clocks.now.bits slot (length (design_of self.now.typed.now).processes) (D.top_inputs (design_of self.now.typed.now)))) }
        ensures held { OnOk result (length events.new.assigns ≡ length events.old.assigns) }
    {
        trees_law();
        lawful_law();
        let count = self.typed.flat().top_inputs().len();
        let mut taken = 0;
        for i in 0..count {
            let number = i as u32;
            taken = self.drive_input(events, vector, number, taken)?;
        }
        Ok(())
    }

    /// The environment writes a clock that is none of the design's bits.
    fn drive_spare(&self, events: &mut Events, vector: Option<&Vector>) -> Result<(), AllocError>
        requires machine { IsMachine self.now.typed.now self.now.clocks.now self.now.wiring.now self.now.keeper }
        requires held { length events.old.assigns ≡ (network_of (design_of self.now.typed.now) self.now.clocks.now.bits).count }
        ensures { (slot : Slot) → IsSlotOf (design_of self.now.typed.now) self.now.clocks.now.bits (option_map (λ v. v.now) vector.entry) slot
            → OnOk result (events.new ≡ after_drives events.old (spare_drives (design_of self.now.typed.now) self.now.clocks.now.bits slot)) }
    {
        trees_law();
        lawful_law();
        let flat = self.typed.flat();
        match spare_clock(flat, self.clocks.bits()) {
            Some(clock) => {
                let inputs = flat.top_inputs().len() as u32;
                let update = level(self.alloc, clock, level_of(vector))?;
                events.drive(flat.process_count() + inputs, update)?;
                Ok(())
            }
            None => Ok(()),
        }
    }

    /// The environment writes the clocks, and where they fall the data inputs, each by one update. The only error is that there is no memory.
    pub(crate) fn drive(
        &self,
        events: &mut Events,
        vector: Option<&Vector>,
    ) -> Result<(), AllocError>
        requires machine { IsMachine self.now.typed.now self.now.clocks.now self.now.wiring.now self.now.keeper }
        requires running { IsRunning (design_of self.now.typed.now) self.now.clocks.now.bits events.old }
        requires slot { (slot : Slot) × IsSlotOf (design_of self.now.typed.now) self.now.clocks.now.bits (option_map (λ v. v.now) vector) slot }
        ensures { (slot : Slot) → IsSlotOf (design_of self.now.typed.now) self.now.clocks.now.bits (option_map (λ v. v.now) vector.entry) slot
            → OnOk result (events.new ≡ after_drives events.old (slot_drives (design_of self.now.typed.now) self.now.clocks.now.bits slot)) }
    {
        self.drive_inputs(events, vector)?;
        self.drive_spare(events, vector)
    }
}

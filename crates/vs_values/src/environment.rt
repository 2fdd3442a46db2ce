//! Which slots hold the values of the bits.

ghost use Rattle.std.specs.Prelude.{◌≡◌, ◌+◌, ◌<◌, ◌≤◌, ◌^◌, map, length, set, slice_index, All, IfOk, OnOk, Some};
ghost use Rattle.vs_values.specs.Environments.{first_slot, homes, local_slots, placed};

use std::alloc::{AllocError, Global};
use std::collections::BTreeMap;
use std::marker::Model;
use vs_program::home;

/// Which slot holds the value of each bit: the one that it was given last, or that which it had first. The first bits began at home, and all others in the slot of x.
#[derive(Drop)]
pub struct Environment {
    bits: u32,
    housed: u32,
    moved: BTreeMap<u32, u32>,
}

// Clauses see the slots of all bits, by the bits' numbers.
impl Model for Environment {
    ghost use Rattle.std.specs.Prelude.{ℕ, List, ◌+◌, ◌≤◌, ◌^◌};
    ghost use Rattle.vs_values.specs.Environments.{slots_in};

    ghost Value = { List ℕ };

    ghost view = { λ e. slots_in e.bits e.housed e.moved };

    ghost invariant = { λ e. 4 + e.bits ≤ 2 ^ 32 };
}

impl Environment {
    /// As many bits, each at home. It takes no memory.
    pub fn at_home(alloc: Global, bits: u32) -> Environment
        requires { 4 + bits ≤ 2 ^ 32 }
        ensures { result ≡ homes bits }
    {
        Environment {
            bits,
            housed: bits,
            moved: BTreeMap::new(alloc),
        }
    }

    /// That of a function's local bits before its statement (IEEE 1364-2005, 10.4): this many bits of inputs, each at home, and then others, each in the slot of x. It takes no memory.
    pub fn at_call(alloc: Global, inputs: u32, others: u32) -> Environment
        requires { 4 + (inputs + others) ≤ 2 ^ 32 }
        ensures { result ≡ local_slots inputs others }
    {
        Environment {
            bits: inputs + others,
            housed: inputs,
            moved: BTreeMap::new(alloc),
        }
    }

    /// The slot of a bit.
    pub fn slot(&self, bit: u32) -> u32
        requires { bit < length self.now }
        ensures { result ≡ slice_index self.now bit }
    {
        match self.moved.get(&bit) {
            Some(slot) => *slot,
            None => first_slot(self.housed, self.bits, bit),
        }
    }

    /// Gives a bit another slot. On an error all is as it was.
    pub fn set(&mut self, bit: u32, slot: u32) -> Result<(), AllocError>
        requires { bit < length self.old }
        ensures { OnOk result (self.new ≡ set self.old bit slot) }
    {
        self.moved.insert(bit, slot)?;
        Ok(())
    }
}

/// The slot that a bit of so many had first: its home, or that of x.
fn first_slot(housed: u32, bits: u32, bit: u32) -> u32
    requires few { 4 + bits ≤ 2 ^ 32 }
    requires bit { bit < bits }
    ensures { result ≡ first_slot housed bit }
{
    if bit < housed { home(bit) } else { 2 }
}

/// The slots of these bits.
pub fn picked(alloc: Global, env: &Environment, bits: &[u32]) -> Result<Vec<u32>, AllocError>
    requires { All (λ b. b < length env.now) bits.now }
    ensures { IfOk result (λ v. v.items ≡ map (slice_index env.now) bits.now) }
{
    let mut slots = Vec::with_capacity(alloc, bits.len())?;
    for b in bits {
        slots.push(env.slot(*b))?;
    }
    Ok(slots)
}

/// Gives these bits these slots, one after the other. On an error some may have theirs.
pub fn place(env: &mut Environment, bits: &[u32], to: &[u32]) -> Result<(), AllocError>
    requires inside { All (λ b. b < length env.old) bits.now }
    requires alike { length bits.now ≡ length to.now }
    ensures { OnOk result (env.new ≡ placed env.old (map Some bits.now) to.now) }
{
    for n in 0..bits.len() {
        env.set(bits[n], to[n])?;
    }
    Ok(())
}

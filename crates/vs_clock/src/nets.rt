//! The clock nets and the reset nets of a design.

ghost use Rattle.std.specs.Prelude.{◌≡◌, ℕ, length, nat_lt, IfOk};
ghost use Rattle.std.specs.List.{list_all, list_any};
ghost use Rattle.vs_design.specs.Designs.{bit_count};
ghost use Rattle.vs_flat.specs.DesignOf.{design_of};
ghost use Rattle.vs_flat.specs.Lawful.{IsLawful};
ghost use Rattle.vs_design.specs.Clocks.{clock_nets};
ghost use Rattle.vs_design.specs.Footprints.{contains};
ghost use Rattle.vs_clock.specs.Inputs.{AreClockBits};
ghost use Rattle.vs_clock.specs.Roots.{AreAllTargets, AreWithin};
ghost use Rattle.vs_clock.specs.Spread.{has_label};

use crate::inputs::reset_bits;
use crate::ports::targets_of;
use crate::roots::roots_of;
use crate::targets::Targets;
use std::alloc::{AllocError, Global};
use std::marker::Model;
use vs_design::{clocks_law, spare_law};
use vs_flat::{Flat, count_bits, trees_law};

/// For each bit whether it copies a clock, and the input that it copies; and these inputs.
#[derive(Drop)]
pub(crate) struct Nets {
    clock: Vec<Option<u32>>,
    roots: Vec<Option<u32>>,
    inputs: Vec<u32>,
}

/// Whether all these bits are below this number.
fn are_below(bits: &[u32], count: u32) -> bool
    ensures { result ≡ list_all (λ b. nat_lt b count) bits.now }
{
    bits.iter().all(|bit| *bit < count)
}

/// For each bit a label where it copies a clock. A clock that is none of the design's bits has its label behind theirs.
fn clock_labels(
    alloc: Global,
    flat: &Flat,
    targets: &Targets,
    clocks: &[u32],
) -> Result<Vec<Option<u32>>, AllocError>
    requires lawful { IsLawful flat.now }
    requires count { length targets.now ≡ bit_count (design_of flat.now) }
    requires within { AreWithin targets.now }
    requires targets { AreAllTargets (design_of flat.now) targets.now }
    requires clocks { AreClockBits (design_of flat.now) clocks.now }
    ensures { IfOk result (λ v. (b : ℕ) → has_label v.items b ≡ contains (clock_nets (design_of flat.now) clocks.now) b) }
{
    spare_law();
    clocks_law();
    trees_law();
    let count = count_bits(flat);
    if are_below(clocks, count) {
        return roots_of(alloc, targets, clocks);
    }
    let mut labels = roots_of(alloc, targets, &[])?;
    labels.push(Some(count))?;
    Ok(labels)
}

impl Model for Nets {
    ghost use Rattle.vs_clock.specs.Nets.{Labelled, labelled_of};

    ghost Value = { Labelled };

    ghost view = { labelled_of };
}

impl Nets {
    ghost use Rattle.vs_clock.specs.Nets.{AreNets, is_clock_bit, root_at};

    /// The nets of a design whose clocks are these bits; the number of its bits alone stands for none.
    pub(crate) fn of(alloc: Global, flat: &Flat, clocks: &[u32]) -> Result<Nets, AllocError>
        requires lawful { IsLawful flat.now }
        requires clocks { AreClockBits (design_of flat.now) clocks.now }
        ensures { IfOk result (AreNets (design_of flat.now) clocks.now) }
    {
        let targets = targets_of(alloc, flat)?;
        let inputs = reset_bits(alloc, flat, clocks)?;
        let clock = clock_labels(alloc, flat, &targets, clocks)?;
        let roots = roots_of(alloc, &targets, inputs.as_slice())?;
        Ok(Nets {
            clock,
            roots,
            inputs,
        })
    }

    /// Whether this bit is a clock net's.
    pub(crate) fn is_clock(&self, bit: u32) -> bool
        ensures { result ≡ is_clock_bit self.now bit }
    {
        match self.clock.get(bit as usize) {
            Some(label) => label.is_some(),
            None => false,
        }
    }

    /// The bit of the input that this bit copies.
    pub(crate) fn root(&self, bit: u32) -> Option<u32>
        ensures { result ≡ root_at self.now bit }
    {
        match self.roots.get(bit as usize) {
            Some(label) => *label,
            None => None,
        }
    }

    /// The inputs that may be resets, in order of declaration.
    pub(crate) fn inputs(&self) -> &[u32]
        ensures { result.now ≡ self.now.inputs }
    {
        self.inputs.as_slice()
    }

    /// Whether a clock net is among these bits.
    pub(crate) fn has_clock(&self, bits: &[u32]) -> bool
        ensures { result ≡ list_any (is_clock_bit self.now) bits.now }
    {
        bits.iter().any(|bit| self.is_clock(*bit))
    }
}

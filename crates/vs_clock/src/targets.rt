//! Where assigns that copy a bit lead.

ghost use Rattle.std.specs.Prelude.{◌≡◌, ◌<◌, [], ◌∷◌, ◌++◌, length, replicate, set, slice_index_or, IfOk, OnOk};

use smallvec::SmallVec;
use std::alloc::{AllocError, Global};
use std::marker::Model;

/// For each bit the bits that assigns copy it to, seen as a list of lists.
#[derive(Drop)]
pub(crate) struct Targets {
    of: Vec<SmallVec<u32, 2>>,
}

impl Model for Targets {
    ghost use Rattle.std.specs.Prelude.{List, ℕ};
    ghost use Rattle.vs_clock.specs.Kept.{targets_of};

    ghost Value = { List (List ℕ) };

    ghost view = { targets_of };
}

impl Targets {
    /// No copies of so many bits.
    pub(crate) fn none(alloc: Global, bits: u32) -> Result<Targets, AllocError>
        ensures { IfOk result (λ t. t ≡ replicate bits []) }
    {
        let mut of = Vec::new(alloc);
        for _ in 0..bits {
            of.push(SmallVec::new(alloc))?;
        }
        Ok(Targets { of })
    }

    /// Of how many bits they are.
    pub(crate) fn len(&self) -> usize
        ensures { result ≡ length self.now }
    {
        self.of.len()
    }

    /// Adds an assign that copies a bit.
    pub(crate) fn add(&mut self, bit: u32, to: u32) -> Result<(), AllocError>
        requires { bit < length self.old }
        ensures { OnOk result (self.new ≡ set self.old bit (slice_index_or self.old bit [] ++ to ∷ [])) }
    {
        self.of[bit as usize].push(to)?;
        Ok(())
    }

    /// The bits that a bit is copied to.
    pub(crate) fn of(&self, bit: u32) -> &[u32]
        requires { bit < length self.now }
        ensures { result.now ≡ slice_index_or self.now bit [] }
    {
        self.of[bit as usize].as_slice()
    }
}

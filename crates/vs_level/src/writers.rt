//! Which processes write a bit.

ghost use Rattle.std.specs.Prelude.{◌≡◌, ◌<◌, [], ◌∷◌, ◌++◌, length, replicate, set, slice_index_or, IfOk, OnOk};

use smallvec::SmallVec;
use std::alloc::{AllocError, Global};
use std::marker::Model;

/// For each bit of a design the assigns and combinational blocks that write it, seen as a list of lists.
#[derive(Drop)]
pub(crate) struct Writers {
    of: Vec<SmallVec<u32, 2>>,
}

impl Model for Writers {
    ghost use Rattle.std.specs.Prelude.{List, ℕ};
    ghost use Rattle.vs_level.specs.Kept.{writers_of};

    ghost Value = { List (List ℕ) };

    ghost view = { writers_of };
}

impl Writers {
    /// No writers of so many bits.
    pub(crate) fn none(alloc: Global, bits: u32) -> Result<Writers, AllocError>
        ensures { IfOk result (λ w. w ≡ replicate bits []) }
    {
        let mut of = Vec::new(alloc);
        for _ in 0..bits {
            of.push(SmallVec::new(alloc))?;
        }
        Ok(Writers { of })
    }

    /// Adds a writer of a bit.
    pub(crate) fn add(&mut self, bit: u32, p: u32) -> Result<(), AllocError>
        requires { bit < length self.old }
        ensures { OnOk result (self.new ≡ set self.old bit (slice_index_or self.old bit [] ++ p ∷ [])) }
    {
        self.of[bit as usize].push(p)?;
        Ok(())
    }

    /// The writers of a bit.
    pub(crate) fn of(&self, bit: u32) -> &[u32]
        requires { bit < length self.now }
        ensures { result.now ≡ slice_index_or self.now bit [] }
    {
        self.of[bit as usize].as_slice()
    }
}

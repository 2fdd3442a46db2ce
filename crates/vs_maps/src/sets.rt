//! Sets of names.

ghost use Rattle.std.specs.Prelude.{◌≡◌, ◌||◌, List, ℕ, false, OnOk};
ghost use Rattle.vs_design.specs.Clocks.{same_name};
ghost use Rattle.vs_maps.specs.Sets.{has};

use crate::maps::NameMap;
use std::alloc::{AllocError, Global};

/// Names, each of which is there or not. A look-up takes the same time however many there are.
#[derive(Drop)]
pub struct NameSet<'a> {
    map: NameMap<'a, u32>,
}

impl<'a> NameSet<'a> {
    /// A set without names.
    pub fn new(alloc: Global) -> Self
        ensures { (name : List ℕ) → has result name ≡ false }
    {
        NameSet {
            map: NameMap::new(alloc),
        }
    }

    /// Whether the name is there.
    pub fn contains(&self, name: &[u8]) -> bool
        ensures { result ≡ has self.now name.now }
    {
        self.map.get(name).is_some()
    }

    /// Puts a name there.
    pub fn add(&mut self, name: &'a [u8]) -> Result<(), AllocError>
        ensures { OnOk result ((other : List ℕ) → has self.new other ≡ (same_name name.now other || has self.old other)) }
    {
        self.map.put(name, 0)?;
        Ok(())
    }
}

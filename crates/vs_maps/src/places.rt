//! Maps from places.

ghost use Rattle.std.specs.Prelude.{◌≡◌, ℕ, [], OnOk};
ghost use Rattle.std.specs.Option.{option_copied};
ghost use Rattle.vs_maps.specs.Places.{found_at, or_at};

use indexmap::IndexMap;
use std::alloc::{AllocError, Global};

/// Values by places of a text. A look-up takes the same time however many places there are.
#[derive(Drop)]
pub struct PlaceMap<V: Drop> {
    map: IndexMap<u32, V>,
}

impl<V: Drop> PlaceMap<V> {
    ghost use Rattle.vs_maps.specs.PlaceViews.{placed};

    /// A map without places.
    pub fn new(alloc: Global) -> Self
        ensures { placed result ≡ [] }
    {
        PlaceMap {
            map: IndexMap::new(alloc),
        }
    }

    /// The value of this place, if it has one.
    pub fn get(&self, place: u32) -> Option<&V>
        ensures { option_copied result ≡ found_at place (placed self.now) }
    {
        match self.map.get_index_of(&place) {
            None => None,
            Some(index) => Some(&self.map[index]),
        }
    }

    /// Gives the place this value, unless it has one: of two values of one place the first stays. After an error the map is as before.
    pub fn add(&mut self, place: u32, value: V) -> Result<(), AllocError>
        ensures { OnOk result ((other : ℕ) → found_at other (placed self.new) ≡ or_at other (found_at other (placed self.old)) place value) }
    {
        if self.map.get_index_of(&place).is_some() {
            return Ok(());
        }
        self.map.insert(place, value)?;
        Ok(())
    }
}

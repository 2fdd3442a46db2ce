//! Maps from names.

ghost use Rattle.std.specs.Prelude.{◌≡◌, ◌<◌, ◌==◌, [], Some, OnOk, OnErr, length, slice_get};
ghost use Rattle.std.specs.Option.{option_copied};
ghost use Rattle.vs_maps.specs.Maps.{value_at, values_of, with_value, AreDistinct, pair};

use indexmap::IndexMap;
use std::alloc::{AllocError, Global};

/// Values by names, in the order in which the names came first. A look-up takes the same time however many names there are.
#[derive(Drop)]
pub struct NameMap<'a, V: Drop> {
    map: IndexMap<&'a [u8], V>,
}

impl<'a, V: Drop> NameMap<'a, V> {
    ghost use Rattle.vs_maps.specs.MapViews.{pairs};

    /// A map without names.
    pub fn new(alloc: Global) -> Self
        ensures { pairs result ≡ [] }
    {
        NameMap {
            map: IndexMap::new(alloc),
        }
    }

    /// The value of this name, if it has one.
    pub fn get(&self, name: &[u8]) -> Option<&V>
        ensures value { option_copied result ≡ value_at name.now (pairs self.now) }
        ensures distinct { AreDistinct (pairs self.now) }
    {
        match self.map.get_index_of(name) {
            None => None,
            Some(index) => Some(&self.map[index]),
        }
    }

    /// Gives the name this value, in place of the one that it had. After an error the map is as before.
    pub fn put(&mut self, name: &'a [u8], value: V) -> Result<(), AllocError>
        ensures put { OnOk result (pairs self.new ≡ with_value name.now value (pairs self.old)) }
        ensures err { OnErr result (pairs self.new ≡ pairs self.old) }
        ensures distinct { AreDistinct (pairs self.new) }
    {
        self.map.insert(name, value)?;
        Ok(())
    }

    /// How many names there are.
    pub fn len(&self) -> usize
        ensures { result ≡ length (pairs self.now) }
    {
        self.map.len()
    }

    /// Whether there is none.
    pub fn is_empty(&self) -> bool
        ensures { result ≡ (length (pairs self.now) == 0) }
    {
        self.len() == 0
    }

    /// The value of the name that came at this place.
    pub fn at(&self, index: usize) -> &V
        requires { index < length (pairs self.now) }
        ensures { slice_get (values_of (pairs self.now)) index ≡ Some result.now }
    {
        &self.map[index]
    }

    /// The name that came at this place, with its value.
    pub fn pair_at(&self, index: usize) -> (&'a [u8], &V)
        requires { index < length (pairs self.now) }
        ensures { slice_get (pairs self.now) index ≡ Some (pair result.0.now result.1.now) }
    {
        match self.map.get_index(index) {
            Some((name, value)) => (*name, value),
            None => unreachable!(),
        }
    }
}

//! The sets of the bits of a value.

ghost use Rattle.std.specs.Prelude.{◌≡◌, ◌<◌, ◌≤◌, ◌+◌, ◌-◌, [], ◌∷◌, ◌++◌, length, take, replicate, slice_index_or};
ghost use Rattle.vs_four.specs.Lengths.{extend_with, repeat};
ghost use Rattle.vs_design.specs.Sets.{none};

use crate::Set4;
use arrayvec::ArrayVec;
use std::marker::Model;

/// How many bits a value has at most.
const MOST: usize = 64;

/// The sets of the bits of a value, least significant first: at most 64.
#[derive(Drop)]
pub struct SetList {
    items: ArrayVec<Set4, MOST>,
}

impl Model for SetList {
    ghost use Rattle.std.specs.Prelude.{List};
    ghost use Rattle.vs_design.specs.Sets as sets;

    ghost Value = { List sets.Set4 };

    ghost view = { λ l. l.items.items };
}

impl SetList {
    /// No sets.
    pub fn new() -> SetList
        ensures { result ≡ [] }
    {
        SetList {
            items: ArrayVec::new(),
        }
    }

    /// So many times the same set, at most 64.
    pub fn replicated(count: usize, set: Set4) -> SetList
        requires { count ≤ 64 }
        ensures { result ≡ replicate count set }
    {
        let mut list = SetList::new();
        list.push_copies(count, set);
        list
    }

    /// How many there are.
    pub fn len(&self) -> usize
        ensures value { result ≡ length self.now }
        ensures most { result ≤ 64 }
    {
        self.items.len()
    }

    /// Set n, from 0.
    pub fn get(&self, n: usize) -> Set4
        requires { n < length self.now }
        ensures { result ≡ slice_index_or self.now n none }
    {
        self.items.as_slice()[n]
    }

    /// All sets, in order.
    pub fn as_slice(&self) -> &[Set4]
        ensures value { result.now ≡ self.now }
        ensures most { length result.now ≤ 64 }
    {
        self.items.as_slice()
    }

    /// Adds a set at the end.
    pub fn push(&mut self, set: Set4)
        requires { length self.old < 64 }
        ensures { self.new ≡ self.old ++ set ∷ [] }
    {
        self.items.push(set);
    }

    /// Adds some sets at the end.
    pub fn append(&mut self, sets: &[Set4])
        requires { length self.old + length sets.now ≤ 64 }
        ensures { self.new ≡ self.old ++ sets.now }
    {
        let _ = self.items.try_extend_from_slice(sets);
    }

    /// Adds so many times the same set.
    pub fn push_copies(&mut self, count: usize, set: Set4)
        requires { length self.old + count ≤ 64 }
        ensures { self.new ≡ self.old ++ replicate count set }
    {
        for _i in 0..count {
            self.push(set);
        }
    }

    /// Makes it so many sets long, by this one. A list that is as long stays.
    pub fn extend_with(&mut self, fill: Set4, len: usize)
        requires { len ≤ 64 }
        ensures { self.new ≡ extend_with fill len self.old }
    {
        self.push_copies(len.saturating_sub(self.len()), fill);
    }

    /// Keeps the first sets alone.
    pub fn cut(&mut self, len: usize)
        ensures { self.new ≡ take len self.old }
    {
        self.items.truncate(len);
    }

    /// So many copies, one after the other.
    pub fn repeated(&self, count: usize) -> SetList
        requires { length (repeat count self.now) ≤ 64 }
        ensures { result ≡ repeat count self.now }
    {
        let mut list = SetList::new();
        for _i in 0..count {
            list.append(self.as_slice());
        }
        list
    }
}

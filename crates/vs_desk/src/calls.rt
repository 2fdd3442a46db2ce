// The calls on a desk in memory, by number.
ghost use Rattle.std.specs.Prelude.{◌≡◌, ◌+◌, ◌-◌, ◌^◌, ◌↔◌, ◌++◌, [], min, is_ok, IsTrue, Contains, if◌then◌else◌};

use std::alloc::{AllocError, Global};

/// How many calls were made, and the numbers of those that are to fail. Calls are numbered from 0.
#[derive(Drop)]
pub(crate) struct Calls {
    made: u64,
    failing: Vec<u64>,
}

impl Calls {
    /// No call was made, and none is to fail.
    pub(crate) fn new(alloc: Global) -> Self
        ensures made { result.made ≡ 0 }
        ensures failing { result.failing.items ≡ [] }
    {
        Calls {
            made: 0,
            failing: Vec::new(alloc),
        }
    }

    /// The number of calls so far.
    pub(crate) fn made(&self) -> u64
        ensures { result ≡ self.now.made }
    {
        self.made
    }

    /// Lets the calls of these numbers fail too.
    pub(crate) fn fail_at(&mut self, numbers: &[u64]) -> Result<(), AllocError>
        ensures made { self.new.made ≡ self.old.made }
        ensures failing { self.new.failing.items ≡ (if is_ok result then self.old.failing.items
            ++ numbers.now else self.old.failing.items) }
    {
        self.failing.extend_from_slice(numbers)
    }

    /// Counts a call, and says whether it is to fail. At the end of u64 the count stays.
    pub(crate) fn next_fails(&mut self) -> bool
        ensures fails { IsTrue result ↔ Contains self.old.failing.items self.old.made }
        ensures made { self.new.made ≡ min (self.old.made + 1) (2 ^ 64 - 1) }
        ensures failing { self.new.failing.items ≡ self.old.failing.items }
    {
        let fails = self.failing.contains(&self.made);
        self.made = self.made.saturating_add(1);
        fails
    }
}

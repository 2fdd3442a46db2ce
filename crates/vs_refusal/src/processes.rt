//! A list of processes by number.
ghost use Rattle.std.specs.Prelude.{◌≡◌};

use std::marker::Model;

/// The numbers of some processes, in order. Contracts see it as a list.
#[derive(Debug, Drop)]
pub struct Processes {
    numbers: Vec<u32>,
}

impl Model for Processes {
    ghost use Rattle.std.specs.Prelude.{List, ℕ};

    ghost Value = { List ℕ };

    ghost view = { λ p. p.numbers.items };
}

impl Processes {
    /// The list of these numbers. It takes no memory.
    pub fn new(numbers: Vec<u32>) -> Processes
        ensures { result ≡ numbers.items }
    {
        Processes { numbers }
    }

    /// The numbers, in order.
    pub fn numbers(&self) -> &[u32]
        ensures { result.now ≡ self.now }
    {
        &self.numbers
    }
}

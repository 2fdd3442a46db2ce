//! A level order.

ghost use Rattle.std.specs.Prelude.{◌≡◌};

use std::marker::Model;

/// The assigns and combinational blocks of a design by number, each after all that write a bit which it reads or waits on.
#[derive(Drop)]
pub struct Order {
    processes: Vec<u32>,
}

impl Model for Order {
    ghost use Rattle.std.specs.Prelude.{List, ℕ};

    ghost Value = { List ℕ };

    ghost view = { λ o. o.processes.items };
}

impl Order {
    /// The order with these processes.
    pub(crate) fn of(processes: Vec<u32>) -> Order
        ensures { result ≡ processes.items }
    {
        Order { processes }
    }

    /// The numbers of the processes, in order.
    pub fn list(&self) -> &[u32]
        ensures { result.now ≡ self.now }
    {
        self.processes.as_slice()
    }
}

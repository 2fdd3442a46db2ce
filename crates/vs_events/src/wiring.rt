//! By bit, who is sensitive to its changes.

ghost use Rattle.std.specs.Prelude.{◌≡◌, ◌<◌, ◌++◌, [], ◌∷◌, length, replicate, slice_index_or, slice_set, IfOk, OnOk};
ghost use Rattle.vs_events.specs.Wired.{after_listen};

use crate::listener::Listener;
use std::alloc::{AllocError, Global};
use std::marker::Model;

/// Those that are sensitive to the changes of one bit.
#[derive(Drop)]
struct Listeners {
    of: Vec<Listener>,
}

impl Model for Listeners {
    ghost use Rattle.std.specs.Prelude.{List};
    ghost use Rattle.vs_events.specs.declared.listener.Listener.{Listener};

    ghost Value = { List Listener };

    ghost view = { λ l. l.of.items };
}

impl Listeners {
    /// With one more.
    fn push(&mut self, listener: Listener) -> Result<(), AllocError>
        ensures { OnOk result (self.new ≡ self.old ++ listener ∷ []) }
    {
        self.of.push(listener)?;
        Ok(())
    }

    /// All of them.
    fn as_slice(&self) -> &[Listener]
        ensures { result.now ≡ self.now }
    {
        self.of.as_slice()
    }
}

/// For each bit those that are sensitive to its changes.
#[derive(Drop)]
pub struct Wiring {
    bits: Vec<Listeners>,
}

impl Model for Wiring {
    ghost use Rattle.std.specs.Prelude.{List};
    ghost use Rattle.vs_events.specs.declared.listener.Listener.{Listener};

    ghost Value = { List (List Listener) };

    ghost view = { λ w. w.bits.items };
}

impl Wiring {
    /// So many bits to whose changes nothing is sensitive. Want of memory is the only error.
    pub fn new(alloc: Global, count: u32) -> Result<Wiring, AllocError>
        ensures { IfOk result (λ w. w ≡ replicate count []) }
    {
        let mut bits = Vec::new(alloc);
        for _b in 0..count {
            let of = Vec::new(alloc);
            bits.push(Listeners { of })?;
        }
        Ok(Wiring { bits })
    }

    /// From now on a process is sensitive to changes of a bit. Want of memory is the only error; the wiring is then of no use.
    pub fn listen(&mut self, bit: u32, listener: Listener) -> Result<(), AllocError>
        requires { bit < length self.old }
        ensures { OnOk result (self.new ≡ after_listen self.old (record { bit = bit; listener = listener })) }
    {
        self.bits[bit as usize].push(listener)
    }

    /// Those that are sensitive to the changes of this bit.
    pub(crate) fn of_bit(&self, bit: usize) -> &[Listener]
        ensures { result.now ≡ slice_index_or self.now bit [] }
    {
        if bit < self.bits.len() {
            self.bits[bit].as_slice()
        } else {
            &[]
        }
    }
}

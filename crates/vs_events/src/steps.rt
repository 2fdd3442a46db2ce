//! The steps of one process (IEEE 1364-2005, 11.3 and 11.6.1).

ghost use Rattle.std.specs.Prelude.{◌≡◌, ◌<◌, [], ℕ, true, false, length, slice_index_or, slice_set};
ghost use Rattle.vs_four.specs.Tables.{same};
ghost use Rattle.vs_net.specs.Network.{is_written};
ghost use Rattle.vs_net.specs.Queue as Q;
ghost use Rattle.vs_writes.specs.Held.{state_of};
ghost use Rattle.vs_events.specs.Held.{all_written, after_start, after_evaluate, after_apply};
ghost use Rattle.vs_events.specs.Wired.{AreBelow};

use crate::events::Events;
use crate::waking::write;
use crate::wiring::Wiring;
use std::alloc::Global;
use std::mem;
use vs_four::Bit4;
use vs_writes::{Update, Write};

/// Bits are written, one after the other: each write that changes one wakes those that are sensitive to the change and wait.
pub(crate) fn write_all(events: &mut Events, wiring: &Wiring, writes: &[Write])
    requires inside { (b : ℕ) → is_written writes.now b ≡ true → b < length events.old.values }
    requires below { (b : ℕ) → AreBelow (length events.old.assigns) (slice_index_or wiring.now b []) }
    ensures { events.new ≡ all_written events.old wiring.now writes.now }
{
    for item in writes {
        write(events, wiring.of_bit(item.bit()), *item);
    }
}

/// Whether two bits are the same.
fn is_same(a: Bit4, b: Bit4) -> bool
    ensures { result ≡ same a b }
{
    matches!(
        (a, b),
        (Bit4::Zero, Bit4::Zero) | (Bit4::One, Bit4::One) | (Bit4::X, Bit4::X) | (Bit4::Z, Bit4::Z)
    )
}

/// Whether each write would leave its bit as it is.
fn is_held(events: &Events, writes: &[Write]) -> bool
    requires { (b : ℕ) → is_written writes.now b ≡ true → b < length events.now.values }
    ensures { result ≡ Q.is_held (state_of events.now.values) writes.now }
{
    for item in writes {
        let now = events.value(item.bit());
        if !is_same(now, item.value()) {
            return false;
        }
    }
    true
}

impl Events {
    /// The value of each bit.
    pub fn values(&self) -> &[Bit4]
        ensures { result.now ≡ self.now.values }
    {
        self.values.as_slice()
    }

    /// What the assign has pending.
    pub fn pending_writes(&self, p: u32) -> &[Write]
        requires { p < length self.now.assigns }
        ensures { result.now ≡ slice_index_or self.now.pending p [] }
    {
        self.pending[p as usize].as_slice()
    }

    /// The block runs to its first event control.
    pub fn start(&mut self, p: u32)
        requires { p < length self.old.assigns }
        ensures { self.new ≡ after_start self.old p }
    {
        self.unstarted.remove(p);
    }

    /// The assign is evaluated to these writes: they replace what was pending, or withdraw it where the target has the values already.
    pub fn evaluate(&mut self, alloc: Global, p: u32, update: Update)
        requires there { p < length self.old.assigns }
        requires inside { (b : ℕ) → is_written update b ≡ true → b < length self.old.values }
        ensures { self.new ≡ after_evaluate self.old p (Q.to_write (state_of self.old.values) update) }
    {
        let held = is_held(self, update.as_slice());
        self.evaluates.remove(p);
        if held {
            self.applies.remove(p);
            self.pending[p as usize] = Update::new(alloc);
        } else {
            self.applies.insert(p);
            self.pending[p as usize] = update;
        }
    }

    /// What the assign has pending is written.
    pub fn apply(&mut self, alloc: Global, wiring: &Wiring, p: u32)
        requires there { p < length self.old.assigns }
        requires inside { (b : ℕ) → is_written (slice_index_or self.old.pending p []) b ≡ true → b < length self.old.values }
        requires below { (b : ℕ) → AreBelow (length self.old.assigns) (slice_index_or wiring.now b []) }
        ensures { self.new ≡ after_apply self.old wiring.now p }
    {
        let update = self.take_pending(alloc, p);
        write_all(self, wiring, update.as_slice());
    }

    /// Takes out what the assign has pending.
    fn take_pending(&mut self, alloc: Global, p: u32) -> Update
        requires { p < length self.old.assigns }
        ensures update { result ≡ slice_index_or self.old.pending p [] }
        ensures left { self.new ≡ record self.old { applies = slice_set self.old.applies p false; pending = slice_set self.old.pending p [] } }
    {
        self.applies.remove(p);
        mem::replace(&mut self.pending[p as usize], Update::new(alloc))
    }
}

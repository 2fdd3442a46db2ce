//! Writes, and whom they wake (IEEE 1364-2005, 11.2).

ghost use Rattle.std.specs.Prelude.{◌≡◌, ◌<◌, [], length, slice_index_or, slice_set};
ghost use Rattle.vs_events.specs.Held.{written, awake, all_awake, dues_of};
ghost use Rattle.vs_events.specs.Wired.{AreBelow};

use crate::events::Events;
use crate::listener::{Listener, hears};
use vs_four::Bit4;
use vs_writes::Write;

impl Events {
    /// Process p becomes due, if it waits.
    pub(crate) fn wake(&mut self, p: u32)
        requires { p < length self.old.assigns }
        ensures { let d = awake self.old.unstarted self.old.assigns (dues_of self.old) p in self.new ≡ record self.old { evaluates = d.evaluates; runs = d.runs } }
    {
        if self.unstarted.has(p) || self.evaluates.has(p) || self.runs.has(p) {
            return;
        }
        if self.assigns[p as usize] {
            self.evaluates.insert(p);
        } else {
            self.runs.insert(p);
        }
    }

    /// The value of a bit.
    pub(crate) fn value(&self, bit: usize) -> Bit4
        requires { bit < length self.now.values }
        ensures { result ≡ slice_index_or self.now.values bit result }
    {
        self.values[bit]
    }

    /// A bit gets a value.
    fn set(&mut self, bit: usize, value: Bit4)
        requires { bit < length self.old.values }
        ensures { self.new ≡ record self.old { values = slice_set self.old.values bit value } }
    {
        self.values[bit] = value;
    }
}

/// Each of these that is sensitive to the change becomes due, if it waits.
fn wake_all(events: &mut Events, listeners: &[Listener], old: Bit4, new: Bit4)
    requires { AreBelow (length events.old.assigns) listeners.now }
    ensures { let d = all_awake events.old.unstarted events.old.assigns (dues_of events.old) listeners.now old new in events.new ≡ record events.old { evaluates = d.evaluates; runs = d.runs } }
{
    for listener in listeners {
        if hears(*listener, old, new) {
            events.wake(listener.process);
        }
    }
}

/// One bit is written: where that changes it, each of these that is sensitive to the change becomes due, if it waits.
pub(crate) fn write(events: &mut Events, listeners: &[Listener], write: Write)
    requires inside { write.bit < length events.old.values }
    requires below { AreBelow (length events.old.assigns) listeners.now }
    ensures { events.new ≡ written events.old listeners.now write }
{
    let old = events.value(write.bit());
    if old != write.value() {
        events.set(write.bit(), write.value());
        wake_all(events, listeners, old, write.value());
    }
}

// The counts of failed calls, and where the last one was.
ghost use Rattle.std.specs.Prelude.{◌≡◌, ℕ, [], Option, string_bytes};
ghost use Rattle.vs_desk.specs.Desk.{Attachment, Register, Fails};
ghost use Rattle.vs_desk.specs.Failures.{register_of};

use std::alloc::Global;

/// How many calls on a desk failed, at place 0 and at the others, and where the last one was.
#[derive(Drop)]
pub(crate) struct Failures {
    faults: u64,
    losses: u64,
    failed: u32,
    asked: String,
}

impl Failures {
    /// No call has failed.
    pub(crate) fn new(alloc: Global) -> Self
        ensures faults { result.faults ≡ 0 }
        ensures losses { result.losses ≡ 0 }
        ensures failed { result.failed ≡ 0 }
        ensures asked { string_bytes result.asked ≡ [] }
    {
        Failures {
            faults: 0,
            losses: 0,
            failed: 0,
            asked: String::new(alloc),
        }
    }

    /// The failed calls at the places other than 0.
    pub(crate) fn faults(&self) -> u64
        ensures { result ≡ self.now.faults }
    {
        self.faults
    }

    /// The failed calls at place 0.
    pub(crate) fn losses(&self) -> u64
        ensures { result ≡ self.now.losses }
    {
        self.losses
    }

    /// Counts a failed `take` or `put` at a place.
    pub(crate) fn count(&mut self, place: u32)
        ensures { (attached : ℕ → Option Attachment) → Fails (register_of attached self.old)
            (register_of attached self.new) place (string_bytes self.old.asked) }
    {
        if place == 0 {
            self.losses = self.losses.saturating_add(1);
        } else {
            self.faults = self.faults.saturating_add(1);
            self.failed = place;
        }
    }

    /// Counts a failed `attach` of a place to a path.
    pub(crate) fn count_attach(&mut self, place: u32, path: String)
        ensures { (attached : ℕ → Option Attachment) → Fails (register_of attached self.old)
            (register_of attached self.new) place (string_bytes path) }
    {
        self.count(place);
        self.asked = path;
    }
}

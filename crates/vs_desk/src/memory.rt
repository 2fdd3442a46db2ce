// A desk in memory.
ghost use Rattle.std.specs.Prelude.{ℕ, ◌<◌, IsTrue};
ghost use Rattle.std.specs.Option.{ForSome};
ghost use Rattle.vs_desk.specs.Files.{holds_file};
ghost use Rattle.vs_desk.specs.Place.{attached_in};

use crate::calls::Calls;
use crate::failures::Failures;
use crate::files::{Files, set_file};
use crate::tapes::{Tapes, attach_tape, put_to, take_from};
use crate::{Desk, Failed, Way};
use std::alloc::{AllocError, Global};
use std::collections::BTreeMap;

/// A desk in memory, which holds files by path and tells all its bytes.
///
/// Its calls of `attach`, `take`, `put` and `flush` are numbered from 0. A call whose number was listed
/// fails. So does an attach with `Read` to a path without a file, and an `attach` or a `put` for which
/// memory runs out. A `take` moves at most a piece. It keeps nothing back.
#[derive(Drop)]
pub struct MemoryDesk {
    alloc: Global,
    files: Files,
    tapes: Tapes,
    report: Vec<u8>,
    failures: Failures,
    calls: Calls,
    piece: usize,
    ghost positive: { 0 < piece },
    ghost held: { (p : ℕ) → ForSome (attached_in tapes p) (λ a. IsTrue (holds_file files a.path)) },
}

#[tactic(auto, unfolding(crate::specs::MemoryDesk::register, crate::specs::MemoryDesk::contents, crate::specs::MemoryDesk::holds, crate::specs::MemoryDesk::plan))]
impl MemoryDesk {
    ghost use Rattle.std.specs.Prelude.{◌≡◌, ◌<◌, ◌++◌, ℕ, List, [], false, IsTrue, OnOk, OnErr, IfSome, IsSome, ◌↔◌, ◌||◌, string_bytes, is_ok, if◌then◌else◌};
    ghost use Rattle.std.specs.Option.{option_map};
    ghost use Rattle.std.specs.Str.{bytes_eq};
    ghost use Rattle.vs_desk.specs.Desk.{no_register, no_contents};
    ghost use Rattle.vs_desk.specs.MemoryDesk as memory;

    /// A desk without files, of which a `take` moves at most `piece` bytes. It takes no memory.
    pub fn new(alloc: Global, piece: usize) -> Self
        requires { 0 < piece }
        ensures register { memory.register result ≡ no_register }
        ensures contents { memory.contents result ≡ no_contents }
        ensures holds { (q : List ℕ) → memory.holds result q ≡ false }
        ensures plan { memory.plan result ≡ memory.first_plan piece }
    {
        MemoryDesk {
            alloc,
            files: BTreeMap::new(alloc),
            tapes: BTreeMap::new(alloc),
            report: Vec::new(alloc),
            failures: Failures::new(alloc),
            calls: Calls::new(alloc),
            piece,
        }
    }

    /// Adds a file, or replaces the one at the path. After an error all is as before.
    pub fn add_file(&mut self, path: String, bytes: Vec<u8>) -> Result<(), AllocError>
        ensures ok { OnOk result (memory.contents self.new
            ≡ memory.with_file (memory.contents self.old) (string_bytes path) bytes.items) }
        ensures ok_holds { OnOk result ((q : List ℕ) → memory.holds self.new q
            ≡ (bytes_eq (string_bytes path) q || memory.holds self.old q)) }
        ensures err { OnErr result (memory.contents self.new ≡ memory.contents self.old) }
        ensures err_holds { OnErr result
            ((q : List ℕ) → memory.holds self.new q ≡ memory.holds self.old q) }
        ensures register { memory.register self.new ≡ memory.register self.old }
        ensures plan { memory.plan self.new ≡ memory.plan self.old }
    {
        set_file(&mut self.files, path, bytes)
    }

    /// Lets the calls of these numbers fail, beside those listed before. After an error all is as
    /// before.
    pub fn fail_at(&mut self, numbers: &[u64]) -> Result<(), AllocError>
        ensures plan { memory.plan self.new ≡ (if is_ok result then memory.with_failing
            (memory.plan self.old) numbers.now else memory.plan self.old) }
        ensures register { memory.register self.new ≡ memory.register self.old }
        ensures contents { memory.contents self.new ≡ memory.contents self.old }
        ensures holds { (q : List ℕ) → memory.holds self.new q ≡ memory.holds self.old q }
    {
        self.calls.fail_at(numbers)
    }

    /// How many calls of `attach`, `take`, `put` and `flush` were made. At 2^64 - 1 the number stays.
    pub fn calls(&self) -> u64
        ensures { result ≡ (memory.plan self.now).calls }
    {
        self.calls.made()
    }

    /// How many calls failed at the places other than 0.
    pub fn faults(&self) -> u64
        ensures { result ≡ (memory.register self.now).faults }
    {
        self.failures.faults()
    }

    /// How many calls failed at place 0.
    pub fn losses(&self) -> u64
        ensures { result ≡ (memory.register self.now).losses }
    {
        self.failures.losses()
    }

    /// The bytes put at a place, empty where none was put.
    pub fn written(&self, place: u32) -> &[u8]
        ensures { result.now ≡ (memory.contents self.now).put place }
    {
        if place == 0 {
            return &self.report;
        }
        match self.tapes.get(&place) {
            Some(attached) => attached.written(),
            None => &[],
        }
    }

    /// The path that a place was attached with, None where it wasn't attached by a call.
    pub fn attached(&self, place: u32) -> Option<&str>
        ensures { option_map (λ path. path.now) result
            ≡ option_map (λ a. a.path) ((memory.register self.now).attached place) }
    {
        match self.tapes.get(&place) {
            Some(attached) => Some(attached.path.as_str()),
            None => None,
        }
    }
}

#[tactic(auto, unfolding(crate::specs::MemoryDesk::register, crate::specs::MemoryDesk::contents, crate::specs::MemoryDesk::holds, crate::specs::MemoryDesk::plan))]
impl Desk for MemoryDesk {
    ghost use Rattle.std.specs.Prelude.{◌≡◌, ◌≢◌, ◌<◌, ◌≤◌, ◌++◌, ℕ, List, [], Bool, true, false, min, length, take, drop, IsTrue, IsNone, IsErr, IfOk, OnOk, OnErr, ◌||◌, ◌↔◌, string_bytes};
    ghost use Rattle.vs_desk.specs.declared.desk.Way.TheVariants.{Read};
    ghost use Rattle.vs_desk.specs.Desk.{IsAttached, IsWritable, FailsAlone, Stays, Attaches, Takes, Puts};
    ghost use Rattle.vs_desk.specs.Tape.{is_emptied};
    ghost use Rattle.vs_desk.specs.MemoryDesk as memory;

    ghost tells = { true };

    ghost told = { memory.told };

    fn attach(&mut self, place: u32, path: String, way: Way) -> Result<(), Failed>
        requires no_report { place ≢ 0 }
        requires free { IsNone ((memory.register self.old).attached place) }
        ensures attached { OnOk result
            (Attaches (memory.told self.old) (memory.told self.new) place way (string_bytes path)) }
        ensures other_places { (p : ℕ) → p ≢ place →
            (memory.register self.new).attached p ≡ (memory.register self.old).attached p }
        ensures failed { OnErr result
            (FailsAlone (memory.told self.old) (memory.told self.new) place (string_bytes path)) }

        // It fails where its number was listed, and with `Read` where there is no file.
        ensures planned { memory.NextFails (memory.plan self.old) → IsErr result }
        ensures missing { way ≡ Read → memory.holds self.old (string_bytes path) ≡ false →
            IsErr result }
        ensures counted { memory.plan self.new ≡ memory.counted (memory.plan self.old) }
        ensures holds { OnOk result ((q : List ℕ) → memory.holds self.new q
            ≡ (is_emptied way (string_bytes path) q || memory.holds self.old q)) }
        ensures holds_kept { OnErr result
            ((q : List ℕ) → memory.holds self.new q ≡ memory.holds self.old q) }
    {
        if self.calls.next_fails() {
            self.failures.count_attach(place, path);
            return Err(Failed);
        }
        match attach_tape(
            self.alloc,
            &mut self.files,
            &mut self.tapes,
            place,
            path,
            way,
        ) {
            Ok(()) => Ok(()),
            Err(path) => {
                self.failures.count_attach(place, path);
                Err(Failed)
            }
        }
    }

    fn take(&mut self, place: u32, buf: &mut [u8]) -> Result<usize, Failed>
        requires attached { IsAttached (memory.register self.old) place Read }
        requires room { 0 < length buf.old }
        ensures within { IfOk result (λ n. n ≤ length buf.old) }
        ensures moved { IfOk result
            (λ n. buf.new ≡ take n ((memory.contents self.old).left place) ++ drop n buf.old) }
        ensures taken { IfOk result (λ n. Takes (memory.told self.old) (memory.told self.new) place n) }
        ensures places { (memory.register self.new).attached ≡ (memory.register self.old).attached }
        ensures failed { OnErr result (FailsAlone (memory.told self.old) (memory.told self.new)
            place (memory.register self.old).asked) }

        ensures buf_kept { OnErr result (buf.new ≡ buf.old) }

        // It fails exactly where its number was listed. Else it moves all that is left, up to a piece.
        ensures planned { IsErr result ↔ memory.NextFails (memory.plan self.old) }
        ensures count { IfOk result
            (λ n. n ≡ min (min (memory.plan self.old).piece (length buf.old))
            (length ((memory.contents self.old).left place))) }
        ensures counted { memory.plan self.new ≡ memory.counted (memory.plan self.old) }
        ensures holds { (q : List ℕ) → memory.holds self.new q ≡ memory.holds self.old q }
    {
        if self.calls.next_fails() {
            self.failures.count(place);
            return Err(Failed);
        }
        Ok(take_from(&mut self.tapes, place, self.piece, buf))
    }

    fn put(&mut self, place: u32, bytes: &[u8]) -> Result<usize, Failed>
        requires writable { IsWritable (memory.register self.old) place }
        requires some { 0 < length bytes.now }
        ensures progress { IfOk result (λ n. 0 < n) }
        ensures within { IfOk result (λ n. n ≤ length bytes.now) }
        ensures put { IfOk result (λ n. Puts (memory.told self.old) (memory.told self.new) place (take n bytes.now)) }
        ensures places { (memory.register self.new).attached ≡ (memory.register self.old).attached }
        ensures failed { OnErr result (FailsAlone (memory.told self.old) (memory.told self.new)
            place (memory.register self.old).asked) }

        // It fails where its number was listed. Else it puts all bytes, unless memory runs out.
        ensures planned { memory.NextFails (memory.plan self.old) → IsErr result }
        ensures whole { IfOk result (λ n. n ≡ length bytes.now) }
        ensures counted { memory.plan self.new ≡ memory.counted (memory.plan self.old) }
        ensures holds { (q : List ℕ) → memory.holds self.new q ≡ memory.holds self.old q }
    {
        if self.calls.next_fails() {
            self.failures.count(place);
            return Err(Failed);
        }
        match put_to(
            &mut self.report,
            &mut self.files,
            &mut self.tapes,
            place,
            bytes,
        ) {
            Ok(()) => Ok(bytes.len()),
            Err(_) => {
                self.failures.count(place);
                Err(Failed)
            }
        }
    }

    fn flush(&mut self, place: u32) -> Result<(), Failed>
        requires writable { IsWritable (memory.register self.old) place }
        ensures flushed { OnOk result (Stays (memory.told self.old) (memory.told self.new)) }
        ensures failed { OnErr result (FailsAlone (memory.told self.old) (memory.told self.new)
            place (memory.register self.old).asked) }

        // It fails exactly where its number was listed.
        ensures planned { IsErr result ↔ memory.NextFails (memory.plan self.old) }
        ensures counted { memory.plan self.new ≡ memory.counted (memory.plan self.old) }
        ensures holds { (q : List ℕ) → memory.holds self.new q ≡ memory.holds self.old q }
    {
        if self.calls.next_fails() {
            self.failures.count(place);
            return Err(Failed);
        }
        Ok(())
    }
}

//! The program.

ghost use Rattle.std.specs.Prelude.{◌≡◌, ◌≢◌, ℕ, ◌+◌, ◌<◌, ◌≤◌, ◌^◌, true, [], ◌∷◌, ◌++◌, length, slice_get, slice_range, sum_by, All, Any, Contains, OnOk, OnErr, IfOk, IsTrue, ◌↔◌, Some};
ghost use Rattle.vs_plane.specs.Lanes.{slot_lane};
ghost use Rattle.vs_code.specs.Kernels.{takes};
ghost use Rattle.vs_code.specs.Calls.{AreCalled, IsCall, call_cost, count_for, length_of, slots_of, targets_of};
ghost use Rattle.vs_code.specs.Placed.{IsWithin, calls_at, cost_at, lengths_at};

use crate::ops::Op;
use crate::placed::Placed;
use std::alloc::{AllocError, Global};
use std::marker::Model;
use std::sync::ledger::Ledger;
use vs_plane::{PlaneFile, Steps, Word};

/// A straight program: calls of kernels, one after the other. It makes at most 2^32 stores.
///
/// The lists of slots of all its calls stand in one arena.
#[derive(Drop)]
pub struct Program {
    calls: Vec<Placed>,
    arena: Vec<u32>,
    length: u64,
    slots: u64,
}

// Clauses see the calls.
impl Model for Program {
    ghost use Rattle.std.specs.Prelude.{List};
    ghost use Rattle.vs_code.specs.Calls.{Call};

    ghost Value = { List Call };

    ghost use Rattle.vs_code.specs.Placed.{calls_at};
    ghost use Rattle.vs_code.specs.Kept.{IsKept};

    ghost view = { λ p. calls_at p.arena.items p.calls.items };

    ghost invariant = { IsKept };
}

impl Program {
    /// A program with no calls. It takes no memory.
    pub fn new(alloc: Global) -> Program
        ensures { result ≡ [] }
    {
        Program {
            calls: Vec::new(alloc),
            arena: Vec::new(alloc),
            length: 0,
            slots: 0,
        }
    }

    /// Adds a call at the end. The only error is that there is no memory, and the program is then as it was.
    pub fn push(&mut self, op: Op) -> Result<(), AllocError>
        requires call { IsCall op }
        requires few { length_of self.old + call_cost op ≤ 2 ^ 32 }
        ensures ok { OnOk result (self.new ≡ self.old ++ op ∷ []) }
        ensures err { OnErr result (self.new ≡ self.old) }
    {
        let first = self.arena.len();
        let placed = Placed::add(&op, &mut self.arena)?;
        let length = self.length + placed.cost();
        let slots = self.slots.max(count_for(&self.arena.as_slice()[first..]));
        self.calls.push(placed)?;
        self.length = length;
        self.slots = slots;
        Ok(())
    }

    /// How many calls there are.
    pub fn len(&self) -> usize
        ensures { result ≡ length self.now }
    {
        self.calls.len()
    }

    /// Whether there is no call.
    pub fn is_empty(&self) -> bool
        ensures { IsTrue result ↔ (self.now ≡ []) }
    {
        self.calls.is_empty()
    }

    /// Call number n. The only error is that there is no memory.
    pub fn op(&self, alloc: Global, n: usize) -> Result<Op, AllocError>
        requires { n < length self.now }
        ensures { IfOk result (λ op. slice_get self.now n ≡ Some op) }
    {
        self.calls[n].op(alloc, self.arena.as_slice())
    }

    /// How many stores an execution makes, at most 2^32.
    pub fn length(&self) -> u64
        ensures exact { result ≡ length_of self.now }
        ensures most { result ≤ 2 ^ 32 }
        ensures calls { All IsCall self.now }
    {
        self.length
    }

    /// How many stores the calls from number `from` to before number `to` make, at most 2^32.
    pub fn length_of_part(&self, from: usize, to: usize) -> u64
        requires order { from ≤ to }
        requires there { to ≤ length self.now }
        ensures exact { result ≡ length_of (slice_range self.now from to) }
        ensures most { result ≤ 2 ^ 32 }
    {
        count_stores(&self.calls.as_slice()[from..to])
    }

    /// The least number of slots that a file must have to have all that the calls name, at most 2^32.
    pub fn slots(&self) -> u64
        ensures enough { All (λ slot. slot < result) (slots_of self.now) }
        ensures least { result ≢ 0 → Any (λ slot. slot + 1 ≡ result) (slots_of self.now) }
        ensures most { result ≤ 2 ^ 32 }
    {
        self.slots
    }

    /// Makes the calls in their order. It takes no memory and never fails.
    ///
    /// In each lane it is as if the operators were applied one after the other to that lane's bits, whatever stands in the other lanes. It
    /// goes over the program once for all lanes: a `Word` shows no bit, so a body that goes lane by lane can't be written.
    pub fn execute<W: Word, L: Ledger>(&self, file: &mut PlaneFile<W>, steps: &mut Steps<L>)
        requires { All (λ slot. slot < length file.old) (slots_of self.now) }
        ensures applied { (i : ℕ) → i < W.LANES
            → AreCalled self.now (λ slot. slot_lane W.lane file.old slot i) (λ slot. slot_lane W.lane file.new slot i) }
        ensures slots { length file.new ≡ length file.old }
        ensures kept { (slot : ℕ) → ¬ Contains (targets_of self.now) slot → slice_get file.new slot ≡ slice_get file.old slot }
        ensures ticked { steps.new ≡ steps.old + length_of self.now }
    {
        run_all(self.calls.as_slice(), self.arena.as_slice(), file, steps);
    }

    /// Makes the calls from number `from` to before number `to`, in their order, as `execute` makes all of them.
    pub fn execute_part<W: Word, L: Ledger>(
        &self,
        from: usize,
        to: usize,
        file: &mut PlaneFile<W>,
        steps: &mut Steps<L>,
    )
        requires order { from ≤ to }
        requires there { to ≤ length self.now }
        requires below { All (λ slot. slot < length file.old) (slots_of (slice_range self.now from to)) }
        ensures applied { (i : ℕ) → i < W.LANES
            → AreCalled (slice_range self.now from to) (λ slot. slot_lane W.lane file.old slot i) (λ slot. slot_lane W.lane file.new slot i) }
        ensures slots { length file.new ≡ length file.old }
        ensures kept { (slot : ℕ) → ¬ Contains (targets_of (slice_range self.now from to)) slot → slice_get file.new slot ≡ slice_get file.old slot }
        ensures ticked { steps.new ≡ steps.old + length_of (slice_range self.now from to) }
    {
        run_all(
            &self.calls.as_slice()[from..to],
            self.arena.as_slice(),
            file,
            steps,
        );
    }
}

/// How many stores these calls make.
fn count_stores(calls: &[Placed]) -> u64
    requires lengths { All (λ placed. takes placed.kernel (lengths_at placed) ≡ true) calls.now }
    requires few { sum_by cost_at calls.now ≤ 2 ^ 32 }
    ensures { result ≡ sum_by cost_at calls.now }
{
    let mut count = 0;
    for call in calls {
        count += call.cost();
    }
    count
}

/// How many slots a file must have to have all of these.
fn count_for(slots: &[u32]) -> u64
    ensures exact { result ≡ count_for slots.now }
    ensures most { result ≤ 2 ^ 32 }
{
    let mut count = 0;
    for slot in slots {
        count = count.max(u64::from(*slot) + 1);
    }
    count
}

/// Makes these calls in their order.
fn run_all<W: Word, L: Ledger>(
    calls: &[Placed],
    arena: &[u32],
    file: &mut PlaneFile<W>,
    steps: &mut Steps<L>,
)
    requires within { All (IsWithin arena.now) calls.now }
    requires calls { All IsCall (calls_at arena.now calls.now) }
    requires below { All (λ slot. slot < length file.old) (slots_of (calls_at arena.now calls.now)) }
    ensures applied { (i : ℕ) → i < W.LANES
        → AreCalled (calls_at arena.now calls.now) (λ slot. slot_lane W.lane file.old slot i) (λ slot. slot_lane W.lane file.new slot i) }
    ensures slots { length file.new ≡ length file.old }
    ensures kept { (slot : ℕ) → ¬ Contains (targets_of (calls_at arena.now calls.now)) slot → slice_get file.new slot ≡ slice_get file.old slot }
    ensures ticked { steps.new ≡ steps.old + length_of (calls_at arena.now calls.now) }
{
    for call in calls {
        call.run(arena, file, steps);
    }
}

//! Calls whose lists of slots stand in one arena.

ghost use Rattle.std.specs.Prelude.{◌≡◌, ◌+◌, ◌<◌, ◌≤◌, ◌^◌, ◌++◌, true, map, length, take, drop, All, IfOk, OnOk};
ghost use Rattle.std.specs.List.{concat};
ghost use Rattle.vs_plane.specs.Kernels.{Computes};
ghost use Rattle.vs_code.specs.Kernels.{operator_of, takes};
ghost use Rattle.vs_code.specs.Calls.{IsCall, call_cost, call_slots};
ghost use Rattle.vs_code.specs.Placed.{IsLonger, IsWithin, call_at, cost_at, lengths_at, lengths_in};

use crate::bits;
use crate::kernels::{AnyKernel, cost, run_one, run_three, run_two};
use crate::ops::Op;
use std::alloc::{AllocError, Global};
use std::sync::ledger::Ledger;
use vs_base::List;
use vs_plane::{PlaneFile, Steps, Word};

/// How many slots each argument of a call has.
#[derive(Clone, Copy)]
pub(crate) enum Lengths {
    /// Of the only one.
    One(u32),
    /// Of the first and the second.
    Two(u32, u32),
    /// Of the first, the second and the third.
    Three(u32, u32, u32),
}

/// One call of a kernel, as a program keeps it: its kernel and how long its lists of slots are.
///
/// The lists themselves stand in the program's arena, one behind the other from `first` on: that of each argument, of the value, and of the
/// scratch.
#[derive(Clone, Copy)]
pub(crate) struct Placed {
    kernel: AnyKernel,
    to: u32,
    args: Lengths,
    first: usize,
    scratch: usize,
}

impl Lengths {
    /// Those of these arguments.
    fn of(args: &[List<u32>]) -> Lengths
        requires some { 1 ≤ length args.now }
        requires few { length args.now ≤ 3 }
        requires short { All (λ arg. length arg < 2 ^ 32) args.now }
        ensures { lengths_in result ≡ map length args.now }
    {
        match args {
            [a] => Lengths::One(a.len() as u32),
            [a, b] => Lengths::Two(a.len() as u32, b.len() as u32),
            [a, b, c] => Lengths::Three(a.len() as u32, b.len() as u32, c.len() as u32),
            _ => unreachable!(),
        }
    }
}

impl Placed {
    /// Puts a call's lists at the end of the arena. The only error is that there is no memory; a part of the lists may then stand there.
    pub(crate) fn add(op: &Op, arena: &mut Vec<u32>) -> Result<Placed, AllocError>
        requires { IsCall op.now }
        ensures appended { OnOk result (arena.new.items ≡ arena.old.items ++ call_slots op.now) }
        ensures call { IfOk result (λ placed. call_at arena.new.items placed ≡ op.now) }
        ensures within { IfOk result (λ placed. IsWithin arena.new.items placed) }
        ensures longer { IsLonger arena.old.items arena.new.items }
    {
        let first = arena.len();
        append_slots(op, arena)?;
        Ok(Placed {
            kernel: op.kernel,
            to: op.to.len() as u32,
            args: Lengths::of(op.args.as_slice()),
            first,
            scratch: op.scratch.len(),
        })
    }

    /// How many stores the call makes.
    pub(crate) fn cost(&self) -> u64
        requires lengths { takes self.now.kernel (lengths_at self.now) ≡ true }
        requires fits { cost_at self.now ≤ 2 ^ 32 }
        ensures { result ≡ cost_at self.now }
    {
        match self.args {
            Lengths::One(a) => cost(self.kernel, &[a, self.to]),
            Lengths::Two(a, b) => cost(self.kernel, &[a, b, self.to]),
            Lengths::Three(a, b, c) => cost(self.kernel, &[a, b, c, self.to]),
        }
    }

    /// The call. The only error is that there is no memory.
    pub(crate) fn op(&self, alloc: Global, arena: &[u32]) -> Result<Op, AllocError>
        requires { IsWithin arena.now self.now }
        ensures { IfOk result (λ op. op ≡ call_at arena.now self.now) }
    {
        let (_, slots) = arena.split_at(self.first);
        let mut args = Vec::new(alloc);
        match self.args {
            Lengths::One(a) => {
                let (a, rest) = slots.split_at(a as usize);
                args.push(list_of(alloc, a)?)?;
                self.op_of(alloc, args, rest)
            }
            Lengths::Two(a, b) => {
                let (a, rest) = slots.split_at(a as usize);
                let (b, rest) = rest.split_at(b as usize);
                args.push(list_of(alloc, a)?)?;
                args.push(list_of(alloc, b)?)?;
                self.op_of(alloc, args, rest)
            }
            Lengths::Three(a, b, c) => {
                let (a, rest) = slots.split_at(a as usize);
                let (b, rest) = rest.split_at(b as usize);
                let (c, rest) = rest.split_at(c as usize);
                args.push(list_of(alloc, a)?)?;
                args.push(list_of(alloc, b)?)?;
                args.push(list_of(alloc, c)?)?;
                self.op_of(alloc, args, rest)
            }
        }
    }

    /// The call with these arguments, by the slots behind them.
    fn op_of(&self, alloc: Global, args: Vec<List<u32>>, rest: &[u32]) -> Result<Op, AllocError>
        requires { self.now.to + self.now.scratch ≤ length rest.now }
        ensures { IfOk result (λ op. op ≡ record { kernel = self.now.kernel; args = args.items; to = take self.now.to rest.now; scratch = take self.now.scratch (drop self.now.to rest.now) }) }
    {
        let (to, scratch) = self.written(rest);
        Ok(Op {
            kernel: self.kernel,
            args: List::of(args),
            to: list_of(alloc, to)?,
            scratch: list_of(alloc, scratch)?,
        })
    }

    /// Runs the kernel in a file that has the call's slots.
    pub(crate) fn run<W: Word, L: Ledger>(
        &self,
        arena: &[u32],
        file: &mut PlaneFile<W>,
        steps: &mut Steps<L>,
    )
        requires within { IsWithin arena.now self.now }
        requires call { IsCall (call_at arena.now self.now) }
        requires below { All (λ slot. slot < length file.old) (call_slots (call_at arena.now self.now)) }
        ensures computes { let call = call_at arena.now self.now in
            Computes W.lane W.LANES (operator_of call.kernel (length call.to)) call.args call.to call.scratch file.old file.new }
        ensures ticked { steps.new ≡ steps.old + call_cost (call_at arena.now self.now) }
    {
        match (self.kernel, self.args) {
            (AnyKernel::Logic(kernel), Lengths::One(1)) => {
                let (_, slots) = arena.split_at(self.first);
                bits::run_one(kernel, file, slots[0], slots[1], steps)
            }
            (AnyKernel::Logic(kernel), Lengths::Two(1, 1)) => {
                let (_, slots) = arena.split_at(self.first);
                bits::run_two(kernel, file, slots[0], slots[1], slots[2], steps)
            }
            _ => self.run_lists(arena, file, steps),
        }
    }

    /// Runs the kernel with its lists of slots, whatever their lengths. It stands apart, so that calls of one bit need none of its registers.
    #[inline(never)]
    fn run_lists<W: Word, L: Ledger>(
        &self,
        arena: &[u32],
        file: &mut PlaneFile<W>,
        steps: &mut Steps<L>,
    )
        requires within { IsWithin arena.now self.now }
        requires call { IsCall (call_at arena.now self.now) }
        requires below { All (λ slot. slot < length file.old) (call_slots (call_at arena.now self.now)) }
        ensures computes { let call = call_at arena.now self.now in
            Computes W.lane W.LANES (operator_of call.kernel (length call.to)) call.args call.to call.scratch file.old file.new }
        ensures ticked { steps.new ≡ steps.old + call_cost (call_at arena.now self.now) }
    {
        let kernel = self.kernel;
        let (_, slots) = arena.split_at(self.first);
        match self.args {
            Lengths::One(a) => {
                let (a, rest) = slots.split_at(a as usize);
                let (to, scratch) = self.written(rest);
                run_one(kernel, file, a, to, scratch, steps)
            }
            Lengths::Two(a, b) => {
                let (a, rest) = slots.split_at(a as usize);
                let (b, rest) = rest.split_at(b as usize);
                let (to, scratch) = self.written(rest);
                run_two(kernel, file, a, b, to, scratch, steps)
            }
            Lengths::Three(a, b, c) => {
                let (a, rest) = slots.split_at(a as usize);
                let (b, rest) = rest.split_at(b as usize);
                let (c, rest) = rest.split_at(c as usize);
                let (to, scratch) = self.written(rest);
                run_three(kernel, file, a, b, c, to, scratch, steps)
            }
        }
    }

    /// The slots of the value and of the scratch, out of those behind the arguments.
    fn written<'a>(&self, slots: &'a [u32]) -> (&'a [u32], &'a [u32])
        requires { self.now.to + self.now.scratch ≤ length slots.now }
        ensures to { result.0.now ≡ take self.now.to slots.now }
        ensures scratch { result.1.now ≡ take self.now.scratch (drop self.now.to slots.now) }
    {
        let (to, rest) = slots.split_at(self.to as usize);
        (to, &rest[..self.scratch])
    }
}

/// A list of these slots.
fn list_of(alloc: Global, slots: &[u32]) -> Result<List<u32>, AllocError>
    ensures { IfOk result (λ list. list ≡ slots.now) }
{
    let mut list = Vec::with_capacity(alloc, slots.len())?;
    list.extend_from_slice(slots)?;
    Ok(List::of(list))
}

/// Appends a call's lists of slots, one behind the other.
fn append_slots(op: &Op, arena: &mut Vec<u32>) -> Result<(), AllocError>
    ensures ok { OnOk result (arena.new.items ≡ arena.old.items ++ call_slots op.now) }
    ensures longer { IsLonger arena.old.items arena.new.items }
{
    append_args(op.args.as_slice(), arena)?;
    arena.extend_from_slice(op.to.as_slice())?;
    arena.extend_from_slice(op.scratch.as_slice())
}

/// Appends the lists of slots of these arguments, one behind the other.
fn append_args(args: &[List<u32>], arena: &mut Vec<u32>) -> Result<(), AllocError>
    ensures ok { OnOk result (arena.new.items ≡ arena.old.items ++ concat args.now) }
    ensures longer { IsLonger arena.old.items arena.new.items }
{
    for arg in args {
        arena.extend_from_slice(arg.as_slice())?;
    }
    Ok(())
}

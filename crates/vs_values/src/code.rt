//! Calls that are added to a program, each with slots of its own.

ghost use Rattle.std.specs.Prelude.{◌≡◌, ◌+◌, ◌<◌, ◌≤◌, ◌^◌, ◌++◌, ◌∷◌, [], IfOk, OnOk, OnErr};
ghost use Rattle.std.specs.List.{range_with_len};
ghost use Rattle.vs_code.specs.Calls.{IsCall, call_cost, length_of};
ghost use Rattle.vs_values.specs.Added.{fresh_call, stored_call, copy_call};
ghost use Rattle.vs_values.specs.Coded.{with_call};

use crate::arguments::single;
use std::alloc::{AllocError, Global};
use std::marker::Model;
use vs_base::List;
use vs_code::{AnyKernel, Op, Program};

/// A program that calls are added to, and the least slot that none of the process's calls has written yet.
#[derive(Drop)]
pub struct Code {
    program: Program,
    next: u32,
}

// Clauses see the calls and that slot.
impl Model for Code {
    ghost use Rattle.vs_values.specs.Coded.{Coding};

    ghost Value = { Coding };

    ghost view = { λ c. record { calls = c.program; next = c.next } };
}

impl Code {
    /// Goes on with a program, with new slots from this one on.
    pub fn from(program: Program, next: u32) -> Code
        ensures calls { result.calls ≡ program }
        ensures next { result.next ≡ next }
    {
        Code { program, next }
    }

    /// The least slot that is new.
    pub fn next(&self) -> u32
        ensures { result ≡ self.now.next }
    {
        self.next
    }

    /// The program.
    pub fn into_program(self) -> Program
        ensures { result ≡ self.calls }
    {
        let Code { program, .. } = self;
        program
    }

    /// Adds a call, and answers the new slots that get its value. On an error the calls are as they were.
    pub fn call(
        &mut self,
        alloc: Global,
        kernel: AnyKernel,
        args: List<List<u32>>,
        width: u32,
    ) -> Result<Vec<u32>, AllocError>
        requires is { IsCall (fresh_call kernel args self.old.next width) }
        requires slots { self.old.next + width < 2 ^ 32 }
        requires few { length_of self.old.calls + call_cost (fresh_call kernel args self.old.next width) ≤ 2 ^ 32 }
        ensures to { IfOk result (λ to. to.items ≡ range_with_len self.old.next width) }
        ensures ok { OnOk result (self.new ≡ with_call self.old kernel args width) }
        ensures err { OnErr result (self.new ≡ self.old) }
    {
        let first = self.next;
        let to = new_slots(alloc, first, width)?;
        let written = new_slots(alloc, first, width)?;
        self.program.push(Op {
            kernel,
            args,
            to: List::of(written),
            scratch: List::of(Vec::new(alloc)),
        })?;
        self.next = first + width;
        Ok(to)
    }

    /// Adds a call that copies the values of these slots to those. On an error the calls are as they were.
    pub fn copy(&mut self, alloc: Global, from: Vec<u32>, to: Vec<u32>) -> Result<(), AllocError>
        requires is { IsCall (copy_call from.items to.items) }
        requires few { length_of self.old.calls + call_cost (copy_call from.items to.items) ≤ 2 ^ 32 }
        ensures calls { OnOk result (self.new.calls ≡ self.old.calls ++ copy_call from.items to.items ∷ []) }
        ensures next { OnOk result (self.new.next ≡ self.old.next) }
    {
        let args = single(alloc, from)?;
        self.program.push(Op {
            kernel: AnyKernel::Logic(vs_kern_logic::Kernel::Copy),
            args,
            to: List::of(to),
            scratch: List::of(Vec::new(alloc)),
        })?;
        Ok(())
    }

    /// Adds a call whose value gets these slots. On an error the calls are as they were.
    pub fn store(
        &mut self,
        alloc: Global,
        kernel: AnyKernel,
        args: List<List<u32>>,
        to: Vec<u32>,
    ) -> Result<(), AllocError>
        requires is { IsCall (stored_call kernel args to.items) }
        requires few { length_of self.old.calls + call_cost (stored_call kernel args to.items) ≤ 2 ^ 32 }
        ensures calls { OnOk result (self.new.calls ≡ self.old.calls ++ stored_call kernel args to.items ∷ []) }
        ensures next { OnOk result (self.new.next ≡ self.old.next) }
    {
        self.program.push(Op {
            kernel,
            args,
            to: List::of(to),
            scratch: List::of(Vec::new(alloc)),
        })?;
        Ok(())
    }

    /// Adds a call that may write any slots. On an error the calls are as they were.
    pub(crate) fn add(&mut self, op: Op) -> Result<(), AllocError>
        requires is { IsCall op }
        requires few { length_of self.old.calls + call_cost op ≤ 2 ^ 32 }
        ensures ok { OnOk result (self.new ≡ record { calls = self.old.calls ++ op ∷ []; next = self.old.next }) }
        ensures err { OnErr result (self.new ≡ self.old) }
    {
        self.program.push(op)?;
        Ok(())
    }

    /// Takes as many slots, which are new no more.
    pub(crate) fn take(&mut self, count: u32)
        requires { self.old.next + count < 2 ^ 32 }
        ensures { self.new ≡ record { calls = self.old.calls; next = self.old.next + count } }
    {
        self.next += count;
    }
}

/// As many slots, one after the other.
fn new_slots(alloc: Global, first: u32, count: u32) -> Result<Vec<u32>, AllocError>
    requires { first + count < 2 ^ 32 }
    ensures { IfOk result (λ to. to.items ≡ range_with_len first count) }
{
    let mut to = Vec::with_capacity(alloc, count as usize)?;
    for k in 0..count {
        to.push(first + k)?;
    }
    Ok(to)
}

//! The calls of a template with other slots (IEEE 1364-2005, 10.4).

ghost use Rattle.std.specs.Prelude.{◌≡◌, ◌+◌, ◌<◌, ◌≤◌, ◌^◌, map, length, All, IfOk};
ghost use Rattle.vs_code.specs.Calls.{call_slots};
ghost use Rattle.vs_values.specs.Calling.{IsFitting, IsInlinedTo};
ghost use Rattle.vs_values.specs.Templates.{names_at_call, renamed, renamed_call};

use crate::code::Code;
use crate::templates::Template;
use std::alloc::{AllocError, Global};
use vs_base::List;
use vs_code::Op;

/// Which slots stand for those of a template at a call.
#[derive(Drop)]
struct Renaming {
    /// Those of the constants and of the inputs' bits.
    names: Vec<u32>,
    /// The first of the new ones.
    first: u32,
}

impl Renaming {
    /// At a call whose inputs' bits have these slots.
    fn new(alloc: Global, slots: &[u32], first: u32) -> Result<Renaming, AllocError>
        ensures names { IfOk result (λ r. r.names.items ≡ names_at_call slots.now) }
        ensures first { IfOk result (λ r. r.first ≡ first) }
    {
        let mut names = Vec::from_array(alloc, [0, 1, 2, 3])?;
        names.extend_from_slice(slots)?;
        Ok(Renaming { names, first })
    }

    /// The slot that stands for this one.
    fn slot(&self, slot: u32) -> u32
        requires { slot + self.now.first < 2 ^ 32 + length self.now.names.items }
        ensures { result ≡ renamed self.now.names.items self.now.first slot }
    {
        let named = self.names.len();
        if (slot as usize) < named {
            self.names[slot as usize]
        } else {
            ((slot as usize - named) + self.first as usize) as u32
        }
    }

    /// Those that stand for these.
    fn slots(&self, alloc: Global, slots: &[u32]) -> Result<Vec<u32>, AllocError>
        requires { All (λ slot. slot + self.now.first < 2 ^ 32 + length self.now.names.items) slots.now }
        ensures { IfOk result (λ to. to.items ≡ map (renamed self.now.names.items self.now.first) slots.now) }
    {
        let mut to = Vec::with_capacity(alloc, slots.len())?;
        for slot in slots {
            to.push(self.slot(*slot))?;
        }
        Ok(to)
    }

    /// Those of all arguments of a call.
    fn args(&self, alloc: Global, args: &[List<u32>]) -> Result<List<List<u32>>, AllocError>
        requires { All (λ arg. All (λ slot. slot + self.now.first < 2 ^ 32 + length self.now.names.items) arg) args.now }
        ensures { IfOk result (λ to. to ≡ map (λ arg. map (renamed self.now.names.items self.now.first) arg) args.now) }
    {
        let mut to = Vec::with_capacity(alloc, args.len())?;
        for arg in args {
            to.push(List::of(self.slots(alloc, arg.as_slice())?))?;
        }
        Ok(List::of(to))
    }

    /// The call over those.
    fn op(&self, alloc: Global, op: &Op) -> Result<Op, AllocError>
        requires { All (λ slot. slot + self.now.first < 2 ^ 32 + length self.now.names.items) (call_slots op.now) }
        ensures { IfOk result (λ to. to ≡ renamed_call (renamed self.now.names.items self.now.first) op.now) }
    {
        Ok(Op {
            kernel: op.kernel,
            args: self.args(alloc, op.args.as_slice())?,
            to: List::of(self.slots(alloc, op.to.as_slice())?),
            scratch: List::of(self.slots(alloc, op.scratch.as_slice())?),
        })
    }
}

/// Adds a template's calls, with these slots in place of those of the inputs' bits, and answers the slots of the result.
pub(crate) fn inline(
    alloc: Global,
    template: &Template,
    slots: &[u32],
    code: &mut Code,
) -> Result<Vec<u32>, AllocError>
    requires { IsFitting template.now code.old slots.now }
    ensures { IfOk result (λ to. IsInlinedTo template.now slots.now code.old code.new to.items) }
{
    let renaming = Renaming::new(alloc, slots, code.next())?;
    for n in 0..template.calls.len() {
        let op = template.calls.op(alloc, n)?;
        code.add(renaming.op(alloc, &op)?)?;
    }
    code.take(template.next - renaming.names.len() as u32);
    renaming.slots(alloc, template.result.as_slice())
}

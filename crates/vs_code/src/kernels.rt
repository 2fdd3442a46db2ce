//! The kernels of all kernel crates, called by their names.
ghost use Rattle.std.specs.Prelude.{◌≡◌, ◌+◌, ◌<◌, ◌≤◌, ◌^◌, length, true, [], ◌∷◌};
ghost use Rattle.vs_plane.specs.Kernels.{AreTargets, Computes, IsArgument};
ghost use Rattle.vs_code.specs.Kernels.{cost_of, operator_of, room_of, takes};

use std::sync::ledger::Ledger;
use vs_plane::{PlaneFile, Steps, Word};

/// A kernel of any of the kernel crates.
#[derive(Clone, Copy, PartialEq, Eq, Debug)]
pub enum AnyKernel {
    /// One that goes bit by bit, a reduction, a truth, an equality or a match.
    Logic(vs_kern_logic::Kernel),
    /// Addition, subtraction, multiplication, negation or an order.
    Arith(vs_kern_arith::Kernel),
    /// A shift, a select or a write by a variable index, a word of a memory, or a choice.
    Select(vs_kern_select::Kernel),
}

/// How many stores a call makes, by the lengths of its arguments in their order and then that of its value.
pub(crate) fn cost(kernel: AnyKernel, lengths: &[u32]) -> u64
    requires lengths { takes kernel lengths.now ≡ true }
    requires fits { cost_of kernel lengths.now ≤ 2 ^ 32 }
    ensures { result ≡ cost_of kernel lengths.now }
{
    match kernel {
        AnyKernel::Logic(kernel) => vs_kern_logic::cost(kernel, lengths),
        AnyKernel::Arith(kernel) => vs_kern_arith::cost(kernel, lengths),
        AnyKernel::Select(kernel) => vs_kern_select::cost(kernel, lengths),
    }
}

/// Runs a kernel of one argument.
pub(crate) fn run_one<W: Word, L: Ledger>(
    kernel: AnyKernel,
    file: &mut PlaneFile<W>,
    a: &[u32],
    to: &[u32],
    scratch: &[u32],
    steps: &mut Steps<L>,
)
    requires lengths { takes kernel (length a.now ∷ length to.now ∷ []) ≡ true }
    requires targets { AreTargets (length file.old) to.now scratch.now }
    requires a { IsArgument (length file.old) a.now to.now scratch.now }
    ensures computes { Computes W.lane W.LANES (operator_of kernel (length to.now)) (a.now ∷ []) to.now scratch.now file.old file.new }
    ensures ticked { steps.new ≡ steps.old + cost_of kernel (length a.now ∷ length to.now ∷ []) }
{
    match kernel {
        AnyKernel::Logic(kernel) => vs_kern_logic::run_one(kernel, file, a, to, scratch, steps),
        AnyKernel::Arith(kernel) => vs_kern_arith::run_one(kernel, file, a, to, scratch, steps),
        AnyKernel::Select(_) => unreachable!(),
    }
}

/// Runs a kernel of two arguments.
pub(crate) fn run_two<W: Word, L: Ledger>(
    kernel: AnyKernel,
    file: &mut PlaneFile<W>,
    a: &[u32],
    b: &[u32],
    to: &[u32],
    scratch: &[u32],
    steps: &mut Steps<L>,
)
    requires lengths { takes kernel (length a.now ∷ length b.now ∷ length to.now ∷ []) ≡ true }
    requires room { room_of kernel (length a.now ∷ length b.now ∷ length to.now ∷ []) ≤ length scratch.now }
    requires targets { AreTargets (length file.old) to.now scratch.now }
    requires a { IsArgument (length file.old) a.now to.now scratch.now }
    requires b { IsArgument (length file.old) b.now to.now scratch.now }
    ensures computes { Computes W.lane W.LANES (operator_of kernel (length to.now)) (a.now ∷ b.now ∷ []) to.now scratch.now file.old file.new }
    ensures ticked { steps.new ≡ steps.old + cost_of kernel (length a.now ∷ length b.now ∷ length to.now ∷ []) }
{
    match kernel {
        AnyKernel::Logic(kernel) => vs_kern_logic::run_two(kernel, file, a, b, to, scratch, steps),
        AnyKernel::Arith(kernel) => vs_kern_arith::run_two(kernel, file, a, b, to, scratch, steps),
        AnyKernel::Select(kernel) => {
            vs_kern_select::run_two(kernel, file, a, b, to, scratch, steps)
        }
    }
}

/// Runs a kernel of three arguments.
pub(crate) fn run_three<W: Word, L: Ledger>(
    kernel: AnyKernel,
    file: &mut PlaneFile<W>,
    a: &[u32],
    b: &[u32],
    c: &[u32],
    to: &[u32],
    scratch: &[u32],
    steps: &mut Steps<L>,
)
    requires lengths { takes kernel (length a.now ∷ length b.now ∷ length c.now ∷ length to.now ∷ []) ≡ true }
    requires targets { AreTargets (length file.old) to.now scratch.now }
    requires a { IsArgument (length file.old) a.now to.now scratch.now }
    requires b { IsArgument (length file.old) b.now to.now scratch.now }
    requires c { IsArgument (length file.old) c.now to.now scratch.now }
    ensures computes { Computes W.lane W.LANES (operator_of kernel (length to.now)) (a.now ∷ b.now ∷ c.now ∷ []) to.now scratch.now file.old file.new }
    ensures ticked { steps.new ≡ steps.old + cost_of kernel (length a.now ∷ length b.now ∷ length c.now ∷ length to.now ∷ []) }
{
    match kernel {
        AnyKernel::Select(kernel) => {
            vs_kern_select::run_three(kernel, file, a, b, c, to, scratch, steps)
        }
        AnyKernel::Logic(_) | AnyKernel::Arith(_) => unreachable!(),
    }
}

//! Kernels called by their names.
ghost use Rattle.std.specs.Prelude.{◌≡◌, ◌+◌, length, true, [], ◌∷◌};
ghost use Rattle.vs_plane.specs.Kernels.{AreTargets, Computes, IsArgument};
ghost use Rattle.vs_kern_arith.specs.Costs.{cost_of, shape_of, takes};
ghost use Rattle.vs_kern_arith.specs.Operators.{operator_of};

use crate::costs::Kernel;
use crate::orders::{greater, greater_equal, less, less_equal};
use crate::products::mul;
use crate::sums::{add, neg, sub};
use std::sync::ledger::Ledger;
use vs_plane::{PlaneFile, Steps, Word};

/// Runs a kernel of one argument.
pub fn run_one<W: Word, L: Ledger>(
    kernel: Kernel,
    file: &mut PlaneFile<W>,
    a: &[u32],
    to: &[u32],
    scratch: &[u32],
    steps: &mut Steps<L>,
)
    requires lengths { takes (shape_of kernel) (length a.now ∷ length to.now ∷ []) ≡ true }
    requires targets { AreTargets (length file.old) to.now scratch.now }
    requires a { IsArgument (length file.old) a.now to.now scratch.now }
    ensures computes { Computes W.lane W.LANES (operator_of kernel) (a.now ∷ []) to.now scratch.now file.old file.new }
    ensures ticked { steps.new ≡ steps.old + cost_of kernel (length a.now ∷ length to.now ∷ []) }
{
    match kernel {
        Kernel::Neg => neg(file, a, to, scratch, steps),
        Kernel::Add
        | Kernel::Sub
        | Kernel::Mul
        | Kernel::Less(_)
        | Kernel::LessEqual(_)
        | Kernel::Greater(_)
        | Kernel::GreaterEqual(_) => unreachable!(),
    }
}

/// Runs a kernel of two arguments.
pub fn run_two<W: Word, L: Ledger>(
    kernel: Kernel,
    file: &mut PlaneFile<W>,
    a: &[u32],
    b: &[u32],
    to: &[u32],
    scratch: &[u32],
    steps: &mut Steps<L>,
)
    requires lengths { takes (shape_of kernel) (length a.now ∷ length b.now ∷ length to.now ∷ []) ≡ true }
    requires targets { AreTargets (length file.old) to.now scratch.now }
    requires a { IsArgument (length file.old) a.now to.now scratch.now }
    requires b { IsArgument (length file.old) b.now to.now scratch.now }
    ensures computes { Computes W.lane W.LANES (operator_of kernel) (a.now ∷ b.now ∷ []) to.now scratch.now file.old file.new }
    ensures ticked { steps.new ≡ steps.old + cost_of kernel (length a.now ∷ length b.now ∷ length to.now ∷ []) }
{
    match kernel {
        Kernel::Add => add(file, a, b, to, scratch, steps),
        Kernel::Sub => sub(file, a, b, to, scratch, steps),
        Kernel::Mul => mul(file, a, b, to, scratch, steps),
        Kernel::Less(signed) => less(signed, file, a, b, to, scratch, steps),
        Kernel::LessEqual(signed) => less_equal(signed, file, a, b, to, scratch, steps),
        Kernel::Greater(signed) => greater(signed, file, a, b, to, scratch, steps),
        Kernel::GreaterEqual(signed) => greater_equal(signed, file, a, b, to, scratch, steps),
        Kernel::Neg => unreachable!(),
    }
}

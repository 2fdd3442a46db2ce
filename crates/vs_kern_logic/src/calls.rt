//! Kernels called by their names.
ghost use Rattle.std.specs.Prelude.{◌≡◌, ◌+◌, length, true, [], ◌∷◌};
ghost use Rattle.vs_plane.specs.Kernels.{AreTargets, Computes, IsArgument};
ghost use Rattle.vs_kern_logic.specs.Costs.{cost_of, shape_of, takes};
ghost use Rattle.vs_kern_logic.specs.Operators.{operator_of};

use crate::bitwise::{and, copy, not, or, xnor, xor};
use crate::comparisons::{case_equal, case_not_equal, equal, matches_x, matches_z, not_equal};
use crate::costs::Kernel;
use crate::reductions::{
    logical_and, logical_not, logical_or, reduce_and, reduce_nand, reduce_nor, reduce_or,
    reduce_xnor, reduce_xor,
};
use std::sync::ledger::Ledger;
use vs_plane::{PlaneFile, Steps, Word};

/// Runs a kernel of one argument.
pub fn run_one<W: Word, L: Ledger>(
    kernel: Kernel,
    file: &mut PlaneFile<W>,
    a: &[u32],
    to: &[u32],
    scratch: &[u32],
    steps: &mut Steps<L>,
)
    requires lengths { takes (shape_of kernel) (length a.now ∷ length to.now ∷ []) ≡ true }
    requires targets { AreTargets (length file.old) to.now scratch.now }
    requires a { IsArgument (length file.old) a.now to.now scratch.now }
    ensures computes { Computes W.lane W.LANES (operator_of kernel) (a.now ∷ []) to.now scratch.now file.old file.new }
    ensures ticked { steps.new ≡ steps.old + cost_of (length a.now ∷ length to.now ∷ []) }
{
    match kernel {
        Kernel::Copy => copy(file, a, to, scratch, steps),
        Kernel::Not => not(file, a, to, scratch, steps),
        Kernel::ReduceAnd => reduce_and(file, a, to, scratch, steps),
        Kernel::ReduceNand => reduce_nand(file, a, to, scratch, steps),
        Kernel::ReduceOr => reduce_or(file, a, to, scratch, steps),
        Kernel::ReduceNor => reduce_nor(file, a, to, scratch, steps),
        Kernel::ReduceXor => reduce_xor(file, a, to, scratch, steps),
        Kernel::ReduceXnor => reduce_xnor(file, a, to, scratch, steps),
        Kernel::LogicalNot => logical_not(file, a, to, scratch, steps),
        Kernel::And
        | Kernel::Or
        | Kernel::Xor
        | Kernel::Xnor
        | Kernel::LogicalAnd
        | Kernel::LogicalOr
        | Kernel::Equal
        | Kernel::NotEqual
        | Kernel::CaseEqual
        | Kernel::CaseNotEqual
        | Kernel::MatchesZ
        | Kernel::MatchesX => unreachable!(),
    }
}

/// Runs a kernel of two arguments.
pub fn run_two<W: Word, L: Ledger>(
    kernel: Kernel,
    file: &mut PlaneFile<W>,
    a: &[u32],
    b: &[u32],
    to: &[u32],
    scratch: &[u32],
    steps: &mut Steps<L>,
)
    requires lengths { takes (shape_of kernel) (length a.now ∷ length b.now ∷ length to.now ∷ []) ≡ true }
    requires targets { AreTargets (length file.old) to.now scratch.now }
    requires a { IsArgument (length file.old) a.now to.now scratch.now }
    requires b { IsArgument (length file.old) b.now to.now scratch.now }
    ensures computes { Computes W.lane W.LANES (operator_of kernel) (a.now ∷ b.now ∷ []) to.now scratch.now file.old file.new }
    ensures ticked { steps.new ≡ steps.old + cost_of (length a.now ∷ length b.now ∷ length to.now ∷ []) }
{
    match kernel {
        Kernel::And => and(file, a, b, to, scratch, steps),
        Kernel::Or => or(file, a, b, to, scratch, steps),
        Kernel::Xor => xor(file, a, b, to, scratch, steps),
        Kernel::Xnor => xnor(file, a, b, to, scratch, steps),
        Kernel::LogicalAnd => logical_and(file, a, b, to, scratch, steps),
        Kernel::LogicalOr => logical_or(file, a, b, to, scratch, steps),
        Kernel::Equal => equal(file, a, b, to, scratch, steps),
        Kernel::NotEqual => not_equal(file, a, b, to, scratch, steps),
        Kernel::CaseEqual => case_equal(file, a, b, to, scratch, steps),
        Kernel::CaseNotEqual => case_not_equal(file, a, b, to, scratch, steps),
        Kernel::MatchesZ => matches_z(file, a, b, to, scratch, steps),
        Kernel::MatchesX => matches_x(file, a, b, to, scratch, steps),
        Kernel::Copy
        | Kernel::Not
        | Kernel::ReduceAnd
        | Kernel::ReduceNand
        | Kernel::ReduceOr
        | Kernel::ReduceNor
        | Kernel::ReduceXor
        | Kernel::ReduceXnor
        | Kernel::LogicalNot => unreachable!(),
    }
}

//! The kernels that go bit by bit, of arguments of one bit (IEEE 1364-2005, 5.1.8 to 5.1.11 and 9.5).
//!
//! The operator is known where the slots are loaded, so their planes are held in registers for that operator alone.

ghost use Rattle.std.specs.Prelude.{◌≡◌, ◌+◌, ◌<◌, length, true, [], ◌∷◌};
ghost use Rattle.vs_kern_logic.specs.Costs.{shape_of, takes};
ghost use Rattle.vs_kern_logic.specs.Operators.{operator_of};
ghost use Rattle.vs_plane.specs.Kernels.{Computes};

use std::sync::ledger::Ledger;
use vs_kern_logic::Kernel;
use vs_plane::{PlaneFile, Steps, Word, filling_law};

/// Runs a kernel of one argument.
#[inline]
pub(crate) fn run_one<W: Word, L: Ledger>(
    kernel: Kernel,
    file: &mut PlaneFile<W>,
    a: u32,
    to: u32,
    steps: &mut Steps<L>,
)
    requires lengths { takes (shape_of kernel) (1 ∷ 1 ∷ []) ≡ true }
    requires a { a < length file.old }
    requires to { to < length file.old }
    ensures computes { Computes W.lane W.LANES (operator_of kernel) ((a ∷ []) ∷ []) (to ∷ []) [] file.old file.new }
    ensures ticked { steps.new ≡ steps.old + 1 }
{
    filling_law::<W>();
    match kernel {
        Kernel::Copy => {
            let copy = file.load(a);
            file.store(to, copy, steps);
        }
        Kernel::Not
        | Kernel::ReduceNand
        | Kernel::ReduceNor
        | Kernel::ReduceXnor
        | Kernel::LogicalNot => {
            let not = file.load(a).not();
            file.store(to, not, steps);
        }
        // The bit as it is, but a z is an x then.
        Kernel::ReduceAnd | Kernel::ReduceOr | Kernel::ReduceXor => {
            let bit = file.load(a);
            file.store(to, bit.and(bit), steps);
        }
        Kernel::And
        | Kernel::Or
        | Kernel::Xor
        | Kernel::Xnor
        | Kernel::LogicalAnd
        | Kernel::LogicalOr
        | Kernel::Equal
        | Kernel::NotEqual
        | Kernel::CaseEqual
        | Kernel::CaseNotEqual
        | Kernel::MatchesZ
        | Kernel::MatchesX => unreachable!(),
    }
}

/// Runs a kernel of two arguments.
#[inline]
pub(crate) fn run_two<W: Word, L: Ledger>(
    kernel: Kernel,
    file: &mut PlaneFile<W>,
    a: u32,
    b: u32,
    to: u32,
    steps: &mut Steps<L>,
)
    requires lengths { takes (shape_of kernel) (1 ∷ 1 ∷ 1 ∷ []) ≡ true }
    requires a { a < length file.old }
    requires b { b < length file.old }
    requires to { to < length file.old }
    ensures computes { Computes W.lane W.LANES (operator_of kernel) ((a ∷ []) ∷ (b ∷ []) ∷ []) (to ∷ []) [] file.old file.new }
    ensures ticked { steps.new ≡ steps.old + 1 }
{
    filling_law::<W>();
    match kernel {
        Kernel::And | Kernel::LogicalAnd => {
            let and = file.load(a).and(file.load(b));
            file.store(to, and, steps);
        }
        Kernel::Or | Kernel::LogicalOr => {
            let or = file.load(a).or(file.load(b));
            file.store(to, or, steps);
        }
        Kernel::Xor | Kernel::NotEqual => {
            let xor = file.load(a).xor(file.load(b));
            file.store(to, xor, steps);
        }
        Kernel::Xnor | Kernel::Equal => {
            let xnor = file.load(a).xnor(file.load(b));
            file.store(to, xnor, steps);
        }
        Kernel::CaseEqual => {
            let same = file.load(a).same(file.load(b));
            file.store(to, same, steps);
        }
        Kernel::CaseNotEqual => {
            let differ = file.load(a).same(file.load(b)).not();
            file.store(to, differ, steps);
        }
        Kernel::MatchesZ => {
            let matched = file.load(a).matches_z(file.load(b));
            file.store(to, matched, steps);
        }
        Kernel::MatchesX => {
            let matched = file.load(a).matches_x(file.load(b));
            file.store(to, matched, steps);
        }
        Kernel::Copy
        | Kernel::Not
        | Kernel::ReduceAnd
        | Kernel::ReduceNand
        | Kernel::ReduceOr
        | Kernel::ReduceNor
        | Kernel::ReduceXor
        | Kernel::ReduceXnor
        | Kernel::LogicalNot => unreachable!(),
    }
}

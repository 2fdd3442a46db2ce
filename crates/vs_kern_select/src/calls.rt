//! Kernels called by their names.
ghost use Rattle.std.specs.Prelude.{◌≡◌, ◌+◌, length, true, [], ◌∷◌};
ghost use Rattle.vs_plane.specs.Kernels.{AreTargets, Computes, IsArgument};
ghost use Rattle.vs_kern_select.specs.Costs.{cost_of, shape_of, takes};
ghost use Rattle.vs_kern_select.specs.Operators.{operator_of};

use crate::choices::{branch, choose};
use crate::costs::Kernel;
use crate::selects::{select, write};
use crate::shifts::{shift_arith, shift_left, shift_right};
use crate::words::{read_word, write_word};
use std::sync::ledger::Ledger;
use vs_plane::{PlaneFile, Steps, Word};

/// Runs a kernel of two arguments.
pub fn run_two<W: Word, L: Ledger>(
    kernel: Kernel,
    file: &mut PlaneFile<W>,
    a: &[u32],
    b: &[u32],
    to: &[u32],
    scratch: &[u32],
    steps: &mut Steps<L>,
)
    requires lengths { takes (shape_of kernel) (length a.now ∷ length b.now ∷ length to.now ∷ []) ≡ true }
    requires targets { AreTargets (length file.old) to.now scratch.now }
    requires a { IsArgument (length file.old) a.now to.now scratch.now }
    requires b { IsArgument (length file.old) b.now to.now scratch.now }
    ensures computes { Computes W.lane W.LANES (operator_of kernel (length to.now)) (a.now ∷ b.now ∷ []) to.now scratch.now file.old file.new }
    ensures ticked { steps.new ≡ steps.old + cost_of kernel (length a.now ∷ length b.now ∷ length to.now ∷ []) }
{
    match kernel {
        Kernel::ShiftLeft => shift_left(file, a, b, to, scratch, steps),
        Kernel::ShiftRight => shift_right(file, a, b, to, scratch, steps),
        Kernel::ShiftArith => shift_arith(file, a, b, to, scratch, steps),
        Kernel::Select(s) => select(file, a, b, s.range, s.signed, s.up, to, scratch, steps),
        Kernel::ReadWord(m) => read_word(file, a, b, m.range, m.signed, to, scratch, steps),
        Kernel::Write(_) | Kernel::WriteWord(_) | Kernel::Choose | Kernel::Branch => unreachable!(),
    }
}

/// Runs a kernel of three arguments.
pub fn run_three<W: Word, L: Ledger>(
    kernel: Kernel,
    file: &mut PlaneFile<W>,
    a: &[u32],
    b: &[u32],
    c: &[u32],
    to: &[u32],
    scratch: &[u32],
    steps: &mut Steps<L>,
)
    requires lengths { takes (shape_of kernel) (length a.now ∷ length b.now ∷ length c.now ∷ length to.now ∷ []) ≡ true }
    requires targets { AreTargets (length file.old) to.now scratch.now }
    requires a { IsArgument (length file.old) a.now to.now scratch.now }
    requires b { IsArgument (length file.old) b.now to.now scratch.now }
    requires c { IsArgument (length file.old) c.now to.now scratch.now }
    ensures computes { Computes W.lane W.LANES (operator_of kernel (length to.now)) (a.now ∷ b.now ∷ c.now ∷ []) to.now scratch.now file.old file.new }
    ensures ticked { steps.new ≡ steps.old + cost_of kernel (length a.now ∷ length b.now ∷ length c.now ∷ length to.now ∷ []) }
{
    match kernel {
        Kernel::Write(s) => write(file, a, b, c, s.range, s.signed, s.up, to, scratch, steps),
        Kernel::WriteWord(m) => { write_word(file, a, b, c, m.range, m.signed, to, scratch, steps) }
        Kernel::Choose => choose(file, a, b, c, to, scratch, steps),
        Kernel::Branch => branch(file, a, b, c, to, scratch, steps),
        Kernel::ShiftLeft
        | Kernel::ShiftRight
        | Kernel::ShiftArith
        | Kernel::Select(_)
        | Kernel::ReadWord(_) => unreachable!(),
    }
}

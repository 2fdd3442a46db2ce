//! The sets of bits before anything writes them (IEEE 1364-2005, 4.2.1 and 4.2.2).

ghost use Rattle.std.specs.Prelude.{◌≡◌, ◌≤◌, ◌<◌, ◌+◌, ℕ, length, IfOk};
ghost use Rattle.vs_four.specs.declared.Bit4.TheVariants.{X};
ghost use Rattle.vs_design.specs.Designs.{bit_count};
ghost use Rattle.vs_design.specs.Initials.{idle_value};
ghost use Rattle.vs_design.specs.Sets.{only};
ghost use Rattle.vs_design.specs.Values.{bits_of_signal, count_from};
ghost use Rattle.vs_flat.specs.DesignOf.{design_of};
ghost use Rattle.vs_sets.specs.Branches.{replaced};
ghost use Rattle.vs_sets.specs.Nodes.{signal_of};
ghost use Rattle.vs_sets.specs.Tables.{family_of};
ghost use Rattle.vs_zero.specs.Sources.{bits_of_kind, is_kind};

use std::alloc::{AllocError, Global};
use vs_flat::{count_bits, trees_law};
use vs_four::Bit4;
use vs_sets::{Set4, span_of};
use vs_shape::Shapes;

/// What a signal is: a net that isn't an input of the top, or such an input.
#[derive(Clone, Copy, PartialEq, Eq, Debug)]
pub(crate) enum SignalKind {
    Net,
    Input,
}

/// Whether signal n is of this kind.
fn is_kind(shapes: &Shapes, n: u32, kind: SignalKind) -> bool
    requires { n < length shapes.now.signals }
    ensures { result ≡ is_kind kind (signal_of shapes.now n) }
{
    trees_law();
    let signal = shapes.flat().signal(n);
    match kind {
        SignalKind::Net => signal.net && !signal.input,
        SignalKind::Input => signal.input,
    }
}

/// Gives each bit of a run this set.
fn fill_run(table: &mut [Set4], first: usize, len: usize, set: Set4)
    requires { first + len ≤ length table.old }
    ensures { family_of table.new ≡ replaced (count_from first len) (λ b. set) (family_of table.old) }
{
    for bit in first..first + len {
        table[bit] = set;
    }
}

/// Gives all bits of a signal this set.
fn fill_signal(shapes: &Shapes, n: u32, set: Set4, table: &mut [Set4])
    requires covers { length table.old ≡ bit_count (design_of shapes.now) }
    requires there { n < length shapes.now.signals }
    ensures { family_of table.new ≡ replaced (bits_of_signal (signal_of shapes.now n)) (λ b. set) (family_of table.old) }
{
    let span = span_of(shapes, n);
    fill_run(table, span.first, span.len, set);
}

/// Gives all bits of the signals of this kind this set.
pub(crate) fn fill_kind(shapes: &Shapes, kind: SignalKind, set: Set4, table: &mut [Set4])
    requires { length table.old ≡ bit_count (design_of shapes.now) }
    ensures { family_of table.new ≡ replaced (bits_of_kind kind (design_of shapes.now)) (λ b. set) (family_of table.old) }
{
    trees_law();
    for n in 0..shapes.flat().signal_count() {
        if is_kind(shapes, n, kind) {
            fill_signal(shapes, n, set, table);
        }
    }
}

/// A table in which each bit has this set.
pub(crate) fn filled(alloc: Global, shapes: &Shapes, set: Set4) -> Result<Vec<Set4>, AllocError>
    ensures count { IfOk result (λ v. length v.items ≡ bit_count (design_of shapes.now)) }
    ensures sets { IfOk result (λ v. (b : ℕ) → b < length v.items → family_of v.items b ≡ set) }
{
    trees_law();
    vec![in alloc; set; count_bits(shapes.flat()) as usize]
}

/// The sets of all bits before anything writes them: z in a net that isn't an input of the top, else x.
pub(crate) fn idle_sets(alloc: Global, shapes: &Shapes) -> Result<Vec<Set4>, AllocError>
    ensures count { IfOk result (λ v. length v.items ≡ bit_count (design_of shapes.now)) }
    ensures sets { IfOk result (λ v. family_of v.items ≡ (λ b. only (idle_value (design_of shapes.now) b))) }
{
    let mut table = filled(alloc, shapes, Set4::only(Bit4::X))?;
    fill_kind(
        shapes,
        SignalKind::Net,
        Set4::only(Bit4::Z),
        table.as_mut_slice(),
    );
    Ok(table)
}

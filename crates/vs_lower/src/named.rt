//! The signals that targets name.

ghost use Rattle.std.specs.Prelude.{◌≡◌, ◌+◌, ◌≤◌, IfOk};
ghost use Rattle.vs_design.specs.Values.{bits_of_signal};
ghost use Rattle.vs_flat.specs.Arena.{signal_length};
ghost use Rattle.vs_flat.specs.Trees.{signal_of};
ghost use Rattle.vs_lower.specs.Leaves.{IsNamed, named_number, named_signal};

use std::alloc::{AllocError, Global};
use vs_flat::{Signal, bits_of, lawful_law, trees_law};
use vs_shape::local_of;
use vs_values::{Templates, numbers};

/// A signal that a target names, by its number: one of the design, or a local one of a function (IEEE 1364-2005, 10.4.1).
#[derive(Clone, Copy)]
pub(crate) enum Named {
    Global { signal: u32 },
    Local { function: u32, signal: u32 },
}

/// The declaration of a signal that a target names.
pub(crate) fn declared<'a>(templates: &'a Templates, named: Named) -> &'a Signal
    requires { IsNamed templates.now.arena named }
    ensures is { named_signal templates.now.arena named ≡ signal_of (named_number named) result.now }
    ensures few { result.now.first_bit + signal_length result.now ≤ 67108864 }
{
    trees_law();
    lawful_law();
    let flat = templates.flat();
    match named {
        Named::Global { signal } => flat.signal(signal),
        Named::Local { function, signal } => local_of(flat, function, signal),
    }
}

/// Its bits, by their numbers, the least significant one first.
pub(crate) fn named_bits(
    alloc: Global,
    templates: &Templates,
    named: Named,
) -> Result<Vec<u32>, AllocError>
    requires { IsNamed templates.now.arena named }
    ensures { IfOk result (λ bits. bits.items ≡ bits_of_signal (named_signal templates.now.arena named)) }
{
    let signal = declared(templates, named);
    numbers(alloc, signal.first_bit, bits_of(signal))
}

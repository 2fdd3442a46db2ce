//! Functions that expressions call (IEEE 1364-2005, 10.4).

ghost use Rattle.std.specs.Prelude.{◌≡◌, ◌≤◌, ◌<◌, ◌+◌, length, true};
ghost use Rattle.vs_design.specs.Expressions as E;
ghost use Rattle.vs_design.specs.Fits.{fits_statement};
ghost use Rattle.vs_flat.specs.Arena.{bit_count, declared_at};
ghost use Rattle.vs_flat.specs.DesignOf.{local_of};
ghost use Rattle.vs_flat.specs.Lawful.{IsLawful};
ghost use Rattle.vs_flat.specs.Named.{locals_in};
ghost use Rattle.vs_interpret.specs.Called.{IsCallee};
ghost use Rattle.vs_sets.specs.Calls.{function_of};

use vs_design::within_law;
use vs_flat::{Flat, bits_of, calls_law, lawful_law, trees_law};
use vs_sets::Span;
use vs_shape::Shapes;

/// A function that is called.
#[derive(Clone, Copy, Debug)]
pub(crate) struct Callee {
    /// Its statement.
    pub(crate) statement: u32,
    /// How many expressions there were when it had its statement: those that the statement names are among them.
    pub(crate) nodes: u32,
    /// How many bits its local signals have.
    pub(crate) len: usize,
    /// Those of its result.
    pub(crate) result: Span,
}

/// How many bits the local signals of a function have.
fn local_bits(flat: &Flat, function: u32) -> usize
    requires lawful { IsLawful flat.now }
    requires there { function < length flat.now.functions }
    ensures { result ≡ bit_count (locals_in (declared_at flat.now function)) }
{
    lawful_law();
    let signals = &flat.function(function).function.signals;
    let last = signals.get(signals.len() - 1);
    last.first_bit as usize + bits_of(last) as usize
}

/// The bits of a function's local signal.
pub(crate) fn local_span(shapes: &Shapes, function: u32, n: usize) -> Span
    requires function { function < length shapes.now.functions }
    requires there { n < length (locals_in (declared_at shapes.now function)) }
    ensures first { result.first ≡ (local_of shapes.now function n).first }
    ensures len { result.len ≡ E.signal_length (local_of shapes.now function n) }
    ensures within { result.first + result.len ≤ bit_count (locals_in (declared_at shapes.now function)) }
{
    lawful_law();
    trees_law();
    let local = shapes.flat().function(function).function.signals.get(n);
    Span {
        first: local.first_bit as usize,
        len: bits_of(local) as usize,
    }
}

/// The function of this number, where all in its statement fits.
pub(crate) fn called(shapes: &Shapes, function: u32) -> Callee
    requires there { function < length shapes.now.functions }
    requires fit { fits_statement (function_of shapes.now function).statement ≡ true }
    ensures { IsCallee shapes.now function result }
{
    calls_law();
    lawful_law();
    trees_law();
    within_law();
    let flat = shapes.flat();
    let body = flat.body(function);
    let inputs = flat.function(function).function.inputs as usize;
    Callee {
        statement: body.statement,
        nodes: body.nodes,
        len: local_bits(flat, function),
        result: local_span(shapes, function, inputs),
    }
}

//! The bits that a statement writes: how many, and which both by `=` and by `<=`.

ghost use Rattle.std.specs.Prelude.{◌≡◌, ◌<◌, ◌++◌, filter, length, true, IfOk, OnOk};
ghost use Rattle.std.specs.List.Sorted.{IsStrictlyIncreasing};
ghost use Rattle.vs_design.specs.Fits.{fits_statement};
ghost use Rattle.vs_design.specs.Footprints.{contains, statement_bits};
ghost use Rattle.vs_design.specs.Races.{blocking_bits, nonblocking_bits};
ghost use Rattle.vs_design.specs.Sizes.{distinct};
ghost use Rattle.vs_shape.specs.Bodies.{body_of};

use std::alloc::{AllocError, Global};
use vs_shape::{Shapes, Walk, ascend, is_among};

/// How many different numbers there are.
pub(crate) fn distinct(mut bits: Vec<u32>) -> u64
    ensures { result ≡ distinct bits.items }
{
    ascend(&mut bits);
    let rising = bits.as_slice();
    rising.len() as u64
}

/// How many different bits statement s writes.
pub(crate) fn written_count(alloc: Global, shapes: &Shapes, s: u32) -> Result<u64, AllocError>
    requires there { s < length shapes.now.statements }
    requires fit { fits_statement (body_of shapes.now s) ≡ true }
    ensures { IfOk result (λ n. n ≡ distinct (statement_bits (body_of shapes.now s))) }
{
    let mut bits = Vec::new(alloc);
    shapes.push_statement(s, Walk::Writes, &mut bits)?;
    Ok(distinct(bits))
}

/// Adds those of the bits that are among some others, which rise.
fn push_shared(some: &[u32], bits: &[u32], out: &mut Vec<u32>) -> Result<(), AllocError>
    requires { IsStrictlyIncreasing some.now }
    ensures { OnOk result (out.new.items ≡ out.old.items ++ filter (contains some.now) bits.now) }
{
    for bit in bits {
        if is_among(some, *bit) {
            out.push(*bit)?;
        }
    }
    Ok(())
}

/// Adds the bits that statement s writes by `<=` and by `=` too.
pub(crate) fn push_both_ways(
    alloc: Global,
    shapes: &Shapes,
    s: u32,
    out: &mut Vec<u32>,
) -> Result<(), AllocError>
    requires there { s < length shapes.now.statements }
    requires fit { fits_statement (body_of shapes.now s) ≡ true }
    ensures { OnOk result (out.new.items ≡ out.old.items ++ filter (contains (blocking_bits (body_of shapes.now s))) (nonblocking_bits (body_of shapes.now s))) }
{
    let mut at_once = Vec::new(alloc);
    shapes.push_statement(s, Walk::Blocking, &mut at_once)?;
    if at_once.as_slice().is_empty() {
        return Ok(());
    }
    ascend(&mut at_once);
    let mut later = Vec::new(alloc);
    shapes.push_statement(s, Walk::Nonblocking, &mut later)?;
    push_shared(at_once.as_slice(), later.as_slice(), out)
}

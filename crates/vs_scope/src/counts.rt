//! Counts, of the scopes in the order in which they are read.

ghost use Rattle.std.specs.Prelude.{◌≡◌, ◌+◌, IfOk};

use std::alloc::AllocError;

/// How many statements loops copied so far, and how many functions there are so far (IEEE 1364-2005, 9.6 and 10.4).
#[derive(Clone, Copy, PartialEq, Eq, Debug)]
pub struct Counts {
    pub copies: u32,
    pub functions: u32,
}

/// One more. More than 32 bits count are too many for memory.
pub(crate) fn one_more(n: u32) -> Result<u32, AllocError>
    ensures { IfOk result (λ r. r ≡ n + 1) }
{
    match n.checked_add(1) {
        None => Err(AllocError),
        Some(more) => Ok(more),
    }
}

/// Two counts together. More than 32 bits count are too many for memory.
pub(crate) fn together(a: u32, b: u32) -> Result<u32, AllocError>
    ensures { IfOk result (λ r. r ≡ a + b) }
{
    match a.checked_add(b) {
        None => Err(AllocError),
        Some(sum) => Ok(sum),
    }
}

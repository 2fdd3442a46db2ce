//! Sums of weights.

ghost use Rattle.std.specs.Prelude.{◌≡◌, ◌+◌, ◌*◌};
ghost use Rattle.vs_typed.specs.Weights.{capped};

/// A sum, as far as 2^64 - 1. Weights of calls grow with each function that calls others twice, so a short text may come to it.
pub(crate) fn plus(total: u64, more: u64) -> u64
    ensures { result ≡ capped (total + more) }
{
    total.saturating_add(more)
}

/// A product, likewise.
pub(crate) fn times(a: u64, b: u64) -> u64
    ensures { result ≡ capped (a * b) }
{
    a.saturating_mul(b)
}

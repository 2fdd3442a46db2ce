//! Extension, truncation and concatenation.

ghost use Rattle.std.specs.Prelude.{◌≡◌, ◌≤◌, ◌+◌, length};
ghost use Rattle.vs_four.specs.declared.Bit4.TheVariants.{Zero};
ghost use Rattle.vs_four.specs.Lengths.{last_or, extend, cut, join};

use crate::planes::{ones, unknown_digit, value_digit};
use crate::{Bit4, Bits};

/// The most significant bit.
pub fn top(a: Bits) -> Bit4
    ensures { result ≡ last_or Zero a }
{
    a.get(a.len() - 1)
}

/// `a` extended to w bits (IEEE 1364-2005, 5.4.1): signed by its top bit, be it x or z, else by 0.
pub fn extend(a: Bits, w: u32, signed: bool) -> Bits
    requires no_shorter { length a ≤ w }
    requires at_most_64 { w ≤ 64 }
    ensures { result ≡ extend w signed a }
{
    let fill = if signed { top(a) } else { Bit4::Zero };
    let above = ones(w) - ones(a.len);
    Bits {
        value: a.value | (value_digit(fill) * above),
        unknown: a.unknown | (unknown_digit(fill) * above),
        len: w,
    }
}

/// The low w bits (IEEE 1364-2005, 5.4.1).
pub fn cut(a: Bits, w: u32) -> Bits
    requires some { 1 ≤ w }
    requires no_longer { w ≤ length a }
    ensures { result ≡ cut w a }
{
    let kept = ones(w);
    Bits {
        value: a.value & kept,
        unknown: a.unknown & kept,
        len: w,
    }
}

/// `{high, low}` (IEEE 1364-2005, 5.1.14).
pub fn join(high: Bits, low: Bits) -> Bits
    requires at_most_64 { length high + length low ≤ 64 }
    ensures { result ≡ join high low }
{
    Bits {
        value: (high.value << low.len) | low.value,
        unknown: (high.unknown << low.len) | low.unknown,
        len: high.len + low.len,
    }
}

//! Vectors of bits with their lengths: extended, selected, repeated and chosen.

ghost use Rattle.std.specs.Prelude.{◌≡◌, ◌≤◌, ◌*◌, length};
ghost use Rattle.vs_four.specs.Lengths.{extend, extend_literal, repeat};
ghost use Rattle.vs_four.specs.Logic as logic;
ghost use Rattle.vs_four.specs.Selects.{range_length, select};

use vs_four::{Bit4, Bits, Range, extend, join, merge, part, top};

/// `a` extended to w bits (IEEE 1364-2005, 5.4.1).
#[tactic(auto, using(crate::proofs::Lengths::extend_length))]
pub fn extended(a: Bits, w: u32, signed: bool) -> Bits
    requires no_shorter { length a ≤ w }
    requires most { w ≤ 64 }
    ensures value { result ≡ extend w signed a }
    ensures length { length result ≡ w }
{
    extend(a, w, signed)
}

/// A literal in a wider context: one without a size whose top bit is x or z goes on with it (IEEE
/// 1364-2005, 3.5.1).
pub fn extended_literal(a: Bits, w: u32, signed: bool, sized: bool) -> Bits
    requires no_shorter { length a ≤ w }
    requires most { w ≤ 64 }
    ensures value { result ≡ extend_literal w signed sized a }
    ensures length { length result ≡ w }
{
    let is_open = !sized && matches!(top(a), Bit4::X | Bit4::Z);
    extended(a, w, signed || is_open)
}

/// `a[base +: width]`, or `a[base -: width]` where not `up` (IEEE 1364-2005, 5.2.1).
#[tactic(auto, using(crate::proofs::Lengths::select_length))]
pub fn selected(a: Bits, range: Range, base: Bits, signed: bool, up: bool, width: u32) -> Bits
    requires of_range { range_length range ≡ length a }
    requires some { 1 ≤ width }
    requires most { width ≤ 64 }
    ensures value { result ≡ select (record { range = range; up = up; width = width }) signed a base }
    ensures length { length result ≡ width }
{
    part(a, range, base, signed, up, width)
}

/// `{count{a}}` (IEEE 1364-2005, 5.1.14).
#[tactic(auto, using(crate::proofs::Lengths::repeat_length))]
pub fn copies(count: u32, a: Bits) -> Bits
    requires some { 1 ≤ count }
    requires most { count * length a ≤ 64 }
    ensures value { result ≡ repeat count a }
    ensures length { length result ≡ count * length a }
{
    let mut whole = a;
    let mut made = 1;
    while made < count {
        whole = join(whole, a);
        made += 1;
    }
    whole
}

/// `c ? p : q`, by the truth of c (IEEE 1364-2005, 5.1.13).
#[tactic(auto, using(crate::proofs::Lengths::merge_length))]
pub fn choose(c: Bit4, p: Bits, q: Bits) -> Bits
    requires { length p ≡ length q }
    ensures value { result ≡ logic.choose c p q }
    ensures length { length result ≡ length p }
{
    match c {
        Bit4::One => p,
        Bit4::Zero => q,
        Bit4::X | Bit4::Z => merge(p, q),
    }
}

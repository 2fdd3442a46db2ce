//! Numbers within bounds, and ranges (IEEE 1364-2005, 3.3 and 5.2.1).

ghost use Rattle.std.specs.Prelude.{◌≡◌, ◌≤◌, IfSome};
ghost use Rattle.vs_four.specs.Selects as four;
ghost use Rattle.vs_const.specs.Faults.{flaws_of};
ghost use Rattle.vs_const.specs.Typed as typed;
ghost use Rattle.vs_const.specs.Selects as spec;
ghost use Rattle.vs_const.specs.Checks.{ChecksNumber, ChecksNatural, ChecksBounds};

use crate::faults::{Flaws, both, flaw, flawless};
use crate::rules::Rule;
use vs_four::Range;

/// The number of a needed constant; none where a fault leaves it undefined.
#[derive(Clone, Copy, Debug)]
pub struct Numbered {
    pub number: Option<i128>,
    pub flaws: Flaws,
}

/// A number within bounds.
#[derive(Clone, Copy, Debug)]
pub struct Natural {
    pub number: Option<u32>,
    pub flaws: Flaws,
}

/// A range, of a vector, of a select or of a memory.
#[derive(Clone, Copy, Debug)]
pub struct Bounds {
    pub range: Option<Range>,
    pub flaws: Flaws,
}

/// The number, if it is from `low` to `high`.
pub fn within(low: u32, high: u32, place: u32, number: Option<i128>) -> Natural
    ensures is { ChecksNatural result (typed.natural_within low high place number) }
    ensures within { IfSome result.number (λ n. (low ≤ n) × (n ≤ high)) }
{
    match number {
        None => Natural {
            number: None,
            flaws: flawless(),
        },
        Some(n) if low as i128 <= n && n <= high as i128 => Natural {
            number: Some(n as u32),
            flaws: flawless(),
        },
        Some(_) => Natural {
            number: None,
            flaws: flaw(Rule::BadRange, place),
        },
    }
}

/// The number of a constant, if it is from `low` to `high`.
#[tactic(auto, using(crate::proofs::Least::flaws_append))]
pub(crate) fn natural_of(low: u32, high: u32, place: u32, n: Numbered) -> Natural
    ensures is { (t : typed.Typed) → ChecksNumber n (typed.number_of place t) → ChecksNatural result (typed.natural low high place t) }
    ensures within { IfSome result.number (λ n. (low ≤ n) × (n ≤ high)) }
{
    let r = within(low, high, place, n.number);
    Natural {
        number: r.number,
        flaws: both(n.flaws, r.flaws),
    }
}

/// The range, if it has at most so many numbers.
fn up_to(most: u64, bracket: u32, range: Range) -> Bounds
    ensures short { IfSome result.range (λ r. four.range_length r ≤ most) }
    ensures is { ChecksBounds result (spec.up_to most bracket range) }
{
    if range.length() > most {
        Bounds {
            range: None,
            flaws: flaw(Rule::BadRange, bracket),
        }
    } else {
        Bounds {
            range: Some(range),
            flaws: flawless(),
        }
    }
}

/// The range of two numbers.
fn range_of(most: u64, bracket: u32, left: Option<u32>, right: Option<u32>) -> Bounds
    ensures short { IfSome result.range (λ r. four.range_length r ≤ most) }
    ensures is { ChecksBounds result (spec.range_of most bracket left right) }
{
    match (left, right) {
        (Some(left), Some(right)) => up_to(most, bracket, Range { left, right }),
        _ => Bounds {
            range: None,
            flaws: flawless(),
        },
    }
}

/// The range with these bounds, if it has at most so many numbers.
#[tactic(auto, using(crate::proofs::Least::flaws_append))]
pub(crate) fn range_of_bounds(
    most: u64,
    bracket: u32,
    left_place: u32,
    left: Numbered,
    right_place: u32,
    right: Numbered,
) -> Bounds
    ensures short { IfSome result.range (λ r. four.range_length r ≤ most) }
    ensures is { (t u : typed.Typed) → ChecksNumber left (typed.number_of left_place t) → ChecksNumber right (typed.number_of right_place u)
        → ChecksBounds result (spec.bounds_of most bracket left_place t right_place u) }
{
    let m = natural_of(0, 65535, left_place, left);
    let n = natural_of(0, 65535, right_place, right);
    let r = range_of(most, bracket, m.number, n.number);
    Bounds {
        range: r.range,
        flaws: both(m.flaws, both(n.flaws, r.flaws)),
    }
}

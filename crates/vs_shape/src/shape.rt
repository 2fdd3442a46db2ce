//! The length and the sign of an expression by those of its parts (IEEE 1364-2005, 5.4.1 and 5.5.1).

ghost use Rattle.std.specs.Prelude.{◌≡◌, ◌+◌, ◌≤◌, ◌&&◌, min, max};
ghost use Rattle.vs_design.specs.Expressions as E;
ghost use Rattle.vs_shape.specs.Shapes.{shape_of};

use vs_base::{BinaryOp, Context, UnaryOp};
use vs_flat::range_bits;
use vs_four::Range;

/// What is known of an expression: its length by itself, 65 standing for every length over 64, whether it is signed, and whether it names no signal.
#[derive(Clone, Copy, PartialEq, Eq, Debug)]
pub struct Shape {
    pub width: u8,
    pub signed: bool,
    pub constant: bool,
}

impl Shape {
    /// The length and the sign.
    pub fn context(self) -> Context
        ensures width { result.width ≡ self.width }
        ensures signed { result.signed ≡ self.signed }
    {
        Context {
            width: u32::from(self.width),
            signed: self.signed,
        }
    }
}

/// How many bits a word of a memory has, or a signal that isn't one, as far as 65.
pub(crate) fn word_width(range: Option<Range>) -> u8
    ensures { result ≡ min (E.range_or_one range) 65 }
{
    range_bits(range).min(65) as u8
}

/// How many bits a signal has, of which each word has this range, as far as 65 (IEEE 1364-2005, 3.3 and 4.9).
pub(crate) fn signal_width(words: Option<Range>, range: Option<Range>) -> u8
    ensures { result ≡ min (E.words_length words (E.range_or_one range)) 65 }
{
    range_bits(words).saturating_mul(range_bits(range)).min(65) as u8
}

/// The shape of an operator's result, by that of its operand.
#[tactic(auto, using(crate::proofs::Widths::unary_lengths))]
pub(crate) fn unary_shape(op: UnaryOp, a: Shape) -> Shape
    ensures { (e : E.Expression) → a ≡ shape_of e → result ≡ shape_of (E.Unary op e) }
{
    let result = op.result(a.context());
    Shape {
        width: result.width as u8,
        signed: result.signed,
        constant: a.constant,
    }
}

/// The shape of an operator's result, by those of its operands.
#[tactic(auto, using(crate::proofs::Widths::binary_lengths))]
pub(crate) fn binary_shape(op: BinaryOp, a: Shape, b: Shape) -> Shape
    ensures { (e f : E.Expression) → a ≡ shape_of e → b ≡ shape_of f → result ≡ shape_of (E.Binary op e f) }
{
    let result = op.way().result(a.context(), b.context());
    Shape {
        width: result.width as u8,
        signed: result.signed,
        constant: a.constant && b.constant,
    }
}

/// The shape of `c ? p : q`.
pub(crate) fn choice_shape(c: Shape, p: Shape, q: Shape) -> Shape
    ensures { (d e f : E.Expression) → c ≡ shape_of d → p ≡ shape_of e → q ≡ shape_of f → result ≡ shape_of (E.Choice d e f) }
{
    Shape {
        width: p.width.max(q.width),
        signed: p.signed && q.signed,
        constant: c.constant && p.constant && q.constant,
    }
}

/// The shape of `{high, low}`.
pub(crate) fn join_shape(high: Shape, low: Shape) -> Shape
    requires high { high.width ≤ 65 }
    requires low { low.width ≤ 65 }
    ensures { (e f : E.Expression) → high ≡ shape_of e → low ≡ shape_of f → result ≡ shape_of (E.Join e f) }
{
    Shape {
        width: (high.width + low.width).min(65),
        signed: false,
        constant: high.constant && low.constant,
    }
}

/// The shape of a replication of this many copies.
pub(crate) fn repeat_shape(count: u64, a: Shape) -> Shape
    requires { a.width ≤ 65 }
    ensures { (e : E.Expression) → a ≡ shape_of e → result ≡ shape_of (E.Repeat count e) }
{
    Shape {
        width: (count.min(65) * u64::from(a.width)).min(65) as u8,
        signed: false,
        constant: a.constant,
    }
}

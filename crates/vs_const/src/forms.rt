//! Constant expressions whose names, counts, bounds and widths are settled, and their values (IEEE 1364-2005, 5.4.1 and 5.5.2).

ghost use Rattle.std.specs.Prelude.{◌≡◌, ◌≤◌, IfOk, length, min};
ghost use Rattle.vs_four.specs.declared.Bit4.TheVariants.{X};
ghost use Rattle.vs_design.specs.Expressions as E;
ghost use Rattle.vs_design.specs.Values as V;
ghost use Rattle.vs_ast.specs.Views as view;
ghost use Rattle.vs_const.specs.Typed.{begins_at};
ghost use Rattle.vs_const.specs.Forms.{expression, IsForm};

use std::alloc::{AllocError, Global};
use vs_base::{
    BinaryOp, Context, UnaryOp, Way, choose, copies, extended, extended_literal, selected,
};
use vs_four::{Bits, Range, join, truth};

/// An expression that names no signal. What a literal stands for is a number of the text, or the value of a parameter.
#[cycle(forms)]
pub enum Form {
    Literal {
        bits: Bits,
        signed: bool,
        sized: bool,
    },
    /// `width` bits of a value from an index on, upwards or downwards.
    Select {
        bits: Bits,
        range: Range,
        up: bool,
        width: u32,
        index: Box<Form>,
    },
    Unary {
        op: UnaryOp,
        operand: Box<Form>,
    },
    Binary {
        op: BinaryOp,
        left: Box<Form>,
        right: Box<Form>,
    },
    Choice {
        condition: Box<Form>,
        yes: Box<Form>,
        no: Box<Form>,
    },
    Join {
        high: Box<Form>,
        low: Box<Form>,
    },
    Repeat {
        count: u32,
        inner: Box<Form>,
    },
    /// An expression with the place where it begins, its length (65 where it is over 64) and its sign.
    At {
        place: u32,
        shape: Context,
        inner: Box<Form>,
    },
}

// A concatenation of many parts is a long chain of joins, so it is let go in a loop.
impl Drop for Form {
    fn drop(mut self) {
        loop {
            match self {
                Form::Literal {
                    bits: _,
                    signed: _,
                    sized: _,
                } => return,
                Form::Select {
                    bits: _,
                    range: _,
                    up: _,
                    width: _,
                    index,
                } => self = Box::into_inner(index),
                Form::Unary { op: _, operand } => self = Box::into_inner(operand),
                Form::Binary {
                    op: _,
                    left: _,
                    right,
                } => self = Box::into_inner(right),
                Form::Choice {
                    condition: _,
                    yes: _,
                    no,
                } => self = Box::into_inner(no),
                Form::Join { high: _, low } => self = Box::into_inner(low),
                Form::Repeat { count: _, inner } => self = Box::into_inner(inner),
                Form::At {
                    place: _,
                    shape: _,
                    inner,
                } => self = Box::into_inner(inner),
            }
        }
    }
}

impl Form {
    /// The form with the place where it begins.
    pub(crate) fn begun(self, alloc: Global, place: u32) -> Result<Form, AllocError>
        ensures same { IfOk result (λ g. expression g ≡ begins_at place (expression self)) }
        ensures well { IsForm self → IfOk result IsForm }
    {
        match self {
            Form::At {
                place: _,
                shape,
                inner,
            } => Ok(Form::At {
                place,
                shape,
                inner,
            }),
            other => {
                let shape = shape(&other);
                let inner = Box::new(alloc, other)?;
                Ok(Form::At {
                    place,
                    shape,
                    inner,
                })
            }
        }
    }
}

/// The length and the sign of an expression by itself. A length over 64 is told as 65.
#[tactic(auto, using(crate::proofs::Copies::min_times, crate::proofs::Copies::capped_unary, crate::proofs::Copies::capped_binary))]
pub fn shape(f: &Form) -> Context
    ensures width { IsForm f.now → result.width ≡ min 65 (E.width (expression f.now)) }
    ensures signed { IsForm f.now → result.signed ≡ E.sign (expression f.now) }
    ensures most { result.width ≤ 65 }
{
    match f {
        Form::Literal { bits, signed, .. } => Context {
            width: bits.len(),
            signed: *signed,
        },
        Form::Select { width, .. } => Context {
            width: (*width).min(65),
            signed: false,
        },
        Form::Unary { op, operand } => op.result(shape(operand)),
        Form::Binary { op, left, right } => op.way().result(shape(left), shape(right)),
        Form::Choice { yes, no, .. } => shape(yes).shared(shape(no)),
        Form::Join { high, low } => Context {
            width: (shape(high).width + shape(low).width).min(65),
            signed: false,
        },
        Form::Repeat { count, inner } => Context {
            width: ((*count).min(65) * shape(inner).width).min(65),
            signed: false,
        },
        Form::At { shape, .. } => Context {
            width: shape.width.min(65),
            signed: shape.signed,
        },
    }
}

/// The value of an expression by itself.
#[cycle(values)]
pub fn own(f: &Form) -> Bits
    requires form { IsForm f.now }
    requires short { E.width (expression f.now) ≤ 64 }
    ensures value { result ≡ V.constant_value (expression f.now) }
    ensures length { length result ≡ E.width (expression f.now) }
{
    let s = shape(f);
    value(f, s.width, s.signed)
}

/// The value of an expression in a length and a sign.
#[cycle(values)]
pub fn value(f: &Form, w: u32, signed: bool) -> Bits
    requires form { IsForm f.now }
    requires fits { E.width (expression f.now) ≤ w }
    requires most { w ≤ 64 }
    ensures value { result ≡ V.value (expression f.now) w signed (λ b. X) }
    ensures length { length result ≡ w }
{
    match f {
        Form::Literal { bits, sized, .. } => extended_literal(*bits, w, signed, *sized),
        Form::Select {
            bits,
            range,
            up,
            width,
            index,
        } => {
            extended(
                selected(*bits, *range, own(index), shape(index).signed, *up, *width),
                w,
                signed,
            )
        }
        Form::Unary { op, operand } => {
            let c = op.operand(Context { width: w, signed }, shape(operand));
            extended(op.apply(value(operand, c.width, c.signed)), w, signed)
        }
        Form::Binary { op, left, right } => match op.way() {
            Way::InContext => extended(
                op.apply(
                    signed,
                    signed,
                    value(left, w, signed),
                    value(right, w, signed),
                ),
                w,
                signed,
            ),
            Way::Shifted | Way::Raised => extended(
                op.apply(
                    signed,
                    shape(right).signed,
                    value(left, w, signed),
                    own(right),
                ),
                w,
                signed,
            ),
            Way::Own => extended(
                op.apply(
                    shape(left).signed,
                    shape(right).signed,
                    own(left),
                    own(right),
                ),
                w,
                signed,
            ),
            Way::Compared => {
                let s = shape(left).shared(shape(right));
                extended(
                    op.apply(
                        s.signed,
                        s.signed,
                        value(left, s.width, s.signed),
                        value(right, s.width, s.signed),
                    ),
                    w,
                    signed,
                )
            }
        },
        Form::Choice { condition, yes, no } => choose(
            truth(own(condition)),
            value(yes, w, signed),
            value(no, w, signed),
        ),
        Form::Join { high, low } => extended(join(own(high), own(low)), w, signed),
        Form::Repeat { count, inner } => extended(copies(*count, own(inner)), w, signed),
        Form::At { inner, .. } => value(inner, w, signed),
    }
}

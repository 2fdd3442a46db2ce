//! Values of constant expressions (IEEE 1364-2005, 5.4.1 and 5.5.2).

ghost use Rattle.std.specs.Prelude.{◌≡◌, ◌≤◌, ◌<◌, ◌*◌, length, map, true};
ghost use Rattle.vs_four.specs.declared.Bit4.TheVariants.{X};
ghost use Rattle.vs_four.specs.Logic as four;
ghost use Rattle.vs_design.specs.Expressions as E;
ghost use Rattle.vs_design.specs.Values as V;
ghost use Rattle.vs_design.specs.Fits.{fits};
ghost use Rattle.vs_flat.specs.Lawful.{IsLawful};
ghost use Rattle.vs_flat.specs.Targets.{source_of};
ghost use Rattle.vs_flat.specs.Trees.{joined};
ghost use Rattle.vs_shape.specs.Constants.{IsValued, unary_applied, binary_applied};
ghost use Rattle.vs_shape.specs.Nodes.{EachBelow, tree_of};

use crate::nodes::{copy_count, first_copy, node_of};
use crate::shape::Shape;
use crate::shapes::Shapes;
use vs_base::{BinaryOp, UnaryOp, Way, choose, copies, extended, extended_literal, selected};
use vs_flat::{Flat, Node};
use vs_four::{Bit4, Bits, Range, join, truth};

/// The value of a parameter that a select takes bits of.
fn parameter_bits(flat: &Flat, e: u32) -> Bits
    requires lawful { IsLawful flat.now }
    requires there { e < length flat.now.nodes }
    ensures { (bits : four.BitList) → source_of (tree_of flat.now e) ≡ E.OfConstant bits → 1 ≤ length bits → result ≡ bits }
{
    match node_of(flat, e) {
        Node::Literal { bits, .. } => *bits,
        _ => Bits::of(&[Bit4::X]),
    }
}

impl Shapes {
    /// The shape of an expression of 1 to 64 bits.
    #[tactic(auto, using(crate::proofs::Widths::width_least))]
    fn fitting_shape(&self, e: u32) -> Shape
        requires there { e < length self.now.nodes }
        requires fits { fits (tree_of self.now e) ≡ true }
        ensures width { result.width ≡ E.width (tree_of self.now e) }
        ensures most { result.width ≤ 64 }
        ensures signed { result.signed ≡ E.sign (tree_of self.now e) }
    {
        self.shape(e)
    }

    /// The value of a constant expression by itself.
    #[cycle(values)]
    pub fn constant_value(&self, e: u32) -> Bits
        requires there { e < length self.now.nodes }
        requires valued { IsValued (tree_of self.now e) }
        ensures value { result ≡ V.constant_value (tree_of self.now e) }
        ensures length { length result ≡ E.width (tree_of self.now e) }
    {
        let shape = self.fitting_shape(e);
        self.value(e, u32::from(shape.width), shape.signed)
    }

    /// The value of a constant expression in a length and a sign.
    #[cycle(values)]
    pub fn value(&self, e: u32, w: u32, signed: bool) -> Bits
        requires there { e < length self.now.nodes }
        requires valued { IsValued (tree_of self.now e) }
        requires fits { E.width (tree_of self.now e) ≤ w }
        requires most { w ≤ 64 }
        ensures value { result ≡ V.value (tree_of self.now e) w signed (λ b. X) }
        ensures length { length result ≡ w }
    {
        let flat = self.flat();
        match node_of(flat, e) {
            Node::Literal { bits, sized, .. } => extended_literal(*bits, w, signed, *sized),
            Node::Name { .. }
            | Node::Word { .. }
            | Node::WordPart { .. }
            | Node::Local { .. }
            | Node::Call { .. } => { extended(Bits::of(&[Bit4::X]), w, signed) }
            Node::Bit { of, range, index } => {
                self.select_value(*of, *index, *range, true, 1, w, signed)
            }
            Node::Part {
                of,
                range,
                base,
                up,
                width,
            } => self.select_value(*of, *base, *range, *up, *width, w, signed),
            Node::Unary { op, a } => self.unary_value(*op, *a, w, signed),
            Node::Binary { op, a, b } => self.binary_value(*op, *a, *b, w, signed),
            Node::Choice { c, p, q } => choose(
                truth(self.constant_value(*c)),
                self.value(*p, w, signed),
                self.value(*q, w, signed),
            ),
            Node::Join { parts } => {
                let copy = self.joined_value(e, first_copy(parts.as_slice()));
                extended(copies(copy_count(parts.as_slice()) as u32, copy), w, signed)
            }
        }
    }

    /// The value of `width` bits of a parameter from an index on, upwards or downwards.
    #[cycle(values)]
    fn select_value(
        &self,
        of: u32,
        index: u32,
        range: Range,
        up: bool,
        width: u32,
        w: u32,
        signed: bool,
    ) -> Bits
        requires source { of < length self.now.nodes }
        requires there { index < length self.now.nodes }
        requires valued { IsValued (E.Select (source_of (tree_of self.now of)) (record { range = range; up = up; width = width }) (tree_of self.now index)) }
        requires fits { width ≤ w }
        requires most { w ≤ 64 }
        ensures value { result ≡ V.value (E.Select (source_of (tree_of self.now of)) (record { range = range; up = up; width = width }) (tree_of self.now index)) w signed (λ b. X) }
        ensures length { length result ≡ w }
    {
        let bits = parameter_bits(self.flat(), of);
        let index_signed = self.shape(index).signed;
        let taken = selected(
            bits,
            range,
            self.constant_value(index),
            index_signed,
            up,
            width,
        );
        extended(taken, w, signed)
    }

    /// The value of an operator of one operand.
    #[cycle(values)]
    #[tactic(auto, using(crate::proofs::ValueLengths::unary_within))]
    fn unary_value(&self, op: UnaryOp, a: u32, w: u32, signed: bool) -> Bits
        requires there { a < length self.now.nodes }
        requires valued { IsValued (tree_of self.now a) }
        requires fits { E.width (E.Unary op (tree_of self.now a)) ≤ w }
        requires most { w ≤ 64 }
        ensures value { result ≡ V.value (E.Unary op (tree_of self.now a)) w signed (λ b. X) }
        ensures length { length result ≡ w }
    {
        extended(self.unary_applied(op, a, w, signed), w, signed)
    }

    /// The same before it is extended to its context.
    #[cycle(values)]
    fn unary_applied(&self, op: UnaryOp, a: u32, w: u32, signed: bool) -> Bits
        requires there { a < length self.now.nodes }
        requires valued { IsValued (tree_of self.now a) }
        requires fits { E.width (E.Unary op (tree_of self.now a)) ≤ w }
        requires most { w ≤ 64 }
        ensures { result ≡ unary_applied op (tree_of self.now a) w signed }
    {
        match op.way() {
            Way::InContext => op.apply(self.value(a, w, signed)),
            Way::Own | Way::Compared | Way::Shifted | Way::Raised => {
                op.apply(self.constant_value(a))
            }
        }
    }

    /// The value of an operator of two operands.
    #[cycle(values)]
    #[tactic(auto, using(crate::proofs::ValueLengths::binary_within))]
    fn binary_value(&self, op: BinaryOp, a: u32, b: u32, w: u32, signed: bool) -> Bits
        requires left { a < length self.now.nodes }
        requires right { b < length self.now.nodes }
        requires left_valued { IsValued (tree_of self.now a) }
        requires right_valued { IsValued (tree_of self.now b) }
        requires fits { E.width (E.Binary op (tree_of self.now a) (tree_of self.now b)) ≤ w }
        requires most { w ≤ 64 }
        ensures value { result ≡ V.value (E.Binary op (tree_of self.now a) (tree_of self.now b)) w signed (λ b. X) }
        ensures length { length result ≡ w }
    {
        extended(self.binary_applied(op, a, b, w, signed), w, signed)
    }

    /// The same before it is extended to its context.
    #[cycle(values)]
    fn binary_applied(&self, op: BinaryOp, a: u32, b: u32, w: u32, signed: bool) -> Bits
        requires left { a < length self.now.nodes }
        requires right { b < length self.now.nodes }
        requires left_valued { IsValued (tree_of self.now a) }
        requires right_valued { IsValued (tree_of self.now b) }
        requires fits { E.width (E.Binary op (tree_of self.now a) (tree_of self.now b)) ≤ w }
        requires most { w ≤ 64 }
        ensures { result ≡ binary_applied op (tree_of self.now a) (tree_of self.now b) w signed }
    {
        let left = self.fitting_shape(a);
        let right = self.fitting_shape(b);
        match op.way() {
            Way::InContext => {
                let value = self.value(a, w, signed);
                op.apply(signed, signed, value, self.value(b, w, signed))
            }
            Way::Shifted | Way::Raised => {
                let value = self.value(a, w, signed);
                op.apply(signed, right.signed, value, self.constant_value(b))
            }
            Way::Own => {
                let value = self.constant_value(a);
                op.apply(left.signed, right.signed, value, self.constant_value(b))
            }
            Way::Compared => {
                let width = u32::from(left.width.max(right.width));
                let both = left.signed && right.signed;
                let value = self.value(a, width, both);
                op.apply(both, both, value, self.value(b, width, both))
            }
        }
    }

    /// The value of a concatenation of these parts, all of which have numbers below e.
    #[cycle(values)]
    fn joined_value(&self, e: u32, parts: &[u32]) -> Bits
        requires there { e < length self.now.nodes }
        requires below { EachBelow e parts.now }
        requires some { 1 ≤ length parts.now }
        requires valued { IsValued (joined (map (tree_of self.now) parts.now)) }
        requires most { E.width (joined (map (tree_of self.now) parts.now)) ≤ 64 }
        ensures value { result ≡ V.constant_value (joined (map (tree_of self.now) parts.now)) }
        ensures length { length result ≡ E.width (joined (map (tree_of self.now) parts.now)) }
    {
        let mut whole = self.constant_value(parts[0]);
        for n in 1..parts.len() {
            whole = join(whole, self.constant_value(parts[n]));
        }
        whole
    }
}

//! The shapes of a design's expressions.

ghost use Rattle.std.specs.Prelude.{◌≡◌, ◌<◌, ◌≤◌, ◌&&◌, Bool, not, min, length};
ghost use Rattle.vs_four.specs.declared.Range.{Range};
ghost use Rattle.vs_four.specs.Selects.{Part};
ghost use Rattle.vs_design.specs.Expressions.{Signal, Expression, Name, Select, Word, WordPart, Call, Items, is_constant};
ghost use Rattle.vs_design.specs.Statements.{Statement};
ghost use Rattle.vs_flat.specs.Arena.{declared_at};
ghost use Rattle.vs_flat.specs.Named.{locals_in};
ghost use Rattle.vs_flat.specs.Lawful.{IsLawful};
ghost use Rattle.vs_flat.specs.Targets.{source_of};
ghost use Rattle.vs_flat.specs.Trees.{signal_at};
ghost use Rattle.vs_flat.specs.DesignOf.{arena_signals, local_of, header_in};
ghost use Rattle.vs_shape.specs.Nodes.{tree_of};
ghost use Rattle.vs_shape.specs.Shapes.{shape_of};

use crate::nodes::{copy_count, first_copy, local_of, node_of};
use crate::shape::{
    Shape, binary_shape, choice_shape, join_shape, repeat_shape, signal_width, unary_shape,
    word_width,
};
use std::alloc::{AllocError, Global};
use std::marker::Model;
use vs_flat::{Flat, Node, lawful_law, trees_law};

/// A lawful flat design with the lengths and signs of its expressions. Those of the first ones are noted; of any other they are found where they are asked for.
#[derive(Drop)]
pub struct Shapes {
    flat: Flat,
    noted: Vec<Shape>,
}

impl Model for Shapes {
    ghost use Rattle.vs_flat.specs.Arena.{Arena};
    ghost use Rattle.vs_shape.specs.Table.{IsTable};

    ghost Value = { Arena };

    ghost view = { λ s. s.flat };

    ghost invariant = { λ s. IsTable s.flat s.noted.items };
}

impl Shapes {
    /// A design of whose expressions nothing is noted.
    pub fn new(alloc: Global, flat: Flat) -> Shapes
        requires { IsLawful flat }
        ensures { result ≡ flat }
    {
        Shapes {
            flat,
            noted: Vec::new(alloc),
        }
    }

    /// The flat design alone.
    pub fn into_flat(self) -> Flat
        ensures { result ≡ self }
    {
        self.flat
    }

    /// Notes the shapes of expressions up to this many, so that each is found in one step from then on. Want of memory leaves the design as it was.
    pub fn note(&mut self, count: u32) -> Result<(), AllocError>
        requires { count ≤ length self.old.nodes }
        ensures { self.new ≡ self.old }
    {
        for _ in 0..count {
            self.note_next(count)?;
        }
        Ok(())
    }

    /// Notes the shape of the first expression that isn't noted, if it is below the count.
    fn note_next(&mut self, count: u32) -> Result<(), AllocError>
        requires { count ≤ length self.old.nodes }
        ensures { self.new ≡ self.old }
    {
        let next = self.noted.len();
        if next < count as usize {
            let shape = self.shape(next as u32);
            self.noted.push(shape)?;
        }
        Ok(())
    }

    /// The flat design. It is lawful.
    pub fn flat(&self) -> &Flat
        ensures same { result.now ≡ self.now }
        ensures lawful { IsLawful result.now }
    {
        let _ = &self.noted;
        &self.flat
    }

    /// The shape of expression e.
    pub fn shape(&self, e: u32) -> Shape
        requires { e < length self.now.nodes }
        ensures { result ≡ shape_of (tree_of self.now e) }
    {
        if let Some(shape) = self.noted.get(e as usize) {
            return *shape;
        }
        match node_of(&self.flat, e) {
            Node::Literal {
                bits,
                signed,
                sized: _,
            } => Shape {
                width: bits.len() as u8,
                signed: *signed,
                constant: true,
            },
            Node::Name { signal } => signal_shape(&self.flat, *signal),
            Node::Local { function, signal } => local_shape(&self.flat, *function, *signal),
            Node::Call { function, .. } => result_shape(&self.flat, *function),
            Node::Bit {
                of,
                range: _,
                index,
            } => select_shape(&self.flat, *of, 1, self.shape(*index)),
            Node::Part {
                of,
                range: _,
                base,
                up: _,
                width,
            } => select_shape(&self.flat, *of, (*width).min(65) as u8, self.shape(*base)),
            Node::Word { signal, .. } => word_shape(&self.flat, *signal),
            Node::WordPart { width, .. } => word_part_shape(*width),
            Node::Unary { op, a } => unary_shape(*op, self.shape(*a)),
            Node::Binary { op, a, b } => binary_shape(*op, self.shape(*a), self.shape(*b)),
            Node::Choice { c, p, q } => {
                choice_shape(self.shape(*c), self.shape(*p), self.shape(*q))
            }
            Node::Join { parts } => {
                let mut all = Shape {
                    width: 0,
                    signed: false,
                    constant: true,
                };
                for part in first_copy(parts.as_slice()) {
                    all = join_shape(all, self.shape(*part));
                }
                repeat_shape(copy_count(parts.as_slice()), all)
            }
        }
    }
}

/// The shape of a signal's name.
fn signal_shape(flat: &Flat, signal: u32) -> Shape
    requires { signal < length flat.now.signals }
    ensures { result ≡ shape_of (Name (signal_at (arena_signals flat.now) signal)) }
{
    trees_law();
    let s = flat.signal(signal);
    Shape {
        width: signal_width(s.words, s.range),
        signed: s.signed,
        constant: false,
    }
}

/// The shape of a word of a memory.
fn word_shape(flat: &Flat, signal: u32) -> Shape
    requires { signal < length flat.now.signals }
    ensures { (index : Expression) → result ≡ shape_of (Word (signal_at (arena_signals flat.now) signal) index) }
{
    trees_law();
    let s = flat.signal(signal);
    Shape {
        width: word_width(s.range),
        signed: s.signed,
        constant: false,
    }
}

/// The shape of so many bits of a word of a memory.
fn word_part_shape(width: u32) -> Shape
    ensures { (signal : Signal) (address index : Expression) (range : Range) (up : Bool) → result ≡ shape_of (WordPart signal address (record { range = range; up = up; width = width }) index) }
{
    Shape {
        width: width.min(65) as u8,
        signed: false,
        constant: false,
    }
}

/// The shape of a local signal's name.
fn local_shape(flat: &Flat, function: u32, signal: u32) -> Shape
    requires lawful { IsLawful flat.now }
    requires function { function < length flat.now.functions }
    requires there { signal < length (locals_in (declared_at flat.now function)) }
    ensures { result ≡ shape_of (Name (local_of flat.now function signal)) }
{
    let s = local_of(flat, function, signal);
    Shape {
        width: signal_width(s.words, s.range),
        signed: s.signed,
        constant: false,
    }
}

/// The shape of a call of a function: its result's length and sign.
fn result_shape(flat: &Flat, function: u32) -> Shape
    requires lawful { IsLawful flat.now }
    requires there { function < length flat.now.functions }
    ensures { (s : Statement) (es : Items) → result ≡ shape_of (Call (header_in (declared_at flat.now function)) s es) }
{
    trees_law();
    lawful_law();
    let declared = &flat.function(function).function;
    let s = declared.signals.get(declared.inputs as usize);
    Shape {
        width: signal_width(s.words, s.range),
        signed: s.signed,
        constant: false,
    }
}

/// Whether expression e is the name of a signal, so that a select of it is no constant.
fn is_name(flat: &Flat, e: u32) -> bool
    requires lawful { IsLawful flat.now }
    requires there { e < length flat.now.nodes }
    ensures { (part : Part) (index : Expression) → is_constant (Select (source_of (tree_of flat.now e)) part index) ≡ (not result && is_constant index) }
{
    matches!(node_of(flat, e), Node::Name { .. } | Node::Local { .. })
}

/// The shape of a select of this many bits, by that of its index (IEEE 1364-2005, 5.2.1).
fn select_shape(flat: &Flat, of: u32, width: u8, index: Shape) -> Shape
    requires lawful { IsLawful flat.now }
    requires there { of < length flat.now.nodes }
    ensures { (part : Part) (e : Expression) → width ≡ min part.width 65 → index ≡ shape_of e → result ≡ shape_of (Select (source_of (tree_of flat.now of)) part e) }
{
    Shape {
        width,
        signed: false,
        constant: !is_name(flat, of) && index.constant,
    }
}

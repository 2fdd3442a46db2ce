//! The typed design.

ghost use Rattle.std.specs.Prelude.{◌≡◌, ◌<◌, ◌≤◌, length, map, min, true, None, Some, slice_get, IfOk, IfErr};

use crate::{WidthError, fits_law};
use std::marker::Model;
use vs_flat::{Flat, trees_law};
use vs_shape::Shapes;

/// A lawful flat design of which no length is refused, with the length and the sign of each expression, the size of the whole, and for each process whether it sleeps, and for each function whether it fits and what it weighs.
#[derive(Drop)]
pub struct Typed {
    shapes: Shapes,
    size: u64,
    sleeping: Vec<bool>,
    weights: Vec<Option<u64>>,
}

impl Model for Typed {
    ghost use Rattle.vs_flat.specs.Arena.{Arena};
    ghost use Rattle.vs_typed.specs.Typed.{IsTyped};

    ghost Value = { Arena };

    ghost view = { λ t. t.shapes };

    ghost invariant = { λ t. IsTyped t.shapes t.size t.sleeping.items t.weights.items };
}

impl Typed {
    ghost use Rattle.vs_design.specs.Designs as D;
    ghost use Rattle.vs_design.specs.Expressions.{width, sign};
    ghost use Rattle.vs_design.specs.Refusals.{width_refusal};
    ghost use Rattle.vs_design.specs.Fits.{fits_statement};
    ghost use Rattle.vs_design.specs.Sizes.{awake_size, size, statement_weight};
    ghost use Rattle.vs_design.specs.Statements as T;
    ghost use Rattle.vs_design.specs.Sleepers.{is_sleeping};
    ghost use Rattle.vs_flat.specs.DesignOf.{arena_trees, design_of};
    ghost use Rattle.vs_flat.specs.Lawful.{IsLawful};
    ghost use Rattle.vs_flat.specs.Trees.{tree_at};
    ghost use Rattle.vs_typed.specs.Refused.{IsWidthError, first_refused};
    ghost use Rattle.vs_typed.specs.Weights.{AreWeights, capped};

    /// A design of which no process is refused, with its size, for each process whether it sleeps, and the weights of its functions. TooLarge: the size is over 16,777,216.
    pub(crate) fn of(
        shapes: Shapes,
        size: u64,
        sleeping: Vec<bool>,
        weights: Vec<Option<u64>>,
    ) -> Result<Typed, WidthError>
        requires unrefused { first_refused (design_of shapes) ≡ None }
        requires awake { awake_size (design_of shapes) ≤ 16777216 }
        requires size { size ≡ capped (Rattle.vs_design.specs.Sizes.size (design_of shapes)) }
        requires weights { AreWeights shapes weights.items }
        requires all { length weights.items ≡ length shapes.bodies }
        requires sleeping { sleeping.items ≡ map (is_sleeping (design_of shapes)) (design_of shapes).processes }
        ensures same { IfOk result (λ t. t ≡ shapes) }
        ensures refused { IfErr result (IsWidthError (design_of shapes)) }
    {
        trees_law();
        if size > 16_777_216 {
            return Err(WidthError::TooLarge { size });
        }
        Ok(Typed {
            shapes,
            size,
            sleeping,
            weights,
        })
    }

    /// The flat design. It is lawful, and no length or division in it is refused.
    pub fn flat(&self) -> &Flat
        ensures same { result.now ≡ self.now }
        ensures lawful { IsLawful self.now }
        ensures fits { width_refusal (design_of self.now) ≡ None }
    {
        self.shapes.flat()
    }

    /// The flat design alone.
    pub fn into_flat(self) -> Flat
        ensures { result ≡ self }
    {
        self.shapes.into_flat()
    }

    /// The shapes of its expressions, and what is gathered from them.
    pub fn shapes(&self) -> &Shapes
        ensures { result.now ≡ self.now }
    {
        &self.shapes
    }

    /// The length of expression e by itself (IEEE 1364-2005, table 5-22). An expression that a process comes to has 1 to 64 bits; 65 stands for every length over 64.
    pub fn width(&self, e: u32) -> u32
        requires { e < length self.now.nodes }
        ensures { result ≡ min (width (tree_at (arena_trees self.now) e)) 65 }
    {
        u32::from(self.shapes.shape(e).width)
    }

    /// Whether expression e is signed (IEEE 1364-2005, 5.5.1).
    pub fn signed(&self, e: u32) -> bool
        requires { e < length self.now.nodes }
        ensures { result ≡ sign (tree_at (arena_trees self.now) e) }
    {
        self.shapes.shape(e).signed
    }

    /// The size of the design: what the stores into a plane in one clock half-period are measured by.
    pub fn size(&self) -> u64
        ensures is { result ≡ size (design_of self.now) }
        ensures most { result ≤ 16777216 }
    {
        fits_law();
        self.size
    }

    /// Whether process p sleeps: a combinational block that stays unexecuted through time zero, until a bit that it waits on first differs from x.
    pub fn sleeps(&self, p: u32) -> bool
        requires { p < length self.now.processes }
        ensures { (x : D.Process) → slice_get (design_of self.now).processes p ≡ Some x → result ≡ is_sleeping (design_of self.now) x }
    {
        trees_law();
        self.sleeping[p as usize]
    }

    /// Whether all in the statement of function f fits: every expression and target in it, and in the functions that it calls, has 1 to 64 bits, and nothing divides at run time (IEEE 1364-2005, 10.4). That of a function that a process calls does.
    pub fn fits_function(&self, f: u32) -> bool
        requires { f < length self.now.bodies }
        ensures { (x : T.Function) → slice_get (design_of self.now).functions f ≡ Some x → result ≡ fits_statement x.statement }
    {
        trees_law();
        self.weights[f as usize].is_some()
    }

    /// What the statement of function f weighs if it fits, as far as 2^64 - 1.
    pub fn function_weight(&self, f: u32) -> u64
        requires { f < length self.now.bodies }
        ensures { (x : T.Function) → slice_get (design_of self.now).functions f ≡ Some x → fits_statement x.statement ≡ true → result ≡ min (statement_weight x.statement) 18446744073709551615 }
    {
        trees_law();
        self.weights[f as usize].unwrap_or(0)
    }
}

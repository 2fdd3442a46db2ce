//! What names mean within loops and named blocks (IEEE 1364-2005, 9.6 and 9.8.2).

ghost use Rattle.std.specs.Prelude.{◌≡◌, ℕ, List, slice_get};
ghost use Rattle.vs_design.specs.Clocks.{same_name};
ghost use Rattle.vs_const.specs.declared.rules.Rule.TheVariants.{LoopVariable};
ghost use Rattle.vs_const.specs.Meanings.{AFunction, Barred, FunctionMeaning, IsShapeIn, Means, Meaning, Find, turn_value, turning};
ghost use Rattle.vs_elaborated.specs.Statements as spec;
ghost use Rattle.vs_bodies.specs.Layers.{within, AreLocals, IsNoFunction};

use vs_ast::Name;
use vs_const::{Constant, Env, Named, Rule, SignalShape};
use vs_four::{Bits, Range};
use vs_maps::NameMap;

/// What stands around a body.
pub trait Surroundings: Env {
    /// What a variable or an integer of a named block means that is declared at a place (9.8.2).
    ghost declared: { Self → ℕ → Meaning };

    /// What a variable or an integer of a named block means that is declared at this place.
    fn declared(&self, place: u32) -> Named
        ensures means { Means result (declared self.now place) }
        ensures plain { IsNoFunction (declared self.now place) };
}

/// What is around a block of which no variable of a named block is taken: what such a block declares is an integer of loops.
#[derive(Clone, Copy)]
pub struct Alone<'e, E> {
    pub env: &'e E,
}

impl<E: Env> Env for Alone<'_, E> {
    ghost names = { λ a. E.names a.env.now };

    fn find(&self, name: &[u8]) -> Named {
        self.env.find(name)
    }

    fn passed(&self, name: &[u8], number: u32) -> Option<SignalShape> {
        self.env.passed(name, number)
    }
}

/// An integer of loops, outside of them.
fn barred_integer() -> Named
    ensures means { Means result (Barred LoopVariable) }
    ensures plain { IsNoFunction (Barred LoopVariable) }
{
    Named::Barred(Rule::LoopVariable)
}

impl<E: Env> Surroundings for Alone<'_, E> {
    ghost declared = { λ a place. Barred LoopVariable };

    fn declared(&self, _place: u32) -> Named {
        barred_integer()
    }
}

/// A variable or an integer of a named block, by the place of its declaration.
#[derive(Clone, Copy)]
pub struct Local {
    pub place: u32,
}

/// The loops and the named blocks around a statement, the innermost first.
#[derive(Clone, Copy)]
pub enum Layers<'a, 'b> {
    /// The body itself.
    End,
    /// A turn of a loop, in which its integer has this value.
    Turn {
        outer: &'a Layers<'a, 'b>,
        integer: &'b Name,
        bits: Bits,
    },
    /// A named block, with what it declares.
    Block {
        outer: &'a Layers<'a, 'b>,
        locals: &'a NameMap<'b, Local>,
    },
}

/// Where a statement stands.
#[derive(Clone, Copy)]
pub struct Inner<'a, 'b, S> {
    pub around: &'a S,
    pub layers: &'a Layers<'a, 'b>,
}

/// What is around within a turn of a loop.
pub fn in_turn<'a, 'b>(outer: &'a Layers<'a, 'b>, integer: &'b Name, bits: Bits) -> Layers<'a, 'b>
    ensures { (declared : ℕ → Meaning) (find : Find) → within declared result find ≡ turning (within declared outer.now find) integer.now.text bits }
{
    Layers::Turn {
        outer,
        integer,
        bits,
    }
}

/// What is around within a named block.
pub fn in_block<'a, 'b>(outer: &'a Layers<'a, 'b>, locals: &'a NameMap<'b, Local>) -> Layers<'a, 'b>
    ensures { (declared : ℕ → Meaning) (find : Find) (vs : List spec.Local) → AreLocals locals.now vs → within declared result find ≡ spec.scoped declared vs (within declared outer.now find) }
{
    Layers::Block { outer, locals }
}

/// Whether two names are equal.
pub(crate) fn is_same_name(a: &[u8], b: &[u8]) -> bool
    ensures { result ≡ same_name a.now b.now }
{
    b == a
}

/// An integer in a turn of its loop (4.8).
fn turn_value(bits: Bits) -> Named
    ensures { Means result (turn_value bits) }
{
    Named::Value {
        value: Constant { bits, signed: true },
        range: Range { left: 31, right: 0 },
        turns: true,
    }
}

/// What a name means within these loops and blocks.
fn find_within<S: Surroundings>(around: &S, layers: &Layers<'_, '_>, name: &[u8]) -> Named
    ensures { Means result (within (S.declared around.now) layers.now (S.names around.now) name.now) }
{
    match layers {
        Layers::End => around.find(name),
        Layers::Turn {
            outer,
            integer,
            bits,
        } => {
            if is_same_name(integer.text.as_slice(), name) {
                turn_value(*bits)
            } else {
                find_within(around, outer, name)
            }
        }
        Layers::Block { outer, locals } => match locals.get(name).copied() {
            None => find_within(around, outer, name),
            Some(local) => around.declared(local.place),
        },
    }
}

/// A signal that a call of the function of this name passes, within these loops and blocks.
fn passed_within<S: Surroundings>(
    around: &S,
    layers: &Layers<'_, '_>,
    name: &[u8],
    number: u32,
) -> Option<SignalShape>
    ensures { (f : FunctionMeaning) → within (S.declared around.now) layers.now (S.names around.now) name.now ≡ AFunction f → IsShapeIn result (slice_get f.passed number) }
{
    match layers {
        Layers::End => around.passed(name, number),
        Layers::Turn { outer, integer, .. } => {
            if is_same_name(integer.text.as_slice(), name) {
                None
            } else {
                passed_within(around, outer, name, number)
            }
        }
        Layers::Block { outer, locals } => match locals.get(name).copied() {
            None => passed_within(around, outer, name, number),
            Some(local) => {
                // it is no function
                around.declared(local.place);
                None
            }
        },
    }
}

impl<S: Surroundings> Env for Inner<'_, '_, S> {
    ghost use Rattle.vs_bodies.specs.Layers.{within};

    ghost names = { λ i. within (S.declared i.around.now) i.layers.now (S.names i.around.now) };

    fn find(&self, name: &[u8]) -> Named {
        find_within(self.around, self.layers, name)
    }

    fn passed(&self, name: &[u8], number: u32) -> Option<SignalShape> {
        passed_within(self.around, self.layers, name, number)
    }
}

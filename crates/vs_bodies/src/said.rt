//! What a statement says as a whole: its first fault, and what its loops copy.

ghost use Rattle.std.specs.Prelude.{◌≡◌, ◌<◌, ◌≤◌, ℕ, true, false, IfOk, IfErr};
ghost use Rattle.vs_grammar.specs.Shapes.{IsStatement};
ghost use Rattle.vs_ast.specs.Views as view;
ghost use Rattle.vs_const.specs.Meanings.{IsFair, IsFairMeaning};
ghost use Rattle.vs_elaborated.specs.Statements.{typed_statement, unrolled_within};
ghost use Rattle.vs_bodies.specs.Bodies.{body_of};
ghost use Rattle.vs_bodies.specs.Said.{IsSaid};
ghost use Rattle.vs_bodies.specs.Told.{told, Over};

use crate::layers::{Inner, Layers, Surroundings};
use crate::statements::BodyKind;
use crate::told::{Stop, Told};
use crate::walk::{How, walk};
use std::alloc::{AllocError, Global};
use vs_ast::Statement;
use vs_const::Fault;

/// The first rule that a statement breaks, how many statements its loops copy, and how deep calls of functions nest in it.
#[derive(Clone, Copy, Debug)]
pub struct StatementSaid {
    pub fault: Option<Fault>,
    pub copies: u32,
    pub depth: u32,
}

/// What is told of it.
fn said(told: Told) -> StatementSaid
    ensures fault { result.fault ≡ told.fault }
    ensures copies { result.copies ≡ told.count }
    ensures depth { result.depth ≡ told.depth }
{
    StatementSaid {
        fault: told.fault,
        copies: told.count,
        depth: told.depth,
    }
}

/// What is told of a statement in its body.
fn walk_whole<S: Surroundings>(
    alloc: Global,
    s: &Statement,
    kind: BodyKind,
    unrolls: bool,
    around: &S,
    most: u32,
) -> Result<Told, Stop>
    requires shaped { IsStatement (view.statement s.now) }
    requires fair { IsFair (S.names around.now) }
    requires declared { (place : ℕ) → IsFairMeaning (S.declared around.now place) }
    ensures told { IfOk result (λ w. w ≡ told false (typed_statement (view.statement s.now) (body_of kind unrolls (S.declared around.now)) (S.names around.now))) }
    ensures within { IfOk result (λ w. w.count ≤ most) }
    ensures over { IfErr result (λ e. e ≡ Over → most < (told false (typed_statement (view.statement s.now) (body_of kind unrolls (S.declared around.now)) (S.names around.now))).count) }
{
    let layers = Layers::End;
    let here = Inner {
        around: &*around,
        layers: &layers,
    };
    let how = How {
        kind,
        unrolls,
        in_loop: false,
    };
    walk(alloc, s, how, most, &here)
}

/// What a statement says: with its loops unrolled, if they copy at most so many statements, or else with each loop as one of too many turns.
///
/// A fault is the first rule that is broken, at a token of the text: of several the one at the least token, and there the one with the least number.
/// Besides those of an expression (`vs_const::check`) and of a target (`check_target`) they are:
/// - `LoopTurns`: a loop takes more than 4,096 turns, or its copies are too many, at the `for` (9.6).
/// - `LoopVariable`: what heads a loop is an integer of a loop around, at its name.
/// - `WrongKind`: what heads a loop is no integer, or the second assignment is to another one, at the name; a word of a memory is written in a body that
///   isn't clocked, at the memory's name; a named block of an always block declares a variable, at its name.
/// - `UnknownName`: the name that heads a loop, or of the second assignment, has no declaration.
/// - `DuplicateName`: a named block declares a name twice, at the second one (9.8.2).
/// - `FunctionRule`: a function has a `<=`, at its target (10.4.4).
///
/// Want of memory is answered in place of anything.
pub fn check_statement<S: Surroundings>(
    alloc: Global,
    s: &Statement,
    kind: BodyKind,
    around: &S,
    most: u32,
) -> Result<StatementSaid, AllocError>
    requires shaped { IsStatement (view.statement s.now) }
    requires fair { IsFair (S.names around.now) }
    requires declared { (place : ℕ) → IsFairMeaning (S.declared around.now place) }
    ensures { IfOk result (λ c. IsSaid c (unrolled_within most (view.statement s.now) (body_of kind true (S.declared around.now)) (S.names around.now))) }
{
    match walk_whole(alloc, s, kind, true, around, most) {
        Ok(told) => Ok(said(told)),
        Err(Stop::Memory) => Err(AllocError),
        // no statement is counted where no loop is unrolled
        Err(Stop::Over) => match walk_whole(alloc, s, kind, false, around, most) {
            Ok(told) => Ok(said(told)),
            Err(_) => Err(AllocError),
        },
    }
}

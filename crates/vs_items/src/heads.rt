//! The integers that head loops of blocks (IEEE 1364-2005, 9.6).

ghost use Rattle.std.specs.Prelude.{◌≡◌, ◌++◌, [], ◌∷◌, List, IfOk, OnOk, map, is_some};
ghost use Rattle.vs_ast.specs.Views as view;
ghost use Rattle.vs_elaborated.specs.Heads as spec;
ghost use Rattle.vs_elaborated.specs.Statements.{Local as LocalOf, find_local, scope_locals};
ghost use Rattle.vs_bodies.specs.Layers.{AreLocals};
ghost use Rattle.vs_scope.specs.Frames.{view_env};
ghost use Rattle.vs_items.specs.Heads.{AreAround, declares, heads_with};
ghost use Rattle.vs_items.specs.Loops.{head};

use crate::loops::{Head, Integer};
use std::alloc::{AllocError, Global};
use vs_ast::{BlockScope, CaseArm, Name, Statement};
use vs_bodies::{Block, Layers, Local, block_of};
use vs_maps::NameMap;
use vs_scope::{Declared, View};

/// What is around within a named block (9.8.2).
fn within_block<'a, 'b>(outer: &'a Layers<'a, 'b>, locals: &'a NameMap<'b, Local>) -> Layers<'a, 'b>
    ensures { (own around : List LocalOf) → AreLocals locals.now own → AreAround outer.now around → AreAround result (own ++ around) }
{
    Layers::Block { outer, locals }
}

/// Whether a named block around declares a name.
fn is_local(layers: &Layers<'_, '_>, name: &[u8]) -> bool
    ensures { result ≡ declares layers.now name.now }
{
    match layers {
        Layers::End => false,
        Layers::Turn { outer, .. } => is_local(outer, name),
        Layers::Block { outer, locals } => locals.get(name).is_some() || is_local(outer, name),
    }
}

/// The integer of a scope that a name means, if no named block around declares the name.
fn integer_named(name: &Name, layers: &Layers<'_, '_>, here: &View<'_, '_>) -> Option<Integer>
    ensures { (locals : List LocalOf) → AreAround layers.now locals
        → heads_with result name.now.place ≡ spec.head_of (find_local locals name.now.text) (view.name name.now) (view_env here.now) }
{
    if is_local(layers, name.text.as_slice()) {
        return None;
    }
    match here.entry(name.text.as_slice()) {
        None => None,
        Some(e) => match e.declared {
            Declared::Integer { scope } => Some(Integer {
                scope,
                place: e.first.name.place,
            }),
            _ => None,
        },
    }
}

/// The integer that a loop names, if it is one of a scope.
fn push_head(
    list: &mut Vec<Head>,
    name: &Name,
    layers: &Layers<'_, '_>,
    here: &View<'_, '_>,
) -> Result<(), AllocError>
    ensures { (locals : List LocalOf) → AreAround layers.now locals
        → OnOk result (map head list.new.items ≡ map head list.old.items ++ spec.head_of (find_local locals name.now.text) (view.name name.now) (view_env here.now)) }
{
    match integer_named(name, layers, here) {
        None => Ok(()),
        Some(integer) => {
            list.push(Head {
                integer,
                at: name.place,
            })?;
            Ok(())
        }
    }
}

/// The integers that head loops in a statement, in the order of the text.
#[cycle(heads)]
fn push_heads<'b>(
    alloc: Global,
    list: &mut Vec<Head>,
    s: &'b Statement,
    layers: &Layers<'_, 'b>,
    here: &View<'_, '_>,
) -> Result<(), AllocError>
    ensures { (locals : List LocalOf) → AreAround layers.now locals
        → OnOk result (map head list.new.items ≡ map head list.old.items ++ spec.headed (view.statement s.now) locals (view_env here.now)) }
{
    match s {
        Statement::Empty { .. } => Ok(()),
        Statement::Assignment { .. } => Ok(()),
        Statement::If { taken, other, .. } => {
            push_heads(alloc, list, taken, layers, here)?;
            match other {
                None => Ok(()),
                Some(other) => push_heads(alloc, list, other, layers, here),
            }
        }
        Statement::Case { arms, other, .. } => {
            push_arms(alloc, list, arms, layers, here)?;
            match other {
                None => Ok(()),
                Some(other) => push_heads(alloc, list, other, layers, here),
            }
        }
        Statement::Sequence { scope, parts, .. } => match scope {
            None => push_sequence(alloc, list, parts, layers, here),
            Some(scope) => push_block(alloc, list, scope, parts, layers, here),
        },
        Statement::For { head, body } => {
            push_head(list, &head.variable, layers, here)?;
            push_heads(alloc, list, body, layers, here)
        }
    }
}

/// Those in a named block (9.8.2).
#[cycle(heads)]
fn push_block<'b>(
    alloc: Global,
    list: &mut Vec<Head>,
    scope: &'b BlockScope,
    parts: &'b [Statement],
    layers: &Layers<'_, 'b>,
    here: &View<'_, '_>,
) -> Result<(), AllocError>
    ensures { (locals : List LocalOf) → AreAround layers.now locals
        → OnOk result (map head list.new.items ≡ map head list.old.items ++ spec.headed_sequence (view.statements parts.now) (scope_locals (Some (view.block_scope scope.now)) ++ locals) (view_env here.now)) }
{
    let Block { locals, .. } = block_of(alloc, scope, false)?;
    let inner = within_block(&*layers, &locals);
    push_sequence(alloc, list, parts, &inner, &*here)
}

/// Those in the statements between `begin` and `end`.
#[cycle(heads)]
fn push_sequence<'b>(
    alloc: Global,
    list: &mut Vec<Head>,
    parts: &'b [Statement],
    layers: &Layers<'_, 'b>,
    here: &View<'_, '_>,
) -> Result<(), AllocError>
    ensures { (locals : List LocalOf) → AreAround layers.now locals
        → OnOk result (map head list.new.items ≡ map head list.old.items ++ spec.headed_sequence (view.statements parts.now) locals (view_env here.now)) }
{
    for s in parts {
        push_heads(alloc, list, s, layers, here)?;
    }
    Ok(())
}

/// Those in the arms of a case.
#[cycle(heads)]
fn push_arms<'b>(
    alloc: Global,
    list: &mut Vec<Head>,
    arms: &'b [CaseArm],
    layers: &Layers<'_, 'b>,
    here: &View<'_, '_>,
) -> Result<(), AllocError>
    ensures { (locals : List LocalOf) → AreAround layers.now locals
        → OnOk result (map head list.new.items ≡ map head list.old.items ++ spec.headed_arms (view.arms arms.now) locals (view_env here.now)) }
{
    for arm in arms {
        push_heads(alloc, list, &arm.statement, layers, here)?;
    }
    Ok(())
}

/// The integers of scopes that head loops in the statement of a block, in the order of the text, each with where the loop names it.
pub(crate) fn heads_of(
    alloc: Global,
    s: &Statement,
    here: &View<'_, '_>,
) -> Result<Vec<Head>, AllocError>
    ensures { IfOk result (λ list. map head list.items ≡ spec.headed (view.statement s.now) [] (view_env here.now)) }
{
    let mut list = Vec::new(alloc);
    let layers = Layers::End;
    push_heads(alloc, &mut list, s, &layers, here)?;
    Ok(list)
}

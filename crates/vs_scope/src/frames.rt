//! Scopes, one within the other, and what is declared in them (IEEE 1364-2005, 12.4.1, 12.7 and 12.8).

ghost use Rattle.std.specs.Prelude.{◌≡◌, None, Some, MatchOption, slice_get};
ghost use Rattle.vs_const.specs.Meanings.{FunctionMeaning, IsShapeIn};
ghost use Rattle.vs_elaborated.specs.Environments as spec;
ghost use Rattle.vs_scope.specs.Seen.{Finds};
ghost use Rattle.vs_scope.specs.Stacks as view;

use crate::names::{Entry, Names};
use vs_const::SignalShape;

/// The value of the genvar that is declared at this place (12.4.1).
#[derive(Clone, Copy)]
pub struct Turn {
    pub genvar: u32,
    pub value: u32,
}

/// A scope, whose number is its place among all scopes around what is still to be read. `parent` is the number of the scope around a generate
/// block; a module's own scope has none, since nothing of the scopes around an instance is seen within it. `turn` is the value of a loop's block.
#[derive(Drop)]
pub struct Frame<'a> {
    pub names: Names<'a>,
    pub parent: Option<usize>,
    pub turn: Option<Turn>,
}

/// The parent's number, which is less than the scope's own.
pub(crate) fn below(parent: Option<usize>, number: usize) -> Option<usize>
    ensures { result ≡ view.below parent number }
{
    match parent {
        Some(p) if p < number => Some(p),
        _ => None,
    }
}

/// The declaration of a name in the scope of this number, or in the innermost one around it.
pub(crate) fn entry_at<'f, 'a>(
    frames: &'f [Frame<'a>],
    number: Option<usize>,
    name: &[u8],
) -> Option<&'f Entry<'a>>
    requires { view.KeepShapes frames.now }
    ensures { MatchOption result (spec.find_name (view.env_at (view.envs frames.now) number).frames name.now ≡ None)
        (λ e. Finds (spec.find_name (view.env_at (view.envs frames.now) number).frames name.now) name.now e.now) }
{
    match number {
        None => None,
        Some(i) => {
            if i < frames.len() {
                let frame = &frames[i];
                match frame.names.find(name) {
                    Some(e) => Some(e),
                    None => entry_at(frames, below(frame.parent, i), name),
                }
            } else {
                None
            }
        }
    }
}

/// The signal of this number among those that a call of the function of this name passes, in the scope of this number or in the innermost one around it
/// that has the name (10.4.4).
pub(crate) fn passed_at(
    frames: &[Frame<'_>],
    scope: Option<usize>,
    name: &[u8],
    number: u32,
) -> Option<SignalShape>
    requires { view.KeepShapes frames.now }
    ensures { (e : spec.Entry) (f : FunctionMeaning) → spec.find_name (view.env_at (view.envs frames.now) scope).frames name.now ≡ Some e → e.declared ≡ spec.OfFunction (Some f)
        → IsShapeIn result (slice_get f.passed number) }
{
    match scope {
        None => None,
        Some(i) => {
            if i < frames.len() {
                let frame = &frames[i];
                match frame.names.find(name) {
                    Some(_) => frame.names.passed(name, number),
                    None => passed_at(frames, below(frame.parent, i), name, number),
                }
            } else {
                None
            }
        }
    }
}

/// The value of a loop's genvar if it is the one declared at this place, and else the other one.
pub(crate) fn value_or(turn: Option<Turn>, genvar: u32, other: Option<u32>) -> Option<u32>
    ensures { result ≡ view.value_or turn genvar other }
{
    match turn {
        Some(t) if t.genvar == genvar => Some(t.value),
        _ => other,
    }
}

/// The value of the innermost loop of this genvar, from the scope of this number on.
pub(crate) fn turn_at(frames: &[Frame<'_>], number: Option<usize>, genvar: u32) -> Option<u32>
    ensures { result ≡ spec.turn_of (view.env_at (view.envs frames.now) number).turns genvar }
{
    match number {
        None => None,
        Some(i) => {
            if i < frames.len() {
                let frame = &frames[i];
                let other = turn_at(frames, below(frame.parent, i), genvar);
                value_or(frame.turn, genvar, other)
            } else {
                None
            }
        }
    }
}

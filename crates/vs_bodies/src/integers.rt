//! What statements do with an integer: whether loops are headed by it, and whether assignments are to it (IEEE 1364-2005, 4.8, 9.2 and 9.6).

ghost use Rattle.std.specs.Prelude.{◌≡◌, ◌&&◌, map};
ghost use Rattle.vs_design.specs.Clocks.{same_name};
ghost use Rattle.vs_ast.specs.Views as view;
ghost use Rattle.vs_elaborated.specs.Uses as spec;

use crate::layers::is_same_name;
use vs_ast::{BlockScope, CaseArm, LoopHead, Name, Statement, Target, Variables};

/// Whether an assignment to this target is to a name.
#[cycle(targets)]
fn is_target(name: &[u8], t: &Target) -> bool
    ensures { result ≡ spec.is_target name.now (view.target t.now) }
{
    match t {
        Target::Named(n, _) => is_same_name(n.text.as_slice(), name),
        Target::Concatenation { parts, .. } => is_among_targets(name, parts),
    }
}

/// Whether a part of a target is the name.
#[cycle(targets)]
fn is_among_targets(name: &[u8], list: &[Target]) -> bool
    ensures { result ≡ spec.is_among_targets name.now (view.targets list.now) }
{
    for part in list {
        if is_target(name, part) {
            return true;
        }
    }
    false
}

/// Whether a name is one of these.
fn is_among_names(name: &[u8], names: &[Name]) -> bool
    ensures { result ≡ spec.is_among_names name.now (map view.name names.now) }
{
    for n in names {
        if is_same_name(n.text.as_slice(), name) {
            return true;
        }
    }
    false
}

/// Whether one of these declarations has the name.
fn declares(name: &[u8], all: &[Variables]) -> bool
    ensures { result ≡ spec.declares name.now (map view.variables all.now) }
{
    for v in all {
        if is_among_names(name, &v.names) {
            return true;
        }
    }
    false
}

/// Whether a named block declares the name (9.8.2).
fn hides(name: &[u8], scope: &Option<BlockScope>) -> bool
    ensures { result ≡ spec.hides name.now (view.option view.block_scope scope.now) }
{
    match scope {
        None => false,
        Some(scope) => declares(name, &scope.variables),
    }
}

/// Whether loops are looked for, and one with this head is headed by the name.
fn is_headed_by(as_head: bool, name: &[u8], head: &LoopHead) -> bool
    ensures { result ≡ (as_head && same_name head.now.variable.text name.now) }
{
    as_head && is_same_name(head.variable.text.as_slice(), name)
}

/// Whether a loop in a statement is headed by a name, or else whether an assignment in it is to the name. What a named block declares is another.
#[cycle(statements)]
pub fn uses(as_head: bool, name: &[u8], s: &Statement) -> bool
    ensures { result ≡ spec.uses as_head name.now (view.statement s.now) }
{
    match s {
        Statement::Empty { .. } => false,
        Statement::Assignment { target, .. } => !as_head && is_target(name, target),
        Statement::If { taken, other, .. } => {
            if uses(as_head, name, taken) {
                return true;
            }
            match other {
                None => false,
                Some(other) => uses(as_head, name, other),
            }
        }
        Statement::Case { arms, other, .. } => {
            if uses_in_arms(as_head, name, arms) {
                return true;
            }
            match other {
                None => false,
                Some(other) => uses(as_head, name, other),
            }
        }
        Statement::Sequence { scope, parts, .. } => {
            if hides(name, scope) {
                return false;
            }
            uses_in_sequence(as_head, name, parts)
        }
        Statement::For { head, body } => {
            if is_headed_by(as_head, name, head) {
                return true;
            }
            uses(as_head, name, body)
        }
    }
}

/// Whether one of the statements between `begin` and `end` does so.
#[cycle(statements)]
fn uses_in_sequence(as_head: bool, name: &[u8], parts: &[Statement]) -> bool
    ensures { result ≡ spec.uses_sequence as_head name.now (view.statements parts.now) }
{
    for s in parts {
        if uses(as_head, name, s) {
            return true;
        }
    }
    false
}

/// Whether one of the arms of a case does so.
#[cycle(statements)]
fn uses_in_arms(as_head: bool, name: &[u8], arms: &[CaseArm]) -> bool
    ensures { result ≡ spec.uses_arms as_head name.now (view.arms arms.now) }
{
    for arm in arms {
        if uses(as_head, name, &arm.statement) {
            return true;
        }
    }
    false
}

/// Whether an integer of a function is a variable, by its name: its statement assigns it, and no loop is headed by it.
pub fn is_variable_in(name: &[u8], s: &Statement) -> bool
    ensures { result ≡ spec.is_variable_in (view.statement s.now) name.now }
{
    !uses(true, name, s) && uses(false, name, s)
}

/// Whether an integer of a named block with these statements is a variable, by its name.
pub fn is_variable_among(name: &[u8], parts: &[Statement]) -> bool
    ensures { result ≡ spec.is_variable_among (view.statements parts.now) name.now }
{
    !uses_in_sequence(true, name, parts) && uses_in_sequence(false, name, parts)
}

//! What is assigned to (IEEE 1364-2005, table 6-1).

ghost use Rattle.vs_const.specs.Selects as selects;
ghost use Rattle.std.specs.Prelude.{◌≡◌, ◌||◌, Bool, not, IfOk, is_some, if◌then◌else◌};
ghost use Rattle.vs_grammar.specs.Trees.{expr_place};
ghost use Rattle.vs_grammar.specs.Shapes.{IsExpr, IsSelect, IsTarget, AreTargets};
ghost use Rattle.vs_ast.specs.Views as view;
ghost use Rattle.vs_const.specs.Meanings.{IsFair, Meaning, Means, SignalMeaning};
ghost use Rattle.vs_const.specs.Expressions.{typed, taken_by};
ghost use Rattle.vs_const.specs.Faults.{least};
ghost use Rattle.vs_const.specs.Faults as faults;
ghost use Rattle.vs_const.specs.declared.rules.Rule.TheVariants.{WrongKind};
ghost use Rattle.vs_elaborated.specs.Targets as target;
ghost use Rattle.vs_bodies.specs.Targets.{IsBase};
ghost use Rattle.vs_bodies.specs.Told as spec;

use crate::told::{Told, behind, broken, with};
use std::alloc::{AllocError, Global};
use vs_ast::{Expr, Name, Select, Target};
use vs_const::{
    Env, Fault, Named, Role, Rule, SignalShape, check, check_address, check_part, check_slice,
    fault_at, fault_if, first_of, wrong_rule,
};
use vs_four::Range;

/// What a target takes bits of: its range, and what is wrong with it.
#[derive(Clone, Copy)]
pub(crate) struct Base {
    range: Option<Range>,
    fault: Option<Fault>,
}

/// Whether a signal isn't written so: an assign and an output's connection write nets, a statement variables, and nothing an input.
fn is_wrong(s: SignalShape, procedural: bool) -> bool
    ensures { (m : SignalMeaning) → s.net ≡ m.signal.net → s.input ≡ m.input → result ≡ target.is_wrong_target procedural m }
{
    s.input || s.net == procedural
}

/// What a target breaks that is none: of a function's input that the function writes it (10.4.4).
fn target_rule(role: Role) -> Rule
    ensures { (m : SignalMeaning) → role ≡ m.role → result ≡ target.target_rule m }
{
    match role {
        Role::InModule => Rule::WrongKind,
        Role::InFunction | Role::AsResult => Rule::FunctionRule,
    }
}

/// The rule that a name breaks which means no signal: an integer isn't written within its loop (9.6).
fn unwritten_rule(named: &Named) -> Rule
    ensures { (m : Meaning) → Means named.now m → result ≡ target.unwritten_rule m }
{
    match named {
        Named::Value { turns: true, .. } => Rule::LoopVariable,
        _ => wrong_rule(false, named),
    }
}

/// Whether a signal is known to have no range, so that a select has nothing to take bits of.
fn is_scalar(s: SignalShape) -> bool
    ensures { (m : SignalMeaning) → s.known ≡ m.known → s.range ≡ m.signal.range → result ≡ selects.is_scalar m }
{
    s.known && s.range.is_none()
}

/// A signal, alone or as what a select takes bits of.
fn signal_base(s: SignalShape, place: u32, procedural: bool, selected: bool) -> Base
    ensures { (m : Meaning) → Means (Named.Signal s) m → IsBase result (target.target_base procedural place selected m) }
{
    let wrong = is_wrong(s, procedural);
    let scalar = selected && is_scalar(s);
    Base {
        range: s.range,
        fault: first_of(
            fault_if(wrong, target_rule(s.role), place),
            fault_if(scalar, Rule::WrongKind, place),
        ),
    }
}

/// What a target names, alone or as what a select takes bits of.
fn base_of(named: &Named, place: u32, procedural: bool, selected: bool) -> Base
    ensures { (m : Meaning) → Means named.now m → IsBase result (target.target_base procedural place selected m) }
{
    match named {
        Named::Signal(s) => signal_base(*s, place, procedural, selected),
        _ => Base {
            range: None,
            fault: fault_at(unwritten_rule(named), place),
        },
    }
}

/// The fault of a word that is written, but for its address (4.9.3).
fn word_fault(s: SignalShape, place: u32, procedural: bool) -> Option<Fault>
    ensures { (m : SignalMeaning) → s.net ≡ m.signal.net → s.input ≡ m.input
        → result ≡ least (faults.fault_if (target.is_wrong_target procedural m) WrongKind place) }
{
    fault_if(is_wrong(s, procedural), Rule::WrongKind, place)
}

/// How deep calls nest in the index of a bit, which has a meaning where the range is known.
fn bit_depth(range: Option<Range>, depth: u32) -> u32
    ensures { result ≡ (if is_some range then depth else 0) }
{
    match range {
        None => 0,
        Some(_) => depth,
    }
}

/// What `name[index]` says: a word of a memory (4.9.3), a bit of anything else.
fn bit_told<E: Env>(
    alloc: Global,
    name: &Name,
    index: &Expr,
    env: &E,
    procedural: bool,
) -> Result<Told, AllocError>
    requires shaped { IsExpr (view.expr index.now) }
    requires fair { IsFair (E.names env.now) }
    ensures { IfOk result (λ w. w ≡ spec.told_target (target.bit_target procedural name.now.place (E.names env.now name.now.text) (expr_place (view.expr index.now)) (typed (view.expr index.now) (E.names env.now) (selects.is_array (E.names env.now name.now.text) || not procedural)))) }
{
    let named = env.find(name.text.as_slice());
    match named {
        Named::Memory(s) => {
            let a = check_address(alloc, s, index, env, !procedural)?;
            let fault = word_fault(s, name.place, procedural);
            Ok(behind(fault, broken(a.flaws.first, a.depth)))
        }
        _ => {
            let found = check(alloc, index, env, !procedural)?;
            let i = found.said;
            let base = base_of(&named, name.place, procedural, true);
            let depth = bit_depth(base.range, i.depth);
            Ok(behind(base.fault, broken(i.flaws.first, depth)))
        }
    }
}

/// What `name[address]` with a further select says: bits of a word of a memory (5.2.2). Of any other name what stands in the brackets comes behind it.
fn further_told<E: Env>(
    alloc: Global,
    name: &Name,
    address: &Expr,
    part: &Select,
    env: &E,
    procedural: bool,
) -> Result<Told, AllocError>
    requires address { IsExpr (view.expr address.now) }
    requires part { IsSelect (view.select part.now) }
    requires fair { IsFair (E.names env.now) }
    ensures { IfOk result (λ w. w ≡ spec.told_target (target.further_target procedural name.now.place (E.names env.now name.now.text) (expr_place (view.expr address.now)) (typed (view.expr address.now) (E.names env.now) (selects.is_array (E.names env.now name.now.text) || not procedural))
        (taken_by (selects.word_range (E.names env.now name.now.text)) (view.select part.now) (E.names env.now) (not procedural)))) }
{
    let named = env.find(name.text.as_slice());
    match named {
        Named::Memory(s) => {
            let a = check_address(alloc, s, address, env, !procedural)?;
            let bits = check_part(alloc, s.range, part, env, !procedural)?;
            let written = word_fault(s, name.place, procedural);
            let scalar = fault_if(is_scalar(s), Rule::WrongKind, name.place);
            let indices = with(
                broken(a.flaws.first, a.depth),
                broken(bits.flaws.first, bits.depth),
            );
            Ok(behind(written, behind(scalar, indices)))
        }
        _ => Ok(broken(fault_at(unwritten_rule(&named), name.place), 0)),
    }
}

/// What a name says as a target, with what is selected of it.
fn selected_told<E: Env>(
    alloc: Global,
    name: &Name,
    select: &Select,
    env: &E,
    procedural: bool,
) -> Result<Told, AllocError>
    requires shaped { IsSelect (view.select select.now) }
    requires fair { IsFair (E.names env.now) }
    ensures { IfOk result (λ w. w ≡ spec.told_target (target.selected_target (view.select select.now) (view.name name.now) (E.names env.now) procedural)) }
{
    match select {
        Select::Whole => {
            let named = env.find(name.text.as_slice());
            Ok(broken(base_of(&named, name.place, procedural, false).fault, 0))
        }
        Select::Bit { index, .. } => bit_told(alloc, name, index, env, procedural),
        Select::Slice {
            bracket,
            kind,
            left,
            right,
        } => {
            let named = env.find(name.text.as_slice());
            let base = base_of(&named, name.place, procedural, true);
            let bits = check_slice(
                alloc,
                base.range,
                *bracket,
                *kind,
                left,
                right,
                env,
                !procedural,
            )?;
            Ok(behind(base.fault, broken(bits.flaws.first, bits.depth)))
        }
        Select::Word { address, part, .. } => {
            further_told(alloc, name, address, part, env, procedural)
        }
    }
}

/// What a target says; `procedural` says whether an assignment of a block writes it.
#[cycle(targets)]
pub(crate) fn target_told<E: Env>(
    alloc: Global,
    t: &Target,
    env: &E,
    procedural: bool,
) -> Result<Told, AllocError>
    requires shaped { IsTarget (view.target t.now) }
    requires fair { IsFair (E.names env.now) }
    ensures { IfOk result (λ w. w ≡ spec.told_target (target.typed_target (view.target t.now) (E.names env.now) procedural)) }
{
    match t {
        Target::Named(name, select) => selected_told(alloc, name, select, env, procedural),
        Target::Concatenation { parts, .. } => targets_told(alloc, parts, env, procedural),
    }
}

/// What the parts of a target say.
#[cycle(targets)]
fn targets_told<E: Env>(
    alloc: Global,
    list: &[Target],
    env: &E,
    procedural: bool,
) -> Result<Told, AllocError>
    requires shaped { AreTargets (view.targets list.now) }
    requires fair { IsFair (E.names env.now) }
    ensures { IfOk result (λ w. w ≡ spec.told_target (target.typed_targets (view.targets list.now) (E.names env.now) procedural)) }
{
    let mut told = broken(None, 0);
    for part in list {
        let one = target_told(alloc, part, env, procedural)?;
        told = with(told, one);
    }
    Ok(told)
}

/// The first rule that a target breaks; `procedural` says whether an assignment of a block writes it, or else an assign or an output's connection.
pub fn check_target<E: Env>(
    alloc: Global,
    t: &Target,
    env: &E,
    procedural: bool,
) -> Result<Option<Fault>, AllocError>
    requires shaped { IsTarget (view.target t.now) }
    requires fair { IsFair (E.names env.now) }
    ensures { IfOk result (λ f. f ≡ least (target.typed_target (view.target t.now) (E.names env.now) procedural).faults) }
{
    let told = target_told(alloc, t, env, procedural)?;
    Ok(told.fault)
}

/// The first rule that a name breaks as a target, with what is selected of it.
pub fn check_selected<E: Env>(
    alloc: Global,
    name: &Name,
    select: &Select,
    env: &E,
    procedural: bool,
) -> Result<Option<Fault>, AllocError>
    requires shaped { IsSelect (view.select select.now) }
    requires fair { IsFair (E.names env.now) }
    ensures { IfOk result (λ f. f ≡ least (target.selected_target (view.select select.now) (view.name name.now) (E.names env.now) procedural).faults) }
{
    let told = selected_told(alloc, name, select, env, procedural)?;
    Ok(told.fault)
}

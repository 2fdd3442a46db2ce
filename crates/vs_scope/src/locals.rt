//! What a function declares in its own name space, and what the named blocks in it declare (IEEE 1364-2005, 9.8.2 and 10.4.1).

ghost use Rattle.std.specs.Prelude.{◌≡◌, ◌&&◌, ◌++◌, ◌∷◌, [], ℕ, IfOk, OnOk, List, Some, map, flat_map, not, if◌then◌else◌};
ghost use Rattle.vs_ast.specs.Views as view;
ghost use Rattle.vs_const.specs.Faults.{least};
ghost use Rattle.vs_elaborated.specs.Statements as statements;
ghost use Rattle.vs_elaborated.specs.Functions as spec;
ghost use Rattle.vs_elaborated.specs.Uses.{is_variable_in, is_variable_among};
ghost use Rattle.vs_maps.specs.Maps.{value_at};
ghost use Rattle.vs_maps.specs.MapViews.{pairs};
ghost use Rattle.vs_scope.specs.Locals.{local, place_of};
ghost use Rattle.vs_bodies.specs.Layers.{AreLocals as AreDeclared};
ghost use Rattle.vs_bodies.specs.Locals.{later_faults};
ghost use Rattle.vs_scope.specs.OwnNames.{ArePlaces};

use std::alloc::{AllocError, Global};
use vs_ast::{BlockScope, CaseArm, Function, Name, Statement, ValueType, Variables};
use vs_bodies::{Local as Place, is_variable_among, is_variable_in};
use vs_const::{Fault, Rule, fault_at, first_of};
use vs_maps::NameMap;

/// A declaration in a function or in a named block of it: an input, its result, a variable or an integer, with its type.
#[derive(Clone, Copy)]
pub(crate) struct Local<'a> {
    pub(crate) name: &'a Name,
    pub(crate) value_type: &'a ValueType,
}

/// All names of one declaration.
fn push_variables<'a>(list: &mut Vec<Local<'a>>, v: &'a Variables) -> Result<(), AllocError>
    ensures { OnOk result (map local list.new.items ≡ map local list.old.items ++ statements.locals_of (view.variables v.now)) }
{
    for name in &v.names {
        list.push(Local {
            name,
            value_type: &v.value_type,
        })?;
    }
    Ok(())
}

/// All names of these declarations.
fn push_declarations<'a>(list: &mut Vec<Local<'a>>, all: &'a [Variables]) -> Result<(), AllocError>
    ensures { OnOk result (map local list.new.items ≡ map local list.old.items ++ flat_map statements.locals_of (map view.variables all.now)) }
{
    for v in all {
        push_variables(list, v)?;
    }
    Ok(())
}

/// Whether it declares an integer (4.8).
fn is_integer(v: &Local<'_>) -> bool
    ensures { result ≡ statements.is_integer (local v.now) }
{
    matches!(v.value_type, ValueType::Integer)
}

/// One more, unless it is an integer that is no variable.
fn push_variable<'a>(
    list: &mut Vec<Local<'a>>,
    v: Local<'a>,
    is_variable: bool,
) -> Result<(), AllocError>
    ensures { OnOk result (map local list.new.items ≡ (if statements.is_integer (local v.entry) && not is_variable then map local list.old.items else map local list.old.items ++ local v.entry ∷ [])) }
{
    if is_integer(&v) && !is_variable {
        return Ok(());
    }
    list.push(v)?;
    Ok(())
}

/// The variables of these, which a statement may use.
fn push_used_in<'a>(
    list: &mut Vec<Local<'a>>,
    all: &[Local<'a>],
    s: &Statement,
) -> Result<(), AllocError>
    ensures { OnOk result (map local list.new.items ≡ map local list.old.items ++ spec.variables_of (is_variable_in (view.statement s.now)) (map local all.now)) }
{
    for v in all {
        let used = is_variable_in(v.name.text.as_slice(), s);
        push_variable(list, *v, used)?;
    }
    Ok(())
}

/// The variables of these, which several statements may use.
fn push_used_among<'a>(
    list: &mut Vec<Local<'a>>,
    all: &[Local<'a>],
    parts: &[Statement],
) -> Result<(), AllocError>
    ensures { OnOk result (map local list.new.items ≡ map local list.old.items ++ spec.variables_of (is_variable_among (view.statements parts.now)) (map local all.now)) }
{
    for v in all {
        let used = is_variable_among(v.name.text.as_slice(), parts);
        push_variable(list, *v, used)?;
    }
    Ok(())
}

/// All that a named block declares by itself.
pub(crate) fn block_declared<'a>(
    alloc: Global,
    scope: &'a BlockScope,
) -> Result<Vec<Local<'a>>, AllocError>
    ensures { IfOk result (λ list. map local list.items ≡ statements.scope_locals (Some (view.block_scope scope.now))) }
{
    let mut all = Vec::new(alloc);
    push_declarations(&mut all, &scope.variables)?;
    Ok(all)
}

/// The variables that a named block declares by itself: an integer is one where it heads no loop in these statements and is assigned.
pub(crate) fn scope_variables<'a>(
    alloc: Global,
    scope: &'a BlockScope,
    parts: &[Statement],
) -> Result<Vec<Local<'a>>, AllocError>
    ensures { IfOk result (λ list. map local list.items ≡ spec.variables_of (is_variable_among (view.statements parts.now)) (statements.scope_locals (Some (view.block_scope scope.now)))) }
{
    let all = block_declared(alloc, scope)?;
    let mut list = Vec::new(alloc);
    push_used_among(&mut list, all.as_slice(), parts)?;
    Ok(list)
}

/// What a named block declares by itself; one without a name declares nothing.
fn scope_locals<'a>(
    alloc: Global,
    scope: &'a Option<BlockScope>,
) -> Result<Vec<Local<'a>>, AllocError>
    ensures { IfOk result (λ list. map local list.items ≡ statements.scope_locals (view.option view.block_scope scope.now)) }
{
    let mut list = Vec::new(alloc);
    match scope {
        None => {}
        Some(scope) => push_declarations(&mut list, &scope.variables)?,
    }
    Ok(list)
}

/// Those of what may be a named block.
fn push_scope<'a>(
    list: &mut Vec<Local<'a>>,
    alloc: Global,
    scope: &'a Option<BlockScope>,
    parts: &[Statement],
) -> Result<(), AllocError>
    ensures { OnOk result (map local list.new.items ≡ map local list.old.items ++ spec.variables_of (is_variable_among (view.statements parts.now)) (statements.scope_locals (view.option view.block_scope scope.now))) }
{
    let all = scope_locals(alloc, scope)?;
    push_used_among(list, all.as_slice(), parts)
}

/// The variables that the named blocks of a statement declare, in the order of the text.
#[cycle(blocks)]
fn push_blocks<'a>(
    list: &mut Vec<Local<'a>>,
    alloc: Global,
    s: &'a Statement,
) -> Result<(), AllocError>
    ensures { OnOk result (map local list.new.items ≡ map local list.old.items ++ spec.block_locals (view.statement s.now)) }
{
    match s {
        Statement::Empty { .. } => Ok(()),
        Statement::Assignment { .. } => Ok(()),
        Statement::If { taken, other, .. } => {
            push_blocks(list, alloc, taken)?;
            match other {
                None => Ok(()),
                Some(other) => push_blocks(list, alloc, other),
            }
        }
        Statement::Case { arms, other, .. } => {
            push_arms(list, alloc, arms)?;
            match other {
                None => Ok(()),
                Some(other) => push_blocks(list, alloc, other),
            }
        }
        Statement::Sequence { scope, parts, .. } => {
            push_scope(list, alloc, scope, parts)?;
            push_sequence(list, alloc, parts)
        }
        Statement::For { body, .. } => push_blocks(list, alloc, body),
    }
}

/// Those of these statements.
#[cycle(blocks)]
fn push_sequence<'a>(
    list: &mut Vec<Local<'a>>,
    alloc: Global,
    parts: &'a [Statement],
) -> Result<(), AllocError>
    ensures { OnOk result (map local list.new.items ≡ map local list.old.items ++ spec.sequence_locals (view.statements parts.now)) }
{
    for s in parts {
        push_blocks(list, alloc, s)?;
    }
    Ok(())
}

/// Those of the arms of a case.
#[cycle(blocks)]
fn push_arms<'a>(
    list: &mut Vec<Local<'a>>,
    alloc: Global,
    arms: &'a [CaseArm],
) -> Result<(), AllocError>
    ensures { OnOk result (map local list.new.items ≡ map local list.old.items ++ spec.arms_locals (view.arms arms.now)) }
{
    for arm in arms {
        push_blocks(list, alloc, &arm.statement)?;
    }
    Ok(())
}

/// The result of a function, which has its name (10.4.2).
pub(crate) fn result_local<'a>(f: &'a Function) -> Local<'a>
    ensures { local result ≡ spec.result_local (view.function f.now) }
{
    Local {
        name: &f.name,
        value_type: &f.value_type,
    }
}

/// The inputs of a function.
pub(crate) fn input_locals<'a>(alloc: Global, f: &'a Function) -> Result<Vec<Local<'a>>, AllocError>
    ensures { IfOk result (λ list. map local list.items ≡ flat_map statements.locals_of (view.function f.now).inputs) }
{
    let mut list = Vec::new(alloc);
    push_declarations(&mut list, &f.inputs)?;
    Ok(list)
}

/// What a function declares in its own name space: its result, its inputs, its variables and its integers.
fn declared_locals<'a>(alloc: Global, f: &'a Function) -> Result<Vec<Local<'a>>, AllocError>
    ensures { IfOk result (λ list. map local list.items ≡ spec.declared_locals (view.function f.now)) }
{
    let mut list = Vec::new(alloc);
    list.push(result_local(f))?;
    push_declarations(&mut list, &f.inputs)?;
    push_declarations(&mut list, &f.variables)?;
    Ok(list)
}

/// The variables of a function's own name space.
fn push_own<'a>(list: &mut Vec<Local<'a>>, alloc: Global, f: &'a Function) -> Result<(), AllocError>
    ensures { OnOk result (map local list.new.items ≡ map local list.old.items ++ spec.variables_of (is_variable_in (view.function f.now).statement) (flat_map statements.locals_of (view.function f.now).variables)) }
{
    let mut all = Vec::new(alloc);
    push_declarations(&mut all, &f.variables)?;
    push_used_in(list, all.as_slice(), &f.statement)
}

/// The variables of a function and of the named blocks in it.
pub(crate) fn own_locals<'a>(alloc: Global, f: &'a Function) -> Result<Vec<Local<'a>>, AllocError>
    ensures { IfOk result (λ list. map local list.items ≡ spec.own_locals (view.function f.now)) }
{
    let mut list = Vec::new(alloc);
    push_own(&mut list, alloc, f)?;
    push_blocks(&mut list, alloc, &f.statement)?;
    Ok(list)
}

/// Where each name of a function's own is declared first, and the first declaration of a name that was declared before.
#[derive(Drop)]
pub(crate) struct OwnNames<'a> {
    pub(crate) places: NameMap<'a, u32>,
    pub(crate) fault: Option<Fault>,
}

/// One more name, and its fault if it is one too many.
fn add_name<'a>(places: &mut NameMap<'a, u32>, v: &Local<'a>) -> Result<Option<Fault>, AllocError>
    ensures places { OnOk result ((before : List statements.Local) → ArePlaces places.old before → ArePlaces places.new (before ++ local v.now ∷ [])) }
    ensures fault { IfOk result (λ f. (before : List statements.Local) → ArePlaces places.old before → f ≡ least (later_faults before (local v.now ∷ []))) }
{
    let name = v.name.text.as_slice();
    if places.get(name).is_some() {
        return Ok(fault_at(Rule::DuplicateName, v.name.place));
    }
    places.put(name, v.name.place)?;
    Ok(None)
}

/// The name space of a function that declares these.
fn own_names<'a>(alloc: Global, all: &[Local<'a>]) -> Result<OwnNames<'a>, AllocError>
    ensures places { IfOk result (λ r. (name : List ℕ) → value_at name (pairs r.places) ≡ place_of (map local all.now) name) }
    ensures fault { IfOk result (λ r. r.fault ≡ least (statements.repeated_locals [] (map local all.now))) }
{
    let mut places = NameMap::new(alloc);
    let mut fault = None;
    for v in all {
        let found = add_name(&mut places, v)?;
        fault = first_of(fault, found);
    }
    Ok(OwnNames { places, fault })
}

/// One name more, by where it is declared: of two of one name the first.
fn add_place<'a>(places: &mut NameMap<'a, Place>, v: &Local<'a>) -> Result<(), AllocError>
    ensures { OnOk result ((before : List statements.Local) → AreDeclared places.old before → AreDeclared places.new (before ++ local v.now ∷ [])) }
{
    let name = v.name.text.as_slice();
    if places.get(name).is_some() {
        return Ok(());
    }
    let place = Place {
        place: v.name.place,
    };
    places.put(name, place)?;
    Ok(())
}

/// Where each of these names is declared: of two of one name the first.
fn places_of<'a>(alloc: Global, all: &[Local<'a>]) -> Result<NameMap<'a, Place>, AllocError>
    ensures { IfOk result (λ m. AreDeclared m (map local all.now)) }
{
    let mut places = NameMap::new(alloc);
    for v in all {
        add_place(&mut places, v)?;
    }
    Ok(places)
}

/// The name space of this function, by where each name is declared.
pub(crate) fn own_places<'a>(
    alloc: Global,
    f: &'a Function,
) -> Result<NameMap<'a, Place>, AllocError>
    ensures { IfOk result (λ m. AreDeclared m (spec.declared_locals (view.function f.now))) }
{
    let all = declared_locals(alloc, f)?;
    places_of(alloc, all.as_slice())
}

/// The name space of this function.
pub(crate) fn names_of<'a>(alloc: Global, f: &'a Function) -> Result<OwnNames<'a>, AllocError>
    ensures places { IfOk result (λ r. (name : List ℕ) → value_at name (pairs r.places) ≡ place_of (spec.declared_locals (view.function f.now)) name) }
    ensures fault { IfOk result (λ r. r.fault ≡ least (statements.repeated_locals [] (spec.declared_locals (view.function f.now)))) }
{
    let all = declared_locals(alloc, f)?;
    own_names(alloc, all.as_slice())
}

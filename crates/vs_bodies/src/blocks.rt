//! What named blocks declare (IEEE 1364-2005, 9.8.2).

ghost use Rattle.std.specs.Prelude.{◌≡◌, ◌∷◌, ◌++◌, ◌||◌, [], List, IfOk, OnOk, Some, map};
ghost use Rattle.vs_ast.specs.Views as view;
ghost use Rattle.vs_const.specs.Faults.{least};
ghost use Rattle.vs_elaborated.specs.Statements as spec;
ghost use Rattle.vs_bodies.specs.Layers.{AreLocals};
ghost use Rattle.vs_bodies.specs.Locals.{local, locals, later_faults};

use crate::layers::Local;
use std::alloc::{AllocError, Global};
use vs_ast::{BlockScope, Name, ValueType, Variables};
use vs_const::{Fault, Rule, fault_at, first_of};
use vs_maps::NameMap;

/// The variables and integers of a named block, and the first rule that their declarations break.
#[derive(Drop)]
pub struct Block<'a> {
    pub locals: NameMap<'a, Local>,
    pub fault: Option<Fault>,
}

/// Whether it declares integers (4.8).
fn is_integer(t: &ValueType) -> bool
    ensures { (n : Name) → result ≡ spec.is_integer (local (view.value_type t.now) n) }
{
    matches!(t, ValueType::Integer)
}

/// One more name, and its fault if it is one too many.
fn add_local<'a>(map: &mut NameMap<'a, Local>, n: &'a Name) -> Result<Option<Fault>, AllocError>
    ensures locals { OnOk result ((before : List spec.Local) (v : spec.Local) → v.name ≡ view.name n.now → AreLocals map.old before → AreLocals map.new (before ++ v ∷ [])) }
    ensures fault { IfOk result (λ f. (before : List spec.Local) (v : spec.Local) → v.name ≡ view.name n.now → AreLocals map.old before → f ≡ least (later_faults before (v ∷ []))) }
{
    let name = n.text.as_slice();
    if map.get(name).is_some() {
        return Ok(fault_at(Rule::DuplicateName, n.place));
    }
    map.put(name, Local { place: n.place })?;
    Ok(None)
}

/// All names of one declaration more, and the first fault of those that are too many.
fn add_variables<'a>(
    map: &mut NameMap<'a, Local>,
    v: &'a Variables,
) -> Result<Option<Fault>, AllocError>
    ensures locals { OnOk result ((before : List spec.Local) → AreLocals map.old before → AreLocals map.new (before ++ locals v.now)) }
    ensures fault { IfOk result (λ f. (before : List spec.Local) → AreLocals map.old before → f ≡ least (later_faults before (locals v.now))) }
{
    let mut fault = None;
    for n in &v.names {
        let found = add_local(map, n)?;
        fault = first_of(fault, found);
    }
    Ok(fault)
}

/// Whether all are taken: in an initial block integers alone are.
fn are_taken(takes_variables: bool, integers: bool) -> bool
    ensures { result ≡ (takes_variables || integers) }
{
    takes_variables || integers
}

/// The first variable of a declaration where none is taken.
fn untaken_variable(takes_variables: bool, v: &Variables) -> Option<Fault>
    ensures { result ≡ least (spec.untaken_locals takes_variables (locals v.now)) }
{
    let integers = is_integer(&v.value_type);
    if are_taken(takes_variables, integers) {
        return None;
    }
    let mut fault = None;
    for n in &v.names {
        let found = fault_at(Rule::WrongKind, n.place);
        fault = first_of(fault, found);
    }
    fault
}

/// What a named block declares: of two of one name the first.
pub fn block_of<'a>(
    alloc: Global,
    scope: &'a BlockScope,
    takes_variables: bool,
) -> Result<Block<'a>, AllocError>
    ensures locals { IfOk result (λ b. AreLocals b.locals (spec.scope_locals (Some (view.block_scope scope.now)))) }
    ensures fault { IfOk result (λ b. b.fault ≡ least (spec.repeated_locals [] (spec.scope_locals (Some (view.block_scope scope.now))) ++ spec.untaken_locals takes_variables (spec.scope_locals (Some (view.block_scope scope.now))))) }
{
    let mut map = NameMap::new(alloc);
    let mut repeated = None;
    let mut untaken = None;
    for v in &scope.variables {
        let found = add_variables(&mut map, v)?;
        repeated = first_of(repeated, found);
        untaken = first_of(untaken, untaken_variable(takes_variables, v));
    }
    Ok(Block {
        locals: map,
        fault: first_of(repeated, untaken),
    })
}

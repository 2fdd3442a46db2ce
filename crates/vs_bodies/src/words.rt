//! The memories of which words are written (IEEE 1364-2005, 4.9): a body that isn't clocked writes none.

ghost use Rattle.std.specs.Prelude.{◌≡◌};
ghost use Rattle.vs_ast.specs.Views as view;
ghost use Rattle.vs_const.specs.Faults.{least};
ghost use Rattle.vs_elaborated.specs.Statements as spec;

use vs_ast::{Name, Target};
use vs_const::{Env, Fault, Named, Rule, fault_at, first_of};

/// The rule that a memory's name breaks.
fn memory_fault<E: Env>(name: &Name, env: &E) -> Option<Fault>
    ensures { result ≡ least (spec.memory_faults name.now.place (E.names env.now name.now.text)) }
{
    match env.find(name.text.as_slice()) {
        Named::Memory(_) => fault_at(Rule::WrongKind, name.place),
        _ => None,
    }
}

/// The first memory of which a target is a word.
#[cycle(targets)]
fn target_memory<E: Env>(t: &Target, env: &E) -> Option<Fault>
    ensures { result ≡ least (spec.target_memories (view.target t.now) (E.names env.now)) }
{
    match t {
        Target::Named(name, _) => memory_fault(name, env),
        Target::Concatenation { parts, .. } => targets_memory(parts, env),
    }
}

/// The first memory of which a part of a target is a word.
#[cycle(targets)]
fn targets_memory<E: Env>(list: &[Target], env: &E) -> Option<Fault>
    ensures { result ≡ least (spec.targets_memories (view.targets list.now) (E.names env.now)) }
{
    let mut fault = None;
    for part in list {
        let found = target_memory(part, env);
        fault = first_of(fault, found);
    }
    fault
}

/// The first memory of which a target is a word that may not be written there.
pub(crate) fn word_fault<E: Env>(clocked: bool, t: &Target, env: &E) -> Option<Fault>
    ensures { result ≡ least (spec.word_faults clocked (view.target t.now) (E.names env.now)) }
{
    if clocked { None } else { target_memory(t, env) }
}

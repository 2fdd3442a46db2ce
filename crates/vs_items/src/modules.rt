//! The modules of a text by their names (IEEE 1364-2005, 12.1).

ghost use Rattle.std.specs.Prelude.{◌≡◌, [], Option, IfOk};
ghost use Rattle.vs_grammar.specs.Trees as tree;
ghost use Rattle.vs_ast.specs.Views as view;
ghost use Rattle.vs_const.specs.Faults.{least};
ghost use Rattle.vs_elaborated.specs.Ports.{find_module};
ghost use Rattle.vs_elaborated.specs.Elaborated.{repeated_modules};
ghost use Rattle.vs_items.specs.Interfaces.{IsKnown};
ghost use Rattle.vs_items.specs.Modules.{AreOf};

use crate::interfaces::{Interface, seen_of};
use crate::noted::note;
use std::alloc::{AllocError, Global};
use vs_ast::{Module, Name, Source};
use vs_const::{Fault, Rule, fault_if, first_of};
use vs_maps::NameMap;

/// A module of a text, and what its instances see of it.
#[derive(Drop)]
pub struct Known<'a> {
    pub of: &'a Module,
    pub seen: Interface<'a>,
}

/// The modules of a text by their names, of several of one name the first, and the fault of a name that comes a second time.
#[derive(Drop)]
pub struct Modules<'a> {
    pub by_name: NameMap<'a, Known<'a>>,
    /// `DuplicateModule`, at the name of the first module that has the name of an earlier one.
    pub repeated: Option<Fault>,
}

/// The modules of a text by their names, each with what its instances see of it. An error is want of memory.
pub fn modules_of(alloc: Global, source: &Source) -> Result<Modules<'_>, AllocError>
    ensures by_name { IfOk result (λ m. AreOf m.by_name (view.source source.now)) }
    ensures repeated { IfOk result (λ m. m.repeated ≡ least (repeated_modules [] (view.source source.now).modules)) }
{
    let mut by_name = NameMap::new(alloc);
    let mut repeated = None;
    for of in &source.modules {
        let seen = seen_of(alloc, of)?;
        let had = note(&mut by_name, of.name.text.as_slice(), Known { of, seen })?;
        repeated = first_of(
            repeated,
            fault_if(had, Rule::DuplicateModule, of.name.place),
        );
    }
    Ok(Modules { by_name, repeated })
}

/// What is known of the module of this name, if the text has it.
pub(crate) fn seen_by<'f, 'a>(
    modules: &'f NameMap<'a, Known<'a>>,
    name: &Name,
) -> Option<&'f Interface<'a>>
    ensures { (source : tree.Source) → AreOf modules.now source → IsKnown result (find_module source (view.name name.now).bytes) }
{
    match modules.get(name.text.as_slice()) {
        None => None,
        Some(k) => Some(&k.seen),
    }
}

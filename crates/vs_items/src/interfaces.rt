//! What an instance sees of its module: ports, and parameters that may be overridden (IEEE 1364-2005, 12.2 and 12.3).

ghost use Rattle.std.specs.Prelude.{◌≡◌, ℕ, List, Option, IfOk, map};
ghost use Rattle.vs_grammar.specs.Trees as tree;
ghost use Rattle.vs_ast.specs.Views as view;
ghost use Rattle.vs_elaborated.specs.Instances as spec;
ghost use Rattle.vs_maps.specs.MapViews.{pairs};
ghost use Rattle.vs_items.specs.Connected.{is_known};
ghost use Rattle.vs_items.specs.Noted.{AreFirst};
ghost use Rattle.vs_items.specs.Ports.{name_bytes, name_only};
ghost use Rattle.vs_items.specs.Interfaces.{IsInterface, IsKnown};

use crate::noted::note;
use crate::ports::{Ports, overridable, port_table};
use std::alloc::{AllocError, Global};
use vs_ast::Module;
use vs_maps::NameMap;

/// What an instance sees of its module: the ports, and the parameters that it may override. `modules_of` makes it.
#[derive(Drop)]
pub struct Interface<'a> {
    pub(crate) ports: Ports<'a>,
    /// The parameters that may be overridden, in the order of the text, and their names once each.
    pub(crate) parameters: Vec<&'a [u8]>,
    pub(crate) names: NameMap<'a, ()>,
}

/// These names, once each.
fn name_set<'a>(alloc: Global, list: &[&'a [u8]]) -> Result<NameMap<'a, ()>, AllocError>
    ensures { IfOk result (λ m. AreFirst (pairs m) (map name_only (map name_bytes list.now))) }
{
    let mut names = NameMap::new(alloc);
    for name in list {
        note(&mut names, *name, ())?;
    }
    Ok(names)
}

/// What an instance of a module sees of it.
pub(crate) fn seen_of<'a>(alloc: Global, of: &'a Module) -> Result<Interface<'a>, AllocError>
    ensures { IfOk result (λ i. IsInterface i (view.module_tree of.now)) }
{
    let ports = port_table(alloc, of)?;
    let parameters = overridable(alloc, of)?;
    let names = name_set(alloc, &parameters)?;
    Ok(Interface {
        ports,
        parameters,
        names,
    })
}

/// Whether there are more overrides by order than parameters.
pub(crate) fn has_too_many(known: Option<&Interface<'_>>, count: usize) -> bool
    ensures { (m : Option tree.Module) → IsKnown known.entry m → result ≡ spec.has_too_many m count }
{
    match known {
        None => false,
        Some(i) => i.parameters.len() < count,
    }
}

/// The names of the parameters that may be overridden, if anything is known of the module.
pub(crate) fn parameter_names<'f, 'a>(
    known: Option<&'f Interface<'a>>,
) -> Option<&'f NameMap<'a, ()>>
    ensures { (m : Option tree.Module) → IsKnown known.entry m → (name : List ℕ) → is_known result name ≡ spec.is_overridable m name }
{
    match known {
        None => None,
        Some(i) => Some(&i.names),
    }
}

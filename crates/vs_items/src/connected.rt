//! The names of connections and overrides (IEEE 1364-2005, 12.2.2.2 and 12.3.6).

ghost use Rattle.std.specs.Prelude.{◌≡◌, ◌++◌, [], ◌∷◌, List, IfOk, map, None};
ghost use Rattle.vs_grammar.specs.Trees as tree;
ghost use Rattle.vs_ast.specs.Views as view;
ghost use Rattle.vs_const.specs.Faults.{least};
ghost use Rattle.vs_elaborated.specs.Instances.{connected_names};
ghost use Rattle.vs_items.specs.Connected.{is_known, name_faults};
ghost use Rattle.vs_items.specs.Connections.{AreApart};

use crate::noted::note;
use std::alloc::{AllocError, Global};
use vs_ast::{Name, NamedConnection};
use vs_const::{Fault, Rule, fault_at, fault_if, first_of};
use vs_maps::NameMap;

/// Whether a name may be connected: it is one of these, or all are where nothing is known of them.
fn is_known<V: Drop>(known: Option<&NameMap<'_, V>>, name: &[u8]) -> bool
    ensures { result ≡ is_known known.entry name.now }
{
    match known {
        None => true,
        Some(names) => names.get(name).is_some(),
    }
}

/// What is wrong with a name that is connected: it is so again, or it isn't known.
fn wrong_name<V: Drop>(known: Option<&NameMap<'_, V>>, again: bool, name: &Name) -> Option<Fault>
    ensures { result ≡ least (name_faults (is_known known.entry) again (view.name name.now)) }
{
    if again {
        fault_at(Rule::DuplicateName, name.place)
    } else {
        fault_if(
            !is_known(known, name.text.as_slice()),
            Rule::UnknownPort,
            name.place,
        )
    }
}

/// The first name that is connected a second time, or that isn't known. Where there is none, no name is connected twice.
pub(crate) fn name_fault<V: Drop>(
    alloc: Global,
    known: Option<&NameMap<'_, V>>,
    connections: &[NamedConnection],
) -> Result<Option<Fault>, AllocError>
    ensures first { IfOk result (λ f. f ≡ least (connected_names (is_known known.entry) [] (map view.named_connection connections.now))) }
    ensures apart { IfOk result (λ f. f ≡ None → AreApart (map view.named_connection connections.now)) }
{
    let mut seen = NameMap::new(alloc);
    let mut fault = None;
    for connection in connections {
        let name = connection.name.text.as_slice();
        let again = note(&mut seen, name, ())?;
        fault = first_of(fault, wrong_name(known, again, &connection.name));
    }
    Ok(fault)
}

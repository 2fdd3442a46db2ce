//! The declarations of a scope in the order of the text (IEEE 1364-2005, 12.7).

ghost use Rattle.std.specs.Prelude.{◌≡◌, ◌∷◌, ◌++◌, [], true, OnOk, IfOk, map, flat_map};
ghost use Rattle.vs_ast.specs.Views as view;
ghost use Rattle.vs_elaborated.specs.Declarations as spec;
ghost use Rattle.vs_elaborated.specs.Uses.{is_variable_of};
ghost use Rattle.vs_scope.specs.Views.{declaration, sort};
ghost use Rattle.vs_scope.specs.Contents.{contents_declared, contents_items};
ghost use Rattle.vs_scope.specs.Declares.{genvar_declared, integer_declared, function_declared, instance_declared};

use crate::contents::{BlockItems, Contents};
use crate::integers::is_variable;
use crate::names::{Declaration, Sort};
use std::alloc::{AllocError, Global};
use vs_ast::{Function, Header, Instances, Item, Module, Name, Parameters, Signals};

/// All names of one declaration of signals.
fn collect_signals<'a>(
    list: &mut Vec<Declaration<'a>>,
    header: bool,
    signals: &'a Signals,
) -> Result<(), AllocError>
    ensures { OnOk result (map declaration list.new.items ≡ map declaration list.old.items ++ spec.signals_declared header (view.signals signals.now)) }
{
    for d in &signals.names {
        let sort = Sort::Signal {
            signals,
            addresses: &d.addresses,
            header,
        };
        list.push(Declaration {
            name: &d.name,
            sort,
        })?;
    }
    Ok(())
}

/// All names of one declaration of parameters.
fn collect_parameters<'a>(
    list: &mut Vec<Declaration<'a>>,
    parameters: &'a Parameters,
) -> Result<(), AllocError>
    ensures { OnOk result (map declaration list.new.items ≡ map declaration list.old.items ++ spec.parameters_declared (view.parameters parameters.now)) }
{
    for s in &parameters.settings {
        let sort = Sort::Parameter {
            parameters,
            value: &s.value,
        };
        list.push(Declaration {
            name: &s.name,
            sort,
        })?;
    }
    Ok(())
}

/// The genvars of an item.
fn collect_genvars<'a>(list: &mut Vec<Declaration<'a>>, names: &'a [Name]) -> Result<(), AllocError>
    ensures { OnOk result (map declaration list.new.items ≡ map declaration list.old.items ++ map genvar_declared (map view.name names.now)) }
{
    for name in names {
        list.push(Declaration {
            name,
            sort: Sort::Genvar,
        })?;
    }
    Ok(())
}

/// An integer of a scope: a variable, or one that heads loops.
fn integer_sort<'a>(name: &Name, contents: Contents<'_>) -> Sort<'a>
    ensures { sort result ≡ spec.integer_sort (is_variable_of (contents_items contents.entry) (view.name name.now).bytes) }
{
    if is_variable(name.text.as_slice(), contents) {
        Sort::Variable
    } else {
        Sort::Integer
    }
}

/// The integers of an item (4.8).
fn collect_integers<'a>(
    list: &mut Vec<Declaration<'a>>,
    contents: Contents<'a>,
    names: &'a [Name],
) -> Result<(), AllocError>
    ensures { OnOk result (map declaration list.new.items ≡ map declaration list.old.items ++ map (integer_declared (is_variable_of (contents_items contents.entry))) (map view.name names.now)) }
{
    for name in names {
        let sort = integer_sort(name, contents);
        list.push(Declaration { name, sort })?;
    }
    Ok(())
}

/// A function.
fn collect_function<'a>(
    list: &mut Vec<Declaration<'a>>,
    function: &'a Function,
) -> Result<(), AllocError>
    ensures { OnOk result (map declaration list.new.items ≡ map declaration list.old.items ++ function_declared (view.function function.now) ∷ []) }
{
    list.push(Declaration {
        name: &function.name,
        sort: Sort::Function(function),
    })?;
    Ok(())
}

/// The instances of an item.
fn collect_instances<'a>(
    list: &mut Vec<Declaration<'a>>,
    instances: &'a Instances,
) -> Result<(), AllocError>
    ensures { OnOk result (map declaration list.new.items ≡ map declaration list.old.items ++ map instance_declared (view.instances instances.now).instances) }
{
    for i in &instances.instances {
        list.push(Declaration {
            name: &i.name,
            sort: Sort::Scope,
        })?;
    }
    Ok(())
}

/// The names that an item declares in its scope.
fn collect_item<'a>(
    list: &mut Vec<Declaration<'a>>,
    contents: Contents<'a>,
    item: &'a Item,
) -> Result<(), AllocError>
    ensures { OnOk result (map declaration list.new.items ≡ map declaration list.old.items ++ spec.item_declared (is_variable_of (contents_items contents.entry)) (view.item item.now)) }
{
    match item {
        Item::Signals(s) => collect_signals(list, false, s),
        Item::Parameters(p) => collect_parameters(list, p),
        Item::Genvars { names, .. } => collect_genvars(list, names),
        Item::Integers { names, .. } => collect_integers(list, contents, names),
        Item::Function(f) => collect_function(list, f),
        Item::Instances(i) => collect_instances(list, i),
        _ => Ok(()),
    }
}

/// The names that items of a scope declare.
fn collect_items<'a>(
    list: &mut Vec<Declaration<'a>>,
    contents: Contents<'a>,
    items: &'a [Item],
) -> Result<(), AllocError>
    ensures { OnOk result (map declaration list.new.items ≡ map declaration list.old.items ++ flat_map (spec.item_declared (is_variable_of (contents_items contents.entry))) (map view.item items.now)) }
{
    for item in items {
        collect_item(list, contents, item)?;
    }
    Ok(())
}

/// The parameters of a module's header.
fn collect_header_parameters<'a>(
    list: &mut Vec<Declaration<'a>>,
    all: &'a [Parameters],
) -> Result<(), AllocError>
    ensures { OnOk result (map declaration list.new.items ≡ map declaration list.old.items ++ flat_map spec.parameters_declared (map view.parameters all.now)) }
{
    for p in all {
        collect_parameters(list, p)?;
    }
    Ok(())
}

/// The ports that a header declares with their directions.
fn collect_ports<'a>(list: &mut Vec<Declaration<'a>>, all: &'a [Signals]) -> Result<(), AllocError>
    ensures { OnOk result (map declaration list.new.items ≡ map declaration list.old.items ++ flat_map (spec.signals_declared true) (map view.signals all.now)) }
{
    for s in all {
        collect_signals(list, true, s)?;
    }
    Ok(())
}

/// The names that a header declares (12.3.4).
fn collect_header<'a>(list: &mut Vec<Declaration<'a>>, header: &'a Header) -> Result<(), AllocError>
    ensures { OnOk result (map declaration list.new.items ≡ map declaration list.old.items ++ spec.header_declared (view.header header.now)) }
{
    match header {
        Header::Declared(ports) => collect_ports(list, ports),
        _ => Ok(()),
    }
}

/// A module's declarations.
fn collect_module<'a>(list: &mut Vec<Declaration<'a>>, whole: &'a Module) -> Result<(), AllocError>
    ensures { OnOk result (map declaration list.new.items ≡ map declaration list.old.items ++ spec.module_declared (view.module_tree whole.now)) }
{
    collect_header_parameters(list, &whole.parameters)?;
    collect_header(list, &whole.header)?;
    collect_items(list, Contents::Module(whole), &whole.items)?;
    Ok(())
}

/// The declarations of a scope.
pub(crate) fn collect<'a>(
    alloc: Global,
    contents: Contents<'a>,
) -> Result<Vec<Declaration<'a>>, AllocError>
    ensures { IfOk result (λ list. map declaration list.items ≡ contents_declared contents.entry) }
{
    let mut list = Vec::new(alloc);
    match contents {
        Contents::Module(whole) => collect_module(&mut list, whole)?,
        Contents::Block(BlockItems::One(item)) => collect_item(&mut list, contents, item)?,
        Contents::Block(BlockItems::Many(items)) => collect_items(&mut list, contents, items)?,
    }
    Ok(list)
}

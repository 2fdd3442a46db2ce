//! The outputs of a text's top.

ghost use Rattle.std.specs.Prelude.{◌≡◌, ◌++◌, IfOk, OnOk, map, flat_map, option_map};
ghost use Rattle.vs_ast.specs.Views as view;
ghost use Rattle.vs_elaborated.specs.Ports.{find_in};
ghost use Rattle.vs_tops.specs.Designs.{named_module};
ghost use Rattle.vs_accept.specs.Outputs.{is_output, names_in, outputs_in, item_outputs, header_outputs, module_outputs, named_outputs};

use std::alloc::{AllocError, Global};
use vs_ast::{Declarator, Header, Item, Module, SignalKind, Signals, Source};
use vs_base::Text;
use vs_clock::are_same;

/// Whether it declares an output port.
fn is_output(kind: SignalKind) -> bool
    ensures { result ≡ is_output (view.signal_kind kind) }
{
    match kind {
        SignalKind::Output | SignalKind::OutputWire | SignalKind::OutputReg => true,
        SignalKind::Input | SignalKind::InputWire | SignalKind::Reg | SignalKind::Wire => false,
    }
}

/// Adds the names of declarators.
fn push_names(
    alloc: Global,
    names: &mut Vec<Text>,
    declarators: &[Declarator],
) -> Result<(), AllocError>
    ensures { OnOk result (names.new.items ≡ names.old.items ++ names_in (map view.declarator declarators.now)) }
{
    for declarator in declarators {
        let bytes = declarator.name.text.as_slice().to_vec(alloc)?;
        names.push(Text::of(bytes))?;
    }
    Ok(())
}

/// Adds the names of a declaration, if it is one of outputs.
fn push_outputs(alloc: Global, names: &mut Vec<Text>, signals: &Signals) -> Result<(), AllocError>
    ensures { OnOk result (names.new.items ≡ names.old.items ++ outputs_in (view.signals signals.now)) }
{
    if is_output(signals.kind) {
        push_names(alloc, names, &signals.names)
    } else {
        Ok(())
    }
}

/// Adds the outputs that a header declares.
fn push_declared(
    alloc: Global,
    names: &mut Vec<Text>,
    declarations: &[Signals],
) -> Result<(), AllocError>
    ensures { OnOk result (names.new.items ≡ names.old.items ++ flat_map outputs_in (map view.signals declarations.now)) }
{
    for signals in declarations {
        push_outputs(alloc, names, signals)?;
    }
    Ok(())
}

/// Adds the outputs of a header.
fn push_header(alloc: Global, names: &mut Vec<Text>, header: &Header) -> Result<(), AllocError>
    ensures { OnOk result (names.new.items ≡ names.old.items ++ header_outputs (view.header header.now)) }
{
    match header {
        Header::Declared(declarations) => push_declared(alloc, names, declarations),
        Header::NoPorts | Header::Plain(_) => Ok(()),
    }
}

/// Adds the outputs that an item declares.
fn push_item(alloc: Global, names: &mut Vec<Text>, item: &Item) -> Result<(), AllocError>
    ensures { OnOk result (names.new.items ≡ names.old.items ++ item_outputs (view.item item.now)) }
{
    match item {
        Item::Signals(signals) => push_outputs(alloc, names, signals),
        _ => Ok(()),
    }
}

/// Adds the outputs that items declare.
fn push_body(alloc: Global, names: &mut Vec<Text>, items: &[Item]) -> Result<(), AllocError>
    ensures { OnOk result (names.new.items ≡ names.old.items ++ flat_map item_outputs (map view.item items.now)) }
{
    for item in items {
        push_item(alloc, names, item)?;
    }
    Ok(())
}

/// The names of a module's outputs.
fn module_outputs(alloc: Global, of: &Module) -> Result<Vec<Text>, AllocError>
    ensures { IfOk result (λ names. names.items ≡ module_outputs (view.module_tree of.now)) }
{
    let mut names = Vec::new(alloc);
    push_header(alloc, &mut names, &of.header)?;
    push_body(alloc, &mut names, &of.items)?;
    Ok(names)
}

/// The first module of this name, if there is one.
fn find_module<'a>(modules: &'a [Module], name: &[u8]) -> Option<&'a Module>
    ensures { option_map (λ m. view.module_tree m.now) result ≡ find_in (map view.module_tree modules.now) name.now }
{
    for candidate in modules {
        if are_same(candidate.name.text.as_slice(), name) {
            return Some(candidate);
        }
    }
    None
}

/// The module of this name, if there is a name, and a module of it.
fn named_module<'a>(source: &'a Source, name: Option<&[u8]>) -> Option<&'a Module>
    ensures { option_map (λ m. view.module_tree m.now) result ≡ named_module (view.source source.now) (option_map (λ n. n.now) name.entry) }
{
    match name {
        Some(name) => find_module(&source.modules, name),
        None => None,
    }
}

/// The names of the outputs of the module of this name; none where there is no such module.
pub(crate) fn named_outputs(
    alloc: Global,
    source: &Source,
    name: Option<&[u8]>,
) -> Result<Vec<Text>, AllocError>
    ensures { IfOk result (λ names. names.items ≡ named_outputs (view.source source.now) (option_map (λ n. n.now) name.entry)) }
{
    match named_module(source, name) {
        Some(of) => module_outputs(alloc, of),
        None => Ok(Vec::new(alloc)),
    }
}

//! What is still to be read of a text: the parts of scopes, in the order of the text (IEEE 1364-2005, 12.1 and 12.4).

ghost use Rattle.std.specs.Prelude.{◌≡◌, ◌++◌, OnOk, map, if◌then◌else◌};
ghost use Rattle.vs_grammar.specs.Trees as tree;
ghost use Rattle.vs_grammar.specs.Shapes.{Each};
ghost use Rattle.vs_ast.specs.Views as view;
ghost use Rattle.vs_elaborated.specs.Environments.{Env};
ghost use Rattle.vs_elaborated.specs.Pieces.{all_said};
ghost use Rattle.vs_elaborated.specs.Surveys as survey;
ghost use Rattle.vs_elaborated.specs.Signals as signals;
ghost use Rattle.vs_elaborated.specs.Instances as spec;
ghost use Rattle.vs_elab.specs.Pending.{part_pieces, parts_pieces};
ghost use Rattle.vs_elab.specs.Fine.{AreFineParts, AreFineSignals, IsFineAssign, IsFineDeclarator, IsFineHeader, IsFineInstance, IsFinePart, IsFineValue};

use std::alloc::AllocError;
use vs_ast::{
    AlwaysBlock, Assign, Declarator, Expr, Header, InitialBlock, Instance, Instances, Item, Name,
    SignalKind, Signals,
};
use vs_scope::{Turn, is_reg};

/// A part of a scope: a process or an initial process of its own, one whose named blocks are scopes, an instance, or a generate block. `place` is where the item begins.
#[derive(Drop)]
pub(crate) enum Part<'a> {
    /// A declared net with a value (6.1.1).
    Wire {
        place: u32,
        name: &'a Name,
        value: &'a Expr,
    },
    /// A declared variable with an initial value (6.2.1).
    Value {
        name: &'a Name,
        value: &'a Expr,
    },
    /// One assign of an item (6.1).
    Assigned {
        place: u32,
        assign: &'a Assign,
    },
    Always(&'a AlwaysBlock),
    /// An always block of whose named blocks some are scopes (9.8.2).
    Scoped(&'a AlwaysBlock),
    Initial(&'a InitialBlock),
    /// One instance of an item (12.1.2).
    Instance {
        item: &'a Instances,
        instance: &'a Instance,
    },
    /// A generate block, and the value of its loop.
    Block {
        name: Vec<u8>,
        items: &'a [Item],
        turn: Option<Turn>,
    },
}

/// The part of a name with a value, in a declaration of this kind that begins at `place`.
fn value_part<'a>(kind: SignalKind, place: u32, name: &'a Name, value: &'a Expr) -> Part<'a>
    ensures pieces { (source : tree.Source) (around : spec.Around)
        → part_pieces source around result ≡ (if signals.is_reg (view.signal_kind kind) then survey.value_said around.env (view.name name.now) (view.expr value.now) else survey.wire_said around.env place (view.name name.now) (view.expr value.now)).pieces }
    ensures fine { (source : tree.Source) (env : Env) → IsFineValue env (signals.is_reg (view.signal_kind kind)) (view.name name.now) (view.expr value.now) → IsFinePart source env result }
{
    if is_reg(kind) {
        Part::Value { name, value }
    } else {
        Part::Wire { place, name, value }
    }
}

/// Adds the part of a declared name, if it has a value.
fn push_declarator<'a>(
    parts: &mut Vec<Part<'a>>,
    kind: SignalKind,
    place: u32,
    d: &'a Declarator,
) -> Result<(), AllocError>
    ensures pieces { (source : tree.Source) (around : spec.Around)
        → OnOk result (parts_pieces source around parts.new.items ≡ parts_pieces source around parts.old.items ++ (survey.declarator_said around.env place (view.signal_kind kind) (view.declarator d.now)).pieces) }
    ensures fine { (source : tree.Source) (env : Env) → IsFineDeclarator env (view.signal_kind kind) (view.declarator d.now) → AreFineParts source env parts.old.items → OnOk result (AreFineParts source env parts.new.items) }
{
    match &d.value {
        None => Ok(()),
        Some(value) => {
            let part = value_part(kind, place, &d.name, value);
            parts.push(part)?;
            Ok(())
        }
    }
}

/// Adds the parts of the names of a declaration of this kind that begins at this place.
fn push_declarators<'a>(
    parts: &mut Vec<Part<'a>>,
    kind: SignalKind,
    place: u32,
    names: &'a [Declarator],
) -> Result<(), AllocError>
    ensures pieces { (source : tree.Source) (around : spec.Around)
        → OnOk result (parts_pieces source around parts.new.items ≡ parts_pieces source around parts.old.items ++ (all_said (survey.declarator_said around.env place (view.signal_kind kind)) (map view.declarator names.now)).pieces) }
    ensures fine { (source : tree.Source) (env : Env) → Each (IsFineDeclarator env (view.signal_kind kind)) (map view.declarator names.now) → AreFineParts source env parts.old.items → OnOk result (AreFineParts source env parts.new.items) }
{
    for d in names {
        push_declarator(parts, kind, place, d)?;
    }
    Ok(())
}

/// Adds the parts of a declaration.
pub(crate) fn push_signals<'a>(parts: &mut Vec<Part<'a>>, s: &'a Signals) -> Result<(), AllocError>
    ensures pieces { (source : tree.Source) (around : spec.Around)
        → OnOk result (parts_pieces source around parts.new.items ≡ parts_pieces source around parts.old.items ++ (survey.signals_said around.env (view.signals s.now)).pieces) }
    ensures fine { (source : tree.Source) (env : Env) → AreFineSignals env (view.signals s.now) → AreFineParts source env parts.old.items → OnOk result (AreFineParts source env parts.new.items) }
{
    push_declarators(parts, s.kind, s.place, &s.names)
}

/// Adds the parts of declarations of ports.
fn push_ports<'a>(parts: &mut Vec<Part<'a>>, ports: &'a [Signals]) -> Result<(), AllocError>
    ensures pieces { (source : tree.Source) (around : spec.Around)
        → OnOk result (parts_pieces source around parts.new.items ≡ parts_pieces source around parts.old.items ++ (all_said (survey.signals_said around.env) (map view.signals ports.now)).pieces) }
    ensures fine { (source : tree.Source) (env : Env) → Each (AreFineSignals env) (map view.signals ports.now) → AreFineParts source env parts.old.items → OnOk result (AreFineParts source env parts.new.items) }
{
    for s in ports {
        push_signals(parts, s)?;
    }
    Ok(())
}

/// Adds the parts of a header.
pub(crate) fn push_header<'a>(
    parts: &mut Vec<Part<'a>>,
    header: &'a Header,
) -> Result<(), AllocError>
    ensures pieces { (source : tree.Source) (around : spec.Around)
        → OnOk result (parts_pieces source around parts.new.items ≡ parts_pieces source around parts.old.items ++ (survey.ports_said around.env (view.header header.now)).pieces) }
    ensures fine { (source : tree.Source) (env : Env) → IsFineHeader env (view.header header.now) → AreFineParts source env parts.old.items → OnOk result (AreFineParts source env parts.new.items) }
{
    match header {
        Header::Declared(ports) => push_ports(parts, ports),
        _ => Ok(()),
    }
}

/// Adds the parts of the assigns of an item that begins at this place.
pub(crate) fn push_assigns<'a>(
    parts: &mut Vec<Part<'a>>,
    place: u32,
    assigns: &'a [Assign],
) -> Result<(), AllocError>
    ensures pieces { (source : tree.Source) (around : spec.Around)
        → OnOk result (parts_pieces source around parts.new.items ≡ parts_pieces source around parts.old.items ++ (all_said (survey.assign_said around.env place) (map view.assign assigns.now)).pieces) }
    ensures fine { (source : tree.Source) (env : Env) → Each (IsFineAssign env) (map view.assign assigns.now) → AreFineParts source env parts.old.items → OnOk result (AreFineParts source env parts.new.items) }
{
    for assign in assigns {
        parts.push(Part::Assigned { place, assign })?;
    }
    Ok(())
}

/// Adds the parts of the instances of an item.
pub(crate) fn push_instances<'a>(
    parts: &mut Vec<Part<'a>>,
    item: &'a Instances,
) -> Result<(), AllocError>
    ensures pieces { (source : tree.Source) (around : spec.Around)
        → OnOk result (parts_pieces source around parts.new.items ≡ parts_pieces source around parts.old.items ++ (spec.instances_said source around (view.instances item.now)).pieces) }
    ensures fine { (source : tree.Source) (env : Env) → Each (IsFineInstance source env (view.instances item.now)) (view.instances item.now).instances → AreFineParts source env parts.old.items → OnOk result (AreFineParts source env parts.new.items) }
{
    for instance in &item.instances {
        parts.push(Part::Instance { item, instance })?;
    }
    Ok(())
}

//! Where expressions and statements begin, and what they, processes and initial processes name.

ghost use Rattle.std.specs.Prelude.{◌≡◌, ◌<◌, ◌≤◌, length, slice_get, Some};
ghost use Rattle.vs_design.specs.Expressions as E;
ghost use Rattle.vs_flat.specs.Arena.{node_at};
ghost use Rattle.vs_typed.specs.Places.{HasKindNames};
ghost use Rattle.vs_typed.specs.Reach.{CallsFirst, node_reach, statement_reach};
ghost use Rattle.vs_shape.specs.Nodes.{HasCalls, HasNames, place_of, tree_of, tree_of_node};
ghost use Rattle.vs_shape.specs.Bodies.{HasBodyNames, HasTarget, body_of, body_of_statement, body_place};

use vs_flat::{Initial, Node, Process, Statement, calls_law, lawful_law, names_law};
use vs_shape::Shapes;

/// Where expression e begins in the text.
pub(crate) fn expression_place(shapes: &Shapes, e: u32) -> u32
    requires { e < length shapes.now.nodes }
    ensures { result ≡ place_of shapes.now e }
{
    shapes.flat().expr_at(e)
}

/// Where statement s begins in the text.
pub(crate) fn statement_place(shapes: &Shapes, s: u32) -> u32
    requires { s < length shapes.now.statements }
    ensures { result ≡ body_place shapes.now s }
{
    shapes.flat().statement_at(s)
}

/// Expression e, which calls the first functions alone: it names earlier ones, and its tree is made of theirs.
pub(crate) fn node_in(shapes: &Shapes, functions: usize, e: u32) -> &Node
    requires few { functions ≤ length shapes.now.bodies }
    requires there { e < node_reach shapes.now functions }
    ensures is { node_at shapes.now e ≡ Some result.now }
    ensures there { e < length shapes.now.nodes }
    ensures names { HasNames (length shapes.now.signals) e result.now }
    ensures calls { HasCalls shapes.now result.now }
    ensures first { CallsFirst functions result.now }
    ensures tree { tree_of shapes.now e ≡ E.At (place_of shapes.now e) (tree_of_node shapes.now result.now) }
{
    names_law();
    calls_law();
    let _ = shapes.flat();
    shapes.node(e)
}

/// Statement s, which calls the first functions alone: so do the expressions and the earlier statements that it names, and its tree is made of theirs.
pub(crate) fn statement_in(shapes: &Shapes, functions: usize, s: u32) -> &Statement
    requires few { functions ≤ length shapes.now.bodies }
    requires there { s < statement_reach shapes.now functions }
    ensures there { s < length shapes.now.statements }
    ensures names { HasBodyNames (node_reach shapes.now functions) s result.now }
    ensures target { HasTarget shapes.now result.now }
    ensures tree { body_of shapes.now s ≡ body_of_statement shapes.now (body_place shapes.now s) result.now }
{
    names_law();
    calls_law();
    let _ = shapes.flat();
    shapes.statement(s)
}

/// Process p: what it names is there, and what an assign writes is a target.
pub(crate) fn process(shapes: &Shapes, p: u32) -> &Process
    requires { p < length shapes.now.processes }
    ensures is { slice_get shapes.now.processes p ≡ Some result.now }
    ensures names { HasKindNames shapes.now result.now.kind }
{
    names_law();
    lawful_law();
    shapes.flat().process(p)
}

/// Initial process k: its statement is there.
pub(crate) fn initial(shapes: &Shapes, k: u32) -> Initial
    requires { k < length shapes.now.initials }
    ensures is { slice_get shapes.now.initials k ≡ Some result }
    ensures names { result.statement < length shapes.now.statements }
{
    names_law();
    shapes.flat().initial(k)
}

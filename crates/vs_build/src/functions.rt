//! Functions of the text (IEEE 1364-2005, 10.4).

ghost use Rattle.std.specs.Prelude.{◌≡◌, ◌<◌, None, Some, true, false, [], IsTrue, OnOk};
ghost use Rattle.vs_design.specs.Elaborated.{is_formed_header};
ghost use Rattle.vs_ast.specs.Views as view;
ghost use Rattle.vs_flat.specs.DesignOf.{header_of};
ghost use Rattle.vs_flat.specs.Lawful.{has_locals};
ghost use Rattle.vs_elaborated.specs.Statements.{typed_statement};
ghost use Rattle.vs_bodies.specs.Bodies.{body_of};
ghost use Rattle.vs_build.specs.Drafts.{and_function, home_in};
ghost use Rattle.vs_build.specs.Growth.{draft};
ghost use Rattle.vs_build.specs.Executable.{IsExecutable};

use crate::builder::Builder;
use crate::statements::statement;
use std::alloc::{AllocError, Global};
use vs_ast::Statement;
use vs_bodies::{BodyKind, Inner, Layers, Surroundings};
use vs_flat::Function;

/// Builds a function with this header, whose statement breaks no rule: in it names are those of its local signals, and the functions before it may be
/// called. Its number is the count of those. An error is want of memory; the builder is of no use then.
pub fn function<S: Surroundings>(
    builder: &mut Builder,
    alloc: Global,
    header: Function,
    s: &Statement,
    around: &S,
) -> Result<(), AllocError>
    requires outside { (draft builder.old).function ≡ None }
    requires expressions { (draft builder.old).expressions ≡ [] }
    requires statements { (draft builder.old).statements ≡ [] }
    requires locals { IsTrue (has_locals header) }
    requires header { is_formed_header (draft builder.old).design (header_of header) ≡ true }
    requires fine { IsExecutable (home_in (draft builder.old).design (Some (header_of header))) (body_of (record { in_function = true; takes_variables = true; clocked = false }) true (S.declared around.now)) (S.names around.now) (view.statement s.now) }
    ensures { OnOk result (draft builder.new ≡ and_function (draft builder.old) (header_of header) (typed_statement (view.statement s.now) (body_of (record { in_function = true; takes_variables = true; clocked = false }) true (S.declared around.now)) (S.names around.now)).statement) }
{
    builder.begin_function(header)?;
    let layers = Layers::End;
    let here = Inner {
        around: &*around,
        layers: &layers,
    };
    let kind = BodyKind {
        in_function: true,
        takes_variables: true,
        clocked: false,
    };
    statement(builder, alloc, s, kind, &here)?;
    builder.end_function()
}

//! Statements of a lawful design, with what they name.

ghost use Rattle.std.specs.Prelude.{◌≡◌, ◌<◌, Bool, length, true, Some};
ghost use Rattle.vs_design.specs.Fits.{fits_statement};
ghost use Rattle.vs_shape.specs.Bodies.{body_of, body_of_statement};
ghost use Rattle.vs_flat.specs.Arena.{statement_at};
ghost use Rattle.vs_sets.specs.Completing.{done, node_done};
ghost use Rattle.vs_sets.specs.StatementParts.{tree_with};
ghost use Rattle.vs_block.specs.Parts.{HasParts};

use vs_flat::{Statement, lawful_law, names_law, trees_law};
use vs_shape::Shapes;

/// Statement s, of which nothing is over 64 bits, and its place: it consists of expressions and earlier statements, and its tree is made of theirs.
pub(crate) fn statement_of(shapes: &Shapes, s: u32) -> (&Statement, u32)
    requires there { s < length shapes.now.statements }
    requires fits { fits_statement (body_of shapes.now s) ≡ true }
    ensures is { statement_at shapes.now s ≡ Some result.0.now }
    ensures parts { HasParts shapes.now s result.0.now }
    ensures tree { body_of shapes.now s ≡ body_of_statement shapes.now result.1 result.0.now }
    ensures done { (complete : Bool) → done complete shapes.now s ≡ tree_with shapes.now (done complete shapes.now) result.1 (node_done complete shapes.now result.0.now) }
{
    names_law();
    trees_law();
    lawful_law();
    (shapes.flat().statement(s), shapes.flat().statement_at(s))
}

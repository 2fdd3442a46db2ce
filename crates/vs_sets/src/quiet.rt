//! Whether a statement leaves x alone where all bits are x.

ghost use Rattle.std.specs.Prelude.{◌≡◌, ◌≤◌, ◌<◌, length, true, IfOk, OnOk, All};
ghost use Rattle.vs_four.specs.declared.Bit4.TheVariants.{X};
ghost use Rattle.vs_design.specs.Fits.{fits_statement};
ghost use Rattle.vs_design.specs.Sets.{only};
ghost use Rattle.vs_design.specs.Sleepers.{stays_x};
ghost use Rattle.vs_design.specs.Within.{statement_within};
ghost use Rattle.vs_sets.specs.StatementParts.{Covers, statement_of};
ghost use Rattle.vs_sets.specs.Tables.{family_of};

use crate::Set4;
use crate::bodies::run;
use crate::defaults::Defaults;
use crate::table::{are_only_x, fill};
use std::alloc::{AllocError, Global};
use vs_four::Bit4;
use vs_shape::Shapes;

/// Whether statement s, each `<=` taken as a `=`, leaves x alone in each bit that it writes where all bits are x alone: of a block this says that it is quiet. The bits are all that it writes, or more. Afterwards the table has x alone again; where memory is wanting it is left between.
pub fn leaves_x(
    alloc: Global,
    shapes: &Shapes,
    s: u32,
    bits: &[u32],
    table: &mut [Set4],
) -> Result<bool, AllocError>
    requires names { statement_within (length table.old) (statement_of shapes.now s) ≡ true }
    requires unknown { family_of table.old ≡ (λ c. only X) }
    requires within { All (λ b. b < length table.old) bits.now }
    requires there { s < length shapes.now.statements }
    requires fit { fits_statement (statement_of shapes.now s) ≡ true }
    requires covers { Covers bits.now (statement_of shapes.now s) }
    ensures stays { IfOk result (λ r. r ≡ stays_x (statement_of shapes.now s)) }
    ensures after { OnOk result (family_of table.new ≡ (λ c. only X)) }
{
    let none: [Option<u32>; 0] = [];
    let written = Defaults {
        complete: false,
        others: &none,
    };
    run(alloc, shapes, &written, s, bits, table)?;
    let unknown = are_only_x(table, bits);
    fill(table, bits, Set4::only(Bit4::X));
    Ok(unknown)
}

//! Sets of some bits in a table, one for each bit of the design.

ghost use Rattle.std.specs.Prelude.{◌≡◌, ◌<◌, length, All};
ghost use Rattle.vs_four.specs.declared.Bit4.TheVariants.{X};
ghost use Rattle.vs_design.specs.Sets.{only, union};
ghost use Rattle.vs_sets.specs.Branches.{replaced};
ghost use Rattle.vs_sets.specs.Tables.{family_of};

use vs_four::Bit4;
use vs_sets::Set4;

/// Lets each of these bits, which are different, be x too.
pub(crate) fn add_x(table: &mut [Set4], bits: &[u32])
    requires { All (λ b. b < length table.old) bits.now }
    ensures { family_of table.new ≡ replaced bits.now (λ b. union (only X) (family_of table.old b)) (family_of table.old) }
{
    for i in 0..bits.len() {
        let bit = bits[i] as usize;
        table[bit] = Set4::only(Bit4::X).union(table[bit]);
    }
}

//! Names and numbers.

ghost use Rattle.std.specs.Prelude.{◌≡◌};
ghost use Rattle.vs_grammar.specs.Shapes.{IsLiteral};
ghost use Rattle.vs_ast.specs.Views.{literal};

use vs_base::Text;
use vs_four::Bits;

/// An identifier (IEEE 1364-2005, 3.7), and where it stands.
#[derive(Drop)]
pub struct Name {
    pub text: Text,
    pub place: u32,
}

/// A number (3.5.1): its bits in two planes, where 0 is (0, 0), 1 is (1, 0), z is (0, 1) and x is (1, 1), as value and unknown. Bit 0
/// is the least significant, and no bit from `size` on is set.
#[derive(Clone, Copy, Debug)]
pub struct Literal {
    pub place: u32,
    pub value: u64,
    pub unknown: u64,
    /// The length in bits, 1 to 64.
    pub size: u32,
    pub signed: bool,
    /// Whether a size was written.
    pub sized: bool,
}

impl Literal {
    /// Its bits.
    pub fn bits(&self) -> Bits
        requires { IsLiteral (literal self.now) }
        ensures { result ≡ (literal self.now).bits }
    {
        Bits::of_planes(self.size, self.value, self.unknown)
    }
}

//! The vectors of a drive.

ghost use Rattle.std.specs.Prelude.{◌≡◌};

use std::marker::Model;
use vs_four::Bits;

/// A value for each data input of a design, the inputs of the top but the clocks, in order of declaration: what the environment drives from one fall of the clock to the next.
#[derive(Drop)]
pub struct Vector {
    values: Vec<Bits>,
}

impl Model for Vector {
    ghost use Rattle.std.specs.Prelude.{List};
    ghost use Rattle.vs_four.specs.declared.Bit4.{Bit4};

    ghost Value = { List (List Bit4) };

    ghost view = { λ v. v.values.items };
}

impl Vector {
    /// With these values.
    pub fn of(values: Vec<Bits>) -> Vector
        ensures { result ≡ values.items }
    {
        Vector { values }
    }

    /// Its values in their order.
    pub fn values(&self) -> &[Bits]
        ensures { result.now ≡ self.now }
    {
        self.values.as_slice()
    }
}

//! A set of values of one bit.

ghost use Rattle.std.specs.Prelude.{◌≡◌, ◌||◌};
ghost use Rattle.vs_four.specs.Tables.{not_bit};
ghost use Rattle.vs_design.specs.Sets.{has, none, only, known_set, any_result, any_value, union, image, image2, is_unknown_set, is_known_set, is_only_x, is_only_one};
ghost use Rattle.vs_sets.specs.BitOperators.{operator_of};

use crate::bits::{BitOperator, not};
use std::marker::Model;
use vs_four::Bit4;

/// Which of the four values a bit may have.
#[derive(Clone, Copy, PartialEq, Eq, Debug, Default)]
pub struct Set4 {
    zero: bool,
    one: bool,
    x: bool,
    z: bool,
}

impl Model for Set4 {
    ghost use Rattle.vs_design.specs.Sets as sets;

    ghost Value = { sets.Set4 };

    ghost view = { λ s. record { zero? = s.zero; one? = s.one; x? = s.x; z? = s.z } };

    ghost inverse = { λ v. record { zero = v.zero?; one = v.one?; x = v.x?; z = v.z? } };
}

impl Set4 {
    /// The set of no value.
    pub fn none() -> Set4
        ensures { result ≡ none }
    {
        Set4 {
            zero: false,
            one: false,
            x: false,
            z: false,
        }
    }

    /// The set of this value alone.
    pub fn only(bit: Bit4) -> Set4
        ensures { result ≡ only bit }
    {
        let mut set = Set4::none();
        match bit {
            Bit4::Zero => set.zero = true,
            Bit4::One => set.one = true,
            Bit4::X => set.x = true,
            Bit4::Z => set.z = true,
        }
        set
    }

    /// 0 and 1.
    pub fn known() -> Set4
        ensures { result ≡ known_set }
    {
        Set4 {
            zero: true,
            one: true,
            x: false,
            z: false,
        }
    }

    /// 0, 1 and x.
    pub fn any_result() -> Set4
        ensures { result ≡ any_result }
    {
        Set4 {
            zero: true,
            one: true,
            x: true,
            z: false,
        }
    }

    /// All four values.
    pub fn any_value() -> Set4
        ensures { result ≡ any_value }
    {
        Set4 {
            zero: true,
            one: true,
            x: true,
            z: true,
        }
    }

    /// Whether the value is in the set.
    pub fn has(self, bit: Bit4) -> bool
        ensures { result ≡ has self bit }
    {
        match bit {
            Bit4::Zero => self.zero,
            Bit4::One => self.one,
            Bit4::X => self.x,
            Bit4::Z => self.z,
        }
    }

    /// The values of both sets.
    pub fn union(self, other: Set4) -> Set4
        ensures { result ≡ union self other }
    {
        Set4 {
            zero: self.zero || other.zero,
            one: self.one || other.one,
            x: self.x || other.x,
            z: self.z || other.z,
        }
    }

    /// Whether neither 0 nor 1 is in the set.
    pub fn is_unknown(self) -> bool
        ensures { result ≡ is_unknown_set self }
    {
        !self.zero && !self.one
    }

    /// Whether neither x nor z is in the set.
    pub fn is_known(self) -> bool
        ensures { result ≡ is_known_set self }
    {
        !self.x && !self.z
    }

    /// Whether it is the set of x alone.
    pub fn is_only_x(self) -> bool
        ensures { result ≡ is_only_x self }
    {
        (!self.zero && !self.one) && (self.x && !self.z)
    }

    /// Whether it is the set of 1 alone.
    pub fn is_only_one(self) -> bool
        ensures { result ≡ is_only_one self }
    {
        (!self.zero && self.one) && (!self.x && !self.z)
    }

    /// Whether x or z is in the set.
    pub fn may_be_unknown(self) -> bool
        ensures { result ≡ (self.x? || self.z?) }
    {
        self.x || self.z
    }

    /// What `~` gives of the values of the set.
    pub(crate) fn not(self) -> Set4
        ensures { result ≡ image not_bit self }
    {
        Set4 {
            zero: self.one,
            one: self.zero,
            x: self.x || self.z,
            z: false,
        }
    }

    /// What the operator gives of this value and each of the set.
    fn image(self, operator: BitOperator, a: Bit4) -> Set4
        ensures { result ≡ image (operator_of operator a) self }
    {
        let mut set = Set4::none();
        if self.z {
            set = Set4::only(operator.apply(a, Bit4::Z));
        }
        if self.x {
            set = Set4::only(operator.apply(a, Bit4::X)).union(set);
        }
        if self.one {
            set = Set4::only(operator.apply(a, Bit4::One)).union(set);
        }
        if self.zero {
            set = Set4::only(operator.apply(a, Bit4::Zero)).union(set);
        }
        set
    }

    /// What the operator gives of a value of the first set and one of the second.
    pub(crate) fn image2(self, operator: BitOperator, other: Set4) -> Set4
        ensures { result ≡ image2 (operator_of operator) self other }
    {
        let mut set = Set4::none();
        if self.z {
            set = other.image(operator, Bit4::Z);
        }
        if self.x {
            set = other.image(operator, Bit4::X).union(set);
        }
        if self.one {
            set = other.image(operator, Bit4::One).union(set);
        }
        if self.zero {
            set = other.image(operator, Bit4::Zero).union(set);
        }
        set
    }
}

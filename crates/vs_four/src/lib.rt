//! Four-valued bits.
#![tactic(auto)]

pub mod laws;
mod lengths;
mod logic;
mod numbers;
mod planes;
mod ranges;
mod selects;
mod shifts;

pub use lengths::{cut, extend, join, top};
pub use logic::{
    and, equal, matches_x, matches_z, merge, not, or, reduce_and, reduce_or, reduce_xor, same,
    truth, xnor, xor,
};
pub use numbers::{
    add, clog2, div, integer, is_known, less, mul, neg, of_number, pow, rem, repeated, sub,
};
pub use planes::Bits;
pub use selects::{bit, part, write_bit, write_part};
pub use shifts::{shift_arith, shift_left, shift_right};

/// One bit of a signal: 0, 1, unknown or high impedance (IEEE 1364-2005, 4.1).
#[derive(Clone, Copy, PartialEq, Eq, Debug)]
pub enum Bit4 {
    Zero,
    One,
    X,
    Z,
}

/// The declared bounds of a vector, `[left:right]` (IEEE 1364-2005, 4.3).
#[derive(Clone, Copy, PartialEq, Eq, Debug)]
pub struct Range {
    pub left: u32,
    pub right: u32,
}

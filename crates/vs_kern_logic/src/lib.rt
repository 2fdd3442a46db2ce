//! The kernels of the operators that go bit by bit, of reductions, truth, equality and the matches of `case` (IEEE 1364-2005, 5.1.8 to
//! 5.1.11 and 9.5).
#![tactic(auto)]

mod bitwise;
mod calls;
mod comparisons;
mod costs;
mod gates;
mod reductions;

pub use bitwise::{and, copy, not, or, xnor, xor};
pub use calls::{run_one, run_two};
pub use comparisons::{case_equal, case_not_equal, equal, matches_x, matches_z, not_equal};
pub use costs::{Kernel, cost, room};
pub use reductions::{
    logical_and, logical_not, logical_or, reduce_and, reduce_nand, reduce_nor, reduce_or,
    reduce_xnor, reduce_xor, truth,
};

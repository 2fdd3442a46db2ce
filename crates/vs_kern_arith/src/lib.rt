//! The kernels of addition, subtraction, multiplication, negation and order (IEEE 1364-2005, 5.1.5 and 5.1.7).
#![tactic(auto)]

mod calls;
mod costs;
mod orders;
mod products;
mod sums;
mod words;

pub use calls::{run_one, run_two};
pub use costs::{Kernel, cost, room};
pub use orders::{greater, greater_equal, less, less_equal};
pub use products::mul;
pub use sums::{add, neg, sub};

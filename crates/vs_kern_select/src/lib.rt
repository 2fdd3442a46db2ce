//! The kernels of shifts, of selects and writes by a variable index, of words of memories by a variable address, of `?:` and of the join
//! of `if` (IEEE 1364-2005, 4.9.3, 5.1.12, 5.1.13, 5.2.1 and 9.4).
#![tactic(auto)]

mod calls;
mod choices;
mod costs;
mod selects;
mod shifts;
mod words;

pub use calls::{run_three, run_two};
pub use choices::{branch, choose};
pub use costs::{Addresses, Kernel, Selection, cost, room};
pub use selects::{select, write};
pub use shifts::{shift_arith, shift_left, shift_right};
pub use words::{read_word, write_word};

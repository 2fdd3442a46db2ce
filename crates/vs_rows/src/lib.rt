//! Lines and fields of a stimulus, as a reader finds them in its text.
#![tactic(auto)]

mod controls;
mod expected;
mod fields;
mod naming;
mod rows;
mod wrong;

pub use controls::{Control, wrong_control};
pub use expected::{expected_at, expected_name};
pub use fields::is_mark;
pub use naming::{BadName, NameFault, bad_name};
pub use rows::{first_unknown, header_row, row_bytes};
pub use wrong::{Wrong, wrong_field};

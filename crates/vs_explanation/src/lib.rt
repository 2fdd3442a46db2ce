//! What an answer of a run says to a person.
#![tactic(auto)]

mod ended;
mod files;
mod headers;
mod heavy;
mod located;
mod missed;
mod naming;
mod notes;
mod placed;
mod puts;
mod refused;
mod roles;
mod seen;
mod stimuli;
mod subjects;

pub use ended::{
    put_checked, put_done, put_memory, put_ordered, put_output_fault, put_read_fault, put_waves,
    put_write_fault,
};
pub use heavy::{Heavy, heaviest};
pub use missed::{Spot, find_spot, put_miss};
pub use notes::has_numbers;
pub use refused::{at_of, push_refusal};
pub use seen::Seen;
pub use stimuli::{asks_ports, refuses_fields};

//! The outside of the simulator: files and standard output as numbered places, with failed calls counted.
#![tactic(auto)]

mod calls;
mod desk;
mod failures;
mod files;
mod host;
mod laws;
mod memory;
mod place;
mod places;
mod tape;
mod tapes;

pub use desk::{Desk, Failed, Way, put_all};
pub use host::HostDesk;
pub use laws::{attach_law, fail_law, put_law, take_law};
pub use memory::MemoryDesk;
pub use places::{
    DESIGN_PLACE, FIRST_OTHER, FIRST_STIMULUS, FIRST_WAVEFORM, MOST_LANES, MOST_OTHERS,
};

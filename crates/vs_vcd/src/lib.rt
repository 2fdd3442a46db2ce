//! Value change dumps: the text of a waveform (IEEE 1364-2005, clause 18).
#![tactic(auto)]

mod codes;
mod declarations;
mod eights;
mod first;
mod fours;
mod groups;
mod joins;
mod laws;
mod line;
mod links;
mod shortest;
mod tail;
mod time;
mod values;

pub use codes::Codes;
pub use declarations::head;
pub use first::{dump_line, end_line};
pub use laws::{parts_law, share_law, shared_law, texts_law, unchanged_law};
pub use tail::Tail;
pub use time::put_time;
pub use values::{LINE_ROOM, put_bit, put_value};

//! Expressions of a design lowered to calls of kernels.
#![tactic(auto)]

mod applying;
mod arguments;
mod code;
mod environment;
mod expressions;
mod inlining;
mod joins;
mod locals;
mod names;
mod products;
mod selects;
mod shifts;
mod slots;
mod sources;
mod templates;
mod typed;
mod words;

pub use applying::applied;
pub use arguments::{pair, single, triple};
pub use code::Code;
pub use environment::{Environment, picked, place};
pub use expressions::lower;
pub use joins::appended;
pub use locals::{environment_at_call, input_bits, local_bits, local_slots, result_slots};
pub use names::{numbers, signal_bits, signal_slots};
pub use slots::{are_constant, constant_bits};
pub use templates::{Template, Templates, bounds_law};
pub use typed::own;
pub use words::{first_of_word, memory_addresses, word_width};

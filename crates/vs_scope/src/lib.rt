//! What one scope declares (IEEE 1364-2005, 4.10, 12.2 to 12.4 and 12.7): its names with what they mean, its signals, the generate blocks
//! that it makes, and the first rule that any of it breaks.
#![tactic(auto)]

mod again;
mod bits;
mod block_scopes;
mod cases;
mod clashes;
mod collect;
mod constructs;
mod contents;
mod counts;
mod declare;
mod frames;
mod functions;
mod header;
mod inside;
mod integers;
mod laws;
mod local_signals;
mod locals;
mod loops;
mod made;
mod meanings;
mod names;
mod numbers;
mod parameters;
mod places;
mod scope;
mod signals;
mod texts;
mod turns;
mod values;
mod whole;

pub use block_scopes::{
    NamedBlock, SaidBlocks, named_blocks, variables_fault, within_blocks, within_fault,
};
pub use contents::{BlockItems, Contents};
pub use counts::Counts;
pub use frames::{Frame, Turn};
pub use inside::{Inside, Locals, SaidLocals, said_locals, within_function};
pub use laws::{fair_law, shaped_law, survey_law};
pub use made::{BlockName, Made, Nested};
pub use names::{
    Declaration, Declared, Entry, Evaluated, LocalSignal, Names, Parameter, PassedInput, Signal,
    Sort,
};
pub use parameters::Override;
pub use places::{Around, View};
pub use signals::{Start, is_reg};
pub use whole::{Surveyed, survey};

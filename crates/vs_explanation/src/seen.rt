//! What was seen again of a job's files.

use crate::Heavy;
use vs_names::Drawing;
use vs_stim::Ports;

/// What was seen again of the file that an answer is about.
#[derive(Drop)]
pub struct Seen<'a> {
    /// The bytes of the file, and of a design those of all its files, as they stand in its text, without the lines of macros before them; or None where one couldn't be read.
    pub file: Option<&'a [u8]>,
    /// The bytes of `file` at which the design's further files begin, in order; none of a stimulus.
    pub starts: &'a [usize],
    /// How many bytes the lines of macros before the file have.
    pub head: u32,
    /// The design that these lines and the file elaborate to, or of a stimulus the design that it is for; None where there is none.
    pub drawing: Option<&'a Drawing>,
    /// The heaviest processes of a design that is too large, or None where none was weighed.
    pub heavy: Option<&'a [Heavy]>,
    /// The ports that stimuli name, of the design that a stimulus is for; None where they aren't asked for, or the design is refused.
    pub ports: Option<&'a Ports>,
}

//! What a lane of a check missed.
ghost use Rattle.vs_refusal.specs.Misses.{miss_fields, few_miss_fields};

use crate::refusal::{Field, Fields, Label};

/// What a lane missed first of what its stimulus wants: an output that isn't as its digits say.
#[derive(Clone, Copy, Debug)]
pub struct Miss<'a> {
    /// The lane, from 0.
    pub lane: u32,
    /// The line of the vector in the lane's stimulus, from 1.
    pub line: u64,
    /// The output: the place of its name behind `->` in the header, from 0.
    pub output: u32,
    /// The digits that are wanted, the most significant first, x and z in lower case.
    pub wanted: &'a [u8],
    /// The digits that the output has, the most significant first.
    pub got: &'a [u8],
}

impl Fields for Miss<'_> {
    ghost fields_of = { λ m. miss_fields m.lane m.line m.output };

    ghost few = { λ m. few_miss_fields m.lane m.line m.output };

    fn field(&self, n: usize) -> Option<Field> {
        let (label, value) = match n {
            0 => (Label::Lane, self.lane as u64),
            1 => (Label::Line, self.line),
            2 => (Label::Output, self.output as u64),
            _ => return None,
        };
        Some(Field { label, value })
    }
}

//! Where a part of a design begins in its text.

/// An expression or a statement, and the number of its first token in the text.
#[derive(Drop)]
pub struct Placed<T> {
    pub item: T,
    pub at: u32,
}

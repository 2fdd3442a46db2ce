//! Functions (IEEE 1364-2005, clause 10).

use crate::Signal;
use vs_base::List;

/// The header of a function (IEEE 1364-2005, 10.4.1). Its statement is added once all that is in it was.
#[derive(Drop)]
pub struct Function {
    /// The number of its item's first token in the text.
    pub at: u32,
    /// Its local signals: the inputs in order, the result, and its own variables. Their bits have numbers of their own, from 0.
    pub signals: List<Signal>,
    /// How many of them are inputs.
    pub inputs: u32,
}

/// A function that was added, and how many expressions and statements there were before it.
#[derive(Drop)]
pub struct Declared {
    pub function: Function,
    pub nodes: u32,
    pub statements: u32,
}

/// What a function does, and how many expressions and statements there were then: those of the function and all before it.
#[derive(Clone, Copy, PartialEq, Eq, Debug)]
pub struct Body {
    pub statement: u32,
    pub nodes: u32,
    pub statements: u32,
}

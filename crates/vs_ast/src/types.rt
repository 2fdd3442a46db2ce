//! Types, variables of functions and of named blocks, and the heads of loops (IEEE 1364-2005, A.2 and A.6.8).

use crate::expressions::Expr;
use crate::names::Name;

/// `[left:right]`, from its `[` on.
#[derive(Drop)]
pub struct Range {
    pub bracket: u32,
    pub left: Expr,
    pub right: Expr,
}

/// What a parameter, a function, an input of it, or a variable of a function or a block is declared as (A.2.1.1, A.2.6).
#[derive(Drop)]
pub enum ValueType {
    /// `integer` (4.8).
    Integer,
    /// A sign and a range, which both may be missing.
    Ranged { signed: bool, range: Option<Range> },
}

/// A declaration of variables, from its `reg` or `integer` on (A.2.8), or of inputs of a function, from its `input` on (A.2.7).
#[derive(Drop)]
pub struct Variables {
    pub place: u32,
    pub value_type: ValueType,
    pub names: Vec<Name>,
}

/// The name of a block, and the variables that are declared there (9.8.2, 9.8.3).
#[derive(Drop)]
pub struct BlockScope {
    pub name: Name,
    pub variables: Vec<Variables>,
}

/// `for (variable = first; test; again = next)` (9.6, 12.4.1), from its `for` on.
#[derive(Drop)]
pub struct LoopHead {
    pub place: u32,
    pub variable: Name,
    pub first: Expr,
    pub test: Expr,
    pub again: Name,
    pub next: Expr,
}

//! What a scope is made of.

use vs_ast::{Item, Module};

/// The items of a generate block: one without `begin` and `end`, or several.
#[derive(Clone, Copy)]
pub enum BlockItems<'a> {
    One(&'a Item),
    Many(&'a [Item]),
}

/// What a scope is made of: an instance of a module, or a generate block's items (12.1.2, 12.4).
#[derive(Clone, Copy)]
pub enum Contents<'a> {
    Module(&'a Module),
    Block(BlockItems<'a>),
}

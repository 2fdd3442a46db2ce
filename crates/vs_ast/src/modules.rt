//! Modules (IEEE 1364-2005, A.1.2).

use crate::items::{Item, Parameters, Signals};
use crate::names::Name;

/// A module's list of ports (12.3).
#[derive(Drop)]
pub enum Header {
    /// No brackets, or empty ones.
    NoPorts,
    /// Plain names.
    Plain(Vec<Name>),
    /// Declarations.
    Declared(Vec<Signals>),
}

/// A module, from its `module` on.
#[derive(Drop)]
pub struct Module {
    pub place: u32,
    pub name: Name,
    pub parameters: Vec<Parameters>,
    pub header: Header,
    pub items: Vec<Item>,
}

/// The modules of a text, in its order.
#[derive(Drop)]
pub struct Source {
    pub modules: Vec<Module>,
}

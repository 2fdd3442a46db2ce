//! What has been read of a text, scope by scope (IEEE 1364-2005, 12.1).

use vs_ast::Source;
use vs_build::Builder;
use vs_items::{Known, Loops};
use vs_maps::NameMap;
use vs_scope::{Contents, Frame, Override, Start, Turn};

/// A text: its tree, and its modules by their names.
#[derive(Drop)]
pub(crate) struct Text<'a> {
    pub source: &'a Source,
    pub modules: NameMap<'a, Known<'a>>,
}

/// Counts of all scopes so far: where the signals of the next one begin, and how many instances, turns of generate loops, functions and processes there
/// are.
#[derive(Clone, Copy)]
pub(crate) struct Counts {
    pub start: Start,
    pub instances: u32,
    pub turns: u32,
    pub functions: u32,
    pub processes: u32,
}

/// What has been read: the design, its scopes with what their names mean, the counts, and what loops of blocks and functions did. Scope i of the design
/// is the frame of number i.
#[derive(Drop)]
pub(crate) struct Reading<'a> {
    pub builder: Builder,
    pub frames: Vec<Frame<'a>>,
    pub counts: Counts,
    pub loops: Loops,
}

/// A scope that is to be read. `within` is the number of the scope around it in the design, which the top doesn't have; `parent` is the one whose
/// names are seen in it, which only a generate block has. `depth` counts the instances around it and itself, and `place` is where its item begins.
#[derive(Clone, Copy)]
pub(crate) struct NewScope<'s, 'a> {
    pub name: &'s [u8],
    pub within: Option<u32>,
    pub contents: Contents<'a>,
    pub overrides: &'s NameMap<'a, Override<'a>>,
    pub parent: Option<usize>,
    pub turn: Option<Turn>,
    pub depth: u32,
    pub place: u32,
}

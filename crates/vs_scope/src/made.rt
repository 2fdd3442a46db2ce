//! What generate constructs make: blocks, and the names that they declare (IEEE 1364-2005, 12.4).

ghost use Rattle.std.specs.Prelude.{◌≡◌, List, IfOk};
ghost use Rattle.vs_ast.specs.Views.{option};
ghost use Rattle.vs_const.specs.Faults.{least};
ghost use Rattle.vs_elaborated.specs.Generate as generate;
ghost use Rattle.vs_scope.specs.Blocks.{block};
ghost use Rattle.vs_scope.specs.Made.{made, kept};

use crate::contents::BlockItems;
use crate::frames::Turn;
use crate::texts::name_text;
use std::alloc::{AllocError, Global};
use vs_ast::Name;
use vs_const::{Fault, first_of};

/// A generate block that is taken: a scope within its scope. `name` is as it is written, `genblk<n>`, or for a loop's block `name[v]`; `turn` is the
/// value of the loop's genvar.
#[derive(Drop)]
pub struct Nested<'a> {
    pub name: Vec<u8>,
    pub items: BlockItems<'a>,
    pub turn: Option<Turn>,
}

/// The name that a construct's blocks declare in their scope (12.4.3), or a named block of an always block that is a scope (12.7).
#[derive(Clone, Copy)]
pub enum BlockName<'a> {
    Written(&'a Name),
    /// `genblk<n>`, by the construct's number in its scope, for a block at this place. It clashes like any other name, but no expression means the
    /// block by it.
    Numbered { number: u32, place: u32 },
}

/// What an item of a scope makes: blocks where it is a generate construct, and the names of these or of the named blocks of an always block. `fault` is the
/// first rule that the construct breaks, and `turns` counts those of all loops of the design so far.
#[derive(Drop)]
pub struct Made<'a> {
    pub blocks: Vec<Nested<'a>>,
    pub names: Vec<BlockName<'a>>,
    pub fault: Option<Fault>,
    pub turns: u32,
}

/// A block by itself.
#[derive(Clone, Copy)]
pub(crate) struct Block<'a> {
    pub(crate) name: BlockName<'a>,
    pub(crate) items: BlockItems<'a>,
}

/// No blocks.
pub(crate) fn nothing_made<'a>(alloc: Global, fault: Option<Fault>, turns: u32) -> Made<'a>
    ensures { (fs : List Fault) → fault ≡ least fs → made result ≡ kept (generate.nothing_made fs turns) }
{
    Made {
        blocks: Vec::new(alloc),
        names: Vec::new(alloc),
        fault,
        turns,
    }
}

/// The same, with one more fault.
pub(crate) fn after_fault<'a>(fault: Option<Fault>, m: Made<'a>) -> Made<'a>
    ensures { (fs : List Fault) (all : generate.Made) → fault ≡ least fs → made m.entry ≡ kept all → made result ≡ kept (generate.after_faults fs all) }
{
    Made {
        blocks: m.blocks,
        names: m.names,
        fault: first_of(fault, m.fault),
        turns: m.turns,
    }
}

/// The block of a branch, if there is one.
pub(crate) fn one_block<'a>(
    alloc: Global,
    body: Option<Block<'a>>,
    turns: u32,
) -> Result<Made<'a>, AllocError>
    ensures { IfOk result (λ m. made m ≡ kept (generate.one_block (option block body.entry) turns)) }
{
    match body {
        None => Ok(nothing_made(alloc, None, turns)),
        Some(b) => {
            let name = name_text(alloc, b.name)?;
            let mut blocks = Vec::new(alloc);
            blocks.push(Nested {
                name,
                items: b.items,
                turn: None,
            })?;
            let mut names = Vec::new(alloc);
            names.push(b.name)?;
            Ok(Made {
                blocks,
                names,
                fault: None,
                turns,
            })
        }
    }
}

//! The parts of a scope, from its header, its items and what its generate constructs make (IEEE 1364-2005, A.1.4 and 12.4).

ghost use Rattle.std.specs.Prelude.{◌≡◌, ◌≤◌, ◌++◌, ◌∷◌, [], List, IfOk, OnOk, length, map};
ghost use Rattle.vs_grammar.specs.Trees as tree;
ghost use Rattle.vs_grammar.specs.Shapes.{Each, IsStatement};
ghost use Rattle.vs_grammar.specs.Depths.{statement_depth};
ghost use Rattle.vs_grammar.specs.Spelled.{depth_limit};
ghost use Rattle.vs_ast.specs.Views as view;
ghost use Rattle.vs_elaborated.specs.Environments.{Env};
ghost use Rattle.vs_elaborated.specs.Generate as generate;
ghost use Rattle.vs_elaborated.specs.Instances.{Around};
ghost use Rattle.vs_elaborated.specs.NamedBlocks.{named_blocks as named_blocks_of};
ghost use Rattle.vs_elaborated.specs.Surveys.{nested_piece, ports_said};
ghost use Rattle.vs_scope.specs.Contents.{block_items, contents_header, contents_items};
ghost use Rattle.vs_scope.specs.Made as code;
ghost use Rattle.vs_elab.specs.Fine.{AreFineInside, AreFineItems, AreFineParts, IsFineHeader, IsFineItem, IsFinePart, plain_block, plain_said, plains_said, scope_plain};
ghost use Rattle.vs_elab.specs.Pending.{part_pieces, parts_pieces};

use crate::pending::{Part, push_assigns, push_header, push_instances, push_signals};
use std::alloc::{AllocError, Global};
use std::slice;
use vs_ast::{AlwaysBlock, Item};
use vs_scope::{BlockItems, Contents, Made, Nested, named_blocks};

/// The items of a block, one after the other.
fn items_of<'a>(block: BlockItems<'a>) -> &'a [Item]
    ensures { map view.item result.now ≡ block_items block.entry }
{
    match block {
        BlockItems::One(item) => slice::from_ref(item),
        BlockItems::Many(items) => items,
    }
}

/// Adds the blocks that a generate construct makes.
fn push_blocks<'a>(
    parts: &mut Vec<Part<'a>>,
    alloc: Global,
    blocks: &[Nested<'a>],
) -> Result<(), AllocError>
    ensures pieces { (source : tree.Source) (around : Around)
        → OnOk result (parts_pieces source around parts.new.items ≡ parts_pieces source around parts.old.items ++ map (nested_piece around) (map code.nested blocks.now)) }
    ensures fine { (source : tree.Source) (env : Env) → Each (λ (b : generate.Nested). AreFineInside b.items) (map code.nested blocks.now) → AreFineParts source env parts.old.items → OnOk result (AreFineParts source env parts.new.items) }
{
    for b in blocks {
        let name = b.name.to_vec(alloc)?;
        let items = items_of(b.items);
        parts.push(Part::Block {
            name,
            items,
            turn: b.turn,
        })?;
    }
    Ok(())
}

/// The part of an always block, by its named blocks that are scopes.
fn always_part<'a>(alloc: Global, b: &'a AlwaysBlock) -> Result<Part<'a>, AllocError>
    ensures pieces { (source : tree.Source) (around : Around) → IfOk result (λ p. part_pieces source around p ≡ (plain_block (named_blocks_of (view.always_block b.now).statement) around (view.always_block b.now)).pieces) }
    ensures fine { (source : tree.Source) (around : Around) → IsStatement (view.always_block b.now).statement → statement_depth (view.always_block b.now).statement ≤ depth_limit
        → (plain_block (named_blocks_of (view.always_block b.now).statement) around (view.always_block b.now)).faults ≡ [] → IfOk result (IsFinePart source around.env) }
{
    let named = named_blocks(alloc, &b.statement)?;
    if named.is_empty() {
        return Ok(Part::Always(b));
    }
    Ok(Part::Scoped(b))
}

/// Adds the parts of an item, which makes this if it is a generate construct.
fn push_item<'a>(
    parts: &mut Vec<Part<'a>>,
    alloc: Global,
    item: &'a Item,
    made: &Made<'a>,
) -> Result<(), AllocError>
    ensures pieces { (source : tree.Source) (around : Around) (m : generate.Made) → code.made made.now ≡ code.kept m
        → OnOk result (parts_pieces source around parts.new.items ≡ parts_pieces source around parts.old.items ++ (plain_said source around (view.item item.now) m).pieces) }
    ensures fine { (source : tree.Source) (around : Around) (m : generate.Made) → code.made made.now ≡ code.kept m
        → IsFineItem source around (view.item item.now) m → AreFineParts source around.env parts.old.items → OnOk result (AreFineParts source around.env parts.new.items) }
{
    match item {
        Item::Signals(s) => push_signals(parts, s),
        Item::Assigns { place, assigns } => push_assigns(parts, *place, assigns),
        Item::Always(b) => {
            let part = always_part(alloc, b)?;
            parts.push(part)?;
            Ok(())
        }
        Item::Initial(b) => {
            parts.push(Part::Initial(b))?;
            Ok(())
        }
        Item::Instances(t) => push_instances(parts, t),
        _ => push_blocks(parts, alloc, &made.blocks),
    }
}

/// Adds the parts of items, each of which makes this.
fn push_items<'a>(
    parts: &mut Vec<Part<'a>>,
    alloc: Global,
    items: &'a [Item],
    made: &[Made<'a>],
) -> Result<(), AllocError>
    requires { length made.now ≡ length items.now }
    ensures pieces { (source : tree.Source) (around : Around) (ms : List generate.Made) → map code.made made.now ≡ map code.kept ms
        → OnOk result (parts_pieces source around parts.new.items ≡ parts_pieces source around parts.old.items ++ (plains_said source around (map view.item items.now) ms).pieces) }
    ensures fine { (source : tree.Source) (around : Around) (ms : List generate.Made) → map code.made made.now ≡ map code.kept ms
        → AreFineItems source around (map view.item items.now) ms → AreFineParts source around.env parts.old.items → OnOk result (AreFineParts source around.env parts.new.items) }
{
    for i in 0..items.len() {
        push_item(parts, alloc, &items[i], &made[i])?;
    }
    Ok(())
}

/// Adds the parts of the one item of a block.
fn push_one<'a>(
    parts: &mut Vec<Part<'a>>,
    alloc: Global,
    item: &'a Item,
    made: &[Made<'a>],
) -> Result<(), AllocError>
    requires { length made.now ≡ 1 }
    ensures pieces { (source : tree.Source) (around : Around) (ms : List generate.Made) → map code.made made.now ≡ map code.kept ms
        → OnOk result (parts_pieces source around parts.new.items ≡ parts_pieces source around parts.old.items ++ (plains_said source around (view.item item.now ∷ []) ms).pieces) }
    ensures fine { (source : tree.Source) (around : Around) (ms : List generate.Made) → map code.made made.now ≡ map code.kept ms
        → AreFineItems source around (view.item item.now ∷ []) ms → AreFineParts source around.env parts.old.items → OnOk result (AreFineParts source around.env parts.new.items) }
{
    push_item(parts, alloc, item, &made[0])
}

/// Adds the parts of the items of a block, each of which makes this.
fn push_block<'a>(
    parts: &mut Vec<Part<'a>>,
    alloc: Global,
    block: BlockItems<'a>,
    made: &[Made<'a>],
) -> Result<(), AllocError>
    requires { length made.now ≡ length (block_items block) }
    ensures pieces { (source : tree.Source) (around : Around) (ms : List generate.Made) → map code.made made.now ≡ map code.kept ms
        → OnOk result (parts_pieces source around parts.new.items ≡ parts_pieces source around parts.old.items ++ (plains_said source around (block_items block.entry) ms).pieces) }
    ensures fine { (source : tree.Source) (around : Around) (ms : List generate.Made) → map code.made made.now ≡ map code.kept ms
        → AreFineItems source around (block_items block.entry) ms → AreFineParts source around.env parts.old.items → OnOk result (AreFineParts source around.env parts.new.items) }
{
    match block {
        BlockItems::One(item) => push_one(parts, alloc, item, made),
        BlockItems::Many(items) => push_items(parts, alloc, items, made),
    }
}

/// Adds the parts of the items of a scope, each of which makes this.
fn push_contents<'a>(
    parts: &mut Vec<Part<'a>>,
    alloc: Global,
    contents: Contents<'a>,
    made: &[Made<'a>],
) -> Result<(), AllocError>
    requires { length made.now ≡ length (contents_items contents) }
    ensures pieces { (source : tree.Source) (around : Around) (ms : List generate.Made) → map code.made made.now ≡ map code.kept ms
        → OnOk result (parts_pieces source around parts.new.items ≡ parts_pieces source around parts.old.items ++ (plains_said source around (contents_items contents.entry) ms).pieces) }
    ensures fine { (source : tree.Source) (around : Around) (ms : List generate.Made) → map code.made made.now ≡ map code.kept ms
        → AreFineItems source around (contents_items contents.entry) ms → AreFineParts source around.env parts.old.items → OnOk result (AreFineParts source around.env parts.new.items) }
{
    match contents {
        Contents::Module(m) => push_items(parts, alloc, &m.items, made),
        Contents::Block(block) => push_block(parts, alloc, block, made),
    }
}

/// Adds the parts of a scope's header, if it has one.
fn push_values<'a>(parts: &mut Vec<Part<'a>>, contents: Contents<'a>) -> Result<(), AllocError>
    ensures pieces { (source : tree.Source) (around : Around)
        → OnOk result (parts_pieces source around parts.new.items ≡ parts_pieces source around parts.old.items ++ (ports_said around.env (contents_header contents.entry)).pieces) }
    ensures fine { (source : tree.Source) (around : Around) → IsFineHeader around.env (contents_header contents.entry) → AreFineParts source around.env parts.old.items → OnOk result (AreFineParts source around.env parts.new.items) }
{
    match contents {
        Contents::Module(m) => push_header(parts, &m.header),
        Contents::Block(_) => Ok(()),
    }
}

/// The parts of a scope, each of whose items makes this, in the order of the text. An error is want of memory.
pub(crate) fn parts_of<'a>(
    alloc: Global,
    contents: Contents<'a>,
    made: &[Made<'a>],
) -> Result<Vec<Part<'a>>, AllocError>
    requires { length made.now ≡ length (contents_items contents) }
    ensures pieces { (source : tree.Source) (around : Around) (ms : List generate.Made) → map code.made made.now ≡ map code.kept ms
        → IfOk result (λ ps. parts_pieces source around ps.items ≡ (scope_plain source around (contents_header contents.entry) (contents_items contents.entry) ms).pieces) }
    ensures fine { (source : tree.Source) (around : Around) (ms : List generate.Made) → map code.made made.now ≡ map code.kept ms
        → IsFineHeader around.env (contents_header contents.entry) → AreFineItems source around (contents_items contents.entry) ms → IfOk result (λ ps. AreFineParts source around.env ps.items) }
{
    let mut parts = Vec::new(alloc);
    push_values(&mut parts, contents)?;
    push_contents(&mut parts, alloc, contents, made)?;
    Ok(parts)
}

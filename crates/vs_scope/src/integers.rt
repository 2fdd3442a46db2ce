//! Which integers of a scope are variables (IEEE 1364-2005, 4.8 and 9.6).

ghost use Rattle.std.specs.Prelude.{◌≡◌};
ghost use Rattle.vs_ast.specs.Views as view;
ghost use Rattle.vs_elaborated.specs.Uses as spec;
ghost use Rattle.vs_scope.specs.Contents.{block_items, contents_items};

use crate::contents::{BlockItems, Contents};
use vs_ast::{GenerateArm, GenerateBlock, Item};
use vs_bodies::uses;

/// Whether a block of an item has a loop that is headed by a name, or else an assignment to the name.
#[cycle(items)]
fn item_uses(as_head: bool, name: &[u8], item: &Item) -> bool
    ensures { result ≡ spec.item_uses as_head name.now (view.item item.now) }
{
    match item {
        Item::Always(block) => uses(as_head, name, &block.statement),
        Item::Initial(block) => uses(as_head, name, &block.statement),
        Item::GenerateFor { block, .. } => block_uses(as_head, name, block),
        Item::GenerateIf { taken, other, .. } => {
            if block_uses(as_head, name, taken) {
                return true;
            }
            match other {
                None => false,
                Some(other) => block_uses(as_head, name, other),
            }
        }
        Item::GenerateCase { arms, other, .. } => {
            if arms_use(as_head, name, arms) {
                return true;
            }
            match other {
                None => false,
                Some(other) => block_uses(as_head, name, other),
            }
        }
        _ => false,
    }
}

/// Whether a block in a generate block has one.
#[cycle(items)]
fn block_uses(as_head: bool, name: &[u8], block: &GenerateBlock) -> bool
    ensures { result ≡ spec.block_uses as_head name.now (view.block block.now) }
{
    match block {
        GenerateBlock::Empty { .. } => false,
        GenerateBlock::Alone(item) => item_uses(as_head, name, item),
        GenerateBlock::Enclosed { items, .. } => items_use(as_head, name, items),
    }
}

/// Whether a block in an arm of a generate `case` has one.
#[cycle(items)]
fn arms_use(as_head: bool, name: &[u8], arms: &[GenerateArm]) -> bool
    ensures { result ≡ spec.generate_arms_use as_head name.now (view.generate_arms arms.now) }
{
    for arm in arms {
        if block_uses(as_head, name, &arm.block) {
            return true;
        }
    }
    false
}

/// Whether a block of these items has one.
#[cycle(items)]
fn items_use(as_head: bool, name: &[u8], items: &[Item]) -> bool
    ensures { result ≡ spec.items_use as_head name.now (view.items items.now) }
{
    for item in items {
        if item_uses(as_head, name, item) {
            return true;
        }
    }
    false
}

/// Whether a block of a generate block's items has one.
fn inside_use(as_head: bool, name: &[u8], items: BlockItems<'_>) -> bool
    ensures { result ≡ spec.all_use as_head name.now (block_items items.entry) }
{
    match items {
        BlockItems::One(item) => item_uses(as_head, name, item),
        BlockItems::Many(list) => items_use(as_head, name, list),
    }
}

/// Whether a block of a scope has one, or of a generate block in it.
fn contents_use(as_head: bool, name: &[u8], contents: Contents<'_>) -> bool
    ensures { result ≡ spec.all_use as_head name.now (contents_items contents.entry) }
{
    match contents {
        Contents::Module(whole) => items_use(as_head, name, &whole.items),
        Contents::Block(items) => inside_use(as_head, name, items),
    }
}

/// Whether an integer of a scope is a variable, by its name: a block assigns it, and no loop is headed by it.
pub(crate) fn is_variable(name: &[u8], contents: Contents<'_>) -> bool
    ensures { result ≡ spec.is_variable_of (contents_items contents.entry) name.now }
{
    !contents_use(true, name, contents) && contents_use(false, name, contents)
}

//! The modules that instances name (IEEE 1364-2005, 12.1.2).

ghost use Rattle.std.specs.Prelude.{◌≡◌, ◌||◌, ℕ, List, IfOk, OnOk, map};
ghost use Rattle.vs_ast.specs.Views as view;
ghost use Rattle.vs_maps.specs.Sets.{has};
ghost use Rattle.vs_tops.specs.Tops.{item_names, block_names, arms_name, items_name, is_instantiated};

use std::alloc::{AllocError, Global};
use vs_ast::{GenerateArm, GenerateBlock, Item, Source};
use vs_maps::NameSet;

/// Adds the names of the modules that an item has instances of.
#[cycle(named)]
fn add_item<'a>(names: &mut NameSet<'a>, item: &'a Item) -> Result<(), AllocError>
    ensures { OnOk result ((name : List ℕ) → has names.new name ≡ (item_names name (view.item item.now) || has names.old name)) }
{
    match item {
        Item::Instances(instances) => names.add(instances.of.text.as_slice()),
        Item::GenerateFor { block, .. } => add_block(names, block),
        Item::GenerateIf { taken, other, .. } => {
            add_block(names, taken)?;
            match other {
                None => Ok(()),
                Some(other) => add_block(names, other),
            }
        }
        Item::GenerateCase { arms, other, .. } => {
            add_arms(names, arms)?;
            match other {
                None => Ok(()),
                Some(other) => add_block(names, other),
            }
        }
        _ => Ok(()),
    }
}

/// Those of a generate block, whether or not it is taken.
#[cycle(named)]
fn add_block<'a>(names: &mut NameSet<'a>, block: &'a GenerateBlock) -> Result<(), AllocError>
    ensures { OnOk result ((name : List ℕ) → has names.new name ≡ (block_names name (view.block block.now) || has names.old name)) }
{
    match block {
        GenerateBlock::Empty { .. } => Ok(()),
        GenerateBlock::Alone(item) => add_item(names, item),
        GenerateBlock::Enclosed { items, .. } => add_items(names, items),
    }
}

/// Those of the arms of a generate `case`.
#[cycle(named)]
fn add_arms<'a>(names: &mut NameSet<'a>, arms: &'a [GenerateArm]) -> Result<(), AllocError>
    ensures { OnOk result ((name : List ℕ) → has names.new name ≡ (arms_name name (view.generate_arms arms.now) || has names.old name)) }
{
    for arm in arms {
        add_block(names, &arm.block)?;
    }
    Ok(())
}

/// Those of items.
#[cycle(named)]
fn add_items<'a>(names: &mut NameSet<'a>, items: &'a [Item]) -> Result<(), AllocError>
    ensures { OnOk result ((name : List ℕ) → has names.new name ≡ (items_name name (view.items items.now) || has names.old name)) }
{
    for item in items {
        add_item(names, item)?;
    }
    Ok(())
}

/// The names of the modules that instances of a text name.
pub(crate) fn instantiated(alloc: Global, source: &Source) -> Result<NameSet<'_>, AllocError>
    ensures { IfOk result (λ names. (name : List ℕ) → has names name ≡ is_instantiated (view.source source.now) name) }
{
    let mut names = NameSet::new(alloc);
    for of in &source.modules {
        add_items(&mut names, &of.items)?;
    }
    Ok(names)
}

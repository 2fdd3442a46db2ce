//! The generate constructs of a scope, in the order of the text (IEEE 1364-2005, 12.4).

ghost use Rattle.std.specs.Prelude.{◌≡◌, ◌∷◌, ◌+◌, [], None, List, ℕ, IfOk, OnOk, if◌then◌else◌, map};
ghost use Rattle.vs_grammar.specs.Trees as tree;
ghost use Rattle.vs_grammar.specs.Shapes.{AreGenerateArms, Each, Given, IsBlock, IsExpr};
ghost use Rattle.vs_ast.specs.Views as view;
ghost use Rattle.vs_ast.specs.Views.{option};
ghost use Rattle.vs_const.specs.Expressions.{number as number_of};
ghost use Rattle.vs_elaborated.specs.Environments.{named};
ghost use Rattle.vs_elaborated.specs.Generate as generate;
ghost use Rattle.vs_elaborated.specs.Limits.{the_limits};
ghost use Rattle.vs_elaborated.specs.Constructs as spec;
ghost use Rattle.vs_scope.specs.Blocks.{block};
ghost use Rattle.vs_scope.specs.Contents.{block_items, contents_items};
ghost use Rattle.vs_scope.specs.Chosen.{ChosenBlock, IsChosen, IsConstruct, IsMaking, block_now, option_block, if_block, of_if, arm_block, case_block, of_case, branch_made};
ghost use Rattle.vs_scope.specs.Frames.{view_env};
ghost use Rattle.vs_scope.specs.Made as code;
ghost use Rattle.vs_scope.specs.Made.{made, kept};

use crate::block_scopes::{named_blocks, outside_names};
use crate::cases::{SaidCase, said_case};
use crate::contents::{BlockItems, Contents};
use crate::counts::one_more;
use crate::loops::loop_made;
use crate::made::{Block, BlockName, Made, after_fault, nothing_made, one_block};
use crate::numbers::number;
use crate::places::View;
use crate::turns::holds;
use std::alloc::{AllocError, Global};
use vs_ast::{AlwaysBlock, Expr, GenerateArm, GenerateBlock, Item, Name};
use vs_const::{Fault, first_of};

/// The name of a block, by its construct's number in the scope (12.4.3).
fn block_name<'a>(number: u32, place: u32, label: &'a Option<Name>) -> BlockName<'a>
    ensures { code.block_name result ≡ generate.block_name number place (option view.name label.now) }
{
    match label {
        None => BlockName::Numbered { number, place },
        Some(name) => BlockName::Written(name),
    }
}

/// Where an item begins.
fn item_place(item: &Item) -> u32
    ensures { result ≡ tree.item_place (view.item item.now) }
{
    match item {
        Item::Signals(s) => s.place,
        Item::Parameters(p) => p.place,
        Item::Always(b) => b.place,
        Item::Initial(b) => b.place,
        Item::Instances(i) => i.of.place,
        Item::Function(f) => f.place,
        Item::GenerateFor { head, .. } => head.place,
        Item::Assigns { place, .. }
        | Item::Genvars { place, .. }
        | Item::Integers { place, .. }
        | Item::GenerateIf { place, .. }
        | Item::GenerateCase { place, .. } => *place,
    }
}

/// The block of a construct; `;` makes none.
fn block_of<'a>(number: u32, body: &'a GenerateBlock) -> Option<Block<'a>>
    ensures { option block result ≡ generate.block_of number (view.block body.now) }
{
    match body {
        GenerateBlock::Empty { .. } => None,
        GenerateBlock::Alone(item) => Some(Block {
            name: BlockName::Numbered {
                number,
                place: item_place(item),
            },
            items: BlockItems::One(item),
        }),
        GenerateBlock::Enclosed { place, name, items } => Some(Block {
            name: block_name(number, *place, name),
            items: BlockItems::Many(items.as_slice()),
        }),
    }
}

/// The block that an `if` or a `case` takes, if it takes one and there is one, and the first fault of what it is chosen by.
#[derive(Clone, Copy)]
pub(crate) struct Chosen<'a> {
    pub(crate) body: Option<&'a GenerateBlock>,
    pub(crate) fault: Option<Fault>,
}

/// The block of an `else` or a default.
fn fallback<'a>(other: &'a Option<Box<GenerateBlock>>) -> Option<&'a GenerateBlock>
    ensures { block_now result ≡ option_block other.now }
{
    match other {
        None => None,
        Some(body) => Some(body),
    }
}

/// The block of an `if` whose condition has this number.
fn branch_body<'a>(
    number: Option<i128>,
    taken: &'a GenerateBlock,
    other: Option<&'a GenerateBlock>,
) -> Option<&'a GenerateBlock>
    ensures { block_now result ≡ if_block number (view.block taken.now) (block_now other.entry) }
{
    match number {
        None => None,
        Some(_) => { if holds(number) { Some(taken) } else { other } }
    }
}

/// The block that an `if` takes.
fn chosen_branch<'a>(
    alloc: Global,
    condition: &Expr,
    taken: &'a GenerateBlock,
    other: Option<&'a GenerateBlock>,
    here: &View<'_, '_>,
) -> Result<Chosen<'a>, AllocError>
    requires { IsExpr (view.expr condition.now) }
    ensures { IfOk result (λ c. IsChosen c (of_if (number_of (view.expr condition.now) (named (view_env here.now))) (view.block taken.now) (block_now other.entry))) }
{
    let v = number(alloc, condition, here)?;
    Ok(Chosen {
        body: branch_body(v.number, taken, other),
        fault: v.flaws.first,
    })
}

/// The block of the arm of this number.
fn arm_at<'a>(arms: &'a [GenerateArm], k: usize) -> Option<&'a GenerateBlock>
    ensures { block_now result ≡ arm_block (view.generate_arms arms.now) k }
{
    if k < arms.len() {
        Some(&arms[k].block)
    } else {
        None
    }
}

/// The block of a `case` of which this is known.
fn arm_body<'a>(
    c: SaidCase,
    arms: &'a [GenerateArm],
    other: Option<&'a GenerateBlock>,
) -> Option<&'a GenerateBlock>
    ensures { block_now result ≡ case_block c.defined c.arm (view.generate_arms arms.now) (block_now other.entry) }
{
    if c.defined {
        match c.arm {
            None => other,
            Some(k) => arm_at(arms, k),
        }
    } else {
        None
    }
}

/// The block that a `case` takes.
fn chosen_arm<'a>(
    alloc: Global,
    subject: &Expr,
    arms: &'a [GenerateArm],
    other: Option<&'a GenerateBlock>,
    here: &View<'_, '_>,
) -> Result<Chosen<'a>, AllocError>
    requires subject { IsExpr (view.expr subject.now) }
    requires arms { AreGenerateArms (view.generate_arms arms.now) }
    ensures { IfOk result (λ c. IsChosen c (of_case (spec.said_case (view.expr subject.now) (view.generate_arms arms.now) (view_env here.now)) (view.generate_arms arms.now) (block_now other.entry))) }
{
    let c = said_case(alloc, subject, arms, here)?;
    Ok(Chosen {
        body: arm_body(c, arms, other),
        fault: c.fault,
    })
}

/// Whether an item is an `if` or a `case`: alone in a branch it belongs to the construct around it (12.4.2).
fn is_conditional(item: &Item) -> bool
    ensures { result ≡ spec.is_conditional (view.item item.now) }
{
    match item {
        Item::GenerateIf { .. } | Item::GenerateCase { .. } => true,
        _ => false,
    }
}

/// Whether an item counts among a scope's constructs (12.4.3).
fn is_construct(item: &Item) -> bool
    ensures { result ≡ spec.is_construct (view.item item.now) }
{
    match item {
        Item::GenerateFor { .. } => true,
        _ => is_conditional(item),
    }
}

/// What an always block makes: the names of its named blocks that are scopes and stand in no other (12.7).
fn names_made<'a>(alloc: Global, b: &'a AlwaysBlock, total: u32) -> Result<Made<'a>, AllocError>
    ensures { IfOk result (λ m. made m ≡ kept (spec.names_made (view.always_block b.now) total)) }
{
    let blocks = named_blocks(alloc, &b.statement)?;
    let names = outside_names(alloc, blocks.as_slice())?;
    Ok(Made {
        blocks: Vec::new(alloc),
        names,
        fault: None,
        turns: total,
    })
}

/// What an item makes. `n` is its number among the scope's constructs, and `total` counts the turns of all loops so far.
#[cycle(constructs)]
fn construct<'a>(
    alloc: Global,
    item: &'a Item,
    here: &View<'_, 'a>,
    n: u32,
    total: u32,
) -> Result<Made<'a>, AllocError>
    requires shaped { IsConstruct (view.item item.now) }
    requires inside { here.now.inside ≡ None }
    ensures { IfOk result (λ m. made m ≡ kept (spec.construct (view.item item.now) the_limits (view_env here.now) n total)) }
{
    match item {
        Item::GenerateFor { head, block } => {
            loop_made(alloc, head, block_of(n, block), here, total)
        }
        Item::GenerateIf {
            condition,
            taken,
            other,
            ..
        } => {
            let c = chosen_branch(alloc, condition, taken, fallback(other), here)?;
            branch(alloc, c, here, n, total)
        }
        Item::GenerateCase {
            subject,
            arms,
            other,
            ..
        } => {
            let c = chosen_arm(alloc, subject, arms.as_slice(), fallback(other), here)?;
            branch(alloc, c, here, n, total)
        }
        Item::Always(b) => names_made(alloc, b, total),
        _ => Ok(nothing_made(alloc, None, total)),
    }
}

/// What the block makes that an `if` or a `case` takes.
#[cycle(constructs)]
fn branch<'a>(
    alloc: Global,
    c: Chosen<'a>,
    here: &View<'_, 'a>,
    n: u32,
    total: u32,
) -> Result<Made<'a>, AllocError>
    requires shaped { Given IsBlock (block_now c.body) }
    requires inside { here.now.inside ≡ None }
    ensures { (s : ChosenBlock) → IsChosen c.entry s → IfOk result (λ m. made m ≡ kept (branch_made s (view_env here.now) n total)) }
{
    let m = match c.body {
        None => nothing_made(alloc, None, total),
        Some(GenerateBlock::Alone(item)) if is_conditional(item) => {
            construct(alloc, item, here, n, total)?
        }
        Some(body) => one_block(alloc, block_of(n, body), total)?,
    };
    Ok(after_fault(c.fault, m))
}

/// The number of the next construct, behind an item that counts or not.
fn next_number(n: u32, counts: bool) -> Result<u32, AllocError>
    ensures { IfOk result (λ r. r ≡ (if counts then n + 1 else n)) }
{
    if counts { one_more(n) } else { Ok(n) }
}

/// What the items so far make, their first fault, the number of the next construct, and the count of all loops' turns.
#[derive(Drop)]
pub(crate) struct Making<'a> {
    pub(crate) made: Vec<Made<'a>>,
    pub(crate) fault: Option<Fault>,
    pub(crate) number: u32,
    pub(crate) turns: u32,
}

impl<'a> Making<'a> {
    /// Makes what one item more makes. More constructs than 32 bits count are too many for memory.
    fn make(&mut self, alloc: Global, item: &'a Item, here: &View<'_, 'a>) -> Result<(), AllocError>
        requires shaped { IsConstruct (view.item item.now) }
        requires inside { here.now.inside ≡ None }
        ensures { OnOk result ((before : ℕ) (rest : List tree.Item) (all : List generate.Made) → IsMaking self.old (view_env here.now) before (view.item item.now ∷ rest) all → IsMaking self.new (view_env here.now) before rest all) }
    {
        let m = construct(alloc, item, here, self.number, self.turns)?;
        self.number = next_number(self.number, is_construct(item))?;
        self.turns = m.turns;
        self.fault = first_of(self.fault, m.fault);
        self.made.push(m)?;
        Ok(())
    }

    /// Makes what the items make.
    fn make_all(
        &mut self,
        alloc: Global,
        items: &'a [Item],
        here: &View<'_, 'a>,
    ) -> Result<(), AllocError>
        requires shaped { Each IsConstruct (map view.item items.now) }
        requires inside { here.now.inside ≡ None }
        ensures { OnOk result ((before : ℕ) (all : List generate.Made) → IsMaking self.old (view_env here.now) before (map view.item items.now) all → IsMaking self.new (view_env here.now) before [] all) }
    {
        for item in items {
            self.make(alloc, item, here)?;
        }
        Ok(())
    }

    /// Makes what the items of a block make.
    fn make_block(
        &mut self,
        alloc: Global,
        items: BlockItems<'a>,
        here: &View<'_, 'a>,
    ) -> Result<(), AllocError>
        requires shaped { Each IsConstruct (block_items items) }
        requires inside { here.now.inside ≡ None }
        ensures { OnOk result ((before : ℕ) (all : List generate.Made) → IsMaking self.old (view_env here.now) before (block_items items.entry) all → IsMaking self.new (view_env here.now) before [] all) }
    {
        match items {
            BlockItems::One(item) => {
                self.make(alloc, item, here)?;
                Ok(())
            }
            BlockItems::Many(list) => self.make_all(alloc, list, here),
        }
    }

    /// Makes what the items of a scope make.
    fn make_contents(
        &mut self,
        alloc: Global,
        contents: Contents<'a>,
        here: &View<'_, 'a>,
    ) -> Result<(), AllocError>
        requires shaped { Each IsConstruct (contents_items contents) }
        requires inside { here.now.inside ≡ None }
        ensures { OnOk result ((before : ℕ) (all : List generate.Made) → IsMaking self.old (view_env here.now) before (contents_items contents.entry) all → IsMaking self.new (view_env here.now) before [] all) }
    {
        match contents {
            Contents::Module(whole) => self.make_all(alloc, whole.items.as_slice(), here),
            Contents::Block(items) => self.make_block(alloc, items, here),
        }
    }
}

/// What the items of a scope make. Before it, `turns` counts the turns of all loops.
pub(crate) fn constructs<'a>(
    alloc: Global,
    contents: Contents<'a>,
    here: &View<'_, 'a>,
    turns: u32,
) -> Result<Making<'a>, AllocError>
    requires shaped { Each IsConstruct (contents_items contents) }
    requires inside { here.now.inside ≡ None }
    ensures { IfOk result (λ m. IsMaking m (view_env here.now) turns [] (spec.constructs the_limits (contents_items contents.entry) (view_env here.now) 1 turns)) }
{
    let mut making = Making {
        made: Vec::new(alloc),
        fault: None,
        number: 1,
        turns,
    };
    making.make_contents(alloc, contents, here)?;
    Ok(making)
}

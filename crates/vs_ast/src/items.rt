//! Declarations and items (IEEE 1364-2005, A.1.4, A.2 and A.4).

ghost use Rattle.std.specs.Prelude.{◌≡◌, IfOk};
ghost use Rattle.vs_grammar.specs.Trees as tree;
ghost use Rattle.vs_ast.specs.Views.{block, block_fallback, expr, generate_arms, item, items, loop_head, name, option};

use crate::expressions::Expr;
use crate::names::Name;
use crate::statements::{Statement, Target};
use crate::types::{LoopHead, Range, ValueType, Variables};
use std::alloc::{AllocError, Global};
use vs_base::Edge;

/// What a declaration of signals begins with.
#[derive(Clone, Copy, Debug)]
pub enum SignalKind {
    Input,
    InputWire,
    Output,
    OutputWire,
    OutputReg,
    Reg,
    Wire,
}

/// A declared name, the addresses of a memory or of an array of nets (4.9), and what a `wire` is assigned where it is declared
/// (6.1.1), or the initial value of a variable (6.2.1).
#[derive(Drop)]
pub struct Declarator {
    pub name: Name,
    pub addresses: Option<Range>,
    pub value: Option<Expr>,
}

/// A declaration of signals, and also one of a header's ports.
#[derive(Drop)]
pub struct Signals {
    pub place: u32,
    pub kind: SignalKind,
    pub signed: bool,
    pub range: Option<Range>,
    pub names: Vec<Declarator>,
}

/// `name = value`.
#[derive(Drop)]
pub struct Setting {
    pub name: Name,
    pub value: Expr,
}

/// A declaration of parameters, or of local ones (4.10).
#[derive(Drop)]
pub struct Parameters {
    pub place: u32,
    pub is_local: bool,
    pub value_type: ValueType,
    pub settings: Vec<Setting>,
}

/// `target = value` of an `assign` (6.1.2).
#[derive(Drop)]
pub struct Assign {
    pub target: Target,
    pub value: Expr,
}

/// An event of a block's list (9.7.2).
#[derive(Drop)]
pub struct Event {
    pub edge: Edge,
    pub name: Name,
}

/// `@*` and `@(*)`, or else a list of events (9.7.4, 9.7.5).
#[derive(Drop)]
pub enum EventControl {
    Star,
    Listed(Vec<Event>),
}

/// `.name(value)` and `.name()`.
#[derive(Drop)]
pub struct NamedConnection {
    pub name: Name,
    pub value: Option<Expr>,
}

/// What ports or parameters are connected to (12.2.2, 12.3.5, 12.3.6); nothing, where the brackets are empty or are not there.
#[derive(Drop)]
pub enum Connections {
    Unconnected,
    ByOrder(Vec<Option<Expr>>),
    ByName(Vec<NamedConnection>),
}

/// `name (connections)`.
#[derive(Drop)]
pub struct Instance {
    pub name: Name,
    pub connections: Connections,
}

/// An `always` block (9.9.2).
#[derive(Drop)]
pub struct AlwaysBlock {
    pub place: u32,
    pub control: EventControl,
    pub statement: Statement,
}

/// An `initial` block (9.9.1).
#[derive(Drop)]
pub struct InitialBlock {
    pub place: u32,
    pub statement: Statement,
}

/// Instances of one module (12.1.2).
#[derive(Drop)]
pub struct Instances {
    pub of: Name,
    pub overrides: Connections,
    pub instances: Vec<Instance>,
}

/// A function (10.4.1): the type of its value, its inputs, its own variables, and what it does.
#[derive(Drop)]
pub struct Function {
    pub place: u32,
    pub name: Name,
    pub value_type: ValueType,
    pub inputs: Vec<Variables>,
    pub variables: Vec<Variables>,
    pub statement: Statement,
}

/// An item of a module or of a generate block. `place` is the place of its first token; `generate` and `endgenerate` leave nothing.
#[cycle(items)]
#[derive(Drop)]
pub enum Item {
    Signals(Signals),
    Parameters(Parameters),
    Assigns {
        place: u32,
        assigns: Vec<Assign>,
    },
    Always(AlwaysBlock),
    Initial(InitialBlock),
    Genvars {
        place: u32,
        names: Vec<Name>,
    },
    /// 4.8
    Integers {
        place: u32,
        names: Vec<Name>,
    },
    Instances(Instances),
    Function(Function),
    /// 12.4.1
    GenerateFor {
        head: LoopHead,
        block: Box<GenerateBlock>,
    },
    /// 12.4.2
    GenerateIf {
        place: u32,
        condition: Expr,
        taken: Box<GenerateBlock>,
        other: Option<Box<GenerateBlock>>,
    },
    /// 12.4.3; the arms in the order of the text, and apart from them the default.
    GenerateCase {
        place: u32,
        subject: Expr,
        arms: Vec<GenerateArm>,
        other: Option<Box<GenerateBlock>>,
    },
}

/// What a generate construct chooses or repeats.
#[cycle(items)]
#[derive(Drop)]
pub enum GenerateBlock {
    /// A lone `;`.
    Empty {
        place: u32,
    },
    /// An item without `begin` and `end`.
    Alone(Box<Item>),
    Enclosed {
        place: u32,
        name: Option<Name>,
        items: Vec<Item>,
    },
}

/// The labels of an arm of a generate `case`, and the block there.
#[cycle(items)]
#[derive(Drop)]
pub struct GenerateArm {
    pub labels: Vec<Expr>,
    pub block: GenerateBlock,
}

impl Item {
    /// A generate `for`.
    pub fn new_for(alloc: Global, head: LoopHead, body: GenerateBlock) -> Result<Item, AllocError>
        ensures { IfOk result (λ i. item i ≡ tree.GenerateFor (loop_head head) (block body)) }
    {
        let block = Box::new(alloc, body)?;
        Ok(Item::GenerateFor { head, block })
    }

    /// A generate `if`, where `other` is the block of its `else`.
    pub fn new_if(
        alloc: Global,
        place: u32,
        condition: Expr,
        taken: GenerateBlock,
        other: Option<GenerateBlock>,
    ) -> Result<Item, AllocError>
        ensures { IfOk result (λ i. item i ≡ tree.GenerateIf place (expr condition) (block taken) (block_fallback other)) }
    {
        let taken = Box::new(alloc, taken)?;
        match other {
            None => Ok(Item::GenerateIf {
                place,
                condition,
                taken,
                other: None,
            }),
            Some(other) => {
                let other = Box::new(alloc, other)?;
                Ok(Item::GenerateIf {
                    place,
                    condition,
                    taken,
                    other: Some(other),
                })
            }
        }
    }

    /// A generate `case`, where `other` is the block of its default.
    pub fn new_case(
        alloc: Global,
        place: u32,
        subject: Expr,
        arms: Vec<GenerateArm>,
        other: Option<GenerateBlock>,
    ) -> Result<Item, AllocError>
        ensures { IfOk result (λ i. item i ≡ tree.GenerateCase place (expr subject) (generate_arms arms.items) (block_fallback other)) }
    {
        match other {
            None => Ok(Item::GenerateCase {
                place,
                subject,
                arms,
                other: None,
            }),
            Some(other) => {
                let other = Box::new(alloc, other)?;
                Ok(Item::GenerateCase {
                    place,
                    subject,
                    arms,
                    other: Some(other),
                })
            }
        }
    }
}

impl GenerateBlock {
    /// An item that stands alone.
    pub fn new_alone(alloc: Global, lone: Item) -> Result<GenerateBlock, AllocError>
        ensures { IfOk result (λ b. block b ≡ tree.Alone (item lone)) }
    {
        let lone = Box::new(alloc, lone)?;
        Ok(GenerateBlock::Alone(lone))
    }

    /// The items between `begin` and `end`, and the name after the `begin`.
    pub fn new_enclosed(place: u32, label: Option<Name>, list: Vec<Item>) -> GenerateBlock
        ensures { block result ≡ tree.Enclosed place (option name label) (items list.items) }
    {
        GenerateBlock::Enclosed {
            place,
            name: label,
            items: list,
        }
    }
}

//! The syntax tree of a design text (IEEE 1364-2005, annex A). A place is the number of a token, from 0 on.
#![tactic(auto)]

mod expressions;
mod items;
mod modules;
mod names;
mod statements;
mod types;

pub use expressions::{Expr, Select, SliceKind, SystemFunction};
pub use items::{
    AlwaysBlock, Assign, Connections, Declarator, Event, EventControl, Function, GenerateArm,
    GenerateBlock, InitialBlock, Instance, Instances, Item, NamedConnection, Parameters, Setting,
    SignalKind, Signals,
};
pub use modules::{Header, Module, Source};
pub use names::{Literal, Name};
pub use statements::{CaseArm, Statement, Target};
pub use types::{BlockScope, LoopHead, Range, ValueType, Variables};

//! What the items of a scope say (IEEE 1364-2005, 6.1, clause 9, 12.1 to 12.3): the first rule that they break, how many processes they have, and of an
//! instance what its ports are connected to and what overrides the parameters of its module.
#![tactic(auto)]

mod blocks;
mod bodies;
mod connected;
mod connections;
mod counts;
mod heads;
mod instances;
mod interfaces;
mod items;
mod loops;
mod modules;
mod noted;
mod outputs;
mod overrides;
mod overriding;
mod ports;
mod unheard;
mod values;

pub use blocks::scoped_fault;
pub use bodies::{SaidItems, said_items};
pub use connections::{Connection, connections_of};
pub use interfaces::Interface;
pub use loops::Loops;
pub use modules::{Known, Modules, modules_of};
pub use overriding::overrides_of;

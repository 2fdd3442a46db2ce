//! Elaboration (IEEE 1364-2005, 4.10 and clause 12): the design that the tree of a text stands for, from its top, or the first rule that it breaks, with its place.
//!
//! It is definitions, in specs/, and their laws: each law is a function with an empty body whose `ensures` is the law.
#![tactic(auto)]

mod laws;

pub use laws::{
    design_examples, elaborated_law, instance_law, named_law, number_law, refusal_examples,
    scope_law, unroll_law,
};

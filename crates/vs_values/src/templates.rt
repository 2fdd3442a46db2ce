//! Functions lowered once, and the table of them (IEEE 1364-2005, 10.4).

ghost use Rattle.std.specs.Prelude.{◌≡◌, ◌+◌, ◌<◌, ◌≤◌, length, min, None, IfOk, OnOk, OnErr};
ghost use Rattle.vs_design.specs.Expressions.{At, sign, width};
ghost use Rattle.vs_design.specs.Refusals.{width_refusal};
ghost use Rattle.vs_flat.specs.DesignOf.{arena_trees, design_of};
ghost use Rattle.vs_flat.specs.Lawful.{IsLawful};
ghost use Rattle.vs_flat.specs.Trees.{tree_at};
ghost use Rattle.vs_shape.specs.Nodes.{HasNames, HasCalls, place_of, tree_of, tree_of_node};
ghost use Rattle.vs_values.specs.Calling.{CallsFirst, IsFormedCallOf, IsInlinable, IsInlined};
ghost use Rattle.vs_values.specs.Templates.{IsEntry, BoundsOfAll, BoundsOfNext, BoundsAreThere, BoundedNames, function_at, node_bound};

use crate::code::Code;
use crate::inlining::inline;
use std::alloc::{AllocError, Global};
use std::marker::Model;
use vs_base::List;
use vs_code::Program;
use vs_flat::{Flat, Node, calls_law, lawful_law, names_law};
use vs_shape::{Shapes, node_of};
use vs_typed::Typed;

/// A function's statement lowered over slots of its own: 0 to 3 hold the constants, the bits of its inputs have the slots from 4 on, and new slots come after them.
#[derive(Drop)]
pub struct Template {
    /// The calls of its statement.
    pub calls: Program,
    /// The slots of its result, least significant bit first.
    pub result: List<u32>,
    /// The least slot above those of the inputs that no call names.
    pub next: u32,
}

/// A typed design, and the templates of its first functions.
#[derive(Drop)]
pub struct Templates<'a> {
    typed: &'a Typed,
    table: Vec<Option<Template>>,
}

// Clauses see the flat design, and how many functions have been looked at.
impl<'a> Model for Templates<'a> {
    ghost use Rattle.std.specs.Prelude.{length};
    ghost use Rattle.vs_values.specs.Templates.{IsTable, Templated};

    ghost Value = { Templated };

    ghost view = { λ t. record { arena = t.typed.now; functions = length t.table.items } };

    ghost invariant = { λ t. IsTable t.typed.now t.table.items };
}

impl<'a> Templates<'a> {
    /// A design of which no function has been looked at. It takes no memory.
    pub fn new(alloc: Global, typed: &'a Typed) -> Templates<'a>
        ensures { result ≡ record { arena = typed.now; functions = 0 } }
    {
        Templates {
            typed,
            table: Vec::new(alloc),
        }
    }

    /// Adds the entry of the next function: its template, or none where its statement doesn't fit or is too large. On an error all is as it was.
    pub fn push(&mut self, entry: Option<Template>) -> Result<(), AllocError>
        requires there { self.old.functions < length self.old.arena.bodies }
        requires entry { IsEntry (function_at self.old.arena self.old.functions) entry }
        ensures ok { OnOk result (self.new ≡ record { arena = self.old.arena; functions = self.old.functions + 1 }) }
        ensures err { OnErr result (self.new ≡ self.old) }
    {
        self.table.push(entry)?;
        Ok(())
    }

    /// How many functions have been looked at, of all those of the design.
    pub fn count(&self) -> u32
        ensures is { result ≡ self.now.functions }
        ensures there { self.now.functions ≤ length self.now.arena.bodies }
    {
        let _count = self.typed.flat().function_count();
        self.table.len() as u32
    }

    /// The typed design.
    pub fn typed(&self) -> &'a Typed
        ensures { result.now ≡ self.now.arena }
    {
        self.typed
    }

    /// The flat design. It is lawful, and no length or division in it is refused.
    pub fn flat(&self) -> &Flat
        ensures same { result.now ≡ self.now.arena }
        ensures lawful { IsLawful self.now.arena }
        ensures fits { width_refusal (design_of self.now.arena) ≡ None }
    {
        self.typed.flat()
    }

    /// The shapes of its expressions, and what is gathered from them.
    pub fn shapes(&self) -> &Shapes
        ensures { result.now ≡ self.now.arena }
    {
        self.typed.shapes()
    }

    /// The length of expression e by itself (IEEE 1364-2005, table 5-22); 65 stands for every length over 64.
    pub fn width(&self, e: u32) -> u32
        requires { e < length self.now.arena.nodes }
        ensures { result ≡ min (width (tree_at (arena_trees self.now.arena) e)) 65 }
    {
        self.typed.width(e)
    }

    /// Whether expression e is signed (IEEE 1364-2005, 5.5.1).
    pub fn signed(&self, e: u32) -> bool
        requires { e < length self.now.arena.nodes }
        ensures { result ≡ sign (tree_at (arena_trees self.now.arena) e) }
    {
        self.typed.signed(e)
    }

    /// Expression e. It names earlier ones, and it calls functions that have been looked at alone.
    pub(crate) fn expr(&self, e: u32) -> &Node
        requires { e < node_bound self.now }
        ensures there { e < length self.now.arena.nodes }
        ensures names { HasNames (length self.now.arena.signals) e result.now }
        ensures locals { HasCalls self.now.arena result.now }
        ensures calls { CallsFirst self.now result.now }
        ensures formed { IsFormedCallOf self.now.arena result.now }
        ensures tree { tree_of self.now.arena e ≡ At (place_of self.now.arena e) (tree_of_node self.now.arena result.now) }
    {
        bounds_law();
        calls_law();
        lawful_law();
        node_of(self.flat(), e)
    }

    /// Adds the calls of a function's template, with these slots in place of those of its inputs' bits, and answers the slots of its result.
    pub(crate) fn inlined(
        &self,
        alloc: Global,
        function: u32,
        slots: &[u32],
        code: &mut Code,
    ) -> Result<Vec<u32>, AllocError>
        requires function { function < self.now.functions }
        requires ready { IsInlinable (function_at self.now.arena function) code.old slots.now }
        ensures { IfOk result (λ to. IsInlined (function_at self.now.arena function) slots.now code.old code.new to.items) }
    {
        match &self.table[function as usize] {
            Some(template) => inline(alloc, template, slots, code),
            None => unreachable!(),
        }
    }
}

/// Which expressions and statements call functions that have been looked at alone.
pub fn bounds_law()
    ensures all { BoundsOfAll }
    ensures next { BoundsOfNext }
    ensures there { BoundsAreThere }
    ensures names { BoundedNames }
{
    calls_law();
    names_law();
}

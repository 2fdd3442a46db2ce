//! The flat design.

ghost use Rattle.std.specs.Prelude.{◌≡◌, ◌+◌, ◌<◌, ◌≤◌, ◌^◌, ◌-◌, [], ◌∷◌, ◌++◌, length, slice_get, option_map, IsTrue, IfOk, OnOk, OnErr, vec_len, vec_capacity};

use crate::{
    Body, Declared, Function, Initial, Kind, Node, Placed, Process, Scope, Signal, Statement,
};
use std::alloc::{AllocError, Global};
use std::marker::Model;
use vs_base::List;

/// An elaborated design: its scopes, signals, processes, initial processes, functions, expressions and statements, each kind numbered from 0 in the order in which they were added.
#[derive(Drop)]
pub struct Flat {
    scopes: Vec<Scope>,
    signals: Vec<Signal>,
    processes: Vec<Process>,
    initials: Vec<Initial>,
    nodes: Vec<Placed<Node>>,
    statements: Vec<Placed<Statement>>,
    functions: Vec<Declared>,
    bodies: Vec<Body>,
    inputs: Vec<u32>,
}

impl Model for Flat {
    ghost use Rattle.vs_flat.specs.Arena.{Arena};

    ghost Value = { Arena };

    ghost use Rattle.vs_flat.specs.Kept.{arena_of, IsKept};

    ghost view = { arena_of };

    ghost invariant = { IsKept };
}

impl Flat {
    ghost use Rattle.vs_flat.specs.Arena.{empty_arena, with_empty, with_scope, with_signal, with_process, with_initial, with_node, with_statement, with_function, with_body, declared_at, body_at, signal_length, bit_count, top_inputs, node_at, statement_at, node_place, statement_place};
    ghost use Rattle.vs_flat.specs.Named.{covers_scope, covers_signal, covers_process, covers_initial, covers_node, covers_statement};

    /// A design with nothing in it. It takes no memory.
    pub fn new(alloc: Global) -> Flat
        ensures { result ≡ empty_arena }
    {
        Flat {
            scopes: Vec::new(alloc),
            signals: Vec::new(alloc),
            processes: Vec::new(alloc),
            initials: Vec::new(alloc),
            nodes: Vec::new(alloc),
            statements: Vec::new(alloc),
            functions: Vec::new(alloc),
            bodies: Vec::new(alloc),
            inputs: Vec::new(alloc),
        }
    }

    /// Adds a scope and answers its number. The first one is the top. No memory is also answered where 2^32 - 1 scopes were added already.
    pub fn add_scope(&mut self, scope: Scope) -> Result<u32, AllocError>
        requires { IsTrue (covers_scope self.old scope) }
        ensures number { IfOk result (λ n. n ≡ length self.old.scopes) }
        ensures ok { OnOk result (self.new ≡ with_scope self.old scope) }
        ensures room { OnOk result (length self.old.scopes < 2 ^ 32 - 1) }
        ensures err { OnErr result (self.new ≡ self.old) }
    {
        let number = next_number(self.scopes.len())?;
        self.scopes.push(scope)?;
        Ok(number)
    }

    /// How many scopes there are.
    pub fn scope_count(&self) -> u32
        ensures { result ≡ length self.now.scopes }
    {
        self.scopes.len() as u32
    }

    /// Scope n.
    pub fn scope(&self, n: u32) -> &Scope
        requires { n < length self.now.scopes }
        ensures { slice_get self.now.scopes n ≡ Some result.now }
    {
        &self.scopes[n as usize]
    }

    /// Adds a signal and answers its number. The bits of all signals are at most 2^20.
    pub fn add_signal(&mut self, signal: Signal) -> Result<u32, AllocError>
        requires names { IsTrue (covers_signal self.old signal) }
        requires bits { bit_count self.old.signals + signal_length signal ≤ 2 ^ 20 }
        ensures number { IfOk result (λ n. n ≡ length self.old.signals) }
        ensures ok { OnOk result (self.new ≡ with_signal self.old signal) }
        ensures err { OnErr result (self.new ≡ self.old) }
    {
        let number = self.signals.len() as u32;
        let is_input = signal.input;
        self.inputs.reserve(1)?;
        self.signals.push(signal)?;
        if is_input {
            push_reserved(&mut self.inputs, number);
        }
        Ok(number)
    }

    /// How many signals there are.
    pub fn signal_count(&self) -> u32
        ensures count { result ≡ length self.now.signals }
        ensures bits { bit_count self.now.signals ≤ 2 ^ 20 }
    {
        self.signals.len() as u32
    }

    /// Signal n.
    pub fn signal(&self, n: u32) -> &Signal
        requires { n < length self.now.signals }
        ensures { slice_get self.now.signals n ≡ Some result.now }
    {
        &self.signals[n as usize]
    }

    /// The numbers of the inputs of the top, in order of declaration.
    pub fn top_inputs(&self) -> &[u32]
        ensures { result.now ≡ top_inputs self.now }
    {
        self.inputs.as_slice()
    }

    /// Adds a process and answers its number. There are at most 2^16.
    pub fn add_process(&mut self, process: Process) -> Result<u32, AllocError>
        requires names { IsTrue (covers_process self.old process) }
        requires room { length self.old.processes < 2 ^ 16 }
        ensures number { IfOk result (λ n. n ≡ length self.old.processes) }
        ensures ok { OnOk result (self.new ≡ with_process self.old process) }
        ensures err { OnErr result (self.new ≡ self.old) }
    {
        let number = self.processes.len() as u32;
        self.processes.push(process)?;
        Ok(number)
    }

    /// How many processes there are, at most 2^16.
    pub fn process_count(&self) -> u32
        ensures count { result ≡ length self.now.processes }
        ensures most { result ≤ 2 ^ 16 }
    {
        self.processes.len() as u32
    }

    /// Process p.
    pub fn process(&self, p: u32) -> &Process
        requires { p < length self.now.processes }
        ensures { slice_get self.now.processes p ≡ Some result.now }
    {
        &self.processes[p as usize]
    }

    /// Leaves out a process: an empty block, `always @* ;`, stands in its place from then on, so all others keep their numbers. No memory is also answered where 2^32 - 1 statements were added already.
    pub fn leave_out(&mut self, alloc: Global, p: u32) -> Result<(), AllocError>
        requires { p < length self.old.processes }
        ensures ok { OnOk result (self.new ≡ with_empty self.old p) }
        ensures room { OnOk result (length self.old.statements < 2 ^ 32 - 1) }
        ensures err { OnErr result (self.new ≡ self.old) }
    {
        let statement = next_number(self.statements.len())?;
        let at = self.processes[p as usize].at;
        self.statements.push(Placed {
            item: Statement::Empty,
            at,
        })?;
        self.processes[p as usize] = Process {
            at,
            kind: Kind::Block {
                star: true,
                events: List::of(Vec::new(alloc)),
                statement,
            },
        };
        Ok(())
    }

    /// Adds an initial process and answers its number. There are at most 2^16.
    pub fn add_initial(&mut self, initial: Initial) -> Result<u32, AllocError>
        requires names { IsTrue (covers_initial self.old initial) }
        requires room { length self.old.initials < 2 ^ 16 }
        ensures number { IfOk result (λ n. n ≡ length self.old.initials) }
        ensures ok { OnOk result (self.new ≡ with_initial self.old initial) }
        ensures err { OnErr result (self.new ≡ self.old) }
    {
        let number = self.initials.len() as u32;
        self.initials.push(initial)?;
        Ok(number)
    }

    /// How many initial processes there are, at most 2^16.
    pub fn initial_count(&self) -> u32
        ensures count { result ≡ length self.now.initials }
        ensures most { result ≤ 2 ^ 16 }
    {
        self.initials.len() as u32
    }

    /// Initial process k.
    pub fn initial(&self, k: u32) -> Initial
        requires { k < length self.now.initials }
        ensures { slice_get self.now.initials k ≡ Some result }
    {
        self.initials[k as usize]
    }

    /// Adds an expression whose first token in the text has this number, and answers its number. No memory is also answered where 2^32 - 1 expressions were added already.
    pub fn add_expr(&mut self, node: Node, at: u32) -> Result<u32, AllocError>
        requires { IsTrue (covers_node self.old node) }
        ensures number { IfOk result (λ n. n ≡ length self.old.nodes) }
        ensures ok { OnOk result (self.new ≡ with_node self.old node at) }
        ensures room { OnOk result (length self.old.nodes < 2 ^ 32 - 1) }
        ensures err { OnErr result (self.new ≡ self.old) }
    {
        let number = next_number(self.nodes.len())?;
        self.nodes.push(Placed { item: node, at })?;
        Ok(number)
    }

    /// How many expressions there are.
    pub fn expr_count(&self) -> u32
        ensures { result ≡ length self.now.nodes }
    {
        self.nodes.len() as u32
    }

    /// Expression e.
    pub fn expr(&self, e: u32) -> &Node
        requires { e < length self.now.nodes }
        ensures { node_at self.now e ≡ Some result.now }
    {
        &self.nodes[e as usize].item
    }

    /// The number of the first token of expression n.
    pub fn expr_at(&self, n: u32) -> u32
        requires { n < length self.now.nodes }
        ensures { node_place self.now n ≡ Some result }
    {
        self.nodes[n as usize].at
    }

    /// Adds a statement whose first token in the text has this number, and answers its number. No memory is also answered where 2^32 - 1 statements were added already.
    pub fn add_statement(&mut self, statement: Statement, at: u32) -> Result<u32, AllocError>
        requires { IsTrue (covers_statement self.old statement) }
        ensures number { IfOk result (λ n. n ≡ length self.old.statements) }
        ensures ok { OnOk result (self.new ≡ with_statement self.old statement at) }
        ensures room { OnOk result (length self.old.statements < 2 ^ 32 - 1) }
        ensures err { OnErr result (self.new ≡ self.old) }
    {
        let number = next_number(self.statements.len())?;
        self.statements.push(Placed {
            item: statement,
            at,
        })?;
        Ok(number)
    }

    /// Statement s.
    pub fn statement(&self, s: u32) -> &Statement
        requires { s < length self.now.statements }
        ensures { statement_at self.now s ≡ Some result.now }
    {
        &self.statements[s as usize].item
    }

    /// Adds a function, which has no statement yet, and answers its number. All functions before it have their statements. No memory is also answered where 2^32 - 1 functions were added already.
    pub fn add_function(&mut self, function: Function) -> Result<u32, AllocError>
        requires { length self.old.functions ≡ length self.old.bodies }
        ensures number { IfOk result (λ n. n ≡ length self.old.functions) }
        ensures ok { OnOk result (self.new ≡ with_function self.old function) }
        ensures room { OnOk result (length self.old.functions < 2 ^ 32 - 1) }
        ensures err { OnErr result (self.new ≡ self.old) }
    {
        let number = next_number(self.functions.len())?;
        let nodes = self.nodes.len() as u32;
        let statements = self.statements.len() as u32;
        self.functions.push(Declared {
            function,
            nodes,
            statements,
        })?;
        Ok(number)
    }

    /// Gives the function that was added last its statement. From then on it may be called.
    pub fn add_body(&mut self, statement: u32) -> Result<(), AllocError>
        requires last { length self.old.functions ≡ length self.old.bodies + 1 }
        requires names { statement < length self.old.statements }
        ensures ok { OnOk result (self.new ≡ with_body self.old statement) }
        ensures err { OnErr result (self.new ≡ self.old) }
    {
        let nodes = self.nodes.len() as u32;
        let statements = self.statements.len() as u32;
        self.bodies.push(Body {
            statement,
            nodes,
            statements,
        })?;
        Ok(())
    }

    /// How many functions have their statements.
    pub fn function_count(&self) -> u32
        ensures { result ≡ length self.now.bodies }
    {
        self.bodies.len() as u32
    }

    /// Function f as it was declared.
    pub fn function(&self, f: u32) -> &Declared
        requires { f < length self.now.functions }
        ensures { declared_at self.now f ≡ Some result.now }
    {
        &self.functions[f as usize]
    }

    /// What function f does.
    pub fn body(&self, f: u32) -> Body
        requires { f < length self.now.bodies }
        ensures { body_at self.now f ≡ Some result }
    {
        self.bodies[f as usize]
    }

    /// The number of the first token of statement n.
    pub fn statement_at(&self, n: u32) -> u32
        requires { n < length self.now.statements }
        ensures { statement_place self.now n ≡ Some result }
    {
        self.statements[n as usize].at
    }
}

/// The number of the next of a kind, of which so many were added.
fn next_number(count: usize) -> Result<u32, AllocError>
    ensures number { IfOk result (λ n. n ≡ count) }
    ensures room { OnOk result (count < 2 ^ 32 - 1) }
    ensures err { OnErr result (2 ^ 32 - 1 ≤ count) }
{
    if count >= u32::MAX as usize {
        return Err(AllocError);
    }
    Ok(count as u32)
}

/// Adds a number to a list that has room for it.
fn push_reserved(list: &mut Vec<u32>, number: u32)
    requires { vec_len list.old < vec_capacity list.old }
    ensures { list.new.items ≡ list.old.items ++ number ∷ [] }
{
    let _ = list.push(number);
}

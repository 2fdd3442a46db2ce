//! Expressions (IEEE 1364-2005, A.8).

ghost use Rattle.std.specs.Prelude.{◌≡◌, IfOk};
ghost use Rattle.vs_grammar.specs.Trees as tree;
ghost use Rattle.vs_ast.specs.Views.{expr, exprs, name, select, slice_kind, system_function};

use crate::names::{Literal, Name};
use std::alloc::{AllocError, Global};
use vs_base::{BinaryOp, UnaryOp};

/// `$signed`, `$unsigned` (5.5) and `$clog2` (17.11).
#[derive(Clone, Copy, Debug)]
pub enum SystemFunction {
    AsSigned,
    AsUnsigned,
    Clog2,
}

/// `[a:b]`, `[a +: b]` and `[a -: b]` (5.2.1).
#[derive(Clone, Copy, Debug)]
pub enum SliceKind {
    Between,
    Upward,
    Downward,
}

/// An expression. `place` is the place of its first token.
#[cycle(expressions)]
#[derive(Drop)]
pub enum Expr {
    Number(Literal),
    /// A name, with what is selected of it.
    Named(Name, Select),
    /// A call of a function, `name(a, b, ..)` (10.4.3).
    Apply {
        name: Name,
        arguments: Vec<Expr>,
    },
    Unary {
        place: u32,
        op: UnaryOp,
        operand: Box<Expr>,
    },
    Binary {
        op: BinaryOp,
        left: Box<Expr>,
        right: Box<Expr>,
    },
    /// `condition ? yes : no` (5.1.13).
    Choice {
        condition: Box<Expr>,
        yes: Box<Expr>,
        no: Box<Expr>,
    },
    /// `{a, b, ..}` (5.1.14).
    Concatenation {
        place: u32,
        parts: Vec<Expr>,
    },
    /// `{count{a, b, ..}}`.
    Replication {
        place: u32,
        count: Box<Expr>,
        parts: Vec<Expr>,
    },
    Call {
        place: u32,
        function: SystemFunction,
        operand: Box<Expr>,
    },
    /// `(inner)`.
    Brackets {
        place: u32,
        inner: Box<Expr>,
    },
}

/// All of a name, one bit, or several (5.2.1), or one bit or several of a word of a memory or of an array of nets (5.2.2).
/// `bracket` is the place of the `[`.
#[cycle(expressions)]
#[derive(Drop)]
pub enum Select {
    Whole,
    Bit {
        bracket: u32,
        index: Box<Expr>,
    },
    Slice {
        bracket: u32,
        kind: SliceKind,
        left: Box<Expr>,
        right: Box<Expr>,
    },
    /// `[address]`, and what is selected of the word, which is a bit or several.
    Word {
        bracket: u32,
        address: Box<Expr>,
        part: Box<Select>,
    },
}

impl Expr {
    /// The call of a function.
    pub fn new_application(function: Name, arguments: Vec<Expr>) -> Expr
        ensures { expr result ≡ tree.Apply (name function) (exprs arguments.items) }
    {
        Expr::Apply {
            name: function,
            arguments,
        }
    }

    /// The operation on one expression.
    pub fn new_unary(
        alloc: Global,
        place: u32,
        op: UnaryOp,
        operand: Expr,
    ) -> Result<Expr, AllocError>
        ensures { IfOk result (λ e. expr e ≡ tree.Unary place op (expr operand)) }
    {
        let operand = Box::new(alloc, operand)?;
        Ok(Expr::Unary { place, op, operand })
    }

    /// The operation on two expressions.
    pub fn new_binary(
        alloc: Global,
        op: BinaryOp,
        left: Expr,
        right: Expr,
    ) -> Result<Expr, AllocError>
        ensures { IfOk result (λ e. expr e ≡ tree.Binary op (expr left) (expr right)) }
    {
        let left = Box::new(alloc, left)?;
        let right = Box::new(alloc, right)?;
        Ok(Expr::Binary { op, left, right })
    }

    /// The choice between two expressions.
    pub fn new_choice(
        alloc: Global,
        condition: Expr,
        yes: Expr,
        no: Expr,
    ) -> Result<Expr, AllocError>
        ensures { IfOk result (λ e. expr e ≡ tree.Choice (expr condition) (expr yes) (expr no)) }
    {
        let condition = Box::new(alloc, condition)?;
        let yes = Box::new(alloc, yes)?;
        let no = Box::new(alloc, no)?;
        Ok(Expr::Choice { condition, yes, no })
    }

    /// These parts in braces.
    pub fn new_concatenation(place: u32, parts: Vec<Expr>) -> Expr
        ensures { expr result ≡ tree.Concatenation place (exprs parts.items) }
    {
        Expr::Concatenation { place, parts }
    }

    /// These parts in braces, so many times.
    pub fn new_replication(
        alloc: Global,
        place: u32,
        count: Expr,
        parts: Vec<Expr>,
    ) -> Result<Expr, AllocError>
        ensures { IfOk result (λ e. expr e ≡ tree.Replication place (expr count) (exprs parts.items)) }
    {
        let count = Box::new(alloc, count)?;
        Ok(Expr::Replication {
            place,
            count,
            parts,
        })
    }

    /// The call of a system function.
    pub fn new_call(
        alloc: Global,
        place: u32,
        function: SystemFunction,
        operand: Expr,
    ) -> Result<Expr, AllocError>
        ensures { IfOk result (λ e. expr e ≡ tree.Call place (system_function function) (expr operand)) }
    {
        let operand = Box::new(alloc, operand)?;
        Ok(Expr::Call {
            place,
            function,
            operand,
        })
    }

    /// The expression in round brackets.
    pub fn new_brackets(alloc: Global, place: u32, inner: Expr) -> Result<Expr, AllocError>
        ensures { IfOk result (λ e. expr e ≡ tree.Brackets place (expr inner)) }
    {
        let inner = Box::new(alloc, inner)?;
        Ok(Expr::Brackets { place, inner })
    }
}

impl Select {
    /// One bit.
    pub fn new_bit(alloc: Global, bracket: u32, index: Expr) -> Result<Select, AllocError>
        ensures { IfOk result (λ s. select s ≡ tree.BitAt bracket (expr index)) }
    {
        let index = Box::new(alloc, index)?;
        Ok(Select::Bit { bracket, index })
    }

    /// Several bits.
    pub fn new_slice(
        alloc: Global,
        bracket: u32,
        kind: SliceKind,
        left: Expr,
        right: Expr,
    ) -> Result<Select, AllocError>
        ensures { IfOk result (λ s. select s ≡ tree.Slice bracket (slice_kind kind) (expr left) (expr right)) }
    {
        let left = Box::new(alloc, left)?;
        let right = Box::new(alloc, right)?;
        Ok(Select::Slice {
            bracket,
            kind,
            left,
            right,
        })
    }

    /// One bit or several of a word.
    pub fn new_word(
        alloc: Global,
        bracket: u32,
        address: Expr,
        part: Select,
    ) -> Result<Select, AllocError>
        ensures { IfOk result (λ s. select s ≡ tree.OfWord bracket (expr address) (select part)) }
    {
        let address = Box::new(alloc, address)?;
        let part = Box::new(alloc, part)?;
        Ok(Select::Word {
            bracket,
            address,
            part,
        })
    }
}

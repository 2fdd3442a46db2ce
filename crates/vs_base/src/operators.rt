//! The operators of expressions (IEEE 1364-2005, 5.1).

ghost use Rattle.std.specs.Prelude.{◌≡◌};
ghost use Rattle.vs_base.specs.Operators as spec;

/// An operator of one operand (IEEE 1364-2005, 5.1), or a cast (5.5).
#[derive(Clone, Copy, PartialEq, Eq, Debug)]
pub enum UnaryOp {
    /// `+`
    Plus,
    /// `-`
    Minus,
    /// `~`
    BitNot,
    /// `!`
    LogicalNot,
    /// `&`
    ReduceAnd,
    /// `~&`
    ReduceNand,
    /// `|`
    ReduceOr,
    /// `~|`
    ReduceNor,
    /// `^`
    ReduceXor,
    /// `~^` and `^~`
    ReduceXnor,
    /// `$signed`
    Signed,
    /// `$unsigned`
    Unsigned,
}

/// An operator of two operands (IEEE 1364-2005, 5.1).
#[derive(Clone, Copy, PartialEq, Eq, Debug)]
pub enum BinaryOp {
    /// `+`
    Add,
    /// `-`
    Subtract,
    /// `*`
    Multiply,
    /// `/`
    Divide,
    /// `%`
    Remainder,
    /// `&`
    BitAnd,
    /// `|`
    BitOr,
    /// `^`
    BitXor,
    /// `~^` and `^~`
    BitXnor,
    /// `<`
    Less,
    /// `<=`
    LessEqual,
    /// `>`
    Greater,
    /// `>=`
    GreaterEqual,
    /// `==`
    Equal,
    /// `!=`
    NotEqual,
    /// `===`
    CaseEqual,
    /// `!==`
    CaseNotEqual,
    /// `&&`
    LogicalAnd,
    /// `||`
    LogicalOr,
    /// `<<`
    ShiftLeft,
    /// `>>`
    ShiftRight,
    /// `<<<`
    ShiftLeftArith,
    /// `>>>`
    ShiftRightArith,
    /// `**`
    Power,
}

/// How an operator takes its operands (IEEE 1364-2005, table 5-22).
#[derive(Clone, Copy, PartialEq, Eq, Debug)]
pub enum Way {
    /// All in its own context.
    InContext,
    /// Each by itself.
    Own,
    /// Both in a context of their own.
    Compared,
    /// The first in its context, the second by itself.
    Shifted,
    /// As a shift does, which it isn't.
    Raised,
}

impl UnaryOp {
    /// How this operator takes its operand.
    pub fn way(self) -> Way
        ensures { result ≡ spec.unary_way self }
    {
        match self {
            UnaryOp::Plus | UnaryOp::Minus | UnaryOp::BitNot => Way::InContext,
            UnaryOp::LogicalNot
            | UnaryOp::ReduceAnd
            | UnaryOp::ReduceNand
            | UnaryOp::ReduceOr
            | UnaryOp::ReduceNor
            | UnaryOp::ReduceXor
            | UnaryOp::ReduceXnor
            | UnaryOp::Signed
            | UnaryOp::Unsigned => Way::Own,
        }
    }
}

impl BinaryOp {
    /// How this operator takes its operands.
    pub fn way(self) -> Way
        ensures { result ≡ spec.way self }
    {
        match self {
            BinaryOp::Add
            | BinaryOp::Subtract
            | BinaryOp::Multiply
            | BinaryOp::Divide
            | BinaryOp::Remainder
            | BinaryOp::BitAnd
            | BinaryOp::BitOr
            | BinaryOp::BitXor
            | BinaryOp::BitXnor => Way::InContext,
            BinaryOp::Less
            | BinaryOp::LessEqual
            | BinaryOp::Greater
            | BinaryOp::GreaterEqual
            | BinaryOp::Equal
            | BinaryOp::NotEqual
            | BinaryOp::CaseEqual
            | BinaryOp::CaseNotEqual => Way::Compared,
            BinaryOp::LogicalAnd | BinaryOp::LogicalOr => Way::Own,
            BinaryOp::ShiftLeft
            | BinaryOp::ShiftRight
            | BinaryOp::ShiftLeftArith
            | BinaryOp::ShiftRightArith => Way::Shifted,
            BinaryOp::Power => Way::Raised,
        }
    }
}

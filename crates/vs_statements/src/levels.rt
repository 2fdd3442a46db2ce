//! How strongly the operators between two operands bind (IEEE 1364-2005, table 5-4).

ghost use Rattle.std.specs.Prelude.{◌≡◌};
ghost use Rattle.vs_statements.specs.Levels.{below_of, is_unary_level, table_of};

use vs_base::BinaryOp;
use vs_lexer::TokenKind;

/// A level of the table: an operand with operators before it alone, or operands of the level below with operators of this one
/// between them.
#[derive(Clone, Copy, Debug)]
pub enum Level {
    Unary,
    Power,
    Product,
    Sum,
    Shift,
    Relation,
    Equality,
    BitAnd,
    BitXor,
    BitOr,
    LogicalAnd,
    LogicalOr,
}

/// Whether it is the strongest level.
pub fn is_unary(level: Level) -> bool
    ensures { result ≡ is_unary_level level }
{
    matches!(level, Level::Unary)
}

/// The level whose operators bind more strongly by one step.
pub fn below(level: Level) -> Level
    ensures { result ≡ below_of level }
{
    match level {
        Level::Unary | Level::Power => Level::Unary,
        Level::Product => Level::Power,
        Level::Sum => Level::Product,
        Level::Shift => Level::Sum,
        Level::Relation => Level::Shift,
        Level::Equality => Level::Relation,
        Level::BitAnd => Level::Equality,
        Level::BitXor => Level::BitAnd,
        Level::BitOr => Level::BitXor,
        Level::LogicalAnd => Level::BitOr,
        Level::LogicalOr => Level::LogicalAnd,
    }
}

/// The operators of a level.
pub fn operators(level: Level) -> &'static [(TokenKind, BinaryOp)]
    ensures { result.now ≡ table_of level }
{
    match level {
        Level::Unary => &[],
        Level::Power => &[(TokenKind::Power, BinaryOp::Power)],
        Level::Product => &[
            (TokenKind::Star, BinaryOp::Multiply),
            (TokenKind::Slash, BinaryOp::Divide),
            (TokenKind::Percent, BinaryOp::Remainder),
        ],
        Level::Sum => &[
            (TokenKind::Plus, BinaryOp::Add),
            (TokenKind::Minus, BinaryOp::Subtract),
        ],
        Level::Shift => &[
            (TokenKind::ShiftLeft, BinaryOp::ShiftLeft),
            (TokenKind::ShiftRight, BinaryOp::ShiftRight),
            (TokenKind::ArithmeticShiftLeft, BinaryOp::ShiftLeftArith),
            (TokenKind::ArithmeticShiftRight, BinaryOp::ShiftRightArith),
        ],
        Level::Relation => &[
            (TokenKind::Less, BinaryOp::Less),
            (TokenKind::LessEqual, BinaryOp::LessEqual),
            (TokenKind::Greater, BinaryOp::Greater),
            (TokenKind::GreaterEqual, BinaryOp::GreaterEqual),
        ],
        Level::Equality => &[
            (TokenKind::Equal, BinaryOp::Equal),
            (TokenKind::NotEqual, BinaryOp::NotEqual),
            (TokenKind::CaseEqual, BinaryOp::CaseEqual),
            (TokenKind::CaseNotEqual, BinaryOp::CaseNotEqual),
        ],
        Level::BitAnd => &[(TokenKind::And, BinaryOp::BitAnd)],
        Level::BitXor => &[
            (TokenKind::Caret, BinaryOp::BitXor),
            (TokenKind::Xnor, BinaryOp::BitXnor),
            (TokenKind::XnorCaret, BinaryOp::BitXnor),
        ],
        Level::BitOr => &[(TokenKind::Or, BinaryOp::BitOr)],
        Level::LogicalAnd => &[(TokenKind::AndAnd, BinaryOp::LogicalAnd)],
        Level::LogicalOr => &[(TokenKind::OrOr, BinaryOp::LogicalOr)],
    }
}

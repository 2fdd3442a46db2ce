//! What a token is, and what may be wrong with a text.

use thiserror::Error;

/// What a token is: one variant for each sign and each word of the grammar, and one for each class of token that is spelled
/// in many ways. `Text` to `LeftOutWord` and `Arrow` belong to no rule of the grammar.
#[derive(Clone, Copy, Debug, PartialEq, Eq)]
pub enum TokenKind {
    /// A simple identifier (IEEE 1364-2005, 3.7).
    Identifier,
    /// An unsized decimal number, 32 bits and signed (3.5.1).
    Decimal,
    /// A number with a base, with or without a size (3.5.1), or a string of at most eight characters (3.6).
    Based,
    /// A string (3.6) that is longer or has another escape, left out.
    Text,
    /// An escaped identifier (3.7.1), left out.
    EscapedIdentifier,
    /// A system name (3.7.3) other than the three below, left out.
    SystemName,
    /// A compiler directive (3.7.4) that is not skipped, left out.
    Directive,
    /// A keyword that no rule of the grammar has (annex B), left out.
    LeftOutWord,
    /// `$signed`
    SystemSigned,
    /// `$unsigned`
    SystemUnsigned,
    /// `$clog2`
    SystemClog2,
    /// `module`
    KeywordModule,
    /// `endmodule`
    KeywordEndModule,
    /// `parameter`
    KeywordParameter,
    /// `signed`
    KeywordSigned,
    /// `input`
    KeywordInput,
    /// `output`
    KeywordOutput,
    /// `wire`
    KeywordWire,
    /// `reg`
    KeywordReg,
    /// `generate`
    KeywordGenerate,
    /// `endgenerate`
    KeywordEndGenerate,
    /// `localparam`
    KeywordLocalParam,
    /// `assign`
    KeywordAssign,
    /// `always`
    KeywordAlways,
    /// `genvar`
    KeywordGenvar,
    /// `for`
    KeywordFor,
    /// `if`
    KeywordIf,
    /// `else`
    KeywordElse,
    /// `case`
    KeywordCase,
    /// `casez`
    KeywordCasez,
    /// `casex`
    KeywordCasex,
    /// `endcase`
    KeywordEndCase,
    /// `default`
    KeywordDefault,
    /// `begin`
    KeywordBegin,
    /// `end`
    KeywordEnd,
    /// `posedge`
    KeywordPosedge,
    /// `negedge`
    KeywordNegedge,
    /// `or`
    KeywordOr,
    /// `(`
    OpenParen,
    /// `)`
    CloseParen,
    /// `[`
    OpenBracket,
    /// `]`
    CloseBracket,
    /// `{`
    OpenBrace,
    /// `}`
    CloseBrace,
    /// `;`
    Semicolon,
    /// `:`
    Colon,
    /// `,`
    Comma,
    /// `.`
    Dot,
    /// `?`
    Question,
    /// `@`
    At,
    /// `#`
    Hash,
    /// `=`
    Assign,
    /// `+`
    Plus,
    /// `-`
    Minus,
    /// `*`
    Star,
    /// `/`
    Slash,
    /// `%`
    Percent,
    /// `~`
    Tilde,
    /// `!`
    Bang,
    /// `&`
    And,
    /// `|`
    Or,
    /// `^`
    Caret,
    /// `<`
    Less,
    /// `>`
    Greater,
    /// `&&`
    AndAnd,
    /// `||`
    OrOr,
    /// `==`
    Equal,
    /// `!=`
    NotEqual,
    /// `===`
    CaseEqual,
    /// `!==`
    CaseNotEqual,
    /// `<=`
    LessEqual,
    /// `>=`
    GreaterEqual,
    /// `<<`
    ShiftLeft,
    /// `>>`
    ShiftRight,
    /// `<<<`
    ArithmeticShiftLeft,
    /// `>>>`
    ArithmeticShiftRight,
    /// `~&`
    Nand,
    /// `~|`
    Nor,
    /// `~^`
    Xnor,
    /// `^~`
    XnorCaret,
    /// `+:`
    PlusColon,
    /// `-:`
    MinusColon,
    /// `**`
    Power,
    /// `->`, left out
    Arrow,
    /// `function`
    KeywordFunction,
    /// `endfunction`
    KeywordEndFunction,
    /// `integer`
    KeywordInteger,
    /// `initial`
    KeywordInitial,
}

/// The bytes `start..end` of a text.
#[derive(Clone, Copy, Debug, PartialEq, Eq)]
pub struct Span {
    pub start: u32,
    pub end: u32,
}

/// One token: the bytes `start..end` of the text spell it, behind those of `size`: these are the size of a number that stands elsewhere, as one that a
/// macro gave, in front of the number's base (3.5.1). `at` is the byte at which a reader of the text finds it: where it begins,
/// or, of a token that a macro gave, where the outermost use of a macro begins that it came from (IEEE 1364-2005, 19.3).
#[derive(Clone, Copy, Debug, PartialEq, Eq)]
pub struct Token {
    pub kind: TokenKind,
    pub start: u32,
    pub end: u32,
    pub at: u32,
    pub size: Option<Span>,
}

/// Why a text is not cut into tokens. Each number is the place of a byte of the text.
#[derive(Clone, Copy, Debug, PartialEq, Eq, Error)]
pub enum LexError {
    /// No token begins at this byte.
    #[error("no token at {0}")]
    NoToken(u32),
    /// The comment that begins here has no `*/`.
    #[error("open comment at {0}")]
    OpenComment(u32),
    /// The number that begins here has no digits, or a size or a value that is out of range.
    #[error("bad literal at {0}")]
    BadLiteral(u32),
    /// The token that begins here is one too many.
    #[error("too many tokens at {0}")]
    TooManyTokens(u32),
    /// There was not enough memory.
    #[error("out of memory")]
    Memory,
}

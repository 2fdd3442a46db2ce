//! Cuts the text of a design into tokens (IEEE 1364-2005, clause 3).
#![tactic(auto)]

mod bytes;
mod laws;
mod left_out;
mod lexer;
mod number;
mod scan;
mod strings;
mod tables;
mod token;
mod value;

pub use laws::{longest_law, tokens_law};
pub use left_out::is_left_out;
pub use lexer::{MAX_BYTES, MAX_TOKENS, lex};
pub use number::is_literal_in_range;
pub use token::{LexError, Span, Token, TokenKind};
pub use value::{Literal, is_number, read_literal, spelling};

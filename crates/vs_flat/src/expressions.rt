//! Expressions (IEEE 1364-2005, clause 5).

use vs_base::{BinaryOp, List, UnaryOp};
use vs_four::{Bits, Range};

/// One node of an expression. It names its parts by their numbers.
#[derive(Drop)]
pub enum Node {
    /// A literal, or the value of a parameter (IEEE 1364-2005, 3.5 and 4.10); `sized` says whether a size was given.
    Literal {
        bits: Bits,
        signed: bool,
        sized: bool,
    },
    /// A signal by its number.
    Name {
        signal: u32,
    },
    /// A local signal by its number within its function (IEEE 1364-2005, 10.4.1).
    Local {
        function: u32,
        signal: u32,
    },
    /// A bit select (IEEE 1364-2005, 5.2.1): `of` is a signal's name or a parameter's value, and `range` its declared bounds.
    Bit {
        of: u32,
        range: Range,
        index: u32,
    },
    /// A part select of `width` bits: `[base +: width]` where it goes up, else `[base -: width]`.
    Part {
        of: u32,
        range: Range,
        base: u32,
        up: bool,
        width: u32,
    },
    /// A word of a memory, a signal by its number, at the address that is the value of `index` (IEEE 1364-2005, 4.9.3).
    Word {
        signal: u32,
        index: u32,
    },
    /// `width` bits of a word of a memory (IEEE 1364-2005, 5.2.2): the memory is a signal by its number, `address` the word's address, and `range` the declared bounds of each word. They are `[base +: width]` where it goes up, else `[base -: width]`; a bit select is of one bit, upwards.
    WordPart {
        signal: u32,
        address: u32,
        range: Range,
        base: u32,
        up: bool,
        width: u32,
    },
    /// An operator of one operand.
    Unary {
        op: UnaryOp,
        a: u32,
    },
    /// An operator of two operands.
    Binary {
        op: BinaryOp,
        a: u32,
        b: u32,
    },
    /// `c ? p : q` (IEEE 1364-2005, 5.1.13)
    Choice {
        c: u32,
        p: u32,
        q: u32,
    },
    /// A concatenation, the most significant part first, or a replication, whose parts are named once for each copy (IEEE 1364-2005, 5.1.14).
    Join {
        parts: List<u32>,
    },
    /// A call of a function, with its arguments in order (IEEE 1364-2005, 10.4.3).
    Call {
        function: u32,
        arguments: List<u32>,
    },
}

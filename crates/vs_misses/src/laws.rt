//! Laws of the definitions: each is a function with an empty body whose `ensures` is the law.

ghost use Rattle.vs_misses.specs.Laws.{NoneIsMissed, FirstIsMissed, TextReadsBack};

/// Nothing is missed exactly where each digit of each column is met by its bit. What is missed else is the first column that isn't.
pub fn first_miss_law()
    ensures none { NoneIsMissed }
    ensures first { FirstIsMissed }
{}

/// The text of digits that were wanted is read as these digits.
pub fn text_law()
    ensures { TextReadsBack }
{}

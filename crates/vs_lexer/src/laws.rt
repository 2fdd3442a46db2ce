//! What the definitions of tokens give together.

ghost use Rattle.vs_lexer.specs.Laws.{LongestIsTaken, TokensStand};

/// At each place the longest prefix that is a token is taken, and none where no prefix is one.
pub fn longest_law()
    ensures { LongestIsTaken }
{}

/// The tokens of a text are within the limit, and each is the longest token at its place.
pub fn tokens_law()
    ensures { TokensStand }
{}

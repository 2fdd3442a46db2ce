//! What the definitions give together.

ghost use Rattle.vs_pre.specs.Laws.{AttributesAreSkipped, KeptAreTokens, PlainStays};

/// Tokens without a directive, an attribute and a size in front of its number are given back as they are.
pub fn pre_law()
    ensures { PlainStays }
{}

/// What the tokens of a text become are tokens of it, no more than the limit.
pub fn kept_law()
    ensures { KeptAreTokens }
{}

/// Attributes are skipped from their beginning to their end, and no other token.
pub fn attributes_law()
    ensures { AttributesAreSkipped }
{}

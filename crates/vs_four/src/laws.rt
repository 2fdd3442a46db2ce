//! Laws of the operators: what their definitions mean, in words of their own.

ghost use Rattle.vs_four.specs.Laws.{SumIsModular, DifferenceIsModular, ProductIsModular, NegationIsModular, QuotientIsModular, RemainderIsModular, ComparisonIsExact, IntegersAreTwosComplement, KnowledgeGrows, EqualityInWords, TruthInWords, ExtendThenCut, WriteThenSelect};

/// Of known operands of one length `+` is the sum of the integers modulo 2^w, be they signed or not.
pub fn sum_law()
    ensures { SumIsModular }
{}

/// Of known operands of one length `-` is the difference of the integers modulo 2^w.
pub fn difference_law()
    ensures { DifferenceIsModular }
{}

/// Of known operands of one length `*` is the product of the integers modulo 2^w.
pub fn product_law()
    ensures { ProductIsModular }
{}

/// Of a known operand `-a` is the integer with the other sign, modulo 2^w.
pub fn negation_law()
    ensures { NegationIsModular }
{}

/// Where it has a value, `/` is the quotient of the integers, rounded towards zero, modulo 2^w.
pub fn quotient_law()
    ensures { QuotientIsModular }
{}

/// Where it has a value, `%` is the remainder of the integers, with the sign of the first operand, modulo 2^w.
pub fn remainder_law()
    ensures { RemainderIsModular }
{}

/// Of known operands of one length `<` is the comparison of the integers, signed where both are.
pub fn comparison_law()
    ensures { ComparisonIsExact }
{}

/// The integers of vectors are those of two's complement.
pub fn integer_law()
    ensures { IntegersAreTwosComplement }
{}

/// Where unknown operand bits become known, no known result bit of `&`, `|`, `^` and `~` changes.
pub fn knowledge_law()
    ensures { KnowledgeGrows }
{}

/// `==` is 0 where two known bits differ, 1 where all bits are known and the same, else x.
pub fn equality_law()
    ensures { EqualityInWords }
{}

/// The truth of a vector is 1 where some bit is 1, 0 where all bits are 0, else x.
pub fn truth_law()
    ensures { TruthInWords }
{}

/// A value that is extended and then cut to its old length is as it was.
pub fn extend_law()
    ensures { ExtendThenCut }
{}

/// A select by the known, in-range index of a write gives the value that was written.
pub fn write_law()
    ensures { WriteThenSelect }
{}

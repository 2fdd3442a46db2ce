//! What holds of every program.

ghost use Rattle.vs_code.specs.Laws.{LengthIsWithinWeight, OneIsCalled, SequenceIsBoth};

/// Calls after calls are the first ones, to a state in the middle, and then the others from it. A list of one call is that call.
pub fn sequence_law()
    ensures both { SequenceIsBoth }
    ensures one { OneIsCalled }
{}

/// A program makes at most as many stores as its calls weigh in the size of a design.
pub fn weight_law()
    ensures { LengthIsWithinWeight }
{}

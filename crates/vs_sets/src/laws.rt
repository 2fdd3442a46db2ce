//! What holds of statements whose assignments are all blocking.

ghost use Rattle.vs_sets.specs.Laws.{BlockingIsAtOnce};

/// A statement that mixes no assignments of a combinational block is the same with each `<=` taken as a `=`: it has none.
pub fn at_once_law()
    ensures { BlockingIsAtOnce }
{}

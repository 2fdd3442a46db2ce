//! Laws of what a text of a stimulus gives.

ghost use Rattle.vs_stim.specs.Laws.{FirstIsKnown, ControlsAreKnown, WholeHasVector, VectorsFit, LaterLinesChangeNothing, LinesOfVectors};
ghost use Rattle.vs_stim.specs.Laws.{DemandChangesNothing, DemandChangesNoHeader, DemandedAreNamed, LackingIsRefused, RefusedIsLacking};

/// The first vector of a text has no unknown digit and no vector has one in a reset input or a select input, a whole text has a vector, and each
/// vector has a value for each input, of that input's length.
pub fn known_law()
    ensures known { FirstIsKnown }
    ensures some { WholeHasVector }
    ensures fit { VectorsFit }
    ensures controls { ControlsAreKnown }
{}

/// Vectors depend on no line behind theirs.
pub fn prefix_law()
    ensures { LaterLinesChangeNothing }
{}

/// The vector that was read last stands on the line whose number is known.
pub fn line_law()
    ensures { LinesOfVectors }
{}

/// A header that names no output is refused where outputs are demanded, and nothing else changes by that.
pub fn demand_law()
    ensures same { DemandChangesNothing }
    ensures headers { DemandChangesNoHeader }
    ensures named { DemandedAreNamed }
    ensures lacking { LackingIsRefused }
    ensures only { RefusedIsLacking }
{}

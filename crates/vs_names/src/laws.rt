//! What holds of every design.

ghost use Rattle.vs_names.specs.Drawn.{PlacesInText};

/// The place of the process that has a number in a report is where begins what has this number in the order of the text.
pub fn place_law()
    ensures { PlacesInText }
{}

//! What holds of every text's top.

ghost use Rattle.vs_tops.specs.Designs.{GivenIsElaborated, OwnIsElaborated};

/// The design from a top that is given is that of elaboration from it, and where none is given that from the text's own top, as if its name were given.
pub fn top_law()
    ensures given { GivenIsElaborated }
    ensures own { OwnIsElaborated }
{}

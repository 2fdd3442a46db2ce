//! What the definitions of a scope's survey say of what is built.

ghost use Rattle.vs_build.specs.Items.{AssignsAreFine, WiresAreFine, BlocksAreFine, ScopedBlocksAreFine, InitialsAreFine, FunctionsAreFine};

/// Where a scope's survey has no fault, the assigns, the values of nets, the always and the initial blocks of its items can be built, and what is built for each
/// is what the survey says: its pieces, in order (IEEE 1364-2005, 6.1, 6.1.1 and 9.9). So can its functions, each within the names of its own (10.4).
pub fn fine_law()
    ensures assigns { AssignsAreFine }
    ensures wires { WiresAreFine }
    ensures blocks { BlocksAreFine }
    ensures scoped { ScopedBlocksAreFine }
    ensures initials { InitialsAreFine }
    ensures functions { FunctionsAreFine }
{}

//! What holds of the copy of next values.

ghost use Rattle.vs_assemble.specs.Copies.{CopyIsCall};

use vs_cone::{list_law, sources_law};

/// The call that copies the next values of the registers to their bits meets what is asked of a call.
pub fn copy_law()
    ensures { CopyIsCall }
{
    sources_law();
    list_law();
}

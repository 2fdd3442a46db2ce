//! The bits that an assignment surely assigns.

ghost use Rattle.std.specs.Prelude.{◌≡◌, ◌<◌, ◌++◌, length, OnOk};
ghost use Rattle.vs_design.specs.Latches.{assigns};
ghost use Rattle.vs_flat.specs.Trees.{target_tree};
ghost use Rattle.vs_shape.specs.Nodes.{tree_of};
ghost use Rattle.vs_shape.specs.Walked.{IsTarget};

use std::alloc::AllocError;
use vs_flat::Node;
use vs_shape::Shapes;

/// Adds the bits of target e that are surely assigned: those of a name, or of a select or a word by a constant index. A select or a word by any other index
/// assigns none for sure; nor does a part of a word, unless both of its indices are constant.
pub(crate) fn push_assigned(shapes: &Shapes, e: u32, out: &mut Vec<u32>) -> Result<(), AllocError>
    requires there { e < length shapes.now.nodes }
    requires target { IsTarget (tree_of shapes.now e) }
    ensures { OnOk result (out.new.items ≡ out.old.items ++ assigns (target_tree (tree_of shapes.now e))) }
{
    match shapes.node(e) {
        Node::Bit { index, .. } | Node::Part { base: index, .. } | Node::Word { index, .. } => {
            if shapes.shape(*index).constant {
                shapes.push_target(e, out)
            } else {
                Ok(())
            }
        }
        Node::WordPart { address, base, .. } => {
            if shapes.shape(*address).constant && shapes.shape(*base).constant {
                shapes.push_target(e, out)
            } else {
                Ok(())
            }
        }
        Node::Join { parts } => {
            for part in parts.as_slice() {
                push_assigned(shapes, *part, out)?;
            }
            Ok(())
        }
        _ => shapes.push_target(e, out),
    }
}

//! Assignments of constants (IEEE 1364-2005, 5.5.3 and 9.2).

ghost use Rattle.std.specs.Prelude.{◌≡◌, ◌<◌, length, take, true};
ghost use Rattle.vs_net.specs.Network.{write_all};
ghost use Rattle.vs_design.specs.Bodies.{assignment_writes};
ghost use Rattle.vs_design.specs.Elaborated.{has_constant_selects};
ghost use Rattle.vs_design.specs.Expressions as E;
ghost use Rattle.vs_design.specs.Fits.{is_fit};
ghost use Rattle.vs_design.specs.Values.{assigned_value};
ghost use Rattle.vs_sets.specs.FitParts.{Is64};
ghost use Rattle.vs_sets.specs.Nodes.{tree_of};
ghost use Rattle.vs_sets.specs.TargetsOf.{IsTarget, target_tree};
ghost use Rattle.vs_zero.specs.Constants.{TargetBelow};
ghost use Rattle.vs_zero.specs.States.{state_of, unknown};

use crate::targets::put;
use vs_four::{Bit4, Bits, cut};
use vs_shape::Shapes;

/// The bits of a value, least significant first, in an array that has room for any.
fn listed(value: Bits) -> [Bit4; 64]
    ensures { take (length value) result ≡ value }
{
    let mut list = [Bit4::X; 64];
    for k in 0..value.len() {
        list[k as usize] = value.get(k);
    }
    list
}

/// The value of a constant right side for a target of this length: in the larger of both lengths and its own sign, and then cut.
fn assigned_value(shapes: &Shapes, e: u32, len: u32) -> Bits
    requires there { e < length shapes.now.nodes }
    requires fit { is_fit (tree_of shapes.now e) ≡ true }
    requires constant { E.is_constant (tree_of shapes.now e) ≡ true }
    requires few { Is64 len }
    ensures value { result ≡ assigned_value (tree_of shapes.now e) len unknown }
    ensures length { length result ≡ len }
{
    let shape = shapes.shape(e);
    let value = shapes.value(e, u32::from(shape.width).max(len), shape.signed);
    cut(value, len)
}

/// Assigns a constant to a target with constant selects.
pub(crate) fn assign(shapes: &Shapes, target: u32, e: u32, state: &mut [Bit4])
    requires within { TargetBelow (length state.old) (target_tree (tree_of shapes.now target)) }
    requires target_there { target < length shapes.now.nodes }
    requires there { e < length shapes.now.nodes }
    requires target { IsTarget (tree_of shapes.now target) }
    requires selects { has_constant_selects (target_tree (tree_of shapes.now target)) ≡ true }
    requires fit { is_fit (tree_of shapes.now e) ≡ true }
    requires constant { E.is_constant (tree_of shapes.now e) ≡ true }
    ensures { state_of state.new ≡ write_all (state_of state.old) (assignment_writes (target_tree (tree_of shapes.now target)) (tree_of shapes.now e) unknown) }
{
    let len = u32::from(shapes.shape(target).width);
    let bits = listed(assigned_value(shapes, e, len));
    put(shapes, target, &bits[..len as usize], state);
}

//! Contexts of expressions that stand by themselves, and of the items of a case (IEEE 1364-2005, 5.4.1 and 9.5).

ghost use Rattle.std.specs.Prelude.{◌≡◌, ◌≤◌, ◌<◌, length, map, true};
ghost use Rattle.vs_design.specs.Expressions as E;
ghost use Rattle.vs_design.specs.Fits.{is_fit, fit_items, fits_arms};
ghost use Rattle.vs_design.specs.Statements as T;
ghost use Rattle.vs_sets.specs.FitParts.{Is64};
ghost use Rattle.vs_sets.specs.Nodes.{EachBelow, tree_of};
ghost use Rattle.vs_sets.specs.StatementParts.{ArmsBelow, arms_of};

use vs_base::Context;
use vs_flat::Arm;
use vs_shape::Shapes;

/// The context of an expression that stands by itself.
pub fn own_context(shapes: &Shapes, e: u32) -> Context
    requires there { e < length shapes.now.nodes }
    requires fit { is_fit (tree_of shapes.now e) ≡ true }
    ensures width { result.width ≡ E.width (tree_of shapes.now e) }
    ensures signed { result.signed ≡ E.sign (tree_of shapes.now e) }
    ensures few { Is64 result.width }
{
    shapes.shape(e).context()
}

/// The context of a case's items, with those of one arm more.
fn with_items(shapes: &Shapes, context: Context, items: &[u32]) -> Context
    requires there { EachBelow (length shapes.now.nodes) items.now }
    requires fit { fit_items (E.items_of (map (tree_of shapes.now) items.now)) ≡ true }
    requires few { context.width ≤ 64 }
    ensures width { result.width ≡ T.widest context.width (E.items_of (map (tree_of shapes.now) items.now)) }
    ensures signed { result.signed ≡ T.all_signed context.signed (E.items_of (map (tree_of shapes.now) items.now)) }
    ensures few { result.width ≤ 64 }
{
    let mut all = context;
    for item in items {
        all = all.shared(own_context(shapes, *item));
    }
    all
}

/// The context of a case's expression and items: their largest length, signed only if all are (IEEE 1364-2005, 9.5).
pub fn case_context(shapes: &Shapes, own: Context, arms: &[Arm], other: Option<u32>) -> Context
    requires there { ArmsBelow (length shapes.now.nodes) (length shapes.now.statements) arms.now }
    requires fit { fits_arms (arms_of shapes.now other arms.now) ≡ true }
    requires few { own.width ≤ 64 }
    ensures width { result.width ≡ T.arms_width (arms_of shapes.now other arms.now) own.width }
    ensures signed { result.signed ≡ T.arms_sign (arms_of shapes.now other arms.now) own.signed }
    ensures few { result.width ≤ 64 }
{
    let mut all = own;
    for arm in arms {
        all = with_items(shapes, all, arm.items.as_slice());
    }
    all
}

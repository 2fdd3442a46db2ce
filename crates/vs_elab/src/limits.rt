//! The limits of instances: how deep they stand within one another, and how many there are.

ghost use Rattle.std.specs.Prelude.{◌≡◌, true};
ghost use Rattle.vs_const.specs.Faults.{least};
ghost use Rattle.vs_elaborated.specs.Elaborated.{limit_faults};
ghost use Rattle.vs_elaborated.specs.Limits.{the_limits};
ghost use Rattle.vs_elaborated.specs.Pieces.{Task, is_instance};
ghost use Rattle.vs_elaborated.specs.Surveys.{Totals};

use vs_const::{Fault, Rule, fault_if, first_of};

/// The fault of an instance whose item begins at `place`: `InstanceDepth`, where over 32 instances stand within one another, or `TooManyInstances`, where it is past the last one
/// of 4,096. `depth` counts the instances around it and itself, and `instances` those of the whole design so far with it.
pub(crate) fn limit_fault(place: u32, depth: u32, instances: u32) -> Option<Fault>
    ensures { (t : Task) (totals : Totals) → is_instance t.contents ≡ true → t.place ≡ place → t.depth ≡ depth → totals.instances ≡ instances → result ≡ least (limit_faults the_limits t totals) }
{
    let deep = fault_if(depth > 32, Rule::InstanceDepth, place);
    let many = fault_if(instances > 4096, Rule::TooManyInstances, place);
    first_of(deep, many)
}

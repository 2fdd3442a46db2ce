//! Maps that keep the first value of each name.

ghost use Rattle.std.specs.Prelude.{◌≡◌, ◌++◌, [], ◌∷◌, List, IfOk, OnOk, is_some};
ghost use Rattle.vs_maps.specs.Maps.{AreDistinct, Pair, value_at};
ghost use Rattle.vs_maps.specs.MapViews.{pairs};
ghost use Rattle.vs_items.specs.Noted.{AreFirst, MayHave, named};

use std::alloc::AllocError;
use vs_maps::NameMap;

/// Gives the name this value where it has none yet, and answers whether it had one.
pub(crate) fn note<'a, V: Drop>(
    map: &mut NameMap<'a, V>,
    name: &'a [u8],
    value: V,
) -> Result<bool, AllocError>
    ensures had { IfOk result (λ had. had ≡ is_some (value_at name.now (pairs map.old))) }
    ensures first { OnOk result ((all : List (Pair V)) → AreFirst (pairs map.old) all → AreFirst (pairs map.new) (all ++ named name.now value ∷ [])) }
    ensures distinct { OnOk result (AreDistinct (pairs map.new)) }
    ensures may { OnOk result (MayHave (pairs map.old) (pairs map.new) name.now value) }
{
    if map.get(name).is_some() {
        return Ok(true);
    }
    map.put(name, value)?;
    Ok(false)
}

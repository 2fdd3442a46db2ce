//! What an expression has to be, and what names mean in it.

ghost use Rattle.vs_const.specs.Meanings.{Meaning, Means, steady_meaning};
ghost use Rattle.vs_const.specs.Needs.{is_needed, names_for};

use crate::names::{Env, Named};
use crate::rules::Rule;

/// Anything, a constant, or a constant that names no integer of a loop either, as the bounds of a part and the count of a replication are.
#[derive(Clone, Copy, Debug)]
pub(crate) enum Need {
    Anything,
    Constant,
    Steady,
}

impl Need {
    ghost use Rattle.std.specs.Prelude.{◌≡◌};

    /// Whether it has to be a constant.
    pub(crate) fn is_needed(self) -> bool
        ensures { result ≡ is_needed self }
    {
        !matches!(self, Need::Anything)
    }
}

/// What a name means where no integer of a loop may stand.
fn steady(named: Named) -> Named
    ensures { (m : Meaning) → Means named m → Means result (steady_meaning m) }
{
    match named {
        Named::Value { turns: true, .. } => Named::Barred(Rule::NotConstant),
        _ => named,
    }
}

/// What a name means in such an expression.
pub(crate) fn meant<E: Env>(env: &E, need: Need, name: &[u8]) -> Named
    ensures { Means result (names_for need (E.names env.now) name.now) }
{
    let named = env.find(name);
    match need {
        Need::Anything => named,
        Need::Constant => named,
        Need::Steady => steady(named),
    }
}

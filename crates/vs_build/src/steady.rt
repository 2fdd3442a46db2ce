//! Names where no integer of a loop may stand (IEEE 1364-2005, 5.1.14 and 5.2.1): in the bounds and the width of a part, and in the count of a replication.

ghost use Rattle.vs_const.specs.Meanings.{Means, Meaning, steady, steady_meaning};

use vs_const::{Env, Named, Rule, SignalShape};

/// The names of an environment, where no integer of a loop may stand.
#[derive(Clone, Copy)]
pub(crate) struct Steady<'e, E> {
    pub(crate) env: &'e E,
}

/// What a name means there.
fn kept(named: Named) -> Named
    ensures { (m : Meaning) → Means named m → Means result (steady_meaning m) }
{
    match named {
        Named::Value { turns: true, .. } => Named::Barred(Rule::NotConstant),
        _ => named,
    }
}

impl<E: Env> Env for Steady<'_, E> {
    ghost names = { λ s. steady (E.names s.env.now) };

    fn find(&self, name: &[u8]) -> Named {
        kept(self.env.find(name))
    }

    fn passed(&self, name: &[u8], number: u32) -> Option<SignalShape> {
        self.env.passed(name, number)
    }
}

//! The clocked blocks that stir one bit, as far as they matter.

ghost use Rattle.std.specs.Prelude.{◌≡◌};
ghost use Rattle.vs_race.specs.Stirrers.{joined, has_other};

/// Which clocked blocks stir a bit, by process.
#[derive(Clone, Copy, PartialEq, Eq, Debug)]
pub(crate) enum Stirrer {
    /// None does.
    Nobody,
    /// This one alone does.
    One(u32),
    /// Two or more do.
    Several,
}

impl Stirrer {
    /// Those of both.
    pub(crate) fn joined(self, other: Stirrer) -> Stirrer
        ensures { result ≡ joined self other }
    {
        match (self, other) {
            (Stirrer::Nobody, _) => other,
            (_, Stirrer::Nobody) => self,
            (Stirrer::One(p), Stirrer::One(q)) => { if p == q { self } else { Stirrer::Several } }
            _ => Stirrer::Several,
        }
    }

    /// Whether a block other than process p is among them.
    pub(crate) fn has_other(self, p: u32) -> bool
        ensures { result ≡ has_other self p }
    {
        match self {
            Stirrer::Nobody => false,
            Stirrer::One(q) => q != p,
            Stirrer::Several => true,
        }
    }
}

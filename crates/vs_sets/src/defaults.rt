//! The defaults of cases.

ghost use Rattle.std.specs.Prelude.{◌≡◌, if◌then◌else◌};
ghost use Rattle.vs_sets.specs.Completing.{default_in};

/// What stands for the defaults of a design's cases: what they have as they stand, or what they have where their statements are completed, for each case by its number.
#[derive(Clone, Copy)]
pub struct Defaults<'a> {
    pub complete: bool,
    pub others: &'a [Option<u32>],
}

impl Defaults<'_> {
    /// The default of case s, which as it stands has this one.
    pub fn default_of(&self, s: u32, other: Option<u32>) -> Option<u32>
        ensures { result ≡ (if self.now.complete then default_in self.now.others.now s else other) }
    {
        if !self.complete {
            return other;
        }
        match self.others.get(s as usize) {
            Some(default) => *default,
            None => None,
        }
    }
}

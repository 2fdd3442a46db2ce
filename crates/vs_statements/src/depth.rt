//! How deep a phrase stands.

ghost use Rattle.std.specs.Prelude.{◌≡◌, ◌+◌, ◌<◌, ◌≤◌, MatchResult};
ghost use Rattle.std.proofs.Props.{props};

use crate::error::ParseError;

/// The number of levels around a phrase, at most 200.
#[derive(Clone, Copy)]
pub struct Depth {
    pub value: u32,
    pub ghost limit: { value ≤ 200 } by { Prim.hlevel props },
}

impl Depth {
    /// The depth inside of a level that begins at this place.
    pub fn deeper(self, at: u32) -> Result<Depth, ParseError>
        ensures { MatchResult result (λ inner. inner.value ≡ self.value + 1) (λ e. (e ≡ ParseError.TooDeep at) × (200 ≤ self.value)) }
    {
        if self.value < 200 {
            Ok(Depth {
                value: self.value + 1,
            })
        } else {
            Err(ParseError::TooDeep(at))
        }
    }

    /// The depth inside of a level that begins at this place and is around what was read, which has so many levels.
    pub fn around(self, height: u32, at: u32) -> Result<Depth, ParseError>
        ensures { MatchResult result (λ inner. (inner.value ≡ self.value + 1) × (self.value + height < 200)) (λ e. (e ≡ ParseError.TooDeep at) × (200 ≤ self.value + height)) }
    {
        if height < 200 - self.value {
            Ok(Depth {
                value: self.value + 1,
            })
        } else {
            Err(ParseError::TooDeep(at))
        }
    }
}

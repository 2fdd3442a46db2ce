//! What holds of every text.

ghost use Rattle.vs_accept.specs.Accepted.{NotBoth, OneDesign, OneRefusal};
ghost use Rattle.vs_accept.specs.Numbers.{NumbersArePlaces};
ghost use Rattle.vs_accept.specs.Outputs.{OneReading};

use vs_design::{accepted_law, cycle_law};
use vs_flat::text_law;
use vs_grammar::laws::spelled_law;

/// A text is read as one tree at most, and accepted as one design at most, and then it is not refused. All its refusals are the same one, but that another cycle may be told,
/// and another token at which its tree is broken. The number that a refusal gives to a process is its place in the order of the text.
pub fn answer_law()
    ensures reading { OneReading }
    ensures one { OneDesign }
    ensures not_both { NotBoth }
    ensures alike { OneRefusal }
    ensures numbers { NumbersArePlaces }
{
    spelled_law();
    accepted_law();
    cycle_law();
    text_law();
}

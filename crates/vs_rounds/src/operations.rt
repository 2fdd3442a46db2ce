//! How many plane operations rounds execute.

ghost use Rattle.std.specs.Prelude.{◌≡◌, ◌+◌, ◌*◌, ◌<◌, ◌≤◌, ◌^◌};
ghost use Rattle.vs_program.specs.Program.{fall_stores, rise_stores};
ghost use Rattle.vs_rounds.specs.Ready.{settling_stores};

use vs_engine::Engine;
use vs_plane::Word;

/// How many plane operations each of an engine's slots executes, for all lanes together.
#[derive(Clone, Copy)]
pub(crate) struct SlotOperations {
    /// The next slot in which the clocks fall.
    next_fall: u64,
    /// Each later one in which it falls.
    later_fall: u64,
    /// Each one in which it rises.
    rise: u64,
}

impl SlotOperations {
    /// Those of this engine, as it stands.
    pub(crate) fn of<W: Word>(engine: &Engine<W>) -> SlotOperations
        ensures next_fall { result.next_fall ≡ settling_stores engine.now.program engine.now.begun }
        ensures later_fall { result.later_fall ≡ fall_stores engine.now.program }
        ensures rise { result.rise ≡ rise_stores engine.now.program }
        ensures few { (result.next_fall < 2 ^ 32) × (result.later_fall < 2 ^ 32) × (result.rise < 2 ^ 32) }
    {
        let (next_fall, rise) = engine.stores();
        SlotOperations {
            next_fall,
            later_fall: engine.later_stores(),
            rise,
        }
    }

    /// How many so many rounds execute, each a fall and a rise.
    pub(crate) fn in_rounds(self, rounds: u64) -> u64
        requires few { (self.next_fall < 2 ^ 32) × (self.later_fall < 2 ^ 32) × (self.rise < 2 ^ 32) }
        requires rounds { rounds ≤ 16777217 }
        ensures none { rounds ≡ 0 → result ≡ 0 }
        ensures some { 0 < rounds → result + self.later_fall ≡ self.next_fall + rounds * (self.later_fall + self.rise) }
    {
        if rounds == 0 {
            return 0;
        }
        self.next_fall + self.rise + (rounds - 1) * (self.later_fall + self.rise)
    }
}

//! The stimuli of all lanes.

ghost use Rattle.std.specs.Prelude.{◌≡◌, ◌≢◌, ℕ, ◌+◌, ◌<◌, ◌≤◌, List, All, Ok, Err, true, false, length, map, vec_len, IsTrue, IfOk, IfErr, OnOk};
ghost use Rattle.vs_plane.specs.Lanes.{pair_lane};
ghost use Rattle.vs_desk.specs.Desk.{Fails};
ghost use Rattle.vs_desk.specs.Places.{stimulus_place, most_lanes};
ghost use Rattle.vs_stim.specs.Header.{ArePorts};
ghost use Rattle.vs_stim.specs.Known.{remaining};
ghost use Rattle.vs_stim.specs.Reading.{refused};
ghost use Rattle.vs_stim.specs.Source.{IsVectorError};
ghost use Rattle.vs_feed.specs.Lanes.{lane_at, AreLanes, some_live, AllEnded, AreAttached, OtherPlacesKept};
ghost use Rattle.vs_feed.specs.Reading.{AreTaken, AreRead, IsUntoldAt, SameSizes};
ghost use Rattle.vs_feed.specs.Opened.{texts, with_lanes, AreFree, HaveHeaders, AreOpened, StopsOpening};
ghost use Rattle.vs_feed.specs.Fed.{driven, HaveBits};

use crate::Stopped;
use crate::column::feed_all;
use crate::opening::open_all;
use crate::reading::{is_any_live, note_live, read_all};
use std::alloc::Global;
use std::marker::Model;
use vs_desk::{Desk, MOST_LANES, attach_law};
use vs_plane::{Lanes, Pair};
use vs_stim::{Ports, StimError, Stimulus};

/// The stimuli of 1 to 256 lanes. Lane i reads place 1000 + i of a desk. Contracts see what is known
/// of each (`Known`), by lane.
#[derive(Drop)]
pub struct Drive {
    stimuli: Vec<Stimulus>,
    live: [bool; MOST_LANES],
}

impl Model for Drive {
    ghost use Rattle.std.specs.Prelude.{List};
    ghost use Rattle.vs_stim.specs.Known.{Known};

    ghost Value = { List Known };

    ghost use Rattle.vs_feed.specs.Drive.{IsDrive};

    ghost view = { λ d. d.stimuli.items };

    ghost invariant = { IsDrive };
}

/// Opens the stimuli, by lane: attaches place 1000 + i to path i, and reads the text's header there.
///
/// The refusals are `BadHeader`, `StimulusTooLong` and `LineTooLong`, each at a line up to the header of
/// the least lane that has such a text (70, 75, 76), and `NoExpectation` (79), where headers have to name
/// outputs and that lane's names none. All the memory that the stimuli need is taken here.
pub fn open<D: Desk>(
    alloc: Global,
    desk: &mut D,
    paths: Vec<String>,
    ports: &Ports,
) -> Result<Drive, Stopped>
    requires lanes { length paths.items ≤ most_lanes }
    requires free { AreFree (D.told desk.old).register (length paths.items) }
    requires ports { ArePorts ports.now }

    // Each lane's text is read up to its header.
    ensures opened { IfOk result (AreOpened D.tells ports.now (D.told desk.old).contents (D.told desk.new).contents (texts paths.items)) }
    ensures headers { IsTrue D.tells → OnOk result (HaveHeaders ports.now (D.told desk.old).contents.files (texts paths.items) (length paths.items)) }
    ensures numbered { IfOk result AreLanes }
    ensures attached { OnOk result ((D.told desk.new).register ≡ with_lanes (D.told desk.old).register (texts paths.items)) }
    ensures readable { IfOk result (AreAttached (D.told desk.new).register) }

    // The first lane that isn't stops it.
    ensures stopped { IfErr result (StopsOpening ports.now (texts paths.items) (D.told desk.old) (D.told desk.new)) }

    // On the desk only bytes at the lanes' places are taken.
    ensures others { IsTrue D.tells → OtherPlacesKept (length paths.items) (D.told desk.old).contents (D.told desk.new).contents }
{
    attach_law();
    let stimuli = open_all(alloc, desk, paths, ports)?;
    Ok(Drive {
        stimuli,
        live: [true; MOST_LANES],
    })
}

impl Drive {
    /// How many lanes there are.
    pub fn lanes(&self) -> u32
        ensures count { result ≡ length self.now }
        ensures numbered { AreLanes self.now }
    {
        self.stimuli.len() as u32
    }

    /// Which lanes have a vector: those whose end wasn't read yet.
    pub fn live(&self) -> &[bool]
        ensures { result.now ≡ map (λ k. k.live) self.now }
    {
        &self.live[..self.stimuli.len()]
    }

    /// The stimulus of this lane.
    pub fn stimulus(&self, lane: u32) -> &Stimulus
        requires { lane < length self.now }
        ensures { result.now ≡ lane_at self.now lane }
    {
        &self.stimuli[lane as usize]
    }

    /// Reads the next vector of each live lane, by lane. Answers whether some lane has one.
    ///
    /// It takes no memory. The refusals are 71 to 77 (`StimError`), of the least lane that has one in
    /// this round; that lane is then no longer live, and the lanes behind it weren't read.
    pub fn read<D: Desk>(&mut self, desk: &mut D) -> Result<bool, Stopped>
        requires { AreAttached (D.told desk.old).register self.old }

        // Each lane advances.
        ensures all { OnOk result (AreRead D.tells (length self.old) (length self.old) (D.told desk.old).contents (D.told desk.new).contents self.old self.new) }
        ensures some { IfOk result (λ some. some ≡ some_live self.new) }
        ensures none { result ≡ Ok false → AllEnded self.new }
        ensures readable { OnOk result (AreAttached (D.told desk.new).register self.new) }
        ensures taken { IsTrue D.tells → AreTaken (D.told desk.old).contents self.old → OnOk result (AreTaken (D.told desk.new).contents self.new) }

        // The first lane that has no next vector stops it.
        ensures part { IfErr result (λ stopped. AreRead D.tells stopped.lane (stopped.lane + 1) (D.told desk.old).contents (D.told desk.new).contents self.old self.new) }
        ensures lane { IfErr result (λ stopped. stopped.lane < length self.old) }
        ensures was_live { IfErr result (λ stopped. (lane_at self.old stopped.lane).live ≡ true) }
        ensures ended { IfErr result (λ stopped. (lane_at self.new stopped.lane).live ≡ false) }
        ensures errors { IfErr result (λ stopped. IsVectorError stopped.error) }
        ensures refused { IsTrue D.tells → IfErr result (λ stopped. stopped.error ≢ StimError.ReadFault →
            remaining (lane_at self.old stopped.lane) (D.told desk.old).contents ≡ refused stopped.error) }

        // In any case.
        ensures numbered { AreLanes self.new }
        ensures sizes { SameSizes self.old self.new }

        // On the desk only bytes at the lanes' places are taken, and a fault is a failed call there.
        ensures same { OnOk result ((D.told desk.new).register ≡ (D.told desk.old).register) }
        ensures register { IfErr result (λ stopped. stopped.error ≢ StimError.ReadFault → (D.told desk.new).register ≡ (D.told desk.old).register) }
        ensures fault { IfErr result (λ stopped. stopped.error ≡ StimError.ReadFault →
            Fails (D.told desk.old).register (D.told desk.new).register (stimulus_place stopped.lane) (D.told desk.old).register.asked) }
        ensures needed { IsTrue D.tells → IfErr result (λ stopped. stopped.error ≡ StimError.ReadFault → IsUntoldAt self.old stopped.lane (D.told desk.old).contents (D.told desk.new).contents) }
        ensures others { IsTrue D.tells → OtherPlacesKept (length self.old) (D.told desk.old).contents (D.told desk.new).contents }
    {
        let answer = read_all(&mut self.stimuli, desk);
        note_live(&self.stimuli, &mut self.live);
        answer?;
        Ok(is_any_live(&self.stimuli))
    }

    /// Packs the vectors of the live lanes: a pair for each bit of the inputs, input by input, least
    /// significant bit first. A lane that has ended, or isn't there, gets x.
    pub fn feed<W: Lanes>(&self, pairs: &mut [Pair<W>])
        requires width { W.LANES ≤ most_lanes }
        requires few { length self.now ≤ W.LANES }
        requires count { HaveBits (length pairs.old) self.now }
        ensures { (i : ℕ) → i < W.LANES → map (λ p. pair_lane W.lane p i) pairs.new ≡ driven (length pairs.old) (lane_at self.now i) }
    {
        feed_all(&self.stimuli, pairs);
    }
}

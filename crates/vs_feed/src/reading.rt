//! One round of reading.

ghost use Rattle.std.specs.Prelude.{◌≡◌, ◌≢◌, ◌+◌, ◌<◌, ◌≤◌, Ok, Err, true, false, length, map, take, IsTrue, IfErr, OnOk, OnErr};
ghost use Rattle.vs_desk.specs.Desk.{IsAttached, Fails};
ghost use Rattle.vs_desk.specs.declared.desk.Way.TheVariants.{Read};
ghost use Rattle.vs_desk.specs.Taking.{OnlyTaken, TakesAt};
ghost use Rattle.vs_desk.specs.Places.{stimulus_place, most_lanes};
ghost use Rattle.vs_stim.specs.Known.{remaining, text_left, IsUntold};
ghost use Rattle.vs_stim.specs.Reading.{refused};
ghost use Rattle.vs_stim.specs.Row.{sizes};
ghost use Rattle.vs_stim.specs.Source.{IsVectorError};
ghost use Rattle.vs_feed.specs.Lanes.{lane_at, AreLanes, some_live, AreAttached, OtherPlacesKept};
ghost use Rattle.vs_feed.specs.Reading.{Advances, AreRead, IsUntoldAt, SameSizes};

use thiserror::Error;
use vs_desk::{Desk, MOST_LANES};
use vs_stim::{StimError, Stimulus};

/// A stimulus stopped the run.
#[derive(Clone, Copy, PartialEq, Eq, Debug, Error)]
#[error("lane {lane}: {error}")]
pub struct Stopped {
    /// The stimulus' lane.
    pub lane: u32,
    /// Why it gives no further vector.
    pub error: StimError,
}

/// Reads the next vector of a stimulus, unless it has ended.
fn read_lane<D: Desk>(stimulus: &mut Stimulus, desk: &mut D) -> Result<(), StimError>
    requires { stimulus.old.live ≡ true → IsAttached (D.told desk.old).register (stimulus_place stimulus.old.lane) Read }
    ensures advanced { OnOk result (Advances D.tells (D.told desk.old).contents (D.told desk.new).contents stimulus.old stimulus.new) }
    ensures lane { stimulus.new.lane ≡ stimulus.old.lane }
    ensures sizes { sizes stimulus.new.vector ≡ sizes stimulus.old.vector }

    ensures was_live { OnErr result (stimulus.old.live ≡ true) }
    ensures ended { OnErr result (stimulus.new.live ≡ false) }
    ensures errors { IfErr result IsVectorError }
    ensures refused { IsTrue D.tells → IfErr result (λ e. e ≢ StimError.ReadFault → remaining stimulus.old (D.told desk.old).contents ≡ refused e) }
    ensures desk { TakesAt (stimulus_place stimulus.old.lane) (D.told desk.old) (D.told desk.new) StimError.ReadFault result }
    ensures needed { IsTrue D.tells → result ≡ Err StimError.ReadFault →
        IsUntold stimulus.old.at (text_left stimulus.old (D.told desk.old).contents) ((D.told desk.new).contents.left (stimulus_place stimulus.old.lane)) }
{
    if stimulus.live() {
        stimulus.next(desk)?;
    }
    Ok(())
}

/// Reads the next vector of each stimulus that hasn't ended, by lane.
pub(crate) fn read_all<D: Desk>(stimuli: &mut [Stimulus], desk: &mut D) -> Result<(), Stopped>
    requires lanes { AreLanes stimuli.old }
    requires attached { AreAttached (D.told desk.old).register stimuli.old }
    ensures lanes { AreLanes stimuli.new }
    ensures sizes { SameSizes stimuli.old stimuli.new }
    ensures all { OnOk result (AreRead D.tells (length stimuli.old) (length stimuli.old) (D.told desk.old).contents (D.told desk.new).contents stimuli.old stimuli.new) }
    ensures readable { OnOk result (AreAttached (D.told desk.new).register stimuli.new) }

    ensures part { IfErr result (λ stopped. AreRead D.tells stopped.lane (stopped.lane + 1) (D.told desk.old).contents (D.told desk.new).contents stimuli.old stimuli.new) }
    ensures lane { IfErr result (λ stopped. stopped.lane < length stimuli.old) }
    ensures was_live { IfErr result (λ stopped. (lane_at stimuli.old stopped.lane).live ≡ true) }
    ensures ended { IfErr result (λ stopped. (lane_at stimuli.new stopped.lane).live ≡ false) }
    ensures errors { IfErr result (λ stopped. IsVectorError stopped.error) }
    ensures refused { IsTrue D.tells → IfErr result (λ stopped. stopped.error ≢ StimError.ReadFault →
        remaining (lane_at stimuli.old stopped.lane) (D.told desk.old).contents ≡ refused stopped.error) }
    ensures same { OnOk result ((D.told desk.new).register ≡ (D.told desk.old).register) }
    ensures register { IfErr result (λ stopped. stopped.error ≢ StimError.ReadFault → (D.told desk.new).register ≡ (D.told desk.old).register) }
    ensures fault { IfErr result (λ stopped. stopped.error ≡ StimError.ReadFault →
        Fails (D.told desk.old).register (D.told desk.new).register (stimulus_place stopped.lane) (D.told desk.old).register.asked) }
    ensures needed { IsTrue D.tells → IfErr result (λ stopped. stopped.error ≡ StimError.ReadFault → IsUntoldAt stimuli.old stopped.lane (D.told desk.old).contents (D.told desk.new).contents) }
    ensures others { IsTrue D.tells → OtherPlacesKept (length stimuli.old) (D.told desk.old).contents (D.told desk.new).contents }
{
    for lane in 0..stimuli.len() {
        if let Err(error) = read_lane(&mut stimuli[lane], desk) {
            return Err(Stopped {
                lane: lane as u32,
                error,
            });
        }
    }
    Ok(())
}

/// Notes which stimuli haven't ended.
pub(crate) fn note_live(stimuli: &[Stimulus], live: &mut [bool; MOST_LANES])
    requires { length stimuli.now ≤ most_lanes }
    ensures { take (length stimuli.now) live.new ≡ map (λ k. k.live) stimuli.now }
{
    for (lane, stimulus) in stimuli.iter().enumerate() {
        live[lane] = stimulus.live();
    }
}

/// Whether some stimulus hasn't ended.
pub(crate) fn is_any_live(stimuli: &[Stimulus]) -> bool
    ensures { result ≡ some_live stimuli.now }
{
    stimuli.iter().any(|stimulus| stimulus.live())
}

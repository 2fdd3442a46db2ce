//! The opening of the stimuli.

ghost use Rattle.std.specs.Prelude.{◌≡◌, ◌≢◌, ◌⊎◌, ◌+◌, ◌<◌, ◌≤◌, [], ◌∷◌, ◌++◌, All, Ok, Err, Some, None, length, vec_len, string_bytes, IsNone, IsTrue, IfErr, IfOk, OnOk, OnErr};
ghost use Rattle.vs_desk.specs.Desk.{Fails, with_place};
ghost use Rattle.vs_desk.specs.declared.desk.Way.TheVariants.{Read};
ghost use Rattle.vs_desk.specs.Taking.{OnlyTaken};
ghost use Rattle.vs_desk.specs.Places.{stimulus_place, most_lanes};
ghost use Rattle.vs_stim.specs.Header.{ArePorts};
ghost use Rattle.vs_stim.specs.Known.{IsUntold};
ghost use Rattle.vs_stim.specs.Reading.{first_place, reading, refused, header_refusal};
ghost use Rattle.vs_stim.specs.Source.{IsHeaderError};
ghost use Rattle.vs_feed.specs.Lanes.{lane_at, OtherPlacesKept};
ghost use Rattle.vs_feed.specs.Opened.{texts, with_lanes, AreFree, HaveHeaders, IsOpened, AreOpened, StopsOpening};

use crate::Stopped;
use std::alloc::Global;
use vs_desk::{Desk, attach_law};
use vs_stim::{Ports, StimError, Stimulus};

/// Adds the stimulus of this lane.
fn add(stimuli: &mut Vec<Stimulus>, stimulus: Stimulus, lane: u32) -> Result<(), Stopped>
    ensures added { OnOk result (stimuli.new.items ≡ stimuli.old.items ++ stimulus ∷ []) }
    ensures lane { IfErr result (λ stopped. stopped.lane ≡ lane) }
    ensures memory { IfErr result (λ stopped. stopped.error ≡ StimError.Memory) }
{
    match stimuli.push(stimulus) {
        Ok(()) => Ok(()),
        Err(_) => Err(Stopped {
            lane,
            error: StimError::Memory,
        }),
    }
}

/// Opens the stimulus of the next lane.
fn open_next<D: Desk>(
    alloc: Global,
    desk: &mut D,
    path: String,
    ports: &Ports,
    stimuli: &mut Vec<Stimulus>,
) -> Result<(), Stopped>
    requires lane { length stimuli.old.items < most_lanes }
    requires free { IsNone ((D.told desk.old).register.attached (stimulus_place (length stimuli.old.items))) }
    requires ports { ArePorts ports.now }
    ensures added { OnOk result (stimuli.new.items ≡ stimuli.old.items ++ lane_at stimuli.new.items (length stimuli.old.items) ∷ []) }
    ensures opened { OnOk result (IsOpened D.tells ports.now (D.told desk.old).contents (D.told desk.new).contents (string_bytes path) (length stimuli.old.items)
        (lane_at stimuli.new.items (length stimuli.old.items))) }
    ensures headed { IsTrue D.tells → OnOk result (header_refusal ports.now ((D.told desk.old).contents.files (string_bytes path)) ≡ None) }

    ensures lane { IfErr result (λ stopped. stopped.lane ≡ length stimuli.old.items) }
    ensures errors { IfErr result (λ stopped. IsHeaderError stopped.error) }
    ensures demanded { IfErr result (λ stopped. stopped.error ≡ StimError.NoExpectation → IsTrue ports.now.demanded) }
    ensures refused { IsTrue D.tells → IfErr result (λ stopped. stopped.error ≢ StimError.ReadFault → stopped.error ≢ StimError.Memory →
        header_refusal ports.now ((D.told desk.old).contents.files (string_bytes path)) ≡ Some stopped.error) }
    ensures reading { IsTrue D.tells → IfErr result (λ stopped. stopped.error ≢ StimError.ReadFault → stopped.error ≢ StimError.Memory →
        reading ports.now ((D.told desk.old).contents.files (string_bytes path)) ≡ refused stopped.error) }

    ensures attached { OnOk result ((D.told desk.new).register ≡ with_place (D.told desk.old).register (stimulus_place (length stimuli.old.items)) Read (string_bytes path)) }
    ensures register { IfErr result (λ stopped. stopped.error ≢ StimError.ReadFault → stopped.error ≢ StimError.Memory →
        (D.told desk.new).register ≡ with_place (D.told desk.old).register (stimulus_place (length stimuli.old.items)) Read (string_bytes path)) }
    ensures memory { IfErr result (λ stopped. stopped.error ≡ StimError.Memory → ((D.told desk.new).register ≡ (D.told desk.old).register)
        ⊎ ((D.told desk.new).register ≡ with_place (D.told desk.old).register (stimulus_place (length stimuli.old.items)) Read (string_bytes path))) }
    ensures fault { IfErr result (λ stopped. stopped.error ≡ StimError.ReadFault →
        Fails (D.told desk.old).register (D.told desk.new).register (stimulus_place (length stimuli.old.items)) (string_bytes path)
        ⊎ Fails (with_place (D.told desk.old).register (stimulus_place (length stimuli.old.items)) Read (string_bytes path)) (D.told desk.new).register
        (stimulus_place (length stimuli.old.items)) (D.told desk.old).register.asked) }
    ensures needed { IsTrue D.tells → IfErr result (λ stopped. stopped.error ≡ StimError.ReadFault →
        Fails (D.told desk.old).register (D.told desk.new).register (stimulus_place (length stimuli.old.items)) (string_bytes path)
        ⊎ IsUntold first_place ((D.told desk.old).contents.files (string_bytes path)) ((D.told desk.new).contents.left (stimulus_place (length stimuli.old.items)))) }
    ensures others { IsTrue D.tells → OnlyTaken (stimulus_place (length stimuli.old.items)) (D.told desk.old).contents (D.told desk.new).contents }
{
    let lane = stimuli.len() as u32;
    match Stimulus::begin(alloc, desk, lane, path, ports) {
        Ok(stimulus) => add(stimuli, stimulus, lane),
        Err(error) => Err(Stopped { lane, error }),
    }
}

/// Opens the stimuli, by lane.
pub(crate) fn open_all<D: Desk>(
    alloc: Global,
    desk: &mut D,
    paths: Vec<String>,
    ports: &Ports,
) -> Result<Vec<Stimulus>, Stopped>
    requires lanes { length paths.items ≤ most_lanes }
    requires free { AreFree (D.told desk.old).register (length paths.items) }
    requires ports { ArePorts ports.now }
    ensures opened { IfOk result (λ stimuli. AreOpened D.tells ports.now (D.told desk.old).contents (D.told desk.new).contents (texts paths.items) stimuli.items) }
    ensures headers { IsTrue D.tells → OnOk result (HaveHeaders ports.now (D.told desk.old).contents.files (texts paths.items) (length paths.items)) }
    ensures attached { OnOk result ((D.told desk.new).register ≡ with_lanes (D.told desk.old).register (texts paths.items)) }

    ensures stopped { IfErr result (StopsOpening ports.now (texts paths.items) (D.told desk.old) (D.told desk.new)) }
    ensures others { IsTrue D.tells → OtherPlacesKept (length paths.items) (D.told desk.old).contents (D.told desk.new).contents }
{
    attach_law();
    let mut stimuli = Vec::new(alloc);
    for path in paths {
        open_next(alloc, desk, path, ports, &mut stimuli)?;
    }
    Ok(stimuli)
}

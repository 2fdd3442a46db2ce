//! The turns of processes in a run in level order, the order in which a levelised simulator evaluates (IEEE 1364-2005, 11.4.2: the order of active events is free).

ghost use Rattle.std.specs.Prelude.{◌≡◌, ◌||◌, nat_le, length, [], ◌∷◌, true, OnOk};
ghost use Rattle.vs_net.specs.Lawful.{Settles};
ghost use Rattle.vs_net.specs.Network.{kind};
ghost use Rattle.vs_design.specs.Networks.{network_of};
ghost use Rattle.vs_events.specs.Choices.{choice_of, is_open};
ghost use Rattle.vs_events.specs.declared.choice.Step.TheVariants as S;
ghost use Rattle.vs_flat.specs.DesignOf.{design_of};
ghost use Rattle.vs_queue.specs.Machines.{IsMachine};
ghost use Rattle.vs_queue.specs.Runs.{IsCopied};
ghost use Rattle.vs_queue.specs.Sweeps.{HasTaken, is_clocked_kind, run_turn, settle_turn, start_turn, take_turn};

use crate::laws::running_law;
use crate::machine::Machine;
use std::alloc::AllocError;
use vs_events::{Events, Step};
use vs_flat::{Kind, has_edge, trees_law};
use vs_four::Bit4;

impl Machine<'_> {
    /// Takes this step, which is possible. Want of memory is the only error, here as in all that follows; the lists are then of no use.
    fn take_step(
        &self,
        events: &mut Events,
        shadow: &mut [Bit4],
        step: Step,
    ) -> Result<(), AllocError>
        requires machine { IsMachine self.now.typed.now self.now.clocks.now self.now.wiring.now self.now.keeper }
        requires copied { IsCopied (design_of self.now.typed.now) self.now.clocks.now.bits events.old shadow.old }
        requires possible { is_open events.old step ≡ true }
        ensures { OnOk result (HasTaken (design_of self.now.typed.now) self.now.clocks.now.bits (λ q. choice_of step ∷ []) events.old events.new shadow.new) }
    {
        running_law();
        self.step(events, shadow, step)
    }

    /// The block starts, if it hasn't been started.
    pub(crate) fn start_one(
        &self,
        events: &mut Events,
        shadow: &mut [Bit4],
        p: u32,
    ) -> Result<(), AllocError>
        requires machine { IsMachine self.now.typed.now self.now.clocks.now self.now.wiring.now self.now.keeper }
        requires copied { IsCopied (design_of self.now.typed.now) self.now.clocks.now.bits events.old shadow.old }
        ensures { OnOk result (HasTaken (design_of self.now.typed.now) self.now.clocks.now.bits (λ q. start_turn q p) events.old events.new shadow.new) }
    {
        let start = Step::Start { p };
        if events.is_open(start) {
            return self.take_step(events, shadow, start);
        }
        Ok(())
    }

    /// The due assign is evaluated, and applied where it has a value to write.
    fn evaluate_one(
        &self,
        events: &mut Events,
        shadow: &mut [Bit4],
        p: u32,
    ) -> Result<(), AllocError>
        requires machine { IsMachine self.now.typed.now self.now.clocks.now self.now.wiring.now self.now.keeper }
        requires copied { IsCopied (design_of self.now.typed.now) self.now.clocks.now.bits events.old shadow.old }
        requires possible { is_open events.old (S.Evaluate p) ≡ true }
        ensures { OnOk result (HasTaken (design_of self.now.typed.now) self.now.clocks.now.bits (λ q. settle_turn (network_of (design_of self.now.typed.now) self.now.clocks.now.bits) q p) events.old events.new shadow.new) }
    {
        self.take_step(events, shadow, Step::Evaluate { p })?;
        let apply = Step::Apply { p };
        if events.is_open(apply) {
            return self.take_step(events, shadow, apply);
        }
        Ok(())
    }

    /// An assign is evaluated and applied, or a combinational block run, if it is due.
    pub(crate) fn settle_one(
        &self,
        events: &mut Events,
        shadow: &mut [Bit4],
        p: u32,
    ) -> Result<(), AllocError>
        requires machine { IsMachine self.now.typed.now self.now.clocks.now self.now.wiring.now self.now.keeper }
        requires copied { IsCopied (design_of self.now.typed.now) self.now.clocks.now.bits events.old shadow.old }
        requires settles { Settles (kind ((network_of (design_of self.now.typed.now) self.now.clocks.now.bits).process p)) }
        ensures { OnOk result (HasTaken (design_of self.now.typed.now) self.now.clocks.now.bits (λ q. settle_turn (network_of (design_of self.now.typed.now) self.now.clocks.now.bits) q p) events.old events.new shadow.new) }
    {
        if events.is_open(Step::Evaluate { p }) {
            return self.evaluate_one(events, shadow, p);
        }
        let run = Step::Run { p };
        if events.is_open(run) {
            return self.take_step(events, shadow, run);
        }
        Ok(())
    }

    /// The active updates of the writer are applied.
    pub(crate) fn take_one(
        &self,
        events: &mut Events,
        shadow: &mut [Bit4],
        p: u32,
    ) -> Result<(), AllocError>
        requires machine { IsMachine self.now.typed.now self.now.clocks.now self.now.wiring.now self.now.keeper }
        requires copied { IsCopied (design_of self.now.typed.now) self.now.clocks.now.bits events.old shadow.old }
        ensures { OnOk result (HasTaken (design_of self.now.typed.now) self.now.clocks.now.bits (λ q. take_turn q p) events.old events.new shadow.new) }
    {
        let take = Step::Take { p };
        'updates: while events.is_open(take) {
            self.take_step(events, shadow, take)?;
        }
        Ok(())
    }

    /// Whether the process is a clocked block of the design, or none of its processes.
    fn may_be_clocked(&self, p: u32) -> bool
        ensures { result ≡ (is_clocked_kind (kind ((network_of (design_of self.now.typed.now) self.now.clocks.now.bits).process p)) || nat_le (length (design_of self.now.typed.now).processes) p) }
    {
        trees_law();
        let flat = self.typed.flat();
        if p >= flat.process_count() {
            return true;
        }
        match &flat.process(p).kind {
            Kind::Assign { .. } => false,
            Kind::Block { events, .. } => has_edge(events.as_slice()),
        }
    }

    /// The clocked block runs, if it is due.
    pub(crate) fn run_one(
        &self,
        events: &mut Events,
        shadow: &mut [Bit4],
        p: u32,
    ) -> Result<(), AllocError>
        requires machine { IsMachine self.now.typed.now self.now.clocks.now self.now.wiring.now self.now.keeper }
        requires copied { IsCopied (design_of self.now.typed.now) self.now.clocks.now.bits events.old shadow.old }
        ensures { OnOk result (HasTaken (design_of self.now.typed.now) self.now.clocks.now.bits (λ q. run_turn (network_of (design_of self.now.typed.now) self.now.clocks.now.bits) q p) events.old events.new shadow.new) }
    {
        if !self.may_be_clocked(p) {
            return Ok(());
        }
        let run = Step::Run { p };
        if events.is_open(run) {
            return self.take_step(events, shadow, run);
        }
        Ok(())
    }
}

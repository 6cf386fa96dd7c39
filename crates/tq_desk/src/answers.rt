//! The desk as a part that answers asks.

use crate::{ByRules, Desk, DeskAsk, DeskChange, DeskReply};
use std::alloc::Global;
use tq_shape::{Answers, Memory, Plan};

impl Answers for Desk {
    ghost use Rattle.std.specs.Prelude.{◌<◌};
    ghost use Rattle.tq_desk.specs.DeskStep.{desk_reply, desk_after, opening_desk as opened};
    ghost use Rattle.tq_desk.specs.DeskPlans.{desk_change, desk_changed, DeskFits};
    ghost use Rattle.tq_desk.specs.DeskPlans as step;

    type Ask = DeskAsk;

    type Reply = DeskReply;

    type Change = DeskChange;

    ghost opening = { λ s. opened s.levels s.limits };

    ghost is_ready = { λ s n. s.begun < n };

    ghost reply = { λ s n a. desk_reply s a };

    ghost after = { λ s n a. desk_after s a };

    ghost change = { λ s n a. desk_change s a };

    ghost fits = { λ s c. DeskFits s c };

    ghost changed = { λ s c. desk_changed s c };

    fn plan(
        &self,
        alloc: Global,
        _number: u64,
        ask: &DeskAsk,
    ) -> Result<Plan<DeskReply, DeskChange>, Memory> {
        self.plan::<ByRules>(alloc, ask)
    }

    fn apply(&mut self, _alloc: Global, planned: DeskChange) -> Result<(), Memory> {
        self.apply(planned)
    }

    fn copy(&self, alloc: Global) -> Result<Desk, Memory> {
        self.copy(alloc)
    }

    fn same_ask(_alloc: Global, ask: &DeskAsk) -> Result<DeskAsk, Memory> {
        ask.clone()
    }

    fn same_reply(_alloc: Global, given: &DeskReply) -> Result<DeskReply, Memory> {
        given.clone()
    }

    ghost plan_fits = { λ s n a h. step.change_fits s a };

    ghost plan_leads = { λ s n a h. step.change_leads s a };

    ghost opens_ready = { λ s. step.opens_ready s.levels s.limits };

    ghost stays_ready = { λ s n a h. step.stays_ready s n a h };

    ghost keeps_settings = { λ s n a. step.keeps_settings s a };
}

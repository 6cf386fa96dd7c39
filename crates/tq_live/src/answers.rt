//! The view as a part that answers asks.

use crate::view::{View, ViewAsk, ViewChange, ViewReply};
use std::alloc::Global;
use tq_shape::{Answers, ExactClone, Memory, Plan};

impl Answers for View {
    ghost use Rattle.std.{specs.Prelude.[], proofs.Common.ap};
    ghost use Rattle.tq_live.specs.View.{view_reply, view_after, view_state};
    ghost use Rattle.tq_live.specs.ViewLaws.{view_change, view_changed, ViewFits, change_fits, change_leads, keeps_levels};

    type Ask = ViewAsk;

    type Reply = ViewReply;

    type Change = ViewChange;

    ghost opening = { λ s. view_state s.levels [] };

    ghost is_ready = { λ s n. Unit {0} };

    ghost reply = { λ s n a. view_reply s a };

    ghost after = { λ s n a. view_after s a };

    ghost change = { λ s n a. view_change s a };

    ghost fits = { λ s c. ViewFits s c };

    ghost changed = { λ s c. view_changed s c };

    fn plan(
        &self,
        alloc: Global,
        _number: u64,
        ask: &ViewAsk,
    ) -> Result<Plan<ViewReply, ViewChange>, Memory> {
        self.plan(alloc, ask)
    }

    fn apply(&mut self, _alloc: Global, planned: ViewChange) -> Result<(), Memory> {
        self.apply(planned);
        Ok(())
    }

    fn copy(&self, alloc: Global) -> Result<View, Memory> {
        self.copy(alloc)
    }

    fn same_ask(_alloc: Global, ask: &ViewAsk) -> Result<ViewAsk, Memory> {
        Ok(*ask)
    }

    fn same_reply(_alloc: Global, given: &ViewReply) -> Result<ViewReply, Memory> {
        given.clone()
    }

    ghost plan_fits = { λ s n a h. change_fits s a };

    ghost plan_leads = { λ s n a h. change_leads s a };

    ghost opens_ready = { λ s. tt };

    ghost stays_ready = { λ s n a h. tt };

    ghost keeps_settings = { λ s n a. ap (λ levels. view_state levels []) (keeps_levels s a) };
}

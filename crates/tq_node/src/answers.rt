//! The server as a part that answers asks.

use crate::{Node, NodeAsk, NodeChange, NodeReply};
use std::alloc::Global;
use tq_shape::{Answers, Memory, Plan};

impl Answers for Node {
    ghost use Rattle.std.specs.Prelude.{◌<◌, refl};
    ghost use Rattle.tq_node.specs.{Records.node_reply, Node.{server_after, opening_server as opened}};
    ghost use Rattle.tq_node.specs.NodeChanges.{node_change, node_changed, NodeFits};
    ghost use Rattle.tq_node.specs.NodePlans as plans;

    type Ask = NodeAsk;

    type Reply = NodeReply;

    type Change = NodeChange;

    ghost opening = { λ s. opened s.levels s.server };

    ghost is_ready = { λ s n. s.last < n };

    ghost reply = { λ s n a. node_reply s.server s.state a };

    ghost after = { λ s n a. server_after s n a };

    ghost change = { λ s n a. node_change s n a };

    ghost fits = { λ s c. NodeFits s c };

    ghost changed = { λ s c. node_changed s c };

    fn plan(
        &self,
        alloc: Global,
        number: u64,
        ask: &NodeAsk,
    ) -> Result<Plan<NodeReply, NodeChange>, Memory> {
        self.plan(alloc, number, ask)
    }

    fn apply(&mut self, alloc: Global, planned: NodeChange) -> Result<(), Memory> {
        self.apply(alloc, planned)
    }

    fn copy(&self, alloc: Global) -> Result<Node, Memory> {
        self.copy(alloc)
    }

    fn same_ask(_alloc: Global, ask: &NodeAsk) -> Result<NodeAsk, Memory> {
        ask.clone()
    }

    fn same_reply(_alloc: Global, given: &NodeReply) -> Result<NodeReply, Memory> {
        given.clone()
    }

    ghost plan_fits = { λ s n a h. plans.change_fits s n a h };

    ghost plan_leads = { λ s n a h. plans.change_leads s n a };

    ghost opens_ready = { λ s. plans.opens_ready s.levels s.server };

    ghost stays_ready = { λ s n a h. plans.stays_ready s n a };

    ghost keeps_settings = { λ s n a. refl };
}

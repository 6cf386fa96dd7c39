//! A caller as what lines run over.

ghost use Rattle.std.specs.Prelude.{◌≡◌};

use crate::caller::Caller;
use crate::cluster::Cluster;
use std::alloc::Global;
use std::marker::Model;
use std::sync::Wait;
use tq_asks::NodeAsk;
use tq_cells::Gate;
use tq_desk::DeskAsk;
use tq_live::ViewAsk;
use tq_shape::{AskFault, ServerId};
use tq_txn::{Asker, DeskTold, NodeTold, ViewTold};

/// A caller that asks the parts of a cluster, each under that part's lock: so the lines of a client run over it.
/// Contracts see it as the caller.
#[derive(Drop)]
pub struct Asking<'a, R: Wait, G: Gate + Drop> {
    rt: &'a R,
    cluster: &'a Cluster<G>,
    caller: Caller,
}

impl<'a, R: Wait, G: Gate + Drop> Model for Asking<'a, R, G> {
    ghost use Rattle.std.specs.Prelude.{◌≡◌};
    ghost use Rattle.tq_cluster.specs.Told.{CallerView};

    ghost Value = { CallerView };

    ghost view = { λ asking. asking.caller };

    ghost invariant = { λ asking. asking.caller.levels ≡ asking.cluster.now.levels };
}

impl<'a, R: Wait, G: Gate + Drop> Asking<'a, R, G> {
    /// The caller, who asks this cluster from now on. It takes no memory.
    pub fn new(rt: &'a R, cluster: &'a Cluster<G>, caller: Caller) -> Asking<'a, R, G>
        requires { caller.levels ≡ cluster.now.levels }
        ensures { result ≡ caller }
    {
        Asking {
            rt,
            cluster,
            caller,
        }
    }

    /// The caller, with all that it was told. It takes no memory.
    pub fn into_caller(self) -> Caller
        ensures { result ≡ self.entry }
    {
        let Asking {
            rt: _,
            cluster: _,
            caller,
        } = self;
        caller
    }
}

impl<'a, R: Wait, G: Gate + Drop> Asker for Asking<'a, R, G> {
    ghost told = { λ asking. asking.told };

    ghost levels = { λ asking. asking.levels };

    /// Asks a server of the cluster, as [`Cluster::ask_node`] does.
    fn node(
        &mut self,
        alloc: Global,
        server: ServerId,
        ask: NodeAsk,
    ) -> Result<NodeTold, AskFault> {
        self.cluster
            .ask_node(self.rt, alloc, &mut self.caller, server, ask)
    }

    /// Asks a server of the cluster, as `node` does: it looks up itself what is cited.
    fn tell(
        &mut self,
        alloc: Global,
        server: ServerId,
        ask: NodeAsk,
    ) -> Result<NodeTold, AskFault> {
        self.node(alloc, server, ask)
    }

    /// Asks the desk of the cluster, as [`Cluster::ask_desk`] does.
    fn desk(&mut self, alloc: Global, ask: DeskAsk) -> Result<DeskTold, AskFault> {
        self.cluster.ask_desk(self.rt, alloc, &mut self.caller, ask)
    }

    /// Asks the view of the cluster, as [`Cluster::ask_view`] does.
    fn view(&mut self, alloc: Global, ask: ViewAsk) -> Result<ViewTold, AskFault> {
        self.cluster.ask_view(self.rt, alloc, &mut self.caller, ask)
    }
}

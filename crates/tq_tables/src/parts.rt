//! All parts of a system, and a reply of one, twice.

ghost use Rattle.std.specs.Prelude.{◌≡◌, ◌+◌, ◌-◌, ◌<◌, ◌≤◌, ◌^◌, [], IfOk, OnOk, OnErr, length, replicate, slice_index_or};
ghost use Rattle.tq_desk.specs.DeskPlans.{DeskFits};
ghost use Rattle.tq_tables.specs.Tables.{view_replies, both};
ghost use Rattle.tq_tables.specs.Parts.{nodes_at, HasAnswered, IsAboveLast, KeepsUntold, ReachesTold, TellsReply};

use std::alloc::Global;
use std::marker::Model;
use tq_asks::NodeAsk;
use tq_desk::{Desk, DeskChange};
use tq_live::{View, ViewAsk, ViewReply};
use tq_node::{Node, Telling};
use tq_shape::{Answers, Levels, Limits, Memory, ServerId};

/// All parts of a system: the servers of one tree, upwards from server 1, the desk and the view of that tree.
pub(crate) struct Parts {
    nodes: Vec<Node>,
    desk: Desk,
    view: View,
}

// Written out, so that a crate above lets go of one by a call.
impl Drop for Parts {
    fn drop(self) {
        let Self {
            nodes: _,
            desk: _,
            view: _,
        } = self;
    }
}

impl Model for Parts {
    ghost use Rattle.tq_intents.specs.contracts.record.Record as record_type;
    ghost use Rattle.tq_intents.specs.contracts.record.OpenVote as vote_type;
    ghost use Rattle.tq_asks.specs.contracts.ask.Verdict as verdict_type;
    ghost use Rattle.tq_tables.specs.Parts.{AreOfTree, PartsView, parts_code};

    ghost Value = { PartsView };

    ghost coded = { parts_code
        record_type.the_row.coded vote_type.the_row.coded verdict_type.the_row.coded };

    ghost view = { λ a. record { nodes = a.nodes.items; desk = a.desk; view = a.view } };

    ghost invariant = { λ a. AreOfTree a.view.levels 1 a.nodes.items };
}

impl Parts {
    ghost use Rattle.tq_tables.specs.{Journals.no_entries, Parts.{AreOfTree, parts_of, with_change, with_view_asked}};

    /// The parts of a system that was asked nothing.
    pub(crate) fn new(alloc: Global, levels: Levels, limits: Limits) -> Result<Parts, Memory>
        ensures { IfOk result (λ parts. parts ≡ parts_of (no_entries levels limits)) }
    {
        let nodes = new_nodes(alloc, levels)?;
        let desk = Desk::new(alloc, levels, limits);
        let view = View::new(alloc, levels)?;
        Ok(Parts { nodes, desk, view })
    }

    /// Equal parts, with memory of their own.
    pub(crate) fn copy(&self, alloc: Global) -> Result<Parts, Memory>
        ensures { IfOk result (λ copy. copy ≡ self.now) }
    {
        let nodes = copy_nodes(alloc, self.nodes.as_slice())?;
        let desk = self.desk.copy(alloc)?;
        let view = self.view.copy(alloc)?;
        Ok(Parts { nodes, desk, view })
    }

    /// Makes a change of the desk that was planned. Out of memory leaves the parts as they were.
    #[inline(always)]
    pub(crate) fn change_desk(&mut self, change: DeskChange) -> Result<(), Memory>
        requires { DeskFits self.old.desk change }
        ensures after { OnOk result (self.new ≡ with_change self.old change) }
        ensures unchanged { OnErr result (self.new ≡ self.old) }
    {
        let _view = &self.view;
        self.desk.apply(change)?;
        Ok(())
    }

    /// The view answers one ask more. Out of memory leaves the parts as they were.
    #[inline(always)]
    pub(crate) fn ask_view(
        &mut self,
        alloc: Global,
        ask: &ViewAsk,
    ) -> Result<Replies<ViewReply>, Memory>
        ensures replies { IfOk result (λ replies. replies ≡ view_replies self.old.view ask.now) }
        ensures after { OnOk result (self.new ≡ with_view_asked self.old ask.now) }
        ensures unchanged { OnErr result (self.new ≡ self.old) }
    {
        let _desk = &self.desk;
        let plan = self.view.plan(alloc, ask)?;
        let change = plan.change;
        let replies = twice::<View>(alloc, plan.reply)?;
        self.view.apply(change);
        Ok(replies)
    }

    /// The server answers one ask more, of that number, and tells the files whose copies there may have risen. Out
    /// of memory leaves the parts as they were.
    #[inline(always)]
    pub(crate) fn ask_node(
        &mut self,
        alloc: Global,
        server: u64,
        number: u64,
        ask: &NodeAsk,
    ) -> Result<Telling, Memory>
        requires there { (0 < server) × (server ≤ length self.old.nodes) }
        requires next { IsAboveLast self.old.nodes server number }
        ensures replies { IfOk result (λ telling.
            TellsReply self.old.nodes server ask.now telling) }
        ensures after { OnOk result (HasAnswered self.old self.new server number ask.now) }
        ensures raised { IfOk result (λ telling.
            KeepsUntold self.old.nodes server number ask.now telling.raised) }
        ensures reached { IfOk result (λ telling.
            ReachesTold self.old.nodes server number ask.now telling.raised) }
        ensures unchanged { OnErr result (self.new ≡ self.old) }
    {
        let _view = &self.view;
        let place = (server - 1) as usize;
        self.nodes[place].tell(alloc, number, ask)
    }

    /// How many levels the tree of servers has.
    pub(crate) fn levels(&self) -> Levels
        ensures { result ≡ self.now.view.levels }
    {
        self.view.tree().levels()
    }

    /// The servers, upwards from server 1.
    pub(crate) fn nodes(&self) -> &[Node]
        ensures value { result.now ≡ self.now.nodes }
        ensures of_tree { AreOfTree self.now.view.levels 1 result.now }
    {
        self.nodes.as_slice()
    }

    /// The server of that number.
    pub(crate) fn node(&self, server: u64) -> &Node
        requires { (0 < server) × (server ≤ length self.now.nodes) }
        ensures value { result.now ≡ slice_index_or self.now.nodes (server - 1) result.now }
        ensures of_tree { result.now.levels ≡ self.now.view.levels }
    {
        let _view = &self.view;
        let place = (server - 1) as usize;
        &self.nodes[place]
    }

    /// The desk.
    pub(crate) fn desk(&self) -> &Desk
        ensures { result.now ≡ self.now.desk }
    {
        &self.desk
    }

    /// The view.
    pub(crate) fn view(&self) -> &View
        ensures { result.now ≡ self.now.view }
    {
        &self.view
    }
}

/// The servers of a tree, of which none was asked anything.
fn new_nodes(alloc: Global, levels: Levels) -> Result<Vec<Node>, Memory>
    ensures { IfOk result (λ nodes. nodes.items
        ≡ nodes_at levels 1 (replicate (2 ^ levels - 1) [])) }
{
    let mut nodes = Vec::new(alloc);
    for below in 0..levels.servers() {
        let server = ServerId::new(levels, below + 1);
        nodes.push(Node::new(alloc, levels, server))?;
    }
    Ok(nodes)
}

/// Servers equal to these, with memory of their own.
fn copy_nodes(alloc: Global, nodes: &[Node]) -> Result<Vec<Node>, Memory>
    ensures { IfOk result (λ copies. copies.items ≡ nodes.now) }
{
    let mut copies = Vec::new(alloc);
    for node in nodes {
        copies.push(node.copy(alloc)?)?;
    }
    Ok(copies)
}

/// The reply to an ask, twice: one to enter into the journal, and one to tell.
#[derive(Drop)]
pub struct Replies<R> {
    pub entered: R,
    pub told: R,
}

/// The reply, and an equal one.
#[inline(always)]
pub(crate) fn twice<P: Answers>(alloc: Global, reply: P::Reply) -> Result<Replies<P::Reply>, Memory>
    ensures { IfOk result (λ replies. replies ≡ both reply) }
{
    let told = P::same_reply(alloc, &reply)?;
    Ok(Replies {
        entered: reply,
        told,
    })
}

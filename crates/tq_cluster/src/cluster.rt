//! The cells of all parts, and the calls of each.

ghost use Rattle.std.specs.Prelude.{◌≡◌, ◌≤◌, ◌<◌, ◌+◌, ◌^◌, ◌++◌, ℕ, [], length, map, replicate, IfOk, vec_len, vec_capacity};
ghost use Rattle.tq_txn.specs.Dialogue.{node_exchange, desk_exchange, view_exchange};
ghost use Rattle.tq_tables.specs.Parts.{AreLegal};
ghost use Rattle.tq_cluster.specs.Told.{IsHeard, IsToldByServer, IsToldByDesk, IsToldByView, nothing_seen};

use crate::asked::{Numbered, ask_part};
use crate::caller::Caller;
use crate::journals::{desk_journal, server_journals, view_journal};
use crate::own::{OwnDesk, OwnServer, OwnView};
use std::alloc::Global;
use std::marker::Model;
use std::sync::Wait;
use tq_asks::NodeAsk;
use tq_cells::{Cell, Gate, Pass};
use tq_desk::{Desk, DeskAsk};
use tq_live::{View, ViewAsk};
use tq_node::Node;
use tq_shape::{AskFault, Levels, Limits, Memory, Part, ServerId};
use tq_tables::{Journals, NodeEntry};
use tq_txn::{DeskTold, NodeTold, ViewTold};

/// All parts of a system, each in a cell of its own: its servers, its desk and its view. Many threads may ask them at
/// once. No cell is locked while another one is asked.
pub struct Cluster<G: Gate + Drop> {
    levels: Levels,
    limits: Limits,
    pub(crate) servers: Vec<Cell<Node>>,
    pub(crate) desk: Cell<Desk>,
    pub(crate) view: Cell<View>,
    gate: G,
}

// Written out, so that each function lets go of one by a call.
impl<G: Gate + Drop> Drop for Cluster<G> {
    fn drop(self) {
        let Self {
            levels: _,
            limits: _,
            servers: _,
            desk: _,
            view: _,
            gate: _,
        } = self;
    }
}

impl<G: Gate + Drop> Model for Cluster<G> {
    ghost use Rattle.tq_cluster.specs.Cluster.{ClusterView, IsCluster};

    ghost Value = { ClusterView };

    ghost view = { λ c. record { levels = c.levels; limits = c.limits } };

    ghost invariant = { λ c. IsCluster c.levels c.servers.items c.desk c.view };
}

impl<G: Gate + Drop> Cluster<G> {
    /// A cluster that was asked nothing: each server has stored nothing, and is up at cost 1. The gate is told of each
    /// call of a part. Answers an error only where memory is refused.
    pub fn new(alloc: Global, levels: Levels, limits: Limits, gate: G) -> Result<Cluster<G>, Memory>
        ensures { IfOk result (λ cluster. cluster ≡ record { levels = levels; limits = limits }) }
    {
        let view = View::new(alloc, levels)?;
        let most = limits.entries();
        let mut servers = Vec::new(alloc);
        for place in 0..levels.servers() {
            let server = ServerId::new(levels, place + 1);
            let node = Node::new(alloc, levels, server);
            let cell = Cell::new(alloc, Part::Server(place + 1), node, most);
            servers.push(cell)?;
        }
        let desk = Desk::new(alloc, levels, limits);
        let desk_cell = Cell::new(alloc, Part::Desk, desk, most);
        let view_cell = Cell::new(alloc, Part::View, view, most);
        Ok(Cluster {
            levels,
            limits,
            servers,
            desk: desk_cell,
            view: view_cell,
            gate,
        })
    }

    /// A caller that was told nothing. Answers an error only where memory is refused.
    pub fn caller(&self, alloc: Global) -> Result<Caller, Memory>
        ensures { IfOk result (λ caller. caller ≡ record {
          levels = self.now.levels;
          told = [];
          seen = nothing_seen self.now.levels;
        }) }
    {
        let servers = passes(alloc, self.servers.as_slice())?;
        let desk = self.desk.pass(alloc);
        let view = self.view.pass(alloc);
        Ok(Caller::new(alloc, self.levels, servers, desk, view))
    }

    /// How many levels the tree of servers has.
    pub fn levels(&self) -> Levels
        ensures { result ≡ self.now.levels }
    {
        self.levels
    }

    /// The limits of the system.
    pub(crate) fn limits(&self) -> Limits
        ensures { result ≡ self.now.limits }
    {
        self.limits
    }

    /// The journals of all parts, once no thread asks them any more. What the callers were told is compared with
    /// nothing. Answers an error only where memory is refused: then the cluster and the callers are gone.
    pub fn into_journals(self, alloc: Global, callers: Vec<Caller>) -> Result<Journals, Memory>
        ensures levels { IfOk result (λ journals. journals.levels ≡ self.levels) }
        ensures limits { IfOk result (λ journals. journals.limits ≡ self.limits) }
        ensures legal { IfOk result AreLegal }
    {
        drop(callers);
        let room = Vec::with_capacity(alloc, self.servers.len())?;
        Ok(self.journals_into(alloc, room))
    }

    /// The journals of all parts, those of the servers put into the room for them.
    fn journals_into(self, alloc: Global, room: Vec<Vec<NodeEntry>>) -> Journals
        requires empty { room.items ≡ [] }
        requires room { 2 ^ self.levels ≤ vec_capacity room + 1 }
        ensures levels { result.levels ≡ self.levels }
        ensures limits { result.limits ≡ self.limits }
        ensures legal { AreLegal result }
    {
        let Cluster {
            levels,
            limits,
            servers,
            desk,
            view,
            gate: _,
        } = self;
        let entries = limits.entries();
        let servers = server_journals(alloc, entries, servers, room);
        let desk = desk_journal(alloc, levels, limits, desk.into_held());
        let view = view_journal(alloc, levels, entries, view.into_held());
        Journals::new(levels, limits, servers, desk, view)
    }

    /// Asks a server, as `ask_desk` asks the desk.
    pub fn ask_node<R: Wait>(
        &self,
        rt: &R,
        alloc: Global,
        caller: &mut Caller,
        server: ServerId,
        ask: NodeAsk,
    ) -> Result<NodeTold, AskFault>
        requires levels { caller.old.levels ≡ self.now.levels }
        requires server { server.levels ≡ self.now.levels }
        ensures exchanges { caller.new.told
            ≡ caller.old.told ++ node_exchange server.number ask result }
        ensures same { IfOk result (λ t. (t.server ≡ server.number) × (t.ask ≡ ask)) }
        ensures reply { IfOk result (λ t.
            IsToldByServer caller.old.levels server.number
            t.number t.ask t.reply) }
        ensures heard { IsHeard (Part.Server server.number) result (λ t. t.number)
            caller.old caller.new }
    {
        let number = server.number();
        let own = OwnServer {
            levels: caller.levels,
            number,
        };
        let place = (number - 1) as usize;
        let cell = &self.servers[place];
        let pass = &mut caller.servers[place];
        let told = &mut caller.told;
        let part = Part::Server(number);
        let entry = ask_part(rt, alloc, cell, &self.gate, part, &own, pass, told, ask)?;
        Ok(NodeTold {
            server: number,
            number: entry.number,
            ask: entry.ask,
            reply: entry.reply,
        })
    }

    /// Asks the desk, once it has its lock: the reply is that of the desk after the entries of its journal, and the ask
    /// is entered with it under the number that is told. Answers `JournalFull` where that journal is full, and `Memory`
    /// where memory is refused: then the desk is as it was.
    pub fn ask_desk<R: Wait>(
        &self,
        rt: &R,
        alloc: Global,
        caller: &mut Caller,
        ask: DeskAsk,
    ) -> Result<DeskTold, AskFault>
        requires { caller.old.levels ≡ self.now.levels }
        ensures exchanges { caller.new.told ≡ caller.old.told ++ desk_exchange ask result }
        ensures same { IfOk result (λ t. t.ask ≡ ask) }
        ensures reply { IfOk result (λ t.
            IsToldByDesk caller.old.levels self.now.limits t.number t.ask t.reply) }
        ensures heard { IsHeard Part.Desk result (λ t. t.number) caller.old caller.new }
    {
        let own = OwnDesk {
            levels: caller.levels,
            limits: self.limits,
        };
        let cell = &self.desk;
        let pass = &mut caller.desk;
        let told = &mut caller.told;
        let entry = ask_part(
            rt,
            alloc,
            cell,
            &self.gate,
            Part::Desk,
            &own,
            pass,
            told,
            ask,
        )?;
        let Numbered { number, ask, reply } = entry;
        Ok(DeskTold { number, ask, reply })
    }

    /// Asks the view, as `ask_desk` asks the desk.
    pub fn ask_view<R: Wait>(
        &self,
        rt: &R,
        alloc: Global,
        caller: &mut Caller,
        ask: ViewAsk,
    ) -> Result<ViewTold, AskFault>
        requires { caller.old.levels ≡ self.now.levels }
        ensures exchanges { caller.new.told ≡ caller.old.told ++ view_exchange ask result }
        ensures same { IfOk result (λ t. t.ask ≡ ask) }
        ensures reply { IfOk result (λ t.
            IsToldByView caller.old.levels t.number t.ask t.reply) }
        ensures heard { IsHeard Part.View result (λ t. t.number) caller.old caller.new }
    {
        let own = OwnView {
            levels: caller.levels,
        };
        let cell = &self.view;
        let pass = &mut caller.view;
        let told = &mut caller.told;
        let entry = ask_part(
            rt,
            alloc,
            cell,
            &self.gate,
            Part::View,
            &own,
            pass,
            told,
            ask,
        )?;
        let Numbered { number, ask, reply } = entry;
        Ok(ViewTold { number, ask, reply })
    }
}

/// A pass for each of these cells, with nothing seen.
fn passes(alloc: Global, cells: &[Cell<Node>]) -> Result<Vec<Pass<Node>>, Memory>
    ensures one_each { IfOk result (λ passes. vec_len passes ≡ length cells.now) }
    ensures unseen { IfOk result (λ passes.
        map (λ pass. pass.seen) passes.items ≡ replicate (length cells.now) 0) }
{
    let mut passes = Vec::new(alloc);
    for cell in cells {
        passes.push(cell.pass(alloc))?;
    }
    Ok(passes)
}

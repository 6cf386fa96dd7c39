//! A board of a running cluster, pulled part by part.

ghost use Rattle.std.specs.Prelude.{◌≡◌, ◌≤◌, ◌-◌, ◌^◌, IfOk, IfErr, OnOk, OnErr};
ghost use Rattle.tq_shape.specs.Tree.{IsServer};
ghost use Rattle.tq_tables.specs.{Parts.AreLegal, Tables.tables_of, Journals.no_entries};
ghost use Rattle.tq_mirror.specs.Prefixes.{IsPartOf, IsPullFault, journals_with, prefix_length, server_prefix};
ghost use Rattle.tq_cluster.specs.Told.{SeesOn, having_seen, seen_of};
ghost use Rattle.tq_cluster.specs.Rounds.{ArePulled, Continues, EndedAt, HasSeenAll, HasSeenServers, IsPull, SawWhatCame, parts_of, seen_then, servers_from};

use crate::caller::Caller;
use crate::cluster::Cluster;
use std::alloc::Global;
use std::marker::Model;
use std::sync::Wait;
use tq_cells::{Cell, Gate, Pass};
use tq_desk::Desk;
use tq_live::View;
use tq_mirror::{Entries, Prefixes, PullFault};
use tq_node::Node;
use tq_shape::{Levels, Limits, Memory, Part};
use tq_tables::{DeskEntry, NodeEntry, Tables, ViewEntry};

/// A board of a running cluster: of each part the entries that it pulled of the part's journal, from the first on, and
/// the tables over these. Contracts see it as these entries.
pub struct LiveBoard {
    pub(crate) prefixes: Prefixes,
}

// Written out, so that each function lets go of one by a call.
impl Drop for LiveBoard {
    fn drop(self) {
        let Self { prefixes: _ } = self;
    }
}

impl Model for LiveBoard {
    ghost use Rattle.tq_tables.specs.Journals.{JournalsView};

    ghost Value = { JournalsView };

    ghost view = { λ board. board.prefixes };
}

impl LiveBoard {
    /// A board that pulled nothing. Answers an error only where memory is refused.
    pub fn new(alloc: Global, levels: Levels, limits: Limits) -> Result<LiveBoard, Memory>
        ensures { IfOk result (λ board. board ≡ no_entries levels limits) }
    {
        let prefixes = Prefixes::new(alloc, levels, limits)?;
        Ok(LiveBoard { prefixes })
    }

    /// How many levels the tree of servers has.
    pub fn levels(&self) -> Levels
        ensures { result ≡ self.now.levels }
    {
        self.prefixes.levels()
    }

    /// The limits of the system.
    pub fn limits(&self) -> Limits
        ensures { result ≡ self.now.limits }
    {
        self.prefixes.limits()
    }

    /// The tables over what was pulled. The journals that have these entries alone are legal.
    pub fn tables(&self) -> &Tables
        ensures value { result.now ≡ tables_of self.now }
        ensures legal { AreLegal self.now }
    {
        self.prefixes.tables()
    }

    /// What was pulled of the server of that number.
    pub fn server(&self, number: u64) -> &[NodeEntry]
        requires { IsServer self.now.levels number }
        ensures { result.now ≡ server_prefix self.now number }
    {
        self.prefixes.server(number)
    }

    /// What was pulled of the desk.
    pub fn desk(&self) -> &[DeskEntry]
        ensures { result.now ≡ self.now.desk }
    {
        self.prefixes.desk()
    }

    /// What was pulled of the view.
    pub fn view(&self) -> &[ViewEntry]
        ensures { result.now ≡ self.now.view }
    {
        self.prefixes.view()
    }

    /// Pulls a part: asks it through the caller for the entries after those that were pulled of it, and takes them; the
    /// tables are then those over all that was pulled, and the caller was told of them. What it has seen of the part is then on
    /// the board.
    /// Answers `Foreign` with the entries where the part, where the entries that were pulled of it leave it, would not
    /// give them, or where with them there are fewer than the caller has seen, and `Memory` where memory is refused: then
    /// the board is as it was, and so is what the caller has seen.
    pub fn pull_part<R: Wait, G: Gate + Drop>(
        &mut self,
        rt: &R,
        alloc: Global,
        cluster: &Cluster<G>,
        caller: &mut Caller,
        part: Part,
    ) -> Result<(), PullFault>
        requires caller { caller.old.levels ≡ cluster.now.levels }
        requires levels { self.old.levels ≡ cluster.now.levels }
        requires limits { self.old.limits ≡ cluster.now.limits }
        requires part { IsPartOf cluster.now.levels part }
        ensures grown { OnOk result
            ((more : Entries) × (self.new ≡ journals_with self.old part more)) }
        ensures seen { OnOk result (seen_of caller.new part ≤ prefix_length self.new part) }
        ensures err { OnErr result (self.new ≡ self.old) }
        ensures fault { IfErr result (λ fault. (more : Entries)
            × IsPullFault self.old part more (seen_of caller.new part) fault) }
        ensures saw { seen_of caller.new part ≡ seen_then self.old self.new caller.old part }
        ensures others { caller.new ≡ having_seen caller.old part (seen_of caller.new part) }
    {
        match part {
            Part::Server(number) => {
                let place = (number - 1) as usize;
                let cell = &cluster.servers[place];
                let pass = &mut caller.servers[place];
                pull_server(&mut self.prefixes, rt, alloc, cell, pass, number)
            }
            Part::Desk => {
                let cell = &cluster.desk;
                pull_desk(&mut self.prefixes, rt, alloc, cell, &mut caller.desk)
            }
            Part::View => {
                let cell = &cluster.view;
                pull_view(&mut self.prefixes, rt, alloc, cell, &mut caller.view)
            }
        }
    }

    /// Pulls all parts through the caller: the servers upwards, the desk and the view. Answers the fault of the first part
    /// that is not pulled; the parts before it stay pulled, and nothing is pulled of those after it. `Memory` names no part.
    pub fn pull<R: Wait, G: Gate + Drop>(
        &mut self,
        rt: &R,
        alloc: Global,
        cluster: &Cluster<G>,
        caller: &mut Caller,
    ) -> Result<(), PullFault>
        requires caller { caller.old.levels ≡ cluster.now.levels }
        requires levels { self.old.levels ≡ cluster.now.levels }
        requires limits { self.old.limits ≡ cluster.now.limits }
        ensures pulls { ArePulled (parts_of cluster.now.levels)
            self.old self.new caller.old caller.new result }
        ensures continues { Continues self.old self.new }
        ensures seen { OnOk result (HasSeenAll self.new caller.new) }
        ensures fault { IfErr result (EndedAt self.new caller.new) }
        ensures saw { SawWhatCame self.old self.new caller.old caller.new }
        ensures told { caller.new.told ≡ caller.old.told }
        ensures grows { SeesOn caller.old caller.new }
        ensures tree { caller.new.levels ≡ caller.old.levels }
    {
        match self.pull_servers(rt, alloc, cluster, caller) {
            Ok(()) => (),
            Err(fault) => return Err(fault),
        }
        match self.pull_part(rt, alloc, cluster, caller, Part::Desk) {
            Ok(()) => (),
            Err(fault) => return Err(fault),
        }
        self.pull_part(rt, alloc, cluster, caller, Part::View)
    }

    /// Pulls all servers, as `pull` does all parts.
    fn pull_servers<R: Wait, G: Gate + Drop>(
        &mut self,
        rt: &R,
        alloc: Global,
        cluster: &Cluster<G>,
        caller: &mut Caller,
    ) -> Result<(), PullFault>
        requires caller { caller.old.levels ≡ cluster.now.levels }
        requires levels { self.old.levels ≡ cluster.now.levels }
        requires limits { self.old.limits ≡ cluster.now.limits }
        ensures pulls { ArePulled (servers_from 1 (2 ^ cluster.now.levels - 1))
            self.old self.new caller.old caller.new result }
        ensures continues { Continues self.old self.new }
        ensures seen { OnOk result
            (HasSeenServers self.new caller.new (2 ^ cluster.now.levels - 1)) }
        ensures fault { IfErr result (EndedAt self.new caller.new) }
        ensures saw { SawWhatCame self.old self.new caller.old caller.new }
        ensures told { caller.new.told ≡ caller.old.told }
        ensures grows { SeesOn caller.old caller.new }
        ensures tree { caller.new.levels ≡ caller.old.levels }
    {
        for place in 0..cluster.levels().servers() {
            match self.pull_part(rt, alloc, cluster, caller, Part::Server(place + 1)) {
                Ok(()) => (),
                Err(fault) => return Err(fault),
            }
        }
        Ok(())
    }
}

/// Pulls a server onto these prefixes, by the pass of a caller for it, as `LiveBoard::pull_part` does.
fn pull_server<R: Wait>(
    prefixes: &mut Prefixes,
    rt: &R,
    alloc: Global,
    cell: &Cell<Node>,
    pass: &mut Pass<Node>,
    number: u64,
) -> Result<(), PullFault>
    requires { IsServer prefixes.old.levels number }
    ensures { IsPull (Part.Server number) prefixes.old prefixes.new
        pass.old.seen pass.new.seen result }
{
    let known = prefixes.server(number).len() as u64;
    let mut fresh = cell.pass(alloc);
    let entries = cell.since(rt, alloc, &mut fresh, known)?;
    prefixes.take_server(alloc, number, entries, pass.seen())?;
    pass.see(&fresh);
    Ok(())
}

/// Pulls the desk, as `pull_server` does a server.
fn pull_desk<R: Wait>(
    prefixes: &mut Prefixes,
    rt: &R,
    alloc: Global,
    cell: &Cell<Desk>,
    pass: &mut Pass<Desk>,
) -> Result<(), PullFault>
    ensures { IsPull Part.Desk prefixes.old prefixes.new pass.old.seen pass.new.seen result }
{
    let known = prefixes.desk().len() as u64;
    let mut fresh = cell.pass(alloc);
    let entries = cell.since(rt, alloc, &mut fresh, known)?;
    prefixes.take_desk(alloc, entries, pass.seen())?;
    pass.see(&fresh);
    Ok(())
}

/// Pulls the view, as `pull_server` does a server.
fn pull_view<R: Wait>(
    prefixes: &mut Prefixes,
    rt: &R,
    alloc: Global,
    cell: &Cell<View>,
    pass: &mut Pass<View>,
) -> Result<(), PullFault>
    ensures { IsPull Part.View prefixes.old prefixes.new pass.old.seen pass.new.seen result }
{
    let known = prefixes.view().len() as u64;
    let mut fresh = cell.pass(alloc);
    let entries = cell.since(rt, alloc, &mut fresh, known)?;
    prefixes.take_view(alloc, entries, pass.seen())?;
    pass.see(&fresh);
    Ok(())
}

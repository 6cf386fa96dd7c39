//! The tree: costs, marks, the least quorums and blockers.

ghost use Rattle.std.specs.Prelude.{◌≡◌, ◌+◌, ◌-◌, ◌^◌, ◌<◌, ◌↔◌, IsOk, IfOk, IsSome, OnOk, OnErr, true, is_some, Some, [], Contains};
ghost use Rattle.std.specs.Bool.{OnTrue, OnFalse};
ghost use Rattle.tq_shape.specs.Tree.{depth_of};
ghost use Rattle.tq_coterie.specs.Coterie.{coterie, is_same};
ghost use Rattle.tq_live.specs.Least.{list_of_set};

pub(crate) mod cache;

use crate::choice::Choice;
use crate::costs::{BadCost, Costs, Setting, is_cost};
use crate::least::{Least, SearchFor, list_servers};
use crate::node::Node;
use crate::purpose::Purpose;
pub use cache::Turns;
use std::alloc::Global;
use std::marker::Model;
use tq_coterie::{Blocker, Quorum, ServerIds};
use tq_shape::{Levels, Memory, ServerId, ServerSet};

/// The costs and marks of the servers of a tree.
pub struct LiveTree {
    levels: Levels,
    root: Node,
}

// Written out, so that a crate above lets go of one by a call.
impl Drop for LiveTree {
    fn drop(self) {
        let Self { levels: _, root: _ } = self;
    }
}

impl Model for LiveTree {
    ghost use Rattle.tq_live.specs.Live.{Live};

    ghost Value = { Live };

    ghost use Rattle.tq_live.specs.Kept.{live_of, IsWhole};

    ghost view = { λ tree. live_of tree.levels tree.root };

    ghost invariant = { λ tree. IsWhole tree.levels tree.root };
}

impl LiveTree {
    ghost use Rattle.std.specs.Prelude.{◌≡◌, ◌+◌, ◌-◌, ◌^◌, ◌<◌, ◌↔◌, IsOk, IfOk, IsSome, OnOk, OnErr, true, is_some, Some, []};
    ghost use Rattle.std.specs.Bool.{OnTrue, OnFalse};
    ghost use Rattle.tq_shape.specs.Tree.{depth_of};
    ghost use Rattle.tq_live.specs.Live.{best, best_cost, blocker, costs_of, is_up, members_up, HasQuorumOrBlocker, HasQuorumOrBlockerUnder, new_live, with_both_costs, with_costs, with_mark, IsChoice, IsFirstChoice, IsBestOf, IsFirstOf};
    ghost use Rattle.tq_live.specs.{Least.{IsFound, AreServersOf}, Kept.{IsAt, changed_live, costs_after, found_set}};
    ghost use Rattle.tq_live.specs.Costs.{AreCosts, AreLow, no_costs};

    /// Every server at cost 1 for each purpose and up.
    pub fn new(alloc: Global, levels: Levels) -> Result<LiveTree, Memory>
        ensures { IfOk result (λ tree. tree ≡ new_live levels) }
    {
        let mut turns = Turns::new();
        let root = Node::new(alloc, levels.count() - 1, &mut turns.count)?;
        Ok(LiveTree { levels, root })
    }

    /// An equal tree.
    pub fn copy(&self, alloc: Global) -> Result<LiveTree, Memory>
        ensures { IfOk result (λ tree. tree ≡ self.now) }
    {
        let levels = self.levels;
        let _levels = levels.count();
        let mut turns = Turns::new();
        let root = self.root.copy(alloc, &mut turns.count)?;
        Ok(LiveTree { levels, root })
    }

    /// How many levels the tree has.
    pub fn levels(&self) -> Levels
        ensures { result ≡ self.now.levels }
    {
        self.levels
    }

    /// The costs of a server of this tree.
    pub fn costs(&self, server: ServerId) -> Costs
        requires { server.levels ≡ self.now.levels }
        ensures { result ≡ costs_of self.now server.number }
    {
        self.node(server).top().0
    }

    /// Whether a server of this tree is marked up.
    pub fn is_up(&self, server: ServerId) -> bool
        requires { server.levels ≡ self.now.levels }
        ensures { result ≡ is_up self.now server.number }
    {
        self.node(server).top().1
    }

    /// Sets the costs of a server of this tree. Where one is not from 1 to 1,000,000, both are refused, and nothing
    /// changes. It takes no memory. The caches of the server and of each server above it are written, and no others.
    pub fn set_cost(
        &mut self,
        server: ServerId,
        read: u64,
        write: u64,
        turns: &mut Turns,
    ) -> Result<(), BadCost>
        requires tree { server.levels ≡ self.old.levels }
        requires room { turns.old + self.old.levels < 2 ^ 64 }
        ensures ok { IsOk result ↔ AreCosts read write }
        ensures set { OnOk result (self.new ≡ with_both_costs self.old server.number read write) }
        ensures unchanged { OnErr result (self.new ≡ self.old) }
        ensures turns { OnOk result (turns.new ≡ turns.old + (depth_of server.number + 1)) }
        ensures no_turns { OnErr result (turns.new ≡ turns.old) }
    {
        if !is_cost(read) {
            return Err(BadCost);
        }
        if !is_cost(write) {
            return Err(BadCost);
        }
        self.put_costs(server, Costs { read, write }, turns);
        Ok(())
    }

    /// Sets the costs of a server of this tree to ones that a server may have.
    pub(crate) fn put_costs(&mut self, server: ServerId, costs: Costs, turns: &mut Turns)
        requires server { server.levels ≡ self.old.levels }
        requires cost { AreLow costs }
        requires room { turns.old + self.old.levels < 2 ^ 64 }
        ensures set { self.new ≡ with_costs self.old server.number costs }
        ensures turns { turns.new ≡ turns.old + (depth_of server.number + 1) }
    {
        self.change(server, Setting::Cost(costs), turns);
    }

    /// Marks a server of this tree up or down. It takes no memory. The caches of the server and of each server above
    /// it are written, and no others.
    pub fn set_mark(&mut self, server: ServerId, up: bool, turns: &mut Turns)
        requires tree { server.levels ≡ self.old.levels }
        requires room { turns.old + self.old.levels < 2 ^ 64 }
        ensures set { self.new ≡ with_mark self.old server.number up }
        ensures turns { turns.new ≡ turns.old + (depth_of server.number + 1) }
    {
        self.change(server, Setting::Mark(up), turns);
    }

    /// Makes the change at the server.
    fn change(&mut self, server: ServerId, change: Setting, turns: &mut Turns)
        requires tree { server.levels ≡ self.old.levels }
        requires cost { AreLow (costs_after change no_costs) }
        requires room { turns.old + self.old.levels < 2 ^ 64 }
        ensures set { self.new ≡ changed_live self.old server.number change }
        ensures turns { turns.new ≡ turns.old + (depth_of server.number + 1) }
    {
        let _levels = self.levels.count();
        let steps = server.depth();
        let number = server.number();
        self.root.change(steps, number, &change, &mut turns.count);
    }

    /// The node of the server.
    fn node(&self, server: ServerId) -> &Node
        requires { server.levels ≡ self.now.levels }
        ensures { IsAt self.now server.number result.now }
    {
        let _levels = self.levels.count();
        let steps = server.depth();
        let number = server.number();
        self.root.under(steps, number)
    }

    /// For the purpose, the cost of the first quorum of least cost of the server's subtree, among those that are up. It takes no
    /// memory. The server is one of this tree.
    pub fn best_cost(&self, purpose: Purpose, server: ServerId) -> Option<u64>
        requires { server.levels ≡ self.now.levels }
        ensures { result ≡ best_cost self.now purpose server.number }
    {
        self.node(server).least(purpose).get()
    }

    /// Puts the servers of what is looked for in the server's subtree, where it is there, into a set of none. It takes no
    /// memory.
    fn gather_into(&self, sought: SearchFor, server: ServerId, set: &mut ServerSet)
        requires tree { server.levels ≡ self.now.levels }
        requires empty { set.old ≡ record { levels = self.now.levels; numbers = [] } }
        requires there { IsSome (found_set self.now sought server.number) }
        ensures found { found_set self.now sought server.number ≡ Some set.new.numbers }
        ensures levels { set.new.levels ≡ self.now.levels }
    {
        let number = server.number();
        self.node(server).gather(sought, number, set);
    }

    /// The same as a list.
    fn gathered_list(
        &self,
        alloc: Global,
        sought: SearchFor,
        server: ServerId,
    ) -> Result<ServerIds, Memory>
        requires tree { server.levels ≡ self.now.levels }
        requires there { IsSome (found_set self.now sought server.number) }
        ensures set { IfOk result
            (λ ids. IsFound (found_set self.now sought server.number) ids.items) }
        ensures tree { IfOk result (λ ids. AreServersOf self.now.levels ids.items) }
    {
        let mut servers = ServerSet::new(alloc, self.levels)?;
        self.gather_into(sought, server, &mut servers);
        list_servers(alloc, &servers)
    }

    /// For the purpose, the first quorum of least cost of the server's subtree with its cost, among those that are up, if
    /// there is one. The server is one of this tree.
    pub fn best(
        &self,
        alloc: Global,
        purpose: Purpose,
        server: ServerId,
    ) -> Result<Option<Least>, Memory>
        requires { server.levels ≡ self.now.levels }
        ensures best { IfOk result (λ answer. IsBestOf self.now purpose server.number answer) }
        ensures first { IfOk result (λ answer. IsFirstOf self.now purpose server.number answer) }
        ensures either { HasQuorumOrBlockerUnder self.now purpose server.number }
    {
        match self.best_cost(purpose, server) {
            Some(cost) => {
                let mut least = Least::new(alloc, self.levels)?;
                least.cost = cost;
                self.gather_into(SearchFor::Quorum(purpose), server, &mut least.servers);
                Ok(Some(least))
            }
            None => Ok(None),
        }
    }

    /// Writes, for the purpose, the first quorum of least cost of the server's subtree with its cost, among those that are
    /// up, into the row and answers true. Where there is none, it leaves the row as it was and answers false. It takes no
    /// memory. The server is one of this tree, and the row one for such a tree.
    pub fn best_into(&self, purpose: Purpose, server: ServerId, row: &mut Least) -> bool
        requires tree { server.levels ≡ self.now.levels }
        requires row { row.old.servers.levels ≡ self.now.levels }
        ensures there { result ≡ is_some (best self.now purpose server.number) }
        ensures best { OnTrue result (IsBestOf self.now purpose server.number (Some row.new)) }
        ensures first { OnTrue result (IsFirstOf self.now purpose server.number (Some row.new)) }
        ensures none { OnFalse result (members_up self.now server.number ≡ []) }
        ensures unchanged { OnFalse result (row.new ≡ row.old) }
        ensures either { HasQuorumOrBlockerUnder self.now purpose server.number }
    {
        match self.best_cost(purpose, server) {
            Some(cost) => {
                row.cost = cost;
                row.servers.clear();
                self.gather_into(SearchFor::Quorum(purpose), server, &mut row.servers);
                true
            }
            None => false,
        }
    }

    /// The first quorum of least cost for the purpose among those that are up, or the blocker where none is.
    pub fn choose(&self, alloc: Global, purpose: Purpose) -> Result<Choice, Memory>
        ensures choice { IfOk result (λ choice. IsChoice self.now purpose choice) }
        ensures first { IfOk result (λ choice. IsFirstChoice self.now purpose choice) }
        ensures either { HasQuorumOrBlocker self.now purpose }
    {
        self.choose_or_share(alloc, purpose, None)
    }

    /// As `choose`. Where the quorum is the one that is kept, it shares that one's list.
    pub(crate) fn choose_or_share(
        &self,
        alloc: Global,
        purpose: Purpose,
        kept: Option<&Quorum>,
    ) -> Result<Choice, Memory>
        ensures choice { IfOk result (λ choice. IsChoice self.now purpose choice) }
        ensures first { IfOk result (λ choice. IsFirstChoice self.now purpose choice) }
        ensures either { HasQuorumOrBlocker self.now purpose }
    {
        let levels = self.levels;
        let root = levels.root();
        match self.best_cost(purpose, root) {
            Some(cost) => {
                let mut servers = ServerSet::new(alloc, levels)?;
                self.gather_into(SearchFor::Quorum(purpose), root, &mut servers);
                let quorum = quorum_of(alloc, &servers, kept)?;
                Ok(Choice::Quorum { quorum, cost })
            }
            None => {
                let servers = self.gathered_list(alloc, SearchFor::Blocker, root)?;
                let blocker = Blocker::new(alloc, levels, servers)?;
                Ok(Choice::Blocked(blocker))
            }
        }
    }
}

/// The quorum of these servers, which are known to be one. It shares the list of the one that is kept, where that is of
/// the same servers.
fn quorum_of(alloc: Global, servers: &ServerSet, kept: Option<&Quorum>) -> Result<Quorum, Memory>
    requires { Contains (coterie servers.now.levels) servers.now.numbers }
    ensures { IfOk result (λ quorum. quorum ≡ list_of_set servers.now) }
{
    if let Some(quorum) = kept {
        if is_of(quorum, servers) {
            return Ok(quorum.clone()?);
        }
    }
    let ids = list_servers(alloc, servers)?;
    Quorum::new(alloc, servers.levels(), ids)
}

/// Whether the quorum is the one of these servers.
fn is_of(quorum: &Quorum, servers: &ServerSet) -> bool
    ensures { result ≡ is_same quorum.now (list_of_set servers.now) }
{
    if quorum.levels() != servers.levels() {
        return false;
    }
    let mut left = quorum.servers();
    for server in servers.iter() {
        let Some((first, behind)) = left.split_first() else {
            return false;
        };
        if first.number() != server.number() {
            return false;
        }
        left = behind;
    }
    left.is_empty()
}

//! A server with all below it: the walks down, and the repair of one path.

ghost use Rattle.std.specs.Prelude.{◌≡◌, ◌+◌, ◌*◌, ◌^◌, ◌<◌, ◌≤◌, IfOk, IfSome, OnOk};
ghost use Rattle.tq_shape.specs.{Tree.IsServer, ServerSet.set_with};
ghost use Rattle.tq_live.specs.{Subtree.{Subtree, Over, leaves}, Least.HasGathered, Costs.{AreLow, no_costs}};
ghost use Rattle.tq_live.specs.Kept.{weight_of, form_in, goes_left_at, under, costs_after, changed_under, caches_on_way, found_in, StandsAt, even, top_of, subtree_of};
ghost use Rattle.tq_live.specs.declared.purpose.Purpose.{Purpose};
ghost use Rattle.tq_live.specs.declared.least.SearchFor.TheVariants as soughts;

use crate::costs::{Costs, Setting};
use crate::least::SearchFor;
use crate::purpose::Purpose;
use crate::tree::cache::{Cache, Count, repair};
use crate::weight::{Form, Weight};
use std::alloc::Global;
use std::marker::Model;
use tq_shape::{Memory, ServerId, ServerSet};

/// A server of a tree with all that stands below it.
#[cycle(node)]
#[derive(Drop)]
pub(crate) struct Node {
    costs: Costs,
    up: bool,
    cache: Cache,
    below: Below,
}

#[cycle(node)]
#[derive(Drop)]
pub(crate) enum Below {
    Nothing,
    Over(Box<Sides>),
}

/// The two sides of a server, in one block.
#[cycle(node)]
#[derive(Drop)]
pub(crate) struct Sides {
    pub(crate) left: Node,
    pub(crate) right: Node,
}

impl Model for Node {
    ghost use Rattle.tq_live.specs.Subtree.{Subtree, servers_in, subtree_code};

    ghost Value = { Subtree };

    ghost coded = { subtree_code };

    ghost use Rattle.tq_live.specs.Kept.{subtree_of, IsKept};

    ghost view = { λ node. subtree_of node.costs node.up node.below };

    ghost invariant = { λ node. IsKept node.costs node.up node.below node.cache };

    ghost size = { servers_in };

    ghost use Rattle.std.proofs.Common.{arith};

    ghost size_decreases = { λ a h. Prim.grind arith };
}

impl Node {
    /// So many levels below a server, every server at cost 1 for each purpose and up.
    pub(crate) fn new(alloc: Global, height: u32, turns: &mut Count) -> Result<Node, Memory>
        requires few { 2 ^ height ≤ 512 }
        requires room { turns.old + 2 * 2 ^ height < 2 ^ 64 }
        ensures node { IfOk result (λ node. node ≡ even height) }
        ensures turns { OnOk result (turns.new + 1 ≡ turns.old + 2 * 2 ^ height) }
    {
        let costs = Costs::even(1);
        if height == 0 {
            return Ok(Node::over(costs, true, Below::Nothing, turns));
        }
        let left = Node::new(alloc, height - 1, turns)?;
        let right = Node::new(alloc, height - 1, turns)?;
        let sides = Box::new(alloc, Sides { left, right })?;
        Ok(Node::over(costs, true, Below::Over(sides), turns))
    }

    /// An equal subtree.
    pub(crate) fn copy(&self, alloc: Global, turns: &mut Count) -> Result<Node, Memory>
        requires room { turns.old + 2 * leaves self.now < 2 ^ 64 }
        ensures node { IfOk result (λ node. node ≡ self.now) }
        ensures turns { OnOk result (turns.new + 1 ≡ turns.old + 2 * leaves self.now) }
    {
        let costs = self.costs;
        let up = self.up;
        let _ = &self.cache;
        match &self.below {
            Below::Nothing => Ok(Node::over(costs, up, Below::Nothing, turns)),
            Below::Over(sides) => {
                let left = sides.left.copy(alloc, turns)?;
                let right = sides.right.copy(alloc, turns)?;
                let sides = Box::new(alloc, Sides { left, right })?;
                Ok(Node::over(costs, up, Below::Over(sides), turns))
            }
        }
    }

    /// A server of those costs and that mark over its sides.
    fn over(costs: Costs, up: bool, below: Below, turns: &mut Count) -> Node
        requires cost { AreLow costs }
        requires small { leaves (subtree_of costs up below) ≤ 512 }
        requires room { turns.old + 1 < 2 ^ 64 }
        ensures node { result ≡ subtree_of costs up below }
        ensures turns { turns.new ≡ turns.old + 1 }
    {
        let cache = Cache::of(costs, up, &below, turns);
        Node {
            costs,
            up,
            cache,
            below,
        }
    }

    /// The costs of the top, and whether it is marked up.
    pub(crate) fn top(&self) -> (Costs, bool)
        ensures { result ≡ top_of self.now }
    {
        (self.costs, self.up)
    }

    /// The form of the first least member.
    fn form(&self, sought: SearchFor) -> Form
        ensures { result ≡ form_in sought self.now }
    {
        self.cache.form(sought)
    }

    /// Puts the servers of the first least member into the set, where there is one. The node is that of the server of the
    /// number, one of the set's tree.
    pub(crate) fn gather(&self, sought: SearchFor, number: u64, set: &mut ServerSet)
        requires { StandsAt set.old.levels number self.now }
        ensures found { HasGathered (found_in sought number self.now) set.old set.new }
        ensures levels { set.new.levels ≡ set.old.levels }
    {
        let _servers = set.levels().servers();
        let form = self.form(sought);
        match &self.below {
            Below::Nothing => put(set, number),
            Below::Over(sides) => match form {
                Form::WithLeft => {
                    put(set, number);
                    sides.left.gather(sought, 2 * number, set);
                }
                Form::WithRight => {
                    put(set, number);
                    sides.right.gather(sought, 2 * number + 1, set);
                }
                Form::BothSides => {
                    sides.right.gather(sought, 2 * number + 1, set);
                    sides.left.gather(sought, 2 * number, set);
                }
            },
        }
    }

    /// The cost of the first quorum of least cost for the purpose, among those that are up.
    pub(crate) fn least(&self, purpose: Purpose) -> Weight
        ensures value { result ≡ weight_of (soughts.Quorum purpose) self.now }
        ensures bounded { IfSome result (λ weight. weight ≤ 1000000 * leaves self.now) }
        ensures small { leaves self.now ≤ 512 }
    {
        self.cache.least(purpose)
    }

    /// The subtree of a server that stands so many steps below.
    pub(crate) fn under(&self, steps: u32, number: u64) -> &Node
        requires { steps ≤ 64 }
        ensures { result.now ≡ under self.now steps number }
    {
        match &self.below {
            Below::Over(sides) if steps > 0 => {
                if is_left(number, steps - 1) {
                    sides.left.under(steps - 1, number)
                } else {
                    sides.right.under(steps - 1, number)
                }
            }
            _ => self,
        }
    }

    /// Makes the change at a server that stands so many steps below, and repairs the caches on the way back up.
    pub(crate) fn change(&mut self, steps: u32, number: u64, change: &Setting, turns: &mut Count)
        requires cost { AreLow (costs_after change.now no_costs) }
        requires steps { steps ≤ 64 }
        requires room { turns.old + steps + 1 < 2 ^ 64 }
        ensures tree { self.new ≡ changed_under self.old steps number change.now }
        ensures turns { turns.new ≡ turns.old + caches_on_way self.old steps number }
        ensures leaves { leaves self.new ≡ leaves self.old }
        ensures on_way { caches_on_way self.old steps number ≤ steps + 1 }
    {
        match &mut self.below {
            Below::Over(sides) if steps > 0 => {
                if is_left(number, steps - 1) {
                    sides.left.change(steps - 1, number, change, turns);
                } else {
                    sides.right.change(steps - 1, number, change, turns);
                }
            }
            _ => match *change {
                Setting::Cost(costs) => self.costs = costs,
                Setting::Mark(up) => self.up = up,
            },
        }
        repair(&mut self.cache, self.costs, self.up, &self.below, turns);
    }
}

/// Puts the server of that number into the set, one of the set's tree.
fn put(set: &mut ServerSet, number: u64)
    requires { IsServer set.old.levels number }
    ensures { set.new ≡ set_with number set.old }
{
    let server = ServerId::new(set.levels(), number);
    set.insert(server);
}

/// Whether the way to the server turns left where so many steps are left after the turn.
fn is_left(number: u64, steps: u32) -> bool
    requires { steps < 64 }
    ensures { result ≡ goes_left_at number steps }
{
    (number >> steps) % 2 == 0
}

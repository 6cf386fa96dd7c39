//! The view's tree, against all sets of servers.

use crate::check::{Wrong, check};
use std::alloc::Global;
use tq_live::{Choice, Least, LiveTree, Purpose, Turns, View, ViewAsk, ViewReply};
use tq_shape::{Entry, Fault, Journaled, Levels, Memory, ServerId, ServerSet, foresee};

fn bit(number: u64) -> u64 {
    1u64.wrapping_shl((number % 64) as u32)
}

/// The servers as the bits of a number: servers 1 to 63 have the bits 1 to 63.
fn bits_of(servers: &[ServerId]) -> u64 {
    let mut bits = 0u64;
    for server in servers {
        bits |= bit(server.number());
    }
    bits
}

/// Whether the tree chooses the servers of these bits at that cost for the purpose, where a cost of 0 stands for a blocker.
fn takes_for(alloc: Global, tree: &LiveTree, purpose: Purpose, servers: u64, wanted: u64) -> bool {
    match tree.choose(alloc, purpose) {
        Ok(Choice::Quorum { quorum, cost }) => {
            bits_of(quorum.servers()) == servers && cost == wanted
        }
        Ok(Choice::Blocked(blocker)) => bits_of(blocker.servers()) == servers && wanted == 0,
        Err(_) => false,
    }
}

/// Whether it chooses them for each purpose.
fn takes(alloc: Global, tree: &LiveTree, servers: u64, wanted: u64) -> bool {
    takes_for(alloc, tree, Purpose::Read, servers, wanted)
        && takes_for(alloc, tree, Purpose::Write, servers, wanted)
}

/// Sets the costs. Answers whether it wrote so many caches, and none where they are refused.
fn sets_costs(tree: &mut LiveTree, number: u64, read: u64, write: u64, caches: u64) -> bool {
    let Some(server) = tree.levels().server(number) else {
        return false;
    };
    let mut turns = Turns::new();
    let allowed = tree.set_cost(server, read, write, &mut turns).is_ok();
    allowed == (caches > 0) && turns.count() == caches
}

/// The same for each purpose.
fn sets_cost(tree: &mut LiveTree, number: u64, cost: u64, caches: u64) -> bool {
    sets_costs(tree, number, cost, cost, caches)
}

/// Marks a server up or down. Answers whether it wrote so many caches.
fn sets_mark(tree: &mut LiveTree, number: u64, up: bool, caches: u64) -> bool {
    let Some(server) = tree.levels().server(number) else {
        return false;
    };
    let mut turns = Turns::new();
    tree.set_mark(server, up, &mut turns);
    turns.count() == caches
}

fn has_best_cost(tree: &LiveTree, number: u64, cost: u64) -> bool {
    match tree.levels().server(number) {
        Some(server) => {
            tree.best_cost(Purpose::Read, server) == Some(cost)
                && tree.best_cost(Purpose::Write, server) == Some(cost)
        }
        None => false,
    }
}

/// A cost is told to the servers above; one that is refused writes no cache.
fn tells_a_cost(alloc: Global, tree: &mut LiveTree) -> bool {
    sets_cost(tree, 4, 9, 3)
        && sets_cost(tree, 4, 0, 0)
        && sets_cost(tree, 4, 1_000_001, 0)
        && has_best_cost(tree, 4, 9)
        && has_best_cost(tree, 2, 2)
        && takes(alloc, tree, bit(1) | bit(2) | bit(5), 3)
}

/// A mark is told to the servers above.
fn tells_a_mark(alloc: Global, tree: &mut LiveTree) -> bool {
    sets_mark(tree, 2, false, 2)
        && has_best_cost(tree, 2, 10)
        && takes(alloc, tree, bit(1) | bit(3) | bit(6), 3)
}

fn is_blocked(alloc: Global, tree: &mut LiveTree) -> bool {
    sets_mark(tree, 1, false, 1)
        && sets_mark(tree, 4, false, 3)
        && takes(alloc, tree, bit(1) | bit(2) | bit(4), 0)
}

#[test]
fn changes_are_told_to_the_servers_above(rt: HostRuntime) -> Result<(), Wrong> {
    let mut tree = LiveTree::new(rt.alloc(), Levels::new(3).unwrap())?;
    let holds = tells_a_cost(rt.alloc(), &mut tree)
        && tells_a_mark(rt.alloc(), &mut tree)
        && is_blocked(rt.alloc(), &mut tree);
    check(holds, "another offer")
}

/// How many caches a change at the server writes: its own, and one for each server above it.
fn caches_of(number: u64) -> u64 {
    u64::from(64u32.wrapping_sub(number.leading_zeros()))
}

/// Gives each server below the end the greatest cost. Answers whether each wrote a cache for each depth.
fn costs_the_most(tree: &mut LiveTree, end: u64) -> bool {
    for number in 1..end {
        if !sets_cost(tree, number, 1_000_000, caches_of(number)) {
            return false;
        }
    }
    true
}

/// Marks the servers above the first leaf down. Answers whether each wrote a cache for each depth.
fn all_but_leaves_go_down(tree: &mut LiveTree, leaf: u64) -> bool {
    for number in 1..leaf {
        if !sets_mark(tree, number, false, caches_of(number)) {
            return false;
        }
    }
    true
}

fn changes_each(alloc: Global, tree: &mut LiveTree) -> bool {
    Turns::new().room(tree.levels())
        && costs_the_most(tree, 64)
        && takes(alloc, tree, 0x0000_0001_0001_0116, 6_000_000)
        && all_but_leaves_go_down(tree, 32)
        && takes(alloc, tree, 0xffff_ffff_0000_0000, 32_000_000)
        && sets_mark(tree, 63, false, 6)
        && sets_mark(tree, 63, true, 6)
        && sets_cost(tree, 1, 5, 1)
}

/// In the tree of six levels a change writes a cache for each depth, and the greatest costs are added.
#[test]
fn each_depth_writes_one_cache_more(rt: HostRuntime) -> Result<(), Wrong> {
    let mut tree = LiveTree::new(rt.alloc(), Levels::new(6).unwrap())?;
    check(changes_each(rt.alloc(), &mut tree), "another offer")
}

/// Whether the servers are those from the first number to the last.
fn are_all(servers: &[ServerId], first: u64, last: u64) -> bool {
    let mut next = first;
    for server in servers {
        if server.number() != next {
            return false;
        }
        next = next.wrapping_add(1);
    }
    next == last.wrapping_add(1)
}

/// Whether the servers are the root and each the left side of the one before, down to the last.
fn are_left_sides(servers: &[ServerId], last: u64) -> bool {
    let mut next = 1u64;
    for server in servers {
        if server.number() != next {
            return false;
        }
        next = next.wrapping_mul(2);
    }
    next == last.wrapping_mul(2)
}

/// Whether the tree of ten levels chooses its left sides, or where only its leaves are up, them.
fn takes_of_ten(alloc: Global, tree: &LiveTree, is_inner_up: bool) -> bool {
    match tree.choose(alloc, Purpose::Write) {
        Ok(Choice::Quorum { quorum, cost }) => {
            if is_inner_up {
                are_left_sides(quorum.servers(), 512) && cost == 10_000_000
            } else {
                are_all(quorum.servers(), 512, 1023) && cost == 512_000_000
            }
        }
        _ => false,
    }
}

fn changes_each_of_ten(alloc: Global, tree: &mut LiveTree) -> bool {
    Turns::new().room(tree.levels())
        && costs_the_most(tree, 1024)
        && takes_of_ten(alloc, tree, true)
        && all_but_leaves_go_down(tree, 512)
        && takes_of_ten(alloc, tree, false)
        && sets_mark(tree, 1023, true, 10)
}

/// The same of the tree of ten levels; there is none of eleven.
#[test]
fn each_depth_of_ten_levels_writes_one_cache_more(rt: HostRuntime) -> Result<(), Wrong> {
    let mut tree = LiveTree::new(rt.alloc(), Levels::new(10).unwrap())?;
    check(Levels::new(11).is_none(), "eleven levels")?;
    check(changes_each_of_ten(rt.alloc(), &mut tree), "another offer")
}

/// Two costs are told to the servers above, a refused one of the two writes no cache, and each purpose has a quorum of its own.
fn tells_two_costs(alloc: Global, tree: &mut LiveTree) -> bool {
    sets_costs(tree, 1, 5, 1, 1)
        && sets_costs(tree, 2, 1, 0, 0)
        && sets_costs(tree, 2, 0, 1, 0)
        && sets_costs(tree, 2, 1_000_001, 1, 0)
        && sets_costs(tree, 2, 1, 1_000_001, 0)
        && takes_for(alloc, tree, Purpose::Read, bit(2) | bit(3), 2)
        && takes_for(alloc, tree, Purpose::Write, bit(1) | bit(2), 2)
        && has_best_cost(tree, 1, 2)
        && has_best_cost(tree, 2, 1)
        && has_best_cost(tree, 3, 1)
        && writes_best(alloc, tree, Purpose::Read, 1)
        && writes_best(alloc, tree, Purpose::Write, 1)
}

/// Where no quorum is up the blocker is the same for each purpose.
fn blocks_each(alloc: Global, tree: &mut LiveTree) -> bool {
    sets_costs(tree, 2, 9, 2, 2)
        && sets_mark(tree, 1, false, 1)
        && sets_mark(tree, 2, false, 2)
        && takes(alloc, tree, bit(1) | bit(2), 0)
}

#[test]
fn each_purpose_has_a_quorum_of_its_own(rt: HostRuntime) -> Result<(), Wrong> {
    let mut tree = LiveTree::new(rt.alloc(), Levels::new(2).unwrap())?;
    let holds = tells_two_costs(rt.alloc(), &mut tree) && blocks_each(rt.alloc(), &mut tree);
    check(holds, "another offer")
}

// ---- rows

/// The servers of a set as the bits of a number.
fn bits_in(servers: &ServerSet) -> u64 {
    let mut bits = 0u64;
    for server in servers.iter() {
        bits |= bit(server.number());
    }
    bits
}

fn is_of(row: &Least, servers: u64, cost: u64) -> bool {
    bits_in(&row.servers) == servers && row.cost == cost
}

/// Whether a row is written as the best of the server's subtree is told, and left as it was where there is none.
fn writes_best(alloc: Global, tree: &LiveTree, purpose: Purpose, number: u64) -> bool {
    let Some(server) = tree.levels().server(number) else {
        return false;
    };
    let Ok(mut row) = Least::new(alloc, tree.levels()) else {
        return false;
    };
    let written = tree.best_into(purpose, server, &mut row);
    match tree.best(alloc, purpose, server) {
        Ok(Some(least)) => written && is_of(&row, bits_in(&least.servers), least.cost),
        Ok(None) => !written && is_of(&row, 0, 0),
        Err(_) => false,
    }
}

fn writes_each_best(alloc: Global, tree: &LiveTree) -> bool {
    for number in 1..8u64 {
        if !writes_best(alloc, tree, Purpose::Read, number) {
            return false;
        }
        if !writes_best(alloc, tree, Purpose::Write, number) {
            return false;
        }
    }
    true
}

/// Whether a row is written over with these servers at that cost, for the server, and then left for one that is down.
fn has_row(
    alloc: Global,
    tree: &LiveTree,
    number: u64,
    down: u64,
    servers: u64,
    cost: u64,
) -> bool {
    let levels = tree.levels();
    let (Some(server), Some(down)) = (levels.server(number), levels.server(down)) else {
        return false;
    };
    let Ok(mut row) = Least::new(alloc, levels) else {
        return false;
    };
    tree.best_into(Purpose::Read, server, &mut row)
        && !tree.best_into(Purpose::Read, down, &mut row)
        && is_of(&row, servers, cost)
}

#[test]
fn rows_are_written_where_a_quorum_is_up(rt: HostRuntime) -> Result<(), Wrong> {
    let mut tree = LiveTree::new(rt.alloc(), Levels::new(3).unwrap())?;
    let holds = writes_each_best(rt.alloc(), &tree)
        && sets_mark(&mut tree, 4, false, 3)
        && writes_each_best(rt.alloc(), &tree)
        && has_row(rt.alloc(), &tree, 1, 4, bit(1) | bit(2) | bit(5), 3)
        && has_row(rt.alloc(), &tree, 2, 4, bit(2) | bit(5), 2);
    check(holds, "another row")
}

// ---- a view with its journal

/// What the choice costs, 0 where the reply is no choice.
fn cost_of(reply: &ViewReply) -> u64 {
    match reply {
        ViewReply::Chosen { quorum: _, cost } => *cost,
        _ => 0,
    }
}

fn dear() -> ViewAsk {
    ViewAsk::SetCost {
        server: 1,
        read: 5,
        write: 7,
    }
}

fn choose(purpose: Purpose) -> ViewAsk {
    ViewAsk::Choose { purpose }
}

/// Whether costs are set under the number 1, and a choice to write to with them is told under the number 2.
fn fills(alloc: Global, view: &mut Journaled<View>) -> bool {
    match (
        view.ask(alloc, dear()),
        view.ask(alloc, choose(Purpose::Write)),
    ) {
        (Ok(first), Ok(second)) => {
            first.number == 1
                && matches!(first.reply, ViewReply::CostSet)
                && second.number == 2
                && cost_of(&second.reply) == 7
        }
        _ => false,
    }
}

fn is_full(alloc: Global, view: &mut Journaled<View>) -> bool {
    match view.ask(alloc, choose(Purpose::Read)) {
        Err(fault) => matches!(fault, Fault::JournalFull),
        Ok(_) => false,
    }
}

/// Whether the entries are costs that were set and a choice with them.
fn are_the_two(entries: &[Entry<ViewAsk, ViewReply>]) -> bool {
    match entries {
        [first, second] => {
            first.ask == dear()
                && matches!(first.reply, ViewReply::CostSet)
                && second.ask == choose(Purpose::Write)
                && cost_of(&second.reply) == 7
        }
        _ => false,
    }
}

/// Whether the journal of a view is entered until it is full, and handed out.
fn hands_out(alloc: Global) -> bool {
    let Ok(view) = View::new(alloc, Levels::new(1).unwrap()) else {
        return false;
    };
    let mut view = Journaled::new(alloc, view, 2);
    fills(alloc, &mut view)
        && is_full(alloc, &mut view)
        && are_the_two(view.entries())
        && are_the_two(view.into_entries().as_slice())
}

#[test]
fn asks_are_entered_until_the_journal_is_full(rt: HostRuntime) -> Result<(), Wrong> {
    check(hands_out(rt.alloc()), "another answer")
}

fn is_set(reply: Result<ViewReply, Memory>) -> bool {
    matches!(reply, Ok(ViewReply::CostSet))
}

fn costs(view: &View) -> u64 {
    view.tree().costs(view.tree().levels().root()).read
}

/// Whether a cost is foreseen to be set, as of any part and as of a view, and is not set.
fn foresees(alloc: Global, view: &View) -> bool {
    is_set(foresee(alloc, view, 1, &dear()))
        && is_set(view.foresee(alloc, &dear()))
        && costs(view) == 1
}

/// Whether a cost that is set in a copy is not set in the view.
fn leaves_its_copy(alloc: Global, view: &View) -> bool {
    match view.copy(alloc) {
        Ok(copy) => {
            let mut copy = copy;
            is_set(copy.answer(alloc, &dear())) && costs(&copy) == 5 && costs(view) == 1
        }
        Err(_) => false,
    }
}

fn changes_nothing(alloc: Global) -> bool {
    match View::new(alloc, Levels::new(1).unwrap()) {
        Ok(view) => foresees(alloc, &view) && leaves_its_copy(alloc, &view),
        Err(_) => false,
    }
}

#[test]
fn what_is_foreseen_or_asked_of_a_copy_changes_nothing(rt: HostRuntime) -> Result<(), Wrong> {
    check(changes_nothing(rt.alloc()), "another answer")
}

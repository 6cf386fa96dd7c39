//! Servers, sets, quorums, names, stable records.

use crate::check::{Wrong, check};
use std::alloc::{AllocError, Global};
use tq_coterie::{Quorum, holds_quorum, is_quorum, meet};
use tq_intents::{Intents, Record, SharedWrite};
use tq_shape::{Levels, Memory, ServerId, ServerSet};
use tq_store::{Content, FileName, Write};

// ---- servers of a tree of three levels

fn number_of(server: Option<ServerId>) -> u64 {
    match server {
        Some(server) => server.number(),
        None => 0,
    }
}

/// The parent of a server, 0 where there is none.
fn parent_of(number: u64) -> u64 {
    match Levels::new(3).unwrap().server(number) {
        Some(server) => number_of(server.parent()),
        None => 0,
    }
}

/// The side of one server towards another, 0 where there is none.
fn side(top: u64, below: u64) -> u64 {
    let levels = Levels::new(3).unwrap();
    match (levels.server(top), levels.server(below)) {
        (Some(top), Some(below)) => number_of(top.side_towards(below)),
        _ => 0,
    }
}

#[test]
fn a_server_has_a_parent() -> Result<(), Wrong> {
    let holds = parent_of(1) == 0 && parent_of(3) == 1 && parent_of(6) == 3;
    check(holds, "another parent")
}

#[test]
fn the_side_towards_a_server_is_it_or_stands_above_it() -> Result<(), Wrong> {
    let above = side(1, 7) == 3 && side(1, 5) == 2 && side(3, 7) == 7;
    let none = side(2, 7) == 0 && side(3, 3) == 0 && side(7, 3) == 0;
    check(above && none, "another side")
}

// ---- a set of servers

/// Takes server 1 out of a set of servers 1 and 3. Answers whether it is gone there, and not in a copy made before.
fn takes_out(set: &mut ServerSet) -> bool {
    let root = set.levels().root();
    match set.clone() {
        Ok(copy) => {
            set.remove(root)
                && !set.remove(root)
                && !set.contains(root)
                && number_of(set.first()) == 3
                && number_of(copy.first()) == 1
        }
        Err(_) => false,
    }
}

/// Puts server 1 into a set of server 3. Answers whether it was new there the first time alone.
fn puts_in(set: &mut ServerSet) -> bool {
    let root = set.levels().root();
    number_of(set.first()) == 3 && set.insert(root) && !set.insert(root) && takes_out(set)
}

fn is_gone(alloc: Global) -> bool {
    let levels = Levels::new(2).unwrap();
    match ServerSet::new(alloc, levels) {
        Ok(set) => {
            let mut set = set;
            set.insert(ServerId::new(levels, 3));
            puts_in(&mut set)
        }
        Err(_) => false,
    }
}

#[test]
fn what_is_taken_out_of_a_set_is_gone(rt: HostRuntime) -> Result<(), Wrong> {
    check(is_gone(rt.alloc()), "another set")
}

/// Servers at the ends of the words of a set of ten levels, upwards, and as they are put in.
const ENDS: [u64; 7] = [1, 63, 64, 65, 127, 128, 1023];

const PUT: [u64; 7] = [128, 1, 1023, 64, 127, 63, 65];

/// Whether the set is walked as these numbers.
fn is_walked(set: &ServerSet, numbers: &[u64]) -> bool {
    let mut left = numbers;
    for server in set.iter() {
        match left {
            [first, rest @ ..] => {
                if server.number() != *first {
                    return false;
                }
                left = rest;
            }
            [] => return false,
        }
    }
    left.is_empty()
}

/// Puts these servers into a set of ten levels. Answers whether each was new there.
fn puts_ends(set: &mut ServerSet) -> bool {
    for number in PUT.iter() {
        match set.levels().server(*number) {
            Some(server) => {
                if !set.insert(server) {
                    return false;
                }
            }
            None => return false,
        }
    }
    true
}

fn remove(set: &mut ServerSet, number: u64) -> bool {
    match set.levels().server(number) {
        Some(server) => set.remove(server),
        None => false,
    }
}

/// Takes servers out of several words, and then all. Answers whether a copy made before has them still.
fn takes_ends(set: &mut ServerSet) -> bool {
    let Ok(copy) = set.clone() else {
        return false;
    };
    let is_out = remove(set, 64) && remove(set, 1023) && remove(set, 1) && !remove(set, 66);
    let is_left = is_walked(set, &[63, 65, 127, 128]);
    set.clear();
    is_out && is_left && is_walked(set, &[]) && is_walked(&copy, &ENDS)
}

fn has_ends(alloc: Global) -> bool {
    match ServerSet::new(alloc, Levels::new(10).unwrap()) {
        Ok(set) => {
            let mut set = set;
            puts_ends(&mut set) && is_walked(&set, &ENDS) && takes_ends(&mut set)
        }
        Err(_) => false,
    }
}

#[test]
fn a_set_of_ten_levels_has_its_ends(rt: HostRuntime) -> Result<(), Wrong> {
    check(has_ends(rt.alloc()), "another set")
}

// ---- the coterie

/// The server, where the number of a set has its bit, else 0.
fn member(set: u64, server: u32) -> u64 {
    if set.wrapping_shr(server.wrapping_sub(1)) % 2 == 1 {
        u64::from(server)
    } else {
        0
    }
}

fn is_held(levels: Levels, set: u64) -> bool {
    let numbers = [
        member(set, 1),
        member(set, 2),
        member(set, 3),
        member(set, 4),
        member(set, 5),
        member(set, 6),
        member(set, 7),
    ];
    holds_quorum(levels, &numbers)
}

/// Which of 64 sets of servers hold a quorum, a bit for each. A set has a bit for each server from 1 to 7, and these sets are
/// those with the same answer for server 7.
fn held(levels: Levels, has_seventh: bool) -> u64 {
    let mut held = 0u64;
    for set in 0..64u32 {
        let more = if has_seventh { 64 } else { 0 };
        if is_held(levels, u64::from(set) + more) {
            held |= 1u64.wrapping_shl(set);
        }
    }
    held
}

/// The sets of servers of three, two and one levels that hold a quorum are those that a plain listing of all members finds.
#[test]
fn quorums_are_held_as_in_a_plain_listing() -> Result<(), Wrong> {
    let (one, two, three) = (
        Levels::new(1).unwrap(),
        Levels::new(2).unwrap(),
        Levels::new(3).unwrap(),
    );
    let holds = held(three, false) == 0xfae8_e8a0_aa88_8800
        && held(three, true) == 0xffee_eeaa_fae8_e8a0
        && held(two, false) == 0xe8e8_e8e8_e8e8_e8e8
        && held(one, false) == 0xaaaa_aaaa_aaaa_aaaa;
    check(holds, "another set")
}

#[test]
fn lists_out_of_order_are_no_members() -> Result<(), Wrong> {
    let levels = Levels::new(3).unwrap();
    let holds = is_quorum(levels, &[1, 2, 4])
        && !is_quorum(levels, &[1, 4, 2])
        && !is_quorum(levels, &[1, 2, 2])
        && !is_quorum(levels, &[0, 1, 2]);
    check(holds, "another answer")
}

/// The number, and those from the first to the last, in the tree of ten levels.
fn is_member(alloc: Global, number: Option<u64>, first: u64, last: u64) -> Result<bool, Memory> {
    let mut numbers = Vec::new(alloc);
    if let Some(number) = number {
        numbers.push(number)?;
    }
    for one in first..=last {
        numbers.push(one)?;
    }
    Ok(is_quorum(Levels::new(10).unwrap(), numbers.as_slice()))
}

/// All leaves are a member; not so with the root besides, without one, or with a server in the place of both its sides.
#[test]
fn leaves_of_ten_levels_are_a_member(rt: HostRuntime) -> Result<(), Wrong> {
    let alloc = rt.alloc();
    let holds = matches!(is_member(alloc, None, 512, 1023), Ok(true))
        && matches!(is_member(alloc, Some(1), 512, 1023), Ok(false))
        && matches!(is_member(alloc, None, 512, 1022), Ok(false))
        && matches!(is_member(alloc, None, 511, 1021), Ok(false))
        && matches!(is_member(alloc, None, 511, 1022), Ok(true));
    check(holds, "another answer")
}

fn do_meet(alloc: Global) -> bool {
    let levels = Levels::new(3).unwrap();
    let some = Quorum::of(alloc, levels, &[1, 4, 5]);
    let others = Quorum::of(alloc, levels, &[3, 4, 5, 6]);
    match (some, others) {
        (Ok(Some(some)), Ok(Some(others))) => meet(&some, &others).number() == 4,
        _ => false,
    }
}

#[test]
fn quorums_meet_in_their_least_common_server(rt: HostRuntime) -> Result<(), Wrong> {
    check(do_meet(rt.alloc()), "another answer")
}

// ---- names as text

fn a() -> FileName {
    FileName::new(b"a").unwrap()
}

fn is_shown(alloc: Global, name: FileName) -> bool {
    match format!(in alloc; "{name} {name:?}") {
        Ok(shown) => shown.as_str() == "a \"a\"",
        Err(_) => false,
    }
}

#[test]
fn text_of_a_name(rt: HostRuntime) -> Result<(), Wrong> {
    check(is_shown(rt.alloc(), a()), "another text")
}

// ---- stable records

/// A write of `a` without a content.
fn empty(version: u64) -> Write {
    Write {
        file: a(),
        version,
        content: Content::empty(),
    }
}

/// A write of `a` with a content of one byte, or of none where memory is refused.
fn filled(alloc: Global, version: u64) -> Write {
    let content = match vec![in alloc; b'x'] {
        Ok(bytes) => Content::new(bytes),
        Err(_) => Ok(None),
    };
    match content {
        Ok(Some(content)) => Write {
            file: a(),
            version,
            content,
        },
        _ => empty(version),
    }
}

/// Whether the copy of `a` is the first of those with the greatest version, and there is no open vote.
fn is_kept(alloc: Global, intents: &Intents) -> bool {
    match intents.copies(alloc) {
        Ok(copies) => {
            let copy = copies.get(&a());
            copy.version == 2
                && copy.content.len() == 1
                && intents.of(7).is_none()
                && intents.of(8).is_none()
        }
        Err(_) => false,
    }
}

/// The same of a copy, which has as many records.
fn is_kept_in_a_copy(alloc: Global, intents: &Intents) -> bool {
    match intents.copy(alloc) {
        Ok(copy) => copy.stable().len() == 7 && is_kept(alloc, &copy),
        Err(_) => false,
    }
}

/// Copies of one file, two of them of its greatest version, an intent of 7 without its vote, and a vote of 8 with its end.
fn recovers(alloc: Global) -> Result<bool, AllocError> {
    let first = SharedWrite::alone(alloc, empty(1))?;
    let greatest = SharedWrite::alone(alloc, filled(alloc, 2))?;
    let as_great = SharedWrite::alone(alloc, empty(2))?;
    let last = SharedWrite::alone(alloc, empty(1))?;
    let intended = SharedWrite::alone(alloc, empty(3))?;
    let records = [
        Record::Copy(first),
        Record::Copy(greatest),
        Record::Copy(as_great),
        Record::Copy(last),
        Record::Intent {
            txn: 7,
            number: 6,
            write: intended,
        },
        Record::Prepared { txn: 8, number: 9 },
        Record::Gone { txn: 8, number: 9 },
    ];
    let intents = Intents::recover(alloc, &records)?;
    Ok(is_kept(alloc, &intents) && is_kept_in_a_copy(alloc, &intents))
}

/// Of stable records the copy of a file is the first with its greatest version; an intent alone stands for nothing, and a
/// vote with its end is not open.
#[test]
fn what_stable_records_stand_for(rt: HostRuntime) -> Result<(), Wrong> {
    check(matches!(recovers(rt.alloc()), Ok(true)), "other records")
}

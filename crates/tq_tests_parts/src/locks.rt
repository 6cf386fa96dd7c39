//! A lock table.

use crate::check::{Wrong, check};
use std::alloc::Global;
use std::mem::forget;
use tq_locks::{Lock, LockEntry, LockOutcome, LockTable, Mode};
use tq_store::FileName;

fn a() -> FileName {
    FileName::new(b"a").unwrap()
}

fn b() -> FileName {
    FileName::new(b"b").unwrap()
}

/// A lock on a file that was granted under that number, and that no vote keeps.
fn lock(txn: u64, file: FileName, mode: Mode, since: u64) -> LockEntry {
    LockEntry {
        file,
        txn,
        lock: Lock {
            mode,
            since,
            version: 0,
            stable: false,
        },
    }
}

fn is_same(entry: &LockEntry, wanted: &LockEntry) -> bool {
    entry.file == wanted.file && entry.txn == wanted.txn && entry.lock == wanted.lock
}

// ---- what the table lends

/// Whether that lock is kept under one of the keys.
fn is_among(locks: &LockTable, keys: &[usize], wanted: &LockEntry) -> bool {
    for key in keys {
        match locks.entry(*key) {
            Some(entry) => {
                if is_same(entry, wanted) {
                    return true;
                }
            }
            None => return false,
        }
    }
    false
}

/// Whether the lock is kept under a key of its file, and under one of its transaction.
fn is_lent(locks: &LockTable, wanted: &LockEntry) -> bool {
    is_among(locks, locks.keys_of_file(&wanted.file), wanted)
        && is_among(locks, locks.keys_of_txn(wanted.txn), wanted)
}

fn are_lent(locks: &LockTable, wanted: &[LockEntry]) -> bool {
    for lock in wanted {
        if !is_lent(locks, lock) {
            return false;
        }
    }
    true
}

/// How many of these keys a lock is kept under. No table of these tests has more than three.
fn kept(locks: &LockTable) -> usize {
    let mut kept = 0usize;
    for key in 0..4usize {
        if locks.entry(key).is_some() {
            kept = kept.wrapping_add(1);
        }
    }
    kept
}

/// How many keys the files have, how many the transactions, and how many locks there are.
fn counts(locks: &LockTable) -> [usize; 3] {
    let of_files = locks
        .keys_of_file(&a())
        .len()
        .wrapping_add(locks.keys_of_file(&b()).len());
    let mut of_txns = 0usize;
    for txn in 1..5u64 {
        of_txns = of_txns.wrapping_add(locks.keys_of_txn(txn).len());
    }
    [of_files, of_txns, kept(locks)]
}

/// Whether exactly these locks, no two of them the same, are lent by both indexes, each under one key.
fn lends(locks: &LockTable, wanted: &[LockEntry]) -> bool {
    let count = wanted.len();
    are_lent(locks, wanted) && counts(locks) == [count, count, count]
}

// ---- calls

/// Asks for a lock under that number.
fn ask(
    locks: &mut LockTable,
    alloc: Global,
    txn: u64,
    file: FileName,
    mode: Mode,
    number: u64,
) -> Option<LockOutcome> {
    locks.ask(alloc, txn, &file, mode, number, 0).ok()
}

fn grants(
    locks: &mut LockTable,
    alloc: Global,
    txn: u64,
    file: FileName,
    mode: Mode,
    number: u64,
) -> bool {
    matches!(
        ask(locks, alloc, txn, file, mode, number),
        Some(LockOutcome::Granted)
    )
}

/// Whether the transaction holds these locks.
fn holds(locks: &LockTable, alloc: Global, txn: u64, wanted: &[LockEntry]) -> bool {
    match locks.held(alloc, txn) {
        Ok(held) => are_same(held.as_slice(), wanted),
        Err(_) => false,
    }
}

fn are_same(entries: &[LockEntry], wanted: &[LockEntry]) -> bool {
    match (entries, wanted) {
        ([], []) => true,
        ([entry], [lock]) => is_same(entry, lock),
        _ => false,
    }
}

const SHARED: Mode = Mode::Shared;

const EXCLUSIVE: Mode = Mode::Exclusive;

/// Transactions 1 and 2 share `a`, 2 has `b` too, and then 2 ends.
fn shares_and_releases(locks: &mut LockTable, alloc: Global) -> bool {
    let first = lock(1, a(), SHARED, 1);
    let second = lock(2, a(), SHARED, 2);
    let third = lock(2, b(), EXCLUSIVE, 3);
    let is_shared = grants(locks, alloc, 1, a(), SHARED, 1)
        && lends(locks, &[first])
        && grants(locks, alloc, 2, a(), SHARED, 2)
        && lends(locks, &[first, second])
        && grants(locks, alloc, 2, b(), EXCLUSIVE, 3)
        && lends(locks, &[first, second, third]);
    locks.release(2);
    is_shared && lends(locks, &[first])
}

/// Transaction 3 has `b`, in a place that was 2's.
fn uses_a_place_again(locks: &mut LockTable, alloc: Global) -> bool {
    let first = lock(1, a(), SHARED, 1);
    let again = lock(3, b(), SHARED, 4);
    grants(locks, alloc, 3, b(), SHARED, 4)
        && lends(locks, &[first, again])
        && matches!(locks.keys_of_txn(3), [key] if *key < 3)
        && holds(locks, alloc, 2, &[])
        && holds(locks, alloc, 3, &[again])
}

/// Transaction 4 is refused `a` because of 1, and has it once 1 has ended.
fn waits_for_the_last(locks: &mut LockTable, alloc: Global) -> bool {
    let first = lock(1, a(), SHARED, 1);
    let again = lock(3, b(), SHARED, 4);
    let last = lock(4, a(), EXCLUSIVE, 6);
    let refused = ask(locks, alloc, 4, a(), EXCLUSIVE, 5);
    let is_refused = matches!(refused, Some(LockOutcome::Held { by: 1 }))
        && lends(locks, &[first, again]);
    locks.release(1);
    is_refused
        && lends(locks, &[again])
        && grants(locks, alloc, 4, a(), EXCLUSIVE, 6)
        && lends(locks, &[again, last])
}

/// Whether a copy of the table lends the same.
fn copies(locks: &LockTable, alloc: Global) -> bool {
    match locks.copy(alloc) {
        Ok(copy) => {
            let lends = lends(
                &copy,
                &[lock(3, b(), SHARED, 4), lock(4, a(), EXCLUSIVE, 6)],
            );
            forget(copy);
            lends
        }
        Err(_) => false,
    }
}

fn goes_with_each_call(alloc: Global) -> bool {
    let mut locks = LockTable::new(alloc);
    let goes = shares_and_releases(&mut locks, alloc)
        && uses_a_place_again(&mut locks, alloc)
        && waits_for_the_last(&mut locks, alloc)
        && copies(&locks, alloc);
    forget(locks);
    goes
}

/// Both indexes and the locks go with each call and with a copy, and a place in the slab is used again.
#[test]
fn place_used_again(rt: HostRuntime) -> Result<(), Wrong> {
    check(goes_with_each_call(rt.alloc()), "another place")
}

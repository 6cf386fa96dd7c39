//! Lists of the keys of a slab, whose entries rise.
ghost use Rattle.std.specs.{Prelude.{◌≡◌, ◌≤◌, length, Some}, List.remove};
ghost use Rattle.slab.specs.Slab.{get};
ghost use Rattle.tq_locks.specs.{Keys.lent_keys, Kept.{is_under, is_under_at, RisesTo}};

use crate::LockEntry;
use crate::keys::{Keys, LentKeys};
use crate::lock_slab::LockSlab;
use std::cmp::Ordering;
use tq_store::FileName;

/// Whether the entry under a key comes before the place of this file and transaction.
#[inline(always)]
fn is_below(entries: &LockSlab, key: usize, file: &FileName, txn: u64) -> bool
    ensures { result ≡ is_under entries.now (file.now, txn) key }
{
    match entries.get(key) {
        Some(entry) => match entry.file.cmp(file) {
            Ordering::Less => true,
            Ordering::Equal => entry.txn < txn,
            Ordering::Greater => false,
        },
        None => false,
    }
}

/// Whether the entry under the key at a place of the list comes before the place of this file and transaction.
#[inline(always)]
fn is_below_at(
    entries: &LockSlab,
    keys: &LentKeys<'_>,
    at: usize,
    file: &FileName,
    txn: u64,
) -> bool
    ensures { result ≡ is_under_at entries.now (file.now, txn) keys.now at }
{
    match keys.get(at) {
        Some(key) => is_below(entries, key, file, txn),
        None => false,
    }
}

/// The place of this file and transaction among keys whose entries rise.
#[inline(always)]
pub(crate) fn place(entries: &LockSlab, list: Option<&Keys>, file: &FileName, txn: u64) -> usize
    ensures within { result ≤ length (lent_keys list.entry) }
    ensures place { RisesTo entries.now (lent_keys list.entry) (file.now, txn) result }
{
    let Some(keys) = list else {
        return 0;
    };
    if keys.len() == 0 {
        return 0;
    }
    place_within(entries, keys, file, txn)
}

/// The same, where the list may be long.
#[inline(never)]
fn place_within(entries: &LockSlab, keys: &Keys, file: &FileName, txn: u64) -> usize
    ensures within { result ≤ length keys.now.items }
    ensures place { RisesTo entries.now keys.now.items (file.now, txn) result }
{
    let lent = keys.lend();
    let mut low = 0;
    let mut high = lent.len();
    // Most often a lock goes behind those that are there.
    let mut at = high.saturating_sub(1);
    while low < high {
        if is_below_at(entries, &lent, at, file, txn) {
            low = at + 1;
        } else {
            high = at;
        }
        at = low + (high - low) / 2;
    }
    low
}

/// Takes the key of an entry out of a list, and tells its place.
#[inline(always)]
pub(crate) fn leave(keys: &mut Keys, entries: &LockSlab, entry: &LockEntry, key: usize) -> usize
    requires { get entries.now key ≡ Some entry.now }
    ensures place { RisesTo entries.now keys.old.items entry.now.0 result }
    ensures after { keys.new.items ≡ remove keys.old.items result }
{
    // Most often it is the last.
    if let Some(place) = keys.pop_if(key) {
        return place;
    }
    leave_within(keys, entries, entry, key)
}

/// The same, where the key may stand before others.
#[inline(never)]
fn leave_within(keys: &mut Keys, entries: &LockSlab, entry: &LockEntry, key: usize) -> usize
    requires { get entries.now key ≡ Some entry.now }
    ensures place { RisesTo entries.now keys.old.items entry.now.0 result }
    ensures after { keys.new.items ≡ remove keys.old.items result }
{
    let place = place_within(entries, keys, &entry.file, entry.txn);
    keys.take_out(place);
    place
}

//! The entries of a table in a slab, with the keys of each file and of each transaction.
ghost use Rattle.std.specs.Prelude.{◌≡◌, ◌+◌, ◌-◌, ◌<◌, ◌≤◌, ℕ, List, None, Some, IfOk, OnErr, length};
ghost use Rattle.std.specs.{Option.option_copied, Result.result_err};
ghost use Rattle.std.specs.FinMap as fin;
ghost use Rattle.slab.specs.Slab.{get, slab_len, values, Updates};
ghost use Rattle.tq_locks.specs.Locks.{LockKey, Locks, locks_after_keep, locks_after_release, only_stable, IsAsStable, IsLooseAt, entry_after_steady};
ghost use Rattle.tq_locks.specs.{Keys.{lent_keys, place, entries_of}, Kept.first_blocker};

use crate::index::{
    Spot, end_empty_under, enter_under, list_near, list_under, listed_under, make_room_under,
    put_under, take_all_under, take_near, take_under,
};
use crate::keys::{Keys, LentKeys};
use crate::lists::place;
use crate::lock_slab::LockSlab;
use crate::{Lock, LockEntry, Mode};
use std::alloc::{AllocError, Global};
use std::marker::Model;
use tq_store::{BoundedIndexMap, FileName};

/// The entries, each under its key, and the keys of each file and of each transaction.
/// The list of a file stays when its last key leaves, so that a later lock on the file changes no map.
#[derive(Drop)]
pub(crate) struct KeyedLocks {
    pub(crate) entries: LockSlab,
    pub(crate) by_file: BoundedIndexMap<FileName, Keys>,
    pub(crate) by_txn: BoundedIndexMap<u64, Keys>,
    /// Where in `by_file` the list of an entry's file is likely to be, by the entry's key. This is tested before it is used.
    pub(crate) homes: Vec<usize>,
    /// Where in `by_txn` the list of a transaction is likely to be, the one that was granted a lock last. This is tested before it
    /// is used.
    pub(crate) last: usize,
    alloc: Global,
}

/// The key of a lock, if there is one, and its spot among the keys of its transaction.
#[derive(Clone, Copy)]
pub(crate) struct Found {
    pub(crate) spot: Spot,
    pub(crate) key: Option<usize>,
}

impl KeyedLocks {
    ghost use Rattle.tq_locks.specs.Kept.{decided_on, file_index, file_keys, lock_found, locks_in, told_on, Agrees, EndsLock, FindsNone, FindsNoneAt, FindsOwn, FindsOwnAt, HasOneFewer, IsInserted, IsPlaceInFile, IsSpotOf, LeavesFile, SetsLock};
    ghost use Rattle.tq_locks.specs.declared.mode.Lock.{Lock};

    pub(crate) fn new(alloc: Global) -> KeyedLocks
        ensures { Agrees result fin.empty }
    {
        KeyedLocks {
            entries: LockSlab::new(alloc),
            by_file: BoundedIndexMap::new(alloc),
            by_txn: BoundedIndexMap::new(alloc),
            homes: Vec::new(alloc),
            last: 0,
            alloc,
        }
    }

    /// The entry under a key.
    pub(crate) fn entry(&self, key: usize) -> Option<&LockEntry>
        ensures { option_copied result ≡ get self.now.entries key }
    {
        self.entries.get(key)
    }

    /// The entries, in the order of their keys.
    pub(crate) fn entries_by_key(&self, alloc: Global) -> Result<Vec<LockEntry>, AllocError>
        ensures { IfOk result (λ all. all.items ≡ values self.now.entries) }
    {
        let mut all = Vec::with_capacity(alloc, self.entries.len())?;
        for (_key, entry) in self.entries.iter() {
            all.push(*entry)?;
        }
        Ok(all)
    }

    /// Where the key of a file and a transaction is, or would go.
    #[inline(always)]
    pub(crate) fn find(&self, file: &FileName, txn: u64) -> Found
        ensures some { FindsOwn self.now (file.now, txn) result.key }
        ensures none { FindsNone self.now (file.now, txn) result.key }
        ensures spot { IsSpotOf self.now (file.now, txn) result.spot }
    {
        let list = list_near(&self.by_txn, &txn, self.last);
        let place = place(&self.entries, list.1, file, txn);
        Found {
            spot: Spot {
                index: list.0,
                place,
            },
            key: self.key_at(list.1, place, file),
        }
    }

    // The key at the place of a file in the list of a transaction, if it's that of an entry of the file.
    #[inline(always)]
    fn key_at(&self, list: Option<&Keys>, place: usize, file: &FileName) -> Option<usize>
        ensures some { FindsOwnAt self.now file.now (lent_keys list.entry) place result }
        ensures none { FindsNoneAt self.now file.now (lent_keys list.entry) place result }
    {
        let key = list?.get(place)?;
        let entry = self.entry(key)?;
        if entry.file == *file { Some(key) } else { None }
    }

    /// The lock under a key that was found.
    #[inline(always)]
    pub(crate) fn lock_at(&self, found: Option<usize>) -> Option<Lock>
        ensures { result ≡ lock_found self.now.entries found }
    {
        let entry = self.entry(found?)?;
        Some(entry.lock)
    }

    /// Keeps a new entry, whose key goes to the spot, unless a lock on its file blocks it: then tells that lock's transaction.
    /// Without memory the locks stay as they were.
    #[inline(always)]
    pub(crate) fn insert(
        &mut self,
        file: &FileName,
        txn: u64,
        lock: Lock,
        spot: Spot,
    ) -> Result<Option<u64>, AllocError>
        requires agreed { Agrees self.old (locks_in self.old) }
        requires absent { fin.get (locks_in self.old) (file.now, txn) ≡ None }
        requires spot { IsSpotOf self.old (file.now, txn) spot }
        ensures told { IfOk result (λ by. by ≡ decided_on self.old (file.now, txn) lock.mode) }
        ensures ok { IfOk result (IsInserted self.old self.new (file.now, txn) lock) }
        ensures err { OnErr result (Agrees self.new (locks_in self.old)) }
    {
        let in_file = match self.spot_in_file(file, txn, lock.mode) {
            Ok(in_file) => in_file,
            Err(by) => return Ok(Some(by)),
        };
        self.entries.reserve()?;
        make_room_under(&mut self.by_txn, &txn, spot.index)?;
        let key = self.entries.vacant_key();
        let new_list = self.by_file.len();
        enter_under(self.alloc, &mut self.by_file, file, in_file, key)?;
        // From here on nothing fails.
        note_home(&mut self.homes, key, in_file.index.unwrap_or(new_list));
        self.last = spot.index.unwrap_or(self.by_txn.len());
        put_under(self.alloc, &mut self.by_txn, &txn, spot, key);
        self.entries.insert_reserved(file, txn, lock);
        Ok(None)
    }

    // Where the key of a new entry goes among the keys of its file, or the transaction whose lock there blocks it.
    #[inline(always)]
    fn spot_in_file(&self, file: &FileName, txn: u64, mode: Mode) -> Result<Spot, u64>
        ensures told { result_err result ≡ first_blocker txn mode (told_on self.now file.now) }
        ensures index { IfOk result (λ spot. spot.index ≡ file_index self.now file.now) }
        ensures within { IfOk result (λ spot. spot.place ≤ length (file_keys self.now file.now)) }
        ensures place { IfOk result (λ spot. IsPlaceInFile self.now (file.now, txn) spot.place) }
    {
        let list = list_under(&self.by_file, file);
        match held_by(&self.entries, list.1, txn, mode) {
            Some(by) => Err(by),
            None => Ok(Spot {
                index: list.0,
                place: place(&self.entries, list.1, file, txn),
            }),
        }
    }

    /// Puts a new lock into the entry under a key.
    pub(crate) fn set_lock(&mut self, key: usize, lock: Lock)
        requires agreed { Agrees self.old (locks_in self.old) }
        requires as_stable { IsAsStable self.old.entries key lock }
        ensures { SetsLock self.old self.new key lock }
    {
        self.entries.set_lock(key, lock);
    }

    /// Takes the entry under a key out of the slab and of both indexes.
    pub(crate) fn remove(&mut self, key: usize)
        requires { Agrees self.old (locks_in self.old) }
        ensures agreed { EndsLock self.old self.new key }
        ensures absent { get self.old.entries key ≡ None → Agrees self.new (locks_in self.old) }
        ensures entries { Updates self.old.entries self.new.entries key None }
        ensures fewer { HasOneFewer self.old.entries self.new.entries key }
    {
        let Some(entry) = self.entries.get(key) else {
            return;
        };
        take_under(&mut self.by_txn, &self.entries, &entry.txn, entry, key);
        self.leave_file(key);
    }

    // Takes the entry under a key out of the slab and of the keys of its file.
    #[inline(always)]
    fn leave_file(&mut self, key: usize)
        ensures left { LeavesFile self.old self.new key }
        ensures by_txn { self.new.by_txn ≡ self.old.by_txn }
        ensures entries { Updates self.old.entries self.new.entries key None }
        ensures fewer { HasOneFewer self.old.entries self.new.entries key }
    {
        let Some(entry) = self.entries.get(key) else {
            return;
        };
        let home = match self.homes.get(key) {
            Some(home) => *home,
            None => 0,
        };
        take_near(
            &mut self.by_file,
            &self.entries,
            &entry.file,
            entry,
            key,
            home,
        );
        self.entries.remove(key);
    }

    /// An equal one, with memory of its own.
    pub(crate) fn copy(&self) -> Result<KeyedLocks, AllocError>
        ensures { (set : Locks) → Agrees self.now set → IfOk result (λ copy. Agrees copy set) }
    {
        Ok(KeyedLocks {
            entries: self.entries.copy()?,
            by_file: self.by_file.clone()?,
            by_txn: self.by_txn.clone()?,
            homes: self.homes.clone()?,
            last: self.last,
            alloc: self.alloc,
        })
    }

    /// Makes the locks of a transaction stable.
    pub(crate) fn keep(&mut self, txn: u64)
        requires { Agrees self.old (locks_in self.old) }
        ensures { Agrees self.new (locks_after_keep (locks_in self.old) txn) }
    {
        stabilise_each(&mut self.entries, listed_under(&self.by_txn, &txn));
    }

    /// Ends the locks of a transaction.
    pub(crate) fn release(&mut self, txn: u64)
        requires { Agrees self.old (locks_in self.old) }
        ensures { Agrees self.new (locks_after_release (locks_in self.old) txn) }
    {
        let mut keys = take_all_under(self.alloc, &mut self.by_txn, &txn);
        while let Some(key) = keys.pop() {
            self.leave_file(key);
        }
    }

    // Ends a lock that isn't stable.
    fn end_loose(&mut self, key: usize)
        requires agreed { Agrees self.old (locks_in self.old) }
        requires loose { IsLooseAt self.old.entries key }
        ensures agreed { Agrees self.new (locks_in self.new) }
        ensures left { only_stable (locks_in self.new) ≡ only_stable (locks_in self.old) }
        ensures fewer { slab_len self.new.entries < slab_len self.old.entries }
    {
        let Some(entry) = self.entry(key) else {
            return;
        };
        let txn = entry.txn;
        self.remove(key);
        end_empty_under(&mut self.by_txn, &txn);
    }

    /// Ends the locks that aren't stable.
    pub(crate) fn drop_unstable(&mut self)
        requires { Agrees self.old (locks_in self.old) }
        ensures { Agrees self.new (only_stable (locks_in self.old)) }
    {
        while let Some(key) = self.entries.next_loose() {
            self.end_loose(key);
        }
    }
}

/// Notes where the list of the file of a new entry is. Without memory for that it notes nothing.
#[inline(always)]
fn note_home(homes: &mut Vec<usize>, key: usize, home: usize) {
    match homes.get_mut(key) {
        Some(noted) => *noted = home,
        None => {
            let _noted = homes.push(home);
        }
    }
}

/// Makes the locks under these keys stable.
fn stabilise_each(entries: &mut LockSlab, keys: &[usize])
    ensures { (key : ℕ) → get entries.new key ≡ entry_after_steady entries.old keys.now key }
{
    for key in keys {
        entries.stabilise(*key);
    }
}

/// The transaction of the first of these entries that is not this one's, where it conflicts with the mode.
#[inline(always)]
pub(crate) fn held_by(entries: &LockSlab, list: Option<&Keys>, txn: u64, mode: Mode) -> Option<u64>
    ensures { result ≡ first_blocker txn mode (entries_of entries.now (lent_keys list.entry)) }
{
    for entry in walk(entries, list) {
        if !(entry.txn == txn) {
            return if mode.conflicts_with(entry.lock.mode) {
                Some(entry.txn)
            } else {
                None
            };
        }
    }
    None
}

/// A walk of the locks under the keys of a list, in its order.
#[inline(always)]
pub(crate) fn walk<'a>(entries: &'a LockSlab, list: Option<&'a Keys>) -> HeldLocks<'a>
    ensures { result ≡ entries_of entries.now (lent_keys list.entry) }
{
    let keys = match list {
        Some(keys) => keys.lend(),
        None => LentKeys::none(),
    };
    HeldLocks {
        entries,
        keys,
        at: 0,
    }
}

/// Locks of a table that are left to walk.
#[derive(Drop)]
pub struct HeldLocks<'a> {
    entries: &'a LockSlab,
    keys: LentKeys<'a>,
    /// So many keys were passed.
    at: usize,
}

impl<'a> HeldLocks<'a> {
    /// A number of locks that those which are left do not exceed, with no walk of them.
    #[inline(always)]
    pub fn most(&self) -> usize
        ensures { length self.now ≤ result }
    {
        self.keys.len().saturating_sub(self.at)
    }
}

impl<'a> Model for HeldLocks<'a> {
    ghost use Rattle.std.specs.Prelude.{List, drop};
    ghost use Rattle.tq_locks.specs.{Locks.LockKey, declared.mode.Lock.Lock, Keys.entries_of};

    ghost Value = { List (LockKey × Lock) };

    ghost view = { λ it. entries_of it.entries.now (drop it.at it.keys) };
}

impl<'a> Iterator for HeldLocks<'a> {
    ghost use Rattle.std.specs.Iterator.{YieldsFirst, item_count};

    type Item = LockEntry;

    ghost next_gives = { YieldsFirst (λ rest. rest) };

    ghost remaining = { item_count (λ rest. rest) };

    #[inline(always)]
    fn next(&mut self) -> Option<LockEntry> {
        while self.at < self.keys.len() {
            let key = self.keys.get(self.at)?;
            self.at += 1;
            if let Some(entry) = self.entries.get(key) {
                return Some(*entry);
            }
        }
        None
    }
}

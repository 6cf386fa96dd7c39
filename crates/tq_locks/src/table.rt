//! The table of the locks at a server.

ghost use Rattle.std.specs.Prelude.{◌≡◌, OnOk, OnErr, IfOk, IfSome, IfNone, None, Some};
ghost use Rattle.std.specs.FinMap as fin;

use crate::index::{is_empty_under, list_near, listed_under};
use crate::keyed::{HeldLocks, KeyedLocks, held_by, walk};
use crate::{Lock, Mode};
use std::alloc::{AllocError, Global};
use std::marker::Model;
use tq_store::FileName;

/// What a request for a lock gets.
#[derive(Debug, Clone, Copy, PartialEq, Eq)]
pub enum LockOutcome {
    Granted,
    /// A transaction that holds it in a way that conflicts, the least one.
    Held { by: u64 },
}

impl LockOutcome {
    ghost use Rattle.tq_locks.specs.Locks.{outcome};

    fn of(blocker: Option<u64>) -> LockOutcome
        ensures { result ≡ outcome blocker }
    {
        match blocker {
            Some(by) => LockOutcome::Held { by },
            None => LockOutcome::Granted,
        }
    }
}

/// A lock, with the file that it is on and the transaction that holds it.
#[derive(Debug, Clone, Copy)]
pub struct LockEntry {
    pub file: FileName,
    pub txn: u64,
    pub lock: Lock,
}

impl Model for LockEntry {
    ghost use Rattle.tq_locks.specs.{Locks.{LockKey, lock_entry_code}, declared.mode.Lock.Lock};

    ghost Value = { LockKey × Lock };

    ghost coded = { lock_entry_code };

    ghost view = { λ a. ((a.file, a.txn), a.lock) };

    ghost inverse = { λ entry. record { file = entry.0.0; txn = entry.0.1; lock = entry.1 } };
}

/// The locks at a server. Each is under a key, which stays while the lock does.
pub struct LockTable {
    kept: KeyedLocks,
}

// Written out, so that a crate above lets go of one by a call.
impl Drop for LockTable {
    fn drop(self) {
        let Self { kept: _ } = self;
    }
}

impl Model for LockTable {
    ghost use Rattle.tq_locks.specs.Locks.{HasNoConflict, LocksView, view_code};

    ghost Value = { LocksView };

    ghost coded = { view_code };

    ghost use Rattle.tq_locks.specs.Kept.{locks_in, Agrees};

    ghost view = { λ a. record { locks = locks_in a.kept; slab = a.kept.entries } };

    ghost invariant = { λ a. Agrees a.kept (locks_in a.kept) × HasNoConflict (locks_in a.kept) };
}

impl LockTable {
    ghost use Rattle.tq_locks.specs.Locks.{blocker, held_of, holds_nothing, locks_after_keep, only_stable, outcome, locks_after_release, HasNoConflict, IsAmong, IsAsked, IsFree, IsGranted, IsLeastBlocker, IsTold};
    ghost use Rattle.tq_locks.specs.Kept.{on_file, ListsKeysOf, HasOneKeyEach};
    ghost use Rattle.slab.specs.Slab.{get};
    ghost use Rattle.std.specs.Option.{option_copied};

    /// No transaction holds a lock.
    pub fn new(alloc: Global) -> LockTable
        ensures { result.locks ≡ fin.empty }
    {
        LockTable {
            kept: KeyedLocks::new(alloc),
        }
    }

    /// An equal table, with memory of its own.
    pub fn copy(&self, _alloc: Global) -> Result<LockTable, AllocError>
        ensures { IfOk result (λ copy. copy.locks ≡ self.now.locks) }
    {
        let kept = self.kept.copy()?;
        Ok(LockTable { kept })
    }

    /// All locks, ascending by file and then by transaction.
    pub fn entries(&self, alloc: Global) -> Result<Vec<LockEntry>, AllocError>
        ensures { IfOk result (λ all. all.items ≡ fin.entries self.now.locks) }
    {
        let mut all = self.kept.entries_by_key(alloc)?;
        all.sort_unstable_by_key(|entry| (entry.file, entry.txn));
        Ok(all)
    }

    /// The keys of exactly the locks on a file, each once, in any order.
    pub fn keys_of_file(&self, file: &FileName) -> &[usize]
        ensures entries { ListsKeysOf self.now.slab result.now (on_file self.now.locks file.now) }
        ensures once { HasOneKeyEach result.now (on_file self.now.locks file.now) }
    {
        listed_under(&self.kept.by_file, file)
    }

    /// The keys of exactly a transaction's locks, each once, in any order.
    pub fn keys_of_txn(&self, txn: u64) -> &[usize]
        ensures entries { ListsKeysOf self.now.slab result.now (held_of self.now.locks txn) }
        ensures once { HasOneKeyEach result.now (held_of self.now.locks txn) }
    {
        listed_under(&self.kept.by_txn, &txn)
    }

    /// The lock that is kept under a key, None where there is none.
    pub fn entry(&self, key: usize) -> Option<&LockEntry>
        ensures entry { option_copied result ≡ get self.now.slab key }
        ensures lock { IfSome result (λ entry. IsAmong self.now.locks entry.now) }
    {
        self.kept.entry(key)
    }

    /// The least transaction, other than this one, whose lock on the file conflicts with the mode.
    pub fn blocker(&self, txn: u64, file: FileName, mode: Mode) -> Option<u64>
        ensures value { result ≡ blocker self.now.locks file txn mode }
        ensures least { IfSome result (IsLeastBlocker self.now.locks file txn mode) }
        ensures free { IfNone result (IsFree self.now.locks file txn mode) }
    {
        // Locks on a file are in no conflict, so the first of another transaction decides for all.
        let list = self.kept.by_file.get(&file);
        held_by(&self.kept.entries, list, txn, mode)
    }

    /// The lock of a transaction on a file. No two locks of the table are in conflict.
    pub fn get(&self, txn: u64, file: FileName) -> Option<Lock>
        ensures value { result ≡ fin.get self.now.locks (file, txn) }
        ensures no_conflict { HasNoConflict self.now.locks }
    {
        self.kept.lock_at(self.kept.find(&file, txn).key)
    }

    /// Grants a lock that nothing blocks. Without memory the table stays as it was.
    pub fn grant(
        &mut self,
        txn: u64,
        file: FileName,
        mode: Mode,
        number: u64,
        version: u64,
    ) -> Result<(), AllocError>
        requires { blocker self.old.locks file txn mode ≡ None }
        ensures ok { OnOk result (IsGranted self.old self.new file txn mode number version) }
        ensures no_conflict { HasNoConflict self.new.locks }
        ensures err { OnErr result (self.new.locks ≡ self.old.locks) }
    {
        let found = self.kept.find(&file, txn);
        let lock = Lock::after(self.kept.lock_at(found.key), mode, number, version);
        match found.key {
            Some(key) => self.kept.set_lock(key, lock),
            None => {
                let _unblocked = self.kept.insert(&file, txn, lock, found.spot)?;
            }
        }
        Ok(())
    }

    /// Grants a lock that nothing blocks, and else names the least transaction that blocks it.
    pub fn ask(
        &mut self,
        _alloc: Global,
        txn: u64,
        file: &FileName,
        mode: Mode,
        number: u64,
        version: u64,
    ) -> Result<LockOutcome, AllocError>
        ensures outcome { IfOk result
            (λ it. it ≡ outcome (blocker self.old.locks file.now txn mode)) }
        ensures told { IfOk result (IsTold self.old.locks file.now txn mode) }
        ensures after { OnOk result (IsAsked self.old self.new file.now txn mode number version) }
        ensures no_conflict { HasNoConflict self.new.locks }
        ensures err { OnErr result (self.new.locks ≡ self.old.locks) }
    {
        let found = self.kept.find(file, txn);
        let lock = Lock::after(self.kept.lock_at(found.key), mode, number, version);
        match found.key {
            Some(key) => match self.blocker(txn, *file, mode) {
                Some(by) => Ok(LockOutcome::Held { by }),
                None => {
                    self.kept.set_lock(key, lock);
                    Ok(LockOutcome::Granted)
                }
            },
            None => {
                let by = self.kept.insert(file, txn, lock, found.spot)?;
                Ok(LockOutcome::of(by))
            }
        }
    }

    /// A walk of a transaction's locks, ascending by file.
    #[inline(always)]
    pub fn locks_of(&self, txn: u64) -> HeldLocks<'_>
        ensures { result ≡ held_of self.now.locks txn }
    {
        let list = list_near(&self.kept.by_txn, &txn, self.kept.last);
        walk(&self.kept.entries, list.1)
    }

    /// The locks of a transaction, ascending by file.
    pub fn held(&self, alloc: Global, txn: u64) -> Result<Vec<LockEntry>, AllocError>
        ensures { IfOk result (λ held. held.items ≡ held_of self.now.locks txn) }
    {
        let locks = self.locks_of(txn);
        let mut held = Vec::with_capacity(alloc, locks.most())?;
        for entry in locks {
            held.push(entry)?;
        }
        Ok(held)
    }

    /// Makes the locks of a transaction stable.
    pub fn keep(&mut self, txn: u64)
        ensures { self.new.locks ≡ locks_after_keep self.old.locks txn }
    {
        self.kept.keep(txn);
    }

    /// Whether a transaction holds no lock.
    pub fn holds_nothing(&self, txn: u64) -> bool
        ensures { result ≡ holds_nothing self.now.locks txn }
    {
        is_empty_under(&self.kept.by_txn, &txn)
    }

    /// Ends the locks of a transaction.
    pub fn release(&mut self, txn: u64)
        ensures { self.new.locks ≡ locks_after_release self.old.locks txn }
    {
        self.kept.release(txn);
    }

    /// Ends the locks that aren't stable.
    pub fn drop_unstable(&mut self)
        ensures { self.new.locks ≡ only_stable self.old.locks }
    {
        self.kept.drop_unstable();
    }
}

//! Locks in a slab, which tells those that aren't stable with no walk of the others.
ghost use Rattle.std.specs.Prelude.{◌≡◌, ◌+◌, ◌<◌, ℕ, None, Some, IfSome, IfNone, IfOk, OnOk, ◌∷◌, []};
ghost use Rattle.std.specs.{Bool.{OnTrue, OnFalse}, Option.option_copied};
ghost use Rattle.slab.specs.Slab.{get, entries, slab_len, HasRoomFor, ContainsKey, Updates};
ghost use Rattle.tq_shape.specs.Journal.{Has};
ghost use Rattle.tq_locks.specs.declared.mode.Lock.{Lock};
ghost use Rattle.tq_locks.specs.Locks.{LockKey, entry_after_steady, with_lock, AreStable, IsAsStable, IsLooseAt, IsStableAt, ListsLoose, PutsLock};

use crate::{Lock, LockEntry};
use slab::{Iter, Slab};
use std::alloc::{AllocError, Global};
use std::marker::Model;
use tq_store::FileName;

/// Locks, each under a key.
#[derive(Drop)]
pub(crate) struct LockSlab {
    slab: Slab<LockEntry>,
    /// The key of each lock that isn't stable. Others may stand there too, but there are never more than the slab had.
    loose: Vec<usize>,
    /// Where in `loose` a key is likely to be, by the key. This is tested before it is used.
    places: Vec<usize>,
}

impl Model for LockSlab {
    ghost use Rattle.slab.specs.Slab.{Slab as Slots, slab_code};
    ghost use Rattle.tq_locks.specs.{declared.mode.Lock.Lock, Locks.{LockKey, lock_entry_code, with_room, ListsLoose}};

    ghost Value = { Slots (LockKey × Lock) };

    ghost coded = { slab_code lock_entry_code };

    ghost view = { λ a. with_room a.slab a.loose.items };

    ghost invariant = { λ a. ListsLoose a.slab a.loose.items };
}

impl LockSlab {
    pub(crate) fn new(alloc: Global) -> LockSlab
        ensures { result.slots ≡ [] }
    {
        LockSlab {
            slab: Slab::new(alloc),
            loose: Vec::new(alloc),
            places: Vec::new(alloc),
        }
    }

    /// An equal one, with memory of its own.
    pub(crate) fn copy(&self) -> Result<LockSlab, AllocError>
        ensures { IfOk result (λ copy. copy.slots ≡ self.now.slots) }
    {
        Ok(LockSlab {
            slab: self.slab.clone()?,
            loose: self.loose.clone()?,
            places: self.places.clone()?,
        })
    }

    /// The lock under a key, if there is one.
    #[inline(always)]
    pub(crate) fn get(&self, key: usize) -> Option<&LockEntry>
        ensures { option_copied result ≡ get self.now key }
    {
        self.slab.get(key)
    }

    /// The number of locks.
    pub(crate) fn len(&self) -> usize
        ensures { result ≡ slab_len self.now }
    {
        self.slab.len()
    }

    /// The locks with their keys, which rise.
    pub(crate) fn iter(&self) -> Iter<'_, LockEntry>
        ensures rest { result ≡ entries self.now }
    {
        self.slab.iter()
    }

    /// The key of the next lock.
    #[inline(always)]
    pub(crate) fn vacant_key(&self) -> usize
        ensures value { result ≡ self.now.vacant_key }
        ensures vacant { get self.now result ≡ None }
    {
        self.slab.vacant_key()
    }

    /// Makes room for one more lock, and lists its key.
    #[inline(always)]
    pub(crate) fn reserve(&mut self) -> Result<(), AllocError>
        ensures same { self.new.slots ≡ self.old.slots }
        ensures room { OnOk result (HasRoomFor self.new 1) }
    {
        self.slab.reserve(1)?;
        let key = self.slab.vacant_key();
        // Most often the key was used before, since the last crash.
        if is_in_place(&self.loose, &self.places, key) {
            return Ok(());
        }
        list_key(&mut self.loose, &mut self.places, key)
    }

    /// Keeps one more lock under the vacant key.
    #[inline(never)]
    pub(crate) fn insert_reserved(&mut self, file: &FileName, txn: u64, lock: Lock) -> usize
        requires { HasRoomFor self.old 1 }
        ensures key { result ≡ self.old.vacant_key }
        ensures updates { Updates self.old self.new result (Some ((file.now, txn), lock)) }
    {
        self.slab.insert_reserved(LockEntry {
            file: *file,
            txn,
            lock,
        })
    }

    /// Takes the lock under a key out.
    #[inline(always)]
    pub(crate) fn remove(&mut self, key: usize)
        requires { ContainsKey self.old key }
        ensures updates { Updates self.old self.new key None }
        ensures fewer { slab_len self.new + 1 ≡ slab_len self.old }
    {
        self.slab.remove(key);
    }

    /// Puts another lock into the entry under a key, as stable as the one before.
    #[inline(always)]
    pub(crate) fn set_lock(&mut self, key: usize, lock: Lock)
        requires { IsAsStable self.old key lock }
        ensures { PutsLock self.old self.new key lock }
    {
        put_lock(&mut self.slab, key, lock);
    }

    /// Makes the lock under a key stable.
    #[inline(always)]
    pub(crate) fn stabilise(&mut self, key: usize)
        ensures { (other : ℕ) → get self.new other ≡ entry_after_steady self.old (key ∷ []) other }
    {
        stabilise_in(&mut self.slab, key);
    }

    /// The key of a lock that isn't stable, if there is one.
    pub(crate) fn next_loose(&mut self) -> Option<usize>
        ensures same { self.new.slots ≡ self.old.slots }
        ensures some { IfSome result (IsLooseAt self.old) }
        ensures none { IfNone result (AreStable self.old) }
    {
        let LockSlab {
            slab,
            loose,
            places: _,
        } = self;
        last_loose(slab, loose)
    }
}

/// Whether the entry under a key is a lock that isn't stable.
fn is_loose(slab: &Slab<LockEntry>, key: usize) -> bool
    ensures loose { OnTrue result (IsLooseAt slab.now key) }
    ensures stable { OnFalse result (IsStableAt slab.now key) }
{
    match slab.get(key) {
        Some(entry) => !entry.lock.stable,
        None => false,
    }
}

/// The last of the listed keys that is a lock's which isn't stable. Those behind it leave the list.
fn last_loose(slab: &Slab<LockEntry>, loose: &mut Vec<usize>) -> Option<usize>
    requires { ListsLoose slab.now loose.old.items }
    ensures lists { ListsLoose slab.now loose.new.items }
    ensures some { IfSome result (IsLooseAt slab.now) }
    ensures none { IfNone result (AreStable slab.now) }
{
    while let Some(key) = loose.pop() {
        if is_loose(slab, key) {
            loose.push_reserved(key);
            return Some(key);
        }
    }
    None
}

/// Puts another lock into the entry under a key.
fn put_lock(slab: &mut Slab<LockEntry>, key: usize, lock: Lock)
    ensures { (other : ℕ) → get slab.new other ≡ with_lock slab.old key lock other }
{
    if let Some(entry) = slab.get_mut(key) {
        entry.lock = lock;
    }
}

/// Makes the lock under a key stable.
fn stabilise_in(slab: &mut Slab<LockEntry>, key: usize)
    ensures { (other : ℕ) → get slab.new other ≡ entry_after_steady slab.old (key ∷ []) other }
{
    if let Some(entry) = slab.get_mut(key) {
        entry.lock.stable = true;
    }
}

/// Lists a key, and notes its place.
#[inline(never)]
fn list_key(loose: &mut Vec<usize>, places: &mut Vec<usize>, key: usize) -> Result<(), AllocError>
    ensures listed { OnOk result (Has loose.new.items key) }
    ensures others { (other : ℕ) → Has loose.old.items other → Has loose.new.items other }
{
    loose.reserve(1)?;
    places.reserve(1)?;
    note_place(places, key, loose.len());
    loose.push_reserved(key);
    Ok(())
}

/// Whether a key is in the list where its place says.
#[inline(always)]
fn is_in_place(loose: &Vec<usize>, places: &Vec<usize>, key: usize) -> bool
    ensures { OnTrue result (Has loose.now.items key) }
{
    let Some(place) = places.get(key) else {
        return false;
    };
    match loose.get(*place) {
        Some(listed) => *listed == key,
        None => false,
    }
}

/// Notes the place of a key. There is room for one more.
fn note_place(places: &mut Vec<usize>, key: usize, place: usize) {
    match places.get_mut(key) {
        Some(noted) => *noted = place,
        None => {
            let _room_was_made = places.push(place);
        }
    }
}

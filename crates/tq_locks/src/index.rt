//! An index of a slab: lists of keys, each under a name. The names have no order.
ghost use Rattle.std.specs.{Prelude.{◌≡◌, ◌==◌, ◌≤◌, ◌<◌, ◌∷◌, [], OnOk, OnErr, Some, None, length}, Bool.OnTrue};
ghost use Rattle.std.specs.{List.Sorted.IsPermutation, Option.option_copied};
ghost use Rattle.indexmap.specs.IndexMap.{get, index_of, spare};
ghost use Rattle.slab.specs.Slab.{get as in_slab};
ghost use Rattle.tq_locks.specs.Keys.{keys_under, Enters, HasListAt, HasRoomUnder, HasSameKeys, Leaves, Sets};
ghost use Rattle.tq_locks.specs.Kept.{RisesTo};

use crate::LockEntry;
use crate::keys::Keys;
use crate::lists::leave;
use crate::lock_slab::LockSlab;
use std::alloc::{AllocError, Global};
use std::hash::Hash;
use tq_store::BoundedIndexMap;

/// The keys under a name, in any order.
#[inline(always)]
pub(crate) fn listed_under<'a, K: Ord + Hash>(
    lists: &'a BoundedIndexMap<K, Keys>,
    name: &K,
) -> &'a [usize]
    ensures { IsPermutation (keys_under K.eq lists.now name.now) result.now }
{
    match lists.get(name) {
        Some(keys) => keys.as_slice(),
        None => &[],
    }
}

/// Whether there is no key under a name.
pub(crate) fn is_empty_under<K: Ord + Hash>(lists: &BoundedIndexMap<K, Keys>, name: &K) -> bool
    ensures { result ≡ (length (keys_under K.eq lists.now name.now) == 0) }
{
    match lists.get(name) {
        Some(keys) => keys.len() == 0,
        None => true,
    }
}

/// The index of a name's list, if there is one, and the list.
#[inline(always)]
pub(crate) fn list_under<'a, K: Ord + Hash>(
    lists: &'a BoundedIndexMap<K, Keys>,
    name: &K,
) -> (Option<usize>, Option<&'a Keys>)
    ensures index { result.0 ≡ index_of K.eq lists.now name.now }
    ensures list { option_copied result.1 ≡ get K.eq lists.now name.now }
{
    match lists.get_full(name) {
        Some(list) => (Some(list.0), Some(list.2)),
        None => (None, None),
    }
}

/// The same, where the list is likely to be at an index.
#[inline(always)]
pub(crate) fn list_near<'a, K: Ord + Hash>(
    lists: &'a BoundedIndexMap<K, Keys>,
    name: &K,
    near: usize,
) -> (Option<usize>, Option<&'a Keys>)
    ensures index { result.0 ≡ index_of K.eq lists.now name.now }
    ensures list { option_copied result.1 ≡ get K.eq lists.now name.now }
{
    if near < lists.len() {
        if let Some(list) = lists.get_index(near) {
            if *name == *list.0 {
                return (Some(near), Some(list.1));
            }
        }
    }
    list_under(lists, name)
}

/// The place of a key in the list of its name.
#[derive(Clone, Copy)]
pub(crate) struct Spot {
    /// The index of the list, if there is one.
    pub(crate) index: Option<usize>,
    pub(crate) place: usize,
}

/// Makes room for one more key under a name, whose list is at the index.
#[inline(always)]
pub(crate) fn make_room_under<K: Ord + Hash + Copy + Drop>(
    lists: &mut BoundedIndexMap<K, Keys>,
    name: &K,
    index: Option<usize>,
) -> Result<(), AllocError>
    requires { index ≡ index_of K.eq lists.old name.now }
    ensures same { HasSameKeys K.eq lists.old lists.new }
    ensures room { OnOk result (HasRoomUnder K.eq lists.new name.now index) }
{
    match index {
        Some(index) => match lists.get_index_mut(index) {
            Some(keys) => keys.make_room(),
            None => Ok(()),
        },
        None => lists.reserve(1),
    }
}

/// Puts a key into its place under a name, whose list is at the spot's index. Without memory the keys stay as they were.
#[inline(always)]
pub(crate) fn enter_under<K: Ord + Hash + Copy + Drop>(
    alloc: Global,
    lists: &mut BoundedIndexMap<K, Keys>,
    name: &K,
    spot: Spot,
    key: usize,
) -> Result<(), AllocError>
    requires index { spot.index ≡ index_of K.eq lists.old name.now }
    requires within { spot.place ≤ length (keys_under K.eq lists.old name.now) }
    ensures ok { OnOk result (Enters K.eq lists.old lists.new name.now spot.place key) }
    ensures err { OnErr result (HasSameKeys K.eq lists.old lists.new) }
{
    match spot.index {
        Some(index) => match lists.get_index_mut(index) {
            Some(keys) => keys.enter(spot.place, key),
            None => Ok(()),
        },
        None => begin_under(alloc, lists, name, key),
    }
}

/// Begins the list of a name that has none, with one key. Without memory the keys stay as they were.
#[inline(never)]
fn begin_under<K: Ord + Hash + Copy + Drop>(
    alloc: Global,
    lists: &mut BoundedIndexMap<K, Keys>,
    name: &K,
    key: usize,
) -> Result<(), AllocError>
    requires { get K.eq lists.old name.now ≡ None }
    ensures ok { OnOk result (Sets K.eq lists.old lists.new name.now (key ∷ [])) }
    ensures err { OnErr result (HasSameKeys K.eq lists.old lists.new) }
{
    lists.reserve(1)?;
    let _room_was_made = lists.insert(*name, Keys::only(alloc, key));
    Ok(())
}

/// The same, where there is room.
#[inline(never)]
fn begin_reserved<K: Ord + Hash + Copy + Drop>(
    alloc: Global,
    lists: &mut BoundedIndexMap<K, Keys>,
    name: &K,
    key: usize,
)
    requires room { 0 < spare lists.old }
    requires absent { get K.eq lists.old name.now ≡ None }
    ensures { Sets K.eq lists.old lists.new name.now (key ∷ []) }
{
    let _room_was_made = lists.insert(*name, Keys::only(alloc, key));
}

/// Puts a key into its place under a name, for which there is room.
#[inline(always)]
pub(crate) fn put_under<K: Ord + Hash + Copy + Drop>(
    alloc: Global,
    lists: &mut BoundedIndexMap<K, Keys>,
    name: &K,
    spot: Spot,
    key: usize,
)
    requires room { HasRoomUnder K.eq lists.old name.now spot.index }
    requires within { spot.place ≤ length (keys_under K.eq lists.old name.now) }
    ensures { Enters K.eq lists.old lists.new name.now spot.place key }
{
    match spot.index {
        Some(index) => {
            if let Some(keys) = lists.get_index_mut(index) {
                keys.put(spot.place, key);
            }
        }
        None => begin_reserved(alloc, lists, name, key),
    }
}

/// Takes the key of an entry out of a name's list, and tells its place. The list stays, even with no key.
#[inline(always)]
pub(crate) fn take_under<K: Ord + Hash>(
    lists: &mut BoundedIndexMap<K, Keys>,
    entries: &LockSlab,
    name: &K,
    entry: &LockEntry,
    key: usize,
) -> usize
    requires { in_slab entries.now key ≡ Some entry.now }
    ensures place { RisesTo entries.now (keys_under K.eq lists.old name.now) entry.now.0 result }
    ensures after { Leaves K.eq lists.old lists.new name.now result }
{
    match lists.get_mut(name) {
        Some(keys) => leave(keys, entries, entry, key),
        None => 0,
    }
}

/// The same, where the list is likely to be at the index.
#[inline(always)]
pub(crate) fn take_near<K: Ord + Hash>(
    lists: &mut BoundedIndexMap<K, Keys>,
    entries: &LockSlab,
    name: &K,
    entry: &LockEntry,
    key: usize,
    index: usize,
) -> usize
    requires { in_slab entries.now key ≡ Some entry.now }
    ensures place { RisesTo entries.now (keys_under K.eq lists.old name.now) entry.now.0 result }
    ensures after { Leaves K.eq lists.old lists.new name.now result }
{
    if is_at(lists, name, index) {
        return take_at(lists, entries, name, entry, key, index);
    }
    take_under(lists, entries, name, entry, key)
}

/// Whether a name's list is at the index.
#[inline(always)]
fn is_at<K: Ord + Hash>(lists: &BoundedIndexMap<K, Keys>, name: &K, index: usize) -> bool
    ensures { OnTrue result (HasListAt K.eq lists.now name.now index) }
{
    match lists.get_index(index) {
        Some(list) => *name == *list.0,
        None => false,
    }
}

/// Takes the key of an entry out of a name's list, which is at the index, and tells its place.
#[inline(always)]
fn take_at<K: Ord + Hash>(
    lists: &mut BoundedIndexMap<K, Keys>,
    entries: &LockSlab,
    name: &K,
    entry: &LockEntry,
    key: usize,
    index: usize,
) -> usize
    requires listed { HasListAt K.eq lists.old name.now index }
    requires entry { in_slab entries.now key ≡ Some entry.now }
    ensures place { RisesTo entries.now (keys_under K.eq lists.old name.now) entry.now.0 result }
    ensures after { Leaves K.eq lists.old lists.new name.now result }
{
    match lists.get_index_mut(index) {
        Some(keys) => leave(keys, entries, entry, key),
        None => 0,
    }
}

/// Takes a name's list out.
pub(crate) fn take_all_under<K: Ord + Hash + Copy + Drop>(
    alloc: Global,
    lists: &mut BoundedIndexMap<K, Keys>,
    name: &K,
) -> Keys
    ensures keys { result.items ≡ keys_under K.eq lists.old name.now }
    ensures after { Sets K.eq lists.old lists.new name.now [] }
{
    match lists.swap_remove(name) {
        Some(keys) => keys,
        None => Keys::new(alloc),
    }
}

/// Ends a name's list if it has no key.
pub(crate) fn end_empty_under<K: Ord + Hash + Copy + Drop>(
    lists: &mut BoundedIndexMap<K, Keys>,
    name: &K,
)
    ensures { HasSameKeys K.eq lists.old lists.new }
{
    if is_empty_under(lists, name) {
        lists.swap_remove(name);
    }
}

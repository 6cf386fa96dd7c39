//! A map whose look-ups are bounded, whoever chose the keys.
ghost use Rattle.std.specs.Prelude.{◌≡◌, ◌+◌, ◌-◌, ◌<◌, ◌≤◌, ◌^◌, IfErr, IfNone, IfOk, IfSome, IsOk, IsTrue, ◌↔◌, None, OnErr, OnOk, Some, is_some, slice_get};
ghost use Rattle.std.specs.{Borrow.sem, Map.Iter.deref_pair, Option.{option_copied, option_copied_mut, option_map}};
ghost use Rattle.indexmap.specs.IndexMap.{get, index_map_len, index_of, spare, swap_remove_entry, values, IsClone, IsEmpty, IsUnchanged, IsUnique, Updates};
ghost use Rattle.tq_store.specs.Bounded.{HasEntryAt, HasOneLessIfThere, HasOneMoreIfNew, HasPut};
ghost use Rattle.tq_store.specs.Lends.{lends_at, lends_get};

use crate::ordered::Ordered;
use indexmap::IndexMap;
use std::alloc::{AllocError, AllocFailed, Global};
use std::hash::{BuildHasher, Hash};
use std::marker::Model;
use std::mem::replace;
use tq_shape::ExactClone;

/// The most entries that room is made for in a hash table.
pub(crate) const MOST_HASHED: usize = 1024;

/// As many tags a hash table has: it compares its keys with those of one tag and place.
const TAGS: usize = 256;

/// As many keys of one tag, beside a share of all, are seen as chosen.
const FEW: usize = 16;

/// A map whose entries keep their order, as an `IndexMap`, where strangers may choose the keys.
///
/// Up to `MOST_HASHED` entries are in an `IndexMap`. Keys can be chosen so that all are in one place of its hash table, and then a
/// look-up there walks them all; so more entries are in a list beside an ordered map, and so are fewer whose keys seem chosen.
pub struct BoundedIndexMap<K: Ord + Hash, V> {
    few: IndexMap<K, V>,
    /// Empty until there are many.
    many: Ordered<K, V>,
    is_many: bool,
}

// Written out, so that a crate above lets go of one by a call.
impl<K: Ord + Hash + Drop, V: Drop> Drop for BoundedIndexMap<K, V> {
    fn drop(self) {
        let Self {
            few: _,
            many: _,
            is_many: _,
        } = self;
    }
}

impl<K: Ord + Hash, V> Model for BoundedIndexMap<K, V> {
    ghost use Rattle.std.specs.Prelude.{⊤};
    ghost use Rattle.indexmap.specs.IndexMap.{IndexMap as Entries};
    ghost use Rattle.tq_store.specs.Bounded.{bounded_code, in_use, IsInUse};

    ghost Value = { Entries K V ⊤ };

    ghost coded = { bounded_code K.code V.code };

    ghost view = { λ a. in_use a.is_many a.few a.many };

    ghost invariant = { λ a. IsInUse a.is_many a.many };
}

impl<K: Ord + Hash, V> BoundedIndexMap<K, V> {
    /// No entry. It takes no memory.
    pub fn new(alloc: Global) -> BoundedIndexMap<K, V>
        ensures empty { IsEmpty result }
        ensures len { index_map_len result ≡ 0 }
        ensures unique { IsUnique K.eq result }
    {
        BoundedIndexMap {
            few: IndexMap::new(alloc),
            many: Ordered::new(alloc),
            is_many: false,
        }
    }

    /// How many entries there are.
    #[inline(always)]
    pub fn len(&self) -> usize
        ensures len { result ≡ index_map_len self.now }
        ensures small { result < 2 ^ 63 }
        ensures unique { IsUnique K.eq self.now }
    {
        if self.is_many {
            return self.many.len();
        }
        self.few.len()
    }

    /// Whether there is no entry.
    #[inline(always)]
    pub fn is_empty(&self) -> bool
        ensures { IsTrue result ↔ (index_map_len self.now ≡ 0) }
    {
        self.len() == 0
    }

    /// How many entries it can hold with no memory asked for.
    #[inline(always)]
    pub fn capacity(&self) -> usize
        ensures { result ≡ index_map_len self.now + spare self.now }
    {
        if self.is_many {
            return self.many.capacity();
        }
        self.few.capacity()
    }

    /// The place of the key's entry.
    #[inline(always)]
    pub fn get_index_of(&self, key: &K) -> Option<usize>
        ensures index { result ≡ index_of K.eq self.now key.now }
        ensures found { is_some result ≡ is_some (get K.eq self.now key.now) }
        ensures unique { IsUnique K.eq self.now }
    {
        if self.is_many {
            return self.many.find(key);
        }
        self.few.get_index_of(key)
    }

    /// Whether the key has an entry.
    #[inline(always)]
    pub fn contains_key(&self, key: &K) -> bool
        ensures { result ≡ is_some (get K.eq self.now key.now) }
    {
        self.get_index_of(key).is_some()
    }

    /// The value of the key.
    #[inline(always)]
    pub fn get(&self, key: &K) -> Option<&V>
        ensures value { option_copied result ≡ get K.eq self.now key.now }
    {
        if self.is_many {
            return self.many.get(key);
        }
        self.few.get(key)
    }

    /// The place of the key's entry, the key and its value.
    #[inline(always)]
    pub fn get_full(&self, key: &K) -> Option<(usize, &K, &V)>
        ensures index { option_map (λ p. p.0) result ≡ index_of K.eq self.now key.now }
        ensures value { option_map (λ p. p.2.now) result ≡ get K.eq self.now key.now }
        ensures entry { IfSome result (λ p. HasEntryAt self.now p.0 p.1.now p.2.now) }
    {
        if self.is_many {
            return self.many.get_full(key);
        }
        self.few.get_full(key)
    }

    /// The entry at the place.
    #[inline(always)]
    pub fn get_index(&self, index: usize) -> Option<(&K, &V)>
        ensures entry { option_map deref_pair result ≡ slice_get self.now.entries index }
        ensures value { IfSome result (λ p. get K.eq self.now p.0.now ≡ Some p.1.now) }
    {
        if self.is_many {
            return self.many.get_index(index);
        }
        self.few.get_index(index)
    }

    /// The values, in the order of their entries.
    #[inline(always)]
    pub fn values(&self) -> &[V]
        ensures { result.now ≡ values self.now }
    {
        if self.is_many {
            return self.many.values();
        }
        self.few.values().as_slice()
    }

    /// The value of the key, to write.
    #[inline(always)]
    pub fn get_mut(&mut self, key: &K) -> Option<&mut V>
        ensures* writes_back { sem 𝓛
            (lends_get K.row V.row K.Ord K.Hash self.entry (K.eq key.now) result) }
        ensures value { option_copied_mut result ≡ get K.eq self.old key.now }
        ensures unique { IsUnique K.eq self.old }
    {
        if self.is_many {
            return self.many.get_mut(key);
        }
        self.few.get_mut(key)
    }

    /// The value at the place, to write.
    #[inline(always)]
    pub fn get_index_mut(&mut self, index: usize) -> Option<&mut V>
        ensures* writes_back { sem 𝓛 (lends_at K.row V.row K.Ord K.Hash self.entry index result) }
        ensures value { option_copied_mut result ≡ slice_get (values self.old) index }
        ensures unique { IsUnique K.eq self.old }
    {
        if self.is_many {
            return self.many.get_index_mut(index);
        }
        self.few.get_index_mut(index)
    }
}

impl<K: Ord + Hash + Copy + Drop, V: Drop> BoundedIndexMap<K, V> {
    /// Makes room for so many more entries, so that as many calls of `insert` take no memory. The entries stay.
    #[inline(always)]
    pub fn reserve(&mut self, additional: usize) -> Result<(), AllocError>
        ensures entries { IsUnchanged self.old self.new }
        ensures ok { OnOk result (additional ≤ spare self.new) }
        ensures succeeds { additional ≤ spare self.old → IsOk result }
        ensures room { spare self.old ≤ spare self.new }
        ensures unique { IsUnique K.eq self.new }
    {
        if !self.is_many {
            if additional <= self.few.capacity() - self.few.len() {
                return Ok(());
            }
        }
        self.reserve_more(additional)
    }

    #[inline(never)]
    fn reserve_more(&mut self, additional: usize) -> Result<(), AllocError>
        ensures entries { IsUnchanged self.old self.new }
        ensures ok { OnOk result (additional ≤ spare self.new) }
        ensures succeeds { additional ≤ spare self.old → IsOk result }
        ensures room { spare self.old ≤ spare self.new }
        ensures unique { IsUnique K.eq self.new }
    {
        if self.is_many {
            return self.many.make_room(additional);
        }
        if additional <= self.few.capacity() - self.few.len() {
            return Ok(());
        }
        if additional <= MOST_HASHED.saturating_sub(self.few.len()) {
            if !seem_chosen(&self.few) {
                return self.few.reserve(additional);
            }
        }
        self.many
            .reserve(self.few.len().saturating_add(additional))?;
        let alloc = *self.few.allocator();
        let few = replace(&mut self.few, IndexMap::new(alloc));
        move_all(few, &mut self.many);
        self.is_many = true;
        self.many.make_room(additional)
    }

    /// Puts the entry in, and gives the value that the key had. A key that is there keeps its place, a new one goes last.
    #[inline(always)]
    pub fn insert(&mut self, key: K, value: V) -> Result<Option<V>, AllocFailed<(K, V)>>
        // On success `key` has `value`, its old value is returned, and other keys keep theirs.
        ensures old { IfOk result (λ old. old ≡ get K.eq self.old key) }
        ensures updates { OnOk result (Updates K.eq self.old self.new key (Some value)) }
        ensures entries { OnOk result (HasPut K.eq self.old self.new key value) }
        ensures len { IfOk result (λ old. HasOneMoreIfNew self.old self.new old) }

        // On failure the pair comes back and the entries stay. Only a new key can fail.
        ensures value_returned { IfErr result (λ y. y.value ≡ (key, value)) }
        ensures err { OnErr result (IsUnchanged self.old self.new) }
        ensures absent { OnErr result (get K.eq self.old key ≡ None) }

        // With room to spare it succeeds, and it uses up at most one place.
        ensures succeeds { 0 < spare self.old → IsOk result }
        ensures spare { spare self.old ≤ spare self.new + 1 }
        ensures unique { IsUnique K.eq self.new }
    {
        if !self.is_many {
            if self.few.len() < self.few.capacity() {
                return self.few.insert(key, value);
            }
        }
        self.insert_slowly(key, value)
    }

    /// Puts an entry in as `insert` does, and makes room first where there is none.
    #[inline(never)]
    fn insert_slowly(&mut self, key: K, value: V) -> Result<Option<V>, AllocFailed<(K, V)>>
        ensures old { IfOk result (λ old. old ≡ get K.eq self.old key) }
        ensures updates { OnOk result (Updates K.eq self.old self.new key (Some value)) }
        ensures entries { OnOk result (HasPut K.eq self.old self.new key value) }
        ensures len { IfOk result (λ old. HasOneMoreIfNew self.old self.new old) }
        ensures value_returned { IfErr result (λ y. y.value ≡ (key, value)) }
        ensures err { OnErr result (IsUnchanged self.old self.new) }
        ensures absent { OnErr result (get K.eq self.old key ≡ None) }
        ensures succeeds { 0 < spare self.old → IsOk result }
        ensures spare { spare self.old ≤ spare self.new + 1 }
        ensures unique { IsUnique K.eq self.new }
    {
        if self.is_many {
            if 0 < self.many.spare() {
                return Ok(self.many.insert(key, value));
            }
        }
        if self.contains_key(&key) {
            return self.insert_within(key, value);
        }
        if self.reserve(1).is_err() {
            return Err(AllocFailed {
                value: (key, value),
            });
        }
        self.insert_within(key, value)
    }

    /// Puts an entry in as `insert` does, where the key is there or there is room.
    fn insert_within(&mut self, key: K, value: V) -> Result<Option<V>, AllocFailed<(K, V)>>
        requires { get K.eq self.old key ≡ None → 0 < spare self.old }
        ensures old { IfOk result (λ old. old ≡ get K.eq self.old key) }
        ensures updates { OnOk result (Updates K.eq self.old self.new key (Some value)) }
        ensures entries { OnOk result (HasPut K.eq self.old self.new key value) }
        ensures len { IfOk result (λ old. HasOneMoreIfNew self.old self.new old) }
        ensures value_returned { IfErr result (λ y. y.value ≡ (key, value)) }
        ensures err { OnErr result (IsUnchanged self.old self.new) }
        ensures absent { OnErr result (get K.eq self.old key ≡ None) }
        ensures succeeds { IsOk result }
        ensures spare { spare self.old ≤ spare self.new + 1 }
        ensures unique { IsUnique K.eq self.new }
    {
        if self.is_many {
            return Ok(self.many.insert(key, value));
        }
        self.few.insert(key, value)
    }

    /// Takes the entry of the key out, and gives its value. The last one takes its place.
    #[inline(always)]
    pub fn swap_remove(&mut self, key: &K) -> Option<V>
        ensures value { result ≡ get K.eq self.old key.now }
        ensures updates { Updates K.eq self.old self.new key.now None }
        ensures entries { self.new.entries ≡ swap_remove_entry (K.eq key.now) self.old.entries }
        ensures unchanged { IfNone result (IsUnchanged self.old self.new) }
        ensures len { HasOneLessIfThere self.old self.new result }
        ensures room { spare self.old ≤ spare self.new }
        ensures unique { IsUnique K.eq self.new }
    {
        if self.is_many {
            return self.many.swap_remove(key);
        }
        self.few.swap_remove(key)
    }
}

/// Whether far more of the keys have one tag than have it by chance. Nothing but the time of look-ups rests on it.
fn seem_chosen<K: Ord + Hash + Copy + Drop, V>(few: &IndexMap<K, V>) -> bool {
    let most = FEW + few.len() / FEW;
    let mut counts = [0usize; TAGS];
    for key in few.keys() {
        let hash = few.hasher().hash_one(*key);
        let tag = ((hash ^ (hash >> 32)) >> 24) as usize % TAGS;
        counts[tag] = counts[tag].saturating_add(1);
        if most < counts[tag] {
            return true;
        }
    }
    false
}

/// Moves the entries into the list, in their order.
fn move_all<K: Ord + Hash + Copy + Drop, V: Drop>(few: IndexMap<K, V>, many: &mut Ordered<K, V>)
    requires empty { IsEmpty many.old }
    requires room { index_map_len few ≤ spare many.old }
    ensures entries { many.new.entries ≡ few.entries }
    ensures room { spare many.new + index_map_len few ≡ spare many.old }
{
    for (key, value) in few {
        many.push(key, value);
    }
}

impl<K: Ord + Hash + ExactClone, V: Clone> Clone for BoundedIndexMap<K, V> {
    ghost is_clone = { λ m n. IsClone K.is_clone V.is_clone m n };

    fn clone(&self) -> Result<BoundedIndexMap<K, V>, AllocError> {
        Ok(BoundedIndexMap {
            few: self.few.clone()?,
            many: self.many.clone()?,
            is_many: self.is_many,
        })
    }
}

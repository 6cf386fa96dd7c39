//! Entries in a list, with an ordered map from each key to its place.
ghost use Rattle.std.specs.Prelude.{◌≡◌, ◌+◌, ◌-◌, ◌<◌, ◌≤◌, ◌^◌, [], None, Some, IfNone, IfSome, IsOk, OnOk, is_some, length, position, slice_get, take};
ghost use Rattle.std.specs.{Borrow.sem, List.{swap_remove, IsDistinct}, Map.Iter.deref_pair};
ghost use Rattle.std.specs.Option.{option_copied, option_copied_mut, option_map};
ghost use Rattle.indexmap.specs.IndexMap.{get, index_map_len, keys, spare, swap_remove_entry, values, with_value_at, IsClone, IsUnchanged, IsUnique, Updates};
ghost use Rattle.tq_store.specs.Bounded.{ArePlaced, HasEntryAt, HasOneLessIfThere, HasOneMoreIfNew, HasPut, with_last, with_spare};
ghost use Rattle.tq_store.specs.Lends.{lends_value, ordered_lends_at, ordered_lends_get};

use std::alloc::{AllocError, Global};
use std::collections::BTreeMap;
use std::marker::Model;
use std::mem::replace;
use tq_shape::ExactClone;

/// Entries in a list, the keys and the values in two columns, with an ordered map from each key to its place.
///
/// A look-up takes steps by the logarithm of the length, whatever the keys. Where the ordered map was refused memory for
/// a key, the keys from that one on are walked, until `place_rest` has put them in.
pub(crate) struct Ordered<K: Ord, V> {
    keys: Vec<K>,
    values: Vec<V>,
    places: BTreeMap<K, usize>,
    /// How many of the first keys the ordered map has.
    placed: usize,
}

// Written out, so that it is proved once.
impl<K: Ord + Drop, V: Drop> Drop for Ordered<K, V> {
    fn drop(self) {
        let Self {
            keys: _,
            values: _,
            places: _,
            placed: _,
        } = self;
    }
}

impl<K: Ord, V> Model for Ordered<K, V> {
    ghost use Rattle.std.specs.{Prelude.{◌≡◌, ⊤, ◌-◌, min, length}, List.{zip, IsDistinct}};
    ghost use Rattle.indexmap.specs.{IndexMap.IndexMap as Entries, Layout.hash_map};
    ghost use Rattle.tq_store.specs.Bounded.{bounded_code, ArePlaced};

    ghost Value = { Entries K V ⊤ };

    ghost coded = { bounded_code K.code V.code };

    ghost view = { λ a. hash_map (zip a.keys.items a.values.items) tt
        (min a.keys.cap a.values.cap - length a.keys.items) };

    ghost invariant = { λ a. (length a.values.items ≡ length a.keys.items)
        × IsDistinct K.eq a.keys.items
        × ArePlaced K.cmp K.eq a.places a.placed a.keys.items };
}

impl<K: Ord, V> Ordered<K, V> {
    /// No entry. It takes no memory.
    pub(crate) fn new(alloc: Global) -> Ordered<K, V>
        ensures { result ≡ with_spare [] 0 }
    {
        Ordered {
            keys: Vec::new(alloc),
            values: Vec::new(alloc),
            places: BTreeMap::new(alloc),
            placed: 0,
        }
    }

    /// How many entries there are.
    #[inline(always)]
    pub(crate) fn len(&self) -> usize
        ensures len { result ≡ index_map_len self.now }
        ensures small { result < 2 ^ 63 }
        ensures unique { IsUnique K.eq self.now }
    {
        self.keys.len()
    }

    /// How many more entries fit with no memory asked for.
    #[inline(always)]
    pub(crate) fn spare(&self) -> usize
        ensures { result ≡ spare self.now }
    {
        self.keys.capacity().min(self.values.capacity()) - self.keys.len()
    }

    /// The place of the key.
    pub(crate) fn find(&self, key: &K) -> Option<usize>
        ensures index { result ≡ position (K.eq key.now) (keys self.now) }
        ensures found { is_some result ≡ is_some (get K.eq self.now key.now) }
        ensures unique { IsUnique K.eq self.now }
    {
        match self.places.get(key) {
            Some(place) => Some(*place),
            None => self.find_from(self.placed, key),
        }
    }

    /// The place of a key that is not among the first ones, so many.
    fn find_from(&self, first: usize, key: &K) -> Option<usize>
        requires within { first ≤ index_map_len self.now }
        requires absent { position (K.eq key.now) (take first (keys self.now)) ≡ None }
        ensures { result ≡ position (K.eq key.now) (keys self.now) }
    {
        let mut place = first;
        while place < self.keys.len() {
            if *key == self.keys[place] {
                return Some(place);
            }
            place += 1;
        }
        None
    }

    /// The value of the key.
    pub(crate) fn get(&self, key: &K) -> Option<&V>
        ensures value { option_copied result ≡ get K.eq self.now key.now }
    {
        match self.find(key) {
            Some(place) => Some(&self.values[place]),
            None => None,
        }
    }

    /// The place of the key's entry, the key and its value.
    pub(crate) fn get_full(&self, key: &K) -> Option<(usize, &K, &V)>
        ensures index { option_map (λ p. p.0) result ≡ position (K.eq key.now) (keys self.now) }
        ensures value { option_map (λ p. p.2.now) result ≡ get K.eq self.now key.now }
        ensures entry { IfSome result (λ p. HasEntryAt self.now p.0 p.1.now p.2.now) }
    {
        match self.find(key) {
            Some(place) => Some((place, &self.keys[place], &self.values[place])),
            None => None,
        }
    }

    /// The entry at the place.
    pub(crate) fn get_index(&self, place: usize) -> Option<(&K, &V)>
        ensures entry { option_map deref_pair result ≡ slice_get self.now.entries place }
        ensures value { IfSome result (λ p. get K.eq self.now p.0.now ≡ Some p.1.now) }
    {
        if place < self.keys.len() {
            return Some((&self.keys[place], &self.values[place]));
        }
        None
    }

    /// The value at the place, to write.
    pub(crate) fn get_index_mut(&mut self, place: usize) -> Option<&mut V>
        ensures* writes_back { sem 𝓛 (ordered_lends_at K.row V.row K.Ord self.entry place result) }
        ensures value { option_copied_mut result ≡ slice_get (values self.old) place }
        ensures unique { IsUnique K.eq self.old }
    {
        if place < self.len() {
            Some(self.value_mut(place))
        } else {
            None
        }
    }

    fn value_mut(&mut self, place: usize) -> &mut V
        requires { place < index_map_len self.old }
        ensures* writes_back { sem 𝓛 (lends_value K.row V.row K.Ord self.entry place result) }
        ensures value { slice_get (values self.old) place ≡ Some result.now }
    {
        &mut self.values[place]
    }

    /// The value of the key, to write.
    pub(crate) fn get_mut(&mut self, key: &K) -> Option<&mut V>
        ensures* writes_back { sem 𝓛
            (ordered_lends_get K.row V.row K.Ord self.entry (K.eq key.now) result) }
        ensures value { option_copied_mut result ≡ get K.eq self.old key.now }
        ensures unique { IsUnique K.eq self.old }
    {
        match self.find(key) {
            Some(place) => Some(self.value_mut(place)),
            None => None,
        }
    }

    /// How many entries it can hold with no memory asked for.
    #[inline(always)]
    pub(crate) fn capacity(&self) -> usize
        ensures { result ≡ index_map_len self.now + spare self.now }
    {
        self.keys.capacity().min(self.values.capacity())
    }

    /// The values, in order.
    pub(crate) fn values(&self) -> &[V]
        ensures value { result.now ≡ values self.now }
        ensures unique { IsUnique K.eq self.now }
    {
        self.values.as_slice()
    }

    /// Puts another value at the place, and gives the one that was there.
    fn replace(&mut self, place: usize, value: V) -> V
        requires { place < index_map_len self.old }
        ensures took { slice_get (values self.old) place ≡ Some result }
        ensures after { self.new ≡ with_value_at self.old place value }
    {
        replace(&mut self.values[place], value)
    }
}

impl<K: Ord + Copy + Drop, V> Ordered<K, V> {
    /// Adds the entry of a key that there is none of, in the room that was made. It takes no memory that must be had.
    pub(crate) fn push(&mut self, key: K, value: V)
        requires absent { position (K.eq key) (keys self.old) ≡ None }
        requires room { 0 < spare self.old }
        ensures { self.new ≡ with_last self.old key value }
    {
        self.keys.push_reserved(key);
        self.values.push_reserved(value);
        let _placed = self.place_next();
    }

    /// Puts the entry in, and gives the value that the key had. It takes no memory that must be had.
    pub(crate) fn insert(&mut self, key: K, value: V) -> Option<V>
        requires { get K.eq self.old key ≡ None → 0 < spare self.old }
        ensures old { result ≡ get K.eq self.old key }
        ensures updates { Updates K.eq self.old self.new key (Some value) }
        ensures entries { HasPut K.eq self.old self.new key value }
        ensures len { HasOneMoreIfNew self.old self.new result }
        ensures spare { spare self.old ≤ spare self.new + 1 }
        ensures unique { IsUnique K.eq self.new }
    {
        match self.find(&key) {
            Some(place) => Some(self.replace(place, value)),
            None => {
                self.push(key, value);
                None
            }
        }
    }

    /// Puts the next key that the ordered map has not into it, if there is one. The entries stay.
    #[inline(always)]
    fn place_next(&mut self) -> Result<(), AllocError>
        ensures { self.new ≡ self.old }
    {
        if self.placed < self.keys.len() {
            self.places.insert(self.keys[self.placed], self.placed)?;
            self.placed += 1;
        }
        Ok(())
    }

    /// Puts the keys that the ordered map was refused memory for into it. The entries stay.
    pub(crate) fn place_rest(&mut self) -> Result<(), AllocError>
        ensures same { self.new ≡ self.old }
        ensures unique { IsUnique K.eq self.new }
    {
        let _ = &self.placed;
        for _ in self.placed..self.keys.len() {
            self.place_next()?;
        }
        Ok(())
    }

    /// Makes room for so many more entries, and puts the keys that the ordered map was refused memory for into it. Where
    /// there was room, it succeeds without that too. The entries stay.
    pub(crate) fn make_room(&mut self, additional: usize) -> Result<(), AllocError>
        ensures entries { IsUnchanged self.old self.new }
        ensures ok { OnOk result (additional ≤ spare self.new) }
        ensures succeeds { additional ≤ spare self.old → IsOk result }
        ensures room { spare self.old ≤ spare self.new }
        ensures unique { IsUnique K.eq self.new }
    {
        if additional <= self.spare() {
            let _placed = self.place_rest();
            return Ok(());
        }
        self.reserve(additional)?;
        self.place_rest()
    }

    /// Makes room for so many more entries. The entries stay.
    pub(crate) fn reserve(&mut self, additional: usize) -> Result<(), AllocError>
        ensures entries { IsUnchanged self.old self.new }
        ensures ok { OnOk result (additional ≤ spare self.new) }
        ensures room { spare self.old ≤ spare self.new }
        ensures unique { IsUnique K.eq self.new }
    {
        self.keys.reserve(additional)?;
        self.values.reserve(additional)
    }

    /// Takes the entry of the key out, and gives its value. The last one takes its place.
    pub(crate) fn swap_remove(&mut self, key: &K) -> Option<V>
        ensures value { result ≡ get K.eq self.old key.now }
        ensures updates { Updates K.eq self.old self.new key.now None }
        ensures entries { self.new.entries ≡ swap_remove_entry (K.eq key.now) self.old.entries }
        ensures unchanged { IfNone result (IsUnchanged self.old self.new) }
        ensures len { HasOneLessIfThere self.old self.new result }
        ensures room { spare self.old ≤ spare self.new }
        ensures unique { IsUnique K.eq self.new }
    {
        match self.find(key) {
            Some(place) => {
                let removed = self.swap_remove_index(place);
                Some(removed.1)
            }
            None => None,
        }
    }

    /// Takes the entry at the place out. The last one takes its place.
    fn swap_remove_index(&mut self, place: usize) -> (K, V)
        requires { place < index_map_len self.old }
        ensures took { slice_get self.old.entries place ≡ Some result }
        ensures entries { self.new.entries ≡ swap_remove self.old.entries place result }
        ensures room { spare self.old ≤ spare self.new }
    {
        self.placed = move_last(&mut self.places, self.placed, self.keys.as_slice(), place);
        let key = self.keys.swap_remove(place);
        let value = self.values.swap_remove(place);
        (key, value)
    }
}

/// Takes the key at the place out of the ordered map, and gives the last key its place. What it returns is how many of the
/// first keys the ordered map then has.
#[inline(always)]
fn move_last<K: Ord + Copy + Drop>(
    places: &mut BTreeMap<K, usize>,
    placed: usize,
    keys: &[K],
    place: usize,
) -> usize
    requires within { place < length keys.now }
    requires distinct { IsDistinct K.eq keys.now }
    requires placed { ArePlaced K.cmp K.eq places.old placed keys.now }
    ensures { (k : K) → ArePlaced K.cmp K.eq places.new result (swap_remove keys.now place k) }
{
    if placed < keys.len() {
        places.clear();
        return 0;
    }
    places.remove(&keys[place]);
    let last = placed - 1;
    if place >= last {
        return last;
    }
    let replaced: Result<_, _> = places.insert(keys[last], place);
    let _before = replaced.unwrap();
    last
}

impl<K: Ord + ExactClone, V: Clone> Clone for Ordered<K, V> {
    ghost is_clone = { λ m n. IsClone K.is_clone V.is_clone m n };

    fn clone(&self) -> Result<Ordered<K, V>, AllocError> {
        Ok(Ordered {
            keys: self.keys.clone()?,
            values: self.values.clone()?,
            places: self.places.clone()?,
            placed: self.placed,
        })
    }
}

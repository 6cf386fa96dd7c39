//! A list of keys in which a key comes in or leaves by moves of few others, however long it is.
ghost use Rattle.std.specs.Prelude.{◌≡◌, ◌+◌, ◌-◌, ◌*◌, ◌<◌, ◌≤◌, ◌++◌, OnOk, IfSome, IfNone, length, suc, Some, [], ◌∷◌, option_to_list, IfOk, OnErr};
ghost use Rattle.std.specs.{Bool.OnTrue, List.{insert, remove, slice_get}, List.Sorted.IsPermutation};
ghost use Rattle.smallvec.specs.SmallVec.{HasRoomFor, small_vec_len};
ghost use Rattle.tq_locks.specs.Keys.{HasBlocks, HasRoomBehind, Sinks, starts_in, turn, turned_keys};

use smallvec::SmallVec;
use std::alloc::{AllocError, Global};
use std::marker::Model;

/// As many keys as these move one by one at the most.
const FEW: usize = 16;

/// So many keys are a block.
const BLOCK: usize = 2048;

/// The keys under one name. Up to six of them need no allocation.
#[derive(Drop)]
pub(crate) struct Keys {
    /// The blocks, and behind them at most as many keys as one has, in their order.
    places: SmallVec<usize, 6>,
    /// Where in each block its first key is, if there are blocks. Those before that place follow those behind it.
    starts: Option<Box<Vec<usize>>>,
}

impl Model for Keys {
    ghost use Rattle.std.specs.{Prelude.ℕ, Coded.coded_ℕ};
    ghost use Rattle.smallvec.specs.SmallVec.{SmallVec as Items, small_vec_code, small_vec_len};
    ghost use Rattle.tq_locks.specs.Keys.{keys_of, starts_in, HasBlocks};

    ghost Value = { Items ℕ };

    ghost coded = { small_vec_code coded_ℕ };

    ghost view = { λ k. keys_of (starts_in k.starts) k.places };

    ghost invariant = { λ k. HasBlocks (starts_in k.starts) (small_vec_len k.places) };
}

impl Clone for Keys {
    ghost is_clone = { λ k copy. copy.items ≡ k.items };

    fn clone(&self) -> Result<Self, AllocError> {
        Ok(Keys {
            places: SmallVec::from_slice(*self.places.allocator(), self.places.as_slice())?,
            starts: copy_starts(&self.starts)?,
        })
    }
}

impl Keys {
    /// No key.
    pub(crate) fn new(alloc: Global) -> Keys
        ensures { result.items ≡ [] }
    {
        Keys {
            places: SmallVec::new(alloc),
            starts: None,
        }
    }

    /// A list of one key.
    pub(crate) fn only(alloc: Global, key: usize) -> Keys
        ensures { result.items ≡ key ∷ [] }
    {
        let mut places = SmallVec::new(alloc);
        places.push_reserved(key);
        Keys {
            places,
            starts: None,
        }
    }

    /// The keys in any order, each once.
    #[inline(always)]
    pub(crate) fn as_slice(&self) -> &[usize]
        ensures { IsPermutation self.now.items result.now }
    {
        self.places.as_slice()
    }

    /// The number of keys.
    #[inline(always)]
    pub(crate) fn len(&self) -> usize
        ensures { result ≡ length self.now.items }
    {
        self.places.len()
    }

    /// The key at a place in their order, where the list goes so far.
    #[inline(always)]
    pub(crate) fn get(&self, at: usize) -> Option<usize>
        ensures { result ≡ slice_get self.now.items at }
    {
        match &self.starts {
            Some(starts) => key_at(starts.as_slice(), self.places.as_slice(), at),
            None => self.places.as_slice().get(at).copied(),
        }
    }

    /// The keys in their order, lent.
    #[inline(always)]
    pub(crate) fn lend(&self) -> LentKeys<'_>
        ensures { result ≡ self.now.items }
    {
        let places = self.places.as_slice();
        match &self.starts {
            Some(starts) => LentKeys {
                starts: starts.as_slice(),
                places,
            },
            None => LentKeys {
                starts: &[],
                places,
            },
        }
    }

    /// Makes room for one more key.
    #[inline(always)]
    pub(crate) fn make_room(&mut self) -> Result<(), AllocError>
        ensures room { OnOk result (HasRoomFor self.new 1) }
        ensures same { self.new.items ≡ self.old.items }
    {
        match &mut self.starts {
            Some(starts) => make_room(starts, &mut self.places),
            None => {
                if self.places.len() == BLOCK {
                    self.starts = Some(begin_blocks(&mut self.places)?);
                    return Ok(());
                }
                make_plain_room(&mut self.places)
            }
        }
    }

    /// Puts a key into its place in a list that has room.
    #[inline(always)]
    pub(crate) fn put(&mut self, place: usize, key: usize)
        requires room { HasRoomFor self.old 1 }
        requires within { place ≤ length self.old.items }
        ensures { self.new.items ≡ insert self.old.items place key }
    {
        match &mut self.starts {
            Some(starts) => put(starts, &mut self.places, place, key),
            None => put_plain(&mut self.places, place, key),
        }
    }

    /// Puts a key into its place. Without memory the keys stay as they were.
    #[inline(always)]
    pub(crate) fn enter(&mut self, place: usize, key: usize) -> Result<(), AllocError>
        requires { place ≤ length self.old.items }
        ensures ok { OnOk result (self.new.items ≡ insert self.old.items place key) }
        ensures err { OnErr result (self.new.items ≡ self.old.items) }
    {
        // Most often it goes behind few others, where there is room.
        if place == self.places.len() {
            if place < BLOCK {
                if place < self.places.capacity() {
                    self.places.push_reserved(key);
                    return Ok(());
                }
            }
        }
        self.make_room()?;
        self.put(place, key);
        Ok(())
    }

    /// Takes the last key out.
    #[inline(always)]
    pub(crate) fn pop(&mut self) -> Option<usize>
        ensures items { self.old.items ≡ self.new.items ++ option_to_list result }
        ensures none { IfNone result (self.old.items ≡ []) }
    {
        match &mut self.starts {
            Some(starts) => pop(starts, &mut self.places),
            None => self.places.pop(),
        }
    }

    /// Takes a key out where it is seen to be the last, and tells its place.
    #[inline(always)]
    pub(crate) fn pop_if(&mut self, key: usize) -> Option<usize>
        ensures stood { IfSome result (λ place. slice_get self.old.items place ≡ Some key) }
        ensures after { IfSome result (λ place. self.new.items ≡ remove self.old.items place) }
        ensures same { IfNone result (self.new.items ≡ self.old.items) }
    {
        match &self.starts {
            Some(_) => None,
            None => pop_if(&mut self.places, key),
        }
    }

    /// Takes the key at a place out, where the list goes so far.
    pub(crate) fn take_out(&mut self, place: usize)
        ensures { self.new.items ≡ remove self.old.items place }
    {
        match &mut self.starts {
            Some(starts) => take_out(starts, &mut self.places, place),
            None => take_plain(&mut self.places, place),
        }
    }
}

/// Equal starts, with memory of their own.
fn copy_starts(starts: &Option<Box<Vec<usize>>>) -> Result<Option<Box<Vec<usize>>>, AllocError>
    ensures { IfOk result (λ copy. starts_in copy ≡ starts_in starts.now) }
{
    match starts {
        Some(starts) => Ok(Some(starts.clone()?)),
        None => Ok(None),
    }
}

/// Makes room for one more key in a list that has no block.
#[inline(always)]
fn make_plain_room(places: &mut SmallVec<usize, 6>) -> Result<(), AllocError>
    ensures room { OnOk result (HasRoomFor places.new 1) }
    ensures same { places.new.items ≡ places.old.items }
{
    if places.len() == places.capacity() {
        places.reserve(1)?;
    }
    Ok(())
}

/// Makes the keys of a list, as many as a block has, its first block, with room for one more key behind it.
#[inline(never)]
fn begin_blocks(places: &mut SmallVec<usize, 6>) -> Result<Box<Vec<usize>>, AllocError>
    requires { HasBlocks [] (small_vec_len places.old) }
    ensures blocks { IfOk result
        (λ starts. HasBlocks starts.value.items (small_vec_len places.new)) }
    ensures room { IfOk result (λ starts. HasRoomBehind starts.value.items places.new) }
    ensures same { IfOk result (λ starts. turned_keys starts.value.items places.new.items
        ≡ places.old.items) }
    ensures err { OnErr result (places.new.items ≡ places.old.items) }
{
    let alloc = *places.allocator();
    let mut starts = Vec::new(alloc);
    grow(&mut starts, places)?;
    Ok(Box::new(alloc, starts)?)
}

/// Takes the key at a place out of a list that has no block, where the list goes so far.
#[inline(always)]
fn take_plain(places: &mut SmallVec<usize, 6>, place: usize)
    ensures { places.new.items ≡ remove places.old.items place }
{
    if place < places.len() {
        places.remove(place);
    }
}

/// The keys of a list in their order, lent.
#[derive(Drop)]
pub(crate) struct LentKeys<'a> {
    starts: &'a [usize],
    places: &'a [usize],
}

impl<'a> Model for LentKeys<'a> {
    ghost use Rattle.std.specs.Prelude.{ℕ, List, length};
    ghost use Rattle.tq_locks.specs.Keys.{turned_keys, HasBlocks};

    ghost Value = { List ℕ };

    ghost view = { λ k. turned_keys k.starts.now k.places.now };

    ghost invariant = { λ k. HasBlocks k.starts.now (length k.places.now) };
}

impl<'a> LentKeys<'a> {
    /// No key.
    #[inline(always)]
    pub(crate) fn none() -> LentKeys<'a>
        ensures { result ≡ [] }
    {
        LentKeys {
            starts: &[],
            places: &[],
        }
    }

    /// The number of keys.
    #[inline(always)]
    pub(crate) fn len(&self) -> usize
        ensures { result ≡ length self.now }
    {
        self.places.len()
    }

    /// The key at a place in their order, where the list goes so far.
    #[inline(always)]
    pub(crate) fn get(&self, at: usize) -> Option<usize>
        ensures { result ≡ slice_get self.now at }
    {
        key_at(self.starts, self.places, at)
    }
}

/// Makes room for one more key.
#[inline(always)]
fn make_room(starts: &mut Vec<usize>, places: &mut SmallVec<usize, 6>) -> Result<(), AllocError>
    requires { HasBlocks starts.old.items (small_vec_len places.old) }
    ensures blocks { HasBlocks starts.new.items (small_vec_len places.new) }
    ensures room { OnOk result (HasRoomBehind starts.new.items places.new) }
    ensures same { turned_keys starts.new.items places.new.items
        ≡ turned_keys starts.old.items places.old.items }
{
    let behind = places.len() - starts.len() * BLOCK;
    if places.len() == places.capacity() || behind == BLOCK {
        return grow(starts, places);
    }
    Ok(())
}

/// The same. Where the keys behind the blocks are as many as one has, they become one.
#[inline(never)]
fn grow(starts: &mut Vec<usize>, places: &mut SmallVec<usize, 6>) -> Result<(), AllocError>
    requires { HasBlocks starts.old.items (small_vec_len places.old) }
    ensures blocks { HasBlocks starts.new.items (small_vec_len places.new) }
    ensures room { OnOk result (HasRoomBehind starts.new.items places.new) }
    ensures items { places.new.items ≡ places.old.items }
    ensures same { turned_keys starts.new.items places.new.items
        ≡ turned_keys starts.old.items places.old.items }
{
    places.reserve(1)?;
    if places.len() - starts.len() * BLOCK == BLOCK {
        starts.reserve(1)?;
        starts.push_reserved(0);
    }
    Ok(())
}

/// Puts a key into its place where there is room.
#[inline(always)]
fn put(starts: &mut Vec<usize>, places: &mut SmallVec<usize, 6>, place: usize, key: usize)
    requires blocks { HasBlocks starts.old.items (small_vec_len places.old) }
    requires room { HasRoomBehind starts.old.items places.old }
    requires within { place ≤ small_vec_len places.old }
    ensures blocks { HasBlocks starts.new.items (small_vec_len places.new) }
    ensures put { turned_keys starts.new.items places.new.items
        ≡ insert (turned_keys starts.old.items places.old.items) place key }
{
    if place / BLOCK >= starts.len() {
        put_plain(places, place, key);
    } else {
        put_within(starts, places, place, key);
    }
}

/// The same in a block.
#[inline(never)]
fn put_within(starts: &mut Vec<usize>, places: &mut SmallVec<usize, 6>, place: usize, key: usize)
    requires blocks { HasBlocks starts.old.items (small_vec_len places.old) }
    requires room { HasRoomBehind starts.old.items places.old }
    requires within { place < 2048 * length starts.old.items }
    ensures blocks { HasBlocks starts.new.items (small_vec_len places.new) }
    ensures put { turned_keys starts.new.items places.new.items
        ≡ insert (turned_keys starts.old.items places.old.items) place key }
{
    let last = push_through(starts.as_mut_slice(), places.as_mut_slice(), place, key);
    put_plain(places, starts.len() * BLOCK, last);
}

/// Takes the key at a place out, where the keys go so far.
fn take_out(starts: &mut Vec<usize>, places: &mut SmallVec<usize, 6>, place: usize)
    requires { HasBlocks starts.old.items (small_vec_len places.old) }
    ensures blocks { HasBlocks starts.new.items (small_vec_len places.new) }
    ensures taken { turned_keys starts.new.items places.new.items
        ≡ remove (turned_keys starts.old.items places.old.items) place }
{
    if place >= places.len() {
        return;
    }
    settle(starts, places);
    let behind = starts.len() * BLOCK;
    if place >= behind {
        places.remove(place);
        return;
    }
    let first = places.remove(behind);
    let _taken = pull_through(starts.as_mut_slice(), places.as_mut_slice(), place, first);
}

/// Takes the last key out.
#[inline(always)]
fn pop(starts: &mut Vec<usize>, places: &mut SmallVec<usize, 6>) -> Option<usize>
    requires { HasBlocks starts.old.items (small_vec_len places.old) }
    ensures blocks { HasBlocks starts.new.items (small_vec_len places.new) }
    ensures last { turned_keys starts.old.items places.old.items
        ≡ turned_keys starts.new.items places.new.items ++ option_to_list result }
    ensures none { IfNone result (turned_keys starts.old.items places.old.items ≡ []) }
{
    settle(starts, places);
    places.pop()
}

/// Makes the last block plain keys, where no key is behind the blocks.
#[inline(always)]
fn settle(starts: &mut Vec<usize>, places: &mut SmallVec<usize, 6>)
    requires { HasBlocks starts.old.items (small_vec_len places.old) }
    ensures blocks { HasBlocks starts.new.items (small_vec_len places.new) }
    ensures len { small_vec_len places.new ≡ small_vec_len places.old }
    ensures behind { 0 < small_vec_len places.new
        → 2048 * length starts.new.items < small_vec_len places.new }
    ensures same { turned_keys starts.new.items places.new.items
        ≡ turned_keys starts.old.items places.old.items }
    ensures capacity { places.new.capacity ≡ places.old.capacity }
{
    if places.len() == starts.len() * BLOCK {
        if let Some(start) = starts.pop() {
            let low = starts.len() * BLOCK;
            places.as_mut_slice()[low..low + BLOCK].rotate_left(start);
        }
    }
}

/// The key at a place in the order of blocks and of the keys behind them.
#[inline(always)]
fn key_at(starts: &[usize], places: &[usize], at: usize) -> Option<usize>
    requires { HasBlocks starts.now (length places.now) }
    ensures { result ≡ slice_get (turned_keys starts.now places.now) at }
{
    if at >= places.len() {
        return None;
    }
    let block = at / BLOCK;
    if block >= starts.len() {
        return Some(places[at]);
    }
    Some(places[block * BLOCK + (starts[block] + at % BLOCK) % BLOCK])
}

/// Puts a key into its place in the blocks, and tells the last of all. The last of each block goes on to the next.
fn push_through(starts: &mut [usize], places: &mut [usize], place: usize, key: usize) -> usize
    requires blocks { HasBlocks starts.old (length places.old) }
    requires within { place < 2048 * length starts.old }
    ensures blocks { HasBlocks starts.new (length places.new) }
    ensures put { insert (turned_keys starts.new places.new) (2048 * length starts.new) result
        ≡ insert (turned_keys starts.old places.old) place key }
{
    let mut block = place / BLOCK;
    let mut carried = put_in_block(starts, places, block, place % BLOCK, key);
    block += 1;
    while block < starts.len() {
        carried = put_in_block(starts, places, block, 0, carried);
        block += 1;
    }
    carried
}

/// Takes the key at a place in the blocks out. A key comes behind them, and the first of each block goes on to the one before.
fn pull_through(starts: &mut [usize], places: &mut [usize], place: usize, key: usize) -> usize
    requires blocks { HasBlocks starts.old (length places.old) }
    requires within { place < 2048 * length starts.old }
    ensures blocks { HasBlocks starts.new (length places.new) }
    ensures taken { insert (turned_keys starts.new places.new) place result
        ≡ insert (turned_keys starts.old places.old) (2048 * length starts.old) key }
{
    let first = place / BLOCK;
    let mut block = starts.len() - 1;
    let mut carried = key;
    while block > first {
        carried = take_from_block(starts, places, block, 0, carried);
        block -= 1;
    }
    take_from_block(starts, places, first, place % BLOCK, carried)
}

/// Puts a key into a place in a block, and tells the last, which leaves the block.
#[inline(always)]
fn put_in_block(
    starts: &mut [usize],
    places: &mut [usize],
    block: usize,
    place: usize,
    key: usize,
) -> usize
    requires blocks { HasBlocks starts.old (length places.old) }
    requires within { (block < length starts.old) × (place < 2048) }
    ensures blocks { HasBlocks starts.new (length places.new) }
    ensures put { insert (turned_keys starts.new places.new) (2048 * suc block) result
        ≡ insert (turned_keys starts.old places.old) (2048 * block + place) key }
{
    let low = block * BLOCK;
    let keys = &mut places[low..low + BLOCK];
    if place == 0 {
        let start = (starts[block] + BLOCK - 1) % BLOCK;
        starts[block] = start;
        let last = keys[start];
        keys[start] = key;
        return last;
    }
    let start = starts[block];
    if start == 0 {
        return open(keys, place, key);
    }
    if start + place < BLOCK {
        starts[block] = start - 1;
        return put_before(keys, start, place, key);
    }
    put_behind(keys, start, place, key)
}

/// Puts a key into a place of a ring, and tells the last, which leaves it. The keys before it move, so that the ring begins earlier.
fn put_before(keys: &mut [usize], start: usize, place: usize, key: usize) -> usize
    requires { (0 < start) × (start + place ≤ length keys.old) }
    ensures { turn (start - 1) keys.new ++ result ∷ [] ≡ insert (turn start keys.old) place key }
{
    close(&mut keys[start - 1..start + place], 0, key)
}

/// The same where the keys behind it move, so that the ring begins where it did.
fn put_behind(keys: &mut [usize], start: usize, place: usize, key: usize) -> usize
    requires within { (start ≤ length keys.old) × (place < length keys.old) }
    requires behind { length keys.old ≤ start + place }
    ensures { turn start keys.new ++ result ∷ [] ≡ insert (turn start keys.old) place key }
{
    let at = start + place - keys.len();
    open(&mut keys[at..start], 0, key)
}

/// Puts a key into its place in a list, and tells the last, which leaves the list.
fn open(keys: &mut [usize], place: usize, key: usize) -> usize
    requires { place < length keys.old }
    ensures { keys.new ++ result ∷ [] ≡ insert keys.old place key }
{
    let end = keys.len() - 1;
    let last = keys[end];
    keys.copy_within(place..end, place + 1);
    keys[place] = key;
    last
}

/// Takes the key at a place in a block out. A key comes behind the others.
#[inline(always)]
fn take_from_block(
    starts: &mut [usize],
    places: &mut [usize],
    block: usize,
    place: usize,
    key: usize,
) -> usize
    requires blocks { HasBlocks starts.old (length places.old) }
    requires within { (block < length starts.old) × (place < 2048) }
    ensures blocks { HasBlocks starts.new (length places.new) }
    ensures taken { insert (turned_keys starts.new places.new) (2048 * block + place) result
        ≡ insert (turned_keys starts.old places.old) (2048 * suc block) key }
{
    let low = block * BLOCK;
    let keys = &mut places[low..low + BLOCK];
    let start = starts[block];
    if place == 0 {
        starts[block] = (start + 1) % BLOCK;
        let first = keys[start];
        keys[start] = key;
        return first;
    }
    if start + place < BLOCK {
        starts[block] = start + 1;
        return take_before(keys, start, place, key);
    }
    take_behind(keys, start, place, key)
}

/// Takes the key at a place of a ring out. A key comes behind the others. Those before it move, so that the ring begins later.
fn take_before(keys: &mut [usize], start: usize, place: usize, key: usize) -> usize
    requires { start + place < length keys.old }
    ensures { insert (turn (start + 1) keys.new) place result ≡ turn start keys.old ++ key ∷ [] }
{
    open(&mut keys[start..start + place + 1], 0, key)
}

/// The same where the keys behind it move, so that the ring begins where it did.
fn take_behind(keys: &mut [usize], start: usize, place: usize, key: usize) -> usize
    requires within { (start ≤ length keys.old) × (place < length keys.old) }
    requires behind { length keys.old ≤ start + place }
    ensures { insert (turn start keys.new) place result ≡ turn start keys.old ++ key ∷ [] }
{
    let at = start + place - keys.len();
    close(&mut keys[at..start], 0, key)
}

/// Takes the key at a place out of a list. A key comes behind the others.
fn close(keys: &mut [usize], place: usize, key: usize) -> usize
    requires { place < length keys.old }
    ensures { insert keys.new place result ≡ keys.old ++ key ∷ [] }
{
    let end = keys.len();
    let taken = keys[place];
    keys.copy_within(place + 1..end, place);
    keys[end - 1] = key;
    taken
}

/// Takes a key out of a list where it is the last, and tells its place.
#[inline(always)]
fn pop_if(keys: &mut SmallVec<usize, 6>, key: usize) -> Option<usize>
    ensures stood { IfSome result (λ place. slice_get keys.old.items place ≡ Some key) }
    ensures after { IfSome result (λ place. keys.new.items ≡ remove keys.old.items place) }
    ensures same { IfNone result (keys.new.items ≡ keys.old.items) }
{
    if !is_last(keys.as_slice(), key) {
        return None;
    }
    keys.pop();
    Some(keys.len())
}

/// Whether a key is the last of a list.
fn is_last(keys: &[usize], key: usize) -> bool
    ensures { OnTrue result (slice_get keys.now (length keys.now - 1) ≡ Some key) }
{
    match keys.last() {
        Some(last) => *last == key,
        None => false,
    }
}

/// Puts a key into its place in plain keys that have room.
#[inline(always)]
fn put_plain(keys: &mut SmallVec<usize, 6>, place: usize, key: usize)
    requires room { HasRoomFor keys.old 1 }
    requires within { place ≤ length keys.old.items }
    ensures { keys.new.items ≡ insert keys.old.items place key }
{
    // Most often it goes behind the others, or before a few.
    if keys.len() - place <= FEW {
        keys.push_reserved(key);
        sink(keys.as_mut_slice(), place);
    } else {
        insert_far(keys, place, key);
    }
}

/// The same, where more of the keys move.
#[inline(never)]
fn insert_far(keys: &mut SmallVec<usize, 6>, place: usize, key: usize)
    requires room { HasRoomFor keys.old 1 }
    requires within { place ≤ length keys.old.items }
    ensures { keys.new.items ≡ insert keys.old.items place key }
{
    let _room_was_made = keys.insert(place, key);
}

/// Moves the last of the keys before those from a place on.
#[inline(always)]
fn sink(keys: &mut [usize], place: usize)
    requires { place < length keys.old }
    ensures { Sinks keys.old keys.new place }
{
    let mut at = keys.len() - 1;
    while at > place {
        keys.swap(at - 1, at);
        at -= 1;
    }
}

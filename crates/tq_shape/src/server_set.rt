//! Sets of servers of one tree.

ghost use Rattle.std.specs.Prelude.{◌≡◌, ◌<◌, ◌/◌, ◌%◌, ◌^◌, ◌↔◌, not, nat_eq, [], All, IfOk, IsTrue};
ghost use Rattle.std.specs.Cmp.Lexicographic.{pointwise};
ghost use Rattle.tq_shape.specs.Tree.{IsServer};
ghost use Rattle.tq_shape.specs.ServerSet.{AreBelow, Ascends, has_number, have_same_numbers, servers_of_numbers, first_of, set_with, set_with_last, set_without};

use crate::words::Words;
use crate::{Levels, Memory, ServerId};
use std::alloc::{AllocError, Global};
use std::marker::Model;

/// A set of servers of one tree, walked upwards.
///
/// Contracts see it as the levels of the tree and the ascending list of its servers' numbers.
pub struct ServerSet {
    levels: Levels,
    /// The bit `number % 64` of the word `number / 64` says whether the server is in the set. No other bit is set.
    words: Words,
}

// Written out, so that a crate above lets go of one by a call.
impl Drop for ServerSet {
    fn drop(self) {
        let Self {
            levels: _,
            words: _,
        } = self;
    }
}

impl Model for ServerSet {
    ghost use Rattle.tq_shape.specs.ServerSet.{Servers, AreWordsOf, numbers_of};

    ghost Value = { Servers };

    ghost view = { λ set. record { levels = set.levels; numbers = numbers_of set.words } };

    ghost invariant = { λ set. AreWordsOf set.levels set.words };
}

impl ServerSet {
    /// The set of no server of a tree of that many levels. It takes memory where the tree has more than six levels; what is
    /// put in and taken out later takes none.
    ///
    /// # Errors
    ///
    /// Refuses where there is no memory for it.
    pub fn new(alloc: Global, levels: Levels) -> Result<ServerSet, Memory>
        ensures { IfOk result (λ set. set ≡ record { levels = levels; numbers = [] }) }
    {
        let words = Words::zeros(alloc, (levels.servers() / 64) as usize)?;
        Ok(ServerSet { levels, words })
    }

    /// The levels of the tree.
    pub fn levels(&self) -> Levels
        ensures { result ≡ self.now.levels }
    {
        self.levels
    }

    /// Whether the server, one of the set's tree, is in the set.
    pub fn contains(&self, server: ServerId) -> bool
        requires { server.levels ≡ self.now.levels }
        ensures { result ≡ has_number self.now.numbers server.number }
    {
        self.words.get(place_of(server)) & bit_of(server) != 0
    }

    /// Puts a server of the set's tree in, and answers whether it was not there before.
    pub fn insert(&mut self, server: ServerId) -> bool
        requires { server.levels ≡ self.old.levels }
        ensures new { result ≡ not (has_number self.old.numbers server.number) }
        ensures after { self.new ≡ set_with server.number self.old }
        ensures last { AreBelow server.number self.old.numbers
            → self.new ≡ set_with_last server.number self.old }
    {
        let place = place_of(server);
        let bit = bit_of(server);
        let word = self.words.get(place);
        self.words.put(place, word | bit);
        word & bit == 0
    }

    /// Takes a server of the set's tree out, and answers whether it was there.
    pub fn remove(&mut self, server: ServerId) -> bool
        requires { server.levels ≡ self.old.levels }
        ensures old { result ≡ has_number self.old.numbers server.number }
        ensures after { self.new ≡ set_without server.number self.old }
    {
        let place = place_of(server);
        let bit = bit_of(server);
        let word = self.words.get(place);
        self.words.put(place, word & !bit);
        word & bit != 0
    }

    /// Takes all servers out.
    pub fn clear(&mut self)
        ensures { self.new ≡ record { levels = self.old.levels; numbers = [] } }
    {
        self.words.clear();
    }

    /// The least server of the set.
    pub fn first(&self) -> Option<ServerId>
        ensures { result ≡ first_of (servers_of_numbers self.now.levels self.now.numbers) }
    {
        self.iter().next()
    }

    /// Whether there is no server in the set.
    pub fn is_empty(&self) -> bool
        ensures { IsTrue result ↔ (self.now.numbers ≡ []) }
    {
        self.first().is_none()
    }

    /// Whether both sets have servers of the same numbers.
    pub fn has_numbers_of(&self, other: &ServerSet) -> bool
        ensures { result ≡ pointwise nat_eq self.now.numbers other.now.numbers }
    {
        // Equal words tell it at once.
        if self.words.first() == other.words.first() {
            if self.words.more() == other.words.more() {
                return true;
            }
        }
        have_same_numbers(self.iter(), other.iter())
    }

    /// The servers, upwards.
    pub fn iter(&self) -> ServerSetIter<'_>
        ensures servers { result ≡ servers_of_numbers self.now.levels self.now.numbers }
        ensures of_tree { All (IsServer self.now.levels) self.now.numbers }
        ensures ascending { Ascends 0 self.now.numbers }
    {
        ServerSetIter {
            levels: self.levels,
            base: 0,
            word: self.words.first(),
            rest: self.words.more(),
        }
    }
}

/// The servers of a set that are left to walk, upwards.
#[derive(Drop)]
pub struct ServerSetIter<'a> {
    levels: Levels,
    /// The number of the first place of the word.
    base: u64,
    /// What is left of a word of the set.
    word: u64,
    /// The words behind it.
    rest: &'a [u64],
}

impl<'a> Model for ServerSetIter<'a> {
    ghost use Rattle.std.specs.Prelude.{List};
    ghost use Rattle.tq_shape.specs.{Tree.Server, ServerSet.{AreLeft, servers_of_numbers, numbers_left}};

    ghost Value = { List Server };

    ghost view = { λ it. servers_of_numbers it.levels (numbers_left it.base it.word it.rest.now) };

    ghost invariant = { λ it. AreLeft it.levels it.base it.word it.rest.now };
}

impl<'a> Iterator for ServerSetIter<'a> {
    ghost use Rattle.std.specs.Iterator.{YieldsFirst, item_count};

    type Item = ServerId;

    ghost next_gives = { YieldsFirst (λ rest. rest) };

    ghost remaining = { item_count (λ rest. rest) };

    fn next(&mut self) -> Option<ServerId> {
        // The way of nearly every call: the word has a mark left, and nothing but the word changes.
        let here = self.word;
        if here != 0 {
            self.word = here & (here - 1);
            let number = self.base + u64::from(here.trailing_zeros());
            return Some(ServerId::new(self.levels, number));
        }
        let mut base = self.base;
        let mut word = self.word;
        let mut rest = self.rest;
        while word == 0 {
            let (next, behind) = rest.split_first()?;
            base += 64;
            word = *next;
            rest = behind;
        }
        self.base = base;
        self.word = word & (word - 1);
        self.rest = rest;
        let number = base + u64::from(word.trailing_zeros());
        Some(ServerId::new(self.levels, number))
    }
}

/// Whether both walks come to servers of the same numbers.
fn have_same_numbers(one: ServerSetIter<'_>, other: ServerSetIter<'_>) -> bool
    ensures { result ≡ have_same_numbers one.entry other.entry }
{
    let mut left = other;
    for server in one {
        let Some(next) = left.next() else {
            return false;
        };
        if next.number() != server.number() {
            return false;
        }
    }
    left.next().is_none()
}

/// The place of the word that has a server's bit.
fn place_of(server: ServerId) -> usize
    ensures place { result ≡ server.number / 64 }
    ensures within { IsServer server.levels server.number }
{
    (server.number() / 64) as usize
}

/// The bit of a server in its word.
fn bit_of(server: ServerId) -> u64
    ensures { result ≡ 2 ^ (server.number % 64) }
{
    1 << (server.number() % 64)
}

impl Clone for ServerSet {
    ghost use Rattle.std.specs.Prelude.{◌≡◌};

    ghost is_clone = { λ set copy. copy ≡ set };

    fn clone(&self) -> Result<Self, AllocError> {
        Ok(ServerSet {
            levels: self.levels,
            words: self.words.clone()?,
        })
    }
}

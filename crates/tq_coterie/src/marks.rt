//! A set of servers as bits, for the test.

ghost use Rattle.std.specs.Prelude.{◌≡◌, ◌+◌, ◌*◌, ◌^◌, ◌<◌, ◌==◌, ℕ, All, false, slice_index};
ghost use Rattle.std.specs.Bool.{OnTrue, OnFalse};
ghost use Rattle.tq_shape.specs.Tree.{height_of};
ghost use Rattle.tq_coterie.specs.Parts.{part_of, is_marked, part_at, AreMarksOf, HasMarkMore, HasNoMarkBetween, IsBare, IsRaised};

use crate::holding::{Overlap, part_of_fork};
use tq_shape::ServerId;

/// How many words hold the marks of the servers of every tree, 64 to a word.
const WORDS: usize = 16;

/// Marks of the servers of a tree, bit `n % 64` of word `n / 64` that of server n.
#[derive(Drop)]
pub(crate) struct Marks {
    words: [u64; WORDS],
}

/// How the set of servers stands to the whole tree.
pub(crate) fn part_under_root(root: ServerId, servers: &[u64]) -> Overlap
    requires root { root.number ≡ 1 }
    requires within { All (λ server. server < 2 ^ root.levels) servers.now }
    ensures { result ≡ part_of (height_of root.levels root.number) root.number servers.now }
{
    let greatest = root.levels().servers();
    let mut members = Marks::of(servers);
    let mut server = greatest / 2;
    while server > 0 {
        if !members.raise(server) {
            return Overlap::Neither;
        }
        server = members.next_below(server);
    }
    if members.has(root.number()) {
        Overlap::Member
    } else {
        Overlap::Empty
    }
}

impl Marks {
    /// The marks of these servers.
    fn of(servers: &[u64]) -> Marks
        requires { All (λ server. server < 1024) servers.now }
        ensures { AreMarksOf result.words servers.now }
    {
        let mut marks = Marks { words: [0; WORDS] };
        for server in servers {
            marks.put(*server);
        }
        marks
    }

    /// Makes the server's own mark say whether there is a member of the subtree over it, as those of its sides do
    /// already. Answers whether it can: where there are servers of the subtree that are no member, nothing changes.
    fn raise(&mut self, server: u64) -> bool
        requires { 2 * server + 1 < 1024 }
        ensures raised { OnTrue result (IsRaised self.old.words server self.new.words) }
        ensures neither { OnFalse result (part_at self.old.words server ≡ Overlap.Neither) }
    {
        let chosen = self.has(server);
        let left = self.has(2 * server);
        let right = self.has(2 * server + 1);
        match part_of_fork(chosen, left, right) {
            Overlap::Empty => true,
            Overlap::Member => {
                self.put(server);
                true
            }
            Overlap::Neither => false,
        }
    }

    /// The greatest server below this one that is marked, or has a side that is; 0 where there is none.
    fn next_below(&self, server: u64) -> u64
        requires positive { 0 < server }
        requires within { 2 * server < 1024 }
        ensures below { result < server }
        ensures bare { (other : ℕ) → result < other → other < server → IsBare self.now.words other }
    {
        let own = self.last_below(server);
        let above_side = self.last_below(2 * server) / 2;
        own.max(above_side)
    }

    /// The greatest marked server below this one; 0 where there is none.
    fn last_below(&self, server: u64) -> u64
        requires positive { 0 < server }
        requires within { server < 1024 }
        ensures below { result < server }
        ensures last { HasNoMarkBetween self.now.words result server }
    {
        let mut place = (server / 64) as usize;
        let mut word = self.word(place) & ((1u64 << (server % 64)) - 1);
        while word == 0 {
            if place == 0 {
                return 0;
            }
            place -= 1;
            word = self.word(place);
        }
        64 * place as u64 + (63 - word.leading_zeros() as u64)
    }

    /// The marks of 64 servers.
    fn word(&self, place: usize) -> u64
        requires { place < 16 }
        ensures { result ≡ slice_index self.now.words place }
    {
        self.words[place]
    }

    /// Whether the server is marked.
    fn has(&self, server: u64) -> bool
        requires { server < 1024 }
        ensures { result ≡ is_marked self.now.words server }
    {
        (self.word((server / 64) as usize) >> (server % 64)) & 1 == 1
    }

    /// Marks one more server.
    fn put(&mut self, server: u64)
        requires { server < 1024 }
        ensures { HasMarkMore self.old.words server self.new.words }
    {
        self.words[(server / 64) as usize] |= 1u64 << (server % 64);
    }
}

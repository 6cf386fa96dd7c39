//! The servers that a transaction has noted.

ghost use Rattle.std.specs.Prelude.{◌≡◌, ◌==◌, ◌+◌, ◌<◌, ◌≤◌, [], true, false, length, nat_lt, slice_get, vec_capacity, vec_len, IfOk, IsTrue, OnOk};
ghost use Rattle.std.specs.{List.{insert, list_all}, List.Sorted.IsPartitionPoint, Option.option_map_or};
ghost use Rattle.tq_coterie.specs.Coterie.{has, is_quorum, numbers_of};
ghost use Rattle.tq_evidence.specs.Evidence.{granters, rises};
ghost use Rattle.tq_txn_states.specs.Open.{IsReady, IsServerSet, with_id, with_number, with_numbers};

use std::alloc::Global;
use std::marker::Model;
use tq_desk::Grant;
use tq_shape::{Levels, Memory, ServerId};

/// A set of servers of one tree, ascending.
#[derive(Drop)]
pub(crate) struct Servers {
    levels: Levels,
    ids: Vec<ServerId>,
}

impl Model for Servers {
    ghost use Rattle.std.specs.Prelude.{◌-◌, vec_capacity, vec_len};
    ghost use Rattle.tq_coterie.specs.Coterie.{numbers_of};
    ghost use Rattle.tq_txn_states.specs.Open.{IsServerSet, RoomySet};

    ghost Value = { RoomySet };

    ghost view = { λ a. record {
      servers = numbers_of a.ids.items;
      levels = a.levels;
      room = vec_capacity a.ids - vec_len a.ids;
    } };

    ghost invariant = { λ a. IsServerSet a.levels a.ids.items };
}

impl Servers {
    pub(crate) fn new(alloc: Global, levels: Levels) -> Servers
        ensures servers { result.servers ≡ [] }
        ensures levels { result.levels ≡ levels }
    {
        Servers {
            levels,
            ids: Vec::new(alloc),
        }
    }

    pub(crate) fn levels(&self) -> Levels
        ensures { result ≡ self.now.levels }
    {
        self.levels
    }

    pub(crate) fn as_slice(&self) -> &[ServerId]
        ensures numbers { numbers_of result.now ≡ self.now.servers }
        ensures set { IsServerSet self.now.levels result.now }
    {
        self.ids.as_slice()
    }

    /// Makes room for as many servers more.
    pub(crate) fn reserve(&mut self, more: usize) -> Result<(), Memory>
        ensures room { OnOk result (more ≤ self.new.room) }
        ensures servers { self.new.servers ≡ self.old.servers }
        ensures levels { self.new.levels ≡ self.old.levels }
    {
        self.ids.reserve(more)?;
        Ok(())
    }

    /// Makes room for the servers of the grants, and tells whether it is to grow by them: else it has them all.
    pub(crate) fn make_room(&mut self, grants: &[Grant]) -> Result<bool, Memory>
        ensures ready { IfOk result (λ grows. IsReady self.new grows (granters grants.now)) }
        ensures servers { self.new.servers ≡ self.old.servers }
        ensures levels { self.new.levels ≡ self.old.levels }
    {
        if has_all(self.ids.as_slice(), grants) {
            return Ok(false);
        }
        self.reserve(grants.len())?;
        Ok(true)
    }

    /// Puts a server at its place, if it is not there: likely this place. It takes no memory.
    #[inline(always)]
    pub(crate) fn put(&mut self, server: ServerId, likely: usize)
        requires tree { server.levels ≡ self.old.levels }
        requires room { 1 ≤ self.old.room }
        ensures servers { self.new.servers ≡ with_number self.old.servers server.number }
        ensures levels { self.new.levels ≡ self.old.levels }
        ensures room { self.old.room ≤ self.new.room + 1 }
    {
        let place = place_of(self.ids.as_slice(), server.number(), likely);
        if stands_at(self.ids.as_slice(), server.number(), place) {
            return;
        }
        put_at(&mut self.ids, place, server);
    }

    /// Grows by the servers of the grants, which are a quorum of its tree, if it is to. It takes no memory.
    pub(crate) fn grow(&mut self, grows: bool, grants: &[Grant])
        requires quorum { is_quorum self.old.levels (granters grants.now) ≡ true }
        requires ready { IsReady self.old grows (granters grants.now) }
        ensures servers { self.new.servers ≡ with_numbers self.old.servers (granters grants.now) }
        ensures levels { self.new.levels ≡ self.old.levels }
    {
        if !grows {
            return;
        }
        // A tree has a level, so the numbers of a quorum are its servers.
        let _ = self.levels.count();
        for grant in grants {
            self.put(ServerId::new(self.levels, grant.server), 0);
        }
    }
}

/// Where the servers of lesser numbers end: the number stands there, or goes there. Likely at this place, and else a search
/// by halves finds it.
#[inline(always)]
fn place_of(ids: &[ServerId], number: u64, likely: usize) -> usize
    requires { rises (numbers_of ids.now) ≡ true }
    ensures there { option_map_or (λ id. id.number == number) (slice_get ids.now result) false
        ≡ has (numbers_of ids.now) number }
    ensures place { has (numbers_of ids.now) number ≡ false
        → IsPartitionPoint (λ id. nat_lt id.number number ≡ true)
        (λ id. nat_lt id.number number ≡ false) ids.now result }
    ensures within { result ≤ length ids.now }
{
    if stands_at(ids, number, likely) {
        return likely;
    }
    if is_above(ids, number) {
        return ids.len();
    }
    ids.partition_point(|id| id.number() < number)
}

/// Whether the number is above those of all the servers, which ascend.
fn is_above(ids: &[ServerId], number: u64) -> bool
    requires { rises (numbers_of ids.now) ≡ true }
    ensures { IsTrue result → list_all (λ id. nat_lt id.number number) ids.now ≡ true }
{
    match ids.last() {
        Some(last) => last.number() < number,
        None => true,
    }
}

/// Whether the number is that of the server at the place.
fn stands_at(ids: &[ServerId], number: u64, place: usize) -> bool
    ensures value { result
        ≡ option_map_or (λ id. id.number == number) (slice_get ids.now place) false }
    ensures within { IsTrue result → place < length ids.now }
{
    match ids.get(place) {
        Some(id) => id.number() == number,
        None => false,
    }
}

/// Puts an item at a place of a list that has room.
#[inline(always)]
pub(crate) fn put_at<T: Drop>(items: &mut Vec<T>, place: usize, item: T)
    requires within { place ≤ length items.old.items }
    requires room { vec_len items.old < vec_capacity items.old }
    ensures items { items.new.items ≡ insert items.old.items place item }
    ensures len { vec_len items.new ≡ vec_len items.old + 1 }
    ensures capacity { vec_capacity items.new ≡ vec_capacity items.old }
{
    if place == items.len() {
        items.push_reserved(item);
        return;
    }
    let _room_was_made = items.insert(place, item);
}

/// Whether the servers of all grants are there, as one walk along both finds them where both ascend.
fn has_all(ids: &[ServerId], grants: &[Grant]) -> bool
    ensures { IsTrue result → list_all (has (numbers_of ids.now)) (granters grants.now) ≡ true }
{
    match grants {
        [] => true,
        [grant, ..] => match ids {
            [] => false,
            [id, ..] => {
                if id.number() == grant.server {
                    return has_all(ids, &grants[1..]);
                }
                has_all(&ids[1..], grants)
            }
        },
    }
}

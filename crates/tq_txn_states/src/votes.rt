//! Votes, from the answers that tell of them.

ghost use Rattle.std.specs.Prelude.{◌≡◌, ◌==◌, ◌<◌, ◌≤◌, is_some, length, nat_lt, position, slice_get, true, false, vec_capacity, vec_len, IfOk, IfSome, IsTrue};
ghost use Rattle.std.specs.{List.{list_all, list_any}, List.Sorted.IsPartitionPoint};
ghost use Rattle.std.specs.Option.{option_copied, option_map, option_map_or};
ghost use Rattle.tq_evidence.specs.Evidence as evidence;
ghost use Rattle.tq_txn_states.specs.Voting as spec;
ghost use Rattle.tq_txn_states.specs.Voting.{is_of_server};

use crate::NodeTold;
use crate::servers::put_at;
use std::alloc::Global;
use tq_asks::{NodeAsk, NodeReply, WorkAsk};
use tq_desk::{Grant, Op, Vote};
use tq_shape::{Memory, ServerId, SharedSeq};
use tq_store::{FileName, Write};

/// A vote, with the ask that it answers.
#[derive(Drop)]
pub(crate) struct Cast {
    pub(crate) vote: Vote,
    pub(crate) ask: NodeAsk,
}

/// The vote for the transaction that an answer tells of.
#[inline(always)]
pub(crate) fn cast_in(txn: u64, told: NodeTold) -> Option<Cast>
    ensures value { option_map (λ cast. cast.vote) result ≡ spec.vote_of txn told }
    ensures server { IfSome result (λ cast. cast.vote.server ≡ told.server) }
{
    let NodeTold {
        server,
        number,
        ask,
        reply,
    } = told;
    if !is_prepare_of(txn, &ask) {
        return None;
    }
    match reply {
        NodeReply::Yes { held, writes } => Some(Cast {
            vote: Vote {
                server,
                number,
                held,
                writes,
            },
            ask,
        }),
        _ => None,
    }
}

/// Whether the ask is for a vote for the transaction.
fn is_prepare_of(txn: u64, ask: &NodeAsk) -> bool
    ensures { result ≡ spec.is_prepare_of txn ask.now }
{
    let NodeAsk::Work(work) = ask else {
        return false;
    };
    let WorkAsk::Prepare { txn: voter, .. } = work.get() else {
        return false;
    };
    *voter == txn
}

/// Where the server's grant stands in the first operation that has one: likely at the place.
pub(crate) fn place_of_server(ops: &[Op], server: u64, likely: usize) -> Option<usize>
    requires { evidence.are_in_order ops.now ≡ true }
    ensures { is_some result ≡ evidence.is_server_of ops.now server }
{
    match ops {
        [] => None,
        [op, ..] => {
            let place = place_of_grant(op.grants.as_slice(), server, likely);
            if is_granter_at(op.grants.as_slice(), server, place) {
                return Some(place);
            }
            place_of_server(&ops[1..], server, likely)
        }
    }
}

/// Where the server's grant stands, if it is there: likely at the place, and else a search by halves finds it.
#[inline(always)]
fn place_of_grant(grants: &[Grant], server: u64, likely: usize) -> usize
    requires { evidence.rises (evidence.granters grants.now) ≡ true }
    ensures { spec.is_granter_at grants.now server result
        ≡ list_any (λ grant. grant.server == server) grants.now }
{
    if is_granter_at(grants, server, likely) {
        return likely;
    }
    grants.partition_point(|grant| grant.server < server)
}

/// Whether the grant at the place is the server's.
#[inline(always)]
fn is_granter_at(grants: &[Grant], server: u64, place: usize) -> bool
    ensures value { result ≡ spec.is_granter_at grants.now server place }
    ensures within { IsTrue result → place < length grants.now }
{
    match grants.get(place) {
        Some(grant) => grant.server == server,
        None => false,
    }
}

/// Whether a server granted a lock to the operation: its grant likely stands at the place.
#[inline(always)]
fn has_server_at(op: &Op, server: u64, likely: usize) -> bool
    requires { evidence.rises (evidence.servers_of op.now) ≡ true }
    ensures { result ≡ evidence.has_server op.now server }
{
    let grants = op.grants.as_slice();
    let place = place_of_grant(grants, server, likely);
    is_granter_at(grants, server, place)
}

/// What the operations write at a server, by file.
#[inline(always)]
pub(crate) fn writes_at(alloc: Global, ops: &[Op], server: u64) -> Result<SharedSeq<Write>, Memory>
    requires { evidence.are_in_order ops.now ≡ true }
    ensures { IfOk result (λ writes. writes ≡ spec.writes_at ops.now server) }
{
    let mut writes = Vec::new(alloc);
    for op in ops {
        if op.is_write() && has_server_at(op, server, 0) {
            writes.reserve_exact(1)?;
            writes.push_reserved(write_in(op)?);
        }
    }
    Ok(SharedSeq::from_vec(writes)?)
}

fn write_in(op: &Op) -> Result<Write, Memory>
    ensures { IfOk result (λ write. write ≡ spec.write_in op.now) }
{
    Ok(Write {
        file: op.file,
        version: op.version,
        content: op.content.clone()?,
    })
}

/// Whether the ask is the one for the server's vote.
pub(crate) fn is_ask_at(ask: &NodeAsk, txn: u64, ops: &[Op], server: u64) -> bool
    requires { evidence.are_in_order ops.now ≡ true }
    ensures { IsTrue result
        → ask.now ≡ NodeAsk.Work (WorkAsk.Prepare txn (spec.writes_at ops.now server)) }
{
    let NodeAsk::Work(work) = ask else {
        return false;
    };
    let WorkAsk::Prepare { txn: asker, writes } = work.get() else {
        return false;
    };
    if *asker != txn {
        return false;
    }
    are_writes_at(server, writes.as_slice(), ops, 0)
}

/// Whether all that the operations write, they write at the server: its grants likely stand at the place.
pub(crate) fn writes_all_at(ops: &[Op], server: u64, place: usize) -> bool
    requires { evidence.are_in_order ops.now ≡ true }
    ensures { result ≡ spec.writes_all_at ops.now server }
{
    match ops {
        [] => true,
        [op, ..] => {
            if op.is_write() && !has_server_at(op, server, place) {
                return false;
            }
            writes_all_at(&ops[1..], server, place)
        }
    }
}

/// Whether the writes voted are those of the operations at the server: its grants likely stand at the place.
#[inline(always)]
pub(crate) fn are_writes_at(server: u64, voted: &[Write], ops: &[Op], place: usize) -> bool
    requires { evidence.are_in_order ops.now ≡ true }
    ensures { result ≡ evidence.are_writes_at server voted.now (spec.writes_in ops.now) }
{
    match ops {
        [] => voted.is_empty(),
        [op, ..] => {
            if !op.is_write() || !has_server_at(op, server, place) {
                return are_writes_at(server, voted, &ops[1..], place);
            }
            match voted {
                [] => false,
                [write, ..] => {
                    op.makes(write) && are_writes_at(server, &voted[1..], &ops[1..], place)
                }
            }
        }
    }
}

/// The least file of which the vote does not cover a grant. The grants of its server likely stand at the place, and the
/// vote's locks where the operations stand.
#[inline(always)]
pub(crate) fn lost_file<'a>(ops: &'a [Op], vote: &Vote, place: usize) -> Option<&'a FileName>
    requires { evidence.are_in_order ops.now ≡ true }
    ensures { option_copied result ≡ spec.lost_file ops.now vote.now }
{
    let mut lock = 0;
    for op in ops {
        if !covers_op(vote, op, place, lock) {
            return Some(&op.file);
        }
        lock += 1;
    }
    None
}

/// Whether the vote covers the grants of its server, of which there is one at most.
#[inline(always)]
fn covers_op(vote: &Vote, op: &Op, likely: usize, lock: usize) -> bool
    requires { evidence.rises (evidence.servers_of op.now) ≡ true }
    ensures { result ≡ spec.covers_op vote.now op.now }
{
    let grants = op.grants.as_slice();
    let place = place_of_grant(grants, vote.server, likely);
    if !is_granter_at(grants, vote.server, place) {
        return true;
    }
    covers_at(vote, op.file, &grants[place], lock)
}

/// Whether the vote covers the grant of its server: its lock likely stands at the place.
#[inline(always)]
fn covers_at(vote: &Vote, file: FileName, grant: &Grant, lock: usize) -> bool
    ensures { result ≡ evidence.covers file grant.now vote.now }
{
    if vote.server != grant.server {
        return false;
    }
    if grant.number >= vote.number {
        return false;
    }
    if let Some(held) = vote.held.as_slice().get(lock) {
        if held.file == file && held.since <= grant.number {
            return true;
        }
    }
    vote.holds_since(file, grant.number)
}

/// Whether the server is above those of all the votes, which ascend.
fn is_above(votes: &[Vote], server: u64) -> bool
    requires { evidence.votes_rise votes.now ≡ true }
    ensures { IsTrue result → list_all (λ vote. nat_lt vote.server server) votes.now ≡ true }
{
    match votes.last() {
        Some(vote) => vote.server < server,
        None => true,
    }
}

/// Whether the server's vote is there.
pub(crate) fn has_vote(votes: &[Vote], server: u64) -> bool
    requires { evidence.votes_rise votes.now ≡ true }
    ensures { result ≡ spec.has_vote votes.now server }
{
    stands_at(votes, server, place_of_vote(votes, server))
}

/// Whether the vote of each server is there.
pub(crate) fn has_votes(votes: &[Vote], voters: &[ServerId]) -> bool
    requires { evidence.votes_rise votes.now ≡ true }
    ensures { result ≡ list_all (λ voter. spec.has_vote votes.now voter.number) voters.now }
{
    match voters {
        [] => true,
        [voter, ..] => {
            if !has_vote(votes, voter.number()) {
                return false;
            }
            has_votes(votes, &voters[1..])
        }
    }
}

/// Puts a vote at its place, instead of one of its server that is there, in a list that has room.
#[inline(always)]
pub(crate) fn put_vote(votes: &mut Vec<Vote>, vote: Vote)
    requires rise { evidence.votes_rise votes.old.items ≡ true }
    requires room { vec_len votes.old < vec_capacity votes.old }
    ensures { votes.new.items ≡ spec.with_vote vote votes.old.items }
{
    let place = place_of_vote(votes.as_slice(), vote.server);
    if stands_at(votes.as_slice(), vote.server, place) {
        votes[place] = vote;
        return;
    }
    put_at(votes, place, vote);
}

/// Where the votes of lesser servers end: the server's vote stands there, or goes there if it is not there. The last tells
/// of a server above all, and of another a search by halves.
fn place_of_vote(votes: &[Vote], server: u64) -> usize
    requires { evidence.votes_rise votes.now ≡ true }
    ensures place { IsPartitionPoint (λ vote. nat_lt vote.server server ≡ true)
        (λ vote. nat_lt vote.server server ≡ false) votes.now result }
    ensures within { result ≤ length votes.now }
{
    if is_above(votes, server) {
        return votes.len();
    }
    votes.partition_point(|vote| vote.server < server)
}

/// Whether the vote at the place is the server's.
fn stands_at(votes: &[Vote], server: u64, place: usize) -> bool
    ensures value { result ≡ option_map_or (is_of_server server) (slice_get votes.now place) false }
    ensures within { IsTrue result → place < length votes.now }
{
    match votes.get(place) {
        Some(vote) => vote.server == server,
        None => false,
    }
}

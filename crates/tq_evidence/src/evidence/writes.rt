//! Rule 4: each vote's writes are those of the write ops that have its server.

ghost use Rattle.std.specs.{Prelude.{◌≡◌, IfOk, filter, map, true}, List.list_all};
ghost use Rattle.tq_evidence.specs.Evidence as spec;

use crate::evidence::servers::finds_server;
use crate::{Op, Vote};
use std::alloc::Global;
use tq_shape::Memory;
use tq_store::Write;

pub(crate) fn have_writes(alloc: Global, ops: &[Op], votes: &[Vote]) -> Result<bool, Memory>
    requires { spec.are_in_order ops.now ≡ true }
    ensures { IfOk result (λ holds. holds ≡ spec.have_writes ops.now votes.now) }
{
    let writes = writes_by_file(alloc, ops)?;
    Ok(are_voted(writes.as_slice(), votes))
}

/// Whether each vote has the writes of its server.
fn are_voted(writes: &[&Op], votes: &[Vote]) -> bool
    requires { spec.are_in_order (map (λ op. op.now) writes.now) ≡ true }
    ensures { result ≡ list_all (spec.has_writes (map (λ op. op.now) writes.now)) votes.now }
{
    match votes {
        [] => true,
        [vote, ..] => has_writes(writes, vote) && are_voted(writes, &votes[1..]),
    }
}

/// The write ops, ascending by file; those of one file stay in their order.
fn writes_by_file<'a>(alloc: Global, ops: &'a [Op]) -> Result<Vec<&'a Op>, Memory>
    ensures { IfOk result
        (λ writes. map (λ op. op.now) writes.items ≡ spec.writes_by_file ops.now) }
{
    let mut writes = write_ops(alloc, ops)?;
    writes.sort_by_key(|op| op.file)?;
    Ok(writes)
}

/// The write ops, in their order.
fn write_ops<'a>(alloc: Global, ops: &'a [Op]) -> Result<Vec<&'a Op>, Memory>
    ensures { IfOk result
        (λ writes. map (λ op. op.now) writes.items ≡ filter spec.is_write ops.now) }
{
    let mut writes = Vec::new(alloc);
    for op in ops {
        if op.is_write() {
            writes.push(op)?;
        }
    }
    Ok(writes)
}

fn has_writes(writes: &[&Op], vote: &Vote) -> bool
    requires { spec.are_in_order (map (λ op. op.now) writes.now) ≡ true }
    ensures { result ≡ spec.has_writes (map (λ op. op.now) writes.now) vote.now }
{
    are_writes_at(vote.server, vote.writes.as_slice(), writes)
}

fn are_writes_at(server: u64, voted: &[Write], writes: &[&Op]) -> bool
    requires { spec.are_in_order (map (λ op. op.now) writes.now) ≡ true }
    ensures { result ≡ spec.are_writes_at server voted.now (map (λ op. op.now) writes.now) }
{
    match writes {
        [] => voted.is_empty(),
        [op, ..] => {
            if !finds_server(op, server) {
                return are_writes_at(server, voted, &writes[1..]);
            }
            match voted {
                [] => false,
                [write, ..] => op.makes(write) && are_writes_at(server, &voted[1..], &writes[1..]),
            }
        }
    }
}

//! Rule 3: the votes strictly ascend by server, are of the servers of the ops, and cover the grants.

ghost use Rattle.std.specs.Prelude.{◌≡◌, IfOk, true};
ghost use Rattle.tq_evidence.specs.Evidence as spec;

use crate::evidence::listed::Listed;
use crate::evidence::servers::is_server_of;
use crate::{Grant, Op, Vote};
use std::alloc::Global;
use tq_shape::Memory;
use tq_store::FileName;

pub(crate) fn are_covered(alloc: Global, ops: &[Op], votes: &[Vote]) -> Result<bool, Memory>
    requires { spec.are_in_order ops.now ≡ true }
    ensures { IfOk result (λ holds. holds ≡ spec.are_covered ops.now votes.now) }
{
    if !votes_rise(votes) {
        return Ok(false);
    }
    if !are_of_servers(ops, votes) {
        return Ok(false);
    }
    let lists = listed_votes(alloc, votes)?;
    Ok(are_grants_covered(ops, lists.as_slice()))
}

fn votes_rise(votes: &[Vote]) -> bool
    ensures { result ≡ spec.votes_rise votes.now }
{
    match votes {
        [] => true,
        [_] => true,
        [first, second, ..] => first.server < second.server && votes_rise(&votes[1..]),
    }
}

fn are_of_servers(ops: &[Op], votes: &[Vote]) -> bool
    requires { spec.are_in_order ops.now ≡ true }
    ensures { result ≡ spec.are_of_servers ops.now votes.now }
{
    match votes {
        [] => true,
        [vote, ..] => is_server_of(ops, vote.server) && are_of_servers(ops, &votes[1..]),
    }
}

fn listed_votes<'a>(alloc: Global, votes: &'a [Vote]) -> Result<Vec<Listed<'a>>, Memory>
    ensures { IfOk result (λ lists. lists.items ≡ votes.now) }
{
    let mut lists = Vec::with_capacity(alloc, votes.len())?;
    for vote in votes {
        let list = Listed::of(alloc, vote)?;
        lists.push(list)?;
    }
    Ok(lists)
}

fn are_grants_covered(ops: &[Op], lists: &[Listed<'_>]) -> bool
    ensures { result ≡ spec.are_walked lists.now ops.now }
{
    match ops {
        [] => true,
        [op, ..] => is_covered(op, lists) && are_grants_covered(&ops[1..], lists),
    }
}

fn is_covered(op: &Op, lists: &[Listed<'_>]) -> bool
    ensures { result ≡ spec.is_walked lists.now op.now }
{
    let grants = op.grants.as_slice();
    are_covered_in_order(&op.file, lists, grants)
}

/// Whether the votes cover the grants, in one walk through both, which ascend by server.
fn are_covered_in_order(file: &FileName, lists: &[Listed<'_>], grants: &[Grant]) -> bool
    ensures { result ≡ spec.walk file.now lists.now grants.now }
{
    match lists {
        [] => grants.is_empty(),
        [list, ..] => match grants {
            [] => true,
            [grant, ..] => {
                if list.server() < grant.server {
                    return are_covered_in_order(file, &lists[1..], grants);
                }
                list.covers(*file, grant) && are_covered_in_order(file, &lists[1..], &grants[1..])
            }
        },
    }
}

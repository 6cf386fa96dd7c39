//! Rule 1: each op's servers strictly ascend and are a quorum. Rule 2: each grant of a write is exclusive.

ghost use Rattle.std.specs.Prelude.{◌≡◌, IfOk};
ghost use Rattle.tq_evidence.specs.Evidence as spec;

use crate::{Grant, Op, granters, rises};
use std::alloc::Global;
use tq_coterie::is_quorum;
use tq_locks::Mode;
use tq_shape::{Levels, Memory};

pub(crate) fn are_quorums(alloc: Global, levels: Levels, ops: &[Op]) -> Result<bool, Memory>
    ensures { IfOk result (λ holds. holds ≡ spec.are_quorums levels ops.now) }
{
    for op in ops {
        if !has_quorum(alloc, levels, op)? {
            return Ok(false);
        }
    }
    Ok(true)
}

fn has_quorum(alloc: Global, levels: Levels, op: &Op) -> Result<bool, Memory>
    ensures { IfOk result (λ holds. holds ≡ spec.has_quorum levels op.now) }
{
    let servers = granters(alloc, op.grants.as_slice())?;
    Ok(rises(servers.as_slice()) && is_quorum(levels, servers.as_slice()))
}

pub(crate) fn are_exclusive(ops: &[Op]) -> bool
    ensures { result ≡ spec.are_exclusive ops.now }
{
    ops.iter().all(|op| has_exclusive_grants(op))
}

fn has_exclusive_grants(op: &Op) -> bool
    ensures { result ≡ spec.has_exclusive_grants op.now }
{
    !op.is_write() || is_exclusively_granted(op.grants.as_slice())
}

fn is_exclusively_granted(grants: &[Grant]) -> bool
    ensures { result ≡ spec.is_exclusively_granted grants.now }
{
    grants.iter().all(|grant| grant.mode == Mode::Exclusive)
}

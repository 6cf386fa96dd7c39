//! What a vote lists, and what it may write.
ghost use Rattle.std.specs.Prelude.{◌≡◌, IfOk};
ghost use Rattle.tq_node.specs.Records as spec;
ghost use Rattle.tq_node.specs.Telling.{all_held};

use crate::{HeldLock, MOST_WRITES};
use std::alloc::Global;
use tq_intents::{LockVersions, VoteLocks};
use tq_locks::{HeldLocks, LockTable, Mode};
use tq_shape::{Memory, SharedSeq};
use tq_store::Write;

/// The locks of a transaction, as a vote lists them and as it keeps them: both share one list.
#[inline(always)]
pub(crate) fn locks_of(
    alloc: Global,
    table: &LockTable,
    txn: u64,
) -> Result<(SharedSeq<HeldLock>, VoteLocks), Memory>
    ensures held { IfOk result (λ locks. locks.0 ≡ spec.held_locks_of table.now.locks txn) }
    ensures kept { IfOk result (λ locks. locks.1 ≡ spec.kept_locks_of table.now.locks txn) }
{
    let locks = table.locks_of(txn);
    let count = locks.most();
    let mut held = Vec::with_capacity(alloc, count)?;
    let mut versions = LockVersions::with_capacity(alloc, count)?;
    for entry in locks {
        held.push_reserved(HeldLock {
            file: entry.file,
            mode: entry.lock.mode,
            since: entry.lock.since,
        });
        versions.push_reserved(entry.lock.version);
    }
    let held = SharedSeq::from_vec(held)?;
    let kept = VoteLocks::new(held.clone()?, versions);
    Ok((held, kept))
}

/// Whether the walk comes to an exclusive lock on the file of each write, one write after the other.
pub(crate) fn all_held(held: HeldLocks<'_>, writes: &[Write]) -> bool
    ensures { result ≡ all_held held.entry writes.now }
{
    let mut left = writes;
    for entry in held {
        let Some((write, rest)) = left.split_first() else {
            return true;
        };
        if entry.file == write.file {
            if entry.lock.mode == Mode::Shared {
                return false;
            }
            left = rest;
        }
    }
    left.is_empty()
}

/// Whether the files of the writes rise.
fn files_rise(writes: &[Write]) -> bool
    ensures { result ≡ spec.files_rise writes.now }
{
    match writes {
        [] => true,
        [_] => true,
        [first, second, ..] => { first.file.cmp(&second.file).is_lt() && files_rise(&writes[1..]) }
    }
}

/// Whether there are not too many writes, and their files rise.
pub(crate) fn are_good_writes(writes: &[Write]) -> bool
    ensures { result ≡ spec.are_good_writes writes.now }
{
    writes.len() <= MOST_WRITES && files_rise(writes)
}

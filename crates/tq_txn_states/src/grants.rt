//! Grants, from the answers that tell of them.

ghost use Rattle.std.specs.Prelude.{◌≡◌, ◌+◌, ◌==◌, IfOk, IfErr, None, OnOk, Some, map};
ghost use Rattle.tq_shape.specs.Journal.{refuse_for};
ghost use Rattle.tq_txn_states.specs.Open as spec;

use crate::{NodeTold, TxnFault};
use std::alloc::Global;
use tq_asks::{NodeAsk, NodeReply, WorkAsk};
use tq_desk::{Grant, OpKind};
use tq_evidence::newest;
use tq_locks::Mode;
use tq_shape::Memory;
use tq_store::{Content, FileCopy, FileName};

/// The grants that the answers tell of: locks of the transaction on the file, of a mode that fits.
pub(crate) fn grants_of(
    alloc: Global,
    kind: OpKind,
    txn: u64,
    file: &FileName,
    answers: &[NodeTold],
) -> Result<Vec<Grant>, TxnFault>
    ensures granted { OnOk result (spec.not_a_grant kind txn file.now answers.now ≡ None) }
    ensures value { IfOk result (λ all. all.items ≡ spec.grants_of kind txn file.now answers.now) }
    ensures fault { IfErr result (spec.ComesOf
        (refuse_for (spec.not_a_grant kind txn file.now answers.now) TxnFault.NotAGrant None)) }
{
    let mut grants = Vec::with_capacity(alloc, answers.len())?;
    for told in answers {
        match grant_of(kind, txn, file, told)? {
            Some(grant) => grants.push_reserved(grant),
            None => return Err(TxnFault::NotAGrant {
                server: told.server,
            }),
        }
    }
    Ok(grants)
}

/// The grant that an answer tells of.
#[inline(always)]
fn grant_of(
    kind: OpKind,
    txn: u64,
    file: &FileName,
    told: &NodeTold,
) -> Result<Option<Grant>, Memory>
    ensures { IfOk result (λ grant. grant ≡ spec.grant_of kind txn file.now told.now) }
{
    let NodeAsk::Work(work) = &told.ask else {
        return Ok(None);
    };
    let WorkAsk::Lock {
        txn: locker,
        file: locked,
        mode,
    } = work.get()
    else {
        return Ok(None);
    };
    let NodeReply::Granted { version, content } = &told.reply else {
        return Ok(None);
    };
    if *locker == txn && *locked == *file && fits(kind, *mode) {
        let content = content.clone()?;
        return Ok(Some(Grant {
            server: told.server,
            number: told.number,
            mode: *mode,
            version: *version,
            content,
        }));
    }
    Ok(None)
}

/// A read rests on locks of either mode, a write on exclusive ones.
fn fits(kind: OpKind, mode: Mode) -> bool
    ensures { result ≡ spec.fits kind mode }
{
    match kind {
        OpKind::Read => true,
        OpKind::Write => mode == Mode::Exclusive,
    }
}

/// The copy of the first grant of the greatest version.
pub(crate) fn read_copy(grants: &[Grant]) -> Result<FileCopy, Memory>
    ensures { IfOk result (λ copy. copy ≡ spec.read_copy grants.now) }
{
    match newest(grants) {
        Some(grant) => Ok(FileCopy {
            version: grant.version,
            content: grant.content.clone()?,
        }),
        None => Ok(FileCopy {
            version: 0,
            content: Content::empty(),
        }),
    }
}

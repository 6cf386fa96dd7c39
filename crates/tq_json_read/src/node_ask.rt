//! Asks of servers.

ghost use Rattle.std.specs.Prelude.{◌≡◌, refl, IfOk};
ghost use Rattle.tq_json_read.specs.Slots.{made_by};
ghost use Rattle.tq_json_read.specs.Nodes as spec;

use crate::entry::Plan;
use crate::object::take_object;
use crate::parts::{FromReader, Taken};
use crate::scalars::Word;
use std::alloc::Global;
use tq_asks::{CitedVote, NodeAsk, Verdict, WorkAsk};
use tq_json::Reader;
use tq_locks::Mode;
use tq_shape::{Memory, Shared, SharedSeq};
use tq_store::{Content, FileName, Write};

/// What stands in work, but for its kind.
#[derive(Drop)]
struct WorkMembers {
    cite: Option<u64>,
    content: Option<Content>,
    file: Option<FileName>,
    from: Option<CitedVote>,
    mode: Option<Mode>,
    txn: Option<u64>,
    verdict: Option<Verdict>,
    version: Option<u64>,
    writes: Option<SharedSeq<Write>>,
}

const WORK_ASK_NAMES: &[&str] = &[
    "cite", "content", "file", "from", "is", "mode", "txn", "verdict", "version", "writes",
];

impl<'a> FromReader<'a> for WorkAsk {
    ghost at = { λ plan. made_by (spec.work_at plan.format) };

    ghost none = { λ plan. refl };

    fn read(alloc: Global, plan: &Plan, reader: &mut Reader<'a>, depth: usize) -> Taken<WorkAsk> {
        let (cite, (content, (file, (from, (kind, rest))))) = take_object(
            alloc,
            plan,
            WORK_ASK_NAMES,
            reader,
            depth,
        )?;
        let (mode, (txn, (verdict, (version, (writes, ()))))) = rest;
        let members = WorkMembers {
            cite,
            content,
            file,
            from,
            mode,
            txn,
            verdict,
            version,
            writes,
        };
        Ok(work_by(alloc, kind, members)?)
    }
}

/// Work on the heap: so there is no room for a whole one beside the members of an ask, which seldom has one.
impl<'a> FromReader<'a> for Shared<WorkAsk> {
    ghost at = { λ plan. made_by (spec.work_at plan.format) };

    ghost none = { λ plan. refl };

    fn read(
        alloc: Global,
        plan: &Plan,
        reader: &mut Reader<'a>,
        depth: usize,
    ) -> Taken<Shared<WorkAsk>> {
        match WorkAsk::read(alloc, plan, reader, depth)? {
            Some(ask) => Ok(Some(Shared::new(alloc, ask)?)),
            None => Ok(None),
        }
    }
}

const NODE_ASK_NAMES: &[&str] = &[
    "after", "ask", "cite", "content", "file", "from", "is", "mode", "txn", "verdict", "version",
    "writes",
];

impl<'a> FromReader<'a> for NodeAsk {
    ghost at = { λ plan. made_by (spec.node_ask plan.format) };

    ghost none = { λ plan. refl };

    fn read(alloc: Global, plan: &Plan, reader: &mut Reader<'a>, depth: usize) -> Taken<NodeAsk> {
        let (after, (inside, (cite, (content, (file, (from, rest)))))) = take_object(
            alloc,
            plan,
            NODE_ASK_NAMES,
            reader,
            depth,
        )?;
        let (kind, (mode, (txn, (verdict, (version, (writes, ())))))) = rest;
        let members = WorkMembers {
            cite,
            content,
            file,
            from,
            mode,
            txn,
            verdict,
            version,
            writes,
        };
        Ok(node_by(alloc, kind, after, inside, members)?)
    }
}

#[inline(always)]
fn work_by(
    alloc: Global,
    kind: Option<Word<'_>>,
    members: WorkMembers,
) -> Result<Option<WorkAsk>, Memory>
    ensures { IfOk result (λ ask. ask ≡ spec.work_by kind.entry members) }
{
    let Some(kind) = kind else {
        return Ok(None);
    };
    if kind.is("refresh") {
        return refresh(alloc, members);
    }
    Ok(small_work(kind, members))
}

/// An ask of a kind that takes no memory.
#[inline(always)]
fn small_work(kind: Word<'_>, members: WorkMembers) -> Option<WorkAsk>
    ensures { result ≡ spec.small_work kind.entry members }
{
    if kind.is("lock") {
        return lock(members);
    }
    if kind.is("prepare") {
        return prepare(members);
    }
    if kind.is("decide") {
        return decide(members);
    }
    if kind.is("release") {
        let txn = members.txn?;
        return Some(WorkAsk::Release { txn });
    }
    if kind.is("peek") {
        let file = members.file?;
        return Some(WorkAsk::Peek { file });
    }
    None
}

#[inline(always)]
fn lock(members: WorkMembers) -> Option<WorkAsk>
    ensures { result ≡ spec.lock members }
{
    let WorkMembers {
        file,
        mode,
        txn,
        ..
    } = members;
    let file = file?;
    let mode = mode?;
    let txn = txn?;
    Some(WorkAsk::Lock { txn, file, mode })
}

#[inline(always)]
fn prepare(members: WorkMembers) -> Option<WorkAsk>
    ensures { result ≡ spec.prepare members }
{
    let WorkMembers { txn, writes, .. } = members;
    let txn = txn?;
    let writes = writes?;
    Some(WorkAsk::Prepare { txn, writes })
}

#[inline(always)]
fn decide(members: WorkMembers) -> Option<WorkAsk>
    ensures { result ≡ spec.decide members }
{
    let WorkMembers {
        cite,
        txn,
        verdict,
        ..
    } = members;
    let cite = cite?;
    let txn = txn?;
    let verdict = verdict?;
    Some(WorkAsk::Decide { txn, verdict, cite })
}

#[inline(always)]
fn refresh(alloc: Global, members: WorkMembers) -> Result<Option<WorkAsk>, Memory>
    ensures { IfOk result (λ ask. ask ≡ spec.refresh members) }
{
    let WorkMembers {
        content,
        file,
        from,
        version,
        ..
    } = members;
    let Some(file) = file else {
        return Ok(None);
    };
    let Some(from) = from else {
        return Ok(None);
    };
    let Some(version) = version else {
        return Ok(None);
    };
    let Some(content) = content else {
        return Ok(None);
    };
    let file = Shared::new(alloc, file)?;
    let content = Shared::new(alloc, content)?;
    Ok(Some(WorkAsk::Refresh {
        file,
        version,
        content,
        from,
    }))
}

#[inline(always)]
fn node_by(
    alloc: Global,
    kind: Option<Word<'_>>,
    after: Option<u64>,
    inside: Option<Shared<WorkAsk>>,
    members: WorkMembers,
) -> Result<Option<NodeAsk>, Memory>
    ensures { IfOk result (λ ask. ask ≡ spec.node_by kind.entry after inside members) }
{
    let Some(kind) = kind else {
        return Ok(None);
    };
    if kind.is("crash") {
        return Ok(Some(NodeAsk::Crash));
    }
    if kind.is("return") {
        return Ok(Some(NodeAsk::Return));
    }
    if kind.is("crashin") {
        return Ok(stop(after, inside));
    }
    work(alloc, Some(kind), members)
}

/// A stop: in which work, and behind how many of its records.
fn stop(after: Option<u64>, inside: Option<Shared<WorkAsk>>) -> Option<NodeAsk>
    ensures { result ≡ spec.stop after inside }
{
    let after = count_of(after)?;
    let ask = inside?;
    Some(NodeAsk::CrashIn { ask, after })
}

/// Behind how many records a server stops: a number of 32 bits.
fn count_of(after: Option<u64>) -> Option<u32>
    ensures { result ≡ spec.count_of after }
{
    let after = after?;
    if after > u32::MAX as u64 {
        return None;
    }
    Some(after as u32)
}

#[inline(always)]
fn work(
    alloc: Global,
    kind: Option<Word<'_>>,
    members: WorkMembers,
) -> Result<Option<NodeAsk>, Memory>
    ensures { IfOk result (λ ask. ask ≡ spec.work kind.entry members) }
{
    let Some(ask) = work_by(alloc, kind, members)? else {
        return Ok(None);
    };
    let ask = Shared::new(alloc, ask)?;
    Ok(Some(NodeAsk::Work(ask)))
}

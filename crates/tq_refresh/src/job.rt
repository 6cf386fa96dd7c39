//! One stale copy, and where it is mended from.

ghost use Rattle.std.specs.Prelude.{◌≡◌, IfOk, Ok, None, Some};
ghost use Rattle.tq_refresh.specs.Plan as spec;
ghost use Rattle.tq_refresh.specs.Plan.{refresh_of};

use std::alloc::Global;
use tq_asks::{CitedVote, NodeAsk, NodeReply, WorkAsk};
use tq_shape::{Memory, ServerId, Shared};
use tq_store::{Content, FileName};

/// A stale copy that a refresh is to mend.
#[derive(Clone, Copy, Debug, PartialEq)]
pub struct Job {
    pub file: FileName,
    /// The server whose copy is stale.
    pub server: ServerId,
    /// The server whose copy is to be taken.
    pub source: ServerId,
}

/// What the job's source is asked: its copy of the job's file. Answers an error only where memory is refused.
pub fn peek_ask(alloc: Global, job: &Job) -> Result<NodeAsk, Memory>
    ensures { IfOk result (λ ask. ask ≡ NodeAsk.Work (WorkAsk.Peek job.now.file)) }
{
    peek_of(alloc, job.file)
}

/// An ask for a server's copy of the file.
pub(crate) fn peek_of(alloc: Global, file: FileName) -> Result<NodeAsk, Memory>
    ensures { IfOk result (λ ask. ask ≡ spec.peek_of file) }
{
    let peek = WorkAsk::Peek { file };
    Ok(NodeAsk::Work(Shared::new(alloc, peek)?))
}

/// What the job's server is asked after the source has answered with the entry of that number: to take the copy that
/// the source told, citing that entry. There is nothing to ask where the source told no copy, and that takes no memory.
#[inline(always)]
pub fn copy_ask(
    alloc: Global,
    job: &Job,
    number: u64,
    reply: &NodeReply,
) -> Result<Option<NodeAsk>, Memory>
    ensures value { IfOk result (λ ask. ask ≡ refresh_of job.now number reply.now) }
    ensures nothing { refresh_of job.now number reply.now ≡ None → result ≡ Ok None }
{
    let NodeReply::Copy { version, content } = reply else {
        return Ok(None);
    };
    let file = Shared::new(alloc, job.file)?;
    let content = Shared::new(alloc, content.clone()?)?;
    let ask = taking_ask(alloc, job, number, *version, file, content)?;
    Ok(Some(ask))
}

/// What `copy_ask` answers, of a reply that is handed in: its content goes into the ask with no clone. Asks that offer
/// one copy share its file and, where it is what was `seen` last, its content.
#[inline(always)]
pub fn copy_ask_of(
    alloc: Global,
    job: &Job,
    number: u64,
    reply: NodeReply,
    file: &Shared<FileName>,
    seen: &mut Option<Shared<Content>>,
) -> Result<Option<NodeAsk>, Memory>
    requires { file.now ≡ job.now.file }
    ensures value { IfOk result (λ ask. ask ≡ refresh_of job.now number reply) }
    ensures nothing { refresh_of job.now number reply ≡ None → result ≡ Ok None }
{
    let NodeReply::Copy { version, content } = reply else {
        return Ok(None);
    };
    let content = offered(alloc, content, seen)?;
    let ask = taking_ask(alloc, job, number, version, file.clone()?, content)?;
    Ok(Some(ask))
}

/// What the job's server is asked: to take this content at that version, which the source's entry of that number told.
#[inline(always)]
fn taking_ask(
    alloc: Global,
    job: &Job,
    number: u64,
    version: u64,
    file: Shared<FileName>,
    content: Shared<Content>,
) -> Result<NodeAsk, Memory>
    requires { file ≡ job.now.file }
    ensures { IfOk result (λ ask.
        Some ask ≡ refresh_of job.now number (NodeReply.Copy version content)) }
{
    let from = CitedVote {
        server: job.source.number(),
        number,
    };
    let refresh = WorkAsk::Refresh {
        file,
        version,
        content,
        from,
    };
    Ok(NodeAsk::Work(Shared::new(alloc, refresh)?))
}

/// The content, which asks that offer it share: that of the ask before, where it is the same.
#[inline(always)]
fn offered(
    alloc: Global,
    content: Content,
    seen: &mut Option<Shared<Content>>,
) -> Result<Shared<Content>, Memory>
    ensures { IfOk result (λ offered. offered ≡ content) }
{
    if let Some(before) = &*seen {
        if *before.get() == content {
            return Ok(before.clone()?);
        }
    }
    let offered = Shared::new(alloc, content)?;
    *seen = Some(offered.clone()?);
    Ok(offered)
}

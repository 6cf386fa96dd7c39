//! Replies of servers.

ghost use Rattle.std.specs.Prelude.{◌≡◌, refl, IfOk};
ghost use Rattle.tq_json_read.specs.Slots.{made_by};
ghost use Rattle.tq_json_read.specs.Nodes as spec;

use crate::entry::Plan;
use crate::object::take_object;
use crate::parts::{FromReader, Taken};
use crate::scalars::Word;
use std::alloc::Global;
use tq_asks::{HeldLock, NodeRefusal, NodeReply};
use tq_json::Reader;
use tq_shape::{Memory, SharedSeq};
use tq_store::{Content, FileName, Write};

/// What stands in a reply of a server, but for its kind.
#[derive(Drop)]
struct ReplyMembers {
    by: Option<u64>,
    code: Option<u64>,
    content: Option<Content>,
    file: Option<FileName>,
    held: Option<SharedSeq<HeldLock>>,
    version: Option<u64>,
    writes: Option<SharedSeq<Write>>,
}

const NODE_REPLY_NAMES: &[&str] = &[
    "by", "code", "content", "file", "held", "is", "version", "writes",
];

impl<'a> FromReader<'a> for NodeReply {
    ghost at = { λ plan. made_by (spec.node_reply plan.format) };

    ghost none = { λ plan. refl };

    fn read(alloc: Global, plan: &Plan, reader: &mut Reader<'a>, depth: usize) -> Taken<NodeReply> {
        let (by, (code, (content, (file, (held, (kind, (version, (writes, ())))))))) = take_object(
            alloc,
            plan,
            NODE_REPLY_NAMES,
            reader,
            depth,
        )?;
        let members = ReplyMembers {
            by,
            code,
            content,
            file,
            held,
            version,
            writes,
        };
        Ok(reply_by(alloc, kind, members)?)
    }
}

fn reply_by(
    alloc: Global,
    kind: Option<Word<'_>>,
    members: ReplyMembers,
) -> Result<Option<NodeReply>, Memory>
    ensures { IfOk result (λ reply. reply ≡ spec.reply_by kind.entry members) }
{
    let Some(kind) = kind else {
        return Ok(None);
    };
    if kind.is("granted") {
        return Ok(granted_reply(members.version, members.content));
    }
    if kind.is("yes") {
        return Ok(yes_vote(members.held, members.writes));
    }
    if kind.is("copy") {
        return Ok(copy(members.version, members.content));
    }
    if kind.is("refused") {
        return refused_reply(alloc, members.code, members.by, members.file);
    }
    Ok(bare_reply(&kind))
}

/// The replies without further members.
fn bare_reply(kind: &Word<'_>) -> Option<NodeReply>
    ensures { result ≡ spec.bare_reply kind.now }
{
    if kind.is("installed") {
        return Some(NodeReply::Installed);
    }
    if kind.is("discarded") {
        return Some(NodeReply::Discarded);
    }
    if kind.is("released") {
        return Some(NodeReply::Released);
    }
    if kind.is("refreshed") {
        return Some(NodeReply::Refreshed);
    }
    if kind.is("crashed") {
        return Some(NodeReply::Crashed);
    }
    if kind.is("returned") {
        return Some(NodeReply::Returned);
    }
    None
}

fn granted_reply(version: Option<u64>, content: Option<Content>) -> Option<NodeReply>
    ensures { result ≡ spec.granted_reply version content }
{
    let version = version?;
    let content = content?;
    Some(NodeReply::Granted { version, content })
}

fn copy(version: Option<u64>, content: Option<Content>) -> Option<NodeReply>
    ensures { result ≡ spec.copy version content }
{
    let version = version?;
    let content = content?;
    Some(NodeReply::Copy { version, content })
}

fn yes_vote(
    held: Option<SharedSeq<HeldLock>>,
    writes: Option<SharedSeq<Write>>,
) -> Option<NodeReply>
    ensures { result ≡ spec.yes_vote held writes }
{
    let held = held?;
    let writes = writes?;
    Some(NodeReply::Yes { held, writes })
}

fn refused_reply(
    alloc: Global,
    code: Option<u64>,
    by: Option<u64>,
    file: Option<FileName>,
) -> Result<Option<NodeReply>, Memory>
    ensures { IfOk result (λ reply. reply ≡ spec.refused code by file) }
{
    let Some(refusal) = refusal(code, by, file) else {
        return Ok(None);
    };
    let refused = NodeReply::of_refusal(alloc, refusal)?;
    Ok(Some(refused))
}

fn refusal(code: Option<u64>, by: Option<u64>, file: Option<FileName>) -> Option<NodeRefusal>
    ensures { result ≡ spec.refusal code by file }
{
    let code = code?;
    if code == 14 {
        let by = by?;
        return Some(NodeRefusal::Held { by });
    }
    if code == 16 {
        let file = file?;
        return Some(NodeRefusal::NotLocked { file });
    }
    code_refusal(code)
}

/// The refusals that tell no more than their code.
fn code_refusal(code: u64) -> Option<NodeRefusal>
    ensures { result ≡ spec.code_refusal code }
{
    match code {
        11 => Some(NodeRefusal::Down),
        12 => Some(NodeRefusal::AlreadyUp),
        13 => Some(NodeRefusal::AlreadyDown),
        15 => Some(NodeRefusal::Prepared),
        17 => Some(NodeRefusal::BadWrites),
        18 => Some(NodeRefusal::NotNewer),
        19 => Some(NodeRefusal::NothingHere),
        _ => None,
    }
}

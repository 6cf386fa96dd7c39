//! What servers are asked and what they reply.
ghost use Rattle.std.specs.Prelude.{◌≤◌, OnOk};
ghost use Rattle.serde_json.specs.Written.{compact_text};
ghost use Rattle.tq_asks.specs.declared.ask.NodeAsk.{NodeAsk};
ghost use Rattle.tq_board.specs.{Nodes.node_ask_value, Values.IsFitting, Sound.IsWork, Lines.Adds};

use crate::codes;
use crate::out::Out;
use crate::to_json::{ToJson, put_code};
use tq_asks::{CitedVote, HeldLock, NodeAsk, NodeRefusal, NodeReply, Verdict, WorkAsk};
use tq_store::Write;

impl ToJson for CitedVote {
    ghost use Rattle.tq_board.specs.{Nodes.cited_value, Sound.IsAny};

    ghost value = { cited_value };

    ghost sound = { IsAny };

    fn put<O: Out>(&self, out: &mut O) -> Result<(), O::Fault> {
        self.number.put_after(out, "{\"number\":")?;
        self.server.put_after(out, ",\"server\":")?;
        out.push("}")
    }
}

impl ToJson for Write {
    ghost use Rattle.tq_board.specs.{Nodes.write_value, Sound.IsWrite};

    ghost value = { write_value };

    ghost sound = { IsWrite };

    fn put<O: Out>(&self, out: &mut O) -> Result<(), O::Fault> {
        self.content.put_after(out, "{\"content\":")?;
        self.file.put_after(out, ",\"file\":")?;
        self.version.put_after(out, ",\"version\":")?;
        out.push("}")
    }
}

impl ToJson for HeldLock {
    ghost use Rattle.tq_board.specs.{Nodes.held_value, Sound.IsHeldLock};

    ghost value = { held_value };

    ghost sound = { IsHeldLock };

    fn put<O: Out>(&self, out: &mut O) -> Result<(), O::Fault> {
        self.file.put_after(out, "{\"file\":")?;
        self.mode.put_after(out, ",\"mode\":")?;
        self.since.put_after(out, ",\"since\":")?;
        out.push("}")
    }
}

impl ToJson for Verdict {
    ghost use Rattle.tq_board.specs.{Nodes.verdict_value, Sound.IsAny};

    ghost value = { verdict_value };

    ghost sound = { IsAny };

    fn put<O: Out>(&self, out: &mut O) -> Result<(), O::Fault> {
        match self {
            Verdict::Abort => out.push("{\"is\":\"abort\"}"),
            Verdict::Commit { votes } => {
                votes.put_after(out, "{\"is\":\"commit\",\"votes\":")?;
                out.push("}")
            }
        }
    }
}

impl ToJson for WorkAsk {
    ghost use Rattle.tq_board.specs.{Nodes.work_value, Sound.IsWork};

    ghost value = { work_value };

    ghost sound = { IsWork };

    fn put<O: Out>(&self, out: &mut O) -> Result<(), O::Fault> {
        match self {
            WorkAsk::Lock { txn, file, mode } => {
                file.put_after(out, "{\"file\":")?;
                mode.put_after(out, ",\"is\":\"lock\",\"mode\":")?;
                txn.put_after(out, ",\"txn\":")?;
                out.push("}")
            }
            WorkAsk::Prepare { txn, writes } => {
                txn.put_after(out, "{\"is\":\"prepare\",\"txn\":")?;
                writes.put_after(out, ",\"writes\":")?;
                out.push("}")
            }
            WorkAsk::Decide { txn, verdict, cite } => {
                cite.put_after(out, "{\"cite\":")?;
                txn.put_after(out, ",\"is\":\"decide\",\"txn\":")?;
                verdict.put_after(out, ",\"verdict\":")?;
                out.push("}")
            }
            WorkAsk::Release { txn } => {
                txn.put_after(out, "{\"is\":\"release\",\"txn\":")?;
                out.push("}")
            }
            WorkAsk::Peek { file } => {
                file.put_after(out, "{\"file\":")?;
                out.push(",\"is\":\"peek\"}")
            }
            WorkAsk::Refresh {
                file,
                version,
                content,
                from,
            } => {
                content.put_after(out, "{\"content\":")?;
                file.put_after(out, ",\"file\":")?;
                from.put_after(out, ",\"from\":")?;
                version.put_after(out, ",\"is\":\"refresh\",\"version\":")?;
                out.push("}")
            }
        }
    }
}

impl ToJson for NodeAsk {
    ghost use Rattle.tq_board.specs.{Nodes.node_ask_value, Sound.IsNodeAsk};

    ghost value = { node_ask_value };

    ghost sound = { IsNodeAsk };

    fn put<O: Out>(&self, out: &mut O) -> Result<(), O::Fault> {
        match self {
            NodeAsk::Work(work) => work.get().put(out),
            NodeAsk::Crash => out.push("{\"is\":\"crash\"}"),
            NodeAsk::Return => out.push("{\"is\":\"return\"}"),
            NodeAsk::CrashIn { ask, after } => put_stop(out, ask.get(), *after),
        }
    }
}

/// A stop in the midst of work.
fn put_stop<O: Out>(out: &mut O, ask: &WorkAsk, after: u32) -> Result<(), O::Fault>
    ensures adds { Adds O.puts result out.old out.new
        (compact_text (node_ask_value (NodeAsk.CrashIn after ask.now))) }
    ensures fits { OnOk result (IsFitting (node_ask_value (NodeAsk.CrashIn after ask.now))) }
    ensures kept { OnOk result (IsWork ask.now × (after ≤ 4294967295)) }
{
    after.put_after(out, "{\"after\":")?;
    ask.put_after(out, ",\"ask\":")?;
    out.push(",\"is\":\"crashin\"}")
}

impl ToJson for NodeRefusal {
    ghost use Rattle.tq_board.specs.{Nodes.node_refusal_value, Sound.IsNodeRefusal};

    ghost value = { node_refusal_value };

    ghost sound = { IsNodeRefusal };

    fn put<O: Out>(&self, out: &mut O) -> Result<(), O::Fault> {
        match self {
            NodeRefusal::Down => put_code(out, codes::DOWN),
            NodeRefusal::AlreadyUp => put_code(out, codes::ALREADY_UP),
            NodeRefusal::AlreadyDown => put_code(out, codes::ALREADY_DOWN),
            NodeRefusal::Held { by } => {
                by.put_after(out, "{\"by\":")?;
                codes::HELD.put_after(out, ",\"code\":")?;
                out.push(",\"is\":\"refused\"}")
            }
            NodeRefusal::Prepared => put_code(out, codes::PREPARED),
            NodeRefusal::NotLocked { file } => {
                codes::NOT_LOCKED.put_after(out, "{\"code\":")?;
                file.put_after(out, ",\"file\":")?;
                out.push(",\"is\":\"refused\"}")
            }
            NodeRefusal::BadWrites => put_code(out, codes::BAD_WRITES),
            NodeRefusal::NotNewer => put_code(out, codes::NOT_NEWER),
            NodeRefusal::NothingHere => put_code(out, codes::NOTHING_HERE),
        }
    }
}

impl ToJson for NodeReply {
    ghost use Rattle.tq_board.specs.{Nodes.node_reply_value, Sound.IsNodeReply};

    ghost value = { node_reply_value };

    ghost sound = { IsNodeReply };

    fn put<O: Out>(&self, out: &mut O) -> Result<(), O::Fault> {
        match self {
            NodeReply::Granted { version, content } => {
                content.put_after(out, "{\"content\":")?;
                version.put_after(out, ",\"is\":\"granted\",\"version\":")?;
                out.push("}")
            }
            NodeReply::Yes { held, writes } => {
                held.put_after(out, "{\"held\":")?;
                writes.put_after(out, ",\"is\":\"yes\",\"writes\":")?;
                out.push("}")
            }
            NodeReply::Installed => out.push("{\"is\":\"installed\"}"),
            NodeReply::Discarded => out.push("{\"is\":\"discarded\"}"),
            NodeReply::Released => out.push("{\"is\":\"released\"}"),
            NodeReply::Copy { version, content } => {
                content.put_after(out, "{\"content\":")?;
                version.put_after(out, ",\"is\":\"copy\",\"version\":")?;
                out.push("}")
            }
            NodeReply::Refreshed => out.push("{\"is\":\"refreshed\"}"),
            NodeReply::Crashed => out.push("{\"is\":\"crashed\"}"),
            NodeReply::Returned => out.push("{\"is\":\"returned\"}"),
            NodeReply::Refused(refusal) => refusal.get().put(out),
        }
    }
}

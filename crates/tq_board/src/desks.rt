//! What the desk is asked and what it replies.
use crate::codes;
use crate::out::Out;
use crate::to_json::{ToJson, put_code, put_list};
use tq_desk::{Ballot, DeskAsk, DeskRefusal, DeskReply};
use tq_evidence::{Grant, Op, OpKind, Rule, Vote};

impl ToJson for OpKind {
    ghost use Rattle.tq_board.specs.{Form.op_kind_value, Sound.IsAny};

    ghost value = { op_kind_value };

    ghost sound = { IsAny };

    #[tactic(auto, unfolding(json::specs::Print::escape_byte))]
    fn put<O: Out>(&self, out: &mut O) -> Result<(), O::Fault> {
        match self {
            OpKind::Read => out.push("\"read\""),
            OpKind::Write => out.push("\"write\""),
        }
    }
}

impl ToJson for Grant {
    ghost use Rattle.tq_board.specs.{Form.grant_value, Sound.IsGrant};

    ghost value = { grant_value };

    ghost sound = { IsGrant };

    fn put<O: Out>(&self, out: &mut O) -> Result<(), O::Fault> {
        self.content.put_after(out, "{\"content\":")?;
        self.mode.put_after(out, ",\"mode\":")?;
        self.number.put_after(out, ",\"number\":")?;
        self.server.put_after(out, ",\"server\":")?;
        self.version.put_after(out, ",\"version\":")?;
        out.push("}")
    }
}

impl ToJson for Op {
    ghost use Rattle.tq_board.specs.{Form.op_value, Sound.IsOp};

    ghost value = { op_value };

    ghost sound = { IsOp };

    fn put<O: Out>(&self, out: &mut O) -> Result<(), O::Fault> {
        self.content.put_after(out, "{\"content\":")?;
        self.file.put_after(out, ",\"file\":")?;
        self.grants.put_after(out, ",\"grants\":")?;
        self.kind.put_after(out, ",\"kind\":")?;
        self.version.put_after(out, ",\"version\":")?;
        out.push("}")
    }
}

impl ToJson for Vote {
    ghost use Rattle.tq_board.specs.{Form.vote_value, Sound.IsVote};

    ghost value = { vote_value };

    ghost sound = { IsVote };

    fn put<O: Out>(&self, out: &mut O) -> Result<(), O::Fault> {
        self.held.put_after(out, "{\"held\":")?;
        self.number.put_after(out, ",\"number\":")?;
        self.server.put_after(out, ",\"server\":")?;
        self.writes.put_after(out, ",\"writes\":")?;
        out.push("}")
    }
}

impl ToJson for Ballot {
    ghost use Rattle.std.specs.List.{AllByRecursion};
    ghost use Rattle.tq_board.specs.{Form.vote_value, Sound.IsVote, Values.list_value};

    ghost value = { list_value vote_value };

    ghost sound = { AllByRecursion IsVote };

    fn put<O: Out>(&self, out: &mut O) -> Result<(), O::Fault> {
        put_list(out, self.as_slice())
    }
}

impl ToJson for DeskAsk {
    ghost use Rattle.tq_board.specs.{Form.desk_ask_value, Sound.IsDeskAsk};

    ghost value = { desk_ask_value };

    ghost sound = { IsDeskAsk };

    fn put<O: Out>(&self, out: &mut O) -> Result<(), O::Fault> {
        match self {
            DeskAsk::Begin => out.push("{\"is\":\"begin\"}"),
            DeskAsk::Commit { txn, ops, votes } => {
                ops.put_after(out, "{\"is\":\"commit\",\"ops\":")?;
                txn.put_after(out, ",\"txn\":")?;
                votes.put_after(out, ",\"votes\":")?;
                out.push("}")
            }
            DeskAsk::Resolve { txn } => {
                txn.put_after(out, "{\"is\":\"resolve\",\"txn\":")?;
                out.push("}")
            }
        }
    }
}

impl ToJson for Rule {
    ghost use Rattle.tq_board.specs.{Form.rule_value, Sound.IsAny};

    ghost value = { rule_value };

    ghost sound = { IsAny };

    fn put<O: Out>(&self, out: &mut O) -> Result<(), O::Fault> {
        out.push_number("", self.number())
    }
}

impl ToJson for DeskRefusal {
    ghost use Rattle.tq_board.specs.{Form.desk_refusal_value, Sound.IsAny};

    ghost value = { desk_refusal_value };

    ghost sound = { IsAny };

    fn put<O: Out>(&self, out: &mut O) -> Result<(), O::Fault> {
        match self {
            DeskRefusal::NoSuchTxn => put_code(out, codes::NO_SUCH_TXN),
            DeskRefusal::Decided(verdict) => {
                codes::DECIDED.put_after(out, "{\"code\":")?;
                verdict.put_after(out, ",\"is\":\"refused\",\"verdict\":")?;
                out.push("}")
            }
            DeskRefusal::TooManyOps => put_code(out, codes::TOO_MANY_OPS),
            DeskRefusal::BadEvidence { rule } => {
                codes::BAD_EVIDENCE.put_after(out, "{\"code\":")?;
                rule.put_after(out, ",\"is\":\"refused\",\"rule\":")?;
                out.push("}")
            }
            DeskRefusal::TooManyFiles => put_code(out, codes::TOO_MANY_FILES),
        }
    }
}

impl ToJson for DeskReply {
    ghost use Rattle.tq_board.specs.{Form.desk_reply_value, Sound.IsAny};

    ghost value = { desk_reply_value };

    ghost sound = { IsAny };

    fn put<O: Out>(&self, out: &mut O) -> Result<(), O::Fault> {
        match self {
            DeskReply::Txn(txn) => {
                txn.put_after(out, "{\"is\":\"txn\",\"txn\":")?;
                out.push("}")
            }
            DeskReply::Verdict(verdict) => {
                verdict.put_after(out, "{\"is\":\"verdict\",\"verdict\":")?;
                out.push("}")
            }
            DeskReply::Committed { serial } => {
                serial.put_after(out, "{\"is\":\"committed\",\"serial\":")?;
                out.push("}")
            }
            DeskReply::Refused(refusal) => refusal.put(out),
        }
    }
}

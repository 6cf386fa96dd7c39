//! What the view is asked and what it replies.
ghost use Rattle.std.specs.Prelude.{OnOk};
ghost use Rattle.serde_json.specs.Written.{compact_text};
ghost use Rattle.tq_coterie.specs.Coterie.{numbers_of};
ghost use Rattle.tq_board.specs.{Values.{list_value, whole, IsFitting}, Lines.Adds};

use crate::codes;
use crate::out::Out;
use crate::to_json::{ToJson, put_code, put_list};
use tq_coterie::Member;
use tq_live::{ViewAsk, ViewRefusal, ViewReply};
use tq_shape::ServerId;

/// The numbers of the servers.
fn put_servers<O: Out>(out: &mut O, servers: &[ServerId]) -> Result<(), O::Fault>
    ensures adds { Adds O.puts result out.old out.new
        (compact_text (list_value whole (numbers_of servers.now))) }
    ensures fits { OnOk result (IsFitting (list_value whole (numbers_of servers.now))) }
{
    put_list(out, servers)?;
    Ok(())
}

impl<Role> ToJson for Member<Role> {
    ghost use Rattle.tq_board.specs.{Form.servers_value, Sound.IsMember};

    ghost value = { servers_value };

    ghost sound = { IsMember };

    fn put<O: Out>(&self, out: &mut O) -> Result<(), O::Fault> {
        put_servers(out, self.servers())?;
        Ok(())
    }
}

impl ToJson for ViewAsk {
    ghost use Rattle.tq_board.specs.{Form.view_ask_value, Sound.IsAny};

    ghost value = { view_ask_value };

    ghost sound = { IsAny };

    fn put<O: Out>(&self, out: &mut O) -> Result<(), O::Fault> {
        match *self {
            ViewAsk::SetCost {
                server,
                read,
                write,
            } => {
                read.put_after(out, "{\"is\":\"setcost\",\"read\":")?;
                server.put_after(out, ",\"server\":")?;
                write.put_after(out, ",\"write\":")?;
                out.push("}")
            }
            ViewAsk::Mark { server, up } => {
                server.put_after(out, "{\"is\":\"mark\",\"server\":")?;
                up.put_after(out, ",\"up\":")?;
                out.push("}")
            }
            ViewAsk::Choose { purpose } => {
                purpose.put_after(out, "{\"is\":\"choose\",\"purpose\":")?;
                out.push("}")
            }
        }
    }
}

impl ToJson for ViewRefusal {
    ghost use Rattle.tq_board.specs.{Form.view_refusal_value, Sound.IsViewRefusal};

    ghost value = { view_refusal_value };

    ghost sound = { IsViewRefusal };

    fn put<O: Out>(&self, out: &mut O) -> Result<(), O::Fault> {
        match self {
            ViewRefusal::NoSuchServer => put_code(out, codes::NO_SUCH_SERVER),
            ViewRefusal::BadCost => put_code(out, codes::BAD_COST),
            ViewRefusal::Blocked(blocker) => {
                codes::BLOCKED.put_after(out, "{\"code\":")?;
                blocker.put_after(out, ",\"is\":\"refused\",\"servers\":")?;
                out.push("}")
            }
        }
    }
}

impl ToJson for ViewReply {
    ghost use Rattle.tq_board.specs.{Form.view_reply_value, Sound.IsViewReply};

    ghost value = { view_reply_value };

    ghost sound = { IsViewReply };

    fn put<O: Out>(&self, out: &mut O) -> Result<(), O::Fault> {
        match self {
            ViewReply::CostSet => out.push("{\"is\":\"costset\"}"),
            ViewReply::Marked => out.push("{\"is\":\"marked\"}"),
            ViewReply::Chosen { quorum, cost } => {
                cost.put_after(out, "{\"cost\":")?;
                quorum.put_after(out, ",\"is\":\"chosen\",\"servers\":")?;
                out.push("}")
            }
            ViewReply::Refused(refusal) => refusal.put(out),
        }
    }
}

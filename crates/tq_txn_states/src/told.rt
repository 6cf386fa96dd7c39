//! Answers as they were received.

ghost use Rattle.std.specs.Prelude.{◌≡◌, IfOk};

use tq_asks::{NodeAsk, NodeReply};
use tq_desk::{DeskAsk, DeskReply};
use tq_shape::Memory;

/// A server's answer, as it was received: the ask, the reply, and the number of their entry in the server's journal.
#[derive(Drop, Clone)]
pub struct NodeTold {
    pub server: u64,
    pub number: u64,
    pub ask: NodeAsk,
    pub reply: NodeReply,
}

/// The desk's answer, as it was received: the ask, the reply, and the number of their entry in the desk's journal.
#[derive(Drop, Clone)]
pub struct DeskTold {
    pub number: u64,
    pub ask: DeskAsk,
    pub reply: DeskReply,
}

/// A server's answer, once more.
pub(crate) fn told_again(told: &NodeTold) -> Result<NodeTold, Memory>
    ensures { IfOk result (λ copy. copy ≡ told.now) }
{
    let ask = told.ask.clone()?;
    let reply = told.reply.clone()?;
    Ok(NodeTold {
        server: told.server,
        number: told.number,
        ask,
        reply,
    })
}

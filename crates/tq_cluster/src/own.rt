//! Which part of a cluster each cell is to hold, and how it is asked.

ghost use Rattle.std.specs.Prelude.{◌≡◌};
ghost use Rattle.tq_cluster.specs.Told.{IsDeskOf, IsServerOf, IsViewOf};

use std::alloc::Global;
use std::sync::Wait;
use tq_asks::{NodeAsk, NodeReply};
use tq_cells::{Replies, Settings, ask_by_plan};
use tq_desk::{Desk, DeskAsk, DeskReply};
use tq_live::{View, ViewAsk, ViewReply};
use tq_node::{Node, Telling};
use tq_shape::{Levels, Limits, Memory};

/// The server of that number in a tree of so many levels.
#[derive(Clone, Copy)]
pub(crate) struct OwnServer {
    pub(crate) levels: Levels,
    pub(crate) number: u64,
}

impl Settings<Node> for OwnServer {
    ghost are_of = { λ own node. IsServerOf own.levels own.number node };

    fn are_of_part(&self, node: &Node) -> bool {
        let there = node.server();
        if there.number() != self.number {
            return false;
        }
        there.levels() == self.levels
    }

    /// Asks the server in one step, which tells the reply twice.
    fn ask_part<R: Wait>(
        &self,
        rt: &R,
        alloc: Global,
        part: &mut Node,
        number: u64,
        ask: &NodeAsk,
    ) -> Result<Replies<NodeReply>, Memory> {
        let Telling {
            entered,
            told,
            raised: _,
        } = part.tell(alloc, number, ask)?;
        let kept = shared(rt, &told);
        Ok(Replies {
            entered,
            kept,
            told,
        })
    }
}

/// An equal reply, which shares what this one holds. No memory is asked for: all that can be refused is a count past 2^63, and
/// that one of so many be let go is waited for, without end.
fn shared<R: Wait>(rt: &R, reply: &NodeReply) -> NodeReply
    ensures { result ≡ reply.now }
{
    for _ in rt.forever() {
        if let Ok(reply) = reply.clone() {
            return reply;
        }
    }
    unreachable!()
}

/// The desk of a system of so many levels, and of those limits.
#[derive(Clone, Copy)]
pub(crate) struct OwnDesk {
    pub(crate) levels: Levels,
    pub(crate) limits: Limits,
}

impl Settings<Desk> for OwnDesk {
    ghost are_of = { λ own desk. IsDeskOf own.levels own.limits desk };

    fn are_of_part(&self, desk: &Desk) -> bool {
        if desk.levels() != self.levels {
            return false;
        }
        desk.limits() == self.limits
    }

    fn ask_part<R: Wait>(
        &self,
        _rt: &R,
        alloc: Global,
        part: &mut Desk,
        number: u64,
        ask: &DeskAsk,
    ) -> Result<Replies<DeskReply>, Memory> {
        ask_by_plan(alloc, part, number, ask)
    }
}

/// The view of a tree of so many levels.
#[derive(Clone, Copy)]
pub(crate) struct OwnView {
    pub(crate) levels: Levels,
}

impl Settings<View> for OwnView {
    ghost are_of = { λ own view. IsViewOf own.levels view };

    fn are_of_part(&self, view: &View) -> bool {
        view.tree().levels() == self.levels
    }

    fn ask_part<R: Wait>(
        &self,
        _rt: &R,
        alloc: Global,
        part: &mut View,
        number: u64,
        ask: &ViewAsk,
    ) -> Result<Replies<ViewReply>, Memory> {
        ask_by_plan(alloc, part, number, ask)
    }
}

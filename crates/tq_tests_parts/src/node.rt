//! Servers.

use crate::check::{Wrong, check};
use std::alloc::Global;
use tq_asks::{CitedVote, NodeAsk, NodeReply, WorkAsk};
use tq_node::Node;
use tq_shape::{Levels, Memory, Shared};
use tq_store::{Content, FileName};

/// A refresh of a file, without a content.
fn refresh(alloc: Global) -> Result<NodeAsk, Memory> {
    let from = CitedVote {
        server: 1,
        number: 1,
    };
    let refresh = WorkAsk::Refresh {
        file: Shared::new(alloc, FileName::new(b"a").unwrap())?,
        version: 1,
        content: Shared::new(alloc, Content::empty())?,
        from,
    };
    Ok(NodeAsk::Work(Shared::new(alloc, refresh)?))
}

fn is_refreshed(reply: Result<NodeReply, Memory>) -> bool {
    matches!(reply, Ok(NodeReply::Refreshed))
}

fn goes_down(alloc: Global, node: &mut Node) -> bool {
    match node.last().checked_add(1) {
        Some(number) => matches!(
            node.answer(alloc, number, &NodeAsk::Crash),
            Ok(NodeReply::Crashed)
        ),
        None => false,
    }
}

/// Whether a copy that goes down has the same stable record, and the server stays up.
fn leaves_its_copy(alloc: Global, node: &Node) -> bool {
    match node.copy(alloc) {
        Ok(copy) => {
            let mut copy = copy;
            goes_down(alloc, &mut copy)
                && copy.stable().len() == 1
                && copy.last() == 2
                && !node.is_down()
                && node.last() == 1
        }
        Err(_) => false,
    }
}

fn refreshes(alloc: Global) -> bool {
    let levels = Levels::new(1).unwrap();
    let mut node = Node::new(alloc, levels, levels.root());
    let Ok(ask) = refresh(alloc) else {
        return false;
    };
    is_refreshed(node.foresee(alloc, 1, &ask))
        && is_refreshed(node.answer(alloc, 1, &ask))
        && leaves_its_copy(alloc, &node)
}

/// What is foreseen changes nothing, so that it is answered after; and a copy goes on alone.
#[test]
fn a_copy_goes_on_alone(rt: HostRuntime) -> Result<(), Wrong> {
    check(refreshes(rt.alloc()), "another answer")
}

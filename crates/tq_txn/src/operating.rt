//! The lines that concern no transaction.
ghost use Rattle.std.specs.{Prelude.◌≡◌, Result.result_ok};
ghost use Rattle.tq_txn.specs.Dialogue.{Follows, ended_by, line_result};
ghost use Rattle.tq_txn.specs.Script as spec;

use crate::{AskFault, Asker, ViewTold, ask_any};
use std::alloc::{AllocError, Global};
use tq_asks::NodeAsk;
use tq_live::ViewAsk;
use tq_shape::{Levels, Memory, ServerId};

/// Asks the view, whatever it answers.
pub(crate) fn ask_view<A: Asker>(asker: &mut A, alloc: Global, ask: ViewAsk) -> Result<(), Memory>
    ensures asks { Follows (spec.view_asked ask)
        (A.told asker.old) (A.told asker.new) (result_ok result) }
    ensures tree { A.levels asker.new ≡ A.levels asker.old }
{
    let answer = asker.view(alloc, ask);
    pass_over(answer)
}

/// Passes over what the view answered, unless memory was refused.
fn pass_over(answer: Result<ViewTold, AskFault>) -> Result<(), Memory>
    ensures { result_ok result ≡ spec.view_wait answer }
{
    match answer {
        Ok(_told) => Ok(()),
        Err(AskFault::Memory) => Err(AllocError),
        Err(AskFault::JournalFull { .. }) => Ok(()),
        Err(AskFault::Unfounded { .. }) => Ok(()),
    }
}

/// What a server that goes down or comes up is asked.
fn mark_ask(up: bool) -> NodeAsk
    ensures { result ≡ spec.mark_ask up }
{
    if up { NodeAsk::Return } else { NodeAsk::Crash }
}

/// A server goes down or comes up, and the view is told, whatever the server answers. One outside the tree is not
/// asked, and the view refuses it.
pub(crate) fn mark<A: Asker>(
    asker: &mut A,
    alloc: Global,
    levels: Levels,
    server: u64,
    up: bool,
) -> Result<(), Memory>
    requires { A.levels asker.old ≡ levels }
    ensures asks { Follows (spec.mark_asked levels server up)
        (A.told asker.old) (A.told asker.new) (result_ok result) }
    ensures tree { A.levels asker.new ≡ A.levels asker.old }
{
    match levels.server(server) {
        Some(id) => mark_at(asker, alloc, id, up),
        None => ask_view(asker, alloc, ViewAsk::Mark { server, up }),
    }
}

fn mark_at<A: Asker>(asker: &mut A, alloc: Global, id: ServerId, up: bool) -> Result<(), Memory>
    requires { id.levels ≡ A.levels asker.old }
    ensures asks { Follows (spec.server_marked id.number up)
        (A.told asker.old) (A.told asker.new) (result_ok result) }
    ensures tree { A.levels asker.new ≡ A.levels asker.old }
{
    let answer = mark_server(asker, alloc, id, up);
    pass_over(answer)
}

/// Has a server crash or return, and the view mark it down or up, whatever the server answers. Answers what the view
/// does. Where memory is refused to the ask of the server, the view is not asked.
#[inline(always)]
pub fn mark_server<A: Asker>(
    asker: &mut A,
    alloc: Global,
    id: ServerId,
    up: bool,
) -> Result<ViewTold, AskFault>
    requires { id.levels ≡ A.levels asker.old }
    ensures asks { Follows (spec.mark_line id.number up)
        (A.told asker.old) (A.told asker.new) (ended_by (line_result result) tt) }
    ensures tree { A.levels asker.new ≡ A.levels asker.old }
{
    let server = id.number();
    match ask_any(asker, alloc, id, mark_ask(up)) {
        Ok(_reply) => asker.view(alloc, ViewAsk::Mark { server, up }),
        Err(_) => Err(AskFault::Memory),
    }
}

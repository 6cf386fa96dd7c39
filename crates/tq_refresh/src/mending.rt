//! What a worker asks for a job.

ghost use Rattle.std.specs.Prelude.{◌≡◌, true, false, IfOk, OnOk, OnErr};
ghost use Rattle.tq_refresh.specs.Plan.{IsAnswered, IsBegun, Grows, refresh_asked, worker_asked};

use crate::job::{Job, copy_ask, peek_ask};
use std::alloc::{AllocError, Global};
use tq_asks::NodeAsk;
use tq_shape::{AskFault, Levels, Memory, ServerId};
use tq_txn::{Asker, NodeTold};

/// Does one job of a tree of these levels, and says whether memory was refused: then its asks were begun. For a job of
/// another tree nothing is asked.
pub fn refresh<A: Asker>(asker: &mut A, alloc: Global, levels: Levels, job: &Job) -> bool
    requires { levels ≡ A.levels asker.old }
    ensures asked { result ≡ false →
        Grows (refresh_asked levels job.now) (A.told asker.old) (A.told asker.new) }
    ensures begun { result ≡ true →
        IsBegun (refresh_asked levels job.now) (A.told asker.old) (A.told asker.new) }
    ensures tree { A.levels asker.new ≡ A.levels asker.old }
{
    if job.source.levels() != levels {
        return false;
    }
    if job.server.levels() != levels {
        return false;
    }
    mend(asker, alloc, job).is_err()
}

/// Asks the source of the job for its copy and, exactly where it tells one, the server to take it, on the word of that
/// answer. Answers an error only where memory is refused: then these asks were begun.
pub fn mend<A: Asker>(asker: &mut A, alloc: Global, job: &Job) -> Result<(), Memory>
    requires source { job.now.source.levels ≡ A.levels asker.old }
    requires server { job.now.server.levels ≡ A.levels asker.old }
    ensures asked { OnOk result
        (Grows (worker_asked job.now) (A.told asker.old) (A.told asker.new)) }
    ensures begun { OnErr result
        (IsBegun (worker_asked job.now) (A.told asker.old) (A.told asker.new)) }
    ensures tree { A.levels asker.new ≡ A.levels asker.old }
{
    let peek = peek_ask(alloc, job)?;
    let Some(told) = answer_of(asker, alloc, job.source, peek)? else {
        return Ok(());
    };
    let Some(ask) = copy_ask(alloc, job, told.number, &told.reply)? else {
        return Ok(());
    };
    let _taken = answer_of(asker, alloc, job.server, ask)?;
    Ok(())
}

/// What a server answers to an ask; none where the ask was not taken.
fn answer_of<A: Asker>(
    asker: &mut A,
    alloc: Global,
    server: ServerId,
    ask: NodeAsk,
) -> Result<Option<NodeTold>, Memory>
    requires { server.levels ≡ A.levels asker.old }
    ensures told { IfOk result (λ told.
        IsAnswered server.number ask told (A.told asker.old) (A.told asker.new)) }
    ensures untold { OnErr result (A.told asker.new ≡ A.told asker.old) }
    ensures tree { A.levels asker.new ≡ A.levels asker.old }
{
    match asker.node(alloc, server, ask) {
        Ok(told) => Ok(Some(told)),
        Err(AskFault::Memory) => Err(AllocError),
        Err(AskFault::JournalFull { part: _ }) => Ok(None),
        Err(AskFault::Unfounded { part: _, number: _ }) => Ok(None),
    }
}

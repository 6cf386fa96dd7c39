//! The stop of a server.

ghost use Rattle.std.specs.Prelude.{◌≡◌};
ghost use Rattle.tq_txn.specs.Dialogue as line;
ghost use Rattle.tq_txn.specs.Lines as spec;
ghost use Rattle.tq_txn.specs.Told.{IsKnown};

use crate::endings::ask_any;
use crate::{Asker, LineFault, Txn, Voting};
use std::alloc::Global;
use tq_asks::{NodeAsk, WorkAsk};
use tq_live::ViewAsk;
use tq_shape::{ServerId, Shared};

/// Marks a server down.
fn mark_down<A: Asker>(asker: &mut A, alloc: Global, server: u64) -> Result<(), LineFault>
    ensures asks { line.Follows (spec.down_line server)
        (A.told asker.old) (A.told asker.new) (line.ended_by result tt) }
    ensures tree { A.levels asker.new ≡ A.levels asker.old }
{
    match asker.view(alloc, ViewAsk::Mark { server, up: false }) {
        Ok(_) => Ok(()),
        Err(fault) => Err(LineFault::from(fault)),
    }
}

/// Stops a server in a work, behind so many of the stable records that it would write, and marks it down, whatever it
/// answers.
pub fn stop_at<A: Asker>(
    asker: &mut A,
    alloc: Global,
    server: ServerId,
    ask: WorkAsk,
    after: u32,
) -> Result<(), LineFault>
    requires { server.levels ≡ A.levels asker.old }
    ensures asks { line.Follows (spec.stop_line server.number ask after)
        (A.told asker.old) (A.told asker.new) (line.ended_by result tt) }
    ensures tree { A.levels asker.new ≡ A.levels asker.old }
{
    let ask = Shared::new(alloc, ask)?;
    match ask_any(asker, alloc, server, NodeAsk::CrashIn { ask, after }) {
        Ok(_) => mark_down(asker, alloc, server.number()),
        Err(_) => Err(LineFault::Memory),
    }
}

/// Stops a voter in its vote, which is not taken: the transaction stays as it was. Whether the vote is there already;
/// then nothing is asked.
pub fn prepare_stopping<A: Asker>(
    asker: &mut A,
    alloc: Global,
    voting: &Voting,
    server: ServerId,
    after: u32,
) -> Result<bool, LineFault>
    requires { server.levels ≡ A.levels asker.old }
    ensures asks { line.Follows (spec.prepare_stop_line voting.now server.number after)
        (A.told asker.old) (A.told asker.new) (line.ended_by result voting.now) }
    ensures knows { IsKnown Txn.Voting (A.told asker.old) (A.told asker.new) voting.now voting.now }
    ensures tree { A.levels asker.new ≡ A.levels asker.old }
{
    if voting.has_vote(server) {
        return Ok(true);
    }
    let work = match voting.work(alloc, server) {
        Ok(work) => work,
        Err(fault) => return Err(LineFault::from(fault)),
    };
    match stop_at(asker, alloc, server, work, after) {
        Ok(()) => Ok(false),
        Err(fault) => Err(fault),
    }
}

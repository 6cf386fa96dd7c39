//! A vote, a verdict told, and the ending at all servers.

ghost use Rattle.std.specs.{Prelude.{◌≡◌, ◌==◌, ◌≤◌, true, false, List, Some, None, Ok, IfOk, OnErr}, List.list_all};
ghost use Rattle.std.specs.Result.{result_ok};
ghost use Rattle.tq_coterie.specs.Coterie.{numbers_of};
ghost use Rattle.tq_txn.specs.Dialogue as line;
ghost use Rattle.tq_txn.specs.Lines as spec;
ghost use Rattle.tq_txn.specs.{Told.{IsEndTold, IsKnown}, declared.asker.Exchange.Exchange};
ghost use Rattle.tq_txn_states.specs.{Voting.{AddsVote, IsVotedOn, has_vote}, Ended.decide_ask};

use crate::{Applied, AskFault, Asker, Ended, LineFault, NodeTold, Txn, Voting};
use std::alloc::{AllocError, Global};
use tq_asks::{NodeAsk, NodeRefusal, NodeReply, Verdict, WorkAsk};
use tq_shape::{Memory, Part, ServerId, Shared};

/// The refusal, where the reply is one.
fn refusal_in(reply: &NodeReply) -> Option<NodeRefusal>
    ensures { result ≡ spec.refusal_in reply.now }
{
    match reply {
        NodeReply::Refused(refusal) => Some(refusal.get()),
        _ => None,
    }
}

/// A voter's vote; one that is there is answered with no ask. No vote gathered is lost, and after a fault the
/// transaction is as it was.
#[inline(always)]
pub fn prepare_at<A: Asker>(
    asker: &mut A,
    alloc: Global,
    voting: &mut Voting,
    server: ServerId,
) -> Result<(), LineFault>
    requires { server.levels ≡ A.levels asker.old }
    ensures asks { line.Follows (spec.prepare_line voting.old server.number)
        (A.told asker.old) (A.told asker.new) (line.ended_by result voting.new) }
    ensures txn { voting.new.txn ≡ voting.old.txn }
    ensures kept { IsVotedOn voting.old voting.new }
    ensures knows { IsKnown Txn.Voting (A.told asker.old) (A.told asker.new) voting.old voting.new }
    ensures err { OnErr result (voting.new ≡ voting.old) }
    ensures tree { A.levels asker.new ≡ A.levels asker.old }
{
    if voting.has_vote(server) {
        return Ok(());
    }
    let ask = match voting.ask(alloc, server) {
        Ok(ask) => ask,
        Err(fault) => return Err(LineFault::from(fault)),
    };
    voting.room_for_votes()?;
    match asker.node(alloc, server, ask) {
        Ok(told) => take_vote(voting, told),
        Err(fault) => Err(LineFault::from(fault)),
    }
}

/// Takes the vote that a server told, unless it refused.
#[inline(always)]
fn take_vote(voting: &mut Voting, told: NodeTold) -> Result<(), LineFault>
    ensures asks { (exchanges : List Exchange) → line.Follows (spec.vote_answer voting.old told)
        exchanges exchanges (line.ended_by result voting.new) }
    ensures txn { voting.new.txn ≡ voting.old.txn }
    ensures kept { has_vote voting.old.votes told.server ≡ false → IsVotedOn voting.old voting.new }
    ensures cited { AddsVote told voting.old voting.new }
    ensures err { OnErr result (voting.new ≡ voting.old) }
{
    if let Some(refusal) = refusal_in(&told.reply) {
        return Err(LineFault::Server {
            server: told.server,
            refusal,
        });
    }
    match voting.vote_by(told) {
        Ok(taken) => Ok(taken),
        Err(fault) => Err(LineFault::from(fault)),
    }
}

/// One ask of a server, of which any answer is taken: its reply, or none where the ask was not taken.
#[inline(always)]
pub fn ask_any<A: Asker>(
    asker: &mut A,
    alloc: Global,
    server: ServerId,
    ask: NodeAsk,
) -> Result<Option<NodeReply>, Memory>
    requires { server.levels ≡ A.levels asker.old }
    ensures asks { IfOk result (λ reply. line.Follows (spec.any_line server.number ask)
        (A.told asker.old) (A.told asker.new) (Some (record { answer = Ok reply; after = tt }))) }
    ensures err { OnErr result (line.Follows (spec.any_line server.number ask)
        (A.told asker.old) (A.told asker.new) None) }
    ensures tree { A.levels asker.new ≡ A.levels asker.old }
{
    let told = asker.node(alloc, server, ask);
    any_answer(told)
}

/// The reply in what was told of an ask, or none where that was not taken.
#[inline(always)]
fn any_answer(told: Result<NodeTold, AskFault>) -> Result<Option<NodeReply>, Memory>
    ensures { result_ok result ≡ spec.any_answer told }
{
    match told {
        Ok(told) => Ok(Some(told.reply)),
        Err(AskFault::Memory) => Err(AllocError),
        Err(AskFault::JournalFull { .. }) => Ok(None),
        Err(AskFault::Unfounded { .. }) => Ok(None),
    }
}

fn is_nothing_here(reply: &Option<NodeReply>) -> bool
    ensures { result ≡ spec.is_nothing_here reply.now }
{
    match reply {
        Some(NodeReply::Refused(refusal)) => matches!(refusal.get(), NodeRefusal::NothingHere),
        _ => false,
    }
}

/// The release of a transaction's locks at a server, where it is wanted.
fn release_at<A: Asker>(
    asker: &mut A,
    alloc: Global,
    txn: u64,
    server: ServerId,
    wanted: bool,
    kept: &mut Option<NodeAsk>,
) -> Result<(), LineFault>
    requires of_tree { server.levels ≡ A.levels asker.old }
    requires kept { spec.KeepsRelease txn kept.old }
    ensures asks { line.Follows (spec.release_line txn server.number wanted)
        (A.told asker.old) (A.told asker.new) (line.ended_by result tt) }
    ensures tree { A.levels asker.new ≡ A.levels asker.old }
    ensures kept { spec.KeepsRelease txn kept.new }
{
    if !wanted {
        return Ok(());
    }
    let ask = release_ask(alloc, txn, kept)?;
    match ask_any(asker, alloc, server, ask) {
        Ok(_) => Ok(()),
        Err(_) => Err(LineFault::Memory),
    }
}

/// The ask that releases a transaction's locks: once more, where it was made before.
fn release_ask(alloc: Global, txn: u64, kept: &mut Option<NodeAsk>) -> Result<NodeAsk, Memory>
    requires { spec.KeepsRelease txn kept.old }
    ensures ask { IfOk result (λ ask. ask ≡ NodeAsk.Work (WorkAsk.Release txn)) }
    ensures kept { spec.KeepsRelease txn kept.new }
{
    if let Some(ask) = &*kept {
        return Ok(ask.clone()?);
    }
    let ask = NodeAsk::Work(Shared::new(alloc, WorkAsk::Release { txn })?);
    *kept = Some(ask.clone()?);
    Ok(ask)
}

/// The ask that tells the verdict, once more.
fn decide_again(ended: &Ended, decide: &NodeAsk) -> Result<NodeAsk, Memory>
    requires { decide.now ≡ decide_ask ended.now }
    ensures { IfOk result (λ ask. ask ≡ decide_ask ended.now) }
{
    let _txn = ended.txn();
    Ok(decide.clone()?)
}

/// Tells a server the verdict by this ask; where nothing is prepared there, the locks are released.
#[inline(always)]
fn end_at<A: Asker>(
    asker: &mut A,
    alloc: Global,
    ended: &Ended,
    decide: &NodeAsk,
    release: &mut Option<NodeAsk>,
    server: ServerId,
) -> Result<(), LineFault>
    requires of_tree { server.levels ≡ A.levels asker.old }
    requires told { IsEndTold (A.told asker.old) ended.now }
    requires decide { decide.now ≡ decide_ask ended.now }
    requires release { spec.KeepsRelease ended.now.txn release.old }
    ensures asks { line.Follows (spec.end_line ended.now server.number)
        (A.told asker.old) (A.told asker.new) (line.ended_by result tt) }
    ensures tree { A.levels asker.new ≡ A.levels asker.old }
    ensures release { spec.KeepsRelease ended.now.txn release.new }
{
    let ask = decide_again(ended, decide)?;
    let told = asker.tell(alloc, server, ask);
    match any_answer(told) {
        Ok(reply) => release_at(
            asker,
            alloc,
            ended.txn(),
            server,
            is_nothing_here(&reply),
            release,
        ),
        Err(_) => Err(LineFault::Memory),
    }
}

/// Tells each of the servers the verdict, in their order, by the same ask.
#[inline(always)]
fn end_by<A: Asker>(
    asker: &mut A,
    alloc: Global,
    ended: &Ended,
    decide: &NodeAsk,
    servers: &[ServerId],
) -> Result<(), LineFault>
    requires of_tree { list_all (λ id. id.levels == A.levels asker.old) servers.now ≡ true }
    requires told { IsEndTold (A.told asker.old) ended.now }
    requires decide { decide.now ≡ decide_ask ended.now }
    ensures asks { line.Follows (spec.ending_line ended.now (numbers_of servers.now))
        (A.told asker.old) (A.told asker.new) (line.ended_by result tt) }
    ensures tree { A.levels asker.new ≡ A.levels asker.old }
{
    let mut release = None;
    for server in servers {
        end_at(asker, alloc, ended, decide, &mut release, *server)?;
    }
    Ok(())
}

/// Tells each of the servers the verdict, in their order. Where there is none it takes no memory.
#[inline(always)]
pub(crate) fn end_at_each<A: Asker>(
    asker: &mut A,
    alloc: Global,
    ended: &Ended,
    servers: &[ServerId],
) -> Result<(), LineFault>
    requires of_tree { list_all (λ id. id.levels == A.levels asker.old) servers.now ≡ true }
    requires told { IsEndTold (A.told asker.old) ended.now }
    ensures asks { line.Follows (spec.ending_line ended.now (numbers_of servers.now))
        (A.told asker.old) (A.told asker.new) (line.ended_by result tt) }
    ensures tree { A.levels asker.new ≡ A.levels asker.old }
{
    if servers.is_empty() {
        return Ok(());
    }
    let decide = match ended.decide(alloc) {
        Ok(decide) => decide,
        Err(_) => return Err(LineFault::Memory),
    };
    end_by(asker, alloc, ended, &decide, servers)
}

/// What a server did with the verdict.
fn apply_answer(server: u64, reply: &NodeReply) -> Result<Applied, LineFault>
    ensures { result ≡ spec.apply_answer server reply.now }
{
    match reply {
        NodeReply::Installed => Ok(Applied::Installed),
        NodeReply::Discarded => Ok(Applied::Discarded),
        NodeReply::Refused(refusal) => Err(LineFault::Server {
            server,
            refusal: refusal.get(),
        }),
        _ => Err(LineFault::WrongReply {
            part: Part::Server(server),
        }),
    }
}

/// Tells a server a verdict on a transaction, which the desk's entry `cite` told.
pub fn apply_at<A: Asker>(
    asker: &mut A,
    alloc: Global,
    txn: u64,
    verdict: Verdict,
    cite: u64,
    server: ServerId,
) -> Result<Applied, LineFault>
    requires { server.levels ≡ A.levels asker.old }
    ensures asks { line.Follows (spec.apply_line txn verdict cite server.number)
        (A.told asker.old) (A.told asker.new) (line.ended_by result tt) }
    ensures tree { A.levels asker.new ≡ A.levels asker.old }
{
    let decide = WorkAsk::Decide { txn, verdict, cite };
    let ask = NodeAsk::Work(Shared::new(alloc, decide)?);
    match asker.node(alloc, server, ask) {
        Ok(told) => apply_answer(told.server, &told.reply),
        Err(fault) => Err(LineFault::from(fault)),
    }
}

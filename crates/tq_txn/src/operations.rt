//! Reads and writes over a quorum.

ghost use Rattle.std.specs.List.{list_all, Contains};
ghost use Rattle.std.specs.Prelude.{◌≡◌, ◌==◌, ◌+◌, ◌<◌, ◌≤◌, ℕ, List, [], ◌∷◌, Ok, Err, true, length, IfOk, OnErr, OnOk, ◌++◌, false};
ghost use Rattle.tq_coterie.specs.Coterie.{numbers_of};
ghost use Rattle.tq_txn.specs.Dialogue as line;
ghost use Rattle.tq_txn.specs.Lines as spec;
ghost use Rattle.tq_txn.specs.{Lines.IsLocking, Told.{AreHeard, IsKnown, answers_in}};
ghost use Rattle.tq_txn_states.specs.Voting.{grant_told};
ghost use Rattle.tq_txn_states.specs.Open as open_spec;

use crate::{Asker, LineFault, NodeTold, Open, ReadAnswer, Txn, TxnFault};
use std::alloc::Global;
use tq_asks::{NodeAsk, NodeReply, WorkAsk};
use tq_coterie::Quorum;
use tq_evidence::Grant;
use tq_live::{Purpose, ViewAsk, ViewReply};
use tq_locks::Mode;
use tq_shape::{Levels, Memory, Part, ServerId, Shared};
use tq_store::{Content, FileCopy, FileName};

/// Whether the servers are of a tree of these levels.
fn are_of(levels: Levels, servers: &[ServerId]) -> bool
    ensures { result ≡ list_all (λ id. id.levels == levels) servers.now }
{
    servers
        .iter()
        .all(|id| id.levels().count() == levels.count())
}

/// The quorum that the view chose.
#[inline(always)]
fn chosen_quorum(levels: Levels, reply: ViewReply) -> Result<Quorum, LineFault>
    ensures value { spec.servers_of result ≡ spec.quorum_answer levels reply }
    ensures tree { IfOk result (λ quorum. quorum.levels ≡ levels) }
{
    match reply {
        ViewReply::Chosen { quorum, .. } => {
            if !are_of(levels, quorum.servers()) {
                return Err(LineFault::Txn(TxnFault::NotAMember));
            }
            Ok(quorum)
        }
        ViewReply::Refused(refusal) => Err(LineFault::View(refusal)),
        _ => Err(LineFault::WrongReply { part: Part::View }),
    }
}

/// What a quorum of locks of this mode is chosen for: shared ones to read, exclusive ones to write.
fn purpose_of(mode: Mode) -> Purpose
    ensures { result ≡ spec.purpose_of mode }
{
    match mode {
        Mode::Shared => Purpose::Read,
        Mode::Exclusive => Purpose::Write,
    }
}

/// A quorum from the view, for this purpose.
fn choose<A: Asker>(
    asker: &mut A,
    alloc: Global,
    levels: Levels,
    purpose: Purpose,
) -> Result<Quorum, LineFault>
    ensures asks { line.Follows (spec.choose_line levels purpose)
        (A.told asker.old) (A.told asker.new) (line.ended_by (spec.servers_of result) tt) }
    ensures quorum { IfOk result (λ quorum. quorum.levels ≡ levels) }
    ensures tree { A.levels asker.new ≡ A.levels asker.old }
{
    match asker.view(alloc, ViewAsk::Choose { purpose }) {
        Ok(told) => chosen_quorum(levels, told.reply),
        Err(fault) => Err(LineFault::from(fault)),
    }
}

/// A lock that a transaction wants at each server of a quorum.
#[derive(Drop)]
struct WantedLock {
    file: FileName,
    mode: Mode,
}

/// The lock of this mode that a server's answer grants, with the ask once more.
#[inline(always)]
fn granted_lock(mode: Mode, told: NodeTold) -> Result<(Grant, NodeAsk), LineFault>
    ensures told { (txn : ℕ) (file : List ℕ) → told.ask ≡ spec.lock_ask txn file mode
        → spec.lock_answer told told.reply ≡ spec.grant_answer txn file result }
    ensures grant { IfOk result (λ locked. spec.IsLockAt told.server mode locked.0) }
    ensures ask { IfOk result (λ locked. locked.1 ≡ told.ask) }
{
    let NodeTold {
        server,
        number,
        ask,
        reply,
    } = told;
    match reply {
        NodeReply::Granted { version, content } => {
            let grant = Grant {
                server,
                number,
                mode,
                version,
                content,
            };
            Ok((grant, ask))
        }
        NodeReply::Refused(refusal) => Err(LineFault::Server {
            server,
            refusal: refusal.get(),
        }),
        _ => Err(LineFault::WrongReply {
            part: Part::Server(server),
        }),
    }
}

/// A lock at a server by this ask, which is handed back.
fn lock_at<A: Asker>(
    asker: &mut A,
    alloc: Global,
    txn: u64,
    lock: &WantedLock,
    server: ServerId,
    ask: NodeAsk,
) -> Result<(Grant, NodeAsk), LineFault>
    requires of_tree { server.levels ≡ A.levels asker.old }
    requires ask { ask ≡ spec.lock_ask txn lock.now.file lock.now.mode }
    ensures asks { line.Follows (spec.lock_line txn lock.now.file lock.now.mode server.number)
        (A.told asker.old) (A.told asker.new)
        (line.ended_by (spec.grant_answer txn lock.now.file result) tt) }
    ensures heard { IfOk result (λ locked.
        Contains (answers_in (A.told asker.new)) (grant_told txn lock.now.file locked.0)) }
    ensures grant { IfOk result (λ locked. spec.IsLockAt server.number lock.now.mode locked.0) }
    ensures ask { IfOk result (λ locked. locked.1 ≡ spec.lock_ask txn lock.now.file lock.now.mode) }
    ensures tree { A.levels asker.new ≡ A.levels asker.old }
{
    match asker.node(alloc, server, ask) {
        Ok(told) => granted_lock(lock.mode, told),
        Err(fault) => Err(LineFault::from(fault)),
    }
}

/// A lock at one more server by this ask, which is handed back. The server is noted if it granted the lock: room for that
/// was made before it was asked.
fn lock_next<A: Asker>(
    asker: &mut A,
    alloc: Global,
    open: &mut Open,
    lock: &WantedLock,
    server: ServerId,
    ask: NodeAsk,
    grants: &mut Vec<Grant>,
) -> Result<NodeAsk, LineFault>
    requires same { open.old.levels ≡ A.levels asker.old }
    requires of_tree { server.levels ≡ A.levels asker.old }
    requires ask { ask ≡ spec.lock_ask open.old.txn lock.now.file lock.now.mode }
    ensures locks { IsLocking lock.now
        (spec.next_lock lock.now.file lock.now.mode server.number) (server.number ∷ [])
        (A.told asker.old) (A.told asker.new) open.old open.new
        grants.old.items grants.new.items (spec.without_ask result) }
    ensures ask { IfOk result (λ it. it ≡ ask) }
    ensures tree { A.levels asker.new ≡ A.levels asker.old }
{
    open.room_to_touch()?;
    grants.reserve(1)?;
    let locked = match lock_at(asker, alloc, open.txn(), lock, server, ask) {
        Ok(locked) => locked,
        Err(fault) => return Err(fault),
    };
    let (grant, ask) = locked;
    open.touch_near(server, grants.len())?;
    grants.push_reserved(grant);
    Ok(ask)
}

/// A lock at each of the servers, in their order, by the same ask. Each that granted one is noted.
#[inline(always)]
fn lock_each<A: Asker>(
    asker: &mut A,
    alloc: Global,
    open: &mut Open,
    lock: &WantedLock,
    servers: &[ServerId],
    ask: NodeAsk,
    grants: &mut Vec<Grant>,
) -> Result<(), LineFault>
    requires same { open.old.levels ≡ A.levels asker.old }
    requires of_tree { list_all (λ id. id.levels == A.levels asker.old) servers.now ≡ true }
    requires ask { ask ≡ spec.lock_ask open.old.txn lock.now.file lock.now.mode }
    ensures locks { IsLocking lock.now
        (spec.locks_line lock.now.file lock.now.mode (numbers_of servers.now))
        (numbers_of servers.now) (A.told asker.old) (A.told asker.new) open.old open.new
        grants.old.items grants.new.items result }
    ensures tree { A.levels asker.new ≡ A.levels asker.old }
{
    let mut ask = ask;
    for server in servers {
        ask = match lock_next(asker, alloc, open, lock, *server, ask, grants) {
            Ok(ask) => ask,
            Err(fault) => return Err(fault),
        };
    }
    Ok(())
}

/// The ask for a lock of the transaction on the file.
fn lock_ask(alloc: Global, open: &Open, file: &FileName, mode: Mode) -> Result<NodeAsk, Memory>
    ensures { IfOk result (λ ask. ask ≡ spec.lock_ask open.now.txn file.now mode) }
{
    let lock = WorkAsk::Lock {
        txn: open.txn(),
        file: *file,
        mode,
    };
    Ok(NodeAsk::Work(Shared::new(alloc, lock)?))
}

/// A quorum from the view for what the mode is for, and a lock at each of its servers: their grants.
fn lock_quorum<A: Asker>(
    asker: &mut A,
    alloc: Global,
    open: &mut Open,
    file: &FileName,
    mode: Mode,
) -> Result<Vec<Grant>, LineFault>
    requires { open.old.levels ≡ A.levels asker.old }
    ensures asks { line.Follows (spec.quorum_line file.now mode open.old)
        (A.told asker.old) (A.told asker.new)
        (line.ended_by (spec.grants_answer open.old.txn file.now result) open.new) }
    ensures kept { open_spec.IsTouched open.old open.new }
    ensures heard { IfOk result (λ grants.
        AreHeard open.old.txn file.now (A.told asker.new) grants.items) }
    ensures member { IfOk result (λ it. open_spec.is_member open.old.levels it.items ≡ true) }
    ensures modes { IfOk result (λ grants. spec.AreOf mode grants.items) }
    ensures tree { A.levels asker.new ≡ A.levels asker.old }
{
    let ask = lock_ask(alloc, open, file, mode)?;
    let quorum = match choose(asker, alloc, open.levels(), purpose_of(mode)) {
        Ok(quorum) => quorum,
        Err(fault) => return Err(fault),
    };
    let lock = WantedLock { file: *file, mode };
    let servers = quorum.servers();
    let mut grants = Vec::with_capacity(alloc, servers.len())?;
    match lock_each(asker, alloc, open, &lock, servers, ask, &mut grants) {
        Ok(()) => Ok(grants),
        Err(fault) => Err(fault),
    }
}

/// Reads a file: what the transaction has written or read already, or else the copy that a quorum of servers with
/// shared locks answers. After a fault, locks granted before it stay, and the transaction notes their servers.
pub fn read_file<A: Asker>(
    asker: &mut A,
    alloc: Global,
    open: &mut Open,
    file: &FileName,
) -> Result<ReadAnswer, LineFault>
    requires { open.old.levels ≡ A.levels asker.old }
    ensures asks { line.Follows (spec.read_line open.old file.now)
        (A.told asker.old) (A.told asker.new) (line.ended_by result open.new) }
    ensures levels { open.new.levels ≡ open.old.levels }
    ensures err { OnErr result (open_spec.IsTouched open.old open.new) }
    ensures knows { IsKnown Txn.Open (A.told asker.old) (A.told asker.new) open.old open.new }
    ensures tree { A.levels asker.new ≡ A.levels asker.old }
{
    if let Some(content) = open.pending(file) {
        return Ok(ReadAnswer::Pending(content.clone()?));
    }
    if let Some(op) = open.seen(file) {
        return Ok(ReadAnswer::Copy(FileCopy {
            version: op.version,
            content: op.content.clone()?,
        }));
    }
    if open.is_full() {
        return Err(LineFault::Txn(TxnFault::TooManyOps));
    }
    read_at_quorum(asker, alloc, open, file)
}

/// Reads a file at a quorum of servers.
fn read_at_quorum<A: Asker>(
    asker: &mut A,
    alloc: Global,
    open: &mut Open,
    file: &FileName,
) -> Result<ReadAnswer, LineFault>
    requires tree { open.old.levels ≡ A.levels asker.old }
    requires fresh { open_spec.is_used open.old.ops file.now ≡ false }
    requires few { open_spec.has_all_ops open.old ≡ false }
    ensures asks { line.Follows (spec.quorum_read open.old file.now)
        (A.told asker.old) (A.told asker.new) (line.ended_by result open.new) }
    ensures levels { open.new.levels ≡ open.old.levels }
    ensures err { OnErr result (open_spec.IsTouched open.old open.new) }
    ensures knows { IsKnown Txn.Open (A.told asker.old) (A.told asker.new) open.old open.new }
    ensures tree { A.levels asker.new ≡ A.levels asker.old }
{
    let grants = match lock_quorum(asker, alloc, open, file, Mode::Shared) {
        Ok(grants) => grants,
        Err(fault) => return Err(fault),
    };
    match open.read_granted(file, grants) {
        Ok(copy) => Ok(ReadAnswer::Copy(copy)),
        Err(_) => Err(LineFault::Memory),
    }
}

/// Writes a file at a quorum of servers with exclusive locks, and answers the version; what is written again is
/// replaced, with no ask. After a fault, locks granted before it stay, and the transaction notes their servers.
pub fn write_file<A: Asker>(
    asker: &mut A,
    alloc: Global,
    open: &mut Open,
    file: &FileName,
    content: Content,
) -> Result<u64, LineFault>
    requires { open.old.levels ≡ A.levels asker.old }
    ensures asks { line.Follows (spec.write_line open.old file.now content)
        (A.told asker.old) (A.told asker.new) (line.ended_by result open.new) }
    ensures levels { open.new.levels ≡ open.old.levels }
    ensures err { OnErr result (open_spec.IsTouched open.old open.new) }
    ensures knows { IsKnown Txn.Open (A.told asker.old) (A.told asker.new) open.old open.new }
    ensures tree { A.levels asker.new ≡ A.levels asker.old }
{
    if let Some(op) = open.op_written(file) {
        let version = op.version;
        open.rewrite(file, content);
        return Ok(version);
    }
    if open.is_full() {
        return Err(LineFault::Txn(TxnFault::TooManyOps));
    }
    write_at_quorum(asker, alloc, open, file, content)
}

/// Writes a file at a quorum of servers.
fn write_at_quorum<A: Asker>(
    asker: &mut A,
    alloc: Global,
    open: &mut Open,
    file: &FileName,
    content: Content,
) -> Result<u64, LineFault>
    requires tree { open.old.levels ≡ A.levels asker.old }
    requires fresh { open_spec.is_written open.old.ops file.now ≡ false }
    requires few { open_spec.has_all_ops open.old ≡ false }
    ensures asks { line.Follows (spec.quorum_write open.old file.now content)
        (A.told asker.old) (A.told asker.new) (line.ended_by result open.new) }
    ensures levels { open.new.levels ≡ open.old.levels }
    ensures err { OnErr result (open_spec.IsTouched open.old open.new) }
    ensures knows { IsKnown Txn.Open (A.told asker.old) (A.told asker.new) open.old open.new }
    ensures tree { A.levels asker.new ≡ A.levels asker.old }
{
    let grants = match lock_quorum(asker, alloc, open, file, Mode::Exclusive) {
        Ok(grants) => grants,
        Err(fault) => return Err(fault),
    };
    match open.write_granted(file, content, grants) {
        Ok(version) => Ok(version),
        Err(fault) => Err(LineFault::from(fault)),
    }
}

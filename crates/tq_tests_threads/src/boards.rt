//! A client that reads what it has written, and a board of a running cluster.
ghost use Rattle.std.specs.Prelude.{◌≡◌};
ghost use Rattle.tq_txn.specs.Told.{IsOpenIn, Knows};
ghost use Rattle.tq_txn.specs.declared.txn.Txn.TheVariants as states;

use std::alloc::Global;
use std::mem::forget;
use std::process::Abort;
use std::sync::Wait;
use tq_asks::NodeAsk;
use tq_board_text::render;
use tq_cells::OpenGate;
use tq_cluster::{Asking, Caller, Cluster, Entries, LiveBoard, PullFault};
use tq_desk::{DeskAsk, DeskReply};
use tq_live::{Purpose, ViewAsk};
use tq_shape::{Levels, Limits, Part};
use tq_store::{Content, FileName};
use tq_txn::{
    AskFault, Asker, Decision, DeskTold, LineFault, Open, ReadAnswer, Voting, commit, read_file,
    write_file,
};

// What these types drop is dear to prove in a crate that lets one go. So a test leaves them where they are, and its
// process ends.

/// A cluster of one server.
fn cluster<R: Abort>(rt: &R, alloc: Global) -> Cluster<OpenGate>
    ensures levels { result.levels ≡ 1 }
    ensures limits { result.limits ≡ record { files = 1000; ops = 64; entries = 1000000 } }
{
    Cluster::new(alloc, Levels::new(1).unwrap(), Limits::full(), OpenGate).expect(rt, "memory")
}

// ---- a client

fn a() -> FileName {
    FileName::new(b"a").unwrap()
}

/// The letter x.
fn content<R: Abort>(rt: &R, alloc: Global) -> Content {
    let bytes = vec![in alloc; b'x'].expect(rt, "memory");
    match Content::new(bytes) {
        Ok(Some(content)) => content,
        _ => rt.panic("memory"),
    }
}

fn is_begun(told: &Result<DeskTold, AskFault>, number: u64) -> bool {
    match told {
        Ok(told) => matches!(&told.reply, DeskReply::Txn(txn) if *txn == number),
        Err(_) => false,
    }
}

/// The transaction of that number begins.
#[tactic(auto, using(tq_txn::proofs::KnownLaws::open_fresh))]
fn begin<R: Abort, A: Asker>(rt: &R, alloc: Global, asker: &mut A, number: u64) -> Open
    ensures txn { IsOpenIn 1 (A.told asker.new) result }
    ensures tree { A.levels asker.new ≡ A.levels asker.old }
{
    let told = asker.desk(alloc, DeskAsk::Begin);
    assert!(rt; is_begun(&told, number));
    forget(told);
    Open::new(alloc, Levels::new(1).unwrap(), Limits::full(), number)
}

/// Whether what was read is the transaction's own write, which has not ended yet.
fn is_pending(read: &Result<ReadAnswer, LineFault>) -> bool {
    match read {
        Ok(ReadAnswer::Pending(content)) => content.as_bytes() == b"x".as_slice(),
        _ => false,
    }
}

/// Whether what was read is the write of the transaction before.
fn is_copy(read: &Result<ReadAnswer, LineFault>) -> bool {
    match read {
        Ok(ReadAnswer::Copy(copy)) => copy.version == 1
            && copy.content.as_bytes() == b"x".as_slice(),
        _ => false,
    }
}

/// The transaction writes `a`, and reads it.
fn write<R: Abort, A: Asker>(rt: &R, alloc: Global, asker: &mut A, open: &mut Open)
    requires { IsOpenIn (A.levels asker.old) (A.told asker.old) open.old }
    ensures txn { IsOpenIn (A.levels asker.old) (A.told asker.new) open.new }
    ensures tree { A.levels asker.new ≡ A.levels asker.old }
{
    let written = write_file(asker, alloc, open, &a(), content(rt, alloc));
    assert!(rt; matches!(&written, Ok(1)));
    forget(written);
    let read = read_file(asker, alloc, open, &a());
    assert!(rt; is_pending(&read));
    forget(read);
}

fn closed<R: Abort, A: Asker>(rt: &R, asker: &A, open: Open) -> Voting
    requires { IsOpenIn (A.levels asker.now) (A.told asker.now) «open» }
    ensures tree { result.txn.levels ≡ A.levels asker.now }
    ensures knows { Knows (A.told asker.now) (states.Voting result) }
{
    match open.close() {
        Ok(voting) => voting,
        Err(back) => {
            forget(back);
            rt.panic("nothing was written")
        }
    }
}

/// Transaction 1 writes `a`, and its commit is the first.
fn write_and_commit<R: Abort, A: Asker>(rt: &R, alloc: Global, asker: &mut A)
    requires { A.levels asker.old ≡ 1 }
    ensures { A.levels asker.new ≡ A.levels asker.old }
{
    let mut open = begin(rt, alloc, asker, 1);
    write(rt, alloc, asker, &mut open);
    let voting = closed(rt, asker, open);
    let Decision { answer, txn } = commit(asker, alloc, voting);
    forget(txn);
    assert!(rt; matches!(&answer, Ok(1)));
    forget(answer);
}

/// Transaction 2 reads it.
fn read<R: Abort, A: Asker>(rt: &R, alloc: Global, asker: &mut A)
    requires { A.levels asker.old ≡ 1 }
    ensures { A.levels asker.new ≡ A.levels asker.old }
{
    let mut open = begin(rt, alloc, asker, 2);
    let read = read_file(asker, alloc, &mut open, &a());
    forget(open);
    assert!(rt; is_copy(&read));
    forget(read);
}

/// A caller that has written `a`, and read it in the next transaction.
fn client<R: Wait + Abort>(rt: &R, alloc: Global, cluster: &Cluster<OpenGate>) -> Caller
    requires { cluster.now.levels ≡ 1 }
    ensures { result.levels ≡ cluster.now.levels }
{
    let caller = cluster.caller(alloc).expect(rt, "memory");
    let mut asking = Asking::new(rt, cluster, caller);
    write_and_commit(rt, alloc, &mut asking);
    read(rt, alloc, &mut asking);
    asking.into_caller()
}

// ---- what a board has

/// How many entries were pulled of the server, of the desk and of the view, and the rows over them.
#[derive(Drop)]
struct Pulled {
    counts: [usize; 3],
    rows: String,
}

fn pulled_by<R: Abort>(rt: &R, alloc: Global, board: &LiveBoard) -> Pulled
    requires { board.now.levels ≡ 1 }
{
    let tables = board.tables();
    let rows = render(alloc, tables, tables.view()).expect(rt, "memory");
    let counts = [
        board.server(1).len(),
        board.desk().len(),
        board.view().len(),
    ];
    Pulled { counts, rows }
}

fn is_same(one: &Pulled, other: &Pulled) -> bool {
    one.counts == other.counts && one.rows.as_str() == other.rows.as_str()
}

// ---- the cluster of the board

const CHOICE: ViewAsk = ViewAsk::Choose {
    purpose: Purpose::Read,
};

const COST: ViewAsk = ViewAsk::SetCost {
    server: 1,
    read: 5,
    write: 5,
};

/// Asks the view.
fn ask<R: Wait + Abort>(
    rt: &R,
    alloc: Global,
    cluster: &Cluster<OpenGate>,
    caller: &mut Caller,
    ask: ViewAsk,
)
    requires { caller.old.levels ≡ cluster.now.levels }
    ensures { caller.new.levels ≡ caller.old.levels }
{
    let told = cluster.ask_view(rt, alloc, caller, ask);
    assert!(rt; told.is_ok());
    forget(told);
}

/// The board pulls by a client's caller, whom it gives back. So it has all that the client asked: of the server two locks,
/// a vote and its end, of the desk two beginnings and a commit, and of the view two choices.
fn follows<R: Wait + Abort>(
    rt: &R,
    alloc: Global,
    cluster: &Cluster<OpenGate>,
    board: &mut LiveBoard,
) -> Caller
    requires one { cluster.now.levels ≡ 1 }
    requires levels { board.old.levels ≡ cluster.now.levels }
    requires limits { board.old.limits ≡ cluster.now.limits }
    ensures levels { board.new.levels ≡ board.old.levels }
    ensures limits { board.new.limits ≡ board.old.limits }
{
    let mut caller = client(rt, alloc, cluster);
    let pulled = board.pull(rt, alloc, cluster, &mut caller);
    assert!(rt; pulled.is_ok());
    forget(pulled);
    caller
}

/// Asks the server, the desk and the view once.
fn ask_parts<R: Wait + Abort>(
    rt: &R,
    alloc: Global,
    cluster: &Cluster<OpenGate>,
    caller: &mut Caller,
    of_server: NodeAsk,
    of_view: ViewAsk,
)
    requires one { cluster.now.levels ≡ 1 }
    requires levels { caller.old.levels ≡ cluster.now.levels }
    ensures { caller.new.levels ≡ caller.old.levels }
{
    let server = Levels::new(1).unwrap().root();
    let told = cluster.ask_node(rt, alloc, caller, server, of_server);
    assert!(rt; told.is_ok());
    forget(told);
    let told = cluster.ask_desk(rt, alloc, caller, DeskAsk::Begin);
    assert!(rt; told.is_ok());
    forget(told);
    ask(rt, alloc, cluster, caller, of_view);
}

/// Asks each part once more, by a caller who is not given to the close.
fn ask_each<R: Wait + Abort>(rt: &R, alloc: Global, cluster: &Cluster<OpenGate>)
    requires { cluster.now.levels ≡ 1 }
{
    let mut caller = cluster.caller(alloc).expect(rt, "memory");
    ask_parts(rt, alloc, cluster, &mut caller, NodeAsk::Crash, CHOICE);
    forget(caller);
}

// ---- another cluster

/// A caller of a view that chooses three times, first at another cost.
fn stranger<R: Wait + Abort>(rt: &R, alloc: Global, other: &Cluster<OpenGate>) -> Caller
    ensures { result.levels ≡ other.now.levels }
{
    let mut stranger = other.caller(alloc).expect(rt, "memory");
    ask(rt, alloc, other, &mut stranger, COST);
    ask(rt, alloc, other, &mut stranger, CHOICE);
    ask(rt, alloc, other, &mut stranger, CHOICE);
    stranger
}

/// Whether one entry of the view was answered as foreign.
fn is_foreign(pulled: &Result<(), PullFault>) -> bool {
    match pulled {
        Err(
            PullFault::Foreign {
                part: Part::View,
                entries: Entries::View(entries),
            },
        ) => entries.len() == 1,
        _ => false,
    }
}

/// The board, which has two choices, is fed with a third at another cost: that is handed back.
fn strays<R: Wait + Abort>(rt: &R, alloc: Global, other: &Cluster<OpenGate>, board: &mut LiveBoard)
    requires levels { board.old.levels ≡ other.now.levels }
    requires limits { board.old.limits ≡ other.now.limits }
    ensures levels { board.new.levels ≡ board.old.levels }
    ensures limits { board.new.limits ≡ board.old.limits }
{
    let mut stranger = stranger(rt, alloc, other);
    let pulled = board.pull(rt, alloc, other, &mut stranger);
    assert!(rt; is_foreign(&pulled));
    forget(pulled);
    forget(stranger);
}

/// The first part of the cluster that the board does not begin, once it is closed. It has three entries of which none of
/// these callers was told: so no journal was cut.
fn astray<R: Abort>(
    rt: &R,
    alloc: Global,
    cluster: Cluster<OpenGate>,
    callers: Vec<Caller>,
    board: &LiveBoard,
) -> Option<Part>
    requires levels { board.now.levels ≡ cluster.levels }
    requires limits { board.now.limits ≡ cluster.limits }
{
    let closed = cluster.close(alloc, callers);
    let astray = match &closed {
        Ok(explained) => {
            assert!(rt; explained.unclaimed == 3);
            explained.begins(board)
        }
        Err(_) => rt.panic("not closed"),
    };
    forget(closed);
    astray
}

/// A client reads what it has written, and a board has what the client asked. It hands back the entries of another cluster
/// that do not continue it, and stays: its rows, and what it pulled of each part. That begins the journals of its own
/// cluster, in which each part was asked once more, and not those of the other one.
#[test]
fn a_board_keeps_to_its_cluster(rt: HostRuntime) {
    let alloc = rt.alloc();
    let levels = Levels::new(1).unwrap();
    let mut board = LiveBoard::new(alloc, levels, Limits::full()).expect(&rt, "memory");
    let mine = cluster(&rt, alloc);
    let mut callers = Vec::with_capacity(alloc, 1).expect(&rt, "memory");
    callers.push_reserved(follows(&rt, alloc, &mine, &mut board));
    ask_each(&rt, alloc, &mine);
    let before = pulled_by(&rt, alloc, &board);
    assert!(rt; before.counts == [4, 3, 2]);
    let other = cluster(&rt, alloc);
    strays(&rt, alloc, &other, &mut board);
    assert!(rt; is_same(&before, &pulled_by(&rt, alloc, &board)));
    assert!(rt; astray(&rt, alloc, mine, callers, &board).is_none());
    assert!(rt; astray(&rt, alloc, other, Vec::new(alloc), &board) == Some(Part::Server(1)));
    forget(board);
}

// ---- a pull that fails at the view

/// Each part of the cluster is asked once, and the board pulls it.
fn pull_once<R: Wait + Abort>(
    rt: &R,
    alloc: Global,
    cluster: &Cluster<OpenGate>,
    board: &mut LiveBoard,
)
    requires one { cluster.now.levels ≡ 1 }
    requires levels { board.old.levels ≡ cluster.now.levels }
    requires limits { board.old.limits ≡ cluster.now.limits }
    ensures levels { board.new.levels ≡ board.old.levels }
    ensures limits { board.new.limits ≡ board.old.limits }
{
    ask_each(rt, alloc, cluster);
    let mut caller = cluster.caller(alloc).expect(rt, "memory");
    let pulled = board.pull(rt, alloc, cluster, &mut caller);
    assert!(rt; pulled.is_ok());
    forget(pulled);
    forget(caller);
}

/// A caller that asked each part twice, and the view at another cost: its server and its desk go on from those of a cluster
/// that was asked once, and its view does not.
fn asked_twice<R: Wait + Abort>(rt: &R, alloc: Global, other: &Cluster<OpenGate>) -> Caller
    requires { other.now.levels ≡ 1 }
    ensures { result.levels ≡ other.now.levels }
{
    let mut caller = other.caller(alloc).expect(rt, "memory");
    ask_parts(rt, alloc, other, &mut caller, NodeAsk::Crash, COST);
    ask_parts(rt, alloc, other, &mut caller, NodeAsk::Return, CHOICE);
    caller
}

/// The new entries of the server and of the desk stay on the board, though those of the view are foreign.
#[test]
fn a_pull_keeps_the_parts_before_its_fault(rt: HostRuntime) {
    let alloc = rt.alloc();
    let levels = Levels::new(1).unwrap();
    let mut board = LiveBoard::new(alloc, levels, Limits::full()).expect(&rt, "memory");
    let mine = cluster(&rt, alloc);
    pull_once(&rt, alloc, &mine, &mut board);
    assert!(rt; pulled_by(&rt, alloc, &board).counts == [1, 1, 1]);
    let other = cluster(&rt, alloc);
    let mut caller = asked_twice(&rt, alloc, &other);
    let pulled = board.pull(&rt, alloc, &other, &mut caller);
    assert!(rt; is_foreign(&pulled));
    assert!(rt; pulled_by(&rt, alloc, &board).counts == [2, 2, 1]);
    forget(pulled);
    forget(caller);
    forget(board);
    forget(other);
    forget(mine);
}

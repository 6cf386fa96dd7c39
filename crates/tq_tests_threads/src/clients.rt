//! Clients and workers in threads.
ghost use Rattle.std.specs.Prelude.{◌≡◌, ◌≤◌};

use crate::gates::{Across, At, By, Counted, Meeting, Tally};
use std::alloc::Global;
use std::mem::forget;
use std::process::Abort;
use std::sync::Wait;
use std::thread::{Threads, join};
use tq_asks::{NodeAsk, WorkAsk};
use tq_cells::{Gate, OpenGate};
use tq_cluster::{Caller, Cluster, LiveBoard, Ran};
use tq_shape::{Levels, Limits, Shared};
use tq_store::FileName;
use tq_syntax::{Script, read_scripts};
use tq_tables::{FileRow, Tables};

// What clusters, callers, boards and journals drop is dear to prove in a crate that lets one go. So a test leaves them
// where they are, and its process ends.

/// A cluster of three servers.
fn cluster<R: Abort, G: Gate + Drop>(rt: &R, alloc: Global, gate: G) -> Cluster<G> {
    Cluster::new(alloc, Levels::new(2).unwrap(), Limits::full(), gate).expect(rt, "memory")
}

/// The scripts of the text, none where it is empty.
fn scripts<R: Abort>(rt: &R, alloc: Global, text: &[u8]) -> Vec<Script> {
    if text.is_empty() {
        return Vec::new(alloc);
    }
    match read_scripts(alloc, text) {
        Ok(scripts) => scripts,
        Err(_) => rt.panic("a bad script"),
    }
}

/// Runs these scripts with so many workers and rounds. Gives the callers of all clients, of all workers and of the calling
/// thread.
fn ran<R: Threads + Wait + Abort + Sync, G: Gate + Drop + Sync>(
    rt: &R,
    alloc: Global,
    cluster: &Cluster<G>,
    text: &[u8],
    workers: u32,
    rounds: u32,
) -> Vec<Caller>
    requires workers { workers ≤ 2 }
    requires rounds { rounds ≤ 1000 }
{
    let scripts = scripts(rt, alloc, text);
    let clients = scripts.len();
    assert!(rt; clients <= 16);
    let Ran {
        callers,
        memory,
        whole,
    } = cluster.run_clients(rt, alloc, scripts, workers, rounds);
    assert!(rt; whole);
    assert!(rt; !memory);
    assert!(rt; callers.len() == clients + workers as usize + 1);
    callers
}

// ---- calls that wait for one another

/// Asks a server for a copy. Whether it was answered.
fn peek<R: Wait + Abort, G: Gate + Drop>(
    rt: &R,
    alloc: Global,
    cluster: &Cluster<G>,
    number: u64,
) -> bool {
    let server = cluster.levels().server(number).expect(rt, "no such server");
    let file = FileName::new(b"a").unwrap();
    let ask = Shared::new(alloc, WorkAsk::Peek { file }).expect(rt, "memory");
    let mut caller = cluster.caller(alloc).expect(rt, "memory");
    let told = cluster.ask_node(rt, alloc, &mut caller, server, NodeAsk::Work(ask));
    let is_told = told.is_ok();
    forget(told);
    forget(caller);
    is_told
}

/// The call at server 1 is held under its lock until one at server 2, which begins after that, was answered.
#[test]
fn two_parts_at_once(rt: HostRuntime) {
    let alloc = rt.alloc();
    let crossing = Meeting::new();
    let cluster = cluster(&rt, alloc, Across(&crossing));
    let (one, two) = join(
        &rt,
        || peek(&rt, alloc, &cluster, 1),
        || {
            crossing.await_first();
            peek(&rt, alloc, &cluster, 2)
        },
    );
    assert!(rt; one && two);
    assert!(rt; crossing.has_met());
    forget(cluster);
}

/// Each call waits for the other under the lock of its server.
#[test]
fn two_clients_at_once(rt: HostRuntime) {
    let alloc = rt.alloc();
    let meeting = Meeting::new();
    meeting.shut();
    let cluster = cluster(&rt, alloc, At(&meeting));
    let text = b"client\ndown 1\nclient\ndown 2\n";
    forget(ran(&rt, alloc, &cluster, text, 0, 0));
    assert!(rt; meeting.has_met());
    forget(cluster);
}

// ---- workers

/// Whether the row is of a file of that name, which is current at each server.
fn is_everywhere(row: &FileRow, name: &[u8]) -> bool {
    row.file.as_bytes() == name && row.stale.is_empty() && !row.current.is_empty()
}

/// Whether these files are all that commits wrote, in that order, each of them current at each server.
fn are_everywhere(rows: &[FileRow], names: &[&[u8]]) -> bool {
    if rows.len() != names.len() {
        return false;
    }
    for (place, row) in rows.iter().enumerate() {
        if !is_everywhere(row, names[place]) {
            return false;
        }
    }
    true
}

/// The tables over the cluster's journals have these files, each of them current at each server.
fn ends_current<R: Abort, G: Gate + Drop>(
    rt: &R,
    alloc: Global,
    cluster: Cluster<G>,
    names: &[&[u8]],
) {
    let journals = cluster
        .into_journals(alloc, Vec::new(alloc))
        .expect(rt, "memory");
    let tables = Tables::of(alloc, &journals).expect(rt, "memory");
    forget(journals);
    assert!(rt; are_everywhere(tables.files(), names));
    forget(tables);
}

/// File a is stale at server 3, and b at server 1: the worker that asks server 1 for a, and the one that asks server 2
/// for b, wait for each other under the locks of these servers. No client runs beside them, and one round puts the jobs.
#[test]
fn two_workers_at_once(rt: HostRuntime) {
    let alloc = rt.alloc();
    let meeting = Meeting::new();
    let cluster = cluster(&rt, alloc, At(&meeting));
    let text = b"client\nbegin\nwrite a x\ncommit\ndown 1\nbegin\nwrite b y\ncommit\nup 1\n";
    forget(ran(&rt, alloc, &cluster, text, 0, 0));
    meeting.shut();
    forget(ran(&rt, alloc, &cluster, b"", 2, 1));
    assert!(rt; meeting.has_met());
    ends_current(&rt, alloc, cluster, &[b"a", b"b"]);
}

/// A worker asks server 1 for its copy while a client chooses: each waits for the other's call.
#[test]
fn worker_beside_client(rt: HostRuntime) {
    let alloc = rt.alloc();
    let beside = Meeting::new();
    let cluster = cluster(&rt, alloc, By(&beside));
    let text = b"client\nbegin\nwrite a x\ncommit\n";
    forget(ran(&rt, alloc, &cluster, text, 0, 0));
    beside.shut();
    forget(ran(&rt, alloc, &cluster, b"client\nchoose\n", 1, 100));
    assert!(rt; beside.has_met());
    ends_current(&rt, alloc, cluster, &[b"a"]);
}

// ---- clusters that are closed

/// The cluster closes with an order of its journals, and these callers were told each entry.
fn closes_whole<R: Abort>(rt: &R, alloc: Global, cluster: Cluster<OpenGate>, callers: Vec<Caller>) {
    let closed = cluster.close(alloc, callers);
    assert!(rt; matches!(&closed, Ok(explained) if explained.unclaimed == 0));
    forget(closed);
}

/// So often a text.
fn repeated<R: Abort>(rt: &R, alloc: Global, text: &[u8], often: u32) -> Vec<u8> {
    let mut all = Vec::new(alloc);
    for _ in 0..often {
        all.extend_from_slice(text).expect(rt, "memory");
    }
    all
}

/// Sixteen clients, which each read and write the files a, b and c, and two workers were told each entry of the journals.
#[test]
fn sixteen_clients_and_two_workers(rt: HostRuntime) {
    let alloc = rt.alloc();
    let cluster = cluster(&rt, alloc, OpenGate);
    let script = b"client\nbegin\nread a\nwrite b x\ncommit\nbegin\nread b\nwrite c y\ncommit\n\
        begin\nread c\nwrite a z\ncommit\n";
    let text = repeated(&rt, alloc, script, 16);
    let callers = ran(&rt, alloc, &cluster, text.as_slice(), 2, 20);
    assert!(rt; callers.len() == 19);
    closes_whole(&rt, alloc, cluster, callers);
}

/// Four clients find the journals full, which have three entries at the most.
#[test]
fn four_clients_fill_the_journals(rt: HostRuntime) {
    let alloc = rt.alloc();
    let limits = Limits::new(1000, 64, 3).unwrap();
    let levels = Levels::new(1).unwrap();
    let cluster = Cluster::new(alloc, levels, limits, OpenGate).expect(&rt, "memory");
    let text = repeated(&rt, alloc, b"client\nbegin\nwrite a x\ncommit\n", 4);
    let callers = ran(&rt, alloc, &cluster, text.as_slice(), 0, 0);
    closes_whole(&rt, alloc, cluster, callers);
}

// ---- small limits

/// Limits of three entries.
fn few() -> Limits
    ensures { result ≡ record { files = 10; ops = 10; entries = 3 } }
{
    Limits::new(10, 10, 3).unwrap()
}

/// A board pulls three entries of the desk, and of the view.
fn pulls_three<R: Wait + Abort, G: Gate + Drop>(rt: &R, alloc: Global, cluster: &Cluster<G>)
    requires levels { cluster.now.levels ≡ 1 }
    requires limits { cluster.now.limits ≡ record { files = 10; ops = 10; entries = 3 } }
{
    let mut caller = cluster.caller(alloc).expect(rt, "memory");
    let mut board = LiveBoard::new(alloc, cluster.levels(), few()).expect(rt, "memory");
    let pulled = board.pull(rt, alloc, cluster, &mut caller);
    assert!(rt; pulled.is_ok());
    forget(pulled);
    forget(caller);
    assert!(rt; board.desk().len() == 3 && board.view().len() == 3);
    forget(board);
}

/// Each part of a cluster whose journals may have three entries takes so many, and no more; a board pulls them, and they
/// come out. The gate is told of each of the 14 asks: five of the desk, five of the view and four of the server.
#[test]
fn each_part_takes_as_many_as_the_limit(rt: HostRuntime) {
    let alloc = rt.alloc();
    let tally = Tally::new();
    let levels = Levels::new(1).unwrap();
    let cluster = Cluster::new(alloc, levels, few(), Counted(&tally)).expect(&rt, "memory");
    let text = b"client\nbegin\nbegin\nbegin\ndown 1\nup 1\ndown 1\nup 1\nchoose\n";
    forget(ran(&rt, alloc, &cluster, text, 0, 0));
    assert!(rt; tally.is(5, 5, 4));
    pulls_three(&rt, alloc, &cluster);
    let journals = cluster
        .into_journals(alloc, Vec::new(alloc))
        .expect(&rt, "memory");
    assert!(rt; journals.desk().len() == 3 && journals.view().len() == 3);
    for entries in journals.servers() {
        assert!(rt; entries.len() == 3);
    }
    forget(journals);
}

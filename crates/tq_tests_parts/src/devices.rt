//! Devices in memory whose calls fail: what was written then, and a second run over them.
ghost use Rattle.std.specs.Prelude.{◌≡◌, ◌<◌};

use std::alloc::Global;
use std::sync::Wait;
use std::thread::Threads;
use tq_devices::{MemorySink, MemorySource, RunFault, Sink, Source};
use tq_shape::Levels;
use tq_shell::{audit, rehearse, run, threads, upgrade};

/// What is called over a source and a sink, in a tree of two levels. A rehearsal has two sources: the one that may fail has its
/// lines or its journals.
#[derive(Clone, Copy)]
enum Called {
    Run,
    Audit,
    Upgrade,
    Threads,
    RehearseLines,
    RehearseJournals,
}

/// A call, what it is given, and what it writes.
struct Row {
    called: Called,
    given: &'static [u8],
    written: &'static [u8],
}

/// A committed write is read without the root.
const RUN: Row = Row {
    called: Called::Run,
    given: b"begin\nwrite 1 a hello\ncommit 1\ndown 1\nbegin\nread 2 a\n",
    written: b"begun 1\nwrite a version 1 at 1 2\ncommitted 1\ndown 1\nbegun 2\na version 1 from 2 3 [hello]\n",
};

/// A client that chooses.
const THREADS: Row = Row {
    called: Called::Threads,
    given: b"client\nchoose\n",
    written: JOURNALS,
};

/// Its journals.
const AUDIT: Row = Row {
    called: Called::Audit,
    given: JOURNALS,
    written: b"explained 1\n",
};

/// The same journals in the older format.
const UPGRADE: Row = Row {
    called: Called::Upgrade,
    given: b"{\"desk\":[],\"format\":1,\"levels\":2,\"limits\":{\"entries\":1000000,\"files\":1000,\"ops\":64},\"servers\":[[],[],[]],\"view\":[{\"ask\":{\"is\":\"choose\"},\"reply\":{\"cost\":2,\"is\":\"chosen\",\"servers\":[1,2]}}]}\n",
    written: JOURNALS,
};

const JOURNALS: &[u8] =
    b"{\"desk\":[],\"format\":2,\"levels\":2,\"limits\":{\"entries\":1000000,\"files\":1000,\"ops\":64},\"servers\":[[],[],[]],\"view\":[{\"ask\":{\"is\":\"choose\",\"purpose\":\"read\"},\"reply\":{\"cost\":2,\"is\":\"chosen\",\"servers\":[1,2]}}]}\n";

/// Journals whose server 1 is down.
const DOWN: &[u8] =
    b"{\"desk\":[],\"format\":2,\"levels\":2,\"limits\":{\"entries\":1000000,\"files\":1000,\"ops\":64},\"servers\":[[{\"ask\":{\"is\":\"crash\"},\"reply\":{\"is\":\"crashed\"}}],[],[]],\"view\":[{\"ask\":{\"is\":\"mark\",\"server\":1,\"up\":false},\"reply\":{\"is\":\"marked\"}}]}\n";

/// Lines over them, and their answers.
const LINES: &[u8] = b"choose\nbegin\nwrite 1 a hello\ncommit 1\nup 1\n";

const ANSWERS: &[u8] = b"quorum 2 3 cost 2\nbegun 1\nwrite a version 1 at 2 3\ncommitted 1\nup 1\n";

const REHEARSED_LINES: Row = Row {
    called: Called::RehearseLines,
    given: LINES,
    written: ANSWERS,
};

const REHEARSED_JOURNALS: Row = Row {
    called: Called::RehearseJournals,
    given: DOWN,
    written: ANSWERS,
};

/// More calls of a device than any of these makes.
const MOST_CALLS: u64 = 400;

/// Makes the call; the status is left.
fn call<H: Threads + Wait + Sync>(
    rt: &H,
    alloc: Global,
    called: Called,
    source: &mut MemorySource<'_>,
    sink: &mut MemorySink,
) -> Result<(), RunFault>
    requires source { source.old.failed ≡ 0 }
    requires sink { sink.old.failed ≡ 0 }
{
    let levels = Levels::new(2).unwrap();
    match called {
        Called::Run => run(alloc, levels, source, sink),
        Called::Audit => done(audit(alloc, source, sink)),
        Called::Upgrade => done(upgrade(alloc, source, sink)),
        Called::Threads => done(threads(rt, alloc, levels, 0, 0, source, sink)),
        Called::RehearseLines => rehearse_lines(alloc, source, sink),
        Called::RehearseJournals => rehearse_journals(alloc, source, sink),
    }
}

/// Rehearses the lines over journals that are read whole.
fn rehearse_lines(
    alloc: Global,
    lines: &mut MemorySource<'_>,
    sink: &mut MemorySink,
) -> Result<(), RunFault>
    requires source { lines.old.failed ≡ 0 }
    requires sink { sink.old.failed ≡ 0 }
{
    let mut journals = MemorySource::new(DOWN, 1000, None);
    done(rehearse(alloc, &mut journals, lines, sink))
}

/// Rehearses lines that are read whole over the journals.
fn rehearse_journals(
    alloc: Global,
    journals: &mut MemorySource<'_>,
    sink: &mut MemorySink,
) -> Result<(), RunFault>
    requires source { journals.old.failed ≡ 0 }
    requires sink { sink.old.failed ≡ 0 }
{
    let mut lines = MemorySource::new(LINES, 1000, None);
    done(rehearse(alloc, journals, &mut lines, sink))
}

/// What was done, without its status.
fn done(ended: Result<u8, RunFault>) -> Result<(), RunFault> {
    match ended {
        Ok(_status) => Ok(()),
        Err(fault) => Err(fault),
    }
}

/// Whether the bytes are a beginning of the others.
fn begins(bytes: &[u8], all: &[u8]) -> bool {
    all.starts_with(bytes)
}

/// Whether the bytes are no line, or whole ones.
fn are_lines(bytes: &[u8]) -> bool {
    match bytes.last() {
        Some(last) => *last == b'\n',
        None => true,
    }
}

/// Whether, where the source fails at one of its reads, in turn at each, whole lines were written, the first ones; and all
/// where it fails at none.
fn reads_fail<H: Threads + Wait + Sync>(rt: &H, alloc: Global, row: &Row, piece: usize) -> bool
    requires { 0 < piece }
{
    for number in 0..MOST_CALLS {
        let mut source = MemorySource::new(row.given, piece, Some(number));
        let mut sink = MemorySink::new(alloc, piece, None);
        match call(rt, alloc, row.called, &mut source, &mut sink) {
            Ok(()) => return sink.bytes() == row.written,
            Err(RunFault::Read) => (),
            Err(_) => return false,
        }
        if !begins(sink.bytes(), row.written) {
            return false;
        }
        if !are_lines(sink.bytes()) {
            return false;
        }
    }
    false
}

/// Whether, where the sink fails at one of its writes, in turn at each, what was written is a beginning; and all where it
/// fails at none.
fn writes_fail<H: Threads + Wait + Sync>(rt: &H, alloc: Global, row: &Row, piece: usize) -> bool
    requires { 0 < piece }
{
    for number in 0..MOST_CALLS {
        let mut source = MemorySource::new(row.given, piece, None);
        let mut sink = MemorySink::new(alloc, piece, Some(number));
        match call(rt, alloc, row.called, &mut source, &mut sink) {
            Ok(()) => return sink.bytes() == row.written,
            Err(RunFault::Write) => (),
            Err(_) => return false,
        }
        if !begins(sink.bytes(), row.written) {
            return false;
        }
    }
    false
}

/// Whether that is so in pieces of one byte, of seven and of all.
fn devices_fail<H: Threads + Wait + Sync>(rt: &H, alloc: Global, row: &Row) -> bool {
    for piece in [1, 7, 1000] {
        if !reads_fail(rt, alloc, row, piece) {
            return false;
        }
        if !writes_fail(rt, alloc, row, piece) {
            return false;
        }
    }
    true
}

#[test]
fn each_call_of_a_device_fails_in_a_run(rt: HostRuntime) {
    assert!(rt; devices_fail(&rt, rt.alloc(), &RUN));
}

#[test]
fn each_call_of_a_device_fails_in_an_audit(rt: HostRuntime) {
    assert!(rt; devices_fail(&rt, rt.alloc(), &AUDIT));
}

#[test]
fn each_call_of_a_device_fails_in_an_upgrade(rt: HostRuntime) {
    assert!(rt; devices_fail(&rt, rt.alloc(), &UPGRADE));
}

#[test]
fn each_call_of_a_device_fails_in_threads(rt: HostRuntime) {
    assert!(rt; devices_fail(&rt, rt.alloc(), &THREADS));
}

#[test]
fn each_call_of_a_device_fails_in_a_rehearsal(rt: HostRuntime) {
    assert!(rt; devices_fail(&rt, rt.alloc(), &REHEARSED_LINES));
    assert!(rt; devices_fail(&rt, rt.alloc(), &REHEARSED_JOURNALS));
}

/// The first run ends by the read that fails, with what had come of a line by then. The second one goes on behind the
/// bytes that the first one read, up to the write that fails, which leaves what was written before.
#[test]
fn the_next_run_goes_on_behind_a_failed_read(rt: HostRuntime) {
    let alloc = rt.alloc();
    let levels = Levels::new(1).unwrap();
    let mut source = MemorySource::new(b"choose\nchoose\ndown 1\n", 9, Some(1));
    let mut sink = MemorySink::new(alloc, 5, Some(7));
    let first = run(alloc, levels, &mut source, &mut sink);
    assert!(rt; matches!(&first, Err(RunFault::Read)));
    assert!(rt; source.failures() == 1);
    assert!(rt; sink.failures() == 0);
    assert!(rt; sink.bytes() == b"quorum 1 cost 1\n".as_slice());
    let second = run(alloc, levels, &mut source, &mut sink);
    assert!(rt; matches!(&second, Err(RunFault::Write)));
    assert!(rt; sink.failures() == 1);
    assert!(rt; sink.bytes() == b"quorum 1 cost 1\nbad line\ndown ".as_slice());
}
